// Who reviewed a change, by its records.
ghost use Rattle.std.specs.Prelude.{◌≡◌, IfOk, option_copied, Some, None};
ghost use Rattle.ae_audit.specs.Review.{passer_after, passer_of, is_user};
ghost use Rattle.ae_audit.specs.Steps.{IsMark};

use crate::Mark;
use ae_base::{User, What};
use ae_types::{Change, HistoryRow};
use std::alloc::{AllocError, Global};

// What a row makes of who passed the change.
fn passer_after<'a>(row: &'a HistoryRow, earlier: Option<&'a User>) -> Option<&'a User>
    ensures { option_copied result ≡ passer_after row.now.what row.now.who (option_copied earlier.entry) }
{
    match row.what {
        What::ReviewPass => Some(&row.who),
        What::DevelopEnd => None,
        _ => earlier,
    }
}

// Who made the last pass of a review, where it stands after the last end of development.
fn passer_of(rows: &[HistoryRow]) -> Option<&User>
    ensures { option_copied result ≡ passer_of rows.now }
{
    let mut passed = None;
    for row in rows {
        passed = passer_after(row, passed);
    }
    passed
}

// Whether it is this user.
fn is_user(user: &Option<User>, other: &User) -> bool
    ensures { result ≡ is_user user.now other.now }
{
    match user {
        Some(user) => other.bytes() == user.bytes(),
        None => false,
    }
}

/// The mark that fits the change; none where none does.
pub(crate) fn mark_of(alloc: Global, change: &Change) -> Result<Option<Mark>, AllocError>
    ensures { IfOk result (λ mark. IsMark change.now mark) }
{
    let passed = passer_of(change.history.as_slice());
    let Some(reviewer) = &change.reviewer else {
        return Ok(match passed {
            Some(_) => None,
            None => Some(Mark::Nobody),
        });
    };
    let Some(user) = passed else {
        return Ok(None);
    };
    if user.bytes() != reviewer.bytes() {
        return Ok(None);
    }
    let user = reviewer.copy(alloc)?;
    if is_user(&change.developer, reviewer) {
        Ok(Some(Mark::Developer(user)))
    } else {
        Ok(Some(Mark::Other(user)))
    }
}
