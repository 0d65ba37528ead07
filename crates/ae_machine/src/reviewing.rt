// Why a review isn't begun, passed or failed, or isn't undone.
ghost use Rattle.std.specs.Prelude.{◌≡◌, ◌∷◌, []};
ghost use Rattle.ae_base.specs.declared.refusal.Refusal.TheVariants.{NotThisReviewer};
ghost use Rattle.ae_policy.specs.Making.{IsPermission};
ghost use Rattle.ae_policy.specs.Reviewing.{is_person};
ghost use Rattle.ae_machine.specs.Call.{first_of, unless};
ghost use Rattle.ae_machine.specs.Permission.{caller_is_reviewer, caller_passed, caller_reviews, may_review, nobody_else_reviews};
ghost use Rattle.ae_machine.specs.Refused.{Answers};
ghost use Rattle.ae_machine.specs.Verdict.{asked};

use crate::call::Call;
use crate::refused::Refused;
use crate::refusing::{history_has_room, right_phase};
use ae_base::{Refusal, Role, User};
use ae_policy::{has_role, may_review};
use ae_words::Function;
use std::alloc::Global;

fn caller_is_reviewer(call: &Call) -> Result<(), Refusal>
    ensures { IsPermission (caller_is_reviewer call.now) result }
{
    if has_role(call.state().project(), Role::Reviewer, call.who()) {
        Ok(())
    } else {
        Err(Refusal::NotReviewer)
    }
}

// The caller is a reviewer, nobody else began the review, and he is another than the developer, unless developers may review.
fn caller_may_review(alloc: Global, call: &Call) -> Result<(), Refused>
    ensures { Answers (first_of (caller_is_reviewer ∷ nobody_else_reviews ∷ may_review ∷ []) call.now) result }
{
    match call.change() {
        Some(change) => may_review(alloc, call.state().project(), change, call.who())?,
        None => caller_is_reviewer(call)?,
    }
    Ok(())
}

// The caller began the review.
fn caller_reviews(alloc: Global, call: &Call) -> Result<(), Refused>
    ensures { Answers (caller_reviews call.now) result }
{
    match call.change() {
        Some(change) => is_this_reviewer(alloc, &change.reviewing, call.who()),
        None => Ok(()),
    }
}

// The caller passed the change.
fn caller_passed(alloc: Global, call: &Call) -> Result<(), Refused>
    ensures { Answers (caller_passed call.now) result }
{
    match call.change() {
        Some(change) => is_this_reviewer(alloc, &change.reviewer, call.who()),
        None => Ok(()),
    }
}

// The reviewer is this user.
fn is_this_reviewer(alloc: Global, reviewer: &Option<User>, who: &User) -> Result<(), Refused>
    ensures { Answers (unless (is_person who.now reviewer.now) (NotThisReviewer reviewer.now)) result }
{
    match reviewer {
        Some(reviewer) if who.bytes() == reviewer.bytes() => Ok(()),
        Some(reviewer) => {
            let reviewer = reviewer.copy(alloc)?;
            Err(Refused::Because(Refusal::NotThisReviewer(Some(reviewer))))
        }
        None => Err(Refused::Because(Refusal::NotThisReviewer(None))),
    }
}

// ---- functions

pub(crate) fn review_fail(alloc: Global, call: &Call) -> Result<(), Refused>
    ensures { Answers (first_of (asked Function.ReviewFail) call.now) result }
{
    right_phase(call)?;
    caller_may_review(alloc, call)
}

pub(crate) fn review_pass(alloc: Global, call: &Call) -> Result<(), Refused>
    ensures { Answers (first_of (asked Function.ReviewPass) call.now) result }
{
    right_phase(call)?;
    caller_may_review(alloc, call)?;
    history_has_room(call)?;
    Ok(())
}

/// As nobody began the review yet, it is refused as the pass of the change would be.
pub(crate) fn review_begin(alloc: Global, call: &Call) -> Result<(), Refused>
    requires begin { call.now.command.function ≡ Function.ReviewBegin }
    ensures { Answers (first_of (asked Function.ReviewBegin) call.now) result }
{
    call.note_sound();
    review_pass(alloc, call)
}

pub(crate) fn review_begin_undo(alloc: Global, call: &Call) -> Result<(), Refused>
    ensures { Answers (first_of (asked Function.ReviewBeginUndo) call.now) result }
{
    right_phase(call)?;
    caller_reviews(alloc, call)
}

pub(crate) fn review_pass_undo(alloc: Global, call: &Call) -> Result<(), Refused>
    ensures { Answers (first_of (asked Function.ReviewPassUndo) call.now) result }
{
    right_phase(call)?;
    caller_passed(alloc, call)
}
