// The attributes of a change.
ghost use Rattle.std.specs.Prelude.{◌≡◌, IfOk};
ghost use Rattle.ae_text.specs.View.{fields_seen};
ghost use Rattle.ae_conf.specs.Answers.{IsAnswer};
ghost use Rattle.ae_conf.specs.Values.{cause_in};
ghost use Rattle.ae_conf.specs.Fields.{given};
ghost use Rattle.ae_conf.specs.Change.{given_change, change_attributes};

use crate::ConfError;
use crate::fields::{Kinds, flag_or, text_or, value_of};
use crate::kind::FieldKind;
use crate::text::{fields_of, read_right};
use crate::values::cause_in;
use ae_base::Cause;
use ae_text::Field;
use ae_types::ChangeAttributes;
use std::alloc::{AllocError, Global};

fn cause_or(fields: &[Field], name: &[u8], old: Cause) -> Cause
    ensures { result ≡ given cause_in name.now (fields_seen fields.now) old }
{
    value_of(fields, name).and_then(cause_in).unwrap_or(old)
}

// The attributes that the fields give, and else the old ones.
fn with_given(
    alloc: Global,
    fields: &[Field],
    old: &ChangeAttributes,
) -> Result<ChangeAttributes, AllocError>
    ensures { IfOk result (λ new. new ≡ given_change (fields_seen fields.now) old.now) }
{
    Ok(ChangeAttributes {
        brief: text_or(alloc, fields, b"brief_description", &old.brief)?,
        description: text_or(alloc, fields, b"description", &old.description)?,
        cause: cause_or(fields, b"cause", old.cause),
        test_exempt: flag_or(fields, b"test_exempt", old.test_exempt),
        test_baseline_exempt: flag_or(fields, b"test_baseline_exempt", old.test_baseline_exempt),
        regression_test_exempt: flag_or(
            fields,
            b"regression_test_exempt",
            old.regression_test_exempt,
        ),
    })
}

/// The attributes of a change as a file of these bytes sets them: those that it gives replace the old ones, and its other
/// fields are passed over.
pub fn read_change_attributes(
    alloc: Global,
    bytes: &[u8],
    old: &ChangeAttributes,
) -> Result<ChangeAttributes, ConfError>
    ensures { IsAnswer (change_attributes bytes.now old.now) result }
{
    let kinds: Kinds = &[
        ("brief_description", FieldKind::Text),
        ("description", FieldKind::Text),
        ("cause", FieldKind::Cause),
        ("test_exempt", FieldKind::Flag),
        ("test_baseline_exempt", FieldKind::Flag),
        ("regression_test_exempt", FieldKind::Flag),
    ];
    let parsed = read_right(alloc, kinds, bytes)?;
    let new = with_given(alloc, fields_of(&parsed.tree), old);
    drop(parsed);
    Ok(new?)
}
