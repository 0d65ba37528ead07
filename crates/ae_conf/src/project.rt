// The attributes of a project.
ghost use Rattle.std.specs.Prelude.{◌≡◌, IfOk};
ghost use Rattle.ae_text.specs.View.{fields_seen};
ghost use Rattle.ae_conf.specs.Answers.{IsAnswer};
ghost use Rattle.ae_conf.specs.Values.{end_action_in};
ghost use Rattle.ae_conf.specs.Fields.{given};
ghost use Rattle.ae_conf.specs.Project.{given_project, project_attributes};

use crate::ConfError;
use crate::fields::{Kinds, flag_or, text_or, value_of};
use crate::kind::FieldKind;
use crate::text::{fields_of, read_right};
use crate::values::end_action_in;
use ae_text::Field;
use ae_types::{Attributes, EndAction};
use std::alloc::{AllocError, Global};

fn end_action_or(fields: &[Field], name: &[u8], old: EndAction) -> EndAction
    ensures { result ≡ given end_action_in name.now (fields_seen fields.now) old }
{
    value_of(fields, name)
        .and_then(end_action_in)
        .unwrap_or(old)
}

// The attributes that the fields give, and else the old ones.
fn with_given(alloc: Global, fields: &[Field], old: &Attributes) -> Result<Attributes, AllocError>
    ensures { IfOk result (λ new. new ≡ given_project (fields_seen fields.now) old.now) }
{
    Ok(Attributes {
        description: text_or(alloc, fields, b"description", &old.description)?,
        developer_may_review: flag_or(fields, b"developer_may_review", old.developer_may_review),
        developer_may_integrate: flag_or(
            fields,
            b"developer_may_integrate",
            old.developer_may_integrate,
        ),
        reviewer_may_integrate: flag_or(
            fields,
            b"reviewer_may_integrate",
            old.reviewer_may_integrate,
        ),
        developers_may_create_changes: flag_or(
            fields,
            b"developers_may_create_changes",
            old.developers_may_create_changes,
        ),
        develop_end_action: end_action_or(fields, b"develop_end_action", old.develop_end_action),
        default_test_exemption: flag_or(
            fields,
            b"default_test_exemption",
            old.default_test_exemption,
        ),
    })
}

/// The attributes of a project as a file of these bytes sets them: those that it gives replace the old ones, and its other
/// fields are passed over.
pub fn read_project_attributes(
    alloc: Global,
    bytes: &[u8],
    old: &Attributes,
) -> Result<Attributes, ConfError>
    ensures { IsAnswer (project_attributes bytes.now old.now) result }
{
    let kinds: Kinds = &[
        ("description", FieldKind::Text),
        ("developer_may_review", FieldKind::Flag),
        ("developer_may_integrate", FieldKind::Flag),
        ("reviewer_may_integrate", FieldKind::Flag),
        ("developers_may_create_changes", FieldKind::Flag),
        ("develop_end_action", FieldKind::EndAction),
        ("default_test_exemption", FieldKind::Flag),
    ];
    let parsed = read_right(alloc, kinds, bytes)?;
    let new = with_given(alloc, fields_of(&parsed.tree), old);
    drop(parsed);
    Ok(new?)
}
