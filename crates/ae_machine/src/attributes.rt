// What a file of attributes that a command names gives.
ghost use Rattle.std.specs.Prelude.{◌≡◌, IfOk, option_copied};
ghost use Rattle.ae_conf.specs.Change.{change_attributes};
ghost use Rattle.ae_conf.specs.Project.{project_attributes};
ghost use Rattle.ae_machine.specs.Attributes.{first_attributes, first_change_attributes, or_bad_line, file_gives};

use ae_base::limits::MOST_ATTRIBUTE_BYTES;
use ae_base::{Cause, Path, Refusal, Text, Which};
use ae_conf::{ConfError, read_change_attributes, read_project_attributes};
use ae_outside::Content;
use ae_types::{Attributes, ChangeAttributes, EndAction, TryCopy};
use std::alloc::{AllocError, Global};

/// The attributes that every project has first.
pub(crate) fn first_attributes(alloc: Global) -> Attributes
    ensures { result ≡ first_attributes }
{
    Attributes {
        description: Text::of(Vec::new(alloc)),
        developer_may_review: false,
        developer_may_integrate: false,
        reviewer_may_integrate: false,
        developers_may_create_changes: false,
        develop_end_action: EndAction::BeingReviewed,
        default_test_exemption: false,
    }
}

/// The attributes that every change of a project with these attributes has first.
pub(crate) fn first_change_attributes(alloc: Global, attributes: &Attributes) -> ChangeAttributes
    ensures { result ≡ first_change_attributes attributes.now }
{
    ChangeAttributes {
        brief: Text::of(Vec::new(alloc)),
        description: Text::of(Vec::new(alloc)),
        cause: Cause::InternalEnhancement,
        test_exempt: attributes.default_test_exemption,
        test_baseline_exempt: false,
        regression_test_exempt: false,
    }
}

// The project's attributes after bytes, or why they are refused.
fn project_bytes(
    alloc: Global,
    old: &Attributes,
    bytes: &Text,
) -> Result<Result<Attributes, Refusal>, AllocError>
    ensures { IfOk result (λ given. given ≡ or_bad_line (project_attributes bytes.now old.now)) }
{
    match read_project_attributes(alloc, bytes.bytes(), old) {
        Ok(attributes) => Ok(Ok(attributes)),
        Err(ConfError::Line(line)) => Ok(Err(Refusal::BadAttributes(line))),
        Err(ConfError::Memory) => Err(AllocError),
    }
}

// The change's attributes after bytes, or why they are refused.
fn change_bytes(
    alloc: Global,
    old: &ChangeAttributes,
    bytes: &Text,
) -> Result<Result<ChangeAttributes, Refusal>, AllocError>
    ensures { IfOk result (λ given. given ≡ or_bad_line (change_attributes bytes.now old.now)) }
{
    match read_change_attributes(alloc, bytes.bytes(), old) {
        Ok(attributes) => Ok(Ok(attributes)),
        Err(ConfError::Line(line)) => Ok(Err(Refusal::BadAttributes(line))),
        Err(ConfError::Memory) => Err(AllocError),
    }
}

/// The project's attributes after the file that a command names, if it names one, or why that is refused.
pub(crate) fn project_file(
    alloc: Global,
    old: &Attributes,
    path: Option<&Path>,
    content: &Content,
) -> Result<Result<Attributes, Refusal>, AllocError>
    ensures { IfOk result (λ given. given ≡ file_gives project_attributes old.now (option_copied path.entry) content.now) }
{
    let Some(path) = path else {
        return Ok(Ok(old.copy(alloc)?));
    };
    match content {
        Content::Absent => Ok(Err(Refusal::NoAttributes(path.copy(alloc)?))),
        Content::TooLong => Ok(Err(Refusal::Limit(
            Which::AttributeBytes,
            MOST_ATTRIBUTE_BYTES as u64,
        ))),
        Content::Bytes(bytes) => project_bytes(alloc, old, bytes),
    }
}

/// The change's attributes after the file that a command names, if it names one, or why that is refused.
pub(crate) fn change_file(
    alloc: Global,
    old: &ChangeAttributes,
    path: Option<&Path>,
    content: &Content,
) -> Result<Result<ChangeAttributes, Refusal>, AllocError>
    ensures { IfOk result (λ given. given ≡ file_gives change_attributes old.now (option_copied path.entry) content.now) }
{
    let Some(path) = path else {
        return Ok(Ok(old.copy(alloc)?));
    };
    match content {
        Content::Absent => Ok(Err(Refusal::NoAttributes(path.copy(alloc)?))),
        Content::TooLong => Ok(Err(Refusal::Limit(
            Which::AttributeBytes,
            MOST_ATTRIBUTE_BYTES as u64,
        ))),
        Content::Bytes(bytes) => change_bytes(alloc, old, bytes),
    }
}
