// The file of a change.
ghost use Rattle.std.specs.Prelude.{◌≡◌, ℕ, Err, IfOk, OnOk, IsTrue, IfSome, map, ◌++◌};
ghost use Rattle.ae_text.specs.Canonical.{fields_text};
ghost use Rattle.ae_text.specs.View.{members_of};
ghost use Rattle.ae_types.specs.declared.change.Change.{Change};
ghost use Rattle.ae_schema.specs.Records.{IsTextOf, IsBadLine, IsAnswer, IsRefusal};
ghost use Rattle.ae_schema.specs.Files.{subject_fields, exemption_fields, people_fields, row_fields, change_fields};
ghost use Rattle.ae_schema.specs.Fits.{IsChangeNo, HoldsPeople, HoldsRows, HoldsChange, FitsChange, ChangeAscends};
ghost use Rattle.ae_schema.specs.Put.{ArePut, lines};
ghost use Rattle.ae_schema.specs.Shapes.{settings_from, change_from};

use crate::ascending::Ascending;
use crate::fields::{End, Then};
use crate::format::{FormatOne, FormatTwo, FormatType};
use crate::history::History;
use crate::record::{guess_record, read_record};
use crate::value::{put_line, put_lines};
use crate::{Format, SchemaError};
use ae_base::{Cause, ChangeNo, Phase, Text, User};
use ae_types::{Change, ChangeAttributes, ChangeFile, Evidence};
use std::alloc::{AllocError, Global};

type RowFields<F> = Then<Ascending<ChangeFile>, Then<Ascending<Evidence>, Then<History<F>, End>>>;

type PersonFields<F> = Then<
    Option<User>,
    Then<Option<User>, Then<Option<User>, Then<Option<User>, RowFields<F>>>>,
>;

type ExemptionFields<F> = Then<bool, Then<bool, Then<bool, Then<Phase, PersonFields<F>>>>>;

type SettingsFields<F> = Then<Text, Then<Text, Then<Cause, ExemptionFields<F>>>>;

type ChangeFields<F> = Then<ChangeNo, SettingsFields<F>>;

// The settings, and the fields after them.
fn attributes_of<F: FormatType>(
    fields: SettingsFields<F>,
) -> (ChangeAttributes, Then<Phase, PersonFields<F>>)
    ensures settings { result.0 ≡ settings_from fields }
    ensures behind { result.1 ≡ fields.rest.rest.rest.rest.rest.rest }
{
    let Then { first: brief, rest } = fields;
    let Then {
        first: description,
        rest,
    } = rest;
    let Then { first: cause, rest } = rest;
    let Then {
        first: test_exempt,
        rest,
    } = rest;
    let Then {
        first: test_baseline_exempt,
        rest,
    } = rest;
    let Then {
        first: regression_test_exempt,
        rest,
    } = rest;
    let attributes = ChangeAttributes {
        brief,
        description,
        cause,
        test_exempt,
        test_baseline_exempt,
        regression_test_exempt,
    };
    (attributes, rest)
}

fn change_of<F: FormatType>(fields: ChangeFields<F>) -> Change
    ensures value { result ≡ change_from fields }
    ensures ascend { ChangeAscends result }
{
    let Then {
        first: number,
        rest,
    } = fields;
    let (attributes, rest) = attributes_of(rest);
    let Then { first: phase, rest } = rest;
    let Then {
        first: developer,
        rest,
    } = rest;
    let Then {
        first: reviewing,
        rest,
    } = rest;
    let Then {
        first: reviewer,
        rest,
    } = rest;
    let Then {
        first: integrator,
        rest,
    } = rest;
    let Then { first: files, rest } = rest;
    let Then {
        first: evidence,
        rest,
    } = rest;
    let Then {
        first: history,
        rest: End,
    } = rest;
    Change {
        number,
        attributes,
        phase,
        developer,
        reviewing,
        reviewer,
        integrator,
        files: files.into_rows(),
        evidence: evidence.into_rows(),
        history: history.into_rows(),
    }
}

// The names of its fields.
const FIELD_NAMES: [&[u8]; 15] = [
    b"number",
    b"brief_description",
    b"description",
    b"cause",
    b"test_exempt",
    b"test_baseline_exempt",
    b"regression_test_exempt",
    b"phase",
    b"developer",
    b"reviewing",
    b"reviewer",
    b"integrator",
    b"files",
    b"evidence",
    b"history",
];

// The change of which the bytes are a text in the format of this type.
fn read_as<F: FormatType>(alloc: Global, bytes: &[u8]) -> Result<Change, SchemaError>
    ensures found { IfOk result (λ c. IsTextOf bytes.now (change_fields F.format c)) }
    ensures fits { IfOk result (FitsChange F.format) }
    ensures only { (c : Change) → FitsChange F.format c → IsTextOf bytes.now (change_fields F.format c) → IsAnswer c result }
    ensures field { (line : ℕ) → result ≡ Err (SchemaError.Field line) → IsBadLine (FitsChange F.format) (change_fields F.format) bytes.now line }
    ensures only_field { (line : ℕ) → IsBadLine (FitsChange F.format) (change_fields F.format) bytes.now line → IsRefusal line result }
{
    match read_record::<ChangeFields<F>>(alloc, &FIELD_NAMES, bytes) {
        Ok(fields) => Ok(change_of(fields)),
        Err(error) => Err(error),
    }
}

// Whether the bytes are what is printed of this change.
fn are_printed(alloc: Global, change: &Change, bytes: &[u8]) -> Result<bool, AllocError>
    ensures text { IfOk result (λ same. IsTrue same → IsTextOf bytes.now (change_fields Format.Two change.now)) }
    ensures fits { IfOk result (λ same. HoldsChange Format.Two change.now) }
{
    let text = print_change(alloc, change)?;
    Ok(text.as_slice() == bytes)
}

// The change that is printed as these bytes.
fn read_printed(alloc: Global, bytes: &[u8]) -> Result<Option<Change>, AllocError>
    ensures found { IfOk result (λ read. IfSome read (λ c. IsTextOf bytes.now (change_fields Format.Two c))) }
    ensures fits { IfOk result (λ read. IfSome read (FitsChange Format.Two)) }
{
    let Some(fields) = guess_record::<ChangeFields<FormatTwo>>(alloc, &FIELD_NAMES, bytes)? else {
        return Ok(None);
    };
    let change = change_of(fields);
    match are_printed(alloc, &change, bytes) {
        Ok(true) => Ok(Some(change)),
        Ok(false) => {
            drop(change);
            Ok(None)
        }
        Err(error) => {
            drop(change);
            Err(error)
        }
    }
}

// The change of which the bytes are a text in the second format.
fn read_second(alloc: Global, bytes: &[u8]) -> Result<Change, SchemaError>
    ensures found { IfOk result (λ c. IsTextOf bytes.now (change_fields Format.Two c)) }
    ensures fits { IfOk result (FitsChange Format.Two) }
    ensures only { (c : Change) → FitsChange Format.Two c → IsTextOf bytes.now (change_fields Format.Two c) → IsAnswer c result }
    ensures field { (line : ℕ) → result ≡ Err (SchemaError.Field line) → IsBadLine (FitsChange Format.Two) (change_fields Format.Two) bytes.now line }
    ensures only_field { (line : ℕ) → IsBadLine (FitsChange Format.Two) (change_fields Format.Two) bytes.now line → IsRefusal line result }
{
    match read_printed(alloc, bytes) {
        Ok(Some(change)) => Ok(change),
        Ok(None) => read_as::<FormatTwo>(alloc, bytes),
        Err(_) => Err(SchemaError::Memory),
    }
}

/// The change of which the bytes are a text in this format. By the first each reason is empty.
pub fn read_change_in(alloc: Global, format: Format, bytes: &[u8]) -> Result<Change, SchemaError>
    // The bytes are a text of the fields of what is read.
    ensures found { IfOk result (λ c. IsTextOf bytes.now (change_fields format c)) }
    // What is read keeps what its types can hold, and files and runs ascend.
    ensures fits { IfOk result (FitsChange format) }
    // A text of the fields of such a change is read as it.
    ensures only { (c : Change) → FitsChange format c → IsTextOf bytes.now (change_fields format c) → IsAnswer c result }
    // A line is that of the first token or field that can't stand there.
    ensures field { (line : ℕ) → result ≡ Err (SchemaError.Field line) → IsBadLine (FitsChange format) (change_fields format) bytes.now line }
    // Where a token or field can't stand, that line comes.
    ensures only_field { (line : ℕ) → IsBadLine (FitsChange format) (change_fields format) bytes.now line → IsRefusal line result }
{
    match format {
        Format::One => read_as::<FormatOne>(alloc, bytes),
        Format::Two => read_second(alloc, bytes),
    }
}

/// The change of which the bytes are a text in the second format.
pub fn read_change(alloc: Global, bytes: &[u8]) -> Result<Change, SchemaError>
    // The bytes are a text of the fields of what is read.
    ensures found { IfOk result (λ c. IsTextOf bytes.now (change_fields Format.Two c)) }
    // What is read keeps what its types can hold, and files and runs ascend.
    ensures fits { IfOk result (FitsChange Format.Two) }
    // A text of the fields of such a change is read as it.
    ensures only { (c : Change) → FitsChange Format.Two c → IsTextOf bytes.now (change_fields Format.Two c) → IsAnswer c result }
    // A line is that of the first token or field that can't stand there.
    ensures field { (line : ℕ) → result ≡ Err (SchemaError.Field line) → IsBadLine (FitsChange Format.Two) (change_fields Format.Two) bytes.now line }
    // Where a token or field can't stand, that line comes.
    ensures only_field { (line : ℕ) → IsBadLine (FitsChange Format.Two) (change_fields Format.Two) bytes.now line → IsRefusal line result }
{
    read_second(alloc, bytes)
}

/// The change, each of its reasons empty, of which the bytes are a text in the first format.
pub fn read_change_1(alloc: Global, bytes: &[u8]) -> Result<Change, SchemaError>
    // The bytes are a text of the fields of what is read.
    ensures found { IfOk result (λ c. IsTextOf bytes.now (change_fields Format.One c)) }
    // What is read keeps what its types can hold, and files and runs ascend.
    ensures fits { IfOk result (FitsChange Format.One) }
    // A text of the fields of such a change is read as it.
    ensures only { (c : Change) → FitsChange Format.One c → IsTextOf bytes.now (change_fields Format.One c) → IsAnswer c result }
    // A line is that of the first token or field that can't stand there.
    ensures field { (line : ℕ) → result ≡ Err (SchemaError.Field line) → IsBadLine (FitsChange Format.One) (change_fields Format.One) bytes.now line }
    // Where a token or field can't stand, that line comes.
    ensures only_field { (line : ℕ) → IsBadLine (FitsChange Format.One) (change_fields Format.One) bytes.now line → IsRefusal line result }
{
    read_as::<FormatOne>(alloc, bytes)
}

// What the change is about.
fn put_subject(out: &mut Vec<u8>, change: &Change) -> Result<(), AllocError>
    ensures put { OnOk result (ArePut lines out.old.items out.new.items (subject_fields change.now)) }
    ensures fits { OnOk result (IsChangeNo change.now.number) }
{
    put_lines(
        out,
        b"number",
        &change.number,
        b"brief_description",
        &change.attributes.brief,
    )?;
    put_lines(
        out,
        b"description",
        &change.attributes.description,
        b"cause",
        &change.attributes.cause,
    )?;
    Ok(())
}

// Which tests it needn't pass.
fn put_exemptions(out: &mut Vec<u8>, settings: &ChangeAttributes) -> Result<(), AllocError>
    ensures { OnOk result (ArePut lines out.old.items out.new.items (exemption_fields settings.now)) }
{
    put_lines(
        out,
        b"test_exempt",
        &settings.test_exempt,
        b"test_baseline_exempt",
        &settings.test_baseline_exempt,
    )?;
    put_line(
        out,
        b"regression_test_exempt",
        &settings.regression_test_exempt,
    )?;
    Ok(())
}

// Where it stands, and who works at it.
fn put_people(out: &mut Vec<u8>, change: &Change) -> Result<(), AllocError>
    ensures put { OnOk result (ArePut lines out.old.items out.new.items (people_fields change.now)) }
    ensures fits { OnOk result (HoldsPeople change.now) }
{
    put_lines(
        out,
        b"phase",
        &change.phase,
        b"developer",
        &change.developer,
    )?;
    put_lines(
        out,
        b"reviewing",
        &change.reviewing,
        b"reviewer",
        &change.reviewer,
    )?;
    put_line(out, b"integrator", &change.integrator)?;
    Ok(())
}

// Its files, its runs and its history.
fn put_rows(out: &mut Vec<u8>, change: &Change) -> Result<(), AllocError>
    ensures put { OnOk result (ArePut lines out.old.items out.new.items (row_fields Format.Two change.now)) }
    ensures fits { OnOk result (HoldsRows Format.Two change.now) }
{
    put_lines(out, b"files", &change.files, b"evidence", &change.evidence)?;
    put_line(out, b"history", &change.history)?;
    Ok(())
}

// The lines of the change's file.
fn put_change(out: &mut Vec<u8>, change: &Change) -> Result<(), AllocError>
    ensures put { OnOk result (ArePut lines out.old.items out.new.items (change_fields Format.Two change.now)) }
    ensures fits { OnOk result (HoldsChange Format.Two change.now) }
{
    put_subject(out, change)?;
    put_exemptions(out, &change.attributes)?;
    put_people(out, change)?;
    put_rows(out, change)?;
    Ok(())
}

/// The text of a change's file in the second format.
pub fn print_change(alloc: Global, change: &Change) -> Result<Vec<u8>, AllocError>
    // Each field in canonical form.
    ensures value { IfOk result (λ text. text.items ≡ fields_text (members_of (change_fields Format.Two change.now))) }
    // What is printed is a text of the same fields.
    ensures again { IfOk result (λ text. IsTextOf text.items (change_fields Format.Two change.now)) }
    // What is printed keeps what its types can hold.
    ensures fits { OnOk result (HoldsChange Format.Two change.now) }
{
    let mut out = Vec::new(alloc);
    put_change(&mut out, change)?;
    Ok(out)
}
