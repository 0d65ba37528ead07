// The file of the project: its settings, the users of its roles, its changes and its deltas.
ghost use Rattle.std.specs.Prelude.{◌≡◌, ℕ, List, Err, IfOk, OnOk, IsTrue, IfSome, map, ◌++◌};
ghost use Rattle.ae_text.specs.Canonical.{fields_text};
ghost use Rattle.ae_text.specs.View.{members_of};
ghost use Rattle.ae_types.specs.declared.project.Project.{Project};
ghost use Rattle.ae_schema.specs.Records.{IsTextOf, IsBadLine, IsAnswer, IsRefusal};
ghost use Rattle.ae_schema.specs.Files.{identity_fields, permission_fields, default_fields, role_fields, counted_fields, project_fields};
ghost use Rattle.ae_schema.specs.Fits.{HoldsRoles, HoldsCounted, HoldsProject, ProjectAscends, FitsProject};
ghost use Rattle.ae_base.specs.Names.{IsProjectName};
ghost use Rattle.ae_schema.specs.Put.{ArePut, lines};
ghost use Rattle.ae_schema.specs.Shapes.{attributes_from, project_from, delta_from};

use crate::ascending::Ascending;
use crate::canonical::Cursor;
use crate::fields::{End, Then};
use crate::format::{FormatOne, FormatTwo, FormatType};
use crate::lists::put_list_line;
use crate::record::{guess_record, read_record};
use crate::structure::{guess_structure, read_structure};
use crate::value::{Decode, Encode, Row, put_both, put_line, put_lines, put_structure};
use crate::{Format, SchemaError};
use ae_base::{ChangeNo, Delta, ProjectName, Text, User};
use ae_text::Tree;
use ae_types::{Attributes, DeltaList, DeltaRow, EndAction, NumberList, Project, UserSet};
use std::alloc::{AllocError, Global};
use std::marker::{Model, PhantomData};

/// The number of a format.
#[derive(Drop)]
struct FormatNumber<F: FormatType> {
    of: PhantomData<F>,
}

impl<F: FormatType> Model for FormatNumber<F> {
    ghost Value = { Unit {0} };

    ghost view = { λ n. tt };
}

impl<F: FormatType> Decode for FormatNumber<F> {
    ghost use Rattle.ae_text.specs.Tree.{number};
    ghost use Rattle.ae_schema.specs.Formats.{format_number};

    ghost spelled = { λ n. number (format_number F.format) };

    ghost Fits = { λ n. Unit {0} };

    fn of_tree(_alloc: Global, tree: &Tree) -> Result<Option<FormatNumber<F>>, AllocError> {
        match tree {
            Tree::Number(n) if *n == F::value().number() => {
                Ok(Some(FormatNumber { of: PhantomData }))
            }
            _ => Ok(None),
        }
    }

    fn guess(_alloc: Global, text: &mut Cursor) -> Result<Option<FormatNumber<F>>, AllocError> {
        match text.number() {
            Some(n) if n == F::value().number() => Ok(Some(FormatNumber { of: PhantomData })),
            _ => Ok(None),
        }
    }

    ghost some_value = { (tt, tt) };
}

/// Where the bytes of files lie: packed in one region.
#[derive(Clone, Copy, Drop)]
struct Packed;

impl Decode for Packed {
    ghost use Rattle.std.specs.Prelude.{codes};
    ghost use Rattle.ae_text.specs.Tree.{word};

    ghost spelled = { λ packed. word (codes "packed") };

    ghost Fits = { λ packed. Unit {0} };

    fn of_tree(_alloc: Global, tree: &Tree) -> Result<Option<Packed>, AllocError> {
        match tree {
            Tree::Word(text) if text.bytes() == b"packed".as_slice() => Ok(Some(Packed)),
            _ => Ok(None),
        }
    }

    fn guess(_alloc: Global, text: &mut Cursor) -> Result<Option<Packed>, AllocError> {
        if text.skip(b"packed") {
            Ok(Some(Packed))
        } else {
            Ok(None)
        }
    }

    ghost some_value = { (record {}, tt) };
}

impl Encode for Packed {
    fn put(&self, out: &mut Vec<u8>) -> Result<(), AllocError> {
        out.extend_from_slice(b"packed")
    }
}

// The names of its fields.
const DELTA_NAMES: [&[u8]; 4] = [b"delta", b"change", b"when", b"who"];

type DeltaRowFields = Then<Delta, Then<ChangeNo, Then<u64, Then<User, End>>>>;

fn delta_of(fields: DeltaRowFields) -> DeltaRow
    ensures { result ≡ delta_from fields }
{
    let Then { first: delta, rest } = fields;
    let Then {
        first: change,
        rest,
    } = rest;
    let Then { first: when, rest } = rest;
    let Then {
        first: who,
        rest: End,
    } = rest;
    DeltaRow {
        delta,
        change,
        when,
        who,
    }
}

impl Decode for DeltaRow {
    ghost use Rattle.ae_schema.specs.Spelled.{delta_row};
    ghost use Rattle.ae_schema.specs.Fits.{FitsDelta};
    ghost use Rattle.ae_schema.specs.SomeValues.{some_delta};

    ghost spelled = { delta_row };

    ghost Fits = { FitsDelta };

    fn of_tree(alloc: Global, tree: &Tree) -> Result<Option<DeltaRow>, AllocError> {
        match read_structure::<DeltaRowFields>(alloc, &DELTA_NAMES, tree)? {
            Some(fields) => Ok(Some(delta_of(fields))),
            None => Ok(None),
        }
    }

    fn guess(alloc: Global, text: &mut Cursor) -> Result<Option<DeltaRow>, AllocError> {
        match guess_structure::<DeltaRowFields>(alloc, &DELTA_NAMES, text)? {
            Some(fields) => Ok(Some(delta_of(fields))),
            None => Ok(None),
        }
    }

    ghost some_value = { some_delta };
}

impl Encode for DeltaRow {
    fn put(&self, out: &mut Vec<u8>) -> Result<(), AllocError> {
        put_structure(out, self)
    }
}

impl Row for DeltaRow {
    fn put_fields(&self, out: &mut Vec<u8>) -> Result<(), AllocError> {
        put_both(out, b"delta", &self.delta, b"change", &self.change)?;
        put_both(out, b"when", &self.when, b"who", &self.who)?;
        Ok(())
    }
}

type CountedFields = Then<u64, Then<Ascending<ChangeNo>, Then<DeltaList, End>>>;

type RoleFields = Then<UserSet, Then<UserSet, Then<UserSet, Then<UserSet, CountedFields>>>>;

type DefaultFields = Then<EndAction, Then<bool, RoleFields>>;

type PermissionFields = Then<bool, Then<bool, Then<bool, Then<bool, DefaultFields>>>>;

type ProjectFields<F> = Then<
    FormatNumber<F>,
    Then<Packed, Then<ProjectName, Then<Text, PermissionFields>>>,
>;

// The settings, and the fields after them.
fn attributes_of(description: Text, fields: PermissionFields) -> (Attributes, RoleFields)
    ensures settings { result.0 ≡ attributes_from description fields }
    ensures behind { result.1 ≡ fields.rest.rest.rest.rest.rest.rest }
{
    let Then {
        first: developer_may_review,
        rest,
    } = fields;
    let Then {
        first: developer_may_integrate,
        rest,
    } = rest;
    let Then {
        first: reviewer_may_integrate,
        rest,
    } = rest;
    let Then {
        first: developers_may_create_changes,
        rest,
    } = rest;
    let Then {
        first: develop_end_action,
        rest,
    } = rest;
    let Then {
        first: default_test_exemption,
        rest,
    } = rest;
    let attributes = Attributes {
        description,
        developer_may_review,
        developer_may_integrate,
        reviewer_may_integrate,
        developers_may_create_changes,
        develop_end_action,
        default_test_exemption,
    };
    (attributes, rest)
}

fn project_of<F: FormatType>(fields: ProjectFields<F>) -> (Project, NumberList)
    ensures value { result ≡ project_from fields }
    ensures ascend { ProjectAscends result }
{
    let Then { first: _, rest } = fields;
    let Then { first: _, rest } = rest;
    let Then { first: name, rest } = rest;
    let Then {
        first: description,
        rest,
    } = rest;
    let (attributes, rest) = attributes_of(description, rest);
    let Then {
        first: administrators,
        rest,
    } = rest;
    let Then {
        first: developers,
        rest,
    } = rest;
    let Then {
        first: reviewers,
        rest,
    } = rest;
    let Then {
        first: integrators,
        rest,
    } = rest;
    let Then {
        first: next_version,
        rest,
    } = rest;
    let Then {
        first: numbers,
        rest,
    } = rest;
    let Then {
        first: deltas,
        rest: End,
    } = rest;
    let project = Project {
        name,
        attributes,
        administrators,
        developers,
        reviewers,
        integrators,
        next_version,
        deltas,
    };
    (project, numbers.into_rows())
}

// The names of its fields.
const FIELD_NAMES: [&[u8]; 17] = [
    b"format",
    b"store",
    b"name",
    b"description",
    b"developer_may_review",
    b"developer_may_integrate",
    b"reviewer_may_integrate",
    b"developers_may_create_changes",
    b"develop_end_action",
    b"default_test_exemption",
    b"administrators",
    b"developers",
    b"reviewers",
    b"integrators",
    b"next_version",
    b"changes",
    b"deltas",
];

// The project and the numbers of its changes, of which the bytes are a text in the format of this type.
fn read_as<F: FormatType>(alloc: Global, bytes: &[u8]) -> Result<(Project, NumberList), SchemaError>
    ensures found { IfOk result (λ p. IsTextOf bytes.now (project_fields F.format p)) }
    ensures fits { IfOk result FitsProject }
    ensures only { (p : Project × List ℕ) → FitsProject p → IsTextOf bytes.now (project_fields F.format p) → IsAnswer p result }
    ensures field { (line : ℕ) → result ≡ Err (SchemaError.Field line) → IsBadLine FitsProject (project_fields F.format) bytes.now line }
    ensures only_field { (line : ℕ) → IsBadLine FitsProject (project_fields F.format) bytes.now line → IsRefusal line result }
{
    match read_record::<ProjectFields<F>>(alloc, &FIELD_NAMES, bytes) {
        Ok(fields) => Ok(project_of(fields)),
        Err(error) => Err(error),
    }
}

// Whether the bytes are what is printed of this project and the numbers of its changes.
fn are_printed(
    alloc: Global,
    project: &Project,
    numbers: &[ChangeNo],
    bytes: &[u8],
) -> Result<bool, AllocError>
    ensures text { IfOk result (λ same. IsTrue same → IsTextOf bytes.now (project_fields Format.Two (project.now, numbers.now))) }
    ensures fits { IfOk result (λ same. HoldsProject (project.now, numbers.now)) }
{
    let text = print_project(alloc, project, numbers)?;
    Ok(text.as_slice() == bytes)
}

/// The project and the numbers of its changes that are printed as these bytes.
pub(crate) fn read_printed(
    alloc: Global,
    bytes: &[u8],
) -> Result<Option<(Project, NumberList)>, AllocError>
    ensures found { IfOk result (λ read. IfSome read (λ p. IsTextOf bytes.now (project_fields Format.Two p))) }
    ensures fits { IfOk result (λ read. IfSome read FitsProject) }
{
    let Some(fields) = guess_record::<ProjectFields<FormatTwo>>(alloc, &FIELD_NAMES, bytes)? else {
        return Ok(None);
    };
    let project = project_of(fields);
    match are_printed(alloc, &project.0, project.1.as_slice(), bytes) {
        Ok(true) => Ok(Some(project)),
        Ok(false) => {
            drop(project);
            Ok(None)
        }
        Err(error) => {
            drop(project);
            Err(error)
        }
    }
}

// The project and the numbers of its changes, of which the bytes are a text in the second format.
fn read_second(alloc: Global, bytes: &[u8]) -> Result<(Project, NumberList), SchemaError>
    ensures found { IfOk result (λ p. IsTextOf bytes.now (project_fields Format.Two p)) }
    ensures fits { IfOk result FitsProject }
    ensures only { (p : Project × List ℕ) → FitsProject p → IsTextOf bytes.now (project_fields Format.Two p) → IsAnswer p result }
    ensures field { (line : ℕ) → result ≡ Err (SchemaError.Field line) → IsBadLine FitsProject (project_fields Format.Two) bytes.now line }
    ensures only_field { (line : ℕ) → IsBadLine FitsProject (project_fields Format.Two) bytes.now line → IsRefusal line result }
{
    match read_printed(alloc, bytes) {
        Ok(Some(project)) => Ok(project),
        Ok(None) => read_as::<FormatTwo>(alloc, bytes),
        Err(_) => Err(SchemaError::Memory),
    }
}

/// The project and the numbers of its changes, of which the bytes are a text in this format.
pub fn read_project_in(
    alloc: Global,
    format: Format,
    bytes: &[u8],
) -> Result<(Project, NumberList), SchemaError>
    // The bytes are a text of the fields of what is read.
    ensures found { IfOk result (λ p. IsTextOf bytes.now (project_fields format p)) }
    // What is read keeps what its types can hold, and the numbers ascend.
    ensures fits { IfOk result FitsProject }
    // A text of the fields of such a project is read as it.
    ensures only { (p : Project × List ℕ) → FitsProject p → IsTextOf bytes.now (project_fields format p) → IsAnswer p result }
    // A line is that of the first token or field that can't stand there.
    ensures field { (line : ℕ) → result ≡ Err (SchemaError.Field line) → IsBadLine FitsProject (project_fields format) bytes.now line }
    // Where a token or field can't stand, that line comes.
    ensures only_field { (line : ℕ) → IsBadLine FitsProject (project_fields format) bytes.now line → IsRefusal line result }
{
    match format {
        Format::One => read_as::<FormatOne>(alloc, bytes),
        Format::Two => read_second(alloc, bytes),
    }
}

/// The project and the numbers of its changes, of which the bytes are a text in the second format.
pub fn read_project(alloc: Global, bytes: &[u8]) -> Result<(Project, NumberList), SchemaError>
    // The bytes are a text of the fields of what is read.
    ensures found { IfOk result (λ p. IsTextOf bytes.now (project_fields Format.Two p)) }
    // What is read keeps what its types can hold, and the numbers ascend.
    ensures fits { IfOk result FitsProject }
    // A text of the fields of such a project is read as it.
    ensures only { (p : Project × List ℕ) → FitsProject p → IsTextOf bytes.now (project_fields Format.Two p) → IsAnswer p result }
    // A line is that of the first token or field that can't stand there.
    ensures field { (line : ℕ) → result ≡ Err (SchemaError.Field line) → IsBadLine FitsProject (project_fields Format.Two) bytes.now line }
    // Where a token or field can't stand, that line comes.
    ensures only_field { (line : ℕ) → IsBadLine FitsProject (project_fields Format.Two) bytes.now line → IsRefusal line result }
{
    read_second(alloc, bytes)
}

/// The project and the numbers of its changes, of which the bytes are a text in the first format.
pub fn read_project_1(alloc: Global, bytes: &[u8]) -> Result<(Project, NumberList), SchemaError>
    // The bytes are a text of the fields of what is read.
    ensures found { IfOk result (λ p. IsTextOf bytes.now (project_fields Format.One p)) }
    // What is read keeps what its types can hold, and the numbers ascend.
    ensures fits { IfOk result FitsProject }
    // A text of the fields of such a project is read as it.
    ensures only { (p : Project × List ℕ) → FitsProject p → IsTextOf bytes.now (project_fields Format.One p) → IsAnswer p result }
    // A line is that of the first token or field that can't stand there.
    ensures field { (line : ℕ) → result ≡ Err (SchemaError.Field line) → IsBadLine FitsProject (project_fields Format.One) bytes.now line }
    // Where a token or field can't stand, that line comes.
    ensures only_field { (line : ℕ) → IsBadLine FitsProject (project_fields Format.One) bytes.now line → IsRefusal line result }
{
    read_as::<FormatOne>(alloc, bytes)
}

// Which format it is, and which project.
fn put_identity(out: &mut Vec<u8>, project: &Project) -> Result<(), AllocError>
    ensures put { OnOk result (ArePut lines out.old.items out.new.items (identity_fields Format.Two project.now)) }
    ensures fits { OnOk result (IsProjectName project.now.name) }
{
    let number = Format::Two.number();
    put_lines(out, b"format", &number, b"store", &Packed)?;
    put_lines(
        out,
        b"name",
        &project.name,
        b"description",
        &project.attributes.description,
    )?;
    Ok(())
}

// Who may do what.
fn put_permissions(out: &mut Vec<u8>, settings: &Attributes) -> Result<(), AllocError>
    ensures { OnOk result (ArePut lines out.old.items out.new.items (permission_fields settings.now)) }
{
    put_lines(
        out,
        b"developer_may_review",
        &settings.developer_may_review,
        b"developer_may_integrate",
        &settings.developer_may_integrate,
    )?;
    put_lines(
        out,
        b"reviewer_may_integrate",
        &settings.reviewer_may_integrate,
        b"developers_may_create_changes",
        &settings.developers_may_create_changes,
    )?;
    Ok(())
}

// How development ends, and what a new change begins with.
fn put_defaults(out: &mut Vec<u8>, settings: &Attributes) -> Result<(), AllocError>
    ensures { OnOk result (ArePut lines out.old.items out.new.items (default_fields settings.now)) }
{
    put_lines(
        out,
        b"develop_end_action",
        &settings.develop_end_action,
        b"default_test_exemption",
        &settings.default_test_exemption,
    )
}

// The users of each role.
fn put_roles(out: &mut Vec<u8>, project: &Project) -> Result<(), AllocError>
    ensures put { OnOk result (ArePut lines out.old.items out.new.items (role_fields project.now)) }
    ensures fits { OnOk result (HoldsRoles project.now) }
{
    put_lines(
        out,
        b"administrators",
        &project.administrators,
        b"developers",
        &project.developers,
    )?;
    put_lines(
        out,
        b"reviewers",
        &project.reviewers,
        b"integrators",
        &project.integrators,
    )?;
    Ok(())
}

// The number of the next version, and the changes and deltas.
fn put_counted(out: &mut Vec<u8>, project: &Project, numbers: &[ChangeNo]) -> Result<(), AllocError>
    ensures put { OnOk result (ArePut lines out.old.items out.new.items (counted_fields project.now numbers.now)) }
    ensures fits { OnOk result (HoldsCounted project.now numbers.now) }
{
    put_line(out, b"next_version", &project.next_version)?;
    put_list_line(out, b"changes", numbers)?;
    put_line(out, b"deltas", &project.deltas)?;
    Ok(())
}

// The lines of the project's file.
fn put_project(out: &mut Vec<u8>, project: &Project, numbers: &[ChangeNo]) -> Result<(), AllocError>
    ensures put { OnOk result (ArePut lines out.old.items out.new.items (project_fields Format.Two (project.now, numbers.now))) }
    ensures fits { OnOk result (HoldsProject (project.now, numbers.now)) }
{
    put_identity(out, project)?;
    put_permissions(out, &project.attributes)?;
    put_defaults(out, &project.attributes)?;
    put_roles(out, project)?;
    put_counted(out, project, numbers)?;
    Ok(())
}

/// The text of `project` in the second format, of a project and the numbers of its changes.
pub fn print_project(
    alloc: Global,
    project: &Project,
    numbers: &[ChangeNo],
) -> Result<Vec<u8>, AllocError>
    // Each field in canonical form.
    ensures value { IfOk result (λ text. text.items ≡ fields_text (members_of (project_fields Format.Two (project.now, numbers.now)))) }
    // What is printed is a text of the same fields.
    ensures again { IfOk result (λ text. IsTextOf text.items (project_fields Format.Two (project.now, numbers.now))) }
    // What is printed keeps what its types can hold.
    ensures fits { OnOk result (HoldsProject (project.now, numbers.now)) }
{
    let mut out = Vec::new(alloc);
    put_project(&mut out, project, numbers)?;
    Ok(out)
}
