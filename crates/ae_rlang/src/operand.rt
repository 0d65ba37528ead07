// What is kept of an expression that was read.
ghost use Rattle.std.specs.Prelude.{◌≡◌, ◌<◌, ◌^◌, ◌+◌, nat_le, IfOk, find, option_copied};
ghost use Rattle.std.specs.Str.{bytes_eq};
ghost use Rattle.ae_rlang.specs.Operator.{bad_where};
ghost use Rattle.ae_rlang.specs.Table.{field_kind};
ghost use Rattle.ae_rlang.specs.View.{meaning, atom_seen, link_seen, linked};
ghost use Rattle.ae_rlang.specs.Scope.{is_among, table_bound, kind_within, kind_of_name};
ghost use Rattle.ae_rlang.specs.Meaning.{field_or_any, field_within};
ghost use Rattle.ae_rlang.specs.Bad.{bad_field, bad_level, max_level};
ghost use Rattle.ae_rlang.specs.Kept.{kept_where};
ghost use Rattle.ae_rlang.specs.Values.{number_value, text_value, flag_value, total_value, field_value, operated_value, negated_value, within_where, timed_value};
ghost use Rattle.ae_rlang.specs.Steps.{scope_seen, value_seen};

use crate::operator::{Kind, Operator, bad_where, earlier, is_other};
use crate::report::{Atom, Expr, Link};
use crate::table::{RowField, Table, field_of};
use ae_base::Text;
use std::alloc::{AllocError, Global};

/// A name that a `for` binds, and its table where that is known.
#[derive(Drop)]
pub struct Bound {
    pub name: Text,
    pub table: Option<Table>,
}

/// Where an expression stands: the names that are known there, and how many blocks are around it.
#[derive(Clone, Copy)]
pub(crate) struct Scope<'a> {
    pub(crate) totals: &'a [Text],
    pub(crate) bound: &'a [Bound],
    pub(crate) level: usize,
}

/// An expression, the kind of its value where that is known, and its first bad line.
#[derive(Drop)]
pub(crate) struct Operand {
    pub(crate) expr: Expr,
    pub(crate) kind: Option<Kind>,
    pub(crate) bad: Option<u32>,
}

fn is_same(name: &Text, other: &Text) -> bool
    ensures { result ≡ bytes_eq name.now other.now }
{
    *name == *other
}

/// Whether a name is one of these.
pub(crate) fn is_among(name: &Text, names: &[Text]) -> bool
    ensures { result ≡ is_among name.now names.now }
{
    names.iter().any(|other| is_same(other, name))
}

fn bound_as<'a>(name: &Text, bound: &'a [Bound]) -> Option<&'a Bound>
    ensures { option_copied result ≡ find (λ other. bytes_eq other.name name.now) bound.now }
{
    bound.iter().find(|other| is_same(&other.name, name))
}

/// The table of a bound name, the first of these; `Some(None)` where its table isn't known.
pub(crate) fn table_bound(name: &Text, bound: &[Bound]) -> Option<Option<Table>>
    ensures { result ≡ table_bound name.now bound.now }
{
    match bound_as(name, bound) {
        Some(found) => Some(found.table),
        None => None,
    }
}

/// What a field's value is.
fn field_kind(field: RowField) -> Kind
    ensures { result ≡ field_kind field }
{
    match field {
        RowField::Number
        | RowField::Files
        | RowField::Edit
        | RowField::Bytes
        | RowField::Delta
        | RowField::Change
        | RowField::When
        | RowField::Status => Kind::Number,
        RowField::Clean => Kind::Flag,
        RowField::Phase
        | RowField::Brief
        | RowField::Cause
        | RowField::Developer
        | RowField::Reviewer
        | RowField::Integrator
        | RowField::Path
        | RowField::Usage
        | RowField::Who
        | RowField::What
        | RowField::Why
        | RowField::Ground
        | RowField::Kind => Kind::Text,
    }
}

// A value without operators.
fn atom(alloc: Global, line: u32, first: Atom, kind: Option<Kind>, bad: Option<u32>) -> Operand
    ensures { value_seen result ≡ record { node = atom_seen line first; kind = kind; bad = bad } }
{
    Operand {
        expr: Expr {
            line,
            first,
            links: Vec::new(alloc),
        },
        kind,
        bad,
    }
}

pub(crate) fn number(alloc: Global, line: u32, n: u64) -> Operand
    requires { n < 2 ^ 63 }
    ensures { value_seen result ≡ number_value line n }
{
    atom(
        alloc,
        line,
        Atom::Number(n as i64),
        Some(Kind::Number),
        None,
    )
}

pub(crate) fn text(alloc: Global, line: u32, text: Text) -> Operand
    ensures { value_seen result ≡ text_value line text }
{
    atom(alloc, line, Atom::Str(text), Some(Kind::Text), None)
}

pub(crate) fn flag(alloc: Global, line: u32, flag: bool) -> Operand
    ensures { value_seen result ≡ flag_value line flag }
{
    atom(alloc, line, Atom::Flag(flag), Some(Kind::Flag), None)
}

/// A name alone, which is to be a total.
pub(crate) fn total(alloc: Global, scope: Scope<'_>, line: u32, name: Text) -> Operand
    ensures { value_seen result ≡ total_value (scope_seen scope.entry) line name }
{
    let known = is_among(&name, scope.totals);
    let kind = if known { Some(Kind::Number) } else { None };
    atom(
        alloc,
        line,
        Atom::Total(name),
        kind,
        bad_where(!known, line),
    )
}

// The field of this name of what a name is bound to.
fn field_within(table: Option<Option<Table>>, field: &Text) -> Option<RowField>
    ensures { result ≡ field_within table field.now }
{
    match table {
        Some(Some(table)) => field_of(table, field.bytes()),
        Some(None) | None => None,
    }
}

// The kind of that field.
fn kind_within(table: Option<Option<Table>>, field: &Text) -> Option<Kind>
    ensures { result ≡ kind_within table field.now }
{
    match field_within(table, field) {
        Some(found) => Some(field_kind(found)),
        None => None,
    }
}

// The line of a name that isn't bound, or of a field that its table lacks.
fn bad_field(table: Option<Option<Table>>, line: u32, field_line: u32, field: &Text) -> Option<u32>
    ensures { result ≡ bad_field table line field_line field.now }
{
    match table {
        None => Some(line),
        Some(None) => None,
        Some(Some(table)) => bad_where(field_of(table, field.bytes()).is_none(), field_line),
    }
}

fn field_or_any(field: Option<RowField>) -> RowField
    ensures { result ≡ field_or_any field }
{
    match field {
        Some(found) => found,
        None => RowField::Number,
    }
}

/// A name, `.` and a field.
pub(crate) fn field(
    alloc: Global,
    scope: Scope<'_>,
    line: u32,
    name: Text,
    field_line: u32,
    field: Text,
) -> Operand
    ensures { value_seen result ≡ field_value (scope_seen scope.entry) line name field_line field }
{
    let table = table_bound(&name, scope.bound);
    let found = field_or_any(field_within(table, &field));
    let kind = kind_within(table, &field);
    let bad = bad_field(table, line, field_line, &field);
    atom(alloc, line, Atom::Field(name, found), kind, bad)
}

// The expression with one link more.
fn with_link(mut expr: Expr, link: Link) -> Result<Expr, AllocError>
    ensures { IfOk result (λ made. meaning made ≡ linked (meaning expr) (link_seen link)) }
{
    expr.links.push(link)?;
    Ok(expr)
}

/// Two sides and the operator between them.
pub(crate) fn operated(
    operator: Operator,
    line: u32,
    left: Operand,
    right: Operand,
) -> Result<Operand, AllocError>
    ensures { IfOk result (λ v. value_seen v ≡ operated_value operator line (value_seen left) (value_seen right)) }
{
    let wrong = operator.is_wrong(left.kind, right.kind);
    let bad = earlier(earlier(left.bad, right.bad), bad_where(wrong, line));
    Ok(Operand {
        expr: with_link(left.expr, Link::Side(line, operator, right.expr))?,
        kind: Some(operator.result()),
        bad,
    })
}

/// `not` and what follows it.
pub(crate) fn negated(line: u32, operand: Operand) -> Result<Operand, AllocError>
    ensures { IfOk result (λ v. value_seen v ≡ negated_value line (value_seen operand)) }
{
    let wrong = is_other(operand.kind, Kind::Flag);
    Ok(Operand {
        expr: with_link(operand.expr, Link::Not(line))?,
        kind: Some(Kind::Flag),
        bad: earlier(operand.bad, bad_where(wrong, line)),
    })
}

/// What stands in parentheses behind `time`.
pub(crate) fn timed(line: u32, operand: Operand) -> Result<Operand, AllocError>
    ensures { IfOk result (λ v. value_seen v ≡ timed_value line (value_seen operand)) }
{
    let wrong = is_other(operand.kind, Kind::Number);
    Ok(Operand {
        expr: with_link(operand.expr, Link::Time(line))?,
        kind: Some(Kind::Text),
        bad: earlier(operand.bad, bad_where(wrong, line)),
    })
}

// How deep blocks and parentheses may stand in each other.
const MAX_LEVEL: usize = 16;

/// The line of a sign that opens one level too many.
pub(crate) fn bad_level(level: usize, line: u32) -> Option<u32>
    ensures { result ≡ bad_level level line }
{
    bad_where(level >= MAX_LEVEL, line)
}

// What is kept of an expression in parentheses that open in this line: where they are one level too deep, a flag in its place.
fn kept_where(alloc: Global, deep: bool, line: u32, expr: Expr) -> Expr
    ensures { meaning result ≡ kept_where deep line (meaning expr) }
{
    if deep {
        let kind = Some(Kind::Flag);
        return atom(alloc, line, Atom::Flag(false), kind, None).expr;
    }
    expr
}

/// What stands in parentheses that open in this line, maybe one level too deep.
pub(crate) fn within(alloc: Global, deep: bool, line: u32, operand: Operand) -> Operand
    ensures { value_seen result ≡ within_where deep line (value_seen operand) }
{
    Operand {
        expr: kept_where(alloc, deep, line, operand.expr),
        kind: operand.kind,
        bad: earlier(bad_where(deep, line), operand.bad),
    }
}

/// Whether what opens inside so many blocks and parentheses is one level too deep.
pub(crate) fn is_deep(blocks: usize, groups: usize) -> bool
    ensures { result ≡ nat_le max_level (groups + blocks) }
{
    blocks >= MAX_LEVEL || groups >= MAX_LEVEL - blocks
}
