// Reading an expression: what waits for a value, and what may stand next.
ghost use Rattle.std.specs.Prelude.{◌≡◌, [], ◌∷◌, nat_le, IfOk};
ghost use Rattle.ae_rlang.specs.Operator.{left_binds};
ghost use Rattle.ae_rlang.specs.Bad.{max_level};
ghost use Rattle.ae_rlang.specs.Values.{within_where};
ghost use Rattle.ae_rlang.specs.Machine.{pending_binds, wanted, taken, reduced, whole, timed_where, closed_value, level_in, is_close, token_operator, operator_turn, behind_turn, having_turn, no, waiting_turn, is_dot, named_turn, dotted_turn, timing_turn, turn};
ghost use Rattle.ae_rlang.specs.Steps.{TurnIs, group_seen, groups_seen, pending_seen, pendings_seen, point_seen, scope_seen, lexeme_of, token_of, value_seen};

use crate::operand;
use crate::operand::{Operand, Scope};
use crate::operator::{Operator, operator_of};
use crate::token::{Lexeme, Mark, Token};
use ae_base::Text;
use std::alloc::{AllocError, Global};

/// What waits for a value.
#[derive(Drop)]
pub(crate) enum Pending {
    /// An operator, its line and its left side.
    Side(Operator, u32, Operand),
    /// `not`, and its line.
    Not(u32),
}

/// An open parenthesis.
#[derive(Drop)]
pub(crate) struct Group {
    /// The line of `time` before it.
    time: Option<u32>,
    line: u32,
    /// What waits outside.
    pendings: Vec<Pending>,
}

/// Where in an expression the reader is.
#[derive(Drop)]
pub(crate) enum Point {
    /// A value begins.
    Waiting,
    /// Behind a name that isn't yet known to be a total.
    Named(u32, Text),
    /// Behind a name and `.`.
    Dotted(u32, Text),
    /// Behind `time`.
    Timing(u32),
    Having(Operand),
}

/// What a token does to an expression.
#[derive(Drop)]
pub(crate) enum Turn {
    Goes(Vec<Group>, Vec<Pending>, Point),
    /// It had ended before the token.
    Ended(Operand, Token),
    /// The token can't stand.
    Stuck,
}

impl Pending {
    fn binds(&self) -> u8
        ensures { result ≡ pending_binds (pending_seen self.now) }
    {
        match self {
            Pending::Side(operator, _, _) => operator.binds(),
            Pending::Not(_) => 2,
        }
    }

    fn wants(&self) -> u8
        ensures { result ≡ wanted (pending_seen self.now ∷ []) }
    {
        match self {
            Pending::Side(operator, _, _) => operator.right_binds(),
            Pending::Not(_) => 2,
        }
    }
}

// How tightly has to bind what the innermost waits for.
fn wanted(pendings: &[Pending]) -> u8
    ensures { result ≡ wanted (pendings_seen pendings.now) }
{
    match pendings.last() {
        Some(pending) => pending.wants(),
        None => 0,
    }
}

fn taken(pending: Pending, operand: Operand) -> Result<Operand, AllocError>
    ensures { IfOk result (λ v. value_seen v ≡ taken (pending_seen pending) (value_seen operand)) }
{
    match pending {
        Pending::Side(operator, line, left) => { operand::operated(operator, line, left, operand) }
        Pending::Not(line) => operand::negated(line, operand),
    }
}

// All that waits and binds so tightly takes the value.
fn reduced(
    tight: u8,
    mut pendings: Vec<Pending>,
    mut operand: Operand,
) -> Result<(Vec<Pending>, Operand), AllocError>
    ensures { IfOk result (λ r. (pendings_seen r.0.items, value_seen r.1) ≡ reduced tight (pendings_seen pendings.items) (value_seen operand)) }
{
    while let Some(pending) = pendings.pop() {
        if pending.binds() < tight {
            pendings.push(pending)?;
            return Ok((pendings, operand));
        }
        operand = taken(pending, operand)?;
    }
    Ok((pendings, operand))
}

// The value of a whole expression.
fn whole(pendings: Vec<Pending>, operand: Operand) -> Result<Operand, AllocError>
    ensures { IfOk result (λ v. value_seen v ≡ whole (pendings_seen pendings.items) (value_seen operand)) }
{
    let (_, operand) = reduced(0, pendings, operand)?;
    Ok(operand)
}

// An operator comes.
fn operator_turn(
    groups: Vec<Group>,
    pendings: Vec<Pending>,
    operand: Operand,
    line: u32,
    operator: Operator,
) -> Result<Turn, AllocError>
    ensures { (t : _) → IfOk result (TurnIs t (operator_turn (groups_seen groups.items) operator line (reduced (left_binds operator) (pendings_seen pendings.items) (value_seen operand)))) }
{
    let (mut pendings, left) = reduced(operator.left_binds(), pendings, operand)?;
    if wanted(pendings.as_slice()) > operator.binds() {
        drop(left);
        return Ok(Turn::Stuck);
    }
    pendings.push(Pending::Side(operator, line, left))?;
    Ok(Turn::Goes(groups, pendings, Point::Waiting))
}

fn closed(
    alloc: Global,
    deep: bool,
    time: Option<u32>,
    line: u32,
    operand: Operand,
) -> Result<Operand, AllocError>
    ensures { IfOk result (λ v. value_seen v ≡ timed_where time (within_where deep line (value_seen operand))) }
{
    let inner = operand::within(alloc, deep, line, operand);
    match time {
        Some(time) => operand::timed(time, inner),
        None => Ok(inner),
    }
}

// Whether parentheses inside so many blocks and these parentheses are one level too deep.
fn are_deep(level: usize, groups: &[Group]) -> bool
    ensures { result ≡ nat_le max_level (level_in (groups_seen groups.now) level) }
{
    operand::is_deep(level, groups.len())
}

// The innermost parentheses are closed: what waits outside, and their value.
fn close_group(
    alloc: Global,
    level: usize,
    groups: &[Group],
    group: Group,
    pendings: Vec<Pending>,
    operand: Operand,
) -> Result<(Vec<Pending>, Operand), AllocError>
    ensures outside { IfOk result (λ r. r.0 ≡ group.pendings) }
    ensures value { IfOk result (λ r. value_seen r.1 ≡ closed_value (level_in (groups_seen groups.now) level) (group_seen group) (whole (pendings_seen pendings.items) (value_seen operand))) }
{
    let operand = whole(pendings, operand)?;
    let deep = are_deep(level, groups);
    let operand = closed(alloc, deep, group.time, group.line, operand)?;
    Ok((group.pendings, operand))
}

// `)`, or what no expression goes on with.
fn behind_turn(
    alloc: Global,
    level: usize,
    mut groups: Vec<Group>,
    pendings: Vec<Pending>,
    operand: Operand,
    token: Token,
) -> Result<Turn, AllocError>
    ensures { IfOk result (TurnIs (token_of token) (behind_turn level (groups_seen groups.items) (pendings_seen pendings.items) (value_seen operand) (is_close (token_of token)))) }
{
    let Some(group) = groups.pop() else {
        return Ok(Turn::Ended(whole(pendings, operand)?, token));
    };
    if !is_close(&token) {
        drop(group);
        return Ok(Turn::Stuck);
    }
    let (outside, value) = close_group(alloc, level, groups.as_slice(), group, pendings, operand)?;
    Ok(Turn::Goes(groups, outside, Point::Having(value)))
}

fn is_close(token: &Token) -> bool
    ensures { result ≡ is_close (token_of token.now) }
{
    matches!(token, Token::Mark(Mark::CloseGroup))
}

fn is_dot(token: &Token) -> bool
    ensures { result ≡ is_dot (token_of token.now) }
{
    matches!(token, Token::Mark(Mark::Dot))
}

fn token_operator(token: &Token) -> Option<Operator>
    ensures { result ≡ token_operator (token_of token.now) }
{
    match token {
        Token::Mark(mark) => operator_of(*mark),
        _ => None,
    }
}

// Behind a value.
fn having_turn(
    alloc: Global,
    level: usize,
    groups: Vec<Group>,
    pendings: Vec<Pending>,
    operand: Operand,
    lexeme: Lexeme,
) -> Result<Turn, AllocError>
    ensures { IfOk result (TurnIs (token_of lexeme.token) (having_turn level (groups_seen groups.items) (pendings_seen pendings.items) (value_seen operand) (lexeme_of lexeme))) }
{
    let Lexeme { line, token } = lexeme;
    match token_operator(&token) {
        Some(operator) => operator_turn(groups, pendings, operand, line, operator),
        None => behind_turn(alloc, level, groups, pendings, operand, token),
    }
}

// The greatest number, and 1.
const NUMBERS: u64 = 9_223_372_036_854_775_808;

// The parentheses with one more open, what waits outside it, and the line of `time` before it.
fn with_group(
    mut groups: Vec<Group>,
    pendings: Vec<Pending>,
    time: Option<u32>,
    line: u32,
) -> Result<Vec<Group>, AllocError>
    ensures { IfOk result (λ made. groups_seen made.items ≡ record { time = time; line = line; pendings = pendings_seen pendings.items } ∷ groups_seen groups.items) }
{
    groups.push(Group {
        time,
        line,
        pendings,
    })?;
    Ok(groups)
}

fn with_not(mut pendings: Vec<Pending>, line: u32) -> Result<Vec<Pending>, AllocError>
    ensures { IfOk result (λ made. pendings_seen made.items ≡ no line ∷ pendings_seen pendings.items) }
{
    pendings.push(Pending::Not(line))?;
    Ok(pendings)
}

// Where a value begins.
fn waiting_turn(
    alloc: Global,
    groups: Vec<Group>,
    pendings: Vec<Pending>,
    lexeme: Lexeme,
) -> Result<Turn, AllocError>
    ensures { IfOk result (TurnIs (token_of lexeme.token) (waiting_turn (groups_seen groups.items) (pendings_seen pendings.items) lexeme.line (token_of lexeme.token))) }
{
    let Lexeme { line, token } = lexeme;
    match token {
        Token::Name(name) => Ok(Turn::Goes(groups, pendings, Point::Named(line, name))),
        Token::Number(n) => {
            if n >= NUMBERS {
                return Ok(Turn::Stuck);
            }
            let value = operand::number(alloc, line, n);
            Ok(Turn::Goes(groups, pendings, Point::Having(value)))
        }
        Token::Str(text) => {
            let value = operand::text(alloc, line, text);
            Ok(Turn::Goes(groups, pendings, Point::Having(value)))
        }
        Token::Mark(Mark::True) => {
            let value = operand::flag(alloc, line, true);
            Ok(Turn::Goes(groups, pendings, Point::Having(value)))
        }
        Token::Mark(Mark::False) => {
            let value = operand::flag(alloc, line, false);
            Ok(Turn::Goes(groups, pendings, Point::Having(value)))
        }
        Token::Mark(Mark::Not) => {
            if wanted(pendings.as_slice()) > 2 {
                return Ok(Turn::Stuck);
            }
            let pendings = with_not(pendings, line)?;
            Ok(Turn::Goes(groups, pendings, Point::Waiting))
        }
        Token::Mark(Mark::Time) => Ok(Turn::Goes(groups, pendings, Point::Timing(line))),
        Token::Mark(Mark::OpenGroup) => {
            let groups = with_group(groups, pendings, None, line)?;
            Ok(Turn::Goes(groups, Vec::new(alloc), Point::Waiting))
        }
        _ => Ok(Turn::Stuck),
    }
}

// Behind a name.
fn named_turn(
    alloc: Global,
    scope: Scope<'_>,
    groups: Vec<Group>,
    pendings: Vec<Pending>,
    name_line: u32,
    name: Text,
    lexeme: Lexeme,
) -> Result<Turn, AllocError>
    ensures { IfOk result (TurnIs (token_of lexeme.token) (named_turn (scope_seen scope.entry) scope.entry.level (groups_seen groups.items) (pendings_seen pendings.items) name_line name (lexeme_of lexeme))) }
{
    if is_dot(&lexeme.token) {
        return Ok(Turn::Goes(groups, pendings, Point::Dotted(name_line, name)));
    }
    let value = operand::total(alloc, scope, name_line, name);
    having_turn(alloc, scope.level, groups, pendings, value, lexeme)
}

// Behind a name and `.`.
fn dotted_turn(
    alloc: Global,
    scope: Scope<'_>,
    groups: Vec<Group>,
    pendings: Vec<Pending>,
    name_line: u32,
    name: Text,
    lexeme: Lexeme,
) -> Result<Turn, AllocError>
    ensures { IfOk result (TurnIs (token_of lexeme.token) (dotted_turn (scope_seen scope.entry) (groups_seen groups.items) (pendings_seen pendings.items) name_line name lexeme.line (token_of lexeme.token))) }
{
    let Lexeme { line, token } = lexeme;
    match token {
        Token::Name(field) => {
            let value = operand::field(alloc, scope, name_line, name, line, field);
            Ok(Turn::Goes(groups, pendings, Point::Having(value)))
        }
        _ => Ok(Turn::Stuck),
    }
}

// Behind `time`.
fn timing_turn(
    alloc: Global,
    groups: Vec<Group>,
    pendings: Vec<Pending>,
    time: u32,
    lexeme: Lexeme,
) -> Result<Turn, AllocError>
    ensures { IfOk result (TurnIs (token_of lexeme.token) (timing_turn (groups_seen groups.items) (pendings_seen pendings.items) time lexeme.line (token_of lexeme.token))) }
{
    let Lexeme { line, token } = lexeme;
    match token {
        Token::Mark(Mark::OpenGroup) => {
            let groups = with_group(groups, pendings, Some(time), line)?;
            Ok(Turn::Goes(groups, Vec::new(alloc), Point::Waiting))
        }
        _ => Ok(Turn::Stuck),
    }
}

/// A token in an expression.
pub(crate) fn take_token(
    alloc: Global,
    scope: Scope<'_>,
    groups: Vec<Group>,
    pendings: Vec<Pending>,
    point: Point,
    lexeme: Lexeme,
) -> Result<Turn, AllocError>
    ensures { IfOk result (TurnIs (token_of lexeme.token) (turn (scope_seen scope.entry) scope.entry.level (groups_seen groups.items) (pendings_seen pendings.items) (point_seen point) (lexeme_of lexeme))) }
{
    match point {
        Point::Waiting => waiting_turn(alloc, groups, pendings, lexeme),
        Point::Named(name_line, name) => {
            named_turn(alloc, scope, groups, pendings, name_line, name, lexeme)
        }
        Point::Dotted(name_line, name) => {
            dotted_turn(alloc, scope, groups, pendings, name_line, name, lexeme)
        }
        Point::Timing(time) => timing_turn(alloc, groups, pendings, time, lexeme),
        Point::Having(operand) => {
            having_turn(alloc, scope.level, groups, pendings, operand, lexeme)
        }
    }
}
