// The reader's state: what is open, and what may stand next.
ghost use Rattle.std.specs.Prelude.{◌≡◌, ◌++◌, ◌∷◌, ◌||◌, [], not, nat_le, length, is_some, IfOk};
ghost use Rattle.ae_rlang.specs.Operator.{earlier, bad_where};
ghost use Rattle.ae_rlang.specs.Scope.{is_among, table_bound};
ghost use Rattle.ae_rlang.specs.Bad.{max_fors, max_level};
ghost use Rattle.ae_rlang.specs.Kept.{deeds_where};
ghost use Rattle.ae_rlang.specs.Meaning.{table_or_any};
ghost use Rattle.ae_rlang.specs.View.{cells_seen, deed_of, deeds_seen, meaning};
ghost use Rattle.ae_rlang.specs.Machine.{empty_body, start, with_deed, done_with, moved, at_statement, close_step, dropped, in_expression, waiting, end_step, statement_step, title_step, title_end_step, total_name_step, total_equals_step, for_name_step, in_step, table_step, opening_bad, where_step, slot_step, for_cell, for_total, for_test, for_choice, place_step, width_step, comma_step, right_step, else_step, else_body_step, step};
ghost use Rattle.ae_rlang.specs.Steps.{Gives, around_seen, block_seen, blocks_seen, body_seen, groups_seen, lexeme_of, pendings_seen, place_seen, point_seen, slot_seen, state_seen, token_of, value_seen};
ghost use Rattle.ae_rlang.specs.declared.statement.Stop.TheVariants.{Memory};

use crate::expression;
use crate::expression::{Group, Pending, Point, Turn};
use crate::operand::{Bound, Operand, Scope, bad_level, is_among, is_deep, table_bound};
use crate::operator::{Kind, bad_where, earlier, is_other};
use crate::report::{Cell, CellList, Expr, Statement, StatementList};
use crate::table::{Table, table_of};
use crate::token::{Lexeme, Mark, Token, is_else, is_right};
use ae_base::Text;
use std::alloc::{AllocError, AllocFailed, Global};

/// The statements of a block so far, and their first bad line.
#[derive(Drop)]
pub(crate) struct Body {
    pub(crate) statements: Vec<Statement>,
    pub(crate) bad: Option<u32>,
}

/// A block that is open: what stands before its statement, its head, and the first bad line of it.
#[derive(Drop)]
pub(crate) enum Block {
    Each(Body, Text, Option<Table>, Option<Expr>, Option<u32>),
    Choice(Body, Expr, Option<u32>),
    /// Behind `else`, with the first body.
    Else(Body, Expr, Vec<Statement>, Option<u32>),
}

/// The front of a `for`: its line, and its name with the line of that.
#[derive(Drop)]
pub(crate) struct Front {
    pub(crate) line: u32,
    pub(crate) name_line: u32,
    pub(crate) name: Text,
}

/// The head of a `for`: its name, its table, and its first bad line.
#[derive(Drop)]
pub(crate) struct Head {
    pub(crate) name: Text,
    pub(crate) table: Option<Table>,
    pub(crate) bad: Option<u32>,
}

/// What an expression is read for.
#[derive(Drop)]
pub(crate) enum Slot {
    /// A cell, behind those so far, and their first bad line.
    Cell(Vec<Cell>, Option<u32>),
    /// The line of `total`, and the name.
    Total(u32, Text),
    /// The head of a `for`, and the line of `where`.
    Test(Head, u32),
    /// The line of `if`.
    Choice(u32),
}

/// An expression that is being read: what for, what is open in it, and where in it the reader is.
#[derive(Drop)]
pub(crate) struct Reading {
    pub(crate) slot: Slot,
    pub(crate) groups: Vec<Group>,
    pub(crate) pendings: Vec<Pending>,
    pub(crate) point: Point,
}

/// What may stand next.
#[derive(Drop)]
pub(crate) enum Place {
    /// A statement, or the end of the block or of the text.
    AtStatement,
    AtTitle,
    AtTitleEnd(Text),
    AtTotalName(u32),
    AtTotalEquals(u32, Text),
    AtForName(u32),
    AtIn(Front),
    AtTable(Front),
    /// `where`, or the body.
    AtWhere(Head),
    InExpression(Reading),
    AtWidth(Vec<Cell>, Option<u32>, Operand),
    /// `right`, or the end of the cell.
    AtRight(Vec<Cell>, Option<u32>, Operand, u32),
    /// The end of a cell.
    AtComma(Vec<Cell>, Option<u32>),
    /// `else`, or what comes behind the statement.
    AtElse(Expr, Vec<Statement>, Option<u32>),
    AtElseBody(Expr, Vec<Statement>, Option<u32>),
    /// Nothing: the text has ended.
    Done,
}

/// The names that are bound, the blocks that are open, the last the innermost, and the statements
/// of the innermost.
#[derive(Drop)]
pub(crate) struct Around {
    pub(crate) bound: Vec<Bound>,
    pub(crate) blocks: Vec<Block>,
    pub(crate) body: Body,
}

/// What is open, after the tokens so far.
#[derive(Drop)]
pub(crate) struct State {
    pub(crate) around: Around,
    pub(crate) place: Place,
}

/// Why a token was not taken.
#[derive(Drop)]
pub(crate) enum Stop {
    /// It can't stand there.
    Wrong,
    Memory,
}

impl From<AllocError> for Stop {
    ghost from_gives = { λ _ e. e ≡ Memory };

    fn from(_e: AllocError) -> Stop {
        Stop::Memory
    }
}

impl<T: Drop> From<AllocFailed<T>> for Stop {
    ghost from_gives = { λ _ e. e ≡ Memory };

    fn from(_e: AllocFailed<T>) -> Stop {
        Stop::Memory
    }
}

fn empty_body(alloc: Global) -> Body
    ensures { body_seen result ≡ empty_body }
{
    Body {
        statements: Vec::new(alloc),
        bad: None,
    }
}

/// Nothing is read.
pub(crate) fn started(alloc: Global) -> State
    ensures { state_seen result ≡ start }
{
    State {
        around: Around {
            bound: Vec::new(alloc),
            blocks: Vec::new(alloc),
            body: empty_body(alloc),
        },
        place: Place::AtStatement,
    }
}

// The statements with one more, and its first bad line.
fn with_statement(
    mut around: Around,
    statement: Statement,
    bad: Option<u32>,
) -> Result<Around, AllocError>
    ensures { IfOk result (λ a. around_seen a ≡ with_deed (around_seen around) (deed_of statement) bad) }
{
    around.body.statements.push(statement)?;
    around.body.bad = earlier(around.body.bad, bad);
    Ok(around)
}

fn done_with(around: Around, statement: Statement, bad: Option<u32>) -> Result<State, Stop>
    ensures { Gives result (done_with (around_seen around) (deed_of statement) bad) }
{
    let around = with_statement(around, statement, bad)?;
    Ok(State {
        around,
        place: Place::AtStatement,
    })
}

// A block is opened, whose statement stands in the body so far.
fn opened(
    alloc: Global,
    bound: Vec<Bound>,
    mut blocks: Vec<Block>,
    block: Block,
) -> Result<State, Stop>
    ensures { Gives result (moved (record { bound = bound.items; blocks = block_seen block ∷ blocks_seen blocks.items; body = empty_body }) at_statement) }
{
    blocks.push(block)?;
    Ok(State {
        around: Around {
            bound,
            blocks,
            body: empty_body(alloc),
        },
        place: Place::AtStatement,
    })
}

fn table_or_any(table: Option<Table>) -> Table
    ensures { result ≡ table_or_any table }
{
    match table {
        Some(table) => table,
        None => Table::Changes,
    }
}

fn without_first(mut bound: Vec<Bound>) -> Vec<Bound>
    ensures { result.items ≡ dropped bound.items }
{
    if !bound.is_empty() {
        let _first = bound.remove(0);
    }
    bound
}

// What is kept of the statements of a block inside these: none where it is one level too deep.
fn inside_kept(alloc: Global, blocks: &[Block], statements: Vec<Statement>) -> Vec<Statement>
    ensures { deeds_seen result.items ≡ deeds_where (nat_le max_level (length (blocks_seen blocks.now))) (deeds_seen statements.items) }
{
    if is_deep(blocks.len(), 0) {
        return Vec::new(alloc);
    }
    statements
}

// The innermost block is closed.
fn close(alloc: Global, around: Around) -> Result<State, Stop>
    ensures { Gives result (close_step (around_seen around).bound (around_seen around).blocks (around_seen around).body) }
{
    let Around {
        bound,
        mut blocks,
        body,
    } = around;
    let Body { statements, bad } = body;
    let block = blocks.pop();
    let inside = inside_kept(alloc, blocks.as_slice(), statements);
    match block {
        None => Err(Stop::Wrong),
        Some(Block::Each(outer, name, table, test, line)) => {
            let each = Statement::For(name, table_or_any(table), test, StatementList::of(inside));
            let around = Around {
                bound: without_first(bound),
                blocks,
                body: outer,
            };
            done_with(around, each, earlier(line, bad))
        }
        Some(Block::Choice(outer, test, line)) => {
            let around = Around {
                bound,
                blocks,
                body: outer,
            };
            moved(around, Place::AtElse(test, inside, earlier(line, bad)))
        }
        Some(Block::Else(outer, test, first, line)) => {
            let choose = Statement::If(test, StatementList::of(first), StatementList::of(inside));
            let around = Around {
                bound,
                blocks,
                body: outer,
            };
            done_with(around, choose, earlier(line, bad))
        }
    }
}

fn moved(around: Around, place: Place) -> Result<State, Stop>
    ensures { Gives result (moved (around_seen around) (place_seen place)) }
{
    Ok(State { around, place })
}

// An expression begins.
fn begun(alloc: Global, around: Around, slot: Slot) -> Result<State, Stop>
    ensures { Gives result (moved (around_seen around) (in_expression (slot_seen slot) [] [] waiting)) }
{
    let reading = Reading {
        slot,
        groups: Vec::new(alloc),
        pendings: Vec::new(alloc),
        point: Point::Waiting,
    };
    Ok(State {
        around,
        place: Place::InExpression(reading),
    })
}

fn end(around: Around) -> Result<State, Stop>
    ensures { Gives result (end_step (around_seen around) (around_seen around).blocks) }
{
    if around.blocks.is_empty() {
        moved(around, Place::Done)
    } else {
        Err(Stop::Wrong)
    }
}

// A statement, or the end.
fn statement(alloc: Global, around: Around, line: u32, token: Token) -> Result<State, Stop>
    ensures { Gives result (statement_step (around_seen around) line (token_of token)) }
{
    match token {
        Token::Mark(Mark::Title) => moved(around, Place::AtTitle),
        Token::Mark(Mark::Columns) => begun(alloc, around, Slot::Cell(Vec::new(alloc), None)),
        Token::Mark(Mark::Total) => moved(around, Place::AtTotalName(line)),
        Token::Mark(Mark::For) => moved(around, Place::AtForName(line)),
        Token::Mark(Mark::If) => begun(alloc, around, Slot::Choice(line)),
        Token::Mark(Mark::CloseBlock) => close(alloc, around),
        Token::End => end(around),
        _ => Err(Stop::Wrong),
    }
}

fn title(around: Around, token: Token) -> Result<State, Stop>
    ensures { Gives result (title_step (around_seen around) (token_of token)) }
{
    match token {
        Token::Str(text) => moved(around, Place::AtTitleEnd(text)),
        _ => Err(Stop::Wrong),
    }
}

fn title_end(around: Around, text: Text, token: Token) -> Result<State, Stop>
    ensures { Gives result (title_end_step (around_seen around) text (token_of token)) }
{
    match token {
        Token::Mark(Mark::Semicolon) => done_with(around, Statement::Title(text), None),
        _ => Err(Stop::Wrong),
    }
}

fn total_name(around: Around, line: u32, token: Token) -> Result<State, Stop>
    ensures { Gives result (total_name_step (around_seen around) line (token_of token)) }
{
    match token {
        Token::Name(name) => moved(around, Place::AtTotalEquals(line, name)),
        _ => Err(Stop::Wrong),
    }
}

fn total_equals(
    alloc: Global,
    around: Around,
    line: u32,
    name: Text,
    token: Token,
) -> Result<State, Stop>
    ensures { Gives result (total_equals_step (around_seen around) line name (token_of token)) }
{
    match token {
        Token::Mark(Mark::Assign) => begun(alloc, around, Slot::Total(line, name)),
        _ => Err(Stop::Wrong),
    }
}

fn for_name(around: Around, line: u32, name_line: u32, token: Token) -> Result<State, Stop>
    ensures { Gives result (for_name_step (around_seen around) line name_line (token_of token)) }
{
    match token {
        Token::Name(name) => {
            let front = Front {
                line,
                name_line,
                name,
            };
            moved(around, Place::AtIn(front))
        }
        _ => Err(Stop::Wrong),
    }
}

// The `in` of a `for`.
fn within(around: Around, front: Front, token: Token) -> Result<State, Stop>
    ensures { Gives result (in_step (around_seen around) front.line front.name_line front.name (token_of token)) }
{
    match token {
        Token::Mark(Mark::In) => moved(around, Place::AtTable(front)),
        _ => Err(Stop::Wrong),
    }
}

// So many `for` may stand in each other.
const MAX_FORS: usize = 2;

// The first bad line of the head of a `for` up to its table.
fn header_bad(
    totals: &[Text],
    bound: &[Bound],
    front: &Front,
    table_line: u32,
    table: Option<Table>,
) -> Option<u32>
    ensures { result ≡ earlier (earlier (bad_where (nat_le max_fors (length bound.now)) front.now.line) (bad_where (is_among front.now.name totals.now || is_some (table_bound front.now.name bound.now)) front.now.name_line)) (bad_where (not (is_some table)) table_line) }
{
    let known = is_among(&front.name, totals) || table_bound(&front.name, bound).is_some();
    let bad = earlier(
        bad_where(bound.len() >= MAX_FORS, front.line),
        bad_where(known, front.name_line),
    );
    earlier(bad, bad_where(table.is_none(), table_line))
}

fn table(
    alloc: Global,
    totals: &[Text],
    mut around: Around,
    front: Front,
    lexeme: Lexeme,
) -> Result<State, Stop>
    ensures { Gives result (table_step totals.now (around_seen around) front.line front.name_line front.name lexeme.line (token_of lexeme.token)) }
{
    let Lexeme { line, token } = lexeme;
    match token {
        Token::Name(word) => {
            let table = table_of(word.bytes());
            let bound = around.bound.as_slice();
            let bad = header_bad(totals, bound, &front, line, table);
            let Front {
                line: _,
                name_line: _,
                name,
            } = front;
            let copy = name.copy(alloc)?;
            around.bound.insert(0, Bound { name: copy, table })?;
            moved(around, Place::AtWhere(Head { name, table, bad }))
        }
        _ => Err(Stop::Wrong),
    }
}

// A block is opened by the sign in this line, whose head is `block` of its first bad line.
fn opening_bad(blocks: &[Block], bad: Option<u32>, line: u32) -> Option<u32>
    ensures { result ≡ opening_bad (blocks_seen blocks.now) bad line }
{
    earlier(bad, bad_level(blocks.len(), line))
}

fn where_or_body(
    alloc: Global,
    around: Around,
    head: Head,
    line: u32,
    token: Token,
) -> Result<State, Stop>
    ensures { Gives result (where_step (around_seen around) head.name head.table head.bad line (token_of token)) }
{
    match token {
        Token::Mark(Mark::Where) => begun(alloc, around, Slot::Test(head, line)),
        Token::Mark(Mark::OpenBlock) => {
            let Head { name, table, bad } = head;
            let bad = opening_bad(around.blocks.as_slice(), earlier(bad, None), line);
            let Around {
                bound,
                blocks,
                body,
            } = around;
            opened(
                alloc,
                bound,
                blocks,
                Block::Each(body, name, table, None, bad),
            )
        }
        _ => Err(Stop::Wrong),
    }
}

fn end_total(
    around: Around,
    word_line: u32,
    name: Text,
    value: Operand,
    lexeme: Lexeme,
) -> Result<State, Stop>
    ensures { Gives result (slot_step (around_seen around) (for_total word_line name) (value_seen value) lexeme.line (token_of lexeme.token)) }
{
    match lexeme.token {
        Token::Mark(Mark::Semicolon) => {
            let wrong = is_other(value.kind, Kind::Number);
            let bad = earlier(value.bad, bad_where(wrong, word_line));
            done_with(around, Statement::Total(word_line, name, value.expr), bad)
        }
        _ => Err(Stop::Wrong),
    }
}

fn end_test(
    alloc: Global,
    around: Around,
    head: Head,
    word_line: u32,
    value: Operand,
    lexeme: Lexeme,
) -> Result<State, Stop>
    ensures { Gives result (slot_step (around_seen around) (for_test head.name head.table head.bad word_line) (value_seen value) lexeme.line (token_of lexeme.token)) }
{
    match lexeme.token {
        Token::Mark(Mark::OpenBlock) => {
            let Head { name, table, bad } = head;
            let own = earlier(
                value.bad,
                bad_where(is_other(value.kind, Kind::Flag), word_line),
            );
            let bad = opening_bad(around.blocks.as_slice(), earlier(bad, own), lexeme.line);
            let Around {
                bound,
                blocks,
                body,
            } = around;
            let block = Block::Each(body, name, table, Some(value.expr), bad);
            opened(alloc, bound, blocks, block)
        }
        _ => Err(Stop::Wrong),
    }
}

fn end_choice(
    alloc: Global,
    around: Around,
    word_line: u32,
    value: Operand,
    lexeme: Lexeme,
) -> Result<State, Stop>
    ensures { Gives result (slot_step (around_seen around) (for_choice word_line) (value_seen value) lexeme.line (token_of lexeme.token)) }
{
    match lexeme.token {
        Token::Mark(Mark::OpenBlock) => {
            let own = earlier(
                value.bad,
                bad_where(is_other(value.kind, Kind::Flag), word_line),
            );
            let bad = opening_bad(around.blocks.as_slice(), own, lexeme.line);
            let Around {
                bound,
                blocks,
                body,
            } = around;
            opened(alloc, bound, blocks, Block::Choice(body, value.expr, bad))
        }
        _ => Err(Stop::Wrong),
    }
}

fn end_cell(
    around: Around,
    cells: Vec<Cell>,
    bad: Option<u32>,
    value: Operand,
    lexeme: Lexeme,
) -> Result<State, Stop>
    ensures { Gives result (slot_step (around_seen around) (for_cell (cells_seen cells.items) bad) (value_seen value) lexeme.line (token_of lexeme.token)) }
{
    match lexeme.token {
        Token::Mark(Mark::Colon) => moved(around, Place::AtWidth(cells, bad, value)),
        _ => Err(Stop::Wrong),
    }
}

// An expression has ended, and this token is behind it.
fn end_expression(
    alloc: Global,
    around: Around,
    slot: Slot,
    value: Operand,
    lexeme: Lexeme,
) -> Result<State, Stop>
    ensures { Gives result (slot_step (around_seen around) (slot_seen slot) (value_seen value) lexeme.line (token_of lexeme.token)) }
{
    match slot {
        Slot::Cell(cells, bad) => end_cell(around, cells, bad, value, lexeme),
        Slot::Total(word_line, name) => end_total(around, word_line, name, value, lexeme),
        Slot::Test(head, word_line) => end_test(alloc, around, head, word_line, value, lexeme),
        Slot::Choice(word_line) => end_choice(alloc, around, word_line, value, lexeme),
    }
}

fn in_expression(
    alloc: Global,
    totals: &[Text],
    around: Around,
    reading: Reading,
    lexeme: Lexeme,
) -> Result<State, Stop>
    ensures { Gives result (place_step totals.now (around_seen around) (place_seen (Place.InExpression reading)) (lexeme_of lexeme)) }
{
    let line = lexeme.line;
    let Reading {
        slot,
        groups,
        pendings,
        point,
    } = reading;
    let level = around.blocks.len();
    let bound = around.bound.as_slice();
    let scope = Scope {
        totals,
        bound,
        level,
    };
    let turn = expression::take_token(alloc, scope, groups, pendings, point, lexeme)?;
    match turn {
        Turn::Goes(groups, pendings, point) => {
            let reading = Reading {
                slot,
                groups,
                pendings,
                point,
            };
            moved(around, Place::InExpression(reading))
        }
        Turn::Ended(value, token) => {
            end_expression(alloc, around, slot, value, Lexeme { line, token })
        }
        Turn::Stuck => Err(Stop::Wrong),
    }
}

fn width(
    around: Around,
    cells: Vec<Cell>,
    bad: Option<u32>,
    value: Operand,
    token: Token,
) -> Result<State, Stop>
    ensures { Gives result (width_step (around_seen around) (cells_seen cells.items) bad (value_seen value) (token_of token)) }
{
    match token {
        Token::Number(n) => {
            if 1 <= n && n <= 200 {
                moved(around, Place::AtRight(cells, bad, value, n as u32))
            } else {
                drop(value);
                Err(Stop::Wrong)
            }
        }
        _ => Err(Stop::Wrong),
    }
}

// Behind a cell.
fn comma(
    alloc: Global,
    around: Around,
    cells: Vec<Cell>,
    bad: Option<u32>,
    token: Token,
) -> Result<State, Stop>
    ensures { Gives result (comma_step (around_seen around) (cells_seen cells.items) bad (token_of token)) }
{
    match token {
        Token::Mark(Mark::Comma) => begun(alloc, around, Slot::Cell(cells, bad)),
        Token::Mark(Mark::Semicolon) => {
            done_with(around, Statement::Columns(CellList::of(cells)), bad)
        }
        _ => Err(Stop::Wrong),
    }
}

fn with_cell(
    mut cells: Vec<Cell>,
    value: Expr,
    width: u32,
    right: bool,
) -> Result<Vec<Cell>, AllocError>
    ensures { IfOk result (λ made. cells_seen made.items ≡ cells_seen cells.items ++ record { value = meaning value; width = width; right = right } ∷ []) }
{
    cells.push(Cell {
        value,
        width,
        right,
    })?;
    Ok(cells)
}

fn right_or_comma(
    alloc: Global,
    around: Around,
    cells: Vec<Cell>,
    bad: Option<u32>,
    value: Operand,
    width: u32,
    token: Token,
) -> Result<State, Stop>
    ensures { Gives result (right_step (around_seen around) (cells_seen cells.items) bad (value_seen value) width (token_of token)) }
{
    let right = is_right(&token);
    let bad = earlier(bad, value.bad);
    let cells = with_cell(cells, value.expr, width, right)?;
    if right {
        moved(around, Place::AtComma(cells, bad))
    } else {
        comma(alloc, around, cells, bad, token)
    }
}

fn else_or_statement(
    alloc: Global,
    around: Around,
    test: Expr,
    first: Vec<Statement>,
    bad: Option<u32>,
    lexeme: Lexeme,
) -> Result<State, Stop>
    ensures { Gives result (else_step (around_seen around) (meaning test) (deeds_seen first.items) bad lexeme.line (token_of lexeme.token)) }
{
    if is_else(&lexeme.token) {
        return moved(around, Place::AtElseBody(test, first, bad));
    }
    let second = StatementList::of(Vec::new(alloc));
    let choose = Statement::If(test, StatementList::of(first), second);
    let around = with_statement(around, choose, bad)?;
    statement(alloc, around, lexeme.line, lexeme.token)
}

fn else_body(
    alloc: Global,
    around: Around,
    test: Expr,
    first: Vec<Statement>,
    bad: Option<u32>,
    lexeme: Lexeme,
) -> Result<State, Stop>
    ensures { Gives result (else_body_step (around_seen around) (meaning test) (deeds_seen first.items) bad lexeme.line (token_of lexeme.token)) }
{
    match lexeme.token {
        Token::Mark(Mark::OpenBlock) => {
            let bad = opening_bad(around.blocks.as_slice(), bad, lexeme.line);
            let Around {
                bound,
                blocks,
                body,
            } = around;
            opened(alloc, bound, blocks, Block::Else(body, test, first, bad))
        }
        _ => Err(Stop::Wrong),
    }
}

/// The state after a token.
#[tactic(auto, unfolding(crate::specs::Machine::step))]
pub(crate) fn step(
    alloc: Global,
    totals: &[Text],
    state: State,
    lexeme: Lexeme,
) -> Result<State, Stop>
    ensures { Gives result (step totals.now (state_seen state) (lexeme_of lexeme)) }
{
    let State { around, place } = state;
    match place {
        Place::AtStatement => statement(alloc, around, lexeme.line, lexeme.token),
        Place::AtTitle => title(around, lexeme.token),
        Place::AtTitleEnd(text) => title_end(around, text, lexeme.token),
        Place::AtTotalName(word_line) => total_name(around, word_line, lexeme.token),
        Place::AtTotalEquals(word_line, name) => {
            total_equals(alloc, around, word_line, name, lexeme.token)
        }
        Place::AtForName(word_line) => for_name(around, word_line, lexeme.line, lexeme.token),
        Place::AtIn(front) => within(around, front, lexeme.token),
        Place::AtTable(front) => table(alloc, totals, around, front, lexeme),
        Place::AtWhere(head) => where_or_body(alloc, around, head, lexeme.line, lexeme.token),
        Place::InExpression(reading) => in_expression(alloc, totals, around, reading, lexeme),
        Place::AtWidth(cells, bad, value) => width(around, cells, bad, value, lexeme.token),
        Place::AtRight(cells, bad, value, width) => {
            right_or_comma(alloc, around, cells, bad, value, width, lexeme.token)
        }
        Place::AtComma(cells, bad) => comma(alloc, around, cells, bad, lexeme.token),
        Place::AtElse(test, first, bad) => {
            else_or_statement(alloc, around, test, first, bad, lexeme)
        }
        Place::AtElseBody(test, first, bad) => {
            else_body(alloc, around, test, first, bad, lexeme)
        }
        Place::Done => Err(Stop::Wrong),
    }
}
