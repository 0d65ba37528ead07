// Reading a text.
ghost use Rattle.std.specs.Prelude.{◌≡◌, ◌<◌, ◌≤◌, length, IfOk, IfErr, ℕ, List, true, false, Ok, Err, map};
ghost use Rattle.ae_text.specs.WellFormed.{IsWellFormed, max_depth};
ghost use Rattle.ae_text.specs.Pushdown.{start, step, done};
ghost use Rattle.ae_text.specs.Steps.{state_of, place_of};
ghost use Rattle.ae_text.specs.Scan.{next, behind};
ghost use Rattle.ae_text.specs.Parsing.{Taken, is_done};
ghost use Rattle.ae_text.specs.Tree.{Node, fields};
ghost use Rattle.ae_text.specs.View.{members, members_of, node};
ghost use Rattle.ae_text.specs.Grammar.{Reads, line_of};
ghost use Rattle.ae_text.specs.Wrong.{IsSyntax, IsTooDeep};
ghost use Rattle.ae_text.specs.Answering.{IsRead, IsRefused};
ghost use Rattle.ae_text.specs.Reading.{IsFault, fault_of, left, TurnFails};

use crate::lines::{LineList, line_at, lines_at};
use crate::open_fields::OpenFields;
use crate::pushdown::{Place, State, Stop, step};
use crate::scan::{read_token, skip_gap};
use crate::tree::{FieldList, Tree};
use std::alloc::{AllocError, Global};

/// Why a text was not read, and where the token begins that was not taken.
#[derive(Drop)]
pub(crate) enum Fault {
    Syntax(usize),
    TooDeep(usize),
    Memory,
}

fn started(alloc: Global) -> State
    ensures { state_of result ≡ start }
{
    State {
        outer: Vec::new(alloc),
        place: Place::AtName(OpenFields::new(alloc)),
        starts: Vec::new(alloc),
    }
}

fn fault_at(stop: Stop, at: usize) -> Fault
    ensures { result ≡ fault_of stop at }
{
    match stop {
        Stop::Syntax => Fault::Syntax(at),
        Stop::TooDeep => Fault::TooDeep(at),
        Stop::Memory => Fault::Memory,
    }
}

impl State {
    fn is_done(&self) -> bool
        ensures { result ≡ is_done (place_of self.now.place) }
    {
        matches!(self.place, Place::Done(_))
    }
}

// The state after the next token, and the bytes after it.
fn turn(alloc: Global, total: usize, state: State, rest: &[u8]) -> Result<(State, &[u8]), Fault>
    requires { length rest.now ≤ total }
    ensures ok { IfOk result (λ r. (step max_depth (state_of state) (next total rest.now) ≡ Ok (state_of r.0)) × (r.1.now ≡ behind rest.now)) }
    ensures less { IfOk result (λ r. is_done (place_of state.place) ≡ false → left (state_of r.0) r.1.now < left (state_of state) rest.now) }
    ensures within { IfOk result (λ r. length r.1.now ≤ length rest.now) }
    ensures err { IfErr result (TurnFails total (state_of state) rest.now) }
{
    let here = skip_gap(rest);
    let at = total - here.len();
    let (token, behind) = match read_token(alloc, here) {
        Ok(read) => read,
        Err(_) => {
            drop(state);
            return Err(Fault::Memory);
        }
    };
    match step(alloc, state, at, token) {
        Ok(next) => Ok((next, behind)),
        Err(stop) => Err(fault_at(stop, at)),
    }
}

// The state after the last token.
fn parse(alloc: Global, bytes: &[u8]) -> Result<State, Fault>
    ensures ok { IfOk result (λ s. (is_done (place_of s.place) ≡ true) × ((rest : List ℕ) × Taken bytes.now rest (state_of s))) }
    ensures err { IfErr result (IsFault bytes.now) }
{
    let mut state = started(alloc);
    let mut rest = bytes;
    while !state.is_done() {
        let (reached, behind) = turn(alloc, bytes.len(), state, rest)?;
        state = reached;
        rest = behind;
    }
    Ok(state)
}

/// A text that was read: its fields, and the line of each of them, in order.
#[derive(Drop)]
pub struct Parsed {
    pub tree: Tree,
    pub lines: LineList,
}

/// Why a text was not read. A line above 4,294,967,295 is given as that number.
#[derive(Drop, Debug)]
pub enum TextError {
    /// The line of the first token that can't stand where it stands.
    Syntax(u32),
    /// The line of the opening sign of a list or structure that would be the 17th level.
    TooDeep(u32),
    Memory,
}

// The fields of a text that has ended.
fn done_fields(alloc: Global, place: Place) -> FieldList
    ensures { (fs : List (List ℕ × Node)) → place_of place ≡ done fs → members result ≡ members_of fs }
{
    match place {
        Place::Done(fields) => fields.close(),
        other => {
            drop(other);
            FieldList::of(Vec::new(alloc))
        }
    }
}

fn finished(alloc: Global, bytes: &[u8], state: State) -> Result<Parsed, AllocError>
    ensures { IfOk result (λ p. (p.lines ≡ map (line_of bytes.now) state.starts.items)
        × ((fs : List (List ℕ × Node)) → place_of state.place ≡ done fs → node p.tree ≡ fields (members_of fs))) }
{
    let State {
        outer: _,
        place,
        starts,
    } = state;
    let fields = done_fields(alloc, place);
    let lines = lines_at(alloc, bytes, starts.as_slice())?;
    Ok(Parsed {
        tree: Tree::Fields(fields),
        lines,
    })
}

/// The tree that the bytes are the text of, the inverse of `print_tree`. What the grammar is, and
/// which line an error names, stands in docs/FORMATS.md.
pub fn read_tree(alloc: Global, bytes: &[u8]) -> Result<Parsed, TextError>
    // What is read is in the grammar.
    ensures found { IfOk result (λ p. Reads bytes.now (node p.tree) p.lines) }
    ensures well_formed { IfOk result (λ p. IsWellFormed (node p.tree)) }
    // What is in the grammar is read, unless memory runs out.
    ensures only { (tree : Node) (lines : List ℕ) → Reads bytes.now tree lines
        → IsRead (λ p. (node p.tree ≡ tree) × (p.lines ≡ lines)) result }
    // An error names the line of the first wrong token.
    ensures syntax { (line : ℕ) → result ≡ Err (TextError.Syntax line) → IsSyntax bytes.now line }
    ensures too_deep { (line : ℕ) → result ≡ Err (TextError.TooDeep line) → IsTooDeep bytes.now line }
    // Where a token is wrong, that error comes, unless memory runs out.
    ensures only_syntax { (line : ℕ) → IsSyntax bytes.now line → IsRefused (TextError.Syntax line) result }
    ensures only_too_deep { (line : ℕ) → IsTooDeep bytes.now line → IsRefused (TextError.TooDeep line) result }
{
    match parse(alloc, bytes) {
        Ok(state) => match finished(alloc, bytes, state) {
            Ok(parsed) => Ok(parsed),
            Err(_) => Err(TextError::Memory),
        },
        Err(Fault::Syntax(at)) => Err(TextError::Syntax(line_at(bytes, at))),
        Err(Fault::TooDeep(at)) => Err(TextError::TooDeep(line_at(bytes, at))),
        Err(Fault::Memory) => Err(TextError::Memory),
    }
}
