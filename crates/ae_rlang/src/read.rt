// Reading a report.
ghost use Rattle.std.specs.Prelude.{◌≡◌, ◌∷◌, [], ◌++◌, ℕ, Some, None, false, IfOk, IfErr, Err};
ghost use Rattle.ae_rlang.specs.Report.{Deeds, deeds_of};
ghost use Rattle.ae_rlang.specs.View.{deeds};
ghost use Rattle.ae_rlang.specs.Scope.{is_total, total_named, totals_in};
ghost use Rattle.ae_rlang.specs.Reads.{IsGood, IsReport, IsRefused};
ghost use Rattle.ae_rlang.specs.Machine.{run, start};
ghost use Rattle.ae_rlang.specs.Answering.{IsRead, IsRefusedWith, StopsAt};
ghost use Rattle.ae_rlang.specs.Steps.{lexemes_seen, state_seen, token_of};

use crate::report::{Report, StatementList};
use crate::scan::lexemes;
use crate::statement::{Around, Body, State, Stop, started, step};
use crate::token::{Lexeme, Mark, Token};
use ae_base::Text;
use std::alloc::{AllocError, Global};

/// Why a report was not read. A line above 4,294,967,295 is given as that number.
#[derive(Drop, Debug)]
pub enum ReadReportError {
    /// The line of the first token that can't stand there, else of the first bad one.
    Bad(u32),
    Memory,
}

fn is_total(token: &Token) -> bool
    ensures { result ≡ is_total (token_of token.now) }
{
    matches!(token, Token::Mark(Mark::Total))
}

// The names with that of a total, where the word `total` stands before it.
fn with_total(
    alloc: Global,
    mut totals: Vec<Text>,
    behind: bool,
    token: &Token,
) -> Result<Vec<Text>, AllocError>
    ensures { IfOk result (λ made. made.items ≡ totals.items ++ total_named behind (token_of token.now) []) }
{
    if behind {
        if let Token::Name(name) = token {
            totals.push(name.copy(alloc)?)?;
        }
    }
    Ok(totals)
}

// The names behind the word `total`.
fn totals_of(alloc: Global, lexemes: &[Lexeme]) -> Result<Vec<Text>, AllocError>
    ensures { IfOk result (λ totals. totals.items ≡ totals_in false (lexemes_seen lexemes.now)) }
{
    let mut totals = Vec::new(alloc);
    let mut behind = false;
    for lexeme in lexemes {
        totals = with_total(alloc, totals, behind, &lexeme.token)?;
        behind = is_total(&lexeme.token);
    }
    Ok(totals)
}

// The state after the last token.
fn parse(alloc: Global, totals: &[Text], lexemes: Vec<Lexeme>) -> Result<State, ReadReportError>
    ensures ok { IfOk result (λ s. run totals.now (Some start) (lexemes_seen lexemes.items) ≡ Some (state_seen s)) }
    ensures err { IfErr result (StopsAt totals.now (lexemes_seen lexemes.items)) }
{
    let mut state = started(alloc);
    for lexeme in lexemes {
        let line = lexeme.line;
        state = match step(alloc, totals, state, lexeme) {
            Ok(next) => next,
            Err(Stop::Wrong) => return Err(ReadReportError::Bad(line)),
            Err(Stop::Memory) => return Err(ReadReportError::Memory),
        };
    }
    Ok(state)
}

// The report of what was read whole, or its first bad line.
fn finished(state: State) -> Result<Report, ReadReportError>
    requires { (state_seen state).around.body.bad ≡ None → ∥ IsGood (deeds_of (state_seen state).around.body.deeds) ∥₁ }
    ensures free { IfOk result (λ report. (state_seen state).around.body.bad ≡ None) }
    ensures same { IfOk result (λ report. deeds report.statements ≡ deeds_of (state_seen state).around.body.deeds) }
    ensures bad { (line : ℕ) → result ≡ Err (ReadReportError.Bad line) → (state_seen state).around.body.bad ≡ Some line }
{
    let State { around, place } = state;
    drop(place);
    let Around {
        bound,
        blocks,
        body,
    } = around;
    drop(bound);
    drop(blocks);
    let Body { statements, bad } = body;
    match bad {
        Some(line) => {
            drop(statements);
            Err(ReadReportError::Bad(line))
        }
        None => Ok(Report {
            statements: StatementList::of(statements),
        }),
    }
}

/// The report that the bytes are. What the language is, and which line an error names, stands in this crate's README.md.
pub fn read_report(alloc: Global, bytes: &[u8]) -> Result<Report, ReadReportError>
    // What is read is that report.
    ensures found { IfOk result (λ report. IsReport bytes.now (deeds report.statements)) }
    // What is a report is read, unless memory runs out.
    ensures only { (report : Deeds) → IsReport bytes.now report → IsRead report result }
    // The error names the line of the first token that can't stand there, else of the first bad one.
    ensures refused { (line : ℕ) → result ≡ Err (ReadReportError.Bad line) → IsRefused bytes.now line }
    // What has such a line is refused with it, unless memory runs out.
    ensures only_refused { (line : ℕ) → IsRefused bytes.now line → IsRefusedWith line result }
{
    let Ok(lexemes) = lexemes(alloc, bytes) else {
        return Err(ReadReportError::Memory);
    };
    let Ok(totals) = totals_of(alloc, lexemes.as_slice()) else {
        return Err(ReadReportError::Memory);
    };
    let state = parse(alloc, totals.as_slice(), lexemes)?;
    finished(state)
}
