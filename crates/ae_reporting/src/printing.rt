// What bytes print of a project.
ghost use Rattle.std.specs.Prelude.{◌≡◌, ◌<◌, IfOk, IfErr, Ok};
ghost use Rattle.ae_rlang.specs.View.{deeds};
ghost use Rattle.ae_report.specs.Out.{out};
ghost use Rattle.ae_report.specs.Results.{Tells};
ghost use Rattle.ae_reporting.specs.Answers.{FailsToPrint};
ghost use Rattle.ae_reporting.specs.Reports.{Prints};

use ae_base::{Outcome, Refusal, Text};
use ae_report::{RunReportError, Steps, run_report};
use ae_rlang::{ReadReportError, Report, read_report};
use ae_types::State;
use std::alloc::Global;
use std::marker::Brand;
use std::sync::ledger::{Blank, Ledger};

// Runs the report, and counts its steps in this ledger, which takes no time.
fn run_counted<L: Ledger>(
    alloc: Global,
    report: &Report,
    state: &State,
    blank: Blank,
) -> Result<Vec<u8>, RunReportError>
    requires name { blank.name ≡ L.name }
    requires parts { blank.parts ≡ L.parts }
    requires some { 0 < blank.parts }
    ensures { Tells (out (deeds report.now.statements) state.now) (λ text. text.items) result }
{
    let mut steps = Steps::<L>::new(blank);
    run_report(alloc, report, state, &mut steps)
}

/// Reads a report, and runs it over the state.
pub(crate) fn print(alloc: Global, bytes: &[u8], state: &State) -> Result<Text, Outcome>
    ensures printed { IfOk result (λ lines. Prints state.now bytes.now (Ok lines)) }
    ensures fails { IfErr result (FailsToPrint state.now bytes.now) }
{
    let report = match read_report(alloc, bytes) {
        Ok(report) => report,
        Err(ReadReportError::Bad(line)) => return Err(Outcome::Refused(Refusal::BadReport(line))),
        Err(ReadReportError::Memory) => return Err(Outcome::Memory),
    };
    match run_counted::<Brand>(alloc, &report, state, Blank::new(1)) {
        Ok(lines) => Ok(Text::of(lines)),
        Err(RunReportError::Number(line)) => Err(Outcome::Refused(Refusal::ReportNumber(line))),
        Err(RunReportError::Memory) => Err(Outcome::Memory),
    }
}
