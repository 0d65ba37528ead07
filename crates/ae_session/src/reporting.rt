// The report that a command asks for.
ghost use Rattle.std.specs.Prelude.{◌≡◌, ◌∷◌, []};
ghost use Rattle.ae_words.specs.Formed.{IsFormed};
ghost use Rattle.ae_words.specs.declared.table.Function.TheVariants as function;
ghost use Rattle.ae_reporting.specs.Asked.{asked_by};

use ae_reporting::AskedReport;
use ae_words::Command;

/// The report that a command names: the project of which it is asked for, where one is given, and the path of its file.
pub(crate) fn asked_report(command: &Command) -> AskedReport<'_>
    requires formed { IsFormed command.now }
    requires reports { command.now.function ≡ function.Report }
    ensures project { command.now.project ≡ (asked_by result).project }
    ensures path { command.now.paths ≡ (asked_by result).path ∷ [] }
{
    let paths = command.paths.as_slice();
    AskedReport {
        project: command.project.as_ref(),
        path: &paths[0],
    }
}
