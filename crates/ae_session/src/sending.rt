// The change of which a command asks for the change set.
ghost use Rattle.std.specs.Prelude.{◌≡◌, Some};
ghost use Rattle.ae_words.specs.Formed.{IsFormed};
ghost use Rattle.ae_words.specs.declared.table.Function.TheVariants as function;

use ae_base::ChangeNo;
use ae_words::Command;

/// The number of the change that is sent.
pub(crate) fn change_sent(command: &Command) -> ChangeNo
    requires formed { IsFormed command.now }
    requires sends { command.now.function ≡ function.DistributionSend }
    ensures { command.now.change ≡ Some result }
{
    match command.change {
        Some(number) => number,
        None => unreachable!(),
    }
}
