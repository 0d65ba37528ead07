// The numbers of changes.
ghost use Rattle.std.specs.Prelude.{◌≡◌, find};
ghost use Rattle.std.specs.Ordering.{nat_cmp};
ghost use Rattle.ae_types.specs.Ordered.{Ascends, itself};
ghost use Rattle.ae_log.specs.Settings.{change_numbers};
ghost use Rattle.ae_machine.specs.Verdict.{is_unused};

use ae_base::ChangeNo;
use ae_types::has_number;

/// The least number that isn't among these, which ascend.
pub(crate) fn free_number(numbers: &[ChangeNo]) -> Option<ChangeNo>
    requires { Ascends nat_cmp itself numbers.now }
    ensures { result ≡ find (is_unused numbers.now) change_numbers }
{
    for n in 10..2000 {
        let number = ChangeNo::of(n);
        if !has_number(numbers, number) {
            return Some(number);
        }
    }
    None
}
