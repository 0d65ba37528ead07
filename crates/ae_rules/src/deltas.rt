// The deltas beside the changes.
ghost use Rattle.std.specs.Prelude.{◌≡◌, length};
ghost use Rattle.std.specs.List.{list_all};
ghost use Rattle.std.specs.Ordering.{nat_cmp};
ghost use Rattle.ae_types.specs.Ordered.{Ascends, itself};
ghost use Rattle.ae_types.specs.Found.{number_of_change};
ghost use Rattle.ae_types.specs.Rules.{delta_has_change, naming, change_has_delta, deltas_fit};

use crate::phases::is_completed;
use ae_base::ChangeNo;
use ae_types::{Change, DeltaRow, change_in, has_number};

fn delta_has_change(numbers: &[ChangeNo], changes: &[Change], delta: &DeltaRow) -> bool
    requires numbers { Ascends nat_cmp itself numbers.now }
    requires changes { Ascends nat_cmp number_of_change changes.now }
    ensures { result ≡ delta_has_change numbers.now changes.now delta.now }
{
    if !has_number(numbers, delta.change) {
        return false;
    }
    match change_in(changes, delta.change) {
        Some(change) => is_completed(change.phase),
        None => true,
    }
}

fn deltas_have_changes(numbers: &[ChangeNo], changes: &[Change], deltas: &[DeltaRow]) -> bool
    requires numbers { Ascends nat_cmp itself numbers.now }
    requires changes { Ascends nat_cmp number_of_change changes.now }
    ensures { result ≡ list_all (delta_has_change numbers.now changes.now) deltas.now }
{
    for delta in deltas {
        if !delta_has_change(numbers, changes, delta) {
            return false;
        }
    }
    true
}

fn naming_count(deltas: &[DeltaRow], change: &Change) -> usize
    ensures { result ≡ length (naming deltas.now change.now) }
{
    let number = change.number.number();
    deltas
        .iter()
        .filter(|delta| number == delta.change.number())
        .count()
}

fn change_has_delta(deltas: &[DeltaRow], change: &Change) -> bool
    ensures { result ≡ change_has_delta deltas.now change.now }
{
    let count = naming_count(deltas, change);
    count <= 1 && (!is_completed(change.phase) || 0 < count)
}

fn changes_have_deltas(deltas: &[DeltaRow], changes: &[Change]) -> bool
    ensures { result ≡ list_all (change_has_delta deltas.now) changes.now }
{
    for change in changes {
        if !change_has_delta(deltas, change) {
            return false;
        }
    }
    true
}

pub(crate) fn deltas_fit(deltas: &[DeltaRow], numbers: &[ChangeNo], changes: &[Change]) -> bool
    requires numbers { Ascends nat_cmp itself numbers.now }
    requires changes { Ascends nat_cmp number_of_change changes.now }
    ensures { result ≡ deltas_fit deltas.now numbers.now changes.now }
{
    deltas_have_changes(numbers, changes, deltas) && changes_have_deltas(deltas, changes)
}
