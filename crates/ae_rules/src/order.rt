// Records stand in the order of their keys.
ghost use Rattle.std.specs.Prelude.{◌≡◌};
ghost use Rattle.std.specs.Ordering.{is_lt, nat_cmp};
ghost use Rattle.ae_types.specs.Ordered.{ascends};
ghost use Rattle.ae_types.specs.Found.{number_of_change};
ghost use Rattle.ae_types.specs.Runs.{run_cmp, run_of};
ghost use Rattle.ae_types.specs.Rules.{numbers_ascend, rows_ascend, locks_ascend, past_ascends, files_ascend, evidence_ascends};

use ae_base::{ChangeNo, Delta};
use ae_types::{
    Change, ChangeFile, Evidence, FileRow, FileVersion, Lock, compare_runs, is_path_below,
};

fn is_change_below(number: ChangeNo, other: ChangeNo) -> bool
    ensures { result ≡ is_lt (nat_cmp number other) }
{
    number.number().cmp(&other.number()).is_lt()
}

fn is_delta_below(number: Delta, other: Delta) -> bool
    ensures { result ≡ is_lt (nat_cmp number other) }
{
    number.number().cmp(&other.number()).is_lt()
}

pub(crate) fn numbers_ascend(numbers: &[ChangeNo]) -> bool
    ensures { result ≡ numbers_ascend numbers.now }
{
    numbers.is_sorted_by(|a, b| is_change_below(*a, *b))
}

pub(crate) fn changes_ascend(changes: &[Change]) -> bool
    ensures { result ≡ ascends nat_cmp number_of_change changes.now }
{
    changes.is_sorted_by(|a, b| is_change_below(a.number, b.number))
}

pub(crate) fn rows_ascend(rows: &[FileRow]) -> bool
    ensures { result ≡ rows_ascend rows.now }
{
    rows.is_sorted_by(|a, b| is_path_below(&a.path, &b.path))
}

pub(crate) fn past_ascends(past: &[FileVersion]) -> bool
    ensures { result ≡ past_ascends past.now }
{
    past.is_sorted_by(|a, b| is_delta_below(a.delta, b.delta))
}

pub(crate) fn locks_ascend(locks: &[Lock]) -> bool
    ensures { result ≡ locks_ascend locks.now }
{
    locks.is_sorted_by(|a, b| is_path_below(&a.path, &b.path))
}

pub(crate) fn files_ascend(files: &[ChangeFile]) -> bool
    ensures { result ≡ files_ascend files.now }
{
    files.is_sorted_by(|a, b| is_path_below(&a.path, &b.path))
}

fn is_run_below(run: &Evidence, other: &Evidence) -> bool
    ensures { result ≡ is_lt (run_cmp (run_of run.now) (run_of other.now)) }
{
    compare_runs(run, other).is_lt()
}

pub(crate) fn evidence_ascends(evidence: &[Evidence]) -> bool
    ensures { result ≡ evidence_ascends evidence.now }
{
    evidence.is_sorted_by(|a, b| is_run_below(a, b))
}
