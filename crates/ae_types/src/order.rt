// The order of the records: paths by their bytes; runs by the part of a change's life, their kind, and the path of their test.
ghost use Rattle.std.specs.Prelude.{◌≡◌};
ghost use Rattle.std.specs.Ordering.{is_lt};
ghost use Rattle.ae_base.specs.Rows.{text_cmp};
ghost use Rattle.ae_types.specs.Runs.{run_cmp, run_of, during_place, kind_place, path_place};

use crate::Evidence;
use ae_base::{Ground, Kind, Path};
use std::cmp::Ordering;

/// Whether the path comes before the other.
pub fn is_path_below(path: &Path, other: &Path) -> bool
    ensures { result ≡ is_lt (text_cmp path.now other.now) }
{
    path.bytes().cmp(other.bytes()).is_lt()
}

fn during_place(during: Ground) -> u8
    ensures { result ≡ during_place during }
{
    match during {
        Ground::Develop => 0,
        Ground::Integrate => 1,
    }
}

fn kind_place(kind: Kind) -> u8
    ensures { result ≡ kind_place kind }
{
    match kind {
        Kind::Build => 0,
        Kind::Test => 1,
        Kind::BaselineTest => 2,
        Kind::RegressionTest => 3,
    }
}

// No path comes before all paths.
fn compare_test_paths(path: &Option<Path>, other: &Option<Path>) -> Ordering
    ensures { result ≡ text_cmp (path_place path.now) (path_place other.now) }
{
    match (path, other) {
        (None, None) => Ordering::Equal,
        (None, Some(_)) => Ordering::Less,
        (Some(_), None) => Ordering::Greater,
        (Some(path), Some(other)) => path.bytes().cmp(other.bytes()),
    }
}

/// How a row stands to a run of this kind and path, in that part of a change's life.
pub fn compare_to_run(row: &Evidence, during: Ground, kind: Kind, path: &Option<Path>) -> Ordering
    ensures { result ≡ run_cmp (run_of row.now) (record { during = during; kind = kind; path = path.now }) }
{
    let by_part = during_place(row.during).cmp(&during_place(during));
    let by_kind = kind_place(row.kind).cmp(&kind_place(kind));
    by_part
        .then(by_kind)
        .then(compare_test_paths(&row.path, path))
}

/// How a row stands to another.
pub fn compare_runs(row: &Evidence, other: &Evidence) -> Ordering
    ensures { result ≡ run_cmp (run_of row.now) (run_of other.now) }
{
    compare_to_run(row, other.during, other.kind, &other.path)
}
