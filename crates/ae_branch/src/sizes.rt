// How many bytes rows have.
ghost use Rattle.std.specs.Prelude.{◌≡◌, ◌≤◌, ◌<◌, length};
ghost use Rattle.ae_base.specs.Limits.{most_change_files};
ghost use Rattle.ae_dist.specs.Sending.{size_of, sizes_of};

use ae_dist::Row;

// How many bytes the row's version has.
fn size_of(row: &Row) -> u64
    ensures size { result ≡ size_of row.now }
    ensures small { result < 4294967296 }
{
    match &row.version {
        Some(version) => u64::from(version.length),
        None => 0,
    }
}

/// How many bytes the rows have; there are at most so many.
pub(crate) fn sizes_of(rows: &[Row]) -> u64
    requires { length rows.now ≤ most_change_files }
    ensures { result ≡ sizes_of rows.now }
{
    let mut sum: u64 = 0;
    for row in rows {
        sum += size_of(row);
    }
    sum
}
