// The versions of files: their numbers, and the units that they take.
ghost use Rattle.std.specs.Prelude.{◌≡◌, IfOk, filter, nat_le, true};
ghost use Rattle.std.specs.List.{list_all};
ghost use Rattle.ae_types.specs.Versions.{live, units, has_units, end_of, meet, same_number, no_two};
ghost use Rattle.ae_types.specs.Rules.{is_in_region, versions_fit};
ghost use Rattle.ae_rules.specs.Live.{number_is_below};

use ae_base::limits::MOST_UNITS;
use ae_types::{Change, FileRow, VersionRef, live};
use std::alloc::{AllocError, Global};

fn numbers_are_below(next: u64, versions: &[VersionRef]) -> bool
    ensures { result ≡ list_all (number_is_below next) versions.now }
{
    versions.iter().all(|version| version.number < next)
}

fn has_units(version: &VersionRef) -> bool
    ensures { result ≡ has_units version.now }
{
    0 < version.length
}

fn units(version: &VersionRef) -> u64
    ensures { result ≡ units version.now }
{
    (u64::from(version.length) + 63) / 64
}

fn is_in_region(version: &VersionRef) -> bool
    ensures { result ≡ is_in_region version.now }
{
    if !has_units(version) {
        return true;
    }
    match version.at.checked_add(units(version)) {
        Some(end) => end <= MOST_UNITS,
        None => false,
    }
}

fn are_in_region(versions: &[VersionRef]) -> bool
    ensures { result ≡ list_all is_in_region versions.now }
{
    versions.iter().all(|version| is_in_region(version))
}

// The numbers differ; the versions are sorted by them.
fn numbers_differ(versions: &mut [VersionRef]) -> bool
    ensures { result ≡ no_two same_number versions.old }
{
    versions.sort_unstable_by_key(|version| version.number);
    versions.is_sorted_by(|a, b| a.number < b.number)
}

fn end_of(version: &VersionRef) -> u128
    ensures { result ≡ end_of version.now }
{
    u128::from(version.at) + u128::from(units(version))
}

fn ends_before(version: &VersionRef, other: &VersionRef) -> bool
    ensures { result ≡ nat_le (end_of version.now) other.now.at }
{
    end_of(version) <= u128::from(other.at)
}

// No two share a unit; the versions are sorted by their places.
fn units_are_apart(versions: &mut [VersionRef]) -> bool
    requires { list_all has_units versions.old ≡ true }
    ensures { result ≡ no_two meet versions.old }
{
    versions.sort_unstable_by_key(|version| version.at);
    versions.is_sorted_by(|a, b| ends_before(a, b))
}

fn with_units(alloc: Global, versions: &[VersionRef]) -> Result<Vec<VersionRef>, AllocError>
    ensures { IfOk result (λ some. some.items ≡ filter has_units versions.now) }
{
    let mut some = Vec::new(alloc);
    for version in versions {
        if has_units(version) {
            some.push(*version)?;
        }
    }
    Ok(some)
}

// No two share a unit.
fn units_fit(alloc: Global, versions: &[VersionRef]) -> Result<bool, AllocError>
    ensures { IfOk result (λ fit. fit ≡ no_two meet versions.now) }
{
    let mut some = with_units(alloc, versions)?;
    Ok(units_are_apart(some.as_mut_slice()))
}

// Whether the versions that stand in the records keep the rules beside the number of the next one.
pub(crate) fn versions_fit(
    alloc: Global,
    next: u64,
    rows: &[FileRow],
    changes: &[Change],
) -> Result<bool, AllocError>
    ensures { IfOk result (λ fit. fit ≡ versions_fit next (live rows.now changes.now)) }
{
    let mut versions = live(alloc, rows, changes)?.into_vec();
    if !numbers_are_below(next, versions.as_slice()) {
        return Ok(false);
    }
    if !are_in_region(versions.as_slice()) {
        return Ok(false);
    }
    if !units_fit(alloc, versions.as_slice())? {
        return Ok(false);
    }
    Ok(numbers_differ(versions.as_mut_slice()))
}
