// The versions that stand in the records.
ghost use Rattle.std.specs.Prelude.{◌≡◌, ◌++◌, IfOk, OnOk, flat_map};
ghost use Rattle.std.specs.List.{filter_map};
ghost use Rattle.std.specs.Option.{option_to_list};
ghost use Rattle.ae_types.specs.Versions.{live, past_versions, frozen_versions};

use crate::{Change, ChangeFile, FileRow, FileVersion, VersionList, VersionRef};
use std::alloc::{AllocError, Global};

fn add(versions: &mut Vec<VersionRef>, version: Option<VersionRef>) -> Result<(), AllocError>
    ensures { OnOk result (versions.new.items ≡ versions.old.items ++ option_to_list version) }
{
    if let Some(version) = version {
        versions.push(version)?;
    }
    Ok(())
}

fn add_past(versions: &mut Vec<VersionRef>, past: &[FileVersion]) -> Result<(), AllocError>
    ensures { OnOk result (versions.new.items ≡ versions.old.items ++ filter_map (λ (entry : FileVersion). entry.version) past.now) }
{
    for entry in past {
        add(versions, entry.version)?;
    }
    Ok(())
}

fn add_frozen(versions: &mut Vec<VersionRef>, files: &[ChangeFile]) -> Result<(), AllocError>
    ensures { OnOk result (versions.new.items ≡ versions.old.items ++ filter_map (λ (file : ChangeFile). file.frozen) files.now) }
{
    for file in files {
        add(versions, file.frozen)?;
    }
    Ok(())
}

fn add_rows(versions: &mut Vec<VersionRef>, rows: &[FileRow]) -> Result<(), AllocError>
    ensures { OnOk result (versions.new.items ≡ versions.old.items ++ flat_map past_versions rows.now) }
{
    for row in rows {
        add_past(versions, row.past.as_slice())?;
    }
    Ok(())
}

fn add_changes(versions: &mut Vec<VersionRef>, changes: &[Change]) -> Result<(), AllocError>
    ensures { OnOk result (versions.new.items ≡ versions.old.items ++ flat_map frozen_versions changes.now) }
{
    for change in changes {
        add_frozen(versions, change.files.as_slice())?;
    }
    Ok(())
}

/// The versions that the records name: those of the file table, and the frozen ones of the changes.
pub fn live(alloc: Global, rows: &[FileRow], changes: &[Change]) -> Result<VersionList, AllocError>
    ensures { IfOk result (λ versions. versions ≡ live rows.now changes.now) }
{
    let mut versions = Vec::new(alloc);
    add_rows(&mut versions, rows)?;
    add_changes(&mut versions, changes)?;
    Ok(VersionList::of(versions))
}
