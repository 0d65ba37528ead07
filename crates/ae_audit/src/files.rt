// The state files are read one by one.
ghost use Rattle.std.specs.Prelude.{◌≡◌, ◌≤◌, List, IfOk, IfErr, IsErrOf, string_bytes};
ghost use Rattle.ae_outside.specs.Causes.{Counted};
ghost use Rattle.ae_outside.specs.DiskNames.{IsDiskName};
ghost use Rattle.ae_outside.specs.State.{reads};
ghost use Rattle.ae_types.specs.declared.blame.Blame.TheVariants as blame;
ghost use Rattle.ae_types.specs.declared.file_table.FileRow.{FileRow};
ghost use Rattle.ae_types.specs.declared.file_table.Lock.{Lock};
ghost use Rattle.ae_vault.specs.Disk.{OnlyReads};
ghost use Rattle.ae_store.specs.Damage.{ReadsTable, ReadsChange};
ghost use Rattle.ae_store.specs.Names.{change_file};
ghost use Rattle.ae_audit.specs.Files.{files_by};
ghost use Rattle.ae_audit.specs.Steps.{IsRecordRead, AreRead};

use crate::effective::file_bytes;
use crate::entries::Redone;
use crate::records::{good_change, good_table};
use crate::stop::Stop;
use ae_base::ChangeNo;
use ae_outside::Disk;
use ae_schema::Format;
use ae_types::{Change, ChangeList, FileRows, LockList, Project};
use std::alloc::{AllocError, Global};

pub(crate) const PROJECT: &str = "project";

pub(crate) const FILES: &str = "files";

/// The name of the file of this change.
pub(crate) fn change_name(alloc: Global, number: ChangeNo) -> Result<String, AllocError>
    ensures value { IfOk result (λ name. string_bytes name ≡ change_file number) }
    ensures disk { IfOk result (λ name. IsDiskName (string_bytes name)) }
    ensures low { 10 ≤ number }
    ensures high { number ≤ 1999 }
{
    let _digits = number.number();
    let name = format!(in alloc; "change.{number}")?;
    Ok(name)
}

/// The file table of a project.
pub(crate) fn load_table<D: Disk>(
    alloc: Global,
    disk: &mut D,
    redo: &[Redone],
    project: &Project,
) -> Result<(FileRows, LockList), Stop>
    ensures table { D.tells → IsRecordRead
        (λ (t : List FileRow × List Lock). ReadsTable (files_by redo.now (reads (D.state disk.old))) project.now t.0 t.1)
        blame.Files result }
    ensures change { OnlyReads D.Disk disk.old disk.new }
    ensures cause { Counted (D.faults disk.old) (D.faults disk.new) (IsErrOf result Stop.DiskFault) }
{
    let bytes = file_bytes(alloc, disk, redo, FILES)?;
    good_table(alloc, bytes.as_slice(), project)
}

// The change of this number, whose file is in this format.
fn load_change<D: Disk>(
    alloc: Global,
    disk: &mut D,
    redo: &[Redone],
    format: Format,
    number: ChangeNo,
) -> Result<Change, Stop>
    ensures loaded { D.tells → IsRecordRead (ReadsChange format (files_by redo.now (reads (D.state disk.old))) number) (blame.Change number) result }
    ensures change { OnlyReads D.Disk disk.old disk.new }
    ensures cause { Counted (D.faults disk.old) (D.faults disk.new) (IsErrOf result Stop.DiskFault) }
{
    let name = change_name(alloc, number)?;
    let bytes = file_bytes(alloc, disk, redo, name.as_str())?;
    good_change(alloc, format, bytes.as_slice(), number)
}

/// The changes of these numbers, whose files are in this format.
pub(crate) fn load_changes<D: Disk>(
    alloc: Global,
    disk: &mut D,
    redo: &[Redone],
    format: Format,
    numbers: &[ChangeNo],
) -> Result<ChangeList, Stop>
    ensures loaded { D.tells → AreRead format (files_by redo.now (reads (D.state disk.old))) numbers.now result }
    ensures change { OnlyReads D.Disk disk.old disk.new }
    ensures cause { Counted (D.faults disk.old) (D.faults disk.new) (IsErrOf result Stop.DiskFault) }
{
    let mut changes = ChangeList::new(alloc);
    for number in numbers {
        let change = load_change(alloc, disk, redo, format, *number)?;
        changes.push(change)?;
    }
    Ok(changes)
}
