// The files of the disk are read one by one.
ghost use Rattle.std.specs.Prelude.{◌≡◌, false, List, IfOk, IsErrOf};
ghost use Rattle.ae_outside.specs.Causes.{Counted};
ghost use Rattle.ae_outside.specs.DiskNames.{IsDiskName};
ghost use Rattle.ae_outside.specs.State.{reads};
ghost use Rattle.ae_vault.specs.Disk.{IsCleanDisk, OnlyReads};
ghost use Rattle.ae_vault.specs.Vault.{files, is_own};
ghost use Rattle.ae_types.specs.declared.blame.Blame.TheVariants as blame;
ghost use Rattle.ae_types.specs.declared.file_table.FileRow.{FileRow};
ghost use Rattle.ae_types.specs.declared.file_table.Lock.{Lock};
ghost use Rattle.ae_store.specs.Damage.{ReadsTable, ReadsChange};
ghost use Rattle.ae_store.specs.Steps.{IsReading};

use crate::names::{FILES, change_name};
use crate::records::{good_change, good_table};
use crate::stop::Stop;
use ae_base::ChangeNo;
use ae_outside::{Disk, ReadError};
use ae_schema::Format;
use ae_types::{Change, FileRows, LockList, Project};
use ae_vault::Vault;
use std::alloc::Global;

/// The bytes of a file of a clean disk.
pub(crate) fn file_bytes<D: Disk>(
    alloc: Global,
    disk: &mut D,
    name: &str,
) -> Result<Vec<u8>, ReadError>
    requires clean { IsCleanDisk D.Disk disk.old }
    requires name { IsDiskName name.now }
    requires other { is_own name.now ≡ false }
    ensures bytes { IfOk result (λ bytes. D.tells → files (reads (D.state disk.old)) name.now ≡ bytes.items) }
    ensures clean { IsCleanDisk D.Disk disk.new }
    ensures same { D.tells → files (reads (D.state disk.new)) ≡ files (reads (D.state disk.old)) }
    ensures change { OnlyReads D.Disk disk.old disk.new }
    ensures cause { Counted (D.faults disk.old) (D.faults disk.new) (IsErrOf result ReadError.Failed) }
{
    Vault::get(alloc, disk, name)
}

/// The file table of a project.
pub(crate) fn load_table<D: Disk>(
    alloc: Global,
    disk: &mut D,
    project: &Project,
) -> Result<(FileRows, LockList), Stop>
    requires { IsCleanDisk D.Disk disk.old }
    ensures table { D.tells → IsReading (λ (t : List FileRow × List Lock). ReadsTable (files (reads (D.state disk.old))) project.now t.0 t.1) blame.Files result }
    ensures clean { IsCleanDisk D.Disk disk.new }
    ensures same { D.tells → files (reads (D.state disk.new)) ≡ files (reads (D.state disk.old)) }
    ensures change { OnlyReads D.Disk disk.old disk.new }
    ensures cause { Counted (D.faults disk.old) (D.faults disk.new) (IsErrOf result Stop.DiskFault) }
{
    let bytes = file_bytes(alloc, disk, FILES)?;
    good_table(alloc, bytes.as_slice(), project)
}

/// The change of this number, whose file is in this format.
pub(crate) fn load_change<D: Disk>(
    alloc: Global,
    disk: &mut D,
    format: Format,
    number: ChangeNo,
) -> Result<Change, Stop>
    requires { IsCleanDisk D.Disk disk.old }
    ensures loaded { D.tells → IsReading (ReadsChange format (files (reads (D.state disk.old))) number) (blame.Change number) result }
    ensures clean { IsCleanDisk D.Disk disk.new }
    ensures same { D.tells → files (reads (D.state disk.new)) ≡ files (reads (D.state disk.old)) }
    ensures change { OnlyReads D.Disk disk.old disk.new }
    ensures cause { Counted (D.faults disk.old) (D.faults disk.new) (IsErrOf result Stop.DiskFault) }
{
    let name = change_name(alloc, number)?;
    let bytes = file_bytes(alloc, disk, name.as_str())?;
    good_change(alloc, format, bytes.as_slice(), number)
}
