// The changes of the numbers are loaded.
ghost use Rattle.std.specs.Prelude.{IsErrOf};
ghost use Rattle.ae_outside.specs.Causes.{Counted};
ghost use Rattle.ae_outside.specs.State.{reads};
ghost use Rattle.ae_vault.specs.Disk.{IsCleanDisk, OnlyReads};
ghost use Rattle.ae_vault.specs.Vault.{files};
ghost use Rattle.ae_store.specs.Steps.{AreRead};

use crate::files::load_change;
use crate::stop::Stop;
use ae_base::ChangeNo;
use ae_outside::Disk;
use ae_schema::Format;
use ae_types::ChangeList;
use std::alloc::Global;

/// The changes of these numbers, whose files are in this format.
pub(crate) fn load_changes<D: Disk>(
    alloc: Global,
    disk: &mut D,
    format: Format,
    numbers: &[ChangeNo],
) -> Result<ChangeList, Stop>
    requires { IsCleanDisk D.Disk disk.old }
    ensures loaded { D.tells → AreRead format (files (reads (D.state disk.old))) numbers.now result }
    ensures change { OnlyReads D.Disk disk.old disk.new }
    ensures cause { Counted (D.faults disk.old) (D.faults disk.new) (IsErrOf result Stop.DiskFault) }
{
    let mut changes = ChangeList::new(alloc);
    for number in numbers {
        let change = load_change(alloc, disk, format, *number)?;
        changes.push(change)?;
    }
    Ok(changes)
}
