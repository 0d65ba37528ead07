// The store is opened, and a project in the first format taken into the second.
ghost use Rattle.std.specs.Prelude.{◌≤◌, ◌∷◌, [], List, OnOk, IfErr};
ghost use Rattle.ae_base.specs.declared.want.Want.{Want};
ghost use Rattle.ae_outside.specs.State.{reads};
ghost use Rattle.ae_vault.specs.Disk.{DiskFailed, IsCleanDisk, OnlyReads};
ghost use Rattle.ae_vault.specs.Kept.{Holds};
ghost use Rattle.ae_log.specs.Log.{Log};
ghost use Rattle.ae_exec.specs.Endings.{ChangesNothing, EndsAs, IsDamagedAt, outcome_of_stop};
ghost use Rattle.ae_exec.specs.Migrated.{AgreesInFormat};
ghost use Rattle.ae_exec.specs.Migrates.{HoldsInSecond, IsMigratedOrNot, IsUp, KeepsLog};
ghost use Rattle.ae_exec.specs.Performs.{LeavesDisk};
ghost use Rattle.ae_exec.specs.Refined.{IsOpened, Refined};
ghost use Rattle.ae_exec.specs.Stands.{StandsForLog};
ghost use Rattle.ae_exec.specs.Step.{HoldsLog};
ghost use Rattle.ae_exec.specs.Stops.{IsSettledNow};

use crate::open::open_store;
use crate::stop::Stop;
use ae_outside::Disk;
use ae_store::migrate;
use ae_vault::Vault;
use std::alloc::Global;

// A project in the first format is taken into the second, all or nothing.
fn migrate_store<D: Disk>(alloc: Global, disk: &mut D) -> Result<(), Stop>
    requires { IsCleanDisk D.Disk disk.old }
    ensures clean { OnOk result (IsCleanDisk D.Disk disk.new) }
    ensures disk { D.tells → LeavesDisk (D.state disk.old) (D.state disk.new) (Unit {0}) }
    ensures keeps { D.tells → (log : Log) → Holds StandsForLog (D.state disk.old) (log ∷ []) → KeepsLog (D.state disk.old) (D.state disk.new) log }
    ensures up { OnOk result (D.tells → IsUp (D.state disk.old) (D.state disk.new)) }
    ensures second { OnOk result (D.tells → (log : Log) → Holds StandsForLog (D.state disk.old) (log ∷ [])
        → AgreesInFormat (D.state disk.old) → HoldsInSecond (D.state disk.new) log) }
    ensures same { IfErr result (λ stop. ChangesNothing (outcome_of_stop stop) → OnlyReads D.Disk disk.old disk.new) }
    ensures stopped { IfErr result (λ stop. EndsAs ⊥ ⊥ (λ refusal. ⊥)
        (λ name. D.tells → (want : Want) → IsDamagedAt want (reads (D.state disk.old)) name)
        (DiskFailed D.Disk disk.old disk.new) ⊥ (outcome_of_stop stop)) }
    ensures later { D.faults disk.old ≤ D.faults disk.new }
{
    match migrate(alloc, disk)? {
        None => Ok(()),
        Some(batch) => Ok(Vault::commit(disk, batch)?),
    }
}

/// Opens the store, which recovers what a stop left, and takes a project in the first format into the second.
pub(crate) fn bring_up<D: Disk>(alloc: Global, disk: &mut D) -> Result<(), Stop>
    ensures clean { OnOk result (IsCleanDisk D.Disk disk.new) }
    ensures disk { D.tells → LeavesDisk (D.state disk.old) (D.state disk.new) (Unit {0}) }
    ensures up { OnOk result (D.tells → IsUp (D.state disk.old) (D.state disk.new)) }
    ensures opened { OnOk result (D.tells → (held : List Log) (log : Log) → Holds StandsForLog (D.state disk.old) held
        → StandsForLog (reads (D.state disk.old)) log → IsOpened StandsForLog (D.state disk.old) (D.state disk.new) held log) }
    ensures second { OnOk result (D.tells → (held : List Log) (log : Log) → HoldsLog (D.state disk.old) held log → HoldsInSecond (D.state disk.new) log) }
    ensures refined { IfErr result (λ stop. D.tells → (held : List Log) (log next : Log) → Holds StandsForLog (D.state disk.old) held
        → StandsForLog (reads (D.state disk.old)) log
        → Refined StandsForLog (D.state disk.old) (D.state disk.new) held log next (outcome_of_stop stop)) }
    ensures whole { IfErr result (λ stop. ChangesNothing (outcome_of_stop stop) → D.tells → IsSettledNow (D.state disk.old) → IsMigratedOrNot (D.state disk.old) (D.state disk.new)) }
    ensures stopped { IfErr result (λ stop. EndsAs ⊥ ⊥ (λ refusal. ⊥)
        (λ name. D.tells → (want : Want) → IsDamagedAt want (reads (D.state disk.old)) name)
        (DiskFailed D.Disk disk.old disk.new) ⊥ (outcome_of_stop stop)) }
    ensures later { D.faults disk.old ≤ D.faults disk.new }
{
    open_store(alloc, disk)?;
    migrate_store(alloc, disk)
}
