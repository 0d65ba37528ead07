// A project in the first format is taken into the second.
ghost use Rattle.std.specs.Prelude.{◌≡◌, ℕ, List, Some, Err, IfOk, IfErr, IsErrOf, IsSomeAnd, filter};
ghost use Rattle.ae_outside.specs.Causes.{Counted};
ghost use Rattle.ae_outside.specs.State.{reads};
ghost use Rattle.ae_vault.specs.Disk.{IsCleanDisk, OnlyReads, files_of};
ghost use Rattle.ae_vault.specs.Vault.{files};
ghost use Rattle.ae_base.specs.declared.want.Want.{Want};
ghost use Rattle.ae_types.specs.declared.blame.Blame.{Blame};
ghost use Rattle.ae_types.specs.Observation.{Observation};
ghost use Rattle.ae_store.specs.Answers.{IsBlamed, IsNamed};
ghost use Rattle.ae_store.specs.Damage.{IsBlamedIn};
ghost use Rattle.ae_store.specs.Migrating.{AnswersMigration, AnswersNone, IsNeeded, Migrates, NeedsNone, is_other};
ghost use Rattle.ae_store.specs.Names.{files_file};
ghost use Rattle.ae_store.specs.Records.{StandsIn};
ghost use Rattle.ae_store.specs.Steps.{IsMade, IsMadeOf};

use crate::StoreError;
use crate::changed::changed_entries;
use crate::files::file_bytes;
use crate::loading::{Scope, load_project, told};
use crate::names::{FILES, PROJECT};
use crate::records::good_format;
use crate::stop::Stop;
use ae_base::Want;
use ae_outside::Disk;
use ae_schema::Format;
use ae_types::State;
use ae_vault::{Batch, Entry, EntryList, PieceList, Vault};
use std::alloc::{AllocError, Global};

// All of a project in the first format.
const FIRST: Scope = Scope {
    format: Format::One,
    want: Want::All,
};

// The entry of the file table is taken out: it is the same in both formats.
fn without_table(entries: &mut Vec<Entry>)
    ensures { entries.new.items ≡ filter (is_other files_file) entries.old.items }
{
    entries.retain(|entry| entry.name.bytes() != FILES.as_bytes());
}

// The batch that writes the state's `project` and the files of its changes, which are all there, in the second format.
fn migration_of(alloc: Global, state: &State) -> Result<Batch, AllocError>
    ensures { IfOk result (Migrates state.now) }
{
    let mut entries = changed_entries(alloc, None, state)?;
    without_table(&mut entries);
    Vault::prepare(alloc, EntryList::of(entries), PieceList::new(alloc))
}

// The batch of a state that was loaded, where there is one.
fn made_of(alloc: Global, loaded: Option<State>) -> Result<Option<Batch>, Stop>
    ensures made { IfOk result (IsMadeOf loaded) }
    ensures stopped { IfErr result (λ stop. stop ≡ Stop.Memory) }
{
    match loaded {
        Some(state) => {
            let batch = migration_of(alloc, &state);
            drop(state);
            Ok(Some(batch?))
        }
        None => Ok(None),
    }
}

// The batch, where one is needed, or why there is none.
fn migration<D: Disk>(alloc: Global, disk: &mut D) -> Result<Option<Batch>, Stop>
    requires { IsCleanDisk D.Disk disk.old }
    ensures made { D.tells → IsMade (files (reads (D.state disk.old))) result }
    ensures change { OnlyReads D.Disk disk.old disk.new }
    ensures cause { Counted (D.faults disk.old) (D.faults disk.new) (IsErrOf result Stop.DiskFault) }
{
    let bytes = file_bytes(alloc, disk, PROJECT)?;
    if bytes.is_empty() {
        return Ok(None);
    }
    match good_format(alloc, bytes.as_slice())? {
        Format::One => {
            let state = load_project(alloc, disk, bytes.as_slice(), FIRST)?;
            made_of(alloc, state)
        }
        Format::Two => Ok(None),
    }
}

/// The batch that takes the project of a clean disk from the first format into the second; `None` exactly where there is no project, or
/// it is in the second. All changes are read.
pub fn migrate<D: Disk>(alloc: Global, disk: &mut D) -> Result<Option<Batch>, StoreError>
    requires { IsCleanDisk D.Disk disk.old }
    // What is answered is what the files need: nothing, or the batch of what they stand for in the first format.
    ensures found { IfOk result (λ made. D.tells → IsSomeAnd (files_of D.Disk disk.old) (λ files. IsNeeded files made)) }
    // Where they need none, none is answered,
    ensures only_none { D.tells → IsSomeAnd (files_of D.Disk disk.old) NeedsNone → AnswersNone result }
    // And where they stand for a project in the first format, its batch is.
    ensures only { D.tells → (o : Observation) → IsSomeAnd (files_of D.Disk disk.old) (λ files. StandsIn Format.One files (Some o)) → AnswersMigration o result }
    // The name is that of the state file that is blamed, whatever is wanted,
    ensures damaged { D.tells → (want : Want) (name : List ℕ) → result ≡ Err (StoreError.Damaged name) → IsSomeAnd (files_of D.Disk disk.old) (λ files. IsNamed want files name) }
    // And where they need a migration and one is blamed, its name is answered.
    ensures only_damaged { D.tells → (want : Want) (b : Blame) → IsSomeAnd (files_of D.Disk disk.old) (λ files. (NeedsNone files → ⊥) × IsBlamedIn want files b) → IsBlamed b result }
    ensures change { OnlyReads D.Disk disk.old disk.new }
    ensures cause { Counted (D.faults disk.old) (D.faults disk.new) (IsErrOf result StoreError.DiskFault) }
{
    let made = migration(alloc, disk);
    told(alloc, made)
}
