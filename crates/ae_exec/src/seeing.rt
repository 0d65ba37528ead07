// What a build or a test sees of the directories and of the versions before its runs.
ghost use Rattle.std.specs.Prelude.{◌≡◌, ◌≤◌, ◌++◌, ◌⊎◌, ℕ, List, [], Some, None, map, true, All, IfOk, IfErr, IsErrOf, IsSome, OnOk, option_copied};
ghost use Rattle.std.specs.List.{cons_option};
ghost use Rattle.ae_outside.specs.Causes.{Counted};
ghost use Rattle.ae_outside.specs.Site.{IsAtMost, SiteState};
ghost use Rattle.ae_outside.specs.State.{reads};
ghost use Rattle.ae_dirs.specs.Reads.{file_bytes};
ghost use Rattle.ae_dirs.specs.declared.error.DirsError.{DirsError};
ghost use Rattle.ae_vault.specs.Disk.{DiskFailed, IsCleanDisk, OnlyReads, files_of};
ghost use Rattle.ae_machine.specs.Accepted.{RowsShort};
ghost use Rattle.ae_machine.specs.Call.{call_of, change_named};
ghost use Rattle.ae_machine.specs.Called.{called, files_seen, given_at};
ghost use Rattle.ae_machine.specs.Fits.{config_row, makes_runs, path_of_row, paths_asked, reads_files};
ghost use Rattle.ae_machine.specs.Sight.{with_bytes};
ghost use Rattle.ae_machine.specs.Versions.{ShowsVersions, config_version, files_refused, first_differing};
ghost use Rattle.ae_exec.specs.Devices.{SiteFailed};
ghost use Rattle.ae_exec.specs.Bytes.{HaveBytes};
ghost use Rattle.ae_exec.specs.Endings.{EndsAs, StopsAsking, StopsReading, StopsSeeing, outcome_of_stop};
ghost use Rattle.ae_exec.specs.Reading.{AreKept, asked_of, compared_for, config_for, versions_of};
ghost use Rattle.ae_exec.specs.Seen.{IsCompared, files_alone, seen_alone};

use crate::comparing::compare;
use crate::sight::look;
use crate::stop::Stop;
use crate::version::read_version;
use ae_base::{Path, Text};
use ae_dirs::{DirsError, scan};
use ae_evidence::ScanList;
use ae_machine::{View, config_version, files_dir, files_refused, paths_asked};
use ae_outside::{Content, Disk, Site};
use ae_types::State;
use ae_words::Command;
use std::alloc::{AllocError, Global};

// The files that the command reads.
fn read_files<S: Site>(
    alloc: Global,
    state: &State,
    site: &mut S,
    command: &Command,
) -> Result<ScanList, DirsError>
    ensures rows { IfOk result (λ rows. S.tells → rows ≡ files_seen (call_of state.now command.now []) (change_named state.now command.now.change) (S.state site.old)) }
    ensures paths { IfOk result (λ rows. map path_of_row rows ≡ paths_asked (call_of state.now command.now []) (change_named state.now command.now.change)) }
    ensures short { IfOk result (λ rows. All (λ row. IsAtMost file_bytes row.1) rows) }
    ensures asked { IsErrOf result DirsError.SiteFault → reads_files command.now.function ≡ true }
    ensures same { S.tells → S.state site.new ≡ S.state site.old }
    ensures cause { Counted (S.faults site.old) (S.faults site.new) (IsErrOf result DirsError.SiteFault) }
{
    let paths = paths_asked(alloc, state, command)?;
    let dir = files_dir(state, command);
    scan(alloc, site, dir, &paths)
}

// What the command sees of the files of its change alone.
fn see_files<S: Site>(
    alloc: Global,
    state: &State,
    site: &mut S,
    command: &Command,
) -> Result<View, Stop>
    ensures alone { IfOk result (λ view. S.tells → (who : List ℕ) (when : ℕ) → view ≡ files_alone state.now (called command.now who when (S.state site.old) (S.state site.old))) }
    ensures paths { IfOk result (λ view. map path_of_row view.develop ≡ paths_asked (call_of state.now command.now []) (change_named state.now command.now.change)) }
    ensures short { IfOk result RowsShort }
    ensures same { S.tells → S.state site.new ≡ S.state site.old }
    ensures stopped { IfErr result (λ stop. EndsAs ⊥ ⊥ (λ refusal. ⊥) (λ name. ⊥) ⊥ (SiteFailed S.Site site.old site.new × (IsSome command.now.attributes ⊎ (reads_files command.now.function ≡ true))) (outcome_of_stop stop)) }
    ensures later { S.faults site.old ≤ S.faults site.new }
{
    let view = look(alloc, site, command.attributes.as_ref())?;
    let rows = read_files(alloc, state, site, command)?;
    Ok(View {
        attributes: view.attributes,
        develop: rows,
        runs: view.runs,
    })
}

/// What a command sees that makes no runs: the file of attributes that it names, and the files of its change that it reads.
pub(crate) fn see_quiet<S: Site>(
    alloc: Global,
    old: Option<&State>,
    site: &mut S,
    command: &Command,
) -> Result<View, Stop>
    ensures seen { IfOk result (λ view. S.tells → (who : List ℕ) (when : ℕ) (after : SiteState) → view ≡ seen_alone (option_copied old.entry) (called command.now who when (S.state site.old) after)) }
    ensures short { IfOk result RowsShort }
    ensures same { S.tells → S.state site.new ≡ S.state site.old }
    ensures stopped { IfErr result (λ stop. EndsAs ⊥ ⊥ (λ refusal. ⊥) (λ name. ⊥) ⊥ (SiteFailed S.Site site.old site.new × (IsSome command.now.attributes ⊎ (reads_files command.now.function ≡ true))) (outcome_of_stop stop)) }
    ensures later { S.faults site.old ≤ S.faults site.new }
{
    match old {
        Some(state) => see_files(alloc, state, site, command),
        None => Ok(look(alloc, site, command.attributes.as_ref())?),
    }
}

// The baseline's aegis.conf as a row that was read, where the commands of its runs are taken from it.
fn read_config<D: Disk>(
    alloc: Global,
    state: &State,
    disk: &mut D,
    command: &Command,
) -> Result<Option<(Path, Content)>, Stop>
    requires clean { IsCleanDisk D.Disk disk.old }
    ensures row { IfOk result (λ row. (bytes : List ℕ) × (cons_option row [] ≡ config_row (λ number. bytes) (config_for command.now state.now))) }
    ensures told { IfOk result (λ row. D.tells → (bytes : ℕ → List ℕ) → HaveBytes (files_of D.Disk disk.old) (Some state.now) bytes → cons_option row [] ≡ config_row bytes (config_for command.now state.now)) }
    ensures kept { OnOk result (D.tells → AreKept (files_of D.Disk disk.old) (versions_of (cons_option (config_for command.now state.now) []))) }
    ensures same { OnlyReads D.Disk disk.old disk.new }
    ensures stopped { IfErr result (λ stop. StopsReading D.tells (reads (D.state disk.old)) (versions_of (cons_option (config_for command.now state.now) [])) (DiskFailed D.Disk disk.old disk.new) stop) }
    ensures later { D.faults disk.old ≤ D.faults disk.new }
{
    state.note_sound();
    let Some(row) = config_version(alloc, state, command)? else {
        return Ok(None);
    };
    let bytes = read_version(alloc, disk, &row.version)?;
    Ok(Some((row.path, Content::Bytes(Text::of(bytes)))))
}

// The view with one row more after those that were read, if there is one.
fn with_row(view: View, row: Option<(Path, Content)>) -> Result<View, AllocError>
    ensures { IfOk result (λ seen. seen ≡ record view { develop = view.develop ++ cons_option row [] }) }
{
    let mut view = view;
    if let Some(row) = row {
        view.develop.push(row)?;
    }
    Ok(view)
}

// The row of the baseline's aegis.conf, if it is read, once the files of this view have refused nothing and were compared.
fn asked_row<D: Disk>(
    alloc: Global,
    state: &State,
    disk: &mut D,
    command: &Command,
    view: &View,
) -> Result<Option<(Path, Content)>, Stop>
    requires clean { IsCleanDisk D.Disk disk.old }
    requires runs { makes_runs command.now.function ≡ true }
    ensures row { IfOk result (λ row. (bytes : List ℕ) × (cons_option row [] ≡ config_row (λ number. bytes) (config_for command.now state.now))) }
    ensures told { IfOk result (λ row. D.tells → (bytes : ℕ → List ℕ) → HaveBytes (files_of D.Disk disk.old) (Some state.now) bytes → cons_option row [] ≡ config_row bytes (config_for command.now state.now)) }
    ensures some { OnOk result ((bytes : ℕ → List ℕ) × (first_differing view.now (with_bytes bytes (compared_for command.now state.now)) ≡ None)) }
    ensures none { OnOk result (D.tells → IsCompared (files_of D.Disk disk.old) state.now command.now view.now None) }
    ensures kept { OnOk result (D.tells → AreKept (files_of D.Disk disk.old) (asked_of command.now (Some state.now))) }
    ensures same { OnlyReads D.Disk disk.old disk.new }
    ensures stopped { StopsAsking D.tells (reads (D.state disk.old)) state.now command.now view.now (DiskFailed D.Disk disk.old disk.new) result }
    ensures later { D.faults disk.old ≤ D.faults disk.new }
{
    if let Some(refusal) = files_refused(alloc, state, command, view)? {
        return Err(Stop::Refused(refusal));
    }
    compare(alloc, state, disk, command, view)?;
    read_config(alloc, state, disk, command)
}

/// What the command sees before its runs: the files of its change that it reads, and after them the baseline's aegis.conf, where
/// the commands of its runs are taken from it. It is refused before that is read, in development where one of the files is
/// missing or too long, in integration where one differs from the candidate's version.
pub(crate) fn see<D: Disk, S: Site>(
    alloc: Global,
    state: &State,
    disk: &mut D,
    site: &mut S,
    command: &Command,
) -> Result<View, Stop>
    requires clean { IsCleanDisk D.Disk disk.old }
    requires runs { makes_runs command.now.function ≡ true }
    ensures seen { IfOk result (λ view. D.tells → S.tells → (bytes : ℕ → List ℕ) (who : List ℕ) (when : ℕ) → HaveBytes (files_of D.Disk disk.old) (Some state.now) bytes → view ≡ (given_at state.now bytes (called command.now who when (S.state site.old) (S.state site.old))).view) }
    ensures shown { IfOk result (λ view. (bytes : ℕ → List ℕ) × ((who : List ℕ) → ShowsVersions (Some state.now) bytes command.now who view)) }
    ensures shows { IfOk result (λ view. D.tells → (bytes : ℕ → List ℕ) (who : List ℕ) → HaveBytes (files_of D.Disk disk.old) (Some state.now) bytes → ShowsVersions (Some state.now) bytes command.now who view) }
    ensures files { IfOk result (λ view. S.tells → (rest : List (List ℕ × Content)) × (view.develop ≡ files_seen (call_of state.now command.now []) (change_named state.now command.now.change) (S.state site.old) ++ rest)) }
    ensures kept { OnOk result (D.tells → AreKept (files_of D.Disk disk.old) (asked_of command.now (Some state.now))) }
    ensures same { OnlyReads D.Disk disk.old disk.new }
    ensures site_same { S.tells → S.state site.new ≡ S.state site.old }
    ensures stopped { StopsSeeing D.tells S.tells (reads (D.state disk.old)) state.now command.now (S.state site.old)
        (DiskFailed D.Disk disk.old disk.new) (SiteFailed S.Site site.old site.new) result }
    ensures disk_later { D.faults disk.old ≤ D.faults disk.new }
    ensures site_later { S.faults site.old ≤ S.faults site.new }
{
    let view = see_files(alloc, state, site, command)?;
    let row = asked_row(alloc, state, disk, command, &view)?;
    let seen = with_row(view, row)?;
    Ok(seen)
}
