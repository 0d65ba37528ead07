// What is sent of a completed change.
ghost use Rattle.std.specs.Prelude.{◌≡◌, ◌≤◌, ◌++◌, ◌∷◌, [], map, length, option_copied, IfOk, IfErr, IfSome, OnOk, Result};
ghost use Rattle.std.specs.Result.{IsErrAnd};
ghost use Rattle.std.specs.List.{AllByRecursion, cons_option};
ghost use Rattle.std.specs.Option.{option_map_or};
ghost use Rattle.ae_base.specs.Names.{IsPath};
ghost use Rattle.ae_base.specs.declared.outcome.Outcome.{Outcome};
ghost use Rattle.ae_outside.specs.State.{reads};
ghost use Rattle.ae_types.specs.declared.version.VersionRef.{VersionRef};
ghost use Rattle.ae_types.specs.Phases.{is_completed};
ghost use Rattle.ae_vault.specs.Disk.{DiskFailed, IsCleanDisk, OnlyReads, files_of};
ghost use Rattle.ae_history.specs.Packed.{AreOf};
ghost use Rattle.ae_exec.specs.Bytes.{bytes_at};
ghost use Rattle.ae_exec.specs.Opened.{IsOpenedUnless, MayBeUnopened};
ghost use Rattle.ae_exec.specs.Performs.{LeavesDisk};
ghost use Rattle.ae_exec.specs.Reading.{AreKept, IsInside, IsLostAmong};
ghost use Rattle.ae_bundle.specs.Bundled.{Fits};
ghost use Rattle.ae_bundle.specs.declared.bundle.Bundle.{Bundle};
ghost use Rattle.ae_dist.specs.declared.rows.Row.{Row};
ghost use Rattle.ae_dist.specs.Answers.{Answers, DamagedSending, IsAnswered, IsSending, RefusesSending, Sends, Stops};
ghost use Rattle.ae_dist.specs.Sending.{sent_file, versions_of};
ghost use Rattle.ae_dist.specs.Steps.{AreGood, AreReadFrom, Finds, HasHead, IsHead, IsSendable, file_key, row_key};

use crate::opening::open_project;
use crate::rows::{Row, can_be_sent, sent_rows};
use ae_base::{Cause, ChangeNo, Outcome, Phase, ProjectName, Refusal, Text, Want};
use ae_bundle::{Bundle, BundleFile, BundleFileList};
use ae_exec::{outcome_of_stop, read_version};
use ae_outside::Disk;
use ae_types::{Change, State, VersionRef};
use std::alloc::{AllocError, Global};

/// What a change set has beside its files.
#[derive(Drop)]
struct Head {
    brief: Text,
    description: Text,
    cause: Cause,
}

fn is_completed(phase: Phase) -> bool
    ensures { result ≡ is_completed phase }
{
    phase == Phase::Completed
}

fn head_of(alloc: Global, change: &Change) -> Result<Head, AllocError>
    ensures { IfOk result (IsHead change.now) }
{
    let brief = change.attributes.brief.copy(alloc)?;
    let description = change.attributes.description.copy(alloc)?;
    Ok(Head {
        brief,
        description,
        cause: change.attributes.cause,
    })
}

// The change, where it can be sent: what a change set says of it, and its rows.
fn sendable(alloc: Global, state: &State, number: ChangeNo) -> Result<(Head, Vec<Row>), Outcome>
    ensures answer { IsSendable state.now number result }
    ensures good { IfOk result (λ found. AreGood found.0 found.1.items) }
{
    state.note_sound();
    let Some(change) = state.change(number) else {
        return Err(Outcome::Refused(Refusal::NoSuchChange));
    };
    if !is_completed(change.phase) {
        return Err(Outcome::Refused(Refusal::WrongPhase(change.phase)));
    }
    let Ok(rows) = sent_rows(alloc, state, change) else {
        return Err(Outcome::Memory);
    };
    if !can_be_sent(change, rows.as_slice()) {
        return Err(Outcome::Refused(Refusal::BadBundle));
    }
    match head_of(alloc, change) {
        Ok(head) => Ok((head, rows)),
        Err(_) => Err(Outcome::Memory),
    }
}

// The change of the project that is there, where it can be sent.
fn find<D: Disk>(
    alloc: Global,
    disk: &mut D,
    project: Option<&ProjectName>,
    change: ChangeNo,
) -> Result<(Head, Vec<Row>), Outcome>
    ensures answer { Finds D.tells (reads (D.state disk.old)) (option_copied project.entry) change (DiskFailed D.Disk disk.old disk.new) result }
    ensures good { IfOk result (λ found. AreGood found.0 found.1.items) }
    ensures clean { OnOk result (IsCleanDisk D.Disk disk.new) }
    ensures disk { D.tells → LeavesDisk (D.state disk.old) (D.state disk.new) (Unit {0}) }
    ensures opened { D.tells → IsOpenedUnless (IsErrAnd result MayBeUnopened) (D.state disk.old) (D.state disk.new) }
    ensures later { D.faults disk.old ≤ D.faults disk.new }
{
    match open_project(alloc, disk, Want::One(change), project) {
        Ok(state) => {
            let found = sendable(alloc, &state, change);
            drop(state);
            found
        }
        Err(why) => Err(why),
    }
}

// The bytes of a version.
fn bytes_of<D: Disk>(alloc: Global, disk: &mut D, version: &VersionRef) -> Result<Text, Outcome>
    requires clean { IsCleanDisk D.Disk disk.old }
    requires inside { IsInside version.now }
    ensures bytes { IfOk result (λ bytes. D.tells → bytes ≡ bytes_at (files_of D.Disk disk.old) version.now) }
    ensures kept { IfOk result (AreOf version.now) }
    ensures stopped { IfErr result (Stops
        (λ name. D.tells → IsLostAmong (reads (D.state disk.old)) (version.now ∷ []) name)
        (DiskFailed D.Disk disk.old disk.new)) }
    ensures same { OnlyReads D.Disk disk.old disk.new }
    ensures later { D.faults disk.old ≤ D.faults disk.new }
{
    match read_version(alloc, disk, version) {
        Ok(bytes) => Ok(Text::of(bytes)),
        Err(stop) => Err(outcome_of_stop(stop)),
    }
}

// The bytes of a row's file; none where there is none.
fn row_bytes<D: Disk>(alloc: Global, disk: &mut D, row: &Row) -> Result<Text, Outcome>
    requires clean { IsCleanDisk D.Disk disk.old }
    requires inside { IfSome row.now.version IsInside }
    ensures bytes { IfOk result (λ bytes. D.tells →
        bytes ≡ option_map_or (bytes_at (files_of D.Disk disk.old)) row.now.version []) }
    ensures kept { IfOk result (λ bytes. D.tells →
        AreKept (files_of D.Disk disk.old) (cons_option row.now.version [])) }
    ensures size { IfOk result (λ bytes. length bytes ≡ option_map_or (λ (version : VersionRef). version.length) row.now.version 0) }
    ensures stopped { IfErr result (Stops
        (λ name. D.tells → IsLostAmong (reads (D.state disk.old)) (cons_option row.now.version []) name)
        (DiskFailed D.Disk disk.old disk.new)) }
    ensures same { OnlyReads D.Disk disk.old disk.new }
    ensures later { D.faults disk.old ≤ D.faults disk.new }
{
    match &row.version {
        Some(version) => bytes_of(alloc, disk, version),
        None => Ok(Text::of(Vec::new(alloc))),
    }
}

// The file of a row.
fn file_of(alloc: Global, row: &Row, bytes: Text) -> Result<BundleFile, AllocError>
    ensures file { IfOk result (λ file. (file.path ≡ row.now.path)
        × ((file.action ≡ row.now.action) × ((file.usage ≡ row.now.usage) × (file.bytes ≡ bytes)))) }
{
    let path = row.path.copy(alloc)?;
    Ok(BundleFile {
        path,
        action: row.action,
        usage: row.usage,
        bytes,
    })
}

// Puts the file of a row after the others, with its bytes.
fn push_file<D: Disk>(
    alloc: Global,
    disk: &mut D,
    files: &mut BundleFileList,
    row: &Row,
) -> Result<(), Outcome>
    requires clean { IsCleanDisk D.Disk disk.old }
    requires inside { IfSome row.now.version IsInside }
    ensures pushed { OnOk result (D.tells → files.new ≡ files.old ++ sent_file (files_of D.Disk disk.old) row.now ∷ []) }
    ensures kept { OnOk result (D.tells → AreKept (files_of D.Disk disk.old) (versions_of (row.now ∷ []))) }
    ensures sized { OnOk result (map file_key files.new ≡ map file_key files.old ++ row_key row.now ∷ []) }
    ensures stopped { IfErr result (Stops
        (λ name. D.tells → IsLostAmong (reads (D.state disk.old)) (versions_of (row.now ∷ [])) name)
        (DiskFailed D.Disk disk.old disk.new)) }
    ensures same { OnlyReads D.Disk disk.old disk.new }
    ensures later { D.faults disk.old ≤ D.faults disk.new }
{
    match row_bytes(alloc, disk, row) {
        Ok(bytes) => {
            let Ok(file) = file_of(alloc, row, bytes) else {
                return Err(Outcome::Memory);
            };
            match files.push(file) {
                Ok(()) => Ok(()),
                Err(_) => Err(Outcome::Memory),
            }
        }
        Err(why) => Err(why),
    }
}

/// The files of the rows, with their bytes.
pub fn read_files<D: Disk>(
    alloc: Global,
    disk: &mut D,
    rows: &[Row],
) -> Result<BundleFileList, Outcome>
    requires clean { IsCleanDisk D.Disk disk.old }
    requires inside { AllByRecursion (λ (row : Row). IfSome row.version IsInside) rows.now }
    ensures files { IfOk result (λ files. D.tells → AreReadFrom (files_of D.Disk disk.old) rows.now files) }
    ensures sized { IfOk result (λ files. map file_key files ≡ map row_key rows.now) }
    ensures stopped { IfErr result (Stops
        (λ name. D.tells → IsLostAmong (reads (D.state disk.old)) (versions_of rows.now) name)
        (DiskFailed D.Disk disk.old disk.new)) }
    ensures same { OnlyReads D.Disk disk.old disk.new }
    ensures later { D.faults disk.old ≤ D.faults disk.new }
{
    let mut files = BundleFileList::new(alloc);
    for row in rows {
        if let Err(why) = push_file(alloc, disk, &mut files, row) {
            return Err(why);
        }
    }
    Ok(files)
}

// The rows' paths are paths: the proof knows it of each that is looked at.
fn note_paths(rows: &[Row])
    ensures { AllByRecursion (λ (row : Row). IsPath row.path) rows.now }
{
    for row in rows {
        let _path = row.path.bytes();
    }
}

// The change set of a change that was found.
fn filled<D: Disk>(alloc: Global, disk: &mut D, head: Head, rows: &[Row]) -> Result<Bundle, Outcome>
    requires clean { IsCleanDisk D.Disk disk.old }
    requires good { AreGood head rows.now }
    ensures head { IfOk result (HasHead head) }
    ensures files { IfOk result (λ bundle. D.tells → AreReadFrom (files_of D.Disk disk.old) rows.now bundle.files) }
    ensures fits { IfOk result Fits }
    ensures stopped { IfErr result (Stops
        (λ name. D.tells → IsLostAmong (reads (D.state disk.old)) (versions_of rows.now) name)
        (DiskFailed D.Disk disk.old disk.new)) }
    ensures same { OnlyReads D.Disk disk.old disk.new }
    ensures later { D.faults disk.old ≤ D.faults disk.new }
{
    note_paths(rows);
    match read_files(alloc, disk, rows) {
        Ok(files) => Ok(Bundle {
            brief: head.brief,
            description: head.description,
            cause: head.cause,
            files,
        }),
        Err(why) => Err(why),
    }
}

/// What is sent of a completed change. The store is opened as by a command.
pub fn bundle_of<D: Disk>(
    alloc: Global,
    disk: &mut D,
    project: Option<&ProjectName>,
    change: ChangeNo,
) -> Result<Bundle, Outcome>
    // Each answer has its cause in the files that the disk read;
    ensures answer { Answers
        (λ bundle. D.tells → Sends (reads (D.state disk.old)) (option_copied project.entry) change bundle)
        (λ refusal. D.tells → RefusesSending (reads (D.state disk.old)) (option_copied project.entry) change refusal)
        (λ name. D.tells → DamagedSending (reads (D.state disk.old)) (option_copied project.entry) change name)
        (DiskFailed D.Disk disk.old disk.new) result }
    // and what they say comes, unless the disk failed or memory ran out.
    ensures only { D.tells → (said : Result Bundle Outcome) →
        IsSending (reads (D.state disk.old)) (option_copied project.entry) change said → IsAnswered said result }
    // What is answered has a text.
    ensures fits { IfOk result Fits }
    ensures disk { D.tells → LeavesDisk (D.state disk.old) (D.state disk.new) (Unit {0}) }
    // And the store is opened as by a command, unless the disk failed, a file is damaged or memory ran out: the disk holds one log then,
    // in the second format.
    ensures opened { D.tells → IsOpenedUnless (IsErrAnd result MayBeUnopened) (D.state disk.old) (D.state disk.new) }
    ensures later { D.faults disk.old ≤ D.faults disk.new }
{
    match find(alloc, disk, project, change) {
        Ok((head, rows)) => filled(alloc, disk, head, rows.as_slice()),
        Err(why) => Err(why),
    }
}
