// A state file's bytes are read, and tested by themselves.
ghost use Rattle.std.specs.Prelude.{◌≡◌, ℕ, List, IsErrOf};
ghost use Rattle.ae_outside.specs.Image.{Image};
ghost use Rattle.ae_types.specs.declared.blame.Blame.TheVariants as blame;
ghost use Rattle.ae_types.specs.declared.project.Project.{Project};
ghost use Rattle.ae_types.specs.declared.file_table.FileRow.{FileRow};
ghost use Rattle.ae_types.specs.declared.file_table.Lock.{Lock};
ghost use Rattle.ae_store.specs.Names.{project_file, files_file, change_file};
ghost use Rattle.ae_store.specs.Damage.{ReadsProject, ReadsTable, ReadsChange};
ghost use Rattle.ae_audit.specs.Steps.{stop_of_record, IsFormatRead, IsRecordRead};

use crate::stop::Stop;
use ae_base::ChangeNo;
use ae_rules::{change_is_good, files_are_good, project_is_good};
use ae_schema::{Format, SchemaError, read_change_in, read_files, read_format, read_project_in};
use ae_types::{Blame, Change, FileRows, LockList, NumberList, Project};
use std::alloc::Global;

fn stop_of(blame: Blame, error: SchemaError) -> Stop
    ensures { result ≡ stop_of_record blame error }
{
    match error {
        SchemaError::Field(_) => Stop::Blamed(blame),
        SchemaError::Memory => Stop::Memory,
    }
}

/// The format of which the bytes of `project` say that they are.
pub(crate) fn told_format(alloc: Global, bytes: &[u8]) -> Result<Format, Stop>
    ensures told { IsFormatRead bytes.now result }
    ensures no_fault { IsErrOf result Stop.DiskFault → ⊥ }
{
    match read_format(alloc, bytes) {
        Ok(1) => Ok(Format::One),
        Ok(_) => Ok(Format::Two),
        Err(error) => Err(stop_of(Blame::Project, error)),
    }
}

/// The project that the bytes of `project` say in this format, where it keeps the rules by itself.
pub(crate) fn good_project(
    alloc: Global,
    format: Format,
    bytes: &[u8],
) -> Result<(Project, NumberList), Stop>
    ensures value { (files : Image) → files project_file ≡ bytes.now → IsRecordRead
        (λ (p : Project × List ℕ). ReadsProject format files p.0 p.1) blame.Project result }
    ensures no_fault { IsErrOf result Stop.DiskFault → ⊥ }
{
    match read_project_in(alloc, format, bytes) {
        Ok((project, numbers)) => {
            if project_is_good(&project, numbers.as_slice()) {
                Ok((project, numbers))
            } else {
                drop(project);
                Err(Stop::Blamed(Blame::Project))
            }
        }
        Err(error) => Err(stop_of(Blame::Project, error)),
    }
}

/// The files and locks that the bytes of `files` say, where they keep the rules by themselves.
pub(crate) fn good_table(
    alloc: Global,
    bytes: &[u8],
    project: &Project,
) -> Result<(FileRows, LockList), Stop>
    ensures value { (files : Image) → files files_file ≡ bytes.now → IsRecordRead
        (λ (t : List FileRow × List Lock). ReadsTable files project.now t.0 t.1) blame.Files result }
    ensures no_fault { IsErrOf result Stop.DiskFault → ⊥ }
{
    match read_files(alloc, bytes) {
        Ok((rows, locks)) => {
            if files_are_good(project.deltas.len(), rows.as_slice(), locks.as_slice()) {
                Ok((rows, locks))
            } else {
                Err(Stop::Blamed(Blame::Files))
            }
        }
        Err(error) => Err(stop_of(Blame::Files, error)),
    }
}

/// The change of this number that the bytes of its file say in this format, where it keeps the rules by itself.
pub(crate) fn good_change(
    alloc: Global,
    format: Format,
    bytes: &[u8],
    number: ChangeNo,
) -> Result<Change, Stop>
    ensures value { (files : Image) → files (change_file number) ≡ bytes.now → IsRecordRead
        (ReadsChange format files number) (blame.Change number) result }
    ensures no_fault { IsErrOf result Stop.DiskFault → ⊥ }
{
    match read_change_in(alloc, format, bytes) {
        Ok(change) => {
            if change.number == number && change_is_good(&change) {
                Ok(change)
            } else {
                drop(change);
                Err(Stop::Blamed(Blame::Change(number)))
            }
        }
        Err(error) => Err(stop_of(Blame::Change(number), error)),
    }
}
