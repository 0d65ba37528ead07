// What holds of texts and their records, and that what is printed is read back.
ghost use Rattle.std.specs.Prelude.{◌≡◌, ◌⊎◌, ℕ, List};
ghost use Rattle.ae_types.specs.declared.project.Project.{Project};
ghost use Rattle.ae_types.specs.declared.file_table.FileRow.{FileRow};
ghost use Rattle.ae_types.specs.declared.file_table.Lock.{Lock};
ghost use Rattle.ae_types.specs.declared.change.Change.{Change};
ghost use Rattle.ae_schema.specs.declared.format.Format.{Format};
ghost use Rattle.ae_schema.specs.Records.{IsTextOf, IsRecord, IsBadLine, HasBadLine, IsAnswer};
ghost use Rattle.ae_schema.specs.Files.{project_fields, files_fields, change_fields};
ghost use Rattle.ae_schema.specs.Fits.{ProjectAscends, FilesAscend, ChangeAscends, FitsProject, FitsFiles, FitsChange};

use crate::{
    SchemaError, print_change, print_files, print_project, read_change, read_files, read_project,
};
use ae_base::ChangeNo;
use ae_types::{Change, FileRow, FileRows, Lock, LockList, NumberList, Project};
use std::alloc::Global;

/// In each format each text is a project's record or has a bad line, never both, and never two.
pub fn note_project_lines()
    ensures every { (format : Format) (bytes : List ℕ)
        → IsRecord FitsProject (project_fields format) bytes ⊎ HasBadLine FitsProject (project_fields format) bytes }
    ensures never_both { (format : Format) (bytes : List ℕ) (p : Project × List ℕ) (line : ℕ)
        → FitsProject p → IsTextOf bytes (project_fields format p) → IsBadLine FitsProject (project_fields format) bytes line → ⊥ }
    ensures one_line { (format : Format) (bytes : List ℕ) (line other : ℕ)
        → IsBadLine FitsProject (project_fields format) bytes line → IsBadLine FitsProject (project_fields format) bytes other → line ≡ other }
{}

/// Each text is a file table or has a bad line, never both, and never two.
pub fn note_files_lines()
    ensures every { (bytes : List ℕ) → IsRecord FitsFiles files_fields bytes ⊎ HasBadLine FitsFiles files_fields bytes }
    ensures never_both { (bytes : List ℕ) (t : List FileRow × List Lock) (line : ℕ)
        → FitsFiles t → IsTextOf bytes (files_fields t) → IsBadLine FitsFiles files_fields bytes line → ⊥ }
    ensures one_line { (bytes : List ℕ) (line other : ℕ)
        → IsBadLine FitsFiles files_fields bytes line → IsBadLine FitsFiles files_fields bytes other → line ≡ other }
{}

/// In each format each text is a change's record or has a bad line, never both, and never two.
pub fn note_change_lines()
    ensures every { (format : Format) (bytes : List ℕ)
        → IsRecord (FitsChange format) (change_fields format) bytes ⊎ HasBadLine (FitsChange format) (change_fields format) bytes }
    ensures never_both { (format : Format) (bytes : List ℕ) (c : Change) (line : ℕ)
        → FitsChange format c → IsTextOf bytes (change_fields format c) → IsBadLine (FitsChange format) (change_fields format) bytes line → ⊥ }
    ensures one_line { (format : Format) (bytes : List ℕ) (line other : ℕ)
        → IsBadLine (FitsChange format) (change_fields format) bytes line → IsBadLine (FitsChange format) (change_fields format) bytes other → line ≡ other }
{}

/// The project and numbers, printed and read: the same where the numbers ascend, or memory ran out.
pub fn project_again(
    alloc: Global,
    project: &Project,
    numbers: &[ChangeNo],
) -> Result<(Project, NumberList), SchemaError>
    ensures { ProjectAscends (project.now, numbers.now) → IsAnswer (project.now, numbers.now) result }
{
    match print_project(alloc, project, numbers) {
        Ok(text) => read_project(alloc, text.as_slice()),
        Err(_) => Err(SchemaError::Memory),
    }
}

/// The files and locks, printed and read: the same where they ascend, or memory ran out.
pub fn files_again(
    alloc: Global,
    files: &[FileRow],
    locks: &[Lock],
) -> Result<(FileRows, LockList), SchemaError>
    ensures { FilesAscend (files.now, locks.now) → IsAnswer (files.now, locks.now) result }
{
    match print_files(alloc, files, locks) {
        Ok(text) => read_files(alloc, text.as_slice()),
        Err(_) => Err(SchemaError::Memory),
    }
}

/// The change, printed and read: the same where its files and runs ascend, or memory ran out.
pub fn change_again(alloc: Global, change: &Change) -> Result<Change, SchemaError>
    ensures { ChangeAscends change.now → IsAnswer change.now result }
{
    match print_change(alloc, change) {
        Ok(text) => read_change(alloc, text.as_slice()),
        Err(_) => Err(SchemaError::Memory),
    }
}
