// Directories in memory, with a script of what runs answer and do.
ghost use Rattle.std.specs.Prelude.{◌≡◌, ◌∷◌, ◌++◌, [], Some, None, length, take, Contains, IsErr, IsSome, IfOk, OnOk, OnErr, IsErrOf};
ghost use Rattle.ae_outside.specs.Causes.{Counted, HasCause};
ghost use Rattle.ae_memory.specs.Calls.{IsCall, IsFed};
ghost use Rattle.ae_outside.specs.Trees.{no_files, with_file, within};
ghost use Rattle.ae_outside.specs.Site.{IsAtMost, ChangesOnly, HoldsBytes, content_within, run_made};
ghost use Rattle.ae_memory.specs.FileRows.{tree_of, ElsewhereSame};
ghost use Rattle.ae_memory.specs.Scripts.{exit_of, after_of};
ghost use Rattle.ae_memory.specs.MemSites.{made_of};

use crate::calls::Calls;
use crate::site_files::{
    FileRow, bytes_of, copy_of, drop_dir, drop_file, note_file_bytes, put_file, run_over_files,
    snapshot_of,
};
use crate::site_run::{MemRunList, RunDone, RunDoneList};
use ae_base::{Path, Text};
use ae_outside::{Content, Dir, Exit, Failed, Site, SiteError};
use std::alloc::{AllocError, Global};

/// Directories in memory, and what was run there.
#[derive(Drop)]
pub struct MemSite {
    alloc: Global,
    files: Vec<FileRow>,
    script: MemRunList,
    done: RunDoneList,
    calls: Calls,
}

impl MemSite {
    ghost use Rattle.ae_memory.specs.MemSites.{state_of, script_of, done_of, counts_of};

    /// Empty directories. The runs answer and do as the script says, one after another, and after its end they answer
    /// `Code(0)` and change nothing. The calls of these numbers fail, counted from 1.
    pub fn new(alloc: Global, script: MemRunList, fails: &[u64]) -> Result<MemSite, AllocError>
        ensures state { IfOk result (λ site. state_of site ≡ record { trees = λ dir. no_files; runs = [] }) }
        ensures script { IfOk result (λ site. script_of site ≡ script) }
        ensures done { IfOk result (λ site. done_of site ≡ []) }
        ensures counts { IfOk result (λ site. counts_of site ≡ record { fails = fails.now; calls = 0; failed = 0; starved = 0 }) }
    {
        Ok(MemSite {
            alloc,
            files: Vec::new(alloc),
            script,
            done: RunDoneList::new(alloc),
            calls: Calls::new(alloc, fails)?,
        })
    }

    /// What was run, first to last. A run that failed isn't listed.
    pub fn runs(&self) -> &RunDoneList
        ensures { result.now ≡ done_of self.now }
    {
        &self.done
    }

    /// How many calls there were.
    pub fn calls(&self) -> u64
        ensures { result ≡ (counts_of self.now).calls }
    {
        self.calls.calls()
    }

    /// How many calls found no memory to grow.
    pub fn starved(&self) -> u64
        ensures { result ≡ (counts_of self.now).starved }
    {
        self.calls.starved()
    }

    // Makes the next run of the script.
    fn runs_next(&mut self, dir: &Dir, command: &str) -> Result<Exit, AllocError>
        ensures script { script_of self.new ≡ script_of self.old }
        ensures counts { counts_of self.new ≡ counts_of self.old }
        ensures ran { IfOk result (λ exit. (state_of self.new).runs ≡ (state_of self.old).runs ++ run_made dir.now command.now exit (state_of self.old) (state_of self.new) ∷ []) }
        ensures exit { IfOk result (λ exit. exit ≡ exit_of (script_of self.old) (length (done_of self.old))) }
        ensures after { OnOk result ((state_of self.new).trees dir.now ≡ after_of (script_of self.old) (length (done_of self.old)) ((state_of self.old).trees dir.now)) }
        ensures others { ElsewhereSame dir.now (state_of self.old).trees (state_of self.new).trees }
        ensures noted { take (length (done_of self.old)) (done_of self.new) ≡ done_of self.old }
        ensures not_run { OnErr result (done_of self.new ≡ done_of self.old) }
    {
        let place = self.done.len();
        let run = run_at(
            self.alloc,
            &mut self.files,
            dir,
            command,
            &self.script,
            place,
        )?;
        let exit = run.exit;
        self.done.push(run)?;
        Ok(exit)
    }
}

// The run of the script at this place, made and noted.
fn run_at(
    alloc: Global,
    files: &mut Vec<FileRow>,
    dir: &Dir,
    command: &str,
    script: &MemRunList,
    place: usize,
) -> Result<RunDone, AllocError>
    ensures made { IfOk result (λ run. made_of run ≡ record {
      dir = dir.now;
      command = command.now;
      exit = run.exit;
      before = tree_of files.old.items dir.now;
      after = tree_of files.new.items dir.now;
      found = tree_of files.old.items;
      left = tree_of files.new.items;
    }) }
    ensures exit { IfOk result (λ run. run.exit ≡ exit_of script.now place) }
    ensures after { OnOk result (tree_of files.new.items dir.now ≡ after_of script.now place (tree_of files.old.items dir.now)) }
    ensures others { ElsewhereSame dir.now (tree_of files.old.items) (tree_of files.new.items) }
{
    let command = Text::of(command.as_bytes().to_vec(alloc)?);
    let before = snapshot_of(alloc, files, dir)?;
    let found = copy_of(alloc, files)?;
    let exit = runs_at(alloc, files, dir, script, place)?;
    let after = snapshot_of(alloc, files, dir)?;
    let left = copy_of(alloc, files)?;
    Ok(RunDone {
        dir: *dir,
        command,
        exit,
        before,
        after,
        found,
        left,
    })
}

// Does what the run of the script at this place does, and answers how it ends.
fn runs_at(
    alloc: Global,
    files: &mut Vec<FileRow>,
    dir: &Dir,
    script: &MemRunList,
    place: usize,
) -> Result<Exit, AllocError>
    ensures exit { IfOk result (λ exit. exit ≡ exit_of script.now place) }
    ensures after { OnOk result (tree_of files.new.items dir.now ≡ after_of script.now place (tree_of files.old.items dir.now)) }
    ensures others { ElsewhereSame dir.now (tree_of files.old.items) (tree_of files.new.items) }
{
    let runs = script.as_slice();
    if place >= runs.len() {
        return Ok(Exit::Code(0));
    }
    run_over_files(alloc, files, dir, &runs[place])?;
    Ok(runs[place].exit)
}

impl Site for MemSite {
    ghost use Rattle.ae_memory.specs.MemSites.{state_of, script_of, done_of, counts_of};

    ghost tells = { Unit {0} };

    ghost state = { λ site. state_of site };

    ghost faults = { λ site. (counts_of site).failed };

    fn note_bytes(&self)
        ensures bytes { HoldsBytes (state_of self.now) }
    {
        note_file_bytes(self.files.as_slice());
    }

    fn read(
        &mut self,
        alloc: Global,
        dir: Dir,
        path: &Path,
        limit: usize,
    ) -> Result<Content, SiteError>
        ensures content { IfOk result (λ content. content ≡ content_within limit ((state_of self.old).trees dir path.now)) }
        ensures limit { IfOk result (IsAtMost limit) }
        // Only bytes within the limit are copied.
        ensures memory { IsErrOf result SiteError.Memory → IsSome (within limit ((state_of self.old).trees dir path.now)) }
        ensures same { state_of self.new ≡ state_of self.old }
        ensures script { script_of self.new ≡ script_of self.old }
        ensures done { done_of self.new ≡ done_of self.old }
        ensures cause { Counted (counts_of self.old).failed (counts_of self.new).failed (IsErrOf result SiteError.Failed) }
        ensures exact { IsCall (counts_of self.old) (counts_of self.new) (IsErrOf result SiteError.Failed) }
        ensures fed { IsFed (counts_of self.old) (counts_of self.new) }
    {
        if self.calls.begins() {
            return Err(SiteError::Failed);
        }
        match bytes_of(&self.files, &dir, path) {
            None => Ok(Content::Absent),
            Some(bytes) => {
                if bytes.bytes().len() > limit {
                    return Ok(Content::TooLong);
                }
                match bytes.copy(alloc) {
                    Ok(bytes) => Ok(Content::Bytes(bytes)),
                    Err(_) => Err(SiteError::Memory),
                }
            }
        }
    }

    fn write(&mut self, dir: Dir, path: &Path, bytes: &[u8]) -> Result<(), Failed>
        ensures written { OnOk result ((state_of self.new).trees dir ≡ with_file path.now (Some bytes.now) ((state_of self.old).trees dir)) }
        ensures only { ChangesOnly dir (state_of self.old) (state_of self.new) }
        // A call whose number is listed changes nothing, and looks for no memory.
        ensures listed { Contains (counts_of self.old).fails (counts_of self.new).calls → state_of self.new ≡ state_of self.old }
        ensures listed_fed { Contains (counts_of self.old).fails (counts_of self.new).calls → IsFed (counts_of self.old) (counts_of self.new) }
        ensures script { script_of self.new ≡ script_of self.old }
        ensures done { done_of self.new ≡ done_of self.old }
        ensures cause { HasCause (counts_of self.old).failed (counts_of self.new).failed result }
        ensures exact { IsCall (counts_of self.old) (counts_of self.new) (IsErr result) }
        ensures fed { OnOk result (IsFed (counts_of self.old) (counts_of self.new)) }
    {
        if self.calls.begins() {
            return Err(Failed);
        }
        match put_file(self.alloc, &mut self.files, &dir, path, bytes) {
            Ok(()) => Ok(()),
            Err(_) => {
                self.calls.starves();
                Err(Failed)
            }
        }
    }

    fn remove(&mut self, dir: Dir, path: &Path) -> Result<(), Failed>
        ensures removed { OnOk result ((state_of self.new).trees dir ≡ with_file path.now None ((state_of self.old).trees dir)) }
        ensures only { ChangesOnly dir (state_of self.old) (state_of self.new) }
        ensures kept { OnErr result (state_of self.new ≡ state_of self.old) }
        ensures script { script_of self.new ≡ script_of self.old }
        ensures done { done_of self.new ≡ done_of self.old }
        ensures cause { HasCause (counts_of self.old).failed (counts_of self.new).failed result }
        ensures exact { IsCall (counts_of self.old) (counts_of self.new) (IsErr result) }
        ensures fed { IsFed (counts_of self.old) (counts_of self.new) }
    {
        if self.calls.begins() {
            return Err(Failed);
        }
        drop_file(&mut self.files, &dir, path);
        Ok(())
    }

    fn clear(&mut self, dir: Dir) -> Result<(), Failed>
        ensures cleared { OnOk result ((state_of self.new).trees dir ≡ no_files) }
        ensures only { ChangesOnly dir (state_of self.old) (state_of self.new) }
        ensures kept { OnErr result (state_of self.new ≡ state_of self.old) }
        ensures script { script_of self.new ≡ script_of self.old }
        ensures done { done_of self.new ≡ done_of self.old }
        ensures cause { HasCause (counts_of self.old).failed (counts_of self.new).failed result }
        ensures exact { IsCall (counts_of self.old) (counts_of self.new) (IsErr result) }
        ensures fed { IsFed (counts_of self.old) (counts_of self.new) }
    {
        if self.calls.begins() {
            return Err(Failed);
        }
        drop_dir(&mut self.files, &dir);
        Ok(())
    }

    fn run(&mut self, dir: Dir, command: &str) -> Result<Exit, Failed>
        ensures ran { IfOk result (λ exit. (state_of self.new).runs ≡ (state_of self.old).runs ++ run_made dir command.now exit (state_of self.old) (state_of self.new) ∷ []) }
        ensures not_run { OnErr result ((state_of self.new).runs ≡ (state_of self.old).runs) }
        ensures exit { IfOk result (λ exit. exit ≡ exit_of (script_of self.old) (length (state_of self.old).runs)) }
        ensures after { OnOk result ((state_of self.new).trees dir ≡ after_of (script_of self.old) (length (state_of self.old).runs) ((state_of self.old).trees dir)) }
        ensures others { ElsewhereSame dir (state_of self.old).trees (state_of self.new).trees }
        // A call whose number is listed changes nothing, and looks for no memory.
        ensures listed { Contains (counts_of self.old).fails (counts_of self.new).calls → state_of self.new ≡ state_of self.old }
        ensures listed_fed { Contains (counts_of self.old).fails (counts_of self.new).calls → IsFed (counts_of self.old) (counts_of self.new) }
        ensures script { script_of self.new ≡ script_of self.old }
        // The runs before it stay listed as they are.
        ensures noted { take (length (done_of self.old)) (done_of self.new) ≡ done_of self.old }
        ensures not_noted { OnErr result (done_of self.new ≡ done_of self.old) }
        ensures cause { HasCause (counts_of self.old).failed (counts_of self.new).failed result }
        ensures exact { IsCall (counts_of self.old) (counts_of self.new) (IsErr result) }
        ensures fed { OnOk result (IsFed (counts_of self.old) (counts_of self.new)) }
    {
        if self.calls.begins() {
            return Err(Failed);
        }
        match self.runs_next(&dir, command) {
            Ok(exit) => Ok(exit),
            Err(_) => {
                self.calls.starves();
                Err(Failed)
            }
        }
    }
}
