// Directories with files, and runs of commands in them.
ghost use Rattle.std.specs.Prelude.{◌≡◌, ℕ, ◌∷◌, ◌++◌, [], Some, None, IfOk, OnOk, OnErr, IsErrOf};
ghost use Rattle.ae_outside.specs.Causes.{Counted, HasCause};
ghost use Rattle.ae_outside.specs.Trees.{no_files, with_file};
ghost use Rattle.ae_outside.specs.Site.{SiteState, ChangesOnly, IsAtMost, content_within, run_made, HoldsBytes};

use crate::{Content, Dir, Exit, Failed, SiteError};
use ae_base::Path;
use std::alloc::Global;

/// Directories with files, and commands that are run in them.
pub trait Site {
    /// Whether its directories and runs are told.
    ghost tells: { Type 0 };

    /// The directories and the runs so far.
    ghost state: { Self → SiteState };

    /// How often it has failed.
    ghost faults: { Self → ℕ };

    /// A law: what its files hold are bytes.
    fn note_bytes(&self)
        ensures bytes { tells → HoldsBytes (state self.now) };

    /// Reads a file of at most so many bytes.
    fn read(
        &mut self,
        alloc: Global,
        dir: Dir,
        path: &Path,
        limit: usize,
    ) -> Result<Content, SiteError>
        ensures content { IfOk result (λ content. tells → content ≡ content_within limit ((state self.old).trees dir path.now)) }
        ensures limit { IfOk result (IsAtMost limit) }
        ensures same { tells → state self.new ≡ state self.old }
        ensures cause { Counted (faults self.old) (faults self.new) (IsErrOf result SiteError.Failed) };

    /// Makes or replaces a file. After a failure nothing is known of its directory.
    fn write(&mut self, dir: Dir, path: &Path, bytes: &[u8]) -> Result<(), Failed>
        ensures written { OnOk result (tells → (state self.new).trees dir ≡ with_file path.now (Some bytes.now) ((state self.old).trees dir)) }
        ensures only { tells → ChangesOnly dir (state self.old) (state self.new) }
        ensures cause { HasCause (faults self.old) (faults self.new) result };

    /// Removes a file. An absent one stays absent. After a failure nothing is known of its directory.
    fn remove(&mut self, dir: Dir, path: &Path) -> Result<(), Failed>
        ensures removed { OnOk result (tells → (state self.new).trees dir ≡ with_file path.now None ((state self.old).trees dir)) }
        ensures only { tells → ChangesOnly dir (state self.old) (state self.new) }
        ensures cause { HasCause (faults self.old) (faults self.new) result };

    /// Empties a directory. After a failure nothing is known of it.
    fn clear(&mut self, dir: Dir) -> Result<(), Failed>
        ensures cleared { OnOk result (tells → (state self.new).trees dir ≡ no_files) }
        ensures only { tells → ChangesOnly dir (state self.old) (state self.new) }
        ensures cause { HasCause (faults self.old) (faults self.new) result };

    /// Runs a command there. Of the directories nothing is known then but the trees that the run is noted with, and nothing after a failure.
    fn run(&mut self, dir: Dir, command: &str) -> Result<Exit, Failed>
        ensures ran { IfOk result (λ exit. tells → (state self.new).runs ≡ (state self.old).runs ++ run_made dir command.now exit (state self.old) (state self.new) ∷ []) }
        ensures not_run { OnErr result (tells → (state self.new).runs ≡ (state self.old).runs) }
        ensures cause { HasCause (faults self.old) (faults self.new) result };
}
