// The manners in which lines are done.
ghost use Rattle.std.specs.Prelude.{◌≡◌};
ghost use Rattle.ae_script.specs.Manner.{tells_status};

/// How lines are done, and what is written of them.
#[derive(Clone, Copy, Debug, PartialEq, Eq)]
pub enum Manner {
    /// The lines of a script: what is said of each is written, of a command with its status. It goes on after a command that is
    /// refused, or of which a run failed.
    Script,
    /// The acts of a plan, and a command alone: what is said of each is written, without its status. The first that isn't done ends
    /// them.
    Plan,
    /// The lines that the generator makes: what is said of a line is written only where it isn't done, and then none comes after
    /// it.
    Generator,
}

impl Manner {
    /// Whether each command tells its exit status.
    pub(crate) fn tells_status(self) -> bool
        ensures { result ≡ tells_status self }
    {
        self == Manner::Script
    }
}
