// What is so of all calls.
ghost use Rattle.ae_script.specs.Uses.{sinks, sources, disks, sites};
ghost use Rattle.ae_session.specs.Called.{CallsAreCaused, CallsKeepDisks, CommandsEndWhole, ProjectsCountRuns};

use ae_outside::{Disk, Sink, Site, Source};

/// Laws of calls of `aegis`, whatever the disk holds. One that ends with a fault has its cause. The disk is kept: time goes on, it
/// stays settled, and no files but the store's own are changed. And where no count rises a command alone ends as the verdict on it
/// says, unless memory runs out. The runs that the generator tells are those that it made.
pub fn calls_are_caused<D: Disk, S: Site, I: Source, O: Sink, E: Sink>()
    ensures causes { CallsAreCaused (disks D.Disk) (sites S.Site)
        (sources I.Source) (sinks O.Sink) (sinks E.Sink) }
    ensures disk { CallsKeepDisks (disks D.Disk) (sites S.Site)
        (sources I.Source) (sinks O.Sink) (sinks E.Sink) }
    ensures runs { ProjectsCountRuns (disks D.Disk) (sites S.Site) (sinks O.Sink) (sinks E.Sink) }
    ensures whole { CommandsEndWhole (disks D.Disk) (sites S.Site) (sinks O.Sink) (sinks E.Sink) }
{}
