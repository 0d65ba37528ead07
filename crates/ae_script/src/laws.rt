// What holds of all lines that are done, of all acts, and of all scripts.
ghost use Rattle.ae_script.specs.Uses.{sinks, sources, disks, sites};
ghost use Rattle.ae_script.specs.Ends.{FaultsAreOfTheLastLine, ScriptsAreCaused, ScriptsAreToldFirst, ScriptsEndWhole};
ghost use Rattle.ae_script.specs.Follows.{LooksFollow, LooksStay, StaysFollow};
ghost use Rattle.ae_script.specs.Laws.{ActsAreCaused, AllMeansDone, DoneMeansAll, LinesKeepDisks};

use ae_outside::{Disk, Sink, Site, Source};

/// Laws of lines that are done, whatever the disk holds. They keep the disk: time goes on, it stays settled, and no files but the
/// store's own are changed. And where nothing happens to a log before them, as where the disk is only read, they follow the logs that
/// it held before that.
pub fn lines_keep_disks<D: Disk, S: Site>()
    ensures kept { LinesKeepDisks (disks D.Disk) (sites S.Site) }
    ensures looked { LooksFollow (disks D.Disk) (sites S.Site) }
    ensures look { LooksStay (disks D.Disk) (sites S.Site) }
    ensures stayed { StaysFollow (disks D.Disk) (sites S.Site) }
{}

/// Laws of acts. One that ends them with a fault has its cause. And those of a plan end with `Done` exactly where each is done, but for
/// what the sink didn't take.
pub fn acts_end<D: Disk, S: Site, O: Sink>()
    ensures causes { ActsAreCaused (disks D.Disk) (sites S.Site) (sinks O.Sink) }
    ensures all { DoneMeansAll (disks D.Disk) (sites S.Site) (sinks O.Sink) }
    ensures done { AllMeansDone (disks D.Disk) (sites S.Site) (sinks O.Sink) }
{}

/// Laws of scripts. Whatever the disk holds, one that ends with a fault has its cause, and a fault of the disk or of the directories
/// comes of its last line. After a line that the sink didn't take, and after one that ends the script, none is done. And where no
/// count rises, a script each of whose lines is understood is read to its end on a disk that holds legal logs, unless memory runs out.
pub fn scripts_end<D: Disk, S: Site, I: Source, O: Sink>()
    ensures causes { ScriptsAreCaused (disks D.Disk) (sites S.Site) (sources I.Source) (sinks O.Sink) }
    ensures fault { FaultsAreOfTheLastLine (disks D.Disk) (sites S.Site) (sources I.Source) (sinks O.Sink) }
    ensures told { ScriptsAreToldFirst (disks D.Disk) (sites S.Site) (sources I.Source) (sinks O.Sink) }
    ensures whole { ScriptsEndWhole (disks D.Disk) (sites S.Site) (sources I.Source) (sinks O.Sink) }
{}
