// What is so of each change that is received.
ghost use Rattle.ae_script.specs.Uses.{disks, sinks, sites};
ghost use Rattle.ae_received.specs.Laws.{ReceivedAreAsSent};

use ae_outside::{Disk, Sink, Site};

/// A law: where the acts of a change set's plan end with `Done`, the change that they make has exactly the rows that the change set asks
/// for, and its develop directory has each sent file's bytes and no removed file.
pub fn received_changes_are_as_sent<D: Disk, S: Site, O: Sink>()
    ensures sent { ReceivedAreAsSent (disks D.Disk) (sites S.Site) (sinks O.Sink) }
{}
