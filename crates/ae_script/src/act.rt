// Acts, done one after another.
ghost use Rattle.std.specs.Prelude.{◌≡◌, ◌≢◌, ◌≤◌, All};
ghost use Rattle.ae_base.specs.Limits.{last_moment};
ghost use Rattle.ae_lines.specs.Acts.{MayBeDone, MayBePlanned};
ghost use Rattle.ae_telling.specs.Telling.{use_of_sink};
ghost use Rattle.ae_script.specs.Acts.{ActsDone, line_of};
ghost use Rattle.ae_script.specs.Lines.{Does, did, stand};
ghost use Rattle.ae_script.specs.Step.{told_by};
ghost use Rattle.ae_script.specs.Uses.{disks, sites};

use crate::doing::{Standing, do_command, put, tell_line};
use crate::manner::Manner;
use ae_base::{Outcome, User};
use ae_lines::Act;
use ae_outside::{Disk, Sink, Site};
use ae_telling::Told;
use std::alloc::Global;

// Does one act, and answers what is to be told of it.
fn do_act<D: Disk, S: Site>(
    alloc: Global,
    act: &Act,
    manner: Manner,
    who: &User,
    now: u64,
    disk: &mut D,
    site: &mut S,
) -> Told
    requires may { MayBeDone act.now }
    requires moment { now ≤ last_moment }
    ensures done { let d = disks D.Disk in let s = sites S.Site in
        Does d s manner (stand d s who.now now disk.old site.old) (did d s (line_of act.now) result.outcome
        (told_by manner result) (stand d s who.now now disk.new site.new)) }
{
    match act {
        Act::Run(command) => {
            let status = manner.tells_status();
            do_command(alloc, command, who, now, status, disk, site)
        }
        Act::Put(dir, path, text) => put(alloc, site, *dir, path, text.bytes()),
    }
}

/// Does these acts one after another, each command by this user at this moment, and writes what is said of each as the manner has it:
/// in `Manner::Plan` up to the first that isn't done, whose outcome it answers.
pub fn do_acts<D: Disk, S: Site, O: Sink>(
    alloc: Global,
    acts: &[Act],
    manner: Manner,
    standing: Standing,
    disk: &mut D,
    site: &mut S,
    out: &mut O,
) -> Outcome
    requires may { All MayBeDone acts.now }
    // Each goes on from where the one before it led; where the disk holds legal logs they are steps of the log machine. What is
    // written of each was taken whole before the next one began.
    ensures done { let d = disks D.Disk in let s = sites S.Site in
        ActsDone d s manner acts.now (stand d s standing.who standing.now disk.old site.old)
        (stand d s standing.who standing.now disk.new site.new) (use_of_sink O.Sink out.old out.new) result }
    // Of acts that build and test nothing no run fails, whatever the disk and the directories tell.
    ensures unfailed { All MayBePlanned acts.now → result ≢ Outcome.RunFailed }
    ensures out_faults { O.faults out.old ≤ O.faults out.new }
{
    for act in acts {
        let told = do_act(alloc, act, manner, &standing.who, standing.now, disk, site);
        if let Some(outcome) = tell_line(told, manner, out) {
            return outcome;
        }
    }
    Outcome::Done
}
