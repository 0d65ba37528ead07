// One line is done.
ghost use Rattle.std.specs.Prelude.{◌≡◌, ◌≤◌, ◌++◌, [], true, false, Some, None, replicate, IfSome, OnSome};
ghost use Rattle.ae_base.specs.Limits.{last_moment};
ghost use Rattle.ae_lines.specs.Line.{IsReady};
ghost use Rattle.ae_words.specs.Formed.{IsFormed};
ghost use Rattle.ae_machine.specs.Called.{called};
ghost use Rattle.ae_words.specs.Table.{is_one_command};
ghost use Rattle.ae_telling.specs.Telling.{use_of_sink, IsTold, written};
ghost use Rattle.ae_script.specs.Lines.{CommandDone, Does, EditDone, did, stand};
ghost use Rattle.ae_script.specs.Manner.{is_done, leads_on};
ghost use Rattle.ae_script.specs.Step.{IsStoppedBy, told_by};
ghost use Rattle.ae_script.specs.declared.manner.Manner.TheVariants.{Plan};
ghost use Rattle.ae_script.specs.Uses.{use_of_disk, use_of_site, disks, sites};

use crate::manner::Manner;
use ae_base::{Outcome, Path, User};
use ae_exec::perform;
use ae_lines::Line;
use ae_outside::{Dir, Disk, Sink, Site};
use ae_telling::{Told, told_command};
use ae_words::Command;
use std::alloc::Global;

/// Whose the following commands are, and when they come: no later than at the end of the year 2099.
#[derive(Drop)]
pub struct Standing {
    pub who: User,
    pub now: u64,
    ghost moment: { now ≤ last_moment },
}

/// Does a command, and answers what is to be told of it, with its exit status where `status` says so. `who` gives it at the moment
/// `now`.
pub fn do_command<D: Disk, S: Site>(
    alloc: Global,
    command: &Command,
    who: &User,
    now: u64,
    status: bool,
    disk: &mut D,
    site: &mut S,
) -> Told
    requires formed { IsFormed command.now }
    requires one { is_one_command command.now.function ≡ true }
    requires moment { now ≤ last_moment }
    // How it ends and what it leaves, whatever the disk and the directories held.
    ensures done { CommandDone (called command.now who.now now (S.state site.old) (S.state site.new)) status
        (use_of_disk D.Disk disk.old disk.new) (use_of_site S.Site site.old site.new)
        result.outcome (written result) }
    ensures disk_faults { D.faults disk.old ≤ D.faults disk.new }
    ensures site_faults { S.faults site.old ≤ S.faults site.new }
{
    let _name = who.bytes();
    let done = perform(alloc, disk, site, command, who, now, status);
    told_command(alloc, done.outcome, done.reply, status)
}

// A file is written.
pub(crate) fn put<S: Site>(alloc: Global, site: &mut S, dir: Dir, path: &Path, bytes: &[u8]) -> Told
    ensures ends { EditDone dir path.now (Some bytes.now) (use_of_site S.Site site.old site.new)
        result.outcome (written result) }
    ensures faults { S.faults site.old ≤ S.faults site.new }
{
    match site.write(dir, path, bytes) {
        Ok(()) => Told::bare(alloc, Outcome::Done, false),
        Err(_) => Told::bare(alloc, Outcome::SiteFault, false),
    }
}

// A file is written with so many times this byte.
fn fill<S: Site>(alloc: Global, site: &mut S, dir: Dir, path: &Path, count: u32, byte: u8) -> Told
    ensures ends { EditDone dir path.now (Some (replicate count byte)) (use_of_site S.Site site.old site.new)
        result.outcome (written result) }
    ensures faults { S.faults site.old ≤ S.faults site.new }
{
    match vec![in alloc; byte; count as usize] {
        Ok(bytes) => put(alloc, site, dir, path, &bytes),
        Err(_) => Told::bare(alloc, Outcome::Memory, false),
    }
}

// A file is removed.
fn remove<S: Site>(alloc: Global, site: &mut S, dir: Dir, path: &Path) -> Told
    ensures ends { EditDone dir path.now None (use_of_site S.Site site.old site.new)
        result.outcome (written result) }
    ensures faults { S.faults site.old ≤ S.faults site.new }
{
    match site.remove(dir, path) {
        Ok(()) => Told::bare(alloc, Outcome::Done, false),
        Err(_) => Told::bare(alloc, Outcome::SiteFault, false),
    }
}

/// Does one line, and answers what is to be told of it.
pub fn do_line<D: Disk, S: Site>(
    alloc: Global,
    line: Line,
    manner: Manner,
    standing: &mut Standing,
    disk: &mut D,
    site: &mut S,
) -> Told
    requires ready { IsReady line }
    // What it did, from where the lines stood before it to where they stand now.
    ensures done { let d = disks D.Disk in let s = sites S.Site in
        Does d s manner (stand d s standing.old.who standing.old.now disk.old site.old) (did d s line result.outcome
        (told_by manner result) (stand d s standing.new.who standing.new.now disk.new site.new)) }
{
    match line {
        Line::Nothing => Told::bare(alloc, Outcome::Done, false),
        Line::As(user) => {
            standing.who = user;
            Told::bare(alloc, Outcome::Done, false)
        }
        Line::At(moment) => {
            standing.now = moment;
            Told::bare(alloc, Outcome::Done, false)
        }
        Line::Do(command) => {
            do_command(
                alloc,
                &command,
                &standing.who,
                standing.now,
                manner.tells_status(),
                disk,
                site,
            )
        }
        Line::Put(dir, path, text) => put(alloc, site, dir, &path, text.bytes()),
        Line::Fill(dir, path, count, byte) => fill(alloc, site, dir, &path, count, byte),
        Line::Remove(dir, path) => remove(alloc, site, dir, &path),
    }
}

fn is_done(outcome: &Outcome) -> bool
    ensures { result ≡ is_done outcome.now }
{
    matches!(outcome, Outcome::Done)
}

// Writes what is told of an act: `None` where it is done, and all of that was written.
fn tell_act<O: Sink>(told: Told, out: &mut O) -> Option<Outcome>
    ensures goes { result ≡ None → is_done told.outcome ≡ true }
    ensures whole { result ≡ None → O.tells → O.taken out.new ≡ O.taken out.old ++ written told }
    ensures ends { IfSome result (IsStoppedBy Plan told.outcome (written told)
        (use_of_sink O.Sink out.old out.new)) }
    ensures later { O.faults out.old ≤ O.faults out.new }
{
    let outcome = told.tell_alone(out);
    if is_done(&outcome) {
        None
    } else {
        Some(outcome)
    }
}

// Writes what is told of a line that isn't done, which ends the lines.
fn tell_unless_done<O: Sink>(told: Told, out: &mut O) -> Option<Outcome>
    ensures done { result ≡ None → is_done told.outcome ≡ true }
    ensures same { result ≡ None → out.new ≡ out.old }
    ensures not_done { OnSome result (is_done told.outcome ≡ false) }
    ensures ends { IfSome result (IsTold told.outcome (written told) (use_of_sink O.Sink out.old out.new)) }
    ensures later { O.faults out.old ≤ O.faults out.new }
{
    if is_done(&told.outcome) {
        return None;
    }
    Some(told.tell_alone(out))
}

/// Writes what is told of a line: `None` where the next one is done, else how the lines end.
pub fn tell_line<O: Sink>(told: Told, manner: Manner, out: &mut O) -> Option<Outcome>
    ensures goes { result ≡ None → leads_on manner told.outcome ≡ true }
    ensures whole { result ≡ None → O.tells → O.taken out.new ≡ O.taken out.old ++ told_by manner told }
    ensures ends { IfSome result (IsStoppedBy manner told.outcome (told_by manner told)
        (use_of_sink O.Sink out.old out.new)) }
    ensures later { O.faults out.old ≤ O.faults out.new }
{
    match manner {
        Manner::Script => told.tell(out),
        Manner::Plan => tell_act(told, out),
        Manner::Generator => tell_unless_done(told, out),
    }
}
