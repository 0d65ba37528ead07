// A script, from its first line to its end.
ghost use Rattle.std.specs.Prelude.{◌≡◌, ◌≢◌, ◌≤◌, true, false};
ghost use Rattle.ae_base.specs.declared.outcome.Outcome.TheVariants.{BadWords};
ghost use Rattle.ae_telling.specs.Telling.{use_of_sink, IsToldOrMemory};
ghost use Rattle.ae_script.specs.Lines.{stand};
ghost use Rattle.ae_script.specs.Step.{may_give};
ghost use Rattle.ae_script.specs.declared.manner.Manner.TheVariants.{Script};
ghost use Rattle.ae_script.specs.Ends.{ScriptDone};
ghost use Rattle.ae_script.specs.Uses.{use_of_source, disks, sites};

use crate::doing::{Standing, do_line, tell_line};
use crate::manner::Manner;
use ae_base::limits::LAST_MOMENT;
use ae_base::{Outcome, User};
use ae_lines::read_line;
use ae_outside::{Disk, Sink, Site, Source};
use ae_reader::{LineError, LineReader};
use ae_telling::{tell_bad_line, tell_bad_words, tell_input_fault, tell_memory};
use std::alloc::Global;

/// Does the lines of the input one after another, from where they stand: commands of this user at this moment, until the lines
/// name others.
pub fn do_lines<D: Disk, S: Site, I: Source, O: Sink>(
    alloc: Global,
    manner: Manner,
    standing: Standing,
    disk: &mut D,
    site: &mut S,
    input: &mut I,
    out: &mut O,
) -> Outcome
    // Each line that was done goes on from where the one before it led, whatever the disk holds, and the lines are those of the
    // input. What is written of each was taken whole before the next one began. Where the disk holds legal logs, they are steps
    // of the log machine.
    ensures done { let d = disks D.Disk in let s = sites S.Site in
        ScriptDone d s manner (stand d s standing.who standing.now disk.old site.old) disk.new site.new
        (use_of_source I.Source input.old input.new) (use_of_sink O.Sink out.old out.new) result }
    // Unless it ends with the input's fault the input met none: after the first one no more is read.
    ensures quiet { result ≢ Outcome.SourceFault → I.faults input.new ≡ I.faults input.old }
    ensures input_faults { I.faults input.old ≤ I.faults input.new }
    ensures out_faults { O.faults out.old ≤ O.faults out.new }
{
    let mut reader = match LineReader::new(alloc) {
        Ok(reader) => reader,
        Err(_) => return tell_memory(out),
    };
    let mut standing = standing;
    let mut count: u32 = 0;
    loop {
        let text = match reader.next_line(alloc, input) {
            Ok(Some(text)) => text,
            Ok(None) => return Outcome::Done,
            Err(LineError::TooLong) => return tell_bad_line(alloc, count + 1, out),
            Err(LineError::Failed) => return tell_input_fault(out),
            Err(LineError::Memory) => return tell_memory(out),
        };
        let line = match read_line(alloc, &text) {
            Ok(Some(line)) => line,
            Ok(None) => return tell_bad_line(alloc, count + 1, out),
            Err(_) => return tell_memory(out),
        };
        let told = do_line(alloc, line, manner, &mut standing, disk, site);
        if let Some(outcome) = tell_line(told, manner, out) {
            return outcome;
        }
        count += 1;
    }
}

/// Does a script: the lines of the input one after another, each command by this user and at this moment until the script names
/// others. Everything is written to `out`. It ends at the first line that isn't understood, the first fault, and where memory
/// runs out.
pub fn run_script<D: Disk, S: Site, I: Source, O: Sink>(
    alloc: Global,
    who: &str,
    now: u64,
    disk: &mut D,
    site: &mut S,
    input: &mut I,
    out: &mut O,
) -> Outcome
    // The lines of the input are done as `do_lines` says.
    ensures done { may_give who.now now ≡ true → let d = disks D.Disk in let s = sites S.Site in
        ScriptDone d s Script (stand d s who.now now disk.old site.old) disk.new site.new
        (use_of_source I.Source input.old input.new) (use_of_sink O.Sink out.old out.new) result }
    // A user that is none, or a moment that is too late: nothing is called but the sink.
    ensures nobody { may_give who.now now ≡ false → (disk.new ≡ disk.old) × (site.new ≡ site.old) ×
        (input.new ≡ input.old) × IsToldOrMemory (BadWords 0) (use_of_sink O.Sink out.old out.new) result }
    ensures quiet { result ≢ Outcome.SourceFault → I.faults input.new ≡ I.faults input.old }
    ensures input_faults { I.faults input.old ≤ I.faults input.new }
    ensures out_faults { O.faults out.old ≤ O.faults out.new }
{
    let who = match User::read(alloc, who.as_bytes()) {
        Ok(Some(who)) => who,
        Ok(None) => return tell_bad_words(alloc, 0, out),
        Err(_) => return tell_memory(out),
    };
    if now > LAST_MOMENT {
        return tell_bad_words(alloc, 0, out);
    }
    let standing = Standing { who, now };
    do_lines(alloc, Manner::Script, standing, disk, site, input, out)
}
