//! The program: the real directories, files and streams, and what is done with them.
#![tactic(auto)]

mod calling;
mod help;
mod help_of;
mod help_of_other;
mod installed;

use ae_base::Outcome;
use ae_branch_words::{Rest, branch_words};
use ae_system::{
    Access, Course, Home, Manner, Quiet, Reading, RealDisk, RealSite, Removals, Store, Trouble,
    Writing, descriptors, who,
};
use ae_words::{Function, first_function};
use calling::top;
use help::{Question, usage_of};
use std::cell::RefCell;
use std::io;
use std::io::{ErrorKind, IsTerminal, Write};
use std::process::ExitCode;

// The words aren't understood.
const BAD_WORDS: u8 = 2;

// So often a call is made at most, where it is to be made again: some of these have waited for a directory.
const MOST_TURNS: u32 = 100;

// Standard output doesn't take what is said.
const NOT_SAID: u8 = 5;

// There is no memory to begin with.
const NO_MEMORY: u8 = 8;

// Says that there is no memory, where that can be said.
fn starved(rt: &HostRuntime) -> ExitCode {
    rt.stderr().write_all(b"aegis: out of memory\n").ok();
    ExitCode::from(NO_MEMORY)
}

// Answers what the program is asked of itself.
fn answer(rt: &HostRuntime, question: Question) -> io::Result<()> {
    let mut out = rt.stdout();
    out.write_all(question.answer().as_bytes())?;
    if question != Question::Version {
        return Ok(());
    }
    match installed::commit(rt) {
        Ok(commit) => out.write_all(commit.as_bytes()),
        Err(_) => Ok(()),
    }
}

// Says after the message how the command is written whose words aren't understood, on a terminal alone.
fn tell_usage(rt: &HostRuntime, words: &[String], outcome: &Outcome) {
    if !matches!(outcome, Outcome::BadWords(1..)) || !rt.stderr().is_terminal() {
        return;
    }
    let usage = usage_of(words).unwrap_or("-FUNCTION WORD.., and aegis -Help lists the functions");
    rt.eprintln(format_args!("usage: aegis {usage}")).ok();
}

// Removes what the command has moved away, now that it has said what it did and let the locks go.
fn end_removals(rt: &HostRuntime, removals: &RefCell<Removals>) {
    if let Ok(mut removals) = removals.try_borrow_mut() {
        removals.end(rt, rt.alloc());
    }
}

// Says of a device why its last call failed that did, where one did.
fn tell(rt: &impl Eprint, device: &str, trouble: Option<&Trouble>) {
    if let Some(trouble) = trouble {
        rt.eprintln(format_args!("aegis: {device}: {trouble}")).ok();
    }
}

// What a command of these words does with its store: an audit only reads it, and what shows something promises nothing of a stop.
fn access(words: &[String]) -> Access {
    match first_function(words) {
        Some(Function::Audit) => Access::Reading,
        Some(Function::List | Function::Report | Function::DistributionSend) => Access::Listing,
        _ => Access::Alone,
    }
}

// How a command of these words comes by what it shares with others. What reads its input can't be made again.
fn manner(rt: &HostRuntime, words: &[String]) -> Manner {
    match first_function(words) {
        Some(Function::Build | Function::Test) => Manner::Running,
        Some(Function::Script) if who::waits_for_no_run(rt) => Manner::Records,
        Some(Function::Script | Function::Generate) => Manner::Script,
        None
        | Some(
            Function::Audit
            | Function::List
            | Function::Report
            | Function::DistributionSend
            | Function::DistributionReceive,
        ) => Manner::Once,
        Some(_) => Manner::Single,
    }
}

// Where a call works: in the project, or in this branch of it, or between the two; and what it does with its store.
#[derive(Clone, Copy)]
struct Where<'a> {
    branch: Home<'a>,
    is_between: bool,
    access: Access,
}

// Takes the lock of the trunk before a call between it and a branch asks for that of the branch, so that no two of them wait for each
// other. Where it can't be taken, neither is waited for any more.
fn take_trunk_first(trunk: &RefCell<Store<'_, HostRuntime>>, course: &Course) {
    if let Ok(mut trunk) = trunk.try_borrow_mut() {
        if !trunk.take_first() {
            course.hurry();
        }
    }
}

// Says why folders aren't held, where they aren't.
fn tell_of_places(rt: &HostRuntime) {
    if let Ok(false) = descriptors::are_shown(rt, rt.alloc()) {
        let why = "the system shows no descriptors (/proc), so folders are reached by their places";
        rt.eprintln(format_args!("aegis: directory: {why}")).ok();
    }
}

// Makes one call, with the real devices: those of the project, and those of this branch of it.
fn call<'x>(
    rt: &'x HostRuntime,
    words: &[String],
    who: &str,
    place: Where<'x>,
    course: &'x Course,
    removals: &'x RefCell<Removals>,
) -> Outcome {
    let alloc = rt.alloc();
    let trunk_store = RefCell::new(Store::new(rt, alloc, Home::Trunk, place.access, course));
    let store = RefCell::new(Store::new(rt, alloc, place.branch, place.access, course));
    if place.is_between {
        take_trunk_first(&trunk_store, course);
    }
    let mut trunk = RealDisk::new(&trunk_store);
    let mut trunk_site = RealSite::new(rt, alloc, Home::Trunk, &trunk_store, course, removals);
    let mut disk = RealDisk::new(&store);
    let mut site = RealSite::new(rt, alloc, place.branch, &store, course, removals);
    let mut input = Reading::new(rt.stdin());
    let mut output = Writing::new(rt.stdout());
    let mut errors = Quiet::new(Writing::new(rt.stderr()), course);
    let outcome = top(
        alloc,
        words,
        who,
        who::moment(rt),
        &mut trunk,
        &mut trunk_site,
        &mut disk,
        &mut site,
        &mut input,
        &mut output,
        &mut errors,
    );
    if who::is_traced(rt) && !course.is_lost() {
        tell_of_places(rt);
        tell(rt, "disk", trunk.trouble());
        tell(rt, "disk", disk.trouble());
        tell(rt, "directory", trunk_site.trouble());
        tell(rt, "directory", site.trouble());
        tell(rt, "input", input.trouble());
        tell(rt, "output", output.trouble());
        tell(rt, "error", errors.trouble());
    }
    outcome
}

// Does what the words ask for. A call is made again from the start where what it had read has changed while it had let the lock go, or
// where it has waited for a directory.
fn work_at(
    rt: &HostRuntime,
    words: &[String],
    who: &str,
    place: Where,
    manner: Manner,
    removals: &RefCell<Removals>,
) -> Outcome {
    let patience = who::patience(rt, rt.stderr().is_terminal());
    let course = Course::new(rt.alloc(), manner, patience, who::now(rt));
    for _ in 1..MOST_TURNS {
        let outcome = call(rt, words, who, place, &course, removals);
        if !course.begin_again() {
            return outcome;
        }
    }
    course.hold_on();
    call(rt, words, who, place, &course, removals)
}

// Does what the words ask for.
fn work(rt: &HostRuntime, words: &[String], who: &str, removals: &RefCell<Removals>) -> Outcome {
    match (branch_words(rt.alloc(), words), words) {
        (Ok(Some(said)), [_, _, command @ ..]) => {
            let is_between = said.rest != Rest::Plain;
            let place = Where {
                branch: Home::Branch(&said.name),
                is_between,
                access: access(command),
            };
            let manner = if is_between {
                Manner::Once
            } else {
                manner(rt, command)
            };
            work_at(rt, words, who, place, manner, removals)
        }
        _ => {
            let place = Where {
                branch: Home::Nowhere,
                is_between: false,
                access: access(words),
            };
            work_at(rt, words, who, place, manner(rt, words), removals)
        }
    }
}

fn main(rt: HostRuntime) -> ExitCode {
    if descriptors::fill(&rt).is_err() {
        return ExitCode::from(NOT_SAID);
    }
    let words = match who::words(&rt) {
        Ok(words) => words,
        Err(e) if e.kind() == ErrorKind::OutOfMemory => return starved(&rt),
        Err(_) => {
            rt.stderr().write_all(b"aegis: a word is not UTF-8\n").ok();
            return ExitCode::from(BAD_WORDS);
        }
    };
    if let Some(question) = Question::read(words.as_slice()) {
        return match answer(&rt, question) {
            Ok(()) => ExitCode::SUCCESS,
            Err(_) => ExitCode::from(NOT_SAID),
        };
    }
    let Ok(who) = who::user(&rt) else {
        return starved(&rt);
    };
    let removals = RefCell::new(Removals::none(rt.alloc()));
    let outcome = work(&rt, words.as_slice(), who.as_str(), &removals);
    tell_usage(&rt, words.as_slice(), &outcome);
    end_removals(&rt, &removals);
    ExitCode::from(outcome.status())
}
