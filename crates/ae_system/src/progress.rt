// What is said on a terminal while something runs: the lines that it writes, as they come, and how long it has run.
use crate::shown::Shown;
use crate::who::moment;
use std::fs::File;
use std::os::unix::fs::FileExt;
use std::process::{Command, ExitStatus, Processes};
use std::rt::Clock;
use std::time::Duration;
use std::{io, thread};

// So many seconds are past when it's said first how long it has run.
const FIRST: u64 = 10;

// And then after each so many.
const EACH: u64 = 60;

// So many milliseconds it's waited at most before it's looked again whether the run has ended.
const LONGEST: u64 = 100;

// So many bytes are read at once. A line that is longer is cut.
const PIECE: usize = 4096;

// For how many seconds it is to be said that something runs, once it has run for so many.
fn due(seconds: u64) -> u64 {
    if seconds >= EACH {
        seconds - seconds % EACH
    } else if seconds >= FIRST {
        FIRST
    } else {
        0
    }
}

// How many bytes of a piece may be said: up to the end of its last line; all where it has none, and is full or the last.
fn ready(piece: &[u8], is_last: bool) -> usize {
    match piece.iter().rposition(|byte| *byte == b'\n') {
        Some(place) => place.saturating_add(1),
        None if is_last || piece.len() == PIECE => piece.len(),
        None => 0,
    }
}

// The log of a run, and how much of it needs not to be said any more.
#[derive(Drop)]
struct Lines<'a> {
    log: &'a File,
    said: u64,
}

impl<'a> Lines<'a> {
    // What is written to the log from now on.
    fn after(log: &'a File) -> io::Result<Lines<'a>> {
        let said = log.metadata()?.len();
        Ok(Lines { log, said })
    }

    // Says the lines of the next piece. Answers whether it had any.
    fn say_piece(&mut self, rt: &impl Eprint, is_last: bool) -> io::Result<bool> {
        let mut piece = [0; PIECE];
        let count = self.log.read_at(&mut piece, self.said)?;
        let piece = piece.get(..count).unwrap_or(&[]);
        let lines = piece.get(..ready(piece, is_last)).unwrap_or(&[]);
        if lines.is_empty() {
            return Ok(false);
        }
        self.said = self.said.saturating_add(lines.len() as u64);
        let text = lines.strip_suffix(b"\n").unwrap_or(lines);
        rt.eprintln(Shown(text))?;
        Ok(true)
    }

    // Says the lines that are new. One that isn't whole yet is said where the run has ended.
    fn say_new(&mut self, rt: &impl Eprint, is_over: bool) -> io::Result<()> {
        let end = self.log.metadata()?.len();
        for _ in self.said..end {
            if self.said >= end || !self.say_piece(rt, is_over)? {
                return Ok(());
            }
        }
        Ok(())
    }
}

/// Runs a command at a place to its end. Says the lines that it writes to its log, and from time to time how long it has run.
pub fn run_to_end<R: Processes + Clock + Eprint>(
    rt: &R,
    shell: &mut Command,
    place: &str,
    log: &File,
) -> io::Result<ExitStatus> {
    let mut lines = Lines::after(log)?;
    let mut child = shell.spawn(rt)?;
    let began = moment(rt);
    let mut said = 0;
    for turn in 0..u64::MAX {
        let ended = child.try_wait()?;
        lines.say_new(rt, ended.is_some()).ok();
        if let Some(status) = ended {
            return Ok(status);
        }
        let seconds = due(moment(rt).saturating_sub(began));
        if seconds > said {
            rt.eprintln(format_args!("aegis: {place}: it has run for {seconds} s"))
                .ok();
            said = seconds;
        }
        thread::sleep(rt, Duration::from_millis(turn.min(LONGEST)));
    }
    child.wait()
}
