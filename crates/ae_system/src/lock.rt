// Files that are locked, which one process at a time holds alone, or several of them share.
use crate::folder::{Folder, Kind, Opened};
use crate::holder::holder;
use crate::places::{Node, node_of, seen_at};
use std::alloc::Global;
use std::cell::Cell;
use std::fs::File;
use std::io::ErrorKind;
use std::rt::{Clock, Files};
use std::time::Duration;
use std::{io, thread};

// So often the lock is asked for where another file was put in its place.
const TRIES: u32 = 3;

// So often a second it is asked for where another process holds it.
const TURNS_A_SECOND: u64 = 20;

// So long is between one time and the next.
const MILLISECONDS: u64 = 50;

// What the system says where a file can't be locked: of a descriptor, of a call, and of an operation that it doesn't know there.
const NO_LOCKS: [i32; 3] = [9, 22, 95];

/// What is left of the time that others are waited for, and whether that is said after the first second of a wait.
#[derive(Drop)]
pub struct Patience {
    turns: Cell<u64>,
    says: bool,
}

impl Patience {
    /// So many seconds.
    pub fn new(seconds: u32, says: bool) -> Patience {
        Patience {
            turns: Cell::new(u64::from(seconds) * TURNS_A_SECOND),
            says,
        }
    }

    /// As long as it takes.
    pub fn without_end(&self) -> Patience {
        Patience {
            turns: Cell::new(u64::MAX),
            says: self.says,
        }
    }

    /// Whether what is waited for is said.
    pub fn says(&self) -> bool {
        self.says
    }

    /// From now on nothing is waited for.
    pub fn end(&self) {
        self.turns.set(0);
    }

    // Waits for one turn, which is the one of that number in this wait, and says what is waited for after a second of turns.
    fn wait<R: Files<File = File> + Clock + Eprint>(
        &self,
        rt: &R,
        alloc: Global,
        turn: u64,
        place: Place,
    ) {
        if self.says && turn == TURNS_A_SECOND {
            say(rt, alloc, place);
        }
        self.turns.set(self.turns.get().saturating_sub(1));
        thread::sleep(rt, Duration::from_millis(MILLISECONDS));
    }
}

/// Who may hold a lock at one time.
#[derive(Clone, Copy, Debug, PartialEq, Eq)]
pub enum Share {
    /// One process.
    Alone,
    /// All that ask for it so.
    Shared,
}

/// The file that is locked: the folder that it is in, its name there, and what is said where it is waited for.
#[derive(Clone, Copy)]
pub struct Place<'f> {
    pub folder: &'f Folder,
    pub name: &'f str,
    pub what: &'f str,
}

// Who holds the lock at a place, where the system shows it.
fn holder_at(files: &impl Files<File = File>, alloc: Global, place: Place) -> io::Result<String> {
    let file = place.folder.place(alloc, place.name)?;
    match seen_at(files, file.as_str())? {
        Some(there) => holder(files, alloc, node_of(&there)),
        None => Err(io::Error::from(ErrorKind::NotFound)),
    }
}

// Says what is waited for.
fn say<R: Files<File = File> + Eprint>(rt: &R, alloc: Global, place: Place) {
    let what = place.what;
    match holder_at(rt, alloc, place) {
        Ok(holder) => rt
            .eprintln(format_args!("aegis: {what}; waiting for it ({holder})"))
            .ok(),
        Err(_) => rt
            .eprintln(format_args!("aegis: {what}; waiting for it"))
            .ok(),
    };
}

/// A lock that is held, which ends where this is dropped.
#[derive(Drop)]
pub struct Lock {
    _file: File,
    node: Node,
}

impl Lock {
    /// Whether the lock that is held is still the file of its name in this folder.
    pub fn has_name(
        &self,
        files: &impl Files,
        alloc: Global,
        folder: &Folder,
        name: &str,
    ) -> io::Result<bool> {
        folder.has(files, alloc, self.node, name)
    }
}

/// Whether a lock can't be had since there are none on that file system.
pub fn is_without_locks(error: &io::Error) -> bool {
    matches!(error.raw_os_error(), Some(number) if NO_LOCKS.contains(&number))
}

// Opens the file of a lock, and makes it where it isn't there. It may be made by another process meanwhile. One that is there keeps
// the mode that it has. Where it may not be written, reading it is enough to hold it.
fn open_lock<R: Files<File = File>>(files: &R, alloc: Global, place: Place) -> io::Result<Opened> {
    let folder = place.folder;
    if let Some(opened) = folder.open_to_read(files, alloc, place.name)? {
        return Ok(opened);
    }
    match folder.make_file(files, alloc, place.name, Kind::Lock) {
        Ok(_) => {}
        Err(e) if e.kind() == ErrorKind::AlreadyExists => {}
        Err(e) => return Err(e),
    }
    match folder.open_to_read(files, alloc, place.name)? {
        Some(opened) => Ok(opened),
        None => Err(io::Error::from(ErrorKind::NotFound)),
    }
}

/// Asks for a lock once. A file that lost the name before it was locked keeps no other process out, so it is asked for again.
pub fn ask<R: Files<File = File>>(
    files: &R,
    alloc: Global,
    place: Place,
    share: Share,
) -> io::Result<Lock> {
    for _ in 0..TRIES {
        let opened = open_lock(files, alloc, place)?;
        match share {
            Share::Alone => opened.file.try_lock()?,
            Share::Shared => opened.file.try_lock_shared()?,
        }
        let lock = Lock {
            node: opened.node,
            _file: opened.file,
        };
        if lock.has_name(files, alloc, place.folder, place.name)? {
            return Ok(lock);
        }
    }
    Err(io::Error::from(ErrorKind::NotFound))
}

/// Takes a lock. While another process holds it, it is asked for again until the patience ends; then it fails.
pub fn take_lock<R: Files<File = File> + Clock + Eprint>(
    rt: &R,
    alloc: Global,
    place: Place,
    share: Share,
    patience: &Patience,
) -> io::Result<Lock> {
    for turn in 0..patience.turns.get() {
        match ask(rt, alloc, place, share) {
            Err(e) if e.kind() == ErrorKind::WouldBlock => {}
            asked => return asked,
        }
        patience.wait(rt, alloc, turn, place);
    }
    ask(rt, alloc, place, share)
}
