// The locks besides that of the store: of directories, so that no two commands run in one, or change one, at once; and of runs, so that a
// script, which holds the store's lock to its end, waits until none is under way. Their files lie in the folder `locks` of the
// project's own: empty ones, which are made when they are first needed and never removed.
use crate::folder::{Folder, Inside};
use crate::home::Home;
use crate::lock::{Lock, Patience, Place, Share, ask, is_without_locks, take_lock};
use crate::places::refused;
use std::alloc::Global;
use std::fs::File;
use std::io;
use std::rt::{Clock, Files};

// The folder of the locks.
const NAME: &str = "locks";

// The lock that runs share which have let the store's lock go, and that a script holds alone.
const RUNS: &str = "runs";

// Who asks for that one holds this one meanwhile, so that no run overtakes a script that waits.
const NEXT: &str = "runs.next";

// What is said of who has them.
const OF_DIRECTORY: &str = "another command works in this directory";

const OF_RUNS: &str = "another command runs something in this project";

// A lock that was taken: the place of what it is of, the folder that its file is in, and its name there. Some file systems have no locks.
#[derive(Drop)]
struct Held {
    place: String,
    folder: Folder,
    name: String,
    lock: Option<Lock>,
}

/// The locks that this process has, until this is dropped.
#[derive(Drop)]
pub struct Taken {
    held: Vec<Held>,
}

// Opens the folder of the locks, or has it there.
fn open_locks<R: Files<File = File> + Alloc + Clone + Drop>(
    files: &R,
    alloc: Global,
    home: Home,
) -> io::Result<Folder> {
    match home.open(files, alloc, false)? {
        Inside::Folder(home) => home.make(files, alloc, NAME),
        Inside::Other(_) => Err(refused()),
    }
}

// Whether this folder is still the one of the locks.
fn is_folder_of_locks<R: Files<File = File> + Alloc + Clone + Drop>(
    files: &R,
    alloc: Global,
    home: Home,
    folder: &Folder,
) -> io::Result<bool> {
    match home.open(files, alloc, false)? {
        Inside::Folder(home) => home.has(files, alloc, folder.node(), NAME),
        Inside::Other(_) => Ok(false),
    }
}

// The place that stands for the runs of a project.
fn place_of_runs(alloc: Global, home: Home) -> io::Result<String> {
    let home = home.folder(alloc)?;
    Ok(format!(in alloc; "{home}/{RUNS}")?)
}

impl Taken {
    /// None yet.
    pub fn none(alloc: Global) -> Taken {
        Taken {
            held: Vec::new(alloc),
        }
    }

    // The lock of this place, where it was taken.
    fn find(&self, place: &str) -> Option<&Held> {
        self.held.iter().find(|held| held.place.as_str() == place)
    }

    /// Whether the lock of this place was taken, there are locks on its file system, and it still is the file of its name.
    pub fn holds<R: Files<File = File> + Alloc + Clone + Drop>(
        &self,
        files: &R,
        alloc: Global,
        home: Home,
        place: &str,
    ) -> io::Result<bool> {
        match self.find(place) {
            Some(
                Held {
                    lock: Some(lock),
                    folder,
                    name,
                    ..
                },
            ) => Ok(
                is_folder_of_locks(files, alloc, home, folder)?
                    && lock.has_name(files, alloc, folder, name.as_str())?,
            ),
            _ => Ok(false),
        }
    }

    // Notes what came of asking for a lock.
    fn keep(
        &mut self,
        alloc: Global,
        place: &str,
        folder: Folder,
        name: &str,
        asked: io::Result<Lock>,
    ) -> io::Result<()> {
        let lock = match asked {
            Ok(lock) => Some(lock),
            Err(e) if is_without_locks(&e) => None,
            Err(e) => return Err(e),
        };
        let place = String::from_str(alloc, place)?;
        let name = String::from_str(alloc, name)?;
        self.held.push(Held {
            place,
            folder,
            name,
            lock,
        })?;
        Ok(())
    }

    /// Takes the lock of the directory at a place of the project. While another process has it, it is asked for again until the
    /// patience ends; then it fails.
    pub fn take<R: Files<File = File> + Alloc + Clone + Drop + Clock + Eprint>(
        &mut self,
        rt: &R,
        alloc: Global,
        home: Home,
        place: &str,
        patience: &Patience,
    ) -> io::Result<()> {
        if self.find(place).is_some() {
            return Ok(());
        }
        let Some((_, name)) = place.rsplit_once('/') else {
            return Err(refused());
        };
        let folder = open_locks(rt, alloc, home)?;
        let file = Place {
            folder: &folder,
            name,
            what: OF_DIRECTORY,
        };
        let asked = take_lock(rt, alloc, file, Share::Alone, patience);
        self.keep(alloc, place, folder, name, asked)
    }

    /// Shares the lock of runs, where no script has it or waits for it. It is asked for once. Answers whether there are locks.
    pub fn share_runs<R: Files<File = File> + Alloc + Clone + Drop>(
        &mut self,
        files: &R,
        alloc: Global,
        home: Home,
    ) -> io::Result<bool> {
        let place = place_of_runs(alloc, home)?;
        if self.find(place.as_str()).is_none() {
            let folder = open_locks(files, alloc, home)?;
            let asked = ask_for_runs(files, alloc, &folder);
            self.keep(alloc, place.as_str(), folder, RUNS, asked)?;
        }
        self.holds(files, alloc, home, place.as_str())
    }

    /// Takes the lock of runs alone. While others have it, it is asked for again until the patience ends; then it fails.
    pub fn take_runs<R: Files<File = File> + Alloc + Clone + Drop + Clock + Eprint>(
        &mut self,
        rt: &R,
        alloc: Global,
        home: Home,
        patience: &Patience,
    ) -> io::Result<()> {
        let place = place_of_runs(alloc, home)?;
        if self.find(place.as_str()).is_some() {
            return Ok(());
        }
        let folder = open_locks(rt, alloc, home)?;
        let asked = wait_for_runs(rt, alloc, &folder, patience);
        self.keep(alloc, place.as_str(), folder, RUNS, asked)
    }
}

// The file of a lock of runs.
fn of_runs<'f>(folder: &'f Folder, name: &'f str) -> Place<'f> {
    Place {
        folder,
        name,
        what: OF_RUNS,
    }
}

fn ask_for_runs<R: Files<File = File>>(
    files: &R,
    alloc: Global,
    locks: &Folder,
) -> io::Result<Lock> {
    let next = ask(files, alloc, of_runs(locks, NEXT), Share::Alone)?;
    let asked = ask(files, alloc, of_runs(locks, RUNS), Share::Shared);
    drop(next);
    asked
}

fn wait_for_runs<R: Files<File = File> + Clock + Eprint>(
    rt: &R,
    alloc: Global,
    locks: &Folder,
    patience: &Patience,
) -> io::Result<Lock> {
    let next = take_lock(rt, alloc, of_runs(locks, NEXT), Share::Alone, patience)?;
    let asked = take_lock(rt, alloc, of_runs(locks, RUNS), Share::Alone, patience);
    drop(next);
    asked
}
