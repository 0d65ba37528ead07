// Removing a folder with all that is below it. While a command holds the lock it's only moved into another one, the heap, in one step.
// Once the lock is let go each folder below is moved there, too, to be emptied. So others wait for one step, the work grows with what
// there is and not with how deep it is, and a folder on which another file system is mounted, which can't be moved, isn't emptied.
use crate::folder::{Folder, Inside};
use crate::places::{Found, refused};
use std::alloc::Global;
use std::fs::File;
use std::io::ErrorKind;
use std::rt::Files;
use std::{fs, io};

// The name of the heap in the project's folder, and, with numbers, of those that are made where it can't be used.
const HEAP: &str = "heap";

// So many names of heaps are tried.
const HEAPS: u32 = 16;

// So many names are tried: for a part of the heap, and for what can't be removed.
const NAMES: u32 = 1000;

// So many folders are moved into a part of the heap at most.
const MOST_FOLDERS: u64 = 1 << 40;

// So many folders of a command wait to be removed at most.
const MOST_WAITING: usize = 16;

// The folder that is removed has this name in its part of the heap.
const FIRST: &str = "0";

// A part of the heap, and how many folders were moved into it. While it's locked no other process takes it; some file systems have no
// locks on folders.
#[derive(Drop)]
struct Part {
    name: String,
    folder: Folder,
    is_locked: bool,
    count: u64,
}

impl Part {
    // Moves a folder of another folder into it.
    fn take_in(
        &mut self,
        files: &impl Files,
        alloc: Global,
        from: &Folder,
        name: &str,
    ) -> io::Result<()> {
        let number = self.count;
        let place = format!(in alloc; "{number}")?;
        from.rename(files, alloc, name, &self.folder, place.as_str())?;
        self.count = number.saturating_add(1);
        Ok(())
    }

    // Takes one thing out of a folder: removes it, or moves it into this part.
    fn take_out<R: Files<File = File>>(
        &mut self,
        files: &R,
        alloc: Global,
        folder: &Folder,
        name: &str,
    ) -> io::Result<()> {
        if folder.look(files, alloc, name)? != Found::Folder {
            return folder.remove_file(files, alloc, name);
        }
        if folder.remove_folder(files, alloc, name).is_ok() {
            return Ok(());
        }
        self.take_in(files, alloc, folder, name)
    }

    // Empties a folder of this part, and removes it. What has a name that is no text can't be reached, and stays with all that is in it.
    fn remove<R: Files<File = File> + Alloc + Clone + Drop>(
        &mut self,
        files: &R,
        alloc: Global,
        name: &str,
    ) -> io::Result<()> {
        let Inside::Folder(folder) = self.folder.open(files, alloc, name)? else {
            return Err(refused());
        };
        if folder.node().device != self.folder.node().device {
            return Err(refused());
        }
        let mut has_odd_name = false;
        for entry in fs::read_dir(files, folder.way(alloc)?)? {
            match entry {
                Ok(entry) => self.take_out(files, alloc, &folder, entry.file_name())?,
                Err(e) if e.kind() == ErrorKind::InvalidFilename => has_odd_name = true,
                Err(e) => return Err(e),
            }
        }
        if has_odd_name {
            return Err(refused());
        }
        self.folder.remove_folder(files, alloc, name)
    }

    // Empties each folder that was moved into it. What can't be emptied stays.
    fn drain<R: Files<File = File> + Alloc + Clone + Drop>(
        &mut self,
        files: &R,
        alloc: Global,
    ) -> io::Result<()> {
        for number in 0..MOST_FOLDERS {
            if number >= self.count {
                return Ok(());
            }
            let name = format!(in alloc; "{number}")?;
            self.remove(files, alloc, name.as_str()).ok();
        }
        Ok(())
    }
}

// The name that a folder had whose part of the heap has this name.
fn name_of_removed(part: &str) -> &str {
    part.rsplit_once('.').map_or(part, |parts| parts.0)
}

// Makes a part of the heap for a folder of that name, and locks it. Another process may have taken it for one that a stop left before it
// was locked.
fn make_part<R: Files<File = File> + Alloc + Clone + Drop>(
    files: &R,
    alloc: Global,
    heap: &Folder,
    name: &str,
) -> io::Result<Part> {
    for number in 0..NAMES {
        let name = format!(in alloc; "{name}.{number}")?;
        let folder = match heap.make_new(files, alloc, name.as_str()) {
            Err(e) if e.kind() == ErrorKind::AlreadyExists => continue,
            made => made?,
        };
        let locked = folder.try_lock();
        if heap.has(files, alloc, folder.node(), name.as_str())? && !is_held(&locked) {
            return Ok(Part {
                name,
                folder,
                is_locked: locked.is_ok(),
                count: 0,
            });
        }
    }
    Err(io::Error::from(ErrorKind::AlreadyExists))
}

// Whether another process holds a lock that was asked for.
fn is_held(locked: &io::Result<()>) -> bool {
    matches!(locked, Err(e) if e.kind() == ErrorKind::WouldBlock)
}

/// A folder that was moved into a part of the heap, and waits to be removed.
#[derive(Drop)]
pub struct Removal {
    home: Folder,
    // The name of the heap.
    place: String,
    heap: Folder,
    part: Part,
}

impl Removal {
    // Has a heap of that name in the project's folder, and makes a part of it for a folder.
    fn begin_in<R: Files<File = File> + Alloc + Clone + Drop>(
        files: &R,
        alloc: Global,
        home: &Folder,
        place: &str,
        name: &str,
    ) -> io::Result<Removal> {
        let heap = home.make(files, alloc, place)?;
        let part = make_part(files, alloc, &heap, name)?;
        let Inside::Folder(home) = home.open(files, alloc, ".")? else {
            return Err(refused());
        };
        let place = String::from_str(alloc, place)?;
        Ok(Removal {
            home,
            place,
            heap,
            part,
        })
    }

    // The same in the first heap that can be used. One that somebody else made, or that another process has just removed, may not be.
    fn begin<R: Files<File = File> + Alloc + Clone + Drop>(
        files: &R,
        alloc: Global,
        home: &Folder,
        name: &str,
    ) -> io::Result<Removal> {
        let mut place = String::from_str(alloc, HEAP)?;
        for number in 1..HEAPS {
            if let Ok(begun) = Removal::begin_in(files, alloc, home, place.as_str(), name) {
                return Ok(begun);
            }
            place = format!(in alloc; "{HEAP}.{number}")?;
        }
        Removal::begin_in(files, alloc, home, place.as_str(), name)
    }

    // Moves what is left in its part out of the heap, by names of the folder that was to be removed.
    fn give_back<R: Files<File = File> + Alloc + Clone + Drop>(
        &self,
        files: &R,
        alloc: Global,
    ) -> io::Result<()> {
        let part = self.part.name.as_str();
        let name = name_of_removed(part);
        if self.heap.remove_folder(files, alloc, part).is_ok() {
            return Ok(());
        }
        if self.part.folder.look(files, alloc, FIRST)? == Found::Folder {
            rename_away(files, alloc, (&self.part.folder, FIRST), &self.home, name)?;
        }
        if self.heap.remove_folder(files, alloc, part).is_ok() {
            return Ok(());
        }
        rename_away(files, alloc, (&self.heap, part), &self.home, name)
    }

    // Moves a folder out of the project's folder into a part of the heap, in one step. It fails where the folder can't be moved.
    fn move_away<R: Files<File = File> + Alloc + Clone + Drop>(
        files: &R,
        alloc: Global,
        home: &Folder,
        name: &str,
    ) -> io::Result<Removal> {
        let mut removal = Removal::begin(files, alloc, home, name)?;
        match removal.part.take_in(files, alloc, home, name) {
            Ok(()) => Ok(removal),
            Err(e) => {
                removal.end(files, alloc).ok();
                Err(e)
            }
        }
    }

    /// Gives the folder that was moved away its name again.
    pub fn put_back<R: Files<File = File> + Alloc + Clone + Drop>(
        mut self,
        files: &R,
        alloc: Global,
    ) -> io::Result<()> {
        let name = name_of_removed(self.part.name.as_str());
        self.part
            .folder
            .rename(files, alloc, FIRST, &self.home, name)?;
        self.end(files, alloc)
    }

    // Removes what was moved into its part, and that. What can't be removed, as where a file system is mounted, is given another name in
    // the project's folder, with a number. The heap goes where nothing else is in it.
    fn end<R: Files<File = File> + Alloc + Clone + Drop>(
        &mut self,
        files: &R,
        alloc: Global,
    ) -> io::Result<()> {
        let drained = self.part.drain(files, alloc);
        self.give_back(files, alloc).ok();
        self.home
            .remove_folder(files, alloc, self.place.as_str())
            .ok();
        drained
    }

    // Moves the part that another process left into one of this process, and removes it. One that is locked is at work.
    fn end_left<R: Files<File = File> + Alloc + Clone + Drop>(
        &self,
        files: &R,
        alloc: Global,
        part: &str,
    ) -> io::Result<()> {
        let Inside::Folder(left) = self.heap.open(files, alloc, part)? else {
            return Ok(());
        };
        let locked = left.try_lock();
        if is_held(&locked) || (locked.is_err() && self.part.is_locked) {
            return Ok(());
        }
        if !self.heap.has(files, alloc, left.node(), part)? {
            return Ok(());
        }
        let home = &self.home;
        let mut removal = Removal::begin(files, alloc, home, name_of_removed(part))?;
        let moved = removal.part.take_in(files, alloc, &self.heap, part);
        removal.end(files, alloc)?;
        moved
    }

    // Removes what other processes left in the heap that were stopped.
    fn end_all_left<R: Files<File = File> + Alloc + Clone + Drop>(
        &self,
        files: &R,
        alloc: Global,
    ) -> io::Result<()> {
        for entry in fs::read_dir(files, self.heap.way(alloc)?)? {
            match entry {
                Ok(entry) => self.end_left(files, alloc, entry.file_name()).ok(),
                Err(e) if e.kind() == ErrorKind::InvalidFilename => None,
                Err(e) => return Err(e),
            };
        }
        Ok(())
    }

    // Removes it, and what other processes left.
    fn end_with_others<R: Files<File = File> + Alloc + Clone + Drop>(
        &mut self,
        files: &R,
        alloc: Global,
    ) -> io::Result<()> {
        let ended = self.end(files, alloc);
        let found = self.home.open(files, alloc, self.place.as_str());
        if let Ok(Inside::Folder(heap)) = found {
            self.heap = heap;
            self.end_all_left(files, alloc).ok();
            self.home
                .remove_folder(files, alloc, self.place.as_str())
                .ok();
        }
        ended
    }
}

/// The folders that a command has moved into the heap, which are removed once it has let the locks go.
#[derive(Drop)]
pub struct Removals {
    waiting: Vec<Removal>,
}

impl Removals {
    /// None yet.
    pub fn none(alloc: Global) -> Removals {
        Removals {
            waiting: Vec::new(alloc),
        }
    }

    /// Whether none waits.
    pub fn is_empty(&self) -> bool {
        self.waiting.is_empty()
    }

    /// Moves a folder out of the project's folder into a part of the heap, in one step. It fails where the folder can't be moved. Those that
    /// wait are removed first where they may be why, as they take room and descriptors.
    pub fn move_away<R: Files<File = File> + Alloc + Clone + Drop>(
        &mut self,
        files: &R,
        alloc: Global,
        home: &Folder,
        name: &str,
    ) -> io::Result<Removal> {
        match Removal::move_away(files, alloc, home, name) {
            Err(_) if !self.waiting.is_empty() => {
                self.end(files, alloc);
                Removal::move_away(files, alloc, home, name)
            }
            moved => moved,
        }
    }

    /// Has a folder wait that was moved away. Where as many do as may, it's removed at once; so it is where folders have no locks, as
    /// another process couldn't know that this one is at work.
    pub fn add<R: Files<File = File> + Alloc + Clone + Drop>(
        &mut self,
        files: &R,
        alloc: Global,
        mut removal: Removal,
    ) -> io::Result<()> {
        if !removal.part.is_locked {
            return removal.end_with_others(files, alloc);
        }
        if self.waiting.len() >= MOST_WAITING {
            return removal.end(files, alloc);
        }
        Ok(self.waiting.push(removal)?)
    }

    /// Removes those that wait, and what processes left in the heap that were stopped.
    pub fn end<R: Files<File = File> + Alloc + Clone + Drop>(&mut self, files: &R, alloc: Global) {
        let waiting = std::mem::replace(&mut self.waiting, Vec::new(alloc));
        for mut removal in waiting {
            removal.end_with_others(files, alloc).ok();
        }
    }
}

/// Renames what is in a folder, so that its name is free: in another folder it gets this one, and a number. What somebody else made,
/// or may not be written, can still be renamed by who may write the folder around it.
pub fn rename_away<R: Files>(
    files: &R,
    alloc: Global,
    from: (&Folder, &str),
    home: &Folder,
    name: &str,
) -> io::Result<()> {
    for number in 1..NAMES {
        let other = format!(in alloc; "{name}.{number}")?;
        if home.look(files, alloc, other.as_str())? == Found::Absent {
            return from.0.rename(files, alloc, from.1, home, other.as_str());
        }
    }
    Err(io::Error::from(ErrorKind::AlreadyExists))
}

/// Has nothing of the project's by the name of a folder any more: it's moved away, and waits to be removed with all that is below it. It
/// fails where the folder can't be moved; then nothing of it is removed.
pub fn empty_away<R: Files<File = File> + Alloc + Clone + Drop>(
    files: &R,
    alloc: Global,
    home: &Folder,
    name: &str,
    removals: &mut Removals,
) -> io::Result<()> {
    if home.remove_folder(files, alloc, name).is_ok() {
        return Ok(());
    }
    let removal = removals.move_away(files, alloc, home, name)?;
    removals.add(files, alloc, removal)
}
