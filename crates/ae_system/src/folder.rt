// A folder that is held open, and what is in it. What is in it is reached through its handle and not by its place, so that nobody
// can put a link in the place of a part of the way between a look and a use.
use crate::modes::{
    PRIVATE, UNFINISHED, copied_mode, file_mode, folder_mode, give, is_mode, is_unfinished,
    lock_mode,
};
use crate::places::{
    Found, Moment, Node, Stamp, entry_at, found_of, is_at, is_denied, is_empty_folder, is_full,
    maker, node_of, refused, seen_at, stamp_of, sync_folder,
};
use std::alloc::{AllocError, Global};
use std::cell::Cell;
use std::fs::{DirBuilder, File, Metadata, OpenOptions};
use std::io::ErrorKind;
use std::os::fd::AsRawFd;
use std::os::unix::fs::{DirBuilderExt, MetadataExt, OpenOptionsExt};
use std::rt::Files;
use std::{fs, io};

// So often a file is opened again that was another one as it was opened than as it was looked at.
const TRIES: u32 = 3;

/// A folder that is held open.
#[derive(Drop)]
pub struct Folder {
    // What keeps it open; the current folder is there without.
    handle: Option<File>,
    // What leads to it: its handle among the system's descriptors, or its place where the system shows none.
    way: String,
    node: Node,
    owner: u32,
    mode: u32,
    // Whether the way is by a handle, or is the current folder.
    is_held: bool,
    // Whether what is made in it gets its mode of it. Else the mask of who makes it counts.
    is_shared: bool,
    // Whether this process has just made it, so that there's hardly anything in it.
    is_new: bool,
    // The mode that the last file that was made in it was asked for and had: the mask of who makes files doesn't change meanwhile.
    given: Cell<u32>,
}

/// What is in a folder by a name.
#[derive(Drop)]
pub enum Inside {
    Folder(Folder),
    /// No folder.
    Other(Found),
}

/// What a file is made as, which says who may do what with it.
#[derive(Clone, Copy, Debug, PartialEq, Eq)]
pub enum Kind {
    Plain,
    /// It may be run, too.
    Program,
    Lock,
    /// Nobody else may do anything with it.
    Private,
}

/// A regular file that is open, and what was known of it as it was opened.
#[derive(Drop)]
pub struct Opened {
    pub file: File,
    pub size: u64,
    pub mode: u32,
    pub group: u32,
    pub node: Node,
    /// No other name leads to it.
    pub is_alone: bool,
    pub stamp: Stamp,
}

// Whether a file that was looked at, at that moment or later, is the one that was opened since, and not another that was given its number:
// it's as it was then, and had been so for a while. A file that's made, or whose name is changed, is changed.
fn has_stayed(there: &Metadata, opened: &Metadata, moment: Moment) -> bool {
    let stamp = stamp_of(opened);
    stamp == stamp_of(there) && stamp.is_settled(moment)
}

// A regular file that is open, and what is known of it.
fn opened_with(file: File, known: &Metadata) -> Opened {
    Opened {
        file,
        size: known.len(),
        mode: known.mode(),
        group: known.gid(),
        node: node_of(known),
        is_alone: known.nlink() == 1,
        stamp: stamp_of(known),
    }
}

/// The way to a folder by its handle; `None` where the system shows no descriptors of this process.
pub fn way_by(
    files: &impl Files,
    alloc: Global,
    handle: &File,
    node: Node,
) -> io::Result<Option<String>> {
    let number = handle.as_raw_fd();
    let itself = format!(in alloc; "/proc/self/fd/{number}/.")?;
    match seen_at(files, itself.as_str())? {
        None => Ok(None),
        Some(there) if node_of(&there) == node => {
            Ok(Some(format!(in alloc; "/proc/self/fd/{number}")?))
        }
        Some(_) => Err(refused()),
    }
}

/// The first folder on the way to a place that this process may not open, and the place itself where it is one.
pub fn closed_on_the_way<R: Files<File = File> + Alloc + Clone + Drop>(
    files: &R,
    alloc: Global,
    place: &str,
) -> io::Result<Option<String>> {
    let here = Folder::here(files, alloc, true)?;
    let mut reached = String::new(alloc);
    for part in place.split('/') {
        if !reached.is_empty() {
            reached.push_str("/")?;
        }
        reached.push_str(part)?;
        match here.walk(files, alloc, reached.as_str(), false) {
            Err(e) if is_denied(&e) => return Ok(Some(reached)),
            Err(e) => return Err(e),
            Ok(_) => {}
        }
    }
    Ok(None)
}

impl Folder {
    /// The current folder. Nothing can be put in its place, however it is reached.
    pub fn here(
        files: &impl Files<File = File>,
        alloc: Global,
        is_shared: bool,
    ) -> io::Result<Folder> {
        let known = fs::symlink_metadata(files, ".")?;
        Ok(Folder {
            handle: None,
            way: String::from_str(alloc, ".")?,
            node: node_of(&known),
            owner: known.uid(),
            mode: known.mode(),
            is_held: true,
            is_shared,
            is_new: false,
            given: Cell::new(0),
        })
    }

    /// Which one it is.
    pub fn node(&self) -> Node {
        self.node
    }

    /// Takes the lock on it, where no other process has it. It ends where the folder is dropped.
    pub fn try_lock(&self) -> io::Result<()> {
        match &self.handle {
            Some(handle) => Ok(handle.try_lock()?),
            None => Ok(()),
        }
    }

    /// Whether this process has just made it.
    pub fn is_new(&self) -> bool {
        self.is_new
    }

    /// What leads to it itself.
    pub fn way(&self, alloc: Global) -> Result<String, AllocError> {
        let way = &self.way;
        format!(in alloc; "{way}/.")
    }

    /// What leads to what is in it by a name.
    pub fn place(&self, alloc: Global, name: &str) -> Result<String, AllocError> {
        let way = &self.way;
        format!(in alloc; "{way}/{name}")
    }

    /// What is known of what is in it by a name, where something is.
    pub fn seen(
        &self,
        files: &impl Files,
        alloc: Global,
        name: &str,
    ) -> io::Result<Option<Metadata>> {
        seen_at(files, self.place(alloc, name)?.as_str())
    }

    /// What is in it by a name.
    pub fn look(&self, files: &impl Files, alloc: Global, name: &str) -> io::Result<Found> {
        entry_at(files, self.place(alloc, name)?.as_str())
    }

    /// Whether this very file or folder is in it by that name.
    pub fn has(
        &self,
        files: &impl Files,
        alloc: Global,
        node: Node,
        name: &str,
    ) -> io::Result<bool> {
        is_at(files, node, self.place(alloc, name)?.as_str())
    }

    /// Whether it holds nothing.
    pub fn is_empty<R: Files + Alloc + Clone + Drop>(
        &self,
        files: &R,
        alloc: Global,
    ) -> io::Result<bool> {
        is_empty_folder(files, self.way(alloc)?.as_str())
    }

    /// Makes its entries outlast a stop.
    pub fn sync(&self, files: &impl Files<File = File>, alloc: Global) -> io::Result<()> {
        sync_folder(files, self.way(alloc)?.as_str())
    }

    // This folder in it, which is open by that name.
    fn inner(
        &self,
        files: &impl Files,
        alloc: Global,
        name: &str,
        handle: File,
        known: &Metadata,
    ) -> io::Result<Folder> {
        let node = node_of(known);
        let held = way_by(files, alloc, &handle, node)?;
        let is_held = held.is_some();
        let way = match held {
            Some(way) => way,
            None => self.place(alloc, name)?,
        };
        Ok(Folder {
            handle: Some(handle),
            way,
            node,
            owner: known.uid(),
            mode: known.mode(),
            is_held,
            is_shared: self.is_shared,
            is_new: false,
            given: Cell::new(0),
        })
    }

    /// Opens a folder in it. What is no folder isn't opened, and nobody waited for. It's looked at again while it is open, so that its
    /// number can't be another's: it fails where it isn't the one of that name, as through a link that has appeared.
    pub fn open(
        &self,
        files: &impl Files<File = File>,
        alloc: Global,
        name: &str,
    ) -> io::Result<Inside> {
        let place = self.place(alloc, name)?;
        let Some(there) = seen_at(files, place.as_str())? else {
            return Ok(Inside::Other(Found::Absent));
        };
        if !there.is_dir() {
            return Ok(Inside::Other(found_of(&there)));
        }
        let handle = File::open(files, format!(in alloc; "{place}/.")?)?;
        let known = handle.metadata()?;
        if !is_at(files, node_of(&known), place.as_str())? {
            return Err(refused());
        }
        Ok(Inside::Folder(self.inner(files, alloc, name, handle, &known)?))
    }

    // Opens a folder in it that is there, and fails where something else is.
    fn open_there(
        &self,
        files: &impl Files<File = File>,
        alloc: Global,
        name: &str,
    ) -> io::Result<Folder> {
        match self.open(files, alloc, name)? {
            Inside::Folder(folder) => Ok(folder),
            Inside::Other(_) => Err(refused()),
        }
    }

    /// Makes a folder in it, where nothing is.
    pub fn make_new<R: Files<File = File> + Alloc + Clone + Drop>(
        &self,
        files: &R,
        alloc: Global,
        name: &str,
    ) -> io::Result<Folder> {
        let place = self.place(alloc, name)?;
        if !self.is_shared {
            fs::create_dir(files, place)?;
            return self.open_there(files, alloc, name);
        }
        DirBuilder::new().mode(UNFINISHED).create(files, place)?;
        let mut made = match self.open_there(files, alloc, name) {
            Ok(made) => made,
            Err(e) => {
                self.remove_folder(files, alloc, name).ok();
                return Err(e);
            }
        };
        made.take_mode(files, alloc, folder_mode(self.mode))?;
        made.is_new = true;
        Ok(made)
    }

    /// Has a folder in it. One that is there stays as it is, unless its maker was stopped before it had its mode, and anything else there
    /// is an error.
    pub fn make<R: Files<File = File> + Alloc + Clone + Drop>(
        &self,
        files: &R,
        alloc: Global,
        name: &str,
    ) -> io::Result<Folder> {
        match self.make_new(files, alloc, name) {
            Err(e) if e.kind() == ErrorKind::AlreadyExists => {
                let mut there = self.open_there(files, alloc, name)?;
                there.finish(files, alloc, self)?;
                Ok(there)
            }
            made => made,
        }
    }

    // Whether it is as this process makes one: it is ours, and nobody else may reach what is in it. Some file systems know no owners
    // or modes.
    fn is_as_made(&self, files: &impl Files, alloc: Global) -> io::Result<bool> {
        if !is_unfinished(self.mode) {
            return Ok(false);
        }
        match maker(files, alloc)? {
            Some(maker) => Ok(maker == self.owner),
            None => Ok(true),
        }
    }

    /// Gives it the mode that it is to have in the folder around it, where its maker was stopped before it had that.
    pub fn finish<R: Files<File = File> + Alloc + Clone + Drop>(
        &mut self,
        files: &R,
        alloc: Global,
        around: &Folder,
    ) -> io::Result<()> {
        if around.is_shared && self.is_as_made(files, alloc)? && self.is_empty(files, alloc)? {
            return self.take_mode(files, alloc, folder_mode(around.mode));
        }
        Ok(())
    }

    // Gives it its mode, where it was just made. Another one may have got its name meanwhile, so it has to be empty, and one that isn't
    // as this process makes them keeps the mode that it has.
    fn take_mode<R: Files<File = File> + Alloc + Clone + Drop>(
        &mut self,
        files: &R,
        alloc: Global,
        mode: u32,
    ) -> io::Result<()> {
        if !self.is_empty(files, alloc)? {
            return Err(refused());
        }
        if !self.is_as_made(files, alloc)? {
            return Ok(());
        }
        if let Some(handle) = &self.handle {
            give(handle, self.mode, mode)?;
            self.mode = handle.metadata()?.mode();
        }
        Ok(())
    }

    // Opens a folder in it, or has it there.
    fn enter<R: Files<File = File> + Alloc + Clone + Drop>(
        &self,
        files: &R,
        alloc: Global,
        name: &str,
        makes: bool,
    ) -> io::Result<Inside> {
        if makes {
            return Ok(Inside::Folder(self.make(files, alloc, name)?));
        }
        self.open(files, alloc, name)
    }

    /// Opens the folder at a path below it, part by part, or has it there; or says what is in the place of one that isn't.
    pub fn walk<R: Files<File = File> + Alloc + Clone + Drop>(
        &self,
        files: &R,
        alloc: Global,
        path: &str,
        makes: bool,
    ) -> io::Result<Inside> {
        let mut reached: Option<Folder> = None;
        for part in path.split('/') {
            let around = reached.as_ref().unwrap_or(self);
            match around.enter(files, alloc, part, makes)? {
                Inside::Folder(folder) => reached = Some(folder),
                Inside::Other(found) => return Ok(Inside::Other(found)),
            }
        }
        match reached {
            Some(folder) => Ok(Inside::Folder(folder)),
            None => Err(refused()),
        }
    }

    // Opens a regular file in it once; `None` where nothing is there.
    fn try_open_file(
        &self,
        files: &impl Files<File = File>,
        place: &str,
        how: &OpenOptions,
    ) -> io::Result<Option<Opened>> {
        let Some(there) = seen_at(files, place)? else {
            return Ok(None);
        };
        if !there.is_file() {
            return Err(refused());
        }
        let file = how.open(files, place)?;
        let node = node_of(&file.metadata()?);
        match seen_at(files, place)? {
            Some(known) if known.is_file() && node_of(&known) == node => {
                Ok(Some(opened_with(file, &known)))
            }
            _ => Err(io::Error::from(ErrorKind::NotFound)),
        }
    }

    /// Opens a regular file in it, by options that neither make nor shorten one; `None` where nothing is there. It's looked at again
    /// while it is open, so that its number can't be another's: it is the file of that name, and no other to which a link leads. Who
    /// saves a file puts another in its place, so it's tried again.
    pub fn open_file(
        &self,
        files: &impl Files<File = File>,
        alloc: Global,
        name: &str,
        how: &OpenOptions,
    ) -> io::Result<Option<Opened>> {
        let place = self.place(alloc, name)?;
        for _ in 1..TRIES {
            match self.try_open_file(files, place.as_str(), how) {
                Err(e) if e.kind() == ErrorKind::NotFound => {}
                opened => return opened,
            }
        }
        self.try_open_file(files, place.as_str(), how)
    }

    /// Opens a regular file in it to be read; `None` where nothing is there. Where it may be written it's opened for that too: nobody
    /// is waited for then, should a pipe have got its name just before.
    pub fn open_to_read(
        &self,
        files: &impl Files<File = File>,
        alloc: Global,
        name: &str,
    ) -> io::Result<Option<Opened>> {
        for _ in 0..TRIES {
            match self.open_file(
                files,
                alloc,
                name,
                OpenOptions::new().read(true).write(true),
            ) {
                Err(e) if is_denied(&e) || is_full(&e) => {}
                opened => return opened,
            }
        }
        self.open_file(files, alloc, name, OpenOptions::new().read(true))
    }

    /// Opens a regular file in it to be read; `None` where there is none, also where something else is.
    pub fn open_if_file(
        &self,
        files: &impl Files<File = File>,
        alloc: Global,
        name: &str,
    ) -> io::Result<Option<Opened>> {
        match self.open_file(files, alloc, name, OpenOptions::new().read(true)) {
            Err(e) if e.kind() == ErrorKind::Unsupported => Ok(None),
            opened => opened,
        }
    }

    /// Opens a regular file in it to be read that was looked at, at that moment or later; `None` where there is none any more. One that
    /// hadn't been changed for a while isn't looked at again while it's open, since no other file can have got its number.
    pub fn open_known(
        &self,
        files: &impl Files<File = File>,
        alloc: Global,
        name: &str,
        there: &Metadata,
        moment: Moment,
    ) -> io::Result<Option<Opened>> {
        let place = self.place(alloc, name)?;
        match File::open(files, place) {
            Ok(file) => {
                let known = file.metadata()?;
                if has_stayed(there, &known, moment) {
                    return Ok(Some(opened_with(file, &known)));
                }
            }
            Err(e) if e.kind() == ErrorKind::NotFound => {}
            Err(e) => return Err(e),
        }
        self.open_if_file(files, alloc, name)
    }

    // Where there is no handle, a part of the way may have become a link while the file was made: then it isn't at its place.
    fn look_again(
        &self,
        files: &impl Files,
        alloc: Global,
        made: &Metadata,
        name: &str,
    ) -> io::Result<()> {
        if self.is_held {
            return Ok(());
        }
        let is_here = is_at(files, self.node, self.way(alloc)?.as_str())?;
        if is_here && self.has(files, alloc, node_of(made), name)? {
            return Ok(());
        }
        Err(refused())
    }

    // The mode that a file of that kind is made with in it.
    fn mode_of(&self, kind: Kind) -> u32 {
        match (self.is_shared, kind) {
            (_, Kind::Private) => PRIVATE,
            (true, Kind::Lock) => lock_mode(self.mode),
            (true, _) => file_mode(kind == Kind::Program, self.mode),
            (false, Kind::Program) => 0o777,
            (false, _) => 0o666,
        }
    }

    /// Makes a file in it, where nothing is, to be read and written. Only a file that was just made is ever given a mode.
    pub fn make_file(
        &self,
        files: &impl Files<File = File>,
        alloc: Global,
        name: &str,
        kind: Kind,
    ) -> io::Result<File> {
        let mode = self.mode_of(kind);
        let place = self.place(alloc, name)?;
        let file = OpenOptions::new()
            .read(true)
            .write(true)
            .create_new(true)
            .mode(mode)
            .open(files, place)?;
        if self.is_held && (!self.is_shared || self.given.get() == mode) {
            return Ok(file);
        }
        let made = file.metadata()?;
        self.look_again(files, alloc, &made, name)?;
        if self.is_shared {
            give(&file, made.mode(), mode)?;
            self.given
                .set(if is_mode(made.mode(), mode) { mode } else { 0 });
        }
        Ok(file)
    }

    /// Makes a file in it, where nothing is, for the bytes of another one that is open. It lets nobody do what that one doesn't let him,
    /// at no moment, unless there are no bytes.
    pub fn make_copy(
        &self,
        files: &impl Files<File = File>,
        alloc: Global,
        name: &str,
        opened: &Opened,
    ) -> io::Result<File> {
        if opened.size == 0 {
            return self.make_file(files, alloc, name, Kind::Plain);
        }
        let made = self.make_file(files, alloc, name, Kind::Private)?;
        let known = made.metadata()?;
        let mode = copied_mode(opened.mode, known.gid() == opened.group);
        give(&made, known.mode(), self.mode_of(Kind::Plain) & mode)?;
        Ok(made)
    }

    /// Whether a file of it that was found is to be made again before it's written: it has another name too, or nothing was written to
    /// it yet, and who made it was stopped before it got its mode.
    pub fn is_to_be_made_again(&self, opened: &Opened) -> bool {
        let has_its_mode = !self.is_shared || is_mode(opened.mode, self.mode_of(Kind::Plain));
        !opened.is_alone || (opened.size == 0 && !has_its_mode)
    }

    /// Removes what is in it by a name and is no folder.
    pub fn remove_file(&self, files: &impl Files, alloc: Global, name: &str) -> io::Result<()> {
        fs::remove_file(files, self.place(alloc, name)?)
    }

    /// Removes a folder in it that holds nothing.
    pub fn remove_folder(&self, files: &impl Files, alloc: Global, name: &str) -> io::Result<()> {
        fs::remove_dir(files, self.place(alloc, name)?)
    }

    /// Gives what is in it by a name another one, in another folder.
    pub fn rename(
        &self,
        files: &impl Files,
        alloc: Global,
        name: &str,
        folder: &Folder,
        to: &str,
    ) -> io::Result<()> {
        fs::rename(files, self.place(alloc, name)?, folder.place(alloc, to)?)
    }
}
