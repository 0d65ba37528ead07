// The files of a store, which lie in the folder `store` of its project's own.
ghost use Rattle.std.specs.Prelude.{◌≤◌, length, IfOk};

use crate::course::Course;
use crate::emptied::rename_away;
use crate::folder::{Folder, Inside, Kind, Opened, closed_on_the_way};
use crate::home::Home;
use crate::lock::{Lock, Place};
use crate::places::{Found, is_at, is_denied, node_of, refused};
use std::alloc::Global;
use std::fs::{File, OpenOptions};
use std::io;
use std::io::{ErrorKind, Read};
use std::os::unix::fs::FileExt;
use std::rt::{Clock, Files};

// The name of its folder.
const NAME: &str = "store";

// The name of its lock, and what is said of who has it.
const LOCK: &str = "lock";

const OF_STORE: &str = "another command works in this project";

/// What a command does with the store.
#[derive(Clone, Copy, Debug, PartialEq, Eq)]
pub enum Access {
    /// It reads and writes it, alone: it takes the lock.
    Alone,
    /// The same, but it promises nothing that a stop could undo: it writes only what a command that was stopped had begun.
    Listing,
    /// It reads it as it is, without the lock, and writes nothing.
    Reading,
}

// The file with the bytes of versions. Those that a record names are never overwritten while it does.
const VERSIONS: &str = "pack";

// The file whose first byte says whether a commit was begun.
const GATE: &str = "gate";

/// A file of the store that was looked at, and what it held; nothing where it wasn't there.
#[derive(Drop)]
pub struct Seen {
    name: String,
    bytes: Option<Vec<u8>>,
}

// The folders of a store that is there, both held open, and the lock, where it is taken.
#[derive(Drop)]
struct There {
    home: Folder,
    store: Folder,
    lock: Option<Lock>,
}

// What is known of the store.
#[derive(Drop)]
enum Standing {
    // It hasn't been looked for.
    Unknown,
    // It wasn't there when it was looked for.
    Absent,
    // The lock was let go, and isn't held again: it is too late for this call.
    Gone,
    There(There),
}

// The file that was read last, which is still open, and its length when it was opened. It may have become longer.
#[derive(Drop)]
struct LastRead {
    name: String,
    file: File,
    size: u64,
}

// A file that was written and isn't synced yet, by the handle that wrote it first. Of bytes that the system couldn't write out, a handle that is
// opened afterwards may learn nothing.
#[derive(Drop)]
struct Unsynced {
    name: String,
    file: File,
}

/// The store of a project. Where there is none it reads as empty, and the first write makes it. No file of it is touched before
/// the lock is held, unless it is only read: then each write fails.
#[derive(Drop)]
pub struct Store<'a, R> {
    rt: &'a R,
    course: &'a Course,
    alloc: Global,
    home: Home<'a>,
    access: Access,
    standing: Standing,
    // Whether the names of its files outlast a stop.
    has_stable_names: bool,
    last_read: Option<LastRead>,
    // The files that are to be synced, each once.
    unsynced: Vec<Unsynced>,
    // The files that this process has written so far.
    written: Vec<String>,
    // Those that it has looked at or written, where the lock may be let go.
    looked_at: Vec<String>,
    // Those that it has synced, where the lock may be let go.
    synced: Vec<String>,
}

// Why nothing may be written.
fn not_allowed() -> io::Error {
    io::Error::from(ErrorKind::PermissionDenied)
}

// Why a call fails that comes after the lock was let go.
fn too_late() -> io::Error {
    io::Error::from(ErrorKind::Interrupted)
}

// The lock of the project in this folder.
fn lock_in(home: &Folder) -> Place<'_> {
    Place {
        folder: home,
        name: LOCK,
        what: OF_STORE,
    }
}

impl<'a, R: Files<File = File> + Alloc + Clock + Clone + Drop + Eprint> Store<'a, R> {
    /// A store that hasn't been looked for yet.
    pub fn new(
        rt: &'a R,
        alloc: Global,
        home: Home<'a>,
        access: Access,
        course: &'a Course,
    ) -> Store<'a, R> {
        Store {
            rt,
            course,
            alloc,
            home,
            access,
            standing: Standing::Unknown,
            has_stable_names: false,
            last_read: None,
            unsynced: Vec::new(alloc),
            written: Vec::new(alloc),
            looked_at: Vec::new(alloc),
            synced: Vec::new(alloc),
        }
    }

    // The place of what has this name in the project's folder.
    fn in_home(&self, name: &str) -> io::Result<String> {
        let home = self.home.folder(self.alloc)?;
        Ok(format!(in self.alloc; "{home}/{name}")?)
    }

    // The place of the file of that name.
    fn place(&self, name: &str) -> io::Result<String> {
        let home = self.home.folder(self.alloc)?;
        Ok(format!(in self.alloc; "{home}/store/{name}")?)
    }

    // Takes the lock. Where no file of it is there, and none may be made, as in a copy on a disk that is only read, the store is read
    // without, though somebody who may write there could be at work.
    fn take(&self, home: &Folder) -> io::Result<Option<Lock>> {
        match self.course.take_store(self.rt, lock_in(home)) {
            Ok(lock) => Ok(Some(lock)),
            Err(e) if is_denied(&e) && home.look(self.rt, self.alloc, LOCK)? == Found::Absent => {
                Ok(None)
            }
            Err(e) => Err(e),
        }
    }

    // Takes the lock of a store that is there. Who made it may have been stopped before it had its mode, and its name was stable, but
    // then it holds no file.
    fn hold(&self, home: &Folder, store: &mut Folder) -> io::Result<Option<Lock>> {
        self.course.go_before(self.rt, self.home)?;
        let lock = self.take(home)?;
        if !home.has(self.rt, self.alloc, store.node(), NAME)? {
            return Err(io::Error::from(ErrorKind::NotFound));
        }
        if lock.is_some() && store.is_empty(self.rt, self.alloc)? {
            store.finish(self.rt, self.alloc, home)?;
            self.home.sync(self.rt, self.alloc)?;
        }
        Ok(lock)
    }

    // The folders of the store, where both are there.
    fn folders(&self) -> io::Result<Option<(Folder, Folder)>> {
        let home = match self.home.open(self.rt, self.alloc, false)? {
            Inside::Folder(home) => home,
            Inside::Other(Found::Absent) => return Ok(None),
            Inside::Other(_) => return Err(refused()),
        };
        match home.open(self.rt, self.alloc, NAME)? {
            Inside::Folder(store) => Ok(Some((home, store))),
            Inside::Other(Found::Absent) => Ok(None),
            Inside::Other(_) => Err(refused()),
        }
    }

    // Looks for the store. Where it is there the lock is taken, unless it is only read.
    fn find(&mut self) -> io::Result<bool> {
        let Some((home, mut store)) = self.folders()? else {
            self.standing = Standing::Absent;
            return Ok(false);
        };
        let lock = match self.access {
            Access::Alone | Access::Listing => self.hold(&home, &mut store)?,
            Access::Reading => None,
        };
        self.standing = Standing::There(There { home, store, lock });
        Ok(true)
    }

    // Whether the store is there. Where it is, the lock is held from then on, unless it is only read.
    fn is_there(&mut self) -> io::Result<bool> {
        match self.standing {
            Standing::There(_) => Ok(true),
            Standing::Absent => Ok(false),
            Standing::Gone => Err(too_late()),
            Standing::Unknown => self.find(),
        }
    }

    // The store, where it was found.
    fn there(&self) -> io::Result<&There> {
        match &self.standing {
            Standing::There(there) => Ok(there),
            _ => Err(io::Error::from(ErrorKind::NotFound)),
        }
    }

    // Where the store is only read, nothing may be written.
    fn may_write(&self) -> io::Result<()> {
        match self.access {
            Access::Alone | Access::Listing => Ok(()),
            Access::Reading => Err(not_allowed()),
        }
    }

    // Has the store there. One that has appeared since it was looked for is another process's, which is an error.
    fn make(&mut self) -> io::Result<()> {
        self.may_write()?;
        if self.is_there()? {
            return Ok(());
        }
        let Inside::Folder(home) = self.home.open(self.rt, self.alloc, true)? else {
            return Err(refused());
        };
        let lock = self.course.take_store(self.rt, lock_in(&home))?;
        let store = home.make_new(self.rt, self.alloc, NAME)?;
        self.home.sync(self.rt, self.alloc)?;
        self.standing = Standing::There(There {
            home,
            store,
            lock: Some(lock),
        });
        Ok(())
    }

    // Whether the lock that is held is still the file of its name. Where it isn't, another process may hold the one that is, so
    // nothing more may be written; nor where the store's folder isn't that of its name any more.
    fn keep_lock(&self) -> io::Result<()> {
        let there = self.there()?;
        let Some(lock) = &there.lock else {
            return Err(not_allowed());
        };
        if lock.has_name(self.rt, self.alloc, &there.home, LOCK)?
            && there
                .home
                .has(self.rt, self.alloc, there.store.node(), NAME)?
        {
            return Ok(());
        }
        Err(io::Error::from(ErrorKind::NotFound))
    }

    // Whether a call that fails now fails as it looks for the store, and asks for the lock, unless it is only read.
    fn is_looked_for(&self) -> bool {
        matches!(self.standing, Standing::Unknown)
    }

    // The folder on the way to the store that may not be opened, where that is why it isn't found.
    fn closed(&self) -> Option<String> {
        let store = self.in_home(NAME).ok()?;
        closed_on_the_way(self.rt, self.alloc, store.as_str()).ok()?
    }

    /// What fails where this call does: opening a folder on the way, or taking the lock, as long as the store isn't found, and then the
    /// call. A store that is only read has no lock taken.
    pub fn call_of_fault(&self, call: &'static str) -> &'static str {
        if !self.is_looked_for() {
            return call;
        }
        match (self.closed(), self.access) {
            (Some(_), _) => "open",
            (None, Access::Reading) => call,
            (None, _) => "lock",
        }
    }

    /// Where a call for this file fails: at a folder on the way, or at the lock, as long as the store isn't found, and then at the file.
    pub fn place_of_fault(&self, name: &str) -> io::Result<String> {
        if !self.is_looked_for() {
            return self.place(name);
        }
        match (self.closed(), self.access) {
            (Some(folder), _) => Ok(folder),
            (None, Access::Reading) => self.place(name),
            (None, _) => self.in_home(LOCK),
        }
    }

    /// Takes the lock, where the store is there, before any call does. Answers whether nothing was in the way.
    pub fn take_first(&mut self) -> bool {
        self.is_there().is_ok()
    }

    /// Looks for the store. The lock is taken where it is there, unless it is only read.
    pub fn look_for(&mut self) -> io::Result<()> {
        self.is_there()?;
        Ok(())
    }

    // The length of a file that is there.
    fn found(&mut self, name: &str) -> io::Result<Option<u64>> {
        if !self.is_there()? {
            return Ok(None);
        }
        self.note_looked_at(name)?;
        match self.there()?.store.look(self.rt, self.alloc, name)? {
            Found::File(size) => Ok(Some(size)),
            Found::Absent => Ok(None),
            _ => Err(refused()),
        }
    }

    /// The length of a file, and 0 of an absent one.
    pub fn size(&mut self, name: &str) -> io::Result<u64> {
        Ok(self.found(name)?.unwrap_or(0))
    }

    // Opens a file to be read, where it is there. Where the store is only read nothing is opened to be written.
    fn open(&self, name: &str) -> io::Result<Option<Opened>> {
        let store = &self.there()?.store;
        match self.access {
            Access::Reading => {
                store.open_file(self.rt, self.alloc, name, OpenOptions::new().read(true))
            }
            _ => store.open_to_read(self.rt, self.alloc, name),
        }
    }

    // Has a file open for reading, where it is there and holds something. It is looked for once, unless another is read meanwhile.
    fn open_to_read(&mut self, name: &str) -> io::Result<()> {
        if matches!(&self.last_read, Some(last) if last.name.as_str() == name) {
            return Ok(());
        }
        self.last_read = None;
        if !self.is_there()? {
            return Ok(());
        }
        self.note_looked_at(name)?;
        if let Some(opened) = self.open(name)? {
            self.last_read = Some(LastRead {
                name: String::from_str(self.alloc, name)?,
                file: opened.file,
                size: opened.size,
            });
        }
        Ok(())
    }

    /// The bytes of a file from `at` on, at most `len`.
    pub fn read_at(&mut self, alloc: Global, name: &str, at: u64, len: usize) -> io::Result<Vec<u8>>
        ensures { IfOk result (λ bytes. length bytes.items ≤ len) }
    {
        self.open_to_read(name)?;
        let mut bytes = Vec::new(alloc);
        let Some(last) = &self.last_read else {
            return Ok(bytes);
        };
        let end = at.saturating_add(len as u64);
        let size = if end <= last.size {
            end
        } else {
            last.file.metadata()?.len()
        };
        let there = size.saturating_sub(at).min(len as u64) as usize;
        bytes.try_reserve_exact(there)?;
        bytes.resize(there, 0)?;
        last.file.read_exact_at(bytes.as_mut_slice(), at)?;
        Ok(bytes)
    }

    // Notes that this process has written a file.
    fn note_written(&mut self, name: &str) -> io::Result<()> {
        self.note_looked_at(name)?;
        if !self.has_written(name) {
            self.written.push(String::from_str(self.alloc, name)?)?;
        }
        Ok(())
    }

    // Makes a file again. Where it has another name too, as in a snapshot by links, nothing is written through that one. The new file
    // gets the name once it outlasts a stop; one that a stop left beside it goes first, and a folder there gets another name. What comes to
    // the file meanwhile isn't copied.
    fn make_again(&self, name: &str) -> io::Result<File> {
        let store = &self.there()?.store;
        let beside = format!(in self.alloc; "{name}.again")?;
        let beside = beside.as_str();
        match store.look(self.rt, self.alloc, beside)? {
            Found::Absent => {}
            Found::Folder => {
                rename_away(self.rt, self.alloc, (store, beside), store, beside)?;
            }
            _ => store.remove_file(self.rt, self.alloc, beside)?,
        }
        let Some(there) = self.open(name)? else {
            return Err(io::Error::from(ErrorKind::NotFound));
        };
        let mut made = store.make_copy(self.rt, self.alloc, beside, &there)?;
        let most = if name == GATE { 1 } else { u64::MAX };
        io::copy(&mut there.file.take(there.size.min(most)), &mut made)?;
        made.sync_all()?;
        store.rename(self.rt, self.alloc, beside, store, name)?;
        store.sync(self.rt, self.alloc)?;
        if store.has(self.rt, self.alloc, node_of(&made.metadata()?), name)? {
            return Ok(made);
        }
        Err(refused())
    }

    // Opens a file to be written, and makes it where it is absent, or again where another name would be written, too.
    fn open_to_write(&mut self, name: &str) -> io::Result<File> {
        self.keep_lock()?;
        let store = &self.there()?.store;
        match store.open_file(
            self.rt,
            self.alloc,
            name,
            OpenOptions::new().read(true).write(true),
        )? {
            Some(opened) if store.is_to_be_made_again(&opened) => {
                self.last_read = None;
                self.take_unsynced(name);
                self.make_again(name)
            }
            Some(opened) => Ok(opened.file),
            None => {
                let made = store.make_file(self.rt, self.alloc, name, Kind::Plain)?;
                self.has_stable_names = false;
                Ok(made)
            }
        }
    }

    /// Puts the bytes at `at`. The store and the file are made where they are absent.
    pub fn write_at(&mut self, name: &str, at: u64, bytes: &[u8]) -> io::Result<()> {
        self.make()?;
        let file = self.open_to_write(name)?;
        self.note_written(name)?;
        file.write_all_at(bytes, at)?;
        self.hold_unsynced(name, file)
    }

    // Holds a file that was written open until it's synced.
    fn hold_unsynced(&mut self, name: &str, file: File) -> io::Result<()> {
        if !self.unsynced.iter().any(|held| held.name.as_str() == name) {
            let name = String::from_str(self.alloc, name)?;
            self.unsynced.push(Unsynced { name, file })?;
        }
        Ok(())
    }

    // The file of that name that was written and isn't synced yet.
    fn take_unsynced(&mut self, name: &str) -> Option<File> {
        let place = self
            .unsynced
            .iter()
            .position(|held| held.name.as_str() == name)?;
        Some(self.unsynced.swap_remove(place).file)
    }

    /// Shortens a file to `len` bytes; a shorter one stays.
    pub fn cut(&mut self, name: &str, len: u64) -> io::Result<()> {
        match self.found(name)? {
            Some(size) if len < size => {
                self.last_read = None;
                let file = self.open_to_write(name)?;
                self.note_written(name)?;
                file.set_len(len)?;
                self.hold_unsynced(name, file)
            }
            _ => Ok(()),
        }
    }

    // Whether a listing leaves a file as it is: the gate, where no commit was begun. The next command that writes puts it there again.
    fn is_left_alone(&self, name: &str, first: Option<&u8>) -> bool {
        self.access == Access::Listing && name == GATE && first != Some(&1)
    }

    // Puts the bytes of a file there again, if it may be written; of the gate the one that counts. A sync that failed in another process
    // may have left pages that aren't on the disk and that the system takes for such that are: it syncs them no more, and answers
    // that they are synced.
    fn put_again(&mut self, name: &str) -> io::Result<()> {
        let store = &self.there()?.store;
        let opened = match store.open_file(
            self.rt,
            self.alloc,
            name,
            OpenOptions::new().read(true).write(true),
        ) {
            Ok(Some(opened)) if opened.is_alone => opened,
            Ok(_) => return Ok(()),
            Err(e) if is_denied(&e) => return Ok(()),
            Err(e) => return Err(e),
        };
        let most = if name == GATE { 1 } else { opened.size };
        let mut bytes = Vec::new(self.alloc);
        bytes.try_reserve_exact(opened.size.min(most) as usize)?;
        bytes.resize(opened.size.min(most) as usize, 0)?;
        opened.file.read_exact_at(bytes.as_mut_slice(), 0)?;
        if self.is_left_alone(name, bytes.as_slice().first()) {
            return Ok(());
        }
        self.keep_lock()?;
        opened.file.write_all_at(bytes.as_slice(), 0)?;
        self.note_written(name)?;
        self.hold_unsynced(name, opened.file)
    }

    // Whether this process has written a file.
    fn has_written(&self, name: &str) -> bool {
        self.written.iter().any(|other| other.as_str() == name)
    }

    // Syncs a file that is there.
    fn sync_file(&mut self, name: &str) -> io::Result<()> {
        if !self.has_written(name) && self.there()?.lock.is_some() {
            self.put_again(name)?;
        }
        if let Some(file) = self.take_unsynced(name) {
            return file.sync_all();
        }
        match self.open(name)? {
            Some(opened) => opened.file.sync_all(),
            None => Ok(()),
        }
    }

    /// Makes a file outlast a stop. The folder is synced the first time, and where a file was made since.
    pub fn sync(&mut self, name: &str) -> io::Result<()> {
        self.may_write()?;
        if !self.is_there()? {
            return Ok(());
        }
        self.sync_file(name)?;
        self.note_synced(name)?;
        if !self.has_stable_names {
            self.there()?.store.sync(self.rt, self.alloc)?;
            self.has_stable_names = true;
        }
        Ok(())
    }

    // Notes that this process has looked at a file, which has to be as it was once the lock is taken again.
    fn note_looked_at(&mut self, name: &str) -> io::Result<()> {
        let is_known = self.looked_at.iter().any(|other| other.as_str() == name);
        if self.course.lets_go() && name != VERSIONS && !is_known {
            self.looked_at.push(String::from_str(self.alloc, name)?)?;
        }
        Ok(())
    }

    // Notes that this process has synced a file, which is to be done again once the lock is taken again.
    fn note_synced(&mut self, name: &str) -> io::Result<()> {
        let is_known = self.synced.iter().any(|other| other.as_str() == name);
        if self.course.lets_go() && name != VERSIONS && !is_known {
            self.synced.push(String::from_str(self.alloc, name)?)?;
        }
        Ok(())
    }

    // Syncs again what was synced before the lock was let go: the sync of another process may have failed since.
    fn sync_again(&mut self) -> io::Result<()> {
        let synced = std::mem::replace(&mut self.synced, Vec::new(self.alloc));
        self.written = Vec::new(self.alloc);
        for name in &synced {
            self.sync_file(name.as_str())?;
        }
        self.synced = synced;
        Ok(())
    }

    // What a file holds, where it is there; of the gate the byte that counts.
    fn whole(&self, name: &str) -> io::Result<Option<Vec<u8>>> {
        match self.open(name)? {
            None => Ok(None),
            Some(opened) => {
                let most = if name == GATE { 1 } else { u64::MAX };
                let mut bytes = Vec::new(self.alloc);
                bytes.try_reserve_exact((opened.size.min(most) as usize).saturating_add(1))?;
                opened.file.take(most).read_to_end(&mut bytes)?;
                Ok(Some(bytes))
            }
        }
    }

    // What the files hold that were looked at so far.
    fn seen(&self) -> io::Result<Vec<Seen>> {
        let mut seen = Vec::new(self.alloc);
        for name in &self.looked_at {
            let bytes = self.whole(name.as_str())?;
            let name = String::from_str(self.alloc, name.as_str())?;
            seen.push(Seen { name, bytes })?;
        }
        Ok(seen)
    }

    // Whether each of these files holds what it held.
    fn is_as_seen(&self, seen: &[Seen]) -> io::Result<bool> {
        for file in seen {
            let is_same = match (self.whole(file.name.as_str())?, &file.bytes) {
                (Some(now), Some(before)) => now.as_slice() == before.as_slice(),
                (None, None) => true,
                _ => false,
            };
            if !is_same {
                return Ok(false);
            }
        }
        Ok(true)
    }

    /// Whether the lock is held.
    pub fn is_locked(&self) -> bool {
        matches!(&self.standing, Standing::There(there) if there.lock.is_some())
    }

    /// Lets the lock go, where it may be. Answers what the files hold that were looked at so far, so that they can be compared once it
    /// is taken again. Nothing else is remembered of them.
    pub fn let_go(&mut self) -> io::Result<Option<Vec<Seen>>> {
        if !self.course.lets_go() || !self.is_locked() {
            return Ok(None);
        }
        self.keep_lock()?;
        let seen = self.seen()?;
        self.last_read = None;
        self.has_stable_names = false;
        if let Standing::There(there) = &mut self.standing {
            there.lock = None;
        }
        self.course.note_let_go();
        Ok(Some(seen))
    }

    /// Lets the lock go for the rest of this call, of which each further use of the store fails.
    pub fn give_up(&mut self) {
        self.last_read = None;
        self.standing = Standing::Gone;
    }

    // Takes the lock again, however long another process holds it, and answers whether the store is as it was.
    fn retake(&mut self, seen: &[Seen]) -> io::Result<bool> {
        let there = self.there()?;
        let lock = self.course.take_store(self.rt, lock_in(&there.home))?;
        let is_its_place = there
            .home
            .has(self.rt, self.alloc, there.store.node(), NAME)?;
        let is_same = is_its_place && self.home_is_at_its_place()? && self.is_as_seen(seen)?;
        if let Standing::There(there) = &mut self.standing {
            there.lock = Some(lock);
        }
        if is_same {
            self.sync_again()?;
        }
        Ok(is_same)
    }

    // Whether the project's folder is still the one of its place.
    fn home_is_at_its_place(&self) -> io::Result<bool> {
        let place = self.home.folder(self.alloc)?;
        is_at(self.rt, self.there()?.home.node(), place.as_str())
    }

    /// Takes the lock again that was let go. Where a file that was looked at holds something else now the call is to be made again, and
    /// each further use of the store fails.
    pub fn take_again(&mut self, seen: Option<Vec<Seen>>) -> io::Result<()> {
        let Some(seen) = seen else {
            return Ok(());
        };
        match self.retake(seen.as_slice()) {
            Ok(true) => Ok(()),
            taken => {
                self.give_up();
                self.course.note_changed();
                taken?;
                Err(too_late())
            }
        }
    }
}
