// The real directories, and commands run by `sh`.
ghost use Rattle.std.specs.Prelude.{⊤, ◌≡◌, IfOk, OnErr};
ghost use Rattle.ae_outside.specs.Causes.{Counted, HasCause};
ghost use Rattle.ae_outside.specs.Site.{IsAtMost};
ghost use Rattle.ae_outside.specs.Untold.{untold_site};
ghost use Rattle.ae_system.specs.Runs.{HasNoEnd, IsExitOf, IsShell};

use crate::around::{Around, below};
use crate::course::{Course, Manner};
use crate::emptied::Removals;
use crate::folder::{Folder, Inside, Kind, Opened, closed_on_the_way};
use crate::home::Home;
use crate::kept::{Place, keep_file, keep_folder, put_away};
use crate::made::{Job, Mark};
use crate::places::{
    Found, Moment, Stamp, found_of, is_denied, is_full, node_of, refused, stamp_of,
};
use crate::progress::run_to_end;
use crate::run_log;
use crate::store::{Seen, Store};
use crate::trouble::{Faults, Trouble};
use crate::who::now;
use ae_base::{Path, Text};
use ae_outside::{Content, Dir, Exit, Failed, Site, SiteError};
use sha2::{Digest, Sha256};
use std::alloc::{AllocError, Global};
use std::cell::{RefCell, RefMut};
use std::fs::{File, Metadata};
use std::io;
use std::io::{ErrorKind, Read, Write};
use std::os::unix::fs::FileExt;
use std::os::unix::process::ExitStatusExt;
use std::process::{Command, ExitStatus, Processes, Stdio};
use std::rt::{Clock, Files};

// How a file begins that the system hands to the program that it names.
const PROGRAM: &[u8] = b"#!";

/// Directories in the project's folder, and the current folder. It tells nothing of what they hold.
#[derive(Drop)]
pub struct RealSite<'s, 'a, R> {
    rt: &'a R,
    alloc: Global,
    home: Home<'a>,
    // The store of the project, whose lock is let go while a command runs here, where it may be.
    store: &'s RefCell<Store<'a, R>>,
    // What the command keeps where its call is made again: its directories' locks, and its runs.
    course: &'s Course,
    // What is removed once the command has let the locks go.
    removals: &'a RefCell<Removals>,
    around: Around,
    faults: Faults,
}

// A place is a directory's folder, the path of a folder below it, and a name: what leads to the folder around a file.
#[derive(Clone, Copy)]
struct Way<'a> {
    directory: &'a str,
    // The place of the folder around.
    around: &'a str,
    name: &'a str,
}

// Why something that this call uses can't be used once more.
fn in_use() -> io::Error {
    io::Error::from(ErrorKind::ResourceBusy)
}

// How a place of a directory is reached.
fn way_to<'a>(directory: &'a str, place: &'a str) -> io::Result<Way<'a>> {
    match place.rsplit_once('/') {
        Some((around, name)) => Ok(Way {
            directory,
            around,
            name,
        }),
        None => Err(refused()),
    }
}

// The folder of a directory of the project in this one.
fn folder_in(alloc: Global, home: &str, dir: &Dir) -> Result<String, AllocError> {
    match dir {
        Dir::Here => String::from_str(alloc, "."),
        Dir::Develop(change) => {
            let number = change.number();
            format!(in alloc; "{home}/develop.{number}")
        }
        Dir::Integrate(delta) => {
            let number = delta.number();
            format!(in alloc; "{home}/integrate.{number}")
        }
        Dir::Base(change) => {
            let number = change.number();
            format!(in alloc; "{home}/base.{number}")
        }
    }
}

// Whether the path is that of the program's own folder, or below it.
fn is_own(path: &Path) -> bool {
    let bytes = path.bytes();
    bytes == b"aegis.d".as_slice() || bytes.starts_with(b"aegis.d/")
}

fn place_in(alloc: Global, folder: &str, path: &Path) -> Result<String, AllocError> {
    format!(in alloc; "{folder}/{path}")
}

// By its code, or by a signal.
fn exit_of(status: ExitStatus) -> io::Result<Exit>
    ensures is { IfOk result (IsExitOf status) }
    ensures none { OnErr result (HasNoEnd status) }
{
    if let Some(code) = status.code() {
        if let Ok(code) = u8::try_from(code) {
            return Ok(Exit::Code(code));
        }
    }
    if let Some(signal) = status.signal() {
        if let Ok(signal) = u8::try_from(signal) {
            return Ok(Exit::Signal(signal));
        }
    }
    Err(io::Error::from(ErrorKind::InvalidData))
}

// The shell that runs a command in a folder, with this program's environment.
fn shell_for(alloc: Global, folder: &str, command: &str) -> Result<Command, AllocError>
    ensures { IfOk result (IsShell folder.now command.now) }
{
    let mut shell = Command::new(alloc, "sh")?;
    shell.arg("-c")?;
    shell.arg("--")?;
    shell.arg(command)?;
    shell.current_dir(folder)?;
    Ok(shell)
}

impl<'s, 'a, R: Files<File = File> + Alloc + Clock + Clone + Drop + Eprint + Processes> RealSite<
    's,
    'a,
    R,
> {
    /// The directories of this project, which has that store.
    pub fn new(
        rt: &'a R,
        alloc: Global,
        home: Home<'a>,
        store: &'s RefCell<Store<'a, R>>,
        course: &'s Course,
        removals: &'a RefCell<Removals>,
    ) -> RealSite<'s, 'a, R> {
        RealSite {
            rt,
            alloc,
            home,
            store,
            course,
            removals,
            around: Around::unknown(),
            faults: Faults::none(),
        }
    }

    fn folder_of(&self, dir: &Dir) -> io::Result<String> {
        let home = self.home.folder(self.alloc)?;
        Ok(folder_in(self.alloc, home.as_str(), dir)?)
    }

    /// Why the last call failed that did.
    pub fn trouble(&self) -> Option<&Trouble> {
        self.faults.last()
    }

    // Where a call fails: at a directory, or at a file of it.
    fn place_of_fault(&self, dir: &Dir, path: Option<&Path>) -> Option<String> {
        let folder = self.folder_of(dir).ok()?;
        match path {
            Some(path) => place_in(self.alloc, folder.as_str(), path).ok(),
            None => Some(folder),
        }
    }

    // The folder on the way to a directory, or to a file of it, that may not be opened.
    fn closed(&self, dir: &Dir, path: Option<&Path>) -> Option<String> {
        let place = self.place_of_fault(dir, path)?;
        let around = match path {
            Some(_) => place.rsplit_once('/')?.0,
            None => place.as_str(),
        };
        closed_on_the_way(self.rt, self.alloc, around).ok()?
    }

    fn count(
        &mut self,
        call: &'static str,
        dir: &Dir,
        path: Option<&Path>,
        error: io::Error,
    ) -> Failed
        ensures { Counted self.old.faults.count self.new.faults.count ⊤ }
    {
        let place = match self.closed(dir, path) {
            Some(folder) if is_denied(&error) => Some(folder),
            _ => self.place_of_fault(dir, path),
        };
        self.faults.add(call, place, error)
    }

    fn counted<T>(
        &mut self,
        call: &'static str,
        dir: &Dir,
        path: Option<&Path>,
        outcome: io::Result<T>,
    ) -> Result<T, Failed>
        ensures { HasCause self.old.faults.count self.new.faults.count result }
    {
        match outcome {
            Ok(value) => Ok(value),
            Err(e) => Err(self.count(call, dir, path, e)),
        }
    }

    // What is at a place, whose folder is reached; a place below what is no folder is as if nothing were there.
    fn look_at(&self, around: &mut Around, way: &Way) -> io::Result<Found> {
        match around.reach(self.rt, self.alloc, way.directory, way.around, false)? {
            Found::Folder => around.last()?.look(self.rt, self.alloc, way.name),
            Found::File(_) => Ok(Found::Other),
            other => Ok(other),
        }
    }

    // One byte more than the limit shows that there is more. Room for 64 bytes more than there are shows the end of the file, and
    // holds the zeroes up to a whole unit, should the bytes be put into the packed region.
    fn try_read(
        &self,
        alloc: Global,
        around: &mut Around,
        dir: &Dir,
        path: &Path,
        limit: usize,
    ) -> io::Result<Content>
        ensures limit { IfOk result (IsAtMost limit) }
    {
        let folder = self.folder_of(dir)?;
        let place = place_in(alloc, folder.as_str(), path)?;
        let way = way_to(folder.as_str(), place.as_str())?;
        let moment = now(self.rt);
        let Some(opened) = self.open_to_read(around, &way, moment)? else {
            self.course.note_read(place, Mark::Absent)?;
            return Ok(Content::Absent);
        };
        let most = (limit as u64).saturating_add(1);
        let mut bytes = Vec::new(alloc);
        bytes.try_reserve_exact(opened.size.min(limit as u64).saturating_add(64) as usize)?;
        let before = opened.stamp;
        let mut file = opened.file.take(most);
        file.read_to_end(&mut bytes)?;
        if bytes.len() > limit {
            self.course.note_read(place, Mark::Unknown)?;
            return Ok(Content::TooLong);
        }
        if self.course.takes_notes() {
            let after = stamp_of(&file.into_inner().metadata()?);
            let is_settled = before == after && before.is_settled(self.course.began());
            self.note_bytes_read(place, is_settled.then_some(before), bytes.as_slice())?;
        }
        Ok(Content::Bytes(Text::shared(alloc, bytes)?))
    }

    // Notes the bytes of a file, by how it was before and after it was read, where nobody had changed it for a while before.
    fn note_bytes_read(&self, place: String, stamp: Option<Stamp>, bytes: &[u8]) -> io::Result<()> {
        let mark = match stamp {
            Some(stamp) => Mark::Stamp(stamp),
            None => Mark::Digest(Sha256::digest(bytes)),
        };
        self.course.note_read(place, mark)
    }

    // Opens a regular file to be read, at that moment or later; `None` where there is none, as where a link or a folder is there.
    fn open_to_read(
        &self,
        around: &mut Around,
        way: &Way,
        moment: Moment,
    ) -> io::Result<Option<Opened>> {
        if around.reach(self.rt, self.alloc, way.directory, way.around, false)? != Found::Folder {
            return Ok(None);
        }
        let folder = around.last()?;
        match folder.seen(self.rt, self.alloc, way.name)? {
            Some(there) if there.is_file() => {
                folder.open_known(self.rt, self.alloc, way.name, &there, moment)
            }
            _ => Ok(None),
        }
    }

    // A file that holds the bytes already stays untouched, with its time of change. Any other is taken away and made again, so that
    // nothing is written through another name of it.
    fn try_write(
        &self,
        around: &mut Around,
        dir: &Dir,
        path: &Path,
        bytes: &[u8],
    ) -> io::Result<()> {
        if *dir == Dir::Here && is_own(path) {
            return Err(refused());
        }
        let folder = self.folder_of(dir)?;
        let place = place_in(self.alloc, folder.as_str(), path)?;
        let way = way_to(folder.as_str(), place.as_str())?;
        match around.reach(self.rt, self.alloc, way.directory, way.around, true)? {
            Found::Folder => {}
            _ => return Err(refused()),
        }
        self.put(dir, around.last()?, &way, bytes)?;
        if matches!(dir, Dir::Develop(_)) && self.course.takes_notes() {
            self.course.note_put(place, Sha256::digest(bytes))?;
        }
        Ok(())
    }

    // Puts a file into a folder, in which there may be one of its name.
    fn put(&self, dir: &Dir, folder: &Folder, way: &Way, bytes: &[u8]) -> io::Result<()> {
        if folder.is_new() {
            match self.make_file(folder, way.name, bytes) {
                Err(e) if e.kind() == ErrorKind::AlreadyExists => {}
                made => return made,
            }
        }
        let moment = now(self.rt);
        let Some(there) = folder.seen(self.rt, self.alloc, way.name)? else {
            return self.make_file(folder, way.name, bytes);
        };
        let Found::File(size) = found_of(&there) else {
            return Err(refused());
        };
        if size == bytes.len() as u64 && self.holds(folder, way.name, &there, moment, bytes) {
            return Ok(());
        }
        self.take_away(dir, folder, way, size)?;
        self.make_file(folder, way.name, bytes)
    }

    // Whether a file that was looked at, at that moment or later, holds these bytes. One that can't be read doesn't, as far as is known.
    fn holds(
        &self,
        folder: &Folder,
        name: &str,
        there: &Metadata,
        moment: Moment,
        bytes: &[u8],
    ) -> bool {
        match folder.open_known(self.rt, self.alloc, name, there, moment) {
            Ok(Some(opened)) => {
                let found = self.read_whole(opened, bytes.len());
                matches!(found, Ok(found) if found.as_slice() == bytes)
            }
            _ => false,
        }
    }

    // The bytes of a file that had so many, or one more where it has become longer.
    fn read_whole(&self, opened: Opened, len: usize) -> io::Result<Vec<u8>> {
        let mut found = Vec::new(self.alloc);
        let most = len.saturating_add(1);
        found.try_reserve_exact(most)?;
        opened.file.take(most as u64).read_to_end(&mut found)?;
        Ok(found)
    }

    // The project's folder, which is there.
    fn open_home(&self) -> io::Result<Folder> {
        match self.home.open(self.rt, self.alloc, false)? {
            Inside::Folder(home) => Ok(home),
            Inside::Other(_) => Err(refused()),
        }
    }

    // Takes a file of that size away. What it holds in a develop directory is somebody's work, which is kept once, unless this command has
    // put just that there, in an earlier turn of its call: then it would be kept in the place of what that turn has kept.
    fn take_away(&self, dir: &Dir, folder: &Folder, way: &Way, size: u64) -> io::Result<()> {
        match dir {
            Dir::Develop(_) if size > 0 && !self.is_as_put(folder, way, size)? => {
                self.keep(folder, way)
            }
            _ => folder.remove_file(self.rt, self.alloc, way.name),
        }
    }

    // Whether a file of that size holds what this command itself has put there. One that can't be read doesn't, as far as is known.
    fn is_as_put(&self, folder: &Folder, way: &Way, size: u64) -> io::Result<bool> {
        let around = way.around;
        let name = way.name;
        let place = format!(in self.alloc; "{around}/{name}")?;
        let Some(digest) = self.course.put_at(place.as_str())? else {
            return Ok(false);
        };
        let Ok(Some(opened)) = folder.open_to_read(self.rt, self.alloc, name) else {
            return Ok(false);
        };
        let found = self.read_whole(opened, size as usize)?;
        Ok(Sha256::digest(found.as_slice()) == digest)
    }

    // Keeps a file of a develop directory beside it.
    fn keep(&self, folder: &Folder, way: &Way) -> io::Result<()> {
        let Some((_, directory)) = way.directory.rsplit_once('/') else {
            return Err(refused());
        };
        let place = Place {
            folder,
            name: way.name,
            directory,
            below: below(way.around, way.directory),
        };
        let home = self.open_home()?;
        keep_file(self.rt, self.alloc, &home, &place, &mut *self.removals()?)
    }

    // Makes a file where nothing is. Where the disk is full what waits to be removed goes, and the bytes are put once more.
    fn make_file(&self, folder: &Folder, name: &str, bytes: &[u8]) -> io::Result<()> {
        let kind = if bytes.starts_with(PROGRAM) {
            Kind::Program
        } else {
            Kind::Plain
        };
        let mut file = match folder.make_file(self.rt, self.alloc, name, kind) {
            Err(e) if is_full(&e) && self.makes_room() => {
                folder.make_file(self.rt, self.alloc, name, kind)?
            }
            made => made?,
        };
        let written = match file.write_all(bytes) {
            Err(e) if is_full(&e) && self.makes_room() => file.write_all_at(bytes, 0),
            written => written,
        };
        if written.is_err() {
            self.unmake(folder, name, &file).ok();
        }
        written
    }

    // Removes a file that was made in part. It's nobody's work, and would be kept in the place of what was kept before.
    fn unmake(&self, folder: &Folder, name: &str, file: &File) -> io::Result<()> {
        if folder.has(self.rt, self.alloc, node_of(&file.metadata()?), name)? {
            folder.remove_file(self.rt, self.alloc, name)?;
        }
        Ok(())
    }

    // What waits to be removed.
    fn removals(&self) -> io::Result<RefMut<'a, Removals>> {
        match self.removals.try_borrow_mut() {
            Ok(removals) => Ok(removals),
            Err(_) => Err(io::Error::from(ErrorKind::ResourceBusy)),
        }
    }

    // Removes what waits for that. Answers whether something did.
    fn makes_room(&self) -> bool {
        match self.removals() {
            Ok(mut removals) if !removals.is_empty() => {
                removals.end(self.rt, self.alloc);
                true
            }
            _ => false,
        }
    }

    fn try_remove(&self, around: &mut Around, dir: &Dir, path: &Path) -> io::Result<()> {
        let is_here = *dir == Dir::Here;
        if is_here && is_own(path) {
            return Err(refused());
        }
        let folder = self.folder_of(dir)?;
        let place = place_in(self.alloc, folder.as_str(), path)?;
        let way = way_to(folder.as_str(), place.as_str())?;
        match self.look_at(around, &way)? {
            Found::File(size) => self.take_away(dir, around.last()?, &way, size)?,
            Found::Link => return Err(refused()),
            _ => return Ok(()),
        }
        if is_here {
            return Ok(());
        }
        self.remove_empty_folders(around, &way)
    }

    // Removes the folders around a place, up to the directory, from the innermost on, up to the first that holds something.
    fn remove_empty_folders(&self, around: &mut Around, way: &Way) -> io::Result<()> {
        let mut place = way.around;
        for _ in 0..way.around.len() {
            if place == way.directory {
                return Ok(());
            }
            let inner = way_to(way.directory, place)?;
            match around.reach(self.rt, self.alloc, inner.directory, inner.around, false)? {
                Found::Folder => {}
                _ => return Ok(()),
            }
            match around
                .last()?
                .remove_folder(self.rt, self.alloc, inner.name)
            {
                Ok(()) => {}
                Err(e) if e.kind() == ErrorKind::DirectoryNotEmpty => return Ok(()),
                Err(e) if e.kind() == ErrorKind::AlreadyExists => return Ok(()),
                Err(e) => return Err(e),
            }
            place = inner.around;
        }
        Ok(())
    }

    // Takes a directory away. What a develop directory holds is kept once.
    fn empty(&self, dir: &Dir, home: &Folder, name: &str) -> io::Result<()> {
        if !matches!(dir, Dir::Develop(_)) {
            return put_away(self.rt, self.alloc, home, name, &mut *self.removals()?);
        }
        match home.remove_folder(self.rt, self.alloc, name) {
            Ok(()) => Ok(()),
            Err(_) => keep_folder(self.rt, self.alloc, home, name, &mut *self.removals()?),
        }
    }

    fn try_clear(&self, around: &mut Around, dir: &Dir) -> io::Result<()> {
        around.forget();
        if *dir == Dir::Here {
            return Err(refused());
        }
        let place = self.folder_of(dir)?;
        let Some((_, name)) = place.rsplit_once('/') else {
            return Err(refused());
        };
        let Inside::Folder(home) = self.home.open(self.rt, self.alloc, true)? else {
            return Err(refused());
        };
        match home.look(self.rt, self.alloc, name)? {
            Found::Folder => self.empty(dir, &home, name)?,
            Found::Absent => {}
            _ => return Err(refused()),
        }
        let made = home.make_new(self.rt, self.alloc, name)?;
        around.hold(place, made);
        Ok(())
    }

    // Makes a run, unless one that this command has made already stands for it.
    fn try_run(&self, around: &mut Around, dir: &Dir, command: &str) -> io::Result<Exit> {
        let place = self.folder_of(dir)?;
        let place = place.as_str();
        if around.reach(self.rt, self.alloc, place, place, true)? != Found::Folder {
            return Err(refused());
        }
        let folder = around.last()?;
        let job = Job {
            command,
            place,
            node: folder.node(),
        };
        let has_it = self.course.has(self.rt, self.home, place)?;
        match self.course.answer(job)? {
            Some(exit) if has_it => {
                self.course.note_run(job, exit)?;
                Ok(exit)
            }
            _ => self.make_run(folder, job, has_it),
        }
    }

    // Makes a run. The log is a help for who reads it: where a heading can't be written, it is made all the same. Without a lock on the
    // directory nothing but the store's keeps another command out of it.
    fn make_run(&self, folder: &Folder, job: Job, has_it: bool) -> io::Result<Exit> {
        let mut log = run_log::open_log(self.rt, self.alloc, folder)?;
        run_log::begin(self.rt, self.alloc, &mut log, job.place, job.command).ok();
        let out = log.try_clone()?;
        let err = log.try_clone()?;
        let way = folder.way(self.alloc)?;
        let mut shell = shell_for(self.alloc, way.as_str(), job.command)?;
        shell.stdin(Stdio::null()).stdout(out).stderr(err);
        let seen = if has_it { self.let_go()? } else { None };
        let ended = self.run_to_end(&mut shell, job.place, &log);
        let exit = self.note_end(&mut log, ended);
        let noted = match &exit {
            Ok(exit) => self.course.note_run(job, *exit),
            Err(_) => Ok(()),
        };
        self.take_again(seen)?;
        noted?;
        exit
    }

    // Runs a command to its end. Who sees standard error on a terminal sees what it writes to its log, and how long it has run.
    fn run_to_end(&self, shell: &mut Command, place: &str, log: &File) -> io::Result<ExitStatus> {
        if self.course.says() {
            return run_to_end(self.rt, shell, place, log);
        }
        shell.status(self.rt)
    }

    // How a run ended, which its log says too.
    fn note_end(&self, log: &mut File, ended: io::Result<ExitStatus>) -> io::Result<Exit> {
        let exit = exit_of(ended?)?;
        run_log::end(self.alloc, log, exit).ok();
        Ok(exit)
    }

    // Lets the lock of the store go for a run, where it may be, and no script waits for that.
    fn let_go(&self) -> io::Result<Option<Vec<Seen>>> {
        if !self.course.lets_go() || !self.course.share_runs(self.rt, self.home) {
            return Ok(None);
        }
        match self.store.try_borrow_mut() {
            Ok(mut store) => store.let_go(),
            Err(_) => Err(in_use()),
        }
    }

    // Takes it again. It fails where the store isn't as it was.
    fn take_again(&self, seen: Option<Vec<Seen>>) -> io::Result<()> {
        match self.store.try_borrow_mut() {
            Ok(mut store) => store.take_again(seen),
            Err(_) => Err(in_use()),
        }
    }

    // Whether the store's lock is held.
    fn is_locked(&self) -> bool {
        matches!(self.store.try_borrow(), Ok(store) if store.is_locked())
    }

    // Has a directory for this command alone. A script has them all, as no run is under way that has let the store's lock go, or none.
    fn have(&self, dir: &Dir) -> io::Result<()> {
        match self.course.manner() {
            _ if *dir == Dir::Here => return Ok(()),
            Manner::Records => return Err(io::Error::from(ErrorKind::WouldBlock)),
            Manner::Script => return self.have_store(),
            _ if !self.is_locked() => return Ok(()),
            _ => {}
        }
        let place = self.folder_of(dir)?;
        match self.course.take(self.rt, self.home, place.as_str()) {
            Err(e) if e.kind() == ErrorKind::WouldBlock && self.course.waits() => {
                self.wait_for(place.as_str())
            }
            taken => taken,
        }
    }

    // Has the lock of the store, where there is one, and so the runs of others at their end: the first line of a script may be an edit.
    fn have_store(&self) -> io::Result<()> {
        match self.store.try_borrow_mut() {
            Ok(mut store) => store.look_for()?,
            Err(_) => return Err(in_use()),
        }
        match self.course.manner() {
            Manner::Records => Err(io::Error::from(ErrorKind::WouldBlock)),
            _ => Ok(()),
        }
    }

    // Waits for a directory that another command has: that may be a run of minutes, which wants the store's lock at its end, so this call
    // lets it go, and is made again once the directory is free.
    fn wait_for(&self, place: &str) -> io::Result<()> {
        match self.store.try_borrow_mut() {
            Ok(mut store) => store.give_up(),
            Err(_) => return Err(in_use()),
        }
        self.course.wait_for(self.rt, self.home, place)?;
        Err(io::Error::from(ErrorKind::Interrupted))
    }

    // Has a directory to be changed.
    fn have_to_change(&self, dir: &Dir) -> io::Result<()> {
        self.have(dir)?;
        self.course.note_change()
    }

    // Has a directory to run something there. In the current folder a script that may ask for no directory runs nothing either.
    fn have_to_run(&self, dir: &Dir) -> io::Result<()> {
        if self.course.manner() == Manner::Records {
            return Err(io::Error::from(ErrorKind::WouldBlock));
        }
        self.have(dir)
    }
}

impl<'s, 'a, R: Files<File = File> + Alloc + Clock + Clone + Drop + Eprint + Processes> Site
    for RealSite<'s, 'a, R> {
    ghost tells = { ⊥ };

    ghost state = { λ _. untold_site };

    ghost faults = { λ site. site.faults.count };

    fn note_bytes(&self) {}

    fn read(
        &mut self,
        alloc: Global,
        dir: Dir,
        path: &Path,
        limit: usize,
    ) -> Result<Content, SiteError> {
        if let Err(e) = self.have(&dir) {
            self.count("lock", &dir, None, e);
            return Err(SiteError::Failed);
        }
        let mut around = std::mem::replace(&mut self.around, Around::unknown());
        let read = self.try_read(alloc, &mut around, &dir, path, limit);
        self.around = around;
        match read {
            Ok(content) => Ok(content),
            Err(e) if e.kind() == ErrorKind::OutOfMemory => Err(SiteError::Memory),
            Err(e) => {
                self.count("read", &dir, Some(path), e);
                Err(SiteError::Failed)
            }
        }
    }

    fn write(&mut self, dir: Dir, path: &Path, bytes: &[u8]) -> Result<(), Failed> {
        if let Err(e) = self.have_to_change(&dir) {
            return Err(self.count("lock", &dir, None, e));
        }
        let mut around = std::mem::replace(&mut self.around, Around::unknown());
        let written = self.try_write(&mut around, &dir, path, bytes);
        self.around = around;
        self.counted("write", &dir, Some(path), written)
    }

    fn remove(&mut self, dir: Dir, path: &Path) -> Result<(), Failed> {
        if let Err(e) = self.have_to_change(&dir) {
            return Err(self.count("lock", &dir, None, e));
        }
        let mut around = std::mem::replace(&mut self.around, Around::unknown());
        let removed = self.try_remove(&mut around, &dir, path);
        self.counted("remove", &dir, Some(path), removed)
    }

    fn clear(&mut self, dir: Dir) -> Result<(), Failed> {
        if let Err(e) = self.have_to_change(&dir) {
            return Err(self.count("lock", &dir, None, e));
        }
        let mut around = std::mem::replace(&mut self.around, Around::unknown());
        let cleared = self.try_clear(&mut around, &dir);
        self.around = around;
        self.counted("clear", &dir, None, cleared)
    }

    fn run(&mut self, dir: Dir, command: &str) -> Result<Exit, Failed> {
        if let Err(e) = self.have_to_run(&dir) {
            return Err(self.count("lock", &dir, None, e));
        }
        self.around.forget();
        let mut around = Around::unknown();
        let exit = self.try_run(&mut around, &dir, command);
        self.counted("run", &dir, None, exit)
    }
}
