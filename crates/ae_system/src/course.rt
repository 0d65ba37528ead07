// The course of a command: how it comes by what it shares with others, and what it keeps where its call is made again.
use crate::home::Home;
use crate::lock::{Lock, Patience, Place, Share, take_lock};
use crate::made::{Job, Made, Mark};
use crate::places::{Moment, is_denied};
use crate::taken::Taken;
use ae_outside::Exit;
use std::alloc::Global;
use std::cell::{Cell, RefCell, RefMut};
use std::fs::File;
use std::io;
use std::io::ErrorKind;
use std::rt::{Clock, Files};

// So often a call is made again where what it had read has changed while it had let the lock go. The last one doesn't let it go.
const MOST_CHANGES: u32 = 2;

/// How a command comes by the store's lock and the directories.
#[derive(Clone, Copy, Debug, PartialEq, Eq)]
pub enum Manner {
    /// It runs something, and may let the store's lock go meanwhile. It has each directory to itself from when it first asks for it.
    Running,
    /// It runs nothing. For a directory that another command has it waits without the store's lock, and is then made again.
    Single,
    /// It can't be made again, so it waits for no directory.
    Once,
    /// Several commands, one after another, over what was read once: it waits, before it takes the store's lock, until no run of others is
    /// under way that has let it go, and then it needs no lock of a directory.
    Script,
    /// A script that waits for no run, and may ask for no directory.
    Records,
}

// A file that was put into a directory, by the SHA-256 of its bytes.
#[derive(Drop)]
struct Put {
    place: String,
    digest: [u8; 32],
}

// Why a call is to be made again.
#[derive(Clone, Copy, Debug, PartialEq, Eq)]
enum Lost {
    // What it had read has changed, as it had let the store's lock go.
    Changed,
    // It has waited for a directory without the store's lock.
    Waited,
}

/// What a command keeps through the turns of its call: the locks of directories and of runs, the runs that it has made, what it has put into
/// directories, and what is left of its patience.
#[derive(Drop)]
pub struct Course {
    alloc: Global,
    manner: Cell<Manner>,
    // When the command began.
    began: Moment,
    patience: Patience,
    taken: RefCell<Taken>,
    made: RefCell<Made>,
    // What it has put into develop directories, the newest of a place last.
    put: RefCell<Vec<Put>>,
    lost: Cell<Option<Lost>>,
    changes: Cell<u32>,
    // Whether it has run something, and had let the store's lock go meanwhile.
    has_run: Cell<bool>,
}

// What is kept, which nothing else uses meanwhile.
fn borrowed<T>(kept: &RefCell<T>) -> io::Result<RefMut<'_, T>> {
    match kept.try_borrow_mut() {
        Ok(kept) => Ok(kept),
        Err(_) => Err(io::Error::from(ErrorKind::ResourceBusy)),
    }
}

impl Course {
    /// The course of a command that begins at this moment.
    pub fn new(alloc: Global, manner: Manner, patience: Patience, began: Moment) -> Course {
        Course {
            alloc,
            manner: Cell::new(manner),
            began,
            patience,
            taken: RefCell::new(Taken::none(alloc)),
            made: RefCell::new(Made::nothing(alloc)),
            put: RefCell::new(Vec::new(alloc)),
            lost: Cell::new(None),
            changes: Cell::new(0),
            has_run: Cell::new(false),
        }
    }

    /// How the command comes by what it shares.
    pub fn manner(&self) -> Manner {
        self.manner.get()
    }

    /// When the command began, which is the same in each turn of its call.
    pub fn began(&self) -> Moment {
        self.began
    }

    /// Whether the call is to be made again.
    pub fn is_lost(&self) -> bool {
        self.lost.get().is_some()
    }

    /// The call is to be made again, as what it had read has changed.
    pub fn note_changed(&self) {
        self.lost.set(Some(Lost::Changed));
        self.changes.set(self.changes.get().saturating_add(1));
    }

    /// Begins the next turn, where the call is to be made again. Answers whether it is.
    pub fn begin_again(&self) -> bool {
        if !self.is_lost() {
            return false;
        }
        self.lost.set(None);
        if let Ok(mut made) = self.made.try_borrow_mut() {
            made.begin_again(self.alloc);
        }
        true
    }

    /// Whether the command may let the store's lock go while it runs something.
    pub fn lets_go(&self) -> bool {
        self.manner() == Manner::Running && self.changes.get() < MOST_CHANGES
    }

    /// From now on the call is made once more, and not again.
    pub fn hold_on(&self) {
        self.manner.set(Manner::Once);
    }

    /// Whether what goes on is said, as standard error is a terminal.
    pub fn says(&self) -> bool {
        self.patience.says()
    }

    /// From now on nothing is waited for.
    pub fn hurry(&self) {
        self.patience.end();
    }

    /// Takes the lock of the store, which is waited for as long as the patience lasts, and without an end where a run was made.
    pub fn take_store<R: Files<File = File> + Clock + Eprint>(
        &self,
        rt: &R,
        place: Place,
    ) -> io::Result<Lock> {
        if self.has_run.get() {
            return take_lock(
                rt,
                self.alloc,
                place,
                Share::Alone,
                &self.patience.without_end(),
            );
        }
        take_lock(rt, self.alloc, place, Share::Alone, &self.patience)
    }

    /// What goes before the lock of the store: a script waits there for the runs of others. Who may not hold their lock may ask for no
    /// directory.
    pub fn go_before<R: Files<File = File> + Alloc + Clone + Drop + Clock + Eprint>(
        &self,
        rt: &R,
        home: Home,
    ) -> io::Result<()> {
        if self.manner() != Manner::Script {
            return Ok(());
        }
        match borrowed(&self.taken)?.take_runs(rt, self.alloc, home, &self.patience) {
            Err(e) if is_denied(&e) => {
                self.manner.set(Manner::Records);
                Ok(())
            }
            taken => taken,
        }
    }

    /// Shares the lock of runs, before the store's is let go. Answers whether it is shared.
    pub fn share_runs<R: Files<File = File> + Alloc + Clone + Drop>(
        &self,
        rt: &R,
        home: Home,
    ) -> bool {
        match self.taken.try_borrow_mut() {
            Ok(mut taken) => matches!(taken.share_runs(rt, self.alloc, home), Ok(true)),
            Err(_) => false,
        }
    }

    /// Notes that the store's lock is let go for a run.
    pub fn note_let_go(&self) {
        self.has_run.set(true);
    }

    /// Takes a directory, where no other process has it.
    pub fn take<R: Files<File = File> + Alloc + Clone + Drop + Clock + Eprint>(
        &self,
        rt: &R,
        home: Home,
        place: &str,
    ) -> io::Result<()> {
        let at_once = Patience::new(0, false);
        borrowed(&self.taken)?.take(rt, self.alloc, home, place, &at_once)
    }

    /// Waits for a directory, while the store's lock isn't held. Then the call is to be made again.
    pub fn wait_for<R: Files<File = File> + Alloc + Clone + Drop + Clock + Eprint>(
        &self,
        rt: &R,
        home: Home,
        place: &str,
    ) -> io::Result<()> {
        borrowed(&self.taken)?.take(rt, self.alloc, home, place, &self.patience)?;
        self.lost.set(Some(Lost::Waited));
        Ok(())
    }

    /// Whether the command waits for a directory that another one has.
    pub fn waits(&self) -> bool {
        matches!(self.manner(), Manner::Running | Manner::Single)
    }

    /// Whether it has the directory of this place to itself, by its lock.
    pub fn has<R: Files<File = File> + Alloc + Clone + Drop>(
        &self,
        files: &R,
        home: Home,
        place: &str,
    ) -> io::Result<bool> {
        borrowed(&self.taken)?.holds(files, self.alloc, home, place)
    }

    /// Whether what is asked of the directories is noted.
    pub fn takes_notes(&self) -> bool {
        self.manner() == Manner::Running
    }

    /// Notes what was read of a file.
    pub fn note_read(&self, place: String, mark: Mark) -> io::Result<()> {
        if self.takes_notes() {
            borrowed(&self.made)?.note_read(place, mark)?;
        }
        Ok(())
    }

    /// Notes that something is written or removed.
    pub fn note_change(&self) -> io::Result<()> {
        if self.takes_notes() {
            borrowed(&self.made)?.note_change()?;
        }
        Ok(())
    }

    /// Notes what was put at a place of a develop directory.
    pub fn note_put(&self, place: String, digest: [u8; 32]) -> io::Result<()> {
        if self.takes_notes() {
            borrowed(&self.put)?.push(Put { place, digest })?;
        }
        Ok(())
    }

    /// The SHA-256 of what this command itself has put at a place, in this turn of its call or an earlier one.
    pub fn put_at(&self, place: &str) -> io::Result<Option<[u8; 32]>> {
        let put = borrowed(&self.put)?;
        let last = put.iter().rfind(|put| put.place.as_str() == place);
        Ok(last.map(|put| put.digest))
    }

    /// Notes how a run ended.
    pub fn note_run(&self, job: Job, exit: Exit) -> io::Result<()> {
        if self.takes_notes() {
            borrowed(&self.made)?.note_run(self.alloc, job, exit)?;
        }
        Ok(())
    }

    /// How the run ended that was made in the turn before and stands for this one, where there is one.
    pub fn answer(&self, job: Job) -> io::Result<Option<Exit>> {
        Ok(borrowed(&self.made)?.answer(job))
    }
}
