// What happens to a project: who did it, when, why, to which change, and what it is.
use ae_base::{
    Action, ChangeNo, Ground, Kind, Path, Phase, ProjectName, Role, Snapshot, Text, Usage, User,
};
use ae_outside::Exit;
use ae_types::{Attributes, ChangeAttributes, Rows};

/// Places in the packed region, in units of 64 bytes.
pub type PlaceList = Rows<u64>;

/// A run: during which part of a change's life it was made, what was run, how it ended, and the tracked files before and
/// after it. `subject` is the SHA-256 of what was tried.
#[derive(Drop)]
pub struct RunEvent {
    pub during: Ground,
    pub kind: Kind,
    pub path: Option<Path>,
    pub command: Text,
    pub exit: Exit,
    pub before: Snapshot,
    pub after: Snapshot,
    pub subject: [u8; 32],
}

/// What an event is. `File` has a path, what the change does to it, its usage, and the edit that it begins from; `End` the
/// files that are frozen, the phase that follows, and a place for each that isn't removed.
#[derive(Drop)]
pub enum EventKind {
    Project(ProjectName, Attributes),
    Attributes(Attributes),
    RoleAdd(Role, User),
    RoleDrop(Role, User),
    New(ChangeAttributes),
    NewUndo,
    ChangeAttributes(ChangeAttributes),
    Begin,
    BeginUndo,
    File(Path, Action, Usage, u32),
    Unfile(Path),
    Run(RunEvent),
    End(Snapshot, Phase, PlaceList),
    EndUndo,
    ReviewBegin,
    ReviewBeginUndo,
    Pass,
    PassUndo,
    Fail,
    IBegin,
    IBeginUndo,
    IPass,
    IFail,
}

/// Something that happened: who did it, when, in seconds since 1970, why, to which change, and what it is. Where no reason was
/// given `why` is the empty text.
#[derive(Drop)]
pub struct Event {
    pub who: User,
    pub when: u64,
    pub why: Text,
    pub change: Option<ChangeNo>,
    pub what: EventKind,
}

/// Events, in the order in which they happened.
pub type EventList = Rows<Event>;
