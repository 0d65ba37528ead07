// The directories, what their files hold, and how runs in them end.
use ae_base::{ChangeNo, Delta, Text};

/// A directory: the current folder, a change's for its development, the one in which a delta is integrated, and a
/// change's with the baseline for its baseline tests.
#[derive(Clone, Copy, Debug, PartialEq, Eq)]
pub enum Dir {
    Here,
    Develop(ChangeNo),
    Integrate(Delta),
    Base(ChangeNo),
}

/// How a run ended: by its code, or by a signal.
#[derive(Clone, Copy, Debug, PartialEq, Eq)]
pub enum Exit {
    Code(u8),
    Signal(u8),
}

/// What a read of at most so many bytes finds.
#[derive(Debug, Drop)]
pub enum Content {
    Absent,
    Bytes(Text),
    TooLong,
}
