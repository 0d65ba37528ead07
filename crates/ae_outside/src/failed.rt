// Why a call of the outside didn't do its work.

/// A call that didn't do its work. The count of faults of the object called has risen.
#[derive(Clone, Copy, Debug, PartialEq, Eq)]
pub struct Failed;

/// Why a file of a disk isn't read.
#[derive(Clone, Copy, Debug, PartialEq, Eq)]
pub enum ReadError {
    Failed,
    Memory,
}

/// Why a file of a directory isn't read.
#[derive(Clone, Copy, Debug, PartialEq, Eq)]
pub enum SiteError {
    Failed,
    Memory,
}
