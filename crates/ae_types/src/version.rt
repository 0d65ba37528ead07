// Where the bytes of a file's version lie, and what they are.

use crate::Rows;

/// A version of a file: its number, its place in the packed region in units of 64 bytes, its length in bytes, and the
/// SHA-256 of its bytes.
#[derive(Clone, Copy, Debug, PartialEq, Eq)]
pub struct VersionRef {
    pub number: u64,
    pub at: u64,
    pub length: u32,
    pub digest: [u8; 32],
}

/// Versions, one after another.
pub type VersionList = Rows<VersionRef>;
