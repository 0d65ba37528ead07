// The descriptors of the standard streams, and whether the system shows those of this process.
use crate::folder::way_by;
use crate::places::node_of;
use std::alloc::Global;
use std::fs::File;
use std::io;
use std::os::fd::{AsRawFd, IntoRawFd, RawFd};
use std::rt::Files;

// The last of them: those of the input, the output and the error are 0, 1 and 2.
const LAST: RawFd = 2;

// A folder that is there everywhere.
const FOLDER: &str = "/";

/// Has the descriptors of the standard streams open, so that no file is opened in the place of a stream that was closed. Such
/// a one is held by a folder from then on, so that reading it and writing to it fail. The system gives the lowest descriptor
/// that is closed.
pub fn fill(files: &impl Files<File = File>) -> io::Result<()> {
    for _ in 0..=LAST {
        let folder = File::open(files, FOLDER)?;
        if folder.as_raw_fd() > LAST {
            return Ok(());
        }
        folder.into_raw_fd();
    }
    Ok(())
}

/// Whether the system shows descriptors, so that folders are held and reached by them.
pub fn are_shown(files: &impl Files<File = File>, alloc: Global) -> io::Result<bool> {
    let folder = File::open(files, FOLDER)?;
    let node = node_of(&folder.metadata()?);
    Ok(way_by(files, alloc, &folder, node)?.is_some())
}
