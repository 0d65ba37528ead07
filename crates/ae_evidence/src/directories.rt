// What a command reads in directories, and makes of them.
use ae_base::{Path, PathList, Text};
use ae_outside::{Content, Dir};
use ae_types::Rows;

/// Files that were read, with what each held.
pub type ScanList = Rows<(Path, Content)>;

/// Files with what each is to hold, or `None` for one that is to be absent. Where a path stands twice, the later row counts.
pub type FileList = Rows<(Path, Option<Text>)>;

/// A change of a directory.
#[derive(Drop)]
pub enum DirChange {
    /// It is emptied, and gets these files.
    Fill(Dir, FileList),
    /// It gets these files. Others stay.
    Put(Dir, FileList),
    /// Each of these paths gets an empty file, where it has none.
    Make(Dir, PathList),
}

/// Changes of directories, one after another.
pub type DirChangeList = Rows<DirChange>;
