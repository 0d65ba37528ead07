// What a command sees of the directories.
use ae_evidence::{RunRowList, ScanList};
use ae_outside::Content;

/// What a command sees of the directories: the file with attributes, the files of the change's directory, and the runs that
/// it made. A command that asks for none of them sees an absent file and empty lists.
#[derive(Drop)]
pub struct View {
    pub attributes: Content,
    pub develop: ScanList,
    pub runs: RunRowList,
}
