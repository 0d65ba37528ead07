// The files of a change are frozen where its development ends, and thawed where it goes back or is completed.
ghost use Rattle.std.specs.Prelude.{◌≡◌, ◌+◌, ◌≤◌, map, length, Some, None};
ghost use Rattle.ae_base.specs.Limits.{most_file_bytes};
ghost use Rattle.ae_types.specs.declared.change.ChangeFile.{ChangeFile};
ghost use Rattle.ae_types.specs.Frozen.{ref_of};
ghost use Rattle.ae_log.specs.After.{frozen_as, thawed};
ghost use Rattle.ae_log.specs.Applies.{CanFreeze};

use crate::PlaceList;
use ae_base::{Path, Snapshot, Text};
use ae_types::{Change, ChangeFile, ChangeFileList, VersionRef};
use sha2::{Digest, Sha256};
use std::alloc::Global;

// The version of this number at this place.
fn version(number: u64, at: u64, bytes: &[u8]) -> VersionRef
    requires { length bytes.now ≤ most_file_bytes }
    ensures { result ≡ ref_of (record { number = number; at = at; bytes = bytes.now }) }
{
    VersionRef {
        number,
        at,
        length: bytes.len() as u32,
        digest: Sha256::digest(bytes),
    }
}

// Gives each file its version of the tree; they are numbered from `next` on, and lie at these places.
fn freeze(files: &mut Vec<ChangeFile>, next: u64, tree: &[(Path, Option<Text>)], places: &[u64])
    requires { CanFreeze next tree.now places.now files.old.items }
    ensures { files.new.items ≡ map (frozen_as next tree.now places.now) files.old.items }
{
    let mut made = 0;
    for (at, file) in files.iter_mut().enumerate() {
        file.frozen = match &tree[at].1 {
            Some(bytes) => Some(version(next + made as u64, places[made], bytes.bytes())),
            None => None,
        };
        made += usize::from(tree[at].1.is_some());
    }
}

/// The development of the change ends: its files are frozen, and nobody reviews it or has passed it.
pub(crate) fn end_development(
    alloc: Global,
    change: &mut Change,
    next: u64,
    tree: &Snapshot,
    places: &PlaceList,
)
    requires { CanFreeze next tree.now places.now change.old.files }
    ensures { change.new ≡ record change.old { files = map (frozen_as next tree.now places.now) change.old.files; reviewing = None; reviewer = None } }
{
    let old = std::mem::replace(&mut change.files, ChangeFileList::new(alloc));
    let mut files = old.into_vec();
    freeze(&mut files, next, tree.as_slice(), places.as_slice());
    change.files = ChangeFileList::of(files);
    change.reviewing = None;
    change.reviewer = None;
}

// The files have no versions.
fn thaw_files(files: &mut Vec<ChangeFile>)
    ensures { files.new.items ≡ map thawed files.old.items }
{
    for file in files.iter_mut() {
        file.frozen = None;
    }
}

/// The files of the change have no versions.
pub(crate) fn thaw(alloc: Global, change: &mut Change)
    ensures { change.new ≡ record change.old { files = map thawed change.old.files } }
{
    let old = std::mem::replace(&mut change.files, ChangeFileList::new(alloc));
    let mut files = old.into_vec();
    thaw_files(&mut files);
    change.files = ChangeFileList::of(files);
}

/// The change goes back to its developer: its files are thawed, and nobody reviews it or has passed it.
pub(crate) fn send_back(alloc: Global, change: &mut Change)
    ensures { change.new ≡ record change.old { files = map thawed change.old.files; reviewing = None; reviewer = None } }
{
    thaw(alloc, change);
    change.reviewing = None;
    change.reviewer = None;
}
