//! Many files at once: all entries of a batch or none, at every stop.
#![tactic(auto)]

mod batch;
mod body;
mod entry;
mod error;
mod get;
mod names;
mod open;
mod packed;
mod piece;
mod vault;

pub use batch::Batch;
pub use entry::{Entry, EntryList};
pub use error::VaultError;
pub use names::{are_entries, no_entry_is_pack};
pub use piece::{Piece, PieceList, are_pieces};
pub use vault::Vault;
