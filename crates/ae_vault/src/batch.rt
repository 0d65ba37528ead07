// Entries with the body that says them, and pieces.
ghost use Rattle.std.specs.Prelude.{◌≡◌, ◌↔◌, ◌<◌, ◌^◌, [], IsTrue, List, ℕ, length, true, Some, IfOk};
ghost use Rattle.ae_base.specs.Bytes.{AreBytes};
ghost use Rattle.ae_vault.specs.Body.{body_of, entries_put};
ghost use Rattle.ae_vault.specs.Pieces.{no_entry_is_pack, are_pieces};
ghost use Rattle.ae_vault.specs.Vault.{are_entries, body_entries, all_entry_names};

use crate::body::write_body;
use crate::entry::entries_put;
use crate::{Entry, EntryList, Piece, PieceList, Vault};
use std::alloc::{AllocError, Global};
use std::marker::Model;

/// Entries and pieces that are put all or none. Contracts see both.
#[derive(Drop)]
pub struct Batch {
    entries: EntryList,
    pieces: PieceList,
    body: Vec<u8>,
}

impl Model for Batch {
    ghost use Rattle.std.specs.Prelude.{◌≡◌, true, Some};
    ghost use Rattle.ae_vault.specs.Vault.{body_entries, are_entries};
    ghost use Rattle.ae_vault.specs.Body.{body_of};
    ghost use Rattle.ae_vault.specs.Batch.{BatchRecord};
    ghost use Rattle.ae_vault.specs.Pieces.{no_entry_is_pack, are_pieces};

    ghost Value = { BatchRecord };

    ghost view = { λ b. record { entries = b.entries; pieces = b.pieces } };

    ghost invariant = { λ b. (b.body.items ≡ body_of b.entries) × (body_entries b.body.items ≡ Some b.entries) × (are_entries b.entries ≡ true) × (no_entry_is_pack b.entries ≡ true) × (are_pieces b.pieces ≡ true) };
}

impl Batch {
    /// Whether it has neither entries nor pieces.
    pub fn is_empty(&self) -> bool
        ensures { IsTrue result ↔ (self.now.entries ≡ []) × (self.now.pieces ≡ []) }
    {
        self.entries.len() == 0 && self.pieces.len() == 0
    }

    /// The entries, in the order of their names.
    pub fn entries(&self) -> &[Entry]
        ensures { result.now ≡ self.now.entries }
    {
        self.entries.as_slice()
    }

    /// The pieces of the packed file, in their order.
    pub fn pieces(&self) -> &[Piece]
        ensures value { result.now ≡ self.now.pieces }
        ensures pieces { are_pieces self.now.pieces ≡ true }
    {
        self.pieces.as_slice()
    }

    /// The text that says the entries.
    pub fn body(&self) -> &[u8]
        ensures text { result.now ≡ body_of self.now.entries }
        // It reads as just the entries, and no other bytes do.
        ensures body { body_entries result.now ≡ Some self.now.entries }
        ensures one_text { (bytes : List ℕ) → AreBytes bytes → body_entries bytes ≡ Some self.now.entries → bytes ≡ result.now }
        ensures names { all_entry_names self.now.entries ≡ true }
        ensures no_pack { no_entry_is_pack self.now.entries ≡ true }
    {
        self.body.as_slice()
    }
}

impl Vault {
    /// A batch of just these entries and pieces. An entry with an empty text is one without bytes. `are_entries`, `no_entry_is_pack` and `are_pieces` test what is asked of them.
    pub fn prepare(
        alloc: Global,
        entries: EntryList,
        pieces: PieceList,
    ) -> Result<Batch, AllocError>
        requires entries { are_entries entries ≡ true }
        requires no_pack { no_entry_is_pack entries ≡ true }
        requires count { length entries < 2 ^ 32 }
        requires pieces { are_pieces pieces ≡ true }
        ensures { IfOk result (λ batch. batch ≡ record { entries = entries_put entries; pieces = pieces }) }
    {
        let entries = entries_put(alloc, entries)?;
        let body = write_body(alloc, entries.as_slice())?;
        Ok(Batch {
            entries,
            pieces,
            body,
        })
    }
}
