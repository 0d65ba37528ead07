// Pieces of the packed file.
ghost use Rattle.std.specs.Prelude.{◌≡◌, [], ◌∷◌, ◌++◌, length, OnOk, OnErr};
ghost use Rattle.std.specs.List.{list_all};
ghost use Rattle.ae_vault.specs.Pieces.{are_apart, ends_before, is_piece, none_meet, are_pieces};

use ae_base::Text;
use std::alloc::{AllocError, Global};
use std::marker::Model;

/// Bytes of the packed file `pack` from a place on.
#[derive(Drop)]
pub struct Piece {
    /// in bytes
    pub at: u64,
    pub bytes: Text,
}

/// Pieces, which contracts see as the list of them.
#[derive(Drop)]
pub struct PieceList {
    pieces: Vec<Piece>,
}

impl Model for PieceList {
    ghost use Rattle.std.specs.Prelude.{List};
    ghost use Rattle.ae_vault.specs.declared.piece.Piece.{Piece};

    ghost Value = { List Piece };

    ghost view = { λ a. a.pieces.items };
}

impl PieceList {
    /// No pieces.
    pub fn new(alloc: Global) -> PieceList
        ensures { result ≡ [] }
    {
        PieceList {
            pieces: Vec::new(alloc),
        }
    }

    /// The list of these pieces.
    pub fn of(pieces: Vec<Piece>) -> PieceList
        ensures { result ≡ pieces.items }
    {
        PieceList { pieces }
    }

    /// Adds a piece at the end.
    pub fn push(&mut self, piece: Piece) -> Result<(), AllocError>
        ensures ok { OnOk result (self.new ≡ self.old ++ piece ∷ []) }
        ensures err { OnErr result (self.new ≡ self.old) }
    {
        self.pieces.push(piece)?;
        Ok(())
    }

    /// How many pieces there are.
    pub fn len(&self) -> usize
        ensures { result ≡ length self.now }
    {
        self.pieces.len()
    }

    /// The pieces, in their order.
    pub fn as_slice(&self) -> &[Piece]
        ensures { result.now ≡ self.now }
    {
        self.pieces.as_slice()
    }
}

// The end of the last place that a piece may have.
const LIMIT: u64 = 1 << 30;

fn len_of(piece: &Piece) -> u64
    ensures { result ≡ length piece.now.bytes }
{
    piece.bytes.bytes().len() as u64
}

fn is_piece(piece: &Piece) -> bool
    ensures { result ≡ is_piece piece.now }
{
    let len = len_of(piece);
    len >= 1 && piece.at % 64 == 0 && len % 64 == 0 && piece.at <= LIMIT && len <= LIMIT - piece.at
}

fn ends_before(first: &Piece, second: &Piece) -> bool
    ensures { result ≡ ends_before first.now second.now }
{
    first.at <= second.at && len_of(first) <= second.at - first.at
}

fn are_apart(first: &Piece, second: &Piece) -> bool
    ensures { result ≡ are_apart first.now second.now }
{
    ends_before(first, second) || ends_before(second, first)
}

fn is_apart_from(first: &Piece, pieces: &[Piece]) -> bool
    ensures { result ≡ list_all (are_apart first.now) pieces.now }
{
    pieces.iter().all(|piece| are_apart(first, piece))
}

fn none_meet(pieces: &[Piece]) -> bool
    ensures { result ≡ none_meet pieces.now }
{
    let mut rest = pieces;
    while let [first, after @ ..] = rest {
        if !is_apart_from(first, after) {
            return false;
        }
        rest = after;
    }
    true
}

fn are_all_pieces(pieces: &[Piece]) -> bool
    ensures { result ≡ list_all is_piece pieces.now }
{
    pieces.iter().all(|piece| is_piece(piece))
}

/// Whether each piece isn't empty, begins at a multiple of 64, has whole units of 64 bytes and ends at or below 2^30,
/// and no two meet.
pub fn are_pieces(pieces: &[Piece]) -> bool
    ensures { result ≡ are_pieces pieces.now }
{
    are_all_pieces(pieces) && none_meet(pieces)
}
