// The pieces of the files of a tree.
ghost use Rattle.std.specs.Prelude.{◌≡◌, ◌≤◌, ◌++◌, ℕ, List, length, All, IfOk, OnOk};
ghost use Rattle.std.specs.Option.{option_to_list};
ghost use Rattle.ae_base.specs.Limits.{most_file_bytes, most_units};
ghost use Rattle.ae_base.specs.Rows.{Row};
ghost use Rattle.ae_types.specs.Frozen.{present, first_place, other_places};
ghost use Rattle.ae_places.specs.Placing.{IsShort};
ghost use Rattle.ae_history.specs.Placing.{piece_at, pieces_at};

use crate::placing::padded;
use ae_base::{Snapshot, Text};
use ae_vault::{Piece, PieceList};
use std::alloc::{AllocError, Global};

fn first_place(places: &[u64]) -> u64
    ensures { result ≡ first_place places.now }
{
    match places {
        [] => 0,
        [place, ..] => *place,
    }
}

fn other_places(places: &[u64]) -> &[u64]
    ensures { result.now ≡ other_places places.now }
{
    match places {
        [] => places,
        [_, others @ ..] => others,
    }
}

// The piece of bytes at this place; none for no bytes.
fn piece_of(at: u64, bytes: Vec<u8>) -> Result<Option<Piece>, AllocError>
    requires at { at ≤ most_units }
    requires short { length bytes.items ≤ most_file_bytes }
    ensures { IfOk result (λ piece. piece ≡ piece_at at bytes.items) }
{
    if bytes.is_empty() {
        return Ok(None);
    }
    let bytes = padded(bytes)?;
    Ok(Some(Piece { at: at * 64, bytes }))
}

// Adds the piece of bytes at this place, where there are any.
fn add_piece(pieces: &mut PieceList, at: u64, bytes: Vec<u8>) -> Result<(), AllocError>
    requires at { at ≤ most_units }
    requires short { length bytes.items ≤ most_file_bytes }
    ensures { OnOk result (pieces.new ≡ pieces.old ++ option_to_list (piece_at at bytes.items)) }
{
    if let Some(piece) = piece_of(at, bytes)? {
        pieces.push(piece)?;
    }
    Ok(())
}

// Adds the piece of a file, and answers the places that are left.
fn add_file<'a>(
    alloc: Global,
    pieces: &mut PieceList,
    places: &'a [u64],
    bytes: Option<Text>,
) -> Result<&'a [u64], AllocError>
    requires inside { All (λ at. at ≤ most_units) places.now }
    requires short { IsShort bytes }
    ensures pieces { IfOk result (λ others. (more : List (List ℕ)) → pieces.new ++ pieces_at others.now more ≡ pieces.old ++ pieces_at places.entry.now (option_to_list bytes ++ more)) }
    ensures inside { IfOk result (λ others. All (λ at. at ≤ most_units) others.now) }
{
    match bytes {
        Some(text) => {
            add_piece(pieces, first_place(places), text.into_bytes(alloc)?)?;
            Ok(other_places(places))
        }
        None => Ok(places),
    }
}

/// The pieces of the files of a tree at these places, in the order of their paths. They take the bytes over: a file has no other room
/// than its own, where that has room for the zeroes too.
pub fn pieces_for(alloc: Global, tree: Snapshot, places: &[u64]) -> Result<PieceList, AllocError>
    requires short { All (λ (row : Row). IsShort row.1) tree }
    requires inside { All (λ at. at ≤ most_units) places.now }
    ensures { IfOk result (λ pieces. pieces ≡ pieces_at places.now (present tree)) }
{
    let mut pieces = PieceList::new(alloc);
    let mut rest = places;
    for (_, bytes) in tree.into_vec() {
        rest = add_file(alloc, &mut pieces, rest, bytes)?;
    }
    Ok(pieces)
}
