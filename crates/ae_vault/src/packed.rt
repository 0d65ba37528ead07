// Writing pieces into the packed file.
ghost use Rattle.std.specs.Prelude.{◌≡◌, ◌⊎◌, ◌≤◌, ◌<◌, ◌+◌, ◌^◌, [], ◌∷◌, ℕ, length, true, slice_index, IfOk, OnOk};
ghost use Rattle.ae_outside.specs.Causes.{HasCause};
ghost use Rattle.ae_outside.specs.Image.{Image};
ghost use Rattle.ae_outside.specs.State.{reads, MayLeave, GoesOn};
ghost use Rattle.ae_vault.specs.Packing.{PackBegun, IsExtended};
ghost use Rattle.ae_vault.specs.Pieces.{pack, are_pieces, HasPiece, HasPieces, PackedOver};

use crate::Piece;
use ae_outside::{Disk, Failed};

/// The file with the bytes of all versions.
pub const PACK: &str = "pack";

const ZEROS: [u8; 512] = [0; 512];

fn front(bytes: &[u8], len: u64) -> &[u8]
    requires { len ≤ length bytes.now }
    ensures { length result.now ≡ len }
{
    &bytes[..len as usize]
}

// Writes zero bytes from the end of the packed file up to a place.
fn fill<D: Disk>(disk: &mut D, size: u64, to: u64) -> Result<(), Failed>
    requires size { D.tells → size ≡ length (reads (D.state disk.old) pack) }
    requires later { size ≤ to }
    ensures read { OnOk result (D.tells → IsExtended to (reads (D.state disk.old) pack) (reads (D.state disk.new) pack)) }
    ensures change { D.tells → GoesOn (PackBegun [] size) (D.state disk.old) (D.state disk.new) }
    ensures cause { HasCause (D.faults disk.old) (D.faults disk.new) result }
{
    let mut size = size;
    while size < to {
        let len = (to - size).min(512);
        disk.write_at(PACK, size, front(&ZEROS, len))?;
        size += len;
    }
    Ok(())
}

// Writes one piece, and answers the new length of the packed file.
fn put_piece<D: Disk>(disk: &mut D, size: u64, piece: &Piece) -> Result<u64, Failed>
    requires size { D.tells → size ≡ length (reads (D.state disk.old) pack) }
    requires end { piece.now.at + length piece.now.bytes < 2 ^ 64 }
    ensures size { IfOk result (λ n. D.tells → n ≡ length (reads (D.state disk.new) pack)) }
    ensures no_shorter { IfOk result (λ n. size ≤ n) }
    ensures has { OnOk result (D.tells → HasPiece piece.now (reads (D.state disk.new) pack)) }
    ensures same { OnOk result (D.tells → (k : ℕ) → k < size → k < piece.now.at ⊎ piece.now.at + length piece.now.bytes ≤ k → slice_index (reads (D.state disk.new) pack) k ≡ slice_index (reads (D.state disk.old) pack) k) }
    ensures change { D.tells → GoesOn (PackBegun (piece.now ∷ []) size) (D.state disk.old) (D.state disk.new) }
    ensures cause { HasCause (D.faults disk.old) (D.faults disk.new) result }
{
    let bytes = piece.bytes.bytes();
    fill(disk, size, size.max(piece.at))?;
    disk.write_at(PACK, piece.at, bytes)?;
    Ok(size.max(piece.at + bytes.len() as u64))
}

// Writes the pieces, one after another.
fn put_pieces<D: Disk>(disk: &mut D, size: u64, pieces: &[Piece]) -> Result<(), Failed>
    requires size { D.tells → size ≡ length (reads (D.state disk.old) pack) }
    requires pieces { are_pieces pieces.now ≡ true }
    ensures has { OnOk result (D.tells → HasPieces pieces.now (reads (D.state disk.new) pack)) }
    ensures change { D.tells → GoesOn (PackBegun pieces.now size) (D.state disk.old) (D.state disk.new) }
    ensures cause { HasCause (D.faults disk.old) (D.faults disk.new) result }
{
    let mut size = size;
    for piece in pieces {
        size = put_piece(disk, size, piece)?;
    }
    Ok(())
}

/// Puts the pieces; without pieces it makes no call.
pub fn write_pieces<D: Disk>(disk: &mut D, pieces: &[Piece]) -> Result<(), Failed>
    requires { are_pieces pieces.now ≡ true }
    ensures has { OnOk result (D.tells → (f : Image) → MayLeave (D.state disk.new) f → HasPieces pieces.now (f pack)) }
    ensures change { D.tells → GoesOn (PackedOver pieces.now) (D.state disk.old) (D.state disk.new) }
    ensures cause { HasCause (D.faults disk.old) (D.faults disk.new) result }
{
    if pieces.is_empty() {
        return Ok(());
    }
    let size = disk.size(PACK)?;
    put_pieces(disk, size, pieces)?;
    disk.sync(PACK)
}
