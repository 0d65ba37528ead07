// The input is read as the text of a change set.
ghost use Rattle.std.specs.Prelude.{◌≡◌, ◌≤◌, ◌<◌, [], List, ℕ, Ok, length, IfOk, IfErr, IsErrOf, OnOk};
ghost use Rattle.ae_outside.specs.Causes.{HasRisen};
ghost use Rattle.ae_bundle.specs.Bundled.{Bundled, Fits};
ghost use Rattle.ae_bundle.specs.declared.bundle.Bundle.{Bundle};
ghost use Rattle.ae_bundle.specs.declared.error.BundleError.{BundleError};
ghost use Rattle.ae_dist.specs.Receiving.{HasCome, IsReceived, IsUnread, TakesNoMore, outcome_of};

use ae_base::{Outcome, Refusal};
use ae_bundle::{Bundle, BundleError, BundleReader};
use ae_outside::Source;
use std::alloc::Global;

// The most bytes of a text.
const MOST_TEXT_BYTES: usize = 68_157_440;

// How many bytes are asked for at once.
const PIECE_BYTES: usize = 65_536;

fn outcome_of(error: BundleError) -> Outcome
    ensures { result ≡ outcome_of error }
{
    match error {
        BundleError::Bad => Outcome::Refused(Refusal::BadBundle),
        BundleError::Memory => Outcome::Memory,
    }
}

// The change set whose text came.
fn finished(reader: BundleReader) -> Result<Bundle, Outcome>
    ensures is { (stream : List ℕ) → reader ≡ Ok stream → IfOk result (λ bundle. Bundled stream bundle) }
    ensures bad { (stream : List ℕ) → reader ≡ Ok stream →
        IfErr result (λ why. (why ≡ Outcome.Refused Refusal.BadBundle) × ((bundle : Bundle) → Bundled stream bundle → ⊥)) }
{
    match reader.finish() {
        Ok(bundle) => Ok(bundle),
        Err(error) => Err(outcome_of(error)),
    }
}

// Feeds the reader what the input has, to its end: at most what the longest text has bytes, and one.
fn fill_reader<I: Source>(
    alloc: Global,
    reader: &mut BundleReader,
    piece: &mut [u8],
    input: &mut I,
) -> Result<(), Outcome>
    requires empty { reader.old ≡ Ok [] }
    requires room { 0 < length piece.old }
    ensures filled { OnOk result (HasCome I.tells (I.left input.old) [] reader.new) }
    ensures ended { OnOk result (I.tells → I.left input.new ≡ []) }
    ensures unread { IfErr result (IsUnread I.tells (I.left input.old)
        (HasRisen (I.faults input.old) (I.faults input.new))) }
    ensures no_more { I.tells → TakesNoMore (I.left input.old) (I.left input.new) }
    ensures quiet { (IsErrOf result Outcome.SourceFault → ⊥) → I.faults input.new ≡ I.faults input.old }
    ensures later { I.faults input.old ≤ I.faults input.new }
{
    let mut taken: usize = 0;
    loop {
        let most = piece.len().min(MOST_TEXT_BYTES + 1 - taken);
        let count = match input.read(&mut piece[..most]) {
            Ok(count) => count,
            Err(_) => return Err(Outcome::SourceFault),
        };
        if count == 0 {
            return Ok(());
        }
        if let Err(error) = reader.feed(alloc, &piece[..count]) {
            return Err(outcome_of(error));
        }
        reader.note_bounded();
        taken += count;
    }
}

/// The change set whose text the input is, which is read to its end; of any other input no more than is needed to know that it is
/// none, and never more than the longest text has bytes, and one.
pub fn receive_bundle<I: Source>(alloc: Global, input: &mut I) -> Result<Bundle, Outcome>
    ensures received { IfOk result (IsReceived I.tells (I.left input.old) (I.left input.new)) }
    ensures fits { IfOk result Fits }
    ensures unread { IfErr result (IsUnread I.tells (I.left input.old)
        (HasRisen (I.faults input.old) (I.faults input.new))) }
    ensures no_more { I.tells → TakesNoMore (I.left input.old) (I.left input.new) }
    // An input that failed isn't asked again, as if it hadn't.
    ensures quiet { (IsErrOf result Outcome.SourceFault → ⊥) → I.faults input.new ≡ I.faults input.old }
    ensures later { I.faults input.old ≤ I.faults input.new }
{
    let Ok(mut piece) = vec![in alloc; 0; PIECE_BYTES] else {
        return Err(Outcome::Memory);
    };
    let Ok(mut reader) = BundleReader::new(alloc) else {
        return Err(Outcome::Memory);
    };
    let filled = fill_reader(alloc, &mut reader, &mut piece, input);
    drop(piece);
    match filled {
        Ok(()) => finished(reader),
        Err(why) => {
            drop(reader);
            Err(why)
        }
    }
}
