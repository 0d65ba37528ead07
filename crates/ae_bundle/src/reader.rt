// A change set, read from a stream in pieces.
ghost use Rattle.std.specs.Prelude.{◌≡◌, ◌≤◌, ◌++◌, ℕ, List, [], Ok, Err, length, flat_map, IfOk, IfErr, OnOk, IsErrOf, MatchResult};
ghost use Rattle.ae_bundle.specs.declared.bundle.Bundle.{Bundle};
ghost use Rattle.ae_bundle.specs.declared.error.BundleError.{BundleError};
ghost use Rattle.ae_bundle.specs.Bundled.{Bundled, BeginsNone, most_text_bytes};

use crate::reading::Reading;
use crate::{Bundle, BundleError};
use std::alloc::{AllocError, Global};
use std::marker::Model;

/// A change set that is read piece by piece. Contracts see what came so far, or the error that it has answered.
#[derive(Drop)]
pub struct BundleReader {
    reading: Result<Reading, BundleError>,
}

impl Model for BundleReader {
    ghost use Rattle.std.specs.Prelude.{List, ℕ, Result, IfOk};
    ghost use Rattle.ae_bundle.specs.declared.error.BundleError.{BundleError};
    ghost use Rattle.ae_bundle.specs.Reading.{seen, IsGood};

    ghost Value = { Result (List ℕ) BundleError };

    ghost view = { λ r. seen r.reading };

    ghost invariant = { λ r. IfOk r.reading IsGood };
}

impl BundleReader {
    /// Nothing came so far.
    pub fn new(alloc: Global) -> Result<BundleReader, AllocError>
        ensures { IfOk result (λ reader. reader ≡ Ok []) }
    {
        Ok(BundleReader {
            reading: Ok(Reading::new(alloc)),
        })
    }

    /// Takes in the next piece of the stream.
    pub fn feed(&mut self, alloc: Global, piece: &[u8]) -> Result<(), BundleError>
        // It came after what came before.
        ensures fed { (stream : List ℕ) → self.old ≡ Ok stream →
            OnOk result (self.new ≡ Ok (stream ++ piece.now)) }
        // No text begins with what came.
        ensures bad { (stream : List ℕ) → self.old ≡ Ok stream → IsErrOf result BundleError.Bad →
            BeginsNone (stream ++ piece.now) }
        // An error is the answer to each later call.
        ensures kept { IfErr result (λ error. self.new ≡ Err error) }
        ensures later { (error : BundleError) → self.old ≡ Err error → result ≡ Err error }
    {
        let answer = match &mut self.reading {
            Ok(reading) => reading.take(alloc, piece),
            Err(error) => Err(*error),
        };
        if let Err(error) = answer {
            self.reading = Err(error);
        }
        answer
    }

    /// A law: what came is never more than the longest text has.
    pub fn note_bounded(&self)
        ensures { (stream : List ℕ) → self.now ≡ Ok stream → length stream ≤ most_text_bytes }
    {
        let _ = &self.reading;
    }

    /// The change set whose text came, where nothing comes after it.
    pub fn finish(self) -> Result<Bundle, BundleError>
        // What came is the text of what is answered,
        ensures is { (stream : List ℕ) → self ≡ Ok stream → IfOk result (λ bundle. Bundled stream bundle) }
        // And where it is the text of none, that is answered.
        ensures bad { (stream : List ℕ) → self ≡ Ok stream →
            IfErr result (λ error. (error ≡ BundleError.Bad)
            × ((bundle : Bundle) → Bundled stream bundle → ⊥)) }
        ensures later { (error : BundleError) → self ≡ Err error → result ≡ Err error }
    {
        match self.reading {
            Ok(reading) => match reading.end() {
                Some(bundle) => Ok(bundle),
                None => Err(BundleError::Bad),
            },
            Err(error) => Err(error),
        }
    }
}

/// The change set whose text came in these pieces.
pub fn read_bundle(alloc: Global, pieces: &[Vec<u8>]) -> Result<Bundle, BundleError>
    // They are the text of what is answered,
    ensures is { IfOk result (λ bundle. Bundled (flat_map (λ piece. piece.items) pieces.now) bundle) }
    // And where they are the text of one, however it is cut, that is answered, unless memory runs out.
    ensures only { (bundle : Bundle) → Bundled (flat_map (λ piece. piece.items) pieces.now) bundle →
        MatchResult result (λ read. read ≡ bundle) (λ error. error ≡ BundleError.Memory) }
{
    let mut reader = BundleReader::new(alloc)?;
    for piece in pieces {
        if let Err(error) = reader.feed(alloc, piece.as_slice()) {
            return Err(error);
        }
    }
    reader.finish()
}
