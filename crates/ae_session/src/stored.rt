// Bytes that are there already, as a source.
ghost use Rattle.std.specs.Prelude.{◌≡◌, take, min, length};

use ae_outside::{Failed, Source};

/// A source of bytes that are there already: it never fails.
#[derive(Drop)]
pub(crate) struct Stored<'a> {
    pub rest: &'a [u8],
}

// Moves the first bytes to the front of `into`, and answers their number.
fn move_first(rest: &[u8], into: &mut [u8]) -> usize
    ensures least { result ≡ min (length rest.now) (length into.old) }
    ensures moved { take result into.new ≡ take result rest.now }
    ensures len { length into.new ≡ length into.old }
{
    let count = rest.len().min(into.len());
    into[..count].copy_from_slice(&rest[..count]);
    count
}

impl<'a> Source for Stored<'a> {
    ghost tells = { Unit {0} };

    ghost left = { λ source. source.rest.now };

    ghost faults = { λ _. 0 };

    fn read(&mut self, into: &mut [u8]) -> Result<usize, Failed> {
        let count = move_first(self.rest, into);
        self.rest = &self.rest[count..];
        Ok(count)
    }
}
