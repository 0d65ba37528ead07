// What is left of a text that is read straight from its bytes, as one in canonical form.
//
// Nothing is promised of what is read so: whoever reads prints it, and takes it only where just these bytes come of it. So no
// function here has a clause, and any of them may give up.

use ae_base::{Text, read_number};
use std::alloc::{AllocError, Global};

/// The bytes that weren't passed over so far.
#[derive(Drop)]
pub(crate) struct Cursor<'a> {
    rest: &'a [u8],
}

// Whether a number or a word goes on with this byte.
fn goes_on(byte: u8) -> bool {
    byte.is_ascii_alphanumeric() || byte == b'_'
}

// Whether the bytes of a string aren't as they stand here: it ends, or goes on otherwise.
fn ends_run(byte: u8) -> bool {
    byte == b'"' || byte == b'\\'
}

// The number of an octal digit.
fn octal_digit(byte: u8) -> Option<u8> {
    if b'0' <= byte && byte <= b'7' {
        Some(byte - b'0')
    } else {
        None
    }
}

// The byte of three octal digits.
fn octal_byte(high: u8, middle: u8, low: u8) -> Option<u8> {
    let high = octal_digit(high)?.checked_mul(64)?;
    let middle = octal_digit(middle)?.checked_mul(8)?;
    high.checked_add(middle)?.checked_add(octal_digit(low)?)
}

impl<'a> Cursor<'a> {
    /// At the front of these bytes.
    pub(crate) fn new(bytes: &'a [u8]) -> Cursor<'a> {
        Cursor { rest: bytes }
    }

    /// How many bytes are left.
    pub(crate) fn len(&self) -> usize {
        self.rest.len()
    }

    /// Passes over these bytes, where they come next.
    pub(crate) fn skip(&mut self, bytes: &[u8]) -> bool {
        match self.rest.strip_prefix(bytes) {
            Some(rest) => {
                self.rest = rest;
                true
            }
            None => false,
        }
    }

    // Passes over so many bytes, all that are left where these are fewer.
    fn take(&mut self, len: usize) -> &'a [u8] {
        let rest = self.rest;
        if len < rest.len() {
            self.rest = &rest[len..];
            &rest[..len]
        } else {
            self.rest = &[];
            rest
        }
    }

    /// Passes over letters, digits and `_`.
    pub(crate) fn word(&mut self) -> &'a [u8] {
        let end = self.rest.iter().position(|b| !goes_on(*b));
        self.take(end.unwrap_or(self.rest.len()))
    }

    /// Passes over a number in decimal digits.
    pub(crate) fn number(&mut self) -> Option<u64> {
        read_number(20, 0, u64::MAX, self.word())
    }

    // Passes over the bytes of a string that stand for themselves.
    fn run(&mut self) -> &'a [u8] {
        let end = self.rest.iter().position(|b| ends_run(*b));
        self.take(end.unwrap_or(self.rest.len()))
    }

    /// Passes over a string all of whose bytes stand for themselves.
    pub(crate) fn name(&mut self) -> Option<&'a [u8]> {
        if !self.skip(b"\"") {
            return None;
        }
        let name = self.run();
        if self.skip(b"\"") { Some(name) } else { None }
    }

    // Passes over three octal digits.
    fn octal(&mut self) -> Option<u8> {
        match self.rest {
            [high, middle, low, rest @ ..] => {
                self.rest = rest;
                octal_byte(*high, *middle, *low)
            }
            _ => None,
        }
    }

    // Passes over what stands in a string for a byte, from its `\` on.
    fn escape(&mut self) -> Option<u8> {
        if self.skip(b"\\n") {
            Some(b'\n')
        } else if self.skip(b"\\t") {
            Some(b'\t')
        } else if self.skip(b"\\\"") {
            Some(b'"')
        } else if self.skip(b"\\\\") {
            Some(b'\\')
        } else if self.skip(b"\\") {
            self.octal()
        } else {
            None
        }
    }

    /// Passes over a string.
    pub(crate) fn string(&mut self, alloc: Global) -> Result<Option<Text>, AllocError> {
        if !self.skip(b"\"") {
            return Ok(None);
        }
        let mut text = Vec::from_slice(alloc, self.run())?;
        for _ in 0..self.rest.len() {
            if self.skip(b"\"") {
                return Ok(Some(Text::of(text)));
            }
            let Some(byte) = self.escape() else {
                return Ok(None);
            };
            text.push(byte)?;
            text.extend_from_slice(self.run())?;
        }
        Ok(None)
    }
}
