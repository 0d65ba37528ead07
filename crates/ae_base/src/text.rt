// A text: bytes of any kind.
ghost use Rattle.std.specs.Prelude.{◌≡◌, IfOk};
ghost use Rattle.ae_base.specs.Bytes.{AreBytes};
ghost use Rattle.ae_base.specs.Texts.{bytes_held};

use std::alloc::{AllocError, Global};
use std::cmp::Ordering;
use std::marker::Model;
use std::rc::Rc;

// The bytes of a text: its own, or those that it shares with its copies.
#[derive(Debug, Drop)]
enum Held {
    Alone(Vec<u8>),
    Shared(Rc<Vec<u8>>),
}

/// Bytes of any kind. Contracts see the list of them.
#[derive(Debug, Drop)]
pub struct Text {
    held: Held,
}

impl Model for Text {
    ghost use Rattle.std.specs.Prelude.{List, ℕ};

    ghost Value = { List ℕ };

    ghost use Rattle.ae_base.specs.Texts.{bytes_held};

    ghost view = { λ t. bytes_held t.held };

    ghost use Rattle.ae_base.specs.Bytes.{AreBytes};

    ghost invariant = { λ t. AreBytes (bytes_held t.held) };
}

// The items of a slice of bytes are bytes.
fn note_bytes(bytes: &[u8])
    ensures { AreBytes bytes.now }
{}

impl Text {
    /// The text of these bytes.
    pub fn of(bytes: Vec<u8>) -> Text
        ensures { result ≡ bytes.items }
    {
        note_bytes(bytes.as_slice());
        Text {
            held: Held::Alone(bytes),
        }
    }

    /// The text of these bytes, which its copies share: they take no room of their own. This is for what is long, as a file is.
    pub fn shared(alloc: Global, bytes: Vec<u8>) -> Result<Text, AllocError>
        ensures { IfOk result (λ text. text ≡ bytes.items) }
    {
        note_bytes(bytes.as_slice());
        Ok(Text {
            held: Held::Shared(Rc::new(alloc, bytes)?),
        })
    }

    /// An equal text.
    pub fn copy(&self, alloc: Global) -> Result<Text, AllocError>
        ensures { IfOk result (λ text. text ≡ self.now) }
    {
        let held = match &self.held {
            Held::Alone(bytes) => Held::Alone(Vec::from_slice(alloc, bytes.as_slice())?),
            Held::Shared(bytes) => Held::Shared(bytes.clone()?),
        };
        Ok(Text { held })
    }

    /// Its bytes.
    pub fn bytes(&self) -> &[u8]
        ensures value { result.now ≡ self.now }
        ensures bytes { AreBytes self.now }
    {
        match &self.held {
            Held::Alone(bytes) => bytes.as_slice(),
            Held::Shared(bytes) => bytes.as_ref().as_slice(),
        }
    }

    /// The vector of its bytes. It is a new one only where a copy of the text still shares them.
    pub fn into_bytes(self, alloc: Global) -> Result<Vec<u8>, AllocError>
        ensures value { IfOk result (λ bytes. bytes.items ≡ self) }
    {
        match self.held {
            Held::Alone(bytes) => Ok(bytes),
            Held::Shared(shared) => match Rc::try_unwrap(shared) {
                Ok(bytes) => Ok(bytes),
                Err(shared) => Vec::from_slice(alloc, shared.as_ref().as_slice()),
            },
        }
    }
}

impl PartialEq for Text {
    ghost use Rattle.std.specs.Str.{bytes_eq};
    ghost use Rattle.std.specs.Cmp.{partial_equiv_from_equiv};
    ghost use Rattle.std.specs.Cmp.Lexicographic.{nat_list_eq_equiv};

    ghost eq = { bytes_eq };

    ghost laws = { partial_equiv_from_equiv nat_list_eq_equiv };

    fn eq(&self, other: &Text) -> bool {
        self.bytes() == other.bytes()
    }
}

impl Eq for Text {
    ghost use Rattle.std.specs.Cmp.Lexicographic.{nat_list_eq_equiv};

    ghost laws = { nat_list_eq_equiv };
}

impl PartialOrd for Text {
    ghost use Rattle.std.specs.Prelude.{Some};
    ghost use Rattle.std.specs.Ordering.{nat_cmp};
    ghost use Rattle.std.specs.Cmp.Lexicographic.{slice_cmp, texts_po};

    ghost partial_cmp = { λ a b. Some (slice_cmp nat_cmp a b) };

    ghost laws = { texts_po };

    fn partial_cmp(&self, other: &Text) -> Option<Ordering> {
        Some(self.cmp(other))
    }
}

impl Ord for Text {
    ghost use Rattle.std.specs.Prelude.{refl};
    ghost use Rattle.std.specs.Ordering.{nat_cmp};
    ghost use Rattle.std.specs.Cmp.Lexicographic.{slice_cmp, nat_list_cmp_total, texts_ties};

    ghost cmp = { slice_cmp nat_cmp };

    ghost total = { nat_list_cmp_total };

    ghost matches_partial_cmp = { λ a b. refl };

    ghost matches_eq = { texts_ties };

    fn cmp(&self, other: &Text) -> Ordering {
        self.bytes().cmp(other.bytes())
    }
}
