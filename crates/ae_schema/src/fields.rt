// The fields of a record, one after another.
ghost use Rattle.std.specs.Prelude.{◌≡◌, ℕ, suc, List, length, map, IfOk, IfErr};
ghost use Rattle.ae_text.specs.Tree.{Node};
ghost use Rattle.ae_text.specs.View.{fields_seen, named_node};
ghost use Rattle.ae_schema.specs.Records.{named, BadAt, BadFirst, IsWithin, stop_behind};

use crate::canonical::Cursor;
use crate::value::Decode;
use ae_text::Field;
use std::alloc::{AllocError, Global};

/// Why fields are no record.
#[derive(Drop)]
pub(crate) enum Stop {
    /// How many good fields stand before the first bad one, or before the end where one is missing.
    Bad(usize),
    Memory,
}

/// The values of a record, in the order of its fields.
pub(crate) trait Fields: Drop {
    // How many fields there are.
    ghost count: { ℕ };

    // Their values.
    ghost values: { Self → List Node };

    // What their types can hold.
    ghost Fits: { Self → Type 0 };

    /// The values of the fields, which have these names, one each.
    fn read(alloc: Global, names: &[&[u8]], fields: &[Field]) -> Result<Self, Stop>
        requires { length names.now ≡ count }
        ensures found { IfOk result (λ x. named (map (λ s. s.now) names.now) (values x) ≡ fields_seen fields.now) }
        ensures fits { IfOk result Fits }
        ensures only { (x : Self) → Fits x → named (map (λ s. s.now) names.now) (values x) ≡ fields_seen fields.now → IfOk result (λ y. y ≡ x) }
        ensures bad { IfErr result (BadAt Fits (λ x. named (map (λ s. s.now) names.now) (values x)) (fields_seen fields.now)) };

    /// Passes over the fields of these names in canonical form, each ended by these bytes. As `Decode::guess` it promises
    /// nothing.
    fn guess(
        alloc: Global,
        names: &[&[u8]],
        end: &[u8],
        text: &mut Cursor,
    ) -> Result<Option<Self>, AllocError>;

    ghost some_values: { (x : Self) × Fits x };
}

/// No fields.
#[derive(Drop)]
pub(crate) struct End;

/// A field and those after it.
#[derive(Drop)]
pub(crate) struct Then<A, B> {
    pub(crate) first: A,
    pub(crate) rest: B,
}

impl Fields for End {
    ghost use Rattle.std.specs.Prelude.{[]};

    ghost count = { 0 };

    ghost values = { λ x. [] };

    ghost Fits = { λ x. Unit {0} };

    fn read(_alloc: Global, _names: &[&[u8]], fields: &[Field]) -> Result<End, Stop> {
        match fields {
            [] => Ok(End),
            [_, ..] => Err(Stop::Bad(0)),
        }
    }

    fn guess(
        _alloc: Global,
        _names: &[&[u8]],
        _end: &[u8],
        _text: &mut Cursor,
    ) -> Result<Option<End>, AllocError> {
        Ok(Some(End))
    }

    ghost some_values = { (record {}, tt) };
}

// The value of the first field, where it has this name.
fn read_first<A: Decode>(alloc: Global, name: &[u8], field: &Field) -> Result<A, Stop>
    ensures found { IfOk result (λ x. (name.now, A.spelled x) ≡ named_node field.now) }
    ensures fits { IfOk result A.Fits }
    ensures only { (x : A) → A.Fits x → (name.now, A.spelled x) ≡ named_node field.now → IfOk result (λ y. y ≡ x) }
    ensures bad { IfErr result (BadFirst ((x : A) → A.Fits x → (name.now, A.spelled x) ≡ named_node field.now → ⊥)) }
{
    if field.name.bytes() != name {
        return Err(Stop::Bad(0));
    }
    match A::of_tree(alloc, &field.value) {
        Ok(Some(x)) => Ok(x),
        Ok(None) => Err(Stop::Bad(0)),
        Err(_) => Err(Stop::Memory),
    }
}

// Passes over a field of this name, ended by these bytes.
fn guess_first<A: Decode>(
    alloc: Global,
    name: &[u8],
    end: &[u8],
    text: &mut Cursor,
) -> Result<Option<A>, AllocError> {
    if !text.skip(name) || !text.skip(b" = ") {
        return Ok(None);
    }
    match A::guess(alloc, text)? {
        Some(value) if text.skip(end) => Ok(Some(value)),
        _ => Ok(None),
    }
}

// The same place, counted from one field before.
fn behind(stop: Stop, fields: &[Field]) -> Stop
    requires { IsWithin (length fields.now) stop }
    ensures { result ≡ stop_behind stop }
{
    let most = fields.len();
    match stop {
        Stop::Bad(n) if n <= most => Stop::Bad(n + 1),
        _ => Stop::Memory,
    }
}

impl<A: Decode, B: Fields> Fields for Then<A, B> {
    ghost use Rattle.std.specs.Prelude.{suc, ◌∷◌};

    ghost count = { suc B.count };

    ghost values = { λ x. A.spelled x.first ∷ B.values x.rest };

    ghost Fits = { λ x. A.Fits x.first × B.Fits x.rest };

    fn read(alloc: Global, names: &[&[u8]], fields: &[Field]) -> Result<Then<A, B>, Stop> {
        let [name, names @ ..] = names else {
            unreachable!()
        };
        let [field, fields @ ..] = fields else {
            return Err(Stop::Bad(0));
        };
        let first = match read_first::<A>(alloc, name, field) {
            Ok(first) => first,
            Err(stop) => return Err(stop),
        };
        match B::read(alloc, names, fields) {
            Ok(rest) => Ok(Then { first, rest }),
            Err(stop) => Err(behind(stop, fields)),
        }
    }

    fn guess(
        alloc: Global,
        names: &[&[u8]],
        end: &[u8],
        text: &mut Cursor,
    ) -> Result<Option<Then<A, B>>, AllocError> {
        let [name, names @ ..] = names else {
            return Ok(None);
        };
        let Some(first) = guess_first::<A>(alloc, name, end, text)? else {
            return Ok(None);
        };
        match B::guess(alloc, names, end, text)? {
            Some(rest) => Ok(Some(Then { first, rest })),
            None => Ok(None),
        }
    }

    ghost some_values = { (record { first = A.some_value.0; rest = B.some_values.0 }, (A.some_value.1, B.some_values.1)) };
}
