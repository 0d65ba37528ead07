// The bytes that events put into the packed region.
ghost use Rattle.std.specs.Prelude.{◌≡◌, [], true, IfOk, IfSome, option_copied};
ghost use Rattle.ae_types.specs.Sound.{Sound};
ghost use Rattle.ae_vault.specs.Pieces.{are_pieces};
ghost use Rattle.ae_exec.specs.Carried.{pieces_by, pieces_frozen, pieces_of};
ghost use Rattle.ae_exec.specs.Next.{MayFollow};
ghost use Rattle.ae_exec.specs.Writing.{FitsRegion, HasRoom, MayBePut};

use ae_base::Snapshot;
use ae_history::pieces_for;
use ae_log::{Event, EventKind, PlaceList};
use ae_types::State;
use ae_vault::PieceList;
use std::alloc::{AllocError, Global};

/// The files that a command freezes, and the places that they get. They outlive its events, so that their bytes can be put without
/// another copy.
#[derive(Drop)]
pub(crate) struct FrozenFiles {
    pub tree: Snapshot,
    pub places: PlaceList,
}

impl FrozenFiles {
    // None.
    fn none(alloc: Global) -> FrozenFiles
        ensures pieces { pieces_frozen result ≡ [] }
        ensures room { HasRoom result }
    {
        FrozenFiles {
            tree: Snapshot::new(alloc),
            places: PlaceList::new(alloc),
        }
    }

    // Those of an event: the end of a development has some.
    fn by(alloc: Global, what: &EventKind) -> Result<FrozenFiles, AllocError>
        requires fits { FitsRegion what.now }
        ensures pieces { IfOk result (λ frozen. pieces_frozen frozen ≡ pieces_by what.now) }
        ensures room { IfOk result HasRoom }
    {
        match what {
            EventKind::End(tree, _, places) => {
                let places = Vec::from_slice(alloc, places.as_slice())?;
                Ok(FrozenFiles {
                    tree: tree.copy(alloc)?,
                    places: PlaceList::of(places),
                })
            }
            _ => Ok(FrozenFiles::none(alloc)),
        }
    }

    // Those of the first event, after which none makes versions.
    fn by_first(alloc: Global, events: &[Event]) -> Result<FrozenFiles, AllocError>
        requires put { MayBePut events.now }
        ensures pieces { IfOk result (λ frozen. pieces_frozen frozen ≡ pieces_of events.now) }
        ensures room { IfOk result HasRoom }
    {
        match events.first() {
            Some(event) => FrozenFiles::by(alloc, &event.what),
            None => Ok(FrozenFiles::none(alloc)),
        }
    }

    /// Those of the events of a command, where this stands.
    pub fn of(
        alloc: Global,
        old: Option<&State>,
        events: &[Event],
    ) -> Result<FrozenFiles, AllocError>
        requires follow { MayFollow (option_copied old) events.now }
        requires put { MayBePut events.now }
        ensures pieces { IfOk result (λ frozen. pieces_frozen frozen ≡ pieces_of events.now) }
        ensures good { IfOk result (λ frozen. are_pieces (pieces_frozen frozen) ≡ true) }
        ensures room { IfOk result HasRoom }
    {
        note_state(old);
        FrozenFiles::by_first(alloc, events)
    }

    /// The pieces that put them.
    pub fn into_pieces(self, alloc: Global) -> Result<PieceList, AllocError>
        requires room { HasRoom self }
        ensures { IfOk result (λ pieces. pieces ≡ pieces_frozen self) }
    {
        pieces_for(alloc, self.tree, self.places.as_slice())
    }
}

// A law: the state, if there is one, keeps the rules of the records.
fn note_state(old: Option<&State>)
    ensures { IfSome (option_copied old.entry) Sound }
{
    if let Some(state) = old {
        state.note_sound();
    }
}
