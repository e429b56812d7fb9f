//! Lists of legs.
ghost use Rattle.std.specs.Prelude.{◌≡◌, ◌<◌, ◌++◌, ◌∷◌, List, [], true, false, OnOk, length, slice_set, slice_index_or};
ghost use Rattle.ssim_records.specs.declared.carrier.Leg.{Leg as Flown};

use airline_base::{Day, Memory, Station};
use ssim_records::{Leg, Legs};
use std::alloc::Global;
use std::marker::Model;

/// The legs of several itineraries.
#[derive(Drop)]
pub(crate) struct LegLists {
    items: Vec<Legs>,
}

impl Model for LegLists {
    ghost Value = { List (List Flown) };

    ghost view = { λ l. l.items.items };
}

impl LegLists {
    pub(crate) fn new(alloc: Global) -> Self
        ensures { result ≡ [] }
    {
        LegLists {
            items: Vec::new(alloc),
        }
    }

    pub(crate) fn as_slice(&self) -> &[Legs]
        ensures { result.now ≡ self.now }
    {
        self.items.as_slice()
    }

    /// Adds a leg: as an itinerary of its own where it begins one, and else to the end of itinerary `i`.
    pub(crate) fn place(
        &mut self,
        alloc: Global,
        i: usize,
        begins: bool,
        leg: Leg,
    ) -> Result<(), Memory>
        requires { begins ≡ false → i < length self.old }
        ensures begun { OnOk result (begins ≡ true → self.new ≡ self.old ++ (leg ∷ []) ∷ []) }
        ensures extended { OnOk result (begins ≡ false
            → self.new ≡ slice_set self.old i (slice_index_or self.old i [] ++ leg ∷ [])) }
    {
        if begins {
            return self.begin(alloc, leg);
        }
        self.extend(i, leg)
    }

    /// Adds an itinerary of one leg at the end.
    fn begin(&mut self, alloc: Global, leg: Leg) -> Result<(), Memory>
        ensures { OnOk result (self.new ≡ self.old ++ (leg ∷ []) ∷ []) }
    {
        let _suffix: Option<u8> = leg.suffix;
        let _from: Day = leg.from;
        let _board: Station = leg.board;
        let Ok(mut legs) = Legs::with_room(alloc, 1) else {
            return Err(Memory);
        };
        let Ok(()) = legs.push(leg) else {
            return Err(Memory);
        };
        self.items.push(legs)?;
        Ok(())
    }

    /// Adds a leg to the end of itinerary `i`.
    fn extend(&mut self, i: usize, leg: Leg) -> Result<(), Memory>
        requires { i < length self.old }
        ensures { OnOk result (self.new ≡ slice_set self.old i (slice_index_or self.old i [] ++ leg ∷ [])) }
    {
        let _suffix: Option<u8> = leg.suffix;
        let _from: Day = leg.from;
        let _board: Station = leg.board;
        let legs = &mut self.items[i];
        let Ok(()) = legs.push(leg) else {
            return Err(Memory);
        };
        Ok(())
    }
}
