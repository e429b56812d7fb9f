//! What the journals so far come to.
//! It knows which flights they have, and keeps none of their lines.
ghost use Rattle.std.specs.Prelude.{◌≡◌, ◌+◌, length, IfErr, IfNone, IfOk, IfSome, OnOk};
ghost use Rattle.taken_journals.specs.Owners.{AreWithin};
ghost use Rattle.taken_journals.specs.Taken.{both_of, HasNoSum, HasPlaces, IsNone, IsNotTaken, TakesToo};

use crate::owners::{first_owned, own_all};
use airline_base::Memory;
use seat_journal::Entry;
use seat_rules::Totals;
use std::alloc::Global;

/// What the journals so far come to: the place of the one that has the lines of each flight, or 0, how many they are, and their totals.
#[derive(Drop)]
pub struct Taken {
    pub(crate) owners: Vec<u32>,
    pub count: u32,
    pub totals: Totals,
}

/// Why a journal is not taken beside those before it.
#[derive(Clone, Copy)]
pub enum NotTaken {
    /// The line of this number is the first on a flight on which an earlier journal has a line, the one at the other place.
    Shared { number: u32, other: u32 },
    /// The sums of the totals are beyond their types.
    Beyond,
}

impl Taken {
    /// No journal yet, of so many flights.
    #[tactic(auto, using(crate::proofs::Owning::owns_none, crate::proofs::Owning::as_long, crate::proofs::Taking::places_of))]
    pub fn none(alloc: Global, flights: usize) -> Result<Taken, Memory>
        ensures none { IfOk result IsNone }
        ensures places { IfOk result (HasPlaces flights) }
    {
        let owners = vec![in alloc; 0u32; flights]?;
        Ok(Taken {
            owners,
            count: 0,
            totals: Totals {
                lines: 0,
                confirmed: 0,
                released: 0,
            },
        })
    }

    /// Takes the journal at the next place, which has these lines, each on one of the flights that there are, and comes to this. It is refused where it
    /// has a line on a flight of one before it, or else where there are no such numbers, and nothing is changed then.
    pub fn take(&mut self, place: u32, entries: &[Entry], totals: Totals) -> Result<(), NotTaken>
        requires next { place ≡ self.old.count + 1 }
        requires within { AreWithin (length self.old.owners.items) entries.now }
        ensures ok { OnOk result (TakesToo self.old self.new entries.now totals) }
        ensures not { IfErr result (IsNotTaken self.old entries.now totals) }
        ensures same { IfErr result (λ _. self.new ≡ self.old) }
    {
        if let Some((number, other)) = first_owned(&self.owners, entries) {
            return Err(NotTaken::Shared { number, other });
        }
        let Some(totals) = both(self.totals, totals) else {
            return Err(NotTaken::Beyond);
        };
        own_all(&mut self.owners, entries, place);
        self.count = place;
        self.totals = totals;
        Ok(())
    }
}

// Both together, where there are such numbers.
fn both(first: Totals, second: Totals) -> Option<Totals>
    ensures sum { IfSome result (λ totals. totals ≡ both_of first second) }
    ensures none { IfNone result (HasNoSum first second) }
{
    let Some(lines) = first.lines.checked_add(second.lines) else {
        return None;
    };
    let Some(confirmed) = first.confirmed.checked_add(second.confirmed) else {
        return None;
    };
    let Some(released) = first.released.checked_add(second.released) else {
        return None;
    };
    Some(Totals {
        lines,
        confirmed,
        released,
    })
}
