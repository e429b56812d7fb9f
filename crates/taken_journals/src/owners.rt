//! Which of the journals so far has the lines of a flight.
//! It knows which flight a line is on, and nothing of what it is answered.
ghost use Rattle.std.specs.Prelude.{◌≡◌, length};
ghost use Rattle.taken_journals.specs.Owners.{first_owned, is_owned, owner_in, AreWithin, IsWithin, OwnsLine, OwnsToo};

use seat_journal::{Entry, Work};
use seat_parts::flight_of;

/// The number of the first of these lines on whose flight an earlier journal has lines, and that journal's place.
pub(crate) fn first_owned(owners: &[u32], entries: &[Entry]) -> Option<(u32, u32)>
    ensures { result ≡ first_owned owners.now entries.now }
{
    match entries.iter().find(|entry| is_owned(owners, &entry.work)) {
        Some(entry) => Some((entry.number, owner_of(owners, &entry.work))),
        None => None,
    }
}

// Whether a line is on a flight that has an owner.
fn is_owned(owners: &[u32], work: &Work) -> bool
    ensures { result ≡ is_owned owners.now work.now }
{
    owner_of(owners, work) > 0
}

// The place of the journal that has the lines of a line's flight, or 0.
fn owner_of(owners: &[u32], work: &Work) -> u32
    ensures { result ≡ owner_in owners.now work.now }
{
    let Some(flight) = flight_of(work) else {
        return 0;
    };
    match owners.get(flight as usize) {
        Some(owner) => *owner,
        None => 0,
    }
}

/// Notes that the journal at this place has these lines, each on one of the flights that there are.
#[tactic(auto, using(crate::proofs::Owning::owned_none, crate::proofs::Owning::owned_next, crate::proofs::Owning::owned_whole, crate::proofs::Owning::within_at))]
pub(crate) fn own_all(owners: &mut Vec<u32>, entries: &[Entry], place: u32)
    requires { AreWithin (length owners.old.items) entries.now }
    ensures owns { OwnsToo place owners.old.items owners.new.items entries.now }
    ensures long { length owners.new.items ≡ length owners.old.items }
{
    for entry in entries {
        own(owners, &entry.work, place);
    }
}

// Notes that the journal at this place has a line of this work.
#[tactic(auto, using(crate::proofs::Owning::own_nowhere, crate::proofs::Owning::own_there, crate::proofs::Owning::is_inside))]
fn own(owners: &mut Vec<u32>, work: &Work, place: u32)
    requires { IsWithin (length owners.old.items) work.now }
    ensures owns { OwnsLine place owners.old.items owners.new.items work.now }
    ensures long { length owners.new.items ≡ length owners.old.items }
{
    let Some(flight) = flight_of(work) else {
        return;
    };
    owners[flight as usize] = place;
}
