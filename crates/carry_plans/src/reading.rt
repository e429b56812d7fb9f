//! `carry`: two seasons and a journal over the old one, read in order, and what is made of them.
//! It knows which fault stands ahead of which, and nothing of where bookings go.
ghost use Rattle.std.specs.Prelude.{◌≡◌, ◌≤◌, ◌<◌, ◌^◌, IfErr, IfOk, length};
ghost use Rattle.ssim_flights.specs.Right.{IsOfCentury};
ghost use Rattle.carry_limits.specs.Legs.{HasLegsOf};
ghost use Rattle.seat_desk.specs.AuditDesk.{most_journal_bytes};
ghost use Rattle.seat_desk.specs.Loading.{IsGridOf};
ghost use Rattle.seat_seal.specs.Fronts.{front_of};
ghost use Rattle.seat_seal.specs.Imprints.{imprint_of};
ghost use Rattle.carry_plans.specs.Carries.{IsCarryOf, IsFrom, IsMadeOf, IsOldRead, IsUncarried, IsUnmade, IsUnread};
ghost use Rattle.carry_plans.specs.Failing.{HasFailedIn, HasOldFailed};

use crate::asked::CarryAsked;
use crate::carriage::Carriage;
use crate::fault::{CarryFault, of_new, of_old};
use crate::making::made;
use airline_base::NotedRead;
use seat_desk::{
    Based, DeskFault, Inputs, Loaded, MOST_JOURNAL_BYTES, agreed, load_based, read_input,
};
use seat_seal::{Beside, Sealed, known_of};
use std::alloc::Global;
use std::thread::Threads;

/// What carries the live bookings of a journal over the old season to the new one. The new season is read and checked first, then the old one, and
/// last the journal with what stands beside it, by which more must be known of it than its bytes. The first days are in 2000 to 2099, and each
/// season has 1 to 366.
#[tactic(auto, using(crate::proofs::Makes::has_legs, crate::proofs::Outcomes::carried_onto, crate::proofs::Outcomes::refused_new, crate::proofs::Outcomes::refused_old, crate::proofs::Outcomes::refused_made, crate::proofs::Failing::failed_new, crate::proofs::Failing::failed_old, crate::proofs::Failing::failed_made))]
pub fn desk_carry<R: Threads + Sync, I: NotedRead>(
    rt: &R,
    alloc: Global,
    asked: &CarryAsked<'_>,
    from: &mut Inputs<I, I>,
    to: &mut Inputs<I, I>,
    journal: &mut I,
    beside: &Beside<'_>,
) -> Result<Carriage, CarryFault>
    requires from_first { IsOfCentury from.old.first }
    requires from_days { (1 ≤ from.old.days) × (from.old.days ≤ 366) }
    requires to_first { IsOfCentury to.old.first }
    requires to_days { (1 ≤ to.old.days) × (to.old.days ≤ 366) }
    requires rows { length asked.now.protections.now < 2 ^ 32 }
    ensures imprint { IfOk result (λ c. c.entry.journal.imprint ≡ imprint_of (front_of c.text)) }
    ensures ok { IfOk result (IsCarryOf I.remaining I.remaining from.old to.old (I.remaining journal.old) beside.now asked.now) }
    ensures fault { IfErr result (IsUncarried I.remaining I.remaining from.old to.old (I.remaining journal.old) beside.now asked.now) }
    ensures device { IfErr result (HasFailedIn I.remaining I.remaining I.failure_count I.failure_count I.failure_count from.old from.new to.old to.new
        journal.old journal.new) }
{
    let new = match load_based(alloc, to, true) {
        Ok(new) => new,
        Err(fault) => return Err(of_new(fault)),
    };
    let old = match old_read(alloc, from, journal, beside) {
        Ok(old) => old,
        Err(fault) => return Err(fault),
    };
    match made_of(rt, alloc, asked, &new, old) {
        Ok(carriage) => Ok(carriage),
        Err(fault) => Err(fault),
    }
}

/// The old season, and the journal over it with what its seal knows.
#[derive(Drop)]
struct OldRead {
    loaded: Loaded,
    bytes: Vec<u8>,
    known: Sealed,
}

/// Reads the old season, and a journal that agrees with what stands beside it.
#[tactic(auto, using(crate::proofs::OldReads::read_of, crate::proofs::OldReads::refused_load, crate::proofs::OldReads::refused_size, crate::proofs::OldReads::refused_seal, crate::proofs::OldReads::unknown_of, crate::proofs::Failing::failed_load, crate::proofs::Failing::failed_journal, crate::proofs::Failing::failed_seal, crate::proofs::Failing::failed_unsealed))]
fn old_read<I: NotedRead>(
    alloc: Global,
    from: &mut Inputs<I, I>,
    journal: &mut I,
    beside: &Beside<'_>,
) -> Result<OldRead, CarryFault>
    requires first { IsOfCentury from.old.first }
    requires days { (1 ≤ from.old.days) × (from.old.days ≤ 366) }
    ensures read { IfOk result (λ r. IsFrom I.remaining I.remaining from.old (I.remaining journal.old) beside.now (IsOldRead beside.now r)) }
    ensures grid { IfOk result (λ r. IsGridOf r.loaded.flights r.loaded.grid) }
    ensures size { IfOk result (λ r. length r.bytes.items ≤ most_journal_bytes) }
    ensures fault { IfErr result (IsUnread I.remaining I.remaining from.old (I.remaining journal.old) beside.now) }
    ensures device { IfErr result (HasOldFailed I.remaining I.remaining I.failure_count I.failure_count I.failure_count from.old from.new
        journal.old journal.new) }
{
    let old = match load_based(alloc, from, true) {
        Ok(old) => old,
        Err(fault) => return Err(of_old(fault)),
    };
    let bytes = match read_input(alloc, journal, MOST_JOURNAL_BYTES) {
        Ok(bytes) => bytes,
        Err(fault) => return Err(of_old(fault)),
    };
    if let Err(fault) = agreed(beside, &old.basis, &bytes) {
        return Err(of_old(fault));
    }
    match known_of(beside, &bytes) {
        Some(known) => Ok(OldRead {
            loaded: old.loaded,
            bytes,
            known,
        }),
        None => Err(CarryFault::Unsealed),
    }
}

/// What carries the live bookings of the journal that was read.
fn made_of<R: Threads + Sync>(
    rt: &R,
    alloc: Global,
    asked: &CarryAsked<'_>,
    new: &Based,
    old: OldRead,
) -> Result<Carriage, CarryFault>
    requires rows { length asked.now.protections.now < 2 ^ 32 }
    requires size { length old.bytes.items ≤ most_journal_bytes }
    requires grid { IsGridOf old.loaded.flights old.loaded.grid }
    requires file { HasLegsOf new.now.loaded.grid new.now.loaded.flights }
    requires ladders { IsGridOf new.now.loaded.flights new.now.loaded.grid }
    ensures imprint { IfOk result (λ c. c.entry.journal.imprint ≡ imprint_of (front_of c.text)) }
    ensures made { IfOk result (IsMadeOf asked.now new.now.loaded.flights new.now.loaded.grid new.now.basis old.loaded.flights old.loaded.grid old.bytes.items old.known) }
    ensures fault { IfErr result (IsUnmade asked.now new.now.loaded.flights new.now.loaded.grid old.loaded.flights old.loaded.grid old.bytes.items) }
{
    let OldRead {
        loaded,
        bytes,
        known,
    } = old;
    let Loaded {
        flights,
        rows,
        grid,
    } = loaded;
    drop(rows);
    made(rt, alloc, asked, new, &flights, grid, bytes, known)
}
