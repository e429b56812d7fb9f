//! `carry` of several journals: two seasons and journals over the old one, read in order, and what is made of them.
//! It knows which fault stands ahead of which, and neither how journals become one nor where bookings go.
ghost use Rattle.std.specs.Prelude.{◌≡◌, ◌≤◌, ◌<◌, ◌+◌, ◌^◌, length, map, IfErr, IfOk};
ghost use Rattle.ssim_flights.specs.Right.{IsOfCentury};
ghost use Rattle.carry_limits.specs.Legs.{HasLegsOf};
ghost use Rattle.seat_desk.specs.Loading.{IsGridOf};
ghost use Rattle.seat_seal.specs.Fronts.{front_of};
ghost use Rattle.seat_seal.specs.Imprints.{imprint_of};
ghost use Rattle.carry_plans.specs.Joining.{HasJoinFailed, HasSeasonFailed, IsJoinedMade, IsOverAll, IsSeason, IsUnjoined, IsUnreadSeason};

use crate::asked::CarryAsked;
use crate::fault::CarryFault;
use crate::join_fault::JoinFault;
use crate::joined_carriage::JoinedCarriage;
use crate::journals::read_together;
use crate::together::joined_of;
use airline_base::NotedRead;
use season_changes::SeasonFault;
use seat_desk::{Based, Inputs, load_based};
use seat_seal::Beside;
use std::alloc::Global;
use std::thread::Threads;

/// What carries the live bookings of several journals over the old season to the new one: those of the one inventory that has the lines of all of them,
/// one journal's behind the other's. The new season is read and checked first, then the old one, then the journals, each with what stands beside it, by
/// which more must be known of it than its bytes; and last each must be a legal history, and no two may have a line of one flight. The first days are in
/// 2000 to 2099, and each season has 1 to 366.
#[tactic(auto, using(crate::proofs::Onto::unread_new, crate::proofs::Onto::unread_old, crate::proofs::Onto::unread_journal, crate::proofs::Onto::unmade_onto, crate::proofs::JoinFailing::failed_new, crate::proofs::JoinFailing::failed_old, crate::proofs::JoinFailing::failed_journal, crate::proofs::JoinFailing::failed_made))]
pub fn desk_carry_joined<R: Threads + Sync, I: NotedRead>(
    rt: &R,
    alloc: Global,
    asked: &CarryAsked<'_>,
    from: &mut Inputs<I, I>,
    to: &mut Inputs<I, I>,
    journals: &mut [I],
    besides: &[Beside<'_>],
) -> Result<JoinedCarriage, JoinFault>
    requires from_first { IsOfCentury from.old.first }
    requires from_days { (1 ≤ from.old.days) × (from.old.days ≤ 366) }
    requires to_first { IsOfCentury to.old.first }
    requires to_days { (1 ≤ to.old.days) × (to.old.days ≤ 366) }
    requires rows { length asked.now.protections.now < 2 ^ 32 }
    requires as_many { length besides.now ≡ length journals.old }
    requires some { 1 ≤ length besides.now }
    ensures imprint { IfOk result (λ c. c.carriage.entry.journal.imprint ≡ imprint_of (front_of c.carriage.text)) }
    ensures as_many { IfOk result (λ c. length c.others + 1 ≡ length besides.now) }
    ensures ok { IfOk result (λ c. IsOverAll I.remaining I.remaining from.old to.old (map I.remaining journals.old)
        (λ news file basis olds grid under texts. IsJoinedMade asked.now besides.now news file basis olds grid under texts c)) }
    ensures fault { IfErr result (IsUnjoined I.remaining I.remaining from.old to.old (map I.remaining journals.old) besides.now asked.now) }
    ensures device { IfErr result (HasJoinFailed I.remaining I.remaining I.failure_count I.failure_count I.failure_count from.old from.new
        to.old to.new besides.now (map I.remaining journals.old) journals.old journals.new) }
{
    let new = match season_of(alloc, true, to) {
        Ok(new) => new,
        Err(fault) => return Err(fault),
    };
    let old = match season_of(alloc, false, from) {
        Ok(old) => old,
        Err(fault) => return Err(fault),
    };
    let read = match read_together(alloc, &old.basis, journals, besides) {
        Ok(read) => read,
        Err(fault) => return Err(fault),
    };
    match joined_of(rt, alloc, asked, &new, old, read) {
        Ok(joined) => Ok(joined),
        Err(fault) => Err(fault),
    }
}

/// A season, read and checked.
#[tactic(auto, using(crate::proofs::Seasons::season_is, crate::proofs::Seasons::has_legs, crate::proofs::Seasons::unread_season, crate::proofs::Seasons::failed_season))]
fn season_of<I: NotedRead>(
    alloc: Global,
    is_new: bool,
    inputs: &mut Inputs<I, I>,
) -> Result<Based, JoinFault>
    requires first { IsOfCentury inputs.old.first }
    requires days { (1 ≤ inputs.old.days) × (inputs.old.days ≤ 366) }
    ensures ok { IfOk result (λ b. IsSeason I.remaining I.remaining inputs.old b.loaded.flights b.loaded.grid b.basis) }
    ensures legs { IfOk result (λ b. HasLegsOf b.loaded.grid b.loaded.flights) }
    ensures grid { IfOk result (λ b. IsGridOf b.loaded.flights b.loaded.grid) }
    ensures fault { IfErr result (IsUnreadSeason I.remaining I.remaining inputs.old is_new) }
    ensures device { IfErr result (HasSeasonFailed I.remaining I.failure_count I.failure_count inputs.old inputs.new is_new) }
{
    match load_based(alloc, inputs, true) {
        Ok(based) => Ok(based),
        Err(fault) => Err(JoinFault::Carry(CarryFault::Season(SeasonFault { is_new, fault }))),
    }
}
