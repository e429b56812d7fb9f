//! Live bookings by the flights that they are on.
//! It knows no limits.
ghost use Rattle.std.specs.Prelude.{◌≡◌, ◌<◌, IfOk, OnOk, [], length, replicate};
ghost use Rattle.seat_carrying.specs.Owned.{bookings_of};
ghost use Rattle.carry_limits.specs.ByFlight.{Adds, IsByFlight, list_at};

use airline_base::{Items, Memory, Place};
use seat_carrying::Owned;
use seat_rules::Booking;
use std::alloc::Global;
use std::marker::Model;

/// The bookings of each flight, in their order.
#[derive(Drop)]
pub struct ByFlight {
    lists: Vec<Items<Booking>>,
}

impl Model for ByFlight {
    ghost use Rattle.std.specs.Prelude.{List};
    ghost use Rattle.seat_rules.specs.declared.booking.Booking.{Booking};

    ghost Value = { List (List Booking) };

    ghost view = { λ b. b.lists.items };
}

impl ByFlight {
    /// Those of a flight; none where there is no such flight.
    pub fn on(&self, flight: u32) -> &[Booking]
        ensures { result.now ≡ list_at self.now flight }
    {
        let lists = self.lists.as_slice();
        match lists.get(flight as usize) {
            Some(list) => list.as_slice(),
            None => &[],
        }
    }
}

/// The bookings of each of so many flights, which are numbered from 0. A booking on any other flight is left out.
#[tactic(auto, using(crate::proofs::Parted::by_none, crate::proofs::Parted::by_more, crate::proofs::Parted::by_whole))]
pub fn by_flight(alloc: Global, flights: u32, live: &[Owned]) -> Result<ByFlight, Memory>
    ensures { IfOk result (λ by. IsByFlight by flights (bookings_of live.now)) }
{
    let mut by = no_bookings(alloc, flights)?;
    for owned in live {
        add(&mut by, &owned.booking)?;
    }
    Ok(by)
}

/// A list for each flight, and no booking.
#[tactic(auto, using(crate::proofs::Parted::none_more))]
fn no_bookings(alloc: Global, flights: u32) -> Result<ByFlight, Memory>
    ensures { IfOk result (λ by. by ≡ replicate flights []) }
{
    let mut lists = Vec::with_capacity(alloc, flights as usize)?;
    for _ in 0..flights {
        lists.push(Items::new(alloc))?;
    }
    Ok(ByFlight { lists })
}

/// Adds a booking behind the others of its flight, where there is such a flight.
#[tactic(auto, using(crate::proofs::Parted::adds_nowhere))]
fn add(by: &mut ByFlight, booking: &Booking) -> Result<(), Memory>
    ensures { OnOk result (Adds by.old by.new booking.now) }
{
    let flight = booking.place.flight as usize;
    if flight >= by.lists.len() {
        return Ok(());
    }
    add_to(by, flight, booking)
}

/// Adds a booking behind the others of a flight that is there.
#[tactic(auto, using(crate::proofs::Parted::adds_there))]
fn add_to(by: &mut ByFlight, flight: usize, booking: &Booking) -> Result<(), Memory>
    requires there { flight < length by.old }
    requires its { flight ≡ booking.now.place.flight }
    ensures { OnOk result (Adds by.old by.new booking.now) }
{
    let _place: Option<Place> = None;
    by.lists[flight].push(*booking)?;
    Ok(())
}
