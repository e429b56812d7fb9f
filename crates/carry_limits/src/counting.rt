//! The legs on which those who are carried hold more than there is.
//! It knows no way out.
ghost use Rattle.std.specs.Prelude.{◌≡◌, ◌≤◌, ◌++◌, IfOk, OnOk, length, min};
ghost use Rattle.std.specs.List.{sum_by};
ghost use Rattle.seat_nesting.specs.Nesting.{has_class};
ghost use Rattle.seat_rules.specs.Bookings.{seats_among};
ghost use Rattle.carry_limits.specs.Overs.{all_held, flight_overs, most_counted, over_on, overs, seats_at};

use crate::fitting::covers;
use crate::lifting::top_of;
use crate::parting::ByFlight;
use airline_base::{Class, Memory};
use limit_changes::{NamedLeg, named_leg};
use seat_lists::Designator;
use seat_nesting::{Grid, Step};
use seat_rules::Booking;
use ssim_flights::{DatedLeg, Flight, Flights};
use std::alloc::Global;

/// A leg on which more is held by those who are carried than the highest rank of its file has.
#[derive(Clone, Copy)]
pub struct Over {
    pub leg: NamedLeg,
    /// The seats that are held in the classes of the leg, counted up to 4,294,967,295.
    pub held: u32,
    /// The limit of its highest rank.
    pub seats: u16,
}

/// The legs on which more is held than there is, in the order of flight and leg.
pub fn overs(
    alloc: Global,
    flights: &Flights,
    file: &Grid,
    by: &ByFlight,
) -> Result<Vec<Over>, Memory>
    ensures { IfOk result (λ all. all.items ≡ overs file.now by.now flights.now) }
{
    let mut all = Vec::new(alloc);
    for index in 0..flights.len() {
        add_legs(&mut all, file, by, index, &flights.flight(index))?;
    }
    Ok(all)
}

/// Adds those among the legs of a flight.
fn add_legs(
    all: &mut Vec<Over>,
    file: &Grid,
    by: &ByFlight,
    index: u32,
    flight: &Flight,
) -> Result<(), Memory>
    requires few { length flight.now.legs ≤ 8 }
    ensures { OnOk result (all.new.items ≡ all.old.items ++ flight_overs file.now by.now index flight.now) }
{
    let legs = flight.legs.as_slice();
    for j in 0..legs.len() {
        add_leg(all, file, by, &named_leg(index, flight, j as u8, &legs[j]))?;
    }
    Ok(())
}

/// Adds a leg, if more is held there than there is.
#[tactic(auto, using(crate::proofs::Counted::none_over, crate::proofs::Counted::one_over))]
fn add_leg(all: &mut Vec<Over>, file: &Grid, by: &ByFlight, leg: &NamedLeg) -> Result<(), Memory>
    ensures { OnOk result (all.new.items ≡ all.old.items ++ over_on file.now by.now leg.now) }
{
    let seats = seats_at(file, leg);
    let held = held_at(file, by, leg);
    if held <= u32::from(seats) {
        return Ok(());
    }
    let _name: Option<Designator> = None;
    let _run: Option<DatedLeg> = None;
    all.push(Over {
        leg: *leg,
        held,
        seats,
    })?;
    Ok(())
}

/// The limit of the highest rank of a leg; 0 where it has no limits.
fn seats_at(file: &Grid, leg: &NamedLeg) -> u16
    ensures { result ≡ seats_at file.now leg.now }
{
    match file.ladder(leg.flight, leg.leg) {
        Some(ladder) => top_of(ladder),
        None => 0,
    }
}

/// The seats that are held on a leg in the classes of its ladder, counted up to 4,294,967,295.
#[tactic(auto, using(crate::proofs::Counted::held_is))]
fn held_at(file: &Grid, by: &ByFlight, leg: &NamedLeg) -> u32
    ensures { result ≡ min most_counted (all_held file.now by.now leg.now) }
{
    file.ladders_are_distinct();
    let steps = file.steps(leg.flight, leg.leg);
    held_among(steps, by.on(leg.flight), leg.flight, leg.leg)
}

/// The seats that bookings hold on a leg in any of these classes.
fn held_among(steps: &[Step], bookings: &[Booking], flight: u32, leg: u8) -> u32
    ensures { result ≡ min most_counted (sum_by (seats_among steps.now flight leg) bookings.now) }
{
    let mut held = 0u32;
    for booking in bookings {
        held = held.saturating_add(seats_among(steps, flight, leg, booking));
    }
    held
}

fn seats_among(steps: &[Step], flight: u32, leg: u8, booking: &Booking) -> u32
    ensures { result ≡ seats_among steps.now flight leg booking.now }
{
    if !booking.is_waiting()
        && covers(flight, leg, booking.place)
        && has_class(steps, booking.class)
    {
        u32::from(booking.seats)
    } else {
        0
    }
}

fn has_class(steps: &[Step], class: Class) -> bool
    ensures { result ≡ has_class steps.now class }
{
    steps.iter().any(|step| class == step.class)
}
