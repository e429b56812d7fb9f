//! What a host closes by itself: each leg that departed before a day, and has a class open still.
//! It knows flights, an inventory and a day, and nothing of desks or of lines.
ghost use Rattle.std.specs.Prelude.{◌≡◌, ◌≤◌, ◌++◌, ◌∷◌, [], length, if◌then◌else◌, IfOk, OnOk};
ghost use Rattle.desk_hall.specs.Departed.{closing, closings_from, closings_on, has_open, is_left_open, AreOnLegs};
ghost use Rattle.seat_nesting.specs.Nesting.{ladder_at};
ghost use Rattle.seat_rules.specs.Journal.{replay};

use airline_base::{Day, Memory};
use seat_disk::Tape;
use seat_journal::{Control, SaleChange};
use seat_nesting::Step;
use seat_serving::Serving;
use ssim_flights::{DatedLeg, Flights};
use std::alloc::Global;

/// A closing for each such leg, in the order of flight and leg.
#[tactic(auto, using(crate::proofs::Departing::flights_put, crate::proofs::Departing::on_legs))]
pub(crate) fn closings<D: Tape>(
    alloc: Global,
    flights: &Flights,
    serving: &Serving<D>,
    today: Day,
) -> Result<Vec<Control>, Memory>
    ensures value { IfOk result (λ all. all.items ≡ closings_from (replay serving.now.grid serving.now.journal).grid today 0 flights.now) }
    ensures legs { IfOk result (λ all. AreOnLegs flights.now all.items) }
{
    let mut all = Vec::new(alloc);
    for number in 0..flights.len() {
        let flight = flights.flight(number);
        put_legs(&mut all, flight.legs.as_slice(), serving, today, number)?;
    }
    Ok(all)
}

#[tactic(auto, using(crate::proofs::Departing::leg_put, crate::proofs::Departing::legs_put))]
fn put_legs<D: Tape>(
    all: &mut Vec<Control>,
    legs: &[DatedLeg],
    serving: &Serving<D>,
    today: Day,
    flight: u32,
) -> Result<(), Memory>
    requires legs { length legs.now ≤ 8 }
    ensures { OnOk result (all.new.items ≡ all.old.items
        ++ closings_on (replay serving.now.grid serving.now.journal).grid today flight 0 legs.now) }
{
    for leg in 0..legs.len() {
        put_leg(all, &legs[leg], serving, today, flight, leg as u8)?;
    }
    Ok(())
}

fn put_leg<D: Tape>(
    all: &mut Vec<Control>,
    here: &DatedLeg,
    serving: &Serving<D>,
    today: Day,
    flight: u32,
    leg: u8,
) -> Result<(), Memory>
    ensures { OnOk result (all.new.items ≡ all.old.items
        ++ (if is_left_open (replay serving.now.grid serving.now.journal).grid today flight leg here.now then closing flight leg ∷ [] else [])) }
{
    if !is_left_open(here, serving, today, flight, leg) {
        return Ok(());
    }
    all.push(closing(flight, leg))?;
    Ok(())
}

fn is_left_open<D: Tape>(
    here: &DatedLeg,
    serving: &Serving<D>,
    today: Day,
    flight: u32,
    leg: u8,
) -> bool
    ensures { result ≡ is_left_open (replay serving.now.grid serving.now.journal).grid today flight leg here.now }
{
    here.day.number() < today.number() && has_open(serving.steps(flight, leg))
}

#[tactic(auto, using(crate::proofs::Departing::unclosed_here, crate::proofs::Departing::closed_here, crate::proofs::Departing::none_open))]
fn has_open(steps: &[Step]) -> bool
    ensures { result ≡ has_open steps.now }
{
    for step in steps {
        if !step.closed {
            return true;
        }
    }
    false
}

// All that a leg has is closed.
fn closing(flight: u32, leg: u8) -> Control
    ensures { result ≡ closing flight leg }
{
    Control::ToSale(SaleChange {
        flight,
        leg,
        class: None,
        closed: true,
    })
}
