//! Which legs a page shows in a class, and how full the class is on each.
//! It knows no text.
ghost use Rattle.std.specs.Prelude.{◌≡◌, ◌++◌, ◌<◌, IfOk, OnOk};
ghost use Rattle.seat_rules.specs.Inventory.{state_now};
ghost use Rattle.page_questions.specs.Shown.{if_shown, load_of, shown, shown_from, shown_leg, shown_legs, standing_on};

use airline_base::{Airline, Class, Day, Station};
use load_pages::LegLoad;
use seat_core::Core;
use seat_lists::keeps_flight;
use seat_loads::{LoadsOf, is_kept};
use ssim_flights::{DatedLeg, Flight, Flights};
use std::alloc::{AllocError, Global};

/// How full a class of a leg is.
#[derive(Clone, Copy)]
pub struct Standing {
    /// The seats that are held in it and those below.
    pub held: u16,
    /// Its limit, in seats.
    pub limit: u16,
}

/// The legs that are kept and have the class: the first ones of all flights, then the second ones, and so on.
pub fn shown_legs(
    alloc: Global,
    flights: &Flights,
    core: &Core,
    asked: &LoadsOf,
    class: Class,
) -> Result<Vec<LegLoad>, AllocError>
    ensures { IfOk result (λ all. all.items ≡ shown_legs asked.now (state_now core.now) flights.now class) }
{
    let mut all = Vec::new(alloc);
    for leg in 0..8u8 {
        add_numbered(&mut all, flights, core, asked, class, leg)?;
    }
    Ok(all)
}

/// Adds those of this number, from 0.
fn add_numbered(
    all: &mut Vec<LegLoad>,
    flights: &Flights,
    core: &Core,
    asked: &LoadsOf,
    class: Class,
    leg: u8,
) -> Result<(), AllocError>
    ensures { OnOk result (all.new.items ≡ all.old.items
        ++ shown_from (shown asked.now (state_now core.now) class leg) 0 flights.now) }
{
    for index in 0..flights.len() {
        add_shown(all, core, asked, class, leg, index, &flights.flight(index))?;
    }
    Ok(())
}

/// Adds that of a flight, if it has one that is shown.
#[tactic(auto, using(crate::proofs::Showing::none_added, crate::proofs::Showing::one_added))]
fn add_shown(
    all: &mut Vec<LegLoad>,
    core: &Core,
    asked: &LoadsOf,
    class: Class,
    leg: u8,
    index: u32,
    flight: &Flight,
) -> Result<(), AllocError>
    ensures { OnOk result (all.new.items ≡ all.old.items
        ++ if_shown (shown asked.now (state_now core.now) class leg index flight.now)) }
{
    let _airline: Option<Airline> = None;
    let _station: Option<Station> = None;
    let _day: Option<Day> = None;
    match shown(core, asked, class, leg, index, flight) {
        Some(load) => {
            all.push(load)?;
            Ok(())
        }
        None => Ok(()),
    }
}

/// The leg of this number, if the flight has it and it is shown.
fn shown(
    core: &Core,
    asked: &LoadsOf,
    class: Class,
    leg: u8,
    index: u32,
    flight: &Flight,
) -> Option<LegLoad>
    ensures { result ≡ shown asked.now (state_now core.now) class leg index flight.now }
{
    match flight.legs.as_slice().get(usize::from(leg)) {
        Some(dated) => shown_leg(core, asked, class, leg, index, flight, dated),
        None => None,
    }
}

/// A leg, if it is kept and has the class.
fn shown_leg(
    core: &Core,
    asked: &LoadsOf,
    class: Class,
    leg: u8,
    index: u32,
    flight: &Flight,
    dated: &DatedLeg,
) -> Option<LegLoad>
    ensures { result ≡ shown_leg asked.now (state_now core.now) class leg index flight.now dated.now }
{
    if keeps_flight(asked.flight, flight) && is_kept(asked, dated) {
        match standing_on(core, class, index, leg) {
            Some(at) => Some(load_of(flight, dated, at)),
            None => None,
        }
    } else {
        None
    }
}

fn load_of(flight: &Flight, dated: &DatedLeg, at: Standing) -> LegLoad
    ensures { result ≡ load_of flight.now dated.now at }
{
    LegLoad {
        airline: flight.airline,
        number: flight.number,
        suffix: flight.suffix,
        board: dated.board,
        off: dated.off,
        day: dated.day,
        held: at.held,
        limit: at.limit,
    }
}

/// How full the class is on a leg, if the leg has it.
#[tactic(auto, using(crate::proofs::Showing::class_found, crate::proofs::Showing::class_passed, crate::proofs::Showing::no_class))]
fn standing_on(core: &Core, class: Class, index: u32, leg: u8) -> Option<Standing>
    ensures { result ≡ standing_on (state_now core.now) class index leg }
{
    let steps = core.steps(index, leg);
    for k in 0..steps.len() {
        let step = &steps[k];
        if step.class == class {
            return Some(Standing {
                held: core.held_from(index, leg, k),
                limit: step.limit,
            });
        }
    }
    None
}
