//! The legs that are asked for, by whether their own names find them.
//! It knows no limit.
ghost use Rattle.std.specs.Prelude.{◌≡◌, ◌++◌, ◌∷◌, ◌≤◌, [], IfOk, OnOk, length};
ghost use Rattle.limit_changes.specs.Legs.{each_from, every_leg, is_chosen, is_kept, is_named, is_so, kept_leg, kept_on, legs_by, legs_on, named_leg};

use airline_base::Day;
use seat_lists::{Designator, keeps_flight};
use seat_questions::{CityPair, is_found, keeps_day, keeps_pair, one_leg};
use ssim_flights::{DatedLeg, Flight, Flights, Served};
use std::alloc::{AllocError, Global};

/// A leg of a dated flight, with what names it.
#[derive(Clone, Copy)]
pub struct NamedLeg {
    /// The flight's index, counted from 0.
    pub flight: u32,
    /// The leg's index in its flight, counted from 0.
    pub leg: u8,
    pub name: Designator,
    pub run: DatedLeg,
}

/// Which legs are asked for.
#[derive(Clone, Copy)]
pub struct LegsAsked {
    /// Those of flights of this name; else of any.
    pub flight: Option<Designator>,
    /// Those that depart on this local day; else on each.
    pub day: Option<Day>,
    /// Those that run between these stations; else between any.
    pub pair: Option<CityPair>,
}

/// The legs that are asked for, by flight and leg: those that their own names find, or those that they do not. A fault is want of memory.
pub fn legs_by(
    alloc: Global,
    flights: &Flights,
    served: &Served<'_>,
    asked: &LegsAsked,
    named: bool,
) -> Result<Vec<NamedLeg>, AllocError>
    ensures { IfOk result (λ all. all.items ≡ legs_by named served.now asked.now flights.now) }
{
    let mut all = Vec::new(alloc);
    for index in 0..flights.len() {
        add_flight(
            &mut all,
            served,
            asked,
            named,
            index,
            &flights.flight(index),
        )?;
    }
    Ok(all)
}

/// Each leg of each flight, by flight and leg, whatever its own name finds. A fault is want of memory.
pub fn every_leg(alloc: Global, flights: &Flights) -> Result<Vec<NamedLeg>, AllocError>
    ensures { IfOk result (λ all. all.items ≡ every_leg flights.now) }
{
    let mut all = Vec::new(alloc);
    for index in 0..flights.len() {
        add_each(&mut all, index, &flights.flight(index))?;
    }
    Ok(all)
}

/// Adds each leg of a flight.
fn add_each(all: &mut Vec<NamedLeg>, index: u32, flight: &Flight) -> Result<(), AllocError>
    requires few { length flight.now.legs ≤ 8 }
    ensures { OnOk result (all.new.items ≡ all.old.items ++ legs_on index flight.now) }
{
    let legs = flight.legs.as_slice();
    for j in 0..legs.len() {
        push_leg(all, named_leg(index, flight, j as u8, &legs[j]))?;
    }
    Ok(())
}

/// Adds those of a flight, if it is asked for.
#[tactic(auto, using(crate::proofs::Keeping::flight_left, crate::proofs::Keeping::flight_kept))]
fn add_flight(
    all: &mut Vec<NamedLeg>,
    served: &Served<'_>,
    asked: &LegsAsked,
    named: bool,
    index: u32,
    flight: &Flight,
) -> Result<(), AllocError>
    requires few { length flight.now.legs ≤ 8 }
    ensures { OnOk result (all.new.items ≡ all.old.items ++ kept_on named served.now asked.now index flight.now) }
{
    if !keeps_flight(asked.flight, flight) {
        return Ok(());
    }
    add_legs(all, served, asked, named, index, flight)
}

/// Adds those of its legs that are asked for.
fn add_legs(
    all: &mut Vec<NamedLeg>,
    served: &Served<'_>,
    asked: &LegsAsked,
    named: bool,
    index: u32,
    flight: &Flight,
) -> Result<(), AllocError>
    requires few { length flight.now.legs ≤ 8 }
    ensures { OnOk result (all.new.items ≡ all.old.items
        ++ each_from (kept_leg named served.now asked.now index flight.now) 0 flight.now.legs) }
{
    let legs = flight.legs.as_slice();
    for j in 0..legs.len() {
        add_leg(all, served, asked, named, index, flight, j as u8, &legs[j])?;
    }
    Ok(())
}

/// Adds a leg, if it is asked for.
#[tactic(auto, using(crate::proofs::Keeping::leg_left, crate::proofs::Keeping::leg_kept))]
fn add_leg(
    all: &mut Vec<NamedLeg>,
    served: &Served<'_>,
    asked: &LegsAsked,
    named: bool,
    index: u32,
    flight: &Flight,
    leg: u8,
    dated: &DatedLeg,
) -> Result<(), AllocError>
    ensures { OnOk result (all.new.items ≡ all.old.items ++ kept_leg named served.now asked.now index flight.now leg dated.now) }
{
    if !is_chosen(served, asked, named, index, flight, leg, dated) {
        return Ok(());
    }
    push_leg(all, named_leg(index, flight, leg, dated))
}

fn push_leg(all: &mut Vec<NamedLeg>, leg: NamedLeg) -> Result<(), AllocError>
    ensures { OnOk result (all.new.items ≡ all.old.items ++ leg ∷ []) }
{
    let _day: Option<Day> = None;
    let _name: Option<Designator> = None;
    all.push(leg)?;
    Ok(())
}

/// A leg of the flight of this index, with its name.
pub fn named_leg(index: u32, flight: &Flight, leg: u8, dated: &DatedLeg) -> NamedLeg
    ensures { result ≡ named_leg index flight.now leg dated.now }
{
    NamedLeg {
        flight: index,
        leg,
        name: Designator {
            airline: flight.airline,
            number: flight.number,
            suffix: flight.suffix,
        },
        run: *dated,
    }
}

/// Whether a leg is asked for, and its own name finds it, or does not.
fn is_chosen(
    served: &Served<'_>,
    asked: &LegsAsked,
    named: bool,
    index: u32,
    flight: &Flight,
    leg: u8,
    dated: &DatedLeg,
) -> bool
    ensures { result ≡ is_chosen named served.now asked.now index flight.now leg dated.now }
{
    is_kept(asked, dated) && is_so(named, is_named(served, index, flight, leg, dated))
}

fn is_so(named: bool, is: bool) -> bool
    ensures { result ≡ is_so named is }
{
    if named { is } else { !is }
}

/// Whether a row with the leg's flight, day and pair is one for this very leg.
fn is_named(served: &Served<'_>, index: u32, flight: &Flight, leg: u8, dated: &DatedLeg) -> bool
    ensures { result ≡ is_named served.now index flight.now leg dated.now }
{
    is_found(served, flight, one_leg(index, leg), dated)
}

/// Whether a leg is asked for, on a flight that is.
fn is_kept(asked: &LegsAsked, dated: &DatedLeg) -> bool
    ensures { result ≡ is_kept asked.now dated.now }
{
    keeps_day(asked.day, dated.day) && keeps_pair(asked.pair, dated)
}
