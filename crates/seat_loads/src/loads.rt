//! `loads`: a line for each dated leg that is kept, and one of sums.
//! It knows which legs are kept, and not what a line says.
ghost use Rattle.std.specs.Prelude.{◌≡◌, ◌<◌, ◌≤◌, IfOk, OnOk, length};
ghost use Rattle.seat_nesting.specs.Nesting.{legs_of};
ghost use Rattle.seat_rules.specs.Inventory.{state_now};
ghost use Rattle.seat_desk.specs.AuditDesk.{most_lines};
ghost use Rattle.seat_desk.specs.FlightsDesk.{IsPut, IsText};
ghost use Rattle.seat_desk.specs.Loading.{IsGridOf};
ghost use Rattle.seat_loads.specs.Legs.{is_kept};
ghost use Rattle.seat_loads.specs.Loads.{IsFlightPart, IsLegPart, IsPutBehind};

use crate::leg::put_leg;
use crate::sums::{put_sums, sums_of};
use airline_base::Day;
use seat_core::Core;
use seat_desk::Standing;
use seat_lists::{Designator, keeps_flight};
use seat_questions::{Bars, CityPair, keeps_day, keeps_pair};
use ssim_flights::{DatedLeg, Flight, Flights};
use std::alloc::{AllocError, Global};

/// Which legs are asked for.
#[derive(Clone, Copy)]
pub struct LoadsOf {
    /// Those of flights of this name; else of any.
    pub flight: Option<Designator>,
    /// Those that depart on this local day; else on each.
    pub day: Option<Day>,
    /// Those that run between these stations; else between any.
    pub pair: Option<CityPair>,
    /// Behind the line of each leg the bars of its classes, and in what they are drawn.
    pub bars: Option<Bars>,
}

/// A line for each leg that is kept, by flight and leg: the seats that are held of its highest limit and that share per mille, and for
/// each class the seats held in it and those below of its limit, its room, and the seats that wait of those that may. Last a line of
/// sums.
impl Standing for LoadsOf {
    ghost use Rattle.seat_rules.specs.Journal.{replay};
    ghost use Rattle.seat_loads.specs.Loads.{IsLoadsText};

    ghost tells = { λ asked flights grid entries text. IsLoadsText asked (replay grid entries) flights text };

    #[tactic(auto, using(crate::proofs::LoadTexts::text_put))]
    fn standing(
        &self,
        alloc: Global,
        flights: &Flights,
        core: &Core,
    ) -> Result<Vec<u8>, AllocError> {
        let mut text = lines_of(alloc, flights, core, self)?;
        put_sums(&mut text, &sums_of(flights, core, self))?;
        Ok(text)
    }
}

/// The lines of the legs that are kept.
#[tactic(auto, using(seat_questions::proofs::RoomTexts::legs_alike))]
fn lines_of(
    alloc: Global,
    flights: &Flights,
    core: &Core,
    asked: &LoadsOf,
) -> Result<Vec<u8>, AllocError>
    requires grid { IsGridOf flights.now core.now.grid }
    requires capped { core.now.cap ≤ most_lines }
    ensures { IfOk result (λ text. IsText (IsFlightPart asked.now (state_now core.now)) 0 flights.now text.items) }
{
    let mut text = Vec::new(alloc);
    for index in 0..flights.len() {
        put_kept_flight(&mut text, core, asked, index, &flights.flight(index))?;
    }
    Ok(text)
}

/// Adds the lines of the legs of a flight, if it is kept.
#[tactic(auto, using(crate::proofs::LoadTexts::flight_left, crate::proofs::LoadTexts::flight_kept))]
fn put_kept_flight(
    text: &mut Vec<u8>,
    core: &Core,
    asked: &LoadsOf,
    index: u32,
    flight: &Flight,
) -> Result<(), AllocError>
    requires capped { core.now.cap ≤ most_lines }
    requires few { length flight.now.legs ≤ 8 }
    requires legs { length (legs_of core.now.grid index) ≡ length flight.now.legs }
    ensures { OnOk result (IsPutBehind (IsFlightPart asked.now (state_now core.now) index flight.now)
        text.old.items text.new.items) }
{
    if !keeps_flight(asked.flight, flight) {
        return Ok(());
    }
    put_flight(text, core, asked, index, flight)
}

/// Adds the lines of the legs of a flight that are kept.
fn put_flight(
    text: &mut Vec<u8>,
    core: &Core,
    asked: &LoadsOf,
    index: u32,
    flight: &Flight,
) -> Result<(), AllocError>
    requires capped { core.now.cap ≤ most_lines }
    requires few { length flight.now.legs ≤ 8 }
    requires legs { length (legs_of core.now.grid index) ≡ length flight.now.legs }
    ensures { OnOk result (IsPut (IsLegPart asked.now (state_now core.now) index flight.now) 0 flight.now.legs
        text.old.items text.new.items) }
{
    let legs = flight.legs.as_slice();
    for j in 0..legs.len() {
        put_kept(text, core, asked, index, flight, j as u8, &legs[j])?;
    }
    Ok(())
}

/// Adds the line of a leg, if it is kept.
#[tactic(auto, using(crate::proofs::LoadTexts::leg_left, crate::proofs::LoadTexts::leg_kept))]
fn put_kept(
    text: &mut Vec<u8>,
    core: &Core,
    asked: &LoadsOf,
    index: u32,
    flight: &Flight,
    leg: u8,
    dated: &DatedLeg,
) -> Result<(), AllocError>
    requires capped { core.now.cap ≤ most_lines }
    requires there { leg < length (legs_of core.now.grid index) }
    ensures { OnOk result (IsPutBehind (IsLegPart asked.now (state_now core.now) index flight.now leg dated.now)
        text.old.items text.new.items) }
{
    if !is_kept(asked, dated) {
        return Ok(());
    }
    put_leg(text, core, asked.bars, index, flight, leg, dated)
}

/// Whether a leg is asked for.
pub fn is_kept(asked: &LoadsOf, dated: &DatedLeg) -> bool
    ensures { result ≡ is_kept asked.now dated.now }
{
    keeps_day(asked.day, dated.day) && keeps_pair(asked.pair, dated)
}
