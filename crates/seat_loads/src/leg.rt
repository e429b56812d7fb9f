//! The line of a leg: how full it is.
//! It knows no other leg.
ghost use Rattle.std.specs.Prelude.{◌≡◌, ◌++◌, ◌≤◌, ◌<◌, OnOk, length};
ghost use Rattle.seat_nesting.specs.Nesting.{ladder_at, legs_of};
ghost use Rattle.seat_rules.specs.Bookings.{held};
ghost use Rattle.seat_rules.specs.Inventory.{state_now};
ghost use Rattle.seat_desk.specs.AuditDesk.{most_lines};
ghost use Rattle.seat_desk.specs.FlightsDesk.{head_text};
ghost use Rattle.seat_questions.specs.Why.{one_leg};
ghost use Rattle.seat_loads.specs.Legs.{held_on, load_text, load_texts, share, share_text, standing_text, top_limit};
ghost use Rattle.seat_loads.specs.Loads.{IsLegLine, IsPutBehind};

use airline_base::Place;
use seat_core::Core;
use seat_desk::{put, put_head, put_number, put_way};
use seat_nesting::Step;
use seat_questions::{Bars, put_bars, put_class, put_each_room, put_each_wait};
use ssim_flights::{DatedLeg, Flight};
use std::alloc::AllocError;

/// Adds the line of a leg, and its bars where they are asked for.
#[tactic(auto, using(crate::proofs::LoadTexts::leg_put, crate::proofs::LoadTexts::leg_fits))]
pub fn put_leg(
    text: &mut Vec<u8>,
    core: &Core,
    bars: Option<Bars>,
    index: u32,
    flight: &Flight,
    leg: u8,
    dated: &DatedLeg,
) -> Result<(), AllocError>
    requires capped { core.now.cap ≤ most_lines }
    requires there { leg < length (legs_of core.now.grid index) }
    ensures { OnOk result (IsPutBehind (IsLegLine bars (state_now core.now) index flight.now leg dated.now)
        text.old.items text.new.items) }
{
    put_head(text, index, flight)?;
    put_way(text, dated)?;
    put_standing(text, core, index, leg)?;
    put(text, b"\n")?;
    put_bars(text, core, bars, one_leg(index, leg))
}

/// The place that is one leg.
fn one_leg(flight: u32, leg: u8) -> Place
    ensures { result ≡ one_leg flight leg }
{
    Place {
        flight,
        from: leg,
        to: leg,
    }
}

/// Adds LOAD and how full the leg is, and then its classes.
#[tactic(auto, using(crate::proofs::LoadTexts::leg_fits))]
fn put_standing(text: &mut Vec<u8>, core: &Core, flight: u32, leg: u8) -> Result<(), AllocError>
    requires capped { core.now.cap ≤ most_lines }
    requires there { leg < length (legs_of core.now.grid flight) }
    ensures { OnOk result (text.new.items ≡ text.old.items ++ standing_text (state_now core.now) flight leg) }
{
    let steps = core.steps(flight, leg);
    put(text, b" LOAD ")?;
    put_share(
        text,
        held_on(core, flight, leg),
        u64::from(top_limit(steps)),
    )?;
    put_classes(text, core, flight, leg, steps)?;
    put(text, b" ROOM")?;
    put_each_room(text, core, flight, leg, steps)?;
    put(text, b" WAIT")?;
    put_each_wait(text, core, flight, leg, steps)
}

/// The seats that are held on a leg in its classes.
pub fn held_on(core: &Core, flight: u32, leg: u8) -> u64
    ensures value { result ≡ held_on (state_now core.now) flight leg }
    ensures bound { result ≤ 65535 }
{
    u64::from(core.held_from(flight, leg, 0))
}

/// The limit of the highest class; 0 where there is none.
pub fn top_limit(steps: &[Step]) -> u16
    ensures { result ≡ top_limit steps.now }
{
    match steps {
        [] => 0,
        [first, ..] => first.limit,
    }
}

/// Adds HELD/LIMIT and the share per mille.
pub fn put_share(text: &mut Vec<u8>, held: u64, limit: u64) -> Result<(), AllocError>
    requires { held ≤ 52_428_000_000 }
    ensures { OnOk result (text.new.items ≡ text.old.items ++ share_text held limit) }
{
    put_number(text, held)?;
    put(text, b"/")?;
    put_number(text, limit)?;
    put(text, b" ")?;
    put_number(text, share(held, limit))
}

/// What part of a limit is held, per mille, rounded down; 0 of none.
pub fn share(held: u64, limit: u64) -> u64
    requires { held ≤ 52_428_000_000 }
    ensures { result ≡ share held limit }
{
    if limit == 0 {
        return 0;
    }
    held * 1000 / limit
}

/// Adds for each class the seats that are held in it and those below, of its limit.
#[tactic(auto, using(crate::proofs::LoadTexts::class_put))]
fn put_classes(
    text: &mut Vec<u8>,
    core: &Core,
    flight: u32,
    leg: u8,
    steps: &[Step],
) -> Result<(), AllocError>
    requires ladder { steps.now ≡ ladder_at (state_now core.now).grid flight leg }
    ensures { OnOk result (text.new.items ≡ text.old.items
        ++ load_texts (held (state_now core.now).bookings flight leg) steps.now) }
{
    for i in 0..steps.len() {
        let seats = core.held_from(flight, leg, i);
        put_load(text, seats, &steps[i])?;
    }
    Ok(())
}

fn put_load(text: &mut Vec<u8>, seats: u16, step: &Step) -> Result<(), AllocError>
    ensures { OnOk result (text.new.items ≡ text.old.items ++ load_text seats step.now) }
{
    put_class(text, step.class, u64::from(seats))?;
    put(text, b"/")?;
    put_number(text, u64::from(step.limit))
}
