//! The live bookings of a journal, and those of them that are asked for.
//! It knows no limit but that a leg sells a class.
ghost use Rattle.std.specs.Prelude.{◌≡◌, [], IfOk, None, OnOk};
ghost use Rattle.std.specs.List.{All};
ghost use Rattle.seat_desk.specs.Loading.{IsGridOf};
ghost use Rattle.seat_carrying.specs.Owned.{IsOwned};
ghost use Rattle.seat_rules.specs.Inventory.{state_now};
ghost use Rattle.seat_rules.specs.Journal.{IsLegal};
ghost use Rattle.carry_order.specs.Ordering.{first_under};
ghost use Rattle.carry_plans.specs.Plans.{AreChosen, IsEvery};

use crate::asked::CarryAsked;
use airline_base::{Locator, Memory};
use carry_lines::carriable;
use carry_order::ordered;
use carry_protections::{Courses, moved_under};
use seat_carrying::Owned;
use seat_core::Core;
use seat_lists::{Wanted, picked};
use seat_nesting::Grid;
use seat_rules::Booking;
use ssim_flights::{Flights, Served};
use std::alloc::Global;

/// Live bookings in order of number, and those of them that are asked for, on their new places.
#[derive(Drop)]
pub(crate) struct Chosen {
    pub live: Vec<Booking>,
    pub kept: Vec<Owned>,
}

/// The live bookings of a journal over these flights, and those that go to a place of the new ones that sells their class, by these courses or by the name
/// of their own place, in the order in which they keep their seats. The limits of the new places are the file's.
#[tactic(auto, using(crate::proofs::Choices::are_chosen))]
pub(crate) fn choose(
    alloc: Global,
    asked: &CarryAsked<'_>,
    courses: &Courses,
    before: &Core,
    olds: &Flights,
    old: &Served<'_>,
    new: &Served<'_>,
    file: &Grid,
) -> Result<Chosen, Memory>
    requires grid { IsGridOf olds.now before.now.grid }
    requires served { old.now ≡ olds.now }
    ensures chosen { IfOk result (λ c. AreChosen asked.now courses.now before.now olds.now new.now file.now c.live.items c.kept.items) }
    ensures owned { IfOk result (λ c. All (IsOwned file.now) c.kept.items) }
    ensures legal { OnOk result (IsLegal before.now.grid before.now.journal) }
{
    let live = every(alloc, olds, before)?;
    let moved = moved_under(
        alloc,
        courses,
        before.journal(),
        olds,
        old,
        new,
        asked.today,
        live.as_slice(),
    )?;
    let fit = carriable(alloc, file, moved.as_slice())?;
    let kept = in_order(alloc, asked.order, file, fit)?;
    Ok(Chosen { live, kept })
}

/// These bookings in the order in which they keep their seats.
#[tactic(auto, using(crate::proofs::Choices::all_owned, crate::proofs::Choices::nobody_first))]
fn in_order(
    alloc: Global,
    first: &[Locator],
    file: &Grid,
    live: Vec<Owned>,
) -> Result<Vec<Owned>, Memory>
    requires owned { All (IsOwned file.now) live.items }
    ensures order { IfOk result (λ all. all.items ≡ first_under first.now live.items) }
    ensures owned { IfOk result (λ all. All (IsOwned file.now) all.items) }
{
    let _booking: Option<Booking> = None;
    if first.is_empty() {
        return Ok(live);
    }
    match ordered(alloc, first, live) {
        Ok(all) => Ok(all),
        Err(memory) => Err(memory),
    }
}

/// All live bookings, in order of number.
fn every(alloc: Global, olds: &Flights, before: &Core) -> Result<Vec<Booking>, Memory>
    requires grid { IsGridOf olds.now before.now.grid }
    ensures { IfOk result (λ all. IsEvery before.now olds.now all.items) }
{
    let wanted = Wanted {
        locators: &[],
        flight: None,
        day: None,
    };
    match picked(alloc, olds, before, &wanted, false) {
        Ok(all) => Ok(all),
        Err(_) => Err(Memory),
    }
}
