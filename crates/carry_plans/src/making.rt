//! The new journal, its seal's entry and the report, of seasons that were read and a journal's bytes.
//! It knows no reader.
ghost use Rattle.std.specs.Prelude.{◌≡◌, ◌≤◌, ◌<◌, ◌+◌, ◌^◌, min, IfErr, IfOk, length};
ghost use Rattle.carry_limits.specs.Legs.{HasLegsOf};
ghost use Rattle.seat_desk.specs.AuditDesk.{most_journal_bytes, most_lines};
ghost use Rattle.seat_desk.specs.Loading.{IsGridOf};
ghost use Rattle.seat_seal.specs.Fronts.{front_of};
ghost use Rattle.seat_seal.specs.Imprints.{imprint_of};
ghost use Rattle.carry_plans.specs.Carries.{IsMadeFrom, IsMadeOf, IsNextEra, AreSealed, IsPut, IsSealOfWhole, IsUnmade, next_epoch};
ghost use Rattle.carry_plans.specs.Plans.{IsUnplanned};

use crate::asked::CarryAsked;
use crate::carriage::Carriage;
use crate::fault::{CarryFault, of_old};
use crate::planning::{Planned, plan};
use airline_base::{Day, Items, Memory};
use seat_core::Core;
use seat_desk::{Based, Loaded, replayed_in_parts};
use seat_nesting::Grid;
use seat_seal::{
    Basis, Date, Era, Runs, Sealed, closed_entry, front_of, imprint_of, one_seal_text,
};
use seat_sealing::journal_bytes;
use ssim_flights::Flights;
use std::alloc::{AllocError, Global};
use std::thread::Threads;

/// What carries the live bookings of a journal with these bytes over the old season to the new one, if they are a legal history over its limits.
#[tactic(auto, using(crate::proofs::Makes::grid_before, crate::proofs::Makes::of_journal, crate::proofs::Makes::unmade_of, crate::proofs::Makes::made_of_it))]
pub(crate) fn made<R: Threads + Sync>(
    rt: &R,
    alloc: Global,
    asked: &CarryAsked<'_>,
    new: &Based,
    olds: &Flights,
    grid: Grid,
    bytes: Vec<u8>,
    known: Sealed,
) -> Result<Carriage, CarryFault>
    requires rows { length asked.now.protections.now < 2 ^ 32 }
    requires size { length bytes.items ≤ most_journal_bytes }
    requires grid { IsGridOf olds.now grid }
    requires file { HasLegsOf new.now.loaded.grid new.now.loaded.flights }
    requires ladders { IsGridOf new.now.loaded.flights new.now.loaded.grid }
    ensures imprint { IfOk result (λ c. c.entry.journal.imprint ≡ imprint_of (front_of c.text)) }
    ensures made { IfOk result (IsMadeOf asked.now new.now.loaded.flights new.now.loaded.grid new.now.basis olds.now grid bytes.items known) }
    ensures fault { IfErr result (IsUnmade asked.now new.now.loaded.flights new.now.loaded.grid olds.now grid bytes.items) }
{
    let before = match replayed_in_parts(rt, alloc, grid, bytes) {
        Ok(before) => before,
        Err(fault) => return Err(of_old(fault)),
    };
    let epoch = known.era.epoch;
    match made_from(alloc, asked, new, olds, before, epoch, known) {
        Ok(carriage) => Ok(carriage),
        Err(fault) => Err(fault),
    }
}

/// What carries the live bookings of an inventory over the old season's limits to the new season; the new journal's seal says that it is of the era behind
/// this epoch.
#[tactic(auto, using(crate::proofs::Makes::unplanned_memory, crate::proofs::Makes::made_from_it))]
pub fn made_from(
    alloc: Global,
    asked: &CarryAsked<'_>,
    new: &Based,
    olds: &Flights,
    before: Core,
    epoch: u32,
    known: Sealed,
) -> Result<Carriage, CarryFault>
    requires rows { length asked.now.protections.now < 2 ^ 32 }
    requires grid { IsGridOf olds.now before.grid }
    requires file { HasLegsOf new.now.loaded.grid new.now.loaded.flights }
    requires ladders { IsGridOf new.now.loaded.flights new.now.loaded.grid }
    ensures imprint { IfOk result (λ c. c.entry.journal.imprint ≡ imprint_of (front_of c.text)) }
    ensures made { IfOk result (IsMadeFrom asked.now new.now.loaded.flights new.now.loaded.grid new.now.basis olds.now before epoch known) }
    ensures fault { IfErr result (IsUnplanned asked.now olds.now before new.now.loaded.flights new.now.loaded.grid) }
{
    let planned = match plan(
        alloc,
        asked,
        olds,
        &before,
        &new.loaded.flights,
        &new.loaded.grid,
    ) {
        Ok(planned) => planned,
        Err(fault) => return Err(fault),
    };
    drop(before);
    match put(alloc, asked.today, &new.basis, planned, epoch, known) {
        Ok(carriage) => Ok(carriage),
        Err(fault) => Err(fault),
    }
}

/// The text of the new inventory's journal, and what its seal says.
fn put(
    alloc: Global,
    today: Day,
    basis: &Basis,
    planned: Planned,
    epoch: u32,
    known: Sealed,
) -> Result<Carriage, CarryFault>
    ensures imprint { IfOk result (λ c. c.entry.journal.imprint ≡ imprint_of (front_of c.text)) }
    ensures put { IfOk result (IsPut today basis.now epoch known planned.after planned.report planned.whole) }
    ensures memory { IfErr result (λ f. f ≡ CarryFault.Memory) }
{
    let Planned {
        after,
        report,
        whole,
    } = planned;
    let Ok(whole) = seal_of_whole(alloc, today, basis, whole, epoch) else {
        return Err(CarryFault::Memory);
    };
    let lines = after.journal().len() as u32;
    let Ok(text) = journal_bytes(alloc, after.journal()) else {
        return Err(CarryFault::Memory);
    };
    let imprint = imprint_of(front_of(&text));
    let era = next_era(epoch, today);
    Ok(Carriage {
        text: Items::from_vec(text),
        entry: closed_entry(basis, era, imprint, lines, Runs::new()),
        report,
        known,
        whole,
    })
}

/// The seal of the journal that all hosts would have together, where there is one: it names the season too.
fn seal_of_whole(
    alloc: Global,
    today: Day,
    basis: &Basis,
    whole: Option<Core>,
    epoch: u32,
) -> Result<Option<Items<u8>>, Memory>
    ensures { IfOk result (AreSealed today basis.now epoch whole) }
{
    let Some(whole) = whole else {
        return Ok(None);
    };
    match sealed_whole(alloc, today, basis, &whole, epoch) {
        Ok(text) => Ok(Some(text)),
        Err(_) => Err(Memory),
    }
}

/// The text of its seal.
#[tactic(auto, using(crate::proofs::Makes::sealed_whole))]
fn sealed_whole(
    alloc: Global,
    today: Day,
    basis: &Basis,
    whole: &Core,
    epoch: u32,
) -> Result<Items<u8>, Memory>
    ensures { IfOk result (IsSealOfWhole today basis.now epoch whole.now) }
{
    let lines = whole.journal().len() as u32;
    let Ok(text) = journal_bytes(alloc, whole.journal()) else {
        return Err(Memory);
    };
    let imprint = imprint_of(front_of(&text));
    let entry = closed_entry(basis, next_era(epoch, today), imprint, lines, Runs::new());
    match copied(alloc, one_seal_text(&entry).as_slice()) {
        Ok(text) => Ok(text),
        Err(_) => Err(Memory),
    }
}

fn copied(alloc: Global, text: &[u8]) -> Result<Items<u8>, AllocError>
    ensures { IfOk result (λ items. items ≡ text.now) }
{
    let mut bytes = Vec::new(alloc);
    bytes.extend_from_slice(text)?;
    Ok(Items::from_vec(bytes))
}

/// The era behind one of this epoch, which begins on a day.
fn next_era(epoch: u32, today: Day) -> Era
    ensures { IsNextEra epoch today result }
{
    Era {
        epoch: epoch.saturating_add(1),
        today: Some(Date::of(today)),
        carried: None,
    }
}
