//! The journals that were read as one inventory, and what carries its bookings.
//! It knows neither how journals become one nor where bookings go.
ghost use Rattle.std.specs.Prelude.{◌≡◌, ◌≤◌, ◌<◌, ◌+◌, ◌^◌, length, map, IfErr, IfOk};
ghost use Rattle.carry_limits.specs.Legs.{HasLegsOf};
ghost use Rattle.seat_desk.specs.AuditDesk.{most_lines};
ghost use Rattle.seat_desk.specs.Loading.{IsGridOf};
ghost use Rattle.seat_seal.specs.Fronts.{front_of};
ghost use Rattle.seat_seal.specs.Imprints.{imprint_of};
ghost use Rattle.shard_questions.specs.Counting.{AreCounts};
ghost use Rattle.shard_questions.specs.Joined.{AreJoined};
ghost use Rattle.carry_plans.specs.Joining.{IsMadeOfRead, IsMadeTogether, IsStoppedRead, IsUnmadeOfRead, IsUnplannedTogether, of_journals, text_of};

use crate::asked::CarryAsked;
use crate::belongings::{Belongings, latest};
use crate::fault::CarryFault;
use crate::join_fault::JoinFault;
use crate::joined_carriage::JoinedCarriage;
use crate::journals::KnownTexts;
use crate::making::made_from;
use airline_base::{Counted, Items};
use seat_desk::{Based, Loaded};
use seat_shards::ShardFault;
use shard_questions::{JoinedCore, inventory_together};
use ssim_flights::Flights;
use std::alloc::{AllocError, Global};
use std::thread::Threads;

/// What carries the live bookings of the journals that were read.
#[tactic(auto, using(crate::proofs::AsOne::grid_of_joined))]
pub(crate) fn joined_of<R: Threads + Sync>(
    rt: &R,
    alloc: Global,
    asked: &CarryAsked<'_>,
    new: &Based,
    old: Based,
    read: KnownTexts,
) -> Result<JoinedCarriage, JoinFault>
    requires rows { length asked.now.protections.now < 2 ^ 32 }
    requires grid { IsGridOf old.loaded.flights old.loaded.grid }
    requires file { HasLegsOf new.now.loaded.grid new.now.loaded.flights }
    requires ladders { IsGridOf new.now.loaded.flights new.now.loaded.grid }
    requires some { 1 ≤ length read.knowns }
    ensures imprint { IfOk result (λ c. c.carriage.entry.journal.imprint ≡ imprint_of (front_of c.carriage.text)) }
    ensures as_many { IfOk result (λ c. length c.others + 1 ≡ length read.knowns) }
    ensures made { IfOk result (IsMadeOfRead asked.now new.now.loaded.flights new.now.loaded.grid new.now.basis old.loaded.flights old.loaded.grid
        read.texts read.knowns) }
    ensures fault { IfErr result (IsUnmadeOfRead asked.now new.now.loaded.flights new.now.loaded.grid old.loaded.flights old.loaded.grid read.texts) }
{
    let KnownTexts { texts, knowns } = read;
    let joined = match inventory_of(rt, alloc, &old.loaded, texts.as_slice()) {
        Ok(joined) => joined,
        Err(fault) => return Err(fault),
    };
    drop(texts);
    match made_together(alloc, asked, new, &old.loaded.flights, joined, knowns) {
        Ok(carriage) => Ok(carriage),
        Err(fault) => Err(JoinFault::Carry(fault)),
    }
}

/// What carries the live bookings of one inventory that has the lines of several journals, of whose seals this is known.
#[tactic(auto, using(crate::proofs::AsOne::made_together, crate::proofs::AsOne::unplanned_together))]
fn made_together(
    alloc: Global,
    asked: &CarryAsked<'_>,
    new: &Based,
    olds: &Flights,
    joined: JoinedCore,
    knowns: Belongings,
) -> Result<JoinedCarriage, CarryFault>
    requires rows { length asked.now.protections.now < 2 ^ 32 }
    requires grid { IsGridOf olds.now joined.core.grid }
    requires file { HasLegsOf new.now.loaded.grid new.now.loaded.flights }
    requires ladders { IsGridOf new.now.loaded.flights new.now.loaded.grid }
    requires some { 1 ≤ length knowns }
    ensures imprint { IfOk result (λ c. c.carriage.entry.journal.imprint ≡ imprint_of (front_of c.carriage.text)) }
    ensures as_many { IfOk result (λ c. length c.others + 1 ≡ length knowns) }
    ensures made { IfOk result (IsMadeTogether asked.now new.now.loaded.flights new.now.loaded.grid new.now.basis olds.now joined.core joined.counts
        knowns) }
    ensures fault { IfErr result (IsUnplannedTogether asked.now olds.now joined.core new.now.loaded.flights new.now.loaded.grid joined.counts) }
{
    let mut others = knowns;
    let epoch = latest(others.as_slice());
    let Some(known) = others.pop() else {
        unreachable!()
    };
    let JoinedCore { core, counts } = joined;
    let of = CarryAsked {
        today: asked.today,
        protections: asked.protections,
        order: asked.order,
        displaces: asked.displaces,
        fresh_limits: asked.fresh_limits,
        counts: counts.as_slice(),
        form: asked.form,
        part: asked.part,
    };
    match made_from(alloc, &of, new, olds, core, epoch, known) {
        Ok(carriage) => Ok(JoinedCarriage { carriage, others }),
        Err(fault) => Err(fault),
    }
}

/// The inventory that has the lines of the journals of these texts.
#[tactic(auto, using(crate::proofs::AsOne::room_of))]
fn inventory_of<R: Threads + Sync>(
    rt: &R,
    alloc: Global,
    old: &Loaded,
    texts: &[Items<u8>],
) -> Result<JoinedCore, JoinFault>
    requires grid { IsGridOf old.now.flights old.now.grid }
    ensures ok { IfOk result (λ j. AreJoined old.now.grid texts.now j.core.journal) }
    ensures counts { IfOk result (λ j. AreCounts texts.now j.counts) }
    ensures grid { IfOk result (λ j. j.core.grid ≡ old.now.grid) }
    ensures few { IfOk result (λ j. length j.core.journal ≤ most_lines) }
    ensures fault { IfErr result (IsStoppedRead old.now.grid texts.now) }
{
    let Ok(mut readers) = readers_of(alloc, texts) else {
        return Err(JoinFault::Carry(CarryFault::Memory));
    };
    let flights = old.flights.len() as usize;
    match inventory_together(rt, alloc, &old.grid, flights, readers.as_mut_slice()) {
        Ok(joined) => Ok(joined),
        Err(fault) => Err(of_journals(fault)),
    }
}

/// Texts in memory don't fail, so a device says as little of them as want of memory.
fn of_journals(fault: ShardFault) -> JoinFault
    ensures { result ≡ of_journals fault }
{
    match fault {
        ShardFault::Desk(_) => JoinFault::Carry(CarryFault::Memory),
        _ => JoinFault::Journals(fault),
    }
}

/// A reader over each of these texts.
#[tactic(auto, using(crate::proofs::AsOne::read_more, crate::proofs::AsOne::read_whole))]
fn readers_of<'a>(
    alloc: Global,
    texts: &'a [Items<u8>],
) -> Result<Vec<Counted<&'a [u8]>>, AllocError>
    ensures { IfOk result (λ readers. map text_of readers.items ≡ texts.now) }
{
    let mut readers: Vec<Counted<&'a [u8]>> = Vec::new(alloc);
    for text in texts {
        let reader = reader_of(text.as_slice());
        readers.push(reader)?;
    }
    Ok(readers)
}

fn reader_of<'a>(text: &'a [u8]) -> Counted<&'a [u8]>
    ensures { text_of result ≡ text.now }
{
    Counted::new(text)
}
