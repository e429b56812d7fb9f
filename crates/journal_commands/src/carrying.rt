//! `carry`: what is read, what is made, and what is written.
ghost use Rattle.std.specs.Prelude.{◌≡◌, ◌≤◌, IsTrue, length, string_bytes, true};
ghost use Rattle.seat_seal.specs.Fronts.{front_of};
ghost use Rattle.seat_seal.specs.Imprints.{imprint_of};
ghost use Rattle.seat_seal.specs.Reading.{two_entries};
ghost use Rattle.seat_seal.specs.Rules.{is_imprint, is_seal, is_sealed};
ghost use Rattle.seat_seal.specs.declared.seal.SealEntry.TheVariants.{Sealed as IsSealed};
ghost use Rattle.carry_plans.specs.Carries.{marked_text};
ghost use Rattle.seat_handing.specs.Marking.{mark_of};
ghost use Rattle.ssim_flights.specs.Right.{IsOfCentury};

use crate::inputs::{Seasons, made, seasons_of, unmade};
use crate::lists::{order_of, protections_of};
use crate::parting::part_asked;
use crate::placing::{Newer, Older, failed, newer_locked, newer_named, older_locked, standing};
use crate::several::{carried_together, tried_together};
use airline_base::put_all;
use carry_parts::Part;
use carry_plans::{Carriage, CarryAsked, text_for};
use command_inputs::{day_of_run, days_of, form_asked};
use progress_meter::Meter;
use seat_desk::DeskFault;
use seat_files::{CarryKind, Output, Refusal, SealFile, Shown, TOO_LONG, metered_output, opened};
use seat_handing::{Hand, HandFault, HandRefusal, hand_over, may_be_marked, may_hand};
use seat_seal::{Beside, SealEntry, is_sealed};
use seat_sealing::{entry_beside, may_be_sealed};
use seat_tables::Form;
use seat_words::{CarryJob, Horizon};
use std::thread::Threads;

/// Carries the live bookings of a journal over the one season to the other, and writes the report. Where a leg has too few seats nothing is carried: the
/// lines of such legs are written, and the answer says that there are any. The journal is locked from its reading to the end.
pub fn carry<R: Threads + Sync>(
    rt: &HostRuntime,
    threads: &R,
    meter: &Meter,
    asked: &CarryJob<'_>,
    from: &Horizon<'_>,
    to: &Horizon<'_>,
) -> Result<bool, Refusal> {
    let from_days = days_of(from.first, from.days)?;
    let to_days = days_of(to.first, to.days)?;
    let today = day_of_run(asked.today)?;
    let form: Option<Form> = form_asked(asked.shape, false)?;
    let part: Option<Part> = part_asked(asked.shard, asked.new)?;
    if !asked.dry_run {
        newer_named(rt, asked.new)?;
    }
    let protections = match protections_of(rt, asked.protections) {
        Ok(bytes) => bytes,
        Err(refusal) => return Err(refusal),
    };
    let order = match order_of(rt, asked.order) {
        Ok(order) => order,
        Err(refusal) => return Err(refusal),
    };
    let mut seasons = match seasons_of(rt, from, from_days, to, to_days) {
        Ok(seasons) => seasons,
        Err(refusal) => return Err(refusal),
    };
    let asking = CarryAsked {
        today,
        protections: protections.as_slice(),
        order: order.as_slice(),
        displaces: asked.displaces,
        fresh_limits: asked.fresh_limits,
        counts: &[],
        form,
        part,
    };
    carried_over(rt, threads, meter, asked, &asking, &mut seasons)
}

/// The same with both seasons open.
fn carried_over<R: Threads + Sync>(
    rt: &HostRuntime,
    threads: &R,
    meter: &Meter,
    asked: &CarryJob<'_>,
    asking: &CarryAsked<'_>,
    seasons: &mut Seasons,
) -> Result<bool, Refusal>
    requires from_first { IsOfCentury seasons.old.from.first }
    requires from_days { (1 ≤ seasons.old.from.days) × (seasons.old.from.days ≤ 366) }
    requires to_first { IsOfCentury seasons.old.to.first }
    requires to_days { (1 ≤ seasons.old.to.days) × (seasons.old.to.days ≤ 366) }
    requires rows { length asking.now.protections.now ≤ 16777216 }
{
    if !asked.others.is_empty() {
        return together(rt, threads, meter, asked, asking, seasons);
    }
    if asked.dry_run {
        return tried(rt, threads, meter, asked, asking, seasons);
    }
    let (mut older, text) = match older_locked(rt, asked, seasons) {
        Ok(locked) => locked,
        Err(refusal) => return Err(refusal),
    };
    let outcome = carried(
        rt, threads, meter, asked, asking, seasons, &mut older, &text,
    );
    older.seal.leave();
    outcome
}

/// The same of several journals.
fn together<R: Threads + Sync>(
    rt: &HostRuntime,
    threads: &R,
    meter: &Meter,
    asked: &CarryJob<'_>,
    asking: &CarryAsked<'_>,
    seasons: &mut Seasons,
) -> Result<bool, Refusal>
    requires from_first { IsOfCentury seasons.old.from.first }
    requires from_days { (1 ≤ seasons.old.from.days) × (seasons.old.from.days ≤ 366) }
    requires to_first { IsOfCentury seasons.old.to.first }
    requires to_days { (1 ≤ seasons.old.to.days) × (seasons.old.to.days ≤ 366) }
    requires rows { length asking.now.protections.now ≤ 16777216 }
{
    if asked.dry_run {
        return tried_together(rt, threads, meter, asked, asking, seasons);
    }
    carried_together(rt, threads, meter, asked, asking, seasons)
}

/// What it would be, of which the report alone is written.
fn tried<R: Threads + Sync>(
    rt: &HostRuntime,
    threads: &R,
    meter: &Meter,
    asked: &CarryJob<'_>,
    asking: &CarryAsked<'_>,
    seasons: &mut Seasons,
) -> Result<bool, Refusal>
    requires from_first { IsOfCentury seasons.old.from.first }
    requires from_days { (1 ≤ seasons.old.from.days) × (seasons.old.from.days ≤ 366) }
    requires to_first { IsOfCentury seasons.old.to.first }
    requires to_days { (1 ≤ seasons.old.to.days) × (seasons.old.to.days ≤ 366) }
    requires rows { length asking.now.protections.now ≤ 16777216 }
{
    let mut journal = opened(rt, asked.journal)?;
    let seal = SealFile::beside(rt, &journal, true)?;
    let mut out = metered_output(rt, meter);
    match made(
        rt,
        threads,
        meter,
        asking,
        seasons,
        &mut journal,
        &seal.as_beside(),
    ) {
        Ok(carriage) => {
            write(&mut out, carriage.report.as_slice())?;
            Ok(false)
        }
        Err(fault) => {
            let lines = unmade(fault, seasons, &journal, asked)?;
            write(&mut out, lines.as_slice())?;
            Ok(true)
        }
    }
}

/// The carry of a journal under its lock.
fn carried<R: Threads + Sync>(
    rt: &HostRuntime,
    threads: &R,
    meter: &Meter,
    asked: &CarryJob<'_>,
    asking: &CarryAsked<'_>,
    seasons: &mut Seasons,
    older: &mut Older,
    text: &Option<Vec<u8>>,
) -> Result<bool, Refusal>
    requires from_first { IsOfCentury seasons.old.from.first }
    requires from_days { (1 ≤ seasons.old.from.days) × (seasons.old.from.days ≤ 366) }
    requires to_first { IsOfCentury seasons.old.to.first }
    requires to_days { (1 ≤ seasons.old.to.days) × (seasons.old.to.days ≤ 366) }
    requires rows { length asking.now.protections.now ≤ 16777216 }
{
    let newer = match newer_locked(rt, asked, asking.part, seasons, older) {
        Ok(newer) => newer,
        Err(refusal) => return Err(refusal),
    };
    let mut newer = newer;
    let outcome = carried_to(
        rt, threads, meter, asked, asking, seasons, older, text, &mut newer,
    );
    newer.leave();
    outcome
}

/// The same with the new journal under its lock.
fn carried_to<R: Threads + Sync>(
    rt: &HostRuntime,
    threads: &R,
    meter: &Meter,
    asked: &CarryJob<'_>,
    asking: &CarryAsked<'_>,
    seasons: &mut Seasons,
    older: &mut Older,
    text: &Option<Vec<u8>>,
    newer: &mut Newer,
) -> Result<bool, Refusal>
    requires from_first { IsOfCentury seasons.old.from.first }
    requires from_days { (1 ≤ seasons.old.from.days) × (seasons.old.from.days ≤ 366) }
    requires to_first { IsOfCentury seasons.old.to.first }
    requires to_days { (1 ≤ seasons.old.to.days) × (seasons.old.to.days ≤ 366) }
    requires rows { length asking.now.protections.now ≤ 16777216 }
{
    let mut out = metered_output(rt, meter);
    let attempt = made(
        rt,
        threads,
        meter,
        asking,
        seasons,
        &mut older.journal,
        &beside_of(text),
    );
    match attempt {
        Ok(carriage) => {
            handed(rt, asked, carriage, older, text, newer, &mut out)?;
            Ok(false)
        }
        Err(fault) => {
            let lines = unmade(fault, seasons, &older.journal, asked)?;
            write(&mut out, lines.as_slice())?;
            Ok(true)
        }
    }
}

/// What stands beside the journal, where a seal must.
fn beside_of(text: &Option<Vec<u8>>) -> Beside<'_> {
    let text = match text {
        Some(text) => Some(text.as_slice()),
        None => None,
    };
    Beside {
        text,
        is_wanted: true,
    }
}

/// Hands the journal's bookings over to the new one, where that may be written, and says the report again where they were handed over to it
/// before.
fn handed(
    rt: &HostRuntime,
    asked: &CarryJob<'_>,
    carriage: Carriage,
    older: &mut Older,
    text: &Option<Vec<u8>>,
    newer: &mut Newer,
    out: &mut Output,
) -> Result<(), Refusal>
    requires imprint { carriage.entry.journal.imprint ≡ imprint_of (front_of carriage.text) }
{
    let (there, stood) = standing(newer)?;
    let before = entry_beside(slice_of(&stood), &there);
    let text_of_new = carriage.text.as_slice();
    if !is_sealed(&carriage.known)
        || !may_be_sealed(&before, &carriage.entry)
        || !may_be_marked(newer.name.as_str(), carriage.marked())
    {
        return Err(Refusal::barred(asked.new, TOO_LONG));
    }
    let hand = match may_hand(
        &carriage.known,
        newer.name.as_str(),
        carriage.marked(),
        Some(&there),
        slice_of(&stood),
        text_of_new,
        asked.anew,
    ) {
        Ok(Some(hand)) => hand,
        Ok(None) => return write(out, carriage.report.as_slice()),
        Err(HandRefusal::Unfinished) => {
            return Err(Refusal::of_carry(CarryKind::Unfinished, asked.journal));
        }
        Err(HandRefusal::New) => return Err(Refusal::of_carry(CarryKind::New, asked.new)),
    };
    put(rt, asked, hand, carriage, before, older, text, newer, out)
}

pub(crate) fn slice_of(text: &Option<Vec<u8>>) -> Option<&[u8]> {
    match text {
        Some(text) => Some(text.as_slice()),
        None => None,
    }
}

fn bytes_of(text: &Option<Vec<u8>>) -> &[u8] {
    match text {
        Some(text) => text.as_slice(),
        None => &[],
    }
}

/// Writes the mark, the new journal with its seal, and the report.
fn put(
    rt: &HostRuntime,
    asked: &CarryJob<'_>,
    hand: Hand,
    carriage: Carriage,
    before: SealEntry,
    older: &mut Older,
    seal_text: &Option<Vec<u8>>,
    newer: &mut Newer,
    out: &mut Output,
) -> Result<(), Refusal>
    requires known { is_sealed carriage.known ≡ true }
    requires rules { IsTrue (is_seal (two_entries before (IsSealed carriage.entry))) }
    requires fits { is_imprint (mark_of (string_bytes newer.old.name) (marked_text carriage)) ≡ true }
    requires imprint { carriage.entry.journal.imprint ≡ imprint_of (front_of carriage.text) }
{
    let Carriage {
        text,
        entry,
        report,
        known,
        whole,
    } = carriage;
    let outcome = hand_over(
        hand,
        known,
        bytes_of(seal_text),
        before,
        entry,
        newer.name.as_str(),
        text_for(&text, &whole),
        text.as_slice(),
        report.as_slice(),
        &mut older.seal,
        &mut newer.journal,
        &mut newer.seal,
        out,
    );
    match outcome {
        Ok(()) => Ok(()),
        Err(HandFault::TakenBack) => Err(failed(older, newer)),
        Err(HandFault::Unfinished) => {
            tell_unfinished(rt, asked.new);
            Err(failed(older, newer))
        }
        Err(HandFault::Unsaid) => Err(Refusal::from(DeskFault::Device).noting_output(out)),
    }
}

/// Says that a carry to the journal of this name has not ended.
pub(crate) fn tell_unfinished(rt: &HostRuntime, new: &str) {
    let file = Shown { name: new };
    let _ = eprintln!(rt;
        "seatdesk: note: the bookings are on their way to {file}: the same carry is to be sent again"
    );
}

pub(crate) fn write(out: &mut Output, text: &[u8]) -> Result<(), Refusal> {
    match put_all(out, text) {
        Ok(()) => Ok(()),
        Err(_) => Err(Refusal::from(DeskFault::Device).noting_output(out)),
    }
}
