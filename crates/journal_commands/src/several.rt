//! `carry` of several journals: what is read, what is made, and what is written.
//! It knows which file is which, and neither how journals become one nor how they are handed over.
ghost use Rattle.std.specs.Prelude.{◌≡◌, ◌≤◌, ◌<◌, ◌+◌, IfOk, IsTrue, OnOk, length, string_bytes, true, vec_len, vec_capacity};
ghost use Rattle.std.specs.List.{list_all};
ghost use Rattle.seat_seal.specs.Fronts.{front_of};
ghost use Rattle.seat_seal.specs.Imprints.{imprint_of};
ghost use Rattle.seat_seal.specs.Reading.{two_entries};
ghost use Rattle.seat_seal.specs.Rules.{is_imprint, is_seal, is_sealed};
ghost use Rattle.seat_seal.specs.declared.seal.SealEntry.TheVariants.{Sealed as IsSealed};
ghost use Rattle.seat_handing.specs.Judging.{hand_or_finish};
ghost use Rattle.carry_plans.specs.Carries.{marked_text};
ghost use Rattle.seat_handing.specs.Marking.{mark_of};
ghost use Rattle.ssim_flights.specs.Right.{IsOfCentury};
ghost use Rattle.seat_files.specs.declared.fault.Fault.TheVariants.{Carry as OfCarry};
ghost use Rattle.journal_commands.specs.Marks.{carry_kind};

use crate::carrying::{slice_of, tell_unfinished, write};
use crate::inputs::{Seasons, unmade_of};
use crate::marking::{all_sealed, besides_in, besides_of, bytes_in, kept, marks_of};
use crate::naming::{last_of, name_at};
use crate::placing::{Newer, newer_among, standing};
use airline_base::{Items, Memory};
use carry_plans::{
    Belongings, Carriage, CarryAsked, CarryFault, JoinFault, JoinedCarriage, desk_carry_joined,
    text_for,
};
use command_inputs::{meter_each, meter_inputs};
use progress_meter::{Lines, Meter};
use seat_desk::DeskFault;
use seat_files::{
    CarryKind, Input, Output, Refusal, SealFile, SealOut, TOO_LONG, files_taken, metered_output,
    opened,
};
use seat_handing::{
    Hand, HandFault, HandRefusal, HandsRefusal, Judgement, hand_over_several, may_be_marked,
    may_hand, may_hand_each,
};
use seat_seal::{Beside, SealEntry, SealFault, Sealed, is_sealed};
use seat_sealing::{entry_beside, may_be_sealed};
use seat_shards::ShardFault;
use seat_words::CarryJob;
use std::thread::Threads;

/// The journals whose bookings are carried, in order, each under its lock: the seals beside them, what these have, and what the journals have.
struct Olders {
    seals: Vec<SealOut>,
    texts: Vec<Option<Items<u8>>>,
    journals: Vec<Input>,
}

impl Drop for Olders {
    fn drop(self) {
        let Olders {
            seals: _seals,
            texts: _texts,
            journals: _journals,
        } = self;
    }
}

impl Olders {
    fn leave(&self) {
        for seal in self.seals.as_slice() {
            seal.leave();
        }
    }
}

/// Carries the live bookings of several journals, which are locked from their reading to the end.
pub(crate) fn carried_together<R: Threads + Sync>(
    rt: &HostRuntime,
    threads: &R,
    meter: &Meter,
    asked: &CarryJob<'_>,
    asking: &CarryAsked<'_>,
    seasons: &mut Seasons,
) -> Result<bool, Refusal>
    requires from_first { IsOfCentury seasons.old.from.first }
    requires from_days { (1 ≤ seasons.old.from.days) × (seasons.old.from.days ≤ 366) }
    requires to_first { IsOfCentury seasons.old.to.first }
    requires to_days { (1 ≤ seasons.old.to.days) × (seasons.old.to.days ≤ 366) }
    requires rows { length asking.now.protections.now ≤ 16777216 }
{
    let mut olders = Olders {
        seals: Vec::new(rt.alloc()),
        texts: Vec::new(rt.alloc()),
        journals: Vec::new(rt.alloc()),
    };
    let outcome = match lock_each(rt, asked, seasons, &mut olders) {
        Ok(()) => carried_locked(rt, threads, meter, asked, asking, seasons, &mut olders),
        Err(refusal) => Err(refusal),
    };
    olders.leave();
    outcome
}

/// Locks the journals in order, and reads the seals beside them.
fn lock_each(
    rt: &HostRuntime,
    asked: &CarryJob<'_>,
    seasons: &Seasons,
    olders: &mut Olders,
) -> Result<(), Refusal>
    requires texts { vec_len olders.old.texts ≡ vec_len olders.old.seals }
    requires journals { vec_len olders.old.journals ≡ vec_len olders.old.seals }
    ensures some { OnOk result (1 ≤ vec_len olders.new.seals) }
    ensures texts { OnOk result (vec_len olders.new.texts ≡ vec_len olders.new.seals) }
    ensures journals { OnOk result (vec_len olders.new.journals ≡ vec_len olders.new.seals) }
{
    match lock_one(rt, asked.journal, seasons, olders) {
        Ok(()) => {}
        Err(refusal) => return Err(refusal),
    }
    match lock_all(rt, asked.others.as_slice(), seasons, olders) {
        Ok(()) => Ok(()),
        Err(refusal) => Err(refusal),
    }
}

/// Locks those of these names.
fn lock_all(
    rt: &HostRuntime,
    names: &[&str],
    seasons: &Seasons,
    olders: &mut Olders,
) -> Result<(), Refusal>
    ensures seals { OnOk result (vec_len olders.new.seals ≡ vec_len olders.old.seals + length names.now) }
    ensures texts { OnOk result (vec_len olders.new.texts ≡ vec_len olders.old.texts + length names.now) }
    ensures journals { OnOk result (vec_len olders.new.journals ≡ vec_len olders.old.journals + length names.now) }
{
    let Some((first, others)) = names.split_first() else {
        return Ok(());
    };
    match lock_one(rt, *first, seasons, olders) {
        Ok(()) => {}
        Err(refusal) => return Err(refusal),
    }
    match lock_all(rt, others, seasons, olders) {
        Ok(()) => Ok(()),
        Err(refusal) => Err(refusal),
    }
}

/// Locks one more, for which there is room ahead of its lock: so none that is locked is forgotten.
fn lock_one(
    rt: &HostRuntime,
    name: &str,
    seasons: &Seasons,
    olders: &mut Olders,
) -> Result<(), Refusal>
    ensures seals { OnOk result (vec_len olders.new.seals ≡ vec_len olders.old.seals + 1) }
    ensures texts { OnOk result (vec_len olders.new.texts ≡ vec_len olders.old.texts + 1) }
    ensures journals { OnOk result (vec_len olders.new.journals ≡ vec_len olders.old.journals + 1) }
{
    if make_room(olders).is_err() {
        return Err(Refusal::from(DeskFault::Memory));
    }
    let (seal, journal) = match open_locked(rt, name, seasons, olders.journals.as_slice()) {
        Ok(locked) => locked,
        Err(refusal) => return Err(refusal),
    };
    match seal.text() {
        Ok(text) => {
            add(olders, seal, kept(text), journal);
            Ok(())
        }
        Err(refusal) => {
            seal.leave();
            Err(refusal)
        }
    }
}

/// Locks the journal of this name, which is none of those that are locked.
fn open_locked(
    rt: &HostRuntime,
    name: &str,
    seasons: &Seasons,
    journals: &[Input],
) -> Result<(SealOut, Input), Refusal> {
    let more = [&seasons.to.set, &seasons.to.limits];
    let files = files_taken(rt, &seasons.from, journals, &more)?;
    SealOut::open(rt, name, files.as_slice())
}

fn make_room(olders: &mut Olders) -> Result<(), Memory>
    ensures seals { OnOk result (vec_len olders.new.seals < vec_capacity olders.new.seals) }
    ensures texts { OnOk result (vec_len olders.new.texts < vec_capacity olders.new.texts) }
    ensures journals { OnOk result (vec_len olders.new.journals < vec_capacity olders.new.journals) }
    ensures same_seals { vec_len olders.new.seals ≡ vec_len olders.old.seals }
    ensures same_texts { vec_len olders.new.texts ≡ vec_len olders.old.texts }
    ensures same_journals { vec_len olders.new.journals ≡ vec_len olders.old.journals }
{
    olders.seals.reserve(1)?;
    olders.texts.reserve(1)?;
    olders.journals.reserve(1)?;
    Ok(())
}

/// Adds one that is locked, for which there is room.
fn add(olders: &mut Olders, seal: SealOut, text: Option<Items<u8>>, journal: Input)
    requires room { vec_len olders.old.seals < vec_capacity olders.old.seals }
    requires room_of_text { vec_len olders.old.texts < vec_capacity olders.old.texts }
    requires room_of_journal { vec_len olders.old.journals < vec_capacity olders.old.journals }
    ensures seals { vec_len olders.new.seals ≡ vec_len olders.old.seals + 1 }
    ensures texts { vec_len olders.new.texts ≡ vec_len olders.old.texts + 1 }
    ensures journals { vec_len olders.new.journals ≡ vec_len olders.old.journals + 1 }
{
    olders.seals.push_reserved(seal);
    olders.texts.push_reserved(text);
    olders.journals.push_reserved(journal);
}

/// What is read, made and written under the locks.
fn carried_locked<R: Threads + Sync>(
    rt: &HostRuntime,
    threads: &R,
    meter: &Meter,
    asked: &CarryJob<'_>,
    asking: &CarryAsked<'_>,
    seasons: &mut Seasons,
    olders: &mut Olders,
) -> Result<bool, Refusal>
    requires from_first { IsOfCentury seasons.old.from.first }
    requires from_days { (1 ≤ seasons.old.from.days) × (seasons.old.from.days ≤ 366) }
    requires to_first { IsOfCentury seasons.old.to.first }
    requires to_days { (1 ≤ seasons.old.to.days) × (seasons.old.to.days ≤ 366) }
    requires rows { length asking.now.protections.now ≤ 16777216 }
    requires some { 1 ≤ vec_len olders.old.seals }
    requires texts { vec_len olders.old.texts ≡ vec_len olders.old.seals }
    requires journals { vec_len olders.old.journals ≡ vec_len olders.old.seals }
{
    let newer = match newer_among(rt, asked, asking.part, seasons, olders.journals.as_slice()) {
        Ok(newer) => newer,
        Err(refusal) => return Err(refusal),
    };
    let mut newer = newer;
    let outcome = carried_to(
        rt, threads, meter, asked, asking, seasons, olders, &mut newer,
    );
    newer.leave();
    outcome
}

/// The same with the new journal under its lock.
fn carried_to<R: Threads + Sync>(
    rt: &HostRuntime,
    threads: &R,
    meter: &Meter,
    asked: &CarryJob<'_>,
    asking: &CarryAsked<'_>,
    seasons: &mut Seasons,
    olders: &mut Olders,
    newer: &mut Newer,
) -> Result<bool, Refusal>
    requires from_first { IsOfCentury seasons.old.from.first }
    requires from_days { (1 ≤ seasons.old.from.days) × (seasons.old.from.days ≤ 366) }
    requires to_first { IsOfCentury seasons.old.to.first }
    requires to_days { (1 ≤ seasons.old.to.days) × (seasons.old.to.days ≤ 366) }
    requires rows { length asking.now.protections.now ≤ 16777216 }
    requires some { 1 ≤ vec_len olders.old.seals }
    requires texts { vec_len olders.old.texts ≡ vec_len olders.old.seals }
    requires journals { vec_len olders.old.journals ≡ vec_len olders.old.seals }
{
    let mut out = metered_output(rt, meter);
    let attempt = made_locked(
        rt,
        threads,
        meter,
        asking,
        seasons,
        &mut olders.journals,
        olders.texts.as_slice(),
    );
    match attempt {
        Ok(joined) => {
            handed(rt, asked, joined, olders, newer, &mut out)?;
            Ok(false)
        }
        Err(fault) => {
            let lines = unjoined(fault, seasons, olders.journals.as_slice(), asked)?;
            write(&mut out, lines.as_slice())?;
            Ok(true)
        }
    }
}

/// What it would be, of which the report alone is written.
pub(crate) fn tried_together<R: Threads + Sync>(
    rt: &HostRuntime,
    threads: &R,
    meter: &Meter,
    asked: &CarryJob<'_>,
    asking: &CarryAsked<'_>,
    seasons: &mut Seasons,
) -> Result<bool, Refusal>
    requires from_first { IsOfCentury seasons.old.from.first }
    requires from_days { (1 ≤ seasons.old.from.days) × (seasons.old.from.days ≤ 366) }
    requires to_first { IsOfCentury seasons.old.to.first }
    requires to_days { (1 ≤ seasons.old.to.days) × (seasons.old.to.days ≤ 366) }
    requires rows { length asking.now.protections.now ≤ 16777216 }
{
    let mut journals = Vec::new(rt.alloc());
    let mut seals = Vec::new(rt.alloc());
    match open_one(rt, asked.journal, &mut journals, &mut seals) {
        Ok(()) => {}
        Err(refusal) => return Err(refusal),
    }
    match open_all(rt, asked.others.as_slice(), &mut journals, &mut seals) {
        Ok(()) => {}
        Err(refusal) => return Err(refusal),
    }
    let mut out = metered_output(rt, meter);
    let attempt = made_open(
        rt,
        threads,
        meter,
        asking,
        seasons,
        &mut journals,
        seals.as_slice(),
    );
    match attempt {
        Ok(joined) => {
            write(&mut out, joined.carriage.report.as_slice())?;
            Ok(false)
        }
        Err(fault) => {
            let lines = unjoined(fault, seasons, journals.as_slice(), asked)?;
            write(&mut out, lines.as_slice())?;
            Ok(true)
        }
    }
}

/// Opens the journals of these names, and reads the seals beside them.
fn open_all(
    rt: &HostRuntime,
    names: &[&str],
    journals: &mut Vec<Input>,
    seals: &mut Vec<SealFile>,
) -> Result<(), Refusal>
    ensures journals { OnOk result (vec_len journals.new ≡ vec_len journals.old + length names.now) }
    ensures seals { OnOk result (vec_len seals.new ≡ vec_len seals.old + length names.now) }
{
    let Some((first, others)) = names.split_first() else {
        return Ok(());
    };
    match open_one(rt, *first, journals, seals) {
        Ok(()) => {}
        Err(refusal) => return Err(refusal),
    }
    match open_all(rt, others, journals, seals) {
        Ok(()) => Ok(()),
        Err(refusal) => Err(refusal),
    }
}

/// Opens one more, and reads the seal beside it.
fn open_one(
    rt: &HostRuntime,
    name: &str,
    journals: &mut Vec<Input>,
    seals: &mut Vec<SealFile>,
) -> Result<(), Refusal>
    ensures journals { OnOk result (vec_len journals.new ≡ vec_len journals.old + 1) }
    ensures seals { OnOk result (vec_len seals.new ≡ vec_len seals.old + 1) }
{
    let journal = opened(rt, name)?;
    let seal = SealFile::beside(rt, &journal, true)?;
    match seals.push(seal) {
        Ok(()) => {}
        Err(_) => return Err(Refusal::from(DeskFault::Memory)),
    }
    match journals.push(journal) {
        Ok(()) => Ok(()),
        Err(_) => Err(Refusal::from(DeskFault::Memory)),
    }
}

/// What carries the bookings of the journals that are locked, whose seals have these bytes.
fn made_locked<R: Threads + Sync>(
    rt: &HostRuntime,
    threads: &R,
    meter: &Meter,
    asking: &CarryAsked<'_>,
    seasons: &mut Seasons,
    journals: &mut Vec<Input>,
    texts: &[Option<Items<u8>>],
) -> Result<JoinedCarriage, JoinFault>
    requires from_first { IsOfCentury seasons.old.from.first }
    requires from_days { (1 ≤ seasons.old.from.days) × (seasons.old.from.days ≤ 366) }
    requires to_first { IsOfCentury seasons.old.to.first }
    requires to_days { (1 ≤ seasons.old.to.days) × (seasons.old.to.days ≤ 366) }
    requires rows { length asking.now.protections.now ≤ 16777216 }
    requires as_many { length texts.now ≡ vec_len journals.old }
    requires some { 1 ≤ length texts.now }
    ensures imprint { IfOk result (λ c. c.carriage.entry.journal.imprint ≡ imprint_of (front_of c.carriage.text)) }
    ensures as_many { IfOk result (λ c. length c.others + 1 ≡ length texts.now) }
{
    let Ok(besides) = besides_of(rt.alloc(), texts) else {
        return Err(JoinFault::Carry(CarryFault::Memory));
    };
    match made_together(
        rt,
        threads,
        meter,
        asking,
        seasons,
        journals,
        besides.as_slice(),
    ) {
        Ok(joined) => Ok(joined),
        Err(fault) => Err(fault),
    }
}

/// What carries the bookings of the journals that are open, beside which this stands.
fn made_open<R: Threads + Sync>(
    rt: &HostRuntime,
    threads: &R,
    meter: &Meter,
    asking: &CarryAsked<'_>,
    seasons: &mut Seasons,
    journals: &mut Vec<Input>,
    seals: &[SealFile],
) -> Result<JoinedCarriage, JoinFault>
    requires from_first { IsOfCentury seasons.old.from.first }
    requires from_days { (1 ≤ seasons.old.from.days) × (seasons.old.from.days ≤ 366) }
    requires to_first { IsOfCentury seasons.old.to.first }
    requires to_days { (1 ≤ seasons.old.to.days) × (seasons.old.to.days ≤ 366) }
    requires rows { length asking.now.protections.now ≤ 16777216 }
    requires as_many { length seals.now ≡ vec_len journals.old }
    requires some { 1 ≤ length seals.now }
{
    let Ok(besides) = besides_in(rt.alloc(), seals) else {
        return Err(JoinFault::Carry(CarryFault::Memory));
    };
    made_together(
        rt,
        threads,
        meter,
        asking,
        seasons,
        journals,
        besides.as_slice(),
    )
}

/// What carries their bookings, with what is read counted.
fn made_together<R: Threads + Sync>(
    rt: &HostRuntime,
    threads: &R,
    meter: &Meter,
    asking: &CarryAsked<'_>,
    seasons: &mut Seasons,
    journals: &mut Vec<Input>,
    besides: &[Beside<'_>],
) -> Result<JoinedCarriage, JoinFault>
    requires from_first { IsOfCentury seasons.old.from.first }
    requires from_days { (1 ≤ seasons.old.from.days) × (seasons.old.from.days ≤ 366) }
    requires to_first { IsOfCentury seasons.old.to.first }
    requires to_days { (1 ≤ seasons.old.to.days) × (seasons.old.to.days ≤ 366) }
    requires rows { length asking.now.protections.now ≤ 16777216 }
    requires as_many { length besides.now ≡ length journals.old.items }
    requires some { 1 ≤ length besides.now }
    ensures imprint { IfOk result (λ c. c.carriage.entry.journal.imprint ≡ imprint_of (front_of c.carriage.text)) }
    ensures as_many { IfOk result (λ c. length c.others + 1 ≡ length besides.now) }
{
    meter_inputs(rt, meter, &mut seasons.from);
    meter_inputs(rt, meter, &mut seasons.to);
    meter_each(rt, meter, journals, Lines::Ended);
    desk_carry_joined(
        threads,
        rt.alloc(),
        asking,
        &mut seasons.from,
        &mut seasons.to,
        journals.as_mut_slice(),
        besides,
    )
}

/// Hands the journals' bookings over to the new one, where that may be written, and says the report again where they were handed over to it before.
fn handed(
    rt: &HostRuntime,
    asked: &CarryJob<'_>,
    joined: JoinedCarriage,
    olders: &mut Olders,
    newer: &mut Newer,
    out: &mut Output,
) -> Result<(), Refusal>
    requires imprint { joined.carriage.entry.journal.imprint ≡ imprint_of (front_of joined.carriage.text) }
    requires seals { length joined.others + 1 ≡ vec_len olders.old.seals }
    requires texts { vec_len olders.old.texts ≡ vec_len olders.old.seals }
{
    let (there, stood) = standing(newer)?;
    let before = entry_beside(slice_of(&stood), &there);
    let JoinedCarriage { carriage, others } = joined;
    let text = carriage.text.as_slice();
    let whole = carriage.marked();
    let name = newer.name.as_str();
    if !all_sealed(others.as_slice())
        || !is_sealed(&carriage.known)
        || !may_be_sealed(&before, &carriage.entry)
        || !may_be_marked(name, whole)
    {
        return Err(Refusal::barred(asked.new, TOO_LONG));
    }
    let hands = match judged(
        rt,
        asked,
        others.as_slice(),
        name,
        whole,
        &there,
        slice_of(&stood),
        text,
    ) {
        Ok(hands) => hands,
        Err(refusal) => return Err(refusal),
    };
    let known = &carriage.known;
    let last = match judged_last(asked, known, name, whole, &there, slice_of(&stood), text) {
        Ok(last) => last,
        Err(refusal) => return Err(refusal),
    };
    if hands.are_whole && last.is_none() {
        return write(out, carriage.report.as_slice());
    }
    put_together(
        rt,
        asked,
        hands.each.as_slice(),
        hand_or_finish(last),
        carriage,
        others,
        before,
        olders,
        newer,
        out,
    )
}

/// What is done with the mark of each but the last.
#[tactic(auto, using(crate::proofs::Marked::as_many_judged))]
fn judged(
    rt: &HostRuntime,
    asked: &CarryJob<'_>,
    knowns: &[Sealed],
    name: &str,
    whole: &[u8],
    there: &[u8],
    beside: Option<&[u8]>,
    text: &[u8],
) -> Result<Judgement, Refusal>
    ensures { IfOk result (λ hands. length hands.each ≡ length knowns.now) }
{
    match may_hand_each(
        rt.alloc(),
        knowns,
        name,
        whole,
        Some(there),
        beside,
        text,
        asked.anew,
    ) {
        Ok(hands) => Ok(hands),
        Err(HandsRefusal::Refused { place, refusal }) => {
            let older = name_at(asked.journal, asked.others.as_slice(), place);
            Err(refused(refusal, older, asked.new))
        }
        Err(HandsRefusal::Memory) => Err(Refusal::from(DeskFault::Memory)),
    }
}

/// What is done with that of the last.
fn judged_last(
    asked: &CarryJob<'_>,
    known: &Sealed,
    name: &str,
    whole: &[u8],
    there: &[u8],
    beside: Option<&[u8]>,
    text: &[u8],
) -> Result<Option<Hand>, Refusal> {
    match may_hand(known, name, whole, Some(there), beside, text, asked.anew) {
        Ok(hand) => Ok(hand),
        Err(refusal) => {
            let older = last_of(asked.journal, asked.others.as_slice());
            Err(refused(refusal, older, asked.new))
        }
    }
}

/// Where the last one needs nothing and another does, it is finished too.
fn hand_or_finish(hand: Option<Hand>) -> Hand
    ensures { result ≡ hand_or_finish hand }
{
    match hand {
        Some(hand) => hand,
        None => Hand::Finish,
    }
}

/// Why nothing may be written, of the journal of this name or of the new one.
fn refused(refusal: HandRefusal, older: &str, new: &str) -> Refusal
    ensures { result.fault ≡ OfCarry (carry_kind refusal) }
{
    match refusal {
        HandRefusal::Unfinished => Refusal::of_carry(CarryKind::Unfinished, older),
        HandRefusal::New => Refusal::of_carry(CarryKind::New, new),
    }
}

/// Writes each mark, the new journal with its seal, and the report.
#[tactic(auto, using(crate::proofs::Marked::say_slice))]
fn put_together(
    rt: &HostRuntime,
    asked: &CarryJob<'_>,
    hands: &[Hand],
    last: Hand,
    carriage: Carriage,
    others: Belongings,
    before: SealEntry,
    olders: &mut Olders,
    newer: &mut Newer,
    out: &mut Output,
) -> Result<(), Refusal>
    requires known { is_sealed carriage.known ≡ true }
    requires others { list_all is_sealed others ≡ true }
    requires rules { IsTrue (is_seal (two_entries before (IsSealed carriage.entry))) }
    requires fits { is_imprint (mark_of (string_bytes newer.old.name) (marked_text carriage)) ≡ true }
    requires imprint { carriage.entry.journal.imprint ≡ imprint_of (front_of carriage.text) }
    requires hands { length hands.now ≡ length others }
    requires seals { length hands.now + 1 ≡ vec_len olders.old.seals }
    requires texts { vec_len olders.old.texts ≡ vec_len olders.old.seals }
{
    let Carriage {
        text,
        entry,
        report,
        known,
        whole,
    } = carriage;
    let name = newer.name.as_str();
    let whole = text_for(&text, &whole);
    let texts = olders.texts.as_slice();
    let marks = match marks_of(rt.alloc(), hands, others.into_vec(), texts, name, whole) {
        Ok(marks) => marks,
        Err(_) => return Err(Refusal::from(DeskFault::Memory)),
    };
    let Some((had, _)) = texts.split_last() else {
        unreachable!()
    };
    let Some((seal, seals)) = olders.seals.as_mut_slice().split_last_mut() else {
        unreachable!()
    };
    let outcome = hand_over_several(
        marks.as_slice(),
        seals,
        last,
        known,
        bytes_in(had),
        before,
        entry,
        name,
        whole,
        text.as_slice(),
        report.as_slice(),
        seal,
        &mut newer.journal,
        &mut newer.seal,
        out,
    );
    match outcome {
        Ok(()) => Ok(()),
        Err(HandFault::TakenBack) => Err(failed_together(olders, newer)),
        Err(HandFault::Unfinished) => {
            tell_unfinished(rt, asked.new);
            Err(failed_together(olders, newer))
        }
        Err(HandFault::Unsaid) => Err(Refusal::from(DeskFault::Device).noting_output(out)),
    }
}

/// Whose failure it was.
fn failed_together(olders: &Olders, newer: &Newer) -> Refusal {
    let mut refusal = Refusal::from(DeskFault::Device)
        .noting_journal(&newer.journal)
        .noting_seal(&newer.seal);
    for seal in olders.seals.as_slice() {
        refusal = refusal.noting_seal(seal);
    }
    refusal
}

/// Why nothing is carried, of the file that it is of; or the lines of the legs that have too few seats.
fn unjoined(
    fault: JoinFault,
    seasons: &Seasons,
    journals: &[Input],
    asked: &CarryJob<'_>,
) -> Result<Items<u8>, Refusal> {
    match fault {
        JoinFault::Carry(fault) => unmade_of(fault, seasons, journals, asked),
        JoinFault::Beside { place, fault } => {
            Err(Refusal::from(ShardFault::Journal { place, fault }).noting_each(journals))
        }
        JoinFault::Unsealed { place } => {
            let fault = DeskFault::Seal(SealFault::Missing);
            Err(Refusal::from(ShardFault::Journal { place, fault }).noting_each(journals))
        }
        JoinFault::Device => Err(Refusal::from(DeskFault::Device).noting_each(journals)),
        JoinFault::Journals(fault) => Err(Refusal::from(fault).noting_each(journals)),
    }
}
