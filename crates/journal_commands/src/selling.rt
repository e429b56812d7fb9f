//! `run`: the texts that it reads, and OUT, which it locks, with the seal beside it.
//! It knows which stream is which, and nothing of how seats are sold.
ghost use Rattle.std.specs.Prelude.{◌≡◌, ◌≤◌, IfOk, IfSome, IsTrue, OnOk, length};
ghost use Rattle.airline_base.specs.Days.{IsCenturyDay};
ghost use Rattle.command_inputs.specs.Sorted.{IsPutWith};
ghost use Rattle.seat_seal.specs.Rules.{is_entry};
ghost use Rattle.ssim_flights.specs.Right.{IsOfCentury};

use crate::heard::Heard;
use airline_base::Day;
use command_inputs::{
    Seals, behind, day_of_run, days_of, inputs_of, last_entry, lines_behind, meter_each,
    meter_input, meter_inputs, scripts_opened, seals_of, sort_out_into, tell_copies, tell_kept,
    tell_refused, tell_unsealed,
};
use progress_meter::{Lines, Meter};
use seat_desk::{DeskFault, Inputs, NO_LINES};
use seat_files::{
    Guard, Input, JournalFile, ListFile, NOT_EMPTY, Refusal, SealOut, TOO_LONG, files_taken,
    is_same, kept_number, lines_in, metered_output, of, opened_or, pass_once, told,
};
use seat_run::{desk_resume, desk_run};
use seat_scripts::Besides;
use seat_seal::{Beside, SealEntry, is_entry, read_seal};
use seat_sealing::older_entry;
use seat_words::{RunJob, WordFault, sessions_of_run};
use seat_workers::NoGate;
use std::fs;
use std::sync::Wait;
use std::thread::Threads;

/// OUT, the file of the journal, is looked at, locked and made where it is not there, once each input is open and before the first is
/// read. Without an older journal the run goes on from no line, and without a file of changes there are none. Without changes it needs
/// a script. How many lines a journal began with is asked only where the run goes on with its scripts.
pub fn run<T: Threads + Wait + Sync>(
    rt: &HostRuntime,
    threads: &T,
    meter: &Meter,
    asking: &RunJob<'_>,
) -> Result<(), Refusal> {
    let over = &asking.over;
    let days = days_of(over.first, over.days)?;
    let today = day_of_run(asking.today)?;
    let given = lines_behind(asking.after, asking.behind)?;
    if asking.resume.is_none() && asking.behind.is_some() {
        return Err(Refusal::from(WordFault::BadBehind));
    }
    let Some(sessions) = sessions_of_run(asking.scripts.as_slice(), asking.changes.is_some()) else {
        return Err(Refusal::from(WordFault::BadScripts));
    };
    let (mut texts, mut past) = match files_opened(rt, asking, days, sessions) {
        Ok(files) => files,
        Err(refusal) => return Err(refusal),
    };
    let sale = Sale {
        asking,
        meter,
        given,
        today,
    };
    run_over(rt, threads, &sale, &mut texts, &mut past)
}

/// All that is read, open: the data set and the limit rows, the journals that the run may go on from, the scripts of so many sessions, and the
/// changes.
fn files_opened(
    rt: &HostRuntime,
    asking: &RunJob<'_>,
    days: (Day, u16),
    sessions: usize,
) -> Result<(Texts, Past), Refusal>
    ensures first { IfOk result (λ files. files.0.inputs.first ≡ days.0) }
    ensures days { IfOk result (λ files. files.0.inputs.days ≡ days.1) }
    ensures scripts { IfOk result (λ files. length files.0.scripts.items ≡ sessions) }
{
    let inputs = match inputs_of(rt, &asking.over, days) {
        Ok(inputs) => inputs,
        Err(refusal) => return Err(refusal),
    };
    let past = match past_opened(rt, asking) {
        Ok(past) => past,
        Err(refusal) => return Err(refusal),
    };
    let scripts = match scripts_opened(rt, asking.scripts.as_slice(), sessions) {
        Ok(scripts) => scripts,
        Err(refusal) => return Err(refusal),
    };
    let changes = match opened_or(rt, asking.changes, b"") {
        Ok(changes) => changes,
        Err(refusal) => return Err(refusal),
    };
    let texts = Texts {
        inputs,
        scripts,
        changes,
    };
    Ok((texts, past))
}

/// The same with all inputs open.
fn run_over<T: Threads + Wait + Sync>(
    rt: &HostRuntime,
    threads: &T,
    sale: &Sale<'_, '_>,
    texts: &mut Texts,
    past: &mut Past,
) -> Result<(), Refusal>
    requires first { IsOfCentury texts.old.inputs.first }
    requires days { (1 ≤ texts.old.inputs.days) × (texts.old.inputs.days ≤ 366) }
    requires today { IsCenturyDay sale.now.today }
    requires scripts { (1 ≤ length texts.old.scripts.items) × (length texts.old.scripts.items ≤ 8) }
{
    if is_one_journal(past)? {
        return Err(Refusal::from(WordFault::BadBehind));
    }
    pass_once(rt, texts.scripts.as_slice(), &texts.changes)?;
    let mut place = locked_out(rt, sale.asking, texts, past)?;
    let outcome = sell_sorted(rt, threads, sale, texts, past, &mut place);
    leave(&place);
    tell_kept(rt, &place.journal, &place.seal);
    outcome
}

/// The same with OUT under its lock: where wrong lines are passed over, the scripts are sorted out first.
fn sell_sorted<T: Threads + Wait + Sync>(
    rt: &HostRuntime,
    threads: &T,
    sale: &Sale<'_, '_>,
    texts: &mut Texts,
    past: &mut Past,
    place: &mut Place,
) -> Result<(), Refusal>
    requires first { IsOfCentury texts.old.inputs.first }
    requires days { (1 ≤ texts.old.inputs.days) × (texts.old.inputs.days ≤ 366) }
    requires today { IsCenturyDay sale.now.today }
    requires scripts { (1 ≤ length texts.old.scripts.items) × (length texts.old.scripts.items ≤ 8) }
{
    begin_list(rt, sale, texts, past, place)?;
    sell(rt, threads, sale, texts, past, place)
}

/// Begins the list of the wrong lines, where one is named, and sorts the scripts out into it. It is put with the journal, and goes with it.
#[tactic(auto, using(command_inputs::proofs::Sorting::is_put_with))]
fn begin_list(
    rt: &HostRuntime,
    sale: &Sale<'_, '_>,
    texts: &mut Texts,
    past: &Past,
    place: &mut Place,
) -> Result<(), Refusal>
    requires few { length texts.old.scripts.items ≤ 8 }
    ensures first { texts.new.inputs.first ≡ texts.old.inputs.first }
    ensures days { texts.new.inputs.days ≡ texts.old.inputs.days }
    ensures scripts { OnOk result (length texts.new.scripts.items ≡ length texts.old.scripts.items) }
    ensures listed { OnOk result (IfSome sale.now.asking.now.refused
        (λ name. IsPutWith place.new.journal name.now texts.new.scripts.items)) }
{
    let Some(name) = sale.asking.refused else {
        return Ok(());
    };
    let mut list = ListFile::begun(
        rt,
        name,
        &texts.inputs,
        texts.scripts.as_slice(),
        &[&texts.changes, &past.after, &past.resumed],
        sale.asking.journal,
    )?;
    meter_each(rt, sale.meter, &mut texts.scripts, Lines::Uncounted);
    let sorted = sort_out_into(
        rt,
        &mut texts.scripts,
        &mut list,
        sale.asking.resume.is_some(),
    );
    place.journal.put_behind(list);
    sorted
}

/// Takes away what was made and is not to stay. A seal that was put ahead of its journal goes first, while OUT is locked.
fn leave(place: &Place) {
    if place.journal.is_to_go() {
        place.seal.take_away();
    }
    place.seal.leave();
    place.journal.leave();
}

/// Where a run puts its journal, and the seal of it.
struct Place {
    journal: JournalFile,
    seal: SealOut,
    /// Whether what OUT and its seal have is to be kept.
    keeps: bool,
}

impl Drop for Place {
    fn drop(self) {
        let Place {
            journal: _journal,
            seal: _seal,
            keeps: _keeps,
        } = self;
    }
}

/// What a run reads beside journals.
struct Texts {
    inputs: Inputs<Input, Input>,
    scripts: Vec<Input>,
    changes: Input,
}

impl Drop for Texts {
    fn drop(self) {
        let Texts {
            inputs: _inputs,
            scripts: _scripts,
            changes: _changes,
        } = self;
    }
}

/// The journals that a run may go on from.
struct Past {
    after: Input,
    resumed: Input,
}

impl Drop for Past {
    fn drop(self) {
        let Past {
            after: _after,
            resumed: _resumed,
        } = self;
    }
}

fn past_opened(rt: &HostRuntime, asking: &RunJob<'_>) -> Result<Past, Refusal> {
    let after = opened_or(rt, asking.after, &NO_LINES)?;
    let resumed = opened_or(rt, asking.resume, &NO_LINES)?;
    Ok(Past { after, resumed })
}

/// Whether the older journal is the very file whose scripts have grown: there would be no line of theirs.
fn is_one_journal(past: &Past) -> Result<bool, Refusal> {
    let resumed = match past.resumed.metadata() {
        Ok(Some(resumed)) => resumed,
        Ok(None) => return Ok(false),
        Err(refusal) => return Err(refusal),
    };
    match past.after.metadata() {
        Ok(Some(older)) => Ok(older.is_file() && is_same(&older, &resumed)),
        Ok(None) => Ok(false),
        Err(refusal) => Err(refusal),
    }
}

/// OUT under its lock, and its seal. OUT is none of the inputs but a journal that the run goes on from, nor the file of the replies; its
/// seal is none of these.
fn locked_out(
    rt: &HostRuntime,
    asking: &RunJob<'_>,
    texts: &Texts,
    past: &Past,
) -> Result<Place, Refusal> {
    pass_out(rt, asking, texts)?;
    let files = files_taken(
        rt,
        &texts.inputs,
        texts.scripts.as_slice(),
        &[&texts.changes, &past.after, &past.resumed],
    )?;
    let journal = JournalFile::open(rt, asking.journal, files.as_slice())?;
    match SealOut::beside(rt, &journal, files.as_slice()) {
        Ok(seal) => Ok(Place {
            journal,
            seal,
            keeps: true,
        }),
        Err(refusal) => {
            journal.leave();
            Err(refusal)
        }
    }
}

/// Refuses an OUT that is one of the inputs but a journal that the run goes on from, or the file of the replies, or that is there and is to stay.
fn pass_out(rt: &HostRuntime, asking: &RunJob<'_>, texts: &Texts) -> Result<(), Refusal> {
    let guard = Guard::new(rt, asking.journal)?;
    guard.pass(&texts.inputs, texts.scripts.as_slice(), &[&texts.changes])?;
    guard.pass_output(rt)?;
    if asking.no_clobber {
        return guard.keep();
    }
    Ok(())
}

/// Books what the texts ask into the file of the journal, which is locked, with its seal. A journal that the run goes on from, and that is a regular
/// file, is opened once more, since it may be that file.
fn sell<T: Threads + Wait + Sync>(
    rt: &HostRuntime,
    threads: &T,
    sale: &Sale<'_, '_>,
    texts: &mut Texts,
    past: &mut Past,
    place: &mut Place,
) -> Result<(), Refusal>
    requires first { IsOfCentury texts.old.inputs.first }
    requires days { (1 ≤ texts.old.inputs.days) × (texts.old.inputs.days ≤ 366) }
    requires today { IsCenturyDay sale.now.today }
    requires scripts { (1 ≤ length texts.old.scripts.items) × (length texts.old.scripts.items ≤ 8) }
{
    let asking = sale.asking;
    if asking.no_clobber && !place.journal.is_empty()? {
        return Err(Refusal::barred(asking.journal, NOT_EMPTY));
    }
    let older = older_in(place)?;
    if !is_entry(&older) {
        return Err(Refusal::barred(asking.journal, TOO_LONG));
    }
    open_past_again(rt, asking, past)?;
    let seals = seals_of(rt, &past.after, &past.resumed, false)?;
    place.keeps = keeps_both(rt, past, place)?;
    sell_beside(rt, threads, sale, texts, past, &seals, older, place)
}

/// The same with what stands beside the journals read.
fn sell_beside<T: Threads + Wait + Sync>(
    rt: &HostRuntime,
    threads: &T,
    sale: &Sale<'_, '_>,
    texts: &mut Texts,
    past: &mut Past,
    seals: &Seals,
    older: SealEntry,
    place: &mut Place,
) -> Result<(), Refusal>
    requires first { IsOfCentury texts.old.inputs.first }
    requires days { (1 ≤ texts.old.inputs.days) × (texts.old.inputs.days ≤ 366) }
    requires today { IsCenturyDay sale.now.today }
    requires scripts { (1 ≤ length texts.old.scripts.items) × (length texts.old.scripts.items ≤ 8) }
    requires older { IsTrue (is_entry older) }
{
    let mut out = Heard::new(metered_output(rt, sale.meter));
    let besides = seals.as_besides();
    let outcome = booked(
        rt, threads, sale, texts, past, &besides, older, place, &mut out,
    );
    sale.meter.end(rt);
    match sold(outcome, texts, past) {
        Ok(()) => {
            tell_sold(rt, sale, texts, seals, place, &out);
            Ok(())
        }
        Err(refusal) => unsold(rt, sale, refusal, texts, past, seals, place, &out),
    }
}

/// What a run is asked for, as it was written and as it was read.
#[derive(Clone, Copy)]
struct Sale<'a, 'b> {
    asking: &'b RunJob<'a>,
    meter: &'b Meter,
    given: Option<u32>,
    today: Day,
}

/// What the command came to, of whichever input it is refused for.
fn sold(outcome: Result<(), DeskFault>, texts: &Texts, past: &Past) -> Result<(), Refusal> {
    let inputs = &texts.inputs;
    let ahead = told(
        outcome,
        &[&inputs.set, &inputs.limits, &past.after, &past.resumed],
        &[],
    );
    behind(ahead, texts.scripts.as_slice(), &[&texts.changes], &[])
}

/// Says what may not be meant so, of a run that booked all.
fn tell_sold(
    rt: &HostRuntime,
    sale: &Sale<'_, '_>,
    texts: &Texts,
    seals: &Seals,
    place: &Place,
    out: &Heard,
) {
    let mut has_refused = false;
    if let Some(list) = place.journal.list() {
        tell_refused(rt, list);
        has_refused = list.rows_put() > 0;
    }
    let have_bytes = texts.scripts.iter().any(|script| script.has_bytes());
    out.tell(rt, sale.asking.resume.is_some(), have_bytes, has_refused);
    tell_compared(rt, sale.asking, sale.given, seals);
    tell_copies(rt, &place.seal);
}

/// The refusal of a run, with what is known of its files.
fn unsold(
    rt: &HostRuntime,
    sale: &Sale<'_, '_>,
    refusal: Refusal,
    texts: &Texts,
    past: &Past,
    seals: &Seals,
    place: &mut Place,
    out: &Heard,
) -> Result<(), Refusal> {
    let lines = lines_ahead(rt, sale.asking, sale.given, &past.after, place);
    let seal = seals.gone_on_from(sale.asking.resume.is_some());
    let refusal = refusal
        .noting_booked(rt, seal, lines, texts.scripts.as_slice(), &texts.changes)
        .noting_unasked(&past.resumed)
        .noting_journal(&place.journal)
        .noting_seal(&place.seal)
        .noting_output(out.output());
    noting_place(rt, sale.asking, refusal, past, place)
}

/// Books by the one command or the other: scripts that have grown go on with their journal.
fn booked<T: Threads + Wait + Sync>(
    rt: &HostRuntime,
    threads: &T,
    sale: &Sale<'_, '_>,
    texts: &mut Texts,
    past: &mut Past,
    besides: &Besides<'_>,
    older: SealEntry,
    place: &mut Place,
    out: &mut Heard,
) -> Result<(), DeskFault>
    requires first { IsOfCentury texts.old.inputs.first }
    requires days { (1 ≤ texts.old.inputs.days) × (texts.old.inputs.days ≤ 366) }
    requires today { IsCenturyDay sale.now.today }
    requires scripts { (1 ≤ length texts.old.scripts.items) × (length texts.old.scripts.items ≤ 8) }
    requires older { IsTrue (is_entry older) }
{
    if sale.asking.resume.is_some() {
        return gone_on(rt, threads, sale, texts, past, besides, older, place, out);
    }
    begun(
        rt,
        threads,
        sale,
        texts,
        &mut past.after,
        &besides.older,
        older,
        place,
        out,
    )
}

fn gone_on<T: Threads + Wait + Sync>(
    rt: &HostRuntime,
    threads: &T,
    sale: &Sale<'_, '_>,
    texts: &mut Texts,
    past: &mut Past,
    besides: &Besides<'_>,
    older: SealEntry,
    place: &mut Place,
    out: &mut Heard,
) -> Result<(), DeskFault>
    requires first { IsOfCentury texts.old.inputs.first }
    requires days { (1 ≤ texts.old.inputs.days) × (texts.old.inputs.days ≤ 366) }
    requires today { IsCenturyDay sale.now.today }
    requires scripts { (1 ≤ length texts.old.scripts.items) × (length texts.old.scripts.items ≤ 8) }
    requires older { IsTrue (is_entry older) }
{
    meter_texts(rt, sale.meter, texts);
    meter_input(rt, sale.meter, &mut past.after, Lines::Ended);
    meter_input(rt, sale.meter, &mut past.resumed, Lines::Ended);
    desk_resume(
        threads,
        rt.alloc(),
        &mut texts.inputs,
        &mut past.after,
        sale.given,
        &mut past.resumed,
        besides,
        sale.asking.again,
        texts.scripts.as_mut_slice(),
        &mut texts.changes,
        sale.today,
        &NoGate,
        older,
        place.keeps,
        &mut place.journal,
        &mut place.seal,
        out,
    )
}

fn begun<T: Threads + Wait + Sync>(
    rt: &HostRuntime,
    threads: &T,
    sale: &Sale<'_, '_>,
    texts: &mut Texts,
    after: &mut Input,
    beside: &Beside<'_>,
    older: SealEntry,
    place: &mut Place,
    out: &mut Heard,
) -> Result<(), DeskFault>
    requires first { IsOfCentury texts.old.inputs.first }
    requires days { (1 ≤ texts.old.inputs.days) × (texts.old.inputs.days ≤ 366) }
    requires today { IsCenturyDay sale.now.today }
    requires scripts { (1 ≤ length texts.old.scripts.items) × (length texts.old.scripts.items ≤ 8) }
    requires older { IsTrue (is_entry older) }
{
    meter_texts(rt, sale.meter, texts);
    meter_input(rt, sale.meter, after, Lines::Ended);
    desk_run(
        threads,
        rt.alloc(),
        &mut texts.inputs,
        after,
        beside,
        sale.asking.again,
        texts.scripts.as_mut_slice(),
        &mut texts.changes,
        sale.today,
        &NoGate,
        older,
        place.keeps,
        &mut place.journal,
        &mut place.seal,
        out,
    )
}

/// What both ways read is counted.
fn meter_texts(rt: &HostRuntime, meter: &Meter, texts: &mut Texts)
    ensures first { texts.new.inputs.first ≡ texts.old.inputs.first }
    ensures days { texts.new.inputs.days ≡ texts.old.inputs.days }
    ensures scripts { length texts.new.scripts.items ≡ length texts.old.scripts.items }
{
    meter_inputs(rt, meter, &mut texts.inputs);
    meter_each(rt, meter, &mut texts.scripts, Lines::Uncounted);
    meter_input(rt, meter, &mut texts.changes, Lines::Uncounted);
}

/// What the seal beside OUT has of the journal there, or else which bytes OUT has.
fn older_in(place: &Place) -> Result<SealEntry, Refusal> {
    let bytes = place.journal.bytes()?;
    let seal = match place.seal.text()? {
        Some(text) => read_seal(&text),
        None => None,
    };
    Ok(older_entry(seal, &bytes))
}

/// Whether what OUT and its seal have is to be kept: where the run does not go on from it. Under which names is decided here.
fn keeps_both(rt: &HostRuntime, past: &Past, place: &mut Place) -> Result<bool, Refusal> {
    let journal = &place.journal;
    match are_gone_on_from(past, journal) {
        Ok(true) => return Ok(false),
        Ok(false) => {}
        Err(refusal) => return Err(refusal),
    }
    if let (Some(path), Some(seal)) = (place.journal.path(), place.seal.path()) {
        let number = of(place.journal.name(), kept_number(rt, path, seal))?;
        place.journal.keep_under(number);
        place.seal.keep_under(number);
    }
    Ok(true)
}

/// The refusal of a run, which says whether the journal is in its place all the same.
fn noting_place(
    rt: &HostRuntime,
    asking: &RunJob<'_>,
    refusal: Refusal,
    past: &Past,
    place: &mut Place,
) -> Result<(), Refusal> {
    if !place.journal.is_put() {
        return Err(refusal);
    }
    let behind = match lines_sealed(place) {
        Some(behind) => u64::from(behind),
        None => lines_of(rt, asking.after, &past.after, &mut place.journal)?,
    };
    let from = lines_of(rt, asking.resume, &past.resumed, &mut place.journal)?;
    Err(refusal.noting_put(asking.journal, behind, from))
}

/// Says where nothing stood beside the journal that a run went on from. With scripts that have grown the seal would say behind how many
/// lines they stand; where that was said all the same, nothing was compared with it.
fn tell_compared(rt: &HostRuntime, asking: &RunJob<'_>, given: Option<u32>, seals: &Seals) {
    match (asking.resume, asking.after) {
        (None, Some(name)) => tell_unsealed(rt, name, &seals.older),
        (Some(name), None) if given.is_some() => tell_unsealed(rt, name, &seals.journal),
        _ => {}
    }
}

/// Ahead of how many lines a run began that may have booked what is asked: of all, where the scripts go behind the whole journal.
fn lines_ahead(
    rt: &HostRuntime,
    asking: &RunJob<'_>,
    given: Option<u32>,
    after: &Input,
    place: &mut Place,
) -> u64 {
    if asking.resume.is_none() {
        return u64::MAX;
    }
    if asking.after.is_none() {
        return u64::from(given.unwrap_or(0));
    }
    match lines_of(rt, asking.after, after, &mut place.journal) {
        Ok(lines) => lines,
        Err(_) => 0,
    }
}

/// How many lines the new journal went on from, as its seal says.
fn lines_sealed(place: &Place) -> Option<u32> {
    let Ok(Some(text)) = place.seal.text() else {
        return None;
    };
    Some(seat_seal::lines_behind(last_entry(&text)?.runs.as_slice()))
}

/// How many lines a journal has that a run went on from, which may be the one that had the name of the new one.
fn lines_of(
    rt: &HostRuntime,
    path: Option<&str>,
    input: &Input,
    journal: &mut JournalFile,
) -> Result<u64, Refusal> {
    let Some(path) = path else {
        return Ok(0);
    };
    match is_gone_on_from(input, journal) {
        Ok(true) => return Ok(journal.older_lines().unwrap_or(0)),
        Ok(false) => {}
        Err(refusal) => return Err(refusal),
    }
    match fs::open(rt, path) {
        Ok(mut file) => Ok(lines_in(rt, &mut file).unwrap_or(0)),
        Err(_) => Ok(0),
    }
}

/// Opens the journals once more that are regular files: the name may lead to another file by now.
fn open_past_again(rt: &HostRuntime, asking: &RunJob<'_>, past: &mut Past) -> Result<(), Refusal> {
    if is_regular(&past.after)? {
        past.after = opened_or(rt, asking.after, &NO_LINES)?;
    }
    if is_regular(&past.resumed)? {
        past.resumed = opened_or(rt, asking.resume, &NO_LINES)?;
    }
    Ok(())
}

fn is_regular(input: &Input) -> Result<bool, Refusal> {
    match input.metadata() {
        Ok(Some(file)) => Ok(file.is_file()),
        Ok(None) => Ok(false),
        Err(refusal) => Err(refusal),
    }
}

/// Whether one of the older journals is the very file that the new one is put into.
fn are_gone_on_from(past: &Past, journal: &JournalFile) -> Result<bool, Refusal> {
    match is_gone_on_from(&past.after, journal) {
        Ok(false) => is_gone_on_from(&past.resumed, journal),
        found => found,
    }
}

/// Whether the older journal is the very file that the new one is put into.
fn is_gone_on_from(after: &Input, journal: &JournalFile) -> Result<bool, Refusal> {
    let out = match journal.metadata() {
        Ok(Some(out)) => out,
        Ok(None) => return Ok(false),
        Err(refusal) => return Err(refusal),
    };
    match after.metadata() {
        Ok(Some(older)) => Ok(is_same(&older, &out)),
        Ok(None) => Ok(false),
        Err(refusal) => Err(refusal),
    }
}
