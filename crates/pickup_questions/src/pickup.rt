//! The question of pickup: what the lines behind older ones made of each class of each flight that is kept, or the sums of that, and the sums of all.
//! It knows no table of sums, and leaves every number to the crates below.
ghost use Rattle.std.specs.Prelude.{◌≡◌, ◌≤◌, ◌++◌, IfOk, OnOk, length, map};
ghost use Rattle.std.specs.List.{sum_by};
ghost use Rattle.seat_desk.specs.AuditDesk.{most_lines};
ghost use Rattle.seat_tables.specs.Rows.{IsTable, rows_from};
ghost use Rattle.seat_tables.specs.Sheets.{ArePut, IsReady};
ghost use Rattle.seat_pickup.specs.Pickups.{moved_behind, pickups_of};
ghost use Rattle.pickup_questions.specs.Groups.{move_of};
ghost use Rattle.pickup_questions.specs.PickupRows.{IsPickupOver, IsPickupRefused, IsPickupText, names_by, pickup_names, pickup_row, rows_by, rows_of_pickup, sum_text, sums_part, sums_text};

use crate::by_class::class_table;
use crate::by_day::day_table;
use crate::by_flight::flight_table;
use crate::by_leg::leg_table;
use crate::by_pair::pair_table;
use crate::groups::{Move, move_of};
use airline_base::Memory;
use seat_core::Core;
use seat_desk::{DeskFault, Loaded, Question, put, put_number, replayed_in_parts};
use seat_lists::Designator;
use seat_pickup::{Past, Pickup, past_of, pickups};
use seat_tables::{Cell, Form, Sheet, put_row};
use ssim_flights::Flights;
use std::alloc::Global;
use std::thread::Threads;

/// What the lines behind older ones of a journal made of each class of each flight that is asked for, or the sums of that, in a form; as text with a
/// line of the sums of all behind. A journal is refused as an audit refuses it, and one that does not begin with the older lines is, too.
#[derive(Clone, Copy)]
pub struct PickupOf<'a> {
    /// What stands ahead.
    pub past: Past<'a>,
    /// Flights of this name; else all.
    pub flight: Option<Designator>,
    pub by: By,
    pub form: Form,
}

/// What a row is of.
#[derive(Clone, Copy)]
pub enum By {
    /// A class of a flight.
    EachRow,
    EachFlight,
    /// A leg of a flight: a booking counts on each leg of its place.
    EachLeg,
    EachClass,
    /// The flights whose first leg departs on a day.
    EachDay,
    /// Two stations between which bookings' places run, whatever the flight: a booking counts once.
    EachPair,
}

impl<'a> Question for PickupOf<'a> {
    ghost use Rattle.pickup_questions.specs.PickupRows.{IsPickupOver, IsPickupRefused};

    ghost answers = { λ asked flights rows grid journal text. IsPickupOver asked flights grid journal text };

    ghost refuses = { λ asked grid fault journal. IsPickupRefused asked.past grid fault journal };

    #[tactic(auto, using(crate::proofs::PickedUp::over_replay, crate::proofs::PickedUp::unlawful, crate::proofs::PickedUp::parted))]
    fn text<R: Threads + Sync>(
        &self,
        rt: &R,
        alloc: Global,
        loaded: Loaded,
        journal: Vec<u8>,
    ) -> Result<Vec<u8>, DeskFault> {
        let Loaded {
            flights,
            rows,
            grid,
        } = loaded;
        drop(rows);
        let core = replayed_in_parts(rt, alloc, grid, journal)?;
        let lines = past_of(&self.past, core.journal())?;
        match written(alloc, &flights, &core, lines, self) {
            Ok(text) => Ok(text),
            Err(_) => Err(DeskFault::Memory),
        }
    }
}

/// The table, and the sums.
fn written(
    alloc: Global,
    flights: &Flights,
    core: &Core,
    lines: usize,
    asked: &PickupOf<'_>,
) -> Result<Vec<u8>, Memory>
    requires capped { core.now.cap ≤ most_lines }
    requires within { lines ≤ length core.now.journal }
    ensures { IfOk result (λ text. IsPickupText asked.now.by asked.now.form asked.now.flight flights.now
        (pickups_of asked.now.flight flights.now core.now.grid core.now.journal lines)
        (moved_behind core.now.grid core.now.journal lines) text.items) }
{
    let all = pickups(alloc, flights, core, lines, &asked.flight)?;
    text_of(
        alloc,
        asked.by,
        asked.form,
        flights,
        core,
        lines,
        &asked.flight,
        &all,
    )
}

#[tactic(auto, using(crate::proofs::PickedUp::summed))]
fn text_of(
    alloc: Global,
    by: By,
    form: Form,
    flights: &Flights,
    core: &Core,
    lines: usize,
    asked: &Option<Designator>,
    all: &[Pickup],
) -> Result<Vec<u8>, Memory>
    requires capped { core.now.cap ≤ most_lines }
    requires within { lines ≤ length core.now.journal }
    ensures { IfOk result (λ text. IsPickupText by form asked.now flights.now all.now
        (moved_behind core.now.grid core.now.journal lines) text.items) }
{
    let mut text = table_by(alloc, by, form, flights, core, lines, asked, all)?;
    put_sums(&mut text, form, all)?;
    Ok(text)
}

#[tactic(auto, using(crate::proofs::PickedUp::each_row, crate::proofs::PickedUp::each_flight, crate::proofs::PickedUp::each_leg, crate::proofs::PickedUp::each_class, crate::proofs::PickedUp::each_day, crate::proofs::PickedUp::each_pair))]
fn table_by(
    alloc: Global,
    by: By,
    form: Form,
    flights: &Flights,
    core: &Core,
    lines: usize,
    asked: &Option<Designator>,
    all: &[Pickup],
) -> Result<Vec<u8>, Memory>
    requires capped { core.now.cap ≤ most_lines }
    requires within { lines ≤ length core.now.journal }
    ensures { IfOk result (λ text. IsTable form (names_by by)
        (rows_by by asked.now flights.now all.now (moved_behind core.now.grid core.now.journal lines)) text.items) }
{
    match by {
        By::EachRow => table_of(alloc, form, all),
        By::EachFlight => flight_table(alloc, form, flights, all),
        By::EachLeg => leg_table(alloc, form, flights, core, lines, asked),
        By::EachClass => class_table(alloc, form, all),
        By::EachDay => day_table(alloc, form, flights, all),
        By::EachPair => pair_table(alloc, form, flights, core, lines, asked),
    }
}

#[tactic(auto, using(seat_tables::proofs::Putting::table_of))]
fn table_of(alloc: Global, form: Form, all: &[Pickup]) -> Result<Vec<u8>, Memory>
    ensures { IfOk result (λ text. IsTable form pickup_names (rows_from rows_of_pickup 0 all.now) text.items) }
{
    let mut sheet = Sheet::new(alloc, form, &names())?;
    put_pickups(alloc, &mut sheet, all)?;
    Ok(sheet.into_text()?)
}

/// The names of the columns.
fn names() -> [&'static str; 8]
    ensures { map (λ n. n.now) result ≡ pickup_names }
{
    [
        "flight",
        "designator",
        "class",
        "before",
        "sold",
        "cancelled",
        "confirmed",
        "held",
    ]
}

/// Adds a row for each.
fn put_pickups(alloc: Global, sheet: &mut Sheet, all: &[Pickup]) -> Result<(), Memory>
    requires ready { IsReady sheet.old }
    ensures { OnOk result (ArePut pickup_names (rows_from rows_of_pickup 0 all.now) sheet.old sheet.new) }
{
    for i in 0..all.len() {
        put_pickup(alloc, sheet, &all[i])?;
    }
    Ok(())
}

#[tactic(auto, using(table_questions::proofs::Tables::row_put))]
fn put_pickup(alloc: Global, sheet: &mut Sheet, pickup: &Pickup) -> Result<(), Memory>
    requires ready { IsReady sheet.old }
    ensures { OnOk result (ArePut pickup_names (rows_of_pickup 0 pickup.now) sheet.old sheet.new) }
{
    let row = pickup_row(pickup);
    put_row(alloc, sheet, &names(), &row)?;
    Ok(())
}

fn pickup_row(pickup: &Pickup) -> [Cell; 8]
    ensures { result ≡ pickup_row pickup.now }
{
    let name = pickup.name;
    [
        Cell::Number(u64::from(pickup.flight)),
        Cell::Flight(name.airline, name.number, name.suffix),
        Cell::Letter(pickup.class),
        Cell::Number(pickup.before),
        Cell::Number(pickup.sold),
        Cell::Number(pickup.cancelled),
        Cell::Number(pickup.confirmed),
        Cell::Number(pickup.held),
    ]
}

/// Adds the line of sums, which the text alone has.
#[tactic(auto, using(crate::proofs::PickedUp::text_sums, crate::proofs::PickedUp::no_csv_sums, crate::proofs::PickedUp::no_json_sums))]
fn put_sums(text: &mut Vec<u8>, form: Form, all: &[Pickup]) -> Result<(), Memory>
    ensures { OnOk result (text.new.items ≡ text.old.items ++ sums_part form all.now) }
{
    match form {
        Form::Text => put_line(text, all),
        Form::Csv | Form::Json => Ok(()),
    }
}

fn put_line(text: &mut Vec<u8>, all: &[Pickup]) -> Result<(), Memory>
    ensures { OnOk result (text.new.items ≡ text.old.items ++ sums_text all.now) }
{
    put_sum(text, b"SUMS before ", all, Move::Before)?;
    put_sum(text, b" sold ", all, Move::Sold)?;
    put_sum(text, b" cancelled ", all, Move::Cancelled)?;
    put_sum(text, b" confirmed ", all, Move::Confirmed)?;
    put_sum(text, b" held ", all, Move::Held)?;
    put(text, b"\n")?;
    Ok(())
}

/// Adds these words and a sum.
fn put_sum(text: &mut Vec<u8>, words: &[u8], all: &[Pickup], of: Move) -> Result<(), Memory>
    ensures { OnOk result (text.new.items ≡ text.old.items ++ sum_text words.now of all.now) }
{
    let sum = total(all, of)?;
    put(text, words)?;
    put_number(text, sum)?;
    Ok(())
}

/// A sum. One that 64 bits don't hold is want of memory.
fn total(all: &[Pickup], of: Move) -> Result<u64, Memory>
    ensures { IfOk result (λ n. n ≡ sum_by (move_of of) all.now) }
{
    let mut sum = 0u64;
    for pickup in all {
        let Some(more) = sum.checked_add(move_of(pickup, of)) else {
            return Err(Memory);
        };
        sum = more;
    }
    Ok(sum)
}
