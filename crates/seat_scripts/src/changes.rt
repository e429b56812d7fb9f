//! The changes that `run` takes: rows, each for the one leg that serves its two cities, or for each leg of its flight on its day.
ghost use Rattle.std.specs.Prelude.{◌≡◌, ◌≢◌, ◌<◌, ◌≤◌, IfErr, IfOk, IfSome, is_some, length, option_map};
ghost use Rattle.std.specs.List.{AllByRecursion, list_any};
ghost use Rattle.flight_days.specs.Leaving.{AreDaysOf};
ghost use Rattle.seat_limits.specs.ChangeRows.{IsChangeText};
ghost use Rattle.seat_desk.specs.Desk.{HasFailed, IsOfInput};
ghost use Rattle.seat_scripts.specs.Repeated.{IsBookedOf};
ghost use Rattle.seat_scripts.specs.RowDays.{IsIndexed, names_no_cities};
ghost use Rattle.seat_scripts.specs.TextImprints.{IsImprintOf};
ghost use Rattle.seat_seal.specs.Booked.{changes_booked};
ghost use Rattle.seat_seal.specs.Known.{runs_known};
ghost use Rattle.seat_replies.specs.Changes.{AreChanges, AreServed, IsOfChanges, IsOnLeg, IsUnchanged, change_refusal, changes_of, most_change_bytes};

use crate::imprints::text_beside;
use crate::repeated::changes_known;
use airline_base::{Memory, NotedRead};
use flight_days::DayFlights;
use seat_desk::{DeskFault, read_input};
use seat_journal::Control;
use seat_limits::{ChangeRow, LimitFault, LimitKind, read_changes};
use seat_replies::{changes_between, changes_on_day};
use seat_seal::{Imprint, Sealed};
use ssim_flights::{Flights, Served};
use std::alloc::Global;

/// 16 MiB, the most bytes of changes.
const MOST_CHANGE_BYTES: u64 = 16_777_216;

/// Changes that are read, the imprint of their rows' bytes, where there are any, and whether a run booked their beginning.
#[derive(Drop)]
pub struct ReadChanges {
    pub changes: Vec<Control>,
    pub imprint: Option<Imprint>,
    pub are_booked: bool,
}

/// The changes that the rows ask for, in order, beside what the known runs booked that began ahead of so many lines, or all of them.
pub fn limit_changes<D: NotedRead>(
    alloc: Global,
    flights: &Flights,
    changes: &mut D,
    lines: Option<u64>,
    known: &Option<Sealed>,
) -> Result<ReadChanges, DeskFault>
    ensures ok { IfOk result (λ read. IfSome (D.remaining changes.old) (AreChanges flights.now read.changes.items)) }
    ensures imprint { IfOk result (λ read. IsImprintOf (D.remaining changes.old) read.imprint) }
    ensures booked { IfOk result (λ read. IsBookedOf (changes_booked lines (runs_known known.now)) (D.remaining changes.old) read.are_booked) }
    ensures legs { IfOk result (λ read. AllByRecursion (IsOnLeg flights.now) read.changes.items) }
    ensures fault { IfErr result (λ f. IsOfInput f → IfSome (D.remaining changes.old) (IsUnchanged flights.now f)) }
    ensures changes { IfErr result (λ f. IsOfInput f → IsOfChanges f) }
    ensures large { IfErr result (λ f. f ≡ DeskFault.TooLarge
        → IfSome (D.remaining changes.old) (λ bytes. most_change_bytes < length bytes)) }
    ensures device { IfErr result (λ f. f ≡ DeskFault.Device → HasFailed D.failure_count changes.old changes.new) }
{
    let booked = changes_known(alloc, lines, known)?;
    let bytes = read_input(alloc, changes, MOST_CHANGE_BYTES)?;
    let made = changes_of(alloc, flights, &bytes)?;
    let (imprint, are_booked) = text_beside(&bytes, booked.as_slice());
    Ok(ReadChanges {
        changes: made,
        imprint,
        are_booked,
    })
}

/// The changes that these bytes ask for.
#[tactic(auto, using(crate::proofs::Changing::refused_rows, seat_replies::proofs::Changing::on_legs_all))]
fn changes_of(alloc: Global, flights: &Flights, bytes: &[u8]) -> Result<Vec<Control>, DeskFault>
    requires size { length bytes.now ≤ most_change_bytes }
    ensures ok { IfOk result (λ read. AreChanges flights.now read.items bytes.now) }
    ensures legs { IfOk result (λ read. AllByRecursion (IsOnLeg flights.now) read.items) }
    ensures fault { IfErr result (λ f. f ≢ DeskFault.Memory → IsUnchanged flights.now f bytes.now) }
    ensures changes { IfErr result (λ f. f ≢ DeskFault.Memory → IsOfChanges f) }
    ensures kind { IfErr result (λ f. (f ≢ DeskFault.Device) × (f ≢ DeskFault.TooLarge)) }
{
    match read_changes(alloc, bytes) {
        Ok(rows) => served(alloc, flights, bytes, rows.as_slice()),
        Err(fault) => Err(of_rows(fault)),
    }
}

fn of_rows(fault: LimitFault) -> DeskFault
    ensures refusal { result ≡ change_refusal fault }
    ensures changes { result ≢ DeskFault.Memory → IsOfChanges result }
    ensures kind { (result ≢ DeskFault.Device) × (result ≢ DeskFault.TooLarge) }
{
    match fault.kind {
        LimitKind::Memory => DeskFault::Memory,
        _ => DeskFault::Change(fault),
    }
}

/// What each row asks for, in order. It refuses the first row that no leg serves, or of whose two cities more than one does.
fn served(
    alloc: Global,
    flights: &Flights,
    bytes: &[u8],
    rows: &[ChangeRow],
) -> Result<Vec<Control>, DeskFault>
    requires size { length bytes.now ≤ most_change_bytes }
    requires rows { IsChangeText bytes.now rows.now }
    ensures ok { IfOk result (λ read. AreServed flights.now rows.now read.items) }
    ensures fault { IfErr result (λ f. f ≢ DeskFault.Memory → IsUnchanged flights.now f bytes.now) }
    ensures changes { IfErr result (λ f. f ≢ DeskFault.Memory → IsOfChanges f) }
    ensures kind { IfErr result (λ f. (f ≢ DeskFault.Device) × (f ≢ DeskFault.TooLarge)) }
{
    if rows.is_empty() {
        return Ok(Vec::new(alloc));
    }
    let Ok(index) = Served::new(alloc, flights) else {
        return Err(DeskFault::Memory);
    };
    let Ok(days) = days_for(alloc, flights, rows) else {
        return Err(DeskFault::Memory);
    };
    match served_by(alloc, &index, flights, &days, bytes, rows) {
        Ok(changes) => Ok(changes),
        Err(fault) => Err(fault),
    }
}

/// The same, with the legs between two cities and the flights of each day.
fn served_by(
    alloc: Global,
    index: &Served<'_>,
    flights: &Flights,
    days: &Option<DayFlights>,
    bytes: &[u8],
    rows: &[ChangeRow],
) -> Result<Vec<Control>, DeskFault>
    requires size { length bytes.now ≤ most_change_bytes }
    requires rows { IsChangeText bytes.now rows.now }
    requires served { index.now ≡ flights.now }
    requires days { IfSome days.now (λ d. AreDaysOf d flights.now) }
    requires made { is_some days.now ≡ list_any names_no_cities rows.now }
    ensures ok { IfOk result (λ read. AreServed flights.now rows.now read.items) }
    ensures fault { IfErr result (λ f. f ≢ DeskFault.Memory → IsUnchanged flights.now f bytes.now) }
    ensures changes { IfErr result (λ f. f ≢ DeskFault.Memory → IsOfChanges f) }
    ensures kind { IfErr result (λ f. (f ≢ DeskFault.Device) × (f ≢ DeskFault.TooLarge)) }
{
    let mut changes = Vec::new(alloc);
    for row in rows {
        let Ok(asked) = changes_in_row(alloc, index, flights, days, row) else {
            return Err(DeskFault::Memory);
        };
        let Some(more) = asked else {
            return Err(DeskFault::NoLeg { line: row.line });
        };
        if changes.extend_from_slice(more.as_slice()).is_err() {
            return Err(DeskFault::Memory);
        }
    }
    Ok(changes)
}

/// The flights of each day, where one of these rows names no cities.
fn days_for(
    alloc: Global,
    flights: &Flights,
    rows: &[ChangeRow],
) -> Result<Option<DayFlights>, Memory>
    ensures made { IfOk result (λ days. is_some days ≡ list_any names_no_cities rows.now) }
    ensures days { IfOk result (λ days. IfSome days (λ d. AreDaysOf d flights.now)) }
{
    if !has_no_cities(rows) {
        return Ok(None);
    }
    Ok(Some(DayFlights::new(alloc, flights)?))
}

/// Whether one of the rows names no cities.
fn has_no_cities(rows: &[ChangeRow]) -> bool
    ensures { result ≡ list_any names_no_cities rows.now }
{
    rows.iter().any(|row| names_no_cities(row))
}

fn names_no_cities(row: &ChangeRow) -> bool
    ensures { result ≡ names_no_cities row.now }
{
    row.cities.is_none()
}

/// What a row asks for, where there is a leg for it.
fn changes_in_row(
    alloc: Global,
    index: &Served<'_>,
    flights: &Flights,
    days: &Option<DayFlights>,
    row: &ChangeRow,
) -> Result<Option<Vec<Control>>, Memory>
    requires served { index.now ≡ flights.now }
    requires days { IsIndexed flights.now days.now row.now }
    ensures { IfOk result (λ o. option_map (λ v. v.items) o ≡ changes_of flights.now row.now) }
{
    match row.cities {
        Some(cities) => changes_between(alloc, index, row, cities),
        None => match days {
            Some(days) => changes_on_day(alloc, flights, days, row),
            None => unreachable!(),
        },
    }
}
