//! The data set of an input, and its flights on the dates of a horizon.
ghost use Rattle.std.specs.Prelude.{◌≡◌, ◌≢◌, ◌<◌, ◌≤◌, IfErr, IfOk, length};
ghost use Rattle.ssim_flights.specs.Right.{IsOfCentury};
ghost use Rattle.ssim_records.specs.SetText.{IsDataSet};
ghost use Rattle.seat_desk.specs.CheckDesk.{IsRefusedSet, most_set_bytes, most_records};
ghost use Rattle.seat_desk.specs.FlightsDesk.{IsSchedule, IsUnscheduled, expansion_fault};

use crate::fault::DeskFault;
use airline_base::Day;
use ssim_flights::{FlightFault, FlightKind, Flights, expand};
use ssim_records::{DataSet, SetKind, read_set};
use std::alloc::Global;

/// 256 MiB, the most bytes of a data set.
pub const MOST_SET_BYTES: u64 = 268_435_456;

/// The most numbered records, as many as six digits count.
const MOST_RECORDS: u32 = 999_999;

/// The most dated flights.
const MOST_FLIGHTS: u32 = 100_000;

/// Reads these bytes as a data set.
pub fn data_set(alloc: Global, bytes: &[u8]) -> Result<DataSet, DeskFault>
    requires { length bytes.now ≤ most_set_bytes }
    ensures ok { IfOk result (IsDataSet most_records bytes.now) }
    ensures fault { IfErr result (λ f. f ≢ DeskFault.Memory → IsRefusedSet f bytes.now) }
    ensures kind { IfErr result (λ f. (f ≢ DeskFault.Device) × (f ≢ DeskFault.TooLarge)) }
{
    match read_set(alloc, bytes, MOST_RECORDS) {
        Ok(set) => Ok(set),
        Err(fault) => match fault.kind {
            SetKind::Memory => Err(DeskFault::Memory),
            _ => Err(DeskFault::Set(fault)),
        },
    }
}

/// Reads these bytes as a data set, and expands its dated flights.
#[tactic(auto, using(ssim_flights::proofs::RightSets::right_carrier, ssim_flights::proofs::RightSets::right_legs))]
pub fn scheduled(alloc: Global, bytes: &[u8], first: Day, days: u16) -> Result<Flights, DeskFault>
    requires size { length bytes.now ≤ most_set_bytes }
    requires first { IsOfCentury first }
    requires days { (1 ≤ days) × (days ≤ 366) }
    ensures ok { IfOk result (IsSchedule bytes.now first days) }
    ensures fault { IfErr result (λ f. f ≢ DeskFault.Memory → IsUnscheduled first days f bytes.now) }
    ensures kind { IfErr result (λ f. (f ≢ DeskFault.Device) × (f ≢ DeskFault.TooLarge)) }
{
    let set = match data_set(alloc, bytes) {
        Ok(set) => set,
        Err(fault) => return Err(fault),
    };
    match expand(alloc, &set, first, days, MOST_FLIGHTS) {
        Ok(flights) => Ok(flights),
        Err(fault) => Err(of_expansion(fault)),
    }
}

fn of_expansion(fault: FlightFault) -> DeskFault
    ensures { result ≡ expansion_fault fault }
{
    match fault.kind {
        FlightKind::Memory => DeskFault::Memory,
        _ => DeskFault::Flight(fault),
    }
}
