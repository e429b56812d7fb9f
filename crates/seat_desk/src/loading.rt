//! The flights of a data set, and the grid that limit rows give them on the dates of a horizon.
ghost use Rattle.std.specs.Prelude.{◌≡◌, ◌≢◌, ◌<◌, ◌≤◌, IfErr, IfOk, IfSome, IsTrue, length};
ghost use Rattle.sha2.specs.Sha256.{sha256};
ghost use Rattle.ssim_flights.specs.Right.{IsOfCentury};
ghost use Rattle.seat_limits.specs.Authorised.{authorised_grid};
ghost use Rattle.seat_limits.specs.LimitRows.{IsLimitText};
ghost use Rattle.seat_desk.specs.CheckDesk.{most_set_bytes};
ghost use Rattle.seat_desk.specs.Desk.{HasFailed, IsOfInput};
ghost use Rattle.seat_desk.specs.FlightsDesk.{IsUnscheduled};
ghost use Rattle.seat_desk.specs.Halves.{HasFlights, HasRows};
ghost use Rattle.seat_desk.specs.Sealing.{IsBasisOf};
ghost use Rattle.seat_desk.specs.Loading.{HasFirstLoadFailed, HaveFailed, IsFirstTooLargeLoadOf, IsGridOf, IsGroundOf, IsLoadedOf, IsRefusedLoadOf, IsTooLargeLoadOf, IsUnlimited, limit_refusal, most_limit_bytes};

use crate::fault::DeskFault;
use crate::inputs::Inputs;
use crate::schedule::{MOST_SET_BYTES, scheduled};
use crate::streams::read_input;
use airline_base::{Day, NotedRead};
use seat_limits::{LimitFault, LimitKind, LimitRows, build_grid, read_limits};
use seat_nesting::Grid;
use seat_seal::{Basis, Digest, digest_of};
use ssim_flights::Flights;
use std::alloc::Global;

/// 16 MiB, the most bytes of limit rows.
pub const MOST_LIMIT_BYTES: u64 = 16_777_216;

/// Flights, limit rows, and the ladders that these give the flights' legs.
#[derive(Drop)]
pub struct Loaded {
    pub flights: Flights,
    pub rows: LimitRows,
    pub grid: Grid,
}

/// The flights of a data set and the grid that limit rows give them, each input read and checked before the next is read.
/// No leg of that grid has a class twice: [`loaded_ladders_differ`](crate::loaded_ladders_differ).
pub fn load<I: NotedRead>(alloc: Global, inputs: &mut Inputs<I, I>) -> Result<Loaded, DeskFault>
    requires first { IsOfCentury inputs.old.first }
    requires days { (1 ≤ inputs.old.days) × (inputs.old.days ≤ 366) }
    ensures ok { IfOk result (λ loaded. IsLoadedOf I.remaining I.remaining inputs.old loaded.flights loaded.grid) }
    ensures grid { IfOk result (λ loaded. IsGridOf loaded.flights loaded.grid) }
    ensures rows { IfOk result (λ loaded. IsGroundOf I.remaining I.remaining inputs.old loaded.flights loaded.rows) }
    ensures ladders { IfOk result (λ loaded. loaded.grid ≡ authorised_grid loaded.rows loaded.flights) }
    ensures fault { IfErr result (λ f. IsOfInput f → IsRefusedLoadOf I.remaining I.remaining inputs.old f) }
    ensures large { IfErr result (λ f. f ≡ DeskFault.TooLarge → IsTooLargeLoadOf I.remaining I.remaining inputs.old) }
    ensures device { IfErr result (λ f. f ≡ DeskFault.Device
        → HaveFailed I.failure_count I.failure_count inputs.old inputs.new) }
    // The limits are at fault only behind a set that is right.
    ensures first_large { IfErr result
        (λ f. f ≡ DeskFault.TooLarge → IsFirstTooLargeLoadOf I.remaining I.remaining inputs.old) }
    ensures first_failed { IfErr result (λ f. f ≡ DeskFault.Device →
        HasFirstLoadFailed I.remaining I.failure_count I.failure_count inputs.old inputs.new) }
{
    let Based { loaded, .. } = load_based(alloc, inputs, false)?;
    Ok(loaded)
}

/// What [`load`] gives, and what a seal is compared with: the digests of the bytes that were read, where there is a seal, and the days.
#[derive(Drop)]
pub struct Based {
    pub loaded: Loaded,
    pub basis: Basis,
}

/// Loads as [`load`] does, and takes the digests of what it reads where they are asked for.
pub fn load_based<I: NotedRead>(
    alloc: Global,
    inputs: &mut Inputs<I, I>,
    has_seal: bool,
) -> Result<Based, DeskFault>
    requires first { IsOfCentury inputs.old.first }
    requires days { (1 ≤ inputs.old.days) × (inputs.old.days ≤ 366) }
    ensures ok { IfOk result (λ b. IsLoadedOf I.remaining I.remaining inputs.old b.loaded.flights b.loaded.grid) }
    ensures grid { IfOk result (λ b. IsGridOf b.loaded.flights b.loaded.grid) }
    ensures rows { IfOk result (λ b. IsGroundOf I.remaining I.remaining inputs.old b.loaded.flights b.loaded.rows) }
    ensures ladders { IfOk result (λ b. b.loaded.grid ≡ authorised_grid b.loaded.rows b.loaded.flights) }
    ensures fault { IfErr result (λ f. IsOfInput f → IsRefusedLoadOf I.remaining I.remaining inputs.old f) }
    ensures large { IfErr result (λ f. f ≡ DeskFault.TooLarge → IsTooLargeLoadOf I.remaining I.remaining inputs.old) }
    ensures device { IfErr result (λ f. f ≡ DeskFault.Device
        → HaveFailed I.failure_count I.failure_count inputs.old inputs.new) }
    // The limits are at fault only behind a set that is right.
    ensures first_large { IfErr result
        (λ f. f ≡ DeskFault.TooLarge → IsFirstTooLargeLoadOf I.remaining I.remaining inputs.old) }
    ensures first_failed { IfErr result (λ f. f ≡ DeskFault.Device →
        HasFirstLoadFailed I.remaining I.failure_count I.failure_count inputs.old inputs.new) }
    ensures basis { IfOk result (λ b. IsTrue has_seal → IsBasisOf I.remaining I.remaining inputs.old b.basis) }
{
    let (flights, set) = match read_flights(
        alloc,
        &mut inputs.set,
        inputs.first,
        inputs.days,
        has_seal,
    ) {
        Ok(read) => read,
        Err(fault) => return Err(fault),
    };
    let (rows, limits) = match read_rows(alloc, &mut inputs.limits, has_seal) {
        Ok(read) => read,
        Err(fault) => return Err(fault),
    };
    let grid = grid_of(alloc, &flights, &rows)?;
    Ok(Based {
        loaded: Loaded {
            flights,
            rows,
            grid,
        },
        basis: Basis {
            set,
            limits,
            first: inputs.first,
            days: inputs.days,
        },
    })
}

// The flights of a data set, and the digest of its bytes where it is asked for.
fn read_flights<S: NotedRead>(
    alloc: Global,
    input: &mut S,
    first: Day,
    days: u16,
    has_seal: bool,
) -> Result<(Flights, Digest), DeskFault>
    requires first { IsOfCentury first }
    requires days { (1 ≤ days) × (days ≤ 366) }
    ensures flights { IfOk result (λ r. IfSome (S.remaining input.old) (HasFlights first days r.0)) }
    ensures digest { IfOk result (λ r. IsTrue has_seal → IfSome (S.remaining input.old) (λ xs. r.1 ≡ sha256 xs)) }
    ensures fault { IfErr result (λ f. IsOfInput f → IfSome (S.remaining input.old) (IsUnscheduled first days f)) }
    ensures large { IfErr result (λ f. f ≡ DeskFault.TooLarge
        → IfSome (S.remaining input.old) (λ xs. most_set_bytes < length xs)) }
    ensures device { IfErr result (λ f. f ≡ DeskFault.Device → HasFailed S.failure_count input.old input.new) }
{
    let bytes = read_input(alloc, input, MOST_SET_BYTES)?;
    let flights = scheduled(alloc, &bytes, first, days)?;
    Ok((flights, digest_where(has_seal, &bytes)))
}

// The rows of a text of limits, and the digest of its bytes where it is asked for.
fn read_rows<L: NotedRead>(
    alloc: Global,
    input: &mut L,
    has_seal: bool,
) -> Result<(LimitRows, Digest), DeskFault>
    ensures rows { IfOk result (λ r. IfSome (L.remaining input.old) (HasRows r.0)) }
    ensures digest { IfOk result (λ r. IsTrue has_seal → IfSome (L.remaining input.old) (λ ys. r.1 ≡ sha256 ys)) }
    ensures fault { IfErr result (λ f. IsOfInput f → IfSome (L.remaining input.old) (λ ys. IsUnlimited ys f)) }
    ensures large { IfErr result (λ f. f ≡ DeskFault.TooLarge
        → IfSome (L.remaining input.old) (λ ys. most_limit_bytes < length ys)) }
    ensures device { IfErr result (λ f. f ≡ DeskFault.Device → HasFailed L.failure_count input.old input.new) }
{
    let bytes = read_input(alloc, input, MOST_LIMIT_BYTES)?;
    let rows = limit_rows(alloc, &bytes)?;
    Ok((rows, digest_where(has_seal, &bytes)))
}

/// The digest of these bytes, where it is asked for.
fn digest_where(is_wanted: bool, bytes: &[u8]) -> Digest
    ensures { IsTrue is_wanted → result ≡ sha256 bytes.now }
{
    if is_wanted {
        digest_of(bytes)
    } else {
        Digest::default()
    }
}

/// Reads these bytes as limit rows.
#[tactic(auto, using(crate::proofs::Grounds::refused_limits))]
pub fn limit_rows(alloc: Global, bytes: &[u8]) -> Result<LimitRows, DeskFault>
    requires { length bytes.now ≤ most_limit_bytes }
    ensures ok { IfOk result (IsLimitText bytes.now) }
    ensures fault { IfErr result (λ f. f ≢ DeskFault.Memory → IsUnlimited bytes.now f) }
    ensures kind { IfErr result (λ f. (f ≢ DeskFault.Device) × (f ≢ DeskFault.TooLarge)) }
{
    match read_limits(alloc, bytes) {
        Ok(rows) => Ok(rows),
        Err(fault) => Err(of_limits(fault)),
    }
}

fn of_limits(fault: LimitFault) -> DeskFault
    ensures { result ≡ limit_refusal fault }
{
    match fault.kind {
        LimitKind::Memory => DeskFault::Memory,
        _ => DeskFault::Limit(fault),
    }
}

/// The grid of these flights under these rows.
#[tactic(auto, using(crate::proofs::Grounds::grid_of_rows))]
pub fn grid_of(alloc: Global, flights: &Flights, rows: &LimitRows) -> Result<Grid, DeskFault>
    ensures ok { IfOk result (λ grid. grid ≡ authorised_grid rows.now flights.now) }
    ensures rows { IfOk result (IsGridOf flights.now) }
    ensures memory { IfErr result (λ f. f ≡ DeskFault.Memory) }
{
    match build_grid(alloc, flights, rows.as_slice()) {
        Ok(grid) => Ok(grid),
        Err(_) => Err(DeskFault::Memory),
    }
}
