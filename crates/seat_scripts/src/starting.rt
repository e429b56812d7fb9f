//! What a run starts from: a set, limit rows and an older journal with what stands beside it, each read and checked before the next.
//! It knows no script.
ghost use Rattle.std.specs.Prelude.{◌≤◌, IfErr, IfOk};
ghost use Rattle.ssim_flights.specs.Right.{IsOfCentury};
ghost use Rattle.seat_desk.specs.Desk.{HasFailed};
ghost use Rattle.seat_desk.specs.Loading.{HasFirstLoadFailed};
ghost use Rattle.seat_scripts.specs.Starting.{IsNoStart, IsStarted};

use crate::past::replayed_beside;
use airline_base::NotedRead;
use seat_core::Core;
use seat_desk::{Based, DeskFault, Inputs, Loaded, load_based};
use seat_seal::{Basis, Beside, Sealed};
use ssim_flights::Flights;
use std::alloc::Global;
use std::thread::Threads;

/// Flights, the inventory of an older journal, what a seal says of the set and the limits, and what the one beside the journal knows.
#[derive(Drop)]
pub(crate) struct Start {
    pub flights: Flights,
    pub past: Core,
    pub basis: Basis,
    pub known: Option<Sealed>,
}

/// Reads a data set, limit rows and an older journal, which is replayed on all processors where what stands beside it has no fault.
pub(crate) fn started<R: Threads + Sync, I: NotedRead>(
    rt: &R,
    alloc: Global,
    inputs: &mut Inputs<I, I>,
    after: &mut I,
    beside: &Beside<'_>,
) -> Result<Start, DeskFault>
    requires first { IsOfCentury inputs.old.first }
    requires days { (1 ≤ inputs.old.days) × (inputs.old.days ≤ 366) }
    ensures ok { IfOk result (IsStarted beside.now I.remaining I.remaining inputs.old (I.remaining after.old)) }
    ensures none { IfErr result (IsNoStart beside.now I.remaining I.remaining inputs.old (I.remaining after.old)
        (HasFirstLoadFailed I.remaining I.failure_count I.failure_count inputs.old inputs.new) (HasFailed I.failure_count after.old after.new)) }
{
    let Based { loaded, basis } = match load_based(alloc, inputs, true) {
        Ok(based) => based,
        Err(fault) => return Err(fault),
    };
    let Loaded { flights, grid, .. } = loaded;
    match replayed_beside(rt, alloc, grid, after, beside, &basis) {
        Ok(read) => Ok(Start {
            flights,
            past: read.past,
            basis,
            known: read.last,
        }),
        Err(fault) => Err(fault),
    }
}
