//! `audit --shards`: journals of hosts that have different flights over one set and its limits, and one line with what they come to together.
ghost use Rattle.std.specs.Prelude.{◌≡◌, ◌≢◌, ◌≤◌, ◌⊎◌, length, map, IfErr, IfOk, IfSome, OnOk};
ghost use Rattle.ssim_flights.specs.Right.{IsOfCentury};
ghost use Rattle.seat_desk.specs.Desk.{InputFailed, IsWritten, OutputFailed};
ghost use Rattle.seat_desk.specs.Loading.{IsFirstTooLargeLoadOf};
ghost use Rattle.seat_shards.specs.Auditing.{HasFirstFailed, IsShardsAnswerOf, IsTotalledOf, IsRefusedShardsOf};
ghost use Rattle.seat_shards.specs.Faults.{IsOfJournal, IsOfJournals, IsOfShards};
ghost use Rattle.seat_shards.specs.Taking.{known, AreTotalled, HasFailedAmong, IsFirstRefused};

use crate::fault::ShardFault;
use crate::taking::take_all;
use airline_base::{NotedRead, NotedWrite, put_all};
use seat_desk::{DeskFault, Inputs, Loaded, audit_line, load};
use seat_rules::Totals;
use std::alloc::Global;
use std::thread::Threads;
use taken_journals::Taken;

/// Audits journals over the grid of one data set and limit rows, each of at most 256 MiB, and writes one line with their totals together.
/// They are accepted exactly where each is a legal history by itself and no two have a line of one flight. Each input is read and checked before
/// the next is read, and nothing is written before all are right. Whatever the order in which their lines came, one journal of all of them
/// is a legal history then, with these totals: [`merged_is_legal`](crate::laws::merged_is_legal), [`merged_totals`](crate::laws::merged_totals).
pub fn desk_shards<R: Threads + Sync, I: NotedRead, W: NotedWrite>(
    rt: &R,
    alloc: Global,
    inputs: &mut Inputs<I, I>,
    journals: &mut [I],
    out: &mut W,
) -> Result<(), ShardFault>
    requires first { IsOfCentury inputs.old.first }
    requires days { (1 ≤ inputs.old.days) × (inputs.old.days ≤ 366) }
    ensures ok { OnOk result (IsWritten (IsShardsAnswerOf I.remaining I.remaining inputs.old (map I.remaining journals.old))
        (W.contents out.old) (W.contents out.new)) }
    ensures fault { IfErr result (λ f. IsOfShards f →
        IsRefusedShardsOf I.remaining I.remaining inputs.old (map I.remaining journals.old) f) }
    ensures large { IfErr result (λ f. f ≡ ShardFault.Desk DeskFault.TooLarge
        → IsFirstTooLargeLoadOf I.remaining I.remaining inputs.old) }
    ensures device { IfErr result (λ f. f ≡ ShardFault.Desk DeskFault.Device →
        InputFailed (HasFirstFailed I.remaining I.remaining I.failure_count I.failure_count I.remaining I.failure_count inputs.old inputs.new journals.old journals.new)
        out.old out.new
        ⊎ OutputFailed W.failure_count W.contents out.old out.new
        (IsShardsAnswerOf I.remaining I.remaining inputs.old (map I.remaining journals.old))) }
    ensures untouched { IfErr result (λ f. f ≢ ShardFault.Desk DeskFault.Device → out.new ≡ out.old) }
{
    let line = match audited(rt, alloc, inputs, journals) {
        Ok(line) => line,
        Err(fault) => return Err(fault),
    };
    match put_all(out, &line) {
        Ok(()) => Ok(()),
        Err(_) => Err(ShardFault::Desk(DeskFault::Device)),
    }
}

// The line of journals that are audited, each input read and checked before the next.
fn audited<R: Threads + Sync, I: NotedRead>(
    rt: &R,
    alloc: Global,
    inputs: &mut Inputs<I, I>,
    journals: &mut [I],
) -> Result<Vec<u8>, ShardFault>
    requires first { IsOfCentury inputs.old.first }
    requires days { (1 ≤ inputs.old.days) × (inputs.old.days ≤ 366) }
    ensures ok { IfOk result (λ line. IsShardsAnswerOf I.remaining I.remaining inputs.old (map I.remaining journals.old) line.items) }
    ensures fault { IfErr result (λ f. IsOfShards f →
        IsRefusedShardsOf I.remaining I.remaining inputs.old (map I.remaining journals.old) f) }
    ensures large { IfErr result (λ f. f ≡ ShardFault.Desk DeskFault.TooLarge
        → IsFirstTooLargeLoadOf I.remaining I.remaining inputs.old) }
    ensures device { IfErr result (λ f. f ≡ ShardFault.Desk DeskFault.Device →
        HasFirstFailed I.remaining I.remaining I.failure_count I.failure_count I.remaining I.failure_count inputs.old inputs.new journals.old journals.new) }
{
    let totals = match totalled(rt, alloc, inputs, journals) {
        Ok(totals) => totals,
        Err(fault) => return Err(fault),
    };
    match audit_line(alloc, totals) {
        Ok(line) => Ok(line),
        Err(_) => Err(ShardFault::Desk(DeskFault::Memory)),
    }
}

// What the journals come to, each input read and checked before the next.
#[tactic(auto, using(crate::proofs::Grounds::refused_over_ground, crate::proofs::Grounds::failed_over_ground, crate::proofs::Grounds::as_many))]
fn totalled<R: Threads + Sync, I: NotedRead>(
    rt: &R,
    alloc: Global,
    inputs: &mut Inputs<I, I>,
    journals: &mut [I],
) -> Result<Totals, ShardFault>
    requires first { IsOfCentury inputs.old.first }
    requires days { (1 ≤ inputs.old.days) × (inputs.old.days ≤ 366) }
    ensures ok { IfOk result (IsTotalledOf I.remaining I.remaining inputs.old (map I.remaining journals.old)) }
    ensures fault { IfErr result (λ f. IsOfShards f →
        IsRefusedShardsOf I.remaining I.remaining inputs.old (map I.remaining journals.old) f) }
    ensures large { IfErr result (λ f. f ≡ ShardFault.Desk DeskFault.TooLarge
        → IsFirstTooLargeLoadOf I.remaining I.remaining inputs.old) }
    ensures device { IfErr result (λ f. f ≡ ShardFault.Desk DeskFault.Device →
        HasFirstFailed I.remaining I.remaining I.failure_count I.failure_count I.remaining I.failure_count inputs.old inputs.new journals.old journals.new) }
{
    let loaded = match load(alloc, inputs) {
        Ok(loaded) => loaded,
        Err(fault) => return Err(ShardFault::Desk(fault)),
    };
    totalled_over(rt, alloc, loaded, journals)
}

// What the journals come to over the loaded grid. The flights and the rows are dropped first.
#[tactic(auto, using(crate::proofs::Summing::all_totalled, crate::proofs::Summing::one_refused, crate::proofs::Summing::one_failed, crate::proofs::Owning::places_below))]
fn totalled_over<R: Threads + Sync, J: NotedRead>(
    rt: &R,
    alloc: Global,
    loaded: Loaded,
    journals: &mut [J],
) -> Result<Totals, ShardFault>
    requires room { length loaded.grid ≤ length loaded.flights }
    ensures ok { IfOk result (λ totals. IfSome (known (map J.remaining journals.old)) (λ texts. AreTotalled loaded.grid texts totals)) }
    ensures fault { IfErr result (λ f. IsOfJournal f
        → IfSome (known (map J.remaining journals.old)) (λ texts. IsFirstRefused loaded.grid texts f)) }
    ensures device { IfErr result (λ f. f ≡ ShardFault.Desk DeskFault.Device → HasFailedAmong loaded.grid (map J.remaining journals.old)
        J.failure_count journals.old journals.new) }
    ensures kind { IfErr result IsOfJournals }
{
    let Loaded {
        flights,
        rows,
        grid,
    } = loaded;
    let count = flights.len() as usize;
    drop(flights);
    drop(rows);
    let Ok(mut taken) = Taken::none(alloc, count) else {
        return Err(ShardFault::Desk(DeskFault::Memory));
    };
    match take_all(rt, alloc, &grid, journals, &mut taken) {
        Ok(()) => Ok(taken.totals),
        Err(fault) => Err(fault),
    }
}
