//! What a run goes on from: the inventory of an older journal, and what the texts of the run need to know of it.
ghost use Rattle.std.specs.Prelude.{◌≡◌, ◌<◌, ◌≤◌, IfErr, IfOk, IfSome, OnOk, length};
ghost use Rattle.seat_rules.specs.Journal.{IsLegal};
ghost use Rattle.seat_desk.specs.AuditDesk.{most_journal_bytes, most_lines};
ghost use Rattle.seat_desk.specs.Desk.{HasFailed, IsOfInput};
ghost use Rattle.seat_scripts.specs.Against.{IsReplayWithin};
ghost use Rattle.seat_scripts.specs.Beside.{IsFaultless, IsRefusedBeside};
ghost use Rattle.seat_replies.specs.Going.{IsPast, highest_to, past_of};
ghost use Rattle.seat_seal.specs.Known.{IsKnown};

use airline_base::NotedRead;
use seat_core::Core;
use seat_desk::{DeskFault, MOST_JOURNAL_BYTES, agreed, read_input, replayed_in_parts};
use seat_nesting::Grid;
use seat_replies::Past;
use seat_seal::{Basis, Beside, Sealed, known_of};
use std::alloc::Global;
use std::thread::Threads;

/// The inventory of a journal, and what the seal beside it knows of it.
#[derive(Drop)]
pub(crate) struct Known {
    pub past: Core,
    pub last: Option<Sealed>,
}

/// The inventory that a journal comes to over these limits, replayed on all processors, where what stands beside it has no fault on this basis.
#[tactic(auto, using(crate::proofs::Seals::read_last, crate::proofs::Seals::read_faultless, crate::proofs::Seals::read_unsealed, crate::proofs::Seals::read_unlawful))]
pub(crate) fn replayed_beside<R: Threads + Sync, J: NotedRead>(
    rt: &R,
    alloc: Global,
    grid: Grid,
    journal: &mut J,
    beside: &Beside<'_>,
    basis: &Basis,
) -> Result<Known, DeskFault>
    ensures ok { IfOk result (λ k. IfSome (J.remaining journal.old) (IsReplayWithin grid k.past)) }
    ensures past { IfOk result (λ k. IfSome (J.remaining journal.old) (IsPast grid k.past.journal)) }
    ensures sealed { OnOk result (IfSome (J.remaining journal.old) (IsFaultless beside.now basis.now)) }
    ensures last { IfOk result (λ k. IfSome (J.remaining journal.old) (λ bytes. IsKnown beside.now bytes k.last)) }
    ensures grid { IfOk result (λ k. k.past.grid ≡ grid) }
    ensures legal { IfOk result (λ k. IsLegal k.past.grid k.past.journal) }
    ensures cap { IfOk result (λ k. k.past.cap ≡ most_lines) }
    ensures few { IfOk result (λ k. length k.past.journal ≤ most_lines) }
    ensures fault { IfErr result (λ f. IsOfInput f
        → IfSome (J.remaining journal.old) (IsRefusedBeside beside.now basis.now grid f)) }
    ensures large { IfErr result (λ f. f ≡ DeskFault.TooLarge
        → IfSome (J.remaining journal.old) (λ bytes. most_journal_bytes < length bytes)) }
    ensures device { IfErr result (λ f. f ≡ DeskFault.Device → HasFailed J.failure_count journal.old journal.new) }
{
    let bytes = read_input(alloc, journal, MOST_JOURNAL_BYTES)?;
    if let Err(fault) = agreed(beside, basis, &bytes) {
        return Err(fault);
    }
    let last = known_of(beside, &bytes);
    match replayed_in_parts(rt, alloc, grid, bytes) {
        Ok(past) => Ok(Known { past, last }),
        Err(fault) => Err(fault),
    }
}

/// What the texts of a run need to know of the lines so far.
pub fn past_of(core: &Core) -> Past
    ensures { result ≡ past_of core.now.journal }
{
    Past {
        calls: [
            core.calls_of(0),
            core.calls_of(1),
            core.calls_of(2),
            core.calls_of(3),
            core.calls_of(4),
            core.calls_of(5),
            core.calls_of(6),
            core.calls_of(7),
            core.calls_of(8),
        ],
    }
}

/// The highest session that has a line, or 0.
#[tactic(auto, using(seat_replies::proofs::Going::highest_less, seat_replies::proofs::Going::highest_here))]
pub(crate) fn highest(core: &Core) -> u8
    ensures { result ≡ highest_to 8 core.now.journal }
{
    let mut session: u8 = 8;
    while session > 0 {
        if core.calls_of(session) > 0 {
            return session;
        }
        session -= 1;
    }
    0
}
