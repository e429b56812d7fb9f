//! The lines of an older journal.
//! It knows nothing of what they are compared with.
ghost use Rattle.std.specs.Prelude.{◌≡◌, ◌<◌, IfErr, IfOk, IfSome, length};
ghost use Rattle.seat_desk.specs.AuditDesk.{most_journal_bytes};
ghost use Rattle.seat_desk.specs.Desk.{HasFailed, IsOfInput};
ghost use Rattle.pickup_questions.specs.OlderText.{IsOlderText, IsRefusedOlder};

use airline_base::NotedRead;
use seat_desk::{DeskFault, MOST_JOURNAL_BYTES, read_input};
use seat_journal::Entries;
use seat_reading::read_journal_in_pieces;
use std::alloc::Global;
use std::thread::Threads;

/// The lines of a journal of at most 256 MiB. They are read, on all processors where there are many, and not replayed: a journal that begins with
/// them, line by line, is legal only where they are.
#[tactic(auto, using(crate::proofs::OlderTexts::older_read, crate::proofs::OlderTexts::older_refused))]
pub fn read_older<R: Threads + Sync, J: NotedRead>(
    rt: &R,
    alloc: Global,
    journal: &mut J,
) -> Result<Entries, DeskFault>
    ensures ok { IfOk result (λ older. IfSome (J.remaining journal.old) (λ bytes. IsOlderText bytes older)) }
    ensures fault { IfErr result (λ f. IsOfInput f → IfSome (J.remaining journal.old) (λ bytes. IsRefusedOlder bytes f)) }
    ensures large { IfErr result (λ f. f ≡ DeskFault.TooLarge
        → IfSome (J.remaining journal.old) (λ bytes. most_journal_bytes < length bytes)) }
    ensures device { IfErr result (λ f. f ≡ DeskFault.Device → HasFailed J.failure_count journal.old journal.new) }
{
    let bytes = match read_input(alloc, journal, MOST_JOURNAL_BYTES) {
        Ok(bytes) => bytes,
        Err(fault) => return Err(fault),
    };
    match read_journal_in_pieces(rt, alloc, &bytes) {
        Ok(older) => Ok(older),
        Err(fault) => Err(DeskFault::of_journal(fault)),
    }
}
