//! The texts of a run: the replies, and beside these, on another thread, its journal with the imprint of it.
ghost use Rattle.std.specs.Prelude.{◌≡◌, ◌≤◌, IfErr, IfOk, length};
ghost use Rattle.seat_desk.specs.FlightsDesk.{IsText};
ghost use Rattle.seat_journal.specs.Text.{journal_text};
ghost use Rattle.seat_replies.specs.Answering.{AreAllAnswerable};
ghost use Rattle.seat_replies.specs.Going.{behind};
ghost use Rattle.seat_replies.specs.RunDesk.{AreSessions};
ghost use Rattle.seat_seal.specs.Fronts.{front_of};
ghost use Rattle.seat_seal.specs.Imprints.{imprint_of};

use crate::front_text::front_text;
use crate::replies::replies;
use airimp_lines::Requests;
use seat_desk::DeskFault;
use seat_host::AllReceipts;
use seat_journal::Entry;
use seat_recovery::end_line;
use seat_replies::Past;
use seat_seal::Imprint;
use seat_sealing::ends_are_last;
use ssim_flights::Flights;
use std::alloc::{AllocError, Global};
use std::thread::{Threads, join};

/// The text of a journal, the imprint of its head and entries, and the replies.
#[derive(Drop)]
pub(crate) struct Texts {
    pub text: Vec<u8>,
    pub imprint: Imprint,
    pub replies: Vec<u8>,
}

/// Words the replies on a thread of their own, where one can be had, and beside that the journal, of which it takes the imprint.
pub(crate) fn word_beside<X: Threads>(
    rt: &X,
    alloc: Global,
    flights: &Flights,
    past: &Past,
    scripts: &[Requests],
    journal: &[Entry],
    receipts: &AllReceipts<'_>,
) -> Result<Texts, DeskFault>
    requires few { length receipts.now ≤ 9 }
    requires lines { AreAllAnswerable flights.now scripts.now journal.now (behind past.now.calls receipts.now) }
    ensures text { IfOk result (λ t. t.text.items ≡ journal_text journal.now) }
    ensures imprint { IfOk result (λ t. t.imprint ≡ imprint_of (front_of t.text.items)) }
    ensures replies { IfOk result (λ t. IsText (AreSessions flights.now scripts.now journal.now) 0
        (behind past.now.calls receipts.now) t.replies.items) }
    ensures memory { IfErr result (λ f. f ≡ DeskFault.Memory) }
{
    let there = || -> Result<Vec<u8>, AllocError>
        requires { (length receipts.now ≤ 9)
            × AreAllAnswerable flights.now scripts.now journal.now (behind past.now.calls receipts.now) }
        ensures { IfOk result (λ text. IsText (AreSessions flights.entry.now scripts.entry.now journal.entry.now) 0
            (behind past.entry.now.calls receipts.entry.now) text.items) }
    { replies(alloc, flights, past, scripts, journal, receipts) };
    let here = || -> Result<(Vec<u8>, Imprint), DeskFault>
        ensures text { IfOk result (λ w. w.0.items ≡ journal_text journal.entry.now) }
        ensures imprint { IfOk result (λ w. w.1 ≡ imprint_of (front_of w.0.items)) }
        ensures memory { IfErr result (λ f. f ≡ DeskFault.Memory) }
    { word(rt, alloc, journal) };
    let (replies, worded) = join(rt, there, here);
    let (text, imprint) = worded?;
    match replies {
        Ok(replies) => Ok(Texts {
            text,
            imprint,
            replies,
        }),
        Err(_) => Err(DeskFault::Memory),
    }
}

/// The text of a journal, and the imprint of its head and its lines.
#[tactic(auto, unfolding(seat_journal::specs::Text::journal_text))]
fn word<X: Threads>(
    rt: &X,
    alloc: Global,
    journal: &[Entry],
) -> Result<(Vec<u8>, Imprint), DeskFault>
    ensures text { IfOk result (λ w. w.0.items ≡ journal_text journal.now) }
    ensures imprint { IfOk result (λ w. w.1 ≡ imprint_of (front_of w.0.items)) }
    ensures memory { IfErr result (λ f. f ≡ DeskFault.Memory) }
{
    ends_are_last();
    let Ok((mut text, imprint)) = front_text(rt, alloc, journal) else {
        return Err(DeskFault::Memory);
    };
    let Ok(()) = text.extend_from_slice(end_line(journal.len()).as_slice()) else {
        return Err(DeskFault::Memory);
    };
    Ok((text, imprint))
}
