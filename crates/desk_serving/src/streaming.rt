//! A feed, from its first line to the end of what it is read from.
ghost use Rattle.std.specs.Prelude.{◌≡◌, ◌≤◌, ℕ, [], IfErr, IfOk, IfSome, OnOk};
ghost use Rattle.airline_base.specs.Noting.{noted};
ghost use Rattle.desk_answers.specs.Hosts.{IsReady};
ghost use Rattle.desk_serving.specs.Daily.{IsOnDay, IsSealedOn, StaysNamed};
ghost use Rattle.desk_serving.specs.Going.{GoesOn};
ghost use Rattle.desk_serving.specs.Streaming.{later_day, stopped_by, Breaks, IsBrokenOff, IsBrokenPiece, IsBrokenTurn, IsNoEarlierDay, IsPiece, IsStrangeEnd, IsStreamed, Lived, Turns};
ghost use Rattle.desk_serving.specs.declared.fault.StreamFault.TheVariants.{Dating, Input, Output, Strange};
ghost use Rattle.seat_desk.specs.Desk.{HasFailed};
ghost use Rattle.seat_desk.specs.declared.fault.DeskFault.TheVariants.{Device as NoSeal};

use crate::fault::StreamFault;
use crate::feed_counting::{begun, count};
use crate::feed_telling::answer_heard;
use crate::piece::{HeldLine, hear_piece};
use airline_base::{Day, NotedRead, NotedWrite};
use desk_status::Board;
use desk_stream::{Feed, FeedFault};
use seat_disk::{Replaced, Tape};
use seat_seal::Sealed;
use std::alloc::Global;
use std::sync::Wait;

// The most that one read takes.
const PIECE: usize = 16384;

/// Hears a feed's lines to the end of what it is read from, piece by piece, and answers each piece before it reads the next: what the host has come
/// to is then on the board. A rest without its end is no line.
#[tactic(auto, using(crate::proofs::Goes::goes_same, crate::proofs::Goes::goes_further, crate::proofs::Daily::sealed_same, crate::proofs::Daily::sealed_further, crate::proofs::Daily::stays_behind, crate::proofs::Daily::stays_on, crate::proofs::Daily::on_day_of, crate::proofs::Breaking::breaks_behind, crate::proofs::Hearing::lived_none, crate::proofs::Hearing::lived_on, crate::proofs::Streamed::reads_none, crate::proofs::Streamed::reads_on, crate::proofs::Streamed::streamed, crate::proofs::Streamed::strange_behind, crate::proofs::Written::broken_off, crate::proofs::Days::same_day, crate::proofs::Days::day_stays, crate::proofs::Days::day_behind, crate::proofs::Days::since_behind, crate::proofs::Days::dating_behind, crate::proofs::Tallied::counts_front))]
pub(crate) fn stream<R: Wait, I: NotedRead, W: NotedWrite, D: Tape, K: Replaced>(
    rt: &R,
    alloc: Global,
    feed: &mut Feed<'_, D>,
    day: &mut Day,
    entry: &mut Sealed,
    seals: &mut K,
    board: &Board,
    input: &mut I,
    out: &mut W,
) -> Result<(), StreamFault>
    requires ready { IsReady D.seen D.may_leave D.unsynced feed.old.serving }
    requires dated { IsOnDay day.old entry.old (K.may_leave seals.old) }
    requires none { feed.old.pending.asked.items ≡ [] }
    requires since { IfSome feed.old.reading.today (λ it. it ≤ day.old) }
    ensures streamed { OnOk result (IfSome (I.remaining input.old)
        (IsStreamed feed.old feed.new (W.contents out.old) (W.contents out.new))) }
    ensures none { OnOk result (feed.new.pending.asked.items ≡ []) }
    ensures lived { OnOk result (Lived feed.old feed.new) }
    ensures goes { OnOk result (GoesOn D.seen D.may_leave D.unsynced D.failure_count feed.old.serving feed.new.serving) }
    ensures breaks { IfErr result (Breaks D.seen D.may_leave D.unsynced D.failure_count feed.old.serving feed.new.serving) }
    ensures sealed { OnOk result (IsSealedOn K.named K.may_leave K.kept_may_leave K.failure_count day.new entry.old entry.new seals.old seals.new) }
    ensures day { OnOk result (day.new ≡ later_day day.old feed.new.reading.today) }
    ensures stays { StaysNamed K.may_leave K.kept_may_leave entry.old seals.old seals.new }
    ensures strange { IfErr result (λ f. (a b : ℕ) → f ≡ Strange a b → IsStrangeEnd feed.old feed.new a b) }
    ensures broken { IfErr result (λ f. IsBrokenOff feed.old feed.new [] f (I.remaining input.old) (W.contents out.old) (W.contents out.new)) }
    ensures input { IfErr result (λ f. f ≡ Input → I.failure_count input.new ≡ noted (I.failure_count input.old)) }
    ensures output { IfErr result (λ f. f ≡ Output → W.failure_count out.new ≡ noted (W.failure_count out.old)) }
    ensures dating { IfErr result (λ f. f ≡ Dating NoSeal → HasFailed K.failure_count seals.old seals.new) }
{
    let mut line = HeldLine::new();
    let mut piece = [0u8; PIECE];
    let mut tally = begun(feed, board);
    board.show(rt, tally);
    for _ in rt.forever() {
        match turn(
            rt, alloc, feed, &mut line, &mut piece, day, entry, seals, input, out,
        ) {
            Ok(true) => count(rt, feed, board, &mut tally),
            Ok(false) => return Ok(()),
            Err(fault) => return Err(fault),
        }
    }
    unreachable!()
}

// Reads once, and answers what came. Whether more may come.
#[tactic(auto, using(crate::proofs::Goes::goes_same, crate::proofs::Daily::sealed_same, crate::proofs::Daily::stays_same, crate::proofs::Breaking::breaks_input, crate::proofs::Breaking::never_input, crate::proofs::Hearing::lived_none, crate::proofs::Streamed::takes, crate::proofs::Streamed::takes_none, crate::proofs::Streamed::no_input, crate::proofs::Written::broken_piece, crate::proofs::Written::broken_input, crate::proofs::Days::same_day, crate::proofs::Days::day_stays))]
fn turn<R: Wait, I: NotedRead, W: NotedWrite, D: Tape, K: Replaced>(
    rt: &R,
    alloc: Global,
    feed: &mut Feed<'_, D>,
    line: &mut HeldLine,
    piece: &mut [u8; PIECE],
    day: &mut Day,
    entry: &mut Sealed,
    seals: &mut K,
    input: &mut I,
    out: &mut W,
) -> Result<bool, StreamFault>
    requires ready { IsReady D.seen D.may_leave D.unsynced feed.old.serving }
    requires dated { IsOnDay day.old entry.old (K.may_leave seals.old) }
    requires none { feed.old.pending.asked.items ≡ [] }
    requires since { IfSome feed.old.reading.today (λ it. it ≤ day.old) }
    ensures turns { IfOk result (λ more. Turns more feed.old line.old.items feed.new line.new.items (I.remaining input.old)
        (I.remaining input.new) (W.contents out.old) (W.contents out.new)) }
    ensures none { OnOk result (feed.new.pending.asked.items ≡ []) }
    ensures lived { OnOk result (Lived feed.old feed.new) }
    ensures goes { OnOk result (GoesOn D.seen D.may_leave D.unsynced D.failure_count feed.old.serving feed.new.serving) }
    ensures breaks { IfErr result (Breaks D.seen D.may_leave D.unsynced D.failure_count feed.old.serving feed.new.serving) }
    ensures sealed { OnOk result (IsSealedOn K.named K.may_leave K.kept_may_leave K.failure_count day.new entry.old entry.new seals.old seals.new) }
    ensures day { OnOk result (day.new ≡ later_day day.old feed.new.reading.today) }
    ensures days { OnOk result (IsNoEarlierDay feed.old.reading.today feed.new.reading.today) }
    ensures counted { OnOk result ((I.failure_count input.new ≡ I.failure_count input.old) × (W.failure_count out.new ≡ W.failure_count out.old)) }
    ensures stays { StaysNamed K.may_leave K.kept_may_leave entry.old seals.old seals.new }
    ensures strange { IfErr result (λ f. (a b : ℕ) → f ≡ Strange a b → IsStrangeEnd feed.old feed.new a b) }
    ensures broken { IfErr result (λ f. IsBrokenTurn feed.old feed.new line.old.items f (I.remaining input.old) (W.contents out.old) (W.contents out.new)) }
    ensures input { IfErr result (λ f. f ≡ Input → I.failure_count input.new ≡ noted (I.failure_count input.old)) }
    ensures output { IfErr result (λ f. f ≡ Output → W.failure_count out.new ≡ noted (W.failure_count out.old)) }
    ensures dating { IfErr result (λ f. f ≡ Dating NoSeal → HasFailed K.failure_count seals.old seals.new) }
{
    match input.read_noted(piece) {
        Ok(0) => Ok(false),
        Ok(n) => match answer_piece(rt, alloc, feed, line, &piece[..n], day, entry, seals, out) {
            Ok(()) => Ok(true),
            Err(fault) => Err(fault),
        },
        Err(_) => Err(StreamFault::Input),
    }
}

// Hears a piece and answers it; ahead of a line that is none of the journal's feed, or for which memory is wanting, as far as it was heard.
#[tactic(auto, using(crate::proofs::Daily::stays_on, crate::proofs::Hearing::lived_on, crate::proofs::Streamed::ready_heard, crate::proofs::Streamed::goes_heard, crate::proofs::Streamed::breaks_from, crate::proofs::Streamed::is_piece, crate::proofs::Streamed::none_asked, crate::proofs::Streamed::strange_end, crate::proofs::Streamed::no_strange, crate::proofs::Streamed::breaks_stopped, crate::proofs::Breaking::no_input_of, crate::proofs::Breaking::no_input_stopped, crate::proofs::Breaking::no_output_stopped, crate::proofs::Breaking::no_dating_stopped, crate::proofs::Days::day_answered, crate::proofs::Days::days_answered, crate::proofs::Written::piece_unanswered, crate::proofs::Written::front_unanswered, crate::proofs::Written::front_answered))]
fn answer_piece<R: Wait, W: NotedWrite, D: Tape, K: Replaced>(
    rt: &R,
    alloc: Global,
    feed: &mut Feed<'_, D>,
    line: &mut HeldLine,
    piece: &[u8],
    day: &mut Day,
    entry: &mut Sealed,
    seals: &mut K,
    out: &mut W,
) -> Result<(), StreamFault>
    requires ready { IsReady D.seen D.may_leave D.unsynced feed.old.serving }
    requires dated { IsOnDay day.old entry.old (K.may_leave seals.old) }
    ensures piece { OnOk result (IsPiece feed.old line.old.items piece.now feed.new line.new.items (W.contents out.old) (W.contents out.new)) }
    ensures none { OnOk result (feed.new.pending.asked.items ≡ []) }
    ensures lived { OnOk result (Lived feed.old feed.new) }
    ensures goes { OnOk result (GoesOn D.seen D.may_leave D.unsynced D.failure_count feed.old.serving feed.new.serving) }
    ensures breaks { IfErr result (Breaks D.seen D.may_leave D.unsynced D.failure_count feed.old.serving feed.new.serving) }
    ensures sealed { OnOk result (IsSealedOn K.named K.may_leave K.kept_may_leave K.failure_count day.new entry.old entry.new seals.old seals.new) }
    ensures day { OnOk result (day.new ≡ later_day day.old feed.new.reading.today) }
    ensures days { OnOk result (IsNoEarlierDay feed.old.reading.today feed.new.reading.today) }
    ensures counted { OnOk result (W.failure_count out.new ≡ W.failure_count out.old) }
    ensures stays { StaysNamed K.may_leave K.kept_may_leave entry.old seals.old seals.new }
    ensures strange { IfErr result (λ f. (a b : ℕ) → f ≡ Strange a b → IsStrangeEnd feed.old feed.new a b) }
    ensures broken { IfErr result (λ f. IsBrokenPiece feed.old feed.new line.old.items f piece.now (W.contents out.old) (W.contents out.new)) }
    ensures input { IfErr result (λ f. f ≡ Input → ⊥) }
    ensures output { IfErr result (λ f. f ≡ Output → W.failure_count out.new ≡ noted (W.failure_count out.old)) }
    ensures dating { IfErr result (λ f. f ≡ Dating NoSeal → HasFailed K.failure_count seals.old seals.new) }
{
    match hear_piece(alloc, feed, line, piece) {
        Ok(()) => match answer_heard(rt, alloc, feed, day, entry, seals, out) {
            Ok(()) => Ok(()),
            Err(fault) => Err(fault),
        },
        Err(heard) => match answer_heard(rt, alloc, feed, day, entry, seals, out) {
            Ok(()) => Err(stopped(feed, heard)),
            Err(fault) => Err(fault),
        },
    }
}

// Why the feed is not heard any more.
fn stopped<D: Tape>(feed: &Feed<'_, D>, fault: FeedFault) -> StreamFault
    ensures { result ≡ stopped_by feed.now fault }
{
    match fault {
        FeedFault::Memory => StreamFault::Memory,
        FeedFault::Strange => StreamFault::Strange(feed.lines(), feed.come().saturating_add(1)),
    }
}
