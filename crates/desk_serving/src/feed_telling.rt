//! What a piece of a feed is answered: its days are sealed, what it asks for is booked, and what is told of it is written.
ghost use Rattle.std.specs.Prelude.{◌≡◌, ◌≤◌, IfErr, IfSome, OnErr, OnOk};
ghost use Rattle.airline_base.specs.Noting.{noted, TookFront};
ghost use Rattle.desk_answers.specs.Hosts.{IsReady};
ghost use Rattle.desk_serving.specs.Daily.{IsOnDay, IsSealedOn, StaysNamed};
ghost use Rattle.desk_serving.specs.Going.{Fails, GoesOn};
ghost use Rattle.desk_serving.specs.Streaming.{broken_by, later_day, no_file_line, Breaks, EndsBooked, EndsIn, EndsTold, IsAnswered, IsBooked, IsOfAnswer, IsOfFile, IsOfTelling, IsToldTo, Lived, Says};
ghost use Rattle.desk_serving.specs.declared.fault.StreamFault.TheVariants.{Dating, Output};
ghost use Rattle.desk_talk.specs.Talks.{IsWritten};
ghost use Rattle.seat_desk.specs.Desk.{HasFailed};
ghost use Rattle.seat_desk.specs.declared.fault.DeskFault.TheVariants.{Device as NoSeal};

use crate::fault::StreamFault;
use crate::feeding_day::keep_later;
use airline_base::{Day, NotedWrite, put_all};
use desk_stream::Feed;
use seat_disk::{Replaced, Tape};
use seat_seal::Sealed;
use seat_serving::ServeFault;
use std::alloc::Global;
use std::sync::Wait;

/// Answers what was heard. A later day is in the seal, on its disk, before anything is told under it.
#[tactic(auto, using(crate::proofs::Daily::stays_on, crate::proofs::Daily::on_day_of, crate::proofs::Answering::is_answered, crate::proofs::Answering::lived_answered, crate::proofs::Goes::goes_as, crate::proofs::Answering::since_booked, crate::proofs::Breaking::breaks_sealed, crate::proofs::Breaking::breaks_booked, crate::proofs::Breaking::breaks_told, crate::proofs::Breaking::of_booking, crate::proofs::Breaking::of_telling, crate::proofs::Breaking::no_output, crate::proofs::Breaking::dating_failed, crate::proofs::Breaking::no_dating, crate::proofs::Breaking::told_undated, crate::proofs::Breaking::said_told, crate::proofs::Breaking::said_booked, crate::proofs::Written::ends_told, crate::proofs::Written::ends_booked, crate::proofs::Written::ends_undated))]
pub(crate) fn answer_heard<R: Wait, W: NotedWrite, D: Tape, K: Replaced>(
    rt: &R,
    alloc: Global,
    feed: &mut Feed<'_, D>,
    day: &mut Day,
    entry: &mut Sealed,
    seals: &mut K,
    out: &mut W,
) -> Result<(), StreamFault>
    requires ready { IsReady D.seen D.may_leave D.unsynced feed.old.serving }
    requires dated { IsOnDay day.old entry.old (K.may_leave seals.old) }
    ensures answered { OnOk result (IsAnswered feed.old feed.new (W.contents out.old) (W.contents out.new)) }
    ensures lived { OnOk result (Lived feed.old feed.new) }
    ensures goes { OnOk result (GoesOn D.seen D.may_leave D.unsynced D.failure_count feed.old.serving feed.new.serving) }
    ensures breaks { IfErr result (Breaks D.seen D.may_leave D.unsynced D.failure_count feed.old.serving feed.new.serving) }
    ensures sealed { OnOk result (IsSealedOn K.named K.may_leave K.kept_may_leave K.failure_count day.new entry.old entry.new seals.old seals.new) }
    ensures stays { StaysNamed K.may_leave K.kept_may_leave entry.old seals.old seals.new }
    ensures counted { OnOk result (W.failure_count out.new ≡ W.failure_count out.old) }
    ensures output { IfErr result (λ f. f ≡ Output → W.failure_count out.new ≡ noted (W.failure_count out.old)) }
    ensures dating { IfErr result (λ f. f ≡ Dating NoSeal → HasFailed K.failure_count seals.old seals.new) }
    ensures ends { IfErr result (λ f. EndsIn f feed.old feed.new (W.contents out.old) (W.contents out.new)) }
    ensures day { OnOk result (day.new ≡ later_day day.old feed.old.reading.today) }
    ensures kind { IfErr result IsOfAnswer }
    ensures said { IfErr result (λ f. IsOfFile f → IsWritten W.failure_count W.contents no_file_line out.old out.new) }
{
    if let Err(fault) = keep_later(day, feed.today(), entry, seals) {
        say_no_file(out);
        return Err(StreamFault::Dating(fault));
    }
    if let Err(fault) = book_heard(rt, alloc, feed) {
        return Err(unbooked(out, fault));
    }
    match tell_heard(alloc, feed, *day, entry, seals, out) {
        Ok(()) => Ok(()),
        Err(fault) => Err(fault),
    }
}

// Books what was heard.
#[tactic(auto, using(crate::proofs::Answering::is_booked, crate::proofs::Answering::goes_booked, crate::proofs::Breaking::fails_booked, crate::proofs::Written::ends_unbooked))]
fn book_heard<R: Wait, D: Tape>(
    rt: &R,
    alloc: Global,
    feed: &mut Feed<'_, D>,
) -> Result<(), ServeFault>
    requires ready { IsReady D.seen D.may_leave D.unsynced feed.old.serving }
    ensures booked { OnOk result (IsBooked feed.old feed.new) }
    ensures goes { OnOk result (GoesOn D.seen D.may_leave D.unsynced D.failure_count feed.old.serving feed.new.serving) }
    ensures fails { IfErr result (Fails D.seen D.may_leave D.unsynced D.failure_count feed.old.serving feed.new.serving) }
    ensures ends { IfErr result (λ f. EndsBooked f feed.old feed.new) }
{
    match feed.answer(rt, alloc) {
        Ok(()) => Ok(()),
        Err(fault) => Err(fault),
    }
}

// Writes what is told of it.
#[tactic(auto, using(crate::proofs::Answering::is_told_to, crate::proofs::Answering::same_serving, crate::proofs::Answering::told_serving, crate::proofs::Written::took_front))]
fn tell_heard<W: NotedWrite, D: Tape, K: Replaced>(
    alloc: Global,
    feed: &mut Feed<'_, D>,
    day: Day,
    entry: &Sealed,
    seals: &K,
    out: &mut W,
) -> Result<(), StreamFault>
    requires dated { IsOnDay day entry.now (K.may_leave seals.now) }
    requires since { IfSome feed.old.reading.today (λ it. it ≤ day) }
    ensures told { OnOk result (IsToldTo feed.old feed.new (W.contents out.old) (W.contents out.new)) }
    ensures same { feed.new.serving ≡ feed.old.serving }
    ensures untold { OnErr result (feed.new ≡ feed.old) }
    ensures counted { OnOk result (W.failure_count out.new ≡ W.failure_count out.old) }
    ensures output { IfErr result (λ f. f ≡ Output → W.failure_count out.new ≡ noted (W.failure_count out.old)) }
    ensures ends { IfErr result (λ f. EndsTold f feed.old (W.contents out.old) (W.contents out.new)) }
    ensures kind { IfErr result IsOfTelling }
{
    let Ok(text) = feed.told(alloc) else {
        return Err(StreamFault::Memory);
    };
    let Ok(()) = put_all(out, text.as_slice()) else {
        return Err(StreamFault::Output);
    };
    feed.end_turns();
    Ok(())
}

// Why nothing more is booked.
fn unbooked<W: NotedWrite>(out: &mut W, fault: ServeFault) -> StreamFault
    ensures value { result ≡ broken_by fault }
    ensures says { Says fault (W.contents out.old) (W.contents out.new) }
    ensures said { fault ≡ ServeFault.Device → IsWritten W.failure_count W.contents no_file_line out.old out.new }
{
    match fault {
        ServeFault::Memory => StreamFault::Memory,
        ServeFault::Device => {
            say_no_file(out);
            StreamFault::Journal
        }
    }
}

// Says to whoever reads that a file failed, as far as that can be written.
#[tactic(auto, using(desk_talk::proofs::Broken::took_all, desk_talk::proofs::Broken::written_whole, desk_talk::proofs::Broken::not_written))]
fn say_no_file<W: NotedWrite>(out: &mut W)
    ensures front { TookFront (W.contents out.old) (W.contents out.new) no_file_line }
    ensures said { IsWritten W.failure_count W.contents no_file_line out.old out.new }
{
    match put_all(out, b"- FAULT - DEVICE\n") {
        Ok(()) => (),
        Err(_) => (),
    }
}
