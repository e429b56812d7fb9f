//! What a host closes by itself behind a day of the manager's: each leg that departed before it.
//! It knows a hall, how what was heard is answered, and the manager's outbox, and nothing of lines, of pipes or of the seal.
ghost use Rattle.std.specs.Prelude.{◌≡◌, ◌&&◌, [], IfErr, IfOk, OnErr, OnOk};
ghost use Rattle.desk_answers.specs.Hosts.{IsReady};
ghost use Rattle.desk_hall.specs.Departed.{closings, is_day_given, AreOnLegs};
ghost use Rattle.desk_hall.specs.Halls.{IsSameHost};
ghost use Rattle.desk_serving.specs.Daily.{IsOnDay};
ghost use Rattle.desk_serving.specs.Going.{Fails, GoesOn};
ghost use Rattle.desk_serving.specs.Groups.{AreFirstSet, AreSet, IsClosedIf, IsClosing, IsWordClosed};

use crate::closing::Closing;
use crate::notice::unclosed;
use crate::telling::{answer_heard, answer_word};
use airline_base::Memory;
use desk_hall::Hall;
use desk_pipes::Post;
use seat_disk::{Replaced, Tape};
use seat_journal::Control;
use seat_seal::Sealed;
use seat_serving::ServeFault;
use std::alloc::Global;
use std::sync::Wait;

/// Answers a word to the host. Behind a day that the manager gives each leg that departed before the day of the host and has a class open still is closed,
/// and answered, by a host that closes what departed.
#[tactic(auto, using(crate::proofs::Goes::ready_as, crate::proofs::Goes::goes_further, crate::proofs::Goes::fails_behind, crate::proofs::Daily::day_as, crate::proofs::Closings::none_asked, crate::proofs::Closings::word_closed))]
pub(crate) fn answer_closing<R: Wait, D: Tape, K: Replaced>(
    rt: &R,
    alloc: Global,
    hall: &mut Hall<'_, D>,
    post: &Post,
    closes: bool,
    entry: &Sealed,
    seals: &K,
) -> Result<(), ServeFault>
    requires ready { IsReady D.seen D.may_leave D.unsynced hall.old.serving }
    requires dated { IsOnDay hall.old.today entry.now (K.may_leave seals.now) }
    ensures answered { OnOk result (IsWordClosed closes hall.old hall.new) }
    ensures goes { OnOk result (GoesOn D.seen D.may_leave D.unsynced D.failure_count hall.old.serving hall.new.serving) }
    ensures fails { IfErr result (Fails D.seen D.may_leave D.unsynced D.failure_count hall.old.serving hall.new.serving) }
    ensures day { hall.new.today ≡ hall.old.today }
{
    let is_to_close = is_to_close(closes, hall);
    if let Err(fault) = answer_word(rt, alloc, hall, post, entry, seals) {
        return Err(fault);
    }
    match close_if(rt, alloc, hall, post, is_to_close, entry, seals) {
        Ok(()) => Ok(()),
        Err(fault) => Err(fault),
    }
}

// Whether a day was given to a host that closes what departed.
fn is_to_close<D: Tape>(closes: bool, hall: &Hall<'_, D>) -> bool
    ensures { result ≡ (closes && is_day_given hall.now.turns) }
{
    closes && hall.is_day_given()
}

#[tactic(auto, using(crate::proofs::Goes::goes_same, crate::proofs::Closings::closed_not, crate::proofs::Closings::closed_so))]
fn close_if<R: Wait, D: Tape, K: Replaced>(
    rt: &R,
    alloc: Global,
    hall: &mut Hall<'_, D>,
    post: &Post,
    is_to_close: bool,
    entry: &Sealed,
    seals: &K,
) -> Result<(), ServeFault>
    requires ready { IsReady D.seen D.may_leave D.unsynced hall.old.serving }
    requires none { hall.old.asked ≡ [] }
    requires dated { IsOnDay hall.old.today entry.now (K.may_leave seals.now) }
    ensures closed { OnOk result (IsClosedIf is_to_close hall.old hall.new) }
    ensures goes { OnOk result (GoesOn D.seen D.may_leave D.unsynced D.failure_count hall.old.serving hall.new.serving) }
    ensures fails { IfErr result (Fails D.seen D.may_leave D.unsynced D.failure_count hall.old.serving hall.new.serving) }
    ensures day { hall.new.today ≡ hall.old.today }
{
    if !is_to_close {
        return Ok(());
    }
    match close_departed(rt, alloc, hall, post, entry, seals) {
        Ok(_closing) => Ok(()),
        Err(fault) => Err(fault),
    }
}

// Closes what departed, and answers it. Where memory is wanting for some of it the manager is told that it is not all, behind the answers to what is closed.
#[tactic(auto, using(crate::proofs::Goes::ready_as, crate::proofs::Goes::goes_from, crate::proofs::Goes::fails_from, crate::proofs::Daily::day_as, crate::proofs::Closings::closed_whole, crate::proofs::Closings::closed_wanting))]
fn close_departed<R: Wait, D: Tape, K: Replaced>(
    rt: &R,
    alloc: Global,
    hall: &mut Hall<'_, D>,
    post: &Post,
    entry: &Sealed,
    seals: &K,
) -> Result<Closing, ServeFault>
    requires ready { IsReady D.seen D.may_leave D.unsynced hall.old.serving }
    requires none { hall.old.asked ≡ [] }
    requires dated { IsOnDay hall.old.today entry.now (K.may_leave seals.now) }
    ensures closed { IfOk result (IsClosing hall.old hall.new) }
    ensures goes { OnOk result (GoesOn D.seen D.may_leave D.unsynced D.failure_count hall.old.serving hall.new.serving) }
    ensures fails { IfErr result (Fails D.seen D.may_leave D.unsynced D.failure_count hall.old.serving hall.new.serving) }
    ensures day { hall.new.today ≡ hall.old.today }
{
    let set = set_departed(alloc, hall);
    if let Err(fault) = answer_heard(rt, alloc, hall, post, entry, seals) {
        return Err(fault);
    }
    match set {
        Ok(()) => Ok(Closing::Whole),
        Err(_) => Ok(Closing::Wanting(post.deliver(rt, unclosed()))),
    }
}

// Sets a closing for each leg that departed, or, where memory is wanting, for the first ones.
#[tactic(auto, using(crate::proofs::Closings::none_first, crate::proofs::Closings::same_not, crate::proofs::Closings::first_as, crate::proofs::Closings::set_as))]
fn set_departed<D: Tape>(alloc: Global, hall: &mut Hall<'_, D>) -> Result<(), Memory>
    ensures whole { OnOk result (AreSet hall.old (closings hall.old) hall.new) }
    ensures memory { OnErr result (AreFirstSet hall.old (closings hall.old) hall.new) }
    ensures same { IsSameHost hall.old hall.new }
{
    let Ok(controls) = hall.closings(alloc) else {
        return Err(Memory);
    };
    match set_each(hall, controls.as_slice()) {
        Ok(()) => Ok(()),
        Err(_) => Err(Memory),
    }
}

// Sets these one by one, up to the first for which memory is wanting.
#[tactic(auto, using(crate::proofs::Closings::none_set, crate::proofs::Closings::set_more, crate::proofs::Closings::set_up_to, crate::proofs::Closings::set_all, crate::proofs::Closings::same_not, crate::proofs::Closings::same_more, crate::proofs::Closings::still_on))]
fn set_each<D: Tape>(hall: &mut Hall<'_, D>, controls: &[Control]) -> Result<(), Memory>
    requires on { AreOnLegs hall.old.flights controls.now }
    ensures whole { OnOk result (AreSet hall.old controls.now hall.new) }
    ensures memory { OnErr result (AreFirstSet hall.old controls.now hall.new) }
    ensures same { IsSameHost hall.old hall.new }
{
    for control in controls {
        if hall.set(*control).is_err() {
            return Err(Memory);
        }
    }
    Ok(())
}
