//! What was heard is booked, and each desk is told what concerns it.
//! It knows a hall, an outbox for each desk and what looks go by, and nothing of the lines that were heard.
ghost use Rattle.std.specs.Prelude.{◌≡◌, ◌++◌, ◌∷◌, [], None, IfErr, IfOk, OnOk, length};
ghost use Rattle.desk_answers.specs.Hosts.{IsReady};
ghost use Rattle.desk_serving.specs.Daily.{IsOnDay};
ghost use Rattle.desk_serving.specs.Going.{Fails, GoesOn};
ghost use Rattle.desk_hall.specs.Pieces.{backlog_of};
ghost use Rattle.desk_serving.specs.Groups.{AreTold, IsAnswered, IsBooked, IsCaughtUp, IsTold, IsToldOn, IsWordAnswered};

use crate::notice::{Notice, notice_of};
use crate::pieces::{give_rest, tell_pieces};
use airline_base::Memory;
use desk_hall::Hall;
use desk_pipes::{DeliveredEach, LooksGoBy, Post};
use seat_disk::{Replaced, Tape};
use seat_seal::Sealed;
use seat_serving::ServeFault;
use std::alloc::Global;
use std::sync::Wait;

/// Books what was heard, and tells each desk. Where memory is wanting, what has its line is told all the same.
#[tactic(auto, using(crate::proofs::Goes::goes_further, crate::proofs::Goes::fails_behind, crate::proofs::Goes::fails_as, crate::proofs::Goes::ready_wanting, crate::proofs::Daily::day_as, crate::proofs::Groups::answered))]
pub(crate) fn answer_heard<R: Wait, D: Tape, K: Replaced>(
    rt: &R,
    alloc: Global,
    hall: &mut Hall<'_, D>,
    post: &Post,
    entry: &Sealed,
    seals: &K,
) -> Result<(), ServeFault>
    requires ready { IsReady D.seen D.may_leave D.unsynced hall.old.serving }
    requires dated { IsOnDay hall.old.today entry.now (K.may_leave seals.now) }
    ensures answered { OnOk result (IsAnswered hall.old hall.new) }
    ensures goes { OnOk result (GoesOn D.seen D.may_leave D.unsynced D.failure_count hall.old.serving hall.new.serving) }
    ensures fails { IfErr result (Fails D.seen D.may_leave D.unsynced D.failure_count hall.old.serving hall.new.serving) }
    ensures day { hall.new.today ≡ hall.old.today }
{
    match book_heard(rt, alloc, hall) {
        Ok(()) => match tell_heard(rt, alloc, hall, post, entry, seals) {
            Ok(()) => Ok(()),
            Err(fault) => Err(fault),
        },
        Err(fault) => {
            if let ServeFault::Memory = fault {
                let _ = tell_all(rt, alloc, hall, post, entry, seals);
            }
            Err(fault)
        }
    }
}

/// Answers a word to the host. What a desk asks to be told again it is told piece by piece from then on.
#[tactic(auto, using(crate::proofs::Goes::ready_as, crate::proofs::Goes::goes_from, crate::proofs::Goes::fails_from, crate::proofs::Daily::day_as, crate::proofs::Groups::word_answered))]
pub(crate) fn answer_word<R: Wait, D: Tape, K: Replaced>(
    rt: &R,
    alloc: Global,
    hall: &mut Hall<'_, D>,
    post: &Post,
    entry: &Sealed,
    seals: &K,
) -> Result<(), ServeFault>
    requires ready { IsReady D.seen D.may_leave D.unsynced hall.old.serving }
    requires dated { IsOnDay hall.old.today entry.now (K.may_leave seals.now) }
    ensures answered { OnOk result (IsWordAnswered hall.old hall.new) }
    ensures goes { OnOk result (GoesOn D.seen D.may_leave D.unsynced D.failure_count hall.old.serving hall.new.serving) }
    ensures fails { IfErr result (Fails D.seen D.may_leave D.unsynced D.failure_count hall.old.serving hall.new.serving) }
    ensures day { hall.new.today ≡ hall.old.today }
{
    hall.open_backlog();
    match answer_heard(rt, alloc, hall, post, entry, seals) {
        Ok(()) => Ok(()),
        Err(fault) => Err(fault),
    }
}

/// Answers what was heard, and then tells a piece to each desk that is behind and has room for it.
#[tactic(auto, using(crate::proofs::Goes::goes_as, crate::proofs::Goes::fails_wanting, crate::proofs::Groups::told_on))]
pub(crate) fn answer_last<R: Wait, D: Tape, K: Replaced>(
    rt: &R,
    alloc: Global,
    hall: &mut Hall<'_, D>,
    post: &Post,
    entry: &Sealed,
    seals: &K,
) -> Result<(), ServeFault>
    requires ready { IsReady D.seen D.may_leave D.unsynced hall.old.serving }
    requires dated { IsOnDay hall.old.today entry.now (K.may_leave seals.now) }
    ensures answered { OnOk result (IsToldOn hall.old hall.new) }
    ensures goes { OnOk result (GoesOn D.seen D.may_leave D.unsynced D.failure_count hall.old.serving hall.new.serving) }
    ensures fails { IfErr result (Fails D.seen D.may_leave D.unsynced D.failure_count hall.old.serving hall.new.serving) }
    ensures day { hall.new.today ≡ hall.old.today }
{
    if let Err(fault) = answer_heard(rt, alloc, hall, post, entry, seals) {
        return Err(fault);
    }
    match tell_pieces(rt, alloc, hall, post) {
        Ok(()) => Ok(()),
        Err(_) => Err(ServeFault::Memory),
    }
}

/// Tells a desk that is behind all that it is still to be told, ahead of its next line.
#[tactic(auto, using(crate::proofs::Goes::goes_same, crate::proofs::Goes::goes_as, crate::proofs::Goes::fails_wanting, crate::proofs::Groups::not_behind, crate::proofs::Groups::nothing_to_catch, crate::proofs::Groups::taught_all))]
pub(crate) fn catch_up<R: Wait, D: Tape, K: Replaced>(
    rt: &R,
    alloc: Global,
    hall: &mut Hall<'_, D>,
    post: &Post,
    session: u8,
    entry: &Sealed,
    seals: &K,
) -> Result<(), ServeFault>
    requires ready { IsReady D.seen D.may_leave D.unsynced hall.old.serving }
    requires dated { IsOnDay hall.old.today entry.now (K.may_leave seals.now) }
    ensures caught { OnOk result (IsCaughtUp hall.old hall.new session) }
    ensures told { OnOk result (backlog_of hall.new.backlogs session ≡ None) }
    ensures goes { OnOk result (GoesOn D.seen D.may_leave D.unsynced D.failure_count hall.old.serving hall.new.serving) }
    ensures fails { IfErr result (Fails D.seen D.may_leave D.unsynced D.failure_count hall.old.serving hall.new.serving) }
    ensures day { hall.new.today ≡ hall.old.today }
{
    if !hall.is_behind(session) {
        return Ok(());
    }
    if let Err(fault) = answer_heard(rt, alloc, hall, post, entry, seals) {
        return Err(fault);
    }
    match give_rest(rt, alloc, hall, post, session) {
        Ok(_told) => Ok(()),
        Err(_) => Err(ServeFault::Memory),
    }
}

// Tells each desk what was heard.
#[tactic(auto, using(crate::proofs::Goes::goes_same, crate::proofs::Goes::fails_same, crate::proofs::Groups::told))]
fn tell_heard<R: Wait, D: Tape, K: Replaced>(
    rt: &R,
    alloc: Global,
    hall: &mut Hall<'_, D>,
    post: &Post,
    entry: &Sealed,
    seals: &K,
) -> Result<(), ServeFault>
    requires ready { IsReady D.seen D.may_leave D.unsynced hall.old.serving }
    requires booked { hall.old.asked ≡ [] }
    requires dated { IsOnDay hall.old.today entry.now (K.may_leave seals.now) }
    ensures told { OnOk result (IsTold hall.old hall.new) }
    ensures goes { OnOk result (GoesOn D.seen D.may_leave D.unsynced D.failure_count hall.old.serving hall.new.serving) }
    ensures fails { IfErr result (Fails D.seen D.may_leave D.unsynced D.failure_count hall.old.serving hall.new.serving) }
    ensures day { hall.new.today ≡ hall.old.today }
{
    let Ok(_told) = tell_all(rt, alloc, hall, post, entry, seals) else {
        return Err(ServeFault::Memory);
    };
    Ok(())
}

// Books what was heard.
#[tactic(auto, using(crate::proofs::Goes::goes_answered, crate::proofs::Goes::fails_answered, crate::proofs::Daily::answered_day, crate::proofs::Groups::booked))]
fn book_heard<R: Wait, D: Tape>(
    rt: &R,
    alloc: Global,
    hall: &mut Hall<'_, D>,
) -> Result<(), ServeFault>
    requires ready { IsReady D.seen D.may_leave D.unsynced hall.old.serving }
    ensures booked { OnOk result (IsBooked hall.old hall.new) }
    ensures none { hall.new.asked ≡ [] }
    ensures goes { OnOk result (GoesOn D.seen D.may_leave D.unsynced D.failure_count hall.old.serving hall.new.serving) }
    ensures fails { IfErr result (Fails D.seen D.may_leave D.unsynced D.failure_count hall.old.serving hall.new.serving) }
    ensures day { hall.new.today ≡ hall.old.today }
{
    match hall.answer(rt, alloc) {
        Ok(()) => Ok(()),
        Err(fault) => Err(fault),
    }
}

// Tells the manager and each desk what concerns it, where all that was heard is booked, and on the disk. Looks go by it from then on, and it is told once.
#[tactic(auto, using(crate::proofs::Goes::ready_same))]
fn tell_all<R: Wait, D: Tape, K: Replaced>(
    rt: &R,
    alloc: Global,
    hall: &mut Hall<'_, D>,
    post: &Post,
    entry: &Sealed,
    seals: &K,
) -> Result<DeliveredEach<Notice>, Memory>
    requires ready { IsReady D.seen D.may_leave D.unsynced hall.old.serving }
    requires booked { hall.old.asked ≡ [] }
    requires dated { IsOnDay hall.old.today entry.now (K.may_leave seals.now) }
    ensures told { IfOk result (AreTold hall.old) }
    ensures over { OnOk result (hall.new.turns ≡ []) }
    ensures same { (hall.new.serving ≡ hall.old.serving) × (hall.new.desks ≡ hall.old.desks)
        × (hall.new.manager ≡ hall.old.manager) × (hall.new.asked ≡ hall.old.asked) × (hall.new.today ≡ hall.old.today) × (hall.new.flights ≡ hall.old.flights)
        × (hall.new.backlogs ≡ hall.old.backlogs) }
{
    let notices = notices_of(alloc, hall)?;
    let by = post.look_on(rt, hall.today(), lines_kept(hall));
    let told = deliver(rt, post, hall, &by, entry, seals, notices);
    hall.end_turns();
    Ok(told)
}

// How many lines the journal has. All of them are on the disk, and visible.
fn lines_kept<D: Tape>(hall: &Hall<'_, D>) -> u32
    ensures { result ≡ length hall.now.serving.journal }
{
    hall.serving().journal().len() as u32
}

// What the manager and each desk is told, in their order.
#[tactic(auto, using(crate::proofs::Groups::no_notices, crate::proofs::Groups::all_notices))]
fn notices_of<D: Tape>(alloc: Global, hall: &mut Hall<'_, D>) -> Result<Vec<Notice>, Memory>
    ensures notices { IfOk result (λ notices. AreTold hall.old notices.items) }
    ensures same { hall.new ≡ hall.old }
{
    let mut notices = Vec::new(alloc);
    let count = hall.count();
    for session in 0..count + 1 {
        let notice = notice_of(alloc, hall, session)?;
        add_notice(&mut notices, notice)?;
    }
    Ok(notices)
}

fn add_notice(notices: &mut Vec<Notice>, notice: Notice) -> Result<(), Memory>
    ensures { OnOk result (notices.new.items ≡ notices.old.items ++ notice ∷ []) }
{
    notices.push(notice)?;
    Ok(())
}

// Lets each wait for its desk: the lines that they tell of are on the disk, and nothing that was heard is still to be booked. Looks go by the day
// and these lines, and the seal has the day.
fn deliver<R: Wait, D: Tape, K: Replaced>(
    rt: &R,
    post: &Post,
    hall: &Hall<'_, D>,
    by: &LooksGoBy,
    entry: &Sealed,
    seals: &K,
    notices: Vec<Notice>,
) -> DeliveredEach<Notice>
    requires ready { IsReady D.seen D.may_leave D.unsynced hall.now.serving }
    requires booked { hall.now.asked ≡ [] }
    requires dated { IsOnDay hall.now.today entry.now (K.may_leave seals.now) }
    requires looks { (by.now.today ≡ hall.now.today) × (by.now.lines ≡ length hall.now.serving.journal) }
    requires notices { AreTold hall.now notices.items }
    ensures { AreTold hall.now result }
{
    post.deliver_each(rt, notices)
}
