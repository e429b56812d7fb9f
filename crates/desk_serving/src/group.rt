//! The lines that wait, answered as a group.
ghost use Rattle.std.specs.Prelude.{◌≡◌, ◌≤◌, ◌==◌, ◌&&◌, false, true, None, IfErr, IfOk, OnErr, OnOk, length};
ghost use Rattle.desk_answers.specs.Hosts.{IsReady};
ghost use Rattle.desk_hall.specs.Pieces.{backlog_of};
ghost use Rattle.desk_serving.specs.Daily.{CountsSeal, FailsBy, IsOnDay, IsSealedOn, StaysNamed};
ghost use Rattle.desk_serving.specs.Going.{is_apart, is_hello, Fails, GoesOn, IsBegunFor, IsHeardBehind};
ghost use Rattle.desk_serving.specs.Groups.{IsForgotten, IsGroup, IsOne, IsTaken, IsTakenApart, IsTakenUp};

use crate::day::{GroupFault, keep_day};
use crate::departing::answer_closing;
use crate::notice::want_of;
use crate::taking::{Taking, goes_on};
use crate::telling::{answer_heard, answer_last, catch_up};
use airline_base::Memory;
use desk_hall::Hall;
use desk_pipes::{Begun, Post, Said};
use seat_disk::{Replaced, Tape};
use seat_seal::Sealed;
use seat_serving::ServeFault;
use std::alloc::Global;
use std::sync::Wait;

/// Hears these lines in their order, books what they ask for, and tells each desk what concerns it. A word to the host that is no look is
/// answered behind all ahead of it and ahead of all behind it, and so is what is closed behind a day of the manager's, where that is asked for.
/// Then each desk that is told the journal again is told a piece, where it has room.
/// Whether the host goes on.
#[tactic(auto, using(crate::proofs::Goes::goes_same, crate::proofs::Goes::goes_further, crate::proofs::Goes::fails_behind, crate::proofs::Daily::fails_by_behind, crate::proofs::Daily::sealed_same, crate::proofs::Daily::sealed_further, crate::proofs::Daily::sealed_as, crate::proofs::Daily::stays_behind, crate::proofs::Daily::stays_on, crate::proofs::Daily::on_day_of, crate::proofs::Daily::by_inventory, crate::proofs::Daily::counts_none, crate::proofs::Groups::none_taken, crate::proofs::Groups::is_group))]
pub(crate) fn answer_group<R: Wait, D: Tape, K: Replaced>(
    rt: &R,
    alloc: Global,
    hall: &mut Hall<'_, D>,
    post: &Post,
    closes: bool,
    said: &[Said],
    entry: &mut Sealed,
    seals: &mut K,
) -> Result<bool, GroupFault>
    requires ready { IsReady D.seen D.may_leave D.unsynced hall.old.serving }
    requires dated { IsOnDay hall.old.today entry.old (K.may_leave seals.old) }
    ensures group { IfOk result (IsGroup closes hall.old said.now hall.new) }
    ensures goes { OnOk result (GoesOn D.seen D.may_leave D.unsynced D.failure_count hall.old.serving hall.new.serving) }
    ensures fails { IfErr result (FailsBy D.seen D.may_leave D.unsynced D.failure_count hall.old.serving hall.new.serving) }
    ensures sealed { OnOk result (IsSealedOn K.named K.may_leave K.kept_may_leave K.failure_count hall.new.today entry.old entry.new seals.old seals.new) }
    ensures stays { StaysNamed K.may_leave K.kept_may_leave entry.old seals.old seals.new }
    ensures unsealed { IfErr result (CountsSeal K.failure_count seals.old seals.new) }
{
    let mut goes_on = true;
    for one in said {
        match answer_one(rt, alloc, hall, post, closes, one, entry, seals) {
            Ok(more) => goes_on = both(goes_on, more),
            Err(fault) => return Err(fault),
        }
    }
    match answer_last(rt, alloc, hall, post, entry, seals) {
        Ok(()) => Ok(goes_on),
        Err(fault) => Err(GroupFault::Serve(fault)),
    }
}

fn both(one: bool, other: bool) -> bool
    ensures { result ≡ (one && other) }
{
    one && other
}

// Hears a line.
#[tactic(auto, using(crate::proofs::Goes::goes_same, crate::proofs::Goes::goes_further, crate::proofs::Goes::fails_behind, crate::proofs::Daily::fails_by_behind, crate::proofs::Daily::stays_same, crate::proofs::Daily::day_as, crate::proofs::Daily::by_inventory, crate::proofs::Daily::counts_none, crate::proofs::Groups::one_plain))]
fn answer_one<R: Wait, D: Tape, K: Replaced>(
    rt: &R,
    alloc: Global,
    hall: &mut Hall<'_, D>,
    post: &Post,
    closes: bool,
    one: &Said,
    entry: &mut Sealed,
    seals: &mut K,
) -> Result<bool, GroupFault>
    requires ready { IsReady D.seen D.may_leave D.unsynced hall.old.serving }
    requires dated { IsOnDay hall.old.today entry.old (K.may_leave seals.old) }
    ensures one { IfOk result (IsOne closes hall.old hall.new one.now) }
    ensures goes { OnOk result (GoesOn D.seen D.may_leave D.unsynced D.failure_count hall.old.serving hall.new.serving) }
    ensures fails { IfErr result (FailsBy D.seen D.may_leave D.unsynced D.failure_count hall.old.serving hall.new.serving) }
    ensures sealed { OnOk result (IsSealedOn K.named K.may_leave K.kept_may_leave K.failure_count hall.new.today entry.old entry.new seals.old seals.new) }
    ensures stays { StaysNamed K.may_leave K.kept_may_leave entry.old seals.old seals.new }
    ensures unsealed { IfErr result (CountsSeal K.failure_count seals.old seals.new) }
{
    if !is_apart(one.line.as_slice()) {
        return hear_dated(rt, alloc, hall, post, one, entry, seals);
    }
    if let Err(fault) = answer_heard(rt, alloc, hall, post, entry, seals) {
        return Err(GroupFault::Serve(fault));
    }
    let begun = begin_for(rt, post, one);
    hear_apart(rt, alloc, hall, post, closes, one, &begun, entry, seals)
}

// A client that says hello begins: its outbox is whole ahead of its READY.
fn begin_for<R: Wait>(rt: &R, post: &Post, one: &Said) -> Option<Begun>
    ensures { IsBegunFor (is_hello one.now.line.items) one.now.session result }
{
    if !is_hello(one.line.as_slice()) {
        return None;
    }
    Some(post.begin(rt, one.session))
}

#[tactic(auto, unfolding(crate::specs::Going::is_hello))]
fn is_hello(line: &[u8]) -> bool
    ensures { result ≡ is_hello line.now }
{
    line.starts_with(b"?HELLO ")
}

// Hears a line, and answers it, and what is closed behind it, ahead of all behind it. Where a client says hello it has begun.
#[tactic(auto, using(crate::proofs::Goes::goes_further, crate::proofs::Goes::fails_behind, crate::proofs::Daily::fails_by_behind, crate::proofs::Daily::sealed_as, crate::proofs::Daily::stays_on, crate::proofs::Daily::on_day_of, crate::proofs::Daily::by_inventory, crate::proofs::Daily::counts_none, crate::proofs::Groups::apart))]
fn hear_apart<R: Wait, D: Tape, K: Replaced>(
    rt: &R,
    alloc: Global,
    hall: &mut Hall<'_, D>,
    post: &Post,
    closes: bool,
    one: &Said,
    begun: &Option<Begun>,
    entry: &mut Sealed,
    seals: &mut K,
) -> Result<bool, GroupFault>
    requires ready { IsReady D.seen D.may_leave D.unsynced hall.old.serving }
    requires dated { IsOnDay hall.old.today entry.old (K.may_leave seals.old) }
    requires begun { IsBegunFor (is_hello one.now.line.items) one.now.session begun.now }
    ensures apart { IfOk result (IsTakenApart closes hall.old hall.new one.now) }
    ensures goes { OnOk result (GoesOn D.seen D.may_leave D.unsynced D.failure_count hall.old.serving hall.new.serving) }
    ensures fails { IfErr result (FailsBy D.seen D.may_leave D.unsynced D.failure_count hall.old.serving hall.new.serving) }
    ensures sealed { OnOk result (IsSealedOn K.named K.may_leave K.kept_may_leave K.failure_count hall.new.today entry.old entry.new seals.old seals.new) }
    ensures stays { StaysNamed K.may_leave K.kept_may_leave entry.old seals.old seals.new }
    ensures unsealed { IfErr result (CountsSeal K.failure_count seals.old seals.new) }
{
    let _ = begun;
    let goes_on = match hear_dated(rt, alloc, hall, post, one, entry, seals) {
        Ok(goes_on) => goes_on,
        Err(fault) => return Err(fault),
    };
    match answer_closing(rt, alloc, hall, post, closes, entry, seals) {
        Ok(()) => Ok(goes_on),
        Err(fault) => Err(GroupFault::Serve(fault)),
    }
}

// Hears a line. A later day that it gives is in the seal, on its disk, before anything is told under it.
#[tactic(auto, using(crate::proofs::Goes::goes_same, crate::proofs::Goes::goes_further, crate::proofs::Goes::fails_behind, crate::proofs::Daily::stays_same, crate::proofs::Daily::by_inventory, crate::proofs::Daily::by_seal, crate::proofs::Daily::day_as, crate::proofs::Daily::sealed_as, crate::proofs::Daily::counts_none, crate::proofs::Daily::counts_seal))]
fn hear_dated<R: Wait, D: Tape, K: Replaced>(
    rt: &R,
    alloc: Global,
    hall: &mut Hall<'_, D>,
    post: &Post,
    one: &Said,
    entry: &mut Sealed,
    seals: &mut K,
) -> Result<bool, GroupFault>
    requires ready { IsReady D.seen D.may_leave D.unsynced hall.old.serving }
    requires dated { IsOnDay hall.old.today entry.old (K.may_leave seals.old) }
    ensures taken { IfOk result (IsTaken hall.old hall.new one.now) }
    ensures goes { OnOk result (GoesOn D.seen D.may_leave D.unsynced D.failure_count hall.old.serving hall.new.serving) }
    ensures fails { IfErr result (FailsBy D.seen D.may_leave D.unsynced D.failure_count hall.old.serving hall.new.serving) }
    ensures sealed { OnOk result (IsSealedOn K.named K.may_leave K.kept_may_leave K.failure_count hall.new.today entry.old entry.new seals.old seals.new) }
    ensures stays { StaysNamed K.may_leave K.kept_may_leave entry.old seals.old seals.new }
    ensures unsealed { IfErr result (CountsSeal K.failure_count seals.old seals.new) }
{
    let before = hall.today();
    let goes_on = match hear_one(rt, alloc, hall, post, one, entry, seals) {
        Ok(goes_on) => goes_on,
        Err(fault) => return Err(GroupFault::Serve(fault)),
    };
    match keep_day(before, hall.today(), entry, seals) {
        Ok(()) => Ok(goes_on),
        Err(fault) => Err(GroupFault::Seal(fault)),
    }
}

fn is_apart(line: &[u8]) -> bool
    ensures { result ≡ is_apart line.now }
{
    match line {
        [first, second, ..] => *first == b'?' && *second != b' ',
        _ => false,
    }
}

// Hears a line, where its desk was told all that it asked for ahead of it.
#[tactic(auto, using(crate::proofs::Goes::goes_further, crate::proofs::Goes::fails_behind, crate::proofs::Daily::day_as, crate::proofs::Groups::taken_up))]
fn hear_one<R: Wait, D: Tape, K: Replaced>(
    rt: &R,
    alloc: Global,
    hall: &mut Hall<'_, D>,
    post: &Post,
    one: &Said,
    entry: &Sealed,
    seals: &K,
) -> Result<bool, ServeFault>
    requires ready { IsReady D.seen D.may_leave D.unsynced hall.old.serving }
    requires dated { IsOnDay hall.old.today entry.now (K.may_leave seals.now) }
    ensures taken { IfOk result (IsTaken hall.old hall.new one.now) }
    ensures goes { OnOk result (GoesOn D.seen D.may_leave D.unsynced D.failure_count hall.old.serving hall.new.serving) }
    ensures fails { IfErr result (Fails D.seen D.may_leave D.unsynced D.failure_count hall.old.serving hall.new.serving) }
    ensures memory { IfErr result (λ f. hall.new.today ≡ hall.old.today) }
{
    if let Err(fault) = catch_up(rt, alloc, hall, post, one.session, entry, seals) {
        return Err(fault);
    }
    match hear_next(rt, alloc, hall, post, one, entry, seals) {
        Ok(taking) => Ok(goes_on(&taking)),
        Err(fault) => Err(fault),
    }
}

// Hears a line, or says that memory is wanting for it.
#[tactic(auto, using(crate::proofs::Goes::goes_same, crate::proofs::Goes::goes_further, crate::proofs::Goes::fails_behind, crate::proofs::Goes::ready_as, crate::proofs::Daily::day_as, crate::proofs::Groups::nobodys, crate::proofs::Groups::wanting))]
fn hear_next<R: Wait, D: Tape, K: Replaced>(
    rt: &R,
    alloc: Global,
    hall: &mut Hall<'_, D>,
    post: &Post,
    one: &Said,
    entry: &Sealed,
    seals: &K,
) -> Result<Taking, ServeFault>
    requires ready { IsReady D.seen D.may_leave D.unsynced hall.old.serving }
    requires told { backlog_of hall.old.backlogs one.now.session ≡ None }
    requires dated { IsOnDay hall.old.today entry.now (K.may_leave seals.now) }
    ensures taken { IfOk result (IsTakenUp hall.old hall.new one.now) }
    ensures goes { OnOk result (GoesOn D.seen D.may_leave D.unsynced D.failure_count hall.old.serving hall.new.serving) }
    ensures fails { IfErr result (Fails D.seen D.may_leave D.unsynced D.failure_count hall.old.serving hall.new.serving) }
    ensures memory { IfErr result (λ f. hall.new.today ≡ hall.old.today) }
{
    let session = one.session;
    if session > hall.count() {
        return Ok(Taking::Nobodys);
    }
    if let Ok(goes) = hear(
        alloc,
        hall,
        session,
        one.passed,
        one.line.as_slice(),
        one.is_earlier,
    ) {
        return Ok(Taking::Heard(goes));
    }
    let want = want_of(hall, session);
    match answer_heard(rt, alloc, hall, post, entry, seals) {
        Ok(()) => Ok(Taking::Forgotten(post.deliver(rt, want))),
        Err(fault) => Err(fault),
    }
}

// A line of the manager, or of a session's desk, behind those that were answered where they were read.
#[tactic(auto, using(crate::proofs::Daily::unordered_day, crate::proofs::Daily::unheard_day, crate::proofs::Daily::passed_day, crate::proofs::Passes::ordered_behind, crate::proofs::Passes::heard_behind, crate::proofs::Groups::unordered, crate::proofs::Groups::unheard, crate::proofs::Groups::passed_told, crate::proofs::Groups::passed_manager))]
fn hear<D: Tape>(
    alloc: Global,
    hall: &mut Hall<'_, D>,
    session: u8,
    passed: u32,
    line: &[u8],
    is_earlier: bool,
) -> Result<bool, Memory>
    requires session { session ≤ length hall.old.desks }
    requires told { backlog_of hall.old.backlogs session ≡ None }
    ensures heard { IfOk result (IsHeardBehind is_earlier hall.old hall.new session passed line.now) }
    ensures forgotten { OnErr result (IsForgotten hall.old hall.new session passed line.now) }
    ensures same { hall.new.serving ≡ hall.old.serving }
    ensures count { length hall.new.desks ≡ length hall.old.desks }
    ensures memory { OnErr result (hall.new.today ≡ hall.old.today) }
{
    hall.pass(session, passed);
    if session == 0 {
        return hall.hear_manager(alloc, line, is_earlier);
    }
    hall.hear(session, line)?;
    Ok(true)
}
