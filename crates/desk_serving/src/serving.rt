//! A host that serves its desks to the manager's end, and then ends and seals its journal.
ghost use Rattle.std.specs.Prelude.{◌≡◌, IfErr, IfOk, OnOk};
ghost use Rattle.airline_base.specs.Days.{IsCenturyDay};
ghost use Rattle.airline_base.specs.Noting.{noted};
ghost use Rattle.seat_desk.specs.AuditDesk.{most_lines};
ghost use Rattle.seat_desk.specs.Desk.{HasFailed};
ghost use Rattle.seat_desk.specs.Loading.{IsGridOf};
ghost use Rattle.seat_disk.specs.Growing.{KeepsFront};
ghost use Rattle.seat_disk.specs.Keeping.{KeepsNoMore};
ghost use Rattle.seat_recovery.specs.OpenText.{open_text};
ghost use Rattle.seat_rules.specs.Prefixes.{Begins};
ghost use Rattle.seat_sealing.specs.Pairs.{NoneDenied};
ghost use Rattle.seat_restoring.specs.Dating.{IsDated, Stands};
ghost use Rattle.seat_restoring.specs.Serving.{IsSealedEnd, NamesAll};
ghost use Rattle.seat_serving.specs.declared.serving.ServeFault.TheVariants.{Device, Memory as NoMemory};
ghost use Rattle.desk_answers.specs.Hosts.{IsReady};
ghost use Rattle.desk_serving.specs.Daily.{CountsSeal, FailsBy, IsOfEpoch, IsOnDay, IsSealedOn, IsSaidLast, IsSealedStill, IsUnsealed, StaysNamed, hosted_by};
ghost use Rattle.desk_serving.specs.declared.day.GroupFault.TheVariants.{Serve};
ghost use Rattle.desk_serving.specs.Going.{GoesOn};
ghost use Rattle.desk_serving.specs.Groups.{IsServed, IsServedTo, who_is_behind};
ghost use Rattle.desk_serving.specs.declared.serving.HostedFault.TheVariants.{Dating, Day, Seal};
ghost use Rattle.desk_talk.specs.Ending.{IsEnded, IsLeftOpen};

use crate::counting::{answer_counted, begun};
use crate::day::GroupFault;
use crate::opening::hall_over;
use crate::pieces::room_of;
use desk_answers::OpenHost;
use desk_hall::Hall;
use desk_pipes::{LastTold, Post, Taken};
use desk_status::Board;
use seat_desk::DeskFault;
use seat_disk::{Replaced, Tape};
use seat_restoring::seal_closed;
use seat_seal::{Basis, Sealed};
use seat_serving::{Ended, ServeFault};
use ssim_flights::Flights;
use std::alloc::Global;
use std::sync::Wait;

/// Why a journal is not ended and sealed.
#[derive(Clone, Copy)]
pub enum HostedFault {
    /// The journal is not ended. Its open seal stands.
    Day(ServeFault),
    /// The seal of a later day is not put in place, and nothing was told under it. The journal is not ended.
    Dating(DeskFault),
    /// The journal is ended, and its closed seal is not there. Its open seal is of it too.
    Seal(DeskFault),
}

/// Serves eight desks to the manager's end, closes what departed behind a day of the manager's where that is asked for, and ends the journal, while the open seal of the lines that the host began with stands in the file
/// `seals`, on the host's day: a later day of the manager's is in it, on its disk, before a line is told under that day. Then the closed seal of all lines takes its place, of this basis, and with the day and the
/// runs of the open one. Whatever a crash leaves of the two files, the seal has the journal's entry. What the host has come to stands on the board behind each group.
#[tactic(auto, using(desk_talk::proofs::Closed::still_named, desk_talk::proofs::Closed::ended_named, desk_talk::proofs::Closed::ended_told, desk_talk::proofs::Closed::few_ended, crate::proofs::Daily::on_day, crate::proofs::Daily::stays_still, crate::proofs::Daily::names_on, crate::proofs::Daily::sealed_end, crate::proofs::Daily::of_epoch, crate::proofs::Daily::no_more_behind, crate::proofs::Daily::failed_behind, crate::proofs::Daily::dating_failed, crate::proofs::Daily::no_closed_seal))]
pub fn serve_desks<R: Wait, D: Tape, K: Replaced>(
    rt: &R,
    alloc: Global,
    flights: &Flights,
    host: OpenHost<'_, D>,
    post: &Post,
    closes: bool,
    board: &Board,
    basis: &Basis,
    begun: Sealed,
    seals: &mut K,
) -> Result<(Ended, D), (HostedFault, D)>
    requires grid { IsGridOf flights.now host.serving.grid }
    requires today { IsCenturyDay host.desk.today }
    requires ready { IsReady D.seen D.may_leave D.unsynced host.serving }
    requires cap { host.serving.cap ≡ most_lines }
    requires named { NamesAll host.serving.kept (K.may_leave seals.old) }
    requires stands { Stands begun host.serving.kept (K.may_leave seals.old) }
    requires dated { IsDated host.desk.today begun.era }
    ensures served { IfOk result (λ r. IsServedTo closes flights.now host.entry.serving host.entry.desk.today host.entry.desk.epoch r.0.journal) }
    ensures ended { IfOk result (λ r. IsEnded host.entry.serving.grid host.entry.serving.cap r.0 (D.seen r.1)
        (D.may_leave r.1) (D.unsynced r.1)) }
    ensures front { IfOk result (λ r. Begins host.entry.serving.kept r.0.journal) }
    ensures sealed { IfOk result (λ r. IsSealedEnd basis.now begun.runs r.0.journal (K.named seals.old) (K.named seals.new)
        (K.may_leave seals.new)) }
    ensures dated { OnOk result (IsOfEpoch begun.era.epoch (K.may_leave seals.new)) }
    ensures accepted { IfOk result (λ r. NoneDenied (D.may_leave r.1) (K.may_leave seals.new)) }
    ensures agrees { IfErr result (λ f. NoneDenied (D.may_leave f.1) (K.may_leave seals.new)) }
    ensures only { KeepsNoMore (K.kept_may_leave seals.old) (K.kept_may_leave seals.new) }
    ensures told { IfErr result (λ f. KeepsFront (open_text host.entry.serving.kept) (D.may_leave f.1)) }
    ensures open { IfErr result (λ f. f.0 ≡ Day NoMemory → IsLeftOpen host.entry.serving.kept (D.seen f.1)
        (D.may_leave f.1) (D.unsynced f.1)) }
    ensures journal { IfErr result (λ f. f.0 ≡ Day Device
        → D.failure_count f.1 ≡ noted (D.failure_count host.entry.serving.tape)) }
    ensures unsealed { IfErr result (λ f. (e : ServeFault) → f.0 ≡ Day e → NamesAll host.entry.serving.kept (K.may_leave seals.new)) }
    ensures over { IfErr result (λ f. (e : DeskFault) → f.0 ≡ Seal e → IsUnsealed host.entry.serving.kept basis.now begun.runs e
        (D.seen f.1) (D.may_leave f.1) (D.unsynced f.1) (K.may_leave seals.new)) }
    ensures device { IfErr result (λ f. f.0 ≡ Seal DeskFault.Device → HasFailed K.failure_count seals.old seals.new) }
    ensures dating { IfErr result (λ f. f.0 ≡ Dating DeskFault.Device → HasFailed K.failure_count seals.old seals.new) }
{
    let mut entry = begun;
    let served = match serve_ended(
        rt, alloc, flights, host, post, closes, board, &mut entry, seals,
    ) {
        Ok(served) => served,
        Err(refused) => {
            let (fault, tape) = refused;
            let said = say_last(rt, post, &fault);
            return Err((hosted_fault(fault, &said), tape));
        }
    };
    let (ended, tape) = served;
    match seal_closed(alloc, basis, entry, &ended.journal, seals) {
        Ok(()) => Ok((ended, tape)),
        Err(fault) => Err((HostedFault::Seal(fault), tape)),
    }
}

// Says to each desk that a file failed.
fn say_last<R: Wait>(rt: &R, post: &Post, fault: &GroupFault) -> Option<LastTold>
    ensures { IsSaidLast fault.now result }
{
    match fault {
        GroupFault::Serve(fault) => match fault {
            ServeFault::Memory => None,
            ServeFault::Device => Some(post.tell_each_last(rt, b"FAULT - DEVICE\n")),
        },
        GroupFault::Seal(_) => Some(post.tell_each_last(rt, b"FAULT - DEVICE\n")),
    }
}

// Why it is not ended, where each desk is told that a file failed.
fn hosted_fault(fault: GroupFault, said: &Option<LastTold>) -> HostedFault
    requires said { IsSaidLast fault said.now }
    ensures { result ≡ hosted_by fault }
{
    let _ = said;
    match fault {
        GroupFault::Serve(fault) => HostedFault::Day(fault),
        GroupFault::Seal(fault) => HostedFault::Dating(fault),
    }
}

// Serves the desks to the manager's end, and ends the journal. Where the host fails the journal is left open.
#[tactic(auto, using(crate::proofs::Goes::ready_as, crate::proofs::Goes::goes_from, crate::proofs::Goes::fails_from, crate::proofs::Ended::ended_so, crate::proofs::Ended::ended_front, crate::proofs::Ended::lost_none, crate::proofs::Ended::left_open, crate::proofs::Ended::told_at_once, crate::proofs::Ended::left_at_once, crate::proofs::Daily::day_as, crate::proofs::Daily::stays_same, crate::proofs::Daily::stays_on, crate::proofs::Daily::some_day, crate::proofs::Daily::by_inventory, crate::proofs::Daily::fails_by_from, crate::proofs::Daily::counts_none, crate::proofs::Groups::served_to))]
fn serve_ended<R: Wait, D: Tape, K: Replaced>(
    rt: &R,
    alloc: Global,
    flights: &Flights,
    host: OpenHost<'_, D>,
    post: &Post,
    closes: bool,
    board: &Board,
    entry: &mut Sealed,
    seals: &mut K,
) -> Result<(Ended, D), (GroupFault, D)>
    requires grid { IsGridOf flights.now host.serving.grid }
    requires today { IsCenturyDay host.desk.today }
    requires ready { IsReady D.seen D.may_leave D.unsynced host.serving }
    requires dated { IsOnDay host.desk.today entry.old (K.may_leave seals.old) }
    ensures served { IfOk result (λ r. IsServedTo closes flights.now host.entry.serving host.entry.desk.today host.entry.desk.epoch r.0.journal) }
    ensures ended { IfOk result (λ r. IsEnded host.entry.serving.grid host.entry.serving.cap r.0 (D.seen r.1)
        (D.may_leave r.1) (D.unsynced r.1)) }
    ensures front { IfOk result (λ r. Begins host.entry.serving.kept r.0.journal) }
    ensures told { IfErr result (λ f. KeepsFront (open_text host.entry.serving.kept) (D.may_leave f.1)) }
    ensures open { IfErr result (λ f. f.0 ≡ Serve NoMemory → IsLeftOpen host.entry.serving.kept (D.seen f.1)
        (D.may_leave f.1) (D.unsynced f.1)) }
    ensures journal { IfErr result (λ f. f.0 ≡ Serve Device
        → D.failure_count f.1 ≡ noted (D.failure_count host.entry.serving.tape)) }
    ensures sealed { OnOk result (IsSealedStill K.named K.may_leave K.kept_may_leave K.failure_count entry.old entry.new seals.old seals.new) }
    ensures stays { StaysNamed K.may_leave K.kept_may_leave entry.old seals.old seals.new }
    ensures unsealed { IfErr result (λ f. CountsSeal K.failure_count seals.old seals.new f.0) }
{
    let opened = match hall_over(rt, alloc, flights, host) {
        Ok(opened) => opened,
        Err(tape) => return Err((GroupFault::Serve(ServeFault::Memory), tape)),
    };
    let mut hall = opened;
    let served = serve(rt, alloc, &mut hall, post, closes, board, entry, seals);
    let serving = hall.into_serving();
    match served {
        Ok(()) => match serving.end(rt, alloc) {
            Ok(ended) => Ok(ended),
            Err(refused) => {
                let (fault, tape) = refused;
                Err((GroupFault::Serve(fault), tape))
            }
        },
        Err(fault) => Err((fault, serving.close(rt))),
    }
}

// Answers what waits, one group behind the other, up to the manager's end.
#[tactic(auto, using(crate::proofs::Goes::goes_same, crate::proofs::Goes::goes_further, crate::proofs::Goes::fails_behind, crate::proofs::Goes::fails_ready, crate::proofs::Daily::fails_by_behind, crate::proofs::Daily::sealed_same, crate::proofs::Daily::sealed_further, crate::proofs::Daily::stays_behind, crate::proofs::Daily::stays_same, crate::proofs::Daily::stays_on, crate::proofs::Daily::on_day_of, crate::proofs::Daily::by_inventory, crate::proofs::Daily::counts_none, crate::proofs::Groups::no_groups, crate::proofs::Groups::is_served))]
fn serve<R: Wait, D: Tape, K: Replaced>(
    rt: &R,
    alloc: Global,
    hall: &mut Hall<'_, D>,
    post: &Post,
    closes: bool,
    board: &Board,
    entry: &mut Sealed,
    seals: &mut K,
) -> Result<(), GroupFault>
    requires ready { IsReady D.seen D.may_leave D.unsynced hall.old.serving }
    requires dated { IsOnDay hall.old.today entry.old (K.may_leave seals.old) }
    ensures served { OnOk result (IsServed closes hall.old hall.new) }
    ensures goes { OnOk result (GoesOn D.seen D.may_leave D.unsynced D.failure_count hall.old.serving hall.new.serving) }
    ensures fails { IfErr result (FailsBy D.seen D.may_leave D.unsynced D.failure_count hall.old.serving hall.new.serving) }
    ensures sealed { OnOk result (IsSealedOn K.named K.may_leave K.kept_may_leave K.failure_count hall.new.today entry.old entry.new seals.old seals.new) }
    ensures stays { StaysNamed K.may_leave K.kept_may_leave entry.old seals.old seals.new }
    ensures unsealed { IfErr result (CountsSeal K.failure_count seals.old seals.new) }
{
    let Ok(none) = Taken::none(alloc) else {
        return Err(GroupFault::Serve(ServeFault::Memory));
    };
    let mut taken = none;
    let mut tally = begun(hall, board);
    board.show(rt, tally);
    for _ in rt.forever() {
        post.inbox.take(rt, &mut taken, !may_tell(rt, hall, post));
        match answer_counted(
            rt, alloc, hall, post, closes, &taken, entry, seals, board, &mut tally,
        ) {
            Ok(true) => post.inbox.let_more(rt, &taken, who_is_behind(hall)),
            Ok(false) => return Ok(()),
            Err(fault) => return Err(fault),
        }
    }
    unreachable!()
}

// Whether a session that is told the journal again has room for a piece. Where it has not, its reader wakes the host.
fn may_tell<R: Wait, D: Tape>(rt: &R, hall: &Hall<'_, D>, post: &Post) -> bool {
    for session in 0..hall.count() + 1 {
        if let Some(room) = room_of(rt, hall, post, session) {
            if room.is_there() {
                return true;
            }
        }
    }
    false
}

// Which sessions are told the journal again: no line of theirs is read ahead of its end.
fn who_is_behind<D: Tape>(hall: &Hall<'_, D>) -> [bool; 9]
    ensures { result ≡ who_is_behind hall.now.backlogs }
{
    [
        hall.is_behind(0),
        hall.is_behind(1),
        hall.is_behind(2),
        hall.is_behind(3),
        hall.is_behind(4),
        hall.is_behind(5),
        hall.is_behind(6),
        hall.is_behind(7),
        hall.is_behind(8),
    ]
}
