//! Requests that were gathered, booked in groups.
ghost use Rattle.std.specs.Prelude.{◌≡◌, ◌≤◌, ◌<◌, ◌+◌, drop, length, take, IfErr, IfOk, OnOk, false};
ghost use Rattle.airline_base.specs.Noting.{noted};
ghost use Rattle.seat_disk.specs.Growing.{KeepsFront};
ghost use Rattle.seat_recovery.specs.OpenText.{open_text};
ghost use Rattle.seat_rules.specs.Prefixes.{Begins};
ghost use Rattle.seat_serving.specs.Answering.{behind, AreRight};
ghost use Rattle.seat_serving.specs.declared.serving.ServeFault.TheVariants.{Device, Memory as NoMemory};
ghost use Rattle.desk_answers.specs.Hosts.{IsReady};
ghost use Rattle.desk_hall.specs.Booking.{IsBehindSome};

use seat_disk::Tape;
use seat_serving::{Asked, ServeFault, Serving};
use std::alloc::Global;
use std::sync::Wait;

/// The most requests of a group.
const MOST: usize = 4096;

/// Books all that is asked, one group behind the other: each has its line, on the disk and visible. Where memory is wanting those behind
/// the first that has none are not booked, and may be asked again.
#[tactic(auto, using(crate::proofs::Groups::booking_none, crate::proofs::Groups::all_booked, crate::proofs::Groups::booking_front, crate::proofs::Groups::booking_some))]
pub fn book<R: Wait, D: Tape>(
    rt: &R,
    alloc: Global,
    serving: &mut Serving<D>,
    asked: &[Asked],
) -> Result<(), ServeFault>
    requires ready { IsReady D.seen D.may_leave D.unsynced serving.old }
    requires right { AreRight serving.old.grid asked.now }
    requires room { length serving.old.journal + length asked.now ≤ serving.old.cap }
    ensures booked { OnOk result (serving.new.journal ≡ behind serving.old.grid serving.old.journal asked.now) }
    ensures ready { OnOk result (IsReady D.seen D.may_leave D.unsynced serving.new) }
    ensures memory { IfErr result (λ f. f ≡ NoMemory → IsReady D.seen D.may_leave D.unsynced serving.new
        × IsBehindSome serving.old.grid serving.old.journal asked.now serving.new.journal) }
    ensures device { IfErr result (λ f. f ≡ Device → (serving.new.is_open ≡ false)
        × (D.failure_count serving.new.tape ≡ noted (D.failure_count serving.old.tape))) }
    ensures counted { OnOk result (D.failure_count serving.new.tape ≡ D.failure_count serving.old.tape) }
    ensures front { Begins serving.old.kept serving.new.kept }
    ensures told { KeepsFront (open_text serving.old.kept) (D.may_leave serving.new.tape) }
    ensures same { (serving.new.grid ≡ serving.old.grid) × (serving.new.cap ≡ serving.old.cap) }
{
    let mut rest = asked;
    while !rest.is_empty() {
        let count = book_group(rt, alloc, serving, rest)?;
        let more = rest_of(rest, count);
        rest = more;
    }
    Ok(())
}

// Books the first of these, at least one. How many.
#[tactic(auto, using(crate::proofs::Groups::right_front, crate::proofs::Groups::taken_few, crate::proofs::Groups::no_lines))]
fn book_group<R: Wait, D: Tape>(
    rt: &R,
    alloc: Global,
    serving: &mut Serving<D>,
    asked: &[Asked],
) -> Result<usize, ServeFault>
    requires ready { IsReady D.seen D.may_leave D.unsynced serving.old }
    requires right { AreRight serving.old.grid asked.now }
    requires some { 0 < length asked.now }
    requires room { length serving.old.journal + length asked.now ≤ serving.old.cap }
    ensures booked { IfOk result (λ n. serving.new.journal ≡ behind serving.old.grid serving.old.journal (take n asked.now)) }
    ensures some { IfOk result (λ n. (0 < n) × (n ≤ length asked.now)) }
    ensures ready { OnOk result (IsReady D.seen D.may_leave D.unsynced serving.new) }
    ensures memory { IfErr result (λ f. f ≡ NoMemory → IsReady D.seen D.may_leave D.unsynced serving.new
        × (serving.new.journal ≡ serving.old.journal)) }
    ensures device { IfErr result (λ f. f ≡ Device → (serving.new.is_open ≡ false)
        × (D.failure_count serving.new.tape ≡ noted (D.failure_count serving.old.tape))) }
    ensures counted { OnOk result (D.failure_count serving.new.tape ≡ D.failure_count serving.old.tape) }
    ensures front { Begins serving.old.kept serving.new.kept }
    ensures told { KeepsFront (open_text serving.old.kept) (D.may_leave serving.new.tape) }
    ensures same { (serving.new.grid ≡ serving.old.grid) × (serving.new.cap ≡ serving.old.cap) }
{
    let group = group_of(asked);
    let answered = serving.answer(rt, alloc, group)?;
    let count = answered.lines.len();
    if count == 0 {
        return Err(ServeFault::Memory);
    }
    Ok(count)
}

// The first of these, as many as a group may have.
#[tactic(auto, using(std::proofs::lemmas::List::take_min))]
fn group_of(asked: &[Asked]) -> &[Asked]
    ensures first { result.now ≡ take 4096 asked.now }
    ensures few { length result.now ≤ 4096 }
    ensures within { length result.now ≤ length asked.now }
{
    &asked[..MOST.min(asked.len())]
}

fn rest_of(asked: &[Asked], count: usize) -> &[Asked]
    requires { count ≤ length asked.now }
    ensures { result.now ≡ drop count asked.now }
{
    &asked[count..]
}
