//! Workers: one for the manager and one for each session, each with a list of its own.
ghost use Rattle.std.specs.Prelude.{◌≡◌, ◌+◌, ◌<◌, ◌≤◌, [], ◌∷◌, All, length, map, Some, None, IfErr, IfNone, IfSome, OnOk};
ghost use Rattle.std.specs.Thread.{IsSync, IsSend};
ghost use Rattle.seat_rules.specs.Journal.{FitsCommand, FitsControl};
ghost use Rattle.seat_journal.specs.Controls.{set_by};
ghost use Rattle.seat_journal.specs.declared.entry.Work.TheVariants.{Seats};
ghost use Rattle.line_booking.specs.declared.booking.BookFault.TheVariants.{JournalFull};
ghost use Rattle.seat_host.specs.Refusing.{IsDue};
ghost use Rattle.seat_workers.specs.Working.{Asks, HasRun, HasEnded, IsRefused, AllHaveEnded, first_of};
ghost use Rattle.seat_rules.specs.Histories.{seats_in, works_of};

use crate::asking::Asking;
use crate::gate::Gate;
use crate::turns::{Turn, Turns};
use seat_host::{Host, Hosting, Manager, Party, Refusal, Session};
use seat_journal::{Command, CommandList, Control, Work};
use std::alloc::Global;
use std::sync::Wait;
use std::thread::{Threads, join_mut};

/// Why a worker stopped short: its session, which is 0 for the manager, and the call that gave no line.
#[derive(Drop)]
pub struct RunFault {
    pub session: u8,
    pub call: u32,
    pub refusal: Refusal,
}

// The least calls of a turn.
const SHORTEST: usize = 8;

/// Places for the faults of a manager and eight sessions, with none yet.
pub fn no_faults() -> [Option<RunFault>; 9]
    ensures { first_of result ≡ None }
{
    [None, None, None, None, None, None, None, None, None]
}

/// The fault of the first worker that was refused.
pub fn first_fault(faults: &[Option<RunFault>]) -> Option<&RunFault>
    ensures found { IfSome result (λ fault. first_of faults.now ≡ Some fault.now) }
    ensures none { IfNone result (first_of faults.now ≡ None) }
{
    let (first, later) = faults.split_first()?;
    match first {
        Some(fault) => Some(fault),
        None => first_fault(later),
    }
}

/// Has the manager make its changes in order and each session book its list, each on a worker of its own. A worker whose
/// call is refused stops there, and puts its fault at its place of `faults`, the manager's ahead of the sessions'. Nobody
/// else stops for it: the place of a worker that made all that it was to make has no fault.
pub fn run_sessions<K: Hosting + Send + Sync, R: Threads + Wait + Sync, G: Gate>(
    rt: &R,
    alloc: Global,
    host: &Host<K>,
    manager: &mut Manager<K>,
    changes: &[Control],
    sessions: &mut [Session<K>],
    lists: &[CommandList],
    gate: &G,
    faults: &mut [Option<RunFault>],
)
    requires changes { All (λ change. FitsControl K.grid change) changes.now }
    requires lists { length lists.now ≡ length sessions.old }
    requires commands { All (λ list. All (λ command. FitsCommand K.grid command) list) lists.now }
    requires places { length faults.old ≡ length lists.now + 1 }
    ensures ended { AllHaveEnded K.grid K.book K.cap (works_of changes.now lists.now) (manager.old ∷ sessions.old)
        (manager.new ∷ sessions.new) faults.new }
{
    let Some((fault, others)) = faults.split_first_mut() else {
        return;
    };
    let turns = Turns::new(lists.len().saturating_add(1));
    let place = Workplace {
        rt,
        alloc,
        host,
        gate,
        turns: &turns,
    };
    with_manager(
        &place,
        changes,
        &mut manager.party,
        fault,
        lists,
        sessions,
        others,
    );
}

// What a worker works with.
#[derive(Drop)]
struct Workplace<'a, K: Hosting, R, G> {
    rt: &'a R,
    alloc: Global,
    host: &'a Host<K>,
    gate: &'a G,
    turns: &'a Turns,
}

// The manager's worker in this thread, and the sessions' beside it.
fn with_manager<K: Hosting + Send + Sync, R: Threads + Wait + Sync, G: Gate>(
    place: &Workplace<'_, K, R, G>,
    changes: &[Control],
    party: &mut Party<K>,
    fault: &mut Option<RunFault>,
    lists: &[CommandList],
    sessions: &mut [Session<K>],
    faults: &mut [Option<RunFault>],
)
    requires manager { party.old.id ≡ 0 }
    requires changes { All (λ change. FitsControl K.grid change) changes.now }
    requires lists { length lists.now ≡ length sessions.old }
    requires commands { All (λ list. All (λ command. FitsCommand K.grid command) list) lists.now }
    requires places { length faults.old ≡ length lists.now }
    ensures ended { AllHaveEnded K.grid K.book K.cap (works_of changes.now lists.now) (party.old ∷ sessions.old)
        (party.new ∷ sessions.new) (fault.new ∷ faults.new) }
{
    let mut here = ||
        requires { IsSync R.row × IsSync K.row × IsSend K.row × IsSync G.row × (party.now.id ≡ 0)
            × All (λ change. FitsControl K.grid change) changes.now }
        ensures { HasEnded K.grid K.book K.cap (map set_by changes.entry.now) party.entry.now party.exit.now
            fault.exit.now }
    { place.work_off(changes, party, fault) };
    let mut there = ||
        requires { IsSync R.row × IsSync K.row × IsSend K.row × IsSync G.row × (length lists.now ≡ length sessions.now)
            × All (λ list. All (λ command. FitsCommand K.grid command) list) lists.now
            × (length faults.now ≡ length lists.now) }
        ensures { AllHaveEnded K.grid K.book K.cap (seats_in lists.entry.now) sessions.entry.now sessions.exit.now
            faults.exit.now }
    { work_all(place, lists, sessions, faults) };
    let _ = join_mut(place.rt, &mut there, &mut here);
}

// A worker for each list.
#[cycle(workers)]
#[tactic(auto, using(crate::proofs::Working::ended_none))]
fn work_all<K: Hosting + Send + Sync, R: Threads + Wait + Sync, G: Gate>(
    place: &Workplace<'_, K, R, G>,
    lists: &[CommandList],
    sessions: &mut [Session<K>],
    faults: &mut [Option<RunFault>],
)
    requires lists { length lists.now ≡ length sessions.old }
    requires commands { All (λ list. All (λ command. FitsCommand K.grid command) list) lists.now }
    requires places { length faults.old ≡ length lists.now }
    ensures ended { AllHaveEnded K.grid K.book K.cap (seats_in lists.now) sessions.old sessions.new faults.new }
{
    let Some((list, later)) = lists.split_first() else {
        return;
    };
    let Some((session, others)) = sessions.split_first_mut() else {
        return;
    };
    let Some((fault, rest)) = faults.split_first_mut() else {
        return;
    };
    side_by_side(
        place,
        list.as_slice(),
        &mut session.party,
        fault,
        later,
        others,
        rest,
    );
}

// The first session's worker in this thread, and the others' beside it.
#[cycle(workers)]
fn side_by_side<K: Hosting + Send + Sync, R: Threads + Wait + Sync, G: Gate>(
    place: &Workplace<'_, K, R, G>,
    list: &[Command],
    party: &mut Party<K>,
    fault: &mut Option<RunFault>,
    later: &[CommandList],
    others: &mut [Session<K>],
    rest: &mut [Option<RunFault>],
)
    requires session { (1 ≤ party.old.id) × (party.old.id ≤ 8) }
    requires list { All (λ command. FitsCommand K.grid command) list.now }
    requires lists { length later.now ≡ length others.old }
    requires commands { All (λ list. All (λ command. FitsCommand K.grid command) list) later.now }
    requires places { length rest.old ≡ length later.now }
    ensures ended { AllHaveEnded K.grid K.book K.cap (map Seats list.now ∷ seats_in later.now) (party.old ∷ others.old)
        (party.new ∷ others.new) (fault.new ∷ rest.new) }
{
    let mut here = ||
        requires { IsSync R.row × IsSync K.row × IsSend K.row × IsSync G.row × (1 ≤ party.now.id) × (party.now.id ≤ 8)
            × All (λ command. FitsCommand K.grid command) list.now }
        ensures { HasEnded K.grid K.book K.cap (map Seats list.entry.now) party.entry.now party.exit.now
            fault.exit.now }
    { place.work_off(list, party, fault) };
    let mut there = ||
        requires { IsSync R.row × IsSync K.row × IsSend K.row × IsSync G.row × (length later.now ≡ length others.now)
            × All (λ list. All (λ command. FitsCommand K.grid command) list) later.now
            × (length rest.now ≡ length later.now) }
        ensures { AllHaveEnded K.grid K.book K.cap (seats_in later.entry.now) others.entry.now others.exit.now
            rest.exit.now }
    { work_all(place, later, others, rest) };
    let _ = join_mut(place.rt, &mut there, &mut here);
}

// A turn has a quarter of the calls before it: short lists are booked side by side, and in a long one a worker rarely
// waits for its turn.
fn calls_after(booked: usize) -> usize
    ensures { 0 < result }
{
    (booked / 4).max(SHORTEST)
}

impl<K: Hosting, R: Wait, G: Gate> Workplace<'_, K, R, G> {
    // One worker, which puts the refusal of its call at its place.
    fn work_off<J: Asking>(&self, list: &[J], party: &mut Party<K>, fault: &mut Option<RunFault>)
        requires asks { All (Asks K.grid party.old.id) (map J.asks list.now) }
        ensures ended { HasEnded K.grid K.book K.cap (map J.asks list.now) party.old party.new fault.new }
    {
        match self.book_list(list, party) {
            Ok(()) => *fault = None,
            Err(refused) => *fault = Some(refused),
        }
    }

    // Has a list made into lines in order, as far as the first refusal. Threads that meet at the lock at each call are slow,
    // so where the gate lets them they take turns.
    fn book_list<J: Asking>(&self, list: &[J], party: &mut Party<K>) -> Result<(), RunFault>
        requires asks { All (Asks K.grid party.old.id) (map J.asks list.now) }
        ensures ok { OnOk result (HasRun (map J.asks list.now) party.old party.new) }
        ensures refused { IfErr result (λ f. IsRefused K.grid K.book K.cap f (map J.asks list.now) party.old
            party.new) }
    {
        party.expect(list.len());
        if self.gate.takes_turns() {
            let mut turn = self.turns.come(self.rt);
            let answer = self.book_by_turns(&mut turn, list, party);
            self.turns.leave(self.rt, turn);
            answer
        } else {
            self.book_all(list, party)
        }
    }

    fn book_by_turns<J: Asking>(
        &self,
        turn: &mut Turn,
        list: &[J],
        party: &mut Party<K>,
    ) -> Result<(), RunFault>
        requires asks { All (Asks K.grid party.old.id) (map J.asks list.now) }
        ensures ok { OnOk result (HasRun (map J.asks list.now) party.old party.new) }
        ensures refused { IfErr result (λ f. IsRefused K.grid K.book K.cap f (map J.asks list.now) party.old
            party.new) }
    {
        let mut left = list;
        while !left.is_empty() {
            let booked = list.len().saturating_sub(left.len());
            let (next, later) = left.split_at(left.len().min(calls_after(booked)));
            self.take_turn(turn, next, party)?;
            left = later;
        }
        Ok(())
    }

    fn take_turn<J: Asking>(
        &self,
        turn: &mut Turn,
        list: &[J],
        party: &mut Party<K>,
    ) -> Result<(), RunFault>
        requires asks { All (Asks K.grid party.old.id) (map J.asks list.now) }
        ensures ok { OnOk result (HasRun (map J.asks list.now) party.old party.new) }
        ensures refused { IfErr result (λ f. IsRefused K.grid K.book K.cap f (map J.asks list.now) party.old
            party.new) }
    {
        self.turns.begin(self.rt, turn);
        let answer = self.book_all(list, party);
        self.turns.end(turn);
        answer
    }

    fn book_all<J: Asking>(&self, list: &[J], party: &mut Party<K>) -> Result<(), RunFault>
        requires asks { All (Asks K.grid party.old.id) (map J.asks list.now) }
        ensures ok { OnOk result (HasRun (map J.asks list.now) party.old party.new) }
        ensures refused { IfErr result (λ f. IsRefused K.grid K.book K.cap f (map J.asks list.now) party.old
            party.new) }
    {
        for wish in list {
            self.book_next(wish.work(), party)?;
        }
        Ok(())
    }

    // One call, and the gate round it.
    #[tactic(auto, using(crate::proofs::Working::refused_here))]
    fn book_next(&self, work: Work, party: &mut Party<K>) -> Result<(), RunFault>
        requires asks { Asks K.grid party.old.id work }
        ensures ok { OnOk result (HasRun (work ∷ []) party.old party.new) }
        ensures refused { IfErr result (λ f. IsRefused K.grid K.book K.cap f (work ∷ []) party.old party.new) }
    {
        self.gate.before(self.rt, party);
        let answer = book_one(self.rt, self.alloc, self.host, work, party);
        self.gate.after(self.rt, party);
        match answer {
            Ok(()) => Ok(()),
            Err(refusal) => Err(RunFault {
                session: party.id(),
                call: party.next_call(),
                refusal,
            }),
        }
    }
}

fn book_one<K: Hosting, R: Wait>(
    rt: &R,
    alloc: Global,
    host: &Host<K>,
    work: Work,
    party: &mut Party<K>,
) -> Result<(), Refusal>
    requires asks { Asks K.grid party.old.id work }
    ensures ok { OnOk result (HasRun (work ∷ []) party.old party.new) }
    ensures stays { IfErr result (λ _. HasRun [] party.old party.new) }
    ensures full { IfErr result (λ r. r.fault ≡ JournalFull → K.cap ≤ length party.new.front) }
    ensures due { IfErr result (IsDue K.grid K.book K.cap party.new.front) }
{
    host.answer(rt, alloc, party, work)
}
