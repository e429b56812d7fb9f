//! Gathering: what a host, its manager and all its sessions come to.
ghost use Rattle.std.specs.Prelude.{◌≡◌, ◌+◌, ◌↔◌, ◌<◌, ◌∷◌, length, map, false, true, slice_set, IfOk, IfErr, OnOk};
ghost use Rattle.std.specs.List.{AllByRecursion};
ghost use Rattle.seat_rules.specs.Histories.{by_session};
ghost use Rattle.seat_rules.specs.Headline.{Headline};
ghost use Rattle.seat_host.specs.Sessions.{numbers_of};
ghost use Rattle.seat_host.specs.Settling.{has_all, has_id, IsConfirmed};
ghost use Rattle.seat_host.specs.declared.settling.GatherFault.TheVariants.{Missing};

use crate::host::Host;
use crate::ledgers::Hosting;
use crate::manager::Manager;
use crate::party::Party;
use crate::session::Session;
use crate::settled::{LineNumbers, Settled};
use crate::under_lock::UnderLock;
use airline_base::Memory;
use seat_nesting::Grid;
use std::alloc::Global;
use std::marker::Model;
use std::sync::Wait;

/// Why nothing was gathered.
#[derive(Clone, Copy, PartialEq, Eq)]
pub enum GatherFault {
    /// The sessions' numbers are not 1 to the number opened, each once.
    Missing,
    /// A growth was refused.
    Memory,
}

/// A host that was not settled. Contracts see its journal. It is never dropped: `into_host` gives the host again.
pub struct Unsettled<K: Hosting> {
    grid: Grid,
    under_lock: UnderLock<K>,
}

impl<K: Hosting> Model for Unsettled<K> {
    ghost use Rattle.std.specs.Prelude.{◌≡◌, List};
    ghost use Rattle.seat_journal.specs.declared.entry.Entry.{Entry};

    ghost Value = { List Entry };

    ghost view = { λ u. u.under_lock };

    ghost invariant = { λ u. u.grid ≡ K.grid };
}

impl<K: Hosting> Unsettled<K> {
    /// Gives the host back. It owes no clause, since a contract sees of a host its grid alone, which the type names.
    pub fn into_host(self) -> Host<K> {
        let Unsettled { grid, under_lock } = self;
        Host::over(grid, under_lock)
    }
}

/// Settles a host with its manager and all its sessions: each receipt is the journal's line of its call, and no line is
/// left out. Where it refuses, all comes back as it was: the manager, the sessions, and a host whose journal confirms each
/// of them.
pub fn gather<K: Hosting, R: Wait>(
    rt: &R,
    alloc: Global,
    host: Host<K>,
    manager: Manager<K>,
    sessions: Vec<Session<K>>,
) -> Result<Settled, (GatherFault, Unsettled<K>, Manager<K>, Vec<Session<K>>)>
    ensures headline { IfOk result (λ r. Headline K.grid K.cap K.sessions r.journal r.receipts r.totals) }
    ensures handed { IfOk result (λ r. AllByRecursion (IsConfirmed K.sessions r.journal) (manager ∷ sessions.items)) }
    ensures manager { manager.id ≡ 0 }
    ensures all { OnOk result (has_all K.sessions sessions.items ≡ true) }
    ensures missing { IfErr result (λ f. (f.0 ≡ Missing) ↔ (has_all K.sessions sessions.items ≡ false)) }
    ensures kept { IfErr result (λ f. AllByRecursion (IsConfirmed K.sessions f.1) (manager ∷ sessions.items)) }
    ensures same { IfErr result (λ f. (f.2 ≡ manager) × (f.3.items ≡ sessions.items)) }
{
    let (grid, under_lock) = host.into_parts();
    if !are_all(sessions.as_slice(), under_lock.sessions()) {
        return Err(refused(
            rt,
            GatherFault::Missing,
            grid,
            under_lock,
            manager,
            sessions,
        ));
    }
    let Ok(slots) = empty_lists(alloc, under_lock.sessions()) else {
        return Err(refused(rt, GatherFault::Memory, grid, under_lock, manager, sessions));
    };
    Ok(settle(rt, under_lock, manager, sessions, slots))
}

// What a host comes to with its manager and all its sessions, the numbers of whose lines go to these lists.
fn settle<K: Hosting, R: Wait>(
    rt: &R,
    under_lock: UnderLock<K>,
    manager: Manager<K>,
    sessions: Vec<Session<K>>,
    slots: Vec<LineNumbers>,
) -> Settled
    requires all { has_all K.sessions sessions.items ≡ true }
    requires slots { length slots.items ≡ K.sessions + 1 }
    ensures headline { Headline K.grid K.cap K.sessions result.journal result.receipts result.totals }
    ensures handed { AllByRecursion (IsConfirmed K.sessions result.journal) (manager ∷ sessions.items) }
    ensures number { manager.id ≡ 0 }
{
    let mut under_lock = under_lock;
    let totals = under_lock.totals();
    let items = settle_all(rt, &mut under_lock, manager, sessions, slots);
    Settled::of(under_lock.end(rt), totals, items)
}

// Hands all back, after the host has confirmed the manager and each session.
fn refused<K: Hosting, R: Wait>(
    rt: &R,
    fault: GatherFault,
    grid: Grid,
    under_lock: UnderLock<K>,
    manager: Manager<K>,
    sessions: Vec<Session<K>>,
) -> (GatherFault, Unsettled<K>, Manager<K>, Vec<Session<K>>)
    requires { grid ≡ K.grid }
    ensures fault { result.0 ≡ fault }
    ensures kept { AllByRecursion (IsConfirmed K.sessions result.1) (manager ∷ sessions.items) }
    ensures same { (result.2 ≡ manager) × (result.3.items ≡ sessions.items) }
{
    let mut under_lock = under_lock;
    let mut manager = manager;
    let mut sessions = sessions;
    under_lock.confirm(rt, &mut manager.party);
    confirm_all(rt, &mut under_lock, sessions.as_mut_slice());
    (fault, Unsettled { grid, under_lock }, manager, sessions)
}

fn confirm_all<K: Hosting, R: Wait>(
    rt: &R,
    under_lock: &mut UnderLock<K>,
    sessions: &mut [Session<K>],
)
    ensures same { (under_lock.new ≡ under_lock.old) × (sessions.new ≡ sessions.old) }
    ensures each { AllByRecursion (IsConfirmed K.sessions under_lock.old) sessions.old }
{
    let Some((session, others)) = sessions.split_first_mut() else {
        return;
    };
    under_lock.confirm(rt, &mut session.party);
    confirm_all(rt, under_lock, others);
}

#[tactic(auto, using(crate::proofs::Gathered::up_more))]
fn are_all<K: Hosting>(sessions: &[Session<K>], opened: u8) -> bool
    ensures { result ≡ has_all opened sessions.now }
{
    let mut all = true;
    for below in 0..opened {
        let here = has_number(sessions, below + 1);
        all = here && all;
    }
    sessions.len() == usize::from(opened) && all
}

fn has_number<K: Hosting>(sessions: &[Session<K>], number: u8) -> bool
    ensures { result ≡ has_id number sessions.now }
{
    sessions.iter().any(|s| s.id() == number)
}

// An empty list for the manager, and one for each session.
fn empty_lists(alloc: Global, sessions: u8) -> Result<Vec<LineNumbers>, Memory>
    ensures { IfOk result (λ r. length r.items ≡ sessions + 1) }
{
    let mut lists = Vec::new(alloc);
    for _number in 0..usize::from(sessions) + 1 {
        lists.push(LineNumbers::new(alloc))?;
    }
    Ok(lists)
}

fn settle_all<K: Hosting, R: Wait>(
    rt: &R,
    under_lock: &mut UnderLock<K>,
    manager: Manager<K>,
    sessions: Vec<Session<K>>,
    slots: Vec<LineNumbers>,
) -> Vec<LineNumbers>
    requires all { has_all K.sessions sessions.items ≡ true }
    requires slots { length slots.items ≡ K.sessions + 1 }
    ensures same { under_lock.new ≡ under_lock.old }
    ensures numbers { result.items ≡ map numbers_of (by_session K.sessions under_lock.old) }
    ensures each { AllByRecursion (IsConfirmed K.sessions under_lock.old) (manager ∷ sessions.items) }
    ensures number { manager.id ≡ 0 }
{
    let Manager { party: managing } = manager;
    let mut sessions = sessions;
    let mut slots = slots;
    settle_one(rt, under_lock, &mut slots, managing);
    for _done in 0..sessions.len() {
        let Some(session) = sessions.pop() else {
            unreachable!()
        };
        let Session { party } = session;
        settle_one(rt, under_lock, &mut slots, party);
    }
    slots
}

fn settle_one<K: Hosting, R: Wait>(
    rt: &R,
    under_lock: &mut UnderLock<K>,
    slots: &mut Vec<LineNumbers>,
    party: Party<K>,
)
    requires { length slots.old.items ≡ K.sessions + 1 }
    ensures same { under_lock.new ≡ under_lock.old }
    ensures confirmed { IsConfirmed K.sessions under_lock.old party }
    ensures slots { slots.new.items ≡ slice_set slots.old.items party.id (numbers_of party.receipts) }
{
    let mut party = party;
    under_lock.confirm(rt, &mut party);
    let Party {
        id,
        stake: _,
        viewer: _,
        receipts,
    } = party;
    slots[usize::from(id)] = LineNumbers::from_vec(receipts.into_numbers());
}
