//! Seating: the manager and the sessions that a host begins with, and the lines that they were given before.
ghost use Rattle.std.specs.Prelude.{◌≡◌, ◌+◌, ◌<◌, ◌≤◌, [], ◌∷◌, length, All, vec_len, IsSome, IfSome, IfOk, OnOk};
ghost use Rattle.seat_display.specs.Faces.{opened};
ghost use Rattle.seat_rules.specs.Journal.{IsLegal};
ghost use Rattle.seat_rules.specs.Histories.{of_session};
ghost use Rattle.seat_host.specs.Lawful.{CountsFirst};
ghost use Rattle.seat_host.specs.Seating.{Seating};
ghost use Rattle.seat_host.specs.Sessions.{KeepsLines, seated, seated_sessions};

use crate::ledgers::{Hosting, LineCounts, Stakes};
use crate::manager::Manager;
use crate::party::Party;
use crate::session::Session;
use airline_base::Memory;
use line_booking::{Receipt, Receipts};
use seat_display::{Publisher, Viewer};
use seat_journal::Entry;
use std::alloc::Global;

/// The manager, and a session for each of the first numbers. They go on from these lines, which are visible, and their
/// lines are counted.
pub fn seat_all<K: Hosting>(
    alloc: Global,
    lines: &[Entry],
    publisher: &Publisher,
    line_counts: &mut LineCounts<K>,
    stakes: Stakes<K>,
    viewers: Vec<Viewer>,
    sessions: u8,
) -> Result<(Manager<K>, Vec<Session<K>>), Memory>
    requires few { length lines.now ≤ 999999 }
    requires display { (publisher.now.book ≡ K.book) × (publisher.now.grid ≡ K.grid)
        × (publisher.now.visible ≡ lines.now) }
    requires line_counts { line_counts.old ≡ 0 ∷ 0 ∷ 0 ∷ 0 ∷ 0 ∷ 0 ∷ 0 ∷ 0 ∷ 0 ∷ [] }
    requires stakes { stakes ≡ 0 }
    requires viewers { (vec_len viewers ≡ sessions + 1) × All (λ v. v ≡ opened K.book K.grid) viewers.items }
    requires sessions { (sessions ≡ K.sessions) × (sessions < 9) }
    ensures manager { IfOk result (λ r. r.0 ≡ seated 0 lines.now) }
    ensures sessions { IfOk result (λ r. r.1.items ≡ seated_sessions sessions lines.now) }
    ensures line_counts { OnOk result (CountsFirst (sessions + 1) lines.now line_counts.new) }
{
    let mut stakes = stakes;
    let mut viewers = viewers;
    let Ok(party) = seat_next(
        alloc,
        lines,
        publisher,
        line_counts,
        &mut stakes,
        &mut viewers,
        0,
    ) else {
        return Err(Memory);
    };
    let Ok(seats) = seat_sessions(
        alloc,
        lines,
        publisher,
        line_counts,
        &mut stakes,
        &mut viewers,
        sessions,
    ) else {
        return Err(Memory);
    };
    Ok((Manager { party }, seats))
}

// The sessions, once the manager is seated.
fn seat_sessions<K: Hosting>(
    alloc: Global,
    lines: &[Entry],
    publisher: &Publisher,
    line_counts: &mut LineCounts<K>,
    stakes: &mut Stakes<K>,
    viewers: &mut Vec<Viewer>,
    sessions: u8,
) -> Result<Vec<Session<K>>, Memory>
    requires few { length lines.now ≤ 999999 }
    requires display { (publisher.now.book ≡ K.book) × (publisher.now.grid ≡ K.grid)
        × (publisher.now.visible ≡ lines.now) }
    requires seating { Seating K.book K.grid lines.now 1 line_counts.old stakes.old viewers.old.items }
    requires viewers { vec_len viewers.old ≡ sessions }
    requires sessions { (sessions ≡ K.sessions) × (sessions < 9) }
    ensures sessions { IfOk result (λ r. r.items ≡ seated_sessions sessions lines.now) }
    ensures seating { OnOk result (Seating K.book K.grid lines.now (sessions + 1) line_counts.new stakes.new viewers.new.items) }
{
    let mut seats = Vec::new(alloc);
    for seated in 0..sessions {
        let Ok(party) = seat_next(
            alloc,
            lines,
            publisher,
            line_counts,
            stakes,
            viewers,
            seated + 1,
        ) else {
            return Err(Memory);
        };
        seats.push(Session { party })?;
    }
    Ok(seats)
}

// Who has the next number.
fn seat_next<K: Hosting>(
    alloc: Global,
    lines: &[Entry],
    publisher: &Publisher,
    line_counts: &mut LineCounts<K>,
    stakes: &mut Stakes<K>,
    viewers: &mut Vec<Viewer>,
    id: u8,
) -> Result<Party<K>, Memory>
    requires number { (id ≤ K.sessions) × (K.sessions < 9) }
    requires few { length lines.now ≤ 999999 }
    requires display { (publisher.now.book ≡ K.book) × (publisher.now.grid ≡ K.grid)
        × (publisher.now.visible ≡ lines.now) }
    requires seating { Seating K.book K.grid lines.now id line_counts.old stakes.old viewers.old.items }
    requires some { 0 < vec_len viewers.old }
    ensures party { IfOk result (λ p. p ≡ seated id lines.now) }
    ensures seating { OnOk result (Seating K.book K.grid lines.now (id + 1) line_counts.new stakes.new viewers.new.items) }
    ensures len { OnOk result (vec_len viewers.new + 1 ≡ vec_len viewers.old) }
{
    let Ok(receipts) = receipts_of(alloc, id, lines) else {
        return Err(Memory);
    };
    let Some(mut stake) = stakes.take() else {
        unreachable!()
    };
    let Some(viewer) = take_viewer::<K>(viewers) else {
        unreachable!()
    };
    let viewer = informed(publisher, viewer);
    line_counts.add_all(&mut stake, receipts.numbers().len() as u64);
    Ok(Party::seated(id, stake, viewer, receipts))
}

// A viewer that has seen nothing, once it has seen what is visible.
#[tactic(auto, using(crate::proofs::Opening::front_whole))]
fn informed(publisher: &Publisher, viewer: Viewer) -> Viewer
    requires { viewer ≡ opened publisher.now.book publisher.now.grid }
    ensures viewer { (result.book ≡ publisher.now.book) × (result.grid ≡ publisher.now.grid)
        × (result.front ≡ publisher.now.visible) }
    ensures legal { IsLegal publisher.now.grid publisher.now.visible }
{
    let mut viewer = viewer;
    viewer.learn(publisher.tell());
    viewer
}

// The receipts of a session for its lines among these.
fn receipts_of(alloc: Global, session: u8, lines: &[Entry]) -> Result<Receipts, Memory>
    ensures { IfOk result (λ r. KeepsLines r (of_session session lines.now)) }
{
    let mut receipts = Receipts::new(alloc);
    for line in lines {
        if line.session == session {
            let Ok(()) = receipts.reserve() else {
                return Err(Memory);
            };
            let Ok(own) = line.copy(alloc) else {
                return Err(Memory);
            };
            receipts.add(Receipt::of(own));
        }
    }
    Ok(receipts)
}

fn take_viewer<K: Hosting>(viewers: &mut Vec<Viewer>) -> Option<Viewer>
    requires some { 0 < vec_len viewers.old }
    requires new { All (λ v. v ≡ opened K.book K.grid) viewers.old.items }
    ensures viewer { IfSome result (λ v. v ≡ opened K.book K.grid) }
    ensures some { IsSome result }
    ensures rest { All (λ v. v ≡ opened K.book K.grid) viewers.new.items }
    ensures len { vec_len viewers.new + 1 ≡ vec_len viewers.old }
{
    viewers.pop()
}
