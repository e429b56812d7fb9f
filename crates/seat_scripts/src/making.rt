//! Changes of limits that have grown since a journal was made of them: what of them is left to make behind its lines.
//! It knows the lines of the manager, session 0, and nothing of how they are made.
ghost use Rattle.std.specs.Prelude.{◌≡◌, ◌≢◌, ◌↔◌, ◌≤◌, IfErr, IfOk, IsTrue, OnOk, Some, drop, length, map, slice_get, take};
ghost use Rattle.std.specs.List.{AllByRecursion};
ghost use Rattle.seat_desk.specs.AuditDesk.{most_lines};
ghost use Rattle.seat_journal.specs.Controls.{set_by};
ghost use Rattle.seat_replies.specs.Changes.{IsOnLeg};
ghost use Rattle.seat_scripts.specs.Resuming.{AreMade, IsFirstOther, IsUnmadeBy, changes_left};

use crate::against::is_same;
use crate::resuming::{calls_in, stranger};
use seat_desk::DeskFault;
use seat_journal::{Control, Entry, Work};
use std::alloc::{AllocError, Global};

/// What is left of changes of which a journal has a beginning: behind its first lines, so many, the lines of session 0 are the first
/// of these changes.
#[tactic(auto, using(crate::proofs::Rest::unmade_line))]
pub(crate) fn changes_left(
    alloc: Global,
    changes: &[Control],
    journal: &[Entry],
    behind: usize,
) -> Result<Vec<Control>, DeskFault>
    requires behind { behind ≤ length journal.now }
    requires lines { length journal.now ≤ most_lines }
    ensures made { OnOk result (AreMade changes.now (drop behind journal.now)) }
    ensures left { IfOk result (λ rest. rest.items ≡ changes_left changes.now (drop behind journal.now)) }
    ensures fault { IfErr result (λ f. f ≢ DeskFault.Memory
        → IsUnmadeBy changes.now (take behind journal.now) (drop behind journal.now) f) }
    ensures kind { IfErr result (λ f. (f ≢ DeskFault.Device) × (f ≢ DeskFault.TooLarge)) }
{
    let older = &journal[..behind];
    let lines = &journal[behind..];
    if let Err(place) = all_made(changes, lines) {
        return Err(stranger(older, 0, place));
    }
    match rest_of(alloc, changes, calls_in(lines, 0) as usize) {
        Ok(rest) => Ok(rest),
        Err(_) => Err(DeskFault::Memory),
    }
}

/// Whether the lines of session 0 are what the changes begin with; else the first line of it, from 1, that is not.
fn all_made(changes: &[Control], lines: &[Entry]) -> Result<(), u32>
    requires lines { length lines.now ≤ most_lines }
    ensures ok { OnOk result (AreMade changes.now lines.now) }
    ensures other { IfErr result (IsFirstOther changes.now lines.now) }
    ensures few { IfErr result (λ place. place ≤ most_lines) }
{
    let mut calls: u32 = 0;
    for entry in lines {
        if entry.session == 0 {
            if !is_made(changes, calls, entry.work) {
                return Err(calls + 1);
            }
            calls += 1;
        }
    }
    Ok(())
}

/// Whether the change at this place is there, and is what a line asks for.
#[tactic(auto, using(crate::proofs::Made::made_there, crate::proofs::Made::made_nowhere))]
fn is_made(changes: &[Control], place: u32, work: Work) -> bool
    ensures { IsTrue result ↔ (slice_get (map set_by changes.now) place ≡ Some work) }
{
    match changes.get(place as usize) {
        Some(change) => is_same(change.work(), work),
        None => false,
    }
}

/// The changes behind so many.
fn rest_of(alloc: Global, changes: &[Control], done: usize) -> Result<Vec<Control>, AllocError>
    ensures { IfOk result (λ rest. rest.items ≡ drop done changes.now) }
{
    let front = done.min(changes.len());
    Vec::from_slice(alloc, &changes[front..])
}
