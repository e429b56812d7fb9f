//! Scripts that have grown since a journal was made of them: what of them is left to ask behind its lines.
//! It knows lines and requests, and nothing of how they are booked.
ghost use Rattle.std.specs.Prelude.{◌≡◌, ◌≢◌, ◌+◌, ◌≤◌, IfErr, IfOk, IfSome, OnErr, OnOk, drop, length, take};
ghost use Rattle.std.specs.List.{AllByRecursion};
ghost use Rattle.seat_desk.specs.AuditDesk.{most_lines};
ghost use Rattle.seat_rules.specs.Journal.{calls_of};
ghost use Rattle.seat_scripts.specs.Against.{DifferAt, done_by};
ghost use Rattle.seat_replies.specs.Requests.{AreRight};
ghost use Rattle.seat_scripts.specs.Resuming.{AreLeft, HasBegun, HaveBegunBelow, IsFirstStranger, IsStranger, IsUnbegun, left_from};
ghost use Rattle.seat_replies.specs.RunDesk.{requests_of};

use crate::by_session::requests_of;
use crate::scripts::Scripts;
use airimp_lines::{Request, Requests, requests_behind};
use seat_desk::DeskFault;
use seat_journal::Entry;
use seat_replies::is_asked;
use ssim_flights::Flights;
use std::alloc::{AllocError, Global};

/// What is left of scripts of which a journal has a beginning: behind its first lines, so many, the lines of each session are the very
/// requests that its script begins with, the first script being that of session 1, and a session beyond the scripts has none.
pub fn what_is_left(
    alloc: Global,
    flights: &Flights,
    scripts: &[Requests],
    journal: &[Entry],
    behind: usize,
) -> Result<Scripts, DeskFault>
    requires behind { behind ≤ length journal.now }
    requires lines { length journal.now ≤ most_lines }
    requires few { length scripts.now ≤ 8 }
    ensures ok { IfOk result (AreLeft flights.now scripts.now (drop behind journal.now)) }
    ensures fault { IfErr result (λ f. f ≢ DeskFault.Memory
        → IsUnbegun flights.now scripts.now (take behind journal.now) (drop behind journal.now) f) }
    ensures kind { IfErr result (λ f. (f ≢ DeskFault.Device) × (f ≢ DeskFault.TooLarge)) }
{
    let older = &journal[..behind];
    let lines = &journal[behind..];
    if let Err((session, place)) = all_begun(flights, scripts, lines) {
        return Err(stranger(older, session, place));
    }
    match left(alloc, scripts, lines) {
        Ok(left) => Ok(left),
        Err(_) => Err(DeskFault::Memory),
    }
}

/// The fault of a line: its session, and its call, which goes on from those of the older lines.
pub(crate) fn stranger(older: &[Entry], session: u8, place: u32) -> DeskFault
    requires lines { length older.now ≤ most_lines }
    requires place { place ≤ most_lines }
    ensures { result ≡ DeskFault.Unasked session (calls_of older.now session + place) }
{
    DeskFault::Unasked {
        session,
        call: calls_in(older, session) + place,
    }
}

/// How many lines a session has.
pub(crate) fn calls_in(lines: &[Entry], session: u8) -> u32
    requires lines { length lines.now ≤ most_lines }
    ensures value { result ≡ calls_of lines.now session }
    ensures few { result ≤ length lines.now }
{
    lines
        .iter()
        .filter(|entry| entry.session == session)
        .count() as u32
}

/// Whether each session's lines are what its script begins with; else the first session and line of it, from 1, that are not.
fn all_begun(flights: &Flights, scripts: &[Requests], lines: &[Entry]) -> Result<(), (u8, u32)>
    requires lines { length lines.now ≤ most_lines }
    ensures ok { OnOk result (HaveBegunBelow flights.now scripts.now lines.now 9) }
    ensures fault { IfErr result (λ named. IsFirstStranger flights.now scripts.now lines.now named.0 named.1) }
    ensures few { IfErr result (λ named. named.1 ≤ most_lines) }
{
    let mut session: u8 = 1;
    while session <= 8 {
        if let Err(place) = has_begun(flights, scripts, lines, session) {
            return Err((session, place));
        }
        session += 1;
    }
    Ok(())
}

/// The same of one session, which has no script beyond those given.
fn has_begun(
    flights: &Flights,
    scripts: &[Requests],
    lines: &[Entry],
    session: u8,
) -> Result<(), u32>
    requires lines { length lines.now ≤ most_lines }
    requires session { 1 ≤ session }
    ensures ok { OnOk result (HasBegun flights.now (requests_of scripts.now session) (done_by session lines.now)) }
    ensures differ { IfErr result (λ place. DifferAt flights.now place (requests_of scripts.now session)
        (done_by session lines.now)) }
    ensures line { IfErr result (λ place. place ≤ length (done_by session lines.now)) }
    ensures few { IfErr result (λ place. place ≤ most_lines) }
{
    let requests = requests_of(scripts, usize::from(session));
    begins_with(flights, requests, lines, session)
}

/// Whether the lines of a session are the first of these requests; else the first line of it, from 1, that is not.
fn begins_with(
    flights: &Flights,
    requests: &[Request],
    lines: &[Entry],
    session: u8,
) -> Result<(), u32>
    requires lines { length lines.now ≤ most_lines }
    ensures ok { OnOk result (HasBegun flights.now requests.now (done_by session lines.now)) }
    ensures differ { IfErr result (λ place. DifferAt flights.now place requests.now (done_by session lines.now)) }
    ensures line { IfErr result (λ place. place ≤ length (done_by session lines.now)) }
    ensures few { IfErr result (λ place. place ≤ most_lines) }
{
    let mut calls: u32 = 0;
    for entry in lines {
        if entry.session == session {
            if !is_asked(flights, requests, calls, entry.work) {
                return Err(calls + 1);
            }
            calls += 1;
        }
    }
    Ok(())
}

/// What is left of the scripts behind as many requests of each as its session has lines.
#[tactic(auto, using(crate::proofs::Grown::left_more))]
fn left(alloc: Global, scripts: &[Requests], lines: &[Entry]) -> Result<Scripts, AllocError>
    requires lines { length lines.now ≤ most_lines }
    requires few { length scripts.now ≤ 8 }
    ensures { IfOk result (λ left. left ≡ left_from 1 scripts.now lines.now) }
{
    let mut left = Scripts::new(alloc);
    for place in 0..scripts.len() {
        let done = calls_in(lines, place as u8 + 1);
        let rest = requests_behind(alloc, scripts[place].as_slice(), done as usize)?;
        left.push(rest)?;
    }
    Ok(left)
}
