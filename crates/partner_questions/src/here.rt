//! The live bookings that a list is compared with, by name.
//! It knows nothing of the list.
ghost use Rattle.std.specs.Prelude.{◌≡◌, ◌++◌, ◌∷◌, [], IfOk, OnOk, filter, if◌then◌else◌};
ghost use Rattle.seat_rules.specs.Inventory.{state_now};
ghost use Rattle.seat_desk.specs.Loading.{IsGridOf};
ghost use Rattle.partner_lists.specs.Names.{Finds, Puts};
ghost use Rattle.partner_questions.specs.Here.{all_named, command_of, compared, is_made_by, is_of_session, name_here, named_here};
ghost use Rattle.partner_questions.specs.Touches.{paired};
ghost use Rattle.partner_questions.specs.Noted.{Notes};
ghost use Rattle.desk_telling.specs.Telling.{line_numbered};

use crate::touching::name_on;
use airline_base::Memory;
use desk_telling::line_numbered;
use partner_lists::Name;
use seat_core::Core;
use seat_journal::{Command, Entry};
use seat_lists::{Wanted, picked, status_code};
use seat_rules::Booking;
use ssim_flights::Flights;
use std::alloc::Global;
use std::collections::HashMap;

/// A booking by its name.
pub type Here = HashMap<Name, Booking>;

/// A booking as a command that speaks of it.
pub fn command_of(booking: &Booking) -> Command
    ensures { result ≡ command_of booking.now }
{
    Command {
        locator: booking.locator,
        place: Some(booking.place),
        class: booking.class,
        code: status_code(booking.status),
        seats: booking.seats,
    }
}

/// The name of a booking.
pub fn name_here(flights: &Flights, booking: &Booking) -> Option<Name>
    ensures { result ≡ name_here flights.now booking.now }
{
    name_on(flights, &command_of(booking))
}

/// The live bookings, or those that lines of a session made, in order of number.
#[tactic(auto, using(crate::proofs::Compares::compared_are))]
pub fn compared(
    alloc: Global,
    flights: &Flights,
    core: &Core,
    session: Option<u8>,
) -> Result<Vec<Booking>, Memory>
    requires grid { IsGridOf flights.now core.now.grid }
    ensures { IfOk result (λ all. all.items
        ≡ compared flights.now session core.now.journal (state_now core.now).bookings) }
{
    let wanted = Wanted {
        locators: &[],
        flight: None,
        day: None,
    };
    let live = picked(alloc, flights, core, &wanted, false)?;
    let all = made_by(alloc, session, core.journal(), live.as_slice())?;
    Ok(all)
}

/// Those of these bookings that lines of a session made.
#[tactic(auto, using(crate::proofs::Compares::made_more, crate::proofs::Compares::made_all))]
fn made_by(
    alloc: Global,
    session: Option<u8>,
    journal: &[Entry],
    bookings: &[Booking],
) -> Result<Vec<Booking>, Memory>
    ensures { IfOk result (λ all. all.items ≡ filter (is_made_by session journal.now) bookings.now) }
{
    let mut all = Vec::new(alloc);
    for booking in bookings {
        add_made(&mut all, session, journal, booking)?;
    }
    Ok(all)
}

/// Adds a booking, if a line of the session made it.
#[tactic(auto, using(crate::proofs::Compares::kept_one, crate::proofs::Compares::left_one))]
fn add_made(
    all: &mut Vec<Booking>,
    session: Option<u8>,
    journal: &[Entry],
    booking: &Booking,
) -> Result<(), Memory>
    ensures { OnOk result (all.new.items ≡ all.old.items
        ++ (if is_made_by session journal.now booking.now then booking.now ∷ [] else [])) }
{
    if !is_made_by(session, journal, booking) {
        return Ok(());
    }
    all.push(*booking)?;
    Ok(())
}

fn is_made_by(session: Option<u8>, journal: &[Entry], booking: &Booking) -> bool
    ensures { result ≡ is_made_by session journal.now booking.now }
{
    match session {
        Some(session) => is_of_session(session, journal, booking.number),
        None => true,
    }
}

fn is_of_session(session: u8, journal: &[Entry], number: u32) -> bool
    ensures { result ≡ is_of_session session (line_numbered journal.now number) }
{
    match line_numbered(journal, number) {
        Some(line) => line.session == session,
        None => false,
    }
}

/// Each of these bookings by its name.
#[tactic(auto, using(crate::proofs::Noting::bookings_more, crate::proofs::Noting::bookings_whole))]
pub fn by_name(alloc: Global, flights: &Flights, bookings: &[Booking]) -> Result<Here, Memory>
    ensures { IfOk result (λ here. Finds here (all_named flights.now bookings.now)) }
{
    let mut here = HashMap::new(alloc);
    for booking in bookings {
        let name = name_here(flights, booking);
        note(&mut here, name, booking)?;
    }
    Ok(here)
}

/// Keeps a booking under its name, if it has one.
#[tactic(auto, using(crate::proofs::Noting::notes_none, crate::proofs::Noting::notes_one))]
fn note(here: &mut Here, name: Option<Name>, booking: &Booking) -> Result<(), Memory>
    ensures { OnOk result (Notes (paired name booking.now) here.old here.new) }
{
    match name {
        Some(name) => put(here, name, booking),
        None => Ok(()),
    }
}

fn put(here: &mut Here, name: Name, booking: &Booking) -> Result<(), Memory>
    ensures { OnOk result (Puts here.old here.new name booking.now) }
{
    let _ = here.insert(name, *booking)?;
    Ok(())
}
