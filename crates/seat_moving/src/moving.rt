//! Live bookings on their new places.
ghost use Rattle.std.specs.Prelude.{◌≡◌, ◌++◌, IfOk, OnOk, option_to_list};
ghost use Rattle.seat_moving.specs.Moving.{moved, moved_by, session_of};

use crate::target::{Target, target_of};
use airline_base::{Day, Memory};
use seat_carrying::Owned;
use seat_journal::Entry;
use seat_rules::Booking;
use ssim_flights::{Flights, Served};
use std::alloc::Global;

/// Live bookings that a journal made on flights, each on its place of others and with the session that made it, in their order. Those that
/// departed before today, and those that no new flight serves, are left out.
pub fn moved(
    alloc: Global,
    journal: &[Entry],
    flights: &Flights,
    old: &Served<'_>,
    new: &Served<'_>,
    today: Day,
    live: &[Booking],
) -> Result<Vec<Owned>, Memory>
    requires served { old.now ≡ flights.now }
    ensures { IfOk result (λ owned. owned.items ≡ moved journal.now flights.now new.now today live.now) }
{
    let mut all = Vec::new(alloc);
    for booking in live {
        add(
            &mut all,
            moved_by(journal, flights, old, new, today, booking),
        )?;
    }
    Ok(all)
}

fn add(all: &mut Vec<Owned>, moved: Option<Owned>) -> Result<(), Memory>
    ensures { OnOk result (all.new.items ≡ all.old.items ++ option_to_list moved) }
{
    let Some(owned) = moved else {
        return Ok(());
    };
    match all.push(owned) {
        Ok(()) => Ok(()),
        Err(_) => Err(Memory),
    }
}

/// A booking on its new place, where there is one.
fn moved_by(
    journal: &[Entry],
    flights: &Flights,
    old: &Served<'_>,
    new: &Served<'_>,
    today: Day,
    booking: &Booking,
) -> Option<Owned>
    requires served { old.now ≡ flights.now }
    ensures { result ≡ moved_by journal.now flights.now new.now today booking.now }
{
    match target_of(flights, old, new, today, booking.place) {
        Target::Onto(place) => Some(Owned {
            session: session_of(journal, booking),
            booking: Booking { place, ..*booking },
        }),
        Target::Departed | Target::Lost => None,
    }
}

/// The session of the line that made a booking; 0 where there is no such line.
fn session_of(journal: &[Entry], booking: &Booking) -> u8
    ensures { result ≡ session_of journal.now booking.now }
{
    match journal.get(booking.number.saturating_sub(1) as usize) {
        Some(line) => line.session,
        None => 0,
    }
}
