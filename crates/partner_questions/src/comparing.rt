//! All differences between a list and the live bookings, by what is kept by name: no line and no booking is looked for among the others.
//! It knows how bookings are found, and nothing of how a difference reads.
ghost use Rattle.std.specs.Prelude.{◌≡◌, ◌++◌, IfOk, OnOk, option_map, option_to_list};
ghost use Rattle.std.specs.HashMap.{get};
ghost use Rattle.std.specs.List.{flat_map};
ghost use Rattle.partner_lists.specs.Names.{Finds, same_name};
ghost use Rattle.partner_lists.specs.Reading.{numbered_names, own_name};
ghost use Rattle.partner_questions.specs.Differences.{differences, our_difference, our_found, same_lines, standing_of, their_difference, their_found, under};
ghost use Rattle.partner_questions.specs.Here.{all_named, name_here};
ghost use Rattle.partner_questions.specs.Touches.{touched};

use crate::difference::{Difference, Standing, our_difference, standing_of, their_difference};
use crate::here::{Here, by_name, name_here};
use crate::touching::last_lines;
use airimp_lines::{Request, Segment};
use airline_base::Memory;
use partner_lists::{Name, Names, name_of, put};
use seat_journal::Entry;
use seat_rules::Booking;
use ssim_flights::Flights;
use std::alloc::Global;
use std::collections::HashMap;

/// All differences, and how many lines of the list have none.
#[derive(Drop)]
pub struct Compared {
    pub all: Vec<Difference>,
    pub same: usize,
}

/// The differences between a list and these live bookings: of each line of the list in their order, and then of each booking that no line has, in order of number.
pub fn differences(
    alloc: Global,
    flights: &Flights,
    journal: &[Entry],
    ours: &[Booking],
    theirs: &[Request],
) -> Result<Compared, Memory>
    ensures all { IfOk result (λ c. c.all.items ≡ differences flights.now journal.now ours.now theirs.now) }
    ensures same { IfOk result (λ c. c.same ≡ same_lines flights.now journal.now ours.now theirs.now) }
{
    let here = by_name(alloc, flights, ours)?;
    let lines = last_lines(alloc, flights, journal)?;
    let listed = listed_names(alloc, theirs)?;
    let mut all = Vec::new(alloc);
    put_theirs(&mut all, &here, &lines, theirs)?;
    let same = theirs.len().saturating_sub(all.len());
    put_ours(&mut all, flights, &listed, &here, &lines, ours)?;
    Ok(Compared { all, same })
}

/// Each line of the list by its name.
#[tactic(auto, using(crate::proofs::Noting::rows_more, crate::proofs::Noting::rows_whole))]
fn listed_names(alloc: Global, theirs: &[Request]) -> Result<Names, Memory>
    ensures { IfOk result (λ names. Finds names (numbered_names theirs.now)) }
{
    let mut names = HashMap::new(alloc);
    for request in theirs {
        let name = name_of(request.locator, &request.segment);
        put(&mut names, name, request.line)?;
    }
    Ok(names)
}

/// Adds the differences of the lines of the list.
#[tactic(auto, using(crate::proofs::Compares::none_yet, crate::proofs::Compares::their_more, crate::proofs::Compares::their_whole))]
fn put_theirs(
    all: &mut Vec<Difference>,
    here: &Here,
    lines: &Names,
    theirs: &[Request],
) -> Result<(), Memory>
    ensures { OnOk result (all.new.items ≡ all.old.items
        ++ flat_map (their_found (get same_name here.now) (get same_name lines.now)) theirs.now) }
{
    for request in theirs {
        let difference = difference_of(here, lines, request);
        add(all, difference)?;
    }
    Ok(())
}

/// The difference of a line of the list.
#[tactic(auto, using(crate::proofs::Compares::difference_found))]
fn difference_of(here: &Here, lines: &Names, request: &Request) -> Option<Difference>
    ensures { result ≡ their_difference request.now
        (option_map standing_of (get same_name here.now (own_name request.now))) (get same_name lines.now (own_name request.now)) }
{
    let name = name_of(request.locator, &request.segment);
    let found = standing_under(here, &name);
    let line = line_of(lines, &name);
    their_difference(request, found, line)
}

/// How the booking of a name stands, if there is one.
fn standing_under(here: &Here, name: &Name) -> Option<Standing>
    ensures { result ≡ option_map standing_of (get same_name here.now name.now) }
{
    match here.get(name) {
        Some(booking) => Some(standing_of(booking)),
        None => None,
    }
}

/// Adds the differences of the bookings that no line of the list has.
#[tactic(auto, using(crate::proofs::Compares::none_yet, crate::proofs::Compares::our_more, crate::proofs::Compares::our_whole))]
fn put_ours(
    all: &mut Vec<Difference>,
    flights: &Flights,
    listed: &Names,
    here: &Here,
    lines: &Names,
    ours: &[Booking],
) -> Result<(), Memory>
    ensures { OnOk result (all.new.items ≡ all.old.items
        ++ flat_map (our_found flights.now (get same_name listed.now) (get same_name here.now) (get same_name lines.now)) ours.now) }
{
    for booking in ours {
        let difference = lacking_of(flights, listed, here, lines, booking);
        add(all, difference)?;
    }
    Ok(())
}

/// The difference of a booking that no line of the list has.
fn lacking_of(
    flights: &Flights,
    listed: &Names,
    here: &Here,
    lines: &Names,
    booking: &Booking,
) -> Option<Difference>
    ensures { result ≡ our_difference flights.now booking.now
        (under (get same_name listed.now) (name_here flights.now booking.now)) (under (get same_name here.now) (name_here flights.now booking.now))
        (under (get same_name lines.now) (name_here flights.now booking.now)) }
{
    let name = name_here(flights, booking);
    our_difference(
        flights,
        booking,
        line_under(listed, &name),
        &booking_under(here, &name),
        line_under(lines, &name),
    )
}

/// The line that a name has.
fn line_of(names: &Names, name: &Name) -> Option<u32>
    ensures { result ≡ get same_name names.now name.now }
{
    names.get(name).copied()
}

fn line_under(names: &Names, name: &Option<Name>) -> Option<u32>
    ensures { result ≡ under (get same_name names.now) name.now }
{
    match name {
        Some(name) => line_of(names, name),
        None => None,
    }
}

fn booking_under(here: &Here, name: &Option<Name>) -> Option<Booking>
    ensures { result ≡ under (get same_name here.now) name.now }
{
    match name {
        Some(name) => here.get(name).copied(),
        None => None,
    }
}

/// Adds a difference, if there is one.
#[tactic(auto, using(crate::proofs::Compares::added_one, crate::proofs::Compares::added_none))]
fn add(all: &mut Vec<Difference>, difference: Option<Difference>) -> Result<(), Memory>
    ensures { OnOk result (all.new.items ≡ all.old.items ++ option_to_list difference) }
{
    if let Some(difference) = difference {
        let _segment: Option<Segment> = difference.segment;
        let _theirs: Option<Standing> = difference.theirs;
        all.push(difference)?;
    }
    Ok(())
}
