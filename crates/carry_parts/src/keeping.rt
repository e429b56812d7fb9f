//! What of a carry is on a part's own flights.
//! It knows which flight each thing is on, and no more of it.
ghost use Rattle.std.specs.Prelude.{◌≡◌, ◌≤◌, ◌++◌, ◌∷◌, [], IfOk, OnOk, length, if◌then◌else◌};
ghost use Rattle.carry_parts.specs.Parts.{own_changes, own_marks, own_owned};

use crate::part::{Part, has_flight};
use airline_base::Memory;
use carry_lines::Mark;
use seat_carrying::Owned;
use seat_journal::Change;
use seat_rules::Booking;
use ssim_flights::Flights;
use std::alloc::Global;

/// The changes of limits on flights of the part, in order.
#[tactic(auto, using(crate::proofs::Kept::kept_more, crate::proofs::Kept::kept_all))]
pub fn own_changes(
    alloc: Global,
    part: Part,
    flights: &Flights,
    rows: &[Change],
) -> Result<Vec<Change>, Memory>
    ensures own { IfOk result (λ own. own.items ≡ own_changes part flights.now rows.now) }
    ensures few { IfOk result (λ own. length own.items ≤ length rows.now) }
{
    let mut own = Vec::new(alloc);
    for row in rows {
        add_change(&mut own, row, has_flight(part, flights, row.flight))?;
    }
    Ok(own)
}

fn add_change(own: &mut Vec<Change>, row: &Change, is_own: bool) -> Result<(), Memory>
    ensures { OnOk result (own.new.items ≡ own.old.items ++ (if is_own then row.now ∷ [] else [])) }
{
    if !is_own {
        return Ok(());
    }
    match own.push(*row) {
        Ok(()) => Ok(()),
        Err(_) => Err(Memory),
    }
}

/// The live bookings whose new places are on flights of the part, in order.
#[tactic(auto, using(crate::proofs::Kept::kept_more, crate::proofs::Kept::kept_all))]
pub fn own_owned(
    alloc: Global,
    part: Part,
    flights: &Flights,
    kept: &[Owned],
) -> Result<Vec<Owned>, Memory>
    ensures own { IfOk result (λ own. own.items ≡ own_owned part flights.now kept.now) }
    ensures few { IfOk result (λ own. length own.items ≤ length kept.now) }
{
    let mut own = Vec::new(alloc);
    for owned in kept {
        let is_own = has_flight(part, flights, owned.booking.place.flight);
        add_owned(&mut own, owned, is_own)?;
    }
    Ok(own)
}

fn add_owned(own: &mut Vec<Owned>, owned: &Owned, is_own: bool) -> Result<(), Memory>
    ensures { OnOk result (own.new.items ≡ own.old.items ++ (if is_own then owned.now ∷ [] else [])) }
{
    if !is_own {
        return Ok(());
    }
    let _booking: Booking = owned.booking;
    match own.push(*owned) {
        Ok(()) => Ok(()),
        Err(_) => Err(Memory),
    }
}

/// The classes that are closed again on flights of the part, in order.
#[tactic(auto, using(crate::proofs::Kept::kept_more, crate::proofs::Kept::kept_all))]
pub fn own_marks(
    alloc: Global,
    part: Part,
    flights: &Flights,
    marks: &[Mark],
) -> Result<Vec<Mark>, Memory>
    ensures own { IfOk result (λ own. own.items ≡ own_marks part flights.now marks.now) }
    ensures few { IfOk result (λ own. length own.items ≤ length marks.now) }
{
    let mut own = Vec::new(alloc);
    for mark in marks {
        add_mark(&mut own, mark, has_flight(part, flights, mark.flight))?;
    }
    Ok(own)
}

fn add_mark(own: &mut Vec<Mark>, mark: &Mark, is_own: bool) -> Result<(), Memory>
    ensures { OnOk result (own.new.items ≡ own.old.items ++ (if is_own then mark.now ∷ [] else [])) }
{
    if !is_own {
        return Ok(());
    }
    match own.push(*mark) {
        Ok(()) => Ok(()),
        Err(_) => Err(Memory),
    }
}
