//! Of which live bookings a part tells what became.
ghost use Rattle.std.specs.Prelude.{◌≡◌, ◌≤◌, ◌++◌, ◌∷◌, [], IfOk, OnOk, length, if◌then◌else◌};
ghost use Rattle.carry_parts.specs.Told.{is_told, next_of, told};

use crate::part::{Part, has_flight};
use airline_base::Memory;
use carry_order::Numbered;
use seat_carrying::Owned;
use seat_rules::Booking;
use ssim_flights::Flights;
use std::alloc::Global;

/// Of these live bookings, which are in order of number, those of which the part tells: who was asked for on a new flight of the part, and who was
/// asked for nowhere and whose old flight is the part's. `numbered` are those that were asked for, on their new places, in order of their old numbers.
#[tactic(auto, using(crate::proofs::ToldTurns::told_first, crate::proofs::ToldTurns::told_on, crate::proofs::ToldTurns::told_all, crate::proofs::ToldTurns::few_told))]
pub fn told(
    alloc: Global,
    part: Part,
    olds: &Flights,
    news: &Flights,
    live: &[Booking],
    numbered: &[Numbered],
) -> Result<Vec<Booking>, Memory>
    ensures told { IfOk result (λ all. all.items ≡ told part olds.now news.now live.now numbered.now) }
    ensures few { IfOk result (λ all. length all.items ≤ length live.now) }
{
    let mut all = Vec::new(alloc);
    let mut rest = numbered;
    for booking in live {
        let (next, behind) = next_of(rest, booking);
        let is_told = is_told(part, olds, news, booking, next);
        rest = behind;
        add(&mut all, booking, is_told)?;
    }
    Ok(all)
}

fn add(all: &mut Vec<Booking>, booking: &Booking, is_told: bool) -> Result<(), Memory>
    ensures { OnOk result (all.new.items ≡ all.old.items ++ (if is_told then booking.now ∷ [] else [])) }
{
    if !is_told {
        return Ok(());
    }
    match all.push(*booking) {
        Ok(()) => Ok(()),
        Err(_) => Err(Memory),
    }
}

/// Whether the part tells of a live booking, by its new flight where it was asked for, and else by its old one.
fn is_told(
    part: Part,
    olds: &Flights,
    news: &Flights,
    booking: &Booking,
    next: Option<Numbered>,
) -> bool
    ensures { result ≡ is_told part olds.now news.now booking.now next }
{
    let _owned: Option<Owned> = None;
    match next {
        Some(numbered) => has_flight(part, news, numbered.owned.booking.place.flight),
        None => has_flight(part, olds, booking.place.flight),
    }
}

/// The next of those that were asked for, where it is this booking, and those behind it.
fn next_of<'a>(rest: &'a [Numbered], booking: &Booking) -> (Option<Numbered>, &'a [Numbered])
    ensures next { result.0 ≡ (next_of booking.now rest.now).0 }
    ensures behind { result.1.now ≡ (next_of booking.now rest.now).1 }
{
    let _booking: Option<Booking> = None;
    match rest {
        [] => (None, rest),
        [numbered, behind @ ..] => {
            if numbered.owned.booking.number == booking.number {
                (Some(*numbered), behind)
            } else {
                (None, rest)
            }
        }
    }
}
