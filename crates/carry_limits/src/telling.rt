//! How a leg reads on which more is held than there is.
//! It knows no other line.
ghost use Rattle.std.specs.Prelude.{◌≡◌, ◌++◌, ◌∷◌, [], OnOk};
ghost use Rattle.seat_desk.specs.FlightsDesk.{IsPut};
ghost use Rattle.carry_limits.specs.Overs.{IsOverLine, over_text};

use crate::counting::Over;
use limit_changes::put_name;
use seat_desk::{put, put_number};
use std::alloc::AllocError;

/// Adds a line `OVER FLIGHT DDMMMYY PAIR held SEATS of SEATS` for each leg.
pub fn put_overs(text: &mut Vec<u8>, overs: &[Over]) -> Result<(), AllocError>
    ensures { OnOk result (IsPut (λ n. IsOverLine) 0 overs.now text.old.items text.new.items) }
{
    for i in 0..overs.len() {
        put_over(text, &overs[i])?;
    }
    Ok(())
}

#[tactic(auto, using(crate::proofs::Told::over_put))]
fn put_over(text: &mut Vec<u8>, over: &Over) -> Result<(), AllocError>
    ensures { OnOk result (IsPut (λ n. IsOverLine) 0 (over.now ∷ []) text.old.items text.new.items) }
{
    put(text, b"OVER ")?;
    put_name(text, &over.leg)?;
    put_seats(text, over)
}

/// Adds what is held, and what there is.
fn put_seats(text: &mut Vec<u8>, over: &Over) -> Result<(), AllocError>
    ensures { OnOk result (text.new.items ≡ text.old.items ++ over_text over.now) }
{
    put(text, b" held ")?;
    put_number(text, u64::from(over.held))?;
    put(text, b" of ")?;
    put_number(text, u64::from(over.seats))?;
    put(text, b"\n")
}
