//! `changes`: what brings the limits after a journal to those that are wanted.
//! It knows what is asked and answered, and neither how a limit comes to another nor how that reads.
ghost use Rattle.std.specs.Prelude.{◌≡◌, IfOk};
ghost use Rattle.seat_limits.specs.Authorised.{authorised_grid};
ghost use Rattle.seat_rules.specs.Inventory.{state_now};
ghost use Rattle.seat_desk.specs.FlightsDesk.{IsText};
ghost use Rattle.limit_changes.specs.Answers.{AreShortLines, IsChangesText, IsShortsText};
ghost use Rattle.limit_changes.specs.Lines.{IsRowLine};

use crate::legs::{LegsAsked, legs_by};
use crate::lines::{put_rows, put_shorts, put_unnamed};
use crate::rows::{Row, changes_of};
use crate::shorts::{Short, shorts_of, unnamed_of};
use seat_core::Core;
use seat_desk::Standing;
use seat_limits::{LimitRow, build_grid};
use seat_nesting::Grid;
use ssim_flights::{Flights, Served};
use std::alloc::{AllocError, Global};
use std::cell::Cell;

/// What is asked of the limits after a journal.
#[derive(Clone, Copy)]
pub struct ChangesOf<'a> {
    /// The limits that are wanted.
    pub wanted: &'a [LimitRow],
    /// Of which legs.
    pub legs: LegsAsked,
    /// Takes a line for each class whose limit does not come to what is wanted, last those of legs that no row names.
    pub shorts: &'a Cell<Option<Vec<u8>>>,
}

/// A line for each change, in an order in which each is accepted. A leg that is given no wanted limits stays as it is, and so does a class that the
/// wanted limits of its leg do not name, and a leg whose own flight, day and pair find another leg.
impl<'a> Standing for ChangesOf<'a> {
    ghost use Rattle.seat_limits.specs.Authorised.{authorised_grid};
    ghost use Rattle.seat_rules.specs.Journal.{replay};
    ghost use Rattle.limit_changes.specs.Answers.{IsChangesText};

    ghost tells = { λ asked flights grid entries text.
        IsChangesText asked.legs flights (authorised_grid asked.wanted.now flights) (replay grid entries) text };

    fn standing(
        &self,
        alloc: Global,
        flights: &Flights,
        core: &Core,
    ) -> Result<Vec<u8>, AllocError> {
        match answer_of(alloc, flights, core, self.wanted, &self.legs) {
            Ok(answer) => {
                self.shorts.set(Some(answer.shorts));
                Ok(answer.text)
            }
            Err(fault) => Err(fault),
        }
    }
}

/// The changes, and the classes whose limits do not come to what is wanted.
#[derive(Drop)]
struct Answer {
    text: Vec<u8>,
    shorts: Vec<u8>,
}

/// The answer over an inventory.
#[tactic(auto, using(crate::proofs::Answering::over_wanted))]
fn answer_of(
    alloc: Global,
    flights: &Flights,
    core: &Core,
    wanted: &[LimitRow],
    asked: &LegsAsked,
) -> Result<Answer, AllocError>
    ensures { IfOk result (λ a. IsChangesText asked.now flights.now (authorised_grid wanted.now flights.now) (state_now core.now) a.text.items) }
{
    let Ok(wanted) = build_grid(alloc, flights, wanted) else {
        return Err(AllocError);
    };
    let Ok(served) = Served::new(alloc, flights) else {
        return Err(AllocError);
    };
    answer_over(alloc, flights, &served, core, &wanted, asked)
}

/// The answer over the ladders that are wanted.
#[tactic(auto, using(crate::proofs::Answering::changes_text, crate::proofs::Answering::shorts_text))]
fn answer_over(
    alloc: Global,
    flights: &Flights,
    served: &Served<'_>,
    core: &Core,
    wanted: &Grid,
    asked: &LegsAsked,
) -> Result<Answer, AllocError>
    requires { served.now ≡ flights.now }
    ensures changes { IfOk result (λ a. IsChangesText asked.now flights.now wanted.now (state_now core.now) a.text.items) }
    ensures shorts { IfOk result (λ a. IsShortsText asked.now flights.now wanted.now (state_now core.now) a.shorts.items) }
{
    let legs = legs_by(alloc, flights, served, asked, true)?;
    let others = legs_by(alloc, flights, served, asked, false)?;
    let rows = changes_of(alloc, core, wanted, &legs)?;
    let shorts = shorts_of(alloc, core, wanted, &legs)?;
    let unnamed = unnamed_of(alloc, core, wanted, &others)?;
    Ok(Answer {
        text: rows_text(alloc, &rows)?,
        shorts: shorts_text(alloc, &shorts, &unnamed)?,
    })
}

/// A line for each change.
#[tactic(auto, using(seat_lists::proofs::LiveTexts::whole_text))]
fn rows_text(alloc: Global, rows: &[Row]) -> Result<Vec<u8>, AllocError>
    ensures { IfOk result (λ text. IsText (λ n. IsRowLine) 0 rows.now text.items) }
{
    let mut text = Vec::new(alloc);
    put_rows(&mut text, rows)?;
    Ok(text)
}

/// A line for each class whose limit does not come to what is wanted, and behind them one for each class of legs that no row names.
#[tactic(auto, using(crate::proofs::Answering::both_texts))]
fn shorts_text(alloc: Global, shorts: &[Short], unnamed: &[Short]) -> Result<Vec<u8>, AllocError>
    ensures { IfOk result (λ text. AreShortLines shorts.now unnamed.now text.items) }
{
    let mut text = Vec::new(alloc);
    put_shorts(&mut text, shorts)?;
    put_unnamed(&mut text, unnamed)?;
    Ok(text)
}
