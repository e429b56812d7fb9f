//! `reconcile`: in what a partner's list and the live bookings of a journal differ.
//! It knows whose bookings are compared, and nothing of how one is found or how a difference reads.
ghost use Rattle.std.specs.Prelude.{◌≡◌, IfOk, length};
ghost use Rattle.seat_rules.specs.Inventory.{state_now};
ghost use Rattle.seat_desk.specs.Loading.{IsGridOf};
ghost use Rattle.partner_questions.specs.Here.{compared};
ghost use Rattle.partner_questions.specs.Differences.{differences};
ghost use Rattle.partner_questions.specs.Reconciled.{Reconciles};

use crate::comparing::differences;
use crate::here::compared;
use crate::text::text_of;
use airimp_lines::Request;
use airline_base::Memory;
use seat_core::Core;
use seat_desk::Standing;
use ssim_flights::Flights;
use std::alloc::{AllocError, Global};
use std::cell::Cell;

/// In what the lines of a list and the live bookings of a journal differ, a line each, and a last line with the lines of the list that are the same and
/// the number of differences.
#[derive(Clone, Copy)]
pub struct ReconcileOf<'a> {
    pub theirs: &'a [Request],
    /// Bookings that lines of this session made; else all.
    pub session: Option<u8>,
    /// Takes the number of differences of the answer.
    pub differ: &'a Cell<usize>,
}

impl<'a> Standing for ReconcileOf<'a> {
    ghost use Rattle.seat_rules.specs.Journal.{replay};
    ghost use Rattle.partner_questions.specs.Here.{compared};
    ghost use Rattle.partner_questions.specs.Reconciled.{Reconciles};

    ghost tells = { λ asked flights grid entries text.
        Reconciles flights entries (compared flights asked.session entries (replay grid entries).bookings) asked.theirs.now text };

    fn standing(
        &self,
        alloc: Global,
        flights: &Flights,
        core: &Core,
    ) -> Result<Vec<u8>, AllocError> {
        match answer_of(alloc, flights, core, self.session, self.theirs) {
            Ok(answer) => {
                self.differ.set(answer.differ);
                Ok(answer.text)
            }
            Err(_) => Err(AllocError),
        }
    }
}

/// An answer, and how many differences it tells of.
#[derive(Drop)]
struct Answer {
    text: Vec<u8>,
    differ: usize,
}

/// The answer over an inventory, with the number of its differences.
#[tactic(auto, using(crate::proofs::Reconciling::answered, crate::proofs::Reconciling::counted))]
fn answer_of(
    alloc: Global,
    flights: &Flights,
    core: &Core,
    session: Option<u8>,
    theirs: &[Request],
) -> Result<Answer, Memory>
    requires grid { IsGridOf flights.now core.now.grid }
    ensures text { IfOk result (λ a. Reconciles flights.now core.now.journal
        (compared flights.now session core.now.journal (state_now core.now).bookings) theirs.now a.text.items) }
    ensures differ { IfOk result (λ a. a.differ ≡ length (differences flights.now core.now.journal
        (compared flights.now session core.now.journal (state_now core.now).bookings) theirs.now)) }
{
    let ours = compared(alloc, flights, core, session)?;
    let found = differences(alloc, flights, core.journal(), ours.as_slice(), theirs)?;
    let text = text_of(alloc, found.all.as_slice(), found.same)?;
    Ok(Answer {
        text,
        differ: found.all.len(),
    })
}
