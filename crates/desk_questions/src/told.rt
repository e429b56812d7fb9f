//! `told`: what a desk is told of a journal. It knows whose text it is and from which line on, and nothing of how a line is worded.

use desk_telling::put_told_behind;
use seat_core::Core;
use seat_desk::Standing;
use ssim_flights::Flights;
use std::alloc::{AllocError, Global};

/// What a desk, named by its session, is told of the lines of a journal from this number on: the replies to its own lines, and the advices
/// to bookings of its own.
#[derive(Clone, Copy)]
pub struct ToldOf {
    pub desk: u8,
    /// The first line that is told of, counted from 1.
    pub from: u32,
}

impl Standing for ToldOf {
    ghost use Rattle.std.specs.Prelude.{◌-◌};
    ghost use Rattle.desk_telling.specs.Telling.{AreTold, told_behind};

    ghost tells = { λ asked flights grid entries text.
        AreTold flights asked.desk (told_behind entries asked.desk (asked.from - 1)) text };

    #[tactic(auto, using(crate::proofs::Tellings::told_whole))]
    fn standing(
        &self,
        alloc: Global,
        flights: &Flights,
        core: &Core,
    ) -> Result<Vec<u8>, AllocError> {
        let mut text = Vec::new(alloc);
        let behind = self.from.saturating_sub(1) as usize;
        match put_told_behind(&mut text, flights, core.journal(), self.desk, behind) {
            Ok(()) => Ok(text),
            Err(_) => Err(AllocError),
        }
    }
}
