//! Questions of how an inventory stands after a journal. All of them are asked in the same way, and what each tells is its own.
ghost use Rattle.std.specs.Prelude.{◌≤◌, IfOk};
ghost use Rattle.seat_desk.specs.AuditDesk.{most_lines};
ghost use Rattle.seat_desk.specs.Loading.{IsGridOf};

use crate::fault::DeskFault;
use crate::loading::Loaded;
use crate::question::Question;
use crate::replaying::replayed_in_parts;
use seat_core::Core;
use ssim_flights::Flights;
use std::alloc::{AllocError, Global};
use std::thread::Threads;

/// A question of how an inventory stands after the lines of a journal.
pub trait Standing {
    ghost use Rattle.std.specs.Prelude.{ℕ, List};
    ghost use Rattle.seat_journal.specs.declared.entry.Entry.{Entry};
    ghost use Rattle.seat_nesting.specs.Nesting.{Ladders};
    ghost use Rattle.ssim_flights.specs.declared.flight.Flight.{Flight};

    // What the text says of these flights and opening ladders, and of these lines.
    ghost tells: { Self → List Flight → Ladders → List Entry → List ℕ → Type 0 };

    /// The text over the inventory after the lines so far.
    fn standing(&self, alloc: Global, flights: &Flights, core: &Core) -> Result<Vec<u8>, AllocError>
        requires grid { IsGridOf flights.now core.now.grid }
        requires capped { core.now.cap ≤ most_lines }
        ensures { IfOk result (λ text. tells self.now flights.now core.now.grid core.now.journal text.items) };
}

/// What the question tells over the inventory that the journal leads to. A journal is refused as an audit refuses it.
impl<Q: Standing> Question for Q {
    ghost use Rattle.seat_desk.specs.AuditDesk.{IsUnlawful};
    ghost use Rattle.seat_desk.specs.After.{HoldsAfter};

    ghost answers = { λ asked flights rows grid journal text.
        HoldsAfter (λ entries. Q.tells asked flights grid entries text) grid journal };

    ghost refuses = { λ asked grid fault journal. IsUnlawful grid fault journal };

    #[tactic(auto, using(crate::proofs::Grounds::grid_of_rows, crate::proofs::After::grid_kept, crate::proofs::After::holds_after))]
    fn text<R: Threads + Sync>(
        &self,
        rt: &R,
        alloc: Global,
        loaded: Loaded,
        journal: Vec<u8>,
    ) -> Result<Vec<u8>, DeskFault> {
        let Loaded {
            flights,
            rows,
            grid,
        } = loaded;
        drop(rows);
        let core = replayed_in_parts(rt, alloc, grid, journal)?;
        match self.standing(alloc, &flights, &core) {
            Ok(text) => Ok(text),
            Err(_) => Err(DeskFault::Memory),
        }
    }
}
