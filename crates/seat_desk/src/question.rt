//! What a question says of itself.
ghost use denote.Param.Send.{IsSync};
ghost use Rattle.std.specs.Prelude.{◌≡◌, ◌≢◌, ◌≤◌, IfErr, IfOk, length};
ghost use Rattle.seat_limits.specs.Authorised.{authorised_grid};
ghost use Rattle.seat_desk.specs.AuditDesk.{most_journal_bytes};

use crate::fault::DeskFault;
use crate::loading::Loaded;
use std::alloc::Global;
use std::thread::Threads;

/// A question about the flights and limits of a horizon and a journal over them. Its answer is a text.
pub trait Question {
    ghost use Rattle.std.specs.Prelude.{ℕ, List};
    ghost use Rattle.seat_limits.specs.declared.limit_row.LimitRow.{LimitRow};
    ghost use Rattle.seat_nesting.specs.Nesting.{Ladders};
    ghost use Rattle.ssim_flights.specs.declared.flight.Flight.{Flight};
    ghost use Rattle.seat_desk.specs.declared.fault.DeskFault.{DeskFault};

    // What the text says of the flights, the limit rows, the ladders that these give, and the bytes of the journal.
    ghost answers: { Self → List Flight → List LimitRow → Ladders → List ℕ → List ℕ → Type 0 };

    // Why the bytes of a journal over these ladders have no answer.
    ghost refuses: { Self → Ladders → DeskFault → List ℕ → Type 0 };

    /// The answer, if the journal has one. What of the flights and limits is not needed can be dropped first. A long journal may be read
    /// and replayed on all processors.
    fn text<R: Threads + Sync>(
        &self,
        rt: &R,
        alloc: Global,
        loaded: Loaded,
        journal: Vec<u8>,
    ) -> Result<Vec<u8>, DeskFault>
        requires sync { IsSync R.row }
        requires size { length journal.items ≤ most_journal_bytes }
        requires grid { loaded.grid ≡ authorised_grid loaded.rows loaded.flights }
        ensures ok { IfOk result (λ text. answers self.now loaded.flights loaded.rows loaded.grid journal.items
            text.items) }
        ensures fault { IfErr result (λ f. f ≢ DeskFault.Memory → refuses self.now loaded.grid f journal.items) }
        ensures kind { IfErr result (λ f. (f ≢ DeskFault.Device) × (f ≢ DeskFault.TooLarge)) };
}
