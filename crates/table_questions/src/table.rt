//! What a table says of itself, and the question that it answers.
//! It knows no table.
ghost use Rattle.std.specs.Prelude.{◌≤◌, IfOk, OnOk};
ghost use Rattle.seat_desk.specs.AuditDesk.{most_lines};
ghost use Rattle.seat_desk.specs.Loading.{IsGridOf};
ghost use Rattle.seat_tables.specs.Sheets.{ArePut, IsBegun, IsReady};

use seat_core::Core;
use seat_desk::Standing;
use seat_tables::{Form, Sheet};
use ssim_flights::Flights;
use std::alloc::{AllocError, Global};

/// Rows that flights, opening limits and the lines of a journal give.
pub trait Table {
    ghost use Rattle.std.specs.Prelude.{ℕ, List};
    ghost use Rattle.seat_journal.specs.declared.entry.Entry.{Entry};
    ghost use Rattle.seat_nesting.specs.Nesting.{Ladders};
    ghost use Rattle.seat_tables.specs.declared.cell.Cell.{Cell};
    ghost use Rattle.ssim_flights.specs.declared.flight.Flight.{Flight};

    // The names of the columns.
    ghost names: { List (List ℕ) };

    // The rows over these flights and opening limits, after these lines.
    ghost rows: { Self → List Flight → Ladders → List Entry → List (List Cell) };

    /// A sheet with the head of the table, and no row.
    fn begun(&self, alloc: Global, form: Form) -> Result<Sheet, AllocError>
        ensures { IfOk result (IsBegun form names) };

    /// Adds the rows after the lines of an inventory.
    fn put_rows(
        &self,
        alloc: Global,
        sheet: &mut Sheet,
        flights: &Flights,
        core: &Core,
    ) -> Result<(), AllocError>
        requires ready { IsReady sheet.old }
        requires grid { IsGridOf flights.now core.now.grid }
        requires capped { core.now.cap ≤ most_lines }
        ensures { OnOk result (ArePut names (rows self.now flights.now core.now.grid core.now.journal)
            sheet.old sheet.new) };
}

/// The table, in a form.
#[derive(Clone, Copy)]
pub struct TableOf<'a, T> {
    pub asked: &'a T,
    pub form: Form,
}

impl<'a, T: Table> Standing for TableOf<'a, T> {
    ghost use Rattle.seat_tables.specs.Rows.{IsTable};

    ghost tells = { λ asked flights grid entries text.
        IsTable asked.form T.names (T.rows asked.asked.now flights grid entries) text };

    #[tactic(auto, using(seat_tables::proofs::Putting::table_of))]
    fn standing(
        &self,
        alloc: Global,
        flights: &Flights,
        core: &Core,
    ) -> Result<Vec<u8>, AllocError> {
        let mut sheet = self.asked.begun(alloc, self.form)?;
        self.asked.put_rows(alloc, &mut sheet, flights, core)?;
        sheet.into_text()
    }
}
