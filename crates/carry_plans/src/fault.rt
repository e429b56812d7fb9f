//! Why nothing is carried.
ghost use Rattle.std.specs.Prelude.{◌≡◌, true, false};

use airline_base::Items;
use carry_protections::CourseFault;
use season_changes::SeasonFault;
use seat_desk::DeskFault;

/// Why live bookings are not carried to a new season.
#[derive(Drop)]
pub enum CarryFault {
    /// The new season, the old one, what stands beside the journal, or the journal has a fault.
    Season(SeasonFault),
    /// What stands beside the journal is no seal, or knows no more of it than its bytes: so it can't say that the bookings were carried.
    Unsealed,
    /// A row that says where bookings go is wrong, or can't be followed.
    Row(CourseFault),
    /// Legs of the new season have fewer seats than are held there: a line for each.
    Over(Items<u8>),
    /// The new journal has more lines than a journal may have.
    Full,
    Memory,
}

/// A fault of the new season.
pub(crate) fn of_new(fault: DeskFault) -> CarryFault
    ensures { result ≡ CarryFault.Season (record { is_new = true; fault = fault }) }
{
    CarryFault::Season(SeasonFault {
        is_new: true,
        fault,
    })
}

/// A fault of the old one, of what stands beside the journal, or of the journal.
pub(crate) fn of_old(fault: DeskFault) -> CarryFault
    ensures { result ≡ CarryFault.Season (record { is_new = false; fault = fault }) }
{
    CarryFault::Season(SeasonFault {
        is_new: false,
        fault,
    })
}
