//! What a comparison of two seasons is refused with.
ghost use Rattle.std.specs.Prelude.{◌≡◌};
ghost use Rattle.seat_shards.specs.Faults.{placed};
ghost use Rattle.season_changes.specs.Faults.{of_old, shown};

use seat_desk::DeskFault;
use seat_shards::ShardFault;

/// Why two seasons are not compared.
#[derive(Clone, Copy)]
pub struct SeasonFault {
    /// Whether it is met as the new season is read, rather than the old one with its journal.
    pub is_new: bool,
    pub fault: DeskFault,
}

impl SeasonFault {
    /// What is printed: a fault of a season's set or limits stands behind the place of the season, 1 for the old one and 2 for the new one.
    /// One of the journal, of the size of an input of the old season or of the journal, of a device or of memory stands alone.
    pub fn shown(&self) -> ShardFault
        ensures { result ≡ shown self.now.is_new self.now.fault }
    {
        if self.is_new {
            of_new(self.fault)
        } else {
            of_old(self.fault)
        }
    }
}

fn of_new(fault: DeskFault) -> ShardFault
    ensures { result ≡ placed 2 fault }
{
    match fault {
        DeskFault::Device | DeskFault::Memory => ShardFault::Desk(fault),
        _ => ShardFault::Journal { place: 2, fault },
    }
}

fn of_old(fault: DeskFault) -> ShardFault
    ensures { result ≡ of_old fault }
{
    match fault {
        DeskFault::Set(_) | DeskFault::Flight(_) | DeskFault::Limit(_) => {
            ShardFault::Journal { place: 1, fault }
        }
        _ => ShardFault::Desk(fault),
    }
}
