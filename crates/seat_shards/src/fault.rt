//! What several journals are refused with.
ghost use Rattle.std.specs.Prelude.{◌≡◌};
ghost use Rattle.seat_shards.specs.Faults.{placed, status_of_shards};

use seat_desk::DeskFault;
use std::fmt;

/// Why journals of hosts that have different flights are refused. Its text is that of a journal by itself behind the journal's place
/// among the words, counted from 1.
#[derive(Clone, Copy)]
pub enum ShardFault {
    /// The set or the limits, or what says nothing about an input: a device or memory.
    Desk(DeskFault),
    /// The journal at this place, by itself.
    Journal { place: u32, fault: DeskFault },
    /// The line of this number of the journal at this place is the first on a flight on which an earlier one has a line, the one at
    /// the other place.
    Shared { place: u32, number: u32, other: u32 },
}

impl fmt::Display for ShardFault {
    ghost use Rattle.std.specs.Prelude.{Some};
    ghost use Rattle.seat_shards.specs.Faults.{shard_text};

    ghost output = { λ fault. Some (shard_text fault) };

    /// The place of the journal, the code, and where the fault stands.
    fn fmt<W: fmt::Write>(&self, f: &mut fmt::Formatter<W>) -> fmt::Result {
        match self {
            ShardFault::Desk(fault) => fault.fmt(f),
            ShardFault::Journal { place, fault } => {
                write!(f, "{place}: ")?;
                fault.fmt(f)
            }
            ShardFault::Shared {
                place,
                number,
                other,
            } => write!(f, "{place}: P9 {number} {other}"),
        }
    }
}

impl ShardFault {
    /// The fault of the journal at this place. A device and memory say nothing about it.
    pub(crate) fn of_journal(place: u32, fault: DeskFault) -> ShardFault
        ensures { result ≡ placed place fault }
    {
        match fault {
            DeskFault::Device | DeskFault::Memory => ShardFault::Desk(fault),
            _ => ShardFault::Journal { place, fault },
        }
    }

    /// The exit status: that of the desk's fault, and 1 for a journal that is refused.
    pub fn status(&self) -> u8
        ensures { result ≡ status_of_shards self.now }
    {
        match self {
            ShardFault::Desk(fault) => fault.status(),
            ShardFault::Journal { .. } | ShardFault::Shared { .. } => 1,
        }
    }
}
