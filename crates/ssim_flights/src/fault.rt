//! Why legs are no flights.
ghost use Rattle.std.specs.Prelude.{◌≡◌};
ghost use Rattle.ssim_flights.specs.Flown.{memory_fault};

use std::fmt;

/// The first fault of the first itinerary that has one.
#[derive(Clone, Copy)]
pub struct FlightFault {
    /// The serial number of the record, 0 for want of memory.
    pub serial: u32,
    pub kind: FlightKind,
}

/// What is wrong with an itinerary, in the order in which it is looked for.
#[derive(Clone, Copy)]
pub enum FlightKind {
    /// A number from 1 to the highest leg sequence has no record.
    MissingLeg,
    /// A leg sequence stands twice.
    RepeatedLeg,
    /// A leg arrives elsewhere than the next one departs.
    BrokenChain,
    /// The legs have different counts of operating days, and none has an open end.
    LegDatesDiffer,
    /// A leg departs more than one local day before the leg ahead of it.
    DatesFallBack,
    /// An earlier itinerary has a flight of the same number, suffix and first operating day.
    TwiceOnDate,
    /// There are more than 8 legs.
    TooManyLegs,
    /// There are more flights than were asked for.
    TooManyFlights,
    /// A growth was refused.
    Memory,
}

impl FlightFault {
    /// Want of memory.
    pub(crate) fn of_memory() -> FlightFault
        ensures { result ≡ memory_fault }
    {
        FlightFault {
            serial: 0,
            kind: FlightKind::Memory,
        }
    }
}

impl fmt::Display for FlightFault {
    ghost use Rattle.std.specs.Prelude.{Some};
    ghost use Rattle.ssim_flights.specs.FaultText.{fault_text};

    ghost output = { λ fault. Some (fault_text fault) };

    /// The code and the serial number.
    fn fmt<W: fmt::Write>(&self, f: &mut fmt::Formatter<W>) -> fmt::Result {
        let kind = self.kind;
        let serial = self.serial;
        write!(f, "{kind} {serial}")
    }
}

impl fmt::Display for FlightKind {
    ghost use Rattle.std.specs.Prelude.{Some};
    ghost use Rattle.ssim_flights.specs.FaultText.{code_of};

    ghost output = { λ kind. Some (code_of kind) };

    fn fmt<W: fmt::Write>(&self, f: &mut fmt::Formatter<W>) -> fmt::Result {
        f.write_str(match self {
            FlightKind::MissingLeg => "F1",
            FlightKind::RepeatedLeg => "F2",
            FlightKind::BrokenChain => "F3",
            FlightKind::LegDatesDiffer => "F4",
            FlightKind::DatesFallBack => "F5",
            FlightKind::TwiceOnDate => "F6",
            FlightKind::TooManyLegs => "F7",
            FlightKind::TooManyFlights => "F8",
            FlightKind::Memory => "F9",
        })
    }
}
