//! What is wrong with a partner's thresholds.
ghost use Rattle.std.specs.Prelude.{◌≡◌};
ghost use Rattle.seat_availability.specs.declared.partner_fault.PartnerKind.TheVariants.{Memory as Wanting};

use std::alloc::AllocError;

/// Why a line is no threshold: the first fault from left to right.
#[derive(Clone, Copy)]
pub enum PartnerKind {
    /// The line does not begin with a class, a letter A to Z.
    Class,
    /// An earlier line has that class.
    Twice,
    /// A blank and one to three digits do not follow, to the end of the line.
    Seats,
    Memory,
}

impl From<AllocError> for PartnerKind {
    ghost from_gives = { λ _ e. e ≡ Wanting };

    fn from(_e: AllocError) -> PartnerKind {
        PartnerKind::Memory
    }
}

/// The first line with a fault, counted from 1, and its first fault.
#[derive(Clone, Copy)]
pub struct PartnerFault {
    pub line: u32,
    pub kind: PartnerKind,
}
