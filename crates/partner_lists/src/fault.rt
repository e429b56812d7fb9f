//! Why a partner's list is refused.
use airimp_lines::LineFault;
use airline_base::Memory;
use std::alloc::AllocError;
use std::fmt;

/// Why a line of a partner's list is refused.
#[derive(Clone, Copy)]
pub enum PartnerKind {
    /// No locator stands in its place, or no blank behind it.
    Locator,
    /// What stands behind the locator is no segment line.
    Line(LineFault),
    /// The code of the segment is neither HK nor HL.
    Status,
    /// A line ahead of it has the same locator and segment.
    Twice,
    /// A growth was refused.
    Memory,
}

impl fmt::Display for PartnerKind {
    ghost use Rattle.std.specs.Prelude.{Some};
    ghost use Rattle.partner_lists.specs.FaultText.{kind_text};

    ghost output = { λ kind. Some (kind_text kind) };

    /// The code, T1 to T4 or MEMORY, and behind T2 the line's own.
    fn fmt<W: fmt::Write>(&self, f: &mut fmt::Formatter<W>) -> fmt::Result {
        let kind = *self;
        match kind {
            PartnerKind::Locator => f.write_str("T1"),
            PartnerKind::Line(fault) => write!(f, "T2 {fault}"),
            PartnerKind::Status => f.write_str("T3"),
            PartnerKind::Twice => f.write_str("T4"),
            PartnerKind::Memory => f.write_str("MEMORY"),
        }
    }
}

impl From<AllocError> for PartnerKind {
    ghost use Rattle.std.specs.Prelude.{◌≡◌};
    ghost use Rattle.partner_lists.specs.declared.fault.PartnerKind.TheVariants.{Memory};

    ghost from_gives = { λ _ e. e ≡ Memory };

    fn from(_e: AllocError) -> PartnerKind {
        PartnerKind::Memory
    }
}

impl From<Memory> for PartnerKind {
    ghost use Rattle.std.specs.Prelude.{◌≡◌};
    ghost use Rattle.partner_lists.specs.declared.fault.PartnerKind.TheVariants.{Memory};

    ghost from_gives = { λ _ e. e ≡ Memory };

    fn from(_e: Memory) -> PartnerKind {
        PartnerKind::Memory
    }
}

/// The first line of a partner's list that is refused, and why.
#[derive(Clone, Copy)]
pub struct PartnerFault {
    /// The number of the line; lines count from 1.
    pub line: u32,
    pub kind: PartnerKind,
}

impl fmt::Display for PartnerFault {
    ghost use Rattle.std.specs.Prelude.{Some};
    ghost use Rattle.partner_lists.specs.FaultText.{fault_text};

    ghost output = { λ fault. Some (fault_text fault) };

    /// The kind and the line.
    fn fmt<W: fmt::Write>(&self, f: &mut fmt::Formatter<W>) -> fmt::Result {
        let kind = self.kind;
        let line = self.line;
        write!(f, "{kind} {line}")
    }
}
