//! What is wrong with limit rows and change rows.
ghost use Rattle.std.specs.Prelude.{◌≡◌};
ghost use Rattle.seat_limits.specs.FaultText.{kind_code};
ghost use Rattle.seat_limits.specs.declared.limit_fault.LimitKind.TheVariants.{Memory as Wanting};

use seat_nesting::LadderFault;
use std::alloc::AllocError;
use std::fmt;

/// Why a line is no limit row or no change row, or a text no ladder: the first fault from left to right.
#[derive(Clone, Copy)]
pub enum LimitKind {
    /// The line does not begin with `AU` and a blank; a change row may begin with `CLOSE` or `OPEN`.
    Head,
    /// An airline, a flight number, at most one letter and a blank do not follow.
    Flight,
    /// The dates do not follow, each with a blank behind it: two of a limit row, the second not before
    /// the first, and one of a change row.
    Period,
    /// Six letters do not follow, nor, where a class is closed or opened, one letter.
    Pair,
    /// The entries of a ladder, or the one entry or class of a change row, do not follow, or one of them is malformed.
    Entry,
    /// The entries are no ladder.
    Ladder(LadderFault),
    Memory,
}

impl From<AllocError> for LimitKind {
    ghost from_gives = { λ _ e. e ≡ Wanting };

    fn from(_e: AllocError) -> LimitKind {
        LimitKind::Memory
    }
}

impl fmt::Display for LimitKind {
    ghost use Rattle.std.specs.Prelude.{Some};
    ghost use Rattle.seat_limits.specs.FaultText.{kind_text};

    ghost output = { λ kind. Some (kind_text kind) };

    /// The code, with the ladder's own code behind M6.
    fn fmt<W: fmt::Write>(&self, f: &mut fmt::Formatter<W>) -> fmt::Result {
        match self {
            LimitKind::Ladder(fault) => write!(f, "M6 {fault}"),
            _ => f.write_str(code_of(self)),
        }
    }
}

/// The code.
fn code_of(kind: &LimitKind) -> &'static str
    ensures { result.now ≡ kind_code kind.now }
{
    match kind {
        LimitKind::Head => "M1",
        LimitKind::Flight => "M2",
        LimitKind::Period => "M3",
        LimitKind::Pair => "M4",
        LimitKind::Entry => "M5",
        LimitKind::Ladder(_) => "M6",
        LimitKind::Memory => "M7",
    }
}

/// The first line with a fault, counted from 1, and its first fault.
#[derive(Clone, Copy)]
pub struct LimitFault {
    pub line: u32,
    pub kind: LimitKind,
}

impl fmt::Display for LimitFault {
    ghost use Rattle.std.specs.Prelude.{Some};
    ghost use Rattle.seat_limits.specs.FaultText.{fault_text};

    ghost output = { λ fault. Some (fault_text fault) };

    /// The code and the line.
    fn fmt<W: fmt::Write>(&self, f: &mut fmt::Formatter<W>) -> fmt::Result {
        let kind = self.kind;
        let line = self.line;
        write!(f, "{kind} {line}")
    }
}
