//! Why a line or a script is refused.
ghost use Rattle.std.specs.Prelude.{◌≡◌};
ghost use Rattle.airimp_lines.specs.FaultText.{line_code};
ghost use Rattle.airimp_lines.specs.declared.fault.ScriptKind.TheVariants.{Memory};

use std::alloc::AllocError;
use std::fmt;

/// Why a line is no segment line. Of several faults it is the first from left to right.
#[derive(Clone, Copy)]
pub enum LineFault {
    /// Fewer than 20 bytes or more than 69.
    Length,
    /// The first two bytes are no airline designator.
    Airline,
    /// No flight number of one to four digits, or the number 0.
    Number,
    /// Neither a class nor a suffix and a class.
    Class,
    /// No day and month, or a day that no year has.
    Day,
    /// Not a blank and two stations.
    Pair,
    /// Not a blank and a code of two letters.
    Code,
    /// No number of seats of one to three digits, or the number 0.
    Seats,
    /// Behind the seats stands something other than a stroke and printable bytes.
    Tail,
}

impl fmt::Display for LineFault {
    ghost use Rattle.std.specs.Prelude.{Some};
    ghost use Rattle.airimp_lines.specs.FaultText.{line_code};

    ghost output = { λ fault. Some (line_code fault) };

    /// The code, A1 to A9.
    fn fmt<W: fmt::Write>(&self, f: &mut fmt::Formatter<W>) -> fmt::Result {
        f.write_str(line_code(*self))
    }
}

fn line_code(fault: LineFault) -> &'static str
    ensures { result.now ≡ line_code fault }
{
    match fault {
        LineFault::Length => "A1",
        LineFault::Airline => "A2",
        LineFault::Number => "A3",
        LineFault::Class => "A4",
        LineFault::Day => "A5",
        LineFault::Pair => "A6",
        LineFault::Code => "A7",
        LineFault::Seats => "A8",
        LineFault::Tail => "A9",
    }
}

/// Why a line of a script is refused.
#[derive(Clone, Copy)]
pub enum ScriptKind {
    /// The first line of a message has no locator in its place.
    Locator,
    /// A line that should be a segment line is not one.
    Line(LineFault),
    /// A request could not be stored.
    Memory,
}

impl fmt::Display for ScriptKind {
    ghost use Rattle.std.specs.Prelude.{Some};
    ghost use Rattle.airimp_lines.specs.FaultText.{kind_text};

    ghost output = { λ kind. Some (kind_text kind) };

    /// The code, Q1 to Q3, and behind Q2 the line's own.
    fn fmt<W: fmt::Write>(&self, f: &mut fmt::Formatter<W>) -> fmt::Result {
        let code = match *self {
            ScriptKind::Locator => "Q1",
            ScriptKind::Line(fault) => return write!(f, "Q2 {fault}"),
            ScriptKind::Memory => "Q3",
        };
        f.write_str(code)
    }
}

impl From<AllocError> for ScriptKind {
    ghost from_gives = { λ _ e. e ≡ Memory };

    fn from(_e: AllocError) -> ScriptKind {
        ScriptKind::Memory
    }
}

/// The first line of a script that is refused, and why.
#[derive(Clone, Copy)]
pub struct ScriptFault {
    /// The number of the line; lines count from 1, empty ones too.
    pub line: u32,
    pub kind: ScriptKind,
}

impl fmt::Display for ScriptFault {
    ghost use Rattle.std.specs.Prelude.{Some};
    ghost use Rattle.airimp_lines.specs.FaultText.{fault_text};

    ghost output = { λ fault. Some (fault_text fault) };

    /// The kind and the line.
    fn fmt<W: fmt::Write>(&self, f: &mut fmt::Formatter<W>) -> fmt::Result {
        let kind = self.kind;
        let line = self.line;
        write!(f, "{kind} {line}")
    }
}
