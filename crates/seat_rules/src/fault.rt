//! Why a command gets no line, and what is wrong with an entry.
use std::fmt;

/// Why a command gets no line.
#[derive(Clone, Copy)]
pub enum CoreFault {
    /// The journal has as many lines as it may have.
    JournalFull,
    /// Memory for the line was refused.
    Memory,
}

/// What is wrong with an entry, looked for in this order: number, caller, command, reply, released, advices.
#[derive(Clone, Copy)]
pub enum ReplayKind {
    /// Its number is not its place, or above the most lines.
    BadNumber,
    /// Another reply is right.
    OtherReply,
    /// Another number of released seats is right.
    OtherReleased,
    /// Other advices are right.
    OtherAdvices,
    /// Its session may not ask for this, or its call is not that session's next: seats are asked by sessions 1 to 8; limits are changed, and classes closed and opened, by session 0.
    BadCaller,
    /// Memory was refused.
    Memory,
    /// It has no seats, or more than 999, or a place that is not there; or it sets something on a leg that is not there, or a limit or a wait to more than 999.
    BadCommand,
}

impl fmt::Display for ReplayKind {
    ghost use Rattle.std.specs.Prelude.{Some};
    ghost use Rattle.seat_rules.specs.FaultText.{code_of};

    ghost output = { λ kind. Some (code_of kind) };

    /// The code, P1 to P7.
    fn fmt<W: fmt::Write>(&self, f: &mut fmt::Formatter<W>) -> fmt::Result {
        match self {
            ReplayKind::BadNumber => f.write_str("P1"),
            ReplayKind::OtherReply => f.write_str("P2"),
            ReplayKind::OtherReleased => f.write_str("P3"),
            ReplayKind::OtherAdvices => f.write_str("P4"),
            ReplayKind::BadCaller => f.write_str("P5"),
            ReplayKind::Memory => f.write_str("P6"),
            ReplayKind::BadCommand => f.write_str("P7"),
        }
    }
}

/// The first entry with a fault, by its place from 1, and its first fault.
#[derive(Clone, Copy)]
pub struct ReplayFault {
    pub number: u32,
    pub kind: ReplayKind,
}

impl fmt::Display for ReplayFault {
    ghost use Rattle.std.specs.Prelude.{Some};
    ghost use Rattle.seat_rules.specs.FaultText.{fault_text};

    ghost output = { λ fault. Some (fault_text fault) };

    /// The code and the place.
    fn fmt<W: fmt::Write>(&self, f: &mut fmt::Formatter<W>) -> fmt::Result {
        let kind = self.kind;
        let number = self.number;
        write!(f, "{kind} {number}")
    }
}
