//! What a command is refused with.
ghost use Rattle.std.specs.Prelude.{◌≡◌};
ghost use Rattle.seat_desk.specs.AuditDesk.{journal_fault, replay_refusal};
ghost use Rattle.seat_desk.specs.Status.{status_of};

use airimp_lines::ScriptFault;
use seat_journal::{JournalFault, JournalKind};
use seat_limits::LimitFault;
use seat_rules::{ReplayFault, ReplayKind};
use seat_seal::SealFault;
use ssim_flights::FlightFault;
use ssim_records::SetFault;
use std::fmt;

/// Why a command is refused. Its text is the code, and where the fault stands.
#[derive(Clone, Copy)]
pub enum DeskFault {
    /// The bytes are no data set.
    Set(SetFault),
    /// The legs are no flights.
    Flight(FlightFault),
    /// A ladder or a limit row is malformed.
    Limit(LimitFault),
    /// A change row is malformed.
    Change(LimitFault),
    /// A change row names no leg: no flight has its cities on its day, or they are further apart than one leg.
    NoLeg { line: u32 },
    /// A line is no command.
    Command { line: u32 },
    /// A command beyond those that a journal has room for.
    Full { line: u32 },
    /// What stands beside the journal is no seal of it.
    Seal(SealFault),
    /// The bytes are no journal.
    Journal(JournalFault),
    /// The entries are no legal history.
    Replay(ReplayFault),
    /// A line of a script is no request. The scripts' sessions count from 1.
    Script { session: u8, fault: ScriptFault },
    /// A line of the journal is not what its session's script asks at that call, or the script asks more or less.
    Unasked { session: u8, call: u32 },
    /// A call of a session, to which a full journal gave no line.
    Book { session: u8, call: u32 },
    /// The journal has no line of the number that the command line asks for.
    NoLine,
    /// The journal has fewer lines than the command line says that it began with.
    NoBehind,
    /// An input has more bytes than it may have.
    TooLarge,
    /// A device failed.
    Device,
    /// A growth was refused.
    Memory,
}

impl fmt::Display for DeskFault {
    ghost use Rattle.std.specs.Prelude.{Some};
    ghost use Rattle.seat_desk.specs.FaultText.{fault_text};

    ghost output = { λ fault. Some (fault_text fault) };

    /// The code, and where the fault stands.
    fn fmt<W: fmt::Write>(&self, f: &mut fmt::Formatter<W>) -> fmt::Result {
        match self {
            DeskFault::Set(fault) => fault.fmt(f),
            DeskFault::Flight(fault) => fault.fmt(f),
            DeskFault::Limit(fault) => fault.fmt(f),
            DeskFault::Change(fault) => fault.fmt(f),
            DeskFault::NoLeg { line } => write!(f, "U1 {line}"),
            DeskFault::Seal(fault) => fault.fmt(f),
            DeskFault::Journal(fault) => fault.fmt(f),
            DeskFault::Replay(fault) => fault.fmt(f),
            DeskFault::Command { line } => write!(f, "E1 {line}"),
            DeskFault::Full { line } => write!(f, "C1 {line}"),
            DeskFault::Script { session, fault } => {
                let kind = fault.kind;
                let line = fault.line;
                write!(f, "{kind} {session} {line}")
            }
            DeskFault::Unasked { session, call } => write!(f, "P8 {session} {call}"),
            DeskFault::Book { session, call } => write!(f, "B1 {session} {call}"),
            DeskFault::NoLine => f.write_str("E2 line"),
            DeskFault::NoBehind => f.write_str("E2 behind"),
            DeskFault::TooLarge => f.write_str("R2"),
            DeskFault::Device => f.write_str("DEVICE"),
            DeskFault::Memory => f.write_str("MEMORY"),
        }
    }
}

impl DeskFault {
    /// The refusal of bytes that are no journal. Want of memory says nothing about them.
    pub fn of_journal(fault: JournalFault) -> DeskFault
        ensures { result ≡ journal_fault fault }
    {
        match fault.kind {
            JournalKind::Memory => DeskFault::Memory,
            _ => DeskFault::Journal(fault),
        }
    }

    /// The refusal of entries that are no legal history. Want of memory says nothing about them.
    pub fn of_replay(fault: ReplayFault) -> DeskFault
        ensures { result ≡ replay_refusal fault }
    {
        match fault.kind {
            ReplayKind::Memory => DeskFault::Memory,
            _ => DeskFault::Replay(fault),
        }
    }

    /// The exit status: 2 for a line that is asked for and not there, or for more lines than there are, 3 for a device or memory, 1 for an input that is refused.
    pub fn status(&self) -> u8
        ensures { result ≡ status_of self.now }
    {
        match self {
            DeskFault::NoLine | DeskFault::NoBehind => 2,
            DeskFault::Device | DeskFault::Memory => 3,
            _ => 1,
        }
    }
}
