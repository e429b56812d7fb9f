//! Why a host does not begin, or does not end its journal, as the refusal that names the file.
//! It knows the faults of each kind of host, and nothing of how one is served.
use airline_base::{Failures, ReadFault};
use desk_serving::{FedFault, HostedFault, StreamFault};
use desk_talk::{DayFault, ServedFault, TalkFault};
use seat_desk::DeskFault;
use seat_files::{Input, Output, Refusal};
use seat_serving::ServeFault;
use seat_tape::{BesideFile, TapeFile};
use seat_words::WordFault;

/// Why a journal is not ended and sealed, by whom its host serves.
pub enum Unserved {
    /// A desk on standard input.
    Desk(ServedFault),
    /// A feed.
    Feed(FedFault),
    /// Desks on pipes.
    Pipes(HostedFault),
}

/// The refusal that it is.
pub fn refusal_of(
    fault: Unserved,
    journal: &str,
    tape: TapeFile,
    input: &Input,
    out: &Output,
) -> Refusal {
    match fault {
        Unserved::Desk(fault) => untalked(fault, journal, tape, input, out),
        Unserved::Feed(fault) => unfed(fault, journal, &tape, out),
        Unserved::Pipes(fault) => unended(fault, journal, &tape),
    }
}

/// Why the journal is not read.
pub fn unread(fault: ReadFault, journal: &str, tape: &TapeFile) -> Refusal {
    match fault {
        ReadFault::Device => failed(journal, tape),
        ReadFault::TooLarge => Refusal::from(DeskFault::TooLarge).at(journal, None),
        ReadFault::Memory => Refusal::from(DeskFault::Memory),
    }
}

/// Why nothing goes on from the journal.
pub fn stopped(refused: (DeskFault, TapeFile), journal: &str, beside: &BesideFile<'_>) -> Refusal {
    let (fault, tape) = refused;
    match fault {
        DeskFault::Memory => Refusal::from(fault),
        DeskFault::Device if tape.failures() > 0 => failed(journal, &tape),
        DeskFault::Device if beside.wants_memory() => Refusal::from(DeskFault::Memory),
        DeskFault::Device if beside.failures() > 0 => Refusal::from(fault).at(
            journal,
            beside.reason(),
        ),
        // (the seal's file)
        DeskFault::Device => Refusal::from(fault),
        _ => Refusal::from(fault).at(journal, None),
    }
}

/// Why the journal of desks on pipes is not ended and sealed.
fn unended(fault: HostedFault, journal: &str, tape: &TapeFile) -> Refusal {
    match fault {
        HostedFault::Day(ServeFault::Device) => failed(journal, tape),
        HostedFault::Day(ServeFault::Memory) => Refusal::from(DeskFault::Memory),
        HostedFault::Seal(DeskFault::TooLarge) | HostedFault::Dating(DeskFault::TooLarge) => {
            Refusal::from(DeskFault::TooLarge).at(journal, None)
        }
        HostedFault::Seal(fault) | HostedFault::Dating(fault) => Refusal::from(fault),
    }
}

/// Why the journal of a desk on standard input is not ended and sealed.
fn untalked(
    fault: ServedFault,
    journal: &str,
    tape: TapeFile,
    input: &Input,
    out: &Output,
) -> Refusal {
    match fault {
        ServedFault::Day(DayFault::Talk(TalkFault::Input)) => Refusal::unread(input),
        ServedFault::Day(DayFault::Talk(TalkFault::Output)) => {
            Refusal::from(DeskFault::Device).noting_output(out)
        }
        ServedFault::Day(DayFault::Talk(TalkFault::Journal)) => failed(journal, &tape),
        ServedFault::Day(DayFault::Talk(TalkFault::Memory)) => Refusal::from(DeskFault::Memory),
        ServedFault::Day(DayFault::End(ServeFault::Device)) => failed(journal, &tape),
        ServedFault::Day(DayFault::End(ServeFault::Memory)) => Refusal::from(DeskFault::Memory),
        ServedFault::Seal(DeskFault::TooLarge) => Refusal::from(DeskFault::TooLarge).at(
            journal, None,
        ),
        ServedFault::Seal(fault) => Refusal::from(fault),
    }
}

/// Why the journal of a feed is not ended and sealed.
fn unfed(fault: FedFault, journal: &str, tape: &TapeFile, out: &Output) -> Refusal {
    match fault {
        FedFault::Behind => Refusal::from(WordFault::BadBehind),
        FedFault::Broken(StreamFault::Strange(line, number)) => {
            Refusal::strange(journal, line, number)
        }
        FedFault::Broken(StreamFault::Output) => {
            Refusal::from(DeskFault::Device).noting_output(out)
        }
        FedFault::Broken(StreamFault::Input) => Refusal::from(DeskFault::Device),
        FedFault::Broken(StreamFault::Memory) => Refusal::from(DeskFault::Memory),
        FedFault::Broken(StreamFault::Journal) => failed(journal, tape),
        FedFault::End(ServeFault::Device) => failed(journal, tape),
        FedFault::End(ServeFault::Memory) => Refusal::from(DeskFault::Memory),
        FedFault::Seal(DeskFault::TooLarge)
        | FedFault::Broken(StreamFault::Dating(DeskFault::TooLarge)) => {
            Refusal::from(DeskFault::TooLarge).at(journal, None)
        }
        FedFault::Seal(fault) | FedFault::Broken(StreamFault::Dating(fault)) => {
            Refusal::from(fault)
        }
    }
}

/// The journal's file failed.
fn failed(journal: &str, tape: &TapeFile) -> Refusal {
    Refusal::from(DeskFault::Device).at(journal, tape.reason())
}
