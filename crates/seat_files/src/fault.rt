//! What the program is refused with: by a command, or for a word of its command line.
use airimp_lines::LineFault;
use seat_desk::DeskFault;
use seat_season::SeasonKind;
use seat_shards::ShardFault;
use seat_words::WordFault;
use std::fmt;

/// A fault of a command or of a word. Its text is the code, and where the fault stands.
#[derive(Clone, Copy)]
pub enum Fault {
    Desk(DeskFault),
    /// A fault of one of several journals.
    Shards(ShardFault),
    /// A feed is not that of its journal: its line of this number asks for something else than the journal's line of that.
    Feed { line: u32, number: u32 },
    Word(WordFault),
    /// A season file is none.
    Season(SeasonKind),
    /// A line of a partner's list, of its thresholds, or of what a carry is asked for is none, or a row of a list of refused lines is another; they count from 1.
    Listed { kind: ListKind, line: u32 },
    /// Bookings are not carried from a journal to another.
    Carry(CarryKind),
}

/// Why bookings are not carried from a journal to another.
#[derive(Clone, Copy)]
pub enum CarryKind {
    /// A carry of the journal to another result was begun and did not end.
    Unfinished,
    /// The new journal's file has bytes of another journal.
    New,
}

impl fmt::Display for CarryKind {
    ghost use Rattle.std.specs.Prelude.{Some};
    ghost use Rattle.seat_files.specs.Faults.{carry_code};

    ghost output = { λ kind. Some (carry_code kind) };

    /// CARRY and one word.
    fn fmt<W: fmt::Write>(&self, f: &mut fmt::Formatter<W>) -> fmt::Result {
        match self {
            CarryKind::Unfinished => f.write_str("CARRY unfinished"),
            CarryKind::New => f.write_str("CARRY new"),
        }
    }
}

/// What is wrong with a line of a partner's list, of its thresholds, of a list of refused lines, or of the two lists of a carry.
#[derive(Clone, Copy)]
pub enum ListKind {
    /// No locator stands in its place, or no blank behind it.
    Locator,
    /// What stands behind the locator is no segment line.
    Segment(LineFault),
    /// The code of the segment is neither HK nor HL.
    Status,
    /// A line ahead of it has the same locator and segment.
    Again,
    /// A threshold does not begin with a class.
    Class,
    /// An earlier threshold has that class.
    ClassAgain,
    /// A blank and one to three digits do not follow the class.
    Seats,
    /// A row of a list of refused lines is not that of the scripts.
    Refused,
    /// A line of those who keep their seats first is no locator.
    First,
    /// A line that says where bookings go is no such row.
    Protection,
    /// The old season has no flight of that name, day and pair of stations.
    Source,
    /// A row ahead of it says where these bookings go.
    SourceAgain,
    /// The new season has none where they are to go.
    Target,
    /// The flight where they are to go doesn't sell a class.
    TargetClass,
    /// A locator has a booking in that class there already.
    TargetHeld,
}

impl fmt::Display for ListKind {
    ghost use Rattle.std.specs.Prelude.{Some};
    ghost use Rattle.seat_files.specs.Faults.{list_code};

    ghost output = { λ kind. Some (list_code kind) };

    /// The code, T1 to T4, V1 to V3, W1, K1 or G1 to G6, and behind T2 that of the segment line.
    fn fmt<W: fmt::Write>(&self, f: &mut fmt::Formatter<W>) -> fmt::Result {
        match self {
            ListKind::Segment(fault) => write!(f, "T2 {fault}"),
            _ => f.write_str(self.code()),
        }
    }
}

impl ListKind {
    ghost use Rattle.std.specs.Prelude.{◌≡◌};
    ghost use Rattle.seat_files.specs.Faults.{kind_code};

    /// The code, without that of a segment line.
    fn code(&self) -> &'static str
        ensures { result.now ≡ kind_code self.now }
    {
        match self {
            ListKind::Locator => "T1",
            ListKind::Segment(_) => "T2",
            ListKind::Status => "T3",
            ListKind::Again => "T4",
            ListKind::Class => "V1",
            ListKind::ClassAgain => "V2",
            ListKind::Seats => "V3",
            ListKind::Refused => "W1",
            ListKind::First => "K1",
            ListKind::Protection => "G1",
            ListKind::Source => "G2",
            ListKind::SourceAgain => "G3",
            ListKind::Target => "G4",
            ListKind::TargetClass => "G5",
            ListKind::TargetHeld => "G6",
        }
    }
}

impl fmt::Display for Fault {
    ghost use Rattle.std.specs.Prelude.{Some};
    ghost use Rattle.seat_files.specs.Faults.{printed};

    ghost output = { λ fault. Some (printed fault) };

    /// The code, and where the fault stands.
    fn fmt<W: fmt::Write>(&self, f: &mut fmt::Formatter<W>) -> fmt::Result {
        match self {
            Fault::Desk(fault) => fault.fmt(f),
            Fault::Shards(fault) => fault.fmt(f),
            Fault::Feed { line, number } => write!(f, "FEED {line} {number}"),
            Fault::Word(fault) => fault.fmt(f),
            Fault::Season(fault) => fault.fmt(f),
            Fault::Listed { kind, line } => write!(f, "{kind} {line}"),
            Fault::Carry(kind) => kind.fmt(f),
        }
    }
}

impl Fault {
    ghost use Rattle.std.specs.Prelude.{◌≡◌};
    ghost use Rattle.seat_files.specs.Faults.{exit_status};

    /// The exit status: 2 for the command line, 1 for a feed, a season, a list or what is not carried, else that of the command's fault.
    pub fn status(&self) -> u8
        ensures { result ≡ exit_status self.now }
    {
        match self {
            Fault::Desk(fault) => fault.status(),
            Fault::Shards(fault) => fault.status(),
            Fault::Feed { .. } => 1,
            Fault::Word(_) => 2,
            Fault::Season(_) => 1,
            Fault::Listed { .. } => 1,
            Fault::Carry(_) => 1,
        }
    }
}
