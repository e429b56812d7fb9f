//! What a command is refused with, and the file that it is refused for.
ghost use Rattle.std.specs.Prelude.{◌≡◌, IfErr, IsErrAnd, IsOk, IsTrue};
ghost use Rattle.seat_files.specs.Faults.{exit_status, list_text, printed};
ghost use Rattle.seat_files.specs.Refusals.{is_failure, is_of_seal, unlisted};
ghost use Rattle.seat_shards.specs.Faults.{shard_text, status_of_shards};

use crate::fault::{CarryKind, Fault, ListKind};
use crate::journal_file::{JournalFile, is_link};
use crate::seal_out::SealOut;
use crate::streams::{Input, OUTPUT, Output};
use crate::telling::{ToldName, ToldWords};
use airline_base::Failures;
use seat_desk::DeskFault;
use seat_seal::SealFault;
use seat_season::SeasonKind;
use seat_shards::ShardFault;
use seat_words::WordFault;
use std::fmt::Write;
use std::{fmt, fs, io};

/// The system's number for a pipe whose reader has gone away (EPIPE).
const READER_GONE: i32 = 32;

/// The system's number for a descriptor that is not open (EBADF).
const NOT_OPEN: i32 = 9;

/// A fault, with the name of its file where that is known, and the system's number for a failure.
#[derive(Clone, Copy)]
pub struct Refusal {
    pub fault: Fault,
    file: Option<ToldName>,
    /// What the name of the very file ends with behind that, where it is one that stands beside it.
    ending: Ending,
    reason: Option<i32>,
    /// Why the file may not be what it is named for.
    why: Option<ToldWords>,
    /// The file begins with a byte order mark.
    has_mark: bool,
    /// Whoever read standard output has gone away, or standard error goes to the file itself, and nothing is told.
    is_unheard: bool,
    /// The journal of a run whose replies failed.
    put: Option<Put>,
    /// The key that no season has, where the fault is of one.
    key: Option<ToldWords>,
}

/// What the name of a file beside another ends with: a word, and behind it a number where it has one.
#[derive(Clone, Copy)]
struct Ending {
    word: ToldWords,
    number: Option<u32>,
}

impl Ending {
    fn of(word: &str) -> Ending {
        Ending {
            word: ToldWords::of(word),
            number: None,
        }
    }
}

impl fmt::Display for Ending {
    fn fmt<W: fmt::Write>(&self, f: &mut fmt::Formatter<W>) -> fmt::Result {
        f.write_str(self.word.as_str())?;
        match self.number {
            Some(number) => write!(f, "{number}"),
            None => Ok(()),
        }
    }
}

/// A file that has a run's journal: behind how many lines its scripts stand, and how many it had of them ahead of the new ones.
#[derive(Clone, Copy)]
struct Put {
    file: ToldName,
    behind: u64,
    resumed: u64,
}

impl fmt::Display for Put {
    /// The options of `replies` with which it writes what the run would have written.
    fn fmt<W: fmt::Write>(&self, f: &mut fmt::Formatter<W>) -> fmt::Result {
        if self.behind > 0 {
            write!(f, " --behind {}", self.behind)?;
        }
        if self.resumed > 0 {
            write!(f, " --from {}", self.resumed.saturating_add(1))?;
        }
        Ok(())
    }
}

impl Refusal {
    fn of(fault: Fault) -> Refusal
        ensures { result.fault ≡ fault }
    {
        Refusal {
            fault,
            file: None,
            ending: Ending::of(""),
            reason: None,
            why: None,
            has_mark: false,
            is_unheard: false,
            put: None,
            key: None,
        }
    }

    /// A file that is no season, and the key that no season has, where that is why.
    pub fn of_season(file: &str, kind: SeasonKind, key: Option<&str>) -> Refusal
        ensures { result.fault ≡ Fault.Season kind }
    {
        let mut refusal = Refusal::of(Fault::Season(kind)).at(file, None);
        refusal.key = key.map(ToldWords::of);
        refusal
    }

    /// A line of a partner's list, of its thresholds or of a list of a carry that is none, or a row of a list of refused lines that is another.
    pub fn of_list(kind: ListKind, line: u32) -> Refusal
        ensures text { printed result.fault ≡ list_text kind line }
        ensures status { exit_status result.fault ≡ 1 }
    {
        Refusal::of(Fault::Listed { kind, line })
    }

    /// Bookings are not carried to the journal of this name.
    pub fn of_carry(kind: CarryKind, journal: &str) -> Refusal
        ensures { result.fault ≡ Fault.Carry kind }
    {
        Refusal::of(Fault::Carry(kind)).at(journal, None)
    }

    /// What stands behind the fault in its line.
    pub fn behind(&self) -> Behind {
        Behind { key: self.key }
    }

    /// The fault of a file that does not open.
    pub fn unopened(path: &str, error: &io::Error) -> Refusal
        ensures { IsTrue (is_failure result.fault) }
    {
        if error.kind() == io::ErrorKind::OutOfMemory {
            return Refusal::from(DeskFault::Memory);
        }
        Refusal::from(DeskFault::Device).at(path, error.raw_os_error())
    }

    /// A feed that is not that of this journal: its line, and the line of the journal that it differs from.
    pub fn strange(journal: &str, line: u32, number: u32) -> Refusal
        ensures { result.fault ≡ Fault.Feed line number }
    {
        Refusal::of(Fault::Feed { line, number }).at(journal, None)
    }

    /// A file that may not be the journal's, and why.
    pub fn barred(file: &str, why: &str) -> Refusal
        ensures { result.fault ≡ Fault.Word WordFault.BadJournal }
    {
        let mut refusal = Refusal::from(WordFault::BadJournal);
        refusal.file = Some(ToldName::of(file));
        refusal.why = Some(ToldWords::of(why));
        refusal
    }

    /// A file that may not be a script, and why.
    pub fn doubled(file: &str, why: &str) -> Refusal
        ensures { result.fault ≡ Fault.Word WordFault.BadScripts }
    {
        let mut refusal = Refusal::from(WordFault::BadScripts);
        refusal.file = Some(ToldName::of(file));
        refusal.why = Some(ToldWords::of(why));
        refusal
    }

    /// A file that may not be a pipe of a desk, and why.
    pub fn unfit(file: &str, why: &str) -> Refusal
        ensures { result.fault ≡ Fault.Word WordFault.BadDesk }
    {
        let mut refusal = Refusal::from(WordFault::BadDesk);
        refusal.file = Some(ToldName::of(file));
        refusal.why = Some(ToldWords::of(why));
        refusal
    }

    /// What may not be said as the status of a host is, and why.
    pub fn unsaid(word: &str, why: &str) -> Refusal
        ensures { result.fault ≡ Fault.Word WordFault.BadStatus }
    {
        let mut refusal = Refusal::from(WordFault::BadStatus);
        refusal.file = Some(ToldName::of(word));
        refusal.why = Some(ToldWords::of(why));
        refusal
    }

    /// The same, for the same reason, of what may not be a journal's either.
    pub fn as_unsaid(self) -> Refusal
        ensures { result.fault ≡ Fault.Word WordFault.BadStatus }
    {
        let mut refusal = self;
        refusal.fault = Fault::Word(WordFault::BadStatus);
        refusal
    }

    /// The same, for the same reason, of what may not be the file of the refused lines as it may not be a journal's.
    pub fn as_unlisted(self) -> Refusal
        ensures { result.fault ≡ unlisted self.fault }
    {
        let mut refusal = self;
        if let Fault::Word(WordFault::BadJournal) = self.fault {
            refusal.fault = Fault::Word(WordFault::BadRefused);
        }
        refusal
    }

    /// Whether it is known why a file may not be what it is named for.
    pub fn is_barred(&self) -> bool {
        self.why.is_some()
    }

    /// The same of the file beside it whose name ends so.
    pub fn beside(self, ending: &str) -> Refusal
        ensures { result.fault ≡ self.fault }
    {
        let mut refusal = self;
        refusal.ending = Ending::of(ending);
        refusal
    }

    /// The same where the name ends with this number behind that.
    pub fn numbered(self, number: Option<u32>) -> Refusal
        ensures { result.fault ≡ self.fault }
    {
        let mut refusal = self;
        refusal.ending.number = number;
        refusal
    }

    /// The fault of an input that failed while it was read.
    pub fn unread(input: &Input) -> Refusal
        ensures { result.fault ≡ Fault.Desk DeskFault.Device }
    {
        Refusal::from(DeskFault::Device).at(input.name(), input.reason())
    }

    /// Whether the fault is one of what stands beside a journal.
    pub fn is_of_seal(&self) -> bool
        ensures { result ≡ is_of_seal self.now.fault }
    {
        matches!(self.fault, Fault::Desk(DeskFault::Seal(_)))
    }

    /// The fault of standard output where it is closed from the start.
    pub fn of_closed_output() -> Refusal
        ensures { result.fault ≡ Fault.Desk DeskFault.Device }
    {
        Refusal::from(DeskFault::Device).at(OUTPUT, Some(NOT_OPEN))
    }

    /// The fault of standard output where help or the version is written to it.
    pub fn unwritten(error: &io::Error) -> Refusal
        ensures { result.fault ≡ Fault.Desk DeskFault.Device }
    {
        let refusal = Refusal::from(DeskFault::Device).at(OUTPUT, error.raw_os_error());
        refusal.hushed()
    }

    /// Names the input where it may be the one that the fault is of. Inputs are read and checked one behind the other, and noted
    /// in that order: the fault of an input is one of the last that was read, and a device that failed is the last that did.
    fn noting(self, input: &Input) -> Refusal
        ensures { result.fault ≡ self.fault }
    {
        if let Fault::Desk(DeskFault::Device) = self.fault {
            if input.failures() > 0 {
                return self.at(input.name(), input.reason());
            }
            return self;
        }
        if input.is_used() && !input.name().is_empty() && is_of_input(&self.fault) {
            return self.of_input(input);
        }
        self
    }

    /// Names the journal where one of its lines is not what the scripts ask, or it has fewer than the words say, or where no run of its
    /// seal, or several, began where the scripts may have begun.
    pub fn noting_unasked(self, journal: &Input) -> Refusal
        ensures { result.fault ≡ self.fault }
    {
        match self.fault {
            Fault::Desk(
                DeskFault::Unasked { .. }
                | DeskFault::NoBehind
                | DeskFault::Seal(SealFault::Behind | SealFault::Several),
            ) => self.of_input(journal),
            _ => self,
        }
    }

    fn of_input(self, input: &Input) -> Refusal
        ensures { result.fault ≡ self.fault }
    {
        let mut refusal = self.at(input.name(), None);
        refusal.has_mark = input.has_mark();
        refusal
    }

    /// The same for several, in order.
    pub fn noting_all(self, inputs: &[&Input]) -> Refusal
        ensures { result.fault ≡ self.fault }
    {
        let mut refusal = self;
        for input in inputs {
            refusal = refusal.noting(input);
        }
        refusal
    }

    /// The same for inputs that are kept together.
    pub fn noting_each(self, inputs: &[Input]) -> Refusal
        ensures { result.fault ≡ self.fault }
    {
        let mut refusal = self;
        for input in inputs {
            refusal = refusal.noting(input);
        }
        refusal
    }

    /// The same for outputs.
    pub fn noting_outputs(self, outputs: &[&Output]) -> Refusal
        ensures { result.fault ≡ self.fault }
    {
        let mut refusal = self;
        for output in outputs {
            refusal = refusal.noting_output(output);
        }
        refusal
    }

    /// The same for the file of a journal, and for the list that is put ahead of it.
    pub fn noting_journal(self, journal: &JournalFile) -> Refusal
        ensures { result.fault ≡ self.fault }
    {
        match self.fault {
            Fault::Desk(DeskFault::Device) if journal.failures() > 0 => {
                let refusal = self.at(journal.failed(), journal.reason());
                refusal.beside(journal.ending())
            }
            _ => self,
        }
    }

    /// Notes that the journal is in its place, behind so many lines that it goes on from, and behind so many that scripts had then.
    pub fn noting_put(self, file: &str, behind: u64, resumed: u64) -> Refusal
        ensures { result.fault ≡ self.fault }
    {
        let mut refusal = self;
        refusal.put = Some(Put {
            file: ToldName::of(file),
            behind,
            resumed,
        });
        refusal
    }

    /// Says on standard error where the journal of a run is in its place and the replies failed, and how they are written once more.
    pub fn tell_put(&self, rt: &HostRuntime) {
        let Some(put) = &self.put else {
            return;
        };
        let file = Shown {
            name: put.file.as_str(),
        };
        let _ = eprintln!(rt;
            "seatdesk: note: {file} has the journal; its replies once more: seatdesk replies{put}"
        );
    }

    /// The same for the seal of a journal.
    pub fn noting_seal(self, seal: &SealOut) -> Refusal
        ensures { result.fault ≡ self.fault }
    {
        match self.fault {
            Fault::Desk(DeskFault::Device) if seal.failures() > 0 => {
                let refusal = self.at(seal.name(), seal.reason());
                refusal.beside(seal.ending())
            }
            _ => self,
        }
    }

    /// The same for an output.
    pub fn noting_output(self, output: &Output) -> Refusal
        ensures { result.fault ≡ self.fault }
    {
        match self.fault {
            Fault::Desk(DeskFault::Device) if output.failures() > 0 => {
                let refusal = self.at(OUTPUT, output.reason());
                refusal.hushed()
            }
            _ => self,
        }
    }

    /// The same, which nobody is told of.
    pub fn silenced(self) -> Refusal
        ensures { result.fault ≡ self.fault }
    {
        let mut refusal = self;
        refusal.is_unheard = true;
        refusal
    }

    /// Nobody is told of a failure of standard output whose reader has gone away.
    fn hushed(self) -> Refusal
        ensures { result.fault ≡ self.fault }
    {
        let mut refusal = self;
        refusal.is_unheard = self.reason == Some(READER_GONE);
        refusal
    }

    /// The same fault, of this file, with the system's number for what failed.
    pub fn at(self, file: &str, reason: Option<i32>) -> Refusal
        ensures { result.fault ≡ self.fault }
    {
        let mut refusal = self;
        refusal.file = Some(ToldName::of(file));
        refusal.ending = Ending::of("");
        refusal.reason = reason;
        refusal
    }

    /// Whether nothing is said of it: whoever read standard output has gone away, or standard error goes to the file that it is of.
    pub fn is_unheard(&self) -> bool {
        self.is_unheard
    }

    /// Says what is known of the file, in a line on standard error, and in one more where it begins with a byte order mark.
    pub fn tell_more(&self, rt: &HostRuntime) {
        let Some(file) = &self.file else {
            return;
        };
        let name = file.as_str();
        if let Some(path) = self.led(rt, name) {
            return self.tell_reason(
                rt,
                &Shown {
                    name: path.as_str(),
                },
            );
        }
        let file = Shown { name };
        match self.words() {
            Some(words) => {
                let _ = eprintln!(rt; "seatdesk: {file}: {words}");
            }
            None => match self.fault {
                Fault::Desk(DeskFault::Device) => self.tell_reason(rt, &file),
                _ => self.tell_place(rt, &file),
            },
        }
    }

    /// Where a link of this name leads, if the fault is of what stands beside the file: that stands beside what the link leads to.
    fn led(&self, rt: &HostRuntime, name: &str) -> Option<String> {
        if self.ending.word.as_str().is_empty() || !is_link(rt, name) {
            return None;
        }
        match fs::canonicalize(rt, name) {
            Ok(path) => Some(path.into_string()),
            Err(_) => None,
        }
    }

    /// All that is said of the file, where no number stands in it.
    fn words(&self) -> Option<&str> {
        if let Some(why) = &self.why {
            return Some(why.as_str());
        }
        match self.fault {
            Fault::Desk(DeskFault::TooLarge)
            | Fault::Shards(
                ShardFault::Journal {
                    fault: DeskFault::TooLarge,
                    ..
                },
            ) => Some("Too large"),
            _ => None,
        }
    }

    fn tell_reason(&self, rt: &HostRuntime, file: &Shown<'_>) {
        let ending = &self.ending;
        match self.reason {
            Some(code) => {
                let error = io::Error::from_raw_os_error(code);
                let _ = eprintln!(rt; "seatdesk: {file}{ending}: {error}");
            }
            None => {
                let _ = eprintln!(rt; "seatdesk: {file}{ending}: Failed");
            }
        }
    }

    fn tell_place(&self, rt: &HostRuntime, file: &Shown<'_>) {
        match place_of(&self.fault) {
            Some((what, number)) => {
                let _ = eprintln!(rt; "seatdesk: {file}: {what} {number}");
            }
            None => {
                let _ = eprintln!(rt; "seatdesk: {file}");
            }
        }
        if self.has_mark {
            let _ = eprintln!(rt; "seatdesk: {file}: Begins with a byte order mark");
        }
    }
}

/// A key that a fault is of and its code does not say, with a blank ahead of it; or nothing.
#[derive(Clone, Copy)]
pub struct Behind {
    key: Option<ToldWords>,
}

impl fmt::Display for Behind {
    fn fmt<W: fmt::Write>(&self, f: &mut fmt::Formatter<W>) -> fmt::Result {
        match &self.key {
            Some(key) => {
                f.write_char(' ')?;
                Shown { name: key.as_str() }.fmt(f)
            }
            None => Ok(()),
        }
    }
}

/// The name of a file as it may be shown: each byte of a control character as `\xHH`.
#[derive(Clone, Copy)]
pub struct Shown<'a> {
    pub name: &'a str,
}

impl fmt::Display for Shown<'_> {
    fn fmt<W: fmt::Write>(&self, f: &mut fmt::Formatter<W>) -> fmt::Result {
        for letter in self.name.chars() {
            if letter.is_control() {
                write_bytes(letter, f)?;
            } else {
                f.write_char(letter)?;
            }
        }
        Ok(())
    }
}

/// Each byte of a letter as `\xHH`.
fn write_bytes<W: fmt::Write>(letter: char, f: &mut fmt::Formatter<W>) -> fmt::Result {
    let mut room = [0; 4];
    for byte in letter.encode_utf8(&mut room).bytes() {
        write!(f, "\\x{byte:02X}")?;
    }
    Ok(())
}

/// Whether the fault is one of an input, and of the one that was read last. What the runs of a seal have against scripts is one of none.
fn is_of_input(fault: &Fault) -> bool {
    match fault {
        Fault::Desk(fault) => !matches!(
            fault,
            DeskFault::Unasked { .. }
                | DeskFault::NoBehind
                | DeskFault::Book { .. }
                | DeskFault::Seal(SealFault::Again | SealFault::Behind | SealFault::Several)
                | DeskFault::Device
                | DeskFault::Memory
        ),
        Fault::Shards(_) => true,
        Fault::Feed { .. } => false,
        Fault::Word(_) => false,
        Fault::Season(_) => false,
        Fault::Listed { .. } => true,
        Fault::Carry(_) => false,
    }
}

/// Where in its input a fault stands, as its line counts it.
fn place_of(fault: &Fault) -> Option<(&'static str, u32)> {
    match fault {
        Fault::Desk(fault) => place_in(fault),
        Fault::Shards(ShardFault::Journal { fault, .. }) => place_in(fault),
        Fault::Shards(ShardFault::Shared { number, .. }) => Some(("entry", *number)),
        Fault::Feed { number, .. } => Some(("entry", *number)),
        Fault::Season(SeasonKind::Form { line }) => Some(("line", *line)),
        Fault::Listed { line, .. } => Some(("line", *line)),
        _ => None,
    }
}

fn place_in(fault: &DeskFault) -> Option<(&'static str, u32)> {
    match fault {
        DeskFault::Set(fault) => Some(("record", fault.nth)),
        DeskFault::Limit(fault) => Some(("line", fault.line)),
        DeskFault::Change(fault) => Some(("line", fault.line)),
        DeskFault::NoLeg { line } => Some(("line", *line)),
        DeskFault::Command { line } => Some(("line", *line)),
        DeskFault::Full { line } => Some(("line", *line)),
        DeskFault::Journal(fault) => Some(("line", fault.line)),
        DeskFault::Replay(fault) => Some(("entry", fault.number)),
        DeskFault::Script { fault, .. } => Some(("line", fault.line)),
        _ => None,
    }
}

impl From<DeskFault> for Refusal {
    fn from(fault: DeskFault) -> Refusal
        ensures { result.fault ≡ Fault.Desk fault }
    {
        Refusal::of(Fault::Desk(fault))
    }
}

impl From<ShardFault> for Refusal {
    /// What is no fault of one of several journals is one of the desk.
    fn from(fault: ShardFault) -> Refusal
        ensures text { printed result.fault ≡ shard_text fault }
        ensures status { exit_status result.fault ≡ status_of_shards fault }
    {
        match fault {
            ShardFault::Desk(fault) => Refusal::from(fault),
            _ => Refusal::of(Fault::Shards(fault)),
        }
    }
}

impl From<WordFault> for Refusal {
    fn from(fault: WordFault) -> Refusal
        ensures { result.fault ≡ Fault.Word fault }
    {
        Refusal::of(Fault::Word(fault))
    }
}

/// What a command came to: done, or refused for one of the inputs, in the order in which they are read, or of the outputs.
pub fn told(
    outcome: Result<(), DeskFault>,
    inputs: &[&Input],
    outputs: &[&Output],
) -> Result<(), Refusal>
    ensures ok { IsOk outcome → IsOk result }
    ensures fault { IfErr outcome (λ fault. IsErrAnd result (λ refusal. refusal.fault ≡ Fault.Desk fault)) }
{
    match outcome {
        Ok(()) => Ok(()),
        Err(fault) => Err(
            Refusal::from(fault)
                .noting_all(inputs)
                .noting_outputs(outputs),
        ),
    }
}
