//! A desk, and what each of its lines means.
//! It knows no inventory.
ghost use Rattle.std.specs.Prelude.{◌≡◌, false, IfSome};
ghost use Rattle.airline_base.specs.Days.{IsCenturyDay};
ghost use Rattle.airimp_lines.specs.Grammar.{IsRightSegment};
ghost use Rattle.desk_lines.specs.Lines.{asked, behind_refused, behind_word, greeted, greeted_by, is_long, is_numbered, is_word, next_number, spoilt, standing_of, Hears, IsRightMeaning, MeansBy, MeansLine, MeansShort, MeansText, MeansUnnamed, MeansWordIn};
ghost use Rattle.desk_lines.specs.Words.{plain_word};

use crate::calls::numbered;
use crate::epoch::{by_epoch, stranger_behind};
use crate::words::{plain_word, word};
use airimp_lines::{LineRead, Look, Request, ScriptKind, read_line};
use airline_base::lines::cut_line;
use airline_base::{Day, Locator};
use std::fmt;

/// The most bytes of a line, its end with it.
const MOST_BYTES: usize = 256;

/// Why a line is refused. Nothing else changes by it.
#[derive(Clone, Copy)]
pub enum Wrong {
    /// It has more than 256 bytes.
    TooLong,
    /// It begins with `?` or `@`, and is neither a word to the host nor a numbered segment line.
    Word,
    /// The call of its number is there, and is another request.
    Other,
    /// Its number is beyond that of the session's next call.
    Beyond,
    /// Nobody has said `?HELLO` yet.
    NoHello,
    /// It is numbered, and its client is for a journal of another epoch.
    Epoch,
    /// It is a wrong line of a message.
    Line(ScriptKind),
}

impl fmt::Display for Wrong {
    ghost use Rattle.std.specs.Prelude.{Some};
    ghost use Rattle.desk_lines.specs.FaultText.{wrong_text};

    ghost output = { λ wrong. Some (wrong_text wrong) };

    /// The code: H1 to H6, or that of a script.
    fn fmt<W: fmt::Write>(&self, f: &mut fmt::Formatter<W>) -> fmt::Result {
        match self {
            Wrong::TooLong => f.write_str("H1"),
            Wrong::Word => f.write_str("H2"),
            Wrong::Other => f.write_str("H3"),
            Wrong::Beyond => f.write_str("H4"),
            Wrong::NoHello => f.write_str("H5"),
            Wrong::Epoch => f.write_str("H6"),
            Wrong::Line(kind) => kind.fmt(f),
        }
    }
}

/// What a line means.
#[derive(Clone, Copy)]
pub enum Meaning {
    /// It asks for nothing.
    Nothing,
    /// It asks for seats.
    Request(Request),
    /// It asks for seats, as the call of this number of its session.
    Call(u32, Request),
    /// It looks at the seats that are left.
    Look(Look),
    /// It asks for what concerns its session behind so many lines, once more.
    Again(u32),
    /// A client begins, with a word of its own choosing, and asks where the desk stands; it may name the epoch of the journal that it is for, 1 to 999,999.
    Hello(Locator, Option<u32>),
    /// The desk goes.
    Leave,
    /// It is refused.
    Wrong(Wrong),
    /// It is refused, and has the number of this call.
    WrongCall(u32, Wrong),
}

/// Where a desk stands.
#[derive(Clone, Copy)]
pub enum Standing {
    /// Ahead of the first `?HELLO`.
    Silent,
    /// Between two messages.
    Between,
    /// In the message of this locator.
    Within(Locator),
    /// In a message whose first line was refused: it is passed over up to the next empty line.
    Refused,
}

/// A desk: where it stands, and the day on which its lines are read, a day of the years 2000 to 2099.
#[derive(Clone, Copy)]
pub struct Desk {
    pub today: Day,
    pub standing: Standing,
    /// How many lines it has heard.
    pub lines: u32,
    /// The epoch of the journal.
    pub epoch: u32,
    /// Whether the last `?HELLO` named another epoch: then no numbered line is booked.
    pub is_stranger: bool,
}

impl Desk {
    /// A desk of a journal of this epoch that has said nothing.
    pub fn new(today: Day, epoch: u32) -> Desk
        ensures parts { (result.today ≡ today) × (result.standing ≡ Standing.Between) × (result.lines ≡ 0) }
        ensures epoch { (result.epoch ≡ epoch) × (result.is_stranger ≡ false) }
    {
        Desk {
            today,
            standing: Standing::Between,
            lines: 0,
            epoch,
            is_stranger: false,
        }
    }

    /// A desk to whose pipe somebody may have written before: nothing is heard ahead of a `?HELLO`.
    pub fn silent(today: Day, epoch: u32) -> Desk
        ensures parts { (result.today ≡ today) × (result.standing ≡ Standing.Silent) × (result.lines ≡ 0) }
        ensures epoch { (result.epoch ≡ epoch) × (result.is_stranger ≡ false) }
    {
        Desk {
            today,
            standing: Standing::Silent,
            lines: 0,
            epoch,
            is_stranger: false,
        }
    }

    /// Hears a line with its end. A wrong line changes nothing but that it counts, and that a wrong first line refuses its message. A numbered line is
    /// refused where the last `?HELLO` named another epoch than the journal's.
    pub fn hear(&mut self, line: &[u8]) -> Meaning
        requires today { IsCenturyDay self.old.today }
        ensures means { Hears self.old self.new line.now result }
        ensures right { IsRightMeaning result }
        ensures counted { self.new.lines ≡ next_number self.old.lines }
        ensures same { (self.new.today ≡ self.old.today) × (self.new.epoch ≡ self.old.epoch) }
    {
        self.lines = self.lines.saturating_add(1);
        let (standing, meaning) = heard(self.standing, line, self.lines, self.today);
        self.standing = standing;
        self.is_stranger = stranger_behind(self.is_stranger, self.epoch, &meaning);
        by_epoch(self.is_stranger, meaning)
    }
}

// What a line with its end means to a desk that stands so, and where it stands then.
fn heard(standing: Standing, line: &[u8], number: u32, today: Day) -> (Standing, Meaning)
    requires today { IsCenturyDay today }
    ensures means { MeansBy (is_long line.now) today standing line.now number result.0 result.1 }
    ensures right { IsRightMeaning result.1 }
{
    if is_long(line) {
        return (spoilt(standing), Meaning::Wrong(Wrong::TooLong));
    }
    let (text, _) = cut_line(line);
    short_heard(standing, text, number, today)
}

fn is_long(line: &[u8]) -> bool
    ensures { result ≡ is_long line.now }
{
    line.len() > MOST_BYTES
}

fn short_heard(standing: Standing, text: &[u8], number: u32, today: Day) -> (Standing, Meaning)
    requires today { IsCenturyDay today }
    ensures means { MeansShort (is_word text.now) today standing text.now number result.0 result.1 }
    ensures right { IsRightMeaning result.1 }
{
    if is_word(text) {
        return word_meaning(standing, text, today);
    }
    unnamed_meaning(standing, text, number, today)
}

// Whether a line is a word to the host, which no line of a message is.
fn is_word(text: &[u8]) -> bool
    ensures { result ≡ is_word text.now }
{
    match text {
        [] => false,
        [first, ..] => *first == b'?',
    }
}

// Whether a line is numbered, which no line of a message is.
fn is_numbered(text: &[u8]) -> bool
    ensures { result ≡ is_numbered text.now }
{
    match text {
        [] => false,
        [first, ..] => *first == b'@',
    }
}

// What a word to the host means to a desk that stands so.
fn word_meaning(standing: Standing, text: &[u8], today: Day) -> (Standing, Meaning)
    requires today { IsCenturyDay today }
    ensures means { MeansWordIn standing today text.now result.0 result.1 }
    ensures right { IsRightMeaning result.1 }
{
    if matches!(standing, Standing::Silent) {
        return greeted(plain_word(text));
    }
    let meaning = word(text, today);
    (behind_word(standing, &meaning), meaning)
}

// A desk that was silent begins with a hello, and hears nothing else.
fn greeted(plain: Option<Meaning>) -> (Standing, Meaning)
    ensures value { result ≡ greeted plain }
    ensures right { IsRightMeaning result.1 }
{
    match plain {
        Some(meaning) => greeted_by(meaning),
        None => (Standing::Silent, Meaning::Wrong(Wrong::NoHello)),
    }
}

fn greeted_by(meaning: Meaning) -> (Standing, Meaning)
    ensures value { result ≡ greeted_by meaning }
    ensures right { IsRightMeaning result.1 }
{
    match meaning {
        Meaning::Hello(name, named) => (Standing::Between, Meaning::Hello(name, named)),
        _ => (Standing::Silent, Meaning::Wrong(Wrong::NoHello)),
    }
}

// A hello ends the message that is open.
fn behind_word(standing: Standing, meaning: &Meaning) -> Standing
    ensures { result ≡ behind_word meaning.now standing }
{
    match meaning {
        Meaning::Hello(_, _) => Standing::Between,
        _ => standing,
    }
}

// What a line means that is no word.
fn unnamed_meaning(standing: Standing, text: &[u8], number: u32, today: Day) -> (Standing, Meaning)
    requires today { IsCenturyDay today }
    ensures means { MeansUnnamed (is_numbered text.now) today standing text.now number result.0 result.1 }
    ensures right { IsRightMeaning result.1 }
{
    if is_numbered(text) {
        let meaning = numbered(&standing, text, number, today);
        return (spoilt(standing), meaning);
    }
    meaning_of(standing, text, number, today)
}

// What a line means that is no word and has no number.
fn meaning_of(standing: Standing, text: &[u8], number: u32, today: Day) -> (Standing, Meaning)
    requires today { IsCenturyDay today }
    ensures means { MeansText today standing number text.now result.0 result.1 }
    ensures right { IsRightMeaning result.1 }
{
    match standing {
        Standing::Silent => (standing, Meaning::Wrong(Wrong::NoHello)),
        Standing::Refused => (behind_refused(text), Meaning::Nothing),
        Standing::Between => line_meaning(None, Standing::Refused, text, number, today),
        Standing::Within(locator) => line_meaning(Some(locator), standing, text, number, today),
    }
}

// Where a desk stands behind a line of a message that is passed over.
fn behind_refused(text: &[u8]) -> Standing
    ensures { result ≡ behind_refused text.now }
{
    match text {
        [] => Standing::Between,
        [_, ..] => Standing::Refused,
    }
}

// What a line of a message means; where it is wrong the desk then stands as given.
#[tactic(auto, using(crate::proofs::Hearing::right_line, crate::proofs::Hearing::wrong_line))]
fn line_meaning(
    message: Option<Locator>,
    wrong: Standing,
    text: &[u8],
    number: u32,
    today: Day,
) -> (Standing, Meaning)
    requires today { IsCenturyDay today }
    requires wrong { wrong ≡ spoilt (standing_of message) }
    ensures means { MeansLine today message number text.now result.0 result.1 }
    ensures right { IsRightMeaning result.1 }
{
    match read_line(message, text, number, today) {
        Ok(read) => (standing_behind(&read), asked(&read)),
        Err(kind) => (wrong, Meaning::Wrong(Wrong::Line(kind))),
    }
}

// What a line asks for.
fn asked(read: &LineRead) -> Meaning
    requires { IfSome read.now.request (λ request. IsRightSegment request.segment) }
    ensures value { result ≡ asked read.now.request }
    ensures right { IsRightMeaning result }
{
    match read.request {
        Some(request) => Meaning::Request(request),
        None => Meaning::Nothing,
    }
}

// Where a desk stands behind a line without a fault.
fn standing_behind(read: &LineRead) -> Standing
    ensures { result ≡ standing_of read.now.message }
{
    match read.message {
        Some(locator) => Standing::Within(locator),
        None => Standing::Between,
    }
}

// Behind a wrong line: a wrong first line refuses its message.
fn spoilt(standing: Standing) -> Standing
    ensures { result ≡ spoilt standing }
{
    match standing {
        Standing::Between => Standing::Refused,
        _ => standing,
    }
}
