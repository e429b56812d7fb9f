//! What a host, its manager and all its sessions come to.
ghost use Rattle.std.specs.Prelude.{◌≡◌, ◌-◌, ◌<◌, ◌≤◌, drop, get_or, length, map, take};
ghost use Rattle.std.specs.List.{AllByRecursion};
ghost use Rattle.seat_host.specs.Outcome.{lines_at, AreLines};

use airline_base::Items;
use seat_journal::{Entries, Entry};
use seat_rules::Totals;
use std::marker::Model;

/// The numbers of the lines of one session, in order.
pub type LineNumbers = Items<u32>;

/// The journal of a host that is over, its totals, and the receipts by session number. A receipt is kept as the number of its line.
#[derive(Drop)]
pub struct Settled {
    journal: Entries,
    totals: Totals,
    numbers: Items<LineNumbers>,
}

impl Model for Settled {
    ghost use Rattle.std.specs.Prelude.{map};
    ghost use Rattle.std.specs.List.{AllByRecursion};
    ghost use Rattle.seat_host.specs.Outcome.{lines_at, AreLines, Outcome};

    ghost Value = { Outcome };

    ghost view = { λ s. record { journal = s.journal; totals = s.totals; receipts = map (lines_at s.journal) s.numbers } };

    ghost invariant = { λ s. AllByRecursion (AreLines s.journal) s.numbers };
}

impl Settled {
    /// The lines, in order.
    pub fn journal(&self) -> &[Entry]
        ensures { result.now ≡ self.now.journal }
    {
        self.journal.as_slice()
    }

    /// What the lines come to.
    pub fn totals(&self) -> Totals
        ensures { result ≡ self.now.totals }
    {
        self.totals
    }

    /// The receipts of the manager, of session 1, of session 2, and so on.
    pub fn receipts(&self) -> AllReceipts<'_>
        ensures { result ≡ self.now.receipts }
    {
        AllReceipts {
            journal: self.journal.as_slice(),
            numbers: self.numbers.as_slice(),
        }
    }

    /// What these come to, each number being that of a line.
    pub(crate) fn of(journal: Entries, totals: Totals, numbers: Vec<LineNumbers>) -> Self
        requires { AllByRecursion (AreLines journal) numbers.items }
        ensures journal { result.journal ≡ journal }
        ensures totals { result.totals ≡ totals }
        ensures receipts { result.receipts ≡ map (lines_at journal) numbers.items }
    {
        Settled {
            journal,
            totals,
            numbers: Items::from_vec(numbers),
        }
    }
}

/// The receipts of each session, found in the journal by their numbers.
#[derive(Drop)]
pub struct AllReceipts<'a> {
    journal: &'a [Entry],
    numbers: &'a [LineNumbers],
}

impl<'a> Model for AllReceipts<'a> {
    ghost use Rattle.std.specs.Prelude.{List, map};
    ghost use Rattle.std.specs.List.{AllByRecursion};
    ghost use Rattle.seat_journal.specs.declared.entry.Entry.{Entry as Line};
    ghost use Rattle.seat_host.specs.Outcome.{lines_at, AreLines};

    ghost Value = { List (List Line) };

    ghost view = { λ r. map (lines_at r.journal.now) r.numbers.now };

    ghost invariant = { λ r. AllByRecursion (AreLines r.journal.now) r.numbers.now };
}

impl<'a> AllReceipts<'a> {
    /// How many sessions there are, the manager among them.
    #[tactic(auto, using(crate::proofs::Numbers::sessions_count))]
    pub fn len(&self) -> usize
        ensures { result ≡ length self.now }
    {
        self.numbers.len()
    }

    /// The receipts of a session, 0 being the manager.
    #[tactic(auto, using(crate::proofs::Numbers::session_inside, crate::proofs::Numbers::session_lines))]
    pub fn at(&self, session: usize) -> Receipts<'a>
        requires { session < length self.now }
        ensures { result ≡ get_or self.now session result }
    {
        Receipts {
            journal: self.journal,
            numbers: self.numbers[session].as_slice(),
        }
    }

    /// Those of the first sessions.
    pub fn first(&self, count: usize) -> AllReceipts<'a>
        requires { count ≤ length self.now }
        ensures { result ≡ take count self.now }
    {
        AllReceipts {
            journal: self.journal,
            numbers: first(self.numbers, count),
        }
    }
}

/// The receipts of one session, in order, found in the journal by their numbers.
#[derive(Drop)]
pub struct Receipts<'a> {
    journal: &'a [Entry],
    numbers: &'a [u32],
}

impl<'a> Model for Receipts<'a> {
    ghost use Rattle.std.specs.Prelude.{List};
    ghost use Rattle.seat_journal.specs.declared.entry.Entry.{Entry as Line};
    ghost use Rattle.seat_host.specs.Outcome.{lines_at, AreLines};

    ghost Value = { List Line };

    ghost view = { λ r. lines_at r.journal.now r.numbers.now };

    ghost invariant = { λ r. AreLines r.journal.now r.numbers.now };
}

impl<'a> Receipts<'a> {
    /// How many there are.
    #[tactic(auto, using(crate::proofs::Numbers::lines_length))]
    pub fn len(&self) -> usize
        ensures { result ≡ length self.now }
    {
        self.numbers.len()
    }

    /// The receipt at a place, counted from 0: the line of its number.
    pub fn at(&self, place: usize) -> &'a Entry
        requires { place < length self.now }
        ensures { result.now ≡ get_or self.now place result.now }
    {
        line_of(self.journal, number_at(self.numbers, place))
    }

    /// Those behind the first ones.
    pub fn behind(&self, count: usize) -> Receipts<'a>
        ensures { result ≡ drop count self.now }
    {
        Receipts {
            journal: self.journal,
            numbers: behind(self.numbers, count),
        }
    }
}

fn first(numbers: &[LineNumbers], count: usize) -> &[LineNumbers]
    requires { count ≤ length numbers.now }
    ensures { result.now ≡ take count numbers.now }
{
    &numbers[..count]
}

fn behind(numbers: &[u32], count: usize) -> &[u32]
    ensures { result.now ≡ drop count numbers.now }
{
    let front = numbers.len().min(count);
    &numbers[front..]
}

fn number_at(numbers: &[u32], place: usize) -> u32
    requires { place < length numbers.now }
    ensures { result ≡ get_or numbers.now place result }
{
    numbers[place]
}

fn line_of(journal: &[Entry], number: u32) -> &Entry
    requires { (1 ≤ number) × (number - 1 < length journal.now) }
    ensures { result.now ≡ get_or journal.now (number - 1) result.now }
{
    &journal[number as usize - 1]
}
