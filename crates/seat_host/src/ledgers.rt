//! One ledger for each session number, 0 for the manager, all named by one parameter.
ghost use Rattle.std.specs.Prelude.{◌≡◌, ◌+◌, ◌-◌, ◌<◌, ◌≤◌, [], ◌∷◌, slice_index, slice_set, IfOk, IfSome, IsSome};
ghost use Rattle.seat_host.specs.Ledgers.{counted};
ghost use Rattle.seat_host.specs.Shares.{staked};

use airline_base::Memory;
use std::alloc::Global;
use std::marker::{Brand, Model, PhantomData};
use std::sync::ledger::{Blank, Book, Ledger, Share};

/// Which host it is. Each call picks it.
pub trait Hosting {
    ghost use Rattle.std.specs.Prelude.{ℕ, List};
    ghost use Rattle.logbook.specs.Pages.{Book as HistoryBook};
    ghost use Rattle.seat_nesting.specs.Nesting.{Ladders};

    ghost grid: { Ladders };

    ghost cap: { ℕ };

    ghost book: { HistoryBook };

    ghost sessions: { ℕ };

    // The names of the ledgers, at their session numbers.
    ghost names: { List ℕ };
}

impl Hosting for Brand {
    ghost use Rattle.std.specs.Prelude.{[]};

    ghost grid = { [] };

    ghost cap = { 0 };

    ghost book = { record { number = 0; log_name = 0; cells_name = 0 } };

    ghost sessions = { 0 };

    ghost names = { [] };
}

/// Names the ledger of one session number.
pub struct Numbered<K, const N: u8> {
    of: PhantomData<K>,
}

impl<K: Hosting, const N: u8> Ledger for Numbered<K, N> {
    ghost use Rattle.std.specs.Prelude.{slice_index};

    ghost name = { slice_index K.names N };

    ghost parts = { 1 };
}

/// How many lines each session number has. Contracts see the totals, at their numbers.
pub struct LineCounts<K: Hosting> {
    zero: Book<Numbered<K, 0>>,
    one: Book<Numbered<K, 1>>,
    two: Book<Numbered<K, 2>>,
    three: Book<Numbered<K, 3>>,
    four: Book<Numbered<K, 4>>,
    five: Book<Numbered<K, 5>>,
    six: Book<Numbered<K, 6>>,
    seven: Book<Numbered<K, 7>>,
    eight: Book<Numbered<K, 8>>,
}

impl<K: Hosting> Drop for LineCounts<K> {
    fn drop(self) {
        let LineCounts {
            zero: _zero,
            one: _one,
            two: _two,
            three: _three,
            four: _four,
            five: _five,
            six: _six,
            seven: _seven,
            eight: _eight,
        } = self;
    }
}

impl<K: Hosting> Model for LineCounts<K> {
    ghost use Rattle.std.specs.Prelude.{List, ℕ, ◌∷◌, []};

    ghost Value = { List ℕ };

    ghost view = { λ b. b.zero.total ∷ b.one.total ∷ b.two.total ∷ b.three.total ∷ b.four.total ∷ b.five.total ∷ b.six.total ∷ b.seven.total ∷ b.eight.total ∷ [] };
}

/// A session's share of its ledger, which has every part of it. Contracts see its amount.
#[derive(Drop)]
pub struct Whole<K: Hosting, const N: u8> {
    share: Share<Numbered<K, N>>,
}

impl<K: Hosting, const N: u8> Model for Whole<K, N> {
    ghost use Rattle.std.specs.Prelude.{ℕ, ◌≡◌};

    ghost Value = { ℕ };

    ghost view = { λ w. w.share.amount };

    ghost invariant = { λ w. w.share.parts ≡ 1 };
}

impl<K: Hosting, const N: u8> Whole<K, N> {
    fn of(share: Share<Numbered<K, N>>) -> Whole<K, N>
        requires { share.parts ≡ 1 }
        ensures { result ≡ share.amount }
    {
        Whole { share }
    }

    // Counts so many lines more. It had as many as the book.
    fn add(&mut self, book: &mut Book<Numbered<K, N>>, more: u64)
        ensures added { (book.new.total ≡ book.old.total + more) × (self.new ≡ self.old + more) }
        ensures whole { self.old ≡ book.old.total }
    {
        book.audit(&mut self.share);
        book.add(&mut self.share, more);
    }
}

#[derive(Drop)]
pub enum AnyShare<K: Hosting> {
    Zero(Whole<K, 0>),
    One(Whole<K, 1>),
    Two(Whole<K, 2>),
    Three(Whole<K, 3>),
    Four(Whole<K, 4>),
    Five(Whole<K, 5>),
    Six(Whole<K, 6>),
    Seven(Whole<K, 7>),
    Eight(Whole<K, 8>),
}

/// The one share of a session's ledger. Contracts see its number and its amount.
pub struct Stake<K: Hosting> {
    share: AnyShare<K>,
}

impl<K: Hosting> Drop for Stake<K> {
    fn drop(self) {
        let Stake { share: _share } = self;
    }
}

impl<K: Hosting> Model for Stake<K> {
    ghost use Rattle.seat_host.specs.Ledgers.{Staked};
    ghost use Rattle.seat_host.specs.Shares.{staked};

    ghost Value = { Staked };

    ghost view = { λ s. staked s.share };
}

impl<K: Hosting> LineCounts<K> {
    /// Changes nothing: the share has every part, so its amount is the book's total.
    #[tactic(auto, using(crate::proofs::Staking::counts_same, crate::proofs::Staking::stake_same))]
    pub fn audit(&mut self, mine: &mut Stake<K>)
        ensures same { (self.new ≡ self.old) × (mine.new ≡ mine.old) }
        ensures whole { mine.old.amount ≡ slice_index self.old mine.old.number }
    {
        self.count(mine, 0);
    }

    /// Counts one line more of the share's session.
    pub fn add(&mut self, mine: &mut Stake<K>)
        ensures mine { mine.new ≡ counted mine.old.number (mine.old.amount + 1) }
        ensures total { self.new ≡ slice_set self.old mine.old.number (slice_index self.old mine.old.number + 1) }
    {
        self.add_all(mine, 1);
    }

    /// Counts so many lines more of the share's session.
    pub fn add_all(&mut self, mine: &mut Stake<K>, more: u64)
        ensures mine { mine.new ≡ counted mine.old.number (mine.old.amount + more) }
        ensures total { self.new ≡ slice_set self.old mine.old.number (slice_index self.old mine.old.number + more) }
    {
        self.count(mine, more);
    }

    // Counts so many lines more of the share's session, whose amount is its book's total.
    fn count(&mut self, mine: &mut Stake<K>, more: u64)
        ensures mine { mine.new ≡ counted mine.old.number (mine.old.amount + more) }
        ensures total { self.new ≡ slice_set self.old mine.old.number (slice_index self.old mine.old.number + more) }
        ensures whole { mine.old.amount ≡ slice_index self.old mine.old.number }
    {
        match &mut mine.share {
            AnyShare::Zero(share) => share.add(&mut self.zero, more),
            AnyShare::One(share) => share.add(&mut self.one, more),
            AnyShare::Two(share) => share.add(&mut self.two, more),
            AnyShare::Three(share) => share.add(&mut self.three, more),
            AnyShare::Four(share) => share.add(&mut self.four, more),
            AnyShare::Five(share) => share.add(&mut self.five, more),
            AnyShare::Six(share) => share.add(&mut self.six, more),
            AnyShare::Seven(share) => share.add(&mut self.seven, more),
            AnyShare::Eight(share) => share.add(&mut self.eight, more),
        }
    }
}

/// Nine ledgers that no type stands for yet. Contracts see their names, at the session numbers.
#[derive(Drop)]
pub struct Blanks {
    zero: Blank,
    one: Blank,
    two: Blank,
    three: Blank,
    four: Blank,
    five: Blank,
    six: Blank,
    seven: Blank,
    eight: Blank,
}

impl Model for Blanks {
    ghost use Rattle.std.specs.Prelude.{List, ℕ, ◌≡◌, ◌∷◌, []};

    ghost Value = { List ℕ };

    ghost view = { λ b. b.zero.name ∷ b.one.name ∷ b.two.name ∷ b.three.name ∷ b.four.name ∷ b.five.name ∷ b.six.name ∷ b.seven.name ∷ b.eight.name ∷ [] };

    ghost invariant = { λ b. (b.zero.parts ≡ 1) × (b.one.parts ≡ 1) × (b.two.parts ≡ 1) × (b.three.parts ≡ 1) × (b.four.parts ≡ 1) × (b.five.parts ≡ 1) × (b.six.parts ≡ 1) × (b.seven.parts ≡ 1) × (b.eight.parts ≡ 1) };
}

impl Blanks {
    pub fn new() -> Blanks {
        Blanks {
            zero: Blank::new(1),
            one: Blank::new(1),
            two: Blank::new(1),
            three: Blank::new(1),
            four: Blank::new(1),
            five: Blank::new(1),
            six: Blank::new(1),
            seven: Blank::new(1),
            eight: Blank::new(1),
        }
    }
}

/// The shares that no session has yet, of the session numbers from the next one on. Contracts see that number.
#[derive(Drop)]
pub struct Stakes<K: Hosting> {
    rest: Vec<Stake<K>>,
    next: u8,
}

impl<K: Hosting> Model for Stakes<K> {
    ghost use Rattle.std.specs.Prelude.{ℕ, ◌≡◌, ◌≤◌, ◌-◌};
    ghost use Rattle.seat_host.specs.Ledgers.{stakes_left};

    ghost Value = { ℕ };

    ghost view = { λ s. s.next };

    ghost invariant = { λ s. (s.next ≤ 9) × (s.rest.items ≡ stakes_left (9 - s.next)) };
}

impl<K: Hosting> Stakes<K> {
    /// The share of the next session number.
    pub fn take(&mut self) -> Option<Stake<K>>
        requires { self.old ≤ 8 }
        ensures stake { IfSome result (λ s. s ≡ counted self.old 0) }
        ensures some { IsSome result }
        ensures next { self.new ≡ self.old + 1 }
    {
        let stake = self.rest.pop();
        self.next += 1;
        stake
    }
}

/// The counts of lines and the shares of the host that K names.
pub fn open_ledgers<K: Hosting>(
    alloc: Global,
    blanks: Blanks,
) -> Result<(LineCounts<K>, Stakes<K>), Memory>
    requires { blanks ≡ K.names }
    ensures line_counts { IfOk result (λ r. r.0 ≡ 0 ∷ 0 ∷ 0 ∷ 0 ∷ 0 ∷ 0 ∷ 0 ∷ 0 ∷ 0 ∷ []) }
    ensures stakes { IfOk result (λ r. r.1 ≡ 0) }
{
    let Blanks {
        zero,
        one,
        two,
        three,
        four,
        five,
        six,
        seven,
        eight,
    } = blanks;
    let (zero, share_zero) = zero.open::<Numbered<K, 0>>();
    let (one, share_one) = one.open::<Numbered<K, 1>>();
    let (two, share_two) = two.open::<Numbered<K, 2>>();
    let (three, share_three) = three.open::<Numbered<K, 3>>();
    let (four, share_four) = four.open::<Numbered<K, 4>>();
    let (five, share_five) = five.open::<Numbered<K, 5>>();
    let (six, share_six) = six.open::<Numbered<K, 6>>();
    let (seven, share_seven) = seven.open::<Numbered<K, 7>>();
    let (eight, share_eight) = eight.open::<Numbered<K, 8>>();
    let line_counts = LineCounts {
        zero,
        one,
        two,
        three,
        four,
        five,
        six,
        seven,
        eight,
    };
    let stakes = [
        staked(AnyShare::Eight(Whole::of(share_eight))),
        staked(AnyShare::Seven(Whole::of(share_seven))),
        staked(AnyShare::Six(Whole::of(share_six))),
        staked(AnyShare::Five(Whole::of(share_five))),
        staked(AnyShare::Four(Whole::of(share_four))),
        staked(AnyShare::Three(Whole::of(share_three))),
        staked(AnyShare::Two(Whole::of(share_two))),
        staked(AnyShare::One(Whole::of(share_one))),
        staked(AnyShare::Zero(Whole::of(share_zero))),
    ];
    let rest = Vec::from_array(alloc, stakes)?;
    Ok((line_counts, Stakes { rest, next: 0 }))
}

fn staked<K: Hosting>(share: AnyShare<K>) -> Stake<K>
    ensures { result ≡ staked share }
{
    Stake { share }
}
