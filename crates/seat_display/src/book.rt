//! The history of what was ever made visible. It exists in the proofs alone: what is stored is its length.
ghost use Rattle.std.specs.Prelude.{◌≡◌, ◌+◌, ◌==◌, ◌<◌, ◌≤◌, ◌^◌, ◌++◌, [], length, true, IfSome};
ghost use mathlib.Core.List.{IsPrefix};
ghost use Rattle.seat_display.specs.History.{head_of};

use logbook::{Gain, Offer, Plain, Play, Rule, Seen, Start, Word};
use seat_journal::Entry;
use std::marker::{Brand, PhantomData};

/// The rule of the history.
pub struct Law;

impl Rule<Entry, u64> for Law {
    ghost use Rattle.std.specs.Prelude.{[]};
    ghost use base.Fml.{ftrue};
    ghost use Rattle.seat_display.specs.History.{IsCounted};

    ghost holds = { λ cells log. IsCounted cells log };

    ghost first = { [] };

    ghost hinted = { λ n log. Unit {0} };

    ghost shows = { λ log. [] };

    ghost keeps = { λ names log. ftrue };

    ghost moves = { λ ask before after answer. Unit {0} };
}

/// Callers trade nothing.
pub struct Nothing;

impl Gain<Entry, u64> for Nothing {
    ghost use base.Fml.{ftrue};

    ghost after = { λ names about answer. ftrue };
}

/// Which entries a step adds. Each call picks them.
pub trait Pending {
    ghost use Rattle.std.specs.Prelude.{List};
    ghost use Rattle.seat_journal.specs.declared.entry.Entry.{Entry};

    ghost pending: { List Entry };
}

impl Pending for Brand {
    ghost use Rattle.std.specs.Prelude.{[]};

    ghost pending = { [] };
}

/// The step that adds them.
pub struct Grows<J> {
    of: PhantomData<J>,
}

impl<J: Pending> Play<Entry, u64> for Grows<J> {
    ghost use Rattle.seat_display.specs.History.{Adds};

    ghost then = { Adds J.pending };
}

impl<J: Pending> Plain<(), Entry, u64> for Grows<J> {
    ghost use Rattle.std.specs.Prelude.{None};
    ghost use Rattle.seat_display.specs.History.{blank};

    ghost ask = { λ _. blank };

    ghost state = { λ _. None };
}

/// The step that finds the length.
pub struct Measures;

impl Play<Entry, u64> for Measures {
    ghost use Rattle.seat_display.specs.History.{Measured};

    ghost then = { Measured };
}

impl Plain<(), Entry, u64> for Measures {
    ghost use Rattle.std.specs.Prelude.{None};
    ghost use Rattle.seat_display.specs.History.{blank};

    ghost ask = { λ _. blank };

    ghost state = { λ _. None };
}

/// A beginning of the history that was reached. It has no bytes.
pub type Trace = Seen<Entry, u64, Law>;

/// The length of the history.
pub type Head = Word<Entry, u64, Law>;

/// A new history.
pub fn open_book() -> (Head, Trace)
    ensures { (result.0 ≡ head_of result.1.book) × (result.1.log ≡ []) }
{
    let (seen, mut first, _second) = Seen::open(Start::alone(), 0, 0);
    (Word::tracked(0, &mut first), seen)
}

/// The history with the pending entries behind what was seen, where nothing else was added.
pub fn grow<J: Pending>(head: &Head, seen: &Trace, lines: u32, more: u32) -> Option<Trace>
    requires head { head.now ≡ head_of seen.now.book }
    requires lines { lines ≡ length seen.now.log }
    requires more { more ≡ length J.pending }
    ensures { IfSome result (λ r. (r.book ≡ seen.now.book) × (r.log ≡ seen.now.log ++ J.pending)) }
{
    let mut next = seen.again();
    let mut offer: Offer<Entry, u64, Law, Nothing> = next.plain::<Nothing, (), Grows<J>>(&());
    let mut pen = next.no_pen();
    let old = u64::from(lines);
    let new = old + u64::from(more);
    let found = head.compare_exchange::<Grows<J>, Nothing>(
        old, new, &mut next, &mut offer, &mut pen,
    );
    if found == old { Some(next) } else { None }
}

/// Whether the history is no longer than what was seen. Then the other has seen no more.
pub fn is_whole(head: &Head, seen: &Trace, lines: u32, other: &Trace) -> bool
    requires head { head.now ≡ head_of seen.now.book }
    requires book { other.now.book ≡ seen.now.book }
    requires lines { lines ≡ length seen.now.log }
    ensures { result ≡ true → IsPrefix other.now.log seen.now.log }
{
    let mut both = seen.again();
    both.learn(other);
    let mut offer: Offer<Entry, u64, Law, Nothing> = both.plain::<Nothing, (), Measures>(&());
    let found = head.load::<Measures, Nothing>(&mut both, &mut offer);
    found == u64::from(lines)
}
