//! Lines that are answered where they are read, ahead of what waits for the host.
ghost use Rattle.std.specs.Prelude.{◌≡◌, None, Some, if◌then◌else◌};
ghost use Rattle.airline_base.specs.Days.{IsCenturyDay};
ghost use Rattle.desk_pipes.specs.Watching.{one_more, passed_behind};

use crate::cutting::HeldLine;
use crate::inbox::Said;
use crate::letter::Answer;
use crate::text::Delivered;
use airline_base::Day;

/// What becomes of a line that was read.
#[derive(Drop)]
pub enum Watched {
    /// It is answered by this text.
    Told(Vec<u8>),
    /// It waits for the host.
    Heard,
    /// It waits for the host, and nothing behind it is read until the host has answered it.
    Awaited,
}

/// What became of it.
#[derive(Drop)]
pub enum Outcome {
    /// Its answer waits for the desk that said it.
    Answered(Delivered<Answer>),
    /// It is handed on to the host.
    Handed,
    /// It is handed on to the host, and nothing behind it is read until the host has answered it.
    HandedAlone,
}

/// Whoever answers lines where they are read.
pub trait Watch {
    ghost use Rattle.std.specs.Prelude.{⊤, ℕ, List};
    ghost use Rattle.desk_pipes.specs.declared.watch.Watched.{Watched};

    // What comes of a line that is heard on a day, where so many lines are told.
    ghost hears: { Self → Self → ℕ → ℕ → List ℕ → Watched → Type 0 } = { λ old new today lines line watched. ⊤ };

    /// What becomes of a line with its end, where lines are read on this day of the years 2000 to 2099, and so many lines of the journal
    /// are told.
    fn watch(&mut self, today: Day, lines: u32, line: &[u8]) -> Watched
        requires today { IsCenturyDay today }
        ensures heard { hears self.old self.new today lines line.now result };

    /// Hears a line that waits for the host whatever it is. Whether nothing behind it is read until the host has answered it.
    fn pass(&mut self, today: Day, line: &[u8]) -> bool
        requires today { IsCenturyDay today };
}

/// How many lines of a desk were answered where they were read, since one was handed on to the host.
#[derive(Clone, Copy)]
pub(crate) struct Passed {
    count: u32,
}

impl Passed {
    pub(crate) fn none() -> Passed
        ensures { result.count ≡ 0 }
    {
        Passed { count: 0 }
    }

    /// What is handed on of a line: nothing where it is answered, and else the line, with the count of those that were answered ahead of
    /// it.
    pub(crate) fn hand_on(
        &mut self,
        session: u8,
        line: HeldLine,
        is_earlier: bool,
        is_told: bool,
    ) -> Option<Said>
        ensures said { result ≡ (if is_told then None else Some (record {
          session = session;
          line = line;
          is_earlier = is_earlier;
          passed = self.old.count;
        })) }
        ensures count { self.new.count ≡ passed_behind is_told self.old.count }
    {
        let passed = self.count;
        if is_told {
            self.count = one_more(passed);
            return None;
        }
        self.count = 0;
        Some(Said {
            session,
            line,
            is_earlier,
            passed,
        })
    }
}

/// Counted up to the highest number.
pub(crate) fn one_more(count: u32) -> u32
    ensures { result ≡ one_more count }
{
    count.saturating_add(1)
}
