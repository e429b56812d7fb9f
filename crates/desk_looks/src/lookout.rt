//! What becomes of a line where it is read: a look is answered, and any other line waits for the host.
ghost use Rattle.std.specs.Prelude.{◌≡◌};
ghost use Rattle.airline_base.specs.Days.{IsCenturyDay};
ghost use Rattle.desk_answers.specs.Saying.{HasHeard};
ghost use Rattle.desk_looks.specs.Watching.{begins_word, is_again, IsHeardOnly, IsLookedOut, IsWatched, IsWatchedLook};
ghost use Rattle.desk_looks.specs.Windows.{IsSameTable};

use crate::question::{Question, Unseen, look_told};
use crate::season::Season;
use crate::window::Window;
use airimp_lines::Look;
use airline_base::Day;
use desk_lines::{Desk, Meaning};
use desk_pipes::{Watch, Watched};
use ssim_flights::Served;
use std::alloc::Global;
use std::marker::Model;

/// It answers the looks of a desk. It hears the words to the host alone, which mean to each desk the same that has said hello.
#[derive(Drop)]
pub struct Lookout<'a> {
    alloc: Global,
    season: &'a Season,
    served: Served<'a>,
    window: Window,
    desk: Desk,
}

impl<'a> Model for Lookout<'a> {
    ghost use Rattle.desk_looks.specs.Watching.{IsLookout, Looking};

    ghost Value = { Looking };

    ghost view = { λ s. record { flown = s.season.now; window = s.window; desk = s.desk } };

    ghost invariant = { λ s. IsLookout s.season.now s.served s.window };
}

impl<'a> Lookout<'a> {
    /// Over flights in an index and a window to a table over their legs. The desk has said nothing yet.
    pub fn new(
        alloc: Global,
        season: &'a Season,
        served: Served<'a>,
        window: Window,
        desk: Desk,
    ) -> Lookout<'a>
        requires served { served ≡ season.now.flights }
        requires grid { window.grid ≡ season.now.grid }
        ensures { (result.flown ≡ season.now) × (result.window ≡ window) × (result.desk ≡ desk) }
    {
        Lookout {
            alloc,
            season,
            served,
            window,
            desk,
        }
    }

    /// What becomes of a line with its end, where lines are read on this day and so many lines of the journal are told: a look is answered by
    /// what is then seen, which is no less than those.
    pub fn hear(&mut self, today: Day, lines: u32, line: &[u8]) -> Watched
        requires today { IsCenturyDay today }
        ensures watched { IsWatched (begins_word line.now) self.old self.new today lines line.now result }
    {
        if !begins_word(line) {
            return Watched::Heard;
        }
        self.hear_word(today, lines, line)
    }

    /// Hears a line that waits for the host whatever it is. Whether all behind it waits for its answer, which goes piece by piece.
    #[tactic(auto, using(crate::proofs::Watches::word_passed))]
    pub fn hear_only(&mut self, today: Day, line: &[u8]) -> bool
        requires today { IsCenturyDay today }
        ensures heard { IsHeardOnly (begins_word line.now) self.old self.new today line.now result }
    {
        if !begins_word(line) {
            return false;
        }
        let meaning = self.mean(today, line);
        is_again(&meaning)
    }

    // A word to the host.
    #[tactic(auto, using(crate::proofs::Watches::word_heard, crate::proofs::Watches::look_heard))]
    fn hear_word(&mut self, today: Day, lines: u32, line: &[u8]) -> Watched
        requires today { IsCenturyDay today }
        ensures watched { IsLookedOut self.old self.new today lines line.now result }
    {
        let meaning = self.mean(today, line);
        match meaning {
            Meaning::Look(look) => self.answer(lines, &look),
            Meaning::Hello(_, _) => Watched::Awaited,
            Meaning::Nothing => Watched::Heard,
            Meaning::Request(_) => Watched::Heard,
            Meaning::Call(_, _) => Watched::Heard,
            Meaning::Again(_) => Watched::Awaited,
            Meaning::Leave => Watched::Heard,
            // It may be a day of the manager's, on which what stands behind it is looked at.
            Meaning::Wrong(_) => Watched::Awaited,
            Meaning::WrongCall(_, _) => Watched::Heard,
        }
    }

    // What a word means on a day.
    fn mean(&mut self, today: Day, line: &[u8]) -> Meaning
        requires today { IsCenturyDay today }
        ensures heard { HasHeard (record self.old.desk { today = today }) self.new.desk line.now result }
        ensures same { (self.new.flown ≡ self.old.flown) × (self.new.window ≡ self.old.window) }
    {
        self.desk.today = today;
        self.desk.hear(line)
    }

    // A look.
    fn answer(&mut self, lines: u32, look: &Look) -> Watched
        ensures watched { IsWatchedLook self.new.flown self.old.window self.new.window lines look.now result }
        ensures same { (self.new.flown ≡ self.old.flown) × (self.new.desk ≡ self.old.desk) }
    {
        let question = Question::new(self.alloc, self.season, &self.served, look);
        watched_look(&mut self.window, &question, lines)
    }
}

impl<'a> Watch for Lookout<'a> {
    ghost hears = { λ old new today lines line watched. IsWatched (begins_word line) old new today lines line watched };

    fn watch(&mut self, today: Day, lines: u32, line: &[u8]) -> Watched {
        self.hear(today, lines, line)
    }

    fn pass(&mut self, today: Day, line: &[u8]) -> bool {
        self.hear_only(today, line)
    }
}

/// Whether a line is a word to the host.
pub(crate) fn begins_word(line: &[u8]) -> bool
    ensures { result ≡ begins_word line.now }
{
    match line {
        [] => false,
        [first, ..] => *first == b'?',
    }
}

/// Whether it asks to be told again.
pub(crate) fn is_again(meaning: &Meaning) -> bool
    ensures { result ≡ is_again meaning.now }
{
    matches!(meaning, Meaning::Again(_))
}

// A look is answered where no fewer lines are seen than are told.
#[tactic(auto, using(crate::proofs::Watches::told_less, crate::proofs::Watches::not_told))]
fn watched_look(window: &mut Window, question: &Question<'_>, lines: u32) -> Watched
    requires grid { window.old.grid ≡ question.now.flown.grid }
    ensures watched { IsWatchedLook question.now.flown window.old window.new lines question.now.look result }
    ensures same { IsSameTable window.old window.new }
{
    match look_told(window, question) {
        Ok(text) => {
            if window.seen() < lines {
                return Watched::Heard;
            }
            Watched::Told(text)
        }
        Err(why) => {
            let _: Unseen = why;
            Watched::Heard
        }
    }
}
