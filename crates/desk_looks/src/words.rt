//! What becomes of a line where no look is answered: it waits for the host, and behind one that asks to be told again nothing is read until that is told to its end.
ghost use Rattle.std.specs.Prelude.{◌≡◌};
ghost use Rattle.airline_base.specs.Days.{IsCenturyDay};
ghost use Rattle.desk_answers.specs.Saying.{HasHeard};
ghost use Rattle.desk_looks.specs.Watching.{begins_word, is_again, IsWaitedFor, IsWatchedWord};

use crate::lookout::{begins_word, is_again};
use airline_base::Day;
use desk_lines::{Desk, Meaning};
use desk_pipes::{Watch, Watched};
use std::marker::Model;

/// It hears the words to the host alone, as a lookout does.
#[derive(Drop)]
pub struct Words {
    desk: Desk,
}

impl Model for Words {
    ghost use Rattle.desk_lines.specs.declared.desk.Desk.{Desk as Standing};

    ghost Value = { Standing };

    ghost view = { λ s. s.desk };
}

impl Words {
    /// The desk has said nothing yet.
    pub fn new(desk: Desk) -> Words
        ensures { result ≡ desk }
    {
        Words { desk }
    }

    /// Whether nothing behind this line is read until the host has answered it.
    #[tactic(auto, using(crate::proofs::Watches::word_waited))]
    pub fn hear(&mut self, today: Day, line: &[u8]) -> bool
        requires today { IsCenturyDay today }
        ensures heard { IsWaitedFor (begins_word line.now) self.old self.new today line.now result }
    {
        if !begins_word(line) {
            return false;
        }
        let meaning = self.mean(today, line);
        is_again(&meaning)
    }

    // What a word means on a day.
    fn mean(&mut self, today: Day, line: &[u8]) -> Meaning
        requires today { IsCenturyDay today }
        ensures heard { HasHeard (record self.old { today = today }) self.new line.now result }
    {
        self.desk.today = today;
        self.desk.hear(line)
    }
}

impl Watch for Words {
    ghost hears = { λ old new today lines line watched. IsWatchedWord old new today line watched };

    fn watch(&mut self, today: Day, _lines: u32, line: &[u8]) -> Watched {
        if self.hear(today, line) {
            return Watched::Awaited;
        }
        Watched::Heard
    }

    fn pass(&mut self, today: Day, line: &[u8]) -> bool {
        self.hear(today, line)
    }
}
