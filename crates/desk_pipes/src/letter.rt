//! A text on its way to the desk of one session.
ghost use Rattle.std.specs.Prelude.{◌≡◌};

use std::marker::Model;

/// A text for the desk of one session. Whoever makes a type of letters says by it whose they are.
pub trait Letter {
    ghost use Rattle.desk_pipes.specs.Waiting.{Posted};

    /// To whom it goes, and what it says.
    ghost posted: { Self → Posted };

    /// To whom it goes.
    fn session(&self) -> u8
        ensures { result ≡ (posted self.now).session };

    /// What it says.
    fn text(&self) -> &[u8]
        ensures { result.now ≡ (posted self.now).text };
}

/// What answers a line of a session's desk where it was read.
#[derive(Drop)]
pub struct Answer {
    session: u8,
    text: Vec<u8>,
}

impl Model for Answer {
    ghost use Rattle.desk_pipes.specs.Waiting.{Posted};

    ghost Value = { Posted };

    ghost view = { λ s. record { session = s.session; text = s.text.items } };
}

impl Answer {
    pub(crate) fn new(session: u8, text: Vec<u8>) -> Answer
        ensures { (result.session ≡ session) × (result.text ≡ text.items) }
    {
        Answer { session, text }
    }
}

impl Letter for Answer {
    ghost posted = { λ s. s };

    fn session(&self) -> u8 {
        self.session
    }

    fn text(&self) -> &[u8] {
        self.text.as_slice()
    }
}
