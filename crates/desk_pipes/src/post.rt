//! The inbox of all desks and the outbox of each. A letter goes into the outbox of its own session, once, and a text that is no letter into none, but for a last one,
//! which goes into each.
ghost use Rattle.std.specs.Prelude.{◌≡◌, ◌<◌, length, IfSome};
ghost use Rattle.airline_base.specs.Days.{IsCenturyDay};
ghost use Rattle.desk_pipes.specs.Answering.{IsAnsweredBy, IsOutcome};
ghost use Rattle.desk_pipes.specs.Waiting.{IsFurther};

use crate::inbox::Inbox;
use crate::letter::{Answer, Letter};
use crate::outbox::Outbox;
use crate::outboxes::Outboxes;
use crate::outlook::{LooksGoBy, Outlook};
use crate::text::{Begun, Delivered, DeliveredEach, Room, Underway};
use crate::watch::{Outcome, Watch, Watched};
use airline_base::{Day, Memory};
use std::alloc::Global;
use std::marker::Model;
use std::sync::{Mutex, Wait};
use std::time::Clock;

/// What the host and the desks share.
#[derive(Drop)]
pub struct Post {
    pub inbox: Inbox,
    outboxes: Outboxes,
    outlook: Mutex<Outlook>,
}

/// That a last text waits for each desk, and for the manager. Only who lets it has it.
#[derive(Drop)]
pub struct LastTold {
    text: &'static [u8],
}

impl Model for LastTold {
    ghost use Rattle.std.specs.Prelude.{ℕ, List};

    ghost Value = { List ℕ };

    ghost view = { λ s. s.text.now };
}

impl Post {
    /// For so many desks and a manager, whose looks go by this.
    pub fn new(alloc: Global, desks: u8, outlook: Outlook) -> Result<Post, Memory> {
        Ok(Post {
            inbox: Inbox::new(alloc)?,
            outboxes: Outboxes::new(alloc, desks)?,
            outlook: Mutex::new(outlook),
        })
    }

    /// The outbox of a session's desk.
    pub fn outbox(&self, session: u8) -> Option<&Outbox>
        ensures own { IfSome result (λ outbox. outbox.now ≡ session) }
    {
        self.outboxes.of(session)
    }

    /// Lets a last text wait for each desk, and for the manager.
    pub fn tell_each_last<R: Wait>(&self, rt: &R, text: &'static [u8]) -> LastTold
        ensures { result ≡ text.now }
    {
        for outbox in self.outboxes.as_slice() {
            outbox.tell_last(rt, text);
        }
        LastTold { text }
    }

    /// The day on which lines are read, and how many lines of the journal are told.
    pub fn outlook<R: Wait>(&self, rt: &R) -> (Day, u32)
        ensures century { IsCenturyDay result.0 }
    {
        let outlook = self.outlook.lock(rt);
        let seen = (outlook.day(), outlook.count());
        drop(outlook);
        seen
    }

    /// What becomes of a line of a session's desk, where it is read. What answers it waits for this very desk, ahead of all that the host tells of lines
    /// that were not told by then, since none of these is told before looks go by it.
    #[tactic(auto, using(crate::proofs::Answers::answered_so))]
    pub fn watch_line<R: Wait, W: Watch>(
        &self,
        rt: &R,
        session: u8,
        watch: &mut W,
        line: &[u8],
    ) -> Outcome
        ensures answered { IsAnsweredBy W.hears watch.old watch.new session line.now result }
    {
        let outlook = self.outlook.lock(rt);
        let watched = watch.watch(outlook.day(), outlook.count(), line);
        let outcome = self.outcome_of(rt, session, watched);
        drop(outlook);
        outcome
    }

    // What answers a line waits for the desk of its session.
    fn outcome_of<R: Wait>(&self, rt: &R, session: u8, watched: Watched) -> Outcome
        ensures { IsOutcome session watched result }
    {
        match watched {
            Watched::Told(text) => Outcome::Answered(self.deliver(rt, Answer::new(session, text))),
            Watched::Heard => Outcome::Handed,
            Watched::Awaited => Outcome::HandedAlone,
        }
    }

    /// From then on looks go by this day of the years 2000 to 2099, and by so many lines, which are visible and not told yet.
    pub fn look_on<R: Wait>(&self, rt: &R, today: Day, lines: u32) -> LooksGoBy
        requires today { IsCenturyDay today }
        ensures by { (result.today ≡ today) × (result.lines ≡ lines) }
    {
        let mut outlook = self.outlook.lock(rt);
        let by = outlook.set(today, lines);
        drop(outlook);
        by
    }

    /// Whether a piece more may wait for a session's desk. Where it may not, the host is woken when what waits is taken.
    pub fn room<R: Wait>(&self, rt: &R, session: u8) -> Room
        ensures own { result.session ≡ session }
    {
        match self.outboxes.of(session) {
            Some(outbox) => outbox.room(rt),
            None => Room::nowhere(&self.outboxes, session),
        }
    }

    /// Lets a letter wait for its session's desk, and for no other, once, unless it says nothing or no desk has that session. It comes back as delivered.
    pub fn deliver<R: Wait, L: Letter + Drop>(&self, rt: &R, letter: L) -> Delivered<L>
        ensures { result ≡ letter }
    {
        if letter.text().is_empty() {
            return Delivered::of_nothing(letter);
        }
        match self.outboxes.of(letter.session()) {
            Some(outbox) => outbox.tell(rt, letter),
            None => Delivered::of_nobody(&self.outboxes, letter),
        }
    }

    /// Lets each of these wait so, in their order. They come back as delivered.
    pub fn deliver_each<R: Wait, L: Letter + Drop>(
        &self,
        rt: &R,
        letters: Vec<L>,
    ) -> DeliveredEach<L>
        ensures { result ≡ letters.items }
    {
        let mut underway = Underway::of(letters);
        self.deliver_all(rt, &mut underway);
        underway.end()
    }

    fn deliver_all<R: Wait, L: Letter + Drop>(&self, rt: &R, underway: &mut Underway<L>)
        ensures same { underway.new.letters ≡ underway.old.letters }
        ensures all { underway.new.delivered ≡ length underway.new.letters }
    {
        while underway.is_more() {
            self.deliver_next(rt, underway);
        }
    }

    fn deliver_next<R: Wait, L: Letter + Drop>(&self, rt: &R, underway: &mut Underway<L>)
        requires more { underway.old.delivered < length underway.old.letters }
        ensures further { IsFurther underway.old underway.new }
    {
        if underway.text().is_empty() {
            underway.pass_nothing();
            return;
        }
        match self.outboxes.of(underway.session()) {
            Some(outbox) => outbox.tell_next(rt, underway),
            None => underway.pass_nobody(&self.outboxes),
        }
    }

    /// A client of a session's desk begins: its outbox is whole from then on, and where something was left out, what waits there goes to nobody.
    pub fn begin<R: Wait>(&self, rt: &R, session: u8) -> Begun
        ensures own { result ≡ session }
    {
        match self.outboxes.of(session) {
            Some(outbox) => outbox.begin(rt),
            None => Begun::of_nobody(&self.outboxes, session),
        }
    }

    /// Nothing more is taken in or told. What is told already may be written, as far as it is read at once.
    pub fn end<R: Wait + Clock>(&self, rt: &R) {
        self.inbox.end(rt);
        for outbox in self.outboxes.as_slice() {
            outbox.settle(rt);
            outbox.end(rt);
        }
    }
}
