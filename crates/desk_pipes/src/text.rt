//! What lies in an outbox under its lock.
//! What was done there is known by a value that is made here alone: a letter that waits, a client that has begun, room for a piece.
ghost use Rattle.std.specs.Prelude.{◌≡◌, ◌≤◌, ◌<◌, ◌&&◌, ◌||◌, [], true, false, not, nat_lt, if◌then◌else◌, length, OnErr, OnOk};
ghost use Rattle.desk_pipes.specs.Waiting.{are_none, has_room, is_full, is_owed, next_session, next_text, text_told, IsFurther, IsSameOutlet};

use crate::letter::Letter;
use crate::outboxes::Outboxes;
use std::alloc::{AllocError, Global};
use std::marker::Model;
use std::mem;

/// Where so many bytes wait no more are added until a client says hello.
const MOST_BYTES: usize = 1_048_576;

/// Where fewer bytes wait a piece more of what is told piece by piece may.
const MOST_AHEAD: usize = 65_536;

/// A text that waits, and who waits for it.
#[derive(Drop)]
pub(crate) struct Text {
    bytes: Vec<u8>,
    /// Whether something was left out.
    is_lost: bool,
    /// Whether what was taken is not written yet.
    is_writing: bool,
    /// Whether somebody writes what waits.
    has_writer: bool,
    /// Whether somebody waits for room.
    is_awaited: bool,
    is_over: bool,
}

impl Text {
    /// Nothing waits, and nobody writes what will.
    pub(crate) fn none(alloc: Global) -> Text
        ensures { (result.bytes.items ≡ []) × (result.is_lost ≡ false) }
    {
        Text {
            bytes: Vec::new(alloc),
            is_lost: false,
            is_writing: false,
            has_writer: false,
            is_awaited: false,
            is_over: false,
        }
    }

    // Adds a text behind what waits. Where too much does that is said once, and nothing more is added; so it is where memory is wanting.
    fn add(&mut self, more: &[u8]) -> Result<(), AllocError>
        ensures text { OnOk result (self.new.bytes.items
            ≡ text_told self.old.is_lost (is_full self.old.bytes.items) self.old.bytes.items more.now) }
        ensures lost { OnOk result (self.new.is_lost ≡ (self.old.is_lost || is_full self.old.bytes.items)) }
        ensures memory { OnErr result ((self.new.bytes.items ≡ self.old.bytes.items) × (self.new.is_lost ≡ true)) }
        ensures same { IsSameOutlet self.old self.new }
    {
        if self.is_lost {
            return Ok(());
        }
        self.is_lost = true;
        if self.bytes.len() >= MOST_BYTES {
            return self.bytes.extend_from_slice(b"FAULT - LOST\n");
        }
        self.bytes.extend_from_slice(more)?;
        self.is_lost = false;
        Ok(())
    }

    /// Lets what a letter says wait, in the same way. The letter is used up, so it waits once.
    pub(crate) fn add_letter<L: Letter + Drop>(
        &mut self,
        letter: L,
    ) -> (Delivered<L>, Result<(), AllocError>)
        ensures letter { result.0 ≡ letter }
        ensures text { OnOk result.1 (self.new.bytes.items
            ≡ text_told self.old.is_lost (is_full self.old.bytes.items) self.old.bytes.items (L.posted letter).text) }
        ensures lost { OnOk result.1 (self.new.is_lost ≡ (self.old.is_lost || is_full self.old.bytes.items)) }
        ensures memory { OnErr result.1 ((self.new.bytes.items ≡ self.old.bytes.items) × (self.new.is_lost ≡ true)) }
        ensures same { IsSameOutlet self.old self.new }
    {
        let added = self.add(letter.text());
        (Delivered { letter }, added)
    }

    /// Lets the next of letters that are on their way wait, in the same way. It is then one that is delivered, so it waits once.
    pub(crate) fn add_next<L: Letter + Drop>(
        &mut self,
        underway: &mut Underway<L>,
    ) -> Result<(), AllocError>
        requires more { underway.old.delivered < length underway.old.letters }
        ensures further { IsFurther underway.old underway.new }
        ensures text { OnOk result (self.new.bytes.items
            ≡ text_told self.old.is_lost (is_full self.old.bytes.items) self.old.bytes.items (next_text L.posted underway.old)) }
        ensures lost { OnOk result (self.new.is_lost ≡ (self.old.is_lost || is_full self.old.bytes.items)) }
        ensures memory { OnErr result ((self.new.bytes.items ≡ self.old.bytes.items) × (self.new.is_lost ≡ true)) }
        ensures same { IsSameOutlet self.old self.new }
    {
        let added = self.add(underway.text());
        underway.go_further();
        added
    }

    /// Adds the last text, where there is room: nothing is added behind it, unless a client begins.
    pub(crate) fn add_last(&mut self, last: &[u8]) -> Result<(), AllocError>
        ensures text { OnOk result (self.new.bytes.items
            ≡ text_told self.old.is_lost (is_full self.old.bytes.items) self.old.bytes.items last.now) }
        ensures lost { self.new.is_lost ≡ true }
        ensures memory { OnErr result (self.new.bytes.items ≡ self.old.bytes.items) }
        ensures same { IsSameOutlet self.old self.new }
    {
        let added = self.add(last);
        self.is_lost = true;
        added
    }

    /// Whether a piece more may wait for a session's desk. Where it may not, whoever takes what waits is to wake who asks.
    pub(crate) fn room(&mut self, session: u8) -> Room
        ensures own { result.session ≡ session }
        ensures room { result.is_there ≡ has_room self.old.bytes.items }
        ensures awaited { self.new.is_awaited ≡ (self.old.is_awaited || not result.is_there) }
        ensures same { (self.new.bytes ≡ self.old.bytes) × (self.new.is_lost ≡ self.old.is_lost) × (self.new.is_writing ≡ self.old.is_writing)
            × (self.new.has_writer ≡ self.old.has_writer) × (self.new.is_over ≡ self.old.is_over) }
    {
        if self.bytes.len() < MOST_AHEAD {
            return Room {
                session,
                is_there: true,
            };
        }
        self.is_awaited = true;
        Room {
            session,
            is_there: false,
        }
    }

    /// All that waits, in its order. What `bytes` had is given up, and does not wait again. Whether somebody waits for room.
    pub(crate) fn hand_over(&mut self, bytes: &mut Vec<u8>) -> bool
        ensures all { bytes.new ≡ self.old.bytes }
        ensures none { self.new.bytes.items ≡ [] }
        ensures awaited { result ≡ self.old.is_awaited }
        ensures served { self.new.is_awaited ≡ false }
        ensures taken { self.new.is_writing ≡ true }
        ensures same { (self.new.is_lost ≡ self.old.is_lost) × (self.new.has_writer ≡ self.old.has_writer) × (self.new.is_over ≡ self.old.is_over) }
    {
        bytes.clear();
        mem::swap(&mut self.bytes, bytes);
        self.is_writing = true;
        let is_awaited = self.is_awaited;
        self.is_awaited = false;
        is_awaited
    }

    /// A client of a session's desk begins: where something was left out, what waits goes to nobody. From then on nothing is left out.
    pub(crate) fn begin(&mut self, session: u8) -> Begun
        ensures own { result ≡ session }
        ensures text { self.new.bytes.items ≡ (if self.old.is_lost then [] else self.old.bytes.items) }
        ensures whole { self.new.is_lost ≡ false }
        ensures same { IsSameOutlet self.old self.new }
    {
        if self.is_lost {
            self.bytes.clear();
        }
        self.is_lost = false;
        Begun { session }
    }

    /// Whether nothing is to be taken yet.
    pub(crate) fn is_to_come(&self) -> bool
        ensures { result ≡ (are_none self.now.bytes.items && not self.now.is_over) }
    {
        self.bytes.is_empty() && !self.is_over
    }

    /// Somebody writes what waits, or nobody does any more.
    pub(crate) fn set_writer(&mut self, has_writer: bool)
        ensures writer { self.new.has_writer ≡ has_writer }
        ensures same { (self.new.bytes ≡ self.old.bytes) × (self.new.is_lost ≡ self.old.is_lost) × (self.new.is_writing ≡ self.old.is_writing)
            × (self.new.is_awaited ≡ self.old.is_awaited) × (self.new.is_over ≡ self.old.is_over) }
    {
        self.has_writer = has_writer;
    }

    /// What was taken is written.
    pub(crate) fn written(&mut self)
        ensures written { self.new.is_writing ≡ false }
        ensures same { (self.new.bytes ≡ self.old.bytes) × (self.new.is_lost ≡ self.old.is_lost) × (self.new.has_writer ≡ self.old.has_writer)
            × (self.new.is_awaited ≡ self.old.is_awaited) × (self.new.is_over ≡ self.old.is_over) }
    {
        self.is_writing = false;
    }

    /// Nothing more is told.
    pub(crate) fn end(&mut self)
        ensures over { self.new.is_over ≡ true }
        ensures same { (self.new.bytes ≡ self.old.bytes) × (self.new.is_lost ≡ self.old.is_lost) × (self.new.has_writer ≡ self.old.has_writer)
            × (self.new.is_awaited ≡ self.old.is_awaited) × (self.new.is_writing ≡ self.old.is_writing) }
    {
        self.is_over = true;
    }

    /// Whether something is to be written, and somebody writes it.
    pub(crate) fn is_owed(&self) -> bool
        ensures { result ≡ is_owed self.now.has_writer self.now.is_writing self.now.bytes.items }
    {
        self.has_writer && (self.is_writing || !self.bytes.is_empty())
    }
}

/// Whether a piece more may wait for a session's desk. Only who asks its outbox has it.
#[derive(Drop)]
pub struct Room {
    session: u8,
    is_there: bool,
}

impl Model for Room {
    ghost use Rattle.desk_pipes.specs.Waiting.{Roomed};

    ghost Value = { Roomed };

    ghost view = { λ s. record { session = s.session; is_there = s.is_there } };
}

impl Room {
    /// There is none for a session that no desk has.
    pub(crate) fn nowhere(outboxes: &Outboxes, session: u8) -> Room
        requires nobody { length outboxes.now ≤ session }
        ensures { (result.session ≡ session) × (result.is_there ≡ false) }
    {
        let _ = outboxes;
        Room {
            session,
            is_there: false,
        }
    }

    pub fn is_there(&self) -> bool
        ensures { result ≡ self.now.is_there }
    {
        self.is_there
    }
}

/// A letter that waits for its session's desk, unless it says nothing or no desk has that session. Only who delivers it has it.
#[derive(Drop)]
pub struct Delivered<L: Letter + Drop> {
    letter: L,
}

impl<L: Letter + Drop> Model for Delivered<L> {
    ghost Value = { L };

    ghost view = { λ s. s.letter };
}

impl<L: Letter + Drop> Delivered<L> {
    /// One that says nothing waits for nobody.
    pub(crate) fn of_nothing(letter: L) -> Delivered<L>
        requires nothing { (L.posted letter).text ≡ [] }
        ensures { result ≡ letter }
    {
        Delivered { letter }
    }

    /// One for a session that no desk has.
    pub(crate) fn of_nobody(outboxes: &Outboxes, letter: L) -> Delivered<L>
        requires nobody { length outboxes.now ≤ (L.posted letter).session }
        ensures { result ≡ letter }
    {
        let _ = outboxes;
        Delivered { letter }
    }
}

/// Letters on their way, of which the first are delivered, so many.
#[derive(Drop)]
pub(crate) struct Underway<L: Letter + Drop> {
    letters: Vec<L>,
    delivered: usize,
}

impl<L: Letter + Drop> Model for Underway<L> {
    ghost use Rattle.std.specs.Prelude.{◌≤◌, length};
    ghost use Rattle.desk_pipes.specs.Waiting.{Sent};

    ghost Value = { Sent L };

    ghost view = { λ s. record { letters = s.letters.items; delivered = s.delivered } };

    ghost invariant = { λ s. s.delivered ≤ length s.letters.items };
}

impl<L: Letter + Drop> Underway<L> {
    /// None of them is delivered.
    pub(crate) fn of(letters: Vec<L>) -> Underway<L>
        ensures { (result.letters ≡ letters.items) × (result.delivered ≡ 0) }
    {
        Underway {
            letters,
            delivered: 0,
        }
    }

    /// Whether one is not delivered.
    pub(crate) fn is_more(&self) -> bool
        ensures more { result ≡ nat_lt self.now.delivered (length self.now.letters) }
        ensures few { self.now.delivered ≤ length self.now.letters }
    {
        self.delivered < self.letters.len()
    }

    /// To whom the next goes.
    pub(crate) fn session(&self) -> u8
        ensures { result ≡ next_session L.posted self.now }
    {
        match self.letters.get(self.delivered) {
            Some(letter) => letter.session(),
            None => 0,
        }
    }

    /// What the next says.
    pub(crate) fn text(&self) -> &[u8]
        ensures { result.now ≡ next_text L.posted self.now }
    {
        match self.letters.get(self.delivered) {
            Some(letter) => letter.text(),
            None => &[],
        }
    }

    fn go_further(&mut self)
        requires more { self.old.delivered < length self.old.letters }
        ensures { IsFurther self.old self.new }
    {
        self.delivered += 1;
    }

    /// One that says nothing waits for nobody.
    pub(crate) fn pass_nothing(&mut self)
        requires more { self.old.delivered < length self.old.letters }
        requires nothing { next_text L.posted self.old ≡ [] }
        ensures { IsFurther self.old self.new }
    {
        self.go_further();
    }

    /// Nor does one for a session that no desk has.
    pub(crate) fn pass_nobody(&mut self, outboxes: &Outboxes)
        requires more { self.old.delivered < length self.old.letters }
        requires nobody { length outboxes.now ≤ next_session L.posted self.old }
        ensures { IsFurther self.old self.new }
    {
        let _ = outboxes;
        self.go_further();
    }

    /// All of them are delivered.
    pub(crate) fn end(self) -> DeliveredEach<L>
        requires all { self.delivered ≡ length self.letters }
        ensures { result ≡ self.letters }
    {
        DeliveredEach {
            letters: self.letters,
        }
    }
}

/// Letters that were delivered, in their order, each as by itself. Only who delivers them has them.
#[derive(Drop)]
pub struct DeliveredEach<L: Letter + Drop> {
    letters: Vec<L>,
}

impl<L: Letter + Drop> Model for DeliveredEach<L> {
    ghost use Rattle.std.specs.Prelude.{List};

    ghost Value = { List L };

    ghost view = { λ s. s.letters.items };
}

/// That a client of a session's desk has begun: its outbox is whole, unless no desk has that session. Only who lets it begin has it.
#[derive(Drop)]
pub struct Begun {
    session: u8,
}

impl Model for Begun {
    ghost use Rattle.std.specs.Prelude.{ℕ};

    ghost Value = { ℕ };

    ghost view = { λ s. s.session };
}

impl Begun {
    /// That of a session that no desk has.
    pub(crate) fn of_nobody(outboxes: &Outboxes, session: u8) -> Begun
        requires nobody { length outboxes.now ≤ session }
        ensures { result ≡ session }
    {
        let _ = outboxes;
        Begun { session }
    }
}
