//! What waits for a desk to be read.
ghost use Rattle.std.specs.Prelude.{◌≡◌, ◌<◌, length};
ghost use Rattle.desk_pipes.specs.Waiting.{next_session, IsFurther};

use crate::letter::Letter;
use crate::text::{Begun, Delivered, Room, Text, Underway};
use std::alloc::Global;
use std::marker::Model;
use std::sync::{Condvar, Mutex, Wait};
use std::time::{Clock, Duration};

/// How many milliseconds the end of a host waits for what a desk is told to be written.
const LAST: u64 = 100;

/// A text waits in it under a lock, for the desk of one session.
#[derive(Drop)]
pub struct Outbox {
    session: u8,
    text: Mutex<Text>,
    came: Condvar,
    written: Condvar,
}

impl Model for Outbox {
    ghost use Rattle.std.specs.Prelude.{ℕ};

    ghost Value = { ℕ };

    ghost view = { λ s. s.session };
}

impl Outbox {
    /// That of a session's desk. Nothing waits, and nobody writes what will.
    pub fn new(alloc: Global, session: u8) -> Outbox
        ensures { result ≡ session }
    {
        Outbox {
            session,
            text: Mutex::new(Text::none(alloc)),
            came: Condvar::new(),
            written: Condvar::new(),
        }
    }

    /// Lets a letter to its session's desk wait, once. It waits for nobody, and comes back as delivered.
    pub(crate) fn tell<R: Wait, L: Letter + Drop>(&self, rt: &R, letter: L) -> Delivered<L>
        requires own { (L.posted letter).session ≡ self.now }
        ensures { result ≡ letter }
    {
        let mut text = self.text.lock(rt);
        let (delivered, _) = text.add_letter(letter);
        drop(text);
        self.came.notify_one();
        delivered
    }

    /// Lets the next of letters that are on their way wait so, one to its session's desk.
    pub(crate) fn tell_next<R: Wait, L: Letter + Drop>(&self, rt: &R, underway: &mut Underway<L>)
        requires own { next_session L.posted underway.old ≡ self.now }
        requires more { underway.old.delivered < length underway.old.letters }
        ensures further { IsFurther underway.old underway.new }
    {
        let mut text = self.text.lock(rt);
        let _ = text.add_next(underway);
        drop(text);
        self.came.notify_one();
    }

    /// Lets a last text wait. What is told behind it is left out.
    pub fn tell_last<R: Wait>(&self, rt: &R, bytes: &[u8]) {
        let mut text = self.text.lock(rt);
        let _ = text.add_last(bytes);
        drop(text);
        self.came.notify_one();
    }

    /// A client of its session's desk begins.
    pub(crate) fn begin<R: Wait>(&self, rt: &R) -> Begun
        ensures own { result ≡ self.now }
    {
        let mut text = self.text.lock(rt);
        let begun = text.begin(self.session);
        drop(text);
        begun
    }

    /// Whether a piece more may wait. Where it may not, `take` says so.
    pub fn room<R: Wait>(&self, rt: &R) -> Room
        ensures own { result.session ≡ self.now }
    {
        let mut text = self.text.lock(rt);
        let room = text.room(self.session);
        drop(text);
        room
    }

    /// Waits for a text, and takes it. What `bytes` had is given up. Nothing is taken where all is over. Whether somebody waits for room.
    pub fn take<R: Wait>(&self, rt: &R, bytes: &mut Vec<u8>) -> bool {
        let guard = self.text.lock(rt);
        let mut text = self.came.wait_while(rt, guard, |text| text.is_to_come());
        let is_awaited = text.hand_over(bytes);
        drop(text);
        is_awaited
    }

    /// Somebody writes what waits, up to the end of the host or of the pipe.
    pub(crate) fn begin_writing<R: Wait>(&self, rt: &R) {
        let mut text = self.text.lock(rt);
        text.set_writer(true);
        drop(text);
    }

    /// Nobody does any more.
    pub(crate) fn end_writing<R: Wait>(&self, rt: &R) {
        let mut text = self.text.lock(rt);
        text.set_writer(false);
        drop(text);
        self.written.notify_all();
    }

    /// What was taken is written.
    pub fn written<R: Wait>(&self, rt: &R) {
        let mut text = self.text.lock(rt);
        text.written();
        drop(text);
        self.written.notify_all();
    }

    /// Gives the writer some time to write what waits, and no more: a desk that does not read keeps nobody, and one that nobody writes to no time at all.
    pub fn settle<R: Wait + Clock>(&self, rt: &R) {
        let guard = self.text.lock(rt);
        let (text, _) = self.written.wait_timeout_while(
            rt,
            guard,
            Duration::from_millis(LAST),
            |text| text.is_owed(),
        );
        drop(text);
    }

    /// Nothing more is told.
    pub fn end<R: Wait>(&self, rt: &R) {
        let mut text = self.text.lock(rt);
        text.end();
        drop(text);
        self.came.notify_one();
    }
}
