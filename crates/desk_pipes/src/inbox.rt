//! Lines that wait for the host, in the order in which they came.
ghost use Rattle.std.specs.Prelude.{◌≡◌, ◌&&◌, ◌∷◌, ◌++◌, ◌+◌, ◌<◌, [], false, true, IfOk, nat_lt, slice_get, if◌then◌else◌, vec_capacity, vec_len};
ghost use Rattle.desk_pipes.specs.Waiting.{are_answered, behind_answers, is_free, is_settled, may_say, one_answered, one_open};

use crate::cutting::HeldLine;
use crate::watch::one_more;
use airline_base::Memory;
use std::alloc::Global;
use std::marker::Model;
use std::mem;
use std::sync::{Condvar, Mutex, Wait};

/// The most lines of a desk that are not answered.
const MOST_OPEN: u32 = 64;

/// The most of all desks, that of the manager with them.
const MOST_LINES: usize = 576;

/// A line of a session's desk, with its end.
#[derive(Drop)]
pub struct Said {
    pub session: u8,
    pub line: HeldLine,
    /// Whether it was said ahead of the host's start, as far as that is known.
    pub is_earlier: bool,
    /// How many lines of the desk were answered where they were read, behind the last that waited and ahead of this one.
    pub passed: u32,
}

/// Lines that were taken to be answered, in their order.
#[derive(Drop)]
pub struct Taken {
    said: Vec<Said>,
}

impl Model for Taken {
    ghost use Rattle.std.specs.Prelude.{List};
    ghost use Rattle.desk_pipes.specs.declared.inbox.Said.{Said};

    ghost Value = { List Said };

    ghost view = { λ s. s.said.items };
}

impl Taken {
    /// None, and room for as many as may wait.
    pub fn none(alloc: Global) -> Result<Taken, Memory>
        ensures { IfOk result (λ taken. taken ≡ []) }
    {
        let said = room_for_lines(alloc)?;
        Ok(Taken { said })
    }

    pub fn as_slice(&self) -> &[Said]
        ensures { result.now ≡ self.now }
    {
        self.said.as_slice()
    }
}

/// What lies under the lock.
#[derive(Drop)]
struct Waiting {
    said: Vec<Said>,
    /// How many lines of each session are not answered.
    unanswered: [u32; 9],
    /// Which sessions are told something piece by piece: its line is not answered until its end.
    held: [bool; 9],
    /// Whether the host is to go on though nobody said anything.
    is_woken: bool,
    is_over: bool,
}

impl Waiting {
    fn may_say(&self, session: u8) -> bool
        ensures { result ≡ (may_say self.now.is_over (slice_get self.now.unanswered session)
            && nat_lt (vec_len self.now.said) (vec_capacity self.now.said)) }
    {
        may_say(self.is_over, count_of(&self.unanswered, session))
            && self.said.len() < self.said.capacity()
    }

    // Whether each line of a session is answered.
    fn is_settled(&self, session: u8) -> bool
        ensures { result ≡ is_settled (slice_get self.now.unanswered session) (slice_get self.now.held session) }
    {
        are_answered(count_of(&self.unanswered, session)) && is_free(&self.held, session)
    }

    // Whether the line waits: it stands behind all that do, and is one more of its session that is not answered.
    fn add(&mut self, said: Said) -> bool
        ensures comes { result ≡ (may_say self.old.is_over (slice_get self.old.unanswered said.session)
            && nat_lt (vec_len self.old.said) (vec_capacity self.old.said)) }
        ensures lines { self.new.said.items ≡ (if result then self.old.said.items ++ said ∷ [] else self.old.said.items) }
        ensures counted { self.new.unanswered ≡ (if result then one_open self.old.unanswered said.session else self.old.unanswered) }
        ensures same { (self.new.held ≡ self.old.held) × (self.new.is_woken ≡ self.old.is_woken) × (self.new.is_over ≡ self.old.is_over) }
    {
        if !self.may_say(said.session) {
            return false;
        }
        count_up(&mut self.unanswered, said.session);
        self.said.push_reserved(said);
        true
    }

    // All that waits, in its order. What `said` had is given up, and does not wait again.
    fn hand_over(&mut self, said: &mut Vec<Said>)
        ensures all { said.new ≡ self.old.said }
        ensures none { self.new.said.items ≡ [] }
        ensures room { vec_capacity self.new.said ≡ vec_capacity said.old }
        ensures served { self.new.is_woken ≡ false }
        ensures same { (self.new.unanswered ≡ self.old.unanswered) × (self.new.held ≡ self.old.held) × (self.new.is_over ≡ self.old.is_over) }
    {
        said.clear();
        mem::swap(&mut self.said, said);
        self.is_woken = false;
    }

    // These lines are answered, but for the last of the sessions that are told piece by piece from then on.
    fn answered(&mut self, said: &[Said], held: [bool; 9])
        ensures counted { self.new.unanswered ≡ behind_answers self.old.unanswered said.now }
        ensures held { self.new.held ≡ held }
        ensures same { (self.new.said ≡ self.old.said) × (self.new.is_woken ≡ self.old.is_woken) × (self.new.is_over ≡ self.old.is_over) }
    {
        count_down(&mut self.unanswered, said);
        self.held = held;
    }

    // The host is to go on.
    fn wake(&mut self)
        ensures woken { self.new.is_woken ≡ true }
        ensures same { (self.new.said ≡ self.old.said) × (self.new.unanswered ≡ self.old.unanswered) × (self.new.held ≡ self.old.held) × (self.new.is_over ≡ self.old.is_over) }
    {
        self.is_woken = true;
    }
}

// One line more of a session is not answered.
fn count_up(unanswered: &mut [u32; 9], session: u8)
    ensures { unanswered.new ≡ one_open unanswered.old session }
{
    let place = usize::from(session);
    if place < unanswered.len() {
        unanswered[place] = one_more(unanswered[place]);
    }
}

// Each of these lines is answered.
fn count_down(unanswered: &mut [u32; 9], said: &[Said])
    ensures { unanswered.new ≡ behind_answers unanswered.old said.now }
{
    let mut rest = said;
    while let [one, more @ ..] = rest {
        count_one_down(unanswered, one.session);
        rest = more;
    }
}

fn count_one_down(unanswered: &mut [u32; 9], session: u8)
    ensures { unanswered.new ≡ one_answered unanswered.old session }
{
    let place = usize::from(session);
    if place < unanswered.len() {
        unanswered[place] = unanswered[place].saturating_sub(1);
    }
}

fn may_say(is_over: bool, unanswered: Option<u32>) -> bool
    ensures { result ≡ may_say is_over unanswered }
{
    match unanswered {
        Some(count) => !is_over && count < MOST_OPEN,
        None => false,
    }
}

fn are_answered(unanswered: Option<u32>) -> bool
    ensures { result ≡ are_answered unanswered }
{
    match unanswered {
        Some(count) => count == 0,
        None => true,
    }
}

fn is_free(held: &[bool; 9], session: u8) -> bool
    ensures { result ≡ is_free (slice_get held.now session) }
{
    match held.get(usize::from(session)) {
        Some(is_held) => !*is_held,
        None => true,
    }
}

fn count_of(unanswered: &[u32; 9], session: u8) -> Option<u32>
    ensures { result ≡ slice_get unanswered.now session }
{
    unanswered.get(usize::from(session)).copied()
}

/// Lines wait in it under a lock.
#[derive(Drop)]
pub struct Inbox {
    waiting: Mutex<Waiting>,
    came: Condvar,
    answered: Condvar,
}

impl Inbox {
    /// Nothing waits.
    pub fn new(alloc: Global) -> Result<Inbox, Memory> {
        Ok(Inbox {
            waiting: Mutex::new(Waiting {
                said: room_for_lines(alloc)?,
                unanswered: [0; 9],
                held: [false; 9],
                is_woken: false,
                is_over: false,
            }),
            came: Condvar::new(),
            answered: Condvar::new(),
        })
    }

    /// Lets a line wait, once the session has fewer that are not answered than it may. Whether more may come.
    pub fn say<R: Wait>(&self, rt: &R, said: Said) -> bool {
        let session = said.session;
        let guard = self.waiting.lock(rt);
        let mut waiting = self.answered.wait_while(
            rt,
            guard,
            |waiting| !waiting.may_say(session) && !waiting.is_over,
        );
        let comes = waiting.add(said);
        drop(waiting);
        self.came.notify_one();
        comes
    }

    /// Waits until something was said or somebody woke the host, unless it has something to do, and takes all that was said, in its order.
    /// What was taken before is given up.
    pub fn take<R: Wait>(&self, rt: &R, taken: &mut Taken, waits: bool) {
        let guard = self.waiting.lock(rt);
        let mut waiting = self.came.wait_while(rt, guard, |waiting| {
            waits && waiting.said.is_empty() && !waiting.is_woken && !waiting.is_over
        });
        waiting.hand_over(&mut taken.said);
        drop(waiting);
    }

    /// Wakes the host, though nobody said anything.
    pub fn wake<R: Wait>(&self, rt: &R) {
        let mut waiting = self.waiting.lock(rt);
        waiting.wake();
        drop(waiting);
        self.came.notify_one();
    }

    /// What was taken is answered: its sessions may say more. The last line of a session that is held is not, until it is held no more.
    pub fn let_more<R: Wait>(&self, rt: &R, taken: &Taken, held: [bool; 9]) {
        let mut waiting = self.waiting.lock(rt);
        waiting.answered(taken.as_slice(), held);
        drop(waiting);
        self.answered.notify_all();
    }

    /// Waits until each line that a session has said is answered.
    pub fn settle<R: Wait>(&self, rt: &R, session: u8) {
        let guard = self.waiting.lock(rt);
        let waiting = self.answered.wait_while(
            rt,
            guard,
            |waiting| !waiting.is_settled(session) && !waiting.is_over,
        );
        drop(waiting);
    }

    /// Nothing more is taken in.
    pub fn end<R: Wait>(&self, rt: &R) {
        let mut waiting = self.waiting.lock(rt);
        waiting.is_over = true;
        drop(waiting);
        self.came.notify_one();
        self.answered.notify_all();
    }
}

// Room for as many lines as may wait.
fn room_for_lines(alloc: Global) -> Result<Vec<Said>, Memory>
    ensures { IfOk result (λ said. said.items ≡ []) }
{
    Ok(Vec::with_capacity(alloc, MOST_LINES)?)
}
