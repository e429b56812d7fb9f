//! What a session and the manager are: a number, and what its calls have left.
ghost use Rattle.std.specs.Prelude.{◌≡◌, ◌+◌, ◌-◌, ◌<◌, ◌≤◌, length, Some, IfSome, IfNone, slice_get};
ghost use Rattle.std.specs.Fn.{FnOnceReturnsAt};
ghost use Rattle.seat_display.specs.Faces.{viewed};
ghost use Rattle.seat_rules.specs.Prefixes.{Begins};
ghost use Rattle.seat_rules.specs.Journal.{IsLegal};
ghost use Rattle.seat_host.specs.Ledgers.{counted};
ghost use Rattle.seat_rules.specs.Histories.{of_session};
ghost use Rattle.seat_host.specs.Sessions.{KeepsLines, numbers_of, seated};

use crate::ledgers::{Hosting, Stake};
use line_booking::{Receipt, Receipts};
use seat_display::{Sight, Viewer};
use std::marker::Model;

/// It keeps receipts of its own lines, the one share of its ledger, and a viewer.
#[derive(Drop)]
pub struct Party<K: Hosting> {
    pub(crate) id: u8,
    pub(crate) stake: Stake<K>,
    pub(crate) viewer: Viewer,
    pub(crate) receipts: Receipts,
}

impl<K: Hosting> Model for Party<K> {
    ghost use Rattle.std.specs.Prelude.{◌≡◌, length, take};
    ghost use Rattle.seat_rules.specs.Histories.{of_session};
    ghost use Rattle.seat_host.specs.Ledgers.{counted};
    ghost use Rattle.seat_host.specs.Sessions.{Seat, Stands, KeepsLines, seat_of};

    ghost Value = { Seat };

    ghost view = { λ p. seat_of p.id (length p.receipts.numbers) p.viewer.front };

    ghost invariant = { λ p. (p.viewer.book ≡ K.book) × (p.viewer.grid ≡ K.grid) × (p.stake ≡ counted p.id (length p.receipts.numbers)) × Stands K.grid K.sessions (seat_of p.id (length p.receipts.numbers) p.viewer.front) × KeepsLines p.receipts (take (length p.receipts.numbers) (of_session p.id p.viewer.front)) };
}

impl<K: Hosting> Party<K> {
    /// Its number.
    pub fn id(&self) -> u8
        ensures { result ≡ self.now.id }
    {
        self.id
    }

    /// The numbers of the lines of its calls, in order.
    pub fn numbers(&self) -> &[u32]
        ensures { result.now ≡ numbers_of self.now.receipts }
    {
        self.receipts.numbers()
    }

    /// The number of its next call.
    pub fn next_call(&self) -> u32
        ensures { result ≡ length self.now.receipts + 1 }
    {
        let kept = &self.receipts;
        kept.numbers().len() as u32 + 1
    }

    /// The line of its last call.
    pub fn last(&self) -> &Receipt
        requires { 0 < length self.now.receipts }
        ensures { slice_get self.now.receipts (length self.now.receipts - 1) ≡ Some result.now }
    {
        match self.receipts.last() {
            Some(line) => line,
            None => unreachable!(),
        }
    }

    /// How many lines it has seen.
    pub fn front_len(&self) -> u32
        ensures { result ≡ length self.now.front }
    {
        self.viewer.seen()
    }

    /// Has `at` look at what is then seen. None as `Viewer::look` says.
    pub fn look<T: Drop, F: FnOnce(&Sight) -> T>(&mut self, at: F) -> Option<T>
        requires { F.IsAlwaysCallable at }
        ensures found { IfSome result (λ t. FnOnceReturnsAt F.FnOnce at (viewed K.book K.grid self.new.front) t) }
        ensures front { Begins self.old.front self.new.front }
        ensures legal { IsLegal K.grid self.new.front }
        ensures none { IfNone result (self.new ≡ self.old) }
        ensures same { (self.new.id ≡ self.old.id) × (self.new.receipts ≡ self.old.receipts) }
    {
        self.viewer.look(at)
    }

    /// Makes memory for the receipts of so many calls, where it is to be had: else it is asked for call by call.
    pub fn expect(&mut self, calls: usize)
        ensures { self.new ≡ self.old }
    {
        self.receipts.expect(calls);
    }

    /// One that goes on from the lines that its viewer has seen. Its own among them are its receipts.
    #[tactic(auto, using(crate::proofs::Opening::seated_is))]
    pub fn seated(id: u8, stake: Stake<K>, viewer: Viewer, receipts: Receipts) -> Party<K>
        requires number { (id ≤ K.sessions) × (K.sessions < 9) }
        requires stake { stake ≡ counted id (length receipts.numbers) }
        requires viewer { (viewer.book ≡ K.book) × (viewer.grid ≡ K.grid) }
        requires legal { IsLegal K.grid viewer.front × (length viewer.front ≤ 999999) }
        requires receipts { KeepsLines receipts (of_session id viewer.front) }
        ensures { result ≡ seated id viewer.front }
    {
        Party {
            id,
            stake,
            viewer,
            receipts,
        }
    }
}
