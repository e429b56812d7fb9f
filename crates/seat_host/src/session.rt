//! A session of the host.
ghost use Rattle.std.specs.Prelude.{◌≡◌, ◌+◌, ◌-◌, ◌<◌, ◌≤◌, length, Some, IfSome, IfNone, IfErr, OnOk, slice_get};
ghost use Rattle.std.specs.Fn.{FnOnceReturnsAt};
ghost use Rattle.seat_display.specs.Faces.{viewed};
ghost use Rattle.seat_rules.specs.Prefixes.{Begins};
ghost use Rattle.seat_rules.specs.Journal.{FitsCommand, IsLegal};
ghost use Rattle.seat_journal.specs.declared.entry.Work.TheVariants.{Seats};
ghost use Rattle.seat_host.specs.Refusing.{IsDue};
ghost use Rattle.seat_host.specs.Sessions.{Booked, Waits, numbers_of};
ghost use Rattle.line_booking.specs.declared.booking.BookFault.TheVariants.{JournalFull, Memory as NoMemory};

use crate::host::Host;
use crate::ledgers::Hosting;
use crate::party::Party;
use crate::under_lock::Refusal;
use line_booking::Receipt;
use seat_display::Sight;
use seat_journal::Command;
use std::alloc::Global;
use std::marker::Model;
use std::sync::Wait;

/// Books seats. It keeps receipts of its own lines, and looks without the lock.
#[derive(Drop)]
pub struct Session<K: Hosting> {
    pub party: Party<K>,
}

impl<K: Hosting> Model for Session<K> {
    ghost use Rattle.std.specs.Prelude.{◌≤◌};
    ghost use Rattle.seat_host.specs.Sessions.{Seat};

    ghost Value = { Seat };

    ghost view = { λ s. s.party };

    ghost invariant = { λ s. (1 ≤ s.party.id) × (s.party.id ≤ 8) };
}

impl<K: Hosting> Session<K> {
    /// Its number, from 1.
    pub fn id(&self) -> u8
        ensures { result ≡ self.now.id }
    {
        self.party.id()
    }

    /// The numbers of the lines of its calls, in order.
    pub fn numbers(&self) -> &[u32]
        ensures { result.now ≡ numbers_of self.now.receipts }
    {
        self.party.numbers()
    }

    /// The number of its next call.
    pub fn next_call(&self) -> u32
        ensures { result ≡ length self.now.receipts + 1 }
    {
        self.party.next_call()
    }

    /// Has the host answer a command, as `Host::book` does. `last` shows the receipt.
    pub fn book<R: Wait>(
        &mut self,
        host: &Host<K>,
        rt: &R,
        alloc: Global,
        command: Command,
    ) -> Result<(), Refusal>
        requires { FitsCommand K.grid command }
        ensures booked { OnOk result (Booked K.grid (Seats command) self.old self.new) }
        ensures waits { IfErr result (λ _. Waits self.old self.new) }
        ensures full { IfErr result (λ r. r.fault ≡ JournalFull → K.cap ≤ length self.new.front) }
        ensures due { IfErr result (IsDue K.grid K.book K.cap self.new.front) }
        ensures memory { IfErr result (λ r. r.fault ≡ NoMemory → self.new ≡ self.old) }
    {
        host.book(rt, alloc, self, command)
    }

    /// The receipt of its last call that gave a line.
    pub fn last(&self) -> &Receipt
        requires { 0 < length self.now.receipts }
        ensures { slice_get self.now.receipts (length self.now.receipts - 1) ≡ Some result.now }
    {
        self.party.last()
    }

    /// How many lines it has seen.
    pub fn front_len(&self) -> u32
        ensures { result ≡ length self.now.front }
    {
        self.party.front_len()
    }

    /// Has `at` look at what is then seen: `Sight::room` has the seats that are left. It takes no lock and waits for
    /// nobody. None as `Viewer::look` says.
    pub fn look<T: Drop, F: FnOnce(&Sight) -> T>(&mut self, at: F) -> Option<T>
        requires { F.IsAlwaysCallable at }
        ensures found { IfSome result (λ t. FnOnceReturnsAt F.FnOnce at (viewed K.book K.grid self.new.front) t) }
        ensures front { Begins self.old.front self.new.front }
        ensures legal { IsLegal K.grid self.new.front }
        ensures none { IfNone result (self.new ≡ self.old) }
        ensures same { (self.new.id ≡ self.old.id) × (self.new.receipts ≡ self.old.receipts) }
    {
        self.party.look(at)
    }
}
