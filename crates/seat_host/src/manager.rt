//! The manager of the limits, and of what is open.
ghost use Rattle.std.specs.Prelude.{◌≡◌, ◌+◌, ◌-◌, ◌<◌, ◌≤◌, length, Some, IfSome, IfNone, IfErr, OnOk, slice_get};
ghost use Rattle.std.specs.Fn.{FnOnceReturnsAt};
ghost use Rattle.seat_display.specs.Faces.{viewed};
ghost use Rattle.seat_rules.specs.Prefixes.{Begins};
ghost use Rattle.seat_rules.specs.Journal.{FitsChange, FitsSale, IsLegal};
ghost use Rattle.seat_journal.specs.declared.entry.Work.TheVariants.{Limit, Sale};
ghost use Rattle.seat_host.specs.Refusing.{IsDue};
ghost use Rattle.seat_host.specs.Sessions.{Booked, Waits, numbers_of};
ghost use Rattle.line_booking.specs.declared.booking.BookFault.TheVariants.{JournalFull, Memory as NoMemory};

use crate::host::Host;
use crate::ledgers::Hosting;
use crate::party::Party;
use crate::under_lock::Refusal;
use line_booking::Receipt;
use seat_display::Sight;
use seat_journal::{Change, SaleChange};
use std::alloc::Global;
use std::marker::Model;
use std::sync::Wait;

/// Session 0, which changes limits, and closes and opens classes. It keeps receipts of its own lines, and looks without the lock.
#[derive(Drop)]
pub struct Manager<K: Hosting> {
    pub party: Party<K>,
}

impl<K: Hosting> Model for Manager<K> {
    ghost use Rattle.std.specs.Prelude.{◌≡◌};
    ghost use Rattle.seat_host.specs.Sessions.{Seat};

    ghost Value = { Seat };

    ghost view = { λ m. m.party };

    ghost invariant = { λ m. m.party.id ≡ 0 };
}

impl<K: Hosting> Manager<K> {
    /// The numbers of the lines of its calls, in order.
    pub fn numbers(&self) -> &[u32]
        ensures { result.now ≡ numbers_of self.now.receipts }
    {
        self.party.numbers()
    }

    /// The number of its next call.
    pub fn next_call(&self) -> u32
        ensures { result ≡ length self.now.receipts + 1 }
    {
        self.party.next_call()
    }

    /// Has the host change a limit, as `Host::set_limit` does. `last` shows the receipt.
    pub fn set_limit<R: Wait>(
        &mut self,
        host: &Host<K>,
        rt: &R,
        alloc: Global,
        change: Change,
    ) -> Result<(), Refusal>
        requires { FitsChange K.grid change }
        ensures booked { OnOk result (Booked K.grid (Limit change) self.old self.new) }
        ensures waits { IfErr result (λ _. Waits self.old self.new) }
        ensures full { IfErr result (λ r. r.fault ≡ JournalFull → K.cap ≤ length self.new.front) }
        ensures due { IfErr result (IsDue K.grid K.book K.cap self.new.front) }
        ensures memory { IfErr result (λ r. r.fault ≡ NoMemory → self.new ≡ self.old) }
    {
        host.set_limit(rt, alloc, self, change)
    }

    /// Has the host close or open a class, or each, as `Host::set_sale` does. `last` shows the receipt.
    pub fn set_sale<R: Wait>(
        &mut self,
        host: &Host<K>,
        rt: &R,
        alloc: Global,
        change: SaleChange,
    ) -> Result<(), Refusal>
        requires { FitsSale K.grid change }
        ensures booked { OnOk result (Booked K.grid (Sale change) self.old self.new) }
        ensures waits { IfErr result (λ _. Waits self.old self.new) }
        ensures full { IfErr result (λ r. r.fault ≡ JournalFull → K.cap ≤ length self.new.front) }
        ensures due { IfErr result (IsDue K.grid K.book K.cap self.new.front) }
        ensures memory { IfErr result (λ r. r.fault ≡ NoMemory → self.new ≡ self.old) }
    {
        host.set_sale(rt, alloc, self, change)
    }

    /// The receipt of its last call that gave a line.
    pub fn last(&self) -> &Receipt
        requires { 0 < length self.now.receipts }
        ensures { slice_get self.now.receipts (length self.now.receipts - 1) ≡ Some result.now }
    {
        self.party.last()
    }

    /// How many lines it has seen.
    pub fn front_len(&self) -> u32
        ensures { result ≡ length self.now.front }
    {
        self.party.front_len()
    }

    /// Has `at` look at what is then seen, as `Session::look` does.
    pub fn look<T: Drop, F: FnOnce(&Sight) -> T>(&mut self, at: F) -> Option<T>
        requires { F.IsAlwaysCallable at }
        ensures found { IfSome result (λ t. FnOnceReturnsAt F.FnOnce at (viewed K.book K.grid self.new.front) t) }
        ensures front { Begins self.old.front self.new.front }
        ensures legal { IsLegal K.grid self.new.front }
        ensures none { IfNone result (self.new ≡ self.old) }
        ensures same { (self.new.id ≡ self.old.id) × (self.new.receipts ≡ self.old.receipts) }
    {
        self.party.look(at)
    }
}
