//! A gate that holds up sessions 1 and 2 before their calls.
use seat_host::{Hosting, Party};
use seat_workers::Gate;
use std::sync::Wait;
use std::sync::atomic::{AtomicBool, AtomicU64, Ordering};
use std::time::Duration;

/// Most turns of a millisecond for which a session is held.
const MOST_TURNS: u32 = 10_000;

/// Sessions 1 and 2 meet here. Session 1 is held until session 2 was answered; or each until the other has come, and then no order of
/// one list after another passes.
pub struct Meeting {
    is_mutual: bool,
    one_came: AtomicU64,
    two_came: AtomicU64,
    two_answered: AtomicU64,
    held_too_long: AtomicBool,
}

impl Drop for Meeting {
    fn drop(self) {
        let Meeting {
            is_mutual: _is_mutual,
            one_came: _one_came,
            two_came: _two_came,
            two_answered: _two_answered,
            held_too_long: _held_too_long,
        } = self;
    }
}

impl Meeting {
    pub fn new(is_mutual: bool) -> Meeting {
        Meeting {
            is_mutual,
            one_came: AtomicU64::new(0),
            two_came: AtomicU64::new(0),
            two_answered: AtomicU64::new(0),
            held_too_long: AtomicBool::new(false),
        }
    }

    /// Whether both came, and none was held for too long.
    pub fn is_held(&self) -> bool {
        has_happened(&self.one_came)
            && has_happened(&self.two_answered)
            && !self.held_too_long.load(Ordering::SeqCst)
    }

    fn hold_until<R: Wait>(&self, rt: &R, event: &AtomicU64) {
        for _ in 0..MOST_TURNS {
            if has_happened(event) {
                return;
            }
            event.park_timeout(rt, 0, Duration::from_millis(1));
        }
        self.held_too_long.store(true, Ordering::SeqCst);
    }
}

fn happens(event: &AtomicU64) {
    event.store(1, Ordering::SeqCst);
    event.wake_all();
}

fn has_happened(event: &AtomicU64) -> bool {
    event.load(Ordering::SeqCst) > 0
}

impl Gate for Meeting {
    fn before<K: Hosting, R: Wait>(&self, rt: &R, party: &Party<K>) {
        if party.id() == 1 {
            happens(&self.one_came);
            let event = if self.is_mutual {
                &self.two_came
            } else {
                &self.two_answered
            };
            self.hold_until(rt, event);
        } else if self.is_mutual {
            happens(&self.two_came);
            self.hold_until(rt, &self.one_came);
        }
    }

    fn after<K: Hosting, R: Wait>(&self, _rt: &R, party: &Party<K>) {
        if party.id() == 2 {
            happens(&self.two_answered);
        }
    }
}
