//! What surrounds each call of a worker.

use seat_host::{Hosting, Party};
use std::sync::Wait;

/// A worker passes it before each call and after its answer, and shows whose call it is: a party knows its own number, its
/// next call and its receipts.
pub trait Gate: Sync {
    /// Whether a worker may keep the others waiting for many of its calls. It may not where the gate holds one worker
    /// until another has come.
    fn takes_turns(&self) -> bool {
        false
    }

    fn before<K: Hosting, R: Wait>(&self, rt: &R, party: &Party<K>);

    fn after<K: Hosting, R: Wait>(&self, rt: &R, party: &Party<K>);
}

/// Holds nobody up.
pub struct NoGate;

impl Gate for NoGate {
    fn takes_turns(&self) -> bool {
        true
    }

    fn before<K: Hosting, R: Wait>(&self, _rt: &R, _party: &Party<K>) {}

    fn after<K: Hosting, R: Wait>(&self, _rt: &R, _party: &Party<K>) {}
}
