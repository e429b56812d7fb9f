//! The requests of a script.
ghost use Rattle.std.specs.Prelude.{◌≡◌, IfOk, drop};

use crate::segment::Segment;
use airline_base::{Items, Locator};
use std::alloc::{AllocError, Global};

/// A request for seats, in the message of a booking.
#[derive(Clone, Copy)]
pub struct Request {
    /// The locator of its message.
    pub locator: Locator,
    pub segment: Segment,
    /// The number of its line in the script, from 1.
    pub line: u32,
}

/// A list of requests.
pub type Requests = Items<Request>;

/// The requests behind the first `done`: what is left of a script of which so many were answered.
pub fn requests_behind(
    alloc: Global,
    requests: &[Request],
    done: usize,
) -> Result<Requests, AllocError>
    ensures { IfOk result (λ rest. rest ≡ drop done requests.now) }
{
    let front = done.min(requests.len());
    let Ok(rest) = Vec::from_slice(alloc, &requests[front..]) else {
        return Err(AllocError);
    };
    Ok(Requests::from_vec(rest))
}
