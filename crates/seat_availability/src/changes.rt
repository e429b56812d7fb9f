//! What changed between two lists of messages over the same segments.
//! It knows no inventory.
ghost use Rattle.std.specs.Prelude.{◌≡◌, ◌++◌, ◌∷◌, [], IfOk, OnOk, Some, slice_get};
ghost use Rattle.seat_availability.specs.Changes.{changed, news, same_status, tells_same};

use crate::segments::{Message, Segment};
use crate::statuses::Status;
use airline_base::{Class, Place};
use seat_lists::Designator;
use ssim_flights::DatedLeg;
use std::alloc::{AllocError, Global};

/// Those of the newer messages that tell something else than the older ones of their segments, which stand in the same order.
pub fn changed(
    alloc: Global,
    older: &[Message],
    newer: &[Message],
) -> Result<Vec<Message>, AllocError>
    ensures { IfOk result (λ all. all.items ≡ changed older.now newer.now) }
{
    let mut all = Vec::new(alloc);
    for i in 0..newer.len() {
        add_news(&mut all, older, i, &newer[i])?;
    }
    Ok(all)
}

/// Adds a message, if it tells something else than the older one at this place, or if there is none.
#[tactic(auto, using(crate::proofs::Changing::news_past, crate::proofs::Changing::news_there))]
fn add_news(
    all: &mut Vec<Message>,
    older: &[Message],
    place: usize,
    newer: &Message,
) -> Result<(), AllocError>
    ensures { OnOk result (all.new.items ≡ all.old.items ++ news (slice_get older.now place) newer.now) }
{
    if place >= older.len() {
        return add(all, newer);
    }
    add_other(all, &older[place], newer)
}

/// Adds a message, if it tells something else than the older one.
#[tactic(auto, using(crate::proofs::Changing::none_more, crate::proofs::Changing::one_more))]
fn add_other(all: &mut Vec<Message>, older: &Message, newer: &Message) -> Result<(), AllocError>
    ensures { OnOk result (all.new.items ≡ all.old.items ++ news (Some older.now) newer.now) }
{
    if tells_same(older, newer) {
        return Ok(());
    }
    add(all, newer)
}

fn add(all: &mut Vec<Message>, message: &Message) -> Result<(), AllocError>
    ensures { OnOk result (all.new.items ≡ all.old.items ++ message.now ∷ []) }
{
    let _segment: Option<Segment> = None;
    let _place: Option<Place> = None;
    let _name: Option<Designator> = None;
    let _run: Option<DatedLeg> = None;
    let _class: Option<Class> = None;
    all.push(*message)?;
    Ok(())
}

/// Whether two messages of one segment tell the same.
fn tells_same(a: &Message, b: &Message) -> bool
    ensures { result ≡ tells_same a.now b.now }
{
    is_same_status(a.status, b.status) && a.seats == b.seats
}

fn is_same_status(a: Status, b: Status) -> bool
    ensures { result ≡ same_status a b }
{
    match a {
        Status::Open => matches!(b, Status::Open),
        Status::ListOpen => matches!(b, Status::ListOpen),
        Status::Closed => matches!(b, Status::Closed),
        Status::NotOperated => matches!(b, Status::NotOperated),
    }
}
