//! Whether the bookings of several journals may be carried to a newer one.
//! It knows how that is decided of one, and no text of a seal.
ghost use Rattle.std.specs.Prelude.{◌≡◌, ◌++◌, IfErr, IfOk, None, OnOk, option_map};
ghost use Rattle.seat_handing.specs.Judging.{IsJudged, IsRefusedFrom, IsUnjudged, answers_for, are_whole, hand_or_finish, hands_in, needs_nothing, refused_from};

use crate::deciding::{Hand, HandRefusal, hand_for, seal_in};
use airline_base::Items;
use seat_seal::{Seal, Sealed};
use std::alloc::Global;

/// What is done with the mark of each of several journals, in order, and whether nothing is to be done with any.
#[derive(Drop)]
pub struct Judgement {
    pub each: Items<Hand>,
    pub are_whole: bool,
}

/// Why the bookings of several journals may not be carried to a newer one.
#[derive(Clone, Copy)]
pub enum HandsRefusal {
    /// The journal at this place, counted from 1, is the first of which nothing may be written.
    Refused { place: u32, refusal: HandRefusal },
    Memory,
}

/// What is done where the bookings of journals of these entries are carried to the newer one of this text: of each what [`may_hand`](crate::may_hand)
/// answers, or that it is finished, where that is nothing and another needs something. The mark of each is of `name` and `whole`, as there.
#[tactic(auto, using(crate::proofs::Judged::judged, crate::proofs::Judged::unjudged))]
pub fn may_hand_each(
    alloc: Global,
    knowns: &[Sealed],
    name: &str,
    whole: &[u8],
    there: Option<&[u8]>,
    beside: Option<&[u8]>,
    text: &[u8],
    anew: bool,
) -> Result<Judgement, HandsRefusal>
    ensures ok { IfOk result (IsJudged knowns.now name.now whole.now (option_map (λ bytes. bytes.now) there.entry)
        (option_map (λ text. text.now) beside.entry) text.now anew) }
    ensures refused { IfErr result (IsUnjudged knowns.now name.now whole.now (option_map (λ bytes. bytes.now) there.entry)
        (option_map (λ text. text.now) beside.entry) text.now anew) }
{
    let seal = seal_in(beside);
    let mut each: Items<Hand> = Items::new(alloc);
    match judge_all(knowns, name, whole, there, &seal, text, anew, 1, &mut each) {
        Ok(are_whole) => Ok(Judgement { each, are_whole }),
        Err(refusal) => Err(refusal),
    }
}

/// Adds what is done with each, the first of which is at this place, and says whether that is nothing with any.
fn judge_all(
    knowns: &[Sealed],
    name: &str,
    whole: &[u8],
    there: Option<&[u8]>,
    seal: &Option<Seal>,
    text: &[u8],
    anew: bool,
    place: u32,
    hands: &mut Items<Hand>,
) -> Result<bool, HandsRefusal>
    ensures none { OnOk result (refused_from place (answers_for knowns.now name.now whole.now (option_map (λ bytes. bytes.now) there.entry) seal.now text.now anew) ≡ None) }
    ensures hands { OnOk result (hands.new
        ≡ hands.old ++ hands_in (answers_for knowns.now name.now whole.now (option_map (λ bytes. bytes.now) there.entry) seal.now text.now anew)) }
    ensures nothing { IfOk result (λ w. w ≡ are_whole (answers_for knowns.now name.now whole.now (option_map (λ bytes. bytes.now) there.entry) seal.now text.now anew)) }
    ensures refused { IfErr result
        (IsRefusedFrom place (answers_for knowns.now name.now whole.now (option_map (λ bytes. bytes.now) there.entry) seal.now text.now anew)) }
{
    let Some((known, later)) = knowns.split_first() else {
        return Ok(true);
    };
    let answer = match hand_for(&known.era.carried, name, whole, there, seal, text, anew) {
        Ok(answer) => answer,
        Err(refusal) => return Err(HandsRefusal::Refused { place, refusal }),
    };
    let Some(next) = place.checked_add(1) else {
        return Err(HandsRefusal::Memory);
    };
    if hands.push(hand_or_finish(answer)).is_err() {
        return Err(HandsRefusal::Memory);
    }
    match judge_all(later, name, whole, there, seal, text, anew, next, hands) {
        Ok(rest) => Ok(needs_nothing(answer) && rest),
        Err(refusal) => Err(refusal),
    }
}

fn hand_or_finish(answer: Option<Hand>) -> Hand
    ensures { result ≡ hand_or_finish answer }
{
    match answer {
        Some(hand) => hand,
        None => Hand::Finish,
    }
}

fn needs_nothing(answer: Option<Hand>) -> bool
    ensures { result ≡ needs_nothing answer }
{
    match answer {
        Some(_) => false,
        None => true,
    }
}
