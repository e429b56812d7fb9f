//! How differences read, and the last line.
//! It knows nothing of how they come about.
ghost use Rattle.std.specs.Prelude.{◌≡◌, ◌++◌, ◌∷◌, [], IfOk, OnOk, length};
ghost use Rattle.airline_base.specs.Fields.{suffix_text};
ghost use Rattle.seat_desk.specs.FlightsDesk.{IsPut};
ghost use Rattle.partner_questions.specs.DifferenceText.{IsDifferenceLine, IsDifferenceText, IsNameText, IsSegmentName, IsWrittenBehind, differ_text, difference_head, flight_text, last_text, line_text, pair_text, same_text, standing_text, standings_text};

use crate::difference::{Difference, Standing};
use airimp_lines::Segment;
use seat_desk::{put, put_number};
use std::alloc::{AllocError, Global};

/// A line for each difference, and the last one with both counts.
#[tactic(auto, using(crate::proofs::Wording::whole_text))]
pub fn text_of(alloc: Global, all: &[Difference], same: usize) -> Result<Vec<u8>, AllocError>
    ensures { IfOk result (λ text. IsDifferenceText all.now same text.items) }
{
    let mut text = Vec::new(alloc);
    put_differences(&mut text, all)?;
    put_last(&mut text, same as u64, all.len() as u64)?;
    Ok(text)
}

fn put_last(text: &mut Vec<u8>, same: u64, differ: u64) -> Result<(), AllocError>
    ensures { OnOk result (text.new.items ≡ text.old.items ++ last_text same differ) }
{
    put(text, b"RECONCILED")?;
    put_same(text, same)?;
    put_differ(text, differ)
}

#[tactic(auto, unfolding(crate::specs::DifferenceText::same_text))]
fn put_same(text: &mut Vec<u8>, same: u64) -> Result<(), AllocError>
    ensures { OnOk result (text.new.items ≡ text.old.items ++ same_text same) }
{
    put(text, b" same ")?;
    put_number(text, same)
}

#[tactic(auto, unfolding(crate::specs::DifferenceText::differ_text))]
fn put_differ(text: &mut Vec<u8>, differ: u64) -> Result<(), AllocError>
    ensures { OnOk result (text.new.items ≡ text.old.items ++ differ_text differ) }
{
    put(text, b" differ ")?;
    put_number(text, differ)?;
    put(text, b"\n")
}

/// Adds a line for each difference.
#[tactic(auto, using(crate::proofs::Wording::lines_none, crate::proofs::Wording::lines_more, crate::proofs::Wording::lines_whole))]
fn put_differences(text: &mut Vec<u8>, all: &[Difference]) -> Result<(), AllocError>
    ensures { OnOk result (IsPut (λ n. IsDifferenceLine) 0 all.now text.old.items text.new.items) }
{
    for i in 0..all.len() {
        put_difference(text, &all[i])?;
    }
    Ok(())
}

/// Adds the line of a difference.
#[tactic(auto, using(crate::proofs::Wording::difference_line))]
fn put_difference(text: &mut Vec<u8>, difference: &Difference) -> Result<(), AllocError>
    ensures { OnOk result (IsPut (λ n. IsDifferenceLine) 0 (difference.now ∷ []) text.old.items text.new.items) }
{
    put_head(text, difference)?;
    put_name(text, &difference.segment)?;
    put_standings(text, difference)?;
    Ok(())
}

fn put_head(text: &mut Vec<u8>, difference: &Difference) -> Result<(), AllocError>
    ensures { OnOk result (text.new.items ≡ text.old.items ++ difference_head difference.now) }
{
    put(text, b"DIFFERS ")?;
    put(text, &difference.locator.characters())?;
    put(text, b" ")
}

/// Adds what theirs says, what is here, and the line.
fn put_standings(text: &mut Vec<u8>, difference: &Difference) -> Result<(), AllocError>
    ensures { OnOk result (text.new.items ≡ text.old.items ++ standings_text difference.now) }
{
    put(text, b" theirs ")?;
    put_standing(text, &difference.theirs)?;
    put(text, b" here ")?;
    put_standing(text, &difference.here)?;
    put(text, b" line ")?;
    put_line(text, difference.line)?;
    put(text, b"\n")
}

fn put_standing(text: &mut Vec<u8>, standing: &Option<Standing>) -> Result<(), AllocError>
    ensures { OnOk result (text.new.items ≡ text.old.items ++ standing_text standing.now) }
{
    match standing {
        Some(standing) => {
            put(text, &standing.code.letters())?;
            put_number(text, u64::from(standing.seats))
        }
        None => put(text, b"NONE"),
    }
}

fn put_line(text: &mut Vec<u8>, line: Option<u32>) -> Result<(), AllocError>
    ensures { OnOk result (text.new.items ≡ text.old.items ++ line_text line) }
{
    match line {
        Some(line) => put_number(text, u64::from(line)),
        None => put(text, b"-"),
    }
}

/// Adds the name of a segment.
#[tactic(auto, using(crate::proofs::Wording::no_name, crate::proofs::Wording::some_name))]
fn put_name(text: &mut Vec<u8>, segment: &Option<Segment>) -> Result<(), AllocError>
    ensures { OnOk result (IsWrittenBehind (IsNameText segment.now) text.old.items text.new.items) }
{
    match segment {
        Some(segment) => put_segment(text, segment),
        None => put(text, b"-"),
    }
}

#[tactic(auto, using(crate::proofs::Wording::segment_named))]
fn put_segment(text: &mut Vec<u8>, segment: &Segment) -> Result<(), AllocError>
    ensures { OnOk result (IsWrittenBehind (IsSegmentName segment.now) text.old.items text.new.items) }
{
    put_flight(text, segment)?;
    put(text, &segment.day.bytes())?;
    put_pair(text, segment)?;
    Ok(())
}

fn put_flight(text: &mut Vec<u8>, segment: &Segment) -> Result<(), AllocError>
    ensures { OnOk result (text.new.items ≡ text.old.items ++ flight_text segment.now) }
{
    put(text, &segment.airline.characters())?;
    put_number(text, u64::from(segment.number))?;
    put_suffix(text, segment.suffix)?;
    put(text, b" ")
}

fn put_pair(text: &mut Vec<u8>, segment: &Segment) -> Result<(), AllocError>
    ensures { OnOk result (text.new.items ≡ text.old.items ++ pair_text segment.now) }
{
    put(text, b" ")?;
    put(text, &segment.board.letters())?;
    put(text, &segment.off.letters())?;
    put(text, b" ")?;
    put(text, &[segment.class.letter()])
}

#[tactic(auto, using(crate::proofs::Wording::no_suffix))]
fn put_suffix(text: &mut Vec<u8>, suffix: Option<u8>) -> Result<(), AllocError>
    ensures { OnOk result (text.new.items ≡ text.old.items ++ suffix_text suffix) }
{
    match suffix {
        Some(letter) => put(text, &[letter]),
        None => Ok(()),
    }
}
