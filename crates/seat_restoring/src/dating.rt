//! The day on which a host reads lines, beside what the seal of its journal knows, and the era that its own seal has.
//! It knows days and eras, and nothing of files and of who reads lines.
ghost use Rattle.std.specs.Prelude.{◌≡◌, ◌≤◌, IfErr, IfOk, IfSome, OnOk, Some};
ghost use Rattle.airline_base.specs.Days.{IsCenturyDay};
ghost use Rattle.seat_seal.specs.Known.{IsEraOf};
ghost use Rattle.seat_restoring.specs.Comparing.{Differs, Passes};
ghost use Rattle.seat_restoring.specs.Dating.{IsDayFor, IsEraOver, IsNotEarlier, IsOfDay, IsSince, day_for};

use crate::comparing::passed;
use airline_base::Day;
use seat_desk::DeskFault;
use seat_seal::{Basis, Beside, Era, era_known, known_of};

/// Why a host has no day.
#[derive(Clone, Copy)]
pub enum NoDay {
    /// None is said, and no seal knows one.
    Missing,
    /// One is said that is earlier than this one, which the seal knows.
    Earlier(Day),
    /// What stands beside the journal is no seal, or one of another set, other limits or other days.
    Refused(DeskFault),
}

/// The day on which a host reads lines that goes on with a file of these bytes, where what stands beside it passes but for its lines: the one
/// that is said, unless it is earlier than the one that the seal beside the file knows; and where none is said, that one.
#[tactic(auto, using(crate::proofs::Dated::refused_no_day, crate::proofs::Dated::refused_differs, crate::proofs::Dated::day_found, crate::proofs::Dated::day_wanting, crate::proofs::Dated::day_since, crate::proofs::Dated::day_unrefused))]
pub fn host_day(
    seal: &Beside<'_>,
    basis: &Basis,
    bytes: &[u8],
    said: Option<Day>,
) -> Result<Day, NoDay>
    requires century { IfSome said IsCenturyDay }
    ensures passes { OnOk result (Passes seal.now basis.now bytes.now) }
    ensures day { OnOk result (IsDayFor seal.now bytes.now said result) }
    ensures later { IfOk result (IsNotEarlier seal.now bytes.now) }
    ensures century { IfOk result IsCenturyDay }
    ensures none { IfErr result (λ f. IsOfDay f → IsDayFor seal.now bytes.now said result) }
    ensures refused { IfErr result (λ f. (fault : DeskFault) → f ≡ NoDay.Refused fault → Differs seal.now basis.now bytes.now fault) }
{
    if let Err(fault) = passed(seal, basis, bytes) {
        return Err(NoDay::Refused(fault));
    }
    day_for(era_of(seal, bytes).day(), said)
}

fn day_for(known: Option<Day>, said: Option<Day>) -> Result<Day, NoDay>
    requires known { IfSome known IsCenturyDay }
    requires said { IfSome said IsCenturyDay }
    ensures day { result ≡ day_for known said }
    ensures later { IfOk result (IsSince known) }
    ensures century { IfOk result IsCenturyDay }
    ensures kind { IfErr result IsOfDay }
{
    match said {
        Some(said) => match known {
            Some(known) => later_of(known, said),
            None => Ok(said),
        },
        None => match known {
            Some(known) => Ok(known),
            None => Err(NoDay::Missing),
        },
    }
}

fn later_of(known: Day, said: Day) -> Result<Day, NoDay>
    requires { IsCenturyDay said }
    ensures day { result ≡ day_for (Some known) (Some said) }
    ensures later { IfOk result (λ day. known ≤ day) }
    ensures century { IfOk result IsCenturyDay }
    ensures kind { IfErr result IsOfDay }
{
    if said.number() < known.number() {
        return Err(NoDay::Earlier(known));
    }
    Ok(said)
}

/// The era that the seal beside a file with these bytes knows, on this day.
pub fn era_on(seal: &Beside<'_>, bytes: &[u8], day: Day) -> Era
    ensures { IsEraOver seal.now bytes.now day result }
{
    era_of(seal, bytes).on(day)
}

/// The era that the seal beside a file with these bytes knows.
pub(crate) fn era_of(seal: &Beside<'_>, bytes: &[u8]) -> Era
    ensures { IsEraOf seal.now bytes.now result }
{
    let known = known_of(seal, bytes);
    era_known(&known)
}
