//! The part of a carry that one of several hosts has.
//! It knows what is asked of the whole carry, and nothing of which host has a flight.
ghost use Rattle.std.specs.Prelude.{◌≡◌, ◌≤◌, ◌+◌, IfErr, IfOk, length};
ghost use Rattle.std.specs.List.{All};
ghost use Rattle.seat_carrying.specs.Owned.{IsOwned};
ghost use Rattle.seat_rules.specs.Journal.{FitsChange};
ghost use Rattle.carry_limits.specs.Legs.{HasLegsOf};
ghost use Rattle.carry_lines.specs.Setting.{FitsMark};
ghost use Rattle.carry_parts.specs.Parts.{own_changes, own_marks, own_owned};
ghost use Rattle.carry_plans.specs.Parting.{AreOwn, IsOwnPart, IsToldPart};
ghost use Rattle.carry_plans.specs.Plans.{AreFollowed, AreParts, IsUnplanned};

use crate::asked::CarryAsked;
use crate::choosing::Chosen;
use crate::fault::CarryFault;
use crate::planning::{Parts, Planned, asked_anew, marks_for, reported};
use airline_base::{Items, Memory};
use carry_limits::{Seasons, changes_for};
use carry_lines::Mark;
use carry_order::by_number;
use carry_parts::{Part, own_changes, own_marks, own_owned, told};
use carry_protections::Courses;
use seat_carrying::Owned;
use seat_core::Core;
use seat_journal::Change;
use seat_nesting::Grid;
use ssim_flights::{Flights, Served};
use std::alloc::Global;

/// What is asked on the flights of a host.
#[derive(Drop)]
pub(crate) struct Own {
    pub rows: Vec<Change>,
    pub kept: Vec<Owned>,
    pub marks: Vec<Mark>,
}

/// The inventory of a host's own part, and its report.
#[tactic(auto, using(crate::proofs::Parts::of_memory, crate::proofs::OwnParts::own_part_of, crate::proofs::OwnParts::full_part_of))]
pub(crate) fn part_of(
    alloc: Global,
    part: Part,
    asked: &CarryAsked<'_>,
    courses: &Courses,
    olds: &Flights,
    old: &Served<'_>,
    before: &Core,
    news: &Flights,
    new: &Served<'_>,
    file: &Grid,
    parts: &Parts,
) -> Result<(Core, Items<u8>), CarryFault>
    requires file { HasLegsOf file.now news.now }
    requires old { old.now ≡ olds.now }
    requires new { new.now ≡ news.now }
    requires parts { AreParts asked.now courses.now olds.now before.now news.now file.now parts.now.chosen.live.items parts.now.chosen.kept.items parts.now.by }
    requires followed { AreFollowed asked.now courses.now olds.now before.now news.now file.now parts.now.chosen.live.items parts.now.by }
    requires owned { All (IsOwned file.now) parts.now.chosen.kept.items }
    requires few { length parts.now.chosen.kept.items ≤ 999999 }
    ensures part { IfOk result (λ p. IsOwnPart part asked.now olds.now before.now news.now file.now parts.now.chosen.live.items
        parts.now.chosen.kept.items parts.now.by p.0 p.1) }
    ensures fault { IfErr result (IsUnplanned asked.now olds.now before.now news.now file.now) }
{
    let own = match own_of(
        alloc, part, asked, olds, old, before, news, new, file, parts,
    ) {
        Ok(own) => own,
        Err(fault) => return Err(fault),
    };
    let Own { rows, kept, marks } = own;
    let after = match asked_anew(
        alloc,
        file,
        rows.as_slice(),
        kept.as_slice(),
        marks.as_slice(),
    ) {
        Ok(after) => after,
        Err(fault) => return Err(fault),
    };
    let ahead = rows.len() as u32;
    match told_of(
        alloc, part, asked, olds, old, news, new, parts, ahead, kept, &after,
    ) {
        Ok(report) => Ok((after, report)),
        Err(fault) => Err(fault),
    }
}

/// What is asked on the host's flights, of all that the carry asks.
#[tactic(auto, using(crate::proofs::OwnParts::are_own, crate::proofs::OwnParts::all_changes, crate::proofs::OwnParts::all_owned, crate::proofs::OwnParts::all_marks))]
fn own_of(
    alloc: Global,
    part: Part,
    asked: &CarryAsked<'_>,
    olds: &Flights,
    old: &Served<'_>,
    before: &Core,
    news: &Flights,
    new: &Served<'_>,
    file: &Grid,
    parts: &Parts,
) -> Result<Own, CarryFault>
    requires file { HasLegsOf file.now news.now }
    requires old { old.now ≡ olds.now }
    requires new { new.now ≡ news.now }
    requires owned { All (IsOwned file.now) parts.now.chosen.kept.items }
    ensures own { IfOk result (λ o. AreOwn part asked.now olds.now before.now news.now file.now parts.now.chosen.kept.items parts.now.by
        o.rows.items o.kept.items o.marks.items) }
    ensures changes { IfOk result (λ o. All (FitsChange file.now) o.rows.items) }
    ensures bookings { IfOk result (λ o. All (IsOwned file.now) o.kept.items) }
    ensures closings { IfOk result (λ o. All (FitsMark file.now) o.marks.items) }
    ensures memory { IfErr result (λ f. f ≡ CarryFault.Memory) }
{
    let fresh = asked.fresh_limits;
    let seasons = Seasons {
        old,
        before,
        flights: news,
        new,
        file,
        fresh,
    };
    let Ok(rows) = changes_for(alloc, &seasons, &parts.by) else {
        return Err(CarryFault::Memory);
    };
    let marks = match marks_for(alloc, fresh, olds, old, before, new, file) {
        Ok(marks) => marks,
        Err(fault) => return Err(fault),
    };
    let lines = rows.as_slice();
    let kept = parts.chosen.kept.as_slice();
    let closings = marks.as_slice();
    match own_among(alloc, part, news, lines, kept, closings) {
        Ok(own) => Ok(own),
        Err(_) => Err(CarryFault::Memory),
    }
}

/// The host's own among these.
fn own_among(
    alloc: Global,
    part: Part,
    news: &Flights,
    rows: &[Change],
    kept: &[Owned],
    marks: &[Mark],
) -> Result<Own, Memory>
    ensures rows { IfOk result (λ o. o.rows.items ≡ own_changes part news.now rows.now) }
    ensures kept { IfOk result (λ o. o.kept.items ≡ own_owned part news.now kept.now) }
    ensures marks { IfOk result (λ o. o.marks.items ≡ own_marks part news.now marks.now) }
{
    let rows = own_changes(alloc, part, news, rows)?;
    let kept = own_owned(alloc, part, news, kept)?;
    let marks = own_marks(alloc, part, news, marks)?;
    Ok(Own { rows, kept, marks })
}

/// The report on those of whom the host tells, whose own journal has so many lines ahead of them.
#[tactic(auto, using(crate::proofs::OwnParts::told_part_of))]
fn told_of(
    alloc: Global,
    part: Part,
    asked: &CarryAsked<'_>,
    olds: &Flights,
    old: &Served<'_>,
    news: &Flights,
    new: &Served<'_>,
    parts: &Parts,
    ahead: u32,
    kept: Vec<Owned>,
    after: &Core,
) -> Result<Items<u8>, CarryFault>
    requires old { old.now ≡ olds.now }
    requires new { new.now ≡ news.now }
    requires few { length parts.now.chosen.kept.items ≤ 999999 }
    requires few_own { ahead + length kept.items ≤ 999999 }
    ensures report { IfOk result (λ text. IsToldPart part asked.now olds.now news.now parts.now.chosen.live.items parts.now.chosen.kept.items
        ahead kept.items after.now text) }
    ensures memory { IfErr result (λ f. f ≡ CarryFault.Memory) }
{
    let Ok(numbered) = by_number(alloc, 0, parts.chosen.kept.as_slice()) else {
        return Err(CarryFault::Memory);
    };
    let live = parts.chosen.live.as_slice();
    let Ok(live) = told(alloc, part, olds, news, live, numbered.as_slice()) else {
        return Err(CarryFault::Memory);
    };
    let chosen = Chosen { live, kept };
    match reported(
        alloc,
        asked.form,
        asked.counts,
        asked.today,
        olds,
        old,
        news,
        new,
        &chosen,
        ahead,
        after,
    ) {
        Ok(report) => Ok(report),
        Err(fault) => Err(fault),
    }
}
