//! The new inventory and the report, of two seasons in memory.
//! It knows the parts, and no text of a season or a journal.
ghost use Rattle.std.specs.Prelude.{◌≡◌, ◌≤◌, ◌<◌, ◌+◌, ◌^◌, [], IfErr, IfOk, OnOk, length};
ghost use Rattle.std.specs.List.{All};
ghost use Rattle.seat_carrying.specs.Owned.{IsOwned};
ghost use Rattle.seat_desk.specs.Loading.{IsGridOf};
ghost use Rattle.carry_limits.specs.Legs.{HasLegsOf};
ghost use Rattle.carry_limits.specs.Overs.{IsOverLine, overs};
ghost use Rattle.carry_lines.specs.Carried.{LosesNobody, carried_lines};
ghost use Rattle.carry_lines.specs.Setting.{FitsMark};
ghost use Rattle.seat_desk.specs.AuditDesk.{most_lines};
ghost use Rattle.seat_desk.specs.FlightsDesk.{IsText};
ghost use Rattle.seat_rules.specs.Inventory.{IsReplayed};
ghost use Rattle.seat_rules.specs.Journal.{FitsChange, IsLegal};
ghost use Rattle.carry_plans.specs.Plans.{AreCourses, AreFollowed, AreParts, HasRoomIf, IsOver, IsReportIn, IsReportOf, IsTooLong, IsUnplanned, marks_for};
ghost use Rattle.carry_plans.specs.Parting.{IsPlanFor, IsWhole};
ghost use Rattle.carry_plans.specs.Promises.{IsPromised};

use crate::asked::CarryAsked;
use crate::choosing::{Chosen, choose};
use crate::fault::CarryFault;
use crate::parting::part_of;
use crate::protecting::{courses_of, pass_twice, pass_unsold};
use airline_base::{Day, Items};
use carry_limits::{ByFlight, Over, Seasons, by_flight, changes_for, overs, put_overs};
use carry_lines::{Mark, carried};
use carry_marks::marks_of;
use carry_order::{Numbered, by_number};
use carry_protections::Courses;
use carry_reports::{Carried, fates};
use carry_tables::report_as;
use seat_carrying::Owned;
use seat_core::Core;
use seat_journal::Change;
use seat_nesting::Grid;
use seat_rules::{Booking, CoreFault};
use seat_tables::Form;
use ssim_flights::{Flights, Served};
use std::alloc::{AllocError, Global};

/// The most lines of a journal.
const MOST_LINES: u32 = 999_999;

/// The new inventory, and the report.
#[derive(Drop)]
pub(crate) struct Planned {
    pub after: Core,
    pub report: Items<u8>,
    /// The inventory that all hosts would have together, where this is the part of one of several.
    pub whole: Option<Core>,
}

/// The live bookings that are asked for, and the same by their new flights.
pub(crate) struct Parts {
    pub chosen: Chosen,
    pub by: ByFlight,
}

impl Drop for Parts {
    fn drop(self) {
        let Parts {
            chosen: _chosen,
            by: _by,
        } = self;
    }
}

/// The new inventory of the live bookings, over the file's limits of the new flights, and the report, or a host's part of them; or why there is none.
#[tactic(auto, using(crate::proofs::Parts::of_memory, crate::proofs::OwnParts::plan_for_all, crate::proofs::OwnParts::plan_for_part))]
pub(crate) fn plan(
    alloc: Global,
    asked: &CarryAsked<'_>,
    olds: &Flights,
    before: &Core,
    news: &Flights,
    file: &Grid,
) -> Result<Planned, CarryFault>
    requires size { length asked.now.protections.now < 2 ^ 32 }
    requires grid { IsGridOf olds.now before.now.grid }
    requires file { HasLegsOf file.now news.now }
    requires ladders { IsGridOf news.now file.now }
    ensures planned { IfOk result (λ p. IsPlanFor asked.now.part asked.now olds.now before.now news.now file.now p.after p.report p.whole) }
    ensures fault { IfErr result (IsUnplanned asked.now olds.now before.now news.now file.now) }
{
    let old = match served(alloc, olds) {
        Ok(old) => old,
        Err(fault) => return Err(fault),
    };
    let new = match served(alloc, news) {
        Ok(new) => new,
        Err(fault) => return Err(fault),
    };
    let courses = match courses_of(alloc, asked, olds, &old, before, news, &new, file) {
        Ok(courses) => courses,
        Err(fault) => return Err(fault),
    };
    let rows = &courses;
    let parts = match passed(alloc, asked, rows, olds, &old, before, news, &new, file) {
        Ok(parts) => parts,
        Err(fault) => return Err(fault),
    };
    let (whole, report) = match plan_of(
        alloc, asked, rows, olds, &old, before, news, &new, file, &parts,
    ) {
        Ok(planned) => planned,
        Err(fault) => return Err(fault),
    };
    let Some(part) = asked.part else {
        return Ok(Planned {
            after: whole,
            report,
            whole: None,
        });
    };
    match part_of(
        alloc, part, asked, rows, olds, &old, before, news, &new, file, &parts,
    ) {
        Ok((after, report)) => Ok(Planned {
            after,
            report,
            whole: Some(whole),
        }),
        Err(fault) => Err(fault),
    }
}

/// The live bookings that are asked for, and the same by their new flights.
#[tactic(auto, using(crate::proofs::Parts::of_memory, crate::proofs::Parts::parts_of))]
fn parted(
    alloc: Global,
    asked: &CarryAsked<'_>,
    courses: &Courses,
    olds: &Flights,
    old: &Served<'_>,
    before: &Core,
    news: &Flights,
    new: &Served<'_>,
    file: &Grid,
) -> Result<Parts, CarryFault>
    requires grid { IsGridOf olds.now before.now.grid }
    requires old { old.now ≡ olds.now }
    requires new { new.now ≡ news.now }
    ensures parts { IfOk result (λ p. AreParts asked.now courses.now olds.now before.now news.now file.now p.chosen.live.items p.chosen.kept.items p.by) }
    ensures owned { IfOk result (λ p. All (IsOwned file.now) p.chosen.kept.items) }
    ensures legal { OnOk result (IsLegal before.now.grid before.now.journal) }
    ensures fault { IfErr result (IsUnplanned asked.now olds.now before.now news.now file.now) }
{
    let Ok(chosen) = choose(alloc, asked, courses, before, olds, old, new, file) else {
        return Err(CarryFault::Memory);
    };
    let Ok(by) = by_flight(alloc, news.len(), chosen.kept.as_slice()) else {
        return Err(CarryFault::Memory);
    };
    Ok(Parts { chosen, by })
}

/// The same, where each row that says where bookings go is followed, and each leg has seats for them, or those who are asked for last are to lose.
#[tactic(auto, using(crate::proofs::Parts::over_of, crate::proofs::Protections::followed_of))]
fn passed(
    alloc: Global,
    asked: &CarryAsked<'_>,
    courses: &Courses,
    olds: &Flights,
    old: &Served<'_>,
    before: &Core,
    news: &Flights,
    new: &Served<'_>,
    file: &Grid,
) -> Result<Parts, CarryFault>
    requires grid { IsGridOf olds.now before.now.grid }
    requires old { old.now ≡ olds.now }
    requires new { new.now ≡ news.now }
    requires courses { AreCourses asked.now olds.now news.now courses.now }
    ensures parts { IfOk result (λ p. AreParts asked.now courses.now olds.now before.now news.now file.now p.chosen.live.items p.chosen.kept.items p.by) }
    ensures followed { IfOk result (λ p. AreFollowed asked.now courses.now olds.now before.now news.now file.now p.chosen.live.items p.by) }
    ensures owned { IfOk result (λ p. All (IsOwned file.now) p.chosen.kept.items) }
    ensures legal { OnOk result (IsLegal before.now.grid before.now.journal) }
    ensures room { IfOk result (λ p. HasRoomIf asked.now.displaces news.now file.now p.by) }
    ensures fault { IfErr result (IsUnplanned asked.now olds.now before.now news.now file.now) }
{
    let parts = match parted(alloc, asked, courses, olds, old, before, news, new, file) {
        Ok(parts) => parts,
        Err(fault) => return Err(fault),
    };
    if let Err(fault) = pass_unsold(asked, courses, olds, old, before, news, new, file, &parts) {
        return Err(fault);
    }
    if let Err(fault) = pass_twice(asked, courses, olds, before, news, file, &parts) {
        return Err(fault);
    }
    match pass_overs(alloc, asked.displaces, news, file, &parts.by) {
        Ok(()) => Ok(parts),
        Err(fault) => Err(fault),
    }
}

/// The new inventory of these bookings, and the report.
#[tactic(auto, using(crate::proofs::Parts::of_memory, crate::proofs::Parts::full_of))]
fn plan_of(
    alloc: Global,
    asked: &CarryAsked<'_>,
    courses: &Courses,
    olds: &Flights,
    old: &Served<'_>,
    before: &Core,
    news: &Flights,
    new: &Served<'_>,
    file: &Grid,
    parts: &Parts,
) -> Result<(Core, Items<u8>), CarryFault>
    requires file { HasLegsOf file.now news.now }
    requires ladders { IsGridOf news.now file.now }
    requires legal { IsLegal before.now.grid before.now.journal }
    requires old { old.now ≡ olds.now }
    requires new { new.now ≡ news.now }
    requires parts { AreParts asked.now courses.now olds.now before.now news.now file.now parts.now.chosen.live.items parts.now.chosen.kept.items parts.now.by }
    requires followed { AreFollowed asked.now courses.now olds.now before.now news.now file.now parts.now.chosen.live.items parts.now.by }
    requires owned { All (IsOwned file.now) parts.now.chosen.kept.items }
    requires room { HasRoomIf asked.now.displaces news.now file.now parts.now.by }
    ensures promised { IfOk result (λ p. IsPromised asked.now olds.now before.now news.now file.now p.0 p.1) }
    ensures whole { IfOk result (λ p. IsWhole asked.now olds.now before.now news.now file.now parts.now.chosen.kept.items parts.now.by p.0) }
    ensures few { OnOk result (length parts.now.chosen.kept.items ≤ 999999) }
    ensures fault { IfErr result (IsUnplanned asked.now olds.now before.now news.now file.now) }
{
    let seasons = Seasons {
        old,
        before,
        flights: news,
        new,
        file,
        fresh: asked.fresh_limits,
    };
    let Ok(rows) = changes_for(alloc, &seasons, &parts.by) else {
        return Err(CarryFault::Memory);
    };
    let marks = match marks_for(alloc, asked.fresh_limits, olds, old, before, new, file) {
        Ok(marks) => marks,
        Err(fault) => return Err(fault),
    };
    let lines = rows.as_slice();
    let kept = parts.chosen.kept.as_slice();
    let after = match asked_anew(alloc, file, lines, kept, marks.as_slice()) {
        Ok(after) => after,
        Err(fault) => return Err(fault),
    };
    let ahead = lines.len() as u32;
    match reported(
        alloc,
        asked.form,
        asked.counts,
        asked.today,
        olds,
        old,
        news,
        new,
        &parts.chosen,
        ahead,
        &after,
    ) {
        Ok(report) => Ok((after, report)),
        Err(fault) => Err(fault),
    }
}

fn served<'a>(alloc: Global, flights: &'a Flights) -> Result<Served<'a>, CarryFault>
    ensures ok { IfOk result (λ s. s ≡ flights.now) }
    ensures memory { IfErr result (λ f. f ≡ CarryFault.Memory) }
{
    match Served::new(alloc, flights) {
        Ok(served) => Ok(served),
        Err(_) => Err(CarryFault::Memory),
    }
}

/// Refuses where a leg of the new season has fewer seats than are held there, unless those who are asked for last are to lose.
#[tactic(auto, using(crate::proofs::Parts::room_if))]
fn pass_overs(
    alloc: Global,
    displaces: bool,
    news: &Flights,
    file: &Grid,
    by: &ByFlight,
) -> Result<(), CarryFault>
    ensures ok { OnOk result (HasRoomIf displaces news.now file.now by.now) }
    ensures fault { IfErr result (IsOver displaces news.now file.now by.now) }
{
    if displaces {
        return Ok(());
    }
    let Ok(all) = overs(alloc, news, file, by) else {
        return Err(CarryFault::Memory);
    };
    if all.is_empty() {
        return Ok(());
    }
    match overs_text(alloc, all.as_slice()) {
        Ok(text) => Err(CarryFault::Over(text)),
        Err(_) => Err(CarryFault::Memory),
    }
}

fn overs_text(alloc: Global, all: &[Over]) -> Result<Items<u8>, AllocError>
    ensures { IfOk result (λ text. IsText (λ n. IsOverLine) 0 all.now text) }
{
    let mut text = Vec::new(alloc);
    put_overs(&mut text, all)?;
    Ok(Items::from_vec(text))
}

/// What is to be closed again.
pub(crate) fn marks_for(
    alloc: Global,
    fresh: bool,
    olds: &Flights,
    old: &Served<'_>,
    before: &Core,
    new: &Served<'_>,
    file: &Grid,
) -> Result<Vec<Mark>, CarryFault>
    requires served { old.now ≡ olds.now }
    ensures marks { IfOk result (λ all. all.items ≡ marks_for fresh olds.now before.now new.now file.now) }
    ensures fits { IfOk result (λ all. All (FitsMark file.now) all.items) }
    ensures memory { IfErr result (λ f. f ≡ CarryFault.Memory) }
{
    if fresh {
        return Ok(Vec::new(alloc));
    }
    match marks_of(alloc, olds, old, before, new, file) {
        Ok(marks) => Ok(marks),
        Err(_) => Err(CarryFault::Memory),
    }
}

/// The inventory over the file's limits in which limits are changed, live bookings are asked for anew, and classes are closed again.
pub(crate) fn asked_anew(
    alloc: Global,
    file: &Grid,
    rows: &[Change],
    kept: &[Owned],
    marks: &[Mark],
) -> Result<Core, CarryFault>
    requires changes { All (FitsChange file.now) rows.now }
    requires bookings { All (IsOwned file.now) kept.now }
    requires closings { All (FitsMark file.now) marks.now }
    ensures lines { IfOk result (λ new. IsReplayed new file.now most_lines (carried_lines file.now rows.now kept.now marks.now)) }
    ensures few { OnOk result (length rows.now + length kept.now + length marks.now ≤ most_lines) }
    ensures nobody { IfOk result (λ new. LosesNobody file.now rows.now kept.now new) }
    ensures fault { IfErr result (IsTooLong (length rows.now + length kept.now + length marks.now)) }
{
    let Ok(grid) = file.copy(alloc) else {
        return Err(CarryFault::Memory);
    };
    match carried(alloc, grid, MOST_LINES, rows, kept, marks) {
        Ok(after) => Ok(after),
        Err(CoreFault::JournalFull) => Err(CarryFault::Full),
        Err(CoreFault::Memory) => Err(CarryFault::Memory),
    }
}

/// The report.
#[tactic(auto, using(crate::proofs::Parts::report_in))]
pub(crate) fn reported(
    alloc: Global,
    form: Option<Form>,
    counts: &[u32],
    today: Day,
    olds: &Flights,
    old: &Served<'_>,
    news: &Flights,
    new: &Served<'_>,
    chosen: &Chosen,
    ahead: u32,
    after: &Core,
) -> Result<Items<u8>, CarryFault>
    requires old { old.now ≡ olds.now }
    requires new { new.now ≡ news.now }
    requires few { ahead + length chosen.now.kept.items ≤ 999999 }
    ensures report { IfOk result (λ text. IsReportIn form counts.now today olds.now news.now chosen.now.live.items chosen.now.kept.items ahead after.now text) }
    ensures memory { IfErr result (λ f. f ≡ CarryFault.Memory) }
{
    let Ok(asked) = by_number(alloc, ahead, chosen.kept.as_slice()) else {
        return Err(CarryFault::Memory);
    };
    match reported_of(
        alloc,
        form,
        counts,
        today,
        olds,
        old,
        news,
        new,
        chosen.live.as_slice(),
        asked.as_slice(),
        after,
    ) {
        Ok(text) => Ok(text),
        Err(fault) => Err(fault),
    }
}

/// The report on these live bookings, of which those that were asked for have their lines.
#[tactic(auto, using(crate::proofs::Parts::report_of))]
fn reported_of(
    alloc: Global,
    form: Option<Form>,
    counts: &[u32],
    today: Day,
    olds: &Flights,
    old: &Served<'_>,
    news: &Flights,
    new: &Served<'_>,
    live: &[Booking],
    asked: &[Numbered],
    after: &Core,
) -> Result<Items<u8>, CarryFault>
    requires old { old.now ≡ olds.now }
    requires new { new.now ≡ news.now }
    ensures report { IfOk result (λ text. IsReportOf form counts.now today olds.now news.now live.now asked.now after.now text) }
    ensures memory { IfErr result (λ f. f ≡ CarryFault.Memory) }
{
    let carried = Carried {
        olds,
        old,
        news,
        new,
        today,
        asked,
        after,
    };
    let Ok(all) = fates(alloc, &carried, live) else {
        return Err(CarryFault::Memory);
    };
    match report_as(alloc, form, counts, olds, news, all.as_slice()) {
        Ok(text) => Ok(Items::from_vec(text)),
        Err(_) => Err(CarryFault::Memory),
    }
}
