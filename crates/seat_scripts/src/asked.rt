//! What a run is asked: its inputs, each read and checked before the next is read.
ghost use Rattle.std.specs.Prelude.{◌≡◌, ◌≤◌, IfErr, IfOk, IfSome, None, OnOk, length, map};
ghost use Rattle.std.specs.List.{AllByRecursion};
ghost use Rattle.airline_base.specs.Days.{IsCenturyDay};
ghost use Rattle.ssim_flights.specs.Right.{IsOfCentury};
ghost use Rattle.seat_rules.specs.Journal.{IsLegal};
ghost use Rattle.seat_desk.specs.AuditDesk.{most_lines};
ghost use Rattle.seat_desk.specs.Desk.{HasFailed, IsOfInput};
ghost use Rattle.seat_desk.specs.Loading.{HasFirstLoadFailed, IsGridOf};
ghost use Rattle.seat_desk.specs.Sealing.{IsBasisOf};
ghost use Rattle.seat_seal.specs.Known.{IsCarried};
ghost use Rattle.seat_replies.specs.Asked.{IsAskedOf};
ghost use Rattle.seat_scripts.specs.AskedFrom.{AreNoTexts, AreTexts, IsAskedFrom, IsNotAskedFrom, IsOpposed, IsUnopposed, asked_by};
ghost use Rattle.seat_scripts.specs.Beside.{AgreesOf, FailsSealedRun, IsRefusedSealedRunOf, IsTooLargeSealedRunOf};
ghost use Rattle.seat_replies.specs.Changes.{IsOnLeg};
ghost use Rattle.seat_scripts.specs.ReadAsked.{IsNotAsked, IsReadAsked};
ghost use Rattle.seat_scripts.specs.Repeated.{IsJudgedPastOf};
ghost use Rattle.seat_replies.specs.Requests.{AreRight, HasFailedAmong};
ghost use Rattle.seat_scripts.specs.TextImprints.{AreImprints, IsImprintOf};

use crate::changes::{ReadChanges, limit_changes};
use crate::imprints::TextImprints;
use crate::repeated::{either, of_past};
use crate::scripts::{ReadScripts, Scripts, read_scripts};
use crate::starting::{Start, started};
use airline_base::{Day, NotedRead};
use seat_core::Core;
use seat_desk::{DeskFault, Inputs};
use seat_journal::Control;
use seat_seal::{Basis, Beside, Carried, Imprint, carried_by};
use ssim_flights::Flights;
use std::alloc::Global;
use std::thread::Threads;

/// Flights, the inventory that a run goes on from, what its scripts and its changes ask, and what a seal says of all of them.
#[derive(Drop)]
pub struct Asked {
    pub flights: Flights,
    pub past: Core,
    pub scripts: Scripts,
    pub changes: Vec<Control>,
    pub basis: Basis,
    pub imprints: TextImprints,
    pub changes_imprint: Option<Imprint>,
    /// How many lines stand ahead of the scripts.
    pub behind: u32,
    /// What the next seal takes of the one beside the older journal.
    pub earlier: Carried,
}

/// Reads a data set, limit rows, an older journal, which is replayed on all processors, one to eight scripts and changes of limits. What stands beside the older journal
/// is compared with the set, the limits and that journal ahead of its own faults. Behind all inputs the run is refused where its seal says that the bookings
/// were carried to another journal (`SealFault::Carried`), and behind that scripts or changes are of
/// which one begins with what a run booked that its seal knows, unless they are to be booked `again`.
pub fn read_asked<R: Threads + Sync, I: NotedRead>(
    rt: &R,
    alloc: Global,
    inputs: &mut Inputs<I, I>,
    after: &mut I,
    beside: &Beside<'_>,
    again: bool,
    scripts: &mut [I],
    changes: &mut I,
    today: Day,
) -> Result<Asked, DeskFault>
    requires first { IsOfCentury inputs.old.first }
    requires days { (1 ≤ inputs.old.days) × (inputs.old.days ≤ 366) }
    requires today { IsCenturyDay today }
    requires scripts { length scripts.old ≤ 8 }
    ensures ok { IfOk result (λ a.
        IsAskedOf I.remaining I.remaining inputs.old today (I.remaining after.old) (map I.remaining scripts.old) (I.remaining changes.old) a.flights a.past.grid a.past.journal a.scripts a.changes.items) }
    ensures sealed { OnOk result (AgreesOf beside.now I.remaining I.remaining inputs.old (I.remaining after.old)) }
    ensures once { OnOk result
        (IsJudgedPastOf None again beside.now (I.remaining after.old) (map I.remaining scripts.old) (I.remaining changes.old)) }
    ensures basis { IfOk result (λ a. IsBasisOf I.remaining I.remaining inputs.old a.basis) }
    ensures grid { IfOk result (λ a. IsGridOf a.flights a.past.grid) }
    ensures legal { IfOk result (λ a. IsLegal a.past.grid a.past.journal) }
    ensures most { IfOk result (λ a. a.past.cap ≡ most_lines) }
    ensures count { IfOk result (λ a. length a.scripts ≡ length scripts.old) }
    ensures right { IfOk result (λ a. AllByRecursion AreRight a.scripts) }
    ensures legs { IfOk result (λ a. AllByRecursion (IsOnLeg a.flights) a.changes.items) }
    ensures imprints { IfOk result (λ a. AreImprints (map I.remaining scripts.old) a.imprints) }
    ensures changed { IfOk result (λ a. IsImprintOf (I.remaining changes.old) a.changes_imprint) }
    ensures behind { IfOk result (λ a. a.behind ≡ length a.past.journal) }
    ensures earlier { IfOk result (λ a. IfSome (I.remaining after.old) (λ bytes. IsCarried beside.now bytes a.earlier)) }
    ensures fault { IfErr result (λ f. IsOfInput f →
        IsRefusedSealedRunOf beside.now again I.remaining I.remaining inputs.old today (I.remaining after.old) (map I.remaining scripts.old) (I.remaining changes.old) f) }
    ensures large { IfErr result (λ f. f ≡ DeskFault.TooLarge →
        IsTooLargeSealedRunOf beside.now I.remaining I.remaining inputs.old today (I.remaining after.old) (map I.remaining scripts.old) (I.remaining changes.old)) }
    ensures device { IfErr result (λ f. f ≡ DeskFault.Device →
        FailsSealedRun beside.now I.remaining I.remaining inputs.old today (I.remaining after.old) (map I.remaining scripts.old)
        (HasFirstLoadFailed I.remaining I.failure_count I.failure_count inputs.old inputs.new) (HasFailed I.failure_count after.old after.new)
        (HasFailedAmong today (map I.remaining scripts.old) I.failure_count scripts.old scripts.new) (HasFailed I.failure_count changes.old changes.new)) }
{
    match asked_once(
        rt, alloc, inputs, after, beside, again, scripts, changes, today,
    ) {
        Ok(asked) => Ok(asked),
        Err(fault) => Err(fault),
    }
}

/// Reads what a run starts from, and then the scripts and the changes.
fn asked_once<R: Threads + Sync, I: NotedRead>(
    rt: &R,
    alloc: Global,
    inputs: &mut Inputs<I, I>,
    after: &mut I,
    beside: &Beside<'_>,
    again: bool,
    scripts: &mut [I],
    changes: &mut I,
    today: Day,
) -> Result<Asked, DeskFault>
    requires first { IsOfCentury inputs.old.first }
    requires days { (1 ≤ inputs.old.days) × (inputs.old.days ≤ 366) }
    requires today { IsCenturyDay today }
    requires scripts { length scripts.old ≤ 8 }
    ensures ok { IfOk result (IsReadAsked beside.now again I.remaining I.remaining inputs.old today (I.remaining after.old) (map I.remaining scripts.old) (I.remaining changes.old)) }
    ensures count { IfOk result (λ a. length a.scripts ≡ length scripts.old) }
    ensures none { IfErr result (IsNotAsked beside.now again I.remaining I.remaining inputs.old today (I.remaining after.old) (map I.remaining scripts.old) (I.remaining changes.old)
        (HasFirstLoadFailed I.remaining I.failure_count I.failure_count inputs.old inputs.new) (HasFailed I.failure_count after.old after.new)
        (HasFailedAmong today (map I.remaining scripts.old) I.failure_count scripts.old scripts.new) (HasFailed I.failure_count changes.old changes.new)) }
{
    let start = match started(rt, alloc, inputs, after, beside) {
        Ok(start) => start,
        Err(fault) => return Err(fault),
    };
    match asked_from(rt, alloc, start, again, scripts, changes, today) {
        Ok(asked) => Ok(asked),
        Err(fault) => Err(fault),
    }
}

/// What scripts and changes ask of a run that is started, where the seal has nothing against it.
fn asked_from<R: Threads, I: NotedRead>(
    rt: &R,
    alloc: Global,
    start: Start,
    again: bool,
    scripts: &mut [I],
    changes: &mut I,
    today: Day,
) -> Result<Asked, DeskFault>
    requires today { IsCenturyDay today }
    requires scripts { length scripts.old ≤ 8 }
    ensures ok { IfOk result (IsAskedFrom start again today (map I.remaining scripts.old) (I.remaining changes.old)) }
    ensures count { IfOk result (λ a. length a.scripts ≡ length scripts.old) }
    ensures none { IfErr result (IsNotAskedFrom start again today (map I.remaining scripts.old) (I.remaining changes.old)
        (HasFailedAmong today (map I.remaining scripts.old) I.failure_count scripts.old scripts.new) (HasFailed I.failure_count changes.old changes.new)) }
{
    let read = match texts_of(rt, alloc, &start, scripts, changes, today) {
        Ok(read) => read,
        Err(fault) => return Err(fault),
    };
    match asked_of(again, start, read) {
        Ok(asked) => Ok(asked),
        Err(fault) => Err(fault),
    }
}

/// What these scripts and changes ask, where the seal has nothing against it.
fn asked_of(again: bool, start: Start, read: Texts) -> Result<Asked, DeskFault>
    ensures ok { IfOk result (IsUnopposed start again read) }
    ensures fault { IfErr result (IsOpposed start again read) }
{
    let is_repeated = either(read.scripts.is_booked, read.changes.are_booked);
    match of_past(again, &start.known, is_repeated) {
        Ok(()) => Ok(asked_by(start, read)),
        Err(fault) => Err(fault),
    }
}

/// Scripts and changes that are read.
#[derive(Drop)]
pub(crate) struct Texts {
    pub scripts: ReadScripts,
    pub changes: ReadChanges,
}

/// Reads the scripts, and then the changes.
fn texts_of<R: Threads, I: NotedRead>(
    rt: &R,
    alloc: Global,
    start: &Start,
    scripts: &mut [I],
    changes: &mut I,
    today: Day,
) -> Result<Texts, DeskFault>
    requires today { IsCenturyDay today }
    requires scripts { length scripts.old ≤ 8 }
    ensures ok { IfOk result (AreTexts start.now today (map I.remaining scripts.old) (I.remaining changes.old)) }
    ensures count { IfOk result (λ read. length read.scripts.scripts ≡ length scripts.old) }
    ensures none { IfErr result (AreNoTexts start.now today (map I.remaining scripts.old) (I.remaining changes.old)
        (HasFailedAmong today (map I.remaining scripts.old) I.failure_count scripts.old scripts.new) (HasFailed I.failure_count changes.old changes.new)) }
{
    let read = match read_scripts(rt, alloc, scripts, today, None, &start.known) {
        Ok(read) => read,
        Err(fault) => return Err(fault),
    };
    match limit_changes(alloc, &start.flights, changes, None, &start.known) {
        Ok(made) => Ok(Texts {
            scripts: read,
            changes: made,
        }),
        Err(fault) => Err(fault),
    }
}

/// What they ask of the run that is started.
fn asked_by(start: Start, read: Texts) -> Asked
    ensures { result ≡ asked_by start read }
{
    let Start {
        flights,
        past,
        basis,
        known,
    } = start;
    let Texts { scripts, changes } = read;
    let behind = lines_of(&past);
    Asked {
        flights,
        past,
        scripts: scripts.scripts,
        changes: changes.changes,
        basis,
        imprints: scripts.imprints,
        changes_imprint: changes.imprint,
        behind,
        earlier: carried_by(known),
    }
}

/// How many lines the journal of this inventory has.
fn lines_of(core: &Core) -> u32
    ensures { result ≡ length core.now.journal }
{
    core.journal().len() as u32
}
