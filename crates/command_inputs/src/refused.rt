//! Scripts whose wrong lines are passed over, and the list of these lines.
//! It knows which file is the list, and nothing of what the scripts ask for.
ghost use Rattle.std.specs.Prelude.{◌≡◌, ◌<◌, ◌≤◌, ◌^◌, IfErr, IfOk, IfSome, IsOk, IsSomeAnd, IsTrue, None, OnOk, length, map};
ghost use Rattle.std.specs.List.{concat};
ghost use Rattle.command_inputs.specs.Sorted.{AreBegun, AreCleaned, AreListed, AreSorted, IsSorted};
ghost use Rattle.script_refusals.specs.Listing.{is_list, other_row, stray_row};
ghost use Rattle.seat_files.specs.Faults.{list_text, printed};
ghost use Rattle.seat_files.specs.Lists.{list_held, list_name};
ghost use Rattle.seat_files.specs.Streams.{input_rest};

use script_refusals::{is_list, list_of, other_row, sort_out, stray_row};
use seat_desk::{DeskFault, read_input};
use seat_files::{Input, ListFile, ListKind, Refusal, Shown};

/// The most bytes of a script.
const MOST_SCRIPT_BYTES: u64 = 16_777_216;

/// Why a file is refused that would be lost.
const NO_LIST: &str = "Has something else than refused lines";

/// The most bytes of a list: each that a run writes has less.
const MOST_LIST_BYTES: u64 = 2_147_483_647;

/// Reads the scripts and the list of their refused lines, and refuses another list. What is read of a script from here on is what is left of
/// it without these lines.
#[tactic(auto, using(crate::proofs::Sorting::are_cleaned, crate::proofs::Sorting::are_listed, crate::proofs::Sorting::listed_as))]
pub fn sort_out_as(
    rt: &HostRuntime,
    scripts: &mut Vec<Input>,
    list: &mut Input,
) -> Result<(), Refusal>
    requires few { length scripts.old.items ≤ 8 }
    ensures each { OnOk result (length scripts.new.items ≡ length scripts.old.items) }
    ensures cleaned { OnOk result (AreCleaned scripts.new.items) }
    ensures listed { OnOk result (IfSome (input_rest list.old) (AreListed scripts.new.items)) }
{
    let sessions = sort_out_each(rt, scripts)?;
    let found = list_in(rt, list)?;
    pass_listed(rt, list.name(), &found, &sessions)
}

/// Reads the scripts of a run, and has their list put with its journal. What stands in its place is a list too. Where they go on from those
/// of an earlier run the list that stands there is to have what they are refused for alone, session by session. What is read of a script from
/// here on is what is left of it.
pub fn sort_out_into(
    rt: &HostRuntime,
    scripts: &mut Vec<Input>,
    list: &mut ListFile,
    goes_on: bool,
) -> Result<(), Refusal>
    requires few { length scripts.old.items ≤ 8 }
    ensures each { OnOk result (length scripts.new.items ≡ length scripts.old.items) }
    ensures listed { OnOk result (AreListed scripts.new.items (list_held list.new)) }
    ensures name { list_name list.new ≡ list_name list.old }
{
    let found = standing_in(rt, list)?;
    sort_out_behind(rt, scripts, list, &found, goes_on)
}

/// The same with what stands there read.
#[tactic(auto, using(crate::proofs::Sorting::are_listed, crate::proofs::Sorting::are_begun))]
fn sort_out_behind(
    rt: &HostRuntime,
    scripts: &mut Vec<Input>,
    list: &mut ListFile,
    found: &[u8],
    goes_on: bool,
) -> Result<(), Refusal>
    requires few { length scripts.old.items ≤ 8 }
    requires size { length found.now < 2 ^ 31 }
    ensures each { OnOk result (length scripts.new.items ≡ length scripts.old.items) }
    ensures listed { OnOk result (AreListed scripts.new.items (list_held list.new)) }
    ensures begun { IsTrue goes_on → OnOk result (AreBegun scripts.new.items found.now) }
    ensures name { list_name list.new ≡ list_name list.old }
{
    let sessions = sort_out_each(rt, scripts)?;
    if goes_on {
        pass_begun(list.name(), found, &sessions)?;
    }
    list.hold(listed(rt, &sessions)?);
    Ok(())
}

/// What stands in the place of a list, which is a list too, or nothing: nothing else is replaced.
fn standing_in(rt: &HostRuntime, list: &ListFile) -> Result<Vec<u8>, Refusal>
    ensures within { IfOk result (λ found. length found.items < 2 ^ 31) }
    ensures list { IfOk result (λ found. IsTrue (is_list found.items)) }
{
    let mut standing = list.standing(rt)?;
    let found = list_in(rt, &mut standing)?;
    if is_list(&found) {
        return Ok(found);
    }
    let refusal = Refusal::barred(list.name(), NO_LIST);
    Err(refusal.as_unlisted())
}

/// Says that lines were refused, and where they stand.
pub fn tell_refused(rt: &HostRuntime, list: &ListFile) {
    let rows = list.rows_put();
    if rows > 0 {
        let file = Shown { name: list.name() };
        let _ = eprintln!(rt; "seatdesk: note: refused lines of the scripts: {rows}, in {file}");
    }
}

/// Sorts out each script, and answers the rows of each session.
#[tactic(auto, using(crate::proofs::Sorting::none_sorted))]
fn sort_out_each(rt: &HostRuntime, scripts: &mut Vec<Input>) -> Result<Vec<Vec<u8>>, Refusal>
    requires few { length scripts.old.items ≤ 8 }
    ensures each { OnOk result (length scripts.new.items ≡ length scripts.old.items) }
    ensures sorted { IfOk result (λ sessions. AreSorted scripts.new.items (map (λ rows. rows.items) sessions.items)) }
{
    let mut sessions = Vec::new(rt.alloc());
    let mut session = 0u8;
    for script in scripts.iter_mut() {
        session = session.saturating_add(1);
        let rows = sort_out_one(rt, script, session)?;
        if sessions.push(rows).is_err() {
            return Err(Refusal::from(DeskFault::Memory));
        }
    }
    Ok(sessions)
}

/// Has what is left of a session's script read in its place, and answers its rows.
#[tactic(auto, using(crate::proofs::Sorting::is_sorted))]
fn sort_out_one(rt: &HostRuntime, script: &mut Input, session: u8) -> Result<Vec<u8>, Refusal>
    ensures { IfOk result (λ rows. IsSorted session script.new rows.items) }
{
    let bytes = match read_input(rt.alloc(), script, MOST_SCRIPT_BYTES) {
        Ok(bytes) => bytes,
        Err(fault) => return Err(Refusal::from(fault).noting_all(&[&*script])),
    };
    match sort_out(rt.alloc(), &bytes, session) {
        Ok(sorted) => {
            script.hold(sorted.text);
            Ok(sorted.rows)
        }
        Err(_) => Err(Refusal::from(DeskFault::Memory)),
    }
}

fn listed(rt: &HostRuntime, sessions: &[Vec<u8>]) -> Result<Vec<u8>, Refusal>
    ensures { IfOk result (λ list. list.items ≡ concat (map (λ rows. rows.items) sessions.now)) }
{
    match list_of(rt.alloc(), sessions) {
        Ok(list) => Ok(list),
        Err(_) => Err(Refusal::from(DeskFault::Memory)),
    }
}

fn list_in(rt: &HostRuntime, list: &mut Input) -> Result<Vec<u8>, Refusal>
    ensures whole { IfOk result (λ found. IfSome (input_rest list.old) (λ text. found.items ≡ text)) }
    ensures within { IfOk result (λ found. length found.items < 2 ^ 31) }
{
    match read_input(rt.alloc(), list, MOST_LIST_BYTES) {
        Ok(found) => Ok(found),
        Err(fault) => Err(Refusal::from(fault).noting_all(&[&*list])),
    }
}

/// Whether a list is that of these sessions.
fn pass_listed(
    rt: &HostRuntime,
    name: &str,
    found: &[u8],
    sessions: &[Vec<u8>],
) -> Result<(), Refusal>
    requires size { length found.now < 2 ^ 31 }
    ensures same { IsOk result → found.now ≡ concat (map (λ rows. rows.items) sessions.now) }
{
    let rows = listed(rt, sessions)?;
    pass_list(name, found, &rows)
}

/// Whether a list is these rows.
fn pass_list(name: &str, found: &[u8], rows: &[u8]) -> Result<(), Refusal>
    requires size { length found.now < 2 ^ 31 }
    ensures same { IsOk result → found.now ≡ rows.now }
    ensures row { IfErr result (λ refusal. IsSomeAnd (other_row found.now rows.now)
        (λ row. printed refusal.fault ≡ list_text ListKind.Refused row)) }
{
    match other_row(found, rows) {
        None => Ok(()),
        Some(row) => Err(Refusal::of_list(ListKind::Refused, row).at(name, None)),
    }
}

/// Whether a list has rows of the sessions alone, those with which each begins, one session after the other.
fn pass_begun(name: &str, found: &[u8], sessions: &[Vec<u8>]) -> Result<(), Refusal>
    requires size { length found.now < 2 ^ 31 }
    ensures none { IsOk result → stray_row found.now (map (λ rows. rows.items) sessions.now) ≡ None }
    ensures row { IfErr result (λ refusal. IsSomeAnd (stray_row found.now (map (λ rows. rows.items) sessions.now))
        (λ row. printed refusal.fault ≡ list_text ListKind.Refused row)) }
{
    match stray_row(found, sessions) {
        None => Ok(()),
        Some(row) => Err(Refusal::of_list(ListKind::Refused, row).at(name, None)),
    }
}
