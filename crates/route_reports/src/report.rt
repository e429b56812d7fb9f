//! `route`: rows of changes and scripts, and for each row and each segment line the shard that it goes to.
ghost use Rattle.std.specs.Prelude.{◌≡◌, ◌≢◌, ◌+◌, ◌<◌, ◌≤◌, ◌⊎◌, IfErr, IfOk, IfSome, OnOk, length, map};
ghost use Rattle.script_refusals.specs.Cleaning.{refusals_of};
ghost use Rattle.seat_desk.specs.Desk.{HasFailed, InputFailed, IsOfInput, IsWritten, OutputFailed};
ghost use Rattle.seat_replies.specs.Changes.{change_refusal, most_change_bytes};
ghost use Rattle.seat_replies.specs.Requests.{most_script_bytes, script_refusal};
ghost use Rattle.route_reports.specs.RouteDesk.{AreRoutedOn, AreRowsRouted, HasFailedRoute, HasRisenAmong, IsRefusedAmong, IsRefusedRoute, IsRefusedRows, IsRefusedScript, IsRouteText, IsScriptRouted, IsTooLargeAmong, IsTooLargeRoute};

use airimp_lines::{ScriptFault, ScriptKind};
use airline_base::{NotedRead, NotedWrite, put_all};
use flight_routes::{route_changes, route_script};
use seat_desk::{DeskFault, read_input};
use seat_limits::{LimitFault, LimitKind, read_changes};
use std::alloc::Global;

/// 16 MiB, the most bytes of changes, and of a script.
const MOST_CHANGE_BYTES: u64 = 16_777_216;

const MOST_SCRIPT_BYTES: u64 = 16_777_216;

/// Reads rows of changes, none where there is no byte, and at most eight scripts, the first that of session 1, and writes where they go among so many shards: a
/// line for each row, and behind them one for each segment line, session by session, with its shard, its session and the number of its line. Each input has at most
/// 16 MiB, and is read and checked before the next is read; nothing is written before all are right.
pub fn desk_route<I: NotedRead, W: NotedWrite>(
    alloc: Global,
    shards: u16,
    changes: &mut I,
    scripts: &mut [I],
    out: &mut W,
) -> Result<(), DeskFault>
    requires shards { 1 ≤ shards }
    requires few { length scripts.old ≤ 8 }
    ensures ok { OnOk result (IsWritten (IsRouteText shards (I.remaining changes.old) (map I.remaining scripts.old)) (W.contents out.old)
        (W.contents out.new)) }
    ensures fault { IfErr result (λ f. IsOfInput f → IsRefusedRoute (I.remaining changes.old) (map I.remaining scripts.old) f) }
    ensures large { IfErr result (λ f. f ≡ DeskFault.TooLarge → IsTooLargeRoute (I.remaining changes.old) (map I.remaining scripts.old)) }
    ensures device { IfErr result (λ f. f ≡ DeskFault.Device →
        InputFailed (HasFailedRoute I.remaining I.failure_count I.remaining I.failure_count changes.old changes.new scripts.old scripts.new) out.old out.new
        ⊎ OutputFailed W.failure_count W.contents out.old out.new (IsRouteText shards (I.remaining changes.old) (map I.remaining scripts.old))) }
    ensures untouched { IfErr result (λ f. f ≢ DeskFault.Device → out.new ≡ out.old) }
{
    let text = routed(alloc, shards, changes, scripts)?;
    match put_all(out, &text) {
        Ok(()) => Ok(()),
        Err(_) => Err(DeskFault::Device),
    }
}

/// Where all of it goes.
fn routed<I: NotedRead>(
    alloc: Global,
    shards: u16,
    changes: &mut I,
    scripts: &mut [I],
) -> Result<Vec<u8>, DeskFault>
    requires shards { 1 ≤ shards }
    requires few { length scripts.old ≤ 8 }
    ensures ok { IfOk result (λ text. IsRouteText shards (I.remaining changes.old) (map I.remaining scripts.old) text.items) }
    ensures fault { IfErr result (λ f. IsOfInput f → IsRefusedRoute (I.remaining changes.old) (map I.remaining scripts.old) f) }
    ensures large { IfErr result (λ f. f ≡ DeskFault.TooLarge → IsTooLargeRoute (I.remaining changes.old) (map I.remaining scripts.old)) }
    ensures device { IfErr result (λ f. f ≡ DeskFault.Device
        → HasFailedRoute I.remaining I.failure_count I.remaining I.failure_count changes.old changes.new scripts.old scripts.new) }
{
    let mut text = rows_routed(alloc, shards, changes)?;
    scripts_routed(alloc, shards, scripts, 1, &mut text)?;
    Ok(text)
}

/// Where the rows of changes go.
fn rows_routed<D: NotedRead>(
    alloc: Global,
    shards: u16,
    changes: &mut D,
) -> Result<Vec<u8>, DeskFault>
    requires shards { 1 ≤ shards }
    ensures ok { IfOk result (λ text. IfSome (D.remaining changes.old) (AreRowsRouted shards text.items)) }
    ensures fault { IfErr result (λ f. IsOfInput f → IfSome (D.remaining changes.old) (IsRefusedRows f)) }
    ensures large { IfErr result (λ f. f ≡ DeskFault.TooLarge → IfSome (D.remaining changes.old) (λ bytes. most_change_bytes < length bytes)) }
    ensures device { IfErr result (λ f. f ≡ DeskFault.Device → HasFailed D.failure_count changes.old changes.new) }
{
    let bytes = read_input(alloc, changes, MOST_CHANGE_BYTES)?;
    rows_text(alloc, shards, &bytes)
}

fn rows_text(alloc: Global, shards: u16, bytes: &[u8]) -> Result<Vec<u8>, DeskFault>
    requires shards { 1 ≤ shards }
    requires size { length bytes.now ≤ most_change_bytes }
    ensures ok { IfOk result (λ text. AreRowsRouted shards text.items bytes.now) }
    ensures fault { IfErr result (λ f. f ≢ DeskFault.Memory → IsRefusedRows f bytes.now) }
    ensures kind { IfErr result (λ f. (f ≢ DeskFault.Device) × (f ≢ DeskFault.TooLarge)) }
{
    let rows = match read_changes(alloc, bytes) {
        Ok(rows) => rows,
        Err(fault) => return Err(of_rows(fault)),
    };
    match route_changes(alloc, bytes, rows.as_slice(), shards) {
        Ok(text) => Ok(text),
        Err(_) => Err(DeskFault::Memory),
    }
}

fn of_rows(fault: LimitFault) -> DeskFault
    ensures refusal { result ≡ change_refusal fault }
    ensures kind { (result ≢ DeskFault.Device) × (result ≢ DeskFault.TooLarge) }
{
    match fault.kind {
        LimitKind::Memory => DeskFault::Memory,
        _ => DeskFault::Change(fault),
    }
}

/// Adds where these scripts go, of which the first is that of this session.
fn scripts_routed<C: NotedRead>(
    alloc: Global,
    shards: u16,
    scripts: &mut [C],
    session: u8,
    text: &mut Vec<u8>,
) -> Result<(), DeskFault>
    requires shards { 1 ≤ shards }
    requires few { session + length scripts.old ≤ 9 }
    ensures ok { OnOk result (AreRoutedOn shards session (map C.remaining scripts.old) text.old.items text.new.items) }
    ensures fault { IfErr result (λ f. IsOfInput f → IsRefusedAmong session (map C.remaining scripts.old) f) }
    ensures large { IfErr result (λ f. f ≡ DeskFault.TooLarge → IsTooLargeAmong (map C.remaining scripts.old)) }
    ensures device { IfErr result (λ f. f ≡ DeskFault.Device
        → HasRisenAmong (map C.remaining scripts.old) (map C.failure_count scripts.old) (map C.failure_count scripts.new)) }
{
    let Some((script, later)) = scripts.split_first_mut() else {
        return Ok(());
    };
    let own = script_routed(alloc, shards, script, session)?;
    if text.extend_from_slice(&own).is_err() {
        return Err(DeskFault::Memory);
    }
    scripts_routed(alloc, shards, later, session + 1, text)
}

/// Where the script of a session goes.
fn script_routed<C: NotedRead>(
    alloc: Global,
    shards: u16,
    script: &mut C,
    session: u8,
) -> Result<Vec<u8>, DeskFault>
    requires shards { 1 ≤ shards }
    ensures ok { IfOk result (λ text. IfSome (C.remaining script.old) (IsScriptRouted shards session text.items)) }
    ensures fault { IfErr result (λ f. IsOfInput f → IfSome (C.remaining script.old) (IsRefusedScript session f)) }
    ensures large { IfErr result (λ f. f ≡ DeskFault.TooLarge → IfSome (C.remaining script.old) (λ bytes. most_script_bytes < length bytes)) }
    ensures device { IfErr result (λ f. f ≡ DeskFault.Device → HasFailed C.failure_count script.old script.new) }
{
    let bytes = read_input(alloc, script, MOST_SCRIPT_BYTES)?;
    script_text(alloc, shards, &bytes, session)
}

fn script_text(alloc: Global, shards: u16, bytes: &[u8], session: u8) -> Result<Vec<u8>, DeskFault>
    requires shards { 1 ≤ shards }
    requires size { length bytes.now ≤ most_script_bytes }
    ensures ok { IfOk result (λ text. IsScriptRouted shards session text.items bytes.now) }
    ensures fault { IfErr result (λ f. f ≢ DeskFault.Memory → IsRefusedScript session f bytes.now) }
    ensures kind { IfErr result (λ f. (f ≢ DeskFault.Device) × (f ≢ DeskFault.TooLarge)) }
{
    match route_script(alloc, bytes, session, shards) {
        Ok(text) => Ok(text),
        Err(fault) => Err(of_script(session, fault)),
    }
}

fn of_script(session: u8, fault: ScriptFault) -> DeskFault
    ensures refusal { result ≡ script_refusal session fault }
    ensures kind { (result ≢ DeskFault.Device) × (result ≢ DeskFault.TooLarge) }
{
    match fault.kind {
        ScriptKind::Memory => DeskFault::Memory,
        _ => DeskFault::Script { session, fault },
    }
}
