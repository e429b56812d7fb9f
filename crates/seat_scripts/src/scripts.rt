//! The scripts of `run`: the requests of each.
ghost use Rattle.std.specs.Prelude.{◌≡◌, ◌≢◌, ◌+◌, ◌++◌, ◌∷◌, ◌<◌, ◌≤◌, ◌||◌, [], IfErr, IfOk, IfSome, OnOk, false, length, map};
ghost use Rattle.std.specs.List.{AllByRecursion};
ghost use Rattle.airline_base.specs.Days.{IsCenturyDay};
ghost use Rattle.seat_desk.specs.Desk.{HasFailed, IsOfInput};
ghost use Rattle.seat_scripts.specs.Repeated.{AreFoundOn, IsBookedOf, IsOneBooked};
ghost use Rattle.seat_scripts.specs.TextImprints.{AreImprints, AreTakenOn, IsImprintOf, text_imprint};
ghost use Rattle.seat_seal.specs.Booked.{is_booked, scripts_booked};
ghost use Rattle.seat_seal.specs.Known.{runs_known};
ghost use Rattle.seat_replies.specs.Requests.{AreReadOn, AreRight, AreScripts, HasFailedAmong, IsOfScript, IsRefusedAmong, IsRefusedScript, IsScriptOf, IsTooLargeAmong, most_script_bytes, script_refusal};

use crate::imprints::{TextImprints, text_beside};
use crate::repeated::scripts_known;
use airimp_lines::{Requests, ScriptFault, ScriptKind, read_script};
use airline_base::{Day, Items, NotedRead};
use seat_desk::{DeskFault, read_input};
use seat_seal::{Imprint, Sealed};
use std::alloc::{AllocError, Global};
use std::thread::{Threads, available_parallelism, join};

/// 16 MiB, the most bytes of a script.
const MOST_SCRIPT_BYTES: u64 = 16_777_216;

/// So many bytes take longer to read than a thread to begin.
const MANY_BYTES: usize = 65_536;

/// The requests of each script, in the order of the scripts.
pub type Scripts = Items<Requests>;

/// Scripts that are read, the imprints of their bytes, and whether one of them begins with what was booked.
#[derive(Drop)]
pub struct ReadScripts {
    pub scripts: Scripts,
    pub imprints: TextImprints,
    pub is_booked: bool,
}

impl ReadScripts {
    fn none(alloc: Global) -> ReadScripts
        ensures scripts { result.scripts ≡ [] }
        ensures imprints { result.imprints ≡ [] }
        ensures booked { result.is_booked ≡ false }
    {
        ReadScripts {
            scripts: Scripts::new(alloc),
            imprints: TextImprints::new(alloc),
            is_booked: false,
        }
    }

    fn add(&mut self, script: ReadScript) -> Result<(), AllocError>
        ensures scripts { OnOk result (self.new.scripts ≡ self.old.scripts ++ script.requests ∷ []) }
        ensures imprints { OnOk result (self.new.imprints ≡ self.old.imprints ++ script.imprint ∷ []) }
        ensures booked { OnOk result (self.new.is_booked ≡ (self.old.is_booked || script.is_booked)) }
    {
        let ReadScript {
            requests,
            imprint,
            is_booked,
        } = script;
        self.is_booked = self.is_booked || is_booked;
        self.scripts.push(requests)?;
        self.imprints.push(imprint)
    }
}

/// A script that is read.
#[derive(Drop)]
struct ReadScript {
    requests: Requests,
    imprint: Option<Imprint>,
    is_booked: bool,
}

/// The requests of each script, of at most eight, beside what the known runs booked that began ahead of so many lines, or all of them.
/// Each is read and checked before the next is read.
#[tactic(auto, using(crate::proofs::Reading::read_count))]
pub fn read_scripts<X: Threads, C: NotedRead>(
    rt: &X,
    alloc: Global,
    scripts: &mut [C],
    today: Day,
    lines: Option<u64>,
    known: &Option<Sealed>,
) -> Result<ReadScripts, DeskFault>
    requires today { IsCenturyDay today }
    requires few { length scripts.old ≤ 8 }
    ensures ok { IfOk result (λ read. AreScripts today (map C.remaining scripts.old) read.scripts) }
    ensures imprints { IfOk result (λ read. AreImprints (map C.remaining scripts.old) read.imprints) }
    ensures booked { IfOk result (λ read. IsOneBooked (scripts_booked lines (runs_known known.now)) (map C.remaining scripts.old) read.is_booked) }
    ensures count { IfOk result (λ read. length read.scripts ≡ length scripts.old) }
    ensures right { IfOk result (λ read. AllByRecursion AreRight read.scripts) }
    ensures fault { IfErr result (λ f. IsOfInput f → IsRefusedAmong today 1 (map C.remaining scripts.old) f) }
    ensures script { IfErr result (λ f. IsOfInput f → IsOfScript f) }
    ensures large { IfErr result (λ f. f ≡ DeskFault.TooLarge → IsTooLargeAmong today (map C.remaining scripts.old)) }
    ensures device { IfErr result (λ f. f ≡ DeskFault.Device
        → HasFailedAmong today (map C.remaining scripts.old) C.failure_count scripts.old scripts.new) }
{
    let booked = scripts_known(alloc, lines, known)?;
    let mut read = ReadScripts::none(alloc);
    read_from(rt, alloc, scripts, 1, today, booked.as_slice(), &mut read)?;
    Ok(read)
}

/// Reads these scripts, of which the first has this number.
#[tactic(auto, using(crate::proofs::Reading::read_none, crate::proofs::Reading::read_more, crate::proofs::Reading::taken_none, crate::proofs::Reading::taken_more, crate::proofs::Reading::found_none, crate::proofs::Reading::found_more, crate::proofs::Reading::readable))]
fn read_from<X: Threads, C: NotedRead>(
    rt: &X,
    alloc: Global,
    scripts: &mut [C],
    session: u8,
    today: Day,
    booked: &[Imprint],
    read: &mut ReadScripts,
) -> Result<(), DeskFault>
    requires today { IsCenturyDay today }
    requires few { session + length scripts.old ≤ 9 }
    ensures ok { OnOk result (AreReadOn today (map C.remaining scripts.old) read.old.scripts read.new.scripts) }
    ensures imprints { OnOk result (AreTakenOn (map C.remaining scripts.old) read.old.imprints read.new.imprints) }
    ensures booked { OnOk result (AreFoundOn booked.now (map C.remaining scripts.old) read.old.is_booked read.new.is_booked) }
    ensures fault { IfErr result (λ f. IsOfInput f → IsRefusedAmong today session (map C.remaining scripts.old) f) }
    ensures script { IfErr result (λ f. IsOfInput f → IsOfScript f) }
    ensures large { IfErr result (λ f. f ≡ DeskFault.TooLarge → IsTooLargeAmong today (map C.remaining scripts.old)) }
    ensures device { IfErr result (λ f. f ≡ DeskFault.Device
        → HasFailedAmong today (map C.remaining scripts.old) C.failure_count scripts.old scripts.new) }
{
    let Some((script, later)) = scripts.split_first_mut() else {
        return Ok(());
    };
    let one = read_one(rt, alloc, script, session, today, booked)?;
    if read.add(one).is_err() {
        return Err(DeskFault::Memory);
    }
    read_from(rt, alloc, later, session + 1, today, booked, read)
}

/// The script of a session.
fn read_one<X: Threads, C: NotedRead>(
    rt: &X,
    alloc: Global,
    script: &mut C,
    session: u8,
    today: Day,
    booked: &[Imprint],
) -> Result<ReadScript, DeskFault>
    requires today { IsCenturyDay today }
    ensures ok { IfOk result (λ read. IfSome (C.remaining script.old) (IsScriptOf today read.requests)) }
    ensures imprint { IfOk result (λ read. IsImprintOf (C.remaining script.old) read.imprint) }
    ensures booked { IfOk result (λ read. IsBookedOf booked.now (C.remaining script.old) read.is_booked) }
    ensures right { IfOk result (λ read. AreRight read.requests) }
    ensures fault { IfErr result (λ f. IsOfInput f
        → IfSome (C.remaining script.old) (IsRefusedScript today session f)) }
    ensures script { IfErr result (λ f. IsOfInput f → IsOfScript f) }
    ensures large { IfErr result (λ f. f ≡ DeskFault.TooLarge
        → IfSome (C.remaining script.old) (λ bytes. most_script_bytes < length bytes)) }
    ensures device { IfErr result (λ f. f ≡ DeskFault.Device → HasFailed C.failure_count script.old script.new) }
{
    let bytes = read_input(alloc, script, MOST_SCRIPT_BYTES)?;
    let read = read_bytes(rt, alloc, &bytes, session, today, booked)?;
    Ok(read)
}

/// Reads these bytes as a script and takes their imprint: of many bytes side by side, where there are processors for it.
fn read_bytes<X: Threads>(
    rt: &X,
    alloc: Global,
    bytes: &[u8],
    session: u8,
    today: Day,
    booked: &[Imprint],
) -> Result<ReadScript, DeskFault>
    requires today { IsCenturyDay today }
    requires size { length bytes.now ≤ most_script_bytes }
    ensures ok { IfOk result (λ read. IsScriptOf today read.requests bytes.now) }
    ensures imprint { IfOk result (λ read. read.imprint ≡ text_imprint bytes.now) }
    ensures booked { IfOk result (λ read. read.is_booked ≡ is_booked booked.now bytes.now) }
    ensures right { IfOk result (λ read. AreRight read.requests) }
    ensures fault { IfErr result (λ f. f ≢ DeskFault.Memory → IsRefusedScript today session f bytes.now) }
    ensures script { IfErr result (λ f. f ≢ DeskFault.Memory → IsOfScript f) }
    ensures kind { IfErr result (λ f. (f ≢ DeskFault.Device) × (f ≢ DeskFault.TooLarge)) }
{
    if bytes.len() < MANY_BYTES || is_alone(rt) {
        return read_in_turn(alloc, bytes, session, today, booked);
    }
    read_beside(rt, alloc, bytes, session, today, booked)
}

/// Whether there is one processor, or how many is not known.
pub(crate) fn is_alone<X: Threads>(rt: &X) -> bool {
    match available_parallelism(rt) {
        Ok(count) => count.get() < 2,
        Err(_) => true,
    }
}

/// Reads these bytes as a script, and then takes their imprint.
fn read_in_turn(
    alloc: Global,
    bytes: &[u8],
    session: u8,
    today: Day,
    booked: &[Imprint],
) -> Result<ReadScript, DeskFault>
    requires today { IsCenturyDay today }
    requires size { length bytes.now ≤ most_script_bytes }
    ensures ok { IfOk result (λ read. IsScriptOf today read.requests bytes.now) }
    ensures imprint { IfOk result (λ read. read.imprint ≡ text_imprint bytes.now) }
    ensures booked { IfOk result (λ read. read.is_booked ≡ is_booked booked.now bytes.now) }
    ensures right { IfOk result (λ read. AreRight read.requests) }
    ensures fault { IfErr result (λ f. f ≢ DeskFault.Memory → IsRefusedScript today session f bytes.now) }
    ensures script { IfErr result (λ f. f ≢ DeskFault.Memory → IsOfScript f) }
    ensures kind { IfErr result (λ f. (f ≢ DeskFault.Device) × (f ≢ DeskFault.TooLarge)) }
{
    match requests_of(alloc, bytes, session, today) {
        Ok(requests) => {
            let (imprint, is_booked) = text_beside(bytes, booked);
            Ok(ReadScript {
                requests,
                imprint,
                is_booked,
            })
        }
        Err(fault) => Err(fault),
    }
}

/// Takes the imprint of these bytes on a thread of its own, where one can be had, and beside that reads them as a script.
fn read_beside<X: Threads>(
    rt: &X,
    alloc: Global,
    bytes: &[u8],
    session: u8,
    today: Day,
    booked: &[Imprint],
) -> Result<ReadScript, DeskFault>
    requires today { IsCenturyDay today }
    requires size { length bytes.now ≤ most_script_bytes }
    ensures ok { IfOk result (λ read. IsScriptOf today read.requests bytes.now) }
    ensures imprint { IfOk result (λ read. read.imprint ≡ text_imprint bytes.now) }
    ensures booked { IfOk result (λ read. read.is_booked ≡ is_booked booked.now bytes.now) }
    ensures right { IfOk result (λ read. AreRight read.requests) }
    ensures fault { IfErr result (λ f. f ≢ DeskFault.Memory → IsRefusedScript today session f bytes.now) }
    ensures script { IfErr result (λ f. f ≢ DeskFault.Memory → IsOfScript f) }
    ensures kind { IfErr result (λ f. (f ≢ DeskFault.Device) × (f ≢ DeskFault.TooLarge)) }
{
    let there = || -> (Option<Imprint>, bool)
        ensures imprint { result.0 ≡ text_imprint bytes.entry.now }
        ensures booked { result.1 ≡ is_booked booked.entry.now bytes.entry.now }
    { text_beside(bytes, booked) };
    let here = || -> Result<Requests, DeskFault>
        requires { IsCenturyDay today × (length bytes.now ≤ most_script_bytes) }
        ensures ok { IfOk result (λ requests. IsScriptOf today requests bytes.entry.now) }
        ensures right { IfOk result AreRight }
        ensures fault { IfErr result (λ f. f ≢ DeskFault.Memory → IsRefusedScript today session f bytes.entry.now) }
        ensures script { IfErr result (λ f. f ≢ DeskFault.Memory → IsOfScript f) }
        ensures kind { IfErr result (λ f. (f ≢ DeskFault.Device) × (f ≢ DeskFault.TooLarge)) }
    { requests_of(alloc, bytes, session, today) };
    let ((imprint, is_booked), requests) = join(rt, there, here);
    match requests {
        Ok(requests) => Ok(ReadScript {
            requests,
            imprint,
            is_booked,
        }),
        Err(fault) => Err(fault),
    }
}

/// Reads these bytes as a script.
fn requests_of(alloc: Global, bytes: &[u8], session: u8, today: Day) -> Result<Requests, DeskFault>
    requires today { IsCenturyDay today }
    requires size { length bytes.now ≤ most_script_bytes }
    ensures ok { IfOk result (λ requests. IsScriptOf today requests bytes.now) }
    ensures right { IfOk result AreRight }
    ensures fault { IfErr result (λ f. f ≢ DeskFault.Memory → IsRefusedScript today session f bytes.now) }
    ensures script { IfErr result (λ f. f ≢ DeskFault.Memory → IsOfScript f) }
    ensures kind { IfErr result (λ f. (f ≢ DeskFault.Device) × (f ≢ DeskFault.TooLarge)) }
{
    match read_script(alloc, bytes, today) {
        Ok(requests) => Ok(requests),
        Err(fault) => Err(of_script(session, fault)),
    }
}

fn of_script(session: u8, fault: ScriptFault) -> DeskFault
    ensures refusal { result ≡ script_refusal session fault }
    ensures script { result ≢ DeskFault.Memory → IsOfScript result }
{
    match fault.kind {
        ScriptKind::Memory => DeskFault::Memory,
        _ => DeskFault::Script { session, fault },
    }
}
