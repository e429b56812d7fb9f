//! `recover` over the real file of a journal, which it locks.
//! It knows which file is which, and nothing of what stands in a journal.
ghost use Rattle.std.specs.Prelude.{◌≡◌, ◌⊎◌, ◌≤◌, IfErr, IsTrue};
ghost use Rattle.seat_files.specs.Refusals.{is_of_file};
ghost use Rattle.ssim_flights.specs.Right.{IsOfCentury};

use airline_base::Failures;
use command_inputs::{days_of, inputs_of, may_have_lines, tell_found_unsealed};
use seat_desk::{DeskFault, Inputs};
use seat_files::{
    Fault, Guard, Input, Output, Refusal, SealOut, Shown, files_taken, of, standard_output,
};
use seat_restoring::desk_recover;
use seat_seal::Beside;
use seat_tape::{BesideFile, OpenFault, TapeFile, open};
use seat_words::Horizon;
use std::{fs, io};

/// What the name of the file that keeps what is cut ends with, behind the journal's, ahead of its number.
const TORN_BEFORE: &str = ".torn-";

/// Cuts a journal back to its right lines, ends and seals it, while it is locked. Damage is cut where that is said, and where the seal beside
/// the journal is of this set, these limits and these days.
pub fn recover<'a>(
    rt: &'a HostRuntime,
    over: &Horizon<'a>,
    is_said: bool,
    journal: &'a str,
) -> Result<(), Refusal> {
    let days = days_of(over.first, over.days)?;
    let mut inputs = match inputs_of(rt, over, days) {
        Ok(inputs) => inputs,
        Err(refusal) => return Err(refusal),
    };
    pass_guard(rt, &inputs, journal)?;
    let path = match fs::canonicalize(rt, journal) {
        Ok(path) => path.into_string(),
        Err(error) => return Err(Refusal::unopened(journal, &error)),
    };
    let mut tape = match open(rt, journal) {
        Ok(tape) => tape,
        Err(fault) => return Err(unopened(journal, fault)),
    };
    recover_locked(rt, &mut inputs, is_said, journal, path.as_str(), &mut tape)
}

/// The journal is none of the inputs, nor the file of the answer.
pub fn pass_guard(
    rt: &HostRuntime,
    inputs: &Inputs<Input, Input>,
    journal: &str,
) -> Result<(), Refusal> {
    let guard = Guard::new(rt, journal)?;
    guard.pass(inputs, &[], &[])?;
    guard.pass_output(rt)
}

/// The same with the journal locked, which has this path.
fn recover_locked<'a>(
    rt: &'a HostRuntime,
    inputs: &mut Inputs<Input, Input>,
    is_said: bool,
    journal: &'a str,
    path: &str,
    tape: &mut TapeFile,
) -> Result<(), Refusal>
    requires first { IsOfCentury inputs.old.first }
    requires days { (1 ≤ inputs.old.days) × (inputs.old.days ≤ 366) }
{
    let mut seals = match seal_out(rt, journal, path, inputs) {
        Ok(seals) => seals,
        Err(refusal) => return Err(refusal),
    };
    let text = match seals.text() {
        Ok(text) => text,
        Err(refusal) => {
            seals.leave();
            return Err(refusal);
        }
    };
    let mut beside = BesideFile::of(rt, path);
    let mut out = standard_output(rt);
    let outcome = desk_recover(
        rt.alloc(),
        inputs,
        &as_beside(&text),
        is_said,
        tape,
        &mut beside,
        &mut seals,
        &mut out,
    );
    seals.leave();
    tell_kept(rt, journal, &beside);
    match outcome {
        Ok(()) => {
            if text.is_none() && may_have_lines(rt, path) {
                tell_found_unsealed(rt, journal);
            }
            Ok(())
        }
        Err(fault) => {
            let refusal = refused(fault, inputs, journal, tape, &beside, &out);
            Err(refusal.noting_seal(&seals))
        }
    }
}

/// The new seal of a journal at this path, which is locked.
pub fn seal_out(
    rt: &HostRuntime,
    journal: &str,
    path: &str,
    inputs: &Inputs<Input, Input>,
) -> Result<SealOut, Refusal>
    ensures refused { IfErr result (λ refusal. IsTrue (is_of_file refusal.fault)) }
{
    let files = files_taken(rt, inputs, &[], &[])?;
    let own = of(journal, fs::metadata(rt, path))?;
    SealOut::of_locked(rt, journal, path, &own, files.as_slice())
}

/// What stands beside the journal. There need be nothing.
pub fn as_beside(text: &Option<Vec<u8>>) -> Beside<'_> {
    let text = match text {
        Some(text) => Some(text.as_slice()),
        None => None,
    };
    Beside {
        text,
        is_wanted: false,
    }
}

/// Why the journal is not opened.
pub fn unopened(journal: &str, fault: OpenFault) -> Refusal
    ensures { IsTrue (is_of_file result.fault) }
{
    match fault {
        OpenFault::NotRegular => Refusal::barred(journal, "Is no regular file"),
        OpenFault::Taken => Refusal::barred(journal, "Another run, seal or host has it"),
        OpenFault::Replaced => Refusal::barred(journal, "Is replaced at each look"),
        OpenFault::Memory => Refusal::from(DeskFault::Memory),
        OpenFault::System(reason) => Refusal::from(DeskFault::Device).at(journal, reason),
    }
}

/// Says where what was cut is kept, if it is.
pub fn tell_kept(rt: &HostRuntime, journal: &str, beside: &BesideFile<'_>) {
    if beside.failures() > 0 {
        return;
    }
    if let Some(number) = beside.number() {
        let file = Shown { name: journal };
        let _ = eprintln!(rt; "seatdesk: note: {file}{TORN_BEFORE}{number} has what was cut");
    }
}

/// The fault, of the file that it is of.
fn refused(
    fault: DeskFault,
    inputs: &Inputs<Input, Input>,
    journal: &str,
    tape: &TapeFile,
    beside: &BesideFile<'_>,
    out: &Output,
) -> Refusal
    // A file beside the journal that wants memory is told as that.
    ensures { (result.fault ≡ Fault.Desk fault)
        ⊎ ((fault ≡ DeskFault.Device) × (result.fault ≡ Fault.Desk DeskFault.Memory)) }
{
    let refusal = Refusal::from(fault);
    match fault {
        DeskFault::Seal(_) | DeskFault::Journal(_) | DeskFault::Replay(_) => refusal.at(
            journal, None,
        ),
        DeskFault::Device if tape.failures() > 0 => refusal.at(journal, tape.reason()),
        DeskFault::Device if beside.wants_memory() => Refusal::from(DeskFault::Memory),
        DeskFault::Device if beside.failures() > 0 => {
            refusal.at(journal, beside.reason()).beside(TORN_BEFORE)
        }
        // (an input, or the journal)
        DeskFault::TooLarge => refusal,
        _ => refusal
            .noting_all(&[&inputs.set, &inputs.limits])
            .noting_output(out),
    }
}
