//! Scripts and changes that are booked already, by the runs that a seal knows, and what that seal has against a run that goes on from its journal.
//! It knows what the runs booked, and no text.
ghost use Rattle.std.specs.Prelude.{◌≡◌, ◌||◌, IfErr, IfOk, None, OnOk, Some};
ghost use Rattle.std.specs.List.Sorted.{IsPermutation};
ghost use Rattle.seat_seal.specs.Booked as booked;
ghost use Rattle.seat_seal.specs.Known.{runs_known};
ghost use Rattle.seat_seal.specs.declared.comparing.SealFault.{SealFault as Fault};
ghost use Rattle.seat_scripts.specs.Repeated.{fault_of_past};

use seat_desk::DeskFault;
use seat_seal::{Booked, SealFault, Sealed, changes_booked, era_known, runs_in, scripts_booked};
use std::alloc::Global;

/// Refuses a run that goes on from a journal whose bookings were carried to another, and one with what a run booked that is known, where it is not to be
/// booked again.
pub(crate) fn of_past(
    again: bool,
    known: &Option<Sealed>,
    is_repeated: bool,
) -> Result<(), DeskFault>
    ensures ok { OnOk result (fault_of_past again known.now is_repeated ≡ None) }
    ensures fault { IfErr result (λ f. (s : Fault) × (f ≡ DeskFault.Seal s) × (fault_of_past again known.now is_repeated ≡ Some s)) }
{
    match fault_of_past(again, known, is_repeated) {
        Some(fault) => Err(DeskFault::Seal(fault)),
        None => Ok(()),
    }
}

fn fault_of_past(again: bool, known: &Option<Sealed>, is_repeated: bool) -> Option<SealFault>
    ensures { result ≡ fault_of_past again known.now is_repeated }
{
    if era_known(known).is_carried() {
        return Some(SealFault::Carried);
    }
    if !again && is_repeated {
        return Some(SealFault::Again);
    }
    None
}

/// Whether scripts are booked already, or changes are.
pub(crate) fn either(scripts: bool, changes: bool) -> bool
    ensures { result ≡ (scripts || changes) }
{
    scripts || changes
}

/// The scripts that the known runs ahead of so many lines booked, or all of them.
pub(crate) fn scripts_known(
    alloc: Global,
    lines: Option<u64>,
    known: &Option<Sealed>,
) -> Result<Booked, DeskFault>
    ensures ok { IfOk result (λ b. IsPermutation (booked.scripts_booked lines (runs_known known.now)) b) }
    ensures memory { IfErr result (λ f. f ≡ DeskFault.Memory) }
{
    match scripts_booked(alloc, lines, runs_in(known)) {
        Ok(booked) => Ok(booked),
        Err(_) => Err(DeskFault::Memory),
    }
}

/// The changes that they booked.
pub(crate) fn changes_known(
    alloc: Global,
    lines: Option<u64>,
    known: &Option<Sealed>,
) -> Result<Booked, DeskFault>
    ensures ok { IfOk result (λ b. IsPermutation (booked.changes_booked lines (runs_known known.now)) b) }
    ensures memory { IfErr result (λ f. f ≡ DeskFault.Memory) }
{
    match changes_booked(alloc, lines, runs_in(known)) {
        Ok(booked) => Ok(booked),
        Err(_) => Err(DeskFault::Memory),
    }
}
