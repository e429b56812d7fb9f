//! What stands beside a journal, as a command takes it.
ghost use Rattle.std.specs.Prelude.{None, IfErr, OnOk};
ghost use Rattle.seat_seal.specs.Besides.{IsFaultBeside};
ghost use Rattle.seat_desk.specs.Sealing.{IsBesideFault};

use crate::fault::DeskFault;
use seat_seal::{Basis, Beside, fault_beside};

/// Refuses a journal that does not agree with what stands beside it.
pub fn agreed(beside: &Beside<'_>, basis: &Basis, journal: &[u8]) -> Result<(), DeskFault>
    ensures ok { OnOk result (IsFaultBeside beside.now basis.now journal.now None) }
    ensures fault { IfErr result (IsBesideFault beside.now basis.now journal.now) }
{
    match fault_beside(beside, basis, journal) {
        Some(fault) => Err(DeskFault::Seal(fault)),
        None => Ok(()),
    }
}
