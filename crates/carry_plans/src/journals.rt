//! Several journals, read one behind the other, each with what stands beside it.
//! It knows what a seal is compared with, and nothing of a journal's lines.
ghost use Rattle.std.specs.Prelude.{◌≡◌, ◌≢◌, ◌≤◌, ◌+◌, ◌++◌, ◌∷◌, [], length, map, IfErr, IfOk, IfSome, OnOk};
ghost use Rattle.seat_desk.specs.AuditDesk.{most_journal_bytes};
ghost use Rattle.seat_desk.specs.Desk.{HasFailed};
ghost use Rattle.seat_shards.specs.Taking.{known as texts_known};
ghost use Rattle.carry_plans.specs.Knowing.{AreAddedOn, AreReadTexts, HasFailedReading, IsAdded, IsKnownText, IsReadingFault, IsUnreadOn, RefusesRead, of_input};

use crate::belongings::Belongings;
use crate::fault::CarryFault;
use crate::join_fault::JoinFault;
use airline_base::{Items, NotedRead};
use seat_desk::{DeskFault, MOST_JOURNAL_BYTES, agreed, read_input};
use seat_seal::{Basis, Beside, Sealed, known_of};
use std::alloc::Global;

/// The texts of journals that agree with what stands beside them, and what their seals know.
#[derive(Drop)]
pub(crate) struct KnownTexts {
    pub texts: Items<Items<u8>>,
    pub knowns: Belongings,
}

/// Reads these journals, each with what stands beside it.
#[tactic(auto, using(crate::proofs::Adding::all_added))]
pub(crate) fn read_together<J: NotedRead>(
    alloc: Global,
    basis: &Basis,
    journals: &mut [J],
    besides: &[Beside<'_>],
) -> Result<KnownTexts, JoinFault>
    requires as_many { length besides.now ≡ length journals.old }
    ensures ok { IfOk result (λ read. IfSome (texts_known (map J.remaining journals.old)) (AreReadTexts basis.now besides.now read)) }
    ensures many { IfOk result (λ read. length read.knowns ≡ length journals.old) }
    ensures fault { IfErr result (IsUnreadOn basis.now besides.now (map J.remaining journals.old) 0) }
    ensures device { IfErr result (λ f. f ≡ JoinFault.Device
        → HasFailedReading basis.now besides.now (map J.remaining journals.old) J.failure_count journals.old journals.new) }
    ensures kind { IfErr result IsReadingFault }
{
    let mut read = no_texts(alloc);
    match read_all(alloc, basis, journals, besides, 0, &mut read) {
        Ok(()) => Ok(read),
        Err(fault) => Err(fault),
    }
}

fn no_texts(alloc: Global) -> KnownTexts
    ensures texts { result.texts ≡ [] }
    ensures knowns { result.knowns ≡ [] }
{
    KnownTexts {
        texts: Items::new(alloc),
        knowns: Belongings::new(alloc),
    }
}

/// Reads these journals, each with what stands beside it, and adds them; so many are before them.
#[tactic(auto, using(crate::proofs::Adding::added_none))]
fn read_all<J: NotedRead>(
    alloc: Global,
    basis: &Basis,
    journals: &mut [J],
    besides: &[Beside<'_>],
    before: u32,
    read: &mut KnownTexts,
) -> Result<(), JoinFault>
    requires as_many { length besides.now ≡ length journals.old }
    ensures ok { OnOk result (AreAddedOn basis.now besides.now (map J.remaining journals.old) read.old read.new) }
    ensures many { OnOk result (length read.new.knowns ≡ length read.old.knowns + length journals.old) }
    ensures fault { IfErr result (IsUnreadOn basis.now besides.now (map J.remaining journals.old) before) }
    ensures device { IfErr result (λ f. f ≡ JoinFault.Device
        → HasFailedReading basis.now besides.now (map J.remaining journals.old) J.failure_count journals.old journals.new) }
    ensures kind { IfErr result IsReadingFault }
{
    let Some((journal, later)) = journals.split_first_mut() else {
        return Ok(());
    };
    let Some((beside, others)) = besides.split_first() else {
        unreachable!()
    };
    let place = match read_one(alloc, basis, journal, beside, before, read) {
        Ok(place) => place,
        Err(fault) => return Err(fault),
    };
    match read_all(alloc, basis, later, others, place, read) {
        Ok(()) => Ok(()),
        Err(fault) => Err(fault),
    }
}

/// Reads the next journal, which must agree with what stands beside it, and by which more must be known of it than its bytes; and adds it, and says its
/// place.
#[tactic(auto, using(crate::proofs::Adding::unread_size, crate::proofs::Adding::failed_size, crate::proofs::Adding::reading_size, crate::proofs::Adding::unread_text, crate::proofs::Adding::unread_memory, crate::proofs::Adding::reading_memory, crate::proofs::Adding::added_text))]
fn read_one<J: NotedRead>(
    alloc: Global,
    basis: &Basis,
    journal: &mut J,
    beside: &Beside<'_>,
    before: u32,
    read: &mut KnownTexts,
) -> Result<u32, JoinFault>
    ensures ok { OnOk result (IfSome (J.remaining journal.old) (IsAdded basis.now beside.now read.old read.new)) }
    ensures next { IfOk result (λ place. place ≡ before + 1) }
    ensures one { OnOk result (length read.new.knowns ≡ length read.old.knowns + 1) }
    ensures fault { IfErr result (λ f. IfSome (J.remaining journal.old) (RefusesRead basis.now beside.now (before + 1) f)) }
    ensures device { IfErr result (λ f. f ≡ JoinFault.Device → HasFailed J.failure_count journal.old journal.new) }
    ensures kind { IfErr result IsReadingFault }
{
    let Some(place) = before.checked_add(1) else {
        return Err(JoinFault::Carry(CarryFault::Memory));
    };
    let bytes = match read_input(alloc, journal, MOST_JOURNAL_BYTES) {
        Ok(bytes) => bytes,
        Err(fault) => return Err(of_input(place, fault)),
    };
    let known = match known_beside(basis, beside, place, &bytes) {
        Ok(known) => known,
        Err(fault) => return Err(fault),
    };
    match add(read, bytes, known) {
        Ok(()) => Ok(place),
        Err(fault) => Err(fault),
    }
}

/// What the seal beside the journal of these bytes, at this place, knows of it: it agrees with them, and knows more than they say.
#[tactic(auto, using(crate::proofs::Adding::unsealed_alone, crate::proofs::Adding::known_alone, crate::proofs::Adding::unknown_alone))]
fn known_beside(
    basis: &Basis,
    beside: &Beside<'_>,
    place: u32,
    bytes: &[u8],
) -> Result<Sealed, JoinFault>
    requires within { length bytes.now ≤ most_journal_bytes }
    ensures ok { IfOk result (λ known. IsKnownText basis.now beside.now known bytes.now) }
    ensures fault { IfErr result (λ f. RefusesRead basis.now beside.now place f bytes.now) }
    ensures no_device { IfErr result (λ f. f ≢ JoinFault.Device) }
    ensures kind { IfErr result IsReadingFault }
{
    if let Err(fault) = agreed(beside, basis, bytes) {
        return Err(JoinFault::Beside { place, fault });
    }
    match known_of(beside, bytes) {
        Some(known) => Ok(known),
        None => Err(JoinFault::Unsealed { place }),
    }
}

/// Adds a text and what its seal knows.
fn add(read: &mut KnownTexts, bytes: Vec<u8>, known: Sealed) -> Result<(), JoinFault>
    ensures texts { OnOk result (read.new.texts ≡ read.old.texts ++ bytes.items ∷ []) }
    ensures knowns { OnOk result (read.new.knowns ≡ read.old.knowns ++ known ∷ []) }
    ensures memory { IfErr result (λ f. f ≡ JoinFault.Carry CarryFault.Memory) }
{
    if read.texts.push(Items::from_vec(bytes)).is_err() {
        return Err(JoinFault::Carry(CarryFault::Memory));
    }
    match read.knowns.push(known) {
        Ok(()) => Ok(()),
        Err(_) => Err(JoinFault::Carry(CarryFault::Memory)),
    }
}

/// A device and memory say nothing about the journal at this place.
fn of_input(place: u32, fault: DeskFault) -> JoinFault
    ensures { result ≡ of_input place fault }
{
    match fault {
        DeskFault::Device => JoinFault::Device,
        DeskFault::Memory => JoinFault::Carry(CarryFault::Memory),
        _ => JoinFault::Beside { place, fault },
    }
}
