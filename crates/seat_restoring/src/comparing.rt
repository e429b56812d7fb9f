//! What stands beside a journal that is recovered, ahead of what is found in it and behind that.
//! It knows seals by their faults and their entries, and no file.
ghost use Rattle.std.specs.Prelude.{◌≡◌, ◌≢◌, IfErr, IfOk, IsTrue, OnOk, Some};
ghost use Rattle.seat_recovery.specs.OpenText.{open_text};
ghost use Rattle.seat_seal.specs.Comparing.{begins_sealed};
ghost use Rattle.seat_seal.specs.Imprints.{imprint_of};
ghost use Rattle.seat_serving.specs.GoingOn.{IsFoundIn};
ghost use Rattle.seat_restoring.specs.Comparing.{Differs, HasOneEntry, IsFaultAhead, IsOneEntry, Passes, is_passed, refusal};
ghost use Rattle.seat_restoring.specs.Found.{KeepsSealed, LosesSealed, has_sealed, is_no_longer};

use crate::sealing::text_of;
use booked_texts::imprint_beside;
use seat_desk::DeskFault;
use seat_recovery::Recovered;
use seat_seal::{
    Basis, Beside, Imprint, JournalState, Seal, SealEntry, SealFault, Sealed, SealedJournal,
    begins_sealed, era_known, fault_beside, imprint_of, known_of, read_seal,
};

/// Refuses a journal where what stands beside it is no seal, or one of another set, other limits or other days; and behind these, one whose bookings were
/// carried to another journal (`SealFault::Carried`). Whether what is found of
/// its bytes begins with the sealed lines is seen once it is found ([`sealed_imprint`]). The journal's bytes are digested only beside a seal of two
/// entries, and beside one of a journal of which nothing else is known.
pub fn passed(seal: &Beside<'_>, basis: &Basis, journal: &[u8]) -> Result<(), DeskFault>
    ensures ok { OnOk result (Passes seal.now basis.now journal.now) }
    ensures fault { IfErr result (Differs seal.now basis.now journal.now) }
{
    let known = known_of(seal, journal);
    let first = fault_ahead(seal, basis, journal);
    match refusal(&known, first) {
        None => Ok(()),
        Some(fault) => Err(DeskFault::Seal(fault)),
    }
}

/// The fault for which a journal is refused of which this is known, and whose seal has this first fault.
fn refusal(known: &Option<Sealed>, first: Option<SealFault>) -> Option<SealFault>
    ensures { result ≡ refusal known.now first }
{
    if !is_passed(known, first) {
        return first;
    }
    if era_known(known).is_carried() {
        return Some(SealFault::Carried);
    }
    None
}

/// The first fault of what stands beside a journal; of a seal of one entry, which names what else is known of the journal, that beside a journal
/// without a byte, in which all but the journal is the same.
fn fault_ahead(seal: &Beside<'_>, basis: &Basis, journal: &[u8]) -> Option<SealFault>
    ensures { IsFaultAhead seal.now basis.now journal.now result }
{
    if has_one_entry(seal) {
        return fault_beside(seal, basis, b"");
    }
    fault_beside(seal, basis, journal)
}

/// Whether it is the seal of one entry, by which more is known of the journal than its bytes.
#[tactic(auto, using(crate::proofs::Passing::has_one))]
fn has_one_entry(seal: &Beside<'_>) -> bool
    ensures { IsTrue result → HasOneEntry seal.now }
{
    let Some(text) = seal.text else {
        return false;
    };
    match read_seal(text) {
        Some(read) => is_one_entry(&read),
        None => false,
    }
}

fn is_one_entry(seal: &Seal) -> bool
    ensures { IsTrue result → IsOneEntry seal.now }
{
    match &seal.second {
        Some(_) => false,
        None => match &seal.first {
            SealEntry::Sealed(_) => true,
            SealEntry::Other(_) => false,
        },
    }
}

/// Whether a journal is looked at for which this is the first fault of its seal: none, or that its bytes are another's where lines were sealed.
fn is_passed(known: &Option<Sealed>, first: Option<SealFault>) -> bool
    ensures { result ≡ is_passed known.now first }
{
    match first {
        None => true,
        Some(SealFault::Journal) => known.is_some(),
        Some(_) => false,
    }
}

/// The imprint of the head and the lines that were found in a file with these bytes, of which each byte is digested once. Refuses them where they do not
/// begin with the lines that were sealed, or are more than a whole journal had.
pub fn sealed_imprint(
    seal: &Beside<'_>,
    bytes: &[u8],
    found: &Recovered,
) -> Result<Imprint, DeskFault>
    requires found { IsFoundIn found.now.core bytes.now found.now.len found.now.rest }
    ensures ok { OnOk result (KeepsSealed seal.now bytes.now found.now.core.journal) }
    ensures imprint { IfOk result (λ i. i ≡ imprint_of (open_text found.now.core.journal)) }
    ensures fault { IfErr result (LosesSealed seal.now bytes.now found.now.core.journal) }
    ensures kind { IfErr result (λ f. (f ≢ DeskFault.Device) × (f ≢ DeskFault.TooLarge)) }
{
    let entry = known_of(seal, bytes);
    let (imprint, has_sealed) = imprint_and_sealed(&entry, text_of(bytes, found));
    if has_sealed {
        return Ok(imprint);
    }
    Err(DeskFault::Seal(SealFault::Journal))
}

/// The imprint of the text, and whether it has what was sealed.
fn imprint_and_sealed(known: &Option<Sealed>, text: &[u8]) -> (Imprint, bool)
    ensures imprint { result.0 ≡ imprint_of text.now }
    ensures sealed { result.1 ≡ has_sealed known.now text.now }
{
    match known {
        Some(entry) => {
            let (imprint, begins) = imprint_behind(&entry.journal, text);
            (imprint, begins && is_no_longer(&entry.journal, text))
        }
        None => (imprint_of(text), true),
    }
}

/// The imprint of the text, and whether it begins with what was sealed. Only where that has no byte is it digested by itself.
#[tactic(auto, using(crate::proofs::Sealed::begins_by))]
fn imprint_behind(sealed: &SealedJournal, text: &[u8]) -> (Imprint, bool)
    ensures imprint { result.0 ≡ imprint_of text.now }
    ensures sealed { result.1 ≡ begins_sealed sealed.now text.now }
{
    if sealed.imprint.bytes == 0 {
        return (imprint_of(text), begins_sealed(sealed, text));
    }
    imprint_beside(text, &[sealed.imprint])
}

/// Whether the text is no longer than the sealed one, unless more lines may have come since. No crash leaves the seal of a whole journal beside one
/// to which lines were added: an open seal is there ahead of them.
fn is_no_longer(sealed: &SealedJournal, text: &[u8]) -> bool
    ensures { result ≡ is_no_longer sealed.now.state sealed.now.imprint.bytes text.now }
{
    match sealed.state {
        JournalState::Open => true,
        JournalState::Closed => text.len() as u64 == sealed.imprint.bytes,
    }
}
