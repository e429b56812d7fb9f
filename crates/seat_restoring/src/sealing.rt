//! The seals of a journal that is ended: one that names it beside the open one that the file is until then, and one of it alone.
//! It knows entries of seals and the bytes of a file, and nothing of how either file is written.
ghost use Rattle.std.specs.Prelude.{◌≡◌, IfNone, IfSome, length};
ghost use Rattle.seat_recovery.specs.OpenText.{open_text};
ghost use Rattle.seat_seal.specs.Closing.{IsClosedEntry, IsOpenEntry};
ghost use Rattle.seat_seal.specs.Imprints.{imprint_of};
ghost use Rattle.seat_serving.specs.GoingOn.{IsFoundIn};
ghost use Rattle.seat_restoring.specs.Sealing.{AreRunsOver, AreSeals, AreUnsealable};

use crate::dating::era_of;
use seat_recovery::Recovered;
use seat_seal::{
    Basis, Beside, Era, Imprint, Runs, SealEntry, Sealed, closed_entry, known_of, open_entry,
    runs_known,
};
use seat_sealing::{SealTexts, may_be_sealed, seal_texts};
use seat_serving::head_for;

/// The texts of the seals that are written as a file with these bytes is ended, by the imprint of the head and the lines that were
/// found, unless no seal may have their entries.
pub fn seals_of(
    seal: &Beside<'_>,
    basis: &Basis,
    bytes: &[u8],
    found: &Recovered,
    imprint: &Imprint,
) -> Option<SealTexts>
    requires imprint { imprint.now ≡ imprint_of (open_text found.now.core.journal) }
    ensures seals { IfSome result (λ t. AreSeals seal.now basis.now bytes.now found.now.core.journal t.both.items t.alone.items) }
    ensures none { IfNone result (AreUnsealable seal.now basis.now bytes.now found.now.core.journal) }
{
    let lines = count_of(found);
    let era = era_of(seal, bytes);
    let runs = runs_over(seal, bytes, lines);
    let newer = closed_over(basis, &era, imprint, lines, runs);
    let more = runs_over(seal, bytes, lines);
    let begun = open_over(basis, &era, imprint, lines, more);
    let older = SealEntry::Sealed(begun);
    if !may_be_sealed(&older, &newer) {
        return None;
    }
    Some(seal_texts(older, newer))
}

fn closed_over(basis: &Basis, era: &Era, imprint: &Imprint, lines: u32, runs: Runs) -> Sealed
    ensures entry { IsClosedEntry basis.now imprint.now lines runs result }
    ensures era { result.era ≡ era.now }
{
    closed_entry(basis, *era, *imprint, lines, runs)
}

fn open_over(basis: &Basis, era: &Era, imprint: &Imprint, lines: u32, runs: Runs) -> Sealed
    ensures entry { IsOpenEntry basis.now imprint.now lines runs result }
    ensures era { result.era ≡ era.now }
{
    open_entry(basis, *era, *imprint, lines, runs)
}

/// The count of the lines that were found.
pub(crate) fn count_of(found: &Recovered) -> u32
    ensures { result ≡ length found.now.core.journal }
{
    found.core.journal().len() as u32
}

/// The runs that what stands beside a file with these bytes knows, but for those that began behind more lines.
pub(crate) fn runs_over(seal: &Beside<'_>, bytes: &[u8], lines: u32) -> Runs
    ensures { AreRunsOver seal.now bytes.now lines result }
{
    let mut runs = runs_known(known_of(seal, bytes));
    runs.keep_within(lines);
    runs
}

/// The head and the lines that were found.
#[tactic(auto, using(crate::proofs::Sealed::text_is_lines, crate::proofs::Sealed::text_is_head))]
pub(crate) fn text_of<'a>(bytes: &'a [u8], found: &Recovered) -> &'a [u8]
    requires found { IsFoundIn found.now.core bytes.now found.now.len found.now.rest }
    ensures { result.now ≡ open_text found.now.core.journal }
{
    let head = head_for(found.rest);
    if head.is_empty() {
        let (lines, _) = bytes.split_at(found.len);
        return lines;
    }
    head
}
