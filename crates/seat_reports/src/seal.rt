//! `seal`: the seal of a journal that an audit accepts.
ghost use Rattle.std.specs.Prelude.{◌≡◌, ◌≢◌, ◌⊎◌, ◌≤◌, true, false, IfErr, IfOk, OnErr, OnOk, length};
ghost use Rattle.airline_base.specs.Noting.{noted};
ghost use Rattle.ssim_flights.specs.Right.{IsOfCentury};
ghost use Rattle.seat_disk.specs.Keeping.{KeepsNoMore};
ghost use Rattle.seat_disk.specs.Leaving.{OldOr, Only, replaced_by};
ghost use Rattle.seat_seal.specs.Reading.{one_entry};
ghost use Rattle.seat_seal.specs.Rules.{is_sealed};
ghost use Rattle.seat_seal.specs.Text.{seal_text};
ghost use Rattle.seat_seal.specs.declared.comparing.SealFault.TheVariants.{Journal};
ghost use Rattle.seat_seal.specs.declared.seal.SealEntry.TheVariants.{Sealed as Told};
ghost use Rattle.seat_desk.specs.Answering.{HasFirstFailed, IsFirstTooLargeOf, IsRefusedAnswerOf};
ghost use Rattle.seat_desk.specs.AuditDesk.{IsUnlawful, most_journal_bytes};
ghost use Rattle.seat_desk.specs.Desk.{HasFailed, InputFailed, IsOfInput};
ghost use Rattle.seat_reports.specs.SealDesk.{era_carried, AreKept, IsEntryOf, IsEntryOver, IsMisnumberedOf, IsPut, IsSealOfKnown, PuttingFailed, nothing};

use airline_base::NotedRead;
use seat_desk::{
    Based, DeskFault, Inputs, Loaded, MOST_JOURNAL_BYTES, load_based, read_input, replayed_in_parts,
};
use seat_disk::{Replaced, replace_whole};
use seat_nesting::Grid;
use seat_seal::{
    Basis, Beside, Date, Era, Imprint, JournalState, Runs, Seal, SealEntry, SealFault, SealText,
    Sealed, SealedJournal, era_known, fault_beside, front_of, imprint_of, is_sealed, known_of,
    runs_known, seal_text,
};
use std::alloc::Global;
use std::thread::Threads;

/// Reads a data set, limit rows and a journal as an audit reads them, and puts the journal's seal in place of what its file has: at any
/// moment a crash leaves what it would have left before, or the new seal, whole. It is closed, and has the era and the runs that what stands beside
/// the journal so far knows, where that has no fault, and else none; a run that began behind more lines than the journal has is of
/// another journal, and refused. What an audit refuses is refused here. A long journal is read and replayed on all processors.
pub fn desk_seal<R: Threads + Sync, I: NotedRead, K: Replaced>(
    rt: &R,
    alloc: Global,
    inputs: &mut Inputs<I, I>,
    journal: &mut I,
    beside: &Beside<'_>,
    seal: &mut K,
) -> Result<(), DeskFault>
    requires first { IsOfCentury inputs.old.first }
    requires days { (1 ≤ inputs.old.days) × (inputs.old.days ≤ 366) }
    ensures ok { OnOk result (IsPut (IsSealOfKnown beside.now I.remaining I.remaining inputs.old (I.remaining journal.old))
        (K.named seal.old) (K.named seal.new) (K.may_leave seal.new)) }
    ensures fault { IfErr result (λ f. IsOfInput f →
        IsRefusedAnswerOf IsUnlawful nothing I.remaining I.remaining inputs.old (I.remaining journal.old) f
        ⊎ IsMisnumberedOf beside.now I.remaining I.remaining inputs.old (I.remaining journal.old) f) }
    ensures large { IfErr result (λ f. f ≡ DeskFault.TooLarge
        → IsFirstTooLargeOf I.remaining I.remaining inputs.old (I.remaining journal.old)) }
    ensures device { IfErr result (λ f. f ≡ DeskFault.Device →
        InputFailed (HasFirstFailed I.remaining I.remaining I.failure_count I.failure_count I.failure_count inputs.old inputs.new journal.old journal.new)
        seal.old seal.new
        ⊎ PuttingFailed K.failure_count K.named seal.old seal.new
        (IsSealOfKnown beside.now I.remaining I.remaining inputs.old (I.remaining journal.old))) }
    ensures untouched { IfErr result (λ f. f ≢ DeskFault.Device → seal.new ≡ seal.old) }
    ensures only { KeepsNoMore (K.kept_may_leave seal.old) (K.kept_may_leave seal.new) }
{
    let text = match sealed(rt, alloc, inputs, journal, beside) {
        Ok(text) => text,
        Err(fault) => return Err(fault),
    };
    match put_seal(seal, text.as_slice()) {
        Ok(()) => Ok(()),
        Err(fault) => Err(fault),
    }
}

/// The text of a journal's seal.
fn sealed<R: Threads + Sync, I: NotedRead>(
    rt: &R,
    alloc: Global,
    inputs: &mut Inputs<I, I>,
    journal: &mut I,
    beside: &Beside<'_>,
) -> Result<SealText, DeskFault>
    requires first { IsOfCentury inputs.old.first }
    requires days { (1 ≤ inputs.old.days) × (inputs.old.days ≤ 366) }
    ensures ok { IfOk result
        (λ text. IsSealOfKnown beside.now I.remaining I.remaining inputs.old (I.remaining journal.old) text.items) }
    ensures fault { IfErr result (λ f. IsOfInput f →
        IsRefusedAnswerOf IsUnlawful nothing I.remaining I.remaining inputs.old (I.remaining journal.old) f
        ⊎ IsMisnumberedOf beside.now I.remaining I.remaining inputs.old (I.remaining journal.old) f) }
    ensures large { IfErr result (λ f. f ≡ DeskFault.TooLarge
        → IsFirstTooLargeOf I.remaining I.remaining inputs.old (I.remaining journal.old)) }
    ensures device { IfErr result (λ f. f ≡ DeskFault.Device →
        HasFirstFailed I.remaining I.remaining I.failure_count I.failure_count I.failure_count inputs.old inputs.new journal.old journal.new) }
{
    let Based { loaded, basis } = match load_based(alloc, inputs, true) {
        Ok(based) => based,
        Err(fault) => return Err(fault),
    };
    let Loaded {
        flights,
        rows,
        grid,
    } = loaded;
    drop(flights);
    drop(rows);
    let bytes = match read_input(alloc, journal, MOST_JOURNAL_BYTES) {
        Ok(bytes) => bytes,
        Err(fault) => return Err(fault),
    };
    let entry = match entry_over(rt, alloc, grid, bytes, &basis, beside) {
        Ok(entry) => entry,
        Err(fault) => return Err(fault),
    };
    match text_of(entry) {
        Ok(text) => Ok(text),
        Err(fault) => Err(fault),
    }
}

/// The entry of a journal that is a legal history over this grid, with what is kept of what stands beside it.
fn entry_over<R: Threads + Sync>(
    rt: &R,
    alloc: Global,
    grid: Grid,
    bytes: Vec<u8>,
    basis: &Basis,
    beside: &Beside<'_>,
) -> Result<Sealed, DeskFault>
    requires { length bytes.items ≤ most_journal_bytes }
    ensures ok { IfOk result (IsEntryOver beside.now basis.now grid bytes.items) }
    ensures fault { IfErr result (λ f. f ≢ DeskFault.Memory → IsUnlawful grid f bytes.items) }
    ensures kind { IfErr result (λ f. (f ≢ DeskFault.Device) × (f ≢ DeskFault.TooLarge)) }
{
    let imprint = imprint_of(front_of(&bytes));
    let (runs, era) = kept_of(beside, basis, &bytes);
    let core = match replayed_in_parts(rt, alloc, grid, bytes) {
        Ok(core) => core,
        Err(fault) => return Err(fault),
    };
    Ok(entry_of(basis, era, imprint, core.journal().len() as u32, runs))
}

/// What is kept of what stands beside a journal: the runs and the era that it knows, where it has no fault; and else where its bookings were carried.
fn kept_of(beside: &Beside<'_>, basis: &Basis, journal: &[u8]) -> (Runs, Era)
    ensures { AreKept beside.now basis.now journal.now result.0 result.1 }
{
    let known = known_of(beside, journal);
    let era = era_known(&known);
    match fault_beside(beside, basis, journal) {
        Some(_) => (Runs::new(), era_carried(&era)),
        None => (runs_known(known), era),
    }
}

/// The first era, of a journal whose bookings were carried where those of this one were.
fn era_carried(era: &Era) -> Era
    ensures { result ≡ era_carried era.now }
{
    Era {
        carried: era.carried,
        ..Era::first()
    }
}

/// A seal of this entry alone, where it keeps the rules of one.
fn text_of(entry: Sealed) -> Result<SealText, DeskFault>
    ensures ok { IfOk result (λ text. text.items ≡ seal_text (one_entry (Told entry))) }
    ensures rules { OnOk result (is_sealed entry ≡ true) }
    ensures broken { OnErr result (is_sealed entry ≡ false) }
    ensures fault { IfErr result (λ f. f ≡ DeskFault.Seal Journal) }
{
    if !is_sealed(&entry) {
        return Err(DeskFault::Seal(SealFault::Journal));
    }
    let seal = Seal {
        first: SealEntry::Sealed(entry),
        second: None,
    };
    Ok(seal_text(&seal))
}

fn entry_of(basis: &Basis, era: Era, imprint: Imprint, lines: u32, runs: Runs) -> Sealed
    ensures { IsEntryOf basis.now era imprint lines runs result }
{
    Sealed {
        set: basis.set,
        limits: basis.limits,
        first: Date::of(basis.first),
        days: basis.days,
        era,
        journal: SealedJournal {
            imprint,
            lines,
            state: JournalState::Closed,
        },
        runs,
    }
}

fn put_seal<K: Replaced>(seal: &mut K, text: &[u8]) -> Result<(), DeskFault>
    ensures ok { OnOk result (K.named seal.new ≡ replaced_by (K.named seal.old) text.now) }
    ensures kept { OnOk result (Only text.now (K.may_leave seal.new)) }
    ensures crash { OldOr text.now (K.may_leave seal.old) (K.may_leave seal.new) }
    ensures device { IfErr result (λ f. f ≡ DeskFault.Device) }
    ensures counted { OnErr result (HasFailed K.failure_count seal.old seal.new) }
    ensures either { OnErr result ((K.named seal.new ≡ K.named seal.old)
        ⊎ (K.named seal.new ≡ replaced_by (K.named seal.old) text.now)) }
    ensures only { KeepsNoMore (K.kept_may_leave seal.old) (K.kept_may_leave seal.new) }
{
    match replace_whole(seal, text, false) {
        Ok(()) => Ok(()),
        Err(_) => Err(DeskFault::Device),
    }
}
