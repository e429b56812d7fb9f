//! The text of a seal, each part put behind those before it. It takes no memory.
ghost use Rattle.std.specs.Prelude.{◌≡◌, ◌&&◌, ◌+◌, ◌≤◌, [], ◌++◌, codes, decimal, length, IfSome};
ghost use Rattle.std.specs.List.{flat_map, AllByRecursion};
ghost use Rattle.hex.specs.Hex.{encode_lower};
ghost use Rattle.seat_seal.specs.Digests.{IsDigest};
ghost use Rattle.seat_seal.specs.Reading.{one_entry};
ghost use Rattle.seat_seal.specs.declared.seal.SealEntry.TheVariants.{Sealed as Whole};
ghost use Rattle.seat_seal.specs.Rules.{HasDigests, HasTypes, IsCarriedTo, IsChanges, IsNamed, IsScript};
ghost use Rattle.seat_seal.specs.Text.{imprint_text, line, date_text, era_lines, era_text, head_text, is_plain, is_second_plain, carried_text, today_text, journal_text, most_runs, run_line, run_text, script_text, script_line, changes_text, sealed_text, other_text, entry_text, second_text, entries_text, digest_line, seal_text, state_text};

use crate::date::Date;
use crate::digest::{Digest, digest_of};
use crate::era::Era;
use crate::imprint::Imprint;
use crate::run::Run;
use crate::scripts::Script;
use crate::seal::{JournalState, Seal, SealEntry, Sealed, SealedJournal};
use airline_base::spelling::{put, put_number};
use arrayvec::ArrayVec;
use itoa::Buffer;

/// A head line, two entries of at most 131,000 bytes, and the line of their digest.
pub type SealText = ArrayVec<u8, 262144>;

/// The text of a seal.
#[tactic(auto, unfolding(crate::specs::Text::seal_text, crate::specs::Text::digest_line))]
pub fn seal_text(seal: &Seal) -> ArrayVec<u8, 262144>
    ensures text { result.items ≡ seal_text seal.now }
    ensures first { HasTypes seal.now.first }
    ensures second { IfSome seal.now.second HasTypes }
{
    let mut text = ArrayVec::new();
    put_entries(&mut text, seal);
    let digest = digest_of(text.as_slice());
    put_digest_line(&mut text, b"digest ", &digest);
    text
}

/// The text of a seal of this entry alone.
#[tactic(auto, unfolding(crate::specs::Text::seal_text, crate::specs::Text::digest_line))]
pub fn one_seal_text(entry: &Sealed) -> ArrayVec<u8, 262144>
    ensures text { result.items ≡ seal_text (one_entry (Whole entry.now)) }
    ensures types { HasDigests entry.now }
{
    let mut text = ArrayVec::new();
    put_one(&mut text, entry);
    let of_lines = digest_of(text.as_slice());
    put_digest_line(&mut text, b"digest ", &of_lines);
    text
}

// The lines ahead of the digest's.
fn put_one(text: &mut SealText, entry: &Sealed)
    requires { text.old.items ≡ [] }
    ensures text { text.new.items ≡ entries_text (one_entry (Whole entry.now)) }
    ensures len { length text.new.items ≤ 131011 }
    ensures types { HasDigests entry.now }
{
    put_head(text, entry.era.is_first());
    put_sealed(text, entry);
}

// The lines ahead of the digest's.
fn put_entries(text: &mut SealText, seal: &Seal)
    requires { text.old.items ≡ [] }
    ensures text { text.new.items ≡ entries_text seal.now }
    ensures len { length text.new.items ≤ 262011 }
    ensures first { HasTypes seal.now.first }
    ensures second { IfSome seal.now.second HasTypes }
{
    put_head(text, has_no_era(seal));
    put_entry(text, &seal.first);
    put_second(text, &seal.second);
}

// That of version 4 where no lines of an era follow: so a seal that has none is the one that it was before there were any.
fn put_head(text: &mut SealText, plain: bool)
    requires { text.old.items ≡ [] }
    ensures text { text.new.items ≡ head_text plain }
    ensures len { length text.new.items ≤ 11 }
{
    if plain {
        put(text, b"SEATSEAL 4\n");
    } else {
        put(text, b"SEATSEAL 5\n");
    }
}

fn has_no_era(seal: &Seal) -> bool
    ensures { result ≡ (is_second_plain seal.now.second && is_plain seal.now.first) }
{
    is_second_plain(&seal.second) && is_plain(&seal.first)
}

fn is_second_plain(entry: &Option<SealEntry>) -> bool
    ensures { result ≡ is_second_plain entry.now }
{
    match entry {
        Some(entry) => is_plain(entry),
        None => true,
    }
}

fn is_plain(entry: &SealEntry) -> bool
    ensures { result ≡ is_plain entry.now }
{
    match entry {
        SealEntry::Sealed(sealed) => sealed.era.is_first(),
        SealEntry::Other(_) => true,
    }
}

fn put_second(text: &mut SealText, entry: &Option<SealEntry>)
    requires room { length text.old.items + 131000 ≤ 262144 }
    ensures text { text.new.items ≡ text.old.items ++ second_text entry.now }
    ensures len { length text.new.items ≤ length text.old.items + 131000 }
    ensures is { IfSome entry.now HasTypes }
{
    match entry {
        Some(entry) => put_entry(text, entry),
        None => {}
    }
}

fn put_entry(text: &mut SealText, entry: &SealEntry)
    requires room { length text.old.items + 131000 ≤ 262144 }
    ensures text { text.new.items ≡ text.old.items ++ entry_text entry.now }
    ensures len { length text.new.items ≤ length text.old.items + 131000 }
    ensures is { HasTypes entry.now }
{
    match entry {
        SealEntry::Sealed(sealed) => put_sealed(text, sealed),
        SealEntry::Other(imprint) => put_other(text, imprint),
    }
}

fn put_other(text: &mut SealText, imprint: &Imprint)
    requires room { length text.old.items + 131000 ≤ 262144 }
    ensures text { text.new.items ≡ text.old.items ++ other_text imprint.now }
    ensures len { length text.new.items ≤ length text.old.items + 131000 }
    ensures is { IsDigest imprint.now.digest }
{
    put_imprint_line(text, b"other ", imprint);
    put(text, b"END\n");
}

fn put_sealed(text: &mut SealText, sealed: &Sealed)
    requires room { length text.old.items + 131000 ≤ 262144 }
    ensures text { text.new.items ≡ text.old.items ++ sealed_text sealed.now }
    ensures len { length text.new.items ≤ length text.old.items + 131000 }
    ensures is { HasDigests sealed.now }
{
    put_digest_line(text, b"set ", &sealed.set);
    put_digest_line(text, b"limits ", &sealed.limits);
    put_date_line(text, b"first ", sealed.first);
    put_number_line(text, b"days ", sealed.days as u32);
    put_era(text, sealed.era);
    put_journal_line(text, &sealed.journal);
    put_runs(text, sealed.runs.as_slice());
    put(text, b"END\n");
}

#[tactic(auto, using(crate::proofs::EraText::no_lines, crate::proofs::EraText::all_lines, crate::proofs::EraText::none_carried))]
fn put_era(text: &mut SealText, era: Era)
    requires room { length text.old.items + 134 ≤ 262144 }
    ensures text { text.new.items ≡ text.old.items ++ era_text era }
    ensures len { length text.new.items ≤ length text.old.items + 134 }
    ensures is { IfSome era.carried IsCarriedTo }
{
    if !era.is_first() {
        put_era_lines(text, era);
    }
}

#[tactic(auto, unfolding(crate::specs::Text::era_lines))]
fn put_era_lines(text: &mut SealText, era: Era)
    requires room { length text.old.items + 134 ≤ 262144 }
    ensures text { text.new.items ≡ text.old.items ++ era_lines era }
    ensures len { length text.new.items ≤ length text.old.items + 134 }
    ensures is { IfSome era.carried IsCarriedTo }
{
    put_number_line(text, b"epoch ", era.epoch);
    put_today(text, era.today);
    put_carried(text, &era.carried);
}

fn put_carried(text: &mut SealText, carried: &Option<Imprint>)
    requires room { length text.old.items + 100 ≤ 262144 }
    ensures text { text.new.items ≡ text.old.items ++ carried_text carried.now }
    ensures len { length text.new.items ≤ length text.old.items + 100 }
    ensures is { IfSome carried.now IsCarriedTo }
{
    match carried {
        Some(imprint) => put_imprint_line(text, b"carried ", imprint),
        None => {}
    }
}

fn put_today(text: &mut SealText, today: Option<Date>)
    requires room { length text.old.items + 17 ≤ 262144 }
    ensures text { text.new.items ≡ text.old.items ++ today_text today }
    ensures len { length text.new.items ≤ length text.old.items + 17 }
{
    match today {
        Some(date) => put_date_line(text, b"today ", date),
        None => {}
    }
}

// Each run takes at most 1,019 bytes.
fn put_runs(text: &mut SealText, runs: &[Run])
    requires few { length runs.now ≤ most_runs }
    requires room { length text.old.items + 130432 ≤ 262144 }
    ensures text { text.new.items ≡ text.old.items ++ flat_map run_text runs.now }
    ensures len { length text.new.items ≤ length text.old.items + 130432 }
    ensures is { AllByRecursion IsNamed runs.now }
{
    for run in runs {
        put_run(text, run);
    }
}

fn put_run(text: &mut SealText, run: &Run)
    requires room { length text.old.items + 1019 ≤ 262144 }
    ensures text { text.new.items ≡ text.old.items ++ run_text run.now }
    ensures len { length text.new.items ≤ length text.old.items + 1019 }
    ensures is { IsNamed run.now }
{
    put_run_line(text, run.behind, run.today);
    put_scripts(text, run.scripts.as_slice());
    put_changes(text, &run.changes);
}

fn put_run_line(text: &mut SealText, behind: u32, today: Date)
    requires room { length text.old.items + 39 ≤ 262144 }
    ensures text { text.new.items ≡ text.old.items ++ run_line behind today }
    ensures len { length text.new.items ≤ length text.old.items + 39 }
{
    put(text, b"run behind ");
    put_number(text, behind);
    put_date_line(text, b" today ", today);
}

fn put_journal_line(text: &mut SealText, journal: &SealedJournal)
    requires room { length text.old.items + 160 ≤ 262144 }
    ensures text { text.new.items ≡ text.old.items ++ line (codes "journal ") (journal_text journal.now) }
    ensures len { length text.new.items ≤ length text.old.items + 160 }
    ensures is { IsDigest journal.now.imprint.digest }
{
    put(text, b"journal ");
    put_digest(text, &journal.imprint.digest);
    put(text, b" lines ");
    put_number(text, journal.lines);
    put(text, b" bytes ");
    put_count(text, journal.imprint.bytes);
    put_state(text, journal.state);
    put(text, b"\n");
}

fn put_state(text: &mut SealText, state: JournalState)
    requires room { length text.old.items + 7 ≤ 262144 }
    ensures text { text.new.items ≡ text.old.items ++ state_text state }
    ensures len { length text.new.items ≤ length text.old.items + 7 }
{
    match state {
        JournalState::Open => put(text, b" open"),
        JournalState::Closed => put(text, b" closed"),
    }
}

fn put_scripts(text: &mut SealText, scripts: &[Script])
    requires few { length scripts.now ≤ 8 }
    requires room { length text.old.items + 880 ≤ 262144 }
    ensures text { text.new.items ≡ text.old.items ++ flat_map script_line scripts.now }
    ensures len { length text.new.items ≤ length text.old.items + 880 }
    ensures is { AllByRecursion IsScript scripts.now }
{
    for script in scripts {
        put_script(text, script);
    }
}

fn put_script(text: &mut SealText, script: &Script)
    requires room { length text.old.items + 110 ≤ 262144 }
    ensures text { text.new.items ≡ text.old.items ++ script_line script.now }
    ensures len { length text.new.items ≤ length text.old.items + 110 }
    ensures is { IsScript script.now }
{
    put(text, b"script ");
    put_number(text, script.session as u32);
    put_imprint_line(text, b" ", &script.imprint);
}

fn put_changes(text: &mut SealText, changes: &Option<Imprint>)
    requires room { length text.old.items + 100 ≤ 262144 }
    ensures text { text.new.items ≡ text.old.items ++ changes_text changes.now }
    ensures len { length text.new.items ≤ length text.old.items + 100 }
    ensures is { IfSome changes.now IsChanges }
{
    match changes {
        Some(imprint) => put_imprint_line(text, b"changes ", imprint),
        None => {}
    }
}

fn put_imprint_line(text: &mut SealText, word: &[u8], imprint: &Imprint)
    requires room { length text.old.items + length word.now + 92 ≤ 262144 }
    ensures text { text.new.items ≡ text.old.items ++ line word.now (imprint_text imprint.now) }
    ensures len { length text.new.items ≤ length text.old.items + length word.now + 92 }
    ensures is { IsDigest imprint.now.digest }
{
    put(text, word);
    put_digest(text, &imprint.digest);
    put(text, b" bytes ");
    put_count(text, imprint.bytes);
    put(text, b"\n");
}

fn put_digest_line(text: &mut SealText, word: &[u8], digest: &Digest)
    requires room { length text.old.items + length word.now + 65 ≤ 262144 }
    ensures text { text.new.items ≡ text.old.items ++ line word.now (encode_lower digest.now) }
    ensures len { length text.new.items ≡ length text.old.items + length word.now + 65 }
    ensures is { IsDigest digest.now }
{
    put(text, word);
    put_digest(text, digest);
    put(text, b"\n");
}

fn put_date_line(text: &mut SealText, word: &[u8], date: Date)
    requires room { length text.old.items + length word.now + 11 ≤ 262144 }
    ensures text { text.new.items ≡ text.old.items ++ line word.now (date_text date) }
    ensures len { length text.new.items ≡ length text.old.items + length word.now + 11 }
{
    put(text, word);
    put(text, &date_text(date));
    put(text, b"\n");
}

fn put_number_line(text: &mut SealText, word: &[u8], number: u32)
    requires room { length text.old.items + length word.now + 11 ≤ 262144 }
    ensures text { text.new.items ≡ text.old.items ++ line word.now (decimal number) }
    ensures len { length text.new.items ≤ length text.old.items + length word.now + 11 }
{
    put(text, word);
    put_number(text, number);
    put(text, b"\n");
}

// 64 hex digits.
fn put_digest(text: &mut SealText, digest: &Digest)
    requires room { length text.old.items + 64 ≤ 262144 }
    ensures text { text.new.items ≡ text.old.items ++ encode_lower digest.now }
    ensures len { length text.new.items ≡ length text.old.items + 64 }
    ensures is { IsDigest digest.now }
{
    put(text, &digest.letters());
}

// A number of at most twenty digits.
fn put_count(text: &mut SealText, number: u64)
    requires room { length text.old.items + 20 ≤ 262144 }
    ensures text { text.new.items ≡ text.old.items ++ decimal number }
    ensures len { length text.new.items ≤ length text.old.items + 20 }
{
    let mut buffer = Buffer::new();
    put(text, buffer.format(number).as_bytes());
}

#[tactic(auto, unfolding(crate::specs::Text::date_text))]
fn date_text(date: Date) -> [u8; 10]
    ensures { result ≡ date_text date }
{
    let century = date.year / 100;
    let year = date.year % 100;
    [
        b'0' + (century / 10) as u8,
        b'0' + (century % 10) as u8,
        b'0' + (year / 10) as u8,
        b'0' + (year % 10) as u8,
        b'-',
        b'0' + date.month / 10,
        b'0' + date.month % 10,
        b'-',
        b'0' + date.day / 10,
        b'0' + date.day % 10,
    ]
}
