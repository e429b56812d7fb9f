//! Crashes drawn by lot: what was told is found again, however the file is torn behind it.
use crate::desk::{Desk, answer};
use crate::files::{Why, grid_of, recovered, requests_of};
use crate::lots::{Lots, requests};
use memory_disk::TornTape;
use seat_journal::Entry;
use seat_recovery::{Recovered, RecoveryFault, Rest, open_text};
use seat_serving::Asked;
use std::alloc::Global;
use std::sync::Wait;
use std::test::Fail;

/// The most lines of a journal here.
const CAP: u32 = 99;

/// A file that failed or is left open, how many lines were told by then, and the head with these lines; nothing where the head failed.
#[derive(Drop)]
struct Leaving {
    file: TornTape,
    told: usize,
    text: Vec<u8>,
}

/// The head and the first of these lines.
fn text_of(alloc: Global, lines: &[Entry], count: usize) -> Result<Vec<u8>, Why> {
    if count > lines.len() {
        return Err(Why::Lines);
    }
    match open_text(alloc, &lines[..count]) {
        Ok(text) => Ok(text),
        Err(_) => Err(Why::Memory),
    }
}

/// Asks for up to eight groups, until the file fails: how many lines are told, and their text.
fn answer_all<R: Wait>(
    rt: &R,
    alloc: Global,
    lots: &mut Lots,
    desk: &mut Desk,
    asked: &[Asked],
) -> Result<(usize, Vec<u8>), Why> {
    let mut told = 0usize;
    for _ in 0..8u8 {
        let next = told.saturating_add(lots.below(6) as usize).min(asked.len());
        if told > next {
            return Err(Why::Lines);
        }
        match answer(rt, alloc, &mut desk.serving, &asked[told..next]) {
            Ok(count) => told = told.saturating_add(count),
            Err(Why::Device) => break,
            Err(why) => return Err(why),
        }
    }
    match text_of(alloc, desk.serving.journal(), told) {
        Ok(text) => Ok((told, text)),
        Err(why) => Err(why),
    }
}

fn leave<R: Wait>(rt: &R, alloc: Global, lots: &mut Lots, asked: &[Asked]) -> Result<Leaving, Why> {
    let Ok(grid) = grid_of(alloc, 6, 6) else {
        return Err(Why::Memory);
    };
    match Desk::open(rt, alloc, grid, CAP, u64::from(lots.below(12))) {
        Ok(mut desk) => {
            let answered = answer_all(rt, alloc, lots, &mut desk, asked);
            let file = desk.close(rt).into_inner();
            match answered {
                Ok((told, text)) => Ok(Leaving { file, told, text }),
                Err(why) => Err(why),
            }
        }
        Err((Why::Device, file)) => Ok(Leaving {
            file: file.into_inner(),
            told: 0,
            text: Vec::new(alloc),
        }),
        Err((why, _)) => Err(why),
    }
}

/// Crashes a file: what was not synced is torn so.
fn crash(alloc: Global, lots: &mut Lots, leaving: &mut Leaving, tear: u32) -> Result<(), Why> {
    let bytes = leaving.file.bytes();
    let synced = leaving.text.len();
    if synced > bytes.len() {
        return Err(Why::Device);
    }
    match lots.torn(alloc, &bytes[synced..], tear) {
        Ok(torn) => {
            leaving.file.crash(torn.as_slice());
            Ok(())
        }
        Err(why) => Err(why),
    }
}

/// How many crashes came where lines were told, where lines were found that were not, behind a torn line, and ahead of damage.
type Counts = [u32; 4];

fn count(counts: &mut Counts, told: usize, found: &Recovered) {
    let came = [
        told > 0,
        found.core.journal().len() > told,
        matches!(found.rest, Rest::Torn),
        matches!(found.rest, Rest::Damaged(_)),
    ];
    for kind in 0..4 {
        counts[kind] = counts[kind].saturating_add(u32::from(came[kind]));
    }
}

/// Whether what was told stands first in what a crash left, and is found in it.
fn is_found(alloc: Global, counts: &mut Counts, leaving: &Leaving) -> bool {
    let bytes = leaving.file.bytes();
    let kept = leaving.text.as_slice();
    let Ok(grid) = grid_of(alloc, 6, 6) else {
        return false;
    };
    match recovered(alloc, grid, CAP, bytes) {
        Ok(found) => {
            count(counts, leaving.told, &found);
            let is_there = bytes.starts_with(kept) && found.len >= kept.len();
            is_there && found.core.journal().len() >= leaving.told
        }
        // Only of a head that was on its way.
        Err(fault) => matches!(fault, RecoveryFault::Head) && kept.is_empty(),
    }
}

fn try_crash<R: Wait>(
    rt: &R,
    alloc: Global,
    lots: &mut Lots,
    counts: &mut Counts,
    all: &[Asked],
) -> Result<bool, Why> {
    let count = lots.below(31);
    let asked = lots.some(alloc, count, all)?;
    let mut leaving = leave(rt, alloc, lots, asked.as_slice())?;
    let tear = lots.below(4);
    match crash(alloc, lots, &mut leaving, tear) {
        Ok(()) => Ok(is_found(alloc, counts, &leaving)),
        Err(why) => Err(why),
    }
}

#[test]
fn finds_what_was_told_by_lot(rt: HostRuntime) -> Result<(), Fail> {
    let all = requests_of(rt.alloc(), requests())?;
    let mut lots = Lots::new(2026);
    let mut counts = [0u32; 4];
    for crash in 0..10000u32 {
        let tried = try_crash(&rt, rt.alloc(), &mut lots, &mut counts, all.as_slice());
        assert!(rt; matches!(tried, Ok(true)), "crash {crash}");
    }
    // The lots are no few of each kind.
    let [told, more, torn, damaged] = counts;
    let are_many = told > 2500 && more > 500 && torn > 500 && damaged > 500;
    assert!(rt; are_many, "{counts:?}");
    Ok(())
}
