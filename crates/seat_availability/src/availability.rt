//! `avs`: what a partner is told of each segment, or of those whose status changed behind older lines.
//! It knows which messages are told, and neither what one is nor how it reads.
ghost use Rattle.std.specs.Prelude.{◌≡◌, ◌≢◌, ◌≤◌, IfErr, IfOk, IfSome, length, take, Some};
ghost use Rattle.seat_desk.specs.AuditDesk.{most_lines};
ghost use Rattle.seat_desk.specs.FlightsDesk.{IsText};
ghost use Rattle.seat_desk.specs.Loading.{IsGridOf};
ghost use Rattle.seat_availability.specs.Answers.{IsAvailabilityAfter, IsAvailabilityRefused, IsBehind, IsNotBehind, told};
ghost use Rattle.seat_availability.specs.Lines.{IsMessageLine};

use crate::changes::changed;
use crate::lines::put_messages;
use crate::segments::{Asked, Message, messages};
use airline_base::Memory;
use seat_core::Core;
use seat_desk::{DeskFault, Loaded, MOST_LINES, Question, replayed_in_parts};
use seat_journal::Entry;
use seat_pickup::{Past, past_of};
use seat_replay::replay_entries;
use ssim_flights::{Flights, Served};
use std::alloc::Global;
use std::thread::Threads;

/// What is asked of the availability after a journal.
#[derive(Clone, Copy)]
pub struct AvailabilityOf<'a> {
    pub asked: Asked<'a>,
    /// What stands ahead of the lines whose changes alone are told; without it all is told.
    pub past: Option<Past<'a>>,
}

/// A message for each segment that is asked for, or for each of which something else is told than after the older lines. A journal is refused as an
/// audit refuses it, and one that does not begin with the older lines is, too.
impl<'a> Question for AvailabilityOf<'a> {
    ghost use Rattle.seat_availability.specs.Answers.{IsAvailabilityAfter, IsAvailabilityRefused};

    ghost answers = { λ asked flights rows grid journal text. IsAvailabilityAfter asked flights grid journal text };

    ghost refuses = { λ asked grid fault journal. IsAvailabilityRefused asked.past grid fault journal };

    #[tactic(auto, using(seat_desk::proofs::Grounds::grid_of_rows, seat_desk::proofs::After::grid_kept, crate::proofs::Answering::behind_within, crate::proofs::Answering::after_replay, crate::proofs::Answering::unlawful, crate::proofs::Answering::parted))]
    fn text<R: Threads + Sync>(
        &self,
        rt: &R,
        alloc: Global,
        loaded: Loaded,
        journal: Vec<u8>,
    ) -> Result<Vec<u8>, DeskFault> {
        let Loaded {
            flights,
            rows,
            grid,
        } = loaded;
        drop(rows);
        let core = replayed_in_parts(rt, alloc, grid, journal)?;
        let behind = lines_behind(&self.past, core.journal())?;
        match text_of(alloc, &flights, &core, behind, &self.asked) {
            Ok(text) => Ok(text),
            Err(_) => Err(DeskFault::Memory),
        }
    }
}

/// How many lines stand ahead, where only changes are told.
#[tactic(auto, using(crate::proofs::Answering::no_past, crate::proofs::Answering::is_behind, crate::proofs::Answering::is_not_behind, crate::proofs::Answering::not_of_input))]
fn lines_behind(past: &Option<Past<'_>>, journal: &[Entry]) -> Result<Option<usize>, DeskFault>
    ensures behind { IfOk result (λ n. IsBehind past.now journal.now n) }
    ensures fault { IfErr result (IsNotBehind past.now journal.now) }
    ensures kind { IfErr result (λ f. (f ≢ DeskFault.Device) × (f ≢ DeskFault.TooLarge)) }
{
    match past {
        Some(past) => {
            let lines = past_of(past, journal)?;
            Ok(Some(lines))
        }
        None => Ok(None),
    }
}

fn text_of(
    alloc: Global,
    flights: &Flights,
    core: &Core,
    behind: Option<usize>,
    asked: &Asked<'_>,
) -> Result<Vec<u8>, Memory>
    requires grid { IsGridOf flights.now core.now.grid }
    requires capped { core.now.cap ≤ most_lines }
    requires within { IfSome behind (λ n. n ≤ length core.now.journal) }
    ensures { IfOk result (λ text. IsText (λ n. IsMessageLine) 0
        (told behind asked.now flights.now core.now.grid core.now.journal) text.items) }
{
    let served = match Served::new(alloc, flights) {
        Ok(served) => served,
        Err(_) => return Err(Memory),
    };
    let all = told(alloc, flights, &served, core, behind, asked)?;
    let mut text = Vec::new(alloc);
    put_messages(&mut text, all.as_slice())?;
    Ok(text)
}

/// The messages that are told.
#[tactic(auto, using(crate::proofs::Answering::within_some, crate::proofs::Answering::all_told, crate::proofs::Answering::some_told))]
fn told(
    alloc: Global,
    flights: &Flights,
    served: &Served<'_>,
    core: &Core,
    behind: Option<usize>,
    asked: &Asked<'_>,
) -> Result<Vec<Message>, Memory>
    requires grid { IsGridOf flights.now core.now.grid }
    requires served { served.now ≡ flights.now }
    requires capped { core.now.cap ≤ most_lines }
    requires within { IfSome behind (λ n. n ≤ length core.now.journal) }
    ensures { IfOk result (λ all. all.items ≡ told behind asked.now flights.now core.now.grid core.now.journal) }
{
    match behind {
        Some(lines) => told_behind(alloc, flights, served, core, lines, asked),
        None => Ok(messages(alloc, flights, served, core, asked)?),
    }
}

/// Those that changed behind so many lines.
#[tactic(auto, using(seat_desk::proofs::After::grid_kept, crate::proofs::Answering::changed_behind))]
fn told_behind(
    alloc: Global,
    flights: &Flights,
    served: &Served<'_>,
    core: &Core,
    lines: usize,
    asked: &Asked<'_>,
) -> Result<Vec<Message>, Memory>
    requires grid { IsGridOf flights.now core.now.grid }
    requires served { served.now ≡ flights.now }
    requires capped { core.now.cap ≤ most_lines }
    requires within { lines ≤ length core.now.journal }
    ensures { IfOk result (λ all. all.items ≡ told (Some lines) asked.now flights.now core.now.grid core.now.journal) }
{
    let past = first_lines(alloc, core, lines)?;
    let older = messages(alloc, flights, served, &past, asked)?;
    let newer = messages(alloc, flights, served, core, asked)?;
    Ok(changed(alloc, older.as_slice(), newer.as_slice())?)
}

/// The inventory as it was after its first lines. They are a legal history, and memory alone may be wanting.
fn first_lines(alloc: Global, core: &Core, lines: usize) -> Result<Core, Memory>
    requires within { lines ≤ length core.now.journal }
    ensures grid { IfOk result (λ past. past.grid ≡ core.now.grid) }
    ensures journal { IfOk result (λ past. past.journal ≡ take lines core.now.journal) }
    ensures capped { IfOk result (λ past. past.cap ≡ most_lines) }
{
    let journal = core.journal();
    let grid = core.grid().copy(alloc)?;
    let opened = Core::new(alloc, grid, MOST_LINES)?;
    match replay_entries(alloc, opened, &journal[..lines]) {
        Ok(past) => Ok(past),
        Err(_) => Err(Memory),
    }
}
