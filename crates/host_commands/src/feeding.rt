//! `serve` of one stream of lines for all desks, on standard input and standard output.
//! It knows which stream is which, and nothing of what a line means.
ghost use Rattle.std.specs.Prelude.{IfOk};
ghost use Rattle.airline_base.specs.Days.{IsCenturyDay};
ghost use Rattle.seat_restoring.specs.Dating.{IsNotEarlier};

use crate::stating::{Status, interval_asked};
use airline_base::{Counted, Day, Memory};
use desk_serving::{AheadReader, feed_day, first_line, has_fewer, needs_day, read_ahead};
use desk_status::{Board, start_status};
use seat_desk::DeskFault;
use seat_files::{Refusal, standard_input};
use seat_seal::Beside;
use seat_words::{ServeJob, WordFault, behind_word};
use std::alloc::Global;
use std::sync::{Arc, Wait};
use std::thread::Threads;
use std::time::{Clock, Duration};

/// The sessions of a feed.
const SESSIONS: u8 = 8;

/// A feed that is asked for.
#[derive(Drop)]
pub struct Fed {
    /// Behind how many lines of the journal it begins.
    pub behind: u32,
    /// How often its host says its status.
    pub every: Duration,
    /// Where it says it, if it does.
    pub status: Option<Status>,
}

/// A feed, and standard input, which is read ahead of what is answered.
#[derive(Drop)]
pub struct Stream<R> {
    pub fed: Fed,
    pub input: Counted<AheadReader<R>>,
}

/// The feed, where one is asked for. It stands beside no desk, and has its days in it.
pub fn feed_asked(asked: &ServeJob<'_>) -> Result<Option<Fed>, Refusal> {
    let Some(feed) = asked.feed else {
        return match asked.behind {
            Some(_) => Err(Refusal::from(WordFault::BadBehind)),
            None => Ok(None),
        };
    };
    if feed != "-" {
        return Err(Refusal::unfit(feed, "Is not -, which a feed comes from"));
    }
    if !asked.desks.as_slice().is_empty() || asked.manager.is_some() {
        return Err(Refusal::unfit("--feed", "Stands beside a desk or a manager"));
    }
    if asked.today.is_some() {
        return Err(Refusal::from(WordFault::BadToday));
    }
    let behind = behind_asked(asked)?;
    let every = interval_asked(asked.every)?;
    Ok(Some(Fed {
        behind,
        every,
        status: None,
    }))
}

/// Behind how many lines of the journal it begins.
fn behind_asked(asked: &ServeJob<'_>) -> Result<u32, Refusal> {
    let Some(word) = asked.behind else {
        return Ok(0);
    };
    match behind_word(word) {
        Some(behind) => Ok(behind),
        None => Err(Refusal::from(WordFault::BadBehind)),
    }
}

/// The feed over a journal with these bytes, and the day on which its host begins: its first line must be one where the seal knows none.
pub fn stream_dated<R: Threads + Wait + Copy + Send + 'static>(
    rt: &HostRuntime,
    waits: &R,
    fed: Fed,
    seal: &Beside<'_>,
    bytes: &[u8],
) -> Result<(Day, Stream<R>), Refusal>
    ensures century { IfOk result (λ r. IsCenturyDay r.0) }
    ensures later { IfOk result (λ r. IsNotEarlier seal.now bytes.now r.0) }
{
    if has_fewer(bytes, fed.behind) {
        return Err(Refusal::from(WordFault::BadBehind));
    }
    let Ok(reader) = read_ahead(waits, rt.alloc(), standard_input(rt)) else {
        return Err(Refusal::from(DeskFault::Memory));
    };
    let line = first_line(&reader, needs_day(seal, bytes));
    let Some(today) = feed_day(seal, bytes, &line) else {
        return Err(Refusal::from(WordFault::BadToday));
    };
    let input = Counted::new(reader);
    Ok((today, Stream { fed, input }))
}

/// The board on which a feed's host shows what it has come to, and who says it, where somebody does.
pub fn board_shown<R: Threads + Wait + Clock + Copy + Send + 'static>(
    waits: &R,
    alloc: Global,
    status: Option<Status>,
    every: Duration,
) -> Result<Arc<Board, Global>, Memory> {
    let board = Arc::new(alloc, Board::new(SESSIONS))?;
    if let Some(status) = status {
        start_status(waits, &board, every, status)?;
    }
    Ok(board)
}
