//! Desks and a manager on pipes: which words name them, their files, and the threads that read and write them.
//! It knows which pipe is whose, and nothing of what goes over it.
ghost use Rattle.std.specs.Prelude.{◌≤◌, IfSome};

use crate::stating::{Status, interval_asked};
use airline_base::Memory;
use desk_looks::{Gallery, start_reader};
use desk_pipes::{
    Mark, Outlook, PipeId, Post, Role, Unopened, mark_pipe, open_pipe, pass_pair, start_writer,
};
use desk_status::{Board, start_status};
use seat_desk::DeskFault;
use seat_files::Refusal;
use seat_words::{ServeJob, has_number, pipes_of, session_file, sessions_of};
use std::alloc::Global;
use std::fs::File;
use std::io;
use std::random::RandomSource;
use std::sync::{Arc, Wait};
use std::thread::Threads;
use std::time::{Clock, Duration};

/// As many desks as a host has.
const MOST_DESKS: u8 = 8;

/// The session of the manager.
const MANAGER: u8 = 0;

/// The two pipes of a session's desk, each locked as long as it is open.
#[derive(Drop)]
struct Pair {
    session: u8,
    input: File,
    out: File,
}

/// The pipes of all desks and of the manager, the first, and the mark of this host, which goes to what the manager is read from.
#[derive(Drop)]
pub struct Pipes {
    pairs: Vec<Pair>,
    mark: Mark,
    marked: File,
    /// How often the host says its status.
    every: Duration,
    /// Whether a later day of the manager's closes what departed before it.
    pub closes_departed: bool,
    /// Where it says it, if it does.
    pub status: Option<Status>,
}

/// What a host and its threads share.
#[derive(Drop)]
pub struct Shared {
    pub post: Arc<Post, Global>,
    pub board: Arc<Board, Global>,
}

/// The pipes that the words name, open, or none for a desk on standard input and standard output.
pub fn desks_named(rt: &HostRuntime, asked: &ServeJob<'_>) -> Result<Option<Pipes>, Refusal> {
    if asked.desks.as_slice().is_empty() {
        return Err(Refusal::unfit("--desk", "Is missing"));
    }
    let every = interval_asked(asked.every)?;
    let Some(manager) = asked.manager else {
        if is_standard(asked.desks.as_slice()) {
            return unstated(asked);
        }
        return Err(Refusal::unfit("--manager", "Is missing, whom desks on pipes need"));
    };
    pipes_named(
        rt,
        asked.desks.as_slice(),
        manager,
        every,
        asked.closes_departed,
    )
}

/// A desk on standard input and standard output has no status beside it.
fn unstated(asked: &ServeJob<'_>) -> Result<Option<Pipes>, Refusal> {
    match asked.status.or(asked.every) {
        Some(word) => Err(Refusal::unsaid(word, "Is for desks on pipes and for feeds alone")),
        None => Ok(None),
    }
}

/// The same where there is a manager.
fn pipes_named<'a>(
    rt: &HostRuntime,
    desks: &[&'a str],
    manager: &'a str,
    every: Duration,
    closes_departed: bool,
) -> Result<Option<Pipes>, Refusal> {
    let Some(count) = sessions_named(desks) else {
        return Err(misnamed(desks));
    };
    let mut pairs = Vec::new(rt.alloc());
    let mut taken = Vec::new(rt.alloc());
    add_pair(rt, &mut pairs, &mut taken, MANAGER, manager)?;
    for place in 0..count {
        if let Some(word) = session_file(desks, place + 1) {
            add_pair(rt, &mut pairs, &mut taken, place as u8 + 1, word)?;
        }
    }
    let marked = match pairs.first() {
        Some(office) => of_pipe(manager, office.input.try_clone())?,
        None => return Err(Refusal::unfit("--manager", "Is missing")),
    };
    let mut drawn = [0; 8];
    of_pipe(manager, rt.fill_bytes(&mut drawn))?;
    Ok(Some(Pipes {
        pairs,
        mark: Mark::of(drawn),
        marked,
        every,
        closes_departed,
        status: None,
    }))
}

/// How many sessions the words name. Each has the number of its own.
fn sessions_named(desks: &[&str]) -> Option<usize>
    ensures few { IfSome result (λ n. n ≤ 8) }
{
    for word in desks {
        if !has_number(word) {
            return None;
        }
    }
    sessions_of(desks)
}

/// Which of the words names no session, or one that is named ahead of it, and why.
fn misnamed(desks: &[&str]) -> Refusal {
    if desks.len() > usize::from(MOST_DESKS) {
        return Refusal::unfit("--desk", "Stands more than eight times");
    }
    for place in 0..desks.len() {
        let word = desks[place];
        if sessions_named(&[word]).is_none() {
            return Refusal::unfit(
                word,
                "Has no session of 1 to 8 ahead of two pipes, as 1=IN:OUT",
            );
        }
        if is_named_ahead(&desks[..place], word) {
            return Refusal::unfit(word, "Its session is named twice");
        }
    }
    Refusal::unfit("--desk", "Names no sessions")
}

/// Whether one of the words ahead has the session of this one.
fn is_named_ahead(ahead: &[&str], word: &str) -> bool {
    ahead
        .iter()
        .any(|other| sessions_named(&[*other, word]).is_none())
}

fn of_pipe<T>(word: &str, answer: io::Result<T>) -> Result<T, Refusal> {
    match answer {
        Ok(it) => Ok(it),
        Err(error) => Err(Refusal::unopened(word, &error)),
    }
}

fn is_standard(desks: &[&str]) -> bool {
    match desks {
        [desk] => *desk == "-",
        _ => false,
    }
}

fn add_pair(
    rt: &HostRuntime,
    pairs: &mut Vec<Pair>,
    taken: &mut Vec<PipeId>,
    session: u8,
    word: &str,
) -> Result<(), Refusal> {
    let Some((heard, told)) = pipes_of(word) else {
        return Err(Refusal::unfit(word, "Names no two pipes, as IN:OUT"));
    };
    let input = opened(rt, heard, Role::Input, taken)?;
    let out = opened(rt, told, Role::Output, taken)?;
    fit(heard, pass_pair(&input, &out))?;
    let pair = Pair {
        session,
        input,
        out,
    };
    if pairs.push(pair).is_err() {
        return Err(Refusal::from(DeskFault::Memory));
    }
    Ok(())
}

/// A pipe of the host's own, or why it may be none.
fn opened(
    rt: &HostRuntime,
    path: &str,
    role: Role,
    taken: &mut Vec<PipeId>,
) -> Result<File, Refusal> {
    fit(path, open_pipe(rt, path, role, taken))
}

fn fit<T>(path: &str, answer: Result<T, Unopened>) -> Result<T, Refusal> {
    match answer {
        Ok(it) => Ok(it),
        Err(Unopened::Unfit(fault)) => Err(Refusal::unfit(path, fault.why())),
        Err(Unopened::Failed(error)) => Err(Refusal::unopened(path, &error)),
    }
}

/// The inbox and the outboxes, with two threads for each desk, of which one answers its looks, and the board, with one where the status is said.
pub fn started<R: Threads + Wait + Clock + Copy + Send + 'static>(
    threads: &R,
    alloc: Global,
    pipes: Pipes,
    outlook: Outlook,
    gallery: Gallery,
) -> Result<Shared, Memory> {
    let Pipes {
        pairs,
        mark,
        marked,
        every,
        status,
        closes_departed: _,
    } = pipes;
    let board = Arc::new(alloc, Board::new(desks_of(&pairs)))?;
    if let Some(status) = status {
        start_status(threads, &board, every, status)?;
    }
    let post = post_started(threads, alloc, pairs, mark, marked, outlook, gallery)?;
    Ok(Shared { post, board })
}

/// How many desks have these pipes, of which one pair is the manager's.
fn desks_of(pairs: &[Pair]) -> u8 {
    match u8::try_from(pairs.len().saturating_sub(1)) {
        Ok(count) => count,
        Err(_) => MOST_DESKS,
    }
}

fn post_started<R: Threads + Wait + Copy + Send + 'static>(
    threads: &R,
    alloc: Global,
    pairs: Vec<Pair>,
    mark: Mark,
    marked: File,
    outlook: Outlook,
    gallery: Gallery,
) -> Result<Arc<Post, Global>, Memory> {
    let post = Arc::new(alloc, Post::new(alloc, MOST_DESKS, outlook)?)?;
    let mut gallery = gallery;
    mark_pipe(threads, mark, marked)?;
    for pair in pairs {
        let Pair {
            session,
            input,
            out,
        } = pair;
        let ahead = if session == MANAGER { Some(mark) } else { None };
        start_writer(threads, alloc, &post, session, out)?;
        let looks = gallery.next()?;
        start_reader(threads, alloc, &post, session, ahead, input, looks)?;
    }
    Ok(post)
}
