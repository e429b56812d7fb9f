//! The threads of a desk: one reads its lines, one writes what it is told, and one writes a host's mark. What the first runs is here, and who starts it is above.
ghost use Rattle.std.specs.Prelude.{◌≡◌, ◌≤◌, IfOk, IfSome, length, map, OnOk, vec_capacity};
ghost use Rattle.desk_pipes.specs.Cutting.{lines_cut, rest_cut};
ghost use Rattle.desk_pipes.specs.Answering.{is_answered};

use crate::cutting::{HeldLine, cut_lines};
use crate::holding::{MOST_AHEAD, PIECE, Reached, reach};
use crate::inbox::Said;
use crate::mark::{Ahead, Mark};
use crate::outbox::Outbox;
use crate::post::Post;
use crate::watch::{Outcome, Passed, Watch};
use airline_base::Memory;
use std::alloc::Global;
use std::io::{Read, Write};
use std::sync::{Arc, Wait};
use std::thread::Threads;
use std::{io, thread};

/// Starts the thread that writes what a session's desk is told. It ends with the host, or where its pipe fails, and nobody waits for it.
pub fn start_writer<R: Threads + Wait + Copy + Send + 'static, O: Write + Send + Drop + 'static>(
    rt: &R,
    alloc: Global,
    post: &Arc<Post, Global>,
    session: u8,
    out: O,
) -> Result<(), Memory> {
    let own = *rt;
    let theirs = Arc::try_clone(post)?;
    if let Some(outbox) = post.outbox(session) {
        outbox.begin_writing(rt);
    }
    if thread::spawn(rt, move || write_there(own, alloc, theirs, session, out)).is_err() {
        return Err(Memory);
    }
    Ok(())
}

// A pipe that fails ends its thread alone.
fn write_there<R: Wait + Drop, O: Write + Drop>(
    rt: R,
    alloc: Global,
    post: Arc<Post, Global>,
    session: u8,
    out: O,
) {
    let mut out = out;
    if let Some(outbox) = post.outbox(session) {
        let _ = write_desk(&rt, alloc, &post, outbox, &mut out);
        outbox.end_writing(&rt);
    }
}

/// Writes a host's mark to a pipe that it reads, on a thread of its own, since a full pipe keeps it waiting.
pub fn mark_pipe<R: Threads, O: Write + Send + Drop + 'static>(
    rt: &R,
    mark: Mark,
    pipe: O,
) -> Result<(), Memory> {
    if thread::spawn(rt, move || mark_there(mark, pipe)).is_err() {
        return Err(Memory);
    }
    Ok(())
}

fn mark_there<O: Write + Drop>(mark: Mark, pipe: O) {
    let mut pipe = pipe;
    let _ = pipe.write_all(mark.as_slice());
}

/// What a desk's reader needs: all room is taken ahead of its thread, so that want of memory ends no reader which nobody waits for.
#[derive(Drop)]
pub struct Reading {
    progress: Progress,
    mark: Option<Mark>,
    /// Room for what stands ahead of the mark, where there is one.
    held: Vec<u8>,
}

// How far a desk's reader is: the line that has not ended, room for the lines of a piece, what it has seen of a mark, and how many lines it answered.
#[derive(Drop)]
struct Progress {
    session: u8,
    line: HeldLine,
    lines: Vec<HeldLine>,
    ahead: Option<Ahead>,
    passed: Passed,
}

impl Reading {
    /// Nothing of a session's pipe is read yet. A mark may be written to it.
    pub fn new(alloc: Global, session: u8, mark: Option<Mark>) -> Result<Reading, Memory>
        ensures mark { IfOk result (λ it. it.mark ≡ mark) }
        ensures session { IfOk result (λ it. it.progress.session ≡ session) }
        ensures lines { IfOk result (λ it. 512 ≤ vec_capacity it.progress.lines) }
        ensures held { IfSome mark (λ m. IfOk result (λ it. 2097152 ≤ vec_capacity it.held)) }
    {
        let held = match mark {
            Some(_) => Vec::with_capacity(alloc, MOST_AHEAD)?,
            None => Vec::new(alloc),
        };
        let progress = Progress {
            session,
            line: HeldLine::new(),
            lines: Vec::with_capacity(alloc, PIECE)?,
            ahead: mark.map(Ahead::of),
            passed: Passed::none(),
        };
        Ok(Reading {
            progress,
            mark,
            held,
        })
    }
}

/// Reads a session's lines, up to the end of what there is to read, or of the host. Each waits for the host, unless it is answered here.
/// Where there is a mark, no line is heard ahead of it: a client that has its READY writes behind the mark, which so stands in the midst of none of its
/// lines. The lines ahead of it are earlier ones, and wait; nothing behind it is heard until they are answered.
pub fn read_desk<R: Wait, I: Read, W: Watch>(
    rt: &R,
    reading: Reading,
    post: &Post,
    input: &mut I,
    watch: &mut W,
) -> io::Result<()> {
    let Reading {
        progress,
        mark,
        held,
    } = reading;
    let mut progress = progress;
    let mut held = held;
    let reached = reach(rt, mark, &mut held, input)?;
    for piece in held.as_slice().chunks(PIECE) {
        if !hear_piece(rt, &reached, post, watch, &mut progress, piece)? {
            return Ok(());
        }
    }
    drop(held);
    hear_on(rt, &reached, post, watch, &mut progress, input)
}

// Reads on, piece by piece.
fn hear_on<R: Wait, I: Read, W: Watch>(
    rt: &R,
    reached: &Reached,
    post: &Post,
    watch: &mut W,
    progress: &mut Progress,
    input: &mut I,
) -> io::Result<()> {
    let mut piece = [0u8; PIECE];
    for _ in rt.forever() {
        let n = input.read(&mut piece)?;
        if n == 0 || !hear_piece(rt, reached, post, watch, progress, &piece[..n])? {
            return Ok(());
        }
    }
    unreachable!()
}

// Hears the lines that end in a piece of a pipe that was read up to its mark. Whether more may come.
fn hear_piece<R: Wait, W: Watch>(
    rt: &R,
    _reached: &Reached,
    post: &Post,
    watch: &mut W,
    progress: &mut Progress,
    piece: &[u8],
) -> io::Result<bool> {
    let count = pass(&mut progress.ahead, piece);
    cut(&mut progress.line, &piece[..count], &mut progress.lines)?;
    let is_open = say_earlier(
        rt,
        post,
        progress.session,
        progress.ahead.as_ref(),
        watch,
        &mut progress.passed,
        &mut progress.lines,
    );
    if progress.ahead.is_some_and(|it| it.is_over()) {
        post.inbox.settle(rt, progress.session);
        progress.ahead = None;
    }
    cut(&mut progress.line, &piece[count..], &mut progress.lines)?;
    Ok(
        is_open
            && say_lines(
                rt,
                post,
                progress.session,
                watch,
                &mut progress.passed,
                &mut progress.lines,
            ),
    )
}

// How many bytes of a piece are ahead of the mark.
fn pass(ahead: &mut Option<Ahead>, piece: &[u8]) -> usize
    ensures within { result ≤ length piece.now }
{
    match ahead {
        Some(ahead) => ahead.pass(piece),
        None => 0,
    }
}

// The lines that end in a piece.
fn cut(line: &mut HeldLine, piece: &[u8], lines: &mut Vec<HeldLine>) -> io::Result<()>
    ensures lines { OnOk result (map (λ l. l.items) lines.new.items ≡ lines_cut line.old.items piece.now) }
    ensures rest { OnOk result (line.new.items ≡ rest_cut line.old.items piece.now) }
{
    lines.clear();
    if lines.capacity() < piece.len() {
        return Err(io::ErrorKind::Other.into());
    }
    cut_lines(line, piece, lines);
    Ok(())
}

// Lets lines that stand ahead of a host's mark wait for the host, the mark apart. Whether more may come.
fn say_earlier<R: Wait, W: Watch>(
    rt: &R,
    post: &Post,
    session: u8,
    ahead: Option<&Ahead>,
    watch: &mut W,
    passed: &mut Passed,
    lines: &mut Vec<HeldLine>,
) -> bool {
    for line in lines.drain(..) {
        if ahead.is_some_and(|it| it.is_mark(line.as_slice())) {
            continue;
        }
        let (today, _) = post.outlook(rt);
        let is_awaited = watch.pass(today, line.as_slice());
        if !say(rt, post, passed.hand_on(session, line, true, false)) {
            return false;
        }
        if is_awaited {
            post.inbox.settle(rt, session);
        }
    }
    true
}

// Lets lines wait for the host that are not answered here. Whether more may come.
fn say_lines<R: Wait, W: Watch>(
    rt: &R,
    post: &Post,
    session: u8,
    watch: &mut W,
    passed: &mut Passed,
    lines: &mut Vec<HeldLine>,
) -> bool {
    for line in lines.drain(..) {
        let outcome = post.watch_line(rt, session, watch, line.as_slice());
        if !say(
            rt,
            post,
            passed.hand_on(session, line, false, is_answered(&outcome)),
        ) {
            return false;
        }
        if let Outcome::HandedAlone = outcome {
            post.inbox.settle(rt, session);
        }
    }
    true
}

// Whether a line is answered where it was read.
fn is_answered(outcome: &Outcome) -> bool
    ensures { result ≡ is_answered outcome.now }
{
    match outcome {
        Outcome::Answered(_) => true,
        Outcome::Handed => false,
        Outcome::HandedAlone => false,
    }
}

// Lets a line wait for the host, where there is one. Whether more may come.
fn say<R: Wait>(rt: &R, post: &Post, said: Option<Said>) -> bool {
    match said {
        Some(said) => post.inbox.say(rt, said),
        None => true,
    }
}

/// Writes what a desk is told, as it comes, up to the host's end. Ahead of it stands a line that spoils what another host left in the
/// midst of a line. Where it makes room that the host waits for, the host goes on.
pub fn write_desk<R: Wait, W: Write>(
    rt: &R,
    alloc: Global,
    post: &Post,
    outbox: &Outbox,
    out: &mut W,
) -> io::Result<()> {
    out.write_all(b"!\n")?;
    let mut text = Vec::new(alloc);
    for _ in rt.forever() {
        if outbox.take(rt, &mut text) {
            post.inbox.wake(rt);
        }
        if text.is_empty() {
            return Ok(());
        }
        out.write_all(text.as_slice())?;
        outbox.written(rt);
    }
    unreachable!()
}
