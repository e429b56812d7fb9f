//! The thread that reads a desk's lines, and answers its looks.

use crate::lookout::Lookout;
use crate::looks::Looks;
use crate::words::Words;
use airline_base::Memory;
use desk_lines::Desk;
use desk_pipes::{Mark, Post, Reading, read_desk};
use ssim_flights::Served;
use std::alloc::Global;
use std::io::Read;
use std::sync::{Arc, Wait};
use std::thread;
use std::thread::Threads;

/// No look asks which journal a client is for.
const NO_EPOCH: u32 = 0;

/// Starts the thread that reads a session's lines. It ends with the host, or where its pipe fails, and nobody waits for it: what it needs of memory is
/// taken here. Where the host's mark is written to what is read, the lines ahead of it are earlier ones, and none is heard ahead of it. Where memory is
/// wanting for an index of the flights, looks wait for the host too.
pub fn start_reader<R: Threads + Wait + Copy + Send + 'static, I: Read + Send + Drop + 'static>(
    rt: &R,
    alloc: Global,
    post: &Arc<Post>,
    session: u8,
    mark: Option<Mark>,
    input: I,
    looks: Option<Looks>,
) -> Result<(), Memory> {
    let own = *rt;
    let theirs = Arc::try_clone(post)?;
    let reading = Reading::new(alloc, session, mark)?;
    if thread::spawn(
        rt,
        move || read_there(own, alloc, theirs, reading, input, looks),
    )
    .is_err()
    {
        return Err(Memory);
    }
    Ok(())
}

// A pipe that fails ends its thread alone.
fn read_there<R: Wait + Drop, I: Read + Drop>(
    rt: R,
    alloc: Global,
    post: Arc<Post>,
    reading: Reading,
    input: I,
    looks: Option<Looks>,
) {
    let mut input = input;
    let Some(looks) = looks else {
        read_words(&rt, reading, &post, &mut input);
        return;
    };
    let (season, window) = looks.into_parts();
    let Ok(served) = Served::new(alloc, season.flights()) else {
        read_words(&rt, reading, &post, &mut input);
        return;
    };
    let (today, _) = post.outlook(&rt);
    let mut lookout = Lookout::new(
        alloc,
        &season,
        served,
        window,
        Desk::silent(today, NO_EPOCH),
    );
    let _ = read_desk(&rt, reading, &post, &mut input, &mut lookout);
}

// Where no look is answered.
fn read_words<R: Wait, I: Read>(rt: &R, reading: Reading, post: &Post, input: &mut I) {
    let (today, _) = post.outlook(rt);
    let mut words = Words::new(Desk::silent(today, NO_EPOCH));
    let _ = read_desk(rt, reading, post, input, &mut words);
}
