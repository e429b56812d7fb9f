//! An open journal of ten lines, worked by hand, what is found in its beginnings, and inventories of one class.
use airline_base::{Class, Place};
use seat_journal::{Entry, read_journal};
use seat_nesting::{Grid, Ladder, Step};
use seat_recovery::{Recovered, RecoveryFault, recover};
use seat_serving::Asked;
use std::alloc::Global;

/// Why a test failed, or what it was refused.
#[derive(Clone, Copy, Debug)]
pub enum Why {
    /// The file failed.
    Device,
    /// A growth was refused.
    Memory,
    Journal,
    Requests,
    Lines,
    Viewer,
}

pub const LEG: Place = Place {
    flight: 0,
    from: 0,
    to: 0,
};

/// Where the head and each line of the text end.
const ENDS: [usize; 11] = [14, 45, 76, 107, 153, 184, 223, 248, 279, 325, 357];

/// On one leg with three seats of Y, for which two more may wait. Two are held, two more are refused, two wait, and where
/// one of the two is given back the two that wait are confirmed. One more waits, and is confirmed where the limit is four.
/// The class is opened, as it is. Two wait, and are confirmed where two are given back; three of them can't be.
pub fn whole() -> &'static [u8] {
    b"SEATJOURNAL 2
1 1 1 A00001 0.0.0 Y NN 2 KK 0
2 2 1 B00001 0.0.0 Y NN 2 UC 0
3 2 2 B00002 0.0.0 Y LL 2 HL 0
4 1 2 A00001 0.0.0 Y XX 1 HX 1 KL:3:0.0.0:Y:2
5 3 1 C00003 0.0.0 Y SS 1 US 0
6 0 1 AU 0.0 Y 4 2 OK 0 KL:5:0.0.0:Y:1
7 0 2 V3 ST 0.0 Y O OK 0
8 4 1 D00004 0.0.0 Y LL 2 HL 0
9 2 3 B00002 0.0.0 Y XX 2 HX 2 KL:8:0.0.0:Y:2
10 4 2 D00004 0.0.0 Y XX 3 NO 0
END 10
"
}

/// The text's bytes from one place to another. Its open lines end ahead of the last seven.
pub fn part(from: usize, to: usize) -> &'static [u8] {
    match whole().get(from..to) {
        Some(bytes) => bytes,
        None => b"no such part",
    }
}

/// Where so many lines end.
pub fn end_of(lines: usize) -> usize {
    if lines < ENDS.len() { ENDS[lines] } else { 0 }
}

/// How many lines the first `len` bytes have, whole, and where the last of them ends; nothing where the head is torn.
pub fn kept(len: usize) -> (usize, usize) {
    let mut kept = (0, 0);
    for line in 0..ENDS.len() {
        let end = ENDS[line];
        if end <= len {
            kept = (line, end);
        }
    }
    kept
}

/// One leg with so many seats of Y, for which so many may wait.
pub fn grid_of(alloc: Global, limit: u16, wait: u16) -> Result<Grid, Why> {
    let Some(class) = Class::new(b'Y') else {
        return Err(Why::Journal);
    };
    let step = Step {
        class,
        limit,
        wait,
        listed: false,
        closed: false,
    };
    let Ok(ladder) = Ladder::new(&[step]) else {
        return Err(Why::Journal);
    };
    match Grid::single(alloc, ladder) {
        Ok(grid) => Ok(grid),
        Err(_) => Err(Why::Memory),
    }
}

/// What is recovered of these bytes over a grid, where a journal has at most so many lines.
pub fn recovered(
    alloc: Global,
    grid: Grid,
    cap: u32,
    file: &[u8],
) -> Result<Recovered, RecoveryFault> {
    if file.len() > 1_000_000 || cap > 999_999 {
        return Err(RecoveryFault::Memory);
    }
    recover(alloc, grid, cap, file)
}

/// What a journal's text asks for.
pub fn requests_of(alloc: Global, text: &[u8]) -> Result<Vec<Asked>, Why> {
    if text.len() > 65_536 {
        return Err(Why::Journal);
    }
    let Ok(lines) = read_journal(alloc, text) else {
        return Err(Why::Memory);
    };
    asked_by(alloc, lines.as_slice())
}

fn asked_by(alloc: Global, lines: &[Entry]) -> Result<Vec<Asked>, Why> {
    let mut asked = Vec::new(alloc);
    for at in 0..lines.len() {
        let line = &lines[at];
        let request = Asked {
            session: line.session,
            work: line.work,
        };
        let Ok(()) = asked.push(request) else {
            return Err(Why::Memory);
        };
    }
    Ok(asked)
}
