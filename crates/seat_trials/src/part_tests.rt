//! Journals, legal and spoilt by lot, replayed in order, flight by flight and in parts: each way gives the same inventory
//! or the same fault.
ghost use Rattle.std.specs.Prelude.{◌≡◌, [], IfSome};

use crate::limits::grid;
use crate::lots::Lots;
use airline_base::{Class, Place};
use seat_core::{Core, replay};
use seat_journal::{Entries, Entry, read_journal};
use seat_nesting::Grid;
use seat_replay::{audit_in_parts, replay_by_flight, replay_in_parts};
use seat_rules::{ReplayFault, ReplayKind, Totals, may_ask};
use std::alloc::Global;
use std::test::Fail;
use std::thread::{Threads, available_parallelism};

/// So many lines are drawn by lot, and so many journals are made of them.
const LINES: u32 = 400;

const JOURNALS: u32 = 240;

/// How many journals must be right, and how many must have each fault.
const LEAST: [u32; 7] = [20, 3, 3, 3, 3, 3, 3];

/// What is asked for by lot, and behind it lines that ask for what may not be. Their other fields are those that a line is spoilt by.
const ASKED: &[u8] = b"SEATJOURNAL 2
1 1 1 A00001 0.0.0 Y NN 2 KK 1 KL:1:0.0.0:Y:2
2 2 2 B00002 0.0.0 Y LL 2 HL 2
3 3 1 C00003 0.0.0 M SS 1 US 3
4 4 9 A00001 0.0.0 Y XX 1 HX 4 KL:2:0.0.0:Y:2
5 5 2 B00002 0.0.0 Y XX 2 HX 0
6 6 3 C00003 0.0.0 M XX 1 HX 1 KL:7:0.0.0:M:1 KL:9:0.0.0:Y:1
7 7 1 A00001 1.0.1 Y NN 3 UU 2
8 8 4 B00002 1.0.0 M SS 3 KK 3 KL:7:1.0.1:Y:3
9 1 2 C00003 1.1.1 M LL 1 HL 4
10 2 7 D00004 1.0.1 M NN 1 UC 0
11 3 1 A00001 1.0.1 Y XX 2 HX 1 KL:4:1.1.1:M:1
12 4 5 B00002 1.0.0 M XX 3 HX 2
13 5 2 C00003 1.1.1 M XX 1 HX 3 KL:9:1.0.0:M:1 KL:10:1.0.1:M:1
14 6 6 A00001 2.0.2 Y SS 4 US 4
15 7 3 B00002 2.0.1 Y NN 5 KK 0 KL:14:2.0.2:Y:4
16 8 8 C00003 2.1.2 M LL 2 HL 1
17 1 1 D00004 2.2.2 M NN 2 KK 2
18 2 4 A00001 2.0.2 Y XX 1 HX 3 KL:16:2.1.2:M:2
19 3 2 B00002 2.0.1 Y XX 5 HX 4
20 4 3 C00003 2.1.2 M XX 1 HX 0 KL:2:2.1.2:M:2
21 5 1 A00001 3.0.1 Y NN 9 KK 1
22 6 5 B00002 3.1.1 Y LL 2 HL 2 KL:1:0.0.0:Y:2
23 7 2 A00001 3.0.1 Y XX 3 HX 3 KL:21:3.0.1:Y:9
24 8 1 E00005 - Y NN 1 NO 4 KL:4294967295:3.0.0:Q:65535
25 1 9 E00005 3.0.0 Q ZZ 1 UC 0
26 0 1 AU 0.0 Y 4 8 OK 1
27 0 2 AU 0.0 Y 9 9 OK 2 KL:2:0.0.0:Y:2
28 0 3 AU 1.1 M 0 5 NO 3
29 0 4 AU 2.1 M 5 20 OK 4 KL:16:2.1.2:M:2
30 0 5 V3 ST 2.2 M C OK 0
31 0 6 V3 ST 2.2 * O OK 1 KL:17:2.2.2:M:2
32 0 7 V3 ST 1.0 M C OK 2
33 0 8 V3 ST 1.0 M O OK 3
34 9 1 A00001 9.0.0 Y NN 2 KK 4 KL:1:9.0.0:Y:2
35 0 1 A00001 0.0.0 Y NN 0 KK 0
36 1 0 AU 9.0 Y 4 8 OK 1 KL:1:0.0.0:Y:1
37 2 1 V3 ST 0.5 * O OK 2
END 37
";

/// How many of these lines may stand in a history.
const RIGHT: u32 = 33;

fn lines_of(alloc: Global, text: &[u8]) -> Option<Entries> {
    if text.len() > 65_536 {
        return None;
    }
    match read_journal(alloc, text) {
        Ok(lines) => Some(lines),
        Err(_) => None,
    }
}

/// An inventory without lines.
fn fresh(alloc: Global, limits: &Grid, cap: u32) -> Option<Core>
    ensures { IfSome result (λ core. core.journal ≡ []) }
{
    let Ok(grid) = limits.copy(alloc) else {
        return None;
    };
    if cap > 999_999 {
        return None;
    }
    match Core::new(alloc, grid, cap) {
        Ok(core) => Some(core),
        Err(_) => None,
    }
}

/// Answers what a line asks for as the next line; false where it can't.
fn step(core: &mut Core, alloc: Global, line: &Entry) -> bool {
    if !may_ask(line.session, &line.work) || !core.fits_work(&line.work) {
        return false;
    }
    let call = core.calls_of(line.session) + 1;
    match core.step(alloc, line.session, call, line.work) {
        Ok(_) => true,
        Err(_) => false,
    }
}

/// A legal history of lines that are drawn by lot.
fn history(alloc: Global, limits: &Grid, asked: &[Entry]) -> Option<Core> {
    let Some(mut core) = fresh(alloc, limits, LINES) else {
        return None;
    };
    let mut lots = Lots::new(40);
    for _ in 0..LINES {
        let at = lots.below(RIGHT) as usize;
        if at >= asked.len() || !step(&mut core, alloc, &asked[at]) {
            return None;
        }
    }
    Some(core)
}

/// The first lines.
fn front(alloc: Global, lines: &[Entry], count: usize) -> Option<Vec<Entry>> {
    let mut front = Vec::new(alloc);
    for line in lines.get(..count).unwrap_or(lines) {
        let Ok(copy) = line.copy(alloc) else {
            return None;
        };
        let Ok(()) = front.push(copy) else {
            return None;
        };
    }
    Some(front)
}

/// Turns a field of an entry into that of another.
fn turn(field: u32, entry: &mut Entry, other: Entry) {
    match field {
        0 => entry.number = other.number,
        1 => entry.session = other.session,
        2 => entry.call = other.call,
        3 => entry.reply = other.reply,
        4 | 5 => entry.released = other.released,
        6 | 7 | 8 => entry.advices = other.advices,
        _ => entry.work = other.work,
    }
}

/// Spoils one line: it is lost, has the place of another, or a field of it is turned.
fn spoil(alloc: Global, lots: &mut Lots, lines: &mut Vec<Entry>, asked: &[Entry]) {
    let at = lots.below(LINES) as usize % lines.len().max(1);
    let other = if lots.below(3) == 0 {
        RIGHT + lots.below(4)
    } else {
        lots.below(RIGHT)
    } as usize;
    if at >= lines.len() || other >= asked.len() {
        return;
    }
    match lots.below(14) {
        12 => {
            let _ = lines.remove(at);
        }
        13 => lines.swap(at, 0),
        field => {
            if let Ok(copy) = asked[other].copy(alloc) {
                turn(field, &mut lines[at], copy);
            }
        }
    }
}

/// What an audit gives: the fault, and the number of the entry that has it, or 0 and what the lines come to.
type Given = [u64; 5];

fn fault_at(kind: ReplayKind) -> u64 {
    match kind {
        ReplayKind::BadNumber => 1,
        ReplayKind::BadCaller => 2,
        ReplayKind::BadCommand => 3,
        ReplayKind::OtherReply => 4,
        ReplayKind::OtherReleased => 5,
        ReplayKind::OtherAdvices => 6,
        ReplayKind::Memory => 7,
    }
}

fn of_audit(audited: Result<Totals, ReplayFault>) -> Given {
    match audited {
        Ok(t) => [0, 0, u64::from(t.lines), t.confirmed, t.released],
        Err(fault) => [fault_at(fault.kind), u64::from(fault.number), 0, 0, 0],
    }
}

/// The same of a replay, and what its inventory shows.
fn of_replay(replayed: Result<Core, ReplayFault>) -> (Given, u64) {
    match replayed {
        Ok(core) => (of_audit(Ok(core.totals())), shown(&core)),
        Err(fault) => (of_audit(Err(fault)), 0),
    }
}

/// The seats that are left in one of two classes on one of 36 places; 9999 where it is not there.
fn room(core: &Core, n: u32) -> u64 {
    let place = Place {
        flight: n / 18,
        from: (n / 6 % 3) as u8,
        to: (n / 2 % 3) as u8,
    };
    match Class::new(if n % 2 == 0 { b'Y' } else { b'M' }) {
        Some(class) if core.grid().fits(place) => u64::from(core.room(place, class)),
        _ => 9999,
    }
}

/// What calls show, as one number: rooms, and the calls of each session.
fn shown(core: &Core) -> u64 {
    let mut number = 0u64;
    for n in 0..72u32 {
        let calls = u64::from(core.calls_of((n % 9) as u8));
        number = number.wrapping_mul(1_000_003).wrapping_add(room(core, n));
        number = number.wrapping_mul(1_000_003).wrapping_add(calls);
    }
    number
}

fn processors<R: Threads>(rt: &R) -> usize {
    match available_parallelism(rt) {
        Ok(count) => count.get(),
        Err(_) => 1,
    }
}

/// Whether a replay in so many parts gives this, and an audit of it as much as it shows.
fn is_given<R: Threads + Sync>(
    rt: &R,
    alloc: Global,
    limits: &Grid,
    cap: u32,
    lines: &[Entry],
    parts: usize,
    want: &(Given, u64),
) -> bool {
    let Some(core) = fresh(alloc, limits, cap) else {
        return false;
    };
    if of_replay(replay_in_parts(rt, alloc, core, lines, parts)) != *want {
        return false;
    }
    let Some(core) = fresh(alloc, limits, cap) else {
        return false;
    };
    of_audit(audit_in_parts(rt, alloc, core, lines, parts)) == want.0
}

/// What a journal gives in order, where it gives the same flight by flight.
fn given(alloc: Global, limits: &Grid, cap: u32, lines: &[Entry]) -> Option<(Given, u64)> {
    let Some(core) = fresh(alloc, limits, cap) else {
        return None;
    };
    let want = of_replay(replay(alloc, core, lines));
    let Some(core) = fresh(alloc, limits, cap) else {
        return None;
    };
    if of_replay(replay_by_flight(alloc, core, lines)) == want {
        Some(want)
    } else {
        None
    }
}

/// The fault of a journal, where each way gives the same.
fn compare<R: Threads + Sync>(
    rt: &R,
    alloc: Global,
    limits: &Grid,
    cap: u32,
    lines: &[Entry],
) -> Option<usize> {
    let Some(want) = given(alloc, limits, cap, lines) else {
        return None;
    };
    for parts in [0, 1, 2, 3, processors(rt).saturating_add(3)] {
        if !is_given(rt, alloc, limits, cap, lines, parts, &want) {
            return None;
        }
    }
    Some(want.0[0] as usize)
}

/// One journal: the first lines of the history, of which some are spoilt, under a cap that is sometimes too small. The fault that it has.
fn try_one<R: Threads + Sync>(
    rt: &R,
    alloc: Global,
    limits: &Grid,
    lots: &mut Lots,
    history: &[Entry],
    asked: &[Entry],
) -> Option<usize> {
    let Some(mut lines) = front(alloc, history, lots.below(LINES) as usize) else {
        return None;
    };
    for _ in 0..lots.below(4) {
        spoil(alloc, lots, &mut lines, asked);
    }
    let cap = if lots.below(12) == 0 { 50 } else { LINES };
    compare(rt, alloc, limits, cap, &lines)
}

/// How often a journal was legal, and how often each fault came. None where two ways differ.
fn try_all<R: Threads + Sync>(rt: &R, alloc: Global) -> Option<[u32; 7]> {
    let (Some(limits), Some(asked)) = (grid(alloc), lines_of(alloc, ASKED)) else {
        return None;
    };
    let Some(core) = history(alloc, &limits, asked.as_slice()) else {
        return None;
    };
    let mut lots = Lots::new(41);
    let mut times = [0u32; 7];
    for _ in 0..JOURNALS {
        let fault = try_one(
            rt,
            alloc,
            &limits,
            &mut lots,
            core.journal(),
            asked.as_slice(),
        );
        match fault {
            Some(kind) if kind < 7 => times[kind] = times[kind].saturating_add(1),
            _ => return None,
        }
    }
    Some(times)
}

#[test]
fn each_way_gives_the_same(rt: HostRuntime) -> Result<(), Fail> {
    let times = try_all(&rt, rt.alloc()).ok_or("each way gives the same")?;
    for kind in 0..7 {
        assert!(rt; times[kind] >= LEAST[kind], "{times:?}");
    }
    Ok(())
}
