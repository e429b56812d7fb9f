//! Who is told the journal again, piece by piece: from which line on, and what a piece is.
//! It knows lines of a journal and whose they are, and nothing of who asks when, or of who takes a piece.
ghost use Rattle.std.specs.Prelude.{◌≡◌, drop, set, take, IfOk};
ghost use Rattle.desk_telling.specs.Telling.{AreTold};
ghost use Rattle.desk_hall.specs.Pieces.{again_asked, again_by, again_in, backlog_behind, backlog_of, lines_between, piece_end, told_between};

use crate::turn::Turn;
use airline_base::Memory;
use desk_lines::Meaning;
use desk_telling::put_told;
use seat_journal::Entry;
use ssim_flights::Flights;
use std::alloc::Global;

/// The line behind which each session is to be told again, where it asked for that and was not told all yet. The first is the manager's.
pub(crate) type Backlogs = [Option<u32>; 9];

pub(crate) fn backlog_of(backlogs: &Backlogs, session: u8) -> Option<u32>
    ensures { result ≡ backlog_of backlogs.now session }
{
    match backlogs.get(usize::from(session)) {
        Some(backlog) => *backlog,
        None => None,
    }
}

pub(crate) fn set_backlog(backlogs: &mut Backlogs, session: u8, backlog: Option<u32>)
    ensures { backlogs.new ≡ set backlogs.old session backlog }
{
    if usize::from(session) < backlogs.len() {
        backlogs[usize::from(session)] = backlog;
    }
}

/// A desk that asks to be told again, and behind which line.
#[derive(Clone, Copy)]
pub struct Asking {
    pub asker: u8,
    pub from: u32,
}

/// Who asked to be told again, where nothing else was heard.
pub(crate) fn again_asked(turns: &[Turn]) -> Option<Asking>
    ensures { result ≡ again_asked turns.now }
{
    match turns {
        [turn] => again_in(turn),
        _ => None,
    }
}

fn again_in(turn: &Turn) -> Option<Asking>
    ensures { result ≡ again_in turn.now }
{
    match turn {
        Turn::Quiet(asker, _, meaning) => again_by(*asker, meaning),
        _ => None,
    }
}

fn again_by(asker: u8, meaning: &Meaning) -> Option<Asking>
    ensures { result ≡ again_by asker meaning.now }
{
    match meaning {
        Meaning::Again(from) => Some(Asking { asker, from: *from }),
        _ => None,
    }
}

/// Up to where a piece goes of so many lines at most, in a journal of so many.
pub(crate) fn piece_end(from: u32, most: u32, lines: u32) -> u32
    ensures { result ≡ piece_end from most lines }
{
    from + most.min(lines.saturating_sub(from))
}

/// What is still to be told behind a piece.
pub(crate) fn backlog_behind(upto: u32, lines: u32) -> Option<u32>
    ensures { result ≡ backlog_behind upto lines }
{
    if upto < lines { Some(upto) } else { None }
}

/// What a session is told of the lines behind so many, up to the one of a number.
#[tactic(auto, using(desk_telling::proofs::Tellings::behind_none, desk_telling::proofs::Tellings::lines_more, desk_telling::proofs::Tellings::lines_whole, desk_answers::proofs::Repeats::whole_told))]
pub(crate) fn told_between(
    alloc: Global,
    flights: &Flights,
    journal: &[Entry],
    session: u8,
    from: u32,
    upto: u32,
) -> Result<Vec<u8>, Memory>
    ensures { IfOk result (λ text. AreTold flights.now session (told_between journal.now session from upto) text.items) }
{
    let mut text = Vec::new(alloc);
    let lines = lines_between(journal, from, upto);
    for line in lines {
        put_told(&mut text, flights, journal, session, line)?;
    }
    Ok(text)
}

fn lines_between(journal: &[Entry], from: u32, upto: u32) -> &[Entry]
    ensures { result.now ≡ lines_between journal.now from upto }
{
    first_lines(lines_behind(journal, from), upto.saturating_sub(from))
}

#[tactic(auto, using(std::proofs::lemmas::List::drop_min))]
fn lines_behind(journal: &[Entry], from: u32) -> &[Entry]
    ensures { result.now ≡ drop from journal.now }
{
    let count = (from as usize).min(journal.len());
    &journal[count..]
}

#[tactic(auto, using(std::proofs::lemmas::List::take_min))]
fn first_lines(lines: &[Entry], most: u32) -> &[Entry]
    ensures { result.now ≡ take most lines.now }
{
    let count = (most as usize).min(lines.len());
    &lines[..count]
}
