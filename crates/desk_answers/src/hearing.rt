//! The answer to a line, by what it means.
ghost use Rattle.std.specs.Prelude.{◌≡◌, ◌≤◌, false, length, Some, IfOk, IfErr, OnOk};
ghost use Rattle.airline_base.specs.Noting.{noted};
ghost use Rattle.desk_lines.specs.Lines.{IsRightMeaning};
ghost use Rattle.desk_telling.specs.Telling.{AreTold, told_behind};
ghost use Rattle.flight_days.specs.Leaving.{AreDaysOf};
ghost use Rattle.seat_desk.specs.Loading.{IsGridOf};
ghost use Rattle.seat_disk.specs.Growing.{KeepsFront};
ghost use Rattle.seat_recovery.specs.OpenText.{open_text};
ghost use Rattle.seat_rules.specs.Journal.{calls_of};
ghost use Rattle.seat_rules.specs.Prefixes.{Begins};
ghost use Rattle.desk_answers.specs.Hosts.{IsReady};
ghost use Rattle.desk_answers.specs.Ready.{IsReadyLine};
ghost use Rattle.desk_answers.specs.Saying.{stays_behind, IsUntoldOf, Says, SaysQuiet};
ghost use Rattle.desk_answers.specs.declared.heard.HearFault.TheVariants.{Memory as NoMemory, Untold, Device};

use crate::asking::ask;
use crate::calling::call;
use crate::faults::{wrong_call_line, wrong_line};
use crate::heard::{HearFault, Heard};
use crate::looking::seen;
use crate::ready::ready_line;
use airline_base::{Locator, Memory};
use desk_calls::CallIndex;
use desk_lines::{Desk, Meaning};
use desk_telling::put_told_behind;
use flight_days::DayFlights;
use seat_disk::Tape;
use seat_serving::Serving;
use ssim_flights::{Flights, Served};
use std::alloc::Global;
use std::sync::Wait;

/// What is answered to a line that means this, the last that the desk has said.
pub(crate) fn answer_to<R: Wait, D: Tape>(
    rt: &R,
    alloc: Global,
    flights: &Flights,
    served: &Served<'_>,
    days: &DayFlights,
    serving: &mut Serving<D>,
    calls: &mut CallIndex,
    session: u8,
    desk: &Desk,
    meaning: Meaning,
) -> Result<Heard, HearFault>
    requires ready { IsReady D.seen D.may_leave D.unsynced serving.old }
    requires served { served.now ≡ flights.now }
    requires days { AreDaysOf days.now flights.now }
    requires grid { IsGridOf flights.now serving.old.grid }
    requires session { (1 ≤ session) × (session ≤ 8) }
    requires right { IsRightMeaning meaning }
    ensures says { IfOk result (λ heard. Says flights.now serving.old.grid serving.old.cap session
        desk.now.today desk.now.epoch desk.now.lines serving.old.journal serving.new.journal meaning heard.stays heard.text.items) }
    ensures ready { OnOk result (IsReady D.seen D.may_leave D.unsynced serving.new) }
    ensures still { IfErr result (λ f. (f ≡ Device → ⊥) → IsReady D.seen D.may_leave D.unsynced serving.new) }
    ensures memory { IfErr result (λ f. f ≡ NoMemory → serving.new.journal ≡ serving.old.journal) }
    ensures untold { IfErr result (λ f. f ≡ Untold → IsUntoldOf flights.now serving.old.grid session
        serving.old.journal serving.new.journal meaning) }
    ensures device { IfErr result (λ f. f ≡ Device → (serving.new.is_open ≡ false)
        × (serving.new.kept ≡ serving.old.kept)
        × (D.failure_count serving.new.tape ≡ noted (D.failure_count serving.old.tape))) }
    ensures counted { OnOk result (D.failure_count serving.new.tape ≡ D.failure_count serving.old.tape) }
    ensures uncounted { IfErr result (λ f. (f ≡ Device → ⊥)
        → D.failure_count serving.new.tape ≡ D.failure_count serving.old.tape) }
    ensures front { Begins serving.old.kept serving.new.kept }
    ensures told { KeepsFront (open_text serving.old.kept) (D.may_leave serving.new.tape) }
    ensures same { (serving.new.grid ≡ serving.old.grid) × (serving.new.cap ≡ serving.old.cap) }
{
    match meaning {
        Meaning::Request(wish) => {
            match ask(rt, alloc, flights, served, serving, session, &wish) {
                Ok(text) => Ok(Heard { text, stays: true }),
                Err(fault) => Err(fault),
            }
        }
        Meaning::Call(number, wish) => {
            match call(
                rt, alloc, flights, served, serving, calls, session, number, &wish,
            ) {
                Ok(text) => Ok(Heard { text, stays: true }),
                Err(fault) => Err(fault),
            }
        }
        _ => match quiet_answer(
            alloc, flights, served, days, serving, session, desk, &meaning,
        ) {
            Ok(text) => Ok(Heard {
                text,
                stays: stays_behind(&meaning),
            }),
            Err(_) => Err(HearFault::Memory),
        },
    }
}

// Whether the desk stays.
fn stays_behind(meaning: &Meaning) -> bool
    ensures { result ≡ stays_behind meaning.now }
{
    !matches!(meaning, Meaning::Leave)
}

/// What is answered to a line that asks for no seats, the last that the desk has said. To one that does it is nothing.
pub fn quiet_answer<D: Tape>(
    alloc: Global,
    flights: &Flights,
    served: &Served<'_>,
    days: &DayFlights,
    serving: &Serving<D>,
    session: u8,
    desk: &Desk,
    meaning: &Meaning,
) -> Result<Vec<u8>, Memory>
    requires served { served.now ≡ flights.now }
    requires days { AreDaysOf days.now flights.now }
    requires grid { IsGridOf flights.now serving.now.grid }
    ensures { IfOk result (λ text. SaysQuiet flights.now serving.now.grid session desk.now.today desk.now.epoch desk.now.lines
        serving.now.journal meaning.now text.items) }
{
    match meaning {
        Meaning::Look(look) => seen(alloc, flights, served, days, serving, look),
        Meaning::Again(behind) => told_again(alloc, flights, serving, session, *behind),
        Meaning::Hello(name, _) => greeting(alloc, serving, session, *name, desk),
        Meaning::Wrong(wrong) => wrong_line(alloc, *wrong, session, desk.lines),
        Meaning::WrongCall(number, wrong) => wrong_call_line(alloc, *wrong, session, *number),
        Meaning::Nothing => Ok(Vec::new(alloc)),
        Meaning::Request(_) => Ok(Vec::new(alloc)),
        Meaning::Call(_, _) => Ok(Vec::new(alloc)),
        Meaning::Leave => Ok(Vec::new(alloc)),
    }
}

// What the desk is told of the lines behind so many, once more.
#[tactic(auto, using(crate::proofs::Repeats::whole_told))]
fn told_again<D: Tape>(
    alloc: Global,
    flights: &Flights,
    serving: &Serving<D>,
    session: u8,
    behind: u32,
) -> Result<Vec<u8>, Memory>
    ensures { IfOk result (λ text. AreTold flights.now session (told_behind serving.now.journal session behind) text.items) }
{
    let mut text = Vec::new(alloc);
    put_told_behind(
        &mut text,
        flights,
        serving.journal(),
        session,
        behind as usize,
    )?;
    Ok(text)
}

// Where the desk stands, to a client that begins.
fn greeting<D: Tape>(
    alloc: Global,
    serving: &Serving<D>,
    session: u8,
    name: Locator,
    desk: &Desk,
) -> Result<Vec<u8>, Memory>
    ensures { IfOk result (λ text. IsReadyLine (Some name) session (length serving.now.journal)
        (calls_of serving.now.journal session) desk.now.today desk.now.epoch text.items) }
{
    let lines = serving.journal().len() as u32;
    let line = ready_line(
        Some(name),
        session,
        lines,
        serving.calls_of(session),
        desk.today,
        desk.epoch,
    );
    Ok(Vec::from_slice(alloc, line.as_slice())?)
}
