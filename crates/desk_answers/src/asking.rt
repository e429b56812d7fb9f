//! A request: its line is put into the journal, and then told.
ghost use Rattle.std.specs.Prelude.{◌≡◌, ◌≤◌, ◌<◌, [], ◌∷◌, false, nat_lt, length, IfOk, IfErr, OnOk};
ghost use Rattle.airline_base.specs.Noting.{noted};
ghost use Rattle.airimp_lines.specs.Grammar.{IsRightSegment};
ghost use Rattle.seat_desk.specs.Loading.{IsGridOf};
ghost use Rattle.seat_disk.specs.Growing.{KeepsFront};
ghost use Rattle.seat_recovery.specs.OpenText.{open_text};
ghost use Rattle.seat_rules.specs.Prefixes.{Begins};
ghost use Rattle.seat_replies.specs.RunDesk.{IsAnswer};
ghost use Rattle.seat_serving.specs.Answering.{with_line, IsRight};
ghost use Rattle.desk_answers.specs.Hosts.{IsReady};
ghost use Rattle.desk_answers.specs.Saying.{asked_by, IsAsked, IsBooked, IsLastOf};
ghost use Rattle.desk_answers.specs.declared.heard.HearFault.TheVariants.{Memory as NoMemory, Untold, Device};

use crate::faults::full_line;
use crate::heard::HearFault;
use airimp_lines::Request;
use airline_base::Memory;
use seat_disk::Tape;
use seat_journal::{Entry, Work};
use seat_replies::{command_of, put_answer};
use seat_serving::{Asked, ServeFault, Serving};
use ssim_flights::{Flights, Served};
use std::alloc::Global;
use std::sync::Wait;

/// Books what a session asks for, where the journal has room, and says what it is answered.
#[tactic(auto, using(crate::proofs::Wishes::asked_full, crate::proofs::Wishes::asked_booked, crate::proofs::Wishes::right_request))]
pub(crate) fn ask<R: Wait, D: Tape>(
    rt: &R,
    alloc: Global,
    flights: &Flights,
    served: &Served<'_>,
    serving: &mut Serving<D>,
    session: u8,
    wish: &Request,
) -> Result<Vec<u8>, HearFault>
    requires ready { IsReady D.seen D.may_leave D.unsynced serving.old }
    requires served { served.now ≡ flights.now }
    requires grid { IsGridOf flights.now serving.old.grid }
    requires session { (1 ≤ session) × (session ≤ 8) }
    requires right { IsRightSegment wish.now.segment }
    ensures asked { IfOk result (λ text. IsAsked (nat_lt (length serving.old.journal) serving.old.cap) flights.now
        serving.old.grid session serving.old.journal serving.new.journal wish.now text.items) }
    ensures ready { OnOk result (IsReady D.seen D.may_leave D.unsynced serving.new) }
    ensures still { IfErr result (λ f. (f ≡ Device → ⊥) → IsReady D.seen D.may_leave D.unsynced serving.new) }
    ensures memory { IfErr result (λ f. f ≡ NoMemory → serving.new.journal ≡ serving.old.journal) }
    ensures untold { IfErr result (λ f. f ≡ Untold → serving.new.journal
        ≡ with_line serving.old.grid serving.old.journal (asked_by flights.now session wish.now)) }
    ensures device { IfErr result (λ f. f ≡ Device → (serving.new.is_open ≡ false)
        × (serving.new.kept ≡ serving.old.kept)
        × (D.failure_count serving.new.tape ≡ noted (D.failure_count serving.old.tape))) }
    ensures counted { OnOk result (D.failure_count serving.new.tape ≡ D.failure_count serving.old.tape) }
    ensures uncounted { IfErr result (λ f. (f ≡ Device → ⊥)
        → D.failure_count serving.new.tape ≡ D.failure_count serving.old.tape) }
    ensures front { Begins serving.old.kept serving.new.kept }
    ensures told { KeepsFront (open_text serving.old.kept) (D.may_leave serving.new.tape) }
    ensures same { (serving.new.grid ≡ serving.old.grid) × (serving.new.cap ≡ serving.old.cap) }
{
    if serving.room() == 0 {
        let call = serving.calls_of(session) + 1;
        return match full_line(alloc, session, call) {
            Ok(text) => Ok(text),
            Err(_) => Err(HearFault::Memory),
        };
    }
    let asked = asked_by(served, session, wish);
    book(rt, alloc, flights, serving, wish, asked)
}

/// What a session's request asks of the inventory, on the first place that serves it.
pub fn asked_by(served: &Served<'_>, session: u8, wish: &Request) -> Asked
    ensures { result ≡ asked_by served.now session wish.now }
{
    Asked {
        session,
        work: Work::Seats(command_of(served, wish)),
    }
}

// Puts the line of a request into the journal, and says its reply and its advices.
#[tactic(auto, using(crate::proofs::Wishes::one_right, crate::proofs::Wishes::only_line, crate::proofs::Wishes::no_line))]
fn book<R: Wait, D: Tape>(
    rt: &R,
    alloc: Global,
    flights: &Flights,
    serving: &mut Serving<D>,
    wish: &Request,
    asked: Asked,
) -> Result<Vec<u8>, HearFault>
    requires ready { IsReady D.seen D.may_leave D.unsynced serving.old }
    requires grid { IsGridOf flights.now serving.old.grid }
    requires right { IsRight serving.old.grid asked }
    requires room { length serving.old.journal < serving.old.cap }
    ensures booked { IfOk result (λ text. IsBooked flights.now serving.old.grid serving.old.journal serving.new.journal
        asked wish.now text.items) }
    ensures ready { OnOk result (IsReady D.seen D.may_leave D.unsynced serving.new) }
    ensures still { IfErr result (λ f. (f ≡ Device → ⊥) → IsReady D.seen D.may_leave D.unsynced serving.new) }
    ensures memory { IfErr result (λ f. f ≡ NoMemory → serving.new.journal ≡ serving.old.journal) }
    ensures untold { IfErr result (λ f. f ≡ Untold → serving.new.journal
        ≡ with_line serving.old.grid serving.old.journal asked) }
    ensures device { IfErr result (λ f. f ≡ Device → (serving.new.is_open ≡ false)
        × (serving.new.kept ≡ serving.old.kept)
        × (D.failure_count serving.new.tape ≡ noted (D.failure_count serving.old.tape))) }
    ensures counted { OnOk result (D.failure_count serving.new.tape ≡ D.failure_count serving.old.tape) }
    ensures uncounted { IfErr result (λ f. (f ≡ Device → ⊥)
        → D.failure_count serving.new.tape ≡ D.failure_count serving.old.tape) }
    ensures front { Begins serving.old.kept serving.new.kept }
    ensures told { KeepsFront (open_text serving.old.kept) (D.may_leave serving.new.tape) }
    ensures same { (serving.new.grid ≡ serving.old.grid) × (serving.new.cap ≡ serving.old.cap) }
{
    let group = [asked];
    let answered = match serving.answer(rt, alloc, &group) {
        Ok(answered) => answered,
        Err(ServeFault::Memory) => return Err(HearFault::Memory),
        Err(ServeFault::Device) => return Err(HearFault::Device),
    };
    match answered.lines.as_slice() {
        [line, ..] => match answer_text(alloc, flights, serving, wish, line) {
            Ok(text) => Ok(text),
            Err(_) => Err(HearFault::Untold),
        },
        [] => Err(HearFault::Memory),
    }
}

// The reply to the last line of the journal, and its advices.
#[tactic(auto, using(crate::proofs::Wishes::answerable, crate::proofs::Wishes::whole_answer))]
fn answer_text<D: Tape>(
    alloc: Global,
    flights: &Flights,
    serving: &Serving<D>,
    wish: &Request,
    line: &Entry,
) -> Result<Vec<u8>, Memory>
    requires grid { IsGridOf flights.now serving.now.grid }
    requires last { IsLastOf serving.now.journal line.now }
    ensures { IfOk result (λ text. IsAnswer flights.now (wish.now ∷ []) serving.now.journal 0 line.now text.items) }
{
    let mut text = Vec::new(alloc);
    let wishes = [*wish];
    put_answer(&mut text, flights, &wishes, serving.journal(), 0, line)?;
    Ok(text)
}
