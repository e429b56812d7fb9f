//! A host of several desks.
ghost use Rattle.std.specs.Prelude.{◌≡◌, ◌≤◌, ◌-◌, ◌+◌, ◌∷◌, ◌++◌, [], false, is_some, length, replicate, slice_get, None, Some, IfErr, IfOk, OnErr, OnOk};
ghost use Rattle.std.specs.Prelude.{option_to_list};
ghost use Rattle.airline_base.specs.Days.{IsCenturyDay};
ghost use Rattle.airline_base.specs.Noting.{noted};
ghost use Rattle.flight_days.specs.Leaving.{AreDaysOf};
ghost use Rattle.seat_desk.specs.Loading.{IsGridOf};
ghost use Rattle.seat_disk.specs.Growing.{KeepsFront};
ghost use Rattle.seat_recovery.specs.OpenText.{open_text};
ghost use Rattle.seat_rules.specs.Prefixes.{Begins};
ghost use Rattle.seat_serving.specs.Answering.{behind};
ghost use Rattle.seat_serving.specs.declared.serving.ServeFault.TheVariants.{Device, Memory as NoMemory};
ghost use Rattle.desk_answers.specs.Hosts.{IsReady};
ghost use Rattle.desk_hall.specs.Booking.{IsBehindSome};
ghost use Rattle.desk_hall.specs.Halls.{lines_behind, HasHeardLine, IsHeardBy, IsOpened, IsOrdered, IsPassed, IsPiece, IsSameHall, IsSameHost, IsSet, IsToldTo, IsUnheard, IsUnordered};
ghost use Rattle.desk_hall.specs.Departed.{closings, is_day_given, AreOnLegs};
ghost use Rattle.desk_hall.specs.Pieces.{again_asked, backlog_of};
ghost use Rattle.seat_replies.specs.Changes.{IsOnLeg};
ghost use Rattle.desk_lines.specs.Lines.{IsRightMeaning};

use crate::backlog::{
    Backlogs, again_asked, backlog_behind, backlog_of, piece_end, set_backlog, told_between,
};
use crate::booking::book;
use crate::departed::closings;
use crate::ordering::{day_behind, goes_on, plan_of_order, plan_row};
use crate::orders::order_of;
use crate::planning::{Plan, plan_of};
use crate::telling::told_by;
use crate::turn::{Turn, is_day_given};
use airimp_lines::{FlightClass, LineFault, Look, Request, ScriptKind, Segment};
use airline_base::{Class, Day, Memory};
use desk_calls::CallIndex;
use desk_lines::{Desk, Meaning, Standing, Wrong};
use flight_days::DayFlights;
use seat_disk::Tape;
use seat_journal::{Change, Control, SaleChange, Work};
use seat_serving::{Asked, ServeFault, Serving};
use ssim_flights::{Flights, Served};
use std::alloc::Global;
use std::marker::Model;
use std::sync::Wait;

/// It hears lines of its desks, books what they ask for, and tells each desk what concerns it. It is never dropped: `into_serving` uses
/// it up.
pub struct Hall<'a, D: Tape> {
    flights: &'a Flights,
    served: Served<'a>,
    days: DayFlights,
    serving: Serving<D>,
    today: Day,
    desks: Vec<Desk>,
    manager: Desk,
    calls: Vec<CallIndex>,
    asked: Vec<Asked>,
    turns: Vec<Turn>,
    backlogs: Backlogs,
}

impl<'a, D: Tape> Model for Hall<'a, D> {
    ghost use Rattle.desk_hall.specs.Halls.{Hallful, IsHall};
    ghost use Rattle.flight_days.specs.Leaving.{AreDaysOf};

    ghost Value = { Hallful D };

    ghost view = { λ s. record {
      flights = s.flights.now;
      serving = s.serving;
      today = s.today;
      desks = s.desks.items;
      manager = s.manager;
      asked = s.asked.items;
      turns = s.turns.items;
      backlogs = s.backlogs;
    } };

    ghost invariant = { λ s. IsHall s.flights.now s.served s.serving s.today s.desks.items s.calls.items s.asked.items
        × AreDaysOf s.days s.flights.now };
}

impl<'a, D: Tape> Hall<'a, D> {
    /// Over flights, those of each day, and an inventory of their legs. The first desk is that of session 1, and so on; the first index of calls is the
    /// manager's, and each desk has one.
    pub fn over(
        flights: &'a Flights,
        served: Served<'a>,
        days: DayFlights,
        serving: Serving<D>,
        today: Day,
        desks: Vec<Desk>,
        manager: Desk,
        calls: Vec<CallIndex>,
        asked: Vec<Asked>,
        turns: Vec<Turn>,
    ) -> Hall<'a, D>
        requires served { served ≡ flights.now }
        requires days { AreDaysOf days flights.now }
        requires grid { IsGridOf flights.now serving.grid }
        requires today { IsCenturyDay today }
        requires few { length desks.items ≤ 8 }
        requires calls { length calls.items ≡ length desks.items + 1 }
        requires none { (asked.items ≡ []) × (turns.items ≡ []) }
        ensures parts { (result.flights ≡ flights.now) × (result.serving ≡ serving) × (result.today ≡ today)
            × (result.desks ≡ desks.items) × (result.manager ≡ manager) }
        ensures none { (result.asked ≡ []) × (result.turns ≡ []) }
        ensures told { result.backlogs ≡ replicate 9 None }
    {
        // For the prover alone: only the inventory itself says that its journal is within its limits.
        let _ = serving.journal();
        Hall {
            flights,
            served,
            days,
            serving,
            today,
            desks,
            manager,
            calls,
            asked,
            turns,
            backlogs: [None; 9],
        }
    }

    /// The inventory with its file.
    pub fn serving(&self) -> &Serving<D>
        ensures { result.now ≡ self.now.serving }
    {
        &self.serving
    }

    /// The day on which lines are read.
    pub fn today(&self) -> Day
        ensures value { result ≡ self.now.today }
        ensures century { IsCenturyDay result }
    {
        self.today
    }

    /// How many desks there are.
    pub fn count(&self) -> u8
        ensures value { result ≡ length self.now.desks }
        ensures few { result ≤ 8 }
    {
        self.desks.len() as u8
    }

    /// How many lines a session's desk, or the manager, has said.
    pub fn lines_of(&self, session: u8) -> u32
        requires session { session ≤ length self.now.desks }
        ensures manager { session ≡ 0 → result ≡ self.now.manager.lines }
        ensures desk { 1 ≤ session → (desk : Desk) → slice_get self.now.desks (session - 1) ≡ Some desk → result ≡ desk.lines }
    {
        if session == 0 {
            return self.manager.lines;
        }
        desk_at(self.desks.as_slice(), session).lines
    }

    /// Counts so many lines of a session's desk, or of the manager, which were answered where they were read.
    pub fn pass(&mut self, session: u8, count: u32)
        requires session { session ≤ length self.old.desks }
        ensures counted { IsPassed self.old self.new session count }
    {
        if session == 0 {
            self.manager.lines = lines_behind(self.manager.lines, count);
            return;
        }
        let mut desk = desk_at(self.desks.as_slice(), session);
        desk.lines = lines_behind(desk.lines, count);
        self.desks[usize::from(session) - 1] = desk;
    }

    /// The inventory with its file; the desks are over.
    pub fn into_serving(self) -> Serving<D>
        ensures { result ≡ self.entry.serving }
    {
        let Hall {
            flights: _,
            served: _,
            days: _,
            serving,
            today: _,
            desks: _,
            manager: _,
            calls: _,
            asked: _,
            turns: _,
            backlogs: _,
        } = self;
        serving
    }

    /// Hears a line of a session's desk with its end. What it asks for is booked by `answer`, and told by `told`. Where memory is
    /// wanting the line counts, and nothing comes of it.
    #[tactic(auto, using(crate::proofs::Halls::heard_by, crate::proofs::Halls::unheard))]
    pub fn hear(&mut self, session: u8, line: &[u8]) -> Result<(), Memory>
        requires session { (1 ≤ session) × (session ≤ length self.old.desks) }
        requires told { backlog_of self.old.backlogs session ≡ None }
        ensures heard { OnOk result (IsHeardBy self.old self.new session line.now) }
        ensures memory { OnErr result (IsUnheard self.old self.new session line.now) }
        ensures unbooked { (self.new.serving ≡ self.old.serving) × (length self.new.desks ≡ length self.old.desks) }
    {
        let Hall {
            flights,
            served,
            days: _,
            serving,
            today,
            desks,
            manager: _,
            calls: _,
            asked,
            turns,
            backlogs: _,
        } = self;
        let (desk, meaning) = hear_at(desks, *today, session, line);
        let plan = plan_of(
            flights,
            served,
            serving,
            asked.as_slice(),
            session,
            &desk,
            &meaning,
        );
        add(asked, turns, &plan)
    }

    /// Hears a line of the manager with its end: another limit, which `answer` sets, a later day, or the end of it all, but where it was said
    /// ahead of the host's start. Whether the host goes on. Where memory is wanting nothing comes of it.
    #[tactic(auto, using(crate::proofs::Halls::ordered_by))]
    pub fn hear_manager(
        &mut self,
        alloc: Global,
        line: &[u8],
        is_earlier: bool,
    ) -> Result<bool, Memory>
        requires told { backlog_of self.old.backlogs 0 ≡ None }
        ensures ordered { IfOk result (IsOrdered is_earlier self.old self.new line.now) }
        ensures memory { OnErr result (IsUnordered self.old self.new) }
        ensures unbooked { (self.new.serving ≡ self.old.serving) × (self.new.desks ≡ self.old.desks) }
    {
        let Hall {
            flights,
            served,
            days,
            serving,
            today,
            desks: _,
            manager,
            calls: _,
            asked,
            turns,
            backlogs: _,
        } = self;
        manager.today = *today;
        let order = order_of(alloc, flights, served, days, manager, line, is_earlier)?;
        let day = day_behind(*today, &order);
        let plan = plan_of_order(flights, serving, asked.as_slice(), manager, day, order);
        add(asked, turns, &plan)?;
        *today = day;
        Ok(goes_on(&order))
    }

    /// Whether the manager gave a day, and nothing else was heard.
    pub fn is_day_given(&self) -> bool
        ensures { result ≡ is_day_given self.now.turns }
    {
        is_day_given(self.turns.as_slice())
    }

    /// A closing for each leg that departed before the day of the host and has a class open still, in the order of flight and leg.
    pub fn closings(&self, alloc: Global) -> Result<Vec<Control>, Memory>
        ensures value { IfOk result (λ all. all.items ≡ closings self.now) }
        ensures legs { IfOk result (λ all. AreOnLegs self.now.flights all.items) }
    {
        closings(alloc, self.flights, &self.serving, self.today)
    }

    /// Hears what the host sets by itself, which comes to what a row of the manager without a number does. Where memory is wanting nothing
    /// comes of it.
    pub fn set(&mut self, control: Control) -> Result<(), Memory>
        requires on { IsOnLeg self.old.flights control }
        ensures set { OnOk result (IsSet self.old self.new control) }
        ensures memory { OnErr result (self.new ≡ self.old) }
        ensures same { IsSameHost self.old self.new }
    {
        let Hall {
            flights,
            served: _,
            days: _,
            serving,
            today: _,
            desks: _,
            manager: _,
            calls: _,
            asked,
            turns,
            backlogs: _,
        } = self;
        let plan = plan_row(flights, serving, asked.as_slice(), control);
        add(asked, turns, &plan)
    }

    /// Books what the lines that were heard ask for, in their order and in groups: it is on the disk and visible. Where memory is wanting
    /// or the file fails, what is behind the first that has no line is not booked.
    #[tactic(auto, using(crate::proofs::Halls::hall_answered))]
    pub fn answer<R: Wait>(&mut self, rt: &R, alloc: Global) -> Result<(), ServeFault>
        requires ready { IsReady D.seen D.may_leave D.unsynced self.old.serving }
        ensures booked { OnOk result (self.new.serving.journal
            ≡ behind self.old.serving.grid self.old.serving.journal self.old.asked) }
        ensures none { self.new.asked ≡ [] }
        ensures ready { OnOk result (IsReady D.seen D.may_leave D.unsynced self.new.serving) }
        ensures memory { IfErr result (λ f. f ≡ NoMemory → IsReady D.seen D.may_leave D.unsynced self.new.serving
            × IsBehindSome self.old.serving.grid self.old.serving.journal self.old.asked self.new.serving.journal) }
        ensures device { IfErr result (λ f. f ≡ Device → (self.new.serving.is_open ≡ false)
            × (D.failure_count self.new.serving.tape ≡ noted (D.failure_count self.old.serving.tape))) }
        ensures front { Begins self.old.serving.kept self.new.serving.kept }
        ensures told { KeepsFront (open_text self.old.serving.kept) (D.may_leave self.new.serving.tape) }
        ensures counted { OnOk result (D.failure_count self.new.serving.tape ≡ D.failure_count self.old.serving.tape) }
        ensures same { IsSameHall self.old self.new }
    {
        let Hall {
            flights: _,
            served: _,
            days: _,
            serving,
            today: _,
            desks: _,
            manager: _,
            calls: _,
            asked,
            turns: _,
            backlogs: _,
        } = self;
        let booked = book(rt, alloc, serving, asked.as_slice());
        asked.clear();
        // For the prover alone: only the inventory itself says that its journal is within its limits.
        let _ = serving.journal();
        booked
    }

    /// What a session's desk, or the manager, is told of the lines that were heard: what its own are answered, and the advices to its bookings of what
    /// others asked for, all in the order of the lines. Who is behind is told nothing of them: what concerns it comes with its pieces.
    pub fn told(&mut self, alloc: Global, session: u8) -> Result<Vec<u8>, Memory>
        requires session { session ≤ length self.old.desks }
        ensures told { IfOk result (λ text. IsToldTo self.old session text.items) }
        ensures same { self.new ≡ self.old }
    {
        let Hall {
            flights,
            served,
            days,
            serving,
            today: _,
            desks: _,
            manager: _,
            calls,
            asked: _,
            turns,
            backlogs,
        } = self;
        let index = &mut calls[usize::from(session)];
        told_by(
            alloc,
            flights,
            served,
            days,
            serving,
            index,
            session,
            turns.as_slice(),
            backlog_of(backlogs, session),
        )
    }

    /// Whether a session's desk, or the manager, asked to be told again and was not told all yet. Its next line is heard when it was.
    pub fn is_behind(&self, session: u8) -> bool
        ensures { result ≡ is_some (backlog_of self.now.backlogs session) }
    {
        backlog_of(&self.backlogs, session).is_some()
    }

    /// Where all that was heard is a desk's `?AGAIN`, it is answered piece by piece from then on.
    #[tactic(auto, using(crate::proofs::Halls::opened_none, crate::proofs::Halls::opened_some))]
    pub fn open_backlog(&mut self)
        ensures opened { IsOpened (again_asked self.old.turns) self.old self.new }
        ensures same { (self.new.serving ≡ self.old.serving) × (self.new.today ≡ self.old.today) }
    {
        let Some(asking) = again_asked(self.turns.as_slice()) else {
            return;
        };
        let lines = self.serving.journal().len() as u32;
        set_backlog(
            &mut self.backlogs,
            asking.asker,
            Some(asking.from.min(lines)),
        );
        self.turns.clear();
    }

    /// Tells whoever is behind of so many lines of the journal at most, from where it was told before. Behind the last it is behind no more.
    #[tactic(auto, using(crate::proofs::Halls::piece_none, crate::proofs::Halls::piece_some))]
    pub fn again(&mut self, alloc: Global, session: u8, most: u32) -> Result<Vec<u8>, Memory>
        ensures piece { IfOk result (λ text. IsPiece self.old self.new session most text.items) }
        ensures memory { OnErr result (self.new ≡ self.old) }
        ensures same { (self.new.serving ≡ self.old.serving) × (self.new.today ≡ self.old.today) }
    {
        let Some(from) = backlog_of(&self.backlogs, session) else {
            return Ok(Vec::new(alloc));
        };
        let journal = self.serving.journal();
        let lines = journal.len() as u32;
        let upto = piece_end(from, most, lines);
        let text = told_between(alloc, self.flights, journal, session, from, upto)?;
        set_backlog(&mut self.backlogs, session, backlog_behind(upto, lines));
        Ok(text)
    }

    /// Tells whoever is behind all that it is still to be told.
    #[tactic(auto, using(crate::proofs::Halls::caught_up))]
    pub fn again_all(&mut self, alloc: Global, session: u8) -> Result<Vec<u8>, Memory>
        ensures piece { IfOk result (λ text. IsPiece self.old self.new session (length self.old.serving.journal) text.items) }
        ensures caught { OnOk result (backlog_of self.new.backlogs session ≡ None) }
        ensures memory { OnErr result (self.new ≡ self.old) }
        ensures same { (self.new.serving ≡ self.old.serving) × (self.new.today ≡ self.old.today) }
    {
        let lines = self.serving.journal().len() as u32;
        let text = self.again(alloc, session, lines)?;
        Ok(text)
    }

    /// The lines that were heard are told.
    pub fn end_turns(&mut self)
        ensures none { self.new.turns ≡ [] }
        ensures same { (self.new.serving ≡ self.old.serving) × (self.new.desks ≡ self.old.desks)
            × (self.new.manager ≡ self.old.manager) × (self.new.asked ≡ self.old.asked) × (self.new.today ≡ self.old.today) × (self.new.flights ≡ self.old.flights)
            × (self.new.backlogs ≡ self.old.backlogs) }
    {
        self.turns.clear();
    }
}

// How many lines a desk has said behind so many more.
fn lines_behind(lines: u32, more: u32) -> u32
    ensures { result ≡ lines_behind lines more }
{
    lines.saturating_add(more)
}

// A session's desk hears a line on a day.
fn hear_at(desks: &mut Vec<Desk>, today: Day, session: u8, line: &[u8]) -> (Desk, Meaning)
    requires today { IsCenturyDay today }
    requires session { (1 ≤ session) × (session ≤ length desks.old.items) }
    ensures heard { HasHeardLine desks.old.items desks.new.items today session line.now result.0 result.1 }
    ensures right { IsRightMeaning result.1 }
    ensures count { length desks.new.items ≡ length desks.old.items }
{
    let mut desk = desk_at(desks.as_slice(), session);
    desk.today = today;
    let meaning = desk.hear(line);
    desks[usize::from(session) - 1] = desk;
    (desk, meaning)
}

fn desk_at(desks: &[Desk], session: u8) -> Desk
    requires { (1 ≤ session) × (session ≤ length desks.now) }
    ensures { slice_get desks.now (session - 1) ≡ Some result }
{
    desks[usize::from(session) - 1]
}

// Adds how a line is answered, and what it asks for.
#[tactic(auto, using(crate::proofs::Halls::cut_turn))]
fn add(asked: &mut Vec<Asked>, turns: &mut Vec<Turn>, plan: &Plan) -> Result<(), Memory>
    ensures more { OnOk result ((asked.new.items ≡ asked.old.items ++ option_to_list plan.now.asked)
        × (turns.new.items ≡ turns.old.items ++ plan.now.turn ∷ [])) }
    ensures same { OnErr result ((asked.new.items ≡ asked.old.items) × (turns.new.items ≡ turns.old.items)) }
{
    // For the prover alone: it is told where these types are.
    let _desk: Option<Desk> = None;
    let _standing: Option<Standing> = None;
    let _meaning: Option<Meaning> = None;
    let _request: Option<Request> = None;
    let _flight: Option<FlightClass> = None;
    let _look: Option<Look> = None;
    let _segment: Option<Segment> = None;
    let _wrong: Option<Wrong> = None;
    let _kind: Option<ScriptKind> = None;
    let _fault: Option<LineFault> = None;
    let _control: Option<Control> = None;
    let _change: Option<Change> = None;
    let _sale: Option<SaleChange> = None;
    let _class: Option<Class> = None;
    let length = turns.len();
    push(turns, plan.turn)?;
    if add_asked(asked, plan.asked).is_ok() {
        return Ok(());
    }
    turns.truncate(length);
    Err(Memory)
}

fn add_asked(asked: &mut Vec<Asked>, more: Option<Asked>) -> Result<(), Memory>
    ensures more { OnOk result (asked.new.items ≡ asked.old.items ++ option_to_list more) }
    ensures same { OnErr result (asked.new.items ≡ asked.old.items) }
{
    match more {
        Some(one) => {
            // For the prover alone: it is told where these types are.
            let _work: Work = one.work;
            let _sale: Option<SaleChange> = None;
            let _class: Option<Class> = None;
            push(asked, one)
        }
        None => Ok(()),
    }
}

fn push<T: Drop>(list: &mut Vec<T>, item: T) -> Result<(), Memory>
    ensures more { OnOk result (list.new.items ≡ list.old.items ++ item ∷ []) }
    ensures same { OnErr result (list.new.items ≡ list.old.items) }
{
    list.push(item)?;
    Ok(())
}
