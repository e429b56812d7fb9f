//! An open host with one desk: its flights, the desk, and the inventory with its file.
ghost use Rattle.std.specs.Prelude.{◌≡◌, ◌≤◌, false, IfOk, IfErr, OnOk};
ghost use Rattle.airline_base.specs.Days.{IsCenturyDay};
ghost use Rattle.airline_base.specs.Noting.{noted};
ghost use Rattle.flight_days.specs.Leaving.{AreDaysOf};
ghost use Rattle.seat_desk.specs.Loading.{IsGridOf};
ghost use Rattle.seat_disk.specs.Growing.{KeepsFront};
ghost use Rattle.seat_recovery.specs.OpenText.{open_text};
ghost use Rattle.seat_rules.specs.Prefixes.{Begins};
ghost use Rattle.desk_answers.specs.Hosts.{IsReady};
ghost use Rattle.desk_answers.specs.Saying.{IsAnswered, IsCounted, IsUntold};
ghost use Rattle.desk_answers.specs.declared.heard.HearFault.TheVariants.{Memory as NoMemory, Untold, Device};

use crate::heard::{HearFault, Heard};
use crate::hearing::answer_to;
use airline_base::Day;
use desk_calls::CallIndex;
use desk_lines::Desk;
use flight_days::DayFlights;
use seat_disk::Tape;
use seat_serving::Serving;
use ssim_flights::{Flights, Served};
use std::alloc::Global;
use std::marker::Model;
use std::sync::Wait;

/// It hears one line after the other. It is never dropped: `into_serving` uses it up.
pub struct OpenHost<'a, D: Tape> {
    flights: &'a Flights,
    served: Served<'a>,
    days: DayFlights,
    serving: Serving<D>,
    session: u8,
    desk: Desk,
    calls: CallIndex,
}

impl<'a, D: Tape> Model for OpenHost<'a, D> {
    ghost use Rattle.desk_answers.specs.Hosts.{Attended, IsAttended};
    ghost use Rattle.flight_days.specs.Leaving.{AreDaysOf};

    ghost Value = { Attended D };

    ghost view = { λ s. record {
      flights = s.flights.now;
      session = s.session;
      desk = s.desk;
      serving = s.serving;
    } };

    ghost invariant = { λ s. IsAttended s.flights.now s.served s.serving.grid s.session s.desk × AreDaysOf s.days s.flights.now };
}

impl<'a, D: Tape> OpenHost<'a, D> {
    /// Over flights, those of each day, and an inventory of their legs. The desk's lines are those of a session, 1 to 8.
    pub fn over(
        alloc: Global,
        flights: &'a Flights,
        served: Served<'a>,
        days: DayFlights,
        serving: Serving<D>,
        session: u8,
        desk: Desk,
    ) -> OpenHost<'a, D>
        requires served { served ≡ flights.now }
        requires days { AreDaysOf days flights.now }
        requires grid { IsGridOf flights.now serving.grid }
        requires session { (1 ≤ session) × (session ≤ 8) }
        requires today { IsCenturyDay desk.today }
        ensures parts { (result.flights ≡ flights.now) × (result.session ≡ session) × (result.desk ≡ desk) }
        ensures serving { result.serving ≡ serving }
    {
        OpenHost {
            flights,
            served,
            days,
            serving,
            session,
            desk,
            calls: CallIndex::new(alloc),
        }
    }

    /// The session that the desk's lines are of.
    pub fn session(&self) -> u8
        ensures { result ≡ self.now.session }
    {
        self.session
    }

    /// The day on which the desk's lines are read.
    pub fn today(&self) -> Day
        ensures { result ≡ self.now.desk.today }
    {
        self.desk.today
    }

    /// The epoch of the journal.
    pub fn epoch(&self) -> u32
        ensures { result ≡ self.now.desk.epoch }
    {
        self.desk.epoch
    }

    /// How many lines the desk has said.
    pub fn heard(&self) -> u32
        ensures { result ≡ self.now.desk.lines }
    {
        self.desk.lines
    }

    /// The inventory with its file.
    pub fn serving(&self) -> &Serving<D>
        ensures { result.now ≡ self.now.serving }
    {
        &self.serving
    }

    /// The inventory with its file; the desk is over.
    pub fn into_serving(self) -> Serving<D>
        ensures { result ≡ self.entry.serving }
    {
        let OpenHost {
            flights: _,
            served: _,
            days: _,
            serving,
            session: _,
            desk: _,
            calls: _,
        } = self;
        serving
    }

    /// Hears a line with its end, and answers it: a request is told of only when its line is on the disk. At `Err` the line
    /// counts all the same; where memory was wanting nothing was booked, and the host goes on.
    pub fn hear<R: Wait>(&mut self, rt: &R, alloc: Global, line: &[u8]) -> Result<Heard, HearFault>
        requires ready { IsReady D.seen D.may_leave D.unsynced self.old.serving }
        ensures answered { IfOk result (λ heard. IsAnswered self.old self.new line.now heard) }
        ensures counts { IsCounted self.old.desk self.new.desk line.now }
        ensures ready { OnOk result (IsReady D.seen D.may_leave D.unsynced self.new.serving) }
        ensures still { IfErr result (λ f. (f ≡ Device → ⊥) → IsReady D.seen D.may_leave D.unsynced self.new.serving) }
        ensures memory { IfErr result (λ f. f ≡ NoMemory → self.new.serving.journal ≡ self.old.serving.journal) }
        ensures untold { IfErr result (λ f. f ≡ Untold → IsUntold self.old self.new line.now) }
        ensures device { IfErr result (λ f. f ≡ Device → (self.new.serving.is_open ≡ false)
            × (self.new.serving.kept ≡ self.old.serving.kept)
            × (D.failure_count self.new.serving.tape ≡ noted (D.failure_count self.old.serving.tape))) }
        ensures counted { OnOk result (D.failure_count self.new.serving.tape ≡ D.failure_count self.old.serving.tape) }
        ensures uncounted { IfErr result (λ f. (f ≡ Device → ⊥)
            → D.failure_count self.new.serving.tape ≡ D.failure_count self.old.serving.tape) }
        ensures front { Begins self.old.serving.kept self.new.serving.kept }
        ensures told { KeepsFront (open_text self.old.serving.kept) (D.may_leave self.new.serving.tape) }
        ensures same { (self.new.flights ≡ self.old.flights) × (self.new.session ≡ self.old.session)
            × (self.new.serving.grid ≡ self.old.serving.grid) × (self.new.serving.cap ≡ self.old.serving.cap) }
    {
        let OpenHost {
            flights,
            served,
            days,
            serving,
            session,
            desk,
            calls,
        } = self;
        let meaning = desk.hear(line);
        answer_to(
            rt, alloc, flights, served, days, serving, calls, *session, desk, meaning,
        )
    }
}
