//! A feed over an inventory with its file.
ghost use Rattle.std.specs.Prelude.{◌≡◌, ◌≤◌, [], false, length, None, IfErr, IfOk, OnErr, OnOk};
ghost use Rattle.airline_base.specs.Noting.{noted};
ghost use Rattle.flight_days.specs.Leaving.{AreDaysOf};
ghost use Rattle.seat_desk.specs.FlightsDesk.{IsText};
ghost use Rattle.seat_desk.specs.Loading.{IsGridOf};
ghost use Rattle.seat_disk.specs.Growing.{KeepsFront};
ghost use Rattle.seat_recovery.specs.OpenText.{open_text};
ghost use Rattle.seat_rules.specs.Prefixes.{Begins};
ghost use Rattle.seat_replies.specs.RunDesk.{at_any};
ghost use Rattle.seat_serving.specs.Answering.{behind};
ghost use Rattle.seat_serving.specs.declared.serving.ServeFault.TheVariants.{Device, Memory as NoMemory};
ghost use Rattle.desk_answers.specs.Hosts.{IsReady};
ghost use Rattle.desk_feed.specs.Progress.{IsProgress};
ghost use Rattle.desk_hall.specs.Booking.{IsBehindSome};
ghost use Rattle.desk_stream.specs.Feeds.{read_behind, HasComeAsFar, IsBegun, IsHeard, IsOwnLine, IsSameFeed, IsStrangeLine};
ghost use Rattle.desk_stream.specs.Hearing.{IsSamePending};
ghost use Rattle.desk_stream.specs.Telling.{IsFeedTurn};
ghost use Rattle.desk_stream.specs.declared.hearing.FeedFault.TheVariants.{Memory as Wanting, Strange as Stranger};

use crate::hearing::{FeedFault, Pending, hear_step};
use crate::lead::lead_of;
use crate::reading::{Reading, count, is_of, step_of};
use crate::telling::{FeedTurn, told_of};
use airline_base::{Day, Memory};
use desk_calls::CallIndex;
use desk_feed::Progress;
use desk_hall::book;
use desk_lines::Desk;
use flight_days::DayFlights;
use seat_disk::Tape;
use seat_serving::{Asked, ServeFault, Serving};
use ssim_flights::{Flights, Served};
use std::alloc::Global;
use std::marker::Model;
use std::sync::Wait;

/// It hears lines of a feed, books what they ask for, and tells each session what concerns it. It is never dropped: `into_serving` uses
/// it up.
pub struct Feed<'a, D: Tape> {
    flights: &'a Flights,
    served: Served<'a>,
    days: DayFlights,
    serving: Serving<D>,
    epoch: u32,
    reading: Reading,
    desks: Vec<Desk>,
    calls: Vec<CallIndex>,
    pending: Pending,
}

impl<'a, D: Tape> Model for Feed<'a, D> {
    ghost use Rattle.desk_stream.specs.Feeds.{Feeding, IsFeed};
    ghost use Rattle.flight_days.specs.Leaving.{AreDaysOf};

    ghost Value = { Feeding D };

    ghost view = { λ s. record {
      flights = s.flights.now;
      serving = s.serving;
      epoch = s.epoch;
      reading = s.reading;
      desks = s.desks.items;
      pending = s.pending;
    } };

    ghost invariant = { λ s. IsFeed s.flights.now s.served s.serving s.reading s.desks.items s.calls.items s.pending
        × AreDaysOf s.days s.flights.now };
}

impl<'a, D: Tape> Feed<'a, D> {
    /// Over flights, those of each day, an inventory of their legs whose journal is of this epoch, and how far the feed had come when it is sent from
    /// here on. The manager has the first desk and the first index of calls, and each of the eight sessions one. Nothing was heard.
    #[tactic(auto, using(crate::proofs::Feeds::feed_over))]
    pub fn over(
        flights: &'a Flights,
        served: Served<'a>,
        days: DayFlights,
        serving: Serving<D>,
        epoch: u32,
        progress: Progress,
        desks: Vec<Desk>,
        calls: Vec<CallIndex>,
        asked: Vec<Asked>,
        turns: Vec<FeedTurn>,
    ) -> Feed<'a, D>
        requires served { served ≡ flights.now }
        requires days { AreDaysOf days flights.now }
        requires grid { IsGridOf flights.now serving.grid }
        requires desks { (length desks.items ≡ 9) × (length calls.items ≡ 9) }
        requires none { (asked.items ≡ []) × (turns.items ≡ []) }
        requires progress { IsProgress serving.journal progress }
        ensures parts { (result.flights ≡ flights.now) × (result.serving ≡ serving) × (result.epoch ≡ epoch)
            × (result.desks ≡ desks.items) }
        ensures come { result.pending.progress ≡ progress }
        ensures none { (result.pending.asked.items ≡ []) × (result.pending.turns.items ≡ []) }
        ensures begun { IsBegun epoch result.reading }
    {
        // For the prover alone: only the inventory itself says that its journal is within its limits.
        let _ = serving.journal();
        Feed {
            flights,
            served,
            days,
            serving,
            epoch,
            reading: Reading {
                today: None,
                epoch,
                lines: 0,
            },
            desks,
            calls,
            pending: Pending {
                progress,
                asked,
                turns,
            },
        }
    }

    /// The inventory with its file.
    pub fn serving(&self) -> &Serving<D>
        ensures { result.now ≡ self.now.serving }
    {
        &self.serving
    }

    /// The day on which its lines are read; none ahead of its first day.
    pub fn today(&self) -> Option<Day>
        ensures { result ≡ self.now.reading.today }
    {
        self.reading.today
    }

    /// How many lines it has had.
    pub fn lines(&self) -> u32
        ensures { result ≡ self.now.reading.lines }
    {
        self.reading.lines
    }

    /// How many lines of the journal it has come to.
    pub fn come(&self) -> u32
        ensures { result ≡ self.now.pending.progress.lines }
    {
        self.pending.progress.lines
    }

    /// The inventory with its file; the feed is over.
    pub fn into_serving(self) -> Serving<D>
        ensures { result ≡ self.entry.serving }
    {
        let Feed {
            flights: _,
            served: _,
            days: _,
            serving,
            epoch: _,
            reading: _,
            desks: _,
            calls: _,
            pending: _,
        } = self;
        serving
    }

    /// Hears a line with its end. A numbered request is taken as it was then, by the calls and the day of then: where lines of the
    /// journal are ahead of the feed the next of them must be its own, and its answer is told once more; behind the last it is booked
    /// by `answer`. Where it is another's, or memory is wanting, nothing comes of the line.
    #[tactic(auto, using(crate::proofs::Feeds::heard_by, crate::proofs::Feeds::read_to, crate::proofs::Feeds::feed_on))]
    pub fn hear(&mut self, alloc: Global, line: &[u8]) -> Result<(), FeedFault>
        ensures heard { OnOk result (IsHeard self.old self.new line.now) }
        ensures strange { IfErr result (λ f. f ≡ Stranger → IsStrangeLine self.old line.now) }
        ensures memory { IfErr result (λ f. f ≡ Wanting → IsOwnLine self.old line.now) }
        ensures same { OnErr result (IsSamePending self.old.pending self.new.pending) }
        ensures read { self.new.reading ≡ read_behind self.old line.now }
        ensures unbooked { (self.new.serving ≡ self.old.serving) × (self.new.flights ≡ self.old.flights)
            × (self.new.epoch ≡ self.old.epoch) }
    {
        let Feed {
            flights,
            served,
            days,
            serving,
            epoch,
            reading,
            desks,
            calls: _,
            pending,
        } = self;
        count(reading);
        let own = *epoch;
        let (behind, step) = step_of(own, reading, line, lead_of(line));
        *reading = behind;
        let is_own = is_of(reading, own);
        match hear_step(
            alloc, flights, served, days, serving, is_own, desks, pending, step, line,
        ) {
            Ok(()) => Ok(()),
            Err(fault) => Err(fault),
        }
    }

    /// Books what the lines that were heard ask for, in their order and in groups: it is on the disk and visible. Where memory is wanting
    /// or the file fails, what is behind the first that has no line is not booked, and the feed has come to nothing.
    #[tactic(auto, using(crate::proofs::Feeds::answered, crate::proofs::Feeds::begun_anew, crate::proofs::Feeds::come_as_far))]
    pub fn answer<R: Wait>(&mut self, rt: &R, alloc: Global) -> Result<(), ServeFault>
        requires ready { IsReady D.seen D.may_leave D.unsynced self.old.serving }
        ensures booked { OnOk result (self.new.serving.journal
            ≡ behind self.old.serving.grid self.old.serving.journal self.old.pending.asked.items) }
        ensures none { self.new.pending.asked.items ≡ [] }
        ensures come { OnOk result (self.new.pending.progress ≡ self.old.pending.progress) }
        ensures far { OnOk result (HasComeAsFar self.old self.new) }
        ensures ready { OnOk result (IsReady D.seen D.may_leave D.unsynced self.new.serving) }
        ensures memory { IfErr result (λ f. f ≡ NoMemory → IsReady D.seen D.may_leave D.unsynced self.new.serving
            × IsBehindSome self.old.serving.grid self.old.serving.journal self.old.pending.asked.items self.new.serving.journal) }
        ensures device { IfErr result (λ f. f ≡ Device → (self.new.serving.is_open ≡ false)
            × (D.failure_count self.new.serving.tape ≡ noted (D.failure_count self.old.serving.tape))) }
        ensures front { Begins self.old.serving.kept self.new.serving.kept }
        ensures told { KeepsFront (open_text self.old.serving.kept) (D.may_leave self.new.serving.tape) }
        ensures counted { OnOk result (D.failure_count self.new.serving.tape ≡ D.failure_count self.old.serving.tape) }
        ensures same { IsSameFeed self.old self.new }
        ensures limits { (self.new.serving.grid ≡ self.old.serving.grid) × (self.new.serving.cap ≡ self.old.serving.cap) }
    {
        let Feed {
            flights: _,
            served: _,
            days: _,
            serving,
            epoch: _,
            reading: _,
            desks: _,
            calls: _,
            pending,
        } = self;
        match book(rt, alloc, serving, pending.asked.as_slice()) {
            Ok(()) => {
                pending.asked.clear();
                // For the prover alone: only the inventory itself says that its journal is within its limits.
                let _ = serving.journal();
                Ok(())
            }
            Err(fault) => {
                pending.asked.clear();
                pending.progress = Progress::start();
                let _ = serving.journal();
                Err(fault)
            }
        }
    }

    /// What is told of the lines that were heard, in their order, each line of it led by whom it is for.
    pub fn told(&mut self, alloc: Global) -> Result<Vec<u8>, Memory>
        ensures told { IfOk result (λ text. IsText (at_any (IsFeedTurn self.old.flights self.old.serving.grid
            self.old.serving.journal)) 0 self.old.pending.turns.items text.items) }
        ensures same { self.new ≡ self.old }
    {
        let Feed {
            flights,
            served,
            days,
            serving,
            epoch: _,
            reading: _,
            desks: _,
            calls,
            pending,
        } = self;
        told_of(
            alloc,
            flights,
            served,
            days,
            serving,
            calls,
            pending.turns.as_slice(),
        )
    }

    /// The lines that were heard are told.
    #[tactic(auto, using(crate::proofs::Feeds::feed_same))]
    pub fn end_turns(&mut self)
        ensures none { self.new.pending.turns.items ≡ [] }
        ensures same { (self.new.serving ≡ self.old.serving) × (self.new.pending.asked.items ≡ self.old.pending.asked.items)
            × (self.new.pending.progress ≡ self.old.pending.progress) × (self.new.reading ≡ self.old.reading) × (self.new.desks ≡ self.old.desks)
            × (self.new.flights ≡ self.old.flights) × (self.new.epoch ≡ self.old.epoch) }
    {
        self.pending.turns.clear();
    }
}
