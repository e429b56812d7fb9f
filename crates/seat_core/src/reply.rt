//! What a line is answered: the table of replies to a command (AIRIMP codes).
ghost use Rattle.std.specs.Prelude.{◌≡◌, ◌∷◌, ◌≤◌, ◌&&◌, [], find, position, slice_get, None, Some, IfOk, IfSome, IsTrue, length, codes, if◌then◌else◌};
ghost use Rattle.airline_base.specs.Names.{is_code};
ghost use Rattle.seat_journal.specs.declared.entry.Work.TheVariants.{Seats};
ghost use Rattle.seat_nesting.specs.Counting.{limits_of, table_of};
ghost use Rattle.seat_nesting.specs.Nesting.{is_listed, may_wait};
ghost use Rattle.seat_rules.specs.Bookings.{is_for, waiting};
ghost use Rattle.seat_bookings.specs.Books.{book_at, book_for, book_of, queue_at};
ghost use Rattle.seat_bookings.specs.Queues.{queue_of};
ghost use Rattle.seat_rules.specs.Sequential.{Outcome, advice_of, answer, booking_of, cancel, pass, reduced, state_of, want};
ghost use Rattle.seat_rules.specs.declared.booking.Status.TheVariants.{Waiting};
ghost use Rattle.seat_rules.specs.Journal.{line_of};
ghost use Rattle.seat_core.specs.Answers.{CanAnswerWork, CountsFlight, IsReply, Says};

use crate::changes::answer_change;
use crate::pass::{advices_after, advices_of_rest};
use crate::sales::answer_sale;
use airline_base::{Code, Memory, Place};
use seat_bookings::{FlightBook, book_at, find_in, is_listed_at, may_wait_at, queue_at};
use seat_journal::{Advice, Advices, Command, Entry, Work};
use seat_nesting::Counts;
use seat_rules::{Action, Booking, Wish, action_of};
use std::alloc::Global;

/// What a line was answered. Its advices take memory, which may be wanting.
#[derive(Drop)]
pub struct Answer {
    pub reply: Code,
    pub released: u16,
    pub advices: Result<Vec<Advice>, Memory>,
}

/// Answers what line `number` asks for, from the counters and the bookings of its flight. The counters are left as they
/// were.
pub fn answer_work(
    alloc: Global,
    counts: &mut Counts,
    books: &[FlightBook],
    number: u32,
    work: &Work,
) -> Answer
    requires asked { CanAnswerWork counts.old books.now work.now }
    ensures says { Says (answer (state_of (limits_of counts.old) (book_of books.now work.now)) number work.now) result }
    ensures limits { limits_of counts.new ≡ limits_of counts.old }
    ensures seats { table_of counts.new ≡ table_of counts.old }
{
    match work {
        Work::Seats(command) => answer_command(alloc, counts, books, number, command),
        Work::Limit(change) => answer_change(alloc, counts, books, change),
        Work::Sale(change) => answer_sale(alloc, counts, books, change),
    }
}

// Answers a command as line `number`.
fn answer_command(
    alloc: Global,
    counts: &mut Counts,
    books: &[FlightBook],
    number: u32,
    command: &Command,
) -> Answer
    requires flight { IfSome command.now.place (λ p. CountsFlight counts.old books.now p.flight) }
    requires order { IfSome command.now.place (λ p. p.from ≤ p.to) }
    requires some { 1 ≤ command.now.seats }
    ensures says { Says (answer (state_of (limits_of counts.old) (book_for books.now command.now.place)) number
        (Seats command.now)) result }
    ensures limits { limits_of counts.new ≡ limits_of counts.old }
    ensures seats { table_of counts.new ≡ table_of counts.old }
{
    let action = action_of(command.code);
    if let Action::Other = action {
        return reply(alloc, *b"NO");
    }
    let Some(place) = command.place else {
        return reply(alloc, *b"UN");
    };
    let found = find_in(books, command, place);
    match action {
        Action::Want(wish) => match found {
            None => book_seats(alloc, counts, books, number, command, place, wish),
            Some(_) => reply(alloc, *b"NO"),
        },
        Action::Cancel => match found {
            Some(at) => cancel_seats(alloc, counts, books, at, command, place),
            None => reply(alloc, *b"NO"),
        },
        Action::Other => reply(alloc, *b"NO"),
    }
}

/// Answers NN, SS or LL, where there is no booking of the same locator, place and class.
fn book_seats(
    alloc: Global,
    counts: &Counts,
    books: &[FlightBook],
    number: u32,
    command: &Command,
    place: Place,
    wish: Wish,
) -> Answer
    requires flight { CountsFlight counts.now books.now place.flight }
    ensures { Says (want wish (state_of (limits_of counts.now) (book_at books.now place.flight)) number command.now
        place None) result }
{
    let fits = command.seats <= counts.room(place, command.class);
    match wish {
        Wish::Need => {
            if fits {
                return reply(alloc, *b"KK");
            }
            if may_list(counts, books, command, place) {
                return reply(alloc, *b"UU");
            }
            reply(alloc, *b"UC")
        }
        Wish::Sell => {
            if fits {
                return reply(alloc, *b"KK");
            }
            if may_queue(counts, books, command, place) {
                return reply(alloc, *b"US");
            }
            reply(alloc, *b"UC")
        }
        Wish::Waitlist => {
            if !may_queue(counts, books, command, place) {
                return reply(alloc, *b"UC");
            }
            Answer {
                reply: Code::of(*b"HL"),
                released: 0,
                advices: advices_of_queued(alloc, number, command, place, fits),
            }
        }
    }
}

/// Whether a need that finds no room is listed: each leg has the class with the mark, and its seats may wait.
fn may_list(counts: &Counts, books: &[FlightBook], command: &Command, place: Place) -> bool
    requires few { length (book_at books.now place.flight) ≤ 999999 }
    requires queue { queue_at books.now place.flight ≡ queue_of (book_at books.now place.flight) }
    ensures { result ≡ (is_listed (limits_of counts.now) place command.now.class
        && may_wait (limits_of counts.now) (waiting (book_at books.now place.flight)) place command.now.class
        command.now.seats) }
{
    if !is_listed_at(counts, place, command.class) {
        return false;
    }
    may_queue(counts, books, command, place)
}

/// Whether the seats of a command may wait on its flight's waiting list.
#[tactic(auto, using(crate::proofs::Step::Reply::may_wait_is, seat_rules::proofs::Filters::few_pass))]
fn may_queue(counts: &Counts, books: &[FlightBook], command: &Command, place: Place) -> bool
    requires few { length (book_at books.now place.flight) ≤ 999999 }
    requires queue { queue_at books.now place.flight ≡ queue_of (book_at books.now place.flight) }
    ensures { result ≡ may_wait (limits_of counts.now) (waiting (book_at books.now place.flight)) place
        command.now.class command.now.seats }
{
    let (class, seats) = (command.class, command.seats);
    match queue_at(books, place.flight) {
        Some(queue) => queue.may_wait(counts, place, class, seats),
        None => may_wait_at(counts, &[], place, class, seats),
    }
}

/// The advices where an LL's booking waits. Those before it wait in vain, so the pass confirms it alone, if it fits.
fn advices_of_queued(
    alloc: Global,
    number: u32,
    command: &Command,
    place: Place,
    fits: bool,
) -> Result<Vec<Advice>, Memory>
    ensures { IfOk result (λ told. told.items
        ≡ (if fits then advice_of (booking_of number command.now place Waiting) ∷ [] else [])) }
{
    let mut told = Vec::new(alloc);
    if fits {
        let advice = Advice {
            number,
            place,
            class: command.class,
            seats: command.seats,
        };
        let Ok(()) = told.push(advice) else {
            return Err(Memory);
        };
    }
    Ok(told)
}

/// Answers XX, where the booking of the same locator, place and class stands at this index.
fn cancel_seats(
    alloc: Global,
    counts: &mut Counts,
    books: &[FlightBook],
    at: usize,
    command: &Command,
    place: Place,
) -> Answer
    requires flight { CountsFlight counts.old books.now place.flight }
    requires found { position (is_for command.now.locator place command.now.class) (book_at books.now place.flight)
        ≡ Some at }
    requires order { place.from ≤ place.to }
    requires some { 1 ≤ command.now.seats }
    ensures says { Says (cancel (state_of (limits_of counts.old) (book_at books.now place.flight)) command.now place
        (slice_get (book_at books.now place.flight) at)) result }
    ensures limits { limits_of counts.new ≡ limits_of counts.old }
    ensures seats { table_of counts.new ≡ table_of counts.old }
{
    let booking = book_at(books, place.flight)[at];
    let seats = command.seats;
    if seats > booking.seats {
        return reply(alloc, *b"NO");
    }
    Answer {
        reply: Code::of(*b"HX"),
        released: booking.released(seats),
        advices: advices_without(alloc, counts, books, &booking, command, place),
    }
}

/// The advices of the pass that runs once the seats of a command are off its booking.
#[tactic(auto, using(crate::proofs::Step::Reply::cancel_held, crate::proofs::Step::Reply::cancel_waiting))]
fn advices_without(
    alloc: Global,
    counts: &mut Counts,
    books: &[FlightBook],
    booking: &Booking,
    command: &Command,
    place: Place,
) -> Result<Vec<Advice>, Memory>
    requires flight { CountsFlight counts.old books.now place.flight }
    requires found { find (is_for command.now.locator place command.now.class) (book_at books.now place.flight)
        ≡ Some booking.now }
    requires order { place.from ≤ place.to }
    requires some { 1 ≤ command.now.seats }
    requires enough { command.now.seats ≤ booking.now.seats }
    ensures told { IfOk result (λ told. told.items
        ≡ (pass (limits_of counts.old) [] []
        (reduced (is_for command.now.locator place command.now.class) command.now.seats
        (book_at books.now place.flight))).advices) }
    ensures limits { limits_of counts.new ≡ limits_of counts.old }
    ensures seats { table_of counts.new ≡ table_of counts.old }
{
    if booking.is_waiting() {
        return advices_of_rest(alloc, counts, booking, command.seats);
    }
    match queue_at(books, place.flight) {
        Some(queue) => advices_after(alloc, counts, queue, place, command.class, command.seats),
        None => Ok(Vec::new(alloc)),
    }
}

/// A reply that releases nothing and confirms no waiting booking.
pub fn reply(alloc: Global, letters: [u8; 2]) -> Answer
    requires { IsTrue (is_code letters) }
    ensures { IsReply letters result }
{
    Answer {
        reply: Code::of(letters),
        released: 0,
        advices: Ok(Vec::new(alloc)),
    }
}

/// The line with an answer, if there is memory for its advices.
pub fn entry_of(
    alloc: Global,
    told: Answer,
    number: u32,
    session: u8,
    call: u32,
    work: Work,
) -> Result<Entry, Memory>
    ensures { (outcome : Outcome) → Says outcome told
        → IfOk result (λ entry. entry ≡ line_of outcome number session call work) }
{
    let Answer {
        reply,
        released,
        advices,
    } = told;
    let Ok(advices) = advices else {
        return Err(Memory);
    };
    let Ok(advices) = Advices::from_vec(alloc, advices) else {
        return Err(Memory);
    };
    Ok(Entry {
        number,
        session,
        call,
        work,
        reply,
        released,
        advices,
    })
}
