//! `serve` over the real file of a journal, which it locks, its seal's, and a desk or a feed on standard input and standard output, or desks on pipes.
//! It knows which file and stream is which, and nothing of what a desk's line means.
ghost use Rattle.std.specs.Prelude.{◌≡◌, ◌≤◌, IfOk, IfSome, length};
ghost use Rattle.std.specs.Arc.{arc_value};
ghost use Rattle.airline_base.specs.Days.{IsCenturyDay};
ghost use Rattle.desk_answers.specs.Hosts.{AreViewers, IsReady};
ghost use Rattle.seat_desk.specs.AuditDesk.{most_lines};
ghost use Rattle.seat_desk.specs.Loading.{IsGridOf};
ghost use Rattle.seat_restoring.specs.Dating.{AreOfEra, IsDated, IsNotEarlier, Stands};
ghost use Rattle.seat_restoring.specs.Serving.{NamesAll};
ghost use Rattle.ssim_flights.specs.Right.{IsOfCentury};

use crate::clients::{Clients, clients_named, status_named};
use crate::feeding::{Fed, Stream, board_shown, stream_dated};
use crate::piping::{Pipes, started};
use crate::restoring::{as_beside, pass_guard, seal_out, tell_kept, unopened};
use crate::unserved::{Unserved, refusal_of, stopped, unread};
use airline_base::Day;
use command_inputs::{day_of_run, days_of, inputs_of, tell_found_unsealed};
use desk_answers::OpenHost;
use desk_looks::{Gallery, Season};
use desk_pipes::Outlook;
use desk_serving::{FedFault, HostedFault, StreamFault, serve_desks, serve_feed};
use desk_talk::{open_host, serve_sealed};
use seat_desk::{Based, DeskFault, Inputs, Loaded, load_based};
use seat_disk::{Replaced, Tape};
use seat_display::Viewer;
use seat_files::{Input, Output, Refusal, SealOut, StatusFile, standard_input, standard_output};
use seat_nesting::Grid;
use seat_recovery::MOST_OPEN_BYTES;
use seat_restoring::{NoDay, host_day};
use seat_seal::{Basis, Beside, Sealed};
use seat_serving::ServeFault;
use seat_tape::{BesideFile, TapeFile, open};
use seat_words::{Horizon, ServeJob, WordFault};
use ssim_flights::Flights;
use std::alloc::Global;
use std::fs;
use std::fs::File;
use std::sync::{Arc, Wait};
use std::thread::Threads;
use std::time::Clock;

/// One for the manager, and one for each desk.
const VIEWERS: u8 = 9;

const STANDARD_ERROR: &str = "/proc/self/fd/2";

const NOTHING: &str = "/dev/null";

/// Memory was wanting ahead of the first line.
const NO_MEMORY: HostedFault = HostedFault::Day(ServeFault::Memory);

/// The same, of a feed.
const NO_ROOM_TO_SAY: FedFault = FedFault::Broken(StreamFault::Memory);

/// Goes on with a journal beside its seal, or begins it, answers a desk up to the end of its input, or desks up to the manager's end, and
/// ends and seals the journal.
pub fn serve<'a, R: Threads + Wait + Clock + Copy + Send + 'static>(
    rt: &'a HostRuntime,
    waits: &R,
    job: &ServeJob<'a>,
) -> Result<(), Refusal> {
    let _error = standard_error_held(rt);
    let days = days_of(job.over.first, job.over.days)?;
    let said = day_said(job.today)?;
    let mut clients = match clients_named(rt, job) {
        Ok(clients) => clients,
        Err(refusal) => return Err(refusal),
    };
    let (inputs, based) = match inputs_passed(rt, &job.over, days, job.journal) {
        Ok(passed) => passed,
        Err(refusal) => return Err(refusal),
    };
    let (tape, status) = match tape_and_status(rt, job, &inputs) {
        Ok(opened) => opened,
        Err(refusal) => return Err(refusal),
    };
    clients.place(rt, status);
    serve_locked(rt, waits, &inputs, based, said, clients, job.journal, tape)
}

/// The journal's file, locked, and behind that the file that is to say what the host has come to.
fn tape_and_status(
    rt: &HostRuntime,
    job: &ServeJob<'_>,
    inputs: &Inputs<Input, Input>,
) -> Result<(TapeFile, Option<StatusFile>), Refusal> {
    let tape = match open(rt, job.journal) {
        Ok(tape) => tape,
        Err(fault) => return Err(unopened(job.journal, fault)),
    };
    match status_named(rt, job, inputs) {
        Ok(status) => Ok((tape, status)),
        Err(refusal) => Err(refusal),
    }
}

/// What stands in for standard error where nothing is open on it: a pipe or a file that is opened next would have its descriptor, and the notes.
fn standard_error_held(rt: &HostRuntime) -> Option<File> {
    match fs::metadata(rt, STANDARD_ERROR) {
        Ok(_) => None,
        Err(_) => File::open(rt, NOTHING).ok(),
    }
}

/// The flights and the limits of the inputs, which the journal is none of.
fn inputs_passed<'a>(
    rt: &HostRuntime,
    over: &Horizon<'a>,
    days: (Day, u16),
    journal: &'a str,
) -> Result<(Inputs<Input, Input>, Based), Refusal>
    requires first { IsOfCentury days.0 }
    requires days { (1 ≤ days.1) × (days.1 ≤ 366) }
    ensures grid { IfOk result (λ r. IsGridOf r.1.loaded.flights r.1.loaded.grid) }
{
    let mut inputs = match inputs_of(rt, over, days) {
        Ok(inputs) => inputs,
        Err(refusal) => return Err(refusal),
    };
    pass_guard(rt, &inputs, journal)?;
    match load_based(rt.alloc(), &mut inputs, true) {
        Ok(based) => Ok((inputs, based)),
        Err(fault) => Err(Refusal::from(fault).noting_all(&[&inputs.set, &inputs.limits])),
    }
}

/// The same with the inputs read and the journal locked.
fn serve_locked<'a, R: Threads + Wait + Clock + Copy + Send + 'static>(
    rt: &'a HostRuntime,
    waits: &R,
    inputs: &Inputs<Input, Input>,
    based: Based,
    said: Option<Day>,
    clients: Clients<Fed>,
    journal: &'a str,
    tape: TapeFile,
) -> Result<(), Refusal>
    requires grid { IsGridOf based.loaded.flights based.loaded.grid }
    requires said { IfSome said IsCenturyDay }
{
    let (path, mut seals, text) = match seal_beside(rt, journal, inputs) {
        Ok(beside) => beside,
        Err(refusal) => return Err(refusal),
    };
    let mut beside = BesideFile::of(rt, path.as_str());
    let outcome = serve_over(
        rt,
        waits,
        based,
        said,
        clients,
        journal,
        &as_beside(&text),
        tape,
        &mut beside,
        &mut seals,
    );
    seals.leave();
    match outcome {
        Ok(()) => Ok(()),
        Err(refusal) => Err(refusal.noting_seal(&seals)),
    }
}

/// Where the journal's name leads, the file of its seal, and what stands there.
fn seal_beside(
    rt: &HostRuntime,
    journal: &str,
    inputs: &Inputs<Input, Input>,
) -> Result<(String, SealOut, Option<Vec<u8>>), Refusal> {
    let path = match fs::canonicalize(rt, journal) {
        Ok(path) => path.into_string(),
        Err(error) => return Err(Refusal::unopened(journal, &error)),
    };
    let mut seals = match seal_out(rt, journal, path.as_str(), inputs) {
        Ok(seals) => seals,
        Err(refusal) => return Err(refusal),
    };
    match seals.text() {
        Ok(text) => Ok((path, seals, text)),
        Err(refusal) => {
            seals.leave();
            Err(refusal)
        }
    }
}

/// The same with what stands beside the journal read.
fn serve_over<'a, R: Threads + Wait + Clock + Copy + Send + 'static>(
    rt: &'a HostRuntime,
    waits: &R,
    based: Based,
    said: Option<Day>,
    clients: Clients<Fed>,
    journal: &'a str,
    seal: &Beside<'_>,
    tape: TapeFile,
    beside: &mut BesideFile<'_>,
    seals: &mut SealOut,
) -> Result<(), Refusal>
    requires grid { IsGridOf based.loaded.flights based.loaded.grid }
    requires said { IfSome said IsCenturyDay }
{
    let Based { loaded, basis } = based;
    let Loaded { flights, grid, .. } = loaded;
    let mut tape = tape;
    let bytes = match tape.read_all(rt.alloc(), MOST_OPEN_BYTES) {
        Ok(bytes) => bytes,
        Err(fault) => return Err(unread(fault, journal, &tape)),
    };
    let dated = dated(rt, waits, clients, seal, &basis, &bytes, said, journal);
    let (today, clients) = match dated {
        Ok(dated) => dated,
        Err(refusal) => return Err(refusal),
    };
    let Ok(season) = Season::shared(rt.alloc(), flights, &grid) else {
        return Err(Refusal::from(DeskFault::Memory));
    };
    serve_read(
        rt, waits, &season, grid, &basis, today, clients, bytes, journal, seal, tape, beside, seals,
    )
}

/// The day of the host, and its clients with what they are read from: a feed has its days in it, and else the day is said, or the seal has it.
fn dated<R: Threads + Wait + Copy + Send + 'static>(
    rt: &HostRuntime,
    waits: &R,
    clients: Clients<Fed>,
    seal: &Beside<'_>,
    basis: &Basis,
    bytes: &[u8],
    said: Option<Day>,
    journal: &str,
) -> Result<(Day, Clients<Stream<R>>), Refusal>
    requires said { IfSome said IsCenturyDay }
    ensures century { IfOk result (λ r. IsCenturyDay r.0) }
    ensures later { IfOk result (λ r. IsNotEarlier seal.now bytes.now r.0) }
{
    match clients {
        Clients::Feed(fed) => match stream_beside(rt, waits, fed, seal, basis, bytes, journal) {
            Ok((today, stream)) => Ok((today, Clients::Feed(stream))),
            Err(refusal) => Err(refusal),
        },
        Clients::Desk => match day_beside(seal, basis, bytes, said, journal) {
            Ok(today) => Ok((today, Clients::Desk)),
            Err(refusal) => Err(refusal),
        },
        Clients::Pipes(pipes) => match day_beside(seal, basis, bytes, said, journal) {
            Ok(today) => Ok((today, Clients::Pipes(pipes))),
            Err(refusal) => Err(refusal),
        },
    }
}

/// The same with the journal's bytes read, on this day.
#[tactic(auto, using(desk_serving::proofs::Ended::opened_grid, desk_serving::proofs::Ended::opened_today, desk_serving::proofs::Ended::opened_dated))]
fn serve_read<'a, R: Threads + Wait + Clock + Copy + Send + 'static>(
    rt: &'a HostRuntime,
    waits: &R,
    season: &Arc<Season>,
    grid: Grid,
    basis: &Basis,
    today: Day,
    clients: Clients<Stream<R>>,
    bytes: Vec<u8>,
    journal: &'a str,
    seal: &Beside<'_>,
    tape: TapeFile,
    beside: &mut BesideFile<'_>,
    seals: &mut SealOut,
) -> Result<(), Refusal>
    requires grid { IsGridOf (arc_value season.now).flights grid }
    requires opening { (arc_value season.now).grid ≡ grid }
    requires size { length bytes.items ≤ 268_435_445 }
    requires today { IsCenturyDay today }
    requires later { IsNotEarlier seal.now bytes.items today }
{
    let is_unsealed = seal.text.is_none() && has_entry(&bytes);
    let opened = open_host(
        waits,
        rt.alloc(),
        season.flights(),
        grid,
        today,
        VIEWERS,
        seal,
        basis,
        &bytes,
        tape,
        beside,
        seals,
    );
    drop(bytes);
    tell_kept(rt, journal, beside);
    let (host, sealed, viewers) = match opened {
        Ok(opened) => opened,
        Err(refused) => return Err(stopped(refused, journal, beside)),
    };
    if is_unsealed {
        tell_found_unsealed(rt, journal);
    }
    let (mut input, mut out) = (standard_input(rt), standard_output(rt));
    match serve_opened(
        waits,
        rt.alloc(),
        season,
        host,
        viewers,
        clients,
        basis,
        sealed,
        &mut input,
        &mut out,
        seals,
    ) {
        Ok(()) => Ok(()),
        Err((fault, tape)) => Err(refusal_of(fault, journal, tape, &input, &out)),
    }
}

/// Serves the clients of a host that is open, to their end.
fn serve_opened<R: Threads + Wait + Clock + Copy + Send + 'static, D: Tape + Drop, K: Replaced>(
    waits: &R,
    alloc: Global,
    season: &Arc<Season>,
    host: OpenHost<'_, D>,
    viewers: Vec<Viewer>,
    clients: Clients<Stream<R>>,
    basis: &Basis,
    sealed: Sealed,
    input: &mut Input,
    out: &mut Output,
    seals: &mut K,
) -> Result<(), (Unserved, D)>
    requires viewers { AreViewers (arc_value season.now).grid viewers.items }
    requires grid { IsGridOf (arc_value season.now).flights host.serving.grid }
    requires today { IsCenturyDay host.desk.today }
    requires ready { IsReady D.seen D.may_leave D.unsynced host.serving }
    requires cap { host.serving.cap ≡ most_lines }
    requires named { NamesAll host.serving.kept (K.may_leave seals.old) }
    requires stands { Stands sealed host.serving.kept (K.may_leave seals.old) }
    requires era { AreOfEra sealed.era (K.may_leave seals.old) }
    requires dated { IsDated host.desk.today sealed.era }
{
    match clients {
        Clients::Feed(stream) => match stream_served(
            waits,
            alloc,
            season.flights(),
            host,
            stream,
            out,
            basis,
            sealed,
            seals,
        ) {
            Ok(()) => Ok(()),
            Err((fault, tape)) => Err((Unserved::Feed(fault), tape)),
        },
        Clients::Desk => match serve_sealed(waits, alloc, host, basis, sealed, input, out, seals) {
            Ok(_) => Ok(()),
            Err((fault, tape)) => Err((Unserved::Desk(fault), tape)),
        },
        Clients::Pipes(pipes) => match desks_served(
            waits, alloc, season, host, viewers, pipes, basis, sealed, seals,
        ) {
            Ok(()) => Ok(()),
            Err((fault, tape)) => Err((Unserved::Pipes(fault), tape)),
        },
    }
}

/// A feed, up to the end of what it is read from, with its status beside it.
fn stream_served<R: Threads + Wait + Clock + Copy + Send + 'static, D: Tape + Drop, K: Replaced>(
    waits: &R,
    alloc: Global,
    flights: &Flights,
    host: OpenHost<'_, D>,
    stream: Stream<R>,
    out: &mut Output,
    basis: &Basis,
    sealed: Sealed,
    seals: &mut K,
) -> Result<(), (FedFault, D)>
    requires grid { IsGridOf flights.now host.serving.grid }
    requires today { IsCenturyDay host.desk.today }
    requires ready { IsReady D.seen D.may_leave D.unsynced host.serving }
    requires cap { host.serving.cap ≡ most_lines }
    requires named { NamesAll host.serving.kept (K.may_leave seals.old) }
    requires stands { Stands sealed host.serving.kept (K.may_leave seals.old) }
    requires dated { IsDated host.desk.today sealed.era }
{
    let Stream { fed, mut input } = stream;
    let Fed {
        behind,
        every,
        status,
    } = fed;
    let Ok(board) = board_shown(waits, alloc, status, every) else {
        return Err((NO_ROOM_TO_SAY, host.into_serving().close(waits)));
    };
    let served = serve_feed(
        waits, alloc, flights, host, behind, &board, &mut input, out, basis, sealed, seals,
    );
    board.end(waits);
    match served {
        Ok(_) => Ok(()),
        Err(refused) => Err(refused),
    }
}

/// Desks on pipes, up to the manager's end.
fn desks_served<R: Threads + Wait + Clock + Copy + Send + 'static, D: Tape + Drop, K: Replaced>(
    waits: &R,
    alloc: Global,
    season: &Arc<Season>,
    host: OpenHost<'_, D>,
    viewers: Vec<Viewer>,
    pipes: Pipes,
    basis: &Basis,
    sealed: Sealed,
    seals: &mut K,
) -> Result<(), (HostedFault, D)>
    requires viewers { AreViewers (arc_value season.now).grid viewers.items }
    requires grid { IsGridOf (arc_value season.now).flights host.serving.grid }
    requires today { IsCenturyDay host.desk.today }
    requires ready { IsReady D.seen D.may_leave D.unsynced host.serving }
    requires cap { host.serving.cap ≡ most_lines }
    requires named { NamesAll host.serving.kept (K.may_leave seals.old) }
    requires stands { Stands sealed host.serving.kept (K.may_leave seals.old) }
    requires dated { IsDated host.desk.today sealed.era }
{
    let closes = pipes.closes_departed;
    let outlook = Outlook::new(host.today(), host.serving().journal().len() as u32);
    let Ok(gallery) = Gallery::new(season, viewers) else {
        return Err((NO_MEMORY, host.into_serving().close(waits)));
    };
    let Ok(shared) = started(waits, alloc, pipes, outlook, gallery) else {
        return Err((NO_MEMORY, host.into_serving().close(waits)));
    };
    let served = serve_desks(
        waits,
        alloc,
        season.flights(),
        host,
        &shared.post,
        closes,
        &shared.board,
        basis,
        sealed,
        seals,
    );
    shared.post.end(waits);
    shared.board.end(waits);
    match served {
        Ok(_) => Ok(()),
        Err(refused) => Err(refused),
    }
}

/// The day that is said, where one is.
fn day_said(today: Option<&str>) -> Result<Option<Day>, WordFault>
    ensures { IfOk result (λ said. IfSome said IsCenturyDay) }
{
    match today {
        Some(today) => Ok(Some(day_of_run(today)?)),
        None => Ok(None),
    }
}

/// The feed, and the day of its host, where what stands beside the journal doesn't refuse it: nothing of a feed is read ahead of that.
fn stream_beside<R: Threads + Wait + Copy + Send + 'static>(
    rt: &HostRuntime,
    waits: &R,
    fed: Fed,
    seal: &Beside<'_>,
    basis: &Basis,
    bytes: &[u8],
    journal: &str,
) -> Result<(Day, Stream<R>), Refusal>
    ensures century { IfOk result (λ r. IsCenturyDay r.0) }
    ensures later { IfOk result (λ r. IsNotEarlier seal.now bytes.now r.0) }
{
    if let Err(NoDay::Refused(fault)) = host_day(seal, basis, bytes, None) {
        return Err(Refusal::from(fault).at(journal, None));
    }
    stream_dated(rt, waits, fed, seal, bytes)
}

/// The day of the host: the one that is said, or else that of the journal's seal.
fn day_beside(
    seal: &Beside<'_>,
    basis: &Basis,
    bytes: &[u8],
    said: Option<Day>,
    journal: &str,
) -> Result<Day, Refusal>
    requires said { IfSome said IsCenturyDay }
    ensures century { IfOk result IsCenturyDay }
    ensures later { IfOk result (IsNotEarlier seal.now bytes.now) }
{
    match host_day(seal, basis, bytes, said) {
        Ok(today) => Ok(today),
        Err(NoDay::Missing) => Err(Refusal::from(WordFault::BadToday)),
        Err(NoDay::Earlier(_)) => Err(Refusal::from(WordFault::BadToday).at(journal, None)),
        Err(NoDay::Refused(fault)) => Err(Refusal::from(fault).at(journal, None)),
    }
}

/// Whether a journal's text has an entry: its second line begins with a digit, as no END line does.
fn has_entry(bytes: &[u8]) -> bool {
    let mut begins_line = false;
    for byte in bytes {
        if begins_line {
            return (*byte).is_ascii_digit();
        }
        begins_line = *byte == b'\n';
    }
    false
}
