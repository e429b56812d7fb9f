//! A host that serves a feed to its end, and then ends and seals its journal.
ghost use Rattle.std.specs.Prelude.{◌≡◌, ◌<◌, ℕ, IfErr, IfOk, IfSome, IsTrue, OnOk, false, length};
ghost use Rattle.airline_base.specs.Days.{IsCenturyDay};
ghost use Rattle.airline_base.specs.Noting.{noted};
ghost use Rattle.desk_answers.specs.Hosts.{IsReady};
ghost use Rattle.desk_serving.specs.Daily.{IsOfEpoch, IsOnDay, IsSealedStill, StaysNamed};
ghost use Rattle.desk_serving.specs.Serving.{IsFed, IsFedFront, IsFedOut, IsFedTo, IsFedUnsealed, IsLivedTo, IsOfFeed, IsStrangeFed, is_of_journal};
ghost use Rattle.desk_serving.specs.declared.fault.StreamFault.{StreamFault as Fault};
ghost use Rattle.desk_serving.specs.declared.fault.FedFault.TheVariants.{Behind, Broken, End, Seal};
ghost use Rattle.desk_serving.specs.declared.fault.StreamFault.TheVariants.{Dating, Input, Output, Strange};
ghost use Rattle.desk_talk.specs.Ending.{IsEnded, IsLeftOpen};
ghost use Rattle.seat_desk.specs.AuditDesk.{most_lines};
ghost use Rattle.seat_desk.specs.Desk.{HasFailed};
ghost use Rattle.seat_desk.specs.Loading.{IsGridOf};
ghost use Rattle.seat_disk.specs.Growing.{KeepsFront};
ghost use Rattle.seat_disk.specs.Keeping.{KeepsNoMore};
ghost use Rattle.seat_recovery.specs.OpenText.{open_text};
ghost use Rattle.seat_restoring.specs.Dating.{IsDated, Stands};
ghost use Rattle.seat_restoring.specs.Serving.{IsSealedEnd, NamesAll};
ghost use Rattle.seat_rules.specs.Prefixes.{Begins};
ghost use Rattle.seat_sealing.specs.Pairs.{NoneDenied};
ghost use Rattle.seat_serving.specs.declared.serving.ServeFault.{ServeFault as EndFault};

use crate::fault::FedFault;
use crate::feed_opening::feed_over;
use crate::streaming::stream;
use airline_base::{NotedRead, NotedWrite};
use desk_answers::OpenHost;
use desk_status::Board;
use seat_desk::DeskFault;
use seat_disk::{Replaced, Tape};
use seat_restoring::seal_closed;
use seat_seal::{Basis, Sealed};
use seat_serving::Ended;
use ssim_flights::Flights;
use std::alloc::Global;
use std::sync::Wait;

/// Serves a feed, behind the first `behind` lines of the host's journal, to the end of what it is read from, and ends the journal, while the
/// open seal of the lines that the host began with stands in the file `seals`: a later day of the feed than the host's is in it, on its disk, before a
/// line is told under that day. Then the closed seal of all lines takes its place, of this basis, and with the day and the runs of the open one. Whatever a
/// crash leaves of the two files, the seal has the journal's entry.
///
/// The journal is then what the feed's numbered lines made of the lines that were there, each taken as it was at its first coming. What the host has
/// come to stands on the board behind each piece.
#[tactic(auto, using(desk_talk::proofs::Closed::few_ended, crate::proofs::Daily::on_day, crate::proofs::Daily::stays_still))]
pub fn serve_feed<R: Wait, I: NotedRead, W: NotedWrite, D: Tape, K: Replaced>(
    rt: &R,
    alloc: Global,
    flights: &Flights,
    host: OpenHost<'_, D>,
    behind: u32,
    board: &Board,
    input: &mut I,
    out: &mut W,
    basis: &Basis,
    begun: Sealed,
    seals: &mut K,
) -> Result<(Ended, D), (FedFault, D)>
    requires grid { IsGridOf flights.now host.serving.grid }
    requires today { IsCenturyDay host.desk.today }
    requires ready { IsReady D.seen D.may_leave D.unsynced host.serving }
    requires cap { host.serving.cap ≡ most_lines }
    requires named { NamesAll host.serving.kept (K.may_leave seals.old) }
    requires stands { Stands begun host.serving.kept (K.may_leave seals.old) }
    requires dated { IsDated host.desk.today begun.era }
    ensures fed { IfOk result (λ r. IfSome (I.remaining input.old) (IsFed flights.now host.entry.serving begun.era.epoch behind
        host.entry.desk.today (K.may_leave seals.new) (W.contents out.old) (W.contents out.new) r.0.journal)) }
    ensures lived { IfOk result (λ r. IsLivedTo flights.now host.entry.serving behind r.0.journal) }
    ensures ended { IfOk result (λ r. IsEnded host.entry.serving.grid host.entry.serving.cap r.0 (D.seen r.1)
        (D.may_leave r.1) (D.unsynced r.1)) }
    ensures front { IfOk result (λ r. Begins host.entry.serving.kept r.0.journal) }
    ensures sealed { IfOk result (λ r. IsSealedEnd basis.now begun.runs r.0.journal (K.named seals.old) (K.named seals.new)
        (K.may_leave seals.new)) }
    ensures dated { OnOk result (IsOfEpoch begun.era.epoch (K.may_leave seals.new)) }
    ensures accepted { IfOk result (λ r. NoneDenied (D.may_leave r.1) (K.may_leave seals.new)) }
    ensures agrees { IfErr result (λ f. NoneDenied (D.may_leave f.1) (K.may_leave seals.new)) }
    ensures only { KeepsNoMore (K.kept_may_leave seals.old) (K.kept_may_leave seals.new) }
    ensures told { IfErr result (λ f. KeepsFront (open_text host.entry.serving.kept) (D.may_leave f.1)) }
    ensures open { IfErr result (λ f. IsOfFeed f.0 → is_of_journal f.0 ≡ false → IsLeftOpen host.entry.serving.kept (D.seen f.1)
        (D.may_leave f.1) (D.unsynced f.1)) }
    ensures journal { IfErr result (λ f. IsTrue (is_of_journal f.0)
        → D.failure_count f.1 ≡ noted (D.failure_count host.entry.serving.tape)) }
    ensures behind { IfErr result (λ f. f.0 ≡ Behind → length host.entry.serving.journal < behind) }
    ensures strange { IfErr result (λ f. (a b : ℕ) → f.0 ≡ Broken (Strange a b) → IsStrangeFed flights.now host.entry.serving begun.era.epoch
        behind a b (D.seen f.1) (D.may_leave f.1)) }
    ensures broken { IfErr result (λ f. (b : Fault) → f.0 ≡ Broken b → IsFedFront flights.now host.entry.serving begun.era.epoch behind b
        (I.remaining input.old) (W.contents out.old) (W.contents out.new) (D.seen f.1) (D.may_leave f.1)) }
    ensures streamed { IfErr result (λ f. (e : EndFault) → f.0 ≡ End e → IfSome (I.remaining input.old) (IsFedOut flights.now host.entry.serving
        begun.era.epoch behind (W.contents out.old) (W.contents out.new))) }
    ensures input { IfErr result (λ f. f.0 ≡ Broken Input → I.failure_count input.new ≡ noted (I.failure_count input.old)) }
    ensures output { IfErr result (λ f. f.0 ≡ Broken Output → W.failure_count out.new ≡ noted (W.failure_count out.old)) }
    ensures dating { IfErr result (λ f. f.0 ≡ Broken (Dating DeskFault.Device) → HasFailed K.failure_count seals.old seals.new) }
    ensures unheard { IfErr result (λ f. f.0 ≡ Behind → (input.new ≡ input.old) × (out.new ≡ out.old) × (seals.new ≡ seals.old)
        × (f.1 ≡ host.entry.serving.tape)) }
    ensures unsealed { IfErr result (λ f. IsOfFeed f.0 → NamesAll host.entry.serving.kept (K.may_leave seals.new)) }
    ensures over { IfErr result (λ f. (e : DeskFault) → f.0 ≡ Seal e → IsFedUnsealed flights.now host.entry.serving begun.era.epoch behind
        host.entry.desk.today basis.now begun.runs e (I.remaining input.old) (W.contents out.old) (W.contents out.new) (D.seen f.1)
        (D.may_leave f.1) (D.unsynced f.1) (K.may_leave seals.new)) }
    ensures device { IfErr result (λ f. f.0 ≡ Seal DeskFault.Device → HasFailed K.failure_count seals.old seals.new) }
{
    let mut entry = begun;
    let served = match serve_ended(
        rt, alloc, flights, host, behind, board, input, out, &mut entry, seals,
    ) {
        Ok(served) => served,
        Err(refused) => return Err(refused),
    };
    let (ended, tape) = served;
    match seal_closed(alloc, basis, entry, &ended.journal, seals) {
        Ok(()) => Ok((ended, tape)),
        Err(fault) => Err((FedFault::Seal(fault), tape)),
    }
}

// Serves the feed to its end, and ends the journal. Where the feed is broken off the journal is left open.
#[tactic(auto, using(crate::proofs::Goes::ready_as, crate::proofs::Ended::told_at_once, crate::proofs::Ended::left_at_once, crate::proofs::Daily::stays_same, crate::proofs::Daily::stays_on, crate::proofs::Daily::some_day, crate::proofs::Daily::day_as, crate::proofs::Opened::none_asked_yet, crate::proofs::Opened::no_journal_yet, crate::proofs::Opened::of_feed, crate::proofs::Opened::no_stranger, crate::proofs::Written::nothing_written, crate::proofs::Written::no_stream, crate::proofs::Opened::no_opening_streamed, crate::proofs::Opened::no_broken_streamed, crate::proofs::Fresh::since_begun, crate::proofs::Opened::no_opening_input, crate::proofs::Opened::no_opening_output, crate::proofs::Opened::no_opening_date))]
fn serve_ended<R: Wait, I: NotedRead, W: NotedWrite, D: Tape, K: Replaced>(
    rt: &R,
    alloc: Global,
    flights: &Flights,
    host: OpenHost<'_, D>,
    behind: u32,
    board: &Board,
    input: &mut I,
    out: &mut W,
    entry: &mut Sealed,
    seals: &mut K,
) -> Result<(Ended, D), (FedFault, D)>
    requires grid { IsGridOf flights.now host.serving.grid }
    requires today { IsCenturyDay host.desk.today }
    requires ready { IsReady D.seen D.may_leave D.unsynced host.serving }
    requires dated { IsOnDay host.desk.today entry.old (K.may_leave seals.old) }
    ensures fed { IfOk result (λ r. IfSome (I.remaining input.old) (IsFedTo flights.now host.entry.serving entry.old.era.epoch behind
        host.entry.desk.today entry.new.era (W.contents out.old) (W.contents out.new) r.0.journal)) }
    ensures lived { IfOk result (λ r. IsLivedTo flights.now host.entry.serving behind r.0.journal) }
    ensures ended { IfOk result (λ r. IsEnded host.entry.serving.grid host.entry.serving.cap r.0 (D.seen r.1)
        (D.may_leave r.1) (D.unsynced r.1)) }
    ensures front { IfOk result (λ r. Begins host.entry.serving.kept r.0.journal) }
    ensures told { IfErr result (λ f. KeepsFront (open_text host.entry.serving.kept) (D.may_leave f.1)) }
    ensures open { IfErr result (λ f. is_of_journal f.0 ≡ false → IsLeftOpen host.entry.serving.kept (D.seen f.1)
        (D.may_leave f.1) (D.unsynced f.1)) }
    ensures journal { IfErr result (λ f. IsTrue (is_of_journal f.0)
        → D.failure_count f.1 ≡ noted (D.failure_count host.entry.serving.tape)) }
    ensures behind { IfErr result (λ f. f.0 ≡ Behind → length host.entry.serving.journal < behind) }
    ensures strange { IfErr result (λ f. (a b : ℕ) → f.0 ≡ Broken (Strange a b) → IsStrangeFed flights.now host.entry.serving
        entry.old.era.epoch behind a b (D.seen f.1) (D.may_leave f.1)) }
    ensures broken { IfErr result (λ f. (b : Fault) → f.0 ≡ Broken b → IsFedFront flights.now host.entry.serving entry.old.era.epoch behind b
        (I.remaining input.old) (W.contents out.old) (W.contents out.new) (D.seen f.1) (D.may_leave f.1)) }
    ensures streamed { IfErr result (λ f. (e : EndFault) → f.0 ≡ End e → IfSome (I.remaining input.old) (IsFedOut flights.now host.entry.serving
        entry.old.era.epoch behind (W.contents out.old) (W.contents out.new))) }
    ensures input { IfErr result (λ f. f.0 ≡ Broken Input → I.failure_count input.new ≡ noted (I.failure_count input.old)) }
    ensures output { IfErr result (λ f. f.0 ≡ Broken Output → W.failure_count out.new ≡ noted (W.failure_count out.old)) }
    ensures dating { IfErr result (λ f. f.0 ≡ Broken (Dating DeskFault.Device) → HasFailed K.failure_count seals.old seals.new) }
    ensures unheard { IfErr result (λ f. f.0 ≡ Behind → (input.new ≡ input.old) × (out.new ≡ out.old) × (seals.new ≡ seals.old)
        × (f.1 ≡ host.entry.serving.tape)) }
    ensures kind { IfErr result (λ f. IsOfFeed f.0) }
    ensures sealed { OnOk result (IsSealedStill K.named K.may_leave K.kept_may_leave K.failure_count entry.old entry.new seals.old seals.new) }
    ensures stays { StaysNamed K.may_leave K.kept_may_leave entry.old seals.old seals.new }
{
    let mut day = host.today();
    let opened = match feed_over(rt, alloc, flights, host, entry.era.epoch, behind) {
        Ok(opened) => opened,
        Err(refused) => return Err(refused),
    };
    let mut feed = opened;
    let streamed = stream(
        rt, alloc, &mut feed, &mut day, entry, seals, board, input, out,
    );
    let serving = feed.into_serving();
    match streamed {
        Ok(()) => match serving.end(rt, alloc) {
            Ok(ended) => Ok(ended),
            Err(refused) => {
                let (fault, tape) = refused;
                Err((FedFault::End(fault), tape))
            }
        },
        Err(fault) => Err((FedFault::Broken(fault), serving.close(rt))),
    }
}
