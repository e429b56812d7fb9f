//! A host of several desks, each silent until somebody says hello.
ghost use Rattle.std.specs.Prelude.{◌≡◌, ◌+◌, [], length, All, IfErr, IfOk, OnOk};
ghost use Rattle.airline_base.specs.Days.{IsCenturyDay};
ghost use Rattle.seat_desk.specs.Loading.{IsGridOf};
ghost use Rattle.desk_serving.specs.Groups.{IsHallOver};
ghost use Rattle.desk_serving.specs.Silence.{IsSilentAt};

use airline_base::{Day, Memory};
use desk_answers::OpenHost;
use desk_calls::CallIndex;
use desk_hall::Hall;
use desk_lines::Desk;
use flight_days::DayFlights;
use seat_disk::Tape;
use ssim_flights::{Flights, Served};
use std::alloc::Global;
use std::sync::Wait;

/// The same host for eight desks and a manager, whose lines are read on its day, at a journal of its epoch. Nobody has said hello.
#[tactic(auto, using(crate::proofs::Silence::silent_manager, crate::proofs::Silence::silent_hall, crate::proofs::Groups::hall_over))]
pub(crate) fn hall_over<'a, R: Wait, D: Tape>(
    rt: &R,
    alloc: Global,
    flights: &'a Flights,
    host: OpenHost<'a, D>,
) -> Result<Hall<'a, D>, D>
    requires grid { IsGridOf flights.now host.serving.grid }
    requires today { IsCenturyDay host.desk.today }
    ensures over { IfOk result (IsHallOver flights.now host.entry.serving host.entry.desk.today host.entry.desk.epoch) }
    ensures serving { IfOk result (λ hall. hall.serving ≡ host.entry.serving) }
    ensures today { IfOk result (λ hall. hall.today ≡ host.entry.desk.today) }
    ensures tape { IfErr result (λ tape. tape ≡ host.entry.serving.tape) }
{
    let today = host.today();
    let epoch = host.epoch();
    let serving = host.into_serving();
    let Ok(served) = Served::new(alloc, flights) else {
        return Err(serving.close(rt));
    };
    let Ok(days) = DayFlights::new(alloc, flights) else {
        return Err(serving.close(rt));
    };
    let Ok(desks) = silent_desks(alloc, today, epoch) else {
        return Err(serving.close(rt));
    };
    let Ok(calls) = no_calls(alloc) else {
        return Err(serving.close(rt));
    };
    Ok(Hall::over(
        flights,
        served,
        days,
        serving,
        today,
        desks,
        Desk::silent(today, epoch),
        calls,
        Vec::new(alloc),
        Vec::new(alloc),
    ))
}

#[tactic(auto, using(crate::proofs::Silence::silent, crate::proofs::Silence::all_silent))]
fn silent_desks(alloc: Global, today: Day, epoch: u32) -> Result<Vec<Desk>, Memory>
    ensures count { IfOk result (λ desks. length desks.items ≡ 8) }
    ensures silent { IfOk result (λ desks. All (IsSilentAt epoch) desks.items) }
{
    let desks = [Desk::silent(today, epoch); 8];
    Ok(Vec::from_slice(alloc, &desks)?)
}

// One for the manager, and one for each desk.
fn no_calls(alloc: Global) -> Result<Vec<CallIndex>, Memory>
    ensures { IfOk result (λ calls. length calls.items ≡ 9) }
{
    let mut calls = Vec::new(alloc);
    add_three(alloc, &mut calls)?;
    add_three(alloc, &mut calls)?;
    add_three(alloc, &mut calls)?;
    Ok(calls)
}

fn add_three(alloc: Global, calls: &mut Vec<CallIndex>) -> Result<(), Memory>
    ensures { OnOk result (length calls.new.items ≡ length calls.old.items + 3) }
{
    calls.push(CallIndex::new(alloc))?;
    calls.push(CallIndex::new(alloc))?;
    calls.push(CallIndex::new(alloc))?;
    Ok(())
}
