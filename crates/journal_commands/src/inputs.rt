//! The two seasons of a carry, open, and what is made of them and a journal.
ghost use Rattle.std.specs.Prelude.{◌≡◌, ◌≤◌, IfOk, length};
ghost use Rattle.seat_seal.specs.Fronts.{front_of};
ghost use Rattle.seat_seal.specs.Imprints.{imprint_of};
ghost use Rattle.ssim_flights.specs.Right.{IsOfCentury};

use crate::lists::of_row;
use airline_base::{Day, Items};
use carry_plans::{Carriage, CarryAsked, CarryFault, desk_carry};
use command_inputs::{inputs_of, meter_input, meter_inputs};
use progress_meter::{Lines, Meter};
use season_changes::SeasonFault;
use seat_desk::{DeskFault, Inputs};
use seat_files::{Input, Refusal};
use seat_seal::{Beside, SealFault};
use seat_words::{CarryJob, Horizon};
use std::thread::Threads;

/// The set and the limits of the old season, and of the new one.
pub(crate) struct Seasons {
    pub from: Inputs<Input, Input>,
    pub to: Inputs<Input, Input>,
}

impl Drop for Seasons {
    fn drop(self) {
        let Seasons {
            from: _from,
            to: _to,
        } = self;
    }
}

/// Both, open, the new one first.
pub(crate) fn seasons_of<'a>(
    rt: &HostRuntime,
    from: &Horizon<'a>,
    from_days: (Day, u16),
    to: &Horizon<'a>,
    to_days: (Day, u16),
) -> Result<Seasons, Refusal>
    ensures from_first { IfOk result (λ s. s.from.first ≡ from_days.0) }
    ensures from_days { IfOk result (λ s. s.from.days ≡ from_days.1) }
    ensures to_first { IfOk result (λ s. s.to.first ≡ to_days.0) }
    ensures to_days { IfOk result (λ s. s.to.days ≡ to_days.1) }
{
    let to = match inputs_of(rt, to, to_days) {
        Ok(inputs) => inputs,
        Err(refusal) => return Err(refusal),
    };
    let from = match inputs_of(rt, from, from_days) {
        Ok(inputs) => inputs,
        Err(refusal) => return Err(refusal),
    };
    Ok(Seasons { from, to })
}

/// What a carry of a journal makes of these seasons, with what is read counted.
pub(crate) fn made<R: Threads + Sync>(
    rt: &HostRuntime,
    threads: &R,
    meter: &Meter,
    asked: &CarryAsked<'_>,
    seasons: &mut Seasons,
    journal: &mut Input,
    beside: &Beside<'_>,
) -> Result<Carriage, CarryFault>
    requires from_first { IsOfCentury seasons.old.from.first }
    requires from_days { (1 ≤ seasons.old.from.days) × (seasons.old.from.days ≤ 366) }
    requires to_first { IsOfCentury seasons.old.to.first }
    requires to_days { (1 ≤ seasons.old.to.days) × (seasons.old.to.days ≤ 366) }
    requires rows { length asked.now.protections.now ≤ 16777216 }
    ensures imprint { IfOk result (λ c. c.entry.journal.imprint ≡ imprint_of (front_of c.text)) }
{
    meter_inputs(rt, meter, &mut seasons.from);
    meter_inputs(rt, meter, &mut seasons.to);
    meter_input(rt, meter, journal, Lines::Ended);
    desk_carry(
        threads,
        rt.alloc(),
        asked,
        &mut seasons.from,
        &mut seasons.to,
        journal,
        beside,
    )
}

/// Why nothing is carried, of the file that it is of; or the lines of the legs that have too few seats.
pub(crate) fn unmade(
    fault: CarryFault,
    seasons: &Seasons,
    journal: &Input,
    asked: &CarryJob<'_>,
) -> Result<Items<u8>, Refusal> {
    match fault {
        CarryFault::Over(lines) => Ok(lines),
        CarryFault::Season(fault) => Err(of_season(fault, seasons, journal)),
        CarryFault::Unsealed => {
            let refusal = Refusal::from(DeskFault::Seal(SealFault::Missing));
            Err(refusal.noting_all(&[&*journal]))
        }
        CarryFault::Row(fault) => Err(of_row(fault, asked.protections)),
        CarryFault::Full => Err(Refusal::from(DeskFault::TooLarge).at(asked.new, None)),
        CarryFault::Memory => Err(Refusal::from(DeskFault::Memory)),
    }
}

fn of_season(fault: SeasonFault, seasons: &Seasons, journal: &Input) -> Refusal {
    Refusal::from(fault.shown())
        .noting_all(&[&seasons.to.set, &seasons.to.limits])
        .noting_all(&[&seasons.from.set, &seasons.from.limits])
        .noting_all(&[&*journal])
}

/// The same of several journals.
pub(crate) fn unmade_of(
    fault: CarryFault,
    seasons: &Seasons,
    journals: &[Input],
    asked: &CarryJob<'_>,
) -> Result<Items<u8>, Refusal> {
    match fault {
        CarryFault::Over(lines) => Ok(lines),
        CarryFault::Season(fault) => Err(
            Refusal::from(fault.shown())
                .noting_all(&[&seasons.to.set, &seasons.to.limits])
                .noting_all(&[&seasons.from.set, &seasons.from.limits])
                .noting_each(journals),
        ),
        CarryFault::Unsealed => {
            let refusal = Refusal::from(DeskFault::Seal(SealFault::Missing));
            Err(refusal.noting_each(journals))
        }
        CarryFault::Row(fault) => Err(of_row(fault, asked.protections)),
        CarryFault::Full => Err(Refusal::from(DeskFault::TooLarge).at(asked.new, None)),
        CarryFault::Memory => Err(Refusal::from(DeskFault::Memory)),
    }
}
