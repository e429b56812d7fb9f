//! The set and the limits of a command, open, and its days.
//! It knows which words name a day, and nothing of what a command does with them.
ghost use Rattle.std.specs.Prelude.{◌≡◌, ◌≤◌, IfOk};
ghost use Rattle.airline_base.specs.Days.{IsCenturyDay};
ghost use Rattle.ssim_flights.specs.Right.{IsOfCentury};

use airline_base::Day;
use seat_desk::Inputs;
use seat_files::{Input, Refusal, opened};
use seat_words::{Horizon, WordFault, date_word, days_word};

/// The data set and the limit rows, open, and the dates.
pub fn inputs_of(
    rt: &HostRuntime,
    over: &Horizon<'_>,
    days: (Day, u16),
) -> Result<Inputs<Input, Input>, Refusal>
    ensures first { IfOk result (λ inputs. inputs.first ≡ days.0) }
    ensures days { IfOk result (λ inputs. inputs.days ≡ days.1) }
{
    let set = opened(rt, over.set)?;
    let limits = opened(rt, over.limits)?;
    Ok(Inputs {
        set,
        limits,
        first: days.0,
        days: days.1,
    })
}

/// The day on which requests are read.
#[tactic(auto, using(crate::proofs::Horizons::day_of_word))]
pub fn day_of_run(today: &str) -> Result<Day, WordFault>
    ensures { IfOk result IsCenturyDay }
{
    match date_word(today) {
        Some(today) => Ok(today),
        None => Err(WordFault::BadToday),
    }
}

/// The first day and the number of days.
#[tactic(auto, using(crate::proofs::Horizons::of_word))]
pub fn days_of(first: &str, days: &str) -> Result<(Day, u16), WordFault>
    ensures first { IfOk result (λ r. IsOfCentury r.0) }
    ensures days { IfOk result (λ r. (1 ≤ r.1) × (r.1 ≤ 366)) }
{
    let Some(first) = date_word(first) else {
        return Err(WordFault::BadFirst);
    };
    let Some(days) = days_word(days) else {
        return Err(WordFault::BadDays);
    };
    Ok((first, days))
}
