//! The lines of a run as entries that can be written and read again, each field with a value of its type.
ghost use Rattle.std.specs.List.{AllByRecursion};
ghost use Rattle.seat_journal.specs.Text.{IsAdvice, IsChange, IsCommand, IsEntry, IsPlace, IsSale, IsStem, IsWork};

use airline_base::Place;
use seat_journal::{Advice, Change, Command, Entry, SaleChange, Work};

/// Each line is an entry, whose text can be read again. It only reads them: their types say it, before anything is written.
pub fn prove_entries(lines: &[Entry])
    ensures { AllByRecursion IsEntry lines.now }
{
    for line in lines {
        prove_entry(line);
    }
}

fn prove_entry(line: &Entry)
    ensures { IsEntry line.now }
{
    prove_stem(line);
    prove_advices(line.advices.as_slice());
}

fn prove_stem(line: &Entry)
    ensures { IsStem line.now }
{
    let _number = line.number;
    let _session = line.session;
    let _call = line.call;
    let _released = line.released;
    let _reply = line.reply.letters();
    prove_work(line.work);
}

fn prove_work(work: Work)
    ensures { IsWork work }
{
    match work {
        Work::Seats(command) => prove_command(command),
        Work::Limit(change) => prove_change(change),
        Work::Sale(change) => prove_sale(change),
    }
}

fn prove_change(change: Change)
    ensures { IsChange change }
{
    let _flight = change.flight;
    let _class = change.class.letter();
}

fn prove_sale(change: SaleChange)
    ensures { IsSale change }
{
    let _flight = change.flight;
    if let Some(class) = change.class {
        let _class = class.letter();
    }
}

fn prove_command(command: Command)
    ensures { IsCommand command }
{
    let _locator = command.locator.characters();
    let _class = command.class.letter();
    let _code = command.code.letters();
    if let Some(place) = command.place {
        prove_place(place);
    }
}

fn prove_place(place: Place)
    ensures { IsPlace place }
{
    let _flight = place.flight;
}

fn prove_advices(advices: &[Advice])
    ensures { AllByRecursion IsAdvice advices.now }
{
    for advice in advices {
        prove_advice(*advice);
    }
}

fn prove_advice(advice: Advice)
    ensures { IsAdvice advice }
{
    let _class = advice.class.letter();
    prove_place(advice.place);
}
