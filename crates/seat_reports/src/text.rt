//! The replies to orders, as `ladder` writes them.
ghost use Rattle.std.specs.Prelude.{◌≡◌, ◌++◌, OnOk};
ghost use Rattle.std.specs.List.{flat_map};
ghost use Rattle.seat_reports.specs.LadderDesk.{advice_text, asked_text, entry_text};

use seat_desk::{put, put_number};
use seat_journal::{Advice, Entry, Work};
use std::alloc::AllocError;

fn put_advice(text: &mut Vec<u8>, advice: &Advice) -> Result<(), AllocError>
    ensures { OnOk result (text.new.items ≡ text.old.items ++ advice_text advice.now) }
{
    put(text, b" KL")?;
    put_number(text, u64::from(advice.seats))?;
    put(text, b"/")?;
    put_number(text, u64::from(advice.number))
}

fn put_advices(text: &mut Vec<u8>, advices: &[Advice]) -> Result<(), AllocError>
    ensures { OnOk result (text.new.items ≡ text.old.items ++ flat_map advice_text advices.now) }
{
    for advice in advices {
        put_advice(text, advice)?;
    }
    Ok(())
}

/// Adds the seats that were asked; what the manager sets asks for none.
fn put_asked(text: &mut Vec<u8>, work: &Work) -> Result<(), AllocError>
    ensures { OnOk result (text.new.items ≡ text.old.items ++ asked_text work.now) }
{
    match work {
        Work::Seats(command) => put_number(text, u64::from(command.seats)),
        Work::Limit(_) => Ok(()),
        Work::Sale(_) => Ok(()),
    }
}

/// Adds the line of an entry: its number, the reply with the seats asked, and its advices.
pub fn put_entry(text: &mut Vec<u8>, entry: &Entry) -> Result<(), AllocError>
    ensures { OnOk result (text.new.items ≡ text.old.items ++ entry_text entry.now) }
{
    put_number(text, u64::from(entry.number))?;
    put(text, b" ")?;
    put(text, &entry.reply.letters())?;
    put_asked(text, &entry.work)?;
    put_advices(text, entry.advices.as_slice())?;
    put(text, b"\n")
}
