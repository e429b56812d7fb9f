//! A section for a class: its columns, a day each, and its rows.
//! It knows no other section.
ghost use Rattle.std.specs.Prelude.{◌≡◌, ◌+◌, ◌≤◌, ◌++◌, IfOk, OnOk};
ghost use Rattle.airline_base.specs.Days.{IsDay};
ghost use Rattle.load_pages.specs.Sections.{AreHeads, IsHeadPut, class_text, filled_text, section_text};

use crate::load::LegLoad;
use crate::marks::{Mark, put_mark};
use crate::pieces::put;
use crate::rows::put_rows;
use airline_base::{Class, Day};
use std::alloc::{AllocError, Global};

/// The columns of so many days from the first on, which end by 31 December 2199.
#[tactic(auto, using(crate::proofs::Heading::day_there, crate::proofs::Heading::heads_more, crate::proofs::Heading::heads_whole))]
pub fn day_heads(alloc: Global, first: Day, count: u32) -> Result<Vec<u8>, AllocError>
    requires { first + count ≤ 84006 }
    ensures { IfOk result (λ heads. AreHeads count first heads.items) }
{
    let day = first.number();
    let mut heads = Vec::new(alloc);
    for i in 0..count {
        put_head(&mut heads, day + i)?;
    }
    Ok(heads)
}

/// Adds the column of the day with this number.
#[tactic(auto, using(crate::proofs::Heading::head_put))]
fn put_head(heads: &mut Vec<u8>, number: u32) -> Result<(), AllocError>
    requires { IsDay number }
    ensures { OnOk result (IsHeadPut number heads.old.items heads.new.items) }
{
    let day = Day::numbered(number);
    put_mark(heads, Mark::Column)?;
    put(heads, &day.bytes())
}

/// Adds the section of a class: under columns of days from the first on, the rows of its legs; nothing where it has none.
pub fn put_section(
    text: &mut Vec<u8>,
    heads: &[u8],
    class: Class,
    first: Day,
    loads: &[LegLoad],
) -> Result<(), AllocError>
    ensures { OnOk result (text.new.items ≡ text.old.items ++ section_text heads.now class first loads.now) }
{
    match loads {
        [] => Ok(()),
        [_, ..] => put_filled(text, heads, class, first, loads),
    }
}

fn put_filled(
    text: &mut Vec<u8>,
    heads: &[u8],
    class: Class,
    first: Day,
    loads: &[LegLoad],
) -> Result<(), AllocError>
    ensures { OnOk result (text.new.items ≡ text.old.items ++ filled_text heads.now class first loads.now) }
{
    put_class(text, class)?;
    put(text, heads)?;
    put_mark(text, Mark::Body)?;
    put_rows(text, first, loads)?;
    put_mark(text, Mark::End)
}

/// Adds the title of a class, and its table up to the columns.
#[tactic(auto, using(crate::proofs::Heading::class_put))]
fn put_class(text: &mut Vec<u8>, class: Class) -> Result<(), AllocError>
    ensures { OnOk result (text.new.items ≡ text.old.items ++ class_text class) }
{
    let letter = [class.letter()];
    put_mark(text, Mark::Section)?;
    put(text, &letter)?;
    put_mark(text, Mark::Title)?;
    put(text, &letter)?;
    put_mark(text, Mark::Region)?;
    put(text, &letter)?;
    put_mark(text, Mark::Table)
}
