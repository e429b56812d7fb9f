//! `loads --html`: a page of the legs that are kept, a section for each class.
//! It knows which days stand across, and how long a page may be.
ghost use Rattle.std.specs.Prelude.{◌≡◌, ◌≤◌, ◌+◌, ◌++◌, IfOk, OnOk};
ghost use Rattle.seat_rules.specs.Inventory.{state_now};
ghost use Rattle.page_questions.specs.Page.{class_section, columns_of, first_of, fitting, page_text};

use crate::shown::shown_legs;
use airline_base::{Class, Day};
use load_pages::{MOST_PAGE_BYTES, day_heads, put_closing, put_opening, put_section};
use seat_core::Core;
use seat_desk::Standing;
use seat_loads::LoadsOf;
use ssim_flights::Flights;
use std::alloc::{AllocError, Global};
use table_questions::{days_from, latest_of};

/// How full the legs are that are asked for, as one page; nothing in place of a page of more than 30,000,000 bytes. Bars are passed over.
#[derive(Clone, Copy)]
pub struct LoadPage {
    pub loads: LoadsOf,
}

impl Standing for LoadPage {
    ghost use Rattle.seat_rules.specs.Journal.{replay};
    ghost use Rattle.page_questions.specs.Page.{IsPage};

    ghost tells = { λ asked flights grid entries text. IsPage asked.loads (replay grid entries) flights text };

    #[tactic(auto, using(crate::proofs::Paging::page_is, crate::proofs::Paging::days_within))]
    fn standing(
        &self,
        alloc: Global,
        flights: &Flights,
        core: &Core,
    ) -> Result<Vec<u8>, AllocError> {
        let asked = &self.loads;
        let first = first_of(asked.day, flights);
        let heads = day_heads(alloc, first, columns_of(asked.day, flights))?;
        page_under(alloc, flights, core, asked, first, &heads)
    }
}

/// The first of the days across.
fn first_of(asked: Option<Day>, flights: &Flights) -> Day
    ensures { result ≡ first_of asked flights.now }
{
    match asked {
        Some(day) => day,
        None => Day::numbered(days_from(flights)),
    }
}

/// How many days stand across.
#[tactic(auto, using(crate::proofs::Paging::one_day, crate::proofs::Paging::all_days))]
fn columns_of(asked: Option<Day>, flights: &Flights) -> u32
    ensures value { result ≡ columns_of asked flights.now }
    ensures within { first_of asked flights.now + result ≤ 84006 }
{
    match asked {
        Some(day) => {
            let _ = day.number();
            1
        }
        None => (latest_of(flights) + 1).saturating_sub(days_from(flights)),
    }
}

/// The page under columns with these heads, or nothing if it is too long.
#[tactic(auto, using(crate::proofs::Paging::opened, crate::proofs::Paging::is_too_long, crate::proofs::Paging::closed_too_long, crate::proofs::Paging::closed))]
fn page_under(
    alloc: Global,
    flights: &Flights,
    core: &Core,
    asked: &LoadsOf,
    first: Day,
    heads: &[u8],
) -> Result<Vec<u8>, AllocError>
    ensures { IfOk result (λ text. text.items ≡ fitting (page_text asked.now (state_now core.now) flights.now first heads.now)) }
{
    let mut text = Vec::new(alloc);
    put_opening(&mut text)?;
    for i in 0..26u8 {
        if text.len() > MOST_PAGE_BYTES {
            return Ok(Vec::new(alloc));
        }
        put_letter(
            alloc,
            &mut text,
            flights,
            core,
            asked,
            first,
            heads,
            b'A' + i,
        )?;
    }
    put_closing(&mut text)?;
    if text.len() > MOST_PAGE_BYTES {
        return Ok(Vec::new(alloc));
    }
    Ok(text)
}

/// Adds the section of the class of a letter.
#[tactic(auto, using(crate::proofs::Paging::is_letter, crate::proofs::Paging::letter_put))]
fn put_letter(
    alloc: Global,
    text: &mut Vec<u8>,
    flights: &Flights,
    core: &Core,
    asked: &LoadsOf,
    first: Day,
    heads: &[u8],
    letter: u8,
) -> Result<(), AllocError>
    requires from { 65 ≤ letter }
    requires to { letter ≤ 90 }
    ensures { OnOk result (text.new.items ≡ text.old.items
        ++ class_section asked.now (state_now core.now) flights.now first heads.now letter) }
{
    match Class::new(letter) {
        Some(class) => put_class(alloc, text, flights, core, asked, first, heads, class),
        None => Ok(()),
    }
}

/// Adds the section of a class.
#[tactic(auto, using(crate::proofs::Paging::section_put))]
fn put_class(
    alloc: Global,
    text: &mut Vec<u8>,
    flights: &Flights,
    core: &Core,
    asked: &LoadsOf,
    first: Day,
    heads: &[u8],
    class: Class,
) -> Result<(), AllocError>
    ensures { OnOk result (text.new.items ≡ text.old.items
        ++ class_section asked.now (state_now core.now) flights.now first heads.now class) }
{
    let loads = shown_legs(alloc, flights, core, asked, class)?;
    put_section(text, heads, class, first, &loads)
}
