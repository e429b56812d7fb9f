//! What a season file says.
//! It knows the keys and what each may be, and nothing of how the text is written or what is done with it.
ghost use Rattle.std.specs.Prelude.{◌≡◌, IfErr, IfOk, Ok, Err, option_map};
ghost use Rattle.seat_season.specs.Keys.{key_text};
ghost use Rattle.seat_season.specs.Season.{days_in, desks_in, first_in, name_in, read_at, said, season_in, told, unknown_in, values_in, values_said, whole_in, missing, wrong};
ghost use Rattle.toml.specs.Data.{get_member};
ghost use Rattle.toml.specs.View.{items_view, table_view, view};

use crate::fault::SeasonFault;
use crate::key::{Key, is_key};
use crate::values::{days_of, desks_of, first_of, name_of};
use toml::{Table, Value};
use toml_datetime::Date;

/// What a season says. Names of files are relative to its own folder.
#[derive(Clone, Copy)]
pub struct Season<'a> {
    /// The data set.
    pub set: &'a str,
    /// The limit rows.
    pub limits: &'a str,
    /// The first day, of the years 2000 to 2099.
    pub first: Date,
    /// How many days from the first on, 1 to 366.
    pub days: u16,
    /// The journal, where the season has one.
    pub journal: Option<&'a str>,
    /// The names of desks, where the season has some: the nth is that of session n.
    pub desks: Option<&'a [Value]>,
}

/// The values of a season's keys, of which none need be there.
#[derive(Clone, Copy)]
pub(crate) struct Values<'a> {
    set: Option<&'a str>,
    limits: Option<&'a str>,
    first: Option<Date>,
    days: Option<u16>,
    journal: Option<&'a str>,
    desks: Option<&'a [Value]>,
}

/// The season that a table is. The first fault is of a key that no season has, then of a value that its key may not have, in the order of
/// set, limits, first, days, journal and desks, and then of one of the first four that is missing.
#[tactic(auto, unfolding(crate::specs::Season::season_in))]
pub fn season_of(table: &Table) -> Result<Season<'_>, SeasonFault<'_>>
    ensures season { IfOk result (λ s. season_in (table_view table.now) ≡ Ok (said s)) }
    ensures fault { IfErr result (λ f. season_in (table_view table.now) ≡ Err (told f)) }
{
    if let Some(key) = unknown_key(table) {
        return Err(SeasonFault::Unknown(key));
    }
    let values = match values_of(table) {
        Ok(values) => values,
        Err(key) => return Err(SeasonFault::Wrong(key)),
    };
    match whole(&values) {
        Ok(season) => Ok(season),
        Err(key) => Err(SeasonFault::Missing(key)),
    }
}

/// The first key that no season has.
fn unknown_key(table: &Table) -> Option<&str>
    ensures { option_map (λ key. key.now) result ≡ unknown_in (table_view table.now) }
{
    'members: for (key, _member) in table.iter() {
        if !is_key(key.as_str()) {
            return Some(key.as_str());
        }
    }
    None
}

/// The values of a table, or the first key that has a wrong one.
#[tactic(auto, unfolding(crate::specs::Season::values_in))]
fn values_of(table: &Table) -> Result<Values<'_>, Key>
    ensures values { IfOk result (λ v. values_in (table_view table.now) ≡ Ok (values_said v)) }
    ensures fault { IfErr result (λ key. values_in (table_view table.now) ≡ Err (wrong key)) }
{
    let set = match name_at(table, Key::Set) {
        Ok(set) => set,
        Err(key) => return Err(key),
    };
    let limits = match name_at(table, Key::Limits) {
        Ok(limits) => limits,
        Err(key) => return Err(key),
    };
    let first = match first_at(table) {
        Ok(first) => first,
        Err(key) => return Err(key),
    };
    let days = match days_at(table) {
        Ok(days) => days,
        Err(key) => return Err(key),
    };
    let journal = match name_at(table, Key::Journal) {
        Ok(journal) => journal,
        Err(key) => return Err(key),
    };
    let desks = match desks_at(table) {
        Ok(desks) => desks,
        Err(key) => return Err(key),
    };
    Ok(Values {
        set,
        limits,
        first,
        days,
        journal,
        desks,
    })
}

/// The season of these values, or the first key that it lacks.
#[tactic(auto, unfolding(crate::specs::Season::whole_in))]
fn whole<'a>(values: &Values<'a>) -> Result<Season<'a>, Key>
    ensures season { IfOk result (λ s. whole_in (values_said values.now) ≡ Ok (said s)) }
    ensures fault { IfErr result (λ key. whole_in (values_said values.now) ≡ Err (missing key)) }
{
    let Some(set) = values.set else {
        return Err(Key::Set);
    };
    let Some(limits) = values.limits else {
        return Err(Key::Limits);
    };
    let Some(first) = values.first else {
        return Err(Key::First);
    };
    let Some(days) = values.days else {
        return Err(Key::Days);
    };
    Ok(Season {
        set,
        limits,
        first,
        days,
        journal: values.journal,
        desks: values.desks,
    })
}

fn name_at<'a>(table: &'a Table, key: Key) -> Result<Option<&'a str>, Key>
    ensures value { IfOk result (λ name. read_at key name_in (table_view table.now) ≡ Ok (option_map (λ text. text.now) name)) }
    ensures fault { IfErr result (λ wrong_key. read_at key name_in (table_view table.now) ≡ Err (wrong wrong_key)) }
{
    let Some(value) = value_at(table, key) else {
        return Ok(None);
    };
    match name_of(value) {
        Some(name) => Ok(Some(name)),
        None => Err(key),
    }
}

fn first_at(table: &Table) -> Result<Option<Date>, Key>
    ensures value { IfOk result (λ first. read_at Key.First first_in (table_view table.now) ≡ Ok first) }
    ensures fault { IfErr result (λ key. read_at Key.First first_in (table_view table.now) ≡ Err (wrong key)) }
{
    let Some(value) = value_at(table, Key::First) else {
        return Ok(None);
    };
    match first_of(value) {
        Some(first) => Ok(Some(first)),
        None => Err(Key::First),
    }
}

fn days_at(table: &Table) -> Result<Option<u16>, Key>
    ensures value { IfOk result (λ days. read_at Key.Days days_in (table_view table.now) ≡ Ok days) }
    ensures fault { IfErr result (λ key. read_at Key.Days days_in (table_view table.now) ≡ Err (wrong key)) }
{
    let Some(value) = value_at(table, Key::Days) else {
        return Ok(None);
    };
    match days_of(value) {
        Some(days) => Ok(Some(days)),
        None => Err(Key::Days),
    }
}

fn desks_at(table: &Table) -> Result<Option<&[Value]>, Key>
    ensures value { IfOk result (λ desks. read_at Key.Desks desks_in (table_view table.now)
        ≡ Ok (option_map (λ names. items_view names.now) desks)) }
    ensures fault { IfErr result (λ key. read_at Key.Desks desks_in (table_view table.now) ≡ Err (wrong key)) }
{
    let Some(value) = value_at(table, Key::Desks) else {
        return Ok(None);
    };
    match desks_of(value) {
        Some(desks) => Ok(Some(desks)),
        None => Err(Key::Desks),
    }
}

fn value_at(table: &Table, key: Key) -> Option<&Value>
    ensures { option_map (λ value. view value.now) result ≡ get_member (key_text key) (table_view table.now) }
{
    table.get(key.text())
}
