//! What runs have booked, by imprints.
//! It knows runs, and nothing of a text.
ghost use Rattle.std.specs.Prelude.{◌≡◌, ◌++◌, IfOk, OnOk, map};
ghost use Rattle.std.specs.List.Sorted.{IsPermutation};
ghost use Rattle.seat_seal.specs.Booked.{AreInOrder, changes_booked, changes_of, imprint_in, is_ahead, scripts_booked, scripts_of};

use crate::imprint::Imprint;
use crate::run::Run;
use crate::scripts::Script;
use airline_base::Items;
use std::alloc::{AllocError, Global};

/// Imprints of what was booked, those of the fewest bytes first.
pub type Booked = Items<Imprint>;

/// The scripts that the runs booked which began ahead of so many lines, or where no number is given all runs.
pub fn scripts_booked(alloc: Global, lines: Option<u64>, runs: &[Run]) -> Result<Booked, AllocError>
    ensures all { IfOk result (λ booked. IsPermutation (scripts_booked lines runs.now) booked) }
    ensures sorted { IfOk result AreInOrder }
{
    let mut booked = Vec::new(alloc);
    for run in runs {
        add_scripts(&mut booked, lines, run)?;
    }
    Ok(in_order(booked))
}

/// The changes that they booked.
pub fn changes_booked(alloc: Global, lines: Option<u64>, runs: &[Run]) -> Result<Booked, AllocError>
    ensures all { IfOk result (λ booked. IsPermutation (changes_booked lines runs.now) booked) }
    ensures sorted { IfOk result AreInOrder }
{
    let mut booked = Vec::new(alloc);
    for run in runs {
        add_changes(&mut booked, lines, run)?;
    }
    Ok(in_order(booked))
}

fn add_scripts(booked: &mut Vec<Imprint>, lines: Option<u64>, run: &Run) -> Result<(), AllocError>
    ensures { OnOk result (booked.new.items ≡ booked.old.items ++ scripts_of lines run.now) }
{
    if !is_ahead(lines, run) {
        return Ok(());
    }
    add_each(booked, run.scripts.as_slice())
}

fn add_each(booked: &mut Vec<Imprint>, scripts: &[Script]) -> Result<(), AllocError>
    ensures { OnOk result (booked.new.items ≡ booked.old.items ++ map imprint_in scripts.now) }
{
    for script in scripts {
        booked.push(script.imprint)?;
    }
    Ok(())
}

fn add_changes(booked: &mut Vec<Imprint>, lines: Option<u64>, run: &Run) -> Result<(), AllocError>
    ensures { OnOk result (booked.new.items ≡ booked.old.items ++ changes_of lines run.now) }
{
    if !is_ahead(lines, run) {
        return Ok(());
    }
    match &run.changes {
        Some(imprint) => booked.push(*imprint)?,
        None => {}
    }
    Ok(())
}

/// Whether the run began ahead of so many lines.
fn is_ahead(lines: Option<u64>, run: &Run) -> bool
    ensures { result ≡ is_ahead lines run.now }
{
    match lines {
        Some(lines) => (run.behind as u64) < lines,
        None => true,
    }
}

fn in_order(booked: Vec<Imprint>) -> Booked
    ensures all { IsPermutation booked.items result }
    ensures sorted { AreInOrder result }
{
    let mut booked = booked;
    booked.sort_unstable_by_key(|one| one.bytes);
    Items::from_vec(booked)
}
