//! The table of pickup by class: what the rows of each class come to.
//! It knows no other table.
ghost use Rattle.std.specs.Prelude.{◌≡◌, ◌≤◌, ◌<◌, ◌-◌, ◌∷◌, [], IfOk, OnOk, map};
ghost use Rattle.seat_tables.specs.Rows.{IsTable};
ghost use Rattle.seat_tables.specs.Sheets.{ArePut, IsReady};
ghost use Rattle.pickup_questions.specs.Groups.{AreSums};
ghost use Rattle.pickup_questions.specs.GroupRows.{class_cells, class_names, class_rows, rows_of_class};
ghost use Rattle.pickup_questions.specs.declared.groups.Groups.TheVariants.{Classes};

use crate::groups::Groups;
use crate::moved::{Moved, moved_by, sums_at};
use airline_base::{Class, Memory};
use seat_pickup::{MoveSums, Pickup, has_any};
use seat_tables::{Cell, Form, Sheet, put_row};
use std::alloc::Global;

/// The sums of rows by class.
#[tactic(auto, using(seat_tables::proofs::Putting::table_of))]
pub fn class_table(alloc: Global, form: Form, all: &[Pickup]) -> Result<Vec<u8>, Memory>
    ensures { IfOk result (λ text. IsTable form class_names (class_rows all.now) text.items) }
{
    let moved = moved_by(alloc, Groups::Classes, 26, all)?;
    let mut sheet = Sheet::new(alloc, form, &names())?;
    put_classes(alloc, &mut sheet, &moved)?;
    Ok(sheet.into_text()?)
}

/// The names of the columns.
fn names() -> [&'static str; 6]
    ensures { map (λ n. n.now) result ≡ class_names }
{
    ["class", "before", "sold", "cancelled", "confirmed", "held"]
}

/// Adds the rows of the classes, from A to Z.
fn put_classes(alloc: Global, sheet: &mut Sheet, moved: &Moved<'_>) -> Result<(), Memory>
    requires ready { IsReady sheet.old }
    requires sums { AreSums moved.now }
    requires classes { moved.now.groups ≡ Classes }
    requires count { moved.now.count ≡ 26 }
    ensures { OnOk result (ArePut class_names (class_rows moved.now.all.now) sheet.old sheet.new) }
{
    for i in 0..26u8 {
        put_letter(alloc, sheet, moved, b'A' + i)?;
    }
    Ok(())
}

/// Adds the row of the class of a letter.
#[tactic(auto, using(crate::proofs::Lettering::is_letter))]
fn put_letter(alloc: Global, sheet: &mut Sheet, moved: &Moved<'_>, letter: u8) -> Result<(), Memory>
    requires ready { IsReady sheet.old }
    requires sums { AreSums moved.now }
    requires classes { moved.now.groups ≡ Classes }
    requires count { moved.now.count ≡ 26 }
    requires from { 65 ≤ letter }
    requires to { letter ≤ 90 }
    ensures { OnOk result (ArePut class_names (rows_of_class moved.now.all.now letter) sheet.old sheet.new) }
{
    match Class::new(letter) {
        Some(class) => put_class(alloc, sheet, moved, class),
        None => Ok(()),
    }
}

/// Adds the row of a class, if anything was held in it or came.
#[tactic(auto, using(crate::proofs::Grouping::class_left, crate::proofs::Grouping::class_kept))]
fn put_class(
    alloc: Global,
    sheet: &mut Sheet,
    moved: &Moved<'_>,
    class: Class,
) -> Result<(), Memory>
    requires ready { IsReady sheet.old }
    requires sums { AreSums moved.now }
    requires classes { moved.now.groups ≡ Classes }
    requires count { moved.now.count ≡ 26 }
    ensures { OnOk result (ArePut class_names (rows_of_class moved.now.all.now class) sheet.old sheet.new) }
{
    let sums = sums_at(moved, place_of(class));
    if !has_any(&sums) {
        return Ok(());
    }
    put_cells(alloc, sheet, class, &sums)?;
    Ok(())
}

/// The place of a class, counted from A.
#[tactic(auto, using(seat_pickup::proofs::Counted::low, seat_pickup::proofs::Counted::high))]
fn place_of(class: Class) -> usize
    ensures value { result ≡ class - 65 }
    ensures within { result < 26 }
{
    let letter = class.letter();
    usize::from(letter - b'A')
}

/// Adds the row of a class of these sums.
#[tactic(auto, using(table_questions::proofs::Tables::row_put))]
fn put_cells(alloc: Global, sheet: &mut Sheet, class: Class, sums: &MoveSums) -> Result<(), Memory>
    requires ready { IsReady sheet.old }
    ensures { OnOk result (ArePut class_names (class_cells class sums.now ∷ []) sheet.old sheet.new) }
{
    let row = class_cells(class, sums);
    put_row(alloc, sheet, &names(), &row)?;
    Ok(())
}

/// The row of a class of these sums.
fn class_cells(class: Class, sums: &MoveSums) -> [Cell; 6]
    ensures { result ≡ class_cells class sums.now }
{
    [
        Cell::Letter(class),
        Cell::Number(sums.before),
        Cell::Number(sums.sold),
        Cell::Number(sums.cancelled),
        Cell::Number(sums.confirmed),
        Cell::Number(sums.held),
    ]
}
