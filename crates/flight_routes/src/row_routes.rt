//! Where rows of changes go.
ghost use Rattle.std.specs.Prelude.{◌≡◌, ◌≤◌, ◌++◌, IfOk, OnOk};
ghost use Rattle.flight_routes.specs.RowRoutes.{own_row, row_head, row_route, row_routes_of, row_routes_text, row_text, rows_left};

use crate::designators::Designator;
use airline_base::lines::cut_line;
use airline_base::spelling::{put, put_number};
use arrayvec::ArrayVec;
use seat_limits::ChangeRow;
use std::alloc::{AllocError, Global};

/// Where each row of changes goes that `read_changes` reads of a text: a line for each, in order, with its shard of so many, the manager's session
/// 0, the number of the line, and the row itself.
pub fn route_changes(
    alloc: Global,
    bytes: &[u8],
    rows: &[ChangeRow],
    shards: u16,
) -> Result<Vec<u8>, AllocError>
    requires shards { 1 ≤ shards }
    ensures routes { IfOk result (λ text. text.items ≡ row_routes_text (row_routes_of shards bytes.now rows.now)) }
{
    let mut text = Vec::new(alloc);
    let mut left = rows;
    let mut rest = bytes;
    while !rest.is_empty() {
        let (words, after) = cut_line(rest);
        left = take_line(&mut text, words, left, shards)?;
        rest = after;
    }
    Ok(text)
}

/// Takes a line, and answers the rows that are left behind it.
fn take_line<'a>(
    text: &mut Vec<u8>,
    words: &[u8],
    rows: &'a [ChangeRow],
    shards: u16,
) -> Result<&'a [ChangeRow], AllocError>
    requires shards { 1 ≤ shards }
    ensures left { IfOk result (λ left. left.now ≡ rows_left words.now rows.now) }
    ensures added { OnOk result (text.new.items ≡ text.old.items ++ row_routes_text (own_row shards words.now rows.now)) }
{
    if words.is_empty() {
        return Ok(rows);
    }
    match rows {
        [] => Ok(rows),
        [row, more @ ..] => {
            put_row(text, words, row, shards)?;
            Ok(more)
        }
    }
}

/// Adds the route of a row.
fn put_row(text: &mut Vec<u8>, words: &[u8], row: &ChangeRow, shards: u16) -> Result<(), AllocError>
    requires shards { 1 ≤ shards }
    ensures { OnOk result (text.new.items ≡ text.old.items ++ row_text (row_route shards words.now row.now)) }
{
    let shard = Designator::of_change(row).shard(shards);
    text.extend_from_slice(head_of(shard, row.line).as_slice())?;
    text.extend_from_slice(words)?;
    text.extend_from_slice(b"\n")
}

/// What stands ahead of the row.
fn head_of(shard: u16, line: u32) -> ArrayVec<u8, 32>
    ensures { result.items ≡ row_head shard line }
{
    let mut head = ArrayVec::new();
    put_number(&mut head, u32::from(shard));
    put(&mut head, b" 0 ");
    put_number(&mut head, line);
    put(&mut head, b" ");
    head
}
