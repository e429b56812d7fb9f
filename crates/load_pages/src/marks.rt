//! The pieces of HTML that stand between values.
ghost use Rattle.std.specs.Prelude.{◌≡◌, ◌++◌, OnOk};
ghost use Rattle.load_pages.specs.Marks.{mark_text};

use crate::pieces::put;
use std::alloc::AllocError;

/// What stands between two values.
#[derive(Clone, Copy)]
pub enum Mark {
    /// A section begins, ahead of its title's name.
    Section,
    /// Between the title's name and its class.
    Title,
    /// The title ends, and what scrolls the table begins, ahead of the title's name.
    Region,
    /// The table begins, with the head of its first column.
    Table,
    /// Ahead of the head of a column.
    Column,
    /// The columns end.
    Body,
    /// A row begins.
    Row,
    /// Ahead of a number of days.
    Gap,
    /// Behind it.
    Close,
    /// The section ends.
    End,
}

/// Adds such a piece.
#[tactic(auto, unfolding(crate::specs::Marks::mark_text))]
pub fn put_mark(text: &mut Vec<u8>, mark: Mark) -> Result<(), AllocError>
    ensures { OnOk result (text.new.items ≡ text.old.items ++ mark_text mark) }
{
    match mark {
        Mark::Section => put(text, b"\n<section><h2 id="),
        Mark::Title => put(text, b">Class "),
        Mark::Region => put(text, b"</h2><div role=region tabindex=0 aria-labelledby="),
        Mark::Table => put(text, b"><table><thead><tr><th scope=col>Flight"),
        Mark::Column => put(text, b"<th scope=col>"),
        Mark::Body => put(text, b"<tbody>"),
        Mark::Row => put(text, b"\n<tr><th scope=row>"),
        Mark::Gap => put(text, b"<td colspan="),
        Mark::Close => put(text, b">"),
        Mark::End => put(text, b"</table></div></section>"),
    }
}
