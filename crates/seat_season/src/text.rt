//! The text of a season file.
ghost use Rattle.std.specs.Prelude.{◌≡◌, ◌≤◌, ◌+◌, IfErr, IfOk, IsSome, IsUtf8, Some, length, take};
ghost use Rattle.seat_season.specs.Text.{IsNoTable, line_ends};
ghost use Rattle.toml.specs.Parse.{parse_document};
ghost use Rattle.toml.specs.View.{table_view};

use crate::fault::TextFault;
use std::alloc::Global;
use toml::Table;

/// The most bytes that a season file may have.
pub const MOST_SEASON_BYTES: u64 = 65_536;

/// The table that a text is, which is UTF-8 and TOML 1.1.
pub fn season_table(alloc: Global, text: &[u8]) -> Result<Table, TextFault>
    requires short { length text.now ≤ 65536 }
    ensures table { IfOk result (λ t. IsUtf8 text.now × (parse_document text.now ≡ Some (table_view t))) }
    ensures fault { IfErr result (IsNoTable text.now) }
{
    match toml::table_from_slice(alloc, text) {
        Ok(table) => Ok(table),
        Err(fault) => match fault.span() {
            Some(place) => Err(TextFault::Line(line_at(text, place.start))),
            None => Err(TextFault::Memory),
        },
    }
}

/// The line of the byte at this place, from 1.
fn line_at(text: &[u8], place: usize) -> u32
    requires short { length text.now ≤ 65536 }
    requires within { place ≤ length text.now }
    ensures { result ≡ 1 + line_ends (take place text.now) }
{
    let mut rest = &text[..place];
    let mut line: u32 = 1;
    while let [byte, more @ ..] = rest {
        if *byte == b'\n' {
            line += 1;
        }
        rest = more;
    }
    line
}
