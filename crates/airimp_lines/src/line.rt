//! One line of a booking message, whatever text it stands in.
ghost use Rattle.std.specs.Prelude.{◌≡◌, Err, IfErr, IfOk, IfSome, None, Ok};
ghost use Rattle.std.specs.Prelude.{option_to_list};
ghost use Rattle.airline_base.specs.Days.{IsCenturyDay};
ghost use Rattle.airimp_lines.specs.Grammar.{IsRightSegment};
ghost use Rattle.airimp_lines.specs.Steps.{step, AreOwn};

use crate::fault::ScriptKind;
use crate::messages::{heading_of, is_passed_over};
use crate::reading::read_segment;
use crate::requests::Request;
use airline_base::{Day, Locator};

/// What a line says.
#[derive(Clone, Copy)]
pub struct LineRead {
    /// The message that goes on behind it, by its locator, where one does.
    pub message: Option<Locator>,
    /// What it asks for, where it is a segment line.
    pub request: Option<Request>,
}

/// Reads a line without its end, which has this number, within the message of that locator if one is open. Its day is the
/// earliest such date on or after `today`, a day of the years 2000 to 2099. It takes no memory.
pub fn read_line(
    message: Option<Locator>,
    text: &[u8],
    line: u32,
    today: Day,
) -> Result<LineRead, ScriptKind>
    requires { IsCenturyDay today }
    // The message behind it, or its fault.
    ensures message { IfOk result (λ read. step message text.now ≡ Ok read.message) }
    ensures fault { IfErr result (λ kind. step message text.now ≡ Err kind) }
    // Its own request, if it has one.
    ensures asked { IfOk result (λ read. AreOwn today message (line, text.now) (option_to_list read.request)) }
    ensures right { IfOk result (λ read. IfSome read.request (λ request. IsRightSegment request.segment)) }
{
    if text.is_empty() {
        return Ok(passed(None));
    }
    let Some(locator) = message else {
        let Some(locator) = heading_of(text) else {
            return Err(ScriptKind::Locator);
        };
        return Ok(passed(Some(locator)));
    };
    if is_passed_over(text) {
        return Ok(passed(message));
    }
    match read_segment(text, today) {
        Ok(segment) => Ok(LineRead {
            message,
            request: Some(Request {
                locator,
                segment,
                line,
            }),
        }),
        Err(fault) => Err(ScriptKind::Line(fault)),
    }
}

// A line that asks for nothing.
fn passed(message: Option<Locator>) -> LineRead
    ensures { (result.message ≡ message) × (result.request ≡ None) }
{
    LineRead {
        message,
        request: None,
    }
}
