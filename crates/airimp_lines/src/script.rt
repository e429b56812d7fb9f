//! Scripts: booking messages with empty lines between them.
ghost use Rattle.std.specs.Prelude.{◌≢◌, All, ◌≡◌, ◌<◌, ◌^◌, ◌++◌, List, length, Ok, IfOk, IfErr, IsSome, OnOk};
ghost use Rattle.std.specs.Prelude.{option_to_list};
ghost use Rattle.std.specs.Result.{MatchResult};
ghost use Rattle.airline_base.specs.Days.{IsCenturyDay};
ghost use Rattle.airimp_lines.specs.Grammar.{IsRightSegment};
ghost use Rattle.airimp_lines.specs.Script.{IsScript};
ghost use Rattle.airimp_lines.specs.Steps.{step, Adds, IsFirstFault, IsStop, WantsRoom};
ghost use Rattle.airimp_lines.specs.declared.requests.Request.{Request as Said};
ghost use Rattle.airimp_lines.specs.declared.fault.ScriptKind.TheVariants.{Memory};

use crate::fault::{ScriptFault, ScriptKind};
use crate::line::read_line;
use crate::requests::{Request, Requests};
use airline_base::lines::cut_line;
use airline_base::{Day, Locator};
use std::alloc::Global;

/// The requests of a script of booking messages (AIRIMP), of less than 4 GiB. Their days are the earliest such dates on or
/// after `today`, a day of the years 2000 to 2099. A refusal names the first faulty line.
pub fn read_script(alloc: Global, bytes: &[u8], today: Day) -> Result<Requests, ScriptFault>
    requires today { IsCenturyDay today }
    requires size { length bytes.now < 2 ^ 32 }
    // What is read are the requests of the script.
    ensures found { IfOk result (IsScript today bytes.now) }
    // The requests of a script are read, unless memory is wanting.
    ensures only { (requests : List Said) → IsScript today bytes.now requests
        → MatchResult result (λ r. r ≡ requests) (λ f. f.kind ≡ Memory) }
    // Which line is refused: the first with a fault, and its first fault.
    ensures fault { IfErr result (λ f. f.kind ≢ Memory → IsFirstFault bytes.now f.line f.kind) }
    // Want of memory is met at a segment line, where no line up to it has a fault.
    ensures memory { IfErr result (λ f. f.kind ≡ Memory → WantsRoom bytes.now f.line) }
    // Each segment of it has numbers and a suffix as they may be.
    ensures right { IfOk result (All (λ request. IsRightSegment request.segment)) }
{
    let mut requests = Requests::new(alloc);
    let mut message = None;
    let mut rest = bytes;
    let mut line = 0;
    while !rest.is_empty() {
        let (text, after) = cut_line(rest);
        line += 1;
        match take_line(&mut requests, message, text, line, today) {
            Ok(next) => message = next,
            Err(kind) => return Err(ScriptFault { line, kind }),
        }
        rest = after;
    }
    Ok(requests)
}

/// Takes a line, within the message of that locator if one is open, and answers which message is open after it.
fn take_line(
    requests: &mut Requests,
    message: Option<Locator>,
    text: &[u8],
    line: u32,
    today: Day,
) -> Result<Option<Locator>, ScriptKind>
    requires { IsCenturyDay today }
    ensures taken { IfOk result (λ next. step message text.now ≡ Ok next) }
    ensures added { IfOk result (λ _. Adds today message (line, text.now) requests.old requests.new) }
    ensures fault { IfErr result (λ kind. IsStop message text.now kind) }
{
    let read = match read_line(message, text, line, today) {
        Ok(read) => read,
        Err(kind) => return Err(kind),
    };
    match add_request(requests, read.request) {
        Ok(()) => Ok(read.message),
        Err(kind) => Err(kind),
    }
}

/// Adds a line's request, if it has one.
fn add_request(requests: &mut Requests, request: Option<Request>) -> Result<(), ScriptKind>
    ensures ok { OnOk result (requests.new ≡ requests.old ++ option_to_list request) }
    ensures memory { IfErr result (λ kind. (kind ≡ Memory) × IsSome request) }
{
    if let Some(request) = request {
        if requests.push(request).is_err() {
            return Err(ScriptKind::Memory);
        }
    }
    Ok(())
}
