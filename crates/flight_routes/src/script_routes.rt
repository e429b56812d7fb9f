//! Where the segment lines of a script go.
ghost use Rattle.std.specs.Prelude.{◌≡◌, ◌≢◌, ◌≤◌, ◌<◌, ◌^◌, ◌++◌, ◌∷◌, [], IfErr, IfOk, OnOk, Ok, IsSome, length, take};
ghost use Rattle.std.specs.Prelude.{option_to_list};
ghost use Rattle.airimp_lines.specs.Steps.{AreOwn, IsFirstFault, IsStop, WantsRoom, step};
ghost use Rattle.airimp_lines.specs.declared.fault.ScriptKind.TheVariants.{Memory};
ghost use Rattle.script_refusals.specs.Cleaning.{refusals_of};
ghost use Rattle.flight_routes.specs.ScriptRoutes.{any_day, head_text, message_of, open_behind, open_with, own_routes, route_text, routes_of, routes_text};

use crate::designators::Designator;
use airimp_lines::{Request, ScriptFault, ScriptKind, read_line};
use airline_base::lines::cut_line;
use airline_base::spelling::{put, put_number};
use airline_base::{Day, Locator};
use arrayvec::ArrayVec;
use std::alloc::{AllocError, Global};

/// 1 January 2000. The flight of a line is the same on each day.
const ANY_DAY: u32 = 10_957;

/// The first line of a message, without what is remarked behind it.
#[derive(Clone, Copy)]
pub struct Opening {
    pub address: [u8; 5],
    pub locator: Locator,
}

/// Whose lines go where.
#[derive(Clone, Copy)]
struct Way {
    /// The session of the script.
    session: u8,
    /// How many shards there are.
    shards: u16,
}

/// Where each segment line of a script of booking messages (AIRIMP) goes, of less than 4 GiB: a line of text for each, in order, with its shard of so many, the session, the
/// number of the line, the address and the locator of its message, and the segment line itself. A wrong line is refused as
/// `read_script` refuses it.
pub fn route_script(
    alloc: Global,
    bytes: &[u8],
    session: u8,
    shards: u16,
) -> Result<Vec<u8>, ScriptFault>
    requires shards { 1 ≤ shards }
    requires size { length bytes.now < 2 ^ 32 }
    ensures routes { IfOk result (λ text. text.items ≡ routes_text session (routes_of shards bytes.now)) }
    // No line of it is wrong.
    ensures right { IfOk result (λ text. refusals_of bytes.now ≡ []) }
    // Which line is refused: the first with a fault, and its first fault.
    ensures fault { IfErr result (λ f. f.kind ≢ Memory → IsFirstFault bytes.now f.line f.kind) }
    // Want of memory is met at a segment line, where no line up to it has a fault.
    ensures memory { IfErr result (λ f. f.kind ≡ Memory → WantsRoom bytes.now f.line) }
{
    let way = Way { session, shards };
    let mut text = Vec::new(alloc);
    let mut begun = None;
    let mut rest = bytes;
    let mut line = 0u32;
    while !rest.is_empty() {
        let (words, after) = cut_line(rest);
        line += 1;
        match take_line(&mut text, &begun, words, line, way) {
            Ok(next) => begun = next,
            Err(kind) => return Err(ScriptFault { line, kind }),
        }
        rest = after;
    }
    Ok(text)
}

/// Takes a line, and answers which message is open behind it.
fn take_line(
    text: &mut Vec<u8>,
    begun: &Option<Opening>,
    words: &[u8],
    line: u32,
    way: Way,
) -> Result<Option<Opening>, ScriptKind>
    requires shards { 1 ≤ way.shards }
    ensures taken { IfOk result (λ next. step (message_of begun.now) words.now ≡ Ok (message_of next)) }
    ensures next { IfOk result (λ next. next ≡ open_behind begun.now words.now) }
    ensures added { OnOk result (text.new.items
        ≡ text.old.items ++ routes_text way.session (own_routes way.shards begun.now (line, words.now))) }
    ensures fault { IfErr result (IsStop (message_of begun.now) words.now) }
{
    match read_line(message_of(begun), words, line, Day::numbered(ANY_DAY)) {
        Ok(read) => {
            if let Err(kind) = put_own(text, begun, words, line, &read.request, way) {
                return Err(kind);
            }
            Ok(opened(begun, words, read.message))
        }
        Err(kind) => Err(kind),
    }
}

fn message_of(begun: &Option<Opening>) -> Option<Locator>
    ensures { result ≡ message_of begun.now }
{
    match begun {
        Some(opening) => Some(opening.locator),
        None => None,
    }
}

/// The message that is open behind a line, which leads to it.
fn opened(begun: &Option<Opening>, words: &[u8], message: Option<Locator>) -> Option<Opening>
    requires { step (message_of begun.now) words.now ≡ Ok message }
    ensures { result ≡ open_with begun.now words.now message }
{
    let Some(locator) = message else {
        return None;
    };
    match begun {
        Some(opening) => {
            let address = opening.address;
            Some(Opening { address, locator })
        }
        None => {
            let address = address_of(words);
            Some(Opening { address, locator })
        }
    }
}

/// The address at the front of a line.
fn address_of(words: &[u8]) -> [u8; 5]
    requires { 5 ≤ length words.now }
    ensures { result ≡ take 5 words.now }
{
    match words {
        [a, b, c, d, e, ..] => [*a, *b, *c, *d, *e],
        _ => [0; 5],
    }
}

/// Adds the route of what a line asks for.
fn put_own(
    text: &mut Vec<u8>,
    begun: &Option<Opening>,
    words: &[u8],
    line: u32,
    request: &Option<Request>,
    way: Way,
) -> Result<(), ScriptKind>
    requires shards { 1 ≤ way.shards }
    requires own { AreOwn any_day (message_of begun.now) (line, words.now) (option_to_list request.now) }
    ensures added { OnOk result (text.new.items
        ≡ text.old.items ++ routes_text way.session (own_routes way.shards begun.now (line, words.now))) }
    ensures memory { IfErr result (λ kind. (kind ≡ Memory) × IsSome request.now) }
{
    let Some(opening) = begun else {
        return Ok(());
    };
    let Some(request) = request else {
        return Ok(());
    };
    let shard = Designator::of_segment(&request.segment).shard(way.shards);
    put_route(text, shard, way.session, line, opening, words)?;
    Ok(())
}

/// Adds a route.
fn put_route(
    text: &mut Vec<u8>,
    shard: u16,
    session: u8,
    line: u32,
    opening: &Opening,
    words: &[u8],
) -> Result<(), AllocError>
    ensures { OnOk result (text.new.items ≡ text.old.items
        ++ route_text session (record { shard = shard; line = line; opening = opening.now; text = words.now })) }
{
    text.extend_from_slice(head_of(shard, session, line, opening).as_slice())?;
    text.extend_from_slice(words)?;
    text.extend_from_slice(b"\n")
}

/// What stands ahead of the segment line.
fn head_of(shard: u16, session: u8, line: u32, opening: &Opening) -> ArrayVec<u8, 48>
    ensures { result.items ≡ head_text session shard line opening.now }
{
    let mut head = ArrayVec::new();
    put_number(&mut head, u32::from(shard));
    put(&mut head, b" ");
    put_number(&mut head, u32::from(session));
    put(&mut head, b" ");
    put_number(&mut head, line);
    put(&mut head, b" ");
    put(&mut head, &opening.address);
    put(&mut head, b" ");
    put(&mut head, &opening.locator.characters());
    put(&mut head, b" ");
    head
}
