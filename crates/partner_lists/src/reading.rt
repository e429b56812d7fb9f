//! A partner's list of bookings.
//! It knows its lines one by one, and which are of one booking.
ghost use Rattle.std.specs.Prelude.{◌≡◌, ◌≢◌, ◌<◌, ◌^◌, ◌++◌, ◌∷◌, [], Err, IfErr, IfOk, Ok, OnOk, is_some, length};
ghost use Rattle.std.specs.HashMap.{get};
ghost use Rattle.airline_base.specs.Days.{IsCenturyDay};
ghost use Rattle.partner_lists.specs.Names.{Finds, same_name};
ghost use Rattle.partner_lists.specs.Reading.{IsFault, IsNew, IsOld, IsReading, Takes, numbered_names};
ghost use Rattle.partner_lists.specs.declared.fault.PartnerKind.TheVariants.{Memory};

use crate::fault::{PartnerFault, PartnerKind};
use crate::line::read_listed;
use crate::name::{Name, Names, name_of, put};
use airimp_lines::{Request, Requests};
use airline_base::Day;
use airline_base::lines::cut_line;
use std::alloc::Global;
use std::collections::HashMap;

/// The bookings of a list of less than 4 GiB, a line each. Lines end with LF, with CR LF or where the bytes end. Their days are the earliest such dates on or
/// after `first`, a day of the years 2000 to 2099. A refusal names the first faulty line; one whose booking a line ahead has is faulty too.
pub fn read_list(alloc: Global, bytes: &[u8], first: Day) -> Result<Requests, PartnerFault>
    requires first { IsCenturyDay first }
    requires size { length bytes.now < 2 ^ 32 }
    ensures found { IfOk result (λ rows. IsReading first bytes.now (Ok rows)) }
    ensures fault { IfErr result (λ f. f.kind ≢ Memory → IsReading first bytes.now (Err f)) }
{
    let mut rows = Requests::new(alloc);
    let mut names = HashMap::new(alloc);
    let mut rest = bytes;
    let mut line = 0;
    while !rest.is_empty() {
        let (text, after) = cut_line(rest);
        line += 1;
        if let Err(kind) = take_line(&mut rows, &mut names, text, line, first) {
            return Err(PartnerFault { line, kind });
        }
        rest = after;
    }
    Ok(rows)
}

/// Adds the booking of a line, if no line ahead has it.
#[tactic(auto, using(crate::proofs::Walking::own_fault, crate::proofs::Walking::repeated, crate::proofs::Walking::taken))]
fn take_line(
    rows: &mut Requests,
    names: &mut Names,
    text: &[u8],
    line: u32,
    first: Day,
) -> Result<(), PartnerKind>
    requires first { IsCenturyDay first }
    requires names { Finds names.old (numbered_names rows.old) }
    ensures taken { OnOk result (Takes first line text.now rows.old rows.new) }
    ensures names { OnOk result (Finds names.new (numbered_names rows.new)) }
    ensures fault { IfErr result (λ kind. kind ≢ Memory → IsFault first line text.now rows.old kind) }
{
    match read_listed(text, line, first) {
        Ok(request) => match add(rows, names, request) {
            Ok(()) => Ok(()),
            Err(kind) => Err(kind),
        },
        Err(kind) => Err(kind),
    }
}

/// Adds a booking and its name, if no line ahead has that.
#[tactic(auto, using(crate::proofs::Walking::is_new, crate::proofs::Walking::is_old, crate::proofs::Walking::one_name_more))]
fn add(rows: &mut Requests, names: &mut Names, request: Request) -> Result<(), PartnerKind>
    requires names { Finds names.old (numbered_names rows.old) }
    ensures added { OnOk result (rows.new ≡ rows.old ++ request ∷ []) }
    ensures fresh { OnOk result (IsNew rows.old request) }
    ensures names { OnOk result (Finds names.new (numbered_names rows.new)) }
    ensures fault { IfErr result (λ kind. kind ≢ Memory → IsOld rows.old request kind) }
{
    let name = name_of(request.locator, &request.segment);
    if is_listed(names, &name) {
        return Err(PartnerKind::Twice);
    }
    put(names, name, request.line)?;
    rows.push(request)?;
    Ok(())
}

fn is_listed(names: &Names, name: &Name) -> bool
    ensures { result ≡ is_some (get same_name names.now name.now) }
{
    match names.get(name) {
        Some(_) => true,
        None => false,
    }
}
