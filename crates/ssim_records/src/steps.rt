//! One record more: what the reader holds after it, or its first fault.
ghost use Rattle.std.specs.Prelude.{◌≡◌, OnOk};
ghost use Rattle.airline_base.specs.Bytes.{is_filler};
ghost use Rattle.ssim_records.specs.SetSteps.{step, within, header_step, carrier_step, leg_step, segment_step, trailer_step, body_step, type_of, IsReady, IsCounted, Takes};

use crate::carrier::Carrier;
use crate::records::{carrier, header, leg, segment, trailer, type_of};
use crate::set_fault::SetKind;
use crate::state::{Phase, Reader};
use airline_base::{Day, Station};

/// The next record.
#[tactic(auto, unfolding(crate::specs::SetSteps::step))]
pub fn take(reader: &mut Reader, text: &[u8], most: u32) -> Result<(), SetKind>
    requires { IsReady most reader.old text.now }
    ensures taken { Takes reader.old reader.new result (step most reader.old text.now) }
    ensures counted { OnOk result (IsCounted most reader.new) }
{
    let filler = is_filler(text);
    match reader.phase {
        Phase::Start => take_header(reader, text, most),
        _ if filler => Ok(()),
        Phase::Open => take_carrier(reader, text, most),
        Phase::Body(carrier) => take_body(reader, carrier, text, most),
        Phase::Done(_) => Err(SetKind::AfterTrailer),
    }
}

fn is_filler(text: &[u8]) -> bool
    ensures { result ≡ is_filler text.now }
{
    text.iter().all(|c| *c == b'0')
}

#[tactic(auto, unfolding(crate::specs::SetSteps::header_step))]
fn take_header(reader: &mut Reader, text: &[u8], most: u32) -> Result<(), SetKind>
    requires { IsReady most reader.old text.now }
    ensures taken { Takes reader.old reader.new result (within most reader.old (header_step reader.old text.now)) }
    ensures counted { OnOk result (IsCounted most reader.new) }
{
    if let Err(kind) = header(text, reader.count + 1) {
        return Err(kind);
    }
    if reader.count >= most {
        return Err(SetKind::TooLarge);
    }
    reader.phase = Phase::Open;
    reader.count += 1;
    Ok(())
}

#[tactic(auto, unfolding(crate::specs::SetSteps::carrier_step))]
fn take_carrier(reader: &mut Reader, text: &[u8], most: u32) -> Result<(), SetKind>
    requires { IsReady most reader.old text.now }
    ensures taken { Takes reader.old reader.new result (within most reader.old (carrier_step reader.old text.now)) }
    ensures counted { OnOk result (IsCounted most reader.new) }
{
    let found = match carrier(text, reader.count + 1) {
        Ok(found) => found,
        Err(kind) => return Err(kind),
    };
    if reader.count >= most {
        return Err(SetKind::TooLarge);
    }
    reader.phase = Phase::Body(found);
    reader.count += 1;
    Ok(())
}

#[tactic(auto, unfolding(crate::specs::SetSteps::leg_step))]
fn take_leg(reader: &mut Reader, carrier: Carrier, text: &[u8], most: u32) -> Result<(), SetKind>
    requires { IsReady most reader.old text.now }
    ensures taken { Takes reader.old reader.new result (within most reader.old (leg_step carrier reader.old text.now)) }
    ensures counted { OnOk result (IsCounted most reader.new) }
{
    let found = match leg(text, carrier.airline, reader.count + 1) {
        Ok(found) => found,
        Err(kind) => return Err(kind),
    };
    if reader.count >= most {
        return Err(SetKind::TooLarge);
    }
    let _suffix: Option<u8> = found.suffix;
    let _from: Day = found.from;
    let _board: Station = found.board;
    let Ok(()) = reader.legs.push(found) else {
        return Err(SetKind::Memory);
    };
    reader.count += 1;
    Ok(())
}

#[tactic(auto, unfolding(crate::specs::SetSteps::segment_step))]
fn take_segment(reader: &mut Reader, text: &[u8], most: u32) -> Result<(), SetKind>
    requires { IsReady most reader.old text.now }
    ensures taken { Takes reader.old reader.new result (within most reader.old (segment_step reader.old text.now)) }
    ensures counted { OnOk result (IsCounted most reader.new) }
{
    if let Err(kind) = segment(text, reader.legs.is_empty(), reader.count + 1) {
        return Err(kind);
    }
    if reader.count >= most {
        return Err(SetKind::TooLarge);
    }
    reader.segments += 1;
    reader.count += 1;
    Ok(())
}

#[tactic(auto, unfolding(crate::specs::SetSteps::trailer_step))]
fn take_trailer(
    reader: &mut Reader,
    carrier: Carrier,
    text: &[u8],
    most: u32,
) -> Result<(), SetKind>
    requires { IsReady most reader.old text.now }
    ensures taken { Takes reader.old reader.new result
        (within most reader.old (trailer_step carrier reader.old text.now)) }
    ensures counted { OnOk result (IsCounted most reader.new) }
{
    if let Err(kind) = trailer(text, carrier.airline, reader.count) {
        return Err(kind);
    }
    if reader.count >= most {
        return Err(SetKind::TooLarge);
    }
    reader.phase = Phase::Done(carrier);
    reader.count += 1;
    Ok(())
}

#[tactic(auto, unfolding(crate::specs::SetSteps::body_step))]
fn take_body(reader: &mut Reader, carrier: Carrier, text: &[u8], most: u32) -> Result<(), SetKind>
    requires { IsReady most reader.old text.now }
    ensures taken { Takes reader.old reader.new result
        (within most reader.old (body_step (type_of text.now) carrier reader.old text.now)) }
    ensures counted { OnOk result (IsCounted most reader.new) }
{
    match type_of(text) {
        b'3' => take_leg(reader, carrier, text, most),
        b'4' => take_segment(reader, text, most),
        b'5' => take_trailer(reader, carrier, text, most),
        _ => Err(SetKind::BadOrder),
    }
}
