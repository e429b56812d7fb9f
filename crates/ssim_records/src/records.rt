//! The records of a data set (SSIM chapter 7), each with its first fault.
ghost use Rattle.std.specs.Prelude.{◌≡◌, ◌≤◌, ◌==◌, ◌+◌, length};
ghost use Rattle.airline_base.specs.Bytes.{same_text, set_title};
ghost use Rattle.ssim_records.specs.SetSteps.{type_of, has_serial, header_at, carrier_at, second_at, leg_at, leg_name_at, leg_period_at, leg_path_at, numbered_at, segment_at, trailer_at};

use crate::carrier::{Carrier, Leg};
use crate::record_fields::{
    byte_of, continued_of, days_of, designator_of, mode_of, number_of, offset_of, rate_of,
    sequence_of, shift_of, six_of, small_of, station_of, suffix_of, time_of, until_of,
};
use crate::set_fault::SetKind;
use airline_base::{Airline, Day, Station};

/// The first byte of a record.
pub fn type_of(text: &[u8]) -> u8
    ensures { result ≡ type_of text.now }
{
    match text {
        [first, ..] => *first,
        _ => 0,
    }
}

/// The header.
#[tactic(auto, unfolding(crate::specs::SetSteps::header_at))]
pub fn header(text: &[u8], serial: u32) -> Result<(), SetKind>
    requires { length text.now ≡ 200 }
    ensures { result ≡ header_at serial text.now }
{
    if type_of(text) != b'1' {
        return Err(SetKind::NoHeader);
    }
    if !is_title(&text[1..35]) {
        return Err(SetKind::BadTitle);
    }
    if !has_serial(text, serial) {
        return Err(SetKind::BadSerial);
    }
    Ok(())
}

/// The record behind the header.
#[tactic(auto, unfolding(crate::specs::SetSteps::second_at))]
pub fn carrier(text: &[u8], serial: u32) -> Result<Carrier, SetKind>
    requires { length text.now ≡ 200 }
    ensures { result ≡ second_at serial text.now }
{
    if type_of(text) != b'2' {
        return Err(SetKind::BadOrder);
    }
    if !has_serial(text, serial) {
        return Err(SetKind::BadSerial);
    }
    carrier_fields(text)
}

/// A leg's record.
#[tactic(auto, unfolding(crate::specs::SetSteps::numbered_at))]
pub fn leg(text: &[u8], airline: Airline, serial: u32) -> Result<Leg, SetKind>
    requires { length text.now ≡ 200 }
    ensures { result ≡ numbered_at serial (leg_at airline serial text.now) text.now }
{
    if !has_serial(text, serial) {
        return Err(SetKind::BadSerial);
    }
    leg_fields(text, airline, serial)
}

/// Segment data, which follows a leg.
#[tactic(auto, unfolding(crate::specs::SetSteps::segment_at))]
pub fn segment(text: &[u8], none: bool, serial: u32) -> Result<(), SetKind>
    requires { length text.now ≡ 200 }
    ensures { result ≡ segment_at none serial text.now }
{
    if none {
        return Err(SetKind::BadOrder);
    }
    if !has_serial(text, serial) {
        return Err(SetKind::BadSerial);
    }
    Ok(())
}

/// The trailer.
#[tactic(auto, unfolding(crate::specs::SetSteps::numbered_at))]
pub fn trailer(text: &[u8], airline: Airline, before: u32) -> Result<(), SetKind>
    requires length { length text.now ≡ 200 }
    requires before { before ≤ 999999 }
    ensures { result ≡ numbered_at (before + 1) (trailer_at airline before text.now) text.now }
{
    if !has_serial(text, before + 1) {
        return Err(SetKind::BadSerial);
    }
    trailer_fields(text, airline, before)
}

fn is_same(a: Airline, b: Airline) -> bool
    ensures { result ≡ same_text a b }
{
    a.characters().as_slice() == b.characters().as_slice()
}

fn is_title(text: &[u8]) -> bool
    ensures { result ≡ same_text text.now set_title }
{
    text == b"AIRLINE STANDARD SCHEDULE DATA SET".as_slice()
}

#[tactic(auto, unfolding(crate::specs::SetSteps::has_serial))]
fn has_serial(text: &[u8], serial: u32) -> bool
    requires { length text.now ≡ 200 }
    ensures { result ≡ has_serial serial text.now }
{
    match six_of(&text[194..200]) {
        Some(number) => number == serial,
        None => false,
    }
}

/// The fields of the carrier's record.
#[tactic(auto, unfolding(crate::specs::SetSteps::carrier_at))]
fn carrier_fields(text: &[u8]) -> Result<Carrier, SetKind>
    requires { length text.now ≡ 200 }
    ensures { result ≡ carrier_at text.now }
{
    let Some(local) = mode_of(&text[1..2]) else {
        return Err(SetKind::BadField(2));
    };
    let Some(airline) = designator_of(&text[2..5]) else {
        return Err(SetKind::BadField(3));
    };
    let Some(from) = Day::read(&text[14..21]) else {
        return Err(SetKind::BadField(15));
    };
    let Some(to) = until_of(from, &text[21..28]) else {
        return Err(SetKind::BadField(22));
    };
    Ok(Carrier {
        airline,
        local,
        from,
        to,
    })
}

/// What names a leg: its flight, its itinerary and its place there.
#[derive(Clone, Copy)]
struct LegName {
    suffix: Option<u8>,
    own: Airline,
    number: u16,
    variation: u8,
    sequence: u8,
}

/// On which days a leg operates.
#[derive(Clone, Copy)]
struct LegPeriod {
    from: Day,
    to: Option<Day>,
    days: [bool; 7],
    second_week: bool,
}

/// Where and when a leg departs, and where it arrives.
#[derive(Clone, Copy)]
struct LegPath {
    board: Station,
    std: u16,
    offset: i16,
    off: Station,
    overflow: u8,
    shift: i8,
}

/// The fields of a leg's record.
#[tactic(auto, unfolding(crate::specs::SetSteps::leg_at))]
fn leg_fields(text: &[u8], airline: Airline, serial: u32) -> Result<Leg, SetKind>
    requires { length text.now ≡ 200 }
    ensures { result ≡ leg_at airline serial text.now }
{
    let name = match leg_name(text) {
        Ok(name) => name,
        Err(kind) => return Err(kind),
    };
    let period = match leg_period(text) {
        Ok(period) => period,
        Err(kind) => return Err(kind),
    };
    let path = match leg_path(text) {
        Ok(path) => path,
        Err(kind) => return Err(kind),
    };
    if !is_same(name.own, airline) {
        return Err(SetKind::OtherAirline);
    }
    let days = period.days;
    Ok(Leg {
        serial,
        number: name.number,
        suffix: name.suffix,
        variation: name.variation,
        overflow: path.overflow,
        sequence: name.sequence,
        from: period.from,
        to: period.to,
        days,
        second_week: period.second_week,
        board: path.board,
        std: path.std,
        offset: path.offset,
        off: path.off,
        shift: path.shift,
    })
}

#[tactic(auto, unfolding(crate::specs::SetSteps::leg_name_at))]
fn leg_name(text: &[u8]) -> Result<LegName, SetKind>
    requires { length text.now ≡ 200 }
    ensures { result ≡ leg_name_at text.now }
{
    let Some(suffix) = suffix_of(&text[1..2]) else {
        return Err(SetKind::BadField(2));
    };
    let Some(own) = designator_of(&text[2..5]) else {
        return Err(SetKind::BadField(3));
    };
    let Some(number) = number_of(&text[5..9]) else {
        return Err(SetKind::BadField(6));
    };
    let Some(variation) = small_of(&text[9..11]) else {
        return Err(SetKind::BadField(10));
    };
    let Some(sequence) = sequence_of(&text[11..13]) else {
        return Err(SetKind::BadField(12));
    };
    Ok(LegName {
        suffix,
        own,
        number,
        variation,
        sequence,
    })
}

#[tactic(auto, unfolding(crate::specs::SetSteps::leg_period_at))]
fn leg_period(text: &[u8]) -> Result<LegPeriod, SetKind>
    requires { length text.now ≡ 200 }
    ensures { result ≡ leg_period_at text.now }
{
    let Some(from) = Day::read(&text[14..21]) else {
        return Err(SetKind::BadField(15));
    };
    let Some(to) = until_of(from, &text[21..28]) else {
        return Err(SetKind::BadField(22));
    };
    let Some(days) = days_of(&text[28..35]) else {
        return Err(SetKind::BadField(29));
    };
    let Some(second_week) = rate_of(&text[35..36]) else {
        return Err(SetKind::BadField(36));
    };
    Ok(LegPeriod {
        from,
        to,
        days,
        second_week,
    })
}

#[tactic(auto, unfolding(crate::specs::SetSteps::leg_path_at))]
fn leg_path(text: &[u8]) -> Result<LegPath, SetKind>
    requires { length text.now ≡ 200 }
    ensures { result ≡ leg_path_at text.now }
{
    let Some(board) = station_of(&text[36..39]) else {
        return Err(SetKind::BadField(37));
    };
    let Some(std) = time_of(&text[43..47]) else {
        return Err(SetKind::BadField(44));
    };
    let Some(offset) = offset_of(&text[47..52]) else {
        return Err(SetKind::BadField(48));
    };
    let Some(off) = station_of(&text[54..57]) else {
        return Err(SetKind::BadField(55));
    };
    let Some(overflow) = byte_of(&text[127..128]) else {
        return Err(SetKind::BadField(128));
    };
    let Some(shift) = shift_of(&text[192..193]) else {
        return Err(SetKind::BadField(193));
    };
    Ok(LegPath {
        board,
        std,
        offset,
        off,
        overflow,
        shift,
    })
}

/// The fields of the trailer, which follows the record with this serial.
#[tactic(auto, unfolding(crate::specs::SetSteps::trailer_at))]
fn trailer_fields(text: &[u8], airline: Airline, before: u32) -> Result<(), SetKind>
    requires { length text.now ≡ 200 }
    ensures { result ≡ trailer_at airline before text.now }
{
    let Some(own) = designator_of(&text[2..5]) else {
        return Err(SetKind::BadField(3));
    };
    let Some(reference) = six_of(&text[187..193]) else {
        return Err(SetKind::BadField(188));
    };
    let Some(more) = continued_of(&text[193..194]) else {
        return Err(SetKind::BadField(194));
    };
    if !is_same(own, airline) {
        return Err(SetKind::OtherAirline);
    }
    if reference != before {
        return Err(SetKind::BadCheck);
    }
    if more {
        return Err(SetKind::Continued);
    }
    Ok(())
}
