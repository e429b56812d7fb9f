//! Why bytes are no data set.
ghost use Rattle.std.specs.Prelude.{◌≡◌};
ghost use Rattle.ssim_records.specs.FaultText.{code_of};

use std::fmt;

/// What is wrong with a record. Of several faults it is the first in this order.
#[derive(Clone, Copy)]
pub enum SetKind {
    /// Fewer than 200 bytes are left.
    Short,
    /// One of the 200 bytes is outside 0x20 to 0x7E.
    BadByte,
    /// CR stands after the record, and no LF after it.
    BadEnd,
    /// The first record is no header, or there is none.
    NoHeader,
    /// The header's title differs.
    BadTitle,
    /// A record of this type may not follow.
    BadOrder,
    /// Bytes 195 to 200 are not the six digits of the next serial number.
    BadSerial,
    /// A field is wrong: the first such one begins at this byte, counted from 1.
    BadField(u8),
    /// The airline of a leg or of the trailer is not the carrier's.
    OtherAirline,
    /// The trailer's check reference is not the serial number of the record before.
    BadCheck,
    /// The trailer says that the data set goes on elsewhere.
    Continued,
    /// A record that is no filler stands behind the trailer.
    AfterTrailer,
    /// The bytes end before a trailer.
    NoTrailer,
    /// There is one record too many, though a right one.
    TooLarge,
    /// A leg could not be stored.
    Memory,
}

impl fmt::Display for SetKind {
    ghost use Rattle.std.specs.Prelude.{Some};
    ghost use Rattle.ssim_records.specs.FaultText.{code_of};

    ghost output = { λ kind. Some (code_of kind) };

    /// The code, S1 to S15.
    fn fmt<W: fmt::Write>(&self, f: &mut fmt::Formatter<W>) -> fmt::Result {
        f.write_str(code_of(*self))
    }
}

fn code_of(kind: SetKind) -> &'static str
    ensures { result.now ≡ code_of kind }
{
    match kind {
        SetKind::Short => "S1",
        SetKind::BadByte => "S2",
        SetKind::BadEnd => "S3",
        SetKind::NoHeader => "S4",
        SetKind::BadTitle => "S5",
        SetKind::BadOrder => "S6",
        SetKind::BadSerial => "S7",
        SetKind::BadField(_) => "S8",
        SetKind::OtherAirline => "S9",
        SetKind::BadCheck => "S10",
        SetKind::Continued => "S11",
        SetKind::AfterTrailer => "S12",
        SetKind::NoTrailer => "S13",
        SetKind::TooLarge => "S14",
        SetKind::Memory => "S15",
    }
}

/// The first record with a fault, counted from 1 with the fillers, and its first fault.
#[derive(Clone, Copy)]
pub struct SetFault {
    pub nth: u32,
    pub kind: SetKind,
}

impl fmt::Display for SetFault {
    ghost use Rattle.std.specs.Prelude.{Some};
    ghost use Rattle.ssim_records.specs.FaultText.{fault_text};

    ghost output = { λ fault. Some (fault_text fault) };

    /// The code and the record, and behind S8 the byte.
    fn fmt<W: fmt::Write>(&self, f: &mut fmt::Formatter<W>) -> fmt::Result {
        let kind = self.kind;
        let nth = self.nth;
        match kind {
            SetKind::BadField(byte) => write!(f, "{kind} {nth} {byte}"),
            _ => write!(f, "{kind} {nth}"),
        }
    }
}
