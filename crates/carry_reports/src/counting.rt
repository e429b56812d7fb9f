//! The sums of a report, counted in one pass over its live bookings.
//! It knows no text.
ghost use Rattle.std.specs.Prelude.{◌≡◌, ◌≤◌, [], map};
ghost use Rattle.std.specs.List.{All};
ghost use Rattle.carry_reports.specs.Counting.{HasRoom, counted_by, sum_of};
ghost use Rattle.carry_reports.specs.Sums.{all_codes};

use crate::codes::code_of;
use crate::fating::Fated;
use airline_base::Code;

/// How many live bookings have a code, or have none, and their seats.
#[derive(Clone, Copy)]
pub(crate) struct CodeSum {
    pub code: Option<Code>,
    pub count: u64,
    pub seats: u128,
}

/// The sums of these live bookings, in the order in which they are written.
pub(crate) fn sums_of(all: &[Fated]) -> [CodeSum; 9]
    ensures { result ≡ map (sum_of all.now) all_codes }
{
    let mut sums = no_sums();
    for fated in all {
        count(&mut sums, &code_of(fated), fated.booking.seats);
    }
    sums
}

/// Each code in that order, last that of those who have none.
fn no_sums() -> [CodeSum; 9]
    ensures { result ≡ map (sum_of []) all_codes }
{
    [
        no_sum(Some(Code::of(*b"HK"))),
        no_sum(Some(Code::of(*b"TK"))),
        no_sum(Some(Code::of(*b"HL"))),
        no_sum(Some(Code::of(*b"TL"))),
        no_sum(Some(Code::of(*b"KL"))),
        no_sum(Some(Code::of(*b"HX"))),
        no_sum(Some(Code::of(*b"UN"))),
        no_sum(Some(Code::of(*b"UC"))),
        no_sum(None),
    ]
}

fn no_sum(code: Option<Code>) -> CodeSum
    ensures { result ≡ sum_of [] code }
{
    CodeSum {
        code,
        count: 0,
        seats: 0,
    }
}

/// Counts a live booking of so many seats in the sum of its code.
fn count(sums: &mut [CodeSum; 9], code: &Option<Code>, seats: u16)
    requires room { All HasRoom sums.old }
    ensures counted { sums.new ≡ map (counted_by code.now seats) sums.old }
    ensures few { seats ≤ 65535 }
{
    for k in 0..sums.len() {
        sums[k] = counted_by(&sums[k], code, seats);
    }
}

fn counted_by(sum: &CodeSum, code: &Option<Code>, seats: u16) -> CodeSum
    requires room { HasRoom sum.now }
    ensures { result ≡ counted_by code.now seats sum.now }
{
    if *code == sum.code {
        CodeSum {
            code: sum.code,
            count: sum.count + 1,
            seats: sum.seats + u128::from(seats),
        }
    } else {
        *sum
    }
}
