//! The local days of a leg's departures in few bytes, by those of a first round.
ghost use Rattle.std.specs.Prelude.{◌≡◌, ◌≤◌, unsigned_abs, pos, negsuc, ◌+ℤ◌, ◌≤ℤ◌};
ghost use Rattle.ssim_flights.specs.Timetables.{local_of, IsFit, IsInRound};

use airline_base::Day;

/// Local days that come again round by round.
#[derive(Clone, Copy)]
pub(crate) struct LocalDays {
    /// The numbers of those of the first round.
    pub first: [u16; 14],
    /// How many there are in a round.
    pub many: u8,
    /// After how many days they come again.
    pub round: u8,
}

/// Where a row stands among rounds of so many rows each.
#[derive(Clone, Copy)]
pub(crate) struct InRound {
    pub row: u16,
    /// How many rows a round has.
    pub many: u8,
    /// How many rounds lie ahead of the row's own.
    pub past: u16,
    /// Its place in its round, counted from 0.
    pub place: u8,
}

impl InRound {
    /// A row among rounds of so many.
    pub(crate) fn of(row: u16, many: u8) -> InRound
        requires { 1 ≤ many }
        ensures { IsInRound row many result }
    {
        let rows = u16::from(many);
        InRound {
            row,
            many,
            past: row / rows,
            place: (row % rows) as u8,
        }
    }

    /// The same row among rounds of so many. Legs of one flight mostly have rounds alike, and a division is dear.
    pub(crate) fn among(&self, many: u8) -> InRound
        requires some { 1 ≤ many }
        requires here { IsInRound self.now.row self.now.many self.now }
        ensures { IsInRound self.now.row many result }
    {
        if self.many == many {
            return *self;
        }
        InRound::of(self.row, many)
    }
}

impl LocalDays {
    /// The day of a row, which stands among rounds like these.
    pub(crate) fn day(&self, at: &InRound) -> Day
        requires fit { IsFit at.now.row self.now }
        requires here { IsInRound at.now.row self.now.many at.now }
        ensures { result ≡ local_of self.now at.now.row }
    {
        let past = u32::from(at.past) * u32::from(self.round);
        let first = u32::from(self.first[usize::from(at.place)]);
        Day::numbered(first + past)
    }
}

/// The local day of departure, so many days after an operating day.
pub(crate) fn local_day(day: Day, after: i32) -> Day
    requires begun { 10957 ≤ day }
    requires lasts { day ≤ 47846 }
    requires low { negsuc 1 ≤ℤ after }
    requires high { after ≤ℤ pos 8 }
    ensures { result ≡ unsigned_abs (pos day +ℤ after) }
{
    let number = day.number() as i32 + after;
    Day::numbered(number as u32)
}
