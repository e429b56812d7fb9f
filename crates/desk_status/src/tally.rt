//! What is counted of a host.
ghost use Rattle.std.specs.Prelude.{◌≡◌, ◌≤◌, ◌<◌, ◌+◌, ◌^◌, drop, length};
ghost use Rattle.desk_status.specs.Tallies.{added, groups_behind, Counts, CountsFront, IsCountable};

use seat_journal::Entry;
use seat_rules::{confirmed_seats, released_seats};

/// What a host has come to.
#[derive(Clone, Copy)]
pub struct Tally {
    /// The desks that it is open to.
    pub desks: u8,
    /// How many lines its journal had when it began,
    pub begun: u32,
    /// and how many it has.
    pub lines: u32,
    /// How often lines were added to it since.
    pub groups: u32,
    /// The seats that all its lines confirmed,
    pub confirmed: u64,
    /// and those that they released.
    pub released: u64,
}

impl Tally {
    /// Of a host that is open to these desks and begins with this journal.
    #[tactic(auto, using(crate::proofs::Counted::none_yet))]
    pub fn over(desks: u8, journal: &[Entry]) -> Tally
        requires countable { IsCountable journal.now }
        ensures counts { Counts result journal.now }
        ensures begun { (result.desks ≡ desks) × (result.begun ≡ length journal.now) × (result.groups ≡ 0) }
    {
        Tally {
            desks,
            begun: journal.len() as u32,
            lines: journal.len() as u32,
            groups: 0,
            confirmed: confirmed_seats(journal),
            released: released_seats(journal),
        }
    }

    /// The journal has these lines now, the first of which are those that were counted. No line is counted twice.
    #[tactic(auto, using(crate::proofs::Counted::counted_on, crate::proofs::Counted::front_within, crate::proofs::Counted::behind_small, crate::proofs::Counted::confirmed_fits, crate::proofs::Counted::released_fits, crate::proofs::Counted::groups_few))]
    pub fn grow(&mut self, journal: &[Entry])
        requires front { CountsFront self.old journal.now }
        requires countable { IsCountable journal.now }
        ensures counts { Counts self.new journal.now }
        ensures groups { self.new.groups ≡ groups_behind self.old.groups (added self.old journal.now) }
        ensures same { (self.new.desks ≡ self.old.desks) × (self.new.begun ≡ self.old.begun) }
    {
        let more = lines_behind(journal, self.lines);
        *self = Tally {
            desks: self.desks,
            begun: self.begun,
            lines: journal.len() as u32,
            groups: groups_behind(self.groups, more),
            confirmed: seats_behind(self.confirmed, confirmed_seats(more)),
            released: seats_behind(self.released, released_seats(more)),
        };
    }
}

fn lines_behind(journal: &[Entry], lines: u32) -> &[Entry]
    requires { lines ≤ length journal.now }
    ensures { result.now ≡ drop lines journal.now }
{
    &journal[lines as usize..]
}

fn groups_behind(groups: u32, more: &[Entry]) -> u32
    requires { groups ≤ 999999 }
    ensures { result ≡ groups_behind groups more.now }
{
    match more {
        [] => groups,
        [_, ..] => groups + 1,
    }
}

fn seats_behind(seats: u64, more: u64) -> u64
    requires { seats + more < 2 ^ 64 }
    ensures { result ≡ seats + more }
{
    seats + more
}
