//! Who asks for what.
ghost use Rattle.std.specs.Prelude.{◌≡◌, ◌↔◌, IsTrue};
ghost use Rattle.seat_rules.specs.Journal.{asker, MayAsk};
ghost use Rattle.seat_rules.specs.Replaying.{may_ask};

use seat_journal::Work;

/// Whether the session may ask for this: seats by sessions 1 to 8; another limit, and a class closed or opened, by
/// session 0, the manager.
#[tactic(auto, using(crate::proofs::History::Faults::ask_exactly))]
pub fn may_ask(session: u8, work: &Work) -> bool
    ensures exact { IsTrue result ↔ MayAsk session work.now }
    ensures test { result ≡ may_ask session work.now }
{
    match work {
        Work::Seats(_) => 1 <= session && session <= 8,
        Work::Limit(_) => session == 0,
        Work::Sale(_) => session == 0,
    }
}

/// Who asks for this where one session asks for all seats: session 1, and the manager for what he sets.
pub fn asker(work: &Work) -> u8
    ensures value { result ≡ asker work.now }
    ensures may { MayAsk result work.now }
{
    match work {
        Work::Seats(_) => 1,
        Work::Limit(_) => 0,
        Work::Sale(_) => 0,
    }
}
