//! The outbox of each session's desk, at its number, and the manager's first.
ghost use Rattle.std.specs.Prelude.{◌≡◌, ◌+◌, ◌≤◌, ◌<◌, IfNone, IfOk, IfSome, OnOk, length};
ghost use Rattle.desk_pipes.specs.Waiting.{AreNumbered};

use crate::outbox::Outbox;
use airline_base::Memory;
use std::alloc::Global;
use std::marker::Model;

#[derive(Drop)]
pub(crate) struct Outboxes {
    list: Vec<Outbox>,
}

impl Model for Outboxes {
    ghost use Rattle.std.specs.Prelude.{ℕ, List};
    ghost use Rattle.desk_pipes.specs.Waiting.{AreNumbered};

    ghost Value = { List ℕ };

    ghost view = { λ s. s.list.items };

    ghost invariant = { λ s. AreNumbered s.list.items };
}

impl Outboxes {
    /// Those of so many desks and of the manager.
    #[tactic(auto, using(crate::proofs::Numbers::none_numbered))]
    pub(crate) fn new(alloc: Global, desks: u8) -> Result<Outboxes, Memory>
        ensures count { IfOk result (λ outboxes. length outboxes ≡ desks + 1) }
    {
        let mut list = Vec::new(alloc);
        for session in 0..u16::from(desks) + 1 {
            add_outbox(alloc, &mut list, session as u8)?;
        }
        Ok(Outboxes { list })
    }

    /// The outbox of a session's desk.
    #[tactic(auto, using(crate::proofs::Numbers::is_own))]
    pub(crate) fn of(&self, session: u8) -> Option<&Outbox>
        ensures own { IfSome result (λ outbox. outbox.now ≡ session) }
        ensures none { IfNone result (length self.now ≤ session) }
    {
        self.list.get(usize::from(session))
    }

    pub(crate) fn as_slice(&self) -> &[Outbox]
        ensures { result.now ≡ self.now }
    {
        self.list.as_slice()
    }
}

// The next session's.
#[tactic(auto, using(crate::proofs::Numbers::one_more))]
fn add_outbox(alloc: Global, list: &mut Vec<Outbox>, session: u8) -> Result<(), Memory>
    requires next { length list.old.items ≡ session }
    requires numbered { AreNumbered list.old.items }
    ensures numbered { AreNumbered list.new.items }
    ensures count { OnOk result (length list.new.items ≡ session + 1) }
{
    list.push(Outbox::new(alloc, session))?;
    Ok(())
}
