//! The laws, each the contract of a function that does nothing.
ghost use Rattle.shard_questions.specs.Laws.{JoinedAreNotRefused, JoinedIsLegal};

/// Journals of hosts that have different flights, one behind the other, are a legal history together, as long as they are.
#[tactic(auto, using(crate::proofs::Joined::joined_is_legal))]
pub fn joined_is_legal()
    ensures { JoinedIsLegal }
{}

/// No audit refuses a text of theirs, so no question does that refuses what an audit refuses.
#[tactic(auto, using(crate::proofs::Joined::joined_are_not_refused))]
pub fn joined_are_not_refused()
    ensures { JoinedAreNotRefused }
{}
