//! What the answers come to, each the contract of a function that does nothing.
ghost use Rattle.seat_reports.specs.Laws.{AuditsAreAnswered, RefusalsAreAudits, TooLargeIsAudits};

/// What answers an [`Audit`](crate::Audit) is an audit of the inputs that agrees with what stands beside the journal, what refuses it
/// a refusal of one or of what stands there, and what is too large for it is too large for one.
pub fn audits_are_answered()
    ensures answered { AuditsAreAnswered }
    ensures refused { RefusalsAreAudits }
    ensures large { TooLargeIsAudits }
{}
