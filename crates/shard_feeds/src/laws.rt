//! The laws of shards and of the parts of a carry, on functions that do nothing.
ghost use Rattle.shard_feeds.specs.Laws.{HostsAreLegalTogether, LinesGoByTheirFlight, RowsGoByTheirFlight, TwoShardsShareNoFlight};
ghost use Rattle.shard_feeds.specs.Parts.{PartsAreLegalTogether, PartsAreShards, PartsHaveOwnLines};

/// What a line asks for is on a flight of the shard that the line goes to: a segment line by the flight that is found for it, a row of changes by each flight on
/// whose legs it sets something.
pub fn lines_go_by_their_flight()
    ensures lines { LinesGoByTheirFlight }
    ensures rows { RowsGoByTheirFlight }
{}

/// Two shards never have a line of one flight, whatever the lines ask for and on which days.
pub fn two_shards_share_no_flight()
    ensures { TwoShardsShareNoFlight }
{}

/// Whatever the feeds of the shards are, wherever each was broken off and sent again: the journals of their hosts are accepted together, one journal of all their
/// lines is a legal history, and its totals are the sums of theirs.
pub fn hosts_are_legal_together()
    ensures { HostsAreLegalTogether }
{}

/// A part has a flight just where the flight's shard is the part's.
#[tactic(auto, using(crate::proofs::Parts::parts_are_shards))]
pub fn parts_are_shards()
    ensures { PartsAreShards }
{}

/// All lines of a part's journal, of whatever carry it is a part, are on flights that the part has.
#[tactic(auto, using(crate::proofs::Parts::parts_have_own))]
pub fn parts_have_own_lines()
    ensures { PartsHaveOwnLines }
{}

/// Journals of all parts, each a legal history by itself whose lines are on flights that its part has, are accepted together: no two have a line of one
/// flight, one journal of all their lines is a legal history, and its totals are the sums of theirs.
#[tactic(auto, using(crate::proofs::Parts::parts_are_together))]
pub fn parts_are_legal_together()
    ensures { PartsAreLegalTogether }
{}
