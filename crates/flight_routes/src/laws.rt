//! The laws of routes, on functions that do nothing.
ghost use Rattle.flight_routes.specs.Laws.{EachLineHasOneShard, EachRowHasOneShard};

/// The routes of a script are its requests, in order: each has one shard, of 1 to as many as there are, which is that of its flight.
pub fn each_line_has_one_shard()
    ensures lines { EachLineHasOneShard }
    ensures rows { EachRowHasOneShard }
{}
