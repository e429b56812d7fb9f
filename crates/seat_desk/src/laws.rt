//! The laws of the loaded grid, each the contract of a function that does nothing.
ghost use Rattle.seat_desk.specs.Laws.{LoadedLaddersDiffer, LoadedReplaysKeepLimits};

/// No leg of a loaded grid has a class twice.
pub fn loaded_ladders_differ()
    ensures { LoadedLaddersDiffer }
{}

/// From a loaded grid no replay, with its changes of limits, holds more seats in a class of a leg and those below it than the
/// limit that it leaves.
pub fn loaded_replays_keep_limits()
    ensures { LoadedReplaysKeepLimits }
{}
