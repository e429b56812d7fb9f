//! The laws of the definitions, each the contract of a function that does nothing.
ghost use Rattle.seat_replies.specs.Segments.{RequestsAreFlown};
ghost use Rattle.seat_replies.specs.VeryRequest.{CommandsAreVeryRequests};

/// An advice names what its booking's request named: where a place serves a request, the segment on its flight is the request's own.
pub fn requests_are_flown()
    ensures { RequestsAreFlown }
{}

/// What a request asks of the inventory is that very request, so the day on which a script was first read is none that `audit` needs.
pub fn commands_are_very_requests()
    ensures { CommandsAreVeryRequests }
{}
