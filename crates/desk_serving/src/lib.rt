//! A host that serves its clients to their end. Of several desks the lines wait in an inbox, what waits is answered as a group, and each desk is told by its outbox,
//! up to the manager's end. Of a feed, one stream of lines for the manager and all sessions, what is read is cut into lines, what they ask for is booked in groups, and what is
//! told of them is written, each line of it led by whom it is for. Then the journal ends and is sealed.
//! It knows the host's desks, inbox and outboxes, a reader and a writer, a file that is added to and the seal beside it, and nothing of the command line, of what pipes are or of what a line means.
#![tactic(auto)]

mod ahead;
mod closing;
mod counting;
mod day;
mod departing;
mod fault;
mod feed_counting;
mod feed_opening;
mod feed_serving;
mod feed_telling;
mod feeding_day;
mod group;
mod notice;
mod opening;
mod piece;
mod pieces;
mod serving;
mod step;
mod streaming;
mod taking;
mod telling;

pub use ahead::{AheadReader, FirstLine, first_line, read_ahead};
pub use fault::{FedFault, StreamFault};
pub use feed_opening::{feed_day, has_fewer, needs_day};
pub use feed_serving::serve_feed;
pub use serving::{HostedFault, serve_desks};
