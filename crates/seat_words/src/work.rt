//! What each command of the program is asked for: the values of its options as they were written.
use super::several::Several;

/// The dated flights and limits over which a command works, as they were written: `--set SET --limits LIMITS --first DATE --days N`.
#[derive(Clone, Copy)]
pub struct Horizon<'a> {
    pub set: &'a str,
    pub limits: &'a str,
    pub first: &'a str,
    pub days: &'a str,
}

/// In which form an answer is asked for: `[--csv] [--json]`.
#[derive(Clone, Copy)]
pub struct Shape {
    pub csv: bool,
    pub json: bool,
}

/// What `seatdesk cover` asks for.
#[derive(Clone, Copy)]
pub struct CoverJob<'a> {
    pub over: Horizon<'a>,
    pub shape: Shape,
}

/// What `seatdesk rooms` asks for.
#[derive(Clone, Copy)]
pub struct RoomsJob<'a> {
    pub over: Horizon<'a>,
    pub day: Option<&'a str>,
    pub pair: Option<&'a str>,
    pub bars: bool,
    pub shape: Shape,
    pub is_open: bool,
    pub journal: Option<&'a str>,
}

/// What `seatdesk loads` asks for.
#[derive(Drop)]
pub struct LoadsJob<'a> {
    pub over: Horizon<'a>,
    pub flight: Option<&'a str>,
    pub day: Option<&'a str>,
    pub pair: Option<&'a str>,
    pub by: Option<&'a str>,
    pub bars: bool,
    pub shape: Shape,
    pub html: bool,
    pub is_open: bool,
    /// The journals are those of hosts that have different flights.
    pub are_shards: bool,
    pub journal: Option<&'a str>,
    /// None or more.
    pub others: Several<'a>,
}

/// What `seatdesk run` asks for.
#[derive(Drop)]
pub struct RunJob<'a> {
    pub over: Horizon<'a>,
    pub after: Option<&'a str>,
    pub behind: Option<&'a str>,
    /// The journal that has what the scripts begin with.
    pub resume: Option<&'a str>,
    pub today: &'a str,
    pub journal: &'a str,
    pub changes: Option<&'a str>,
    /// The list of the lines that are refused, where they are passed over.
    pub refused: Option<&'a str>,
    pub no_clobber: bool,
    /// Books what a run that the journal's seal knows has booked.
    pub again: bool,
    /// None or more.
    pub scripts: Several<'a>,
}

/// What `seatdesk serve` asks for.
#[derive(Drop)]
pub struct ServeJob<'a> {
    pub over: Horizon<'a>,
    pub today: Option<&'a str>,
    pub journal: &'a str,
    /// None or more.
    pub desks: Several<'a>,
    pub manager: Option<&'a str>,
    pub status: Option<&'a str>,
    pub every: Option<&'a str>,
    /// Where one stream of lines for all desks comes from.
    pub feed: Option<&'a str>,
    pub behind: Option<&'a str>,
    /// Closes what departed before a day of the manager's.
    pub closes_departed: bool,
}

/// What `seatdesk route` asks for.
#[derive(Drop)]
pub struct RouteJob<'a> {
    /// How many shards there are.
    pub shards: &'a str,
    pub changes: Option<&'a str>,
    /// None or more.
    pub scripts: Several<'a>,
}

/// What `seatdesk bookings` asks for.
#[derive(Drop)]
pub struct BookingsJob<'a> {
    pub over: Horizon<'a>,
    /// None or more.
    pub locators: Several<'a>,
    pub flight: Option<&'a str>,
    pub day: Option<&'a str>,
    pub shape: Shape,
    pub is_open: bool,
    pub journal: &'a str,
}

/// What `seatdesk waiting` asks for.
#[derive(Drop)]
pub struct WaitingJob<'a> {
    pub over: Horizon<'a>,
    pub flight: Option<&'a str>,
    pub day: Option<&'a str>,
    pub shape: Shape,
    pub is_open: bool,
    /// The journals are those of hosts that have different flights.
    pub are_shards: bool,
    pub journal: &'a str,
    /// None or more.
    pub others: Several<'a>,
}

/// What `seatdesk pickup` asks for.
#[derive(Clone, Copy)]
pub struct PickupJob<'a> {
    pub over: Horizon<'a>,
    pub behind: Option<&'a str>,
    pub since: Option<&'a str>,
    pub flight: Option<&'a str>,
    pub by: Option<&'a str>,
    pub shape: Shape,
    pub is_open: bool,
    pub journal: &'a str,
}

/// What `seatdesk history` asks for.
#[derive(Clone, Copy)]
pub struct HistoryJob<'a> {
    pub over: Horizon<'a>,
    pub locator: Option<&'a str>,
    pub flight: Option<&'a str>,
    pub day: Option<&'a str>,
    pub shape: Shape,
    pub is_open: bool,
    pub journal: &'a str,
}

/// What `seatdesk avs` asks for.
#[derive(Clone, Copy)]
pub struct AvsJob<'a> {
    pub horizon: Horizon<'a>,
    /// An older journal, behind whose lines only changes are written.
    pub since: Option<&'a str>,
    pub numeric: bool,
    /// The file of a partner's thresholds.
    pub partner: Option<&'a str>,
    pub flight: Option<&'a str>,
    pub day: Option<&'a str>,
    pub journal: &'a str,
    pub is_open: bool,
}

/// What `seatdesk reconcile` asks for: of the session or of all, one of which is named.
#[derive(Clone, Copy)]
pub struct ReconcileJob<'a> {
    pub horizon: Horizon<'a>,
    pub session: Option<&'a str>,
    pub all: bool,
    /// The list of a partner or a desk.
    pub theirs: &'a str,
    pub journal: &'a str,
    pub is_open: bool,
}

/// What `seatdesk compare` asks for: two season files, and the journal of the first.
#[derive(Clone, Copy)]
pub struct CompareJob<'a> {
    pub from: &'a str,
    pub to: &'a str,
    pub journal: Option<&'a str>,
}

/// What `seatdesk carry` asks for: two season files, and the journals of the first, whose live bookings a new one of the second is to have.
#[derive(Drop)]
pub struct CarryJob<'a> {
    pub from: &'a str,
    pub to: &'a str,
    /// The day before which a booking has departed, and is not carried.
    pub today: &'a str,
    /// The journal that is made.
    pub new: &'a str,
    /// Rows that say to which flights the bookings of others go.
    pub protections: Option<&'a str>,
    /// Locators that keep their seats first.
    pub order: Option<&'a str>,
    /// Where a leg has too few seats the highest numbers lose, those of the order last.
    pub displaces: bool,
    /// The limits are those of the second season's file, without what changes and closings of the journal set.
    pub fresh_limits: bool,
    /// Takes the place of a carry that did not end, and had another result.
    pub anew: bool,
    /// Of which of several hosts the new journal is, as `H/M`.
    pub shard: Option<&'a str>,
    /// Writes the report alone.
    pub dry_run: bool,
    /// Of the report.
    pub shape: Shape,
    /// The journal that is carried.
    pub journal: &'a str,
    /// The journals that are carried with it, none of which has a line of a flight of another: none or more.
    pub others: Several<'a>,
}

/// What `seatdesk changes` asks for.
#[derive(Clone, Copy)]
pub struct ChangesJob<'a> {
    pub over: Horizon<'a>,
    /// The file of the limits that are wanted.
    pub wanted: &'a str,
    pub flight: Option<&'a str>,
    pub day: Option<&'a str>,
    pub pair: Option<&'a str>,
    pub is_open: bool,
    pub journal: &'a str,
}

/// What `seatdesk audit` asks for.
#[derive(Drop)]
pub struct AuditJob<'a> {
    pub over: Horizon<'a>,
    pub after: Option<&'a str>,
    pub behind: Option<&'a str>,
    pub today: Option<&'a str>,
    /// The list of the lines that the run refused.
    pub refused: Option<&'a str>,
    pub sealed: bool,
    pub is_open: bool,
    /// The words behind JOURNAL are journals too.
    pub are_shards: bool,
    pub journal: &'a str,
    /// None or more.
    pub scripts: Several<'a>,
}

/// What `seatdesk replies` asks for.
#[derive(Drop)]
pub struct RepliesJob<'a> {
    pub over: Horizon<'a>,
    pub after: Option<&'a str>,
    pub behind: Option<&'a str>,
    pub today: &'a str,
    /// The list of the lines that the run refused.
    pub refused: Option<&'a str>,
    pub session: Option<&'a str>,
    pub from: Option<&'a str>,
    pub shape: Shape,
    pub journal: &'a str,
    /// None or more.
    pub scripts: Several<'a>,
}

/// What `seatdesk told` asks for.
#[derive(Clone, Copy)]
pub struct ToldJob<'a> {
    pub over: Horizon<'a>,
    pub desk: &'a str,
    pub from: Option<&'a str>,
    pub is_open: bool,
    pub journal: &'a str,
}
