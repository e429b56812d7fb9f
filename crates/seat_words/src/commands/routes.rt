//! The command for a gateway to several hosts: which of them each line of the scripts goes to.

use crate::commands::arguments::Argument::{Optional, Wanted, Words};
use crate::commands::arguments::{Described, SCRIPTS_HELP};

const SHARDS_HELP: &str = "How many shards there are, 1 to 999";

const ROUTED_CHANGES_HELP: &str =
    "Changes of limits, and classes to be closed and opened, by rows AU, CLOSE and OPEN, as run has them (a file); their shards stand ahead of those of the scripts";

pub(super) const ROUTE: &Described = &Described {
    name: "route",
    about: "Says which shard each line of scripts goes to, where the flights are divided among several hosts",
    over_horizon: false,
    arguments: &[
        Wanted("shards", "N", SHARDS_HELP),
        Optional("changes", "FILE", ROUTED_CHANGES_HELP),
        Words("scripts", "SCRIPT", SCRIPTS_HELP),
    ],
};

pub(super) const ROUTE_MORE: &str =
    "A shard is one host of several that have different flights; they count from 1. A flight goes by its designator, so all its days and legs\nare of one shard.\n\nExample: seatdesk route --shards 4 examples/london.txt examples/lisbon.txt";
