//! The commands by their names.
ghost use Rattle.std.specs.Prelude.{◌≡◌};
ghost use Rattle.seat_words.specs.Jobs.{named_among, named_by};

/// Which command it is.
#[derive(Clone, Copy)]
pub(crate) enum Named {
    Ladder,
    Check,
    Flights,
    Cover,
    Rooms,
    Loads,
    Run,
    Serve,
    Route,
    Bookings,
    Waiting,
    Pickup,
    History,
    Avs,
    Reconcile,
    Compare,
    Carry,
    Changes,
    Audit,
    Seal,
    Recover,
    Replies,
    Told,
    Why,
    Explain,
    Season,
}

/// A command, and the word that names it.
pub(crate) struct Name {
    word: &'static str,
    pub(crate) named: Named,
}

/// The commands of the program.
pub(crate) const NAMES: &[Name] = &[
    Name {
        word: "ladder",
        named: Named::Ladder,
    },
    Name {
        word: "check",
        named: Named::Check,
    },
    Name {
        word: "flights",
        named: Named::Flights,
    },
    Name {
        word: "cover",
        named: Named::Cover,
    },
    Name {
        word: "rooms",
        named: Named::Rooms,
    },
    Name {
        word: "loads",
        named: Named::Loads,
    },
    Name {
        word: "run",
        named: Named::Run,
    },
    Name {
        word: "serve",
        named: Named::Serve,
    },
    Name {
        word: "route",
        named: Named::Route,
    },
    Name {
        word: "bookings",
        named: Named::Bookings,
    },
    Name {
        word: "waiting",
        named: Named::Waiting,
    },
    Name {
        word: "pickup",
        named: Named::Pickup,
    },
    Name {
        word: "history",
        named: Named::History,
    },
    Name {
        word: "avs",
        named: Named::Avs,
    },
    Name {
        word: "reconcile",
        named: Named::Reconcile,
    },
    Name {
        word: "compare",
        named: Named::Compare,
    },
    Name {
        word: "carry",
        named: Named::Carry,
    },
    Name {
        word: "changes",
        named: Named::Changes,
    },
    Name {
        word: "audit",
        named: Named::Audit,
    },
    Name {
        word: "seal",
        named: Named::Seal,
    },
    Name {
        word: "recover",
        named: Named::Recover,
    },
    Name {
        word: "replies",
        named: Named::Replies,
    },
    Name {
        word: "told",
        named: Named::Told,
    },
    Name {
        word: "why",
        named: Named::Why,
    },
    Name {
        word: "explain",
        named: Named::Explain,
    },
    Name {
        word: "season",
        named: Named::Season,
    },
];

/// The command of this name.
pub(crate) fn named_by(word: &str) -> Option<Named>
    ensures { result ≡ named_by word.now }
{
    named_among(word, NAMES)
}

// The first of these that has this name.
fn named_among(word: &str, names: &[Name]) -> Option<Named>
    ensures { result ≡ named_among word.now names.now }
{
    let mut rest = names;
    while let [name, more @ ..] = rest {
        if word == name.word {
            return Some(name.named);
        }
        rest = more;
    }
    None
}
