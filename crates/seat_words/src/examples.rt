//! That the examples of the help are read as they say.
ghost use Rattle.std.specs.Prelude.{[], ◌∷◌, codes};
ghost use Rattle.seat_words.specs.Examples.{IsReadTo};

/// Each command's example is taken, with the values that stand in it.
pub fn examples_are_read()
    ensures ladder { IsReadTo (codes "seatdesk ladder") (codes "ladder")
        ((codes "verbose", codes "false" ∷ []) ∷ (codes "quiet", codes "false" ∷ []) ∷ []) }
    ensures check { IsReadTo (codes "seatdesk check examples/summer.ssim") (codes "check")
        ((codes "set", codes "examples/summer.ssim" ∷ [])
        ∷ (codes "verbose", codes "false" ∷ []) ∷ (codes "quiet", codes "false" ∷ []) ∷ []) }
    ensures flights { IsReadTo (codes "seatdesk flights --first 2024-07-01 --days 31 examples/summer.ssim")
        (codes "flights")
        ((codes "first", codes "2024-07-01" ∷ []) ∷ (codes "days", codes "31" ∷ [])
        ∷ (codes "set", codes "examples/summer.ssim" ∷ [])
        ∷ (codes "csv", codes "false" ∷ []) ∷ (codes "json", codes "false" ∷ [])
        ∷ (codes "verbose", codes "false" ∷ []) ∷ (codes "quiet", codes "false" ∷ []) ∷ []) }
    ensures audit { IsReadTo
        (codes "seatdesk audit --set examples/summer.ssim --limits examples/limits.txt --first 2024-07-01 --days 31 examples/journal.txt")
        (codes "audit")
        ((codes "set", codes "examples/summer.ssim" ∷ []) ∷ (codes "limits", codes "examples/limits.txt" ∷ [])
        ∷ (codes "first", codes "2024-07-01" ∷ []) ∷ (codes "days", codes "31" ∷ [])
        ∷ (codes "journal", codes "examples/journal.txt" ∷ [])
        ∷ (codes "sealed", codes "false" ∷ []) ∷ (codes "open", codes "false" ∷ []) ∷ (codes "shards", codes "false" ∷ [])
        ∷ (codes "verbose", codes "false" ∷ []) ∷ (codes "quiet", codes "false" ∷ []) ∷ []) }
    ensures run { IsReadTo
        (codes "seatdesk run --set examples/summer.ssim --limits examples/limits.txt --first 2024-07-01 --days 31 --today 2024-06-20 --journal journal.txt examples/london.txt examples/lisbon.txt")
        (codes "run")
        ((codes "set", codes "examples/summer.ssim" ∷ []) ∷ (codes "limits", codes "examples/limits.txt" ∷ [])
        ∷ (codes "first", codes "2024-07-01" ∷ []) ∷ (codes "days", codes "31" ∷ [])
        ∷ (codes "today", codes "2024-06-20" ∷ []) ∷ (codes "journal", codes "journal.txt" ∷ [])
        ∷ (codes "scripts", codes "examples/london.txt" ∷ codes "examples/lisbon.txt" ∷ [])
        ∷ (codes "no-clobber", codes "false" ∷ []) ∷ (codes "again", codes "false" ∷ [])
        ∷ (codes "verbose", codes "false" ∷ []) ∷ (codes "quiet", codes "false" ∷ []) ∷ []) }
    ensures changes { IsReadTo
        (codes "seatdesk run --set examples/summer.ssim --limits examples/limits.txt --first 2024-07-01 --days 31 --today 2024-06-20 --journal journal.txt --changes examples/changes.txt examples/london.txt examples/lisbon.txt")
        (codes "run")
        ((codes "set", codes "examples/summer.ssim" ∷ []) ∷ (codes "limits", codes "examples/limits.txt" ∷ [])
        ∷ (codes "first", codes "2024-07-01" ∷ []) ∷ (codes "days", codes "31" ∷ [])
        ∷ (codes "today", codes "2024-06-20" ∷ []) ∷ (codes "journal", codes "journal.txt" ∷ [])
        ∷ (codes "changes", codes "examples/changes.txt" ∷ [])
        ∷ (codes "scripts", codes "examples/london.txt" ∷ codes "examples/lisbon.txt" ∷ [])
        ∷ (codes "no-clobber", codes "false" ∷ []) ∷ (codes "again", codes "false" ∷ [])
        ∷ (codes "verbose", codes "false" ∷ []) ∷ (codes "quiet", codes "false" ∷ []) ∷ []) }
    ensures desks { IsReadTo
        (codes "seatdesk run --set examples/summer.ssim --limits examples/limits.txt --first 2024-07-01 --days 31 --today 2024-06-20 --journal journal.txt 1=examples/london.txt 3=examples/lisbon.txt")
        (codes "run")
        ((codes "set", codes "examples/summer.ssim" ∷ []) ∷ (codes "limits", codes "examples/limits.txt" ∷ [])
        ∷ (codes "first", codes "2024-07-01" ∷ []) ∷ (codes "days", codes "31" ∷ [])
        ∷ (codes "today", codes "2024-06-20" ∷ []) ∷ (codes "journal", codes "journal.txt" ∷ [])
        ∷ (codes "scripts", codes "1=examples/london.txt" ∷ codes "3=examples/lisbon.txt" ∷ [])
        ∷ (codes "no-clobber", codes "false" ∷ []) ∷ (codes "again", codes "false" ∷ [])
        ∷ (codes "verbose", codes "false" ∷ []) ∷ (codes "quiet", codes "false" ∷ []) ∷ []) }
    ensures manager { IsReadTo
        (codes "seatdesk run --set examples/summer.ssim --limits examples/limits.txt --first 2024-07-01 --days 31 --today 2024-06-20 --journal journal.txt --changes examples/changes.txt")
        (codes "run")
        ((codes "set", codes "examples/summer.ssim" ∷ []) ∷ (codes "limits", codes "examples/limits.txt" ∷ [])
        ∷ (codes "first", codes "2024-07-01" ∷ []) ∷ (codes "days", codes "31" ∷ [])
        ∷ (codes "today", codes "2024-06-20" ∷ []) ∷ (codes "journal", codes "journal.txt" ∷ [])
        ∷ (codes "changes", codes "examples/changes.txt" ∷ [])
        ∷ (codes "no-clobber", codes "false" ∷ []) ∷ (codes "again", codes "false" ∷ [])
        ∷ (codes "verbose", codes "false" ∷ []) ∷ (codes "quiet", codes "false" ∷ []) ∷ []) }
    ensures after { IsReadTo
        (codes "seatdesk run --set examples/summer.ssim --limits examples/limits.txt --first 2024-07-01 --days 31 --after examples/journal.txt --today 2024-06-21 --journal journal-2.txt examples/london-2.txt")
        (codes "run")
        ((codes "set", codes "examples/summer.ssim" ∷ []) ∷ (codes "limits", codes "examples/limits.txt" ∷ [])
        ∷ (codes "first", codes "2024-07-01" ∷ []) ∷ (codes "days", codes "31" ∷ [])
        ∷ (codes "after", codes "examples/journal.txt" ∷ []) ∷ (codes "today", codes "2024-06-21" ∷ [])
        ∷ (codes "journal", codes "journal-2.txt" ∷ []) ∷ (codes "scripts", codes "examples/london-2.txt" ∷ [])
        ∷ (codes "no-clobber", codes "false" ∷ []) ∷ (codes "again", codes "false" ∷ [])
        ∷ (codes "verbose", codes "false" ∷ []) ∷ (codes "quiet", codes "false" ∷ []) ∷ []) }
    ensures resume { IsReadTo
        (codes "seatdesk run --set examples/summer.ssim --limits examples/limits.txt --first 2024-07-01 --days 31 --resume examples/journal.txt --today 2024-06-20 --journal journal.txt examples/london.txt examples/lisbon.txt")
        (codes "run")
        ((codes "set", codes "examples/summer.ssim" ∷ []) ∷ (codes "limits", codes "examples/limits.txt" ∷ [])
        ∷ (codes "first", codes "2024-07-01" ∷ []) ∷ (codes "days", codes "31" ∷ [])
        ∷ (codes "resume", codes "examples/journal.txt" ∷ []) ∷ (codes "today", codes "2024-06-20" ∷ [])
        ∷ (codes "journal", codes "journal.txt" ∷ [])
        ∷ (codes "scripts", codes "examples/london.txt" ∷ codes "examples/lisbon.txt" ∷ [])
        ∷ (codes "no-clobber", codes "false" ∷ []) ∷ (codes "again", codes "false" ∷ [])
        ∷ (codes "verbose", codes "false" ∷ []) ∷ (codes "quiet", codes "false" ∷ []) ∷ []) }
    ensures refused { IsReadTo
        (codes "seatdesk run --set examples/summer.ssim --limits examples/limits.txt --first 2024-07-01 --days 31 --today 2024-06-20 --journal journal.txt --refused refused.txt examples/london.txt examples/lisbon.txt")
        (codes "run")
        ((codes "set", codes "examples/summer.ssim" ∷ []) ∷ (codes "limits", codes "examples/limits.txt" ∷ [])
        ∷ (codes "first", codes "2024-07-01" ∷ []) ∷ (codes "days", codes "31" ∷ [])
        ∷ (codes "today", codes "2024-06-20" ∷ []) ∷ (codes "journal", codes "journal.txt" ∷ [])
        ∷ (codes "refused", codes "refused.txt" ∷ [])
        ∷ (codes "scripts", codes "examples/london.txt" ∷ codes "examples/lisbon.txt" ∷ [])
        ∷ (codes "no-clobber", codes "false" ∷ []) ∷ (codes "again", codes "false" ∷ [])
        ∷ (codes "verbose", codes "false" ∷ []) ∷ (codes "quiet", codes "false" ∷ []) ∷ []) }
    ensures cover { IsReadTo
        (codes "seatdesk cover --set examples/summer.ssim --limits examples/limits.txt --first 2024-07-01 --days 31")
        (codes "cover")
        ((codes "set", codes "examples/summer.ssim" ∷ []) ∷ (codes "limits", codes "examples/limits.txt" ∷ [])
        ∷ (codes "first", codes "2024-07-01" ∷ []) ∷ (codes "days", codes "31" ∷ [])
        ∷ (codes "csv", codes "false" ∷ []) ∷ (codes "json", codes "false" ∷ [])
        ∷ (codes "verbose", codes "false" ∷ []) ∷ (codes "quiet", codes "false" ∷ []) ∷ []) }
    ensures rooms { IsReadTo
        (codes "seatdesk rooms --set examples/summer.ssim --limits examples/limits.txt --first 2024-07-01 --days 31 --day 2024-07-27 --pair LHRKEF examples/journal.txt")
        (codes "rooms")
        ((codes "set", codes "examples/summer.ssim" ∷ []) ∷ (codes "limits", codes "examples/limits.txt" ∷ [])
        ∷ (codes "first", codes "2024-07-01" ∷ []) ∷ (codes "days", codes "31" ∷ [])
        ∷ (codes "day", codes "2024-07-27" ∷ []) ∷ (codes "pair", codes "LHRKEF" ∷ [])
        ∷ (codes "journal", codes "examples/journal.txt" ∷ [])
        ∷ (codes "bars", codes "false" ∷ []) ∷ (codes "csv", codes "false" ∷ []) ∷ (codes "json", codes "false" ∷ []) ∷ (codes "open", codes "false" ∷ [])
        ∷ (codes "verbose", codes "false" ∷ []) ∷ (codes "quiet", codes "false" ∷ []) ∷ []) }
    ensures loads { IsReadTo
        (codes "seatdesk loads --set examples/summer.ssim --limits examples/limits.txt --first 2024-07-01 --days 31 --day 2024-07-27 examples/journal.txt")
        (codes "loads")
        ((codes "set", codes "examples/summer.ssim" ∷ []) ∷ (codes "limits", codes "examples/limits.txt" ∷ [])
        ∷ (codes "first", codes "2024-07-01" ∷ []) ∷ (codes "days", codes "31" ∷ [])
        ∷ (codes "day", codes "2024-07-27" ∷ [])
        ∷ (codes "journal", codes "examples/journal.txt" ∷ [])
        ∷ (codes "bars", codes "false" ∷ []) ∷ (codes "csv", codes "false" ∷ []) ∷ (codes "json", codes "false" ∷ []) ∷ (codes "html", codes "false" ∷ []) ∷ (codes "open", codes "false" ∷ []) ∷ (codes "shards", codes "false" ∷ [])
        ∷ (codes "verbose", codes "false" ∷ []) ∷ (codes "quiet", codes "false" ∷ []) ∷ []) }
    ensures together { IsReadTo
        (codes "seatdesk loads --set examples/summer.ssim --limits examples/limits.txt --first 2024-07-01 --days 31 --shards examples/journal.txt journal-3.txt")
        (codes "loads")
        ((codes "set", codes "examples/summer.ssim" ∷ []) ∷ (codes "limits", codes "examples/limits.txt" ∷ [])
        ∷ (codes "first", codes "2024-07-01" ∷ []) ∷ (codes "days", codes "31" ∷ [])
        ∷ (codes "shards", codes "true" ∷ []) ∷ (codes "journal", codes "examples/journal.txt" ∷ [])
        ∷ (codes "others", codes "journal-3.txt" ∷ [])
        ∷ (codes "bars", codes "false" ∷ []) ∷ (codes "csv", codes "false" ∷ []) ∷ (codes "json", codes "false" ∷ []) ∷ (codes "html", codes "false" ∷ []) ∷ (codes "open", codes "false" ∷ [])
        ∷ (codes "verbose", codes "false" ∷ []) ∷ (codes "quiet", codes "false" ∷ []) ∷ []) }
    ensures bookings { IsReadTo
        (codes "seatdesk bookings --set examples/summer.ssim --limits examples/limits.txt --first 2024-07-01 --days 31 --locator B3N6VC examples/journal.txt")
        (codes "bookings")
        ((codes "set", codes "examples/summer.ssim" ∷ []) ∷ (codes "limits", codes "examples/limits.txt" ∷ [])
        ∷ (codes "first", codes "2024-07-01" ∷ []) ∷ (codes "days", codes "31" ∷ [])
        ∷ (codes "locator", codes "B3N6VC" ∷ []) ∷ (codes "journal", codes "examples/journal.txt" ∷ [])
        ∷ (codes "csv", codes "false" ∷ []) ∷ (codes "json", codes "false" ∷ []) ∷ (codes "open", codes "false" ∷ [])
        ∷ (codes "verbose", codes "false" ∷ []) ∷ (codes "quiet", codes "false" ∷ []) ∷ []) }
    ensures waiting { IsReadTo
        (codes "seatdesk waiting --set examples/summer.ssim --limits examples/limits.txt --first 2024-07-01 --days 31 --flight LZ601 --day 2024-07-27 examples/journal.txt")
        (codes "waiting")
        ((codes "set", codes "examples/summer.ssim" ∷ []) ∷ (codes "limits", codes "examples/limits.txt" ∷ [])
        ∷ (codes "first", codes "2024-07-01" ∷ []) ∷ (codes "days", codes "31" ∷ [])
        ∷ (codes "flight", codes "LZ601" ∷ []) ∷ (codes "day", codes "2024-07-27" ∷ [])
        ∷ (codes "journal", codes "examples/journal.txt" ∷ [])
        ∷ (codes "csv", codes "false" ∷ []) ∷ (codes "json", codes "false" ∷ []) ∷ (codes "open", codes "false" ∷ []) ∷ (codes "shards", codes "false" ∷ [])
        ∷ (codes "verbose", codes "false" ∷ []) ∷ (codes "quiet", codes "false" ∷ []) ∷ []) }
    ensures waiters { IsReadTo
        (codes "seatdesk waiting --set examples/summer.ssim --limits examples/limits.txt --first 2024-07-01 --days 31 --shards examples/journal.txt journal-3.txt")
        (codes "waiting")
        ((codes "set", codes "examples/summer.ssim" ∷ []) ∷ (codes "limits", codes "examples/limits.txt" ∷ [])
        ∷ (codes "first", codes "2024-07-01" ∷ []) ∷ (codes "days", codes "31" ∷ [])
        ∷ (codes "shards", codes "true" ∷ []) ∷ (codes "journal", codes "examples/journal.txt" ∷ [])
        ∷ (codes "others", codes "journal-3.txt" ∷ [])
        ∷ (codes "csv", codes "false" ∷ []) ∷ (codes "json", codes "false" ∷ []) ∷ (codes "open", codes "false" ∷ [])
        ∷ (codes "verbose", codes "false" ∷ []) ∷ (codes "quiet", codes "false" ∷ []) ∷ []) }
    ensures pickup { IsReadTo
        (codes "seatdesk pickup --set examples/summer.ssim --limits examples/limits.txt --first 2024-07-01 --days 31 --behind 8 examples/journal.txt")
        (codes "pickup")
        ((codes "set", codes "examples/summer.ssim" ∷ []) ∷ (codes "limits", codes "examples/limits.txt" ∷ [])
        ∷ (codes "first", codes "2024-07-01" ∷ []) ∷ (codes "days", codes "31" ∷ [])
        ∷ (codes "behind", codes "8" ∷ [])
        ∷ (codes "journal", codes "examples/journal.txt" ∷ [])
        ∷ (codes "csv", codes "false" ∷ []) ∷ (codes "json", codes "false" ∷ []) ∷ (codes "open", codes "false" ∷ [])
        ∷ (codes "verbose", codes "false" ∷ []) ∷ (codes "quiet", codes "false" ∷ []) ∷ []) }
    ensures history { IsReadTo
        (codes "seatdesk history --set examples/summer.ssim --limits examples/limits.txt --first 2024-07-01 --days 31 --locator W8Y3ZA examples/journal.txt")
        (codes "history")
        ((codes "set", codes "examples/summer.ssim" ∷ []) ∷ (codes "limits", codes "examples/limits.txt" ∷ [])
        ∷ (codes "first", codes "2024-07-01" ∷ []) ∷ (codes "days", codes "31" ∷ [])
        ∷ (codes "locator", codes "W8Y3ZA" ∷ [])
        ∷ (codes "journal", codes "examples/journal.txt" ∷ [])
        ∷ (codes "csv", codes "false" ∷ []) ∷ (codes "json", codes "false" ∷ []) ∷ (codes "open", codes "false" ∷ [])
        ∷ (codes "verbose", codes "false" ∷ []) ∷ (codes "quiet", codes "false" ∷ []) ∷ []) }
    ensures avs { IsReadTo
        (codes "seatdesk avs --set examples/summer.ssim --limits examples/limits.txt --first 2024-07-01 --days 31 examples/journal.txt")
        (codes "avs")
        ((codes "set", codes "examples/summer.ssim" ∷ []) ∷ (codes "limits", codes "examples/limits.txt" ∷ [])
        ∷ (codes "first", codes "2024-07-01" ∷ []) ∷ (codes "days", codes "31" ∷ [])
        ∷ (codes "journal", codes "examples/journal.txt" ∷ [])
        ∷ (codes "numeric", codes "false" ∷ []) ∷ (codes "open", codes "false" ∷ [])
        ∷ (codes "verbose", codes "false" ∷ []) ∷ (codes "quiet", codes "false" ∷ []) ∷ []) }
    ensures since { IsReadTo
        (codes "seatdesk avs --set examples/summer.ssim --limits examples/limits.txt --first 2024-07-01 --days 31 --since examples/journal.txt --numeric journal-2.txt")
        (codes "avs")
        ((codes "set", codes "examples/summer.ssim" ∷ []) ∷ (codes "limits", codes "examples/limits.txt" ∷ [])
        ∷ (codes "first", codes "2024-07-01" ∷ []) ∷ (codes "days", codes "31" ∷ [])
        ∷ (codes "since", codes "examples/journal.txt" ∷ []) ∷ (codes "numeric", codes "true" ∷ [])
        ∷ (codes "journal", codes "journal-2.txt" ∷ [])
        ∷ (codes "open", codes "false" ∷ [])
        ∷ (codes "verbose", codes "false" ∷ []) ∷ (codes "quiet", codes "false" ∷ []) ∷ []) }
    ensures reconcile { IsReadTo
        (codes "seatdesk reconcile --set examples/summer.ssim --limits examples/limits.txt --first 2024-07-01 --days 31 --session 2 theirs.txt examples/journal.txt")
        (codes "reconcile")
        ((codes "set", codes "examples/summer.ssim" ∷ []) ∷ (codes "limits", codes "examples/limits.txt" ∷ [])
        ∷ (codes "first", codes "2024-07-01" ∷ []) ∷ (codes "days", codes "31" ∷ [])
        ∷ (codes "session", codes "2" ∷ [])
        ∷ (codes "theirs", codes "theirs.txt" ∷ []) ∷ (codes "journal", codes "examples/journal.txt" ∷ [])
        ∷ (codes "all", codes "false" ∷ []) ∷ (codes "open", codes "false" ∷ [])
        ∷ (codes "verbose", codes "false" ∷ []) ∷ (codes "quiet", codes "false" ∷ []) ∷ []) }
    ensures compare { IsReadTo
        (codes "seatdesk compare --from examples/summer.toml --to examples/august.toml examples/journal.txt")
        (codes "compare")
        ((codes "from", codes "examples/summer.toml" ∷ []) ∷ (codes "to", codes "examples/august.toml" ∷ [])
        ∷ (codes "journal", codes "examples/journal.txt" ∷ [])
        ∷ (codes "verbose", codes "false" ∷ []) ∷ (codes "quiet", codes "false" ∷ []) ∷ []) }
    ensures carry { IsReadTo
        (codes "seatdesk carry --from examples/summer.toml --to examples/august.toml --today 2024-07-20 --journal august.txt journal.txt")
        (codes "carry")
        ((codes "from", codes "examples/summer.toml" ∷ []) ∷ (codes "to", codes "examples/august.toml" ∷ [])
        ∷ (codes "today", codes "2024-07-20" ∷ []) ∷ (codes "journal", codes "august.txt" ∷ [])
        ∷ (codes "carried", codes "journal.txt" ∷ [])
        ∷ (codes "displace", codes "false" ∷ []) ∷ (codes "fresh-limits", codes "false" ∷ [])
        ∷ (codes "anew", codes "false" ∷ []) ∷ (codes "dry-run", codes "false" ∷ [])
        ∷ (codes "csv", codes "false" ∷ []) ∷ (codes "json", codes "false" ∷ [])
        ∷ (codes "verbose", codes "false" ∷ []) ∷ (codes "quiet", codes "false" ∷ []) ∷ []) }
    ensures joined { IsReadTo
        (codes "seatdesk carry --from examples/summer.toml --to examples/august.toml --today 2024-07-20 --journal august.txt journal-1.txt journal-2.txt")
        (codes "carry")
        ((codes "from", codes "examples/summer.toml" ∷ []) ∷ (codes "to", codes "examples/august.toml" ∷ [])
        ∷ (codes "today", codes "2024-07-20" ∷ []) ∷ (codes "journal", codes "august.txt" ∷ [])
        ∷ (codes "carried", codes "journal-1.txt" ∷ []) ∷ (codes "others", codes "journal-2.txt" ∷ [])
        ∷ (codes "displace", codes "false" ∷ []) ∷ (codes "fresh-limits", codes "false" ∷ [])
        ∷ (codes "anew", codes "false" ∷ []) ∷ (codes "dry-run", codes "false" ∷ [])
        ∷ (codes "csv", codes "false" ∷ []) ∷ (codes "json", codes "false" ∷ [])
        ∷ (codes "verbose", codes "false" ∷ []) ∷ (codes "quiet", codes "false" ∷ []) ∷ []) }
    ensures sharded { IsReadTo
        (codes "seatdesk carry --from examples/summer.toml --to examples/august.toml --today 2024-07-20 --journal august.1 --shard 1/4 journal.txt")
        (codes "carry")
        ((codes "from", codes "examples/summer.toml" ∷ []) ∷ (codes "to", codes "examples/august.toml" ∷ [])
        ∷ (codes "today", codes "2024-07-20" ∷ []) ∷ (codes "journal", codes "august.1" ∷ [])
        ∷ (codes "shard", codes "1/4" ∷ [])
        ∷ (codes "carried", codes "journal.txt" ∷ [])
        ∷ (codes "displace", codes "false" ∷ []) ∷ (codes "fresh-limits", codes "false" ∷ [])
        ∷ (codes "anew", codes "false" ∷ []) ∷ (codes "dry-run", codes "false" ∷ [])
        ∷ (codes "csv", codes "false" ∷ []) ∷ (codes "json", codes "false" ∷ [])
        ∷ (codes "verbose", codes "false" ∷ []) ∷ (codes "quiet", codes "false" ∷ []) ∷ []) }
    ensures trial { IsReadTo
        (codes "seatdesk carry --from examples/summer.toml --to examples/august.toml --today 2024-07-20 --journal august.txt --displace --dry-run journal.txt")
        (codes "carry")
        ((codes "from", codes "examples/summer.toml" ∷ []) ∷ (codes "to", codes "examples/august.toml" ∷ [])
        ∷ (codes "today", codes "2024-07-20" ∷ []) ∷ (codes "journal", codes "august.txt" ∷ [])
        ∷ (codes "displace", codes "true" ∷ []) ∷ (codes "dry-run", codes "true" ∷ [])
        ∷ (codes "carried", codes "journal.txt" ∷ [])
        ∷ (codes "fresh-limits", codes "false" ∷ []) ∷ (codes "anew", codes "false" ∷ [])
        ∷ (codes "csv", codes "false" ∷ []) ∷ (codes "json", codes "false" ∷ [])
        ∷ (codes "verbose", codes "false" ∷ []) ∷ (codes "quiet", codes "false" ∷ []) ∷ []) }
    ensures protected { IsReadTo
        (codes "seatdesk carry --from examples/summer.toml --to examples/august.toml --today 2024-07-20 --journal august.txt --protect protected.txt --order first.txt --displace journal.txt")
        (codes "carry")
        ((codes "from", codes "examples/summer.toml" ∷ []) ∷ (codes "to", codes "examples/august.toml" ∷ [])
        ∷ (codes "today", codes "2024-07-20" ∷ []) ∷ (codes "journal", codes "august.txt" ∷ [])
        ∷ (codes "protect", codes "protected.txt" ∷ []) ∷ (codes "order", codes "first.txt" ∷ [])
        ∷ (codes "displace", codes "true" ∷ [])
        ∷ (codes "carried", codes "journal.txt" ∷ [])
        ∷ (codes "fresh-limits", codes "false" ∷ []) ∷ (codes "anew", codes "false" ∷ []) ∷ (codes "dry-run", codes "false" ∷ [])
        ∷ (codes "csv", codes "false" ∷ []) ∷ (codes "json", codes "false" ∷ [])
        ∷ (codes "verbose", codes "false" ∷ []) ∷ (codes "quiet", codes "false" ∷ []) ∷ []) }
    ensures route { IsReadTo
        (codes "seatdesk route --shards 4 examples/london.txt examples/lisbon.txt")
        (codes "route")
        ((codes "shards", codes "4" ∷ [])
        ∷ (codes "scripts", codes "examples/london.txt" ∷ codes "examples/lisbon.txt" ∷ [])
        ∷ (codes "verbose", codes "false" ∷ []) ∷ (codes "quiet", codes "false" ∷ []) ∷ []) }
    ensures wanted { IsReadTo
        (codes "seatdesk changes --set examples/summer.ssim --limits examples/limits.txt --first 2024-07-01 --days 31 --to examples/wanted.txt examples/journal.txt")
        (codes "changes")
        ((codes "set", codes "examples/summer.ssim" ∷ []) ∷ (codes "limits", codes "examples/limits.txt" ∷ [])
        ∷ (codes "first", codes "2024-07-01" ∷ []) ∷ (codes "days", codes "31" ∷ [])
        ∷ (codes "to", codes "examples/wanted.txt" ∷ []) ∷ (codes "journal", codes "examples/journal.txt" ∷ [])
        ∷ (codes "open", codes "false" ∷ [])
        ∷ (codes "verbose", codes "false" ∷ []) ∷ (codes "quiet", codes "false" ∷ []) ∷ []) }
    ensures told { IsReadTo
        (codes "seatdesk told --set examples/summer.ssim --limits examples/limits.txt --first 2024-07-01 --days 31 --desk 2 examples/journal.txt")
        (codes "told")
        ((codes "set", codes "examples/summer.ssim" ∷ []) ∷ (codes "limits", codes "examples/limits.txt" ∷ [])
        ∷ (codes "first", codes "2024-07-01" ∷ []) ∷ (codes "days", codes "31" ∷ [])
        ∷ (codes "desk", codes "2" ∷ []) ∷ (codes "journal", codes "examples/journal.txt" ∷ [])
        ∷ (codes "open", codes "false" ∷ [])
        ∷ (codes "verbose", codes "false" ∷ []) ∷ (codes "quiet", codes "false" ∷ []) ∷ []) }
    ensures against { IsReadTo
        (codes "seatdesk audit --set examples/summer.ssim --limits examples/limits.txt --first 2024-07-01 --days 31 --today 2024-06-20 examples/journal.txt examples/london.txt examples/lisbon.txt")
        (codes "audit")
        ((codes "set", codes "examples/summer.ssim" ∷ []) ∷ (codes "limits", codes "examples/limits.txt" ∷ [])
        ∷ (codes "first", codes "2024-07-01" ∷ []) ∷ (codes "days", codes "31" ∷ [])
        ∷ (codes "today", codes "2024-06-20" ∷ []) ∷ (codes "journal", codes "examples/journal.txt" ∷ [])
        ∷ (codes "scripts", codes "examples/london.txt" ∷ codes "examples/lisbon.txt" ∷ [])
        ∷ (codes "sealed", codes "false" ∷ []) ∷ (codes "open", codes "false" ∷ []) ∷ (codes "shards", codes "false" ∷ [])
        ∷ (codes "verbose", codes "false" ∷ []) ∷ (codes "quiet", codes "false" ∷ []) ∷ []) }
    ensures behind { IsReadTo
        (codes "seatdesk audit --set examples/summer.ssim --limits examples/limits.txt --first 2024-07-01 --days 31 --after examples/journal.txt --today 2024-06-21 journal-2.txt examples/london-2.txt")
        (codes "audit")
        ((codes "set", codes "examples/summer.ssim" ∷ []) ∷ (codes "limits", codes "examples/limits.txt" ∷ [])
        ∷ (codes "first", codes "2024-07-01" ∷ []) ∷ (codes "days", codes "31" ∷ [])
        ∷ (codes "after", codes "examples/journal.txt" ∷ []) ∷ (codes "today", codes "2024-06-21" ∷ [])
        ∷ (codes "journal", codes "journal-2.txt" ∷ []) ∷ (codes "scripts", codes "examples/london-2.txt" ∷ [])
        ∷ (codes "sealed", codes "false" ∷ []) ∷ (codes "open", codes "false" ∷ []) ∷ (codes "shards", codes "false" ∷ [])
        ∷ (codes "verbose", codes "false" ∷ []) ∷ (codes "quiet", codes "false" ∷ []) ∷ []) }
    ensures shards { IsReadTo
        (codes "seatdesk audit --set examples/summer.ssim --limits examples/limits.txt --first 2024-07-01 --days 31 --shards examples/journal.txt journal-3.txt")
        (codes "audit")
        ((codes "set", codes "examples/summer.ssim" ∷ []) ∷ (codes "limits", codes "examples/limits.txt" ∷ [])
        ∷ (codes "first", codes "2024-07-01" ∷ []) ∷ (codes "days", codes "31" ∷ [])
        ∷ (codes "shards", codes "true" ∷ []) ∷ (codes "journal", codes "examples/journal.txt" ∷ [])
        ∷ (codes "scripts", codes "journal-3.txt" ∷ [])
        ∷ (codes "sealed", codes "false" ∷ []) ∷ (codes "open", codes "false" ∷ [])
        ∷ (codes "verbose", codes "false" ∷ []) ∷ (codes "quiet", codes "false" ∷ []) ∷ []) }
    ensures seal { IsReadTo
        (codes "seatdesk seal --set examples/summer.ssim --limits examples/limits.txt --first 2024-07-01 --days 31 journal.txt")
        (codes "seal")
        ((codes "set", codes "examples/summer.ssim" ∷ []) ∷ (codes "limits", codes "examples/limits.txt" ∷ [])
        ∷ (codes "first", codes "2024-07-01" ∷ []) ∷ (codes "days", codes "31" ∷ [])
        ∷ (codes "journal", codes "journal.txt" ∷ [])
        ∷ (codes "verbose", codes "false" ∷ []) ∷ (codes "quiet", codes "false" ∷ []) ∷ []) }
    ensures serve { IsReadTo
        (codes "seatdesk serve --set examples/summer.ssim --limits examples/limits.txt --first 2024-07-01 --days 31 --today 2024-06-20 --journal journal.txt --desk -")
        (codes "serve")
        ((codes "set", codes "examples/summer.ssim" ∷ []) ∷ (codes "limits", codes "examples/limits.txt" ∷ [])
        ∷ (codes "first", codes "2024-07-01" ∷ []) ∷ (codes "days", codes "31" ∷ [])
        ∷ (codes "today", codes "2024-06-20" ∷ []) ∷ (codes "journal", codes "journal.txt" ∷ [])
        ∷ (codes "desk", codes "-" ∷ [])
        ∷ (codes "close-departed", codes "false" ∷ []) ∷ (codes "verbose", codes "false" ∷ []) ∷ (codes "quiet", codes "false" ∷ []) ∷ []) }
    ensures pipes { IsReadTo
        (codes "seatdesk serve --set examples/summer.ssim --limits examples/limits.txt --first 2024-07-01 --days 31 --today 2024-06-20 --journal journal.txt --desk 1=london.in:london.out --desk 2=lisbon.in:lisbon.out --manager m.in:m.out")
        (codes "serve")
        ((codes "set", codes "examples/summer.ssim" ∷ []) ∷ (codes "limits", codes "examples/limits.txt" ∷ [])
        ∷ (codes "first", codes "2024-07-01" ∷ []) ∷ (codes "days", codes "31" ∷ [])
        ∷ (codes "today", codes "2024-06-20" ∷ []) ∷ (codes "journal", codes "journal.txt" ∷ [])
        ∷ (codes "desk", codes "1=london.in:london.out" ∷ codes "2=lisbon.in:lisbon.out" ∷ [])
        ∷ (codes "manager", codes "m.in:m.out" ∷ [])
        ∷ (codes "close-departed", codes "false" ∷ []) ∷ (codes "verbose", codes "false" ∷ []) ∷ (codes "quiet", codes "false" ∷ []) ∷ []) }
    ensures feed { IsReadTo
        (codes "seatdesk serve --set examples/summer.ssim --limits examples/limits.txt --first 2024-07-01 --days 31 --journal journal.txt --feed -")
        (codes "serve")
        ((codes "set", codes "examples/summer.ssim" ∷ []) ∷ (codes "limits", codes "examples/limits.txt" ∷ [])
        ∷ (codes "first", codes "2024-07-01" ∷ []) ∷ (codes "days", codes "31" ∷ [])
        ∷ (codes "journal", codes "journal.txt" ∷ [])
        ∷ (codes "feed", codes "-" ∷ [])
        ∷ (codes "close-departed", codes "false" ∷ []) ∷ (codes "verbose", codes "false" ∷ []) ∷ (codes "quiet", codes "false" ∷ []) ∷ []) }
    ensures recover { IsReadTo
        (codes "seatdesk recover --set examples/summer.ssim --limits examples/limits.txt --first 2024-07-01 --days 31 journal.txt")
        (codes "recover")
        ((codes "set", codes "examples/summer.ssim" ∷ []) ∷ (codes "limits", codes "examples/limits.txt" ∷ [])
        ∷ (codes "first", codes "2024-07-01" ∷ []) ∷ (codes "days", codes "31" ∷ [])
        ∷ (codes "journal", codes "journal.txt" ∷ [])
        ∷ (codes "cut", codes "false" ∷ [])
        ∷ (codes "verbose", codes "false" ∷ []) ∷ (codes "quiet", codes "false" ∷ []) ∷ []) }
    ensures replies { IsReadTo
        (codes "seatdesk replies --set examples/summer.ssim --limits examples/limits.txt --first 2024-07-01 --days 31 --today 2024-06-20 examples/journal.txt examples/london.txt examples/lisbon.txt")
        (codes "replies")
        ((codes "set", codes "examples/summer.ssim" ∷ []) ∷ (codes "limits", codes "examples/limits.txt" ∷ [])
        ∷ (codes "first", codes "2024-07-01" ∷ []) ∷ (codes "days", codes "31" ∷ [])
        ∷ (codes "today", codes "2024-06-20" ∷ []) ∷ (codes "journal", codes "examples/journal.txt" ∷ [])
        ∷ (codes "scripts", codes "examples/london.txt" ∷ codes "examples/lisbon.txt" ∷ [])
        ∷ (codes "csv", codes "false" ∷ []) ∷ (codes "json", codes "false" ∷ [])
        ∷ (codes "verbose", codes "false" ∷ []) ∷ (codes "quiet", codes "false" ∷ []) ∷ []) }
    ensures why { IsReadTo
        (codes "seatdesk why --set examples/summer.ssim --limits examples/limits.txt --first 2024-07-01 --days 31 --line 6 examples/journal.txt")
        (codes "why")
        ((codes "set", codes "examples/summer.ssim" ∷ []) ∷ (codes "limits", codes "examples/limits.txt" ∷ [])
        ∷ (codes "first", codes "2024-07-01" ∷ []) ∷ (codes "days", codes "31" ∷ [])
        ∷ (codes "line", codes "6" ∷ []) ∷ (codes "journal", codes "examples/journal.txt" ∷ [])
        ∷ (codes "open", codes "false" ∷ [])
        ∷ (codes "verbose", codes "false" ∷ []) ∷ (codes "quiet", codes "false" ∷ []) ∷ []) }
    ensures explain { IsReadTo (codes "seatdesk explain Q2 A5 1 2") (codes "explain")
        ((codes "code", codes "Q2" ∷ []) ∷ (codes "numbers", codes "A5" ∷ codes "1" ∷ codes "2" ∷ [])
        ∷ (codes "verbose", codes "false" ∷ []) ∷ (codes "quiet", codes "false" ∷ []) ∷ []) }
    ensures pasted { IsReadTo (codes "seatdesk explain seatdesk: Q2 A5 1 2") (codes "explain")
        ((codes "code", codes "seatdesk:" ∷ [])
        ∷ (codes "numbers", codes "Q2" ∷ codes "A5" ∷ codes "1" ∷ codes "2" ∷ [])
        ∷ (codes "verbose", codes "false" ∷ []) ∷ (codes "quiet", codes "false" ∷ []) ∷ []) }
    ensures noted { IsReadTo (codes "seatdesk explain kept day.txt --after") (codes "explain")
        ((codes "code", codes "kept" ∷ []) ∷ (codes "numbers", codes "day.txt" ∷ codes "--after" ∷ [])
        ∷ (codes "verbose", codes "false" ∷ []) ∷ (codes "quiet", codes "false" ∷ []) ∷ []) }
    ensures verbose { IsReadTo (codes "seatdesk check -v examples/summer.ssim") (codes "check")
        ((codes "verbose", codes "true" ∷ []) ∷ (codes "set", codes "examples/summer.ssim" ∷ [])
        ∷ (codes "quiet", codes "false" ∷ []) ∷ []) }
    ensures quiet { IsReadTo (codes "seatdesk check --quiet examples/summer.ssim") (codes "check")
        ((codes "quiet", codes "true" ∷ []) ∷ (codes "set", codes "examples/summer.ssim" ∷ [])
        ∷ (codes "verbose", codes "false" ∷ []) ∷ []) }
    ensures season { IsReadTo (codes "seatdesk season examples/summer.ssim examples/limits.txt") (codes "season")
        ((codes "set", codes "examples/summer.ssim" ∷ []) ∷ (codes "limits", codes "examples/limits.txt" ∷ [])
        ∷ (codes "verbose", codes "false" ∷ []) ∷ (codes "quiet", codes "false" ∷ []) ∷ []) }
{}
