//! What the word says that stands behind SEAL, CARRY, E2 or SEASON in a fault line. Only there it has this meaning.

pub(crate) const BEHIND: &str = "
#SEAL|none|
--sealed wants a seal, and JOURNAL.seal is not there, or the journal is no regular file.
seatdesk seal writes one, for a journal that is right, without its runs: where it lost its seal, put back a copy of that instead if no run,
host or recover wrote the journal since; else a script that was booked can be booked once more.
#SEAL|form|
JOURNAL.seal is no seal: a byte of it was changed, or it was cut off, or it is another file. Put back a copy
that is no older than the last run, host or recover of the journal: an older one forgets what these booked, and it is booked once more.
One that begins with SEATSEAL 1, 2 or 3 is of an older version. Where there is no such copy, seatdesk seal writes it anew, without its runs:
scripts that were booked can then be booked once more, and a note says so.
#SEAL|set|
The data set is another than the one that the journal was booked over. Name that one: a journal stays of its set, and of its
limits and days. A new schedule is for a new journal. seatdesk seal is no way round: it makes the journal one of this set.
#SEAL|limits|
The limit rows are others than those that the journal was booked over. Name those, also where seats are to be added or
taken: that is done by --changes of run, or by the manager of serve, and stands in the journal. seatdesk seal is no way round.
#SEAL|first|
--first is another day than that of the journal's flights. Say that day: it stands in JOURNAL.seal, behind first.
#SEAL|days|
--days is another number than that of the journal's flights. Say that number: it stands in JOURNAL.seal, behind days.
#SEAL|journal|
The journal's head and entries are others than those that were sealed: a line was changed, added or taken away,
or all of it, as by > or 2>> JOURNAL of a shell (recover --cut takes away what 2>> put behind the lines, and keeps the runs),
or the journal is another than the seal's: a run writes both, and a kept journal has its own beside it.
Of an open seal the journal does not begin with its lines. Of seatdesk serve and recover what is found of it does not
begin with the lines that were sealed, one of which is missing or was changed, or has more than a closed seal: no crash does that. Where an older
copy of the seal was put back behind a host or a run, take it away again; seatdesk seal, or the host, then writes one without runs. Of seatdesk seal: the seal there has a run behind more lines than the journal has, so it was changed.
#SEAL|again|
A script that is to be booked, or the file of --changes, stands in the journal already: it begins with the
very bytes that one of the last 128 runs booked which wrote the journal, by the digests of its seal. So the same command given twice
books nothing twice, with more lines behind its scripts too, unless a --resume of its scripts came between.
What it was answered is told once more by seatdesk told --desk N JOURNAL, and, as the run wrote it, by seatdesk replies with the set, the limits, the days,
--today and the scripts of that run, without --after, until another run writes the journal.
Name the scripts that are new, as those of the day. --resume JOURNAL books what is new of scripts that have grown, and nothing where
nothing is; --again books all of them once more. Of --resume JOURNAL it is a script of a run ahead of the lines that --behind names: say
where that run began.
#SEAL|behind|
--behind N, or the journal of --after, says behind how many lines the scripts of --resume began. The seal of the journal
has no run that began behind so many, so nothing says that these scripts are what stands behind them. Its lines run behind have the
numbers. Where the seal lost its runs, look with seatdesk history whether the journal has what a script asks.
Scripts that no run has booked yet, as those of a day's first run, go on by --after JOURNAL, without --resume and --behind.
#SEAL|runs|
The seal of the journal of --resume has several runs, which began behind several numbers of lines. Say by --behind N with
which of them the scripts began: N stands in the seal's lines run behind. Behind the first of a day stands what all desks sold that day.
New lines of a desk of which several scripts stand in the journal are written into a new one. Scripts that no run has booked yet, as those
of a day's first run, go on by --after JOURNAL, without --resume.
#SEAL|carried|
The live bookings of the journal were carried to another one, of which the seal has the digest: sell from that one.
run, a host, recover and another carry refuse this one, and audit and the commands that ask what it comes to take it.
Where carry was killed, or its disk failed, the other journal may not be there, or not be whole: give the same carry again, and it is finished.
#CARRY|unfinished|
A carry of this journal was begun, and had another result or another NEW: the seal beside JOURNAL has the digest of that name and that result.
Another --today, another season, --protect, --order, --displace or --fresh-limits make another result, and so does --shard H/M with another M, or
with a NEW that is another path ahead of its .H. Give the very command again that was begun, and it is finished; or --anew, by which this one takes
its place. No seat may be sold from the other one then.
#CARRY|new|
NEW has bytes, and they are of another journal than the one that this carry makes, or of that one with lines behind it. It is never replaced:
seats may be sold from it. Name a file that is not there, or an empty one.
#E2|first|
--first is no day of the years 2000 to 2099, as 2024-06-01.
#E2|days|
--days is no number of 1 to 366, in at most three digits.
#E2|shards|
--shards of audit takes journals as they stand: it is beside none of --after, --behind, --today, --refused, --sealed and --open.
Of loads and waiting: it needs a JOURNAL and is not beside --open, and more than one JOURNAL needs it.
Of route: it is no number of 1 to 999, in at most three digits.
#E2|shard|
--shard of carry is not H/M, as 2/4: shard H of M hosts, each in at most three digits, M of 1 to 999 and H of 1 to M.
Or NEW does not end in .H, as new.2 of shard 2: the names of all M differ in that alone. Nothing was written.
#E2|today|
--today is no day of the years 2000 to 2099, as 2024-06-01, or it is missing:
audit needs it where scripts are named, and serve where the seal beside JOURNAL has no day.
Or it is earlier than the day of that seal: a host never goes back to an earlier day.
Leave --today out, and the day of the seal holds: it stands in JOURNAL.seal, behind today. Or it stands beside --feed, which has its days in it;
or the first line of a feed is no day, as ?DAY 2024-06-22, and the seal beside JOURNAL has none either.
#E2|refused|
The file of --refused, which run writes, is one of the inputs, or OUT, or that of standard output or of standard error (where nothing is said
of it, since that would stand in the file), or another run has it, or its name is - or ends in .seal, .unfinished or .kept-N, or it is no
regular file, or it has something else than such a list, which would be lost. Nothing was written. seatdesk -v says which of these it is.
#E2|script|
There are more than 8 scripts, or some have a number ahead of their file, as 3=lisbon.txt, and some have none,
or a number is not one digit of 1 to 8, stands twice or has no file behind it. A file whose name begins so is ./3=lisbon.txt.
Or one file, by whatever names, is the script of two sessions, or a script and the file of --changes: run would book twice
what it asks. seatdesk -v says which.
Or there is no script: run and route need one unless they have --changes, and audit where it has --after, --behind, --today or --refused.
#E2|day|
--day is no day of the years 2000 to 2099, as 2024-06-01.
#E2|pair|
--pair is not two stations of three letters each, as LHRJFK.
#E2|flight|
--flight is not an airline of two characters, a number of 1 to 9999 and a letter or none, as LZ601 or LZ205A.
#E2|locator|
--locator is not six characters of A to Z and 0 to 9, as B3N6VC.
Or history has neither --locator nor --flight, one of which says whose lines it is to tell.
#E2|line|
--line or --from is no number of 1 to 999999, or the journal has no line of the number of --line.
#E2|behind|
--behind is no number of 0 to 999999, or stands beside --after or --since, or the journal has fewer lines,
or pickup has neither --behind nor --since, one of which says what stands ahead,
or run has no --resume, whose journal it is of, or serve no --feed,
or --after and --resume of run name one journal.
#E2|session|
--session is no digit of 0 to 8: a session has the number of its script, and 0 is the manager of the limits.
#E2|desk|
--desk of told is no digit of 0 to 8 (a desk has the number of its session, and 0 is the manager of the limits).
Of serve: --desk is not - alone, which is standard input and standard output, and not N=IN:OUT with a session of 1 to 8 that stands once;
or what it or --manager names is no named pipe (mkfifo -m 620 makes one to read a desk's lines from, and mkfifo -m 640 one to answer on),
or one that is named twice, that another host has, or that others may write to or read; or their modes tell that IN and OUT are swapped;
or desks on pipes have no --manager, or - has one; or --feed is not -, or stands beside --desk or --manager. seatdesk -v says which of these it is.
#E2|status|
--every of serve is no number of 1 to 3600, or the file of --status is an input, the journal, where standard output or standard error goes,
or no regular file, or its name is one that no journal may have, or it has anything but a status of a host, which would be lost;
or there is a desk on standard input, which has neither of the two. seatdesk -v says which of these it is.
#E2|journal|
The file of --journal is one of the inputs, other than the journals of --after and --resume, as JOURNAL of carry is one, or that of standard output or of standard error (where nothing is said of it, since that would stand in the journal),
or another run, seatdesk seal or a host has it, as it may have the journal that is to be served, sealed, recovered or carried, or its name is - or ends in .seal, .unfinished or .kept-N,
or NEW of carry is no regular file, or what is called as its seal is another file of the command or no regular file,
or --no-clobber keeps it: it is there and not empty. Nothing was written. seatdesk -v says which of these it is.
#E2|by|
--by of loads or of pickup is not leg, flight, day, pair or class.
#E2|form|
More than one of --csv, --json, --html and --bars is asked for, and an answer has one form; or --bars or --html with --by, and sums have neither.
#E2|html|
The page of --html has more than 30,000,000 bytes, and nothing was written. Ask for fewer legs, by --day, --flight or --pair.
#E2|words|
A word of the command line is not UTF-8.
#SEASON|form|line
The text is no TOML at this line: a name of a file stands between \" and \", a date stands without them, as first = 2024-07-01,
and each key has its own line, once.
#SEASON|key|other key
A season has no such key. Its keys are set, limits, first and days, and where it has them journal and desks.
#SEASON|value|key
The key may not have this value: set, limits and journal have a name, as \"summer.ssim\", relative to the season's own folder;
first has a day of the years 2000 to 2099, without quotes, as 2024-07-01; days has a number of 1 to 366; desks has up to eight names, as
[\"london\", \"lisbon\"], the first that of session 1, each a letter with letters, digits, - and _ behind it, or empty, and no two the same.
#SEASON|missing|key
A season says this, and this one does not. Each has set, limits, first and days.
";
