//! What each note says, and what is written of a file that was kept.

// Ahead of the code a word stands that the note has.
pub(crate) const NOTES: &str = "
#status|note|
A host could not write its status to the file of --status, for the system's reason that the note has. The host goes on, and tries again
each time; the note comes again where it could be written in between.
#asks|note|
The scripts of the run have bytes, and no request: the journal has no line of them. A request is a segment line with a code
and seats, as LZ601Q27JUL LHRKEF NN12, below the address and the locator of its message. Lines of names, as 1LZ1J12JUL,
begin with a digit and ask for nothing.
#compared|note|
No seal stands beside the journal that the run went on from, as JOURNAL.seal, so nothing says of which set, limits and days
it is, and which scripts it has already. The run was made all the same, and no SEAL again comes for what older runs booked. Where the
journal was moved or copied, its seal is to be copied with it, ahead of the run. seatdesk seal writes a seal of a journal that is right, without runs.
#knows|note|
The seal of the journal names no run, or none of its first lines, so nothing says which scripts these have: one that was booked is
booked once more, and no SEAL again comes. That is so of a journal that recover or serve found without its seal, as a copy to which its seal was not copied,
of one whose seal was of an older version or did not agree with it when seatdesk seal wrote it anew, of one that a desk alone wrote, of one that carry wrote,
whose older journal knows its own scripts, and of one that more than 128 runs wrote, of which a seal names the last.
An older seal is put back only ahead of a run: below run this one is made, and an older seal would forget it. seatdesk history and told
say whether the journal has what a script asks.
#way|note|
Of carry: a file failed behind the mark in JOURNAL's seal, and the mark stands there, or may. So nothing is sold from JOURNAL, and NEW may not be there,
or its seal may not be whole. Where the disk is right again give the very same carry once more: it finishes what was begun, and writes its report.
#refused|note|
Lines of the scripts were wrong, and are not booked. Each is in the file of --refused, by its code, its session and its line.
Below a wrong first line of a message (Q1), and below a first line that stands in a message (Q2 A1, most often), right lines are not booked either, up to the next empty line;
all others are. Write what these were to ask, mended, at the script's end, behind an empty line, and run with --resume and --refused; leave the lines themselves as they are.
audit, replies and run --resume want the file beside the scripts.
#same|note|
Two scripts of the run have the very same bytes, as two copies of a file or the file of one desk sent twice: each session booked
what they ask. That may be meant. One file under two names is refused. A script that begins with another of the same run is not told.
#found|note|
Each reply of the run is UN: no request has a flight in the days of --first and --days.
The journal is in its place all the same. It has no flight of these lines, so --resume takes them for asked, under another --today too:
write the requests anew, at the script's end or in a new script.
#nothing|note|
The scripts and changes of run --resume have nothing that stands not in the journal already.
The journal is in its place, with no line more. A line that was answered UN counts as asked, whatever its date and --today are now:
write it anew at the script's end.
#replies|note|
The journal of the run is in its place, and its replies did not all go out. The run is not to be made again:
seatdesk replies writes them, with the set, the limits, the days, --today and the scripts of the run, and the words that the note has,
until the next run writes the journal. Behind that it takes the scripts of all runs since the journal's line that --behind names, those of one session in one file,
in their order, with an empty line between two of them.
#cut|note|
What stood behind the right lines of the journal is in this file from now on: a line that did not end, or with --cut
whole lines that were not right. It is no journal, and no command takes it.
#seal|note|
The seal that stood beside the journal had other bytes than the one that seatdesk seal wrote: it was of another journal, of other
inputs or of an older version, or of two journals, as a run that was killed leaves it. Nothing of it is left; a copy that is kept elsewhere has so many bytes and this digest.
";

// A file that was kept, and a note with none of those words.
pub(crate) const KEPT: &str = "
#|kept|
What the file of --journal had before the run stands under this name from now on. The new journal is not behind it:
seats that it sold are sold once more there, and no audit of either says so. Where the run was to go on from it, give the run's scripts again,
with --after and this name, ahead of any other run and of any host: they are booked behind it, and the desks are to hear these replies, which may be others.
What was booked in between, by a run or a host, is to be booked again behind it in the same way, or it is in no journal that goes on: seatdesk told --desk N
says what each desk was told. What the first run made is kept then, too, and nothing goes on from that. Of several kept-1 is the oldest. A name that ends with .seal is that of a seal alone, which
belongs beside the journal that it is of. Where it says no END the journal was left open, as by a host that was killed:
make a copy of it under another name, and of its seal under that name with .seal, which seatdesk recover then ends, and go on from that.
Without its seal the copy knows no run, and scripts that were booked are booked once more; a note says so.
#|note|
A note is no fault: the run was made.
";

// Why a file may not be what it is named for, as -v says it.
pub(crate) const REASONS: &str = "
#another|note|
Another process has the file's lock: a run, seatdesk seal or recover that has not ended, or a host that serves the journal,
or of a pipe the host of its desk. One at a time has it. Wait for a run; a host ends by ?STOP of its manager, or of a desk on standard input by the
end of its input. fuser with the file's name tells the process. The lock goes with its process, so there is nothing to take away.
";
