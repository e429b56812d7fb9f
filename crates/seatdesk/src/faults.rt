//! What each code of a fault line says that stands first in it, or wherever it stands.

// The records of a data set and the flights that they come to; rows of limits and of changes with their ladders; the rows of --protect and the
// lines of --order; a season; the lists of reconcile and the thresholds of avs; scripts, desks and feeds, with the words of the command line and
// the segment lines; a journal, its entries and its seal; and what stands where a carry puts its own.
pub(crate) const FAULTS: &str = "
#|S1|record
The data set ends inside a record: fewer than 200 bytes are left.
Records have 200 bytes each, and LF, CR LF or nothing behind them.
#|S2|record
A byte of the record is no printable ASCII character, 0x20 to 0x7E.
A line end inside the 200 bytes is one too: look whether the record is too short.
A byte order mark ahead of the header is such a byte: seatdesk -v says where there is one.
#|S3|record
A CR stands behind the record, and no LF behind the CR.
A record ends with LF, CR LF or nothing.
#|S4|record
The data set does not begin with a header, a record of type 1.
An empty file is such a data set.
#|S5|record
The title of the header, in bytes 2 to 35, is not
AIRLINE STANDARD SCHEDULE DATA SET.
#|S6|record
A record of this type may not stand here.
The order is header, carrier, then legs with their segment data, then the trailer.
#|S7|record
Bytes 195 to 200 are not the next serial number in six digits.
The header has 000001, and each record but a filler has one more.
#|S8|record,first byte of the wrong field
A field of the record is wrong. Bytes count from 1.
SSIM chapter 7 says what each field holds.
#|S9|record
The airline of a leg or of the trailer is not the carrier's.
A data set is of one airline.
#|S10|record
Bytes 188 to 193 of the trailer are not the serial number of the record ahead of it.
Records may be missing.
#|S11|record
The trailer says that the data set goes on elsewhere: byte 194 is C.
Only a data set that ends with E is read.
#|S12|record
A record that is no filler stands behind the trailer.
The trailer must be the last record.
#|S13|record
The data set ends before a trailer, a record of type 5.
The file may have been cut off.
#|S14|record
The record is one more than may be read.
#|S15|record
Memory was refused for a leg. The program prints MEMORY in place of it.
#|F1|record with the serial number
A leg of the itinerary is missing.
Its leg sequence numbers must be 1, 2, 3 and so on. The record is its first.
#|F2|record with the serial number
The record repeats a leg sequence number of its itinerary.
A new period of the same leg needs another itinerary variation.
#|F3|record with the serial number
The leg departs elsewhere than the leg ahead of it arrives.
#|F4|record with the serial number
The leg has another number of operating days than leg 1 of its itinerary.
Look at its period, days of operation and frequency.
#|F5|record with the serial number
On some date the leg departs more than one local day before the leg ahead of it.
Look at its period and its departure date variation.
#|F6|record with the serial number
An earlier itinerary of the same flight number and suffix departs on the same day.
Two variations of a flight may not share a day. The record is leg 1.
#|F7|record with the serial number
The itinerary has more than 8 legs. The record is its first.
#|F8|record with the serial number
There are more than 100,000 dated flights, with those of this itinerary.
Ask for fewer days. The record is leg 1.
#|F9|record with the serial number
Memory was refused for the flights. The program prints MEMORY in place of it.
#|M1|line
The line of limits or changes does not begin with AU and a blank, nor one of changes with CLOSE or OPEN and a blank.
A byte order mark ahead of the text makes its first line such a one: seatdesk -v says where there is one.
#|M2|line
No flight stands behind AU, CLOSE or OPEN: an airline, one to four digits above 0,
at most one letter, and a blank, as LZ601.
#|M3|line
No period stands behind the flight: two dates as 27JUL24, each with a blank behind it,
the second not before the first. A line of changes has one date, and one with CLOSE or OPEN may end behind it.
#|M4|line
No pair of stations stands behind the dates: six letters, as LHRKEF.
Behind the date of CLOSE or OPEN one letter, the class, may stand in its place.
#|M5|line
No classes with their limits follow, or one of them is malformed.
They are written as Y098/010, with one blank ahead of each and none at the end.
Of CLOSE and OPEN: what stands behind the stations is no blank with one class.
A byte order mark ahead of a ladder does that: seatdesk -v says where there is one.
#|M6|line
The classes and their limits are no ladder. The code behind it says why.
#|M7|line
Memory was refused for the limits. The program prints MEMORY in place of it.
#|U1|line
The line of changes names no leg: on its day no flight of its number goes between its cities
in the days of --first and --days, or only by way of another city.
Of CLOSE and OPEN without cities: no flight of its number has a leg that departs on the day.
A host that stays open takes such a row where one leg departs on the day: where several do, name the cities.
#M6|L1|line
The ladder has no class.
#M6|L2|line
A class stands twice in the ladder.
#M6|L3|line
A limit is above that of the class before it.
Classes stand with the highest limit first.
#M6|L4|line
A limit, or a number of seats that may wait, is above 999.
#|G1|line
The line of --protect is no row: a flight and its day, a pair of stations, another flight and its day, and behind them pairs of classes where these
differ, each behind one blank, as LZ601 27JUL24 LHRKEF LZ603 28JUL24 Q=M. Or it names a class twice.
#|G2|line
The season of --from has no flight of the first name of this row of --protect that departs on its day from the first station and goes to the second.
#|G3|line
A row of --protect ahead of this one says where the bookings of that flight, day and pair go.
#|G4|line
The season of --to has no flight of the second name of this row of --protect that departs on its day from the first station and goes to the second.
#|G5|line
By this row of --protect a booking goes to a flight that doesn't sell its class. Name another one for it, as Q=M.
#|G6|line
By this row of --protect a locator would have two bookings in one class on one place: it has one there already, or two go there.
Let one of them go to another class or to another flight.
#|K1|line
The line of --order is no locator: six letters or digits and nothing behind them, as B3N6VC. Lines with nothing but blanks are passed over.
#|SEASON|
The file of --season is no season. The word behind SEASON says why, and what stands behind that where: a line, or a key.
seatdesk season SET LIMITS writes one.
#|T1|line
The line of the partner's list has no locator in its place: six letters or digits and a blank, as B3N6VC, first or behind a number
and a blank, as bookings writes them.
#|T2|line
Behind the locator of the line of the partner's list stands no segment line, as LZ601Q27JUL LHRKEF HK6.
The code behind it says why.
#|T3|line
The segment of the line of the partner's list has another code than HK, its seats are held, and HL, they wait.
#|T4|line
A line of the partner's list ahead of this one has the same locator and the same segment. A list says each once.
#|V1|line
The line of a partner's thresholds does not begin with a class, a letter A to Z, as Q of Q 4.
#|V2|line
A line of a partner's thresholds ahead of this one has the same class.
#|V3|line
Behind the class of the line of a partner's thresholds stand no blank and one to three digits, as 4 of Q 4, and nothing else.
In a journal, with ST behind it, it is no fault: the line closes a class of a leg or opens it, as seatdesk explain ST says.
#|Q1|script,line
A message of the script does not begin with an address and a locator, as LONLZ B3N6VC.
A row of changes, as AU or CLOSE, is the manager's and stands in no script.
A script counts as its session. The line behind an empty one begins a new message.
A byte order mark ahead of the text makes its first line such a one: seatdesk -v says where there is one.
#|Q2|script,line
A line of the script is no segment line, as LZ601Q27JUL LHRKEF NN12.
The code behind it says why. A script counts as its session.
#|Q3|script,line
Memory was refused for a request. The program prints MEMORY in place of it.
#|W1|line
The row of the file of --refused is not what the scripts are refused for there: a wrong line of a script was mended or another was added
in its midst, a script was left out, or the file is that of another run. What was refused is asked again at a script's end, never in its place:
put the line back as it was. A line that was cut off at the script's end, and is complete by now, can stay: take this row, and those behind it of that
session, out of the file by hand, and the same run --resume books the line. seatdesk run --refused without --resume writes the file anew.
#|H1|desk,line
A line of the desk has more than 256 bytes, its end with them. It was passed over up to its end.
Where it should begin a message, the message is passed over up to the next empty line.
#|H2|desk,line
A line of the desk begins with ? or @, and is neither a word to the host nor a numbered segment line. The words are:
? LZ601Q27JUL LHRKEF, which looks at a class, ? 27JUL LHRKEF, which looks at each flight of that day, ?AGAIN 25, which asks
for what concerns the session behind line 25 once more, ?HELLO K7M2QP, with which a client begins, and ?BYE, with which
the desk goes. Behind the word of ?HELLO the epoch of the journal may stand. A manager has ?DAY 2024-06-22 too, on which the lines behind it are read,
and ?STOP, with which the host ends. A numbered line is @17 LZ601Q27JUL LHRKEF NN2: only a segment line of a message has a number, and of the manager's lines a row.
#|H3|desk,call of that session
The session has a call of this number, and it asked for something else. Nothing was booked.
?AGAIN 0 writes what the session was told so far.
#|H4|desk,call of that session
The number is beyond that of the session's next call. Nothing was booked: a line with a smaller number is missing,
or was refused. READY says how many calls the session has.
#|H5|desk,line
Nobody has said ?HELLO on this pipe to this host yet. A line ahead of it may be the rest of one that was cut, so nothing is heard.
Of ?STOP: it was said ahead of this host's start, perhaps to the one before it. Say it again.
#|H6|desk,call of that session
A numbered line is for another journal: the epoch that was named ahead of it, by ?EPOCH n in a feed and else by ?HELLO WORD EPOCH, is not that of
this journal, which is the last number of READY and stands in the seal. Nothing was booked.
See in the journal of that epoch what became of its lines. Then a feed goes on with ?EPOCH and this one's, and a desk says ?HELLO anew.
#|H7|line of the feed
A line of a feed stands ahead of its first day. A feed begins with one, as ?DAY 2024-06-22: on it the lines behind it are read.
The line was passed over; an ?EPOCH holds all the same.
#H2|-|line of the feed
Of a feed: the line is neither led by the number of a session, 0 to 8, and a blank, nor ?DAY 2024-06-22 nor ?EPOCH 3. It was passed over.
#H7|-|line of the feed
Of a feed: whatever line it is.
#|FEED|line of the feed,line of the journal
The feed is not that of this journal: its line asks for something else than the journal's line does, or for another session.
Nothing was booked. Where the journal had lines of others ahead of the feed's first message, --behind says how many.
#|-|
Of a host's FAULT: no line of the desk is at fault.
#|DEVICE|
A file does not open, or a read or a write failed. seatdesk -v names the file and the system's reason.
#-|DEVICE|
The file of the host's journal failed, or that of its seal: the desk's line may be booked, and the host ends. Ask ?AGAIN when it is there again.
#- FAULT -|DEVICE|
The file of the journal failed, or that of its seal: lines of the feed of which nothing is told may be booked, and the host ends.
Send the feed again, from a saved place with --behind: what was booked is told once more.
#-|LOST|
Told to a desk on a pipe that does not read: more than 1 MiB waited for it, and nothing behind that was kept. Its lines were booked all the same.
Say ?HELLO, and then ?AGAIN with the number of the last line of the journal that was read.
#-|UNCLOSED|
Told to the manager of a host that closes what departed: memory was refused, and not each leg that departed before the day that holds is closed.
The day holds. Send ?DAY with it again: what is left is closed then.
#|B1|session,call of that session
The journal has no line left for a request or a change.
It has at most 999,999 lines, with those of --after. Nothing was booked: take fewer requests into one run,
or take the live bookings into a new journal by seatdesk carry, onto the same season too; or begin one without them, by a run without --after over
days on which the old one has no live booking: the bookings of the old one are not known there.
#|E1|line
The line is no request, as A00001 Y NN 6, and no change of a limit, as AU M007/004.
Lines count from 1, with that of the ladder.
#|C1|line
The line is one request more than the 999,999 that a journal has room for.
Of loads --shards and waiting --shards: one journal of all has no room for the line. The number ahead of the code is
the place among the words of the journal that has it, and lines count from 1, with the head line. audit --shards takes them all the same.
#|E2|
A word of the command line is wrong. The word behind it says which.
No file was read for it, but where that word is line, behind or html, or today of a host whose seal has a later day.
#Q2|A1|script,line
The line has fewer than 20 or more than 69 characters.
Where it is the first line of a message, as LONLZ B3N6VC, an empty line is missing ahead of it.
#Q2|A2|script,line
The line does not begin with an airline: two letters or digits, one of them a letter.
#Q2|A3|script,line
No flight number stands behind the airline: one to four digits above 0.
#Q2|A4|script,line
No class stands behind the flight number: one letter, or the flight's suffix and a letter.
#Q2|A5|script,line
No day stands behind the class, as 27JUL, or it is a day that no year has.
#Q2|A6|script,line
No blank and pair of stations stand behind the day: six letters, as LHRKEF.
#Q2|A7|script,line
No blank and code stand behind the stations: two letters, as NN.
#Q2|A8|script,line
No number of seats stands behind the code: one to three digits above 0.
#Q2|A9|script,line
Behind the seats stands something other than a stroke and printable characters.
#|J1|line
The journal does not begin with the line SEATJOURNAL 2 or SEATJOURNAL 1.
It may be another file, or an empty one.
With --after it may be the older journal, which is read first.
A byte order mark ahead of the text makes its first line such a one: seatdesk -v says where there is one.
#|J2|line
The line of the journal is no entry. Lines count from 1, with the head.
Lines that another program wrote between the entries, as by 2>> JOURNAL while a host served, are to be taken out.
Of recover and serve it is a whole line behind the right ones: make a copy of the file, and recover --cut takes it away with all behind it.
With --after it may be the older journal, which is read first.
#|J3|line
The line is a wrong END line, stands behind it, or should be the END line and is missing.
The journal may have been cut off, or be one that is still open: audit --open says whether its whole lines are right, and recover ends it.
Where its end was lost in another way, as by a copy that broke off, put back a whole copy: recover takes what is there for all that there was.
Where something else stands behind the lines or the END line, as by 2>> JOURNAL of a shell, recover --cut takes it away and keeps it beside the journal.
With --after it may be the older journal, which is read first.
#|J4|line
Memory was refused for an entry. The program prints MEMORY in place of it.
#|R2|
An input is too large: a data set, a journal or a partner's list has at most 256 MiB, a season file or thresholds 64 KiB, any other input 16 MiB.
Or what stands behind the lines of a journal that is to be recovered is a line without an end, of more than 256 KiB.
seatdesk -v names the file.
#|DEVICE|
A file does not open, or a read or a write failed.
seatdesk -v names the file and the system's reason.
#|MEMORY|desk,line
Memory was refused. Nothing is wrong with the inputs as far as they were read.
Of a line of a desk: nothing was booked for it, and the host goes on.
#|P1|entry
The entry's number is not its place in the journal, or is above 999,999. Entries count from 1.
With --after it may be the older journal, which is read first.
Of recover and serve it is a whole line behind the right ones. Look whether the set, the limits and the days are the journal's. If they are, make a copy
of the file; recover --cut then takes away that line and all behind it, at most 4,096 lines and 256 KiB, and keeps them beside the journal.
#|P2|entry
Another reply is right for the entry, by the lines ahead of it and the limits.
seatdesk why says which, and from what numbers of seats.
With --after it may be the older journal, which is read first.
Of recover and serve it is a whole line behind the right ones. Look whether the set, the limits and the days are the journal's. If they are, make a copy
of the file; recover --cut then takes away that line and all behind it, at most 4,096 lines and 256 KiB, and keeps them beside the journal.
#|P3|entry
Another number of released seats is right for the entry.
seatdesk why says which.
With --after it may be the older journal, which is read first.
Of recover and serve it is a whole line behind the right ones. Look whether the set, the limits and the days are the journal's. If they are, make a copy
of the file; recover --cut then takes away that line and all behind it, at most 4,096 lines and 256 KiB, and keeps them beside the journal.
#|P4|entry
Other confirmations from the waitlist are right for the entry.
seatdesk why says which.
With --after it may be the older journal, which is read first.
Of recover and serve it is a whole line behind the right ones. Look whether the set, the limits and the days are the journal's. If they are, make a copy
of the file; recover --cut then takes away that line and all behind it, at most 4,096 lines and 256 KiB, and keeps them beside the journal.
#|P5|entry
The entry's session may not make it, or the call is not the next of that session.
Sessions 1 to 8 ask for seats, and session 0, the manager, changes limits, and closes and opens classes.
With --after it may be the older journal, which is read first.
Of recover and serve it is a whole line behind the right ones. Look whether the set, the limits and the days are the journal's. If they are, make a copy
of the file; recover --cut then takes away that line and all behind it, at most 4,096 lines and 256 KiB, and keeps them beside the journal.
#|P6|entry
Memory was refused for the replay. The program prints MEMORY in place of it.
#|P7|entry
What the entry asks for does not fit: there is no such place or leg, its seats are not 1 to 999, or its limit or wait is above 999.
The journal may be of another data set, first day or number of days.
With --after it may be the older journal, which is read first.
Of recover and serve it is a whole line behind the right ones. Look whether the set, the limits and the days are the journal's. If they are, make a copy
of the file; recover --cut then takes away that line and all behind it, at most 4,096 lines and 256 KiB, and keeps them beside the journal.
#|P8|session,call of that session
The journal's line of that call is not what the script of the session asks there,
or one of them has more. The journal may be of other scripts, another first day or another data set.
With --after calls go on from those of the older journal, with --behind from those of the lines before.
Behind a number of lines the words name the scripts and the changes of all runs since. Where the journal does
not begin with the older one's lines, as pickup --since wants too, the session and the call are those of the first line that differs,
which may be of session 0.
With run --resume the script may have more, but must begin with the journal's lines, and so must the file of --changes,
of which those of session 0 are.
#|P9|entry,journal with a line of its flight
--shards takes journals of hosts that have different flights, and two of these have a line of one flight.
The number ahead of the code is the journal's place among the words, and the entry is its first on such a flight.
#|SEAL|
What stands beside the journal, as JOURNAL.seal, is against the command. The word behind SEAL says what it is:
none and form are of the seal itself; set, limits, first, days and journal of what the journal belongs to, and are compared ahead of the
journal's own lines; again, behind and runs of scripts that the journal has already, and come behind the faults of all inputs;
carried of a journal whose bookings were carried to another.
grep run JOURNAL.seal shows behind how many lines each run of it began, as run behind 25.
#|CARRY|
Something else stands where this carry would put its own, and nothing was written. The word behind CARRY says what.
";
