//! What each word in capital letters says that stands in an answer of a command, or at the head or the end of a file.

// What audit, recover, check, rooms, loads, waiting, history, why, cover, an open host, desks and the manager, files, reconcile and avs, compare,
// changes and carry say, in this order.
pub(crate) const ANSWERS: &str = "
#|LEGAL|
Of audit: the journal is a legal history over the set and the limits, and with scripts it is what they ask.
lines: its entries. confirmed: the seats of the KK replies and of all advices. released: the seats given back.
#|RECOVERED|
Of recover: the journal has its END line and its seal. lines: the entries that it has.
cut: the bytes that stood behind these; a note names the file that has them now. whole: how many whole lines were among them,
of which some may have been booked and told, where --cut was said: the rest, if any, is a line that does not end.
#|00XXX00|
Of check: the end of the period of schedule validity is open. In a data set: an open end of a period.
#|ROOM|
Behind it stands each class with its room: the seats that a request for it would find on the whole place;
of loads and why on this one leg; of ladder on its leg, when all lines are answered.
Of rooms, C behind the seats: the class is closed on a leg of the place, and nothing is sold in it until it is opened.
#|LOAD|
Of loads: the seats held on the leg, of the limit of its highest class, then what part of that is held, per mille;
behind that each class, with the seats held in it and those below it, and its limit.
#|SUMS|
Of loads: the legs above it, the seats held on them of the sum of their highest limits, what part of that is held,
per mille, the passengers who hold seats there, and those who wait, each booking once.
Of pickup: the sums of the columns above it.
Of compare: how many flights are gone, added, have other legs or other limits, and how many are not compared, since only one of the
seasons has their day; held, waiting: the seats on those with a line.
Of carry: behind each code how many of the bookings have it, and their seats.
#|LACKS|
Of waiting: how many of the booking's seats are beyond its room on the place. So many must become free before it fits.
#|HOLDS|
Of history: so many seats are held from the line on.
#|WAITS|
Of history: so many seats wait from the line on.
#|CANCELS|
Of history: so many seats are taken off the booking.
#|NOTHING|
Of history: the line did nothing to the bookings that are asked for.
#|LIMIT|
Of why: each class of the leg with its limit, as it stood ahead of the line.
#|HELD|
Of why: each class of the leg with the seats held in it and in those below it, ahead of the line.
Of changes: more seats are held in the class and those below it than are wanted, and its limit comes to so many.
#|WAIT|
Of why and loads: each class of the leg with the seats that wait in it, of those that may.
#|CLOSED|
Of why: the classes that are closed on the leg, as it stood ahead of the line. In one of them the room is 0, and nothing may wait.
#|RIGHT|
Of why: the reply to the line, the seats given back and the advices, as they must be.
What the journal has of these stands behind GIVEN.
#|GIVEN|
Of why: what the journal has. What is right stands ahead of it, behind RIGHT.
#|NONE|
Of why, RIGHT NONE: no reply is right, since the line asks for a place that is not there, for no seats,
or for more than 999.
Of reconcile: behind theirs, the list has no line of this booking; behind here, the journal leaves no such booking,
or with --session another session made it.
#|LEG|
Of why: a leg of the line's place. Of cover, with NO ROW behind it: a leg that no row of the limits is for,
on which nothing can be sold.
#|ROW|
Of cover: a row of the limits, by its number without empty lines. NO LEG: it is for no leg of these days.
HIDDEN: it gives no leg its limits.
#|HIDDEN|
Of cover: on each leg that the row is for, a row behind it is for that leg too, and the last one counts.
#|COVERED|
Of cover: how many of the legs have a row, and how many of the rows have a leg, hidden ones too.
#|READY|
The host hears the desk. Behind it stand the word of the ?HELLO that it answers, where it answers one, the session,
how many lines the journal has, how many of these are the session's, the day of the run, and the journal's epoch.
#|STATUS|
What a host of desks on pipes, or of a feed, says of itself while it runs. lines: those of its journal. groups: how often lines were added
since it began. each: how many lines such a group had, to a tenth. desks: those that it is open to.
sold: the seats that are held.
#|LOOK|
The answer to a line that begins with ?, which books nothing: how many lines the journal has, the flight, its day,
the stations, and the seats that are left behind those lines.
#|FAULT|
A line of the desk is refused, and nothing was booked for it, but where - stands behind FAULT: then the journal's file failed (- DEVICE), or
answers were left out (- LOST), and lines may be booked, of which ?AGAIN tells; or not all that departed is closed (- UNCLOSED).
Else there stands behind it the code, which seatdesk explain takes by itself, and the number of the line,
or @ and that of the call that the line had.
#|!|
The first line of a host on a desk's pipe. It spoils what another host left there in the midst of a line, which then ends with !, and it answers nothing.
The host hears nothing ahead of ?HELLO: say it again, and ?AGAIN with the number of the last line of the journal that was read.
#|NN|
A request: the seats are needed. The reply is KK, UU, UC, UN or NO.
#|SS|
A request: the seats are sold, where they can be. The reply is KK, US, UC, UN or NO.
#|LL|
A request: the seats are to wait. The reply is HL, UC, UN or NO.
#|XX|
A request: so many seats of a booking are cancelled. The reply is HX, UN or NO.
#|AU|
A row of limits or of changes. In a journal and in a ladder's input: a change of a limit, whose reply is OK or NO.
#|CLOSE|
A row of changes, as CLOSE LZ601 27JUL24 LHRKEF Q: the class is closed on that leg, each class where none is named, and on each leg of the flight
that departs on the day where no cities are. Nothing is sold in it, listed or confirmed from the list until it is opened; its held seats stay, and cancels go on.
The reply is OK, of what is closed already too, or NO where the leg lacks the class.
#|OPEN|
A row of changes, as OPEN LZ601 27JUL24 LHRKEF Q: what CLOSE closed is open again, by class, cities and day as there.
The reply is OK, with a KL for each booking that waited and fits, or NO where the leg lacks the class.
#|ST|
In a journal, behind V3, the version that has such lines: the manager closes (C) or opens (O) a class of a leg, or all, for which * stands.
The reply is OK or NO.
#|SEATJOURNAL|
The first line of a journal, with the version of its text. A line for each call stands behind it, and last END.
#|SEATSEAL|
The first line of a seal, with the version of its text: what the journal beside it belongs to.
#|END|
The last line of a journal, with the number of its entries; a journal that is open has none. Of a seal: the end of an entry.
#|RECONCILED|
Of reconcile, its last line. same: the bookings that the list and the journal have alike. differ: those of which a line stands above;
where there is one the status is 1.
#|DIFFERS|
Of reconcile: the list and the journal differ on this locator and segment. theirs: what the list has, here: what the journal has, HK with seats that
are held, HL with seats that wait, or NONE. line: the line of the journal that last touched it, - where none did.
#|CL|
Of avs: closed, and the waiting list of the class is open on the segment.
In a table of replies, of the manager: the class is closed from that line on.
#|OP|
In a table of replies, of the manager: the class is open from that line on.
#|CC|
Of avs: closed, and so is the waiting list of the class on the segment.
#|CX|
Of avs: not operated. On a leg of the segment no class has a seat: its highest limit is 0, or it has no limits.
#|GONE|
Of compare: the season of --to has no flight of this name on this day. held, waiting: the seats of the journal on it.
#|ADDED|
Of compare: the season of --from has no flight of this name on this day.
#|LEGS|
Of compare: the legs of the flight have other stations, another order or other local days in the season of --to.
#|TIMES|
Of compare: a leg of the flight departs at another local time of day in the season of --to.
#|LIMITS|
Of compare: a leg of the flight has another ladder in the season of --to: other classes, limits or seats that may wait.
#|SHORT|
Of changes: the limit of this class does not come to what is wanted, which stands behind WANTED, and why. The changes are right as they are.
#|WANTED|
Of changes: the limit that is wanted of the class.
#|NESTED|
Of changes: the limit to which the class comes, between those of the classes above it and below it. The wanted limits leave out a class of the leg,
or rank its classes otherwise.
#|UNNAMED|
Of changes: no row of changes is for this leg, since its flight, day and pair find another leg, or two of them. Its limit stays as the limits file has it:
change it there, or have the schedule number the flight's legs apart.
#|TK|
Holds confirmed, and the schedule was changed. Of carry: the seats of the booking are held, and its legs have other stations, another order, other local days
or other times of departure in the new season, or a row of --protect has it go to another flight, day or class. The passenger is to be told.
#|TL|
Has listed, and the schedule was changed. Of carry: the seats of the booking wait, and its legs have other stations, another order, other local days
or other times of departure in the new season, or a row of --protect has it go to another flight, day or class. Where they were held the old segment has HK:
they lost their seats. The passenger is to be told.
#|DEPARTED|
Of carry: the booking departed before the day of --today, and is not carried. In a table its code is empty.
#|OVER|
Of carry: on this leg of the new season more seats are held than it has. held: the seats, of: the highest limit. Nothing was written:
let the season of --to have the limits, let rows of --protect take the bookings of a place to another flight, or say --displace, by which the bookings
of the highest numbers lose their seats, those whose locators --order names last.
";
