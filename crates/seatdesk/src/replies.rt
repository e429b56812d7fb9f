//! What each code of a reply or an advice says, and when it is given, and the code of avs that may have seats behind it.

// In the order of the rows of the reply table, and behind them those of what the manager sets, of an advice and of a class that is open.
pub(crate) const REPLIES: &str = "
#|NO|
No action taken. The code of the request is not NN, SS, LL or XX; or a request for seats has a live booking
of the same locator, place and class; or a cancellation has none, or has more seats than its booking.
Of a change of a limit: its leg lacks the class, or the limit is out of the order of the ranks or below the seats held.
Of a class to be closed or opened: its leg lacks it.
#|UN|
Unable, the flight does not operate: on its day no flight of its number goes from the one city to the other
in the days of --first and --days. The day of a request has its year by --today.
Of carry: the new season has no such flight, or the booking is on a place that no request for its names finds. With nothing behind it the booking is
not carried: a row of --protect says to which flight its place goes, where its names find it; else its passengers are to be booked anew.
With a number and a segment behind it the booking goes there by such a row, as the code at the end says.
#|KK|
Confirming: the seats of NN or SS fit in the room of each leg, and are held.
#|UU|
Unable, have waitlisted: the seats of NN do not fit, each leg has the class with the mark N,
and there is waiting room.
#|UC|
Unable, and not waitlisted: the seats of NN do not fit, and a leg lacks the mark N or waiting room;
or those of SS do not fit, and there is no waiting room; or LL finds no waiting room.
A class that is closed on a leg has neither room nor waiting room.
Of carry: the flight no longer has the class on each leg, and the booking is not carried. A row of --protect lets it go to another class.
#|US|
Unable, have waitlisted: the seats of SS do not fit, and there is waiting room.
#|HL|
Have listed: there is waiting room for the seats of LL. A KL follows where they fit at once.
In the answer of bookings: the seats of the booking wait. Of carry: they wait as they did, or wait now and were held, where the old
segment has HK.
#|HK|
Holds confirmed: the seats of the booking are held, in the answer of bookings. It is no reply.
Of carry: they are held as they were.
#|HX|
Have cancelled: XX has a live booking of the same locator, place and class with so many seats.
A KL follows for each booking that is confirmed in their place.
Of carry: for want of room the booking is neither held nor listed on a flight that operates. --order says who keeps a seat first, and rows of
--protect take the bookings of a place to another flight; else its passengers are to be booked anew.
#|OK|
The change of a limit is made: the limit keeps the order of the ranks and is not below the seats held.
Or the class is closed or open from now on.
A KL follows for each booking that the change, or a class that is opened, confirms.
#|KL|
An advice: the seats of a booking that waited are confirmed, behind an HL, an HX or the OK of a change
or of a class that is opened.
Of carry: the seats of the booking waited, and are held now. The passenger is to be told.
#|AS|
Of avs: open, seats of the class are for sale on the segment. With --numeric their number stands behind it, up to 9.
";
