//! What each word says with which a desk, a manager or a feed asks something of a host, and the room of a class that is closed.

// In the order of a client's day; the last one stands behind a class.
pub(crate) const ASKED: &str = "
#|HELLO|
Said to a host, as ?HELLO K7M2QP: a client begins, with a word of its own of six letters or digits, and READY answers it.
Behind the word the epoch of the journal may stand that its numbered lines are for, 1 to 999999, as the last number of READY has it.
#|AGAIN|
Said to a host, as ?AGAIN 25: what concerns the session behind line 25 of the journal is told once more.
#|BYE|
Said to a host, as ?BYE: the desk goes.
#|DAY|
Said to a host by its manager, or in a feed, as ?DAY 2024-06-22: the lines behind it are read on that day.
One that is not later than the day that holds is passed over.
#|EPOCH|
In a feed, as ?EPOCH 2: the numbered lines behind it are for the journal of that epoch, 1 to 999999, and FAULT H6 where the journal's is another.
The seal has the epoch behind epoch, and READY has it as its last number. It is one more at each journal that follows another under a host.
#|STOP|
Said to a host by its manager, as ?STOP: what was taken is answered, the journal ends and is sealed.
#|0C|
Of rooms, behind a class, as in Q0C: the class is closed on a leg of the place. Its room is 0, and nothing is sold in it, listed or confirmed from the list until
the manager opens it, by a row OPEN. seatdesk why tells of a line that asked for it on which leg it was closed, behind CLOSED.
";
