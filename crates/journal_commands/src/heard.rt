//! Replies on their way out: whether one of them found a flight, and whether one is to a request.
//! It knows the session ahead of a reply's line and the code at its end, and nothing of what the other codes say.
ghost use Rattle.seat_files.specs.Streams.{output_failures};

use airline_base::{Failures, NotedWrite};
use seat_files::Output;
use std::io;
use std::io::Write;

/// The code of a request that found no flight.
const NO_FLIGHT: [u8; 2] = *b"UN";

/// How a line begins that is a reply to a change of a limit: session 0 makes these.
const MANAGER: u8 = b'0';

/// What was heard of replies. A reply's line begins with its session, and ends with a word that begins with its code.
#[derive(Drop)]
struct Ear {
    /// How many bytes of a word went out, and its first two.
    length: u64,
    code: [u8; 2],
    begins_line: bool,
    has_request: bool,
    has_reply: bool,
    has_flight: bool,
}

impl Ear {
    fn hear(&mut self, bytes: &[u8]) {
        for byte in bytes {
            if self.has_heard_all() {
                return;
            }
            self.hear_one(*byte);
        }
    }

    /// Whether no further byte can change what is told.
    fn has_heard_all(&self) -> bool {
        self.has_request && self.has_reply && self.has_flight
    }

    fn hear_one(&mut self, byte: u8) {
        self.has_request |= self.begins_line && byte != MANAGER;
        self.begins_line = byte == b'\n';
        match byte {
            b' ' => self.length = 0,
            b'\n' => {
                self.has_reply = true;
                self.has_flight |= self.code != NO_FLIGHT;
                self.length = 0;
            }
            _ => {
                if self.length == 0 {
                    self.code = [byte, 0];
                }
                if self.length == 1 {
                    self.code[1] = byte;
                }
                self.length = self.length.saturating_add(1);
            }
        }
    }
}

/// An output of replies, and what was heard of them.
#[derive(Drop)]
pub struct Heard {
    out: Output,
    ear: Ear,
}

impl Heard {
    pub fn new(out: Output) -> Heard {
        let ear = Ear {
            length: 0,
            code: [0; 2],
            begins_line: true,
            has_request: false,
            has_reply: false,
            has_flight: false,
        };
        Heard { out, ear }
    }

    pub fn output(&self) -> &Output {
        &self.out
    }

    /// Says on standard error where there are replies and none of them found a flight, where a run that goes on with its scripts
    /// has none, and where scripts that have bytes ask for nothing. Where lines of them are refused they may have asked for something. It is no fault.
    pub fn tell(&self, rt: &HostRuntime, is_resumed: bool, have_bytes: bool, has_refused: bool) {
        if !is_resumed && !self.ear.has_request {
            tell_unasked(rt, have_bytes, has_refused);
        }
        if is_resumed && !self.ear.has_reply {
            tell_unbooked(rt, has_refused);
        }
        if self.ear.has_reply && !self.ear.has_flight {
            let _ = eprintln!(rt;
                "seatdesk: note: no request found a flight: look at --first, --days and --today"
            );
        }
    }
}

fn tell_unasked(rt: &HostRuntime, have_bytes: bool, has_refused: bool) {
    if has_refused {
        let _ = eprintln!(rt; "seatdesk: note: no script asks for anything but what was refused");
    } else if have_bytes {
        let _ = eprintln!(rt;
            "seatdesk: note: no script asks for anything: a request is a line as LZ601Q27JUL LHRKEF NN12"
        );
    }
}

fn tell_unbooked(rt: &HostRuntime, has_refused: bool) {
    if has_refused {
        let _ = eprintln!(rt;
            "seatdesk: note: nothing was booked: the journal of --resume has all that is asked but what was refused"
        );
    } else {
        let _ = eprintln!(rt;
            "seatdesk: note: nothing was booked: the journal of --resume has all that is asked"
        );
    }
}

impl Failures for Heard {
    ghost failure_count = { λ s. output_failures s.out };

    fn failures(&self) -> u64 {
        self.out.failures()
    }
}

impl Write for Heard {
    fn write(&mut self, buf: &[u8]) -> io::Result<usize> {
        self.write_noted(buf)
    }

    fn flush(&mut self) -> io::Result<()> {
        self.out.flush()
    }
}

impl NotedWrite for Heard {
    fn write_noted(&mut self, buf: &[u8]) -> io::Result<usize> {
        let wrote = self.out.write_noted(buf)?;
        self.ear.hear(&buf[..wrote]);
        Ok(wrote)
    }
}
