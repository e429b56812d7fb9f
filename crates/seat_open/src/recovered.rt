//! What is said of a journal that was recovered.
ghost use Rattle.std.specs.Prelude.{◌≡◌};
ghost use Rattle.seat_open.specs.Recovered.{recovered_line};

use airline_base::spelling::put;
use arrayvec::ArrayVec;
use itoa::Buffer;

/// The line that says how many lines are kept of a journal, how many bytes behind them were cut, and how many lines ended in these. It takes no memory.
pub fn recovered_line(lines: usize, cut: usize, whole: usize) -> ArrayVec<u8, 149>
    ensures { result.items ≡ recovered_line lines cut whole }
{
    let mut line = ArrayVec::new();
    let mut buffer = Buffer::new();
    put(&mut line, b"RECOVERED lines ");
    put(&mut line, buffer.format(lines).as_bytes());
    put(&mut line, b" cut ");
    put(&mut line, buffer.format(cut).as_bytes());
    put(&mut line, b" whole ");
    put(&mut line, buffer.format(whole).as_bytes());
    put(&mut line, b"\n");
    line
}
