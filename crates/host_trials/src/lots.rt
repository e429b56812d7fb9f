//! Requests of five sessions and of the manager on one leg, and what a crash tears, drawn by lot.
ghost use Rattle.std.specs.Prelude.{◌<◌, ◌≤◌};

use crate::files::Why;
use seat_serving::Asked;
use std::alloc::Global;

/// What is asked for by lot. What these lines were answered does not count.
pub fn requests() -> &'static [u8] {
    b"SEATJOURNAL 2
1 1 1 A00001 0.0.0 Y NN 2 KK 0
2 2 1 B00002 0.0.0 Y NN 1 KK 0
3 3 1 C00003 0.0.0 Y SS 3 KK 0
4 4 1 D00004 0.0.0 Y LL 2 HL 0
5 5 1 E00005 0.0.0 Y SS 1 KK 0
6 1 2 E00005 0.0.0 Y LL 1 HL 0
7 2 2 A00001 0.0.0 Y LL 3 HL 0
8 1 3 A00001 0.0.0 Y XX 1 HX 0
9 2 3 B00002 0.0.0 Y XX 1 HX 0
10 3 2 C00003 0.0.0 Y XX 2 HX 0
11 4 2 D00004 0.0.0 Y XX 2 HX 0
12 5 2 E00005 0.0.0 Y XX 1 HX 0
13 5 3 A00001 0.0.0 Y XX 1 HX 0
14 3 3 C00003 0.0.0 Q NN 1 NO 0
15 4 3 F00006 - Y NN 1 NO 0
16 1 4 F00006 0.0.0 Y ZZ 1 NO 0
17 0 1 AU 0.0 Y 8 2 OK 0
18 0 2 AU 0.0 Y 5 6 OK 0
19 0 3 AU 0.0 Q 1 0 NO 0
20 0 4 V3 ST 0.0 Y C OK 0
21 0 5 V3 ST 0.0 Y O OK 0
22 0 6 V3 ST 0.0 * O OK 0
END 22
"
}

/// Numbers that are the same for the same seed (Knuth's linear congruential generator).
#[derive(Drop)]
pub struct Lots {
    state: u64,
}

impl Lots {
    pub fn new(seed: u64) -> Lots {
        Lots { state: seed }
    }

    pub fn below(&mut self, n: u32) -> u32
        requires { 1 ≤ n }
        ensures { result < n }
    {
        self.state = self
            .state
            .wrapping_mul(6_364_136_223_846_793_005)
            .wrapping_add(1_442_695_040_888_963_407);
        (self.state >> 33) as u32 % n
    }

    /// So many of these, at most fifty.
    pub fn some(&mut self, alloc: Global, count: u32, all: &[Asked]) -> Result<Vec<Asked>, Why> {
        let most = (all.len().min(65_535) as u32).max(1);
        let mut asked = Vec::new(alloc);
        for _ in 0..count.min(50) {
            let at = self.below(most) as usize;
            if at >= all.len() {
                return Err(Why::Requests);
            }
            if asked.push(all[at]).is_err() {
                return Err(Why::Memory);
            }
        }
        Ok(asked)
    }

    /// As many bytes as these at most, for a crash to leave in place of them: some of them, some of them with one that is
    /// spoilt, none of the first of them, or rubbish with many an end of line.
    pub fn torn(&mut self, alloc: Global, bytes: &[u8], tear: u32) -> Result<Vec<u8>, Why> {
        let mut torn = Vec::new(alloc);
        let len = self.below((bytes.len().min(65_535) as u32).saturating_add(1).max(1));
        let hole = self.below(len.max(1));
        for at in 0..(len as usize).min(bytes.len()) {
            let left = self.torn_byte(tear, bytes[at], at, hole as usize);
            if torn.push(left).is_err() {
                return Err(Why::Memory);
            }
        }
        Ok(torn)
    }

    fn torn_byte(&mut self, tear: u32, byte: u8, at: usize, hole: usize) -> u8 {
        match tear {
            0 => byte,
            1 => if at == hole {
                self.below(256) as u8
            } else {
                byte
            },
            2 => if at < hole { 0 } else { byte },
            _ => if self.below(8) == 0 {
                b'\n'
            } else {
                self.below(256) as u8
            },
        }
    }
}
