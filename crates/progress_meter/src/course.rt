//! How far one input is.
//! It knows what its reads gave, and no gauge.
ghost use Rattle.std.specs.Prelude.{◌≡◌, length};
ghost use Rattle.progress_meter.specs.Reading.{begun, ended, ends_in, feeds, gone_on, lines_of, read_on, told_at_end, told_by};
ghost use Rattle.progress_meter.specs.declared.course.Told.TheVariants.{More};

/// Which lines of an input are counted.
#[derive(Clone, Copy)]
pub enum Lines {
    /// None.
    Uncounted,
    /// Those of a journal, between its head and its END line.
    Ended,
    /// Those of an open journal, behind its head.
    Open,
}

/// What a read tells of its input.
#[derive(Clone, Copy)]
pub enum Told {
    /// That it gave so many bytes more.
    More(u64),
    /// That it is at its end, with so many lines that are counted.
    End(u64),
    /// Nothing: that it is at its end was told.
    Nothing,
}

/// How far one input is.
#[derive(Clone, Copy)]
pub struct Course {
    pub lines: Lines,
    /// The lines that ended, of those that are counted: at most 2⁶⁴ - 1.
    pub ends: u64,
    pub is_over: bool,
}

impl Course {
    /// That of an input of which nothing was read.
    pub fn begun(lines: Lines) -> Course
        ensures { result ≡ begun lines }
    {
        Course {
            lines,
            ends: 0,
            is_over: false,
        }
    }

    /// A read gave these bytes. One that gave none is the end of its input, which is told once.
    pub fn read(&mut self, bytes: &[u8]) -> Told
        ensures after { self.new ≡ read_on self.old bytes.now }
        ensures told { result ≡ told_by self.old bytes.now }
    {
        match bytes {
            [] => self.end(),
            [_, ..] => self.go_on(bytes),
        }
    }

    fn end(&mut self) -> Told
        ensures after { self.new ≡ ended self.old }
        ensures told { result ≡ told_at_end self.old }
    {
        let told = self.told_at_end();
        self.is_over = true;
        told
    }

    fn told_at_end(&self) -> Told
        ensures { result ≡ told_at_end self.now }
    {
        if self.is_over {
            Told::Nothing
        } else {
            Told::End(lines_of(self.lines, self.ends))
        }
    }

    fn go_on(&mut self, bytes: &[u8]) -> Told
        ensures after { self.new ≡ gone_on self.old bytes.now }
        ensures told { result ≡ More (length bytes.now) }
    {
        self.ends = self.ends.saturating_add(ends_in(self.lines, bytes));
        Told::More(bytes.len() as u64)
    }
}

/// How many lines that are counted end in these bytes.
fn ends_in(lines: Lines, bytes: &[u8]) -> u64
    ensures { result ≡ ends_in lines bytes.now }
{
    match lines {
        Lines::Uncounted => 0,
        Lines::Ended => feeds(bytes),
        Lines::Open => feeds(bytes),
    }
}

// How many lines end in these bytes.
fn feeds(bytes: &[u8]) -> u64
    ensures { result ≡ feeds bytes.now }
{
    bytes.iter().filter(|byte| **byte == b'\n').count() as u64
}

/// How many lines are counted of an input in which so many end.
pub fn lines_of(lines: Lines, ends: u64) -> u64
    ensures { result ≡ lines_of lines ends }
{
    match lines {
        Lines::Uncounted => 0,
        Lines::Ended => ends.saturating_sub(2),
        Lines::Open => ends.saturating_sub(1),
    }
}
