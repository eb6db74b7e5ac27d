// A process that is made up.
ghost use Rattle.std.specs.Prelude.{◌≤◌, IfOk};

use std::alloc::{AllocError, Allocator, Global};
use std::cell::Cell;
use std::fmt::Display;
use std::io;
use std::io::{BufRead, ErrorKind, Lines, Read};

/// What one call on a made-up stream or file does.
#[derive(Clone, Copy)]
pub(crate) enum Answer {
    /// It moves so many bytes, or as many as there are and have room.
    Moves(usize),
    /// A signal comes before it moves anything.
    Signal,
    /// It fails.
    Broken,
}

impl Answer {
    /// How many of so many bytes it moves.
    pub(crate) fn count(self, most: usize) -> io::Result<usize>
        ensures { IfOk result (λ count. count ≤ most) }
    {
        match self {
            Answer::Moves(count) => Ok(count.min(most)),
            Answer::Signal => Err(ErrorKind::Interrupted.into()),
            Answer::Broken => Err(ErrorKind::BrokenPipe.into()),
        }
    }
}

/// The byte at a place of the text that made-up streams carry.
fn byte_at(place: usize) -> u8 {
    (place % 251) as u8
}

/// The first bytes of that text.
pub(crate) fn text_of(alloc: Global, size: usize) -> Result<Vec<u8>, AllocError> {
    let mut text = Vec::new(alloc);
    for place in 0..size {
        text.push(byte_at(place))?;
    }
    Ok(text)
}

/// A process whose reads and writes answer by lists, and behind them move nothing. Its input is the
/// text; of its output it sees whether that is the text.
#[derive(Drop)]
pub(crate) struct Process {
    reads: &'static [Answer],
    writes: &'static [Answer],
    calls: Cell<usize>,
    taken: Cell<usize>,
    differs: Cell<bool>,
}

impl Process {
    pub(crate) fn new(reads: &'static [Answer], writes: &'static [Answer]) -> Process {
        Process {
            reads,
            writes,
            calls: Cell::new(0),
            taken: Cell::new(0),
            differs: Cell::new(false),
        }
    }

    /// Whether so many bytes were written, and they are the text.
    pub(crate) fn has_written(&self, size: usize) -> bool {
        !self.differs.get() && self.taken.get() == size
    }
}

/// What is typed into a made-up process.
#[derive(Drop)]
pub(crate) struct Typed {
    answers: &'static [Answer],
    calls: usize,
    place: usize,
}

impl Read for Typed {
    fn read(&mut self, buf: &mut [u8]) -> io::Result<usize> {
        let Some(answer) = self.answers.get(self.calls) else {
            return Ok(0);
        };
        self.calls = self.calls.wrapping_add(1);
        let count = answer.count(buf.len())?;
        for byte in buf[..count].iter_mut() {
            *byte = byte_at(self.place);
            self.place = self.place.wrapping_add(1);
        }
        Ok(count)
    }
}

impl BufRead for Typed {
    fn fill_buf(&mut self) -> io::Result<&[u8]> {
        Err(ErrorKind::Unsupported.into())
    }

    fn consume(&mut self, _amount: usize) {}
}

impl Input for Process {
    type Reader = Typed;

    fn read_line<A: Allocator + Clone>(&self, buf: &mut String<A>) -> io::Result<usize> {
        self.reader().read_line(buf)
    }

    fn lines<A: Allocator>(&self, alloc: A) -> Lines<Typed, A> {
        self.reader().lines(alloc)
    }

    fn reader(&self) -> Typed {
        Typed {
            answers: self.reads,
            calls: 0,
            place: 0,
        }
    }
}

impl Print for Process {
    fn print<D: Display + Drop>(&self, _value: D) -> io::Result<()> {
        Err(ErrorKind::Unsupported.into())
    }

    fn println<D: Display + Drop>(&self, _value: D) -> io::Result<()> {
        Err(ErrorKind::Unsupported.into())
    }

    fn write_all(&self, _bytes: &[u8]) -> io::Result<()> {
        Err(ErrorKind::Unsupported.into())
    }

    fn write_some(&self, bytes: &[u8]) -> io::Result<usize> {
        let call = self.calls.get();
        self.calls.set(call.wrapping_add(1));
        let Some(answer) = self.writes.get(call) else {
            return Ok(0);
        };
        let count = answer.count(bytes.len())?;
        let start = self.taken.get();
        for (place, byte) in bytes[..count].iter().enumerate() {
            if *byte != byte_at(start.wrapping_add(place)) {
                self.differs.set(true);
            }
        }
        self.taken.set(start.wrapping_add(count));
        Ok(count)
    }
}
