//! A reader and a writer of bytes in memory, which pass them on in parts, and of which a call may fail.
ghost use Rattle.std.specs.Prelude.{◌≤◌, IfOk};

use crate::commands::Unmade;
use std::alloc::{AllocError, Global};
use std::io;
use std::io::{ErrorKind, Read, Write};

/// How a reader gives its bytes, or a writer takes them.
#[derive(Clone, Copy)]
pub struct Flow {
    /// How many bytes a call passes on at most. With none a reader is at its end, and a writer is closed.
    pub part: usize,
    /// How many calls are answered before the one that fails, and how that one fails. Those behind it are answered again.
    pub failing: Option<(u32, ErrorKind)>,
}

impl Flow {
    /// As many bytes as are asked for, and no call fails.
    pub const WHOLE: Flow = Flow {
        part: usize::MAX,
        failing: None,
    };

    // The flow with one more limit.
    fn limited(self, limit: &str, number: &str) -> Result<Flow, Unmade> {
        match limit {
            "part" => Ok(Flow {
                part: number.parse::<usize>()?,
                ..self
            }),
            "fails" => Ok(Flow {
                failing: Some((number.parse::<u32>()?, ErrorKind::Other)),
                ..self
            }),
            "interrupted" => Ok(Flow {
                failing: Some((number.parse::<u32>()?, ErrorKind::Interrupted)),
                ..self
            }),
            _ => Err(Unmade::NoSuchLine),
        }
    }

    // How many of so many bytes a call passes on, or how it fails.
    fn pass(&mut self, bytes: usize) -> io::Result<usize>
        ensures { IfOk result (λ count. count ≤ bytes) }
    {
        match self.failing {
            Some((0, kind)) => {
                self.failing = None;
                return Err(io::Error::from(kind));
            }
            Some((more, kind)) => self.failing = Some((more - 1, kind)),
            None => {}
        }
        Ok(bytes.min(self.part))
    }
}

/// How a reader gives its bytes, and how a writer takes them.
#[derive(Clone, Copy)]
pub struct Flows {
    pub reads: Flow,
    pub writes: Flow,
}

impl Flows {
    // The flows with one more limit, of the reader or of the writer.
    fn limited(self, limit: &[&str]) -> Result<Flows, Unmade> {
        match limit {
            ["read", limit, number] => Ok(Flows {
                reads: self.reads.limited(limit, number)?,
                ..self
            }),
            ["write", limit, number] => Ok(Flows {
                writes: self.writes.limited(limit, number)?,
                ..self
            }),
            _ => Err(Unmade::NoSuchLine),
        }
    }

    /// The flows of the words `read LIMIT` and `write LIMIT`, each of which may be left out, where a limit is `part BYTES`,
    /// `fails CALLS` or `interrupted CALLS`.
    pub fn of(words: &[&str]) -> Result<Flows, Unmade> {
        let mut flows = Flows {
            reads: Flow::WHOLE,
            writes: Flow::WHOLE,
        };
        for limit in words.chunks(3) {
            flows = flows.limited(limit)?;
        }
        Ok(flows)
    }
}

/// A reader of a text.
#[derive(Drop)]
pub struct Source<'a> {
    left: &'a [u8],
    flow: Flow,
    /// How many reads found that no byte was left.
    pub ends: u32,
}

impl<'a> Source<'a> {
    /// A reader that gives the text so.
    pub fn new(text: &'a [u8], flow: Flow) -> Source<'a> {
        Source {
            left: text,
            flow,
            ends: 0,
        }
    }
}

impl<'a> Read for Source<'a> {
    fn read(&mut self, buf: &mut [u8]) -> io::Result<usize> {
        let count = self.flow.pass(self.left.len().min(buf.len()))?;
        if self.left.is_empty() {
            self.ends = self.ends.saturating_add(1);
        }
        buf[..count].copy_from_slice(&self.left[..count]);
        self.left = &self.left[count..];
        Ok(count)
    }
}

/// A writer that keeps what it takes.
#[derive(Drop)]
pub struct Sink {
    taken: Vec<u8>,
    flow: Flow,
}

impl Sink {
    /// A writer that takes bytes so, with room for so many.
    pub fn new(alloc: Global, room: usize, flow: Flow) -> Result<Sink, AllocError> {
        Ok(Sink {
            taken: Vec::with_capacity(alloc, room)?,
            flow,
        })
    }

    /// What it took.
    pub fn taken(&self) -> &[u8] {
        self.taken.as_slice()
    }
}

impl Write for Sink {
    fn write(&mut self, buf: &[u8]) -> io::Result<usize> {
        let count = self.flow.pass(buf.len())?;
        self.taken.extend_from_slice(&buf[..count])?;
        Ok(count)
    }

    fn flush(&mut self) -> io::Result<()> {
        Ok(())
    }
}
