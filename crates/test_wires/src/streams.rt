// Readers and writers of connections.
use std::alloc::Global;
use std::io;
use std::io::{Read, Write};

/// What a reader answers once none of its bytes is left.
#[derive(Clone, Copy)]
pub enum After {
    End,
    Fault,
}

/// Hands out its bytes, at most so many a call, and counts how often it is asked for some.
#[derive(Drop)]
pub struct Pieces<'b> {
    pub left: &'b [u8],
    pub most: usize,
    pub after: After,
    pub reads: usize,
}

impl<'b> Pieces<'b> {
    /// A text, which is handed out at once, and ends.
    pub fn new(text: &'b str) -> Pieces<'b> {
        Pieces {
            left: text.as_bytes(),
            most: 8192,
            after: After::End,
            reads: 0,
        }
    }
}

impl Read for Pieces<'_> {
    fn read(&mut self, buf: &mut [u8]) -> io::Result<usize> {
        self.reads = self.reads.saturating_add(1);
        if self.left.is_empty() {
            return match self.after {
                After::End => Ok(0),
                After::Fault => Err(io::Error::from(io::ErrorKind::ConnectionReset)),
            };
        }
        let n = self.most.min(self.left.len()).min(buf.len());
        let (now, later) = self.left.split_at(n);
        buf[..n].copy_from_slice(now);
        self.left = later;
        Ok(n)
    }
}

/// Takes at most sixteen bytes a call, and fails once so many calls are made, of which a flush is one.
#[derive(Drop)]
pub struct Paper {
    pub bytes: Vec<u8>,
    pub calls: u32,
}

impl Paper {
    /// One on which nothing is written.
    pub fn new(alloc: Global, calls: u32) -> Paper {
        let bytes = Vec::new(alloc);
        Paper { bytes, calls }
    }

    fn count(&mut self) -> io::Result<()> {
        match self.calls.checked_sub(1) {
            Some(calls) => {
                self.calls = calls;
                Ok(())
            }
            None => Err(io::Error::from(io::ErrorKind::ConnectionReset)),
        }
    }
}

impl Write for Paper {
    fn write(&mut self, buf: &[u8]) -> io::Result<usize> {
        self.count()?;
        let n = buf.len().min(16);
        self.bytes.extend_from_slice(&buf[..n])?;
        Ok(n)
    }

    fn flush(&mut self) -> io::Result<()> {
        self.count()
    }
}

/// Whether this text, and nothing else, was written into a room of zeros.
pub fn is_written(room: &[u8], text: &str) -> bool {
    match room.strip_prefix(text.as_bytes()) {
        Some(rest) => rest.iter().all(|byte| *byte == 0),
        None => false,
    }
}
