// The stream of one exchange, whose waits for the client have ten seconds in all.
use std::io;
use std::io::{Read, Write};
use std::net::TcpStream;
use std::time::{Clock, Duration, Instant};

/// How many seconds an exchange has in all.
const EXCHANGE_SECONDS: u64 = 10;

/// A connection's stream. Each read and each write waits for the client no longer than what is left of the exchange's
/// time; where nothing is left, it answers a fault.
#[derive(Drop)]
pub struct TimedStream<'a, C: Clock> {
    clock: &'a C,
    stream: &'a TcpStream,
    begun: Instant,
}

impl<'a, C: Clock> TimedStream<'a, C> {
    /// The stream for an exchange that began at this instant of the clock.
    pub fn new(clock: &'a C, stream: &'a TcpStream, begun: Instant) -> TimedStream<'a, C> {
        TimedStream {
            clock,
            stream,
            begun,
        }
    }

    // What is left of the exchange's time, more than nothing; the error is that nothing is.
    fn left(&self) -> io::Result<Duration> {
        let taken = self.begun.elapsed(self.clock)?;
        let left = Duration::from_secs(EXCHANGE_SECONDS).saturating_sub(taken);
        if left.is_zero() {
            return Err(io::Error::from(io::ErrorKind::TimedOut));
        }
        Ok(left)
    }
}

impl<C: Clock> Read for TimedStream<'_, C> {
    fn read(&mut self, buf: &mut [u8]) -> io::Result<usize> {
        self.stream.set_read_timeout(Some(self.left()?))?;
        let mut stream = self.stream;
        stream.read(buf)
    }
}

impl<C: Clock> Write for TimedStream<'_, C> {
    fn write(&mut self, buf: &[u8]) -> io::Result<usize> {
        self.stream.set_write_timeout(Some(self.left()?))?;
        let mut stream = self.stream;
        stream.write(buf)
    }

    fn flush(&mut self) -> io::Result<()> {
        let mut stream = self.stream;
        stream.flush()
    }
}

/// How many bytes of a request are kept.
const MOST_HEARD: usize = 4096;

/// A stream of which the first bytes that are read are kept.
#[derive(Drop)]
pub struct HeardStream<'a, 'h, C: Clock> {
    stream: TimedStream<'a, C>,
    heard: &'h mut Vec<u8>,
}

impl<'a, 'h, C: Clock> HeardStream<'a, 'h, C> {
    /// A stream whose first bytes are put behind these.
    pub fn new(stream: TimedStream<'a, C>, heard: &'h mut Vec<u8>) -> HeardStream<'a, 'h, C> {
        HeardStream { stream, heard }
    }
}

impl<C: Clock> Read for HeardStream<'_, '_, C> {
    fn read(&mut self, buf: &mut [u8]) -> io::Result<usize> {
        let count = self.stream.read(buf)?;
        let room = MOST_HEARD.saturating_sub(self.heard.len());
        let kept = count.min(room).min(buf.len());
        self.heard.extend_from_slice(&buf[..kept])?;
        Ok(count)
    }
}

/// The stream that a reply is written to. Its time is an exchange's, and begins with the first byte of the reply, however
/// long it took to make.
#[derive(Drop)]
pub struct ReplyStream<'a, C: Clock> {
    clock: &'a C,
    stream: &'a TcpStream,
    begun: Option<Instant>,
}

impl<'a, C: Clock> ReplyStream<'a, C> {
    /// The stream of a reply of which nothing is written.
    pub fn new(clock: &'a C, stream: &'a TcpStream) -> ReplyStream<'a, C> {
        ReplyStream {
            clock,
            stream,
            begun: None,
        }
    }

    // When the reply began: now, where it didn't so far.
    fn beginning(&mut self) -> io::Result<Instant> {
        if let Some(begun) = self.begun {
            return Ok(begun);
        }
        let begun = Instant::now(self.clock)?;
        self.begun = Some(begun);
        Ok(begun)
    }
}

impl<C: Clock> Write for ReplyStream<'_, C> {
    fn write(&mut self, buf: &[u8]) -> io::Result<usize> {
        let begun = self.beginning()?;
        TimedStream::new(self.clock, self.stream, begun).write(buf)
    }

    fn flush(&mut self) -> io::Result<()> {
        let mut stream = self.stream;
        stream.flush()
    }
}
