// Connections that wait: they have sent nothing so far, and hold nobody.
ghost use Rattle.std.specs.Prelude.{◌≡◌, ◌≤◌, [], None, IfOk, IfSome, option_map, slice_get};
ghost use Rattle.std.specs.List.{remove};
ghost use Rattle.std.specs.VecDeque.{deque_capacity, deque_items, deque_len};
ghost use Rattle.desk_runs.specs.Waits.{place_under};

use mio::unix::SourceFd;
use mio::{Interest, Registry, Token};
use std::alloc::{AllocError, Global};
use std::collections::VecDeque;
use std::io;
use std::io::ErrorKind;
use std::net::{TcpListener, TcpStream};
use std::os::fd::AsRawFd;

/// How many connections may wait.
pub const MOST_WAITING: usize = 64;

/// The token of the listener, which no connection has.
pub const LISTENER: usize = 0;

/// Connections that have sent nothing so far, the oldest first, each under a token that none had before. There is room for
/// all that may wait.
// (So an event that comes late serves no silent one, for which the desk would wait: who is served blocks it.)
#[derive(Drop)]
pub struct Waiting {
    streams: VecDeque<(usize, TcpStream)>,
    last: usize,
    ghost most: { deque_len streams ≤ 64 },
    ghost room: { 64 ≤ deque_capacity streams },
}

impl Waiting {
    /// None waits.
    pub fn new(alloc: Global) -> Result<Waiting, AllocError>
        ensures { IfOk result (λ waiting. deque_items waiting.streams ≡ []) }
    {
        Ok(Waiting {
            streams: VecDeque::with_capacity(alloc, MOST_WAITING)?,
            last: LISTENER,
        })
    }

    // The place of the connection of a token, if it waits.
    fn place(&self, token: usize) -> Option<usize>
        ensures { result ≡ place_under token (deque_items self.now.streams) }
    {
        self.streams.iter().position(|entry| entry.0 == token)
    }

    /// Takes the connection of a token out, if it waits.
    pub fn take(&mut self, token: usize) -> Option<TcpStream>
        ensures taken { IfSome (place_under token (deque_items self.old.streams)) (λ at. (result ≡ option_map (λ waits. waits.1) (slice_get (deque_items self.old.streams) at)) × (deque_items self.new.streams ≡ remove (deque_items self.old.streams) at)) }
        ensures none { place_under token (deque_items self.old.streams) ≡ None → (result ≡ None) × (self.new ≡ self.old) }
    {
        let at = self.place(token)?;
        let (_, stream) = self.streams.remove(at)?;
        Some(stream)
    }

    // Takes one in. Where too many wait, the oldest is let go, which had sent nothing when the system was asked last.
    fn take_in(&mut self, registry: &Registry, stream: TcpStream) -> io::Result<()> {
        if self.streams.len() >= MOST_WAITING {
            let _ = self.streams.pop_front();
        }
        self.last = self.last.wrapping_add(1).max(1);
        let descriptor = stream.as_raw_fd();
        registry.register(
            &mut SourceFd(&descriptor),
            Token(self.last),
            Interest::READABLE,
        )?;
        self.streams.push_back_reserved((self.last, stream));
        Ok(())
    }

    /// Takes in those that knock at a listener, as many as there is room for, one at least; and tells whether more may be
    /// knocking.
    pub fn take_knocking(
        &mut self,
        registry: &Registry,
        listener: &TcpListener,
    ) -> io::Result<bool> {
        let room = MOST_WAITING.saturating_sub(self.streams.len()).max(1);
        for _ in 0..room {
            match listener.accept() {
                Ok((stream, _)) => self.take_in(registry, stream)?,
                Err(e) if e.kind() == ErrorKind::ConnectionAborted => {}
                Err(e) if e.kind() == ErrorKind::WouldBlock => return Ok(false),
                Err(e) => return Err(e),
            }
        }
        Ok(true)
    }
}
