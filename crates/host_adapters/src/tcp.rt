ghost use Rattle.std.specs.Prelude.{◌≡◌, ◌<◌, ℕ, None, IfOk, Ok, length, take};
ghost use Rattle.std.specs.Io.{WritesAtMost};
ghost use Rattle.std.specs.Io.KnownBytes.{Consumes, IsAtEnd, WriteAppends};
ghost use Rattle.world_traits.specs.Links.{FitsInto};

use std::alloc::{AllocError, Global};
use std::io;
use std::io::{ErrorKind, Read, Write};
use std::net::OpenStream;
use std::time::Duration;
use world_traits::{DialFailed, Dialer, Received, RecvFailed, SendFailed};

/// How a TCP connection comes about.
pub trait Opener: Drop {
    /// What the system is asked by.
    type Runtime;

    /// A connection.
    type Stream: Read + Write + OpenStream + Drop;

    /// An opener that has opened nothing yet.
    fn new(rt: Self::Runtime) -> Self;

    /// A new connection to a host's port, or at it, within `wait` ms.
    fn open(&mut self, host: &str, port: u16, wait: u32) -> io::Result<Self::Stream>;
}

/// TCP connections, one at a time, as links. It counts its faults, and tells nothing of its links.
#[derive(Drop)]
pub struct TcpDialer<C: Opener> {
    opener: C,
    stream: Option<C::Stream>,
    faults: u64,
}

impl<C: Opener> TcpDialer<C> {
    /// A dialer without a link.
    pub fn new(rt: C::Runtime) -> Self {
        TcpDialer {
            opener: C::new(rt),
            stream: None,
            faults: 0,
        }
    }

    /// So many dialers without a link.
    pub fn many(alloc: Global, rt: C::Runtime, count: usize) -> Result<Vec<Self>, AllocError>
    where
        C::Runtime: Copy,
        ensures { IfOk result (λ dialers. length dialers.items ≡ count) }
    {
        let mut dialers = Vec::new(alloc);
        for _ in 0..count {
            dialers.push(TcpDialer::new(rt))?;
        }
        Ok(dialers)
    }
}

/// Sends small pieces at once, and waits for nothing longer than `wait` ms.
fn set_up(stream: &impl OpenStream, wait: u32) -> io::Result<()> {
    let wait = Some(Duration::from_millis(u64::from(wait)));
    stream.set_nodelay(true)?;
    stream.set_read_timeout(wait)?;
    stream.set_write_timeout(wait)
}

fn open<C: Opener>(opener: &mut C, host: &str, port: u16, wait: u32) -> io::Result<C::Stream> {
    let stream = opener.open(host, port, wait)?;
    set_up(&stream, wait)?;
    Ok(stream)
}

/// Sends the first of the bytes.
fn transmit<W: Write>(stream: &mut W, bytes: &[u8]) -> Result<usize, SendFailed>
    ensures bound { WritesAtMost result bytes.now }
    ensures some { IfOk result (λ count. 0 < length bytes.now → 0 < count) }
    ensures bytes { WriteAppends (W.contents stream.old) (W.contents stream.new) result bytes.now }
{
    match stream.write(bytes) {
        Ok(count) if count > 0 || bytes.is_empty() => Ok(count),
        _ => Err(SendFailed),
    }
}

/// Receives. A read that waited for nothing says that it would go on waiting.
fn receive<R: Read>(stream: &mut R, into: &mut [u8]) -> Result<Received, RecvFailed>
    ensures fits { IfOk result (FitsInto into.new) }
    ensures bytes { (count : ℕ) → result ≡ Ok (Received.Bytes count)
        → Consumes (R.remaining stream.old) (R.remaining stream.new) (take count into.new) }
    ensures closed { result ≡ Ok Received.Closed → IsAtEnd (R.remaining stream.new) }
{
    if into.is_empty() {
        return Ok(Received::Quiet);
    }
    match stream.read(into) {
        Ok(0) => Ok(Received::Closed),
        Ok(count) => Ok(Received::Bytes(count)),
        Err(fault) if fault.kind() == ErrorKind::WouldBlock => Ok(Received::Quiet),
        Err(_) => Err(RecvFailed),
    }
}

impl<C: Opener> Dialer for TcpDialer<C> {
    ghost links = { λ _. None };

    ghost faults = { λ s. s.faults };

    fn dial(&mut self, host: &str, port: u16, wait: u32) -> Result<(), DialFailed> {
        match open(&mut self.opener, host, port, wait) {
            Ok(stream) => {
                self.stream = Some(stream);
                Ok(())
            }
            Err(_) => {
                self.faults = self.faults.saturating_add(1);
                Err(DialFailed)
            }
        }
    }

    fn send(&mut self, bytes: &[u8]) -> Result<usize, SendFailed> {
        let sent = match &mut self.stream {
            Some(stream) => transmit(stream, bytes),
            None => Err(SendFailed),
        };
        match sent {
            Ok(count) => Ok(count),
            Err(failed) => {
                self.faults = self.faults.saturating_add(1);
                Err(failed)
            }
        }
    }

    fn recv(&mut self, into: &mut [u8]) -> Result<Received, RecvFailed> {
        let came = match &mut self.stream {
            Some(stream) => receive(stream, into),
            None => Err(RecvFailed),
        };
        match came {
            Ok(received) => Ok(received),
            Err(failed) => {
                self.stream = None;
                self.faults = self.faults.saturating_add(1);
                Err(failed)
            }
        }
    }

    fn hang_up(&mut self) {
        self.stream = None;
    }
}
