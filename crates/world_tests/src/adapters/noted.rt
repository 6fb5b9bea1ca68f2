//! A network of one host and a clock that note what they are asked.
use host_adapters::AcceptWithin;
use std::cell::Cell;
use std::io;
use std::io::{ErrorKind, Read, Write};
use std::net::{Ipv4Addr, Net, OpenListener, OpenStream, SocketAddr};
use std::os::fd::{AsRawFd, RawFd};
use std::rc::Rc;
use std::rt::Clock;
use std::sync::Wait;
use std::time::Duration;

/// How long an attempt to connect takes, in ms.
const ATTEMPT: u64 = 300;

/// What was asked. At the host's first address nobody answers.
#[derive(Drop)]
pub struct Noted {
    pub now: Cell<u64>,
    pub dialed: Cell<[Option<(SocketAddr, Duration)>; 2]>,
    pub bound: Cell<Option<SocketAddr>>,
    pub accept: Cell<Option<Duration>>,
    pub read_wait: Cell<Option<Duration>>,
    pub write_wait: Cell<Option<Duration>>,
}

impl Noted {
    pub fn new() -> Self {
        Noted {
            now: Cell::new(7_000),
            dialed: Cell::new([None, None]),
            bound: Cell::new(None),
            accept: Cell::new(None),
            read_wait: Cell::new(None),
            write_wait: Cell::new(None),
        }
    }

    fn pass(&self, ms: u64) {
        self.now.set(self.now.get().saturating_add(ms));
    }
}

/// An address of the host "plant".
pub fn address(last: u8, port: u16) -> SocketAddr {
    SocketAddr::from((Ipv4Addr::new(10, 0, 0, last), port))
}

/// A connection that takes all, and whose receives fail.
#[derive(Drop)]
pub struct NotedStream {
    net: Rc<Noted>,
}

impl Read for NotedStream {
    fn read(&mut self, _into: &mut [u8]) -> io::Result<usize> {
        Err(io::Error::from(ErrorKind::ConnectionReset))
    }
}

impl Write for NotedStream {
    fn write(&mut self, bytes: &[u8]) -> io::Result<usize> {
        Ok(bytes.len())
    }

    fn flush(&mut self) -> io::Result<()> {
        Ok(())
    }
}

impl AsRawFd for NotedStream {
    fn as_raw_fd(&self) -> RawFd {
        0
    }
}

impl OpenStream for NotedStream {
    fn set_nodelay(&self, _nodelay: bool) -> io::Result<()> {
        Ok(())
    }

    fn set_read_timeout(&self, wait: Option<Duration>) -> io::Result<()> {
        self.net.read_wait.set(wait);
        Ok(())
    }

    fn set_write_timeout(&self, wait: Option<Duration>) -> io::Result<()> {
        self.net.write_wait.set(wait);
        Ok(())
    }
}

/// A listener to which a peer comes at once.
#[derive(Drop)]
pub struct NotedListener {
    net: Rc<Noted>,
    address: SocketAddr,
}

impl AsRawFd for NotedListener {
    fn as_raw_fd(&self) -> RawFd {
        0
    }
}

impl OpenListener for NotedListener {
    type Stream = NotedStream;

    fn accept(&self) -> io::Result<(NotedStream, SocketAddr)> {
        Ok((
            NotedStream {
                net: self.net.clone()?,
            },
            self.address,
        ))
    }

    fn local_addr(&self) -> io::Result<SocketAddr> {
        Ok(self.address)
    }
}

impl AcceptWithin for NotedListener {
    fn accept_within(&self, wait: Duration) -> io::Result<NotedStream> {
        self.net.accept.set(Some(wait));
        Ok(NotedStream {
            net: self.net.clone()?,
        })
    }
}

/// The network and the clock, as adapters are given them.
#[derive(Drop)]
pub struct Host<R> {
    pub rt: R,
    pub notes: Rc<Noted>,
}

impl<R> Net for Host<R> {
    type Stream = NotedStream;

    type Listener = NotedListener;

    fn bind(&self, address: SocketAddr) -> io::Result<NotedListener> {
        if self.notes.bound.replace(Some(address)).is_some() {
            return Err(io::Error::from(ErrorKind::AddrInUse));
        }
        Ok(NotedListener {
            net: self.notes.clone()?,
            address,
        })
    }

    fn connect(&self, _address: SocketAddr) -> io::Result<NotedStream> {
        Err(io::Error::from(ErrorKind::Unsupported))
    }

    fn connect_timeout(&self, address: SocketAddr, wait: Duration) -> io::Result<NotedStream> {
        self.notes.pass(ATTEMPT);
        let asked = Some((address, wait));
        let [first, _] = self.notes.dialed.get();
        if first.is_none() {
            self.notes.dialed.set([asked, None]);
            return Err(io::Error::from(ErrorKind::ConnectionRefused));
        }
        self.notes.dialed.set([first, asked]);
        Ok(NotedStream {
            net: self.notes.clone()?,
        })
    }

    fn lookup_host(&self, host: &str, port: u16, found: &mut [SocketAddr]) -> io::Result<usize> {
        if host != "plant" || found.len() < 2 {
            return Err(io::Error::from(ErrorKind::NotFound));
        }
        found[0] = address(1, port);
        found[1] = address(2, port);
        Ok(2)
    }
}

impl<R> Clock for Host<R> {
    fn monotonic(&self) -> io::Result<Duration> {
        Ok(Duration::from_millis(self.notes.now.get()))
    }

    fn since_1970(&self) -> io::Result<Duration> {
        self.monotonic()
    }

    fn sleep(&self, duration: Duration) {
        self.notes
            .pass(u64::try_from(duration.as_millis()).unwrap_or(u64::MAX));
    }
}

impl<R: Wait> Wait for Host<R> {}
