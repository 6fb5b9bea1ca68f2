use crate::tcp::Opener;
use std::io;
use std::io::ErrorKind;
use std::net::{Net, TcpStream, ToSocketAddrs};
use std::rt::Clock;
use std::time::{Duration, Instant};

/// Connects to a host.
#[derive(Drop)]
pub struct Calling<R> {
    rt: R,
}

impl<R: Net + Clock + Drop> Opener for Calling<R> {
    type Runtime = R;

    type Stream = R::Stream;

    fn new(rt: R) -> Self {
        Calling { rt }
    }

    /// Tries the host's addresses one after the other, and waits `wait` ms for all of them.
    fn open(&mut self, host: &str, port: u16, wait: u32) -> io::Result<R::Stream> {
        let wait = Duration::from_millis(u64::from(wait));
        let start = Instant::now(&self.rt)?;
        let mut fault = io::Error::from(ErrorKind::AddrNotAvailable);
        for address in (host, port).to_socket_addrs(&self.rt)? {
            let left = wait.saturating_sub(start.elapsed(&self.rt)?);
            match TcpStream::connect_timeout(&self.rt, &address, left) {
                Ok(stream) => return Ok(stream),
                Err(refused) => fault = refused,
            }
        }
        Err(fault)
    }
}
