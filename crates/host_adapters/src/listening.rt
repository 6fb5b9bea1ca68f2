use crate::tcp::Opener;
use std::io;
use std::net::{Net, OpenListener, TcpListener, TcpStream, ToSocketAddrs};
use std::os::fd::OwnedFd;
use std::rt::Clock;
use std::time::Duration;

/// A listener that waits for a peer no longer than it is told to.
pub trait AcceptWithin: OpenListener {
    /// The next connection, where one comes within the time.
    fn accept_within(&self, wait: Duration) -> io::Result<Self::Stream>;
}

impl AcceptWithin for TcpListener {
    fn accept_within(&self, wait: Duration) -> io::Result<TcpStream> {
        // The system ends an `accept` by the socket's time to receive, which only a stream can set here.
        let socket = TcpStream::from(OwnedFd::from(self.try_clone()?));
        socket.set_read_timeout(Some(wait))?;
        let (stream, _) = self.accept()?;
        Ok(stream)
    }
}

/// Listens at a host's port, and waits there for a peer to connect. Between two connections it goes on
/// listening, so a peer that comes early is the next.
#[derive(Drop)]
pub struct Listening<R: Net> {
    rt: R,
    listener: Option<R::Listener>,
}

/// Whether the listener stands at an address of the host and this port.
fn is_at<R: Net>(rt: &R, listener: &R::Listener, host: &str, port: u16) -> io::Result<bool> {
    let own = listener.local_addr()?;
    let mut addresses = (host, port).to_socket_addrs(rt)?;
    Ok(addresses.any(|address| address == own))
}

impl<R: Net> Listening<R> {
    /// A listener at the host and port: the one that stands there, or a new one.
    fn listen(&mut self, host: &str, port: u16) -> io::Result<R::Listener> {
        if let Some(listener) = self.listener.take() {
            if is_at(&self.rt, &listener, host, port)? {
                return Ok(listener);
            }
        }
        TcpListener::bind(&self.rt, (host, port))
    }
}

impl<R: Net + Clock + Drop> Opener for Listening<R>
where
    R::Listener: AcceptWithin,
{
    type Runtime = R;

    type Stream = R::Stream;

    fn new(rt: R) -> Self {
        Listening { rt, listener: None }
    }

    /// Where the host isn't of this machine, or its port is another's, nobody can come: the wait
    /// passes all the same.
    fn open(&mut self, host: &str, port: u16, wait: u32) -> io::Result<R::Stream> {
        let wait = Duration::from_millis(u64::from(wait));
        let listener = match self.listen(host, port) {
            Ok(listener) => listener,
            Err(fault) => {
                self.rt.sleep(wait);
                return Err(fault);
            }
        };
        let accepted = listener.accept_within(wait);
        self.listener = Some(listener);
        accepted
    }
}
