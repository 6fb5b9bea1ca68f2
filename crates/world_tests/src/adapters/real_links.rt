//! Links over TCP on this machine. They stand at an address that nothing else uses, so that a dial or a listener at
//! another shows.
use super::{dial, recv, send};
use host_adapters::{Calling, Listening, TcpDialer};
use std::io;
use std::io::{Read, Write};
use std::net::{TcpListener, TcpStream};
use std::process::Abort;
use std::test::Fail;
use std::time::{Duration, Instant};
use world_traits::{DialFailed, Dialer, Received, RecvFailed, SendFailed};

/// The address of this machine's own network.
const OWN: &str = "127.0.0.2";

fn sent<T: Send>(_value: &T) {}

/// A port at which nobody listens.
fn free_port(rt: &HostRuntime) -> io::Result<u16> {
    Ok(TcpListener::bind(rt, (OWN, 0))?.local_addr()?.port())
}

/// What a dialer does on a link to this peer, which hangs up.
fn talks<N: Dialer>(rt: &impl Abort, dialer: &mut N, mut peer: TcpStream) -> Result<(), Fail> {
    let mut into = [0; 8];
    assert_eq!(rt; recv(dialer, &mut into), Ok(Received::Quiet));
    assert_eq!(rt; send(dialer, b"ping"), Ok(4));
    assert_eq!(rt; peer.read(&mut into)?, 4);
    assert_eq!(rt; &into[..4], b"ping".as_slice());
    assert_eq!(rt; peer.write(b"pong, pong")?, 10);
    assert_eq!(rt; recv(dialer, &mut into), Ok(Received::Bytes(8)));
    assert_eq!(rt; into, *b"pong, po");
    assert_eq!(rt; recv(dialer, &mut into), Ok(Received::Bytes(2)));
    drop(peer);
    assert_eq!(rt; recv(dialer, &mut into), Ok(Received::Closed));
    dialer.hang_up();
    assert_eq!(rt; send(dialer, b"ping"), Err(SendFailed));
    assert_eq!(rt; recv(dialer, &mut into), Err(RecvFailed));
    Ok(())
}

#[test]
fn a_link_to_a_host_over_tcp(rt: HostRuntime) -> Result<(), Fail> {
    let listener = TcpListener::bind(&rt, (OWN, 0))?;
    let port = listener.local_addr()?.port();
    let mut dialer = TcpDialer::<Calling<HostRuntime>>::new(rt);
    sent(&dialer);
    assert_eq!(rt; dial(&mut dialer, OWN, port, 200), Ok(()));
    let (peer, _) = listener.accept()?;
    talks(&rt, &mut dialer, peer)?;
    drop(listener);
    assert_eq!(rt; dial(&mut dialer, OWN, port, 200), Err(DialFailed));
    Ok(())
}

#[test]
fn a_link_to_whoever_comes_over_tcp(rt: HostRuntime) -> Result<(), Fail> {
    let port = free_port(&rt)?;
    let mut dialer = TcpDialer::<Listening<HostRuntime>>::new(rt);
    sent(&dialer);
    let start = Instant::now(&rt)?;
    assert_eq!(rt; dial(&mut dialer, OWN, port, 1_000), Err(DialFailed));
    let waited = start.elapsed(&rt)?;
    assert!(rt; Duration::from_millis(900) <= waited && waited <= Duration::from_millis(1_900));
    let peer = TcpStream::connect(&rt, (OWN, port))?;
    assert_eq!(rt; dial(&mut dialer, OWN, port, 200), Ok(()));
    talks(&rt, &mut dialer, peer)?;
    Ok(())
}
