//! Where a dialer dials and listens, and how long it waits.
use super::noted::{Host, Noted, address};
use super::{dial, recv, send};
use host_adapters::{BootClock, Calling, Listening, TcpDialer};
use std::alloc::AllocError;
use std::rc::Rc;
use std::test::Fail;
use std::time::Duration;
use world_traits::{Clock, DialFailed, RecvFailed, SendFailed};

/// So many ms.
fn ms(count: u64) -> Duration {
    Duration::from_millis(count)
}

fn host(rt: HostRuntime, notes: &Rc<Noted>) -> Result<Host<HostRuntime>, AllocError> {
    let notes = notes.clone()?;
    Ok(Host { rt, notes })
}

#[test]
fn a_host_is_dialed_at_each_address_within_one_wait(rt: HostRuntime) -> Result<(), Fail> {
    let notes = Rc::new(rt.alloc(), Noted::new())?;
    let mut dialer = TcpDialer::<Calling<Host<HostRuntime>>>::new(host(rt, &notes)?);
    assert_eq!(rt; dial(&mut dialer, "plant", 5_020, 1_000), Ok(()));
    let dialed = [
        Some((address(1, 5_020), ms(1_000))),
        Some((address(2, 5_020), ms(700))),
    ];
    assert_eq!(rt; notes.dialed.get(), dialed);
    assert_eq!(rt; notes.read_wait.get(), Some(ms(1_000)));
    assert_eq!(rt; notes.write_wait.get(), Some(ms(1_000)));
    assert_eq!(rt; send(&mut dialer, b"ping"), Ok(4));

    // A link ends with a receive that failed.
    let mut into = [0; 8];
    assert_eq!(rt; recv(&mut dialer, &mut into), Err(RecvFailed));
    assert_eq!(rt; send(&mut dialer, b"ping"), Err(SendFailed));
    assert_eq!(rt;
        dial(&mut dialer, "elsewhere", 5_020, 1_000),
        Err(DialFailed)
    );
    Ok(())
}

#[test]
fn a_peer_is_waited_for_at_the_host_as_long_as_told(rt: HostRuntime) -> Result<(), Fail> {
    let notes = Rc::new(rt.alloc(), Noted::new())?;
    let mut dialer = TcpDialer::<Listening<Host<HostRuntime>>>::new(host(rt, &notes)?);
    assert_eq!(rt; dial(&mut dialer, "plant", 5_020, 1_000), Ok(()));
    assert_eq!(rt; notes.bound.get(), Some(address(1, 5_020)));
    assert_eq!(rt; notes.accept.get(), Some(ms(1_000)));
    assert_eq!(rt; notes.read_wait.get(), Some(ms(1_000)));
    assert_eq!(rt; notes.now.get(), 7_000);

    // The listener is kept. At another port none can stand, and the wait passes all the same.
    assert_eq!(rt; dial(&mut dialer, "plant", 5_020, 500), Ok(()));
    assert_eq!(rt; notes.accept.get(), Some(ms(500)));
    assert_eq!(rt; dial(&mut dialer, "plant", 5_021, 800), Err(DialFailed));
    assert_eq!(rt; notes.now.get(), 7_800);
    Ok(())
}

#[test]
fn a_rest_is_as_long_as_told(rt: HostRuntime) -> Result<(), Fail> {
    let notes = Rc::new(rt.alloc(), Noted::new())?;
    let clock = BootClock::new(host(rt, &notes)?);
    clock.rest(40);
    assert_eq!(rt; notes.now.get(), 7_040);
    assert_eq!(rt; clock.now(), 7_040);
    Ok(())
}
