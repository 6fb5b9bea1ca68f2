//! `live` in two threads of one process, over TCP on this machine.
use super::links::{run_over, unattended};
use super::sites::{INVERTER, Inverter, PLANT, Plant, site_file};
use exporter_commands::{Ended, LiveFault};
use host_adapters::{BootClock, Calling, Listening, Opener, TcpDialer};
use std::alloc::AllocError;
use std::net::{TcpListener, TcpStream};
use std::sync::Wait;
use std::test::Fail;
use std::thread::Threads;
use std::{io, thread};
use world_traits::Clock;

/// A plant whose worker hardly rests.
const QUICK: Plant = Plant {
    pause: 10,
    wait: 100,
    ..PLANT
};

/// How `live` ends with these words, where links to this port come about in this way.
fn run<
    R: Threads + Wait + Sync,
    C: Opener<Runtime = HostRuntime, Stream = TcpStream> + Send,
    K: Clock + Sync,
>(threads: &R, rt: &HostRuntime, clock: &K, port: u16, line: &str) -> Result<Ended, AllocError> {
    let alloc = rt.alloc();
    let inverter = Inverter {
        host: "127.0.0.2",
        port,
        ..INVERTER
    };
    let site = site_file(alloc, QUICK, &[inverter])?;
    let mut dialers = TcpDialer::<C>::many(alloc, *rt, 64)?;
    let given = unattended(line, site.as_str());
    let (ended, _) = run_over(threads, alloc, given, &mut dialers, clock)?;
    Ok(ended)
}

/// A port of this machine at which nobody listens.
fn free_port(rt: &HostRuntime) -> io::Result<u16> {
    Ok(TcpListener::bind(rt, "127.0.0.2:0")?.local_addr()?.port())
}

/// How `commission` ends, once the inverter listens.
fn commission<R: Threads + Wait + Sync, K: Clock + Sync>(
    threads: &R,
    rt: &HostRuntime,
    clock: &K,
    port: u16,
) -> Result<Ended, AllocError> {
    for _ in 0..100 {
        let ended = run::<R, Calling<HostRuntime>, K>(threads, rt, clock, port, "commission 0")?;
        if ended != Ended::Refused(LiveFault::Dial) {
            return Ok(ended);
        }
        clock.rest(20);
    }
    Ok(Ended::Refused(LiveFault::Dial))
}

#[test]
fn an_inverter_that_is_served_is_commissioned_and_kept_under_the_cap(
    rt: HostRuntime,
) -> Result<(), Fail> {
    let clock = BootClock::new(rt);
    let port = free_port(&rt)?;
    let (served, kept) = thread::join(
        &rt,
        || {
            run::<_, Listening<HostRuntime>, BootClock<HostRuntime>>(
                &rt,
                &rt,
                &clock,
                port,
                "serve 0 60",
            )
        },
        || {
            let commissioned = commission(&rt, &rt, &clock, port)?;
            let ran = run::<_, Calling<HostRuntime>, BootClock<HostRuntime>>(
                &rt, &rt, &clock, port, "run 3",
            )?;
            Ok((commissioned, ran))
        },
    );
    assert!(rt; served? == Ended::Done);
    let kept: Result<(Ended, Ended), AllocError> = kept;
    assert!(rt; kept? == (Ended::Done, Ended::Done));
    Ok(())
}
