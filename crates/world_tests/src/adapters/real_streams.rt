//! The system's clock and a file.
use host_adapters::{BootClock, Opened};
use std::fs;
use std::io::Read;
use std::test::Fail;
use world_traits::Clock;

fn shared<T: Sync>(_value: &T) {}

fn now<K: Clock>(clock: &K) -> u64 {
    clock.now()
}

#[test]
fn the_clock_counts_from_the_boot_of_the_machine(rt: HostRuntime) -> Result<(), Fail> {
    let clock = BootClock::new(rt);
    shared(&clock);
    let before = std::rt::Clock::monotonic(&rt)?.as_millis();
    let first = now(&clock);
    clock.rest(20);
    let second = now(&clock);
    let after = std::rt::Clock::monotonic(&rt)?.as_millis();
    assert!(rt; before <= u128::from(first) && u128::from(second) <= after);
    assert!(rt; first.saturating_add(20) <= second);
    Ok(())
}

#[test]
fn a_file_is_opened_when_it_is_read(rt: HostRuntime) -> Result<(), Fail> {
    let path = "adapters-test.toml";
    let mut into = [0; 6];
    fs::write(&rt, path, "cap = 2\n")?;
    let mut file = Opened::at(rt, path);
    fs::remove_file(&rt, path)?;
    assert!(rt; file.read(&mut into).is_err());
    fs::write(&rt, path, "cap = 1\n")?;
    assert_eq!(rt; file.read(&mut into)?, 6);
    assert_eq!(rt; into, *b"cap = ");
    assert_eq!(rt; file.read(&mut into)?, 2);
    assert_eq!(rt; file.read(&mut into)?, 0);
    fs::remove_file(&rt, path)?;
    Ok(())
}
