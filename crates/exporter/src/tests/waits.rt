//! How long dials wait, and how long a worker rests, which no clause says.
ghost use Rattle.std.specs.Prelude.{◌≡◌, None};

use super::links::{run_over, unattended};
use super::sites::{INVERTER, PLANT, Plant, site_file};
use exporter_commands::{Ended, LiveFault};
use std::test::Fail;
use world_traits::{Clock, DialFailed, Dialer, Received, RecvFailed, SendFailed, StepClock};

/// A plant of which no two times are the same number.
const TIMED: Plant = Plant {
    pause: 3_000,
    wait: 2_345,
    ..PLANT
};

/// A dialer that reaches nobody, and counts the dials that were to wait as long as the site file says, and the others.
#[derive(Clone, Copy, Drop)]
struct Nobody {
    faults: u64,
    right: u64,
    wrong: u64,
}

impl Dialer for Nobody {
    ghost links = { λ _. None };

    ghost faults = { λ s. s.faults };

    fn dial(&mut self, _host: &str, _port: u16, wait: u32) -> Result<(), DialFailed> {
        if wait == 2_345 {
            self.right = self.right.saturating_add(1);
        } else {
            self.wrong = self.wrong.saturating_add(1);
        }
        self.faults = self.faults.saturating_add(1);
        Err(DialFailed)
    }

    fn send(&mut self, _bytes: &[u8]) -> Result<usize, SendFailed> {
        self.faults = self.faults.saturating_add(1);
        Err(SendFailed)
    }

    fn recv(&mut self, _into: &mut [u8]) -> Result<Received, RecvFailed> {
        self.faults = self.faults.saturating_add(1);
        Err(RecvFailed)
    }

    fn hang_up(&mut self) {}
}

/// A turn whose dial fails rests for `pause`, and reads no clock.
#[test]
fn each_dial_waits_and_each_turn_rests_as_the_site_file_says(rt: HostRuntime) -> Result<(), Fail> {
    let alloc = rt.alloc();
    let site = site_file(alloc, TIMED, &[INVERTER])?;

    // How often it dials, and how long its turns rest.
    let rows = [
        ("commission 0", Ended::Refused(LiveFault::Dial), 1, 0..10),
        ("serve 0 3", Ended::Done, 3, 0..1_000_000),
        ("run 2", Ended::Done, 2, 6_001..6_010),
    ];
    for (line, end, dials, rest) in rows {
        let clock = StepClock::new(0, 1);
        let nobody = Nobody {
            faults: 0,
            right: 0,
            wrong: 0,
        };
        let mut dialers = vec![in alloc; nobody; 64]?;
        let given = unattended(line, site.as_str());
        let (ended, _) = run_over(&rt, alloc, given, &mut dialers, &clock)?;
        let first = dialers.first().ok_or("a dialer")?;
        assert!(rt; ended == end && first.right == dials && first.wrong == 0);
        assert!(rt; rest.contains(&clock.now()));
    }
    Ok(())
}
