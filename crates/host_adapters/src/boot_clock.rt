ghost use Rattle.std.specs.Prelude.{◌≤◌, nat_le, IfSome};
ghost use Rattle.world_traits.specs.Clocks.{moment_max};

use limiter_num::MOMENT_MAX;
use std::sync::Wait;
use std::time::Duration;
use std::{rt, time};
use world_traits::Clock;

/// How long a clock that can't be read is left alone, in ms.
const NEXT_TRY: u64 = 1;

/// The system's monotonic clock, in ms from the boot of the machine, so that the moments of two runs stand in
/// one order. Where it can't be read, its calls wait until it can.
#[derive(Drop)]
pub struct BootClock<R> {
    rt: R,
}

impl<R> BootClock<R> {
    pub fn new(rt: R) -> Self {
        BootClock { rt }
    }
}

/// A reading of the clock, where it can be read.
fn reading(rt: &impl rt::Clock) -> Option<u64>
    ensures { IfSome result (λ ms. ms ≤ moment_max) }
{
    let since_boot = rt.monotonic().ok()?;
    let ms = u64::try_from(since_boot.as_millis()).ok()?;
    if ms <= MOMENT_MAX { Some(ms) } else { None }
}

impl<R: Wait + rt::Clock> Clock for BootClock<R> {
    ghost may_give = { λ _ n. nat_le n moment_max };

    fn now(&self) -> u64 {
        for _ in self.rt.forever() {
            if let Some(ms) = reading(&self.rt) {
                return ms;
            }
            self.rest(NEXT_TRY);
        }
        unreachable!()
    }

    // The system takes some 60 us to sleep for no time.
    fn rest(&self, ms: u64) {
        if ms > 0 {
            self.rt.sleep(Duration::from_millis(ms));
        }
    }
}
