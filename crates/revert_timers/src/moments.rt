//! The last moments of one write.
ghost use Rattle.std.specs.Prelude.{◌≡◌, ◌≤◌};
ghost use Rattle.limiter_num.specs.Timers as timers;

use limiter_num::{MOMENT_MAX, Rules};

/// The last moment in ms at which a write may act that was granted at this moment: at the end of its send
/// window, and as late as a frame may be.
pub fn last_act(rules: &Rules, at: u64) -> u64
    requires { at ≤ MOMENT_MAX }
    ensures { result ≡ timers.last_act rules.now at }
{
    at + u64::from(rules.send) + u64::from(rules.delay)
}

/// The last moment in ms at which a write may be held that was granted at this moment: the longest timer after
/// the last moment at which it may act.
pub fn last_moment(rules: &Rules, at: u64) -> u64
    requires { at ≤ MOMENT_MAX }
    ensures { result ≡ timers.last_moment rules.now at }
{
    at + rules.reach()
}
