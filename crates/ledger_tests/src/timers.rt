ghost use Rattle.std.specs.Prelude.{◌≡◌};

use limiter_num::{NoMemory, Rules};
use revert_timers::*;

fn due(last: u64, inverter: u8, number: u16) -> Due
    ensures { result ≡ record { last = last; inverter = inverter; link = 1; number = number } }
{
    Due {
        last,
        inverter,
        link: 1,
        number,
    }
}

#[test]
fn a_write_may_act_for_5_seconds_and_be_held_for_66_more(rt: HostRuntime) {
    let rules = Rules::new(1_000, 4_000, 60, 20, 500);
    assert!(rt; rules.is_ok());
    if let Ok(rules) = rules {
        assert_eq!(rt; last_act(&rules, 66_701), 71_701);
        assert_eq!(rt; last_moment(&rules, 66_701), 133_401);
    }
}

#[test]
fn writes_leave_once_they_are_past_or_were_taken_out(rt: HostRuntime) -> Result<(), NoMemory> {
    let mut expiries = Expiries::new(rt.alloc())?;
    expiries.add(due(133_401, 0, 1));
    expiries.add(due(133_401, 1, 1));
    expiries.add(due(133_402, 0, 2));
    assert!(rt; !expiries.remove(1, 1, 2));
    assert!(rt; expiries.remove(1, 1, 1));
    assert_eq!(rt; expiries.pop_past(133_401), None);
    assert_eq!(rt; expiries.pop_past(133_402), Some(due(133_401, 0, 1)));
    assert_eq!(rt; expiries.pop_past(133_402), None);
    assert_eq!(rt; expiries.pop_past(133_403), Some(due(133_402, 0, 2)));
    assert_eq!(rt; expiries.pop_past(1_000_000), None);
    Ok(())
}
