ghost use Rattle.std.specs.Prelude.{◌≡◌, ◌≤◌, IfSome};

use limiter_num::{Rating, Rules};
use uncertain_writes::*;

// A timer of a minute with a send window of 1 s and a delay of 4 s: a write is live for 66,700 ms.
fn minute() -> Option<Rules> {
    Rules::new(1_000, 4_000, 60, 20, 500).ok()
}

fn write(link: u32, number: u16, at: u64, raw: u16) -> Write
    ensures { result ≡ record { inverter = 0; link = link; number = number; at = at; raw = raw } }
{
    Write {
        inverter: 0,
        link,
        number,
        at,
        raw,
    }
}

fn read(link: u32, number: u16, at: u64) -> Read {
    Read {
        inverter: 0,
        link,
        number,
        at,
    }
}

#[test]
fn a_write_is_live_up_to_and_with_its_last_moment(rt: HostRuntime) {
    let rules = minute().expect(&rt, "the rules");
    let mut live = Live::new();
    assert_eq!(rt; live.add(write(1, 1, 66_701, 1_000)), Ok(()));
    assert_eq!(rt; live.expire(&rules, 133_401), 0);
    assert!(rt; live.knows(1_000));
    assert_eq!(rt; live.expire(&rules, 133_402), 1);
    assert!(rt; !live.knows(1_000));
}

#[test]
fn a_read_back_frees_what_it_settles_and_did_not_show(rt: HostRuntime) {
    let rules = minute().expect(&rt, "the rules");
    let rating = Rating::new(6_000, 0, -1).expect(&rt, "the rating");
    let cases = [(300, 1, 1_800_000), (1_000, 1, 6_000_000), (500, 2, 0)];
    for (shown, freed, mw) in cases {
        let mut live = Live::new();
        assert_eq!(rt; live.add(write(1, 1, 66_701, 1_000)), Ok(()));
        assert_eq!(rt; live.add(write(1, 2, 70_000, 300)), Ok(()));
        assert_eq!(rt; live.greatest(&rating), 6_000_000);
        assert_eq!(rt;
            live.seen(&rules, &read(1, 3, 70_100), shown),
            freed,
            "at {shown}"
        );
        assert_eq!(rt; live.greatest(&rating), mw, "at {shown}");
    }
}

#[test]
fn a_read_on_a_new_link_frees_an_old_write_only_past_its_last_act(rt: HostRuntime) {
    let rules = minute().expect(&rt, "the rules");
    let mut live = Live::new();
    assert_eq!(rt; live.add(write(1, 1, 66_701, 1_000)), Ok(()));
    assert_eq!(rt; live.add(write(2, 1, 67_100, 300)), Ok(()));
    assert_eq!(rt; live.seen(&rules, &read(2, 2, 67_200), 300), 0);
    assert_eq!(rt; live.seen(&rules, &read(2, 3, 71_701), 300), 0);
    assert_eq!(rt; live.seen(&rules, &read(2, 4, 71_702), 300), 1);
    assert!(rt; live.knows(300) && !live.knows(1_000));
}

#[test]
fn an_unsent_write_is_dropped_by_its_link_and_number(rt: HostRuntime) {
    let mut live = Live::new();
    assert_eq!(rt; live.add(write(1, 1, 66_701, 1_000)), Ok(()));
    assert_eq!(rt; live.add(write(2, 1, 67_100, 300)), Ok(()));
    assert!(rt; !live.drop_unsent(1, 2));
    assert!(rt; !live.drop_unsent(3, 1));
    assert!(rt; live.drop_unsent(1, 1));
    assert!(rt; !live.drop_unsent(1, 1));
    assert!(rt; live.knows(300) && !live.knows(1_000));
}

#[test]
fn the_33rd_write_is_handed_back(rt: HostRuntime) {
    let mut live = Live::new();
    for number in 1..33 {
        assert_eq!(rt;
            live.add(write(1, number, 66_701, number)),
            Ok(()),
            "at {number}"
        );
    }
    let late = write(1, 33, 66_733, 100);
    assert_eq!(rt; live.add(late), Err(late));
    assert!(rt; live.knows(1) && !live.knows(100));
}
