use limiter_num::{Point, Rating, RatingFault, Rules, RulesField, RulesOut};

#[test]
fn a_timer_of_a_minute_ends_within_its_tolerance(rt: HostRuntime) {
    let rules = Rules::new(1_000, 4_000, 60, 20, 500);
    assert!(rt; rules.is_ok());
    if let Ok(rules) = rules {
        assert_eq!(rt; rules.tmin(), 58_300);
        assert_eq!(rt; rules.tmax(), 61_700);
        assert_eq!(rt; rules.reach(), 66_700);
    }
    let out = RulesOut {
        field: RulesField::Timer,
        value: 0,
    };
    assert_eq!(rt; Rules::new(1, 0, 0, 501, 0), Err(out));
}

#[test]
fn milliwatts_are_rounded_up_and_back_down(rt: HostRuntime) {
    let small = Rating::new(65_534, 0, -10);
    assert!(rt; small.is_ok());
    if let Ok(rating) = small {
        assert_eq!(rt; rating.full(), 65_534);
        assert_eq!(rt; rating.mw(1), 1);
        assert_eq!(rt; rating.mw(65_534), 5);
        assert_eq!(rt; rating.raw_at_most(4), 61_037);
    }
    let usual = Rating::new(6_000, 0, -1);
    assert!(rt; usual.is_ok());
    if let Ok(rating) = usual {
        assert_eq!(rt; rating.full(), 1_000);
        assert_eq!(rt; rating.mw(667), 4_002_000);
        assert_eq!(rt; rating.raw_at_most(5_000_000), 833);
    }
}

#[test]
fn points_are_refused_by_their_first_fault(rt: HostRuntime) {
    let cases = [
        (6_000, 0, 3, RatingFault::NoResolution),
        (6_000, i16::MIN, -1, RatingFault::NotImplemented(Point::WSf)),
        (6_000, 11, -1, RatingFault::ScaleOut(Point::WSf, 11)),
        (
            60_000,
            10,
            -1,
            RatingFault::TooLarge(600_000_000_000_000_000),
        ),
    ];
    for (wmax, wsf, psf, fault) in cases {
        assert_eq!(rt;
            Rating::new(wmax, wsf, psf),
            Err(fault),
            "{wmax} {wsf} {psf}"
        );
    }
}
