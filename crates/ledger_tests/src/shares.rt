ghost use Rattle.std.specs.Prelude.{◌≡◌};

use share_policy::*;

fn claim(floor: u64, wish: u64, rated: u64) -> Claim
    ensures { result ≡ record { floor = floor; wish = wish; rated = rated } }
{
    Claim { floor, wish, rated }
}

#[test]
fn a_level_serves_small_wishes_whole(rt: HostRuntime) {
    let claims = [claim(0, 1, 10), claim(0, 5, 10), claim(0, 9, 10)];
    assert_eq!(rt; level(10, &claims), 4);
    assert!(rt; reaches(10, &claims, 4));
    assert!(rt; !reaches(10, &claims, 5));
    assert_eq!(rt; target(Policy::Fair, 4, &claims[0]), 1);
    assert_eq!(rt; target(Policy::Fair, 4, &claims[1]), 4);
    assert_eq!(rt; target(Policy::Fair, 4, &claims[2]), 4);
    assert_eq!(rt; target(Policy::Open, 4, &claims[2]), 10);
}

#[test]
fn floors_that_fill_the_cap_are_the_level(rt: HostRuntime) {
    let claims = [claim(600_000, 6_000_000, 6_000_000); 2];
    assert_eq!(rt; level(1_200_000, &claims), 600_000);
    assert_eq!(rt; level(10_000_000, &claims), 5_000_000);
}

#[test]
fn with_no_claim_the_level_is_the_cap(rt: HostRuntime) {
    assert_eq!(rt; level(7, &[]), 7);
}

#[test]
fn a_target_goes_by_the_least_but_keeps_its_floor(rt: HostRuntime) {
    let cases = [
        (0, 100, 600, 400, 100),
        (700, 100, 600, 400, 400),
        (400, 100, 600, 400, 400),
        (700, 100, 600, 900, 600),
        (700, 100, 600, 50, 100),
    ];
    for (wish, floor, rated, level, mw) in cases {
        assert_eq!(rt;
            target(Policy::Fair, level, &claim(floor, wish, rated)),
            mw,
            "{wish} at {level}"
        );
    }
}

#[test]
fn sixty_four_claims_at_the_edge(rt: HostRuntime) {
    let greatest = claim(0, 100_000_000_000_000, 1_000_000_000_000);
    let claims = [greatest; 64];
    // The ratings sum to 64 * 10^12. Half of that leaves half of each, and 1 mW less takes 1 mW from each.
    assert_eq!(rt; level(100_000_000_000_000, &claims), 100_000_000_000_000);
    assert_eq!(rt; level(32_000_000_000_000, &claims), 500_000_000_000);
    assert_eq!(rt; level(63_999_999_999_999, &claims), 999_999_999_999);
}

#[test]
fn levels_that_guesses_along_the_slope_creep_up_to(rt: HostRuntime) {
    // Of 1, 4 and 4 MW with floors of 3 MW only the first rises at the level, so it gets all that is left.
    let floors = [
        claim(200_000_000, 1_000_000_000, 1_000_000_000),
        claim(800_000_000, 4_000_000_000, 4_000_000_000),
        claim(2_000_000_000, 4_000_000_000, 4_000_000_000),
    ];
    assert_eq!(rt; level(3_033_206_657, &floors), 233_206_657);

    // 10 * 850 kW and 2 * 10 kW: nine of the ten rise from 800 to 900 kW alone.
    let free = claim(0, 4_000_000_000, 4_000_000_000);
    let steep = claim(800_000_000, 900_000_000, 4_000_000_000);
    let small = claim(0, 10_000_000, 4_000_000_000);
    let twelve = [
        free, steep, steep, steep, steep, steep, steep, steep, steep, steep, small, small,
    ];
    assert_eq!(rt; level(8_520_000_000, &twelve), 850_000_000);

    // 31 * 250 MW and 33 * 1 MW: thirty of the 31 rise from 200 to 300 MW alone.
    let free = claim(0, 1_000_000_000_000, 1_000_000_000_000);
    let steep = claim(200_000_000_000, 300_000_000_000, 1_000_000_000_000);
    let small = claim(0, 1_000_000_000, 1_000_000_000_000);
    let many = [
        free, steep, steep, steep, steep, steep, steep, steep, steep, steep, steep, steep, steep,
        steep, steep, steep, steep, steep, steep, steep, steep, steep, steep, steep, steep, steep,
        steep, steep, steep, steep, steep, small, small, small, small, small, small, small, small,
        small, small, small, small, small, small, small, small, small, small, small, small, small,
        small, small, small, small, small, small, small, small, small, small, small, small,
    ];
    assert_eq!(rt; level(7_783_000_000_000, &many), 250_000_000_000);
}
