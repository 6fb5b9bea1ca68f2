ghost use Rattle.std.specs.Prelude.{◌≤◌, IfOk};

use arrayvec::ArrayString;
use limiter_num::{Point, Rating, Rules};
use mbap_frames::{Frame, Frames, Got, frame_bytes};
use plant_book::{Port, Read, Unit, Write};
use readback::*;
use std::test::Fail;

/// An inverter of 6 kW with a floor of 10 percent, at unit 1, whose model 704 begins at register 40200, under timers of a minute.
fn inverter() -> Result<(Unit, Port, Rules), Fail>
    ensures { IfOk result (λ inverter. inverter.1.base ≤ 65514) }
{
    let rating = Rating::new(6_000, 0, -1).ok().ok_or("a rating")?;
    let unit = Unit::new(rating, 100).ok().ok_or("a floor")?;
    let rules = Rules::new(1_000, 4_000, 60, 20, 500).ok().ok_or("rules")?;
    let port = Port {
        host: ArrayString::new(),
        port: 502,
        unit: 1,
        base: 40200,
    };
    Ok((unit, port, rules))
}

const READ: Read = Read {
    inverter: 0,
    link: 2,
    number: 2,
    at: 67_200,
};

fn frame_of(bytes: &[u8]) -> Result<Frame, Fail> {
    match Frames::new().feed(bytes).got {
        Got::One(frame) => Ok(frame),
        _ => Err("no frame".into()),
    }
}

/// What a reply of these bytes to `READ` is judged.
fn judged(bytes: &[u8]) -> Result<Judged, Fail> {
    let (unit, port, rules) = inverter()?;
    Ok(judge(&READ, &unit, &port, &rules, &frame_of(bytes)?))
}

#[test]
fn requests_to_the_byte(rt: HostRuntime) -> Result<(), Fail> {
    let (unit, port, rules) = inverter()?;
    let write = Write {
        inverter: 0,
        link: 1,
        number: 1,
        at: 66_701,
        raw: 1000,
    };
    assert_eq!(rt;
        frame_bytes(&write_request(&write, &unit, &port, &rules)).as_slice(),
        [
            0x00, 0x01, 0x00, 0x00, 0x00, 0x13, 0x01, 0x10, 0x9D, 0x16, 0x00, 0x06, 0x0C, 0x00,
            0x01, 0x03, 0xE8, 0x00, 0x64, 0x00, 0x01, 0x00, 0x00, 0x00, 0x3C,
        ]
        .as_slice()
    );
    assert_eq!(rt;
        frame_bytes(&read_request(&READ, &port)).as_slice(),
        [
            0x00, 0x02, 0x00, 0x00, 0x00, 0x06, 0x01, 0x03, 0x9D, 0x16, 0x00, 0x08,
        ]
        .as_slice()
    );
    Ok(())
}

/// The limit of the write above as it is read back, two seconds later.
const SHOWN: [u8; 25] = [
    0x00, 0x02, 0x00, 0x00, 0x00, 0x13, 0x01, 0x03, 0x10, 0x00, 0x01, 0x03, 0xE8, 0x00, 0x64, 0x00,
    0x01, 0x00, 0x00, 0x00, 0x3C, 0x00, 0x00, 0x00, 0x3A,
];

fn differs(point: Point, wanted: u32, found: u32) -> Judged {
    Judged::Differs {
        point,
        wanted,
        found,
    }
}

/// The bytes of `SHOWN` by which a reply is judged, each with another value and what it's judged then.
fn wrong_bytes() -> [(usize, u8, Judged); 6] {
    [
        (1, 0x03, Judged::WrongNumber(3)),
        (6, 0x02, Judged::WrongUnit(2)),
        (10, 0x00, differs(Point::Ena, 1, 0)),
        (14, 0x65, differs(Point::PctRvrt, 100, 101)),
        (16, 0x02, differs(Point::EnaRvrt, 1, 2)),
        (20, 0x3D, differs(Point::RvrtTms, 60, 61)),
    ]
}

#[test]
fn one_byte_of_a_reply(rt: HostRuntime) -> Result<(), Fail> {
    assert_eq!(rt; judged(&SHOWN)?, Judged::Shows(1000));
    let others = [
        (12, 0xE7, Judged::Shows(999)),
        (18, 0x01, differs(Point::RvrtTms, 60, 65_596)),
        (24, 0x3D, Judged::Shows(1000)),
    ];
    for (place, byte, wanted) in wrong_bytes().into_iter().chain(others) {
        let mut reply = SHOWN;
        assert!(rt; place < reply.len());
        reply[place] = byte;
        assert_eq!(rt; judged(&reply)?, wanted, "at {place}");
    }
    Ok(())
}

#[test]
fn the_first_cause_counts(rt: HostRuntime) -> Result<(), Fail> {
    let mut reply = SHOWN;
    for (place, byte, _) in wrong_bytes() {
        assert!(rt; place < reply.len());
        reply[place] = byte;
    }
    for (place, _, wanted) in wrong_bytes() {
        assert_eq!(rt; judged(&reply)?, wanted);
        assert!(rt; place < reply.len());
        reply[place] = SHOWN[place];
    }
    assert_eq!(rt; judged(&reply)?, Judged::Shows(1000));
    Ok(())
}

#[test]
fn other_replies(rt: HostRuntime) -> Result<(), Fail> {
    assert_eq!(rt;
        judged(&[0, 2, 0, 0, 0, 3, 1, 0x83, 2])?,
        Judged::Exception(2)
    );
    let exception_to_a_write = [0, 2, 0, 0, 0, 3, 1, 0x90, 2];
    assert_eq!(rt; judged(&exception_to_a_write)?, Judged::WrongReply);
    let more_than_an_exception = [0, 2, 0, 0, 0, 4, 1, 0x83, 2, 2];
    assert_eq!(rt; judged(&more_than_an_exception)?, Judged::WrongReply);
    let reply_to_a_write = [0, 2, 0, 0, 0, 6, 1, 0x10, 0x9D, 0x16, 0, 6];
    assert_eq!(rt; judged(&reply_to_a_write)?, Judged::WrongReply);

    let mut seven = SHOWN;
    (seven[5], seven[8]) = (0x11, 0x0E);
    assert_eq!(rt; judged(&seven[..23])?, Judged::WrongReply);
    let mut nine = [0; 27];
    nine[..25].copy_from_slice(&SHOWN);
    (nine[5], nine[8]) = (0x15, 0x12);
    assert_eq!(rt; judged(&nine)?, Judged::WrongReply);
    Ok(())
}
