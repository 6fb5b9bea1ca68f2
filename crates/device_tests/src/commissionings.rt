ghost use Rattle.std.specs.Prelude.{◌≤◌, length, IsSome};

use arrayvec::ArrayString;
use commissioning::*;
use limiter_num::{Point, Rating, Rules};
use mbap_frames::Frame;
use modbus_pdu::{Pdu, Regs, Reply, Request, decode_request, encode_reply};
use model_discovery::WalkFault;
use plant_book::{Port, Unit};
use std::process::Abort;
use std::test::Fail;

/// An inverter of the site file with a floor of 10 percent, at unit 1, under timers of a minute.
fn commission_of(wmax: u16, base: u16) -> Result<Commission, Fail>
    requires { base ≤ 65514 }
{
    let rating = Rating::new(wmax, 0, -1).ok().ok_or("a rating")?;
    let unit = Unit::new(rating, 100).ok().ok_or("a floor")?;
    let rules = Rules::new(1_000, 4_000, 60, 20, 500).ok().ok_or("rules")?;
    let port = Port {
        host: ArrayString::new(),
        port: 502,
        unit: 1,
        base,
    };
    Ok(Commission::new(unit, port, rules))
}

/// The register at an address of an inverter of 6 kW that holds its floor.
fn register(address: u16) -> u16 {
    match address {
        40000 => 0x5375,
        40001 => 0x6E53,
        40002 | 40279 | 40310 | 40313 => 1,
        40003 => 66,
        40070 => 701,
        40071 => 153,
        40225 => 702,
        40226 => 50,
        40251 => 6000,
        40277 => 703,
        40278 => 17,
        40296 => 704,
        40297 => 65,
        40311 | 40312 => 100,
        40315 => 60,
        40317 => 58,
        40350 | 40363 => 0xFFFF,
        _ => 0,
    }
}

/// What such an inverter replies, where these registers have other values.
fn replied(rt: &impl Abort, request: &Request, changes: &[(u16, u16)]) -> Pdu {
    let reply = match request {
        Request::ReadRegs { start, count } => {
            let mut values = [0; 125];
            for (k, value) in values.iter_mut().enumerate() {
                let address = start.wrapping_add(k as u16);
                let change = changes.iter().find(|change| change.0 == address);
                *value = change.map_or(register(address), |change| change.1);
            }
            let count = usize::from(*count);
            assert!(rt; 1 <= count && count <= 125);
            Reply::Regs(Regs::from_slice(&values[..count]))
        }
        Request::WriteRegs { start, values } => {
            let count = values.len() as u16;
            assert!(rt; 1 <= count && count <= 123);
            Reply::Wrote {
                start: *start,
                count,
            }
        }
    };
    encode_reply(&reply)
}

/// Goes on for so many requests, or until nothing is asked. Gives the last answer.
fn go_on(
    rt: &impl Abort,
    commission: &mut Commission,
    requests: u16,
    changes: &[(u16, u16)],
) -> Result<Took, CommissionFault> {
    let mut last = Ok(Took::Skipped);
    for _ in 0..requests {
        let Some(frame) = commission.next() else {
            return last;
        };
        let Some(request) = decode_request(frame.pdu.as_slice()) else {
            return last;
        };
        let reply = Frame {
            pdu: replied(rt, &request, changes),
            ..frame
        };
        last = commission.took(&reply);
    }
    last
}

/// The reads of a commissioning: the number of each, its start and its count of registers.
const READS: [(u16, u16, u16); 9] = [
    (1, 40000, 2),
    (2, 40002, 2),
    (3, 40070, 2),
    (4, 40225, 2),
    (5, 40277, 2),
    (6, 40296, 2),
    (7, 40363, 2),
    (8, 40225, 46),
    (9, 40296, 55),
];

fn asked(commission: &Commission) -> Result<(u16, u8, Request), Fail> {
    let frame = commission.next().ok_or("nothing is asked")?;
    let request = decode_request(frame.pdu.as_slice()).ok_or("no request")?;
    Ok((frame.transaction, frame.unit, request))
}

#[test]
fn eleven_requests_commission_an_inverter(rt: HostRuntime) -> Result<(), Fail> {
    let mut commission = commission_of(6000, 40296)?;
    for (number, start, count) in READS {
        assert_eq!(rt; commission.found(), None);
        let read = Request::ReadRegs { start, count };
        assert_eq!(rt; asked(&commission)?, (number, 1, read));
        assert_eq!(rt; go_on(&rt, &mut commission, 1, &[]), Ok(Took::Taken));
    }
    let found = Record702 {
        base: 40296,
        wmax: 6000,
        wsf: 0,
        psf: -1,
    };
    assert_eq!(rt; commission.found(), Some(found));
    let write = Request::WriteRegs {
        start: 40310,
        values: Regs::from_slice(&[0x0001, 0x0064, 0x0064, 0x0001, 0x0000, 0x003C]),
    };
    assert_eq!(rt; asked(&commission)?, (10, 1, write));
    assert_eq!(rt; go_on(&rt, &mut commission, 1, &[]), Ok(Took::Taken));
    let read_back = Request::ReadRegs {
        start: 40310,
        count: 8,
    };
    assert_eq!(rt; asked(&commission)?, (11, 1, read_back));
    assert_eq!(rt; go_on(&rt, &mut commission, 1, &[]), Ok(Took::Taken));
    assert_eq!(rt; commission.next(), None);
    assert_eq!(rt; commission.found(), Some(found));
    Ok(())
}

/// How a commissioning ends whose device has these registers: with how many requests, and the last answer.
fn ended(
    rt: &impl Abort,
    mut commission: Commission,
    changes: &[(u16, u16)],
) -> (u16, Result<Took, CommissionFault>) {
    let mut last = Ok(Took::Skipped);
    for requests in 0..200 {
        if commission.next().is_none() {
            return (requests, last);
        }
        last = go_on(rt, &mut commission, 1, changes);
    }
    (200, last)
}

fn unfit(point: Point, wanted: i64, found: i64) -> CommissionFault {
    CommissionFault::Unfit {
        point,
        wanted,
        found,
    }
}

#[test]
fn an_inverter_that_is_not_as_the_site_file_has_it(rt: HostRuntime) -> Result<(), Fail> {
    let of_5_kw = commission_of(5000, 40296)?;
    assert_eq!(rt;
        ended(&rt, of_5_kw, &[]),
        (9, Err(unfit(Point::WMax, 5000, 6000)))
    );
    let elsewhere = commission_of(5000, 40200)?;
    assert_eq!(rt;
        ended(&rt, elsewhere, &[]),
        (9, Err(unfit(Point::Base, 40200, 40296)))
    );

    let short = CommissionFault::Walk(WalkFault::TooShort {
        id: 704,
        length: 52,
    });
    let cases: [(&[(u16, u16)], u16, CommissionFault); 9] = [
        (&[(40297, 52)], 6, short),
        (&[(40000, 0)], 3, CommissionFault::Walk(WalkFault::NoMark)),
        (
            &[(40251, 6001), (40270, 1)],
            9,
            unfit(Point::WMax, 6000, 6001),
        ),
        (&[(40270, 0xFFFE), (40350, 0)], 9, unfit(Point::WSf, 0, -2)),
        (&[(40350, 0)], 9, unfit(Point::PctSf, -1, 0)),
        (&[(40310, 0), (40312, 101)], 11, unfit(Point::Ena, 1, 0)),
        (
            &[(40311, 99), (40312, 101)],
            11,
            unfit(Point::PctRvrt, 100, 101),
        ),
        (
            &[(40311, 99), (40314, 1)],
            11,
            unfit(Point::RvrtTms, 60, 65_596),
        ),
        (&[(40311, 99)], 11, unfit(Point::Pct, 100, 99)),
    ];
    for (changes, requests, fault) in cases {
        let commission = commission_of(6000, 40296)?;
        assert_eq!(rt; ended(&rt, commission, changes), (requests, Err(fault)));
    }
    Ok(())
}

/// A frame with this PDU.
fn frame_of(transaction: u16, unit: u8, pdu: &[u8]) -> Frame
    requires { length pdu.now ≤ 253 }
{
    Frame {
        transaction,
        unit,
        pdu: Pdu::from_slice(pdu),
    }
}

/// What the request after `requests` others is answered, if this PDU comes to it.
fn answered(
    rt: &impl Abort,
    requests: u16,
    pdu: &[u8],
) -> Result<Result<Took, CommissionFault>, Fail>
    requires { length pdu.now ≤ 253 }
{
    let mut commission = commission_of(6000, 40296)?;
    assert!(rt; go_on(rt, &mut commission, requests, &[]).is_ok());
    let asked = commission.next().ok_or("nothing is asked")?;
    Ok(commission.took(&frame_of(asked.transaction, 1, pdu)))
}

#[test]
fn replies_that_were_not_asked_for(rt: HostRuntime) -> Result<(), Fail> {
    let wrong = Err(CommissionFault::WrongReply);
    let cases: [(u16, &[u8], Result<Took, CommissionFault>); 14] = [
        // A mark, the 702, the write and the read-back are each answered by an exception of both functions.
        (0, &[0x83, 2], Ok(Took::Taken)),
        (0, &[0x90, 2], wrong),
        (7, &[0x83, 2], Err(CommissionFault::Exception(2))),
        (7, &[0x90, 2], wrong),
        (9, &[0x90, 3], Err(CommissionFault::Exception(3))),
        (9, &[0x83, 3], wrong),
        (10, &[0x83, 4], Err(CommissionFault::Exception(4))),
        (10, &[0x90, 4], wrong),
        // A header, refused; other counts of registers.
        (
            1,
            &[0x83, 11],
            Err(CommissionFault::Walk(WalkFault::Exception(11))),
        ),
        (1, &[0x03, 2, 0, 1], wrong),
        (1, &[0x03, 6, 0, 1, 0, 2, 0, 3], wrong),
        // Other registers were written.
        (9, &[0x10, 0x9D, 0x76, 0, 5], wrong),
        (9, &[0x10, 0x9D, 0x75, 0, 6], wrong),
        (9, &[0x10, 0x9D, 0x76, 0, 6], Ok(Took::Taken)),
    ];
    for (requests, pdu, answer) in cases {
        assert!(rt; pdu.len() <= 253);
        assert_eq!(rt; answered(&rt, requests, pdu)?, answer, "after {requests}");
    }
    Ok(())
}

#[test]
fn seven_frames_of_other_numbers_are_skipped(rt: HostRuntime) -> Result<(), Fail> {
    let mark = [0x03, 4, 0x53, 0x75, 0x6E, 0x53];
    let mut commission = commission_of(6000, 40296)?;
    for requests in 0..2 {
        assert_eq!(rt; go_on(&rt, &mut commission, requests, &[]).is_ok(), true);
        for _ in 0..7 {
            assert!(rt; commission.next().is_some());
            assert_eq!(rt; commission.took(&frame_of(9, 2, &mark)), Ok(Took::Skipped));
        }
        assert_eq!(rt; asked(&commission)?.0, requests + 1);
    }
    assert!(rt; commission.next().is_some());
    let eighth = commission.took(&frame_of(9, 1, &mark));
    assert_eq!(rt; eighth, Err(CommissionFault::WrongReply));
    assert_eq!(rt; commission.next(), None);

    let mut commission = commission_of(6000, 40296)?;
    assert!(rt; commission.next().is_some());
    let of_another_unit = commission.took(&frame_of(1, 2, &mark));
    assert_eq!(rt; of_another_unit, Err(CommissionFault::WrongReply));
    Ok(())
}
