use mbap_frames::*;
use modbus_pdu::{Pdu, Reply, decode_reply, decode_request, encode_request};
use std::process::Abort;
use std::test::Fail;

// Three frames, one behind the other: a write of six registers, its reply, and an exception to a read.
const STREAM: [u8; 46] = [
    0x00, 0x01, 0x00, 0x00, 0x00, 0x13, 0x01, 0x10, 0x9D, 0x16, 0x00, 0x06, 0x0C, 0x00, 0x01, 0x03,
    0xE8, 0x00, 0x64, 0x00, 0x01, 0x00, 0x00, 0x00, 0x3C, 0x00, 0x01, 0x00, 0x00, 0x00, 0x06, 0x01,
    0x10, 0x9D, 0x16, 0x00, 0x06, 0x00, 0x02, 0x00, 0x00, 0x00, 0x03, 0x01, 0x83, 0x02,
];

// Where they begin, and where the last one ends.
const ENDS: [usize; 4] = [0, 25, 37, 46];

const READ: [u8; 12] = [
    0x00, 0x02, 0x00, 0x00, 0x00, 0x06, 0x01, 0x03, 0x9D, 0x16, 0x00, 0x08,
];

// Feeds a piece to its end, and compares the frames with those of the stream from the one numbered `next` on.
fn feed_whole(rt: &impl Abort, frames: &mut Frames, piece: &[u8], mut next: usize) -> usize {
    let mut rest = piece;
    for _ in 0..4 {
        let fed = frames.feed(rest);
        rest = &rest[fed.used..];
        match fed.got {
            Got::More => break,
            Got::One(frame) => {
                assert!(rt; next < 3);
                assert_eq!(rt;
                    frame_bytes(&frame).as_slice(),
                    &STREAM[ENDS[next]..ENDS[next + 1]]
                );
                next += 1;
            }
            Got::Bad(fault) => assert!(rt; false, "{fault}"),
        }
    }
    assert!(rt; rest.is_empty());
    next
}

#[test]
fn a_stream_gives_the_same_frames_however_it_is_cut(rt: HostRuntime) {
    for cut in 0..=STREAM.len() {
        let mut frames = Frames::new();
        let next = feed_whole(&rt, &mut frames, &STREAM[..cut], 0);
        assert_eq!(rt;
            feed_whole(&rt, &mut frames, &STREAM[cut..], next),
            3,
            "cut at {cut}"
        );
    }
    let mut frames = Frames::new();
    let mut next = 0;
    for byte in &STREAM {
        next = feed_whole(&rt, &mut frames, &[*byte], next);
    }
    assert_eq!(rt; next, 3);
}

#[test]
fn a_reply_comes_with_its_last_byte(rt: HostRuntime) -> Result<(), Fail> {
    let replies = &STREAM[25..];
    let mut frames = Frames::new();
    for byte in &replies[..11] {
        assert_eq!(rt;
            frames.feed(&[*byte]),
            Fed {
                used: 1,
                got: Got::More
            }
        );
    }
    let fed = frames.feed(&replies[11..]);
    assert!(rt; fed.used == 1 && matches!(&fed.got, Got::One(frame) if frame.transaction == 1));

    let mut frames = Frames::new();
    assert_eq!(rt; frames.feed(replies).used, 12);
    let fed = frames.feed(&replies[12..]);
    assert_eq!(rt; fed.used, 9);
    let Got::One(frame) = fed.got else {
        return Err("no frame".into());
    };
    assert!(rt; frame.transaction == 2 && frame.unit == 1);
    let refused = Reply::Exception {
        function: 3,
        code: 2,
    };
    assert_eq!(rt; decode_reply(frame.pdu.as_slice()), Some(refused));
    Ok(())
}

#[test]
fn requests_are_read_and_written_again(rt: HostRuntime) -> Result<(), Fail> {
    for bytes in [&STREAM[..25], READ.as_slice()] {
        let fed = Frames::new().feed(bytes);
        assert_eq!(rt; fed.used, bytes.len());
        let Got::One(frame) = fed.got else {
            return Err("no frame".into());
        };
        let request = decode_request(frame.pdu.as_slice()).ok_or("no request")?;
        let again = Frame {
            transaction: frame.transaction,
            unit: frame.unit,
            pdu: encode_request(&request),
        };
        assert_eq!(rt; frame_bytes(&again).as_slice(), bytes);
    }
    Ok(())
}

#[test]
fn a_fault_stands_for_good(rt: HostRuntime) -> Result<(), Fail> {
    let cases = [
        (
            [0, 1, 0, 1, 0, 255, 9, 9],
            FrameFault::BadProtocol(1),
            4,
            "badprotocol 1",
        ),
        (
            [0, 1, 0, 0, 0, 255, 9, 9],
            FrameFault::BadLength(255),
            6,
            "badlength 255",
        ),
        (
            [0, 1, 0, 0, 0, 1, 9, 9],
            FrameFault::BadLength(1),
            6,
            "badlength 1",
        ),
    ];
    for (bytes, fault, used, text) in cases {
        let mut frames = Frames::new();
        assert_eq!(rt;
            frames.feed(&bytes),
            Fed {
                used,
                got: Got::Bad(fault)
            }
        );
        assert_eq!(rt;
            frames.feed(&STREAM),
            Fed {
                used: 0,
                got: Got::Bad(fault)
            }
        );
        assert_eq!(rt; format!(in rt.alloc(); "{fault}")?.as_str(), text);
    }
    Ok(())
}

#[test]
fn what_differs_in_one_number_is_unequal(rt: HostRuntime) -> Result<(), Fail> {
    let frame = Frame {
        transaction: 1,
        unit: 1,
        pdu: Pdu::from_slice(&[0x83, 2]),
    };
    let other = Frame {
        transaction: 1,
        unit: 1,
        pdu: Pdu::from_slice(&[0x83, 3]),
    };
    assert_eq!(rt; frame.clone()?, frame);
    assert_ne!(rt; frame, other);
    assert_ne!(rt; FrameFault::BadLength(255), FrameFault::BadLength(1));
    let got = Got::Bad(FrameFault::BadLength(1));
    assert_ne!(rt; Got::Bad(FrameFault::BadProtocol(1)), got);
    assert_ne!(rt;
        Fed { used: 0, got },
        Frames::new().feed(&[0, 1, 0, 0, 0, 1])
    );
    Ok(())
}
