use modbus_pdu::*;

// A write of six registers from 40214 on.
const WRITE: [u8; 18] = [
    0x10, 0x9D, 0x16, 0x00, 0x06, 0x0C, 0x00, 0x01, 0x03, 0xE8, 0x00, 0x64, 0x00, 0x01, 0x00, 0x00,
    0x00, 0x3C,
];

#[test]
fn a_read_asks_for_1_to_125_registers(rt: HostRuntime) {
    let most = Request::ReadRegs {
        start: 0,
        count: 125,
    };
    assert_eq!(rt;
        encode_request(&most).as_slice(),
        [0x03, 0, 0, 0, 0x7D].as_slice()
    );
    assert_eq!(rt; decode_request(&[0x03, 0, 0, 0, 0x7D]), Some(most));
    for (count, is_read) in [(0, false), (1, true), (125, true), (126, false)] {
        assert_eq!(rt;
            decode_request(&[0x03, 0, 0, 0, count]).is_some(),
            is_read,
            "at {count}"
        );
    }
    assert_eq!(rt; decode_request(&[0x03, 0, 0, 0, 0x7D, 0]), None);
}

#[test]
fn a_write_is_read_whole_or_not_at_all(rt: HostRuntime) {
    let write = Request::WriteRegs {
        start: 40214,
        values: Regs::from_slice(&[1, 1000, 100, 1, 0, 60]),
    };
    assert_eq!(rt; encode_request(&write).as_slice(), WRITE.as_slice());
    for end in 0..WRITE.len() {
        assert_eq!(rt; decode_request(&WRITE[..end]), None, "cut at {end}");
    }
    let other = Request::WriteRegs {
        start: 40214,
        values: Regs::from_slice(&[1, 1000, 100, 1, 0, 61]),
    };
    assert_ne!(rt; write, other);
    assert_eq!(rt; decode_request(&WRITE), Some(write));
}

#[test]
fn replies_and_their_bytes(rt: HostRuntime) {
    let wrote = Reply::Wrote {
        start: 40214,
        count: 6,
    };
    assert_eq!(rt;
        encode_reply(&wrote).as_slice(),
        [0x10, 0x9D, 0x16, 0x00, 0x06].as_slice()
    );
    assert_eq!(rt; decode_reply(&[0x10, 0x9D, 0x16, 0x00, 0x06]), Some(wrote));
    assert_eq!(rt; decode_reply(&[0x10, 0x9D, 0x16, 0x00, 0x7C]), None);

    let mark = Reply::Regs(Regs::from_slice(&[0x5375, 0x6E53]));
    assert_eq!(rt;
        encode_reply(&mark).as_slice(),
        [0x03, 4, 0x53, 0x75, 0x6E, 0x53].as_slice()
    );
    assert_eq!(rt;
        decode_reply(&[0x03, 4, 0x53, 0x75, 0x6E, 0x53]),
        Some(mark)
    );
    assert_eq!(rt; decode_reply(&[0x03, 5, 0x53, 0x75, 0x6E, 0x53]), None);
    assert_eq!(rt; decode_reply(&[0x03, 0]), None);

    for (bytes, function, code) in [([0x90, 3], 16, 3), ([0x83, 255], 3, 255)] {
        let exception = Reply::Exception { function, code };
        assert_eq!(rt; decode_reply(&bytes), Some(exception), "at {code}");
    }
    assert_eq!(rt; decode_reply(&[0x84, 1]), None);
    let refused = Reply::Exception {
        function: 16,
        code: 2,
    };
    assert_ne!(rt; decode_reply(&[0x90, 3]), Some(refused));
}
