use arrayvec::ArrayString;
use scale_points::*;

#[test]
fn each_kind_at_and_beside_its_absent_value(rt: HostRuntime) {
    let cases = [
        (0xFFFF, None, Some(-1), Some(-1)),
        (0xFFFE, Some(0xFFFE), Some(-2), Some(-2)),
        (0x8000, Some(0x8000), None, None),
        (0x8001, Some(0x8001), Some(-32767), None),
        (0x7FFF, Some(0x7FFF), Some(32767), None),
        (0xFFF6, Some(0xFFF6), Some(-10), Some(-10)),
        (0xFFF5, Some(0xFFF5), Some(-11), None),
        (10, Some(10), Some(10), Some(10)),
        (11, Some(11), Some(11), None),
    ];
    for (word, unsigned, signed, factor) in cases {
        let regs = [7, word];
        assert_eq!(rt; uint16(&regs, 1), unsigned, "uint16 of {word}");
        assert_eq!(rt; enum16(&regs, 1), unsigned, "enum16 of {word}");
        assert_eq!(rt; int16(&regs, 1), signed, "int16 of {word}");
        assert_eq!(rt; sunssf(&regs, 1), factor, "sunssf of {word}");
    }
    assert_eq!(rt; uint16(&[7], 1), None, "past the end");
}

#[test]
fn two_registers_high_first(rt: HostRuntime) {
    assert_eq!(rt; double_word(1, 2), 0x1_0002);
    assert_eq!(rt; uint32(&[0, 1, 2], 1), Some(0x1_0002));
    assert_eq!(rt; uint32(&[0xFFFF, 0xFFFE], 0), Some(0xFFFF_FFFE));
    assert_eq!(rt; uint32(&[0xFFFF, 0xFFFF], 0), None);
    assert_eq!(rt;
        uint32(&[0, 1], 1),
        None,
        "its low register is past the end"
    );
    assert_eq!(rt; uint32(&[0, 1], usize::MAX), None);
}

#[test]
fn a_text_ends_at_its_zero_byte(rt: HostRuntime) {
    let shows = |regs: &[u16], at, count, wanted: &str| {
        text(regs, at, count).is_some_and(|text| text.as_str() == wanted)
    };
    assert!(rt; shows(&[0x5375, 0x6E53], 0, 2, "SunS"));
    assert!(rt;
        shows(&[0, 0x4100, 0xFFFF], 1, 2, "A"),
        "what is behind the zero byte is not read"
    );
    let longest: Option<ArrayString<64>> = text(&[0x4141; 33], 1, 32);
    assert!(rt; longest.is_some_and(|text| text.len() == 64));
    assert!(rt; text(&[0x4141; 33], 0, 33).is_none(), "33 registers");
    assert!(rt; text(&[0x4180], 0, 1).is_none(), "a byte of 128");
    assert!(rt; text(&[0x4100], 0, 2).is_none(), "past the end");
}
