use der_models::*;

#[test]
fn a_block_and_its_view(rt: HostRuntime) {
    let block = limit_block(1000, 100, 60);
    assert_eq!(rt; block, [0x0001, 0x03E8, 0x0064, 0x0001, 0x0000, 0x003C]);
    assert_eq!(rt; limit_block(0, 0, 86_400), [1, 0, 0, 1, 0x0001, 0x5180]);

    let regs = [1, 1000, 100, 1, 0, 60, 0, 58];
    let view = LimitView {
        ena: 1,
        pct: 1000,
        pct_rvrt: 100,
        ena_rvrt: 1,
        tms: 60,
        rem: 58,
    };
    assert_eq!(rt; limit_view(&regs), Some(view));
    assert_ne!(rt; limit_view(&[1, 1000, 100, 1, 0, 60, 0, 57]), Some(view));
    assert_eq!(rt; limit_view(&regs[..7]), None);
}

#[test]
fn least_lengths(rt: HostRuntime) {
    let lengths = [(701, 115), (702, 44), (703, 17), (704, 53), (1, 0)];
    for (id, length) in lengths {
        assert_eq!(rt; least_length(id), length, "length of {id}");
        assert_eq!(rt; least_block(id), length + 2, "block of {id}");
    }
}

#[test]
fn views_of_the_other_models(rt: HostRuntime) {
    let mut regs = [0xAAAA; 117];
    regs[2] = 1;
    regs[4] = 3;
    regs[10] = 0xFFFB;
    regs[116] = 0xFFFF;
    let measured = Measure {
        state: Some(3),
        watts: Some(-5),
        scale: Some(-1),
    };
    assert_eq!(rt; measure(&regs), Some(measured));
    let unscaled = Measure {
        scale: None,
        ..measured
    };
    assert_ne!(rt; measure(&regs), Some(unscaled));
    assert_eq!(rt; measure(&regs[..116]), None);
    assert_eq!(rt; enter_service(&regs), Some(1));

    regs[26] = 6000;
    regs[45] = 0x8000;
    regs[54] = 0xFFFF;
    assert_eq!(rt;
        capacity(&regs[..46]),
        Some((6000, -32768)),
        "not implemented, and given so"
    );
    assert_eq!(rt; capacity(&regs[..45]), None);
    assert_eq!(rt; pct_sf(&regs[..55]), Some(-1));
    assert_eq!(rt; pct_sf(&regs[..54]), None);
}
