use frame_inbox::*;
use mbap_frames::Frame;
use modbus_pdu::Pdu;
use std::alloc::{AllocError, Global};
use std::test::Fail;
use world_traits::{Dialer, Move, PlayDialer, PlayLink};

fn bytes(alloc: Global, piece: &[u8]) -> Result<Move, AllocError> {
    Ok(Move::Bytes(Vec::from_slice(alloc, piece)?))
}

/// A dialer with one link that plays these moves.
fn dialer(alloc: Global, moves: Vec<Move>) -> Result<PlayDialer, AllocError> {
    let link = PlayLink { takes: 0, moves };
    Ok(PlayDialer::new(alloc, vec![in alloc; link]?, Vec::new(alloc)))
}

fn frame(transaction: u16) -> Frame {
    Frame {
        transaction,
        unit: 1,
        pdu: Pdu::from_slice(&[0x90, 3]),
    }
}

#[test]
fn frames_come_however_they_are_cut(rt: HostRuntime) -> Result<(), Fail> {
    let alloc = rt.alloc();
    let first = bytes(alloc, &[0, 1, 0, 0, 0, 3, 1, 0x90])?;
    let last = bytes(alloc, &[3, 0, 2, 0, 0, 0, 3, 1, 0x90, 3, 0, 3, 0, 1])?;
    let mut dialer = dialer(alloc, vec![in alloc; first, last]?)?;
    assert!(rt; dialer.dial("", 502, 0).is_ok());
    let mut inbox = Inbox::new();
    assert_eq!(rt; inbox.next_frame(&mut dialer), Ok(frame(1)));
    assert_eq!(rt; inbox.next_frame(&mut dialer), Ok(frame(2)));
    let bad = NoFrame::BadFrame(mbap_frames::FrameFault::BadProtocol(1));
    assert_eq!(rt; inbox.next_frame(&mut dialer), Err(bad));
    inbox.clear();
    assert_eq!(rt; inbox.next_frame(&mut dialer), Err(NoFrame::Quiet));
    Ok(())
}
