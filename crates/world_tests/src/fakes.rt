use std::alloc::{AllocError, Global};
use std::process::Abort;
use std::test::Fail;
use world_traits::*;

fn sent<T: Send>(_value: &T) {}

fn shared<T: Sync>(_value: &T) {}

/// What a read into two bytes comes to, and what stands in them then.
fn read<S: Source>(source: &mut S) -> (Result<usize, ReadFailed>, [u8; 2]) {
    let mut into = [0; 2];
    (source.read(&mut into), into)
}

#[test]
fn a_source_gives_its_bytes_and_fails_where_it_is_told(rt: HostRuntime) -> Result<(), Fail> {
    let bytes = vec![in rt.alloc(); 1, 2, 3]?;
    let mut source = BytesSource::new(bytes, vec![in rt.alloc(); 1, 3]?);
    sent(&source);
    let rows = [
        (Ok(2), [1, 2]),
        (Err(ReadFailed), [0, 0]),
        (Ok(1), [3, 0]),
        (Err(ReadFailed), [0, 0]),
        (Ok(0), [0, 0]),
    ];
    for row in rows {
        assert!(rt; read(&mut source) == row);
    }
    Ok(())
}

fn write<O: Sink>(sink: &mut O, bytes: &[u8]) -> Result<usize, WriteFailed> {
    sink.write(bytes)
}

#[test]
fn a_sink_keeps_its_bytes_and_fails_where_it_is_told(rt: HostRuntime) -> Result<(), Fail> {
    let mut sink = BytesSink::new(rt.alloc(), vec![in rt.alloc(); 1]?);
    sent(&sink);
    let rows = [([1, 2], Ok(2)), ([3, 3], Err(WriteFailed)), ([4, 5], Ok(2))];
    for (bytes, row) in rows {
        assert!(rt; write(&mut sink, &bytes) == row);
    }
    assert_eq!(rt; sink.taken(), [1, 2, 4, 5].as_slice());
    assert!(rt; sink.starved() == 0);
    Ok(())
}

/// A dialer with two links. The first takes three bytes, and the second fails at its first receive.
fn two_links(alloc: Global, failing: Vec<u32>) -> Result<PlayDialer, AllocError> {
    let piece = vec![in alloc; 7, 8, 9]?;
    let first = PlayLink {
        takes: 3,
        moves: vec![in alloc; Move::Bytes(piece), Move::Quiet, Move::Closed]?,
    };
    let second = PlayLink {
        takes: 9,
        moves: vec![in alloc; Move::Fail]?,
    };
    Ok(PlayDialer::new(alloc, vec![in alloc; first, second]?, failing))
}

/// A call of a dialer with what it comes to.
#[derive(Clone, Copy)]
enum Step {
    Dial(Result<(), DialFailed>),
    Send([u8; 2], Result<(), SendFailed>),
    Receive(Result<Received, RecvFailed>, [u8; 2]),
    HangUp,
}

fn take<N: Dialer>(rt: &impl Abort, dialer: &mut N, step: Step) {
    match step {
        Step::Dial(made) => assert!(rt; dialer.dial("plant", 502, 1_000) == made),
        Step::Send(bytes, sent) => assert!(rt; send_whole(dialer, &bytes) == sent),
        Step::Receive(got, bytes) => {
            let mut into = [0; 2];
            assert!(rt; dialer.recv(&mut into) == got && into == bytes);
        }
        Step::HangUp => dialer.hang_up(),
    }
}

#[test]
fn a_dialer_plays_its_links_and_tells_their_record(rt: HostRuntime) -> Result<(), Fail> {
    let steps = [
        Step::Dial(Err(DialFailed)),
        Step::Dial(Ok(())),
        Step::Receive(Ok(Received::Bytes(2)), [7, 8]),
        Step::Send([1, 2], Ok(())),
        Step::Receive(Ok(Received::Bytes(1)), [9, 0]),
        Step::Send([3, 4], Err(SendFailed)),
        Step::Receive(Ok(Received::Quiet), [0, 0]),
        Step::Receive(Ok(Received::Closed), [0, 0]),
        Step::Receive(Ok(Received::Quiet), [0, 0]),
        Step::HangUp,
        Step::Send([5, 5], Err(SendFailed)),
        Step::Dial(Ok(())),
        Step::Send([6, 6], Ok(())),
        Step::Receive(Err(RecvFailed), [0, 0]),
        Step::Send([6, 6], Err(SendFailed)),
        Step::Dial(Err(DialFailed)),
    ];
    let mut dialer = two_links(rt.alloc(), vec![in rt.alloc(); 0]?)?;
    sent(&dialer);
    for step in steps {
        take(&rt, &mut dialer, step);
    }
    assert!(rt; dialer.starved() == 0 && dialer.log().count() == 2);
    let first = dialer.log().link(0).ok_or("the first link")?;
    assert!(rt; first.host() == "plant" && first.port() == 502 && first.answers() == 5);
    assert_eq!(rt; first.sent(), [1, 2, 3].as_slice());
    Ok(())
}

/// Whether a dial, a send, a receive and a send work.
fn four_calls<N: Dialer>(dialer: &mut N) -> [bool; 4] {
    let mut into = [0; 2];
    [
        dialer.dial("plant", 502, 1_000).is_ok(),
        dialer.send(&[1]).is_ok(),
        dialer.recv(&mut into).is_ok(),
        dialer.send(&[2]).is_ok(),
    ]
}

#[test]
fn a_dialer_fails_where_it_is_told(rt: HostRuntime) -> Result<(), Fail> {
    let rows = [
        (0, [false, false, false, false]),
        (1, [true, false, true, true]),
        (2, [true, true, false, false]),
        (3, [true, true, true, false]),
    ];
    for (number, row) in rows {
        let mut dialer = two_links(rt.alloc(), vec![in rt.alloc(); number]?)?;
        assert_eq!(rt; four_calls(&mut dialer), row);
    }
    Ok(())
}

#[test]
fn a_watch_keeps_what_it_read_of_a_clock_that_goes_on(rt: HostRuntime) {
    let clock = StepClock::new(0, 1);
    shared(&clock);
    let mut watch = Watch::new(&clock);
    let first = watch.now();
    watch.rest(10);
    let second = watch.now();
    assert!(rt; first == 1 && second == 12 && clock.now() == 13);
    assert!(rt; watch.readings() == [1, 12].as_slice());

    let late = StepClock::new(999_999_999_999_998, 1);
    for reading in [
        999_999_999_999_999,
        1_000_000_000_000_000,
        1_000_000_000_000_000,
    ] {
        assert!(rt; late.now() == reading);
        late.rest(1);
    }
}
