ghost use Rattle.std.specs.Prelude.{◌≡◌, ◌==◌, find};
ghost use Rattle.std.specs.Option.{option_map_or};
ghost use Rattle.model_discovery.specs.Map.{Registers, Exception};

use model_discovery::*;
use std::test::Fail;

const MARK: (u16, u16) = (0x5375, 0x6E53);

const END: (u16, u16) = (0xFFFF, 0);

/// An address, and the two registers there.
type Answer = (u16, (u16, u16));

/// What a device answers, by address. Any other read is refused by exception 2.
#[derive(Drop)]
struct Reads<'a> {
    answers: &'a [Answer],
}

impl RegisterMap for Reads<'_> {
    ghost answers = { λ map start. option_map_or (λ answer. Registers answer.1.0 answer.1.1)
        (find (λ answer. answer.0 == start) map.answers.now) (Exception 2) };

    fn read(&self, start: u16) -> Result<[u16; 2], u8> {
        match answer_at(self.answers, start) {
            Some((_, (first, second))) => Ok([first, second]),
            None => Err(2),
        }
    }
}

fn answer_at(answers: &[Answer], start: u16) -> Option<Answer>
    ensures { result ≡ find (λ answer. answer.0 == start) answers.now }
{
    answers.iter().copied().find(|answer| answer.0 == start)
}

/// The bank of a simulated inverter.
const BANK: [Answer; 7] = [
    (40000, MARK),
    (40002, (1, 66)),
    (40070, (701, 153)),
    (40225, (702, 50)),
    (40277, (703, 17)),
    (40296, (704, 65)),
    (40363, END),
];

/// How a walk goes that is told these answers: its reads, its last answer, and the walk.
fn walked(answers: &[Answer]) -> (u32, Result<(), WalkFault>, Walk) {
    let map = Reads { answers };
    let mut walk = Walk::new();
    let mut last = Ok(());
    for reads in 0..200 {
        let Next::Read { start, .. } = walk.next() else {
            return (reads, last, walk);
        };
        last = match map.read(start) {
            Ok(regs) => walk.took(&regs),
            Err(code) => walk.refused(code),
        };
    }
    (200, last, walk)
}

#[test]
fn the_bank_takes_seven_reads(rt: HostRuntime) -> Result<(), Fail> {
    let wanted = [
        (1, 40002, 66),
        (701, 40070, 153),
        (702, 40225, 50),
        (703, 40277, 17),
        (704, 40296, 65),
    ];
    let (reads, last, walk) = walked(&BANK);
    assert_eq!(rt; (reads, last), (7, Ok(())));
    assert_eq!(rt; walk.next(), Next::Done);
    assert_eq!(rt; walk.chain().len(), 5);
    for (found, (id, start, length)) in walk.chain().iter().zip(wanted) {
        assert_eq!(rt; *found, Found { id, start, length });
    }
    assert_eq!(rt; walk.find(704).map(|found| found.start), Some(40296));
    assert_eq!(rt; walk.find(705), None);

    let whole = discover(&Reads { answers: &BANK })
        .ok()
        .ok_or("the bank has a chain")?;
    assert_eq!(rt; whole.chain(), walk.chain());
    Ok(())
}

/// A walk over these answers fails after so many reads with this fault, and `discover` answers it.
fn fails_with(answers: &[Answer], reads: u32, fault: WalkFault) -> bool {
    let (made, last, walk) = walked(answers);
    (made, last) == (reads, Err(fault))
        && walk.next() == Next::Done
        && discover(&Reads { answers }).err() == Some(fault)
}

#[test]
fn faults_of_maps(rt: HostRuntime) {
    let mut short = BANK;
    short[5] = (40296, (704, 52));
    let too_short = WalkFault::TooShort {
        id: 704,
        length: 52,
    };
    assert!(rt; fails_with(&short, 6, too_short));

    let cases: [(&[Answer], u32, WalkFault); 4] = [
        (&[(40000, (0x5375, 0x6E54))], 3, WalkFault::NoMark),
        (&[(40000, MARK), (40002, END)], 2, WalkFault::Missing(702)),
        (
            &[(0, MARK), (2, (702, 44)), (48, END)],
            5,
            WalkFault::Missing(704),
        ),
        (
            &[(40000, MARK), (40002, (1, 66))],
            3,
            WalkFault::Exception(2),
        ),
    ];
    for (answers, reads, fault) in cases {
        assert!(rt; fails_with(answers, reads, fault), "{fault}");
    }
}

#[test]
fn lengths_that_leave_the_map(rt: HostRuntime) {
    let after_15531 = [(50000, MARK), (50002, (1, 15531))];
    assert!(rt; fails_with(&after_15531, 3, WalkFault::ChainLeaves(65535)));

    // The longest model behind the mark at 0 that leaves room for a header, and longer ones.
    let cases = [
        (65530, 5, WalkFault::Exception(2)),
        (65531, 4, WalkFault::ChainLeaves(65535)),
        (65534, 4, WalkFault::ChainLeaves(65538)),
    ];
    for (length, reads, fault) in cases {
        let answers = [(0, MARK), (2, (1, length))];
        assert!(rt; fails_with(&answers, reads, fault), "{length}");
    }
    let longest = [(40000, MARK), (40002, (1, 65535))];
    assert!(rt; fails_with(&longest, 2, WalkFault::ChainLeaves(105539)));
}

#[test]
fn the_last_header_that_fits(rt: HostRuntime) {
    let mut walk = Walk::new();
    assert_eq!(rt; walk.refused(2), Ok(()));
    assert_eq!(rt;
        walk.next(),
        Next::Read {
            start: 50000,
            count: 2
        }
    );
    assert_eq!(rt; walk.took(&[MARK.0, MARK.1]), Ok(()));
    assert_eq!(rt; walk.took(&[1, 15530]), Ok(()));
    assert_eq!(rt;
        walk.next(),
        Next::Read {
            start: 65534,
            count: 2
        }
    );
}

#[test]
fn a_fault_is_answered_for_good(rt: HostRuntime) {
    let mut walk = Walk::new();
    assert_eq!(rt; walk.refused(4), Ok(()));
    assert_eq!(rt; walk.took(&[0, 0]), Ok(()));
    assert_eq!(rt; walk.refused(11), Err(WalkFault::NoMark));
    assert_eq!(rt; walk.took(&[]), Err(WalkFault::NoMark));
    assert_eq!(rt; walk.refused(1), Err(WalkFault::NoMark));
    assert_eq!(rt; walk.next(), Next::Done);
}

#[test]
fn a_chain_of_128_models_and_one_more(rt: HostRuntime) {
    let mut answers = [(40000, MARK); 132];
    answers[1] = (40002, (702, 44));
    answers[2] = (40048, (704, 900));
    // Short ones behind the first of their identifier count for nothing.
    for k in 0..126 {
        answers[3 + k] = (40950 + 2 * k as u16, (702, 0));
    }
    answers[129] = (41202, END);
    let (reads, last, walk) = walked(&answers);
    assert_eq!(rt; (reads, last), (130, Ok(())));
    assert_eq!(rt; walk.chain().len(), 128);
    assert_eq!(rt; walk.find(702).map(|found| found.start), Some(40002));

    answers[129] = (41202, (703, 0));
    let (reads, last, walk) = walked(&answers);
    assert_eq!(rt; (reads, last), (130, Err(WalkFault::TooManyModels)));
    assert_eq!(rt; walk.chain().len(), 128);
}

#[test]
fn texts_of_faults(rt: HostRuntime) -> Result<(), Fail> {
    let cases = [
        (WalkFault::NoMark, "nomark"),
        (WalkFault::ChainLeaves(65535), "chainleaves 65535"),
        (WalkFault::TooManyModels, "toomanymodels"),
        (
            WalkFault::TooShort {
                id: 704,
                length: 52,
            },
            "tooshort 704 52",
        ),
        (WalkFault::Missing(702), "missing 702"),
        (WalkFault::Exception(2), "exception 2"),
    ];
    for (fault, text) in cases {
        let shown = format!(in rt.alloc(); "{fault}")?;
        assert_eq!(rt; shown.as_str(), text);
    }
    Ok(())
}

#[test]
fn values_that_differ(rt: HostRuntime) {
    let found = Found {
        id: 702,
        start: 40002,
        length: 44,
    };
    assert_ne!(rt;
        found,
        Found {
            length: 45,
            ..found
        }
    );
    let read = Next::Read {
        start: 40000,
        count: 2,
    };
    assert_ne!(rt;
        read,
        Next::Read {
            start: 50000,
            count: 2
        }
    );
    assert_ne!(rt; read, Next::Done);
    assert_ne!(rt; WalkFault::Missing(702), WalkFault::Missing(704));
}
