//! The lines of refusals that a device on this machine doesn't cause.
use commissioning::CommissionFault;
use exporter_commands::{Ended, LiveFault};
use limiter_num::Point;
use model_discovery::WalkFault;
use std::test::Fail;

#[test]
fn each_refusal_has_its_line(rt: HostRuntime) -> Result<(), Fail> {
    let short = WalkFault::TooShort {
        id: 704,
        length: 52,
    };
    let unfit = CommissionFault::Unfit {
        point: Point::PctRvrt,
        wanted: 100,
        found: 101,
    };
    let rows = [
        (LiveFault::Send, "refused: send"),
        (
            LiveFault::Commission(CommissionFault::Walk(short)),
            "refused: commission walk tooshort 704 52",
        ),
        (
            LiveFault::Commission(unfit),
            "refused: commission unfit pctrvrt 100 101",
        ),
        (
            LiveFault::Commission(CommissionFault::Exception(2)),
            "refused: commission exception 2",
        ),
        (
            LiveFault::Commission(CommissionFault::WrongReply),
            "refused: commission wrongreply",
        ),
    ];
    for (fault, line) in rows {
        let ended = Ended::Refused(fault);
        assert_eq!(rt; format!(in rt.alloc(); "{ended}")?.as_str(), line);
    }
    Ok(())
}
