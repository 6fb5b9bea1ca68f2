//! What the answer to a read-back shows.
ghost use Rattle.std.specs.Prelude.{◌≡◌, ◌≤◌, length, IfSome, Some};
ghost use Rattle.readback.specs.Judging.{judgement, reply_judgement, limit_judgement};
ghost use Rattle.readback.specs.Replies as replies;

use der_models::{LimitView, limit_view};
use limiter_num::{Point, Rules};
use mbap_frames::Frame;
use modbus_pdu::{READ_REGISTERS, Reply, decode_reply};
use plant_book::{Port, Read, Unit};

/// What a frame that came to a read-back is.
#[derive(Clone, Copy, Debug, PartialEq, Eq)]
pub enum Judged {
    /// It has another transaction number, which is told.
    WrongNumber(u16),
    /// It has another unit number, which is told.
    WrongUnit(u8),
    /// The read was refused with this exception code (Modbus Application Protocol V1.1b3, section 7).
    Exception(u8),
    /// It is no reply of eight registers.
    WrongReply,
    /// A point isn't as it was written: the first of WMaxLimPctEna, WMaxLimPctRvrt, WMaxLimPctEnaRvrt and
    /// WMaxLimPctRvrtTms (in s) that isn't.
    Differs {
        point: Point,
        wanted: u32,
        found: u32,
    },
    /// The limit stands as it was written; WMaxLimPct, a raw percentage.
    Shows(u16),
}

/// Judges a frame that came to a read-back.
pub fn judge(read: &Read, unit: &Unit, port: &Port, rules: &Rules, frame: &Frame) -> Judged
    requires { port.now.base ≤ 65514 }
    ensures { result ≡ judgement read.now unit.now port.now rules.now frame.now }
{
    if frame.transaction != read.number {
        return Judged::WrongNumber(frame.transaction);
    }
    if frame.unit != port.unit {
        return Judged::WrongUnit(frame.unit);
    }
    judge_reply(reply_of(frame.pdu.as_slice()), unit, rules)
}

/// Judges a reply to a read-back, which is None where the PDU was none.
pub fn judge_reply(reply: Option<Reply>, unit: &Unit, rules: &Rules) -> Judged
    ensures { result ≡ reply_judgement unit.now.floor rules.now.timer reply }
{
    match reply {
        Some(
            Reply::Exception {
                function: READ_REGISTERS,
                code,
            },
        ) => Judged::Exception(code),
        Some(Reply::Regs(registers)) => match limit_view(registers.as_slice()) {
            Some(view) => judge_limit(&view, unit.floor, rules.timer),
            None => Judged::WrongReply,
        },
        _ => Judged::WrongReply,
    }
}

/// The reply that the bytes of a PDU are, all of them; None for any other bytes.
pub fn reply_of(pdu: &[u8]) -> Option<Reply>
    ensures { result ≡ replies.reply_of pdu.now }
{
    decode_reply(pdu)
}

#[tactic(auto, unfolding(crate::specs::Judging::limit_judgement))]
fn judge_limit(view: &LimitView, floor: u16, timer: u32) -> Judged
    ensures { result ≡ limit_judgement floor timer view.now }
{
    let differs = |point, wanted, found| Judged::Differs {
        point,
        wanted,
        found,
    };
    if view.ena != 1 {
        differs(Point::Ena, 1, view.ena.into())
    } else if view.pct_rvrt != floor {
        differs(Point::PctRvrt, floor.into(), view.pct_rvrt.into())
    } else if view.ena_rvrt != 1 {
        differs(Point::EnaRvrt, 1, view.ena_rvrt.into())
    } else if view.tms != timer {
        differs(Point::RvrtTms, timer, view.tms)
    } else {
        Judged::Shows(view.pct)
    }
}
