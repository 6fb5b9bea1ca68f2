//! The stages of a commissioning, and what a reply makes of each.
ghost use Rattle.std.specs.Prelude.{◌≡◌, ◌≤◌, ◌<◌, ◌^◌, MatchResult, Ok, Err, None, Some};
ghost use Rattle.std.specs.Result.{result_err};
ghost use Rattle.model_discovery.specs.WalkState.{WalkState, fault_of};
ghost use Rattle.readback.specs.Judging.{reply_judgement};
ghost use Rattle.commissioning.specs.Replies as replies;
ghost use Rattle.commissioning.specs.Keeping.{stage_of, IsUnderway, Wants};

use crate::fault::CommissionFault;
use crate::found::Record702;
use crate::target::Target;
use der_models::identifiers::{AC_CONTROLS, CAPACITY};
use der_models::offsets::{M702_W_SF, M704_W_MAX_LIM_PCT_ENA, M704_W_MAX_LIM_PCT_SF};
use der_models::{HEADER, capacity, pct_sf};
use limiter_num::{Point, Rules};
use modbus_pdu::{READ_REGISTERS, Regs, Reply, WRITE_REGISTERS};
use model_discovery::{Next, Walk};
use plant_book::{Port, Unit};
use readback::{Judged, judge_reply};

/// How many registers are read of the block of model 702: up to W_SF.
pub(crate) const CAPACITY_REGISTERS: u16 = M702_W_SF as u16 + 1;

/// How many registers are read of the block of model 704: up to WMaxLimPct_SF.
pub(crate) const CONTROLS_REGISTERS: u16 = M704_W_MAX_LIM_PCT_SF as u16 + 1;

/// How many registers the write of a limit has, those of `limit_block`.
const LIMIT_REGISTERS: u16 = 6;

const _: () = prove!(CAPACITY_REGISTERS == 46 && CONTROLS_REGISTERS == 55);

/// What is asked next.
#[derive(Clone, Copy, Debug)]
pub(crate) enum Stage {
    /// A read of the walk over the models.
    Discovering,
    /// The block of the first 702, from its start on. The first 704 stands at `base`.
    ReadingCapacity { start: u16, base: u16 },
    /// The block of the first 704. WMax and W_SF of the 702 are known.
    ReadingControls { base: u16, wmax: u16, wsf: i16 },
    /// The write of the floor.
    WritingFloor(Record702),
    /// The read-back.
    ReadingBack(Record702),
    /// Nothing: the inverter is commissioned.
    Commissioned(Record702),
    /// Nothing: it isn't, and this was found by then.
    Refused(CommissionFault, Option<Record702>),
}

/// The stage behind a reply to what is asked; None where what came is no reply to it.
pub(crate) fn stage_after(
    target: &Target,
    walk: &mut Walk,
    stage: Stage,
    reply: Option<Reply>,
) -> Stage
    requires base { target.now.port.base ≤ 65514 }
    requires wants { Wants (stage_of stage walk.old) }
    ensures { stage_of result walk.new ≡ replies.stage_after target.now (stage_of stage walk.old) reply }
{
    let Target { unit, port, rules } = target;
    match stage {
        Stage::Discovering => discover(walk, reply),
        Stage::ReadingCapacity { base, .. } => read_capacity(base, reply),
        Stage::ReadingControls { base, wmax, wsf } => {
            read_controls(unit, port, base, wmax, wsf, reply)
        }
        Stage::WritingFloor(found) => write_floor(port, found, reply),
        Stage::ReadingBack(found) => read_back(unit, rules, found, reply),
        over => over,
    }
}

/// The registers that came to a read of so many.
fn block(reply: Option<Reply>, count: u16) -> Result<Regs, CommissionFault>
    ensures { result ≡ replies.block_of count reply }
{
    match reply {
        Some(Reply::Regs(registers)) if registers.len() == usize::from(count) => Ok(registers),
        Some(
            Reply::Exception {
                function: READ_REGISTERS,
                code,
            },
        ) => Err(CommissionFault::Exception(code)),
        _ => Err(CommissionFault::WrongReply),
    }
}

/// The stage behind a reply to a read of the walk.
fn discover(walk: &mut Walk, reply: Option<Reply>) -> Stage
    requires { IsUnderway walk.old.place }
    ensures { stage_of result walk.new ≡ replies.discovered walk.old (replies.block_of 2 reply) }
{
    let told = match block(reply, HEADER) {
        Ok(registers) => walk.took(registers.as_slice()),
        Err(CommissionFault::Exception(code)) => walk.refused(code),
        Err(fault) => return Stage::Refused(fault, None),
    };
    match told {
        Ok(()) => after_answer(walk),
        Err(fault) => Stage::Refused(CommissionFault::Walk(fault), None),
    }
}

/// The stage with a walk that hasn't failed.
fn after_answer(walk: &Walk) -> Stage
    requires { fault_of walk.now.place ≡ None }
    ensures { stage_of result walk.now ≡ replies.walked walk.now }
{
    match (walk.next(), walk.find(CAPACITY), walk.find(AC_CONTROLS)) {
        (Next::Done, Some(capacity), Some(controls)) => Stage::ReadingCapacity {
            start: capacity.start,
            base: controls.start,
        },
        _ => Stage::Discovering,
    }
}

/// The stage behind a reply to the read of the 702.
fn read_capacity(base: u16, reply: Option<Reply>) -> Stage
    ensures { (walk : WalkState) → stage_of result walk ≡ replies.capacity_read base (replies.block_of 46 reply) }
{
    match block(reply, CAPACITY_REGISTERS) {
        Ok(registers) => match capacity(registers.as_slice()) {
            Some((wmax, wsf)) => Stage::ReadingControls { base, wmax, wsf },
            None => Stage::Refused(CommissionFault::WrongReply, None),
        },
        Err(fault) => Stage::Refused(fault, None),
    }
}

/// The stage behind a reply to the read of the 704.
fn read_controls(
    unit: &Unit,
    port: &Port,
    base: u16,
    wmax: u16,
    wsf: i16,
    reply: Option<Reply>,
) -> Stage
    ensures { (walk : WalkState) → stage_of result walk
        ≡ replies.controls_read unit.now port.now base wmax wsf (replies.block_of 55 reply) }
{
    match block(reply, CONTROLS_REGISTERS) {
        Ok(registers) => match pct_sf(registers.as_slice()) {
            Some(psf) => compared(
                unit,
                port,
                Record702 {
                    base,
                    wmax,
                    wsf,
                    psf,
                },
            ),
            None => Stage::Refused(CommissionFault::WrongReply, None),
        },
        Err(fault) => Stage::Refused(fault, None),
    }
}

/// The stage behind the points that were found.
fn compared(unit: &Unit, port: &Port, found: Record702) -> Stage
    ensures { (walk : WalkState) → stage_of result walk ≡ replies.compared unit.now port.now found }
{
    match misfit(unit, port, &found) {
        Some(fault) => Stage::Refused(fault, Some(found)),
        None => Stage::WritingFloor(found),
    }
}

/// The first point that isn't as the site file has it.
fn misfit(unit: &Unit, port: &Port, found: &Record702) -> Option<CommissionFault>
    ensures { result ≡ replies.misfit unit.now port.now found.now }
{
    let rating = unit.rating;
    unlike(Point::Base, port.base.into(), found.base.into())
        .or(unlike(Point::WMax, rating.wmax.into(), found.wmax.into()))
        .or(unlike(Point::WSf, rating.wsf.into(), found.wsf.into()))
        .or(unlike(Point::PctSf, rating.psf.into(), found.psf.into()))
}

/// A point that isn't as the site file has it.
fn unlike(point: Point, wanted: i64, found: i64) -> Option<CommissionFault>
    ensures { result ≡ replies.unlike point wanted found }
{
    if wanted == found {
        None
    } else {
        Some(CommissionFault::Unfit {
            point,
            wanted,
            found,
        })
    }
}

/// The stage behind a reply to the write of the floor.
fn write_floor(port: &Port, found: Record702, reply: Option<Reply>) -> Stage
    requires { port.now.base ≤ 65514 }
    ensures { (walk : WalkState) → stage_of result walk ≡ replies.floor_written port.now found reply }
{
    let address = port.base + M704_W_MAX_LIM_PCT_ENA as u16;
    match reply {
        Some(Reply::Wrote { start, count }) if start == address && count == LIMIT_REGISTERS => {
            Stage::ReadingBack(found)
        }
        Some(
            Reply::Exception {
                function: WRITE_REGISTERS,
                code,
            },
        ) => Stage::Refused(CommissionFault::Exception(code), Some(found)),
        _ => Stage::Refused(CommissionFault::WrongReply, Some(found)),
    }
}

/// The stage behind a reply to the read-back.
fn read_back(unit: &Unit, rules: &Rules, found: Record702, reply: Option<Reply>) -> Stage
    ensures { (walk : WalkState) → stage_of result walk
        ≡ replies.read_back unit.now.floor found (reply_judgement unit.now.floor rules.now.timer reply) }
{
    after_judgement(unit.floor, found, judge_reply(reply, unit, rules))
}

/// The stage behind what a read-back showed.
fn after_judgement(floor: u16, found: Record702, judged: Judged) -> Stage
    ensures { (walk : WalkState) → stage_of result walk ≡ replies.read_back floor found judged }
{
    let fault = match judged {
        Judged::Shows(raw) if raw == floor => return Stage::Commissioned(found),
        Judged::Shows(raw) => CommissionFault::Unfit {
            point: Point::Pct,
            wanted: floor.into(),
            found: raw.into(),
        },
        Judged::Differs {
            point,
            wanted,
            found,
        } => CommissionFault::Unfit {
            point,
            wanted: wanted.into(),
            found: found.into(),
        },
        Judged::Exception(code) => CommissionFault::Exception(code),
        _ => CommissionFault::WrongReply,
    };
    Stage::Refused(fault, Some(found))
}
