//! The commissioning of one inverter.
ghost use Rattle.std.specs.Prelude.{◌≡◌, ◌≢◌, ◌+◌, ◌≤◌, ◌<◌, ◌↔◌, Ok, OnErr, length, option_map, IfSome, IsSome, IsNone};
ghost use Rattle.model_discovery.specs.WalkState.{next_read};
ghost use Rattle.readback.specs.Frames.{limit_pdu};
ghost use Rattle.commissioning.specs.Asking.{wanted_pdu, request_frame};

use crate::fault::CommissionFault;
use crate::found::Record702;
use crate::steps::{CAPACITY_REGISTERS, CONTROLS_REGISTERS, Stage, stage_after};
use crate::target::Target;
use limiter_num::Rules;
use mbap_frames::Frame;
use modbus_pdu::Reply;
use model_discovery::{Next, Walk};
use plant_book::{Port, Unit};
use readback::{limit_request, read_back_request, registers_request, reply_of};
use std::marker::Model;

/// How many frames of other transaction numbers are skipped for each request.
const SKIPPED_MAX: u8 = 7;

/// What became of a frame.
#[derive(Clone, Copy, Debug, PartialEq, Eq)]
pub enum Took {
    /// It has another transaction number: the same request is asked still, and isn't sent again.
    Skipped,
    /// It is the reply to the request.
    Taken,
}

/// The commissioning of one inverter over one link. It makes no input or output itself: `next` says which request
/// is to be sent, and `took` is handed the frames that come. It takes no memory.
#[derive(Debug, Drop)]
pub struct Commission {
    target: Target,
    walk: Walk,
    stage: Stage,
    number: u16,
    skipped: u8,
}

impl Model for Commission {
    ghost use Rattle.commissioning.specs.Stage.{Standing};

    ghost Value = { Standing };

    ghost use Rattle.commissioning.specs.Keeping.{stage_of, IsSound};

    ghost view = { λ c. record {
      target = c.target;
      stage = stage_of c.stage c.walk;
      number = c.number;
      skipped = c.skipped;
    } };

    ghost invariant = { λ c. IsSound (record {
      target = c.target;
      stage = stage_of c.stage c.walk;
      number = c.number;
      skipped = c.skipped;
    }) };
}

impl Commission {
    ghost use Rattle.commissioning.specs.Stage.{IsOver, found_at};
    ghost use Rattle.commissioning.specs.Asking.{start, asked};
    ghost use Rattle.commissioning.specs.Replies.{stage_after};
    ghost use Rattle.commissioning.specs.Taking.{reply_in, taken, answer, outcome};
    ghost use Rattle.commissioning.specs.Ending.{frames_left};

    /// A commissioning of this inverter at its start, on a new link.
    pub fn new(unit: Unit, port: Port, rules: Rules) -> Commission
        requires { port.base ≤ 65514 }
        ensures { result ≡ start (record { unit = unit; port = port; rules = rules }) }
    {
        Commission {
            target: Target { unit, port, rules },
            walk: Walk::new(),
            stage: Stage::Discovering,
            number: 1,
            skipped: 0,
        }
    }

    /// The request that is asked. None after a fault and at the end.
    pub fn next(&self) -> Option<Frame>
        ensures request { result ≡ asked self.now }
        ensures none { IsNone result ↔ IsOver self.now.stage }
        ensures begins { IfSome result (λ frame. 0 < length frame.pdu) }
    {
        let (number, unit) = (self.number, self.target.port.unit);
        let request = match self.stage {
            Stage::Discovering => return walk_request(&self.walk, number, unit),
            Stage::ReadingCapacity { start, .. } => {
                registers_request(number, unit, start, CAPACITY_REGISTERS)
            }
            Stage::ReadingControls { base, .. } => {
                registers_request(number, unit, base, CONTROLS_REGISTERS)
            }
            Stage::WritingFloor(_) => { floor_request(&self.target, number) }
            Stage::ReadingBack(_) => read_back_request(number, &self.target.port),
            Stage::Commissioned(_) | Stage::Refused(_, _) => return None,
        };
        Some(request)
    }

    /// Takes a frame that came while a request was asked.
    pub fn took(&mut self, frame: &Frame) -> Result<Took, CommissionFault>
        requires { IsSome (asked self.old) }
        ensures step { self.new ≡ taken self.old frame.now }
        ensures answer { result ≡ answer self.old frame.now }

        // A frame of another transaction number is skipped, seven at most for each request.
        ensures skipped { (result ≡ Ok Took.Skipped)
            ↔ ((frame.now.transaction ≢ self.old.number) × (self.old.skipped < 7)) }

        // After a fault nothing is asked any more.
        ensures over { OnErr result (IsOver self.new.stage) }

        // Each frame leaves fewer that may come.
        ensures ends { frames_left self.new < frames_left self.old }
    {
        if frame.transaction != self.number && self.skipped < SKIPPED_MAX {
            self.skipped += 1;
            return Ok(Took::Skipped);
        }
        let reply = self.reply_in(frame);
        self.tell(reply);
        self.outcome()
    }

    /// What the two blocks showed, once both have come.
    pub fn found(&self) -> Option<Record702>
        ensures { result ≡ found_at self.now.stage }
    {
        match self.stage {
            Stage::Discovering | Stage::ReadingCapacity { .. } | Stage::ReadingControls { .. } => {
                None
            }
            Stage::WritingFloor(found) | Stage::ReadingBack(found) | Stage::Commissioned(found) => {
                Some(found)
            }
            Stage::Refused(_, found) => found,
        }
    }

    /// Goes on by a reply to the request; None where what came is no reply to it.
    fn tell(&mut self, reply: Option<Reply>)
        requires { IsSome (asked self.old) }
        ensures { self.new ≡ record {
          target = self.old.target;
          stage = stage_after self.old.target self.old.stage reply;
          number = self.old.number + 1;
          skipped = 0;
        } }
    {
        self.stage = stage_after(&self.target, &mut self.walk, self.stage, reply);
        self.number += 1;
        self.skipped = 0;
    }

    /// What is answered to the reply that led to the stage.
    fn outcome(&self) -> Result<Took, CommissionFault>
        ensures { result ≡ outcome self.now.stage }
    {
        match self.stage {
            Stage::Refused(fault, _) => Err(fault),
            _ => Ok(Took::Taken),
        }
    }

    /// The reply in a frame. None where it has another transaction or unit number, or is no reply.
    fn reply_in(&self, frame: &Frame) -> Option<Reply>
        ensures { result ≡ reply_in self.now.target self.now.number frame.now }
    {
        if frame.transaction == self.number && frame.unit == self.target.port.unit {
            reply_of(frame.pdu.as_slice())
        } else {
            None
        }
    }
}

/// The read that a walk wants, as a request of this number to a unit.
fn walk_request(walk: &Walk, number: u16, unit: u8) -> Option<Frame>
    ensures request { result
        ≡ option_map (λ pdu. record { transaction = number; unit = unit; pdu = pdu })
        (wanted_pdu (next_read walk.now.place)) }
    ensures begins { IfSome result (λ frame. 0 < length frame.pdu) }
{
    match walk.next() {
        Next::Read { start, count } => Some(registers_request(number, unit, start, count)),
        Next::Done => None,
    }
}

/// The write of the floor, as a request of this number.
fn floor_request(target: &Target, number: u16) -> Frame
    requires { target.now.port.base ≤ 65514 }
    ensures request { result ≡ request_frame target.now number
        (limit_pdu target.now.unit.floor target.now.unit target.now.port target.now.rules) }
    ensures begins { 0 < length result.pdu }
{
    limit_request(
        number,
        target.unit.floor,
        &target.unit,
        &target.port,
        &target.rules,
    )
}
