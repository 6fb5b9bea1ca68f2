//! The frames of requests.
ghost use Rattle.std.specs.Prelude.{◌≡◌, ◌+◌, ◌≤◌, ◌<◌, length};
ghost use Rattle.modbus_pdu.specs.Grammar.{IsReadCount, IsRequest};
ghost use Rattle.modbus_pdu.specs.declared.pdu.Request.TheVariants as request;
ghost use Rattle.der_models.specs.Limit.{limit_registers};
ghost use Rattle.readback.specs.Frames.{read_pdu, read_back_pdu, limit_address, limit_pdu, write_frame, read_frame};

use der_models::limit_block;
use der_models::offsets::M704_W_MAX_LIM_PCT_ENA;
use limiter_num::Rules;
use mbap_frames::Frame;
use modbus_pdu::{Regs, Request, encode_request};
use plant_book::{Port, Read, Unit, Write};

/// How many registers the limit has, from WMaxLimPctEna to WMaxLimPctRvrtRem.
const LIMIT_REGISTERS: u16 = 8;

/// The frame of a granted write: Write Multiple Registers, function 16, of the six registers from WMaxLimPctEna on
/// (Modbus Application Protocol V1.1b3, section 6.12; SunSpec DER model 704).
pub fn write_request(write: &Write, unit: &Unit, port: &Port, rules: &Rules) -> Frame
    requires { port.now.base ≤ 65514 }
    ensures frame { result ≡ write_frame write.now unit.now port.now rules.now }
    ensures spelled { IsRequest result.pdu
        (request.WriteRegs (limit_address port.now) (limit_registers write.now.raw unit.now.floor rules.now.timer)) }
    ensures begins { 0 < length result.pdu }
{
    limit_request(write.number, write.raw, unit, port, rules)
}

/// The frame of a read-back: Read Holding Registers, function 03, of the eight registers from WMaxLimPctEna on
/// (Modbus Application Protocol V1.1b3, section 6.3; SunSpec DER model 704).
pub fn read_request(read: &Read, port: &Port) -> Frame
    requires { port.now.base ≤ 65514 }
    ensures frame { result ≡ read_frame read.now port.now }
    ensures spelled { IsRequest result.pdu (request.ReadRegs (limit_address port.now) 8) }
    ensures begins { 0 < length result.pdu }
{
    read_back_request(read.number, port)
}

/// The frame, of this transaction number, that sets a raw limit with the unit's floor and the rules' timer.
#[tactic(auto, unfolding(crate::specs::Frames::write_pdu))]
pub fn limit_request(number: u16, raw: u16, unit: &Unit, port: &Port, rules: &Rules) -> Frame
    requires { port.now.base ≤ 65514 }
    ensures frame { result
        ≡ record { transaction = number; unit = port.now.unit; pdu = limit_pdu raw unit.now port.now rules.now } }
    ensures spelled { IsRequest result.pdu
        (request.WriteRegs (limit_address port.now) (limit_registers raw unit.now.floor rules.now.timer)) }
    ensures begins { 0 < length result.pdu }
{
    let request = Request::WriteRegs {
        start: limit_start(port),
        values: Regs::from_slice(&limit_block(raw, unit.floor, rules.timer)),
    };
    Frame {
        transaction: number,
        unit: port.unit,
        pdu: encode_request(&request),
    }
}

/// The frame, of this transaction number, that reads the limit back.
pub fn read_back_request(number: u16, port: &Port) -> Frame
    requires { port.now.base ≤ 65514 }
    ensures frame { result ≡ record { transaction = number; unit = port.now.unit; pdu = read_back_pdu port.now } }
    ensures spelled { IsRequest result.pdu (request.ReadRegs (limit_address port.now) 8) }
    ensures begins { 0 < length result.pdu }
{
    registers_request(number, port.unit, limit_start(port), LIMIT_REGISTERS)
}

/// The frame, of this transaction number, that asks a unit for `count` holding registers from `start` on, function 03.
#[tactic(auto, unfolding(crate::specs::Frames::read_pdu))]
pub fn registers_request(number: u16, unit: u8, start: u16, count: u16) -> Frame
    requires { IsReadCount count }
    ensures frame { result ≡ record { transaction = number; unit = unit; pdu = read_pdu start count } }
    ensures spelled { IsRequest result.pdu (request.ReadRegs start count) }
    ensures begins { 0 < length result.pdu }
{
    Frame {
        transaction: number,
        unit,
        pdu: encode_request(&Request::ReadRegs { start, count }),
    }
}

/// The address of WMaxLimPctEna.
fn limit_start(port: &Port) -> u16
    requires { port.now.base ≤ 65514 }
    ensures { result ≡ limit_address port.now }
{
    port.base + M704_W_MAX_LIM_PCT_ENA as u16
}
