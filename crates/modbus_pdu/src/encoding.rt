//! From requests and replies to bytes.
ghost use Rattle.std.specs.Prelude.{◌≡◌, ◌+◌, ◌*◌, ◌≤◌, ◌<◌, ◌++◌, ◌∷◌, length};
ghost use Rattle.std.specs.List.{AllByRecursion};
ghost use Rattle.modbus_pdu.specs.Grammar.{IsWord, word, words, pdu_limit};
ghost use Rattle.modbus_pdu.specs.Grammar.{HasRequestForm, HasReplyForm, IsRequest, IsReply};

use crate::pdu::{EXCEPTION_BIT, Pdu, READ_REGISTERS, Regs, Reply, Request, WRITE_REGISTERS};

/// The bytes of a request.
pub fn encode_request(request: &Request) -> Pdu
    requires { HasRequestForm request.now }
    ensures spelled { IsRequest result request.now }
    ensures begins { 0 < length result }
{
    let mut pdu = Pdu::new();
    match request {
        Request::ReadRegs { start, count } => {
            pdu.push(READ_REGISTERS);
            push_word(&mut pdu, *start);
            push_word(&mut pdu, *count);
        }
        Request::WriteRegs { start, values } => {
            pdu.push(WRITE_REGISTERS);
            push_word(&mut pdu, *start);
            push_word(&mut pdu, values.len() as u16);
            push_registers(&mut pdu, values);
        }
    }
    pdu
}

/// The bytes of a reply.
pub fn encode_reply(reply: &Reply) -> Pdu
    requires { HasReplyForm reply.now }
    ensures spelled { IsReply result reply.now }
    ensures begins { 0 < length result }
{
    let mut pdu = Pdu::new();
    match reply {
        Reply::Regs(values) => {
            pdu.push(READ_REGISTERS);
            push_registers(&mut pdu, values);
        }
        Reply::Wrote { start, count } => {
            pdu.push(WRITE_REGISTERS);
            push_word(&mut pdu, *start);
            push_word(&mut pdu, *count);
        }
        Reply::Exception { function, code } => {
            pdu.push(*function + EXCEPTION_BIT);
            pdu.push(*code);
        }
    }
    pdu
}

// Appends a field of two bytes, the high one first.
fn push_word(pdu: &mut Pdu, field: u16)
    requires { length pdu.old + 2 ≤ pdu_limit }
    ensures { pdu.new ≡ pdu.old ++ word field }
{
    pdu.extend_from_slice(&field.to_be_bytes());
}

// Appends the byte count and the registers.
fn push_registers(pdu: &mut Pdu, values: &Regs)
    requires { length pdu.old + (2 * length values.now + 1) ≤ pdu_limit }
    ensures spelled { pdu.new ≡ pdu.old ++ (2 * length values.now) ∷ words values.now }
    ensures fields { AllByRecursion IsWord values.now }
{
    pdu.push(2 * values.len() as u8);
    for value in values.as_slice() {
        push_word(pdu, *value);
    }
}
