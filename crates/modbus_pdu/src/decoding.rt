//! From bytes to requests and replies.
ghost use Rattle.std.specs.Prelude.{◌≡◌, ℕ, List, ◌∷◌, ◌++◌, ◌+◌, ◌*◌, ◌%◌, ◌<◌, ◌≤◌, length};
ghost use Rattle.std.specs.Prelude.{IfSome, MatchOption, Some};
ghost use Rattle.std.specs.List.{AllByRecursion};
ghost use Rattle.modbus_pdu.specs.Grammar.{word, words, IsWord, IsRequest, IsReply, read_limit};
ghost use Rattle.modbus_pdu.specs.declared.pdu.Request.{Request};
ghost use Rattle.modbus_pdu.specs.declared.pdu.Reply.{Reply};

use crate::pdu::{
    EXCEPTION_BIT, MAX_READ, MAX_REGISTERS, MAX_WRITE, READ_REGISTERS, Regs, Reply, Request,
    WRITE_REGISTERS,
};

const READ_EXCEPTION: u8 = READ_REGISTERS + EXCEPTION_BIT;

const WRITE_EXCEPTION: u8 = WRITE_REGISTERS + EXCEPTION_BIT;

/// The request that these bytes spell, all of them; `None` for any other bytes.
pub fn decode_request(bytes: &[u8]) -> Option<Request>
    ensures found { IfSome result (IsRequest bytes.now) }
    ensures only { (request : Request) → IsRequest bytes.now request → result ≡ Some request }
{
    let (function, start, count, rest) = header_of(bytes)?;
    match function {
        READ_REGISTERS if (1..=MAX_READ).contains(&count) && rest.is_empty() => {
            Some(Request::ReadRegs { start, count })
        }
        WRITE_REGISTERS if (1..=MAX_WRITE).contains(&count) => {
            let values = counted_registers(rest)?;
            if values.len() != usize::from(count) {
                return None;
            }
            Some(Request::WriteRegs { start, values })
        }
        _ => None,
    }
}

/// The reply that these bytes spell, all of them; `None` for any other bytes.
pub fn decode_reply(bytes: &[u8]) -> Option<Reply>
    ensures found { IfSome result (IsReply bytes.now) }
    ensures only { (reply : Reply) → IsReply bytes.now reply → result ≡ Some reply }
{
    match bytes {
        [READ_REGISTERS, counted @ ..] => {
            let values = counted_registers(counted)?;
            if values.is_empty() {
                return None;
            }
            Some(Reply::Regs(values))
        }
        [WRITE_REGISTERS, ..] => {
            let (_, start, count, rest) = header_of(bytes)?;
            if (1..=MAX_WRITE).contains(&count) && rest.is_empty() {
                Some(Reply::Wrote { start, count })
            } else {
                None
            }
        }
        [READ_EXCEPTION, code] => Some(Reply::Exception {
            function: READ_REGISTERS,
            code: *code,
        }),
        [WRITE_EXCEPTION, code] => Some(Reply::Exception {
            function: WRITE_REGISTERS,
            code: *code,
        }),
        _ => None,
    }
}

// The function, the starting address, the quantity of registers and what follows.
fn header_of(bytes: &[u8]) -> Option<(u8, u16, u16, &[u8])>
    ensures fields { MatchOption result (length bytes.now < 5) (λ header.
        bytes.now ≡ header.0 ∷ word header.1 ++ word header.2 ++ header.3.now) }
{
    match bytes {
        [function, a, b, c, d, rest @ ..] => Some((
            *function,
            u16::from_be_bytes([*a, *b]),
            u16::from_be_bytes([*c, *d]),
            rest,
        )),
        _ => None,
    }
}

// The registers behind their byte count, at most as many as one read may ask for.
fn counted_registers(bytes: &[u8]) -> Option<Regs>
    ensures found { IfSome result (λ values. AllByRecursion IsWord values × (length values ≤ read_limit)
        × (bytes.now ≡ (2 * length values) ∷ words values)) }
    ensures only { (values : List ℕ)
        → length values ≤ read_limit → bytes.now ≡ (2 * length values) ∷ words values
        → result ≡ Some values }
{
    let (byte_count, registers) = bytes.split_first()?;
    let len = registers.len();
    if len != usize::from(*byte_count) || len % 2 != 0 || len > 2 * MAX_REGISTERS {
        return None;
    }
    Some(registers_of(registers))
}

// The registers that lie in these bytes, two bytes each.
fn registers_of(bytes: &[u8]) -> Regs
    requires even { length bytes.now % 2 ≡ 0 }
    requires fits { length bytes.now ≤ 2 * read_limit }
    ensures spelled { words result ≡ bytes.now }
    ensures fields { AllByRecursion IsWord result }
    ensures count { 2 * length result ≡ length bytes.now }
{
    let mut registers = Regs::new();
    let mut rest = bytes;
    while let [high, low, after @ ..] = rest {
        registers.push(u16::from_be_bytes([*high, *low]));
        rest = after;
    }
    registers
}
