//! The protocol data units of Modbus (Modbus Application Protocol V1.1b3) that the controller speaks: reads
//! and writes of holding registers, and their replies. What `decode_request` and `decode_reply` take is the
//! grammar of `specs/Grammar.antt`, and what `encode_request` and `encode_reply` write is in it.
#![tactic(auto)]

mod decoding;
mod encoding;
mod laws;
mod pdu;

pub use decoding::{decode_reply, decode_request};
pub use encoding::{encode_reply, encode_request};
pub use laws::{one_spelling_a_reply, one_spelling_a_request};
pub use pdu::{
    EXCEPTION_BIT, MAX_PDU, MAX_READ, MAX_REGISTERS, MAX_WRITE, Pdu, READ_REGISTERS, Regs, Reply,
    Request, WRITE_REGISTERS,
};
