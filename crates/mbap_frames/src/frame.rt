//! One frame and its bytes.
ghost use Rattle.std.specs.Prelude.{◌≡◌, ◌+◌, ◌≤◌, ◌<◌, ◌++◌, ◌∷◌, length};
ghost use Rattle.std.specs.List.{AllByRecursion};
ghost use Rattle.modbus_pdu.specs.Grammar.{IsByte, word, pdu_limit};
ghost use Rattle.mbap_frames.specs.Frame.{IsFrame, frame_spelling, frame_limit};

use fixed_list::FixedList;
use modbus_pdu::Pdu;
use std::fmt;
use std::fmt::{Display, Formatter};
use thiserror::Error;

/// The most bytes that a frame has: a header of seven and a PDU (Modbus Application Protocol V1.1b3, section 4.1).
pub const MAX_FRAME: usize = 260;

const _: () = prove!(MAX_FRAME == 260);

// The protocol number of Modbus (section 3.1.3).
const PROTOCOL: u16 = 0;

/// One message on a connection: whose request or reply it is, the unit that is meant, and the PDU.
#[derive(Debug, Clone, PartialEq, Eq, Drop)]
pub struct Frame {
    /// The transaction number, by which a reply is known as that of a request.
    pub transaction: u16,
    /// The unit number of the device behind the connection.
    pub unit: u8,
    /// The request or reply, function byte and all. A frame on a stream has at least that byte.
    pub pdu: Pdu,
}

/// The bytes of one frame.
pub type FrameBytes = FixedList<u8, MAX_FRAME>;

/// Why a stream can't be read on.
#[derive(Clone, Copy, Debug, PartialEq, Eq, Error)]
pub enum FrameFault {
    /// This protocol number, which isn't 0.
    BadProtocol(u16),
    /// The header names this length, which is below 2 or above 254.
    BadLength(u16),
}

/// The variant's name in lower-case letters and its number, one space between.
impl Display for FrameFault {
    ghost use Rattle.std.specs.Prelude.{Some};
    ghost use Rattle.mbap_frames.specs.FaultText.{fault_text};

    ghost output = { λ fault. Some (fault_text fault) };

    fn fmt<W: fmt::Write>(&self, f: &mut Formatter<W>) -> fmt::Result {
        match self {
            FrameFault::BadProtocol(number) => write!(f, "badprotocol {number}"),
            FrameFault::BadLength(length) => write!(f, "badlength {length}"),
        }
    }
}

/// The bytes of a frame: the header (section 3.1.3) and the PDU.
pub fn frame_bytes(frame: &Frame) -> FrameBytes
    requires { 0 < length frame.now.pdu }
    ensures spelled { result ≡ frame_spelling frame.now }
    ensures fits { length result ≤ frame_limit }
    ensures is_frame { IsFrame frame.now }
{
    bytes_of(frame.transaction, frame.unit, frame.pdu.as_slice())
}

fn bytes_of(transaction: u16, unit: u8, pdu: &[u8]) -> FrameBytes
    requires begins { 0 < length pdu.now }
    requires ends { length pdu.now ≤ pdu_limit }
    ensures spelled { result
        ≡ word transaction ++ word 0 ++ word (length pdu.now + 1) ++ unit ∷ pdu.now }
    ensures bytes { AllByRecursion IsByte pdu.now }
{
    let mut bytes = FrameBytes::new();
    bytes.extend_from_slice(&transaction.to_be_bytes());
    bytes.extend_from_slice(&PROTOCOL.to_be_bytes());
    bytes.extend_from_slice(&(pdu.len() as u16 + 1).to_be_bytes());
    bytes.push(unit);
    bytes.extend_from_slice(pdu);
    bytes
}
