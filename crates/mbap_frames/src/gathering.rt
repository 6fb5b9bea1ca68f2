//! Gathers the bytes of one frame.
ghost use Rattle.std.specs.Prelude.{◌≡◌, ℕ, ◌+◌, ◌≤◌, ◌<◌, ◌++◌, [], length, take, drop, IfOk, IfErr};
ghost use Rattle.mbap_frames.specs.Frame.{IsFrame, frame_spelling};
ghost use Rattle.mbap_frames.specs.Stream.{IsUnfinished, HasFault};
ghost use Rattle.mbap_frames.specs.Gathering.{IsGathered, IsWhole, Wants};

use crate::frame::{Frame, FrameBytes, FrameFault};
use modbus_pdu::Pdu;

// Where the protocol number, and where the length ends (section 3.1.3).
const PROTOCOL_END: usize = 4;

const LENGTH_END: usize = 6;

// The lengths of a frame with a unit number and 1 to 253 bytes of PDU.
const MIN_LENGTH: u16 = 2;

const MAX_LENGTH: u16 = 254;

// At how many bytes the header is to be looked at next, or the fault that it shows.
pub(crate) fn next_look(bytes: &[u8]) -> Result<usize, FrameFault>
    ensures wants { IfOk result (Wants bytes.now) }
    ensures fault { IfErr result (HasFault bytes.now) }
{
    if bytes.len() < PROTOCOL_END {
        return Ok(PROTOCOL_END);
    }
    let protocol = u16::from_be_bytes([bytes[2], bytes[3]]);
    if protocol != 0 {
        return Err(FrameFault::BadProtocol(protocol));
    }
    if bytes.len() < LENGTH_END {
        return Ok(LENGTH_END);
    }
    let length = u16::from_be_bytes([bytes[4], bytes[5]]);
    if length < MIN_LENGTH || length > MAX_LENGTH {
        return Err(FrameFault::BadLength(length));
    }
    Ok(LENGTH_END + usize::from(length))
}

// How many bytes are to be taken before the next look: none where a frame is whole or a fault stands.
fn bytes_to_next_look(bytes: &[u8]) -> usize
    requires { IsGathered bytes.now }
    ensures wants { 0 < result → Wants bytes.now (length bytes.now + result) }
    ensures done { IsUnfinished bytes.now → 0 < result }
{
    match next_look(bytes) {
        Ok(end) => end - bytes.len(),
        Err(_) => 0,
    }
}

// Takes bytes of the piece until the frame is whole, a fault stands or the piece is used up; says how many.
pub(crate) fn gather(kept: &mut FrameBytes, piece: &[u8]) -> usize
    requires { IsGathered kept.old }
    ensures within { result ≤ length piece.now }
    ensures taken { kept.new ≡ kept.old ++ take result piece.now }
    ensures gathered { IsGathered kept.new }
    ensures all { IsUnfinished kept.new → result ≡ length piece.now }
{
    let mut used = 0;
    while used < piece.len() {
        let missing = bytes_to_next_look(kept.as_slice());
        if missing == 0 {
            return used;
        }
        let count = missing.min(piece.len() - used);
        kept.extend_from_slice(&piece[used..used + count]);
        used += count;
    }
    used
}

// The frame that these bytes are.
pub(crate) fn frame_of(bytes: &[u8]) -> Frame
    requires { IsWhole bytes.now }
    ensures is_frame { IsFrame result }
    ensures spelled { bytes.now ≡ frame_spelling result }
{
    Frame {
        transaction: u16::from_be_bytes([bytes[0], bytes[1]]),
        unit: bytes[6],
        pdu: Pdu::from_slice(&bytes[7..]),
    }
}
