//! Modbus frames on a stream of bytes (Modbus Messaging on TCP/IP Implementation Guide V1.0b). The frames
//! that `Frames::feed` hands out, and the fault that it answers, are those of the stream, however it is cut
//! into pieces.
#![tactic(auto)]

mod frame;
mod frames;
mod gathering;
mod laws;

pub use frame::{Frame, FrameBytes, FrameFault, MAX_FRAME, frame_bytes};
pub use frames::{Fed, Frames, Got};
pub use laws::{
    calls_find_the_fault, calls_read_the_stream, known_frames_are_first, one_reading_a_stream,
};
