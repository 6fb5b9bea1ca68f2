ghost use Rattle.std.specs.Prelude.{◌≡◌, ◌++◌};
ghost use Rattle.mbap_frames.specs.Stream.{IsUnfinished};
ghost use Rattle.inverter_server.specs.Turns.{HandlesFrame, HandlesPiece};

use crate::device::Device;
use mbap_frames::{Frame, Frames, Got, frame_bytes};
use world_traits::{Clock, Dialer, SendFailed, send_whole};

/// What becomes of the link that is up.
#[derive(Clone, Copy, Debug)]
pub(crate) enum Course {
    /// It goes on.
    GoesOn,
    /// It has come to its end.
    Ends,
}

/// Answers the frames that are whole with this piece, in order.
pub(crate) fn answer_piece<N: Dialer, K: Clock>(
    device: &mut Device<'_, K>,
    frames: &mut Frames,
    piece: &[u8],
    dialer: &mut N,
) -> Course
    requires { IsUnfinished frames.old }
    ensures handled { HandlesPiece (K.may_give device.old.clock) (frames.old ++ piece.now) frames.new
        (record { bank = device.old.bank; links = N.links dialer.old; faults = N.faults dialer.old })
        (record { bank = device.new.bank; links = N.links dialer.new; faults = N.faults dialer.new }) result }
    ensures clock { device.new.clock ≡ device.old.clock }
{
    let mut rest = piece;
    loop {
        let fed = frames.feed(rest);
        rest = &rest[fed.used..];
        match fed.got {
            Got::More => return Course::GoesOn,
            Got::Bad(_) => return Course::Ends,
            Got::One(frame) => match answer_frame(device, &frame, dialer) {
                Course::GoesOn => {}
                Course::Ends => return Course::Ends,
            },
        }
    }
}

/// Answers a frame on the link that is up.
fn answer_frame<N: Dialer, K: Clock>(
    device: &mut Device<'_, K>,
    frame: &Frame,
    dialer: &mut N,
) -> Course
    ensures handled { HandlesFrame (K.may_give device.old.clock) frame.now
        (record { bank = device.old.bank; links = N.links dialer.old; faults = N.faults dialer.old })
        (record { bank = device.new.bank; links = N.links dialer.new; faults = N.faults dialer.new }) result }
    ensures number { device.new.bank.number ≡ device.old.bank.number }
    ensures clock { device.new.clock ≡ device.old.clock }
{
    let Some(answer) = device.answer(frame) else {
        return Course::Ends;
    };
    match send_whole(dialer, frame_bytes(&answer).as_slice()) {
        Ok(()) => Course::GoesOn,
        Err(SendFailed) => Course::Ends,
    }
}
