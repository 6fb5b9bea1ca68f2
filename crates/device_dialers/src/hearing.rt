ghost use Rattle.std.specs.Prelude.{◌≡◌, ◌++◌, ◌*◌, ◌≤◌, length};
ghost use Rattle.mbap_frames.specs.Frame.{frame_limit};
ghost use Rattle.mbap_frames.specs.Stream.{IsUnfinished};
ghost use Rattle.device_dialers.specs.Device.{Hears};

use crate::replies::Replies;
use inverter_server::Device;
use mbap_frames::{Frames, Got, frame_bytes};
use world_traits::Clock;

/// How a simulated inverter stands to the link that is up.
#[derive(Clone, Copy, Debug)]
pub enum Standing {
    /// It answers what comes.
    Listens,
    /// It has hung up, and no receive has told it yet.
    HungUp,
    /// It has hung up, and a receive has told it.
    Told,
}

/// Answers the frames that are whole with this piece, in order, up to the first frame or fault that is hung up on.
pub(crate) fn hear<K: Clock>(
    device: &mut Device<'_, K>,
    frames: &mut Frames,
    replies: &mut Replies,
    piece: &[u8],
) -> Standing
    requires unfinished { IsUnfinished frames.old }
    requires room { frame_limit * length piece.now ≤ replies.old.room }
    ensures heard { Hears (K.may_give device.old.clock) device.old.bank device.new.bank
        device.old.latest device.new.latest
        (frames.old ++ piece.now) frames.new replies.old.left replies.new.left result }
    ensures clock { device.new.clock ≡ device.old.clock }
{
    let mut rest = piece;
    'piece: loop {
        let fed = frames.feed(rest);
        rest = &rest[fed.used..];
        match fed.got {
            Got::More => return Standing::Listens,
            Got::Bad(_) => {
                *frames = Frames::new();
                return Standing::HungUp;
            }
            Got::One(frame) => match device.answer(&frame) {
                Some(answer) => replies.add(frame_bytes(&answer).as_slice()),
                None => return Standing::HungUp,
            },
        }
    }
}
