ghost use Rattle.std.specs.Prelude.{◌≡◌};
ghost use Rattle.mbap_frames.specs.Stream.{IsUnfinished};
ghost use Rattle.inverter_server.specs.Turns.{Attends, Receives};

use crate::device::Device;
use crate::piece::{Course, answer_piece};
use mbap_frames::{Frames, MAX_FRAME};
use world_traits::{Clock, Dialer, Received, RecvFailed};

/// One turn on the link that is up: one receive, and the answers to the frames that are whole then. A link that has
/// come to its end is hung up, and gives nothing back; of one that goes on the reader of its stream is given back.
pub(crate) fn attend<N: Dialer, K: Clock>(
    device: &mut Device<'_, K>,
    mut frames: Frames,
    dialer: &mut N,
) -> Option<Frames>
    requires { IsUnfinished frames }
    ensures attended { Attends (K.may_give device.old.clock)
        (record { bank = device.old.bank; links = N.links dialer.old; faults = N.faults dialer.old })
        (record { bank = device.new.bank; links = N.links dialer.new; faults = N.faults dialer.new }) frames result }
    ensures clock { device.new.clock ≡ device.old.clock }
{
    match receive(device, &mut frames, dialer) {
        Course::GoesOn => Some(frames),
        Course::Ends => {
            dialer.hang_up();
            None
        }
    }
}

/// One receive on the link that is up, and the answers to the frames that are whole then.
fn receive<N: Dialer, K: Clock>(
    device: &mut Device<'_, K>,
    frames: &mut Frames,
    dialer: &mut N,
) -> Course
    requires { IsUnfinished frames.old }
    ensures attended { Receives (K.may_give device.old.clock) frames.old frames.new
        (record { bank = device.old.bank; links = N.links dialer.old; faults = N.faults dialer.old })
        (record { bank = device.new.bank; links = N.links dialer.new; faults = N.faults dialer.new }) result }
    ensures clock { device.new.clock ≡ device.old.clock }
{
    let mut buffer = [0; MAX_FRAME];
    match dialer.recv(&mut buffer) {
        Ok(Received::Bytes(count)) => answer_piece(device, frames, &buffer[..count], dialer),
        Ok(Received::Quiet) => Course::GoesOn,
        Ok(Received::Closed) => Course::Ends,
        Err(RecvFailed) => Course::Ends,
    }
}
