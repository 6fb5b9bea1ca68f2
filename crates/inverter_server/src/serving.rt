ghost use Rattle.std.specs.Prelude.{◌≡◌, ◌+◌, ℕ, List};
ghost use Rattle.std.specs.Option.{ForSome};
ghost use Rattle.mbap_frames.specs.Stream.{IsUnfinished};
ghost use Rattle.inverter_server.specs.Serving.{Dial, IsServed};
ghost use Rattle.inverter_server.specs.Turns.{Start, Stands};

use crate::device::Device;
use crate::visit::attend;
use inverter_sim::Bank;
use mbap_frames::Frames;
use plant_book::Port;
use world_traits::{Clock, DialFailed, Dialer};

/// Serves a simulated inverter that wasn't asked yet, in so many turns: each is a dial to the host and the TCP port
/// of `port` where no link is up, and a receive else. `wait` says how long each dial and each receive waits at
/// most, in ms. The inverter's unit number is the bank's.
///
/// A frame or a fault of the stream that can't be answered hangs the link up. So do a send or a receive that
/// failed, and a peer that has closed the link. It takes no memory, and may wait, as the dialer and the clock may.
pub fn serve<N: Dialer, K: Clock>(
    bank: Bank,
    port: &Port,
    turns: u32,
    wait: u32,
    dialer: &mut N,
    clock: &K,
)
    requires { bank.last ≡ 0 }
    ensures served { (dials : List Dial) × IsServed (K.may_give clock.now) bank port.now turns dials
        (N.links dialer.old) (N.links dialer.new) (N.faults dialer.old) (N.faults dialer.new) }
{
    let mut device = Device::new(bank, clock);
    let mut line = None;
    for _made in 0..turns {
        line = turn(&mut device, line, port, wait, dialer);
    }
}

/// One turn: a dial where no link is up, and a receive else. Gives back the reader of the stream of the link that
/// is up then.
fn turn<N: Dialer, K: Clock>(
    device: &mut Device<'_, K>,
    line: Option<Frames>,
    port: &Port,
    wait: u32,
    dialer: &mut N,
) -> Option<Frames>
    requires { ForSome line IsUnfinished }
    ensures stands { (start : Start) (turns : ℕ)
        → start.may_give ≡ K.may_give device.old.clock → start.port ≡ port.now
        → Stands start turns
        (record { bank = device.old.bank; links = N.links dialer.old; faults = N.faults dialer.old }) line
        → Stands start (turns + 1)
        (record { bank = device.new.bank; links = N.links dialer.new; faults = N.faults dialer.new }) result }
    ensures unfinished { ForSome result IsUnfinished }
    ensures clock { device.new.clock ≡ device.old.clock }
{
    match line {
        Some(frames) => attend(device, frames, dialer),
        None => match dialer.dial(&port.host, port.port, wait) {
            Ok(()) => Some(Frames::new()),
            Err(DialFailed) => None,
        },
    }
}
