ghost use Rattle.std.specs.Prelude.{◌≡◌, ◌≤◌, ◌<◌, ◌↔◌, ℕ, IfSome, IsNone, IsTrue, length, max};
ghost use Rattle.world_traits.specs.Clocks.{moment_max};
ghost use Rattle.inverter_server.specs.Answers.{IsAnsweredBy, IsHungUpOn};

use crate::steady_clock::SteadyClock;
use inverter_sim::Bank;
use mbap_frames::Frame;
use modbus_pdu::{decode_request, encode_reply};
use std::marker::Model;
use world_traits::Clock;

/// The answer of a simulated inverter to a frame at a moment in ms: its reply, with the transaction number and the
/// unit number of the frame (Modbus Messaging on TCP/IP Implementation Guide V1.0b, section 3.1.3). None says that
/// the link is to be hung up: the frame is for another unit, or its PDU is no request. Then the inverter wasn't
/// asked.
pub fn answer(bank: &mut Bank, now: u64, frame: &Frame) -> Option<Frame>
    requires in_order { bank.old.last ≤ now }
    requires moment { now ≤ moment_max }
    ensures answered { IfSome result (λ answer. IsAnsweredBy bank.old now frame.now answer bank.new) }
    ensures hung_up { IsNone result ↔ IsHungUpOn bank.old.number frame.now }
    ensures left { IsNone result → bank.new ≡ bank.old }
    ensures begins { IfSome result (λ answer. 0 < length answer.pdu) }
    ensures number { bank.new.number ≡ bank.old.number }
    ensures last { bank.new.last ≤ now }
{
    if frame.unit != bank.number() {
        return None;
    }
    let request = decode_request(frame.pdu.as_slice())?;
    let reply = bank.reply(now, &request);
    Some(Frame {
        transaction: frame.transaction,
        unit: frame.unit,
        pdu: encode_reply(&reply),
    })
}

/// A simulated inverter that answers frames by a clock: each is answered at the greatest of the clock's readings so
/// far.
#[derive(Drop)]
pub struct Device<'c, K: Clock> {
    bank: Bank,
    clock: SteadyClock<'c, K>,
}

impl<'c, K: Clock> Model for Device<'c, K> {
    ghost use Rattle.std.specs.Prelude.{◌≤◌};
    ghost use Rattle.inverter_server.specs.Turns.{DeviceState};

    ghost Value = { DeviceState K };

    ghost view = { λ d. record { bank = d.bank; clock = d.clock.clock; latest = d.clock.latest } };

    ghost invariant = { λ d. d.bank.last ≤ d.clock.latest };
}

impl<'c, K: Clock> Device<'c, K> {
    /// An inverter that wasn't asked yet, with a clock that wasn't read yet.
    pub fn new(bank: Bank, clock: &'c K) -> Self
        requires { bank.last ≡ 0 }
        ensures { result ≡ record { bank = bank; clock = clock.now; latest = 0 } }
    {
        Device {
            bank,
            clock: SteadyClock::new(clock),
        }
    }

    /// Reads the clock once, and answers the frame at the greatest reading so far. None says that the link is to be
    /// hung up. It may wait, as the clock may.
    pub fn answer(&mut self, frame: &Frame) -> Option<Frame>
        ensures answered { IfSome result
            (λ answer. IsAnsweredBy self.old.bank self.new.latest frame.now answer self.new.bank) }
        ensures hung_up { IsNone result ↔ IsHungUpOn self.old.bank.number frame.now }
        ensures left { IsNone result → self.new.bank ≡ self.old.bank }
        ensures begins { IfSome result (λ answer. 0 < length answer.pdu) }
        ensures number { self.new.bank.number ≡ self.old.bank.number }

        // The moment is one that the clock may give, and not below those before.
        ensures greatest { (reading : ℕ) × IsTrue (K.may_give self.old.clock reading)
            × (self.new.latest ≡ max self.old.latest reading) }
        ensures given { IsTrue (K.may_give self.old.clock self.new.latest) }
        ensures clock { self.new.clock ≡ self.old.clock }
    {
        let now = self.clock.now();
        answer(&mut self.bank, now, frame)
    }
}
