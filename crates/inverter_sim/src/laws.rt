//! Laws of the definitions alone.
ghost use Rattle.std.specs.Prelude.{◌≡◌, ℕ, ◌+◌, ◌<◌, ◌≤◌, Contains, List, [], ◌∷◌, ◌++◌, Option, None, Some};
ghost use Rattle.limiter_num.specs.declared.rules.Rules.{Rules};
ghost use Rattle.limiter_num.specs.Rating.{full};
ghost use Rattle.limiter_num.specs.Timers.{tmin, tmax};
ghost use Rattle.plant_book.specs.declared.site.Unit as units;
ghost use Rattle.plant_book.specs.Site.{floor_raw_at};
ghost use Rattle.plant_book.specs.History.{History, Grant, Sight, sights, link_of_sight};
ghost use Rattle.plant_book.specs.Behaviour.{Timed};
ghost use Rattle.der_models.specs.Limit.{limit_registers};
ghost use Rattle.inverter_sim.specs.HeldLimit.{limit_at};
ghost use Rattle.inverter_sim.specs.Bank.{BankRecord, IsBank, bank_at, held_at};
ghost use Rattle.inverter_sim.specs.RegisterMap.{seconds_left, high, low};
ghost use Rattle.inverter_sim.specs.Replies.{reply_to, taken_limit, with_limit};
ghost use Rattle.inverter_sim.specs.Calls.{Call, state_after_calls, CameBy, TakeNone, TookLast};
ghost use Rattle.inverter_sim.specs.Following.{FollowsDevice, HasFollowed, IsAskedUpTo, IsInTolerance, IsNewSight, MayAct};
ghost use Rattle.inverter_sim.specs.Following.{act_at, limit_write, look_at, revert_by};

use modbus_pdu::{Reply, Request};

/// Whatever a bank is asked and when, the last write that it took is held until the bank's time has passed,
/// and from then on the floor is. That time lies from the shortest to the longest that the tolerance of the
/// timer allows. No other call changes what is held.
pub fn takes_are_held()
    ensures held { (bank : BankRecord) (calls : List Call) (at raw now : ℕ)
        → TookLast bank calls at raw → CameBy now calls
        → now < at + bank.after → held_at now (state_after_calls bank calls) ≡ raw }
    ensures reverted { (bank : BankRecord) (calls : List Call) (at raw now : ℕ)
        → TookLast bank calls at raw → CameBy now calls
        → at + bank.after ≤ now → held_at now (state_after_calls bank calls) ≡ bank.unit.floor }
    ensures in_time { (bank : BankRecord) → IsBank bank
        → (tmin bank.rules ≤ bank.after) × (bank.after ≤ tmax bank.rules) }
    ensures nothing_else { (bank : BankRecord) (calls : List Call) (now : ℕ)
        → TakeNone bank calls → CameBy now calls
        → held_at now (state_after_calls bank calls) ≡ held_at now bank }
{}

/// A write that sets a limit of at most 100 percent, with the inverter's floor and timer, is taken. A read of
/// the eight registers from WMaxLimPctEna on shows the limit that is held.
pub fn limits_are_taken_and_shown()
    ensures taken { (unit : units.Unit) (rules : Rules) (raw : ℕ) → raw ≤ full unit.rating
        → taken_limit unit rules (Request.WriteRegs 40310 (limit_registers raw unit.floor rules.timer))
        ≡ Some raw }
    ensures shown { (bank : BankRecord) → reply_to bank (Request.ReadRegs 40310 8)
        ≡ Reply.Regs (limit_registers bank.raw bank.unit.floor bank.rules.timer
        ++ high (seconds_left bank.last bank.revert) ∷ low (seconds_left bank.last bank.revert) ∷ []) }
{}

/// A limit that is held until it reverts is the timed device. It begins as the floor. As time passes, the revert comes
/// that is due. A write that may act is held for a time that the tolerance of the timer allows. A read that is
/// looked at shows what is held. So an inverter that does only this follows the timed device, at every moment.
pub fn limits_follow_the_timed_device()
    ensures begins { (history : History) (inverter now : ℕ)
        → ((sight : Sight) → Contains (sights history) sight → sight.read.inverter ≡ inverter → ⊥)
        → HasFollowed history inverter now (floor_raw_at history.life.site inverter) None [] }
    ensures passes { (history : History) (inverter now later : ℕ) (events : List Timed) → now ≤ later
        → (raw : ℕ) (revert : Option ℕ) → HasFollowed history inverter now raw revert events
        → let limit = limit_at (floor_raw_at history.life.site inverter) later
        (record { raw = raw; revert = revert }) in
        HasFollowed history inverter later limit.raw limit.revert (events ++ revert_by later revert) }
    ensures acts { (history : History) (inverter now raw : ℕ) (before : Option ℕ) (events : List Timed)
        → HasFollowed history inverter now raw before events
        → (grant : Grant) → MayAct history inverter now events grant
        → (revert : ℕ) → IsInTolerance history.life.site.rules now revert
        → HasFollowed history inverter now grant.write.raw (Some revert) (events ++ act_at now grant ∷ []) }
    ensures looks { (old new : History) (inverter now raw : ℕ) (revert : Option ℕ) (events : List Timed)
        → HasFollowed old inverter now raw revert events
        → (sight : Sight) → IsNewSight old new inverter sight
        → sight.read.at ≤ now → now ≤ sight.at → sight.raw ≡ raw
        → IsAskedUpTo events (link_of_sight sight) sight.read.number
        → HasFollowed new inverter now raw revert (events ++ look_at now sight ∷ []) }
    ensures follows { (history : History) (inverter now raw : ℕ) (revert : Option ℕ) (events : List Timed)
        → HasFollowed history inverter now raw revert events → FollowsDevice history inverter now raw }
{}

/// A simulated inverter holds its limit so: as time passes, and where a write reaches it that it takes and that may
/// act.
pub fn banks_follow_the_timed_device()
    ensures passes { (bank : BankRecord) (history : History) (inverter : ℕ) (events : List Timed)
        → HasFollowed history inverter bank.last bank.raw bank.revert events
        → floor_raw_at history.life.site inverter ≡ bank.unit.floor → (now : ℕ) → bank.last ≤ now
        → HasFollowed history inverter now (bank_at now bank).raw (bank_at now bank).revert
        (events ++ revert_by now bank.revert) }
    ensures acts { (bank : BankRecord) (history : History) (inverter : ℕ) (events : List Timed)
        → HasFollowed history inverter bank.last bank.raw bank.revert events
        → IsBank bank → bank.rules ≡ history.life.site.rules
        → (grant : Grant) → grant.write.raw ≤ full bank.unit.rating → MayAct history inverter bank.last events grant
        → let bank_then = with_limit bank (taken_limit bank.unit bank.rules (limit_write bank grant.write.raw)) in
        HasFollowed history inverter bank.last bank_then.raw bank_then.revert (events ++ act_at bank.last grant ∷ []) }
{}
