//! The bank of registers of a simulated inverter.
ghost use Rattle.std.specs.Prelude.{◌≡◌, ◌≤◌, length};
ghost use Rattle.limiter_num.specs.Timers.{tmin, tmax};
ghost use Rattle.modbus_pdu.specs.Grammar.{IsReadCount, HasReplyForm};
ghost use Rattle.inverter_sim.specs.Bank.{IsBank, IsSameInverter, new_bank, bank_at, held_at};
ghost use Rattle.inverter_sim.specs.RegisterMap.{seconds_left, contents};
ghost use Rattle.inverter_sim.specs.Replies.{HasReadCount, sets_limit, reply_to, taken_limit, with_limit, reply_of, state_after};

use crate::held_limit::HeldLimit;
use crate::registers::{halves, register_by, scale};
use der_models::limit_block;
use der_models::offsets::{
    M701_INV_ST, M701_W, M701_W_SF, M702_W_MAX, M702_W_SF, M703_ES, M704_W_MAX_LIM_PCT_ENA,
    M704_W_MAX_LIM_PCT_SF,
};
use limiter_num::{MOMENT_MAX, Rules};
use modbus_pdu::{READ_REGISTERS, Regs, Reply, Request, WRITE_REGISTERS};
use plant_book::Unit;
use std::marker::Model;

/// The address of the mark 'SunS', with which the map begins.
const MARK: u16 = 40_000;

/// The address of the identifier of model 1, which comes first.
const MODEL_1: u16 = 40_002;

/// The address of the identifier of model 701.
const MODEL_701: u16 = 40_070;

/// The address of the identifier of model 702.
const MODEL_702: u16 = 40_225;

/// The address of the identifier of model 703.
const MODEL_703: u16 = 40_277;

/// The address of the identifier of model 704.
const MODEL_704: u16 = 40_296;

/// The address of the identifier that ends the chain of models.
const END: u16 = 40_363;

/// The address behind the last register of the map.
const MAP_END: u32 = 40_365;

/// The address of WMaxLimPctEna, the first of the six registers that set a limit.
const LIMIT_BLOCK: u16 = MODEL_704 + M704_W_MAX_LIM_PCT_ENA as u16;

/// How many registers a write of a limit has.
const LIMIT_REGISTERS: u16 = 6;

/// The exception code for an address that isn't there (Modbus Application Protocol V1.1b3, section 7).
const ILLEGAL_DATA_ADDRESS: u8 = 2;

/// The exception code for a value that isn't taken (section 7).
const ILLEGAL_DATA_VALUE: u8 = 3;

/// A simulated inverter: it answers reads of its register map, and holds the limit of a write that it takes
/// for a time of its own, after which it goes back to its floor. The map is after the SunSpec DER models 701
/// to 704.
#[derive(Debug, Drop)]
pub struct Bank {
    unit: Unit,
    rules: Rules,
    number: u8,
    after: u64,
    /// The limit that is held.
    limit: HeldLimit,
    /// The last moment of a call, in ms.
    last: u64,
}

impl Model for Bank {
    ghost use Rattle.inverter_sim.specs.Bank.{BankRecord, IsBank};

    ghost Value = { BankRecord };

    ghost view = { λ bank. record {
      unit = bank.unit;
      rules = bank.rules;
      number = bank.number;
      after = bank.after;
      raw = bank.limit.raw;
      revert = bank.limit.revert;
      last = bank.last;
    } };

    ghost invariant = { λ bank. IsBank (record {
      unit = bank.unit;
      rules = bank.rules;
      number = bank.number;
      after = bank.after;
      raw = bank.limit.raw;
      revert = bank.limit.revert;
      last = bank.last;
    }) };
}

impl Bank {
    /// An inverter of this rating and floor, with the timer of the rules. It answers to the unit number
    /// `number`, and holds a limit that it takes for `after` ms.
    pub fn new(unit: Unit, rules: Rules, number: u8, after: u64) -> Bank
        requires after_low { tmin rules ≤ after }
        requires after_high { after ≤ tmax rules }
        ensures made { result ≡ new_bank unit rules number after }
        ensures kept { IsBank result }
    {
        let limit = HeldLimit::of_floor(unit.floor);
        Bank {
            unit,
            rules,
            number,
            after,
            limit,
            last: 0,
        }
    }

    /// Answers a request at a moment in ms, as the inverter does.
    pub fn reply(&mut self, now: u64, request: &Request) -> Reply
        requires in_order { self.old.last ≤ now }
        requires moment { now ≤ MOMENT_MAX }
        requires count { HasReadCount request.now }
        ensures reply { result ≡ reply_of self.old now request.now }
        ensures state { self.new ≡ state_after self.old now request.now }
        ensures spelled { HasReplyForm result }

        // It is the same inverter as before, at this moment.
        ensures same { IsSameInverter self.old self.new }
        ensures time { self.new.last ≡ now }
        ensures kept { IsBank self.new }
    {
        self.pass(now);
        match request {
            Request::ReadRegs { start, count } => self.read(*start, *count),
            Request::WriteRegs { start, values } => self.write(*start, values.as_slice()),
        }
    }

    /// The limit that the inverter holds at a moment in ms, as a raw percentage.
    pub fn held(&mut self, now: u64) -> u16
        requires in_order { self.old.last ≤ now }
        requires moment { now ≤ MOMENT_MAX }
        ensures raw { result ≡ held_at now self.old }
        ensures state { self.new ≡ bank_at now self.old }

        // It is the same inverter as before, at this moment.
        ensures same { IsSameInverter self.old self.new }
        ensures time { self.new.last ≡ now }
        ensures kept { IsBank self.new }
    {
        self.pass(now);
        self.limit.raw()
    }

    /// The unit number that the inverter answers to.
    pub fn number(&self) -> u8
        ensures { result ≡ self.now.number }
    {
        self.number
    }

    /// Lets the time pass up to a moment in ms.
    fn pass(&mut self, now: u64)
        requires in_order { self.old.last ≤ now }
        requires moment { now ≤ MOMENT_MAX }
        ensures state { self.new ≡ bank_at now self.old }
        ensures kept { IsBank self.new }
    {
        self.limit.pass(self.unit.floor, now);
        self.last = now;
    }

    /// Answers a read at the last moment.
    fn read(&self, start: u16, count: u16) -> Reply
        requires { IsReadCount count }
        ensures { result ≡ reply_to self.now (Request.ReadRegs start count) }
    {
        if start < MARK || u32::from(start) + u32::from(count) > MAP_END {
            return Reply::Exception {
                function: READ_REGISTERS,
                code: ILLEGAL_DATA_ADDRESS,
            };
        }
        let contents = self.contents();
        let mut values = Regs::new();
        for address in start..start + count {
            values.push(register_by(&contents, address));
        }
        Reply::Regs(values)
    }

    /// Answers a write at the last moment, and holds its limit where it is one that the inverter takes.
    fn write(&mut self, start: u16, values: &[u16]) -> Reply
        requires { IsBank self.old }
        ensures reply { result ≡ reply_to self.old (Request.WriteRegs start values.now) }
        ensures state { let request = Request.WriteRegs start values.now in
            self.new ≡ with_limit self.old (taken_limit self.old.unit self.old.rules request) }
        ensures kept { IsBank self.new }
    {
        let refused = |code| Reply::Exception {
            function: WRITE_REGISTERS,
            code,
        };
        if start != LIMIT_BLOCK || values.len() != usize::from(LIMIT_REGISTERS) {
            return refused(ILLEGAL_DATA_ADDRESS);
        }
        if !self.takes(values) {
            return refused(ILLEGAL_DATA_VALUE);
        }
        let until = self.last + self.after;
        self.limit.hold(values[1], until);
        Reply::Wrote {
            start,
            count: LIMIT_REGISTERS,
        }
    }

    /// Whether six registers from WMaxLimPctEna on set a limit that the inverter takes.
    fn takes(&self, values: &[u16]) -> bool
        requires { length values.now ≡ 6 }
        ensures { result ≡ sets_limit self.now.unit self.now.rules values.now }
    {
        let raw = values[1];
        let full = self.unit.rating.full();
        let block = limit_block(raw, self.unit.floor, self.rules.timer);
        raw <= full && values == block.as_slice()
    }

    /// The registers of the map that have a name, each with its address. All others are 0.
    #[tactic(auto, unfolding(crate::specs::RegisterMap::contents))]
    fn contents(&self) -> [(u16, u16); 29]
        ensures { result ≡ contents self.now }
    {
        let rating = &self.unit.rating;
        let (wsf, psf) = (scale(rating.wsf), scale(rating.psf));
        let [ena, pct, pct_rvrt, ena_rvrt, tms_high, tms_low] = limit_block(
            self.limit.raw(),
            self.unit.floor,
            self.rules.timer,
        );
        let (rem_high, rem_low) = halves(self.seconds_left());
        [
            (MARK, 0x5375),
            (MARK + 1, 0x6E53),
            (MODEL_1, 1),
            (MODEL_1 + 1, 66),
            (MODEL_701, 701),
            (MODEL_701 + 1, 153),
            (MODEL_701 + M701_INV_ST as u16, 0),
            (MODEL_701 + M701_W as u16, 0),
            (MODEL_701 + M701_W_SF as u16, wsf),
            (MODEL_702, 702),
            (MODEL_702 + 1, 50),
            (MODEL_702 + M702_W_MAX as u16, rating.wmax),
            (MODEL_702 + M702_W_SF as u16, wsf),
            (MODEL_703, 703),
            (MODEL_703 + 1, 17),
            (MODEL_703 + M703_ES as u16, 1),
            (MODEL_704, 704),
            (MODEL_704 + 1, 65),
            (LIMIT_BLOCK, ena),
            (LIMIT_BLOCK + 1, pct),
            (LIMIT_BLOCK + 2, pct_rvrt),
            (LIMIT_BLOCK + 3, ena_rvrt),
            (LIMIT_BLOCK + 4, tms_high),
            (LIMIT_BLOCK + 5, tms_low),
            (LIMIT_BLOCK + 6, rem_high),
            (LIMIT_BLOCK + 7, rem_low),
            (MODEL_704 + M704_W_MAX_LIM_PCT_SF as u16, psf),
            (END, 0xFFFF),
            (END + 1, 0),
        ]
    }

    /// The seconds until the revert, rounded up, or 0 where none is due.
    fn seconds_left(&self) -> u32
        ensures { result ≡ seconds_left self.now.last self.now.revert }
    {
        match self.limit.revert() {
            Some(moment) => (moment - self.last).div_ceil(1000) as u32,
            None => 0,
        }
    }
}
