ghost use Rattle.std.specs.Prelude.{◌≡◌, ◌<◌, ◌≤◌, MatchResult, IfOk, OnOk, None, Some};

/// The greatest moment, in ms.
pub const MOMENT_MAX: u64 = 1_000_000_000_000_000;

const _: () = prove!(MOMENT_MAX == 1_000_000_000_000_000);

/// A number of `Rules`.
#[derive(Clone, Copy, Debug, PartialEq, Eq)]
pub enum RulesField {
    /// The send window.
    Send,
    /// The delay of a frame.
    Delay,
    /// The reversion timer.
    Timer,
    /// The tolerance of the timer.
    PerMille,
    /// What the timer may be off besides.
    Slack,
}

/// The first number that is out of its range.
#[derive(Clone, Copy, Debug, PartialEq, Eq)]
pub struct RulesOut {
    /// Which number it is.
    pub field: RulesField,
    /// The number as it was given.
    pub value: u32,
}

/// What the site takes for granted of its links and of the inverters' reversion timers.
#[derive(Clone, Copy, Debug, PartialEq, Eq)]
pub struct Rules {
    /// How long after its grant a write may be sent, in ms, 1 to 60,000.
    pub send: u32,
    /// How long a frame that was sent may take to act, in ms, 0 to 600,000.
    pub delay: u32,
    /// WMaxLimPctRvrtTms of 704, in s, 1 to 86,400.
    pub timer: u32,
    /// The tolerance of the timer, in thousandths, 0 to 500.
    pub per_mille: u16,
    /// What the timer may be off besides, in ms, 0 to 600,000.
    pub slack: u32,
    pub ghost send_low: { 1 ≤ send },
    pub ghost send_high: { send ≤ 60000 },
    pub ghost delay_high: { delay ≤ 600000 },
    pub ghost timer_low: { 1 ≤ timer },
    pub ghost timer_high: { timer ≤ 86400 },
    pub ghost per_mille_high: { per_mille ≤ 500 },
    pub ghost slack_high: { slack ≤ 600000 },
}

impl RulesField {
    ghost use Rattle.limiter_num.specs.Timers.{range_fault};

    /// Refuses a value of this number that is outside a range.
    fn within(self, value: u32, low: u32, high: u32) -> Result<(), RulesOut>
        ensures fault { MatchResult result
            (λ _. range_fault self value low high ≡ None)
            (λ fault. range_fault self value low high ≡ Some fault) }
        ensures range { OnOk result ((low ≤ value) × (value ≤ high)) }
    {
        if value < low || value > high {
            return Err(RulesOut { field: self, value });
        }
        Ok(())
    }
}

impl Rules {
    ghost use Rattle.limiter_num.specs.Timers.{tmin, tmax, reach, rules_out};

    /// Checks the numbers, in the order of the parameters.
    pub fn new(
        send: u32,
        delay: u32,
        timer: u32,
        per_mille: u16,
        slack: u32,
    ) -> Result<Rules, RulesOut>
        ensures fault { MatchResult result
            (λ _. rules_out send delay timer per_mille slack ≡ None)
            (λ fault. rules_out send delay timer per_mille slack ≡ Some fault) }
        ensures numbers { IfOk result (λ rules. (rules.send ≡ send) × (rules.delay ≡ delay)
            × (rules.timer ≡ timer)
            × (rules.per_mille ≡ per_mille) × (rules.slack ≡ slack)) }
    {
        RulesField::Send.within(send, 1, 60_000)?;
        RulesField::Delay.within(delay, 0, 600_000)?;
        RulesField::Timer.within(timer, 1, 86_400)?;
        RulesField::PerMille.within(u32::from(per_mille), 0, 500)?;
        RulesField::Slack.within(slack, 0, 600_000)?;
        Ok(Rules {
            send,
            delay,
            timer,
            per_mille,
            slack,
        })
    }

    /// The earliest moment after an act at which the timer runs out, in ms.
    #[tactic(auto, unfolding(crate::specs::Timers::tmin))]
    pub fn tmin(&self) -> u64
        ensures { result ≡ tmin self.now }
    {
        (u64::from(self.timer) * 1000 * (1000 - u64::from(self.per_mille)) / 1000).saturating_sub(
            u64::from(self.slack),
        )
    }

    /// The latest moment after an act at which the timer runs out, in ms.
    #[tactic(auto, unfolding(crate::specs::Timers::tmax))]
    pub fn tmax(&self) -> u64
        ensures moment { result ≡ tmax self.now }
        ensures below { result ≤ 130200000 }
    {
        (u64::from(self.timer) * 1000 * (1000 + u64::from(self.per_mille))).div_ceil(1000)
            + u64::from(self.slack)
    }

    /// How long after its grant a write may still be held, in ms: the send window, the delay and the timer.
    #[tactic(auto, unfolding(crate::specs::Timers::reach))]
    pub fn reach(&self) -> u64
        ensures moment { result ≡ reach self.now }
        ensures below { result ≤ 130860000 }
    {
        u64::from(self.send) + u64::from(self.delay) + self.tmax()
    }
}
