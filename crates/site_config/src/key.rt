/// A key of a site file: the first twelve are the site's own, the others those of an inverter.
#[derive(Clone, Copy, Debug, PartialEq, Eq)]
pub enum Key {
    /// `cap`: what all limits together stay under, in mW.
    Cap,
    /// `send`: how long after its grant a write may be sent, in ms.
    Send,
    /// `delay`: how long a frame that was sent may take to act, in ms.
    Delay,
    /// `timer`: WMaxLimPctRvrtTms of SunSpec DER model 704, in s.
    Timer,
    /// `per_mille`: the tolerance of the timer, in thousandths.
    PerMille,
    /// `slack`: what the timer may be off besides, in ms.
    Slack,
    /// `renew`: after what time a limit is written anew, in ms.
    Renew,
    /// `pause`: the pause between two turns of a worker, in ms.
    Pause,
    /// `wait`: how long a reply is waited for, in ms.
    Wait,
    /// `book`: how many calls a book has room for.
    Book,
    /// `policy`: how the watts that are free are shared.
    Policy,
    /// `inverter`: the tables of the inverters.
    Inverter,
    /// `host`: the name or address of an inverter's host.
    Host,
    /// `port`: its TCP port.
    Port,
    /// `unit`: its unit number.
    Unit,
    /// `base`: the address of the register that identifies model 704.
    Base,
    /// `wmax`: WMax of model 702, in W before its power of ten.
    Wmax,
    /// `wsf`: W_SF of model 702, the power of ten of `wmax`.
    Wsf,
    /// `psf`: WMaxLimPct_SF of model 704, the power of ten of a raw percentage.
    Psf,
    /// `floor`: WMaxLimPctRvrt of model 704, a raw percentage.
    Floor,
}

impl Key {
    ghost use Rattle.std.specs.Prelude.{◌≡◌};
    ghost use Rattle.site_config.specs.Keys.{name_of};

    /// The key as a site file spells it.
    pub fn name(self) -> &'static str
        ensures { result.now ≡ name_of self }
    {
        match self {
            Key::Cap => "cap",
            Key::Send => "send",
            Key::Delay => "delay",
            Key::Timer => "timer",
            Key::PerMille => "per_mille",
            Key::Slack => "slack",
            Key::Renew => "renew",
            Key::Pause => "pause",
            Key::Wait => "wait",
            Key::Book => "book",
            Key::Policy => "policy",
            Key::Inverter => "inverter",
            Key::Host => "host",
            Key::Port => "port",
            Key::Unit => "unit",
            Key::Base => "base",
            Key::Wmax => "wmax",
            Key::Wsf => "wsf",
            Key::Psf => "psf",
            Key::Floor => "floor",
        }
    }
}
