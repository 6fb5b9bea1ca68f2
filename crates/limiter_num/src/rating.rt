ghost use Rattle.std.specs.Prelude.{◌≡◌, ℕ, ◌+◌, ◌*◌, ◌^◌, ◌<◌, ◌≤◌, pos, negsuc, ◌≤ℤ◌, nat_le};
ghost use Rattle.std.specs.Prelude.{MatchResult, IfOk, None, Some};
ghost use Rattle.std.specs.Int.RustNames.{unsigned_abs};
ghost use Rattle.limiter_num.specs.Greatest.{greatest_up_to};
ghost use Rattle.limiter_num.specs.Milliwatts.{scaled_up, power_of, mw_of, full_of, IsRated};
ghost use Rattle.limiter_num.specs.RatingFaults.{missing_fault, scale_fault};
ghost use Rattle.limiter_num.specs.Points.{name_of_point};

/// A point of the models 702 and 704 that a refusal names.
#[derive(Clone, Copy, Debug, PartialEq, Eq)]
pub enum Point {
    /// WMax of 702.
    WMax,
    /// W_SF of 702.
    WSf,
    /// WMaxLimPct_SF of 704.
    PctSf,
    /// The address of the 704 identifier.
    Base,
    /// WMaxLimPctEna of 704.
    Ena,
    /// WMaxLimPct of 704.
    Pct,
    /// WMaxLimPctRvrt of 704.
    PctRvrt,
    /// WMaxLimPctEnaRvrt of 704.
    EnaRvrt,
    /// WMaxLimPctRvrtTms of 704.
    RvrtTms,
}

impl Point {
    /// The name of the point as texts have it, in lower-case letters.
    pub fn name(self) -> &'static str
        ensures { result.now ≡ name_of_point self }
    {
        match self {
            Point::WMax => "wmax",
            Point::WSf => "wsf",
            Point::PctSf => "pctsf",
            Point::Base => "base",
            Point::Ena => "ena",
            Point::Pct => "pct",
            Point::PctRvrt => "pctrvrt",
            Point::EnaRvrt => "enarvrt",
            Point::RvrtTms => "rvrttms",
        }
    }
}

/// Why the points of an inverter make no rating.
#[derive(Clone, Copy, Debug, PartialEq, Eq)]
pub enum RatingFault {
    /// The point has the value by which SunSpec says that the device lacks it.
    NotImplemented(Point),
    /// The scale factor is outside -10 to 10.
    ScaleOut(Point, i16),
    /// No raw percentage but 0 stands for a limit of at most 100 percent of more than 0 W.
    NoResolution,
    /// The milliwatts of the greatest raw percentage, which are above `RATED_MAX`.
    TooLarge(u64),
}

/// The greatest rating in milliwatts.
pub const RATED_MAX: u64 = 1_000_000_000_000;

/// The value of a uint16 point that the device lacks.
const MISSING_UINT16: u16 = 65_535;

/// The value of a sunssf point that the device lacks.
const MISSING_SUNSSF: i16 = i16::MIN;

/// The greatest value of WMaxLimPct that isn't the mark of a missing point.
const RAW_MAX: u128 = 65_534;

/// What turns raw percentages of WMaxLimPct into milliwatts: WMax in watts with its power of ten, and the
/// power of ten of the percentage (SunSpec DER models 702 and 704).
#[derive(Clone, Copy, Debug, PartialEq, Eq)]
pub struct Rating {
    /// WMax of 702, in watts times ten to the power of `wsf`.
    pub wmax: u16,
    /// W_SF of 702, a power of ten.
    pub wsf: i8,
    /// WMaxLimPct_SF of 704, a power of ten.
    pub psf: i8,
    pub ghost sound: { IsRated wmax wsf psf },
}

/// Ten to the power without its sign.
fn tens(power: i32) -> u128
    requires low { negsuc 18 ≤ℤ power }
    requires high { power ≤ℤ pos 21 }
    ensures value { result ≡ 10 ^ unsigned_abs power }
    ensures positive { 0 < result }
    ensures within { result ≤ 10 ^ 21 }
{
    10u128.pow(power.unsigned_abs())
}

#[tactic(auto, unfolding(crate::specs::Milliwatts::scaled_up))]
fn scaled_up(x: u128, power: i32) -> u128
    requires small { x < 2 ^ 32 }
    requires low { negsuc 18 ≤ℤ power }
    requires high { power ≤ℤ pos 21 }
    ensures { result ≡ scaled_up x power }
{
    if power < 0 {
        x.div_ceil(tens(power))
    } else {
        x * tens(power)
    }
}

fn power(wsf: i8, psf: i8) -> i32
    ensures { result ≡ power_of wsf psf }
{
    i32::from(wsf) + i32::from(psf) + 1
}

#[tactic(auto, unfolding(crate::specs::Milliwatts::mw_of))]
fn milliwatts(wmax: u16, wsf: i8, psf: i8, raw: u16) -> u128
    requires wsf_low { negsuc 9 ≤ℤ wsf }
    requires wsf_high { wsf ≤ℤ pos 10 }
    requires psf_low { negsuc 9 ≤ℤ psf }
    requires psf_high { psf ≤ℤ pos 10 }
    ensures { result ≡ mw_of wmax wsf psf raw }
{
    scaled_up(u128::from(wmax) * u128::from(raw), power(wsf, psf))
}

fn full(psf: i8) -> u16
    requires low { negsuc 9 ≤ℤ psf }
    requires high { psf ≤ℤ pos 10 }
    ensures { result ≡ full_of psf }
{
    let tens = tens(i32::from(psf));
    if psf < 0 {
        return (100 * tens).min(RAW_MAX) as u16;
    }
    (100 / tens).min(RAW_MAX) as u16
}

/// The greatest raw percentage up to `full` whose scaled product with WMax is at most so many milliwatts.
fn raw_at_most(wmax: u16, power: i32, full: u16, mw: u64) -> u16
    requires positive { 0 < wmax }
    requires low { negsuc 18 ≤ℤ power }
    requires high { power ≤ℤ pos 21 }
    ensures { result ≡ greatest_up_to full (λ raw. nat_le (scaled_up (wmax * raw) power) mw) }
{
    let (wmax, full, mw) = (u128::from(wmax), u128::from(full), u128::from(mw));
    let tens = tens(power);
    if power < 0 {
        return (mw * tens / wmax).min(full) as u16;
    }
    (mw / (wmax * tens)).min(full) as u16
}

/// Whether the device has the three points.
fn implemented(wmax: u16, wsf: i16, psf: i16) -> Result<(), RatingFault>
    ensures { MatchResult result (λ _. missing_fault wmax wsf psf ≡ None)
        (λ fault. missing_fault wmax wsf psf ≡ Some fault) }
{
    let missing = |point| Err(RatingFault::NotImplemented(point));
    if wmax == MISSING_UINT16 {
        return missing(Point::WMax);
    }
    if wsf == MISSING_SUNSSF {
        return missing(Point::WSf);
    }
    if psf == MISSING_SUNSSF {
        return missing(Point::PctSf);
    }
    Ok(())
}

/// A scale factor as a power of ten from -10 to 10.
fn scale(point: Point, factor: i16) -> Result<i8, RatingFault>
    ensures fault { MatchResult result (λ _. scale_fault point factor ≡ None)
        (λ fault. scale_fault point factor ≡ Some fault) }
    ensures value { IfOk result (λ power. (power ≡ factor) × (negsuc 9 ≤ℤ factor) × (factor ≤ℤ pos 10)) }
{
    if factor < -10 || factor > 10 {
        return Err(RatingFault::ScaleOut(point, factor));
    }
    Ok(factor as i8)
}

/// The milliwatts of the greatest raw percentage.
fn rated(wmax: u16, wsf: i8, psf: i8) -> u64
    requires wsf_low { negsuc 9 ≤ℤ wsf }
    requires wsf_high { wsf ≤ℤ pos 10 }
    requires psf_low { negsuc 9 ≤ℤ psf }
    requires psf_high { psf ≤ℤ pos 10 }
    ensures { result ≡ mw_of wmax wsf psf (full_of psf) }
{
    milliwatts(wmax, wsf, psf, full(psf)) as u64
}

impl Rating {
    ghost use Rattle.limiter_num.specs.Rating.{mw, full, raw_at_most};
    ghost use Rattle.limiter_num.specs.RatingFaults.{rating_fault};

    /// Checks the points of an inverter, each as it was read: WMax and W_SF of 702, WMaxLimPct_SF of 704.
    pub fn new(wmax: u16, wsf: i16, psf: i16) -> Result<Rating, RatingFault>
        ensures fault { MatchResult result
            (λ _. rating_fault wmax wsf psf ≡ None)
            (λ fault. rating_fault wmax wsf psf ≡ Some fault) }
        ensures points { IfOk result (λ rating. (rating.wmax ≡ wmax) × (rating.wsf ≡ wsf)
            × (rating.psf ≡ psf)) }
    {
        implemented(wmax, wsf, psf)?;
        let wsf = scale(Point::WSf, wsf)?;
        let psf = scale(Point::PctSf, psf)?;
        if wmax == 0 || full(psf) == 0 {
            return Err(RatingFault::NoResolution);
        }
        let rated = rated(wmax, wsf, psf);
        if rated > RATED_MAX {
            return Err(RatingFault::TooLarge(rated));
        }
        Ok(Rating { wmax, wsf, psf })
    }

    /// The milliwatts that a raw percentage stands for, rounded up.
    pub fn mw(&self, raw: u16) -> u64
        ensures watts { result ≡ mw self.now raw }
        ensures below { result ≤ 65535 * 10 ^ 12 }
    {
        milliwatts(self.wmax, self.wsf, self.psf, raw) as u64
    }

    /// The power of ten that turns WMax times a raw percentage into milliwatts.
    pub fn power(&self) -> i32
        ensures { result ≡ power_of self.now.wsf self.now.psf }
    {
        power(self.wsf, self.psf)
    }

    /// The greatest raw percentage that is at most 100 percent.
    pub fn full(&self) -> u16
        ensures { result ≡ full self.now }
    {
        full(self.psf)
    }

    /// The greatest raw percentage up to `full` that stands for at most so many milliwatts.
    #[tactic(auto, unfolding(crate::specs::Rating::raw_at_most, crate::specs::Milliwatts::mw_of))]
    pub fn raw_at_most(&self, mw: u64) -> u16
        ensures { result ≡ raw_at_most self.now mw }
    {
        raw_at_most(self.wmax, self.power(), self.full(), mw)
    }
}
