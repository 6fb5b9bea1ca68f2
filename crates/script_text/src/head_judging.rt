ghost use Rattle.std.specs.Prelude.{◌≡◌, ◌≢◌, ◌≤◌, ◌<◌, ◌^◌, ◌≤ℤ◌, IsSome, Some, List, [], length, None, MatchOption, MatchResult, pos, negsuc};
ghost use Rattle.limiter_num.specs.Timers.{rules_out};
ghost use Rattle.limiter_num.specs.RatingFaults.{rating_fault};
ghost use Rattle.limiter_num.specs.Milliwatts.{full_of};
ghost use Rattle.script_text.specs.Grammar.{Statement, Inverter, Begin};
ghost use Rattle.script_text.specs.Script.{begins_in, MayFollow, Lacks, site_statement, inverter_statement};
ghost use Rattle.script_text.specs.Reading.{statement_of};
ghost use Rattle.script_text.specs.Progress.{JudgesHead, AreFactors, head_statement};

use crate::fields::Fields;
use crate::head::{HeadLine, SiteLine};
use crate::judging::moment;
use crate::line::LineKind;
use limiter_num::{Rating, Rules};
use plant_book::{CAP_MAX, Policy, ROOM_MAX, Unit};

/// The rules of these numbers, if each is in its range.
fn rules(send: u64, delay: u64, timer: u64, per_mille: u64, slack: u64) -> Option<Rules>
    ensures { MatchOption result (rules_out send delay timer per_mille slack ≢ None)
        (λ rules. (rules.send ≡ send) × (rules.delay ≡ delay) × (rules.timer ≡ timer)
        × (rules.per_mille ≡ per_mille) × (rules.slack ≡ slack)) }
{
    let send = u32::try_from(send).ok()?;
    let delay = u32::try_from(delay).ok()?;
    let timer = u32::try_from(timer).ok()?;
    let per_mille = u16::try_from(per_mille).ok()?;
    let slack = u32::try_from(slack).ok()?;
    Rules::new(send, delay, timer, per_mille, slack).ok()
}

/// The numbers of a site line, if they are in their ranges.
fn site_line(cap: u64, rules: Option<Rules>, policy: Policy, room: u64) -> Option<SiteLine>
    ensures { MatchOption result (IsSome rules → cap ≤ 10 ^ 14 → 1 ≤ room → room ≤ 1048576 → ⊥)
        (λ site. (site.cap ≡ cap) × (rules ≡ Some site.rules) × (site.policy ≡ policy) × (site.room ≡ room)) }
{
    let rules = rules?;
    let room = u32::try_from(room).ok()?;
    if cap > CAP_MAX || room < 1 || room > ROOM_MAX {
        return None;
    }
    Some(SiteLine {
        cap,
        rules,
        policy,
        room,
    })
}

/// The site of these numbers, if they are those of a `site` line that stands first.
pub fn judge_site(numbers: Fields) -> Result<SiteLine, LineKind>
    ensures { MatchResult result
        (λ site. (site_statement site.cap site.rules site.policy site.room ≡ statement_of numbers)
        × MayFollow [] (statement_of numbers))
        (λ kind. Lacks kind [] (statement_of numbers)) }
{
    match numbers {
        Fields::Site {
            cap,
            send,
            delay,
            timer,
            per_mille,
            slack,
            policy,
            room,
        } => {
            let rules = rules(send, delay, timer, per_mille, slack);
            site_line(cap, rules, policy, room).ok_or(LineKind::Value)
        }
        _ => Err(LineKind::Form),
    }
}

/// A power of ten in 16 bits.
fn factor(number: i32) -> Option<i16>
    ensures { MatchOption result (negsuc 32767 ≤ℤ number → number ≤ℤ pos 32767 → ⊥)
        (λ factor. (factor ≡ number) × (negsuc 32767 ≤ℤ number) × (number ≤ℤ pos 32767)) }
{
    i16::try_from(number).ok()
}

/// WMax in 16 bits.
fn watts(number: u64) -> Option<u16>
    ensures { MatchOption result (number ≤ 65535 → ⊥) (λ watts. (watts ≡ number) × (number ≤ 65535)) }
{
    u16::try_from(number).ok()
}

/// The rating of these points, if it is accepted.
fn rating(wmax: u64, wsf: i32, psf: i32) -> Option<Rating>
    ensures { MatchOption result (AreFactors wmax wsf psf → rating_fault wmax wsf psf ≢ None)
        (λ rating. AreFactors wmax wsf psf × (rating.wmax ≡ wmax) × (rating.wsf ≡ wsf) × (rating.psf ≡ psf)
        × (rating_fault wmax wsf psf ≡ None)) }
{
    let wmax = watts(wmax)?;
    let wsf = factor(wsf)?;
    let psf = factor(psf)?;
    Rating::new(wmax, wsf, psf).ok()
}

/// The inverter of a rating and a floor, a raw percentage, if that isn't above the greatest.
fn unit(rating: Rating, floor: u64) -> Option<Unit>
    ensures { MatchOption result (floor ≤ 65535 → full_of rating.psf < floor)
        (λ unit. (unit.rating ≡ rating) × (unit.floor ≡ floor) × (floor ≤ 65535) × (floor ≤ full_of rating.psf)) }
{
    Unit::new(rating, u16::try_from(floor).ok()?).ok()
}

/// The inverter of these numbers, if they are in their ranges.
fn inverter(wmax: u64, wsf: i32, psf: i32, floor: u64) -> Option<HeadLine>
    ensures { JudgesHead result (Inverter wmax wsf psf floor) }
{
    let rating = rating(wmax, wsf, psf)?;
    Some(HeadLine::Inverter(unit(rating, floor)?))
}

fn begin(at: u64) -> Option<HeadLine>
    ensures { JudgesHead result (Begin at) }
{
    Some(HeadLine::Begin(moment(at)?))
}

/// The line of these numbers, if they are those of a line behind the `site` line of a head.
pub fn judge_head(numbers: Fields) -> Result<HeadLine, LineKind>
    ensures { (before : List Statement) → 1 ≤ length before → begins_in before ≡ [] → MatchResult result
        (λ line. (head_statement line ≡ statement_of numbers) × MayFollow before (statement_of numbers))
        (λ kind. Lacks kind before (statement_of numbers)) }
{
    match numbers {
        Fields::Inverter {
            wmax,
            wsf,
            psf,
            floor,
        } => inverter(wmax, wsf, psf, floor).ok_or(LineKind::Value),
        Fields::Begin { at } => begin(at).ok_or(LineKind::Value),
        _ => Err(LineKind::Form),
    }
}
