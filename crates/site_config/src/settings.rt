ghost use Rattle.std.specs.Prelude.{◌≡◌, ◌^◌, ◌<◌, ◌≤◌, length, None, Some, IfOk, MatchResult};
ghost use Rattle.toml.specs.View.{table_view};
ghost use Rattle.share_policy.specs.declared.claim.Policy as policies;
ghost use Rattle.site_config.specs.Keys.{number_at, text_at, policy_of, inverters_at};
ghost use Rattle.site_config.specs.Checks.{first_fault, site_checks, rules_checks, pace_checks, text_fault, is_policy};
ghost use Rattle.site_config.specs.Reading.{HasRules, HasPace, HasSettings};

use crate::fault::SiteFault;
use crate::fields::Fields;
use crate::key::Key;
use crate::tables::read_tables;
use limiter_num::Rules;
use plant_book::{CAP_MAX, Policy, ROOM_MAX};
use toml::Value;

/// The greatest time in ms after which a limit is written anew: a day.
const RENEW_MAX: u64 = 86_400_000;

/// The greatest pause between two turns of a worker, in ms.
const PAUSE_MAX: u64 = 600_000;

/// The greatest time for which a reply is waited for, in ms.
const WAIT_MAX: u64 = 60_000;

/// How the workers of the inverters go about, in ms.
#[derive(Clone, Copy)]
pub struct Pace {
    /// After what time a limit is written anew.
    pub renew: u32,
    /// The pause between two turns.
    pub pause: u32,
    /// How long a reply is waited for.
    pub wait: u32,
}

/// What the site's own keys say.
#[derive(Drop)]
pub struct Settings<'a> {
    /// What all limits together stay under, in mW.
    pub cap: u64,
    pub rules: Rules,
    pub pace: Pace,
    /// How many calls a book has room for.
    pub room: u32,
    pub policy: Policy,
    /// The tables of 1 to 64 inverters.
    pub inverters: &'a [Value],
}

/// The rules: the ranges are those of `Rules`.
fn read_rules(fields: &Fields) -> Result<Rules, SiteFault>
    requires { fields.now.inverter ≡ None }
    ensures fault { MatchResult result
        (λ _. first_fault (rules_checks (table_view fields.now.table.now)) ≡ None)
        (λ fault. first_fault (rules_checks (table_view fields.now.table.now)) ≡ Some fault) }
    ensures rules { IfOk result (HasRules (table_view fields.now.table.now)) }
{
    let send = fields.number(Key::Send, 1, 60_000)? as u32;
    let delay = fields.number(Key::Delay, 0, 600_000)? as u32;
    let timer = fields.number(Key::Timer, 1, 86_400)? as u32;
    let per_mille = fields.number(Key::PerMille, 0, 500)? as u16;
    let slack = fields.number(Key::Slack, 0, 600_000)? as u32;
    Ok(Rules {
        send,
        delay,
        timer,
        per_mille,
        slack,
    })
}

fn read_pace(fields: &Fields) -> Result<Pace, SiteFault>
    requires { fields.now.inverter ≡ None }
    ensures fault { MatchResult result
        (λ _. first_fault (pace_checks (table_view fields.now.table.now)) ≡ None)
        (λ fault. first_fault (pace_checks (table_view fields.now.table.now)) ≡ Some fault) }
    ensures pace { IfOk result (HasPace (table_view fields.now.table.now)) }
{
    let renew = fields.number(Key::Renew, 1, RENEW_MAX)? as u32;
    let pause = fields.number(Key::Pause, 0, PAUSE_MAX)? as u32;
    let wait = fields.number(Key::Wait, 1, WAIT_MAX)? as u32;
    Ok(Pace { renew, pause, wait })
}

/// The policy that is spelled so.
fn policy_of(text: &str) -> Option<Policy>
    ensures { result ≡ policy_of text.now }
{
    match text {
        "open" => Some(Policy::Open),
        "fair" => Some(Policy::Fair),
        _ => None,
    }
}

#[tactic(auto, unfolding(crate::specs::Checks::text_fault, crate::specs::Keys::text_at))]
fn read_policy(fields: &Fields) -> Result<Policy, SiteFault>
    requires { fields.now.inverter ≡ None }
    ensures fault { MatchResult result
        (λ _. text_fault Key.Policy None is_policy (table_view fields.now.table.now) ≡ None)
        (λ fault. text_fault Key.Policy None is_policy (table_view fields.now.table.now) ≡ Some fault) }
    ensures policy { IfOk result (λ policy.
        Some policy ≡ policy_of (text_at Key.Policy (table_view fields.now.table.now))) }
{
    let text = fields.text(Key::Policy)?;
    match policy_of(text) {
        Some(policy) => Ok(policy),
        None => Err(SiteFault::BadText {
            key: Key::Policy,
            inverter: None,
        }),
    }
}

/// The site's own keys, in the order of the format.
pub fn read_settings<'a>(fields: &Fields<'a>) -> Result<Settings<'a>, SiteFault>
    requires site { fields.now.inverter ≡ None }
    requires inverters { length (inverters_at (table_view fields.now.table.now)) < 2 ^ 32 }
    ensures fault { MatchResult result
        (λ _. first_fault (site_checks (table_view fields.now.table.now)) ≡ None)
        (λ fault. first_fault (site_checks (table_view fields.now.table.now)) ≡ Some fault) }
    ensures settings { IfOk result (HasSettings (table_view fields.now.table.now)) }
{
    let cap = fields.number(Key::Cap, 0, CAP_MAX)?;
    let rules = read_rules(fields)?;
    let pace = read_pace(fields)?;
    let room = fields.number(Key::Book, 1, u64::from(ROOM_MAX))? as u32;
    let policy = read_policy(fields)?;
    let inverters = read_tables(fields)?;
    Ok(Settings {
        cap,
        rules,
        pace,
        room,
        policy,
        inverters,
    })
}
