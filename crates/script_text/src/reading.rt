ghost use Rattle.std.specs.Prelude.{◌≡◌};
ghost use Rattle.script_text.specs.declared.fields.Fields.TheVariants as fields;
ghost use Rattle.script_text.specs.Reading.{Gives, number_most, size_most, fields_at};
ghost use Rattle.script_text.specs.Reading.{none_at, one_at, two_at, three_at, four_at, site_at, inverter_at};

use crate::fields::Fields;
use crate::number::{after, end, next, policy, signed};

#[tactic(auto, unfolding(crate::specs::Reading::site_at))]
#[inline(never)]
fn site(bytes: &[u8]) -> Option<(Fields, &[u8])>
    ensures { Gives result (site_at number_most bytes.now) }
{
    let (cap, rest) = next(bytes)?;
    let (send, rest) = next(rest)?;
    let (delay, rest) = next(rest)?;
    let (timer, rest) = next(rest)?;
    let (per_mille, rest) = next(rest)?;
    let (slack, rest) = next(rest)?;
    let (policy, rest) = policy(rest)?;
    let (room, rest) = next(rest)?;
    let fields = Fields::Site {
        cap,
        send,
        delay,
        timer,
        per_mille,
        slack,
        policy,
        room,
    };
    Some((fields, end(rest)?))
}

#[tactic(auto, unfolding(crate::specs::Reading::inverter_at))]
#[inline(never)]
fn inverter(bytes: &[u8]) -> Option<(Fields, &[u8])>
    ensures { Gives result (inverter_at number_most size_most bytes.now) }
{
    let (wmax, rest) = next(bytes)?;
    let (wsf, rest) = signed(rest)?;
    let (psf, rest) = signed(rest)?;
    let (floor, rest) = next(rest)?;
    let fields = Fields::Inverter {
        wmax,
        wsf,
        psf,
        floor,
    };
    Some((fields, end(rest)?))
}

#[tactic(auto, unfolding(crate::specs::Reading::none_at))]
#[inline(never)]
fn roll(bytes: &[u8]) -> Option<(Fields, &[u8])>
    ensures { Gives result (none_at fields.Roll bytes.now) }
{
    Some((Fields::Roll, end(bytes)?))
}

#[tactic(auto, unfolding(crate::specs::Reading::one_at))]
#[inline(always)]
fn tick(bytes: &[u8]) -> Option<(Fields, &[u8])>
    ensures { Gives result (one_at number_most fields.Tick bytes.now) }
{
    let (at, rest) = next(bytes)?;
    Some((Fields::Tick { at }, end(rest)?))
}

#[tactic(auto, unfolding(crate::specs::Reading::three_at))]
#[inline(always)]
fn ask(bytes: &[u8]) -> Option<(Fields, &[u8])>
    ensures { Gives result (three_at number_most fields.Ask bytes.now) }
{
    let (at, rest) = next(bytes)?;
    let (inverter, rest) = next(rest)?;
    let (raw, rest) = next(rest)?;
    Some((Fields::Ask { at, inverter, raw }, end(rest)?))
}

#[tactic(auto, unfolding(crate::specs::Reading::two_at))]
#[inline(never)]
fn read(bytes: &[u8]) -> Option<(Fields, &[u8])>
    ensures { Gives result (two_at number_most fields.Read bytes.now) }
{
    let (at, rest) = next(bytes)?;
    let (inverter, rest) = next(rest)?;
    Some((Fields::Read { at, inverter }, end(rest)?))
}

#[tactic(auto, unfolding(crate::specs::Reading::four_at))]
#[inline(never)]
fn saw(bytes: &[u8]) -> Option<(Fields, &[u8])>
    ensures { Gives result (four_at number_most fields.Saw bytes.now) }
{
    let (at, rest) = next(bytes)?;
    let (inverter, rest) = next(rest)?;
    let (number, rest) = next(rest)?;
    let (raw, rest) = next(rest)?;
    Some((
        Fields::Saw {
            at,
            inverter,
            number,
            raw,
        },
        end(rest)?,
    ))
}

#[tactic(auto, unfolding(crate::specs::Reading::three_at))]
#[inline(never)]
fn want(bytes: &[u8]) -> Option<(Fields, &[u8])>
    ensures { Gives result (three_at number_most fields.Want bytes.now) }
{
    let (at, rest) = next(bytes)?;
    let (inverter, rest) = next(rest)?;
    let (mw, rest) = next(rest)?;
    Some((Fields::Want { at, inverter, mw }, end(rest)?))
}

#[tactic(auto, unfolding(crate::specs::Reading::four_at))]
#[inline(never)]
fn back(bytes: &[u8]) -> Option<(Fields, &[u8])>
    ensures { Gives result (four_at number_most fields.Back bytes.now) }
{
    let (at, rest) = next(bytes)?;
    let (inverter, rest) = next(rest)?;
    let (link, rest) = next(rest)?;
    let (number, rest) = next(rest)?;
    Some((
        Fields::Back {
            at,
            inverter,
            link,
            number,
        },
        end(rest)?,
    ))
}

#[tactic(auto, unfolding(crate::specs::Reading::two_at))]
#[inline(never)]
fn link(bytes: &[u8]) -> Option<(Fields, &[u8])>
    ensures { Gives result (two_at number_most fields.Link bytes.now) }
{
    let (at, rest) = next(bytes)?;
    let (inverter, rest) = next(rest)?;
    Some((Fields::Link { at, inverter }, end(rest)?))
}

#[tactic(auto, unfolding(crate::specs::Reading::one_at))]
#[inline(never)]
fn stop(bytes: &[u8]) -> Option<(Fields, &[u8])>
    ensures { Gives result (one_at number_most fields.Stop bytes.now) }
{
    let (at, rest) = next(bytes)?;
    Some((Fields::Stop { at }, end(rest)?))
}

#[tactic(auto, unfolding(crate::specs::Reading::one_at))]
#[inline(never)]
fn restart(bytes: &[u8]) -> Option<(Fields, &[u8])>
    ensures { Gives result (one_at number_most fields.Restart bytes.now) }
{
    let (at, rest) = next(bytes)?;
    Some((Fields::Restart { at }, end(rest)?))
}

#[tactic(auto, unfolding(crate::specs::Reading::one_at))]
#[inline(never)]
fn begin(bytes: &[u8]) -> Option<(Fields, &[u8])>
    ensures { Gives result (one_at number_most fields.Begin bytes.now) }
{
    let (at, rest) = next(bytes)?;
    Some((Fields::Begin { at }, end(rest)?))
}

#[tactic(auto, unfolding(crate::specs::Reading::two_at))]
#[inline(never)]
fn cap(bytes: &[u8]) -> Option<(Fields, &[u8])>
    ensures { Gives result (two_at number_most fields.Cap bytes.now) }
{
    let (at, rest) = next(bytes)?;
    let (mw, rest) = next(rest)?;
    Some((Fields::Cap { at, mw }, end(rest)?))
}

/// The numbers of the row at the front, and the bytes behind it.
#[tactic(auto, unfolding(crate::specs::Reading::fields_at))]
#[inline(always)]
pub fn read_fields(bytes: &[u8]) -> Option<(Fields, &[u8])>
    ensures { Gives result (fields_at number_most size_most bytes.now) }
{
    if let Some(rest) = after(bytes, b"tick") {
        return tick(rest);
    }
    if let Some(rest) = after(bytes, b"ask") {
        return ask(rest);
    }
    if let Some(rest) = after(bytes, b"read") {
        return read(rest);
    }
    if let Some(rest) = after(bytes, b"saw") {
        return saw(rest);
    }
    if let Some(rest) = after(bytes, b"want") {
        return want(rest);
    }
    if let Some(rest) = after(bytes, b"back") {
        return back(rest);
    }
    if let Some(rest) = after(bytes, b"link") {
        return link(rest);
    }
    if let Some(rest) = after(bytes, b"stop") {
        return stop(rest);
    }
    if let Some(rest) = after(bytes, b"restart") {
        return restart(rest);
    }
    if let Some(rest) = after(bytes, b"roll") {
        return roll(rest);
    }
    if let Some(rest) = after(bytes, b"cap") {
        return cap(rest);
    }
    if let Some(rest) = after(bytes, b"inverter") {
        return inverter(rest);
    }
    if let Some(rest) = after(bytes, b"site") {
        return site(rest);
    }
    if let Some(rest) = after(bytes, b"begin") {
        return begin(rest);
    }
    None
}
