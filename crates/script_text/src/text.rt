ghost use Rattle.std.specs.Prelude.{◌≡◌, ◌≤◌, ◌+◌, ◌++◌, ◌∷◌, [], map, OnOk, OnErr};
ghost use Rattle.script_text.specs.Words.{spaced, written, line_text};
ghost use Rattle.script_text.specs.Grammar.{Inverter, Begin, policy_word, call_words, reply_words, statement_words};
ghost use Rattle.script_text.specs.Grammar as statements;
ghost use Rattle.script_text.specs.Script.{site_statement, inverter_statement};
ghost use Rattle.script_text.specs.Text.{head_text, inverters_text, entry_text, restart_text, roll_text, replied_text};
ghost use Rattle.script_text.specs.Lines.{tail_of, IsLonger};

use crate::pen::Pen;
use limiter_num::NoMemory;
use plant_book::{Call, Entry, Policy, Reply, Site, Unit};

/// Writes a call before a line.
#[inline(always)]
fn call(pen: &mut Pen, call: &Call)
    requires room { 88 ≤ pen.old.at }
    requires within { pen.old.at ≤ 160 }
    ensures line { tail_of pen.new ≡ spaced (map written (call_words call.now)) ++ tail_of pen.old }
    ensures within { pen.new.at ≤ 160 }
{
    match *call {
        Call::Link { at, inverter } => pen.two(b"link", at, u64::from(inverter)),
        Call::Ask { at, inverter, raw } => {
            pen.three(b"ask", at, u64::from(inverter), u64::from(raw));
        }
        Call::Read { at, inverter } => pen.two(b"read", at, u64::from(inverter)),
        Call::Saw {
            at,
            inverter,
            number,
            raw,
        } => pen.four(
            b"saw",
            at,
            u64::from(inverter),
            u64::from(number),
            u64::from(raw),
        ),
        Call::Back {
            at,
            inverter,
            link,
            number,
        } => pen.four(
            b"back",
            at,
            u64::from(inverter),
            u64::from(link),
            u64::from(number),
        ),
        Call::Want { at, inverter, mw } => pen.three(b"want", at, u64::from(inverter), mw),
        Call::Tick { at } => pen.one(b"tick", at),
        Call::Stop { at } => pen.one(b"stop", at),
        Call::Cap { at, mw } => pen.two(b"cap", at, mw),
    }
}

/// Writes a reply before a line.
#[inline(always)]
fn reply(pen: &mut Pen, reply: &Reply)
    requires room { 52 ≤ pen.old.at }
    requires within { pen.old.at ≤ 160 }
    ensures line { tail_of pen.new ≡ spaced (map written (reply_words reply.now)) ++ tail_of pen.old }
    ensures room { pen.old.at ≤ pen.new.at + 52 }
    ensures within { pen.new.at ≤ 160 }
{
    match *reply {
        Reply::Linked(link) => pen.one(b"linked", u64::from(link)),
        Reply::Granted(write) => {
            pen.two(b"granted", u64::from(write.link), u64::from(write.number));
        }
        Reply::ReadAs(read) => pen.two(b"readas", u64::from(read.link), u64::from(read.number)),
        Reply::Freed { count, reserved } => pen.two(b"freed", u64::from(count), reserved),
        Reply::Taken => pen.none(b"taken"),
        Reply::Total(total) => pen.one(b"total", total),
        Reply::Unlinked => pen.none(b"unlinked"),
        Reply::Spent => pen.none(b"spent"),
        Reply::Over(full) => pen.one(b"over", u64::from(full)),
        Reply::Silent(until) => pen.one(b"silent", until),
        Reply::NotAllowed(raw) => pen.one(b"notallowed", u64::from(raw)),
        Reply::NoWatts(unreserved) => pen.one(b"nowatts", unreserved),
        Reply::Crowded => pen.none(b"crowded"),
        Reply::NoRead => pen.none(b"noread"),
        Reply::Strange(raw) => pen.one(b"strange", u64::from(raw)),
        Reply::NoWrite => pen.none(b"nowrite"),
        Reply::CapSet { cap, ceiling } => pen.two(b"capset", cap, ceiling),
        Reply::CapOut { least, most } => pen.two(b"capout", least, most),
    }
}

/// Writes an entry into an empty line.
#[inline(always)]
fn entry_line(pen: &mut Pen, entry: &Entry)
    requires line { tail_of pen.old ≡ 10 ∷ [] }
    requires room { pen.old.at ≡ 159 }
    ensures line { tail_of pen.new ≡ entry_text entry.now }
    ensures within { pen.new.at ≤ 160 }
{
    reply(pen, &entry.reply);
    pen.text(b" = ");
    call(pen, &entry.call);
}

/// The line of a restart at a moment in ms.
fn restart_line(at: u64) -> Pen
    ensures { tail_of result ≡ restart_text at }
{
    let mut pen = Pen::new();
    pen.text(b" = begun");
    pen.one(b"restart", at);
    pen
}

/// The line of a roll.
fn roll_line() -> Pen
    ensures { tail_of result ≡ roll_text }
{
    let mut pen = Pen::new();
    pen.text(b"roll = rolled");
    pen
}

/// The line of a site, by its numbers.
fn numbered_site(
    cap: u64,
    send: u64,
    delay: u64,
    timer: u64,
    per_mille: u64,
    slack: u64,
    policy: Policy,
    room: u64,
) -> Pen
    ensures { tail_of result
        ≡ line_text (statement_words (statements.Site cap send delay timer per_mille slack policy room)) }
{
    let mut pen = Pen::new();
    pen.next(room);
    put_policy(&mut pen, policy);
    pen.next(slack);
    pen.next(per_mille);
    pen.next(timer);
    pen.next(delay);
    pen.next(send);
    pen.next(cap);
    pen.text(b"site");
    pen
}

/// The line of a site.
fn site_line(site: &Site) -> Pen
    ensures { tail_of result ≡ line_text (statement_words
        (site_statement site.now.cap site.now.rules site.now.policy site.now.room)) }
{
    let rules = &site.rules;
    numbered_site(
        site.cap,
        u64::from(rules.send),
        u64::from(rules.delay),
        u64::from(rules.timer),
        u64::from(rules.per_mille),
        u64::from(rules.slack),
        site.policy,
        u64::from(site.room),
    )
}

/// Writes a space and a policy before a line.
fn put_policy(pen: &mut Pen, policy: Policy)
    requires room { 5 ≤ pen.old.at }
    requires within { pen.old.at ≤ 160 }
    ensures line { tail_of pen.new ≡ 32 ∷ (policy_word policy ++ tail_of pen.old) }
    ensures room { pen.old.at ≤ pen.new.at + 5 }
    ensures within { pen.new.at ≤ 160 }
{
    match policy {
        Policy::Open => pen.text(b" open"),
        Policy::Fair => pen.text(b" fair"),
    }
}

/// The line of an inverter, by its numbers.
fn numbered_inverter(wmax: u64, wsf: i8, psf: i8, floor: u64) -> Pen
    ensures { tail_of result ≡ line_text (statement_words (Inverter wmax wsf psf floor)) }
{
    let mut pen = Pen::new();
    pen.next(floor);
    pen.signed(psf);
    pen.signed(wsf);
    pen.next(wmax);
    pen.text(b"inverter");
    pen
}

/// The line of an inverter.
fn inverter_line(unit: &Unit) -> Pen
    ensures { tail_of result ≡ line_text (statement_words (inverter_statement unit.now)) }
{
    let rating = &unit.rating;
    numbered_inverter(
        u64::from(rating.wmax),
        rating.wsf,
        rating.psf,
        u64::from(unit.floor),
    )
}

/// The line of a begin at a moment in ms.
fn begin_line(start: u64) -> Pen
    ensures { tail_of result ≡ line_text (statement_words (Begin start)) }
{
    let mut pen = Pen::new();
    pen.one(b"begin", start);
    pen
}

/// Adds a line.
#[inline]
fn put(out: &mut Vec<u8>, line: &[u8]) -> Result<(), NoMemory>
    ensures line { OnOk result (out.new.items ≡ out.old.items ++ line.now) }
    ensures unchanged { OnErr result (out.new.items ≡ out.old.items) }
{
    out.extend_from_slice(line).map_err(|_| NoMemory)
}

/// Adds the lines of inverters.
fn put_inverters(out: &mut Vec<u8>, units: &[Unit]) -> Result<(), NoMemory>
    ensures text { OnOk result (out.new.items ≡ out.old.items ++ inverters_text units.now) }
    ensures front { OnErr result (IsLonger out.old.items out.new.items) }
{
    for unit in units {
        put(out, inverter_line(unit).line())?;
    }
    Ok(())
}

/// Adds the lines of a head.
fn put_head(out: &mut Vec<u8>, site: &Site, start: u64) -> Result<(), NoMemory>
    ensures text { OnOk result (out.new.items ≡ out.old.items ++ head_text site.now start) }
    ensures front { OnErr result (IsLonger out.old.items out.new.items) }
{
    put(out, site_line(site).line())?;
    put_inverters(out, &site.units)?;
    put(out, begin_line(start).line())
}

/// Adds the head of a book: its site, its inverters and the moment in ms at which it begins. Where memory runs out
/// nothing is added.
pub fn head_text(out: &mut Vec<u8>, site: &Site, start: u64) -> Result<(), NoMemory>
    ensures text { OnOk result (out.new.items ≡ out.old.items ++ head_text site.now start) }
    ensures unchanged { OnErr result (out.new.items ≡ out.old.items) }
{
    let length = out.len();
    let added = put_head(out, site, start);
    if added.is_err() {
        out.truncate(length);
    }
    added
}

/// Adds the line of an entry, with its reply. Where memory runs out nothing is added.
pub fn entry_text(out: &mut Vec<u8>, entry: &Entry) -> Result<(), NoMemory>
    ensures text { OnOk result (out.new.items ≡ out.old.items ++ entry_text entry.now) }
    ensures unchanged { OnErr result (out.new.items ≡ out.old.items) }
{
    let mut pen = Pen::new();
    entry_line(&mut pen, entry);
    put(out, pen.line())
}

/// Adds the line of a restart at a moment in ms. Where memory runs out nothing is added.
pub fn restart_text(out: &mut Vec<u8>, at: u64) -> Result<(), NoMemory>
    ensures text { OnOk result (out.new.items ≡ out.old.items ++ restart_text at) }
    ensures unchanged { OnErr result (out.new.items ≡ out.old.items) }
{
    put(out, restart_line(at).line())
}

/// Adds the line of a roll. Where memory runs out nothing is added.
pub fn roll_text(out: &mut Vec<u8>) -> Result<(), NoMemory>
    ensures text { OnOk result (out.new.items ≡ out.old.items ++ roll_text) }
    ensures unchanged { OnErr result (out.new.items ≡ out.old.items) }
{
    put(out, roll_line().line())
}
