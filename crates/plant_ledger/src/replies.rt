//! The reply to a call, by the accounts.
ghost use Rattle.std.specs.Prelude.{◌≡◌, ◌<◌, IfSome, Some};
ghost use Rattle.plant_book.specs.Calls.{moment, named};
ghost use Rattle.plant_book.specs.Site.{inverters};
ghost use Rattle.plant_book.specs.Writes.{live};
ghost use Rattle.plant_book.specs.Part.{last_moment_of, calls_of};
ghost use Rattle.plant_book.specs.Carry.{EachBook};
ghost use Rattle.plant_book.specs.Answer as rule;

use crate::account::covering_left;
use crate::ledger::Ledger;
use plant_book::{CALLS_MAX, Call, REQUESTS_MAX, Read, Reply, Unit, Write};
use uncertain_writes::Live;

impl Ledger {
    /// The reply to a call of this moment.
    pub fn answer(&self, call: &Call) -> Reply
        requires now { moment call.now ≡ self.now.at }
        requires of_site { IfSome (named call.now) (λ inverter. inverter < inverters self.now.book.site) }
        requires life { calls_of self.now.book < CALLS_MAX }
        ensures { EachBook self.now.book (λ whole. result ≡ rule.reply_to whole call.now) }
    {
        match *call {
            Call::Link { inverter, .. } => Reply::Linked(self.account(inverter).link + 1),
            Call::Ask { inverter, raw, .. } => self.reply_to_ask(inverter, raw),
            Call::Read { inverter, .. } => self.reply_to_read(inverter),
            Call::Saw {
                inverter,
                number,
                raw,
                ..
            } => self.reply_to_saw(inverter, number, raw),
            Call::Back {
                inverter,
                link,
                number,
                ..
            } => self.reply_to_back(inverter, link, number),
            Call::Tick { .. } => Reply::Total(self.total()),
            Call::Cap { mw, .. } => self.reply_to_cap(mw),
            Call::Want { .. } | Call::Stop { .. } => Reply::Taken,
        }
    }

    /// The raw percentage that the inverter may aim at.
    #[tactic(auto, unfolding(plant_book::specs::Answer::goal_raw))]
    pub fn goal(&self, inverter: u8) -> u16
        requires of_site { inverter < inverters self.now.book.site }
        requires last { self.now.at ≡ last_moment_of self.now.book }
        ensures { EachBook self.now.book (λ whole. result ≡ rule.goal_raw whole inverter) }
    {
        let most = self.reserved(inverter) + self.unreserved();
        let rating = &self.unit(inverter).rating;
        rating.raw_at_most(self.target(inverter).min(most))
    }

    /// The reply to an Ask: a link with requests left is wanted.
    #[tactic(auto, unfolding(plant_book::specs::Answer::reply_to_ask))]
    fn reply_to_ask(&self, inverter: u8, raw: u16) -> Reply
        requires { inverter < inverters self.now.book.site }
        ensures { EachBook self.now.book
            (λ whole. result ≡ rule.reply_to_ask whole self.now.at inverter raw) }
    {
        let account = self.account(inverter);
        if account.link == 0 {
            return Reply::Unlinked;
        }
        if account.requests >= REQUESTS_MAX {
            return Reply::Spent;
        }
        let write = Write {
            inverter,
            link: account.link,
            number: account.requests + 1,
            at: self.now(),
            raw,
        };
        self.reply_by_policy(&write)
    }

    /// The reply to an Ask on a link with requests left: the policy has to allow it, and the silence to be
    /// over.
    #[tactic(auto, unfolding(plant_book::specs::Answer::reply_by_policy))]
    fn reply_by_policy(&self, write: &Write) -> Reply
        requires of_site { write.now.inverter < inverters self.now.book.site }
        requires write { EachBook self.now.book (λ whole.
            write.now ≡ rule.write_at whole self.now.at write.now.inverter write.now.raw) }
        ensures { EachBook self.now.book
            (λ whole. result ≡ rule.reply_by_policy whole self.now.at write.now.inverter write.now.raw) }
    {
        let full = self.full(write.inverter);
        if write.raw > full {
            return Reply::Over(full);
        }
        let silent_until = self.silent_until();
        if self.now() <= silent_until {
            return Reply::Silent(silent_until);
        }
        let rating = &self.unit(write.inverter).rating;
        if !self.allows(write.inverter, self.limit(write.inverter, write.raw)) {
            return Reply::NotAllowed(rating.raw_at_most(self.target(write.inverter)));
        }
        self.reply_by_watts(write)
    }

    /// The reply to an Ask that the policy allows: unreserved watts and room for one more live write are
    /// wanted.
    #[tactic(auto, unfolding(plant_book::specs::Answer::reply_by_watts))]
    fn reply_by_watts(&self, write: &Write) -> Reply
        requires of_site { write.now.inverter < inverters self.now.book.site }
        requires write { EachBook self.now.book (λ whole.
            write.now ≡ rule.write_at whole self.now.at write.now.inverter write.now.raw) }
        ensures { EachBook self.now.book
            (λ whole. result ≡ rule.reply_by_watts whole self.now.at write.now.inverter write.now.raw) }
    {
        let unreserved = self.unreserved();
        let reserved = self.reserved(write.inverter);
        let limit = self.limit(write.inverter, write.raw);
        if reserved.max(limit) - reserved > unreserved {
            return Reply::NoWatts(unreserved);
        }
        if self.account(write.inverter).live().is_full() {
            return Reply::Crowded;
        }
        Reply::Granted(*write)
    }

    /// The reply to a Read: a link with requests left is wanted.
    #[tactic(auto, unfolding(plant_book::specs::Answer::reply_to_read))]
    fn reply_to_read(&self, inverter: u8) -> Reply
        requires { inverter < inverters self.now.book.site }
        ensures { EachBook self.now.book (λ whole. result ≡ rule.reply_to_read whole self.now.at inverter) }
    {
        let account = self.account(inverter);
        if account.link == 0 {
            return Reply::Unlinked;
        }
        if account.requests >= REQUESTS_MAX {
            return Reply::Spent;
        }
        Reply::ReadAs(Read {
            inverter,
            link: account.link,
            number: account.requests + 1,
            at: self.now(),
        })
    }

    /// The reply to a Saw: a pending read of this number is wanted.
    fn reply_to_saw(&self, inverter: u8, number: u16, raw: u16) -> Reply
        requires { inverter < inverters self.now.book.site }
        ensures { EachBook self.now.book
            (λ whole. result ≡ rule.reply_to_saw whole self.now.at inverter number raw) }
    {
        let pending = self.account(inverter).pending();
        match pending {
            Some(read) if read.number == number => self.reply_to_sight(inverter, &read, raw),
            _ => Reply::NoRead,
        }
    }

    /// The reply to a Saw of the pending read: its raw percentage has to be the floor's or that of a live
    /// write.
    fn reply_to_sight(&self, inverter: u8, read: &Read, raw: u16) -> Reply
        requires { inverter < inverters self.now.book.site }
        ensures { EachBook self.now.book (λ whole.
            result ≡ rule.reply_to_sight whole.site inverter (Some read.now) raw
            (live whole.site.rules whole.entries self.now.at inverter)) }
    {
        let account = self.account(inverter);
        let live = account.live();
        if !is_known(self.unit(inverter), live, raw) {
            return Reply::Strange(raw);
        }
        let rules = self.rules();
        Reply::Freed {
            count: live.freed(&rules, read, raw),
            reserved: covering_left(account.unit(), account.floor(), live, &rules, read, raw),
        }
    }

    /// The reply to a Back: a live write of these numbers is wanted.
    fn reply_to_back(&self, inverter: u8, link: u32, number: u16) -> Reply
        requires { inverter < inverters self.now.book.site }
        ensures { EachBook self.now.book
            (λ whole. result ≡ rule.reply_to_back whole self.now.at inverter link number) }
    {
        if self.account(inverter).live().holds(link, number) {
            Reply::Taken
        } else {
            Reply::NoWrite
        }
    }

    /// The reply to a Cap: the floors have to fit under it, and the site's cap to be no lower.
    #[tactic(auto, unfolding(plant_book::specs::Answer::reply_to_cap))]
    fn reply_to_cap(&self, mw: u64) -> Reply
        ensures { EachBook self.now.book (λ whole. result ≡ rule.reply_to_cap whole self.now.at mw) }
    {
        let least = self.floors();
        let most = self.site_cap();
        if mw < least || mw > most {
            return Reply::CapOut { least, most };
        }
        Reply::CapSet {
            cap: mw,
            ceiling: self.ceiling_with(mw),
        }
    }

    /// The ceiling right after this cap is set. Both are in mW.
    fn ceiling_with(&self, mw: u64) -> u64
        ensures { EachBook self.now.book (λ whole. result ≡ rule.ceiling_with whole self.now.at mw) }
    {
        if self.now() <= self.silent_until() {
            return self.site_cap();
        }
        mw.max(self.total())
    }
}

/// Whether a raw percentage is the inverter's floor or that of one of its live writes.
fn is_known(unit: &Unit, live: &Live, raw: u16) -> bool
    ensures { result ≡ rule.is_raw_of unit.now.floor raw live.now }
{
    raw == unit.floor || live.knows(raw)
}
