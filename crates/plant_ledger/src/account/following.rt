//! What one more entry makes of an account.
ghost use Rattle.std.specs.Prelude.{◌≡◌, ◌+◌, ◌<◌, None, Some, not, filter};
ghost use Rattle.plant_book.specs.Writes.{frees};
ghost use Rattle.plant_ledger.specs.Account.{HasRoom, after_ask, after_read, after_saw, after_back, after_call};

use super::{Account, covering};
use limiter_num::Rules;
use plant_book::{Call, Entry, Read, Reply};

impl Account {
    /// Follows one more entry, which names the inverter. What is past by its moment has to be gone.
    pub fn follow(&mut self, rules: &Rules, entry: &Entry)
        requires links { self.old.link < 4294967295 }
        requires room { HasRoom entry.now.reply self.old }
        ensures { self.new ≡ after_call rules.now entry.now.call entry.now.reply self.old }
    {
        let reply = &entry.reply;
        match entry.call {
            Call::Link { .. } => self.link_up(),
            Call::Ask { .. } => self.grant(reply),
            Call::Read { .. } => self.number(reply),
            Call::Saw { raw, .. } => self.see(rules, raw, reply),
            Call::Back { link, number, .. } => self.give_back(link, number, reply),
            Call::Want { mw, .. } => self.wish = mw,
            Call::Tick { .. } | Call::Stop { .. } | Call::Cap { .. } => {}
        }
    }

    /// A new link begins with no request and no pending read. Writes of the old one may still act.
    fn link_up(&mut self)
        requires { self.old.link < 4294967295 }
        ensures { self.new ≡ record self.old { link = self.old.link + 1; requests = 0; pending = None } }
    {
        self.link += 1;
        self.requests = 0;
        self.pending = None;
    }

    /// A granted write is a request, and is live.
    fn grant(&mut self, reply: &Reply)
        requires { HasRoom reply.now self.old }
        ensures { self.new ≡ after_ask reply.now self.old }
    {
        if let Reply::Granted(write) = *reply {
            let limit = self.limit(write.raw);
            self.requests += 1;
            self.reserved = self.reserved.max(limit);
            self.oldest = self.oldest.min(write.at);
            let added = self.live.add(write);
            prove!(added.is_ok());
        }
    }

    /// A numbered read is a request, and is pending.
    fn number(&mut self, reply: &Reply)
        requires { HasRoom reply.now self.old }
        ensures { self.new ≡ after_read reply.now self.old }
    {
        if let Reply::ReadAs(read) = *reply {
            self.requests += 1;
            self.pending = Some(read);
        }
    }

    /// What a read showed ends it. It frees writes, unless it is strange.
    fn see(&mut self, rules: &Rules, raw: u16, reply: &Reply)
        ensures { self.new ≡ after_saw rules.now raw reply.now self.old }
    {
        match *reply {
            Reply::Freed { .. } => self.free(rules, raw),
            Reply::Strange(_) => {
                self.pending = None;
                self.strange = true;
            }
            _ => {}
        }
    }

    /// The pending read showed this raw percentage, which is one of those that were expected.
    fn free(&mut self, rules: &Rules, raw: u16)
        ensures { self.new ≡ after_saw rules.now raw (Reply.Freed 0 0) self.old }
    {
        if let Some(read) = self.pending {
            self.settle(rules, &read, raw);
        }
        self.pending = None;
        self.strange = false;
    }

    /// Drops the writes that a read frees which showed this raw percentage.
    fn settle(&mut self, rules: &Rules, read: &Read, raw: u16)
        ensures { self.new ≡ record self.old
            { live = filter (λ write. not (frees rules.now (Some read.now) raw write)) self.old.live } }
    {
        let _ = self.live.seen(rules, read, raw);
        self.oldest = self.live.oldest();
        self.reserved = covering(&self.unit, self.floor, &self.live);
    }

    /// A write that was given back is live no more.
    fn give_back(&mut self, link: u32, number: u16, reply: &Reply)
        ensures { self.new ≡ after_back link number reply.now self.old }
    {
        if *reply == Reply::Taken {
            let _ = self.live.drop_unsent(link, number);
            self.oldest = self.live.oldest();
            self.reserved = covering(&self.unit, self.floor, &self.live);
        }
    }
}
