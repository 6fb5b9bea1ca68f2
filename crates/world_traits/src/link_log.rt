ghost use Rattle.std.specs.Prelude.{◌≡◌, ◌↔◌, ◌+◌, ◌<◌, ◌≤◌, IsSome, IsTrue, IfOk, None, OnErr, OnOk};
ghost use Rattle.std.specs.Prelude.{length, slice_get, vec_len};
ghost use Rattle.std.specs.Option.{ForSome, option_copied, option_map};
ghost use Rattle.std.specs.Vec.{vec_capacity};
ghost use Rattle.world_traits.specs.Kept.{kept_answer, past_link};
ghost use Rattle.world_traits.specs.Links.{FitsInto, all_links, answer_of, links_with, no_links, without_receipts};
ghost use Rattle.world_traits.specs.Links.{after_hang_up, with_bytes, with_failure, with_link, with_receipt};

use crate::dialer::Received;
use crate::link::{Answer, Ending, Link, PastLink};
use limiter_num::NoMemory;
use std::alloc::Global;
use std::marker::Model;

/// The record of links in memory, for dialers that tell it. Each call notes what a dialer did; where memory runs out the
/// record stays as it was.
#[derive(Debug, Drop)]
pub struct LinkLog {
    alloc: Global,
    past: Vec<PastLink>,
    current: Option<Link>,
}

impl Model for LinkLog {
    ghost use Rattle.std.specs.Prelude.{◌<◌, vec_len};
    ghost use Rattle.std.specs.Option.{ForSome};
    ghost use Rattle.std.specs.Vec.{vec_capacity};
    ghost use Rattle.world_traits.specs.Links.{Links};

    ghost Value = { Links };

    ghost view = { λ l. record { past = l.past.items; current = l.current } };

    // There is room to end the link that is up.
    ghost invariant = { λ l. ForSome l.current (λ _. vec_len l.past < vec_capacity l.past) };
}

impl LinkLog {
    /// The record before the first dial.
    pub fn new(alloc: Global) -> Self
        ensures { result ≡ no_links }
    {
        LinkLog {
            alloc,
            past: Vec::new(alloc),
            current: None,
        }
    }

    /// Whether a link is up.
    pub fn is_up(&self) -> bool
        ensures { IsTrue result ↔ IsSome self.now.current }
    {
        self.current.is_some()
    }

    /// Notes a dial that worked. The new link is up.
    pub fn dial(&mut self, host: &str, port: u16) -> Result<(), NoMemory>
        ensures ok { OnOk result (self.new ≡ with_link host.now port self.old) }
        ensures err { OnErr result (self.new ≡ self.old) }
    {
        let link = Link::new(self.alloc, host, port)?;
        self.past.reserve(2).map_err(|_| NoMemory)?;
        end(&mut self.past, &mut self.current, Ending::HungUp);
        self.current = Some(link);
        Ok(())
    }

    /// Notes bytes that were sent on the link that is up.
    pub fn send(&mut self, bytes: &[u8]) -> Result<(), NoMemory>
        ensures ok { OnOk result (self.new ≡ with_bytes bytes.now self.old) }
        ensures err { OnErr result (self.new ≡ self.old) }
    {
        match &mut self.current {
            Some(link) => link.add_sent(bytes),
            None => Ok(()),
        }
    }

    /// Notes what a receive on the link that is up came to, with the bytes that it gave at the front of `into`.
    pub fn receive(&mut self, received: Received, into: &[u8]) -> Result<(), NoMemory>
        requires { FitsInto into.now received }
        ensures ok { OnOk result (self.new ≡ with_receipt (answer_of into.now received) self.old) }
        ensures err { OnErr result (self.new ≡ self.old) }
    {
        let answer = answer_in(self.alloc, received, into)?;
        match &mut self.current {
            Some(link) => link.add_answer(answer),
            None => Ok(()),
        }
    }

    /// Notes a receive that failed. The link that was up is over.
    pub fn fail(&mut self)
        ensures { self.new ≡ with_failure self.old }
    {
        end(&mut self.past, &mut self.current, Ending::Failed);
    }

    /// Ends the link that is up, if one is.
    pub fn hang_up(&mut self)
        ensures { self.new ≡ after_hang_up self.old }
    {
        end(&mut self.past, &mut self.current, Ending::HungUp);
    }

    /// How many links were made so far.
    pub fn count(&self) -> usize
        ensures { result ≡ length (all_links self.now) }
    {
        self.past.len() + usize::from(self.current.is_some())
    }

    /// The link at this place, counted from 0, if there is one.
    pub fn link(&self, place: usize) -> Option<&Link>
        ensures { option_map without_receipts (option_copied result)
            ≡ option_map without_receipts (slice_get (all_links self.now) place) }
    {
        match self.past.get(place) {
            Some(past) => Some(past.link()),
            None if place == self.past.len() => self.current.as_ref(),
            None => None,
        }
    }
}

/// Puts the link that was up, if one was, behind those that are over.
fn end(past: &mut Vec<PastLink>, current: &mut Option<Link>, ending: Ending)
    requires { ForSome current.old (λ _. vec_len past.old < vec_capacity past.old) }
    ensures past { past.new.items ≡ links_with past.old.items (option_map (past_link ending) current.old) }
    ensures current { current.new ≡ None }
    ensures len { vec_len past.new ≤ vec_len past.old + 1 }
    ensures capacity { vec_capacity past.old ≤ vec_capacity past.new }
{
    if let Some(link) = current.take() {
        if past.push(PastLink::new(link, ending)).is_err() {
            unreachable!()
        }
    }
}

/// What a receive came to, with the bytes that it gave.
fn answer_in(alloc: Global, received: Received, into: &[u8]) -> Result<Answer, NoMemory>
    requires { FitsInto into.now received }
    ensures { IfOk result (λ answer. kept_answer answer ≡ answer_of into.now received) }
{
    Ok(match received {
        Received::Bytes(count) => Answer::Bytes(into[..count].to_vec(alloc).map_err(|_| NoMemory)?),
        Received::Quiet => Answer::Quiet,
        Received::Closed => Answer::Closed,
    })
}
