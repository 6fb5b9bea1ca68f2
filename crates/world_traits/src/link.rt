ghost use Rattle.std.specs.Prelude.{◌≡◌, IfOk, OnOk, OnErr, length};
ghost use Rattle.std.specs.String.{string_bytes};

use limiter_num::NoMemory;
use std::alloc::Global;
use std::marker::Model;

/// What a receive that worked came to.
#[derive(Debug, Drop)]
pub enum Answer {
    /// The bytes that came.
    Bytes(Vec<u8>),
    /// Nothing came in time.
    Quiet,
    /// The peer closed the link.
    Closed,
}

/// The answer of a receive, and how many bytes were sent on its link before it.
#[derive(Debug, Drop)]
pub struct Receipt {
    answer: Answer,
    sent_before: usize,
}

impl Model for Receipt {
    ghost use Rattle.world_traits.specs.Links.{Receipt as Record};

    ghost Value = { Record };

    ghost use Rattle.world_traits.specs.Kept.{kept_answer};

    ghost view = { λ r. record { answer = kept_answer r.answer; sent_before = r.sent_before } };
}

/// The record of one link, but for a receive that failed on it.
#[derive(Debug, Drop)]
pub struct Link {
    host: String,
    port: u16,
    sent: Vec<u8>,
    receipts: Vec<Receipt>,
}

impl Model for Link {
    ghost use Rattle.std.specs.String.{string_bytes};
    ghost use Rattle.world_traits.specs.Links.{Link as Record};

    ghost Value = { Record };

    ghost view = { λ l. record {
      host = string_bytes l.host;
      port = l.port;
      sent = l.sent.items;
      receipts = l.receipts.items;
    } };
}

impl Link {
    ghost use Rattle.world_traits.specs.Kept.{kept_answer};
    ghost use Rattle.world_traits.specs.Links.{link_with_receipt, link_with_bytes, new_link};

    /// A link to a host's TCP port, on which nothing was sent or received yet.
    pub(crate) fn new(alloc: Global, host: &str, port: u16) -> Result<Self, NoMemory>
        ensures { IfOk result (λ link. link ≡ new_link host.now port) }
    {
        Ok(Link {
            host: String::from_str(alloc, host).map_err(|_| NoMemory)?,
            port,
            sent: Vec::new(alloc),
            receipts: Vec::new(alloc),
        })
    }

    /// Notes bytes that were sent.
    pub(crate) fn add_sent(&mut self, bytes: &[u8]) -> Result<(), NoMemory>
        ensures ok { OnOk result (self.new ≡ link_with_bytes bytes.now self.old) }
        ensures err { OnErr result (self.new ≡ self.old) }
    {
        self.sent.extend_from_slice(bytes).map_err(|_| NoMemory)
    }

    /// Notes what a receive answered.
    pub(crate) fn add_answer(&mut self, answer: Answer) -> Result<(), NoMemory>
        ensures ok { OnOk result (self.new ≡ link_with_receipt (kept_answer answer) self.old) }
        ensures err { OnErr result (self.new ≡ self.old) }
    {
        let sent_before = self.sent.len();
        let receipt = Receipt {
            answer,
            sent_before,
        };
        self.receipts.push(receipt).map_err(|_| NoMemory)
    }

    /// The host's name or address that was dialed.
    pub fn host(&self) -> &str
        ensures { result.now ≡ self.now.host }
    {
        &self.host
    }

    /// The TCP port that was dialed.
    pub fn port(&self) -> u16
        ensures { result ≡ self.now.port }
    {
        self.port
    }

    /// The bytes that were sent.
    pub fn sent(&self) -> &[u8]
        ensures { result.now ≡ self.now.sent }
    {
        &self.sent
    }

    /// How many receives have come to something.
    pub fn answers(&self) -> usize
        ensures { result ≡ length self.now.receipts }
    {
        self.receipts.len()
    }
}

/// How a link came to its end.
#[derive(Clone, Copy, Debug, PartialEq, Eq)]
pub enum Ending {
    /// By a hang-up, or by the next dial.
    HungUp,
    /// By a receive that failed.
    Failed,
}

/// The record of a link that is over.
#[derive(Debug, Drop)]
pub struct PastLink {
    link: Link,
    ending: Ending,
}

impl Model for PastLink {
    ghost use Rattle.world_traits.specs.Links.{Link as Record};

    ghost Value = { Record };

    ghost use Rattle.world_traits.specs.Kept.{past_link};

    ghost view = { λ p. past_link p.ending p.link };
}

impl PastLink {
    ghost use Rattle.world_traits.specs.Kept.{past_link};
    ghost use Rattle.world_traits.specs.Links.{without_receipts};

    /// A link that came to such an end.
    pub fn new(link: Link, ending: Ending) -> Self
        ensures { result ≡ past_link ending link }
    {
        PastLink { link, ending }
    }

    /// The record of the link, but for a receive that failed on it.
    pub fn link(&self) -> &Link
        ensures { without_receipts result.now ≡ without_receipts self.now }
    {
        &self.link
    }
}
