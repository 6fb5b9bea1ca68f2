ghost use Rattle.std.specs.Prelude.{◌≡◌};
ghost use Rattle.plant_ledger.specs.Opening.{ticket_for};

use plant_book::{Reply, Write};
use std::marker::Model;

/// The right to send one granted write, once. Only a grant makes one, and there is no copy of it.
#[derive(Debug, Drop)]
pub struct Ticket {
    write: Write,
}

impl Model for Ticket {
    ghost use Rattle.plant_book.specs.declared.call.Write.{Write};

    ghost Value = { Write };

    ghost view = { λ t. t.write };
}

impl Ticket {
    /// The write that it is for.
    pub fn write(&self) -> Write
        ensures { result ≡ self.now }
    {
        self.write
    }

    /// Uses the ticket up.
    pub fn spend(self) -> Write
        ensures { result ≡ self }
    {
        self.write
    }
}

/// The ticket that goes with a reply.
pub(crate) fn ticket_with(reply: &Reply) -> Option<Ticket>
    ensures { result ≡ ticket_for reply.now }
{
    match *reply {
        Reply::Granted(write) => Some(Ticket { write }),
        _ => None,
    }
}
