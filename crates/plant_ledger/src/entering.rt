ghost use Rattle.std.specs.Prelude.{◌≡◌, ◌<◌, ◌≤◌, length, IfSome};
ghost use Rattle.plant_book.specs.Site.{inverters};
ghost use Rattle.plant_book.specs.Calls.{moment, named};
ghost use Rattle.plant_book.specs.Answered.{IsInRange};
ghost use Rattle.plant_book.specs.Carry.{EachBefore};
ghost use Rattle.plant_ledger.specs.Ledger.{IsAtLast};
ghost use Rattle.plant_ledger.specs.Plant.{entered, GoesOn};

use crate::ledger::Ledger;
use plant_book::{Call, Entry, MOMENT_MAX, Reply};

/// Goes on to the moment of a call, which isn't earlier, and makes what its reply needs.
fn go_on(ledger: &mut Ledger, call: &Call)
    requires later { ledger.old.at ≤ moment call.now }
    requires high { moment call.now ≤ MOMENT_MAX }
    requires of_site { IfSome (named call.now) (λ inverter. inverter < inverters ledger.old.book.site) }
    ensures { ledger.new ≡ record ledger.old { at = moment call.now } }
{
    ledger.advance(call.at());
    if let Call::Ask { inverter, raw, .. } = *call {
        ledger.make_levels(inverter, raw);
    }
}

/// Enters a call into a book that has room for it.
pub fn enter(ledger: &mut Ledger, call: Call) -> Reply
    requires kept { IsAtLast ledger.old }
    requires moment { moment call ≤ MOMENT_MAX }
    requires of_site { IfSome (named call) (λ inverter. inverter < inverters ledger.old.book.site) }
    requires in_range { IsInRange call }
    requires room { length ledger.old.book.entries < ledger.old.book.site.room }
    ensures entered { ledger.new.book ≡ entered ledger.old.book call result }
    ensures lives { EachBefore ledger.old.book
        (λ before. GoesOn before ledger.old.book call result ledger.new.book) }
    ensures kept { IsAtLast ledger.new }
{
    let call = call.at_moment(call.at().max(ledger.now()));
    go_on(ledger, &call);
    let reply = ledger.answer(&call);
    ledger.enter(Entry { call, reply });
    reply
}
