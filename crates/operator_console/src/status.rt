//! What a status shows.
ghost use Rattle.std.specs.Prelude.{◌≡◌, ◌≤◌, ◌++◌, List};
ghost use Rattle.ledger_desk.specs.Desk.{EntersNone};
ghost use Rattle.operator_console.specs.Comments.{reply_line};
ghost use Rattle.operator_console.specs.Deeds.{Told};
ghost use Rattle.operator_console.specs.Handling.{AreTold, goals_text};
ghost use Rattle.ledger_desk.specs.Desk.{TestsLast};

use crate::comments::{goal_text, reply_text};
use fixed_list::FixedList;
use ledger_desk::Desk;
use plant_book::Reply;

/// Room for the line of a total, and for those of 64 inverters.
const STATUS_MAX: usize = 4096;

/// The lines of a status.
pub(crate) type StatusText = FixedList<u8, STATUS_MAX>;

/// Asks the desk for the goal of each inverter, and puts their lines behind the one of the reply to a Tick.
pub(crate) fn status_text<D: Desk>(reply: &Reply, desk: &mut D, inverters: u32) -> StatusText
    requires few { inverters ≤ 64 }
    requires of_desk { inverters ≡ (D.state desk.old).inverters }
    ensures told { (told : List Told) × (result ≡ reply_line reply.now ++ goals_text told)
        × AreTold (D.tests desk.new).may_tell inverters (D.state desk.old) (D.state desk.new) told }
    ensures none { EntersNone (D.state desk.old) (D.state desk.new) }
    ensures last { TestsLast (D.tests desk.old) (D.tests desk.new) }
    ensures kept { D.kept desk.new ≡ D.kept desk.old }
{
    let mut text = StatusText::from_slice(reply_text(reply).as_slice());
    for inverter in 0..inverters {
        let goal = desk.goal(inverter as u8);
        text.extend_from_slice(goal_text(inverter as u8, &goal).as_slice());
    }
    text
}
