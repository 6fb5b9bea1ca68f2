//! One output of the table is done.
ghost use Rattle.std.specs.Prelude.{◌≡◌, ◌<◌, ◌≤◌, length};
ghost use Rattle.world_traits.specs.Clocks.{AreGiven, readings_max};
ghost use Rattle.worker_turn.specs.Doing.{IsDoneOn, world_of};
ghost use Rattle.ledger_desk.specs.Desk.{TestsLast};
ghost use Rattle.worker_turn.specs.Desks.{IsToldNow, RollsNone};
ghost use Rattle.worker_turn.specs.Acts.{IsDoable, ticket_after};

use crate::desk_acts::{Came, ask_goal, give_back, make_call, read_clock};
use crate::line::Line;
use crate::link_acts::{make_link, send_request, take_down, wait_for_frame};
use inverter_worker::{Input, Job, Output};
use ledger_desk::Desk;
use plant_ledger::Ticket;
use world_traits::{Clock, Watch};

/// Does an output with the ticket in hand.
pub(crate) fn perform<D: Desk, L: Line, K: Clock>(
    job: &Job,
    output: Output,
    ticket: Option<Ticket>,
    desk: &mut D,
    line: &mut L,
    watch: &mut Watch<'_, K>,
) -> Came
    requires base { job.now.port.base ≤ 65514 }
    requires of_desk { job.now.inverter < (D.state desk.old).inverters }
    requires doable { IsDoable job.now output ticket }
    requires readings { length watch.old.readings < readings_max }
    ensures done { IsDoneOn L.shares job.now output result.input
        (world_of (D.state desk.old).made (L.links line.old) (L.faults line.old) watch.old.readings
        (L.unread line.old))
        (world_of (D.state desk.new).made (L.links line.new) (L.faults line.new) watch.new.readings
        (L.unread line.new)) }
    ensures told { IsToldNow (D.tests desk.new) job.now.inverter (D.state desk.new) result.input }
    ensures last { TestsLast (D.tests desk.old) (D.tests desk.new) }
    ensures stays { RollsNone (D.state desk.old) (D.state desk.new) }
    ensures kept { D.kept desk.new ≡ D.kept desk.old }
    ensures line { L.kept line.new ≡ L.kept line.old }
    ensures ticket { result.ticket ≡ ticket_after output result.input ticket }
    ensures given { AreGiven (K.may_give watch.old.clock) watch.old.readings
        → AreGiven (K.may_give watch.old.clock) watch.new.readings }
    ensures clock { watch.new.clock ≡ watch.old.clock }
{
    match output {
        Output::Goal => came(ask_goal(job, desk), ticket),
        Output::Dial => came(make_link(job, line), ticket),
        Output::Now => came(read_clock(job, watch), ticket),
        Output::Call(call) => make_call(job, call, ticket, desk),
        Output::Release(_, at) => match ticket {
            Some(ticket) => came(give_back(job, ticket, at, desk), None),
            None => unreachable!(),
        },
        Output::Send(request, clock) => {
            came(send_request(job, request, clock, ticket, line), None)
        }
        Output::Receive => came(wait_for_frame(job, line), ticket),
        Output::HangUp => came(take_down(job, line), ticket),
        Output::Rest(ms) => {
            watch.rest(u64::from(ms));
            came(Input::Rested, ticket)
        }
        Output::End | Output::Nothing => unreachable!(),
    }
}

fn came(input: Input, ticket: Option<Ticket>) -> Came
    ensures input { result.input ≡ input }
    ensures ticket { result.ticket ≡ ticket }
{
    Came { input, ticket }
}
