//! What is done with the link.
ghost use Rattle.std.specs.Prelude.{◌≡◌, ◌<◌, ◌≤◌, length};
ghost use Rattle.worker_turn.specs.Doing.{World, IsDoneOn, request_frame};
ghost use Rattle.worker_turn.specs.Desks.{IsPlain};
ghost use Rattle.worker_turn.specs.Acts.{IsDoable};

use crate::line::Line;
use frame_inbox::NoFrame;
use inverter_worker::{Asked, Input, Job, Output};
use mbap_frames::{Frame, frame_bytes};
use plant_ledger::Ticket;
use readback::{read_request, write_request};

/// Makes a link, on which nothing came yet.
pub(crate) fn make_link<L: Line>(job: &Job, line: &mut L) -> Input
    ensures done { (rest : World) → IsDoneOn L.shares job.now Output.Dial result
        (record rest { links = L.links line.old; faults = L.faults line.old; unread = L.unread line.old })
        (record rest { links = L.links line.new; faults = L.faults line.new; unread = L.unread line.new }) }
    ensures plain { IsPlain result }
    ensures kept { L.kept line.new ≡ L.kept line.old }
{
    let host = job.port.host.as_str();
    match line.dial(host, job.port.port, job.wait) {
        Ok(()) => Input::Dialed,
        Err(_) => Input::DialFailed,
    }
}

/// Sends the frame of a request. That of a write uses its ticket up.
pub(crate) fn send_request<L: Line>(
    job: &Job,
    request: Asked,
    clock: u64,
    ticket: Option<Ticket>,
    line: &mut L,
) -> Input
    requires base { job.now.port.base ≤ 65514 }
    requires ticket { IsDoable job.now (Output.Send request clock) ticket }
    ensures done { (rest : World) → IsDoneOn L.shares job.now (Output.Send request clock) result
        (record rest { links = L.links line.old; faults = L.faults line.old; unread = L.unread line.old })
        (record rest { links = L.links line.new; faults = L.faults line.new; unread = L.unread line.new }) }
    ensures plain { IsPlain result }
    ensures kept { L.kept line.new ≡ L.kept line.old }
{
    let frame = frame_of(job, request, clock, ticket);
    match line.send_whole(frame_bytes(&frame).as_slice()) {
        Ok(()) => Input::SentAll,
        Err(_) => Input::SendFailed,
    }
}

/// The frame of a request, which is to be sent at this reading of the clock in ms.
fn frame_of(job: &Job, request: Asked, clock: u64, ticket: Option<Ticket>) -> Frame
    requires base { job.now.port.base ≤ 65514 }
    requires ticket { IsDoable job.now (Output.Send request clock) ticket }
    ensures frame { result ≡ request_frame job.now request }
    ensures begins { 0 < length result.pdu }
{
    match (request, ticket) {
        (Asked::Write(_), Some(ticket)) => {
            write_request(&ticket.spend(), &job.unit, &job.port, &job.rules)
        }
        (Asked::Write(_), None) => unreachable!(),
        (Asked::Read(read), _) => read_request(&read, &job.port),
    }
}

/// Waits for a frame.
pub(crate) fn wait_for_frame<L: Line>(job: &Job, line: &mut L) -> Input
    ensures done { (rest : World) → IsDoneOn L.shares job.now Output.Receive result
        (record rest { links = L.links line.old; faults = L.faults line.old; unread = L.unread line.old })
        (record rest { links = L.links line.new; faults = L.faults line.new; unread = L.unread line.new }) }
    ensures plain { IsPlain result }
    ensures kept { L.kept line.new ≡ L.kept line.old }
{
    match line.next_frame() {
        Ok(frame) => Input::Frame(frame),
        Err(NoFrame::Quiet) => Input::Quiet,
        Err(NoFrame::Closed) => Input::Closed,
        Err(NoFrame::RecvFailed) => Input::RecvFailed,
        Err(NoFrame::BadFrame(_)) => Input::BadFrame,
    }
}

/// Takes the link down, and forgets what came on it.
pub(crate) fn take_down<L: Line>(job: &Job, line: &mut L) -> Input
    ensures done { (rest : World) → IsDoneOn L.shares job.now Output.HangUp result
        (record rest { links = L.links line.old; faults = L.faults line.old; unread = L.unread line.old })
        (record rest { links = L.links line.new; faults = L.faults line.new; unread = L.unread line.new }) }
    ensures plain { IsPlain result }
    ensures kept { L.kept line.new ≡ L.kept line.old }
{
    line.hang_up();
    Input::HungUp
}
