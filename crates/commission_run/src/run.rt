//! A commissioning from the dial to the hang-up.
ghost use Rattle.std.specs.Prelude.{◌≡◌, ◌≢◌, ◌<◌, ◌≤◌, List, ℕ, IsSome, IsOk, IfErr, IfOk, IfSome, OnErr, OnOk, Some, None, Ok, Err, length, option_to_list};
ghost use Rattle.std.specs.Option.{option_map};
ghost use Rattle.std.specs.Io.KnownBytes.{Appends};
ghost use Rattle.world_traits.specs.Causes.{HasCause, Rose};
ghost use Rattle.world_traits.specs.Links.{Link, Links, after_hang_up, new_link, with_bytes};
ghost use Rattle.mbap_frames.specs.declared.frame.Frame.{Frame};
ghost use Rattle.mbap_frames.specs.Stream.{frames_spelling};
ghost use Rattle.commissioning.specs.Stage.{found_at};
ghost use Rattle.commissioning.specs.Asking.{asked};
ghost use Rattle.commissioning.specs.Taking.{taken};
ghost use Rattle.commissioning.specs.Ending.{frames_left};
ghost use Rattle.stream_io.specs.Streams.{AppendsFront};
ghost use Rattle.commission_run.specs.Course.{target_of, with_past_link};
ghost use Rattle.commission_run.specs.Ends.{IsCourse, HasReplies, at_dialer, at_output};
ghost use Rattle.commission_run.specs.Arriving as arriving;
ghost use Rattle.commission_run.specs.Arriving.{CutsShort, IsHandled, StopsWait, gained_text, with_current};
ghost use Rattle.frame_inbox.specs.Waiting.{IsAdvance};

use crate::job::Job;
use crate::line::{Line, commissioned_text, found_text};
use crate::stop::{Refusal, Stop};
use commissioning::{Commission, Record702, Took};
use frame_inbox::{Inbox, NoFrame};
use mbap_frames::{Frame, frame_bytes};
use stream_io::write_whole;
use world_traits::{Dialer, Sink, send_whole};

/// Dials an inverter, commissions it over the link, and hangs up. It writes the line of the points as soon as they
/// are found, before it sends anything more and before a refusal is answered, and the line of the inverter at the
/// end. It sends nothing after a line that couldn't be written.
pub fn commission<N: Dialer, O: Sink>(job: Job, dialer: &mut N, out: &mut O) -> Result<(), Stop>
    requires { job.port.base ≤ 65514 }

    // A failed dial, send, receive or write is answered exactly where one failed. After a write that failed nothing
    // more is written.
    ensures dialer_faults { HasCause (N.faults dialer.old) (N.faults dialer.new) (at_dialer result) }
    ensures output_faults { HasCause (O.faults out.old) (O.faults out.new) (at_output result) }
    ensures stops { O.faults out.old ≡ 0 → O.late out.new ≡ O.late out.old }

    // A dial that failed made no link, and nothing was written.
    ensures no_link { result ≡ Err (Stop.Refused Refusal.Dial)
        → (N.links dialer.new ≡ N.links dialer.old) × (out.new ≡ out.old) }

    // Else there is one link more, which is over, and this is what passed there.
    ensures course { result ≢ Err (Stop.Refused Refusal.Dial) → (frames : List Frame) × (link : Link)
        × (N.links dialer.new ≡ option_map (with_past_link link) (N.links dialer.old))
        × IsCourse (target_of job) job.inverter result frames link (O.taken out.old) (O.taken out.new) }

    // Where no call failed and the replies of an inverter that is commissioned came, it is done.
    ensures complete { (before : Links) (link : Link) → N.links dialer.old ≡ Some before
        → N.links dialer.new ≡ Some (with_past_link link before) → HasReplies (target_of job) link
        → (Rose (N.faults dialer.old) (N.faults dialer.new) → ⊥)
        → (Rose (O.faults out.old) (O.faults out.new) → ⊥) → IsOk result }
{
    let dialed = dialer.dial(job.port.host.as_str(), job.port.port, job.wait);
    if dialed.is_err() {
        return Err(Stop::Refused(Refusal::Dial));
    }
    let outcome = converse(job, dialer, out);
    dialer.hang_up();
    outcome
}

/// Commissions an inverter over the link that is up.
fn converse<N: Dialer, O: Sink>(job: Job, dialer: &mut N, out: &mut O) -> Result<(), Stop>
    requires base { job.port.base ≤ 65514 }
    requires up { IfSome (N.links dialer.old)
        (λ links. links.current ≡ Some (new_link job.port.host job.port.port)) }
    ensures course { (frames : List Frame) × (link : Link)
        × (option_map after_hang_up (N.links dialer.new)
        ≡ option_map (λ links. after_hang_up (with_current link links)) (N.links dialer.old))
        × IsCourse (target_of job) job.inverter result frames link (O.taken out.old) (O.taken out.new) }
    ensures dialer_faults { HasCause (N.faults dialer.old) (N.faults dialer.new) (at_dialer result) }
    ensures output_faults { HasCause (O.faults out.old) (O.faults out.new) (at_output result) }
    ensures stops { O.faults out.old ≡ 0 → O.late out.new ≡ O.late out.old }
{
    let Job {
        inverter,
        unit,
        port,
        rules,
        ..
    } = job;
    let mut commission = Commission::new(unit, port, rules);
    let mut inbox = Inbox::new();
    ask(&commission, dialer)?;
    while commission.next().is_some() {
        if let Some(frame) = advance(&mut inbox, dialer)? {
            take(&mut commission, &frame, dialer, out)?;
        }
    }
    write_line(out, &commissioned_text(inverter))
}

/// Hands out the next frame. Where none is whole yet it receives one piece, and hands out none.
fn advance<N: Dialer>(inbox: &mut Inbox, dialer: &mut N) -> Result<Option<Frame>, Stop>
    ensures advance { IfOk result (λ frame.
        IsAdvance (Ok frame) inbox.old inbox.new (N.links dialer.old) (N.links dialer.new)) }
    ensures none { IfErr result (λ stop.
        StopsWait stop inbox.old inbox.new (N.links dialer.old) (N.links dialer.new)) }
    ensures bound { length inbox.new < 520 }
    ensures cause { HasCause (N.faults dialer.old) (N.faults dialer.new) (at_dialer result) }
{
    match inbox.advance(dialer) {
        Ok(frame) => Ok(frame),
        Err(why) => Err(Stop::Refused(refusal_of(why))),
    }
}

/// How a commissioning says that no frame came.
fn refusal_of(why: NoFrame) -> Refusal
    ensures { result ≡ arriving.refusal_of why }
{
    match why {
        NoFrame::Quiet => Refusal::Quiet,
        NoFrame::Closed => Refusal::Closed,
        NoFrame::RecvFailed => Refusal::Recv,
        NoFrame::BadFrame(fault) => Refusal::BadFrame(fault),
    }
}

/// Hands a frame that came to the commissioning: writes the line of the points where they are found by it, and
/// sends the request that it leads to.
fn take<N: Dialer, O: Sink>(
    commission: &mut Commission,
    frame: &Frame,
    dialer: &mut N,
    out: &mut O,
) -> Result<(), Stop>
    requires { IsSome (asked commission.old) }
    ensures step { commission.new ≡ taken commission.old frame.now }
    ensures ends { frames_left commission.new < frames_left commission.old }
    ensures handled { IsHandled result commission.old frame.now (N.links dialer.old) (N.links dialer.new)
        (gained_text (found_at commission.old.stage) (found_at commission.new.stage))
        (O.taken out.old) (O.taken out.new) }
    ensures dialer_faults { HasCause (N.faults dialer.old) (N.faults dialer.new) (at_dialer result) }
    ensures output_faults { HasCause (O.faults out.old) (O.faults out.new) (at_output result) }
    ensures stops { O.faults out.old ≡ 0 → O.late out.new ≡ O.late out.old }
{
    let had = commission.found();
    let took = commission.took(frame);
    write_found(had, commission.found(), out)?;
    match took {
        Ok(Took::Skipped) => Ok(()),
        Ok(Took::Taken) => ask(commission, dialer),
        Err(fault) => Err(Stop::Refused(Refusal::Commission(fault))),
    }
}

/// Sends the request that is asked, where one is.
fn ask<N: Dialer>(commission: &Commission, dialer: &mut N) -> Result<(), Stop>
    ensures sent { OnOk result (N.links dialer.new ≡ option_map
        (with_bytes (frames_spelling (option_to_list (asked commission.now)))) (N.links dialer.old)) }
    ensures short { IfErr result (λ stop.
        CutsShort stop (asked commission.now) (N.links dialer.old) (N.links dialer.new)) }
    ensures cause { HasCause (N.faults dialer.old) (N.faults dialer.new) (at_dialer result) }
{
    let Some(request) = commission.next() else {
        return Ok(());
    };
    match send_whole(dialer, frame_bytes(&request).as_slice()) {
        Ok(()) => Ok(()),
        Err(_) => Err(Stop::Refused(Refusal::Send)),
    }
}

/// Writes the line of the points where they were found just now.
fn write_found<O: Sink>(
    had: Option<Record702>,
    found: Option<Record702>,
    out: &mut O,
) -> Result<(), Stop>
    ensures all { OnOk result (Appends (O.taken out.old) (O.taken out.new) (gained_text had found)) }
    ensures front { OnErr result (AppendsFront (O.taken out.old) (O.taken out.new) (gained_text had found)) }
    ensures due { OnErr result (IsSome found × (had ≡ None) × (result ≡ Err Stop.WriteFailed)) }
    ensures cause { HasCause (O.faults out.old) (O.faults out.new) result }
    ensures stops { O.faults out.old ≡ 0 → O.late out.new ≡ O.late out.old }
{
    match (had, found) {
        (None, Some(found)) => write_line(out, &found_text(&found)),
        _ => Ok(()),
    }
}

/// Writes a line whole.
fn write_line<O: Sink>(out: &mut O, line: &Line) -> Result<(), Stop>
    ensures all { OnOk result (Appends (O.taken out.old) (O.taken out.new) line.now) }
    ensures front { OnErr result (AppendsFront (O.taken out.old) (O.taken out.new) line.now) }
    ensures failed { OnErr result (result ≡ Err Stop.WriteFailed) }
    ensures cause { HasCause (O.faults out.old) (O.faults out.new) result }
    ensures stops { O.faults out.old ≡ 0 → O.late out.new ≡ O.late out.old }
{
    match write_whole(out, line.as_slice()) {
        Ok(()) => Ok(()),
        Err(_) => Err(Stop::WriteFailed),
    }
}
