//! Laws of a run of the table whose outputs were done: what it has to do with the book, the links and the bytes.
ghost use Rattle.std.specs.Prelude.{◌≡◌, ◌≢◌, ℕ, ◌+◌, ◌-◌, ◌^◌, ◌≤◌, List, [], ◌∷◌, ◌++◌, Some, length, min, true};
ghost use Rattle.std.specs.List.{AllByRecursion};
ghost use Rattle.world_traits.specs.Links.{Link, Links};
ghost use Rattle.mbap_frames.specs.declared.frame.Frame.{Frame};
ghost use Rattle.mbap_frames.specs.declared.frame.FrameFault.{FrameFault};
ghost use Rattle.mbap_frames.specs.Frame.{IsFrame};
ghost use Rattle.mbap_frames.specs.Stream.{HasFault};
ghost use Rattle.inverter_worker.specs.declared.input.Input.TheVariants.{BadFrame};
ghost use Rattle.inverter_worker.specs.declared.input.Input.{Input};
ghost use Rattle.inverter_worker.specs.declared.output.Output.TheVariants.{Call, Nothing, Receive};
ghost use Rattle.inverter_worker.specs.declared.state.State.{State};
ghost use Rattle.inverter_worker.specs.declared.state.Step.TheVariants.{Ready};
ghost use Rattle.plant_book.specs.declared.call.Call.TheVariants.{Saw};
ghost use Rattle.plant_book.specs.declared.book.Entry.{Entry};
ghost use Rattle.inverter_worker.specs.declared.job.Job.{Job};
ghost use Rattle.inverter_worker.specs.declared.output.Output.{Output};
ghost use Rattle.inverter_worker.specs.Runs.{RunStep, LeadsTo};
ghost use Rattle.worker_turn.specs.Doing.{World, AreDone, IsDone};
ghost use Rattle.worker_turn.specs.Agreeing.{AreEntriesOf, calls_made, failures, IsRead, frames_after};
ghost use Rattle.worker_turn.specs.Agreeing.{endpoints, dialed, AreSent, IsSent};
ghost use Rattle.worker_turn.specs.Worker.{IsBegin};
ghost use Rattle.worker_turn.specs.Turning.{pending};
ghost use Rattle.worker_turn.specs.Lines.{IsUp};
ghost use Rattle.worker_turn.specs.Requests.{IsRequested};
ghost use Rattle.worker_turn.specs.Sights.{IsSight, IsSeen};
ghost use Rattle.worker_turn.specs.Answered.{IsAnswered};

/// The calls of a run with their replies, each at its own moment or a later one, are the entries that the desk gained.
pub fn calls_are_entered()
    ensures { (job : Job) (first : Output) (later : List RunStep) (old new : World)
        → AreDone job first later old new → (gained : List Entry) × (new.made ≡ old.made ++ gained)
        × AreEntriesOf (calls_made first later) gained }
{}

/// What failed is at most as often as the dialer counted faults, up to the last number of 64 bits.
pub fn failures_are_counted()
    ensures { (job : Job) (first : Output) (later : List RunStep) (old new : World)
        → AreDone job first later old new
        → min (old.faults + length (failures later)) (2 ^ 64 - 1) ≤ new.faults }
{}

/// Each link that was dialed is one more link of the job's host and port, and no other is made. What was sent on the
/// link that is up are the frames of the requests, in order; of one whose send failed there is a part.
pub fn links_are_the_jobs()
    ensures dialed { (job : Job) (first : Output) (later : List RunStep) (old new : World) (before : Links)
        → AreDone job first later old new → old.links ≡ Some before
        → (after : Links) × (new.links ≡ Some after)
        × (endpoints after ≡ endpoints before ++ dialed job later) }
    ensures sent { (job : Job) (first : Output) (later : List RunStep) (old new : World) (before : List ℕ)
        → AreDone job first later old new → IsSent before old.links
        → (after : List ℕ) × AreSent job first later before after × IsSent after new.links }
{}

/// The frames that came are those of the bytes that were received, in order, and none is left out.
pub fn frames_are_read_in_order()
    // Frames that were read before go on with the frames of the run. On a link that the run dials they begin anew.
    ensures all { (job : Job) (first : Output) (later : List RunStep) (old new : World) (before : List Frame)
        → AreDone job first later old new → IsRead before old.unread old.links
        → IsRead (frames_after before later) new.unread new.links }
    ensures each { (job : Job) (first : Output) (later : List RunStep) (old new : World) (before : List Frame)
        → AreDone job first later old new → AllByRecursion IsFrame before
        → AllByRecursion IsFrame (frames_after before later) }

    // Bytes that are no frame are found only where a fault stands behind them.
    ensures bad { (job : Job) (old new : World) → IsDone job Receive BadFrame old new
        → (fault : FrameFault) × HasFault new.unread fault }
{}

/// A turn is a run that begins at `Ready`, and there is nothing to be done before its first step.
pub fn turns_are_runs()
    ensures { (job : Job) (before after : State) (first : RunStep) (later : List RunStep) (old new : World)
        → IsBegin first.input → LeadsTo job before (first ∷ later) after
        → AreDone job first.output later old new
        → (before.step ≡ Ready) × AreDone job Nothing (first ∷ later) old new }
{}

/// Wherever a run, of one turn or of many, waits for a frame, its last request went out whole, and no link and no
/// other send came since: what was sent on the link that is up ends with the whole frame of that request.
pub fn requests_are_whole_before_a_receive()
    // A run that has come to a receive.
    ensures so_far { (job : Job) (begun last : State) (run : List RunStep) (old here : World)
        → begun.step ≡ Ready → LeadsTo job begun run last → AreDone job Nothing run old here
        → pending Nothing run ≡ Receive → IsRequested job run here.links }

    // The same at each receive of a run.
    ensures anywhere { (job : Job) (begun last : State) (sofar later : List RunStep) (old new : World)
        → begun.step ≡ Ready → LeadsTo job begun (sofar ++ later) last
        → AreDone job Nothing (sofar ++ later) old new → pending Nothing sofar ≡ Receive
        → (here : World) × AreDone job Nothing sofar old here × AreDone job Receive later here new
        × IsRequested job sofar here.links }
{}

/// A worker knows whether its link is up, and waits for a frame on a link that is up alone.
pub fn links_are_up_at_each_receive()
    // Where one is up when a run begins, if the worker's state says so, one is up at a receive.
    ensures receive { (job : Job) (begun last : State) (run : List RunStep) (old here : World)
        → begun.step ≡ Ready → (begun.up ≡ true → IsUp old.links) → LeadsTo job begun run last
        → AreDone job Nothing run old here → pending Nothing run ≡ Receive → IsUp here.links }

    // And the next run begins likewise.
    ensures ready { (job : Job) (begun last : State) (run : List RunStep) (old new : World)
        → begun.step ≡ Ready → (begun.up ≡ true → IsUp old.links) → LeadsTo job begun run last
        → AreDone job Nothing run old new → last.step ≡ Ready → last.up ≡ true → IsUp new.links }
{}

/// Wherever a run enters what a read-back showed, the step right before took the frame that shows it: the first frame
/// with the number of the read that the ledger numbered last, and on the link that this read was sent on.
pub fn each_sight_has_its_frame()
    ensures each { (job : Job) (begun last : State) (sofar later : List RunStep) (at inverter number raw : ℕ)
        → begun.step ≡ Ready → LeadsTo job begun (sofar ++ later) last
        → pending Nothing sofar ≡ Call (Saw at inverter number raw)
        → IsSeen job sofar at inverter number raw }

    // Each has a read and a frame of its own: those of a later one stand behind every earlier one.
    ensures own { (job : Job) (sofar between : List RunStep) (at inverter number raw : ℕ)
        → (seen : IsSeen job (sofar ++ between) at inverter number raw) → IsSight (pending Nothing sofar)
        → between ≢ [] → (more : List RunStep) × (seen.awaits.before ≡ sofar ++ more) }
{}

/// The receives of a wait gave bytes, and then answered as the input tells: quiet, closed or failed where it is that,
/// and else no more.
pub fn waits_end_as_answered()
    ensures { (job : Job) (came : Input) (old new : World) (links : Links) (link : Link)
        → IsDone job Receive came old new → old.links ≡ Some links → links.current ≡ Some link
        → IsAnswered came links link new.links }
{}
