//! Laws of the table and of its runs.
ghost use Rattle.std.specs.Prelude.{◌≡◌, ℕ, ◌<◌, Some, List, [], ◌∷◌, ◌++◌};
ghost use Rattle.std.specs.List.{AllByRecursion};
ghost use Rattle.inverter_worker.specs.declared.job.Job.{Job};
ghost use Rattle.inverter_worker.specs.declared.input.Input.{Input};
ghost use Rattle.inverter_worker.specs.declared.output.Output.{Output};
ghost use Rattle.inverter_worker.specs.declared.state.State.{State};
ghost use Rattle.inverter_worker.specs.Table.{table, HasRow};
ghost use Rattle.inverter_worker.specs.Answers.{IsAnswerTo};
ghost use Rattle.inverter_worker.specs.Runs.{RunStep, LeadsTo, IsRun, calls, log, IsInTime};
ghost use Rattle.inverter_worker.specs.Requests.{requests_numbered, requests_done, request_next};
ghost use Rattle.inverter_worker.specs.Turns.{IsWithinTurn, IsShort};

/// The table has a row for each input that may come of its outputs: a worker never stands still.
pub fn answers_have_rows()
    ensures { (job : Job) (state next : State) (came answer : Input) (output : Output)
        → table job state came ≡ Some (next, output) → IsAnswerTo output answer → HasRow job next answer }
{}

/// A run and one step more, or another run behind it: the calls and the log go on likewise. Whatever came, each
/// write of the log was sent within its send window.
pub fn runs_go_on()
    ensures more { (job : Job) (from state next : State) (run : List RunStep) (came : Input) (output : Output)
        → LeadsTo job from run state → table job state came ≡ Some (next, output)
        → LeadsTo job from (run ++ record { state = state; input = came; output = output } ∷ []) next }
    ensures joined { (job : Job) (from middle last : State) (run later : List RunStep)
        → LeadsTo job from run middle → LeadsTo job middle later last → LeadsTo job from (run ++ later) last }
    ensures calls { (run later : List RunStep) → calls (run ++ later) ≡ calls run ++ calls later }
    ensures log { (run later : List RunStep) → log (run ++ later) ≡ log run ++ log later }
    ensures in_time { (job : Job) (from last : State) (run : List RunStep) → LeadsTo job from run last
        → AllByRecursion (IsInTime job) (log run) }
{}

/// A turn is short, whatever comes: it reads the clock at most 6 times, sends at most 2 requests, and ends after at
/// most 32 steps.
pub fn turns_are_short()
    ensures { (job : Job) (from last : State) (first : RunStep) (later : List RunStep)
        → LeadsTo job from (first ∷ later) last → AllByRecursion IsWithinTurn later → IsShort (first ∷ later) }
{}

/// Each request that the ledger numbers is sent or given back, once, in their order, and no other is: there is at
/// most one that is still to be sent, and none before a worker's first turn.
pub fn requests_are_sent_or_given_back()
    ensures kept { (job : Job) (from last : State) (run : List RunStep) → LeadsTo job from run last
        → request_next from.step ++ requests_numbered run ≡ requests_done run ++ request_next last.step }
    ensures first { (job : Job) (turns : ℕ) (last : State) (run : List RunStep) → IsRun job turns run last
        → requests_numbered run ≡ requests_done run ++ request_next last.step }
{}
