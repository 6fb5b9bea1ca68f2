//! A law of what a run writes.
ghost use Rattle.std.specs.Prelude.{◌≡◌, ℕ, Bool, true, List, ◌++◌, Option, None};
ghost use Rattle.std.specs.Io.KnownBytes.{Appends};
ghost use Rattle.plant_book.specs.Part.{PartRecord};
ghost use Rattle.site_config.specs.SiteFile.{SiteFileRecord};
ghost use Rattle.operator_console.specs.declared.session.ConsoleEnd.{ConsoleEnd};
ghost use Rattle.worker_turn.specs.Worker.{WorkerRecord};
ghost use Rattle.script_replay.specs.Lives.{life_text};
ghost use Rattle.script_replay.specs.Replay.{IsReplay};
ghost use Rattle.site_run.specs.Run.{IsRun};
ghost use Rattle.site_run.specs.Report.{text_of_run, wrote_whole};

use script_replay::lives_replay_as_themselves;
use world_traits::Dialer;

/// What a console wrote, where it wrote its last text whole, and behind it the text of the run, is replayed as the text
/// of the life.
pub fn runs_replay_as_their_lives<N: Dialer>()
    ensures { (may_give : ℕ → Bool) (file : SiteFileRecord) (turns : ℕ) (dialers dialers_now : List N)
        (plant : PartRecord) (workers : List WorkerRecord) (console : ConsoleEnd)
        (left left_now taken taken_now : Option (List ℕ))
        (run : IsRun N.links N.faults may_give file turns dialers dialers_now plant workers console
        left left_now taken taken_now)
        → wrote_whole console ≡ true
        → (shown : List ℕ) × Appends taken taken_now shown
        × IsReplay (shown ++ text_of_run plant workers) None (life_text run.life) }
{
    lives_replay_as_themselves();
}
