ghost use Rattle.std.specs.Prelude.{◌≡◌, ◌⊎◌, ℕ, Bool, List, IfSome};
ghost use Rattle.stream_io.specs.Streams.{Change, Fails, GainsText};
ghost use Rattle.command_io.specs.declared.ended.Ended.{Ended};
ghost use Rattle.command_io.specs.declared.live_fault.LiveFault.{LiveFault};
ghost use Rattle.run_command.specs.Run.{HasRunCause, IsRunEnd, TellsFullBook, TellsSafeLife};

use site_run::runs_replay_as_their_lives;
use world_traits::Dialer;

/// What the end of a run says of the site file, of the console, of the output, and of the life that is told of.
pub fn what_a_run_says<N: Dialer>()
    ensures causes { (may_give : ℕ → Bool) (turns : ℕ) (read : List ℕ) (site console output : Change)
        (dialers dialers_now : List N) (ended : Ended)
        → IsRunEnd N.links N.faults may_give turns read site console output dialers dialers_now ended
        → HasRunCause ended site console }
    ensures write_fault { (may_give : ℕ → Bool) (turns : ℕ) (read : List ℕ) (site console output : Change)
        (dialers dialers_now : List N)
        → IsRunEnd N.links N.faults may_give turns read site console output dialers dialers_now Ended.WriteFault
        → Fails output }
    ensures not_refused { (may_give : ℕ → Bool) (turns : ℕ) (read : List ℕ) (site console output : Change)
        (dialers dialers_now : List N) (fault : LiveFault)
        → IsRunEnd N.links N.faults may_give turns read site console output dialers dialers_now (Ended.Refused fault)
        → ⊥ }

    // The life is safe at every moment, and what is written in all replays as its text.
    ensures safe_life { (may_give : ℕ → Bool) (turns : ℕ) (read : List ℕ) (site console output : Change)
        (dialers dialers_now : List N) (ended : Ended)
        → IsRunEnd N.links N.faults may_give turns read site console output dialers dialers_now ended
        → (ended ≡ Ended.Done) ⊎ (((ended ≡ Ended.ReadFault) × (Fails site → ⊥))
        ⊎ ((calls : ℕ) × (ended ≡ Ended.BookFull calls)))
        → GainsText TellsSafeLife output }

    // A full book has as many calls as the site file gives it room for, and that many are told.
    ensures book_full { (may_give : ℕ → Bool) (turns : ℕ) (read : List ℕ) (site console output : Change)
        (dialers dialers_now : List N) (calls : ℕ)
        → IsRunEnd N.links N.faults may_give turns read site console output dialers dialers_now (Ended.BookFull calls)
        → IfSome site.old (λ bytes. GainsText (TellsFullBook calls bytes) output) }
{
    runs_replay_as_their_lives::<N>();
}
