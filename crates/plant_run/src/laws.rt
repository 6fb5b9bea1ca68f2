//! Laws of what a worker did from its first turn on.
ghost use Rattle.std.specs.Prelude.{◌≡◌, ℕ, Bool, Option, []};
ghost use Rattle.world_traits.specs.Links.{Links};
ghost use Rattle.plant_book.specs.Book.{BookRecord};
ghost use Rattle.plant_book.specs.declared.call.Write as writes;
ghost use Rattle.plant_book.specs.Life.{Life, IsLife, joined_book};
ghost use Rattle.worker_turn.specs.Worker.{WorkerRecord};
ghost use Rattle.plant_run.specs.Works.{HasFullBook, Works};
ghost use Rattle.plant_run.specs.Running.{IsNew};
ghost use Rattle.inverter_worker.specs.Turns.{readings};
ghost use Rattle.plant_run.specs.Own.{own_world};
ghost use Rattle.plant_run.specs.Agreement.{Agrees, LinksAgree};
ghost use Rattle.plant_run.specs.Left.{HasLeft, StaysReserved, AreLeftBy};

/// What a worker did from its first turn on agrees with the new links of its dialer, link by link.
pub fn links_agree()
    ensures { (may_give : ℕ → Bool) (opened : BookRecord) (life : Life) (before after : WorkerRecord)
        (links links_now : Option Links) (faults faults_now : ℕ)
        (works : Works may_give before.job opened (joined_book life) (HasFullBook life) before after
        links links_now faults faults_now)
        → IsNew before → LinksAgree before.job works.run links links_now }
{}

/// What a worker did from its first turn on, over a life, agrees with the joined book of the life and with its dialer.
pub fn runs_agree()
    ensures { (may_give : ℕ → Bool) (opened : BookRecord) (life : Life) (before after : WorkerRecord)
        (links links_now : Option Links) (faults faults_now : ℕ)
        (works : Works may_give before.job opened (joined_book life) (HasFullBook life) before after
        links links_now faults faults_now)
        → IsNew before → opened.entries ≡ []
        → Agrees before.job (joined_book life) (HasFullBook life) works.run
        (own_world before.job.inverter opened links faults [] before.unread)
        (own_world before.job.inverter (joined_book life) links_now faults_now (readings works.run) after.unread) }
{}

/// No end of a worker is a way to free. At each moment the live writes of its inverter in the book of a life are those
/// that its own calls leave, and just these are reserved. So a write that was granted to it, and that no later call of
/// its run gave back or freed, stays reserved up to the write's last moment, whether the worker goes on or is over, and
/// however it ended: with the ticket spent or dropped, or with a release that a full book refused.
pub fn writes_outlive_their_worker()
    ensures left { (may_give : ℕ → Bool) (opened : BookRecord) (life : Life) (before after : WorkerRecord)
        (links links_now : Option Links) (faults faults_now : ℕ)
        (works : Works may_give before.job opened (joined_book life) (HasFullBook life) before after
        links links_now faults faults_now)
        → IsLife life → opened.entries ≡ []
        → AreLeftBy works.run (joined_book life) before.job.inverter }
    ensures stays { (may_give : ℕ → Bool) (opened : BookRecord) (life : Life) (before after : WorkerRecord)
        (links links_now : Option Links) (faults faults_now : ℕ)
        (works : Works may_give before.job opened (joined_book life) (HasFullBook life) before after
        links links_now faults faults_now)
        (write : writes.Write)
        → IsLife life → opened.entries ≡ []
        → HasLeft (joined_book life).site.rules works.run write
        → StaysReserved (joined_book life) before.job.inverter write }
{}
