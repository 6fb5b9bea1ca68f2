ghost use Rattle.std.specs.Prelude.{◌≡◌, ◌⊎◌, ◌≤◌, ℕ, List, IfSome, length};
ghost use Rattle.site_config.specs.declared.fault.SiteFault.{SiteFault};
ghost use Rattle.stream_io.specs.Streams.{Change, Fails, GainsFront, GainsText};
ghost use Rattle.command_io.specs.declared.ended.Ended.{Ended};
ghost use Rattle.command_io.specs.Site.{HasSiteCause, site_limit};
ghost use Rattle.check_command.specs.Check.{IsCheck, IsCheckEnd};

/// What the end of a check says of the bytes that its input told, and of its output.
pub fn what_a_check_says()
    ensures site { (ended : Ended) (read : List ℕ) (input output : Change) → IsCheckEnd ended read input output
        → HasSiteCause ended input }
    ensures write_fault { (read : List ℕ) (input output : Change) → IsCheckEnd Ended.WriteFault read input output
        → Fails output }
    ensures within { (ended : Ended) (read : List ℕ) (input output : Change) → IsCheckEnd ended read input output
        → (ended ≡ Ended.Done) ⊎ (ended ≡ Ended.WriteFault) ⊎ ((fault : SiteFault) × (ended ≡ Ended.BadSite fault))
        → IfSome input.old (λ bytes. length bytes ≤ site_limit) }

    // The output gained the summary at Done, and a front of it at WriteFault.
    ensures gained { (read : List ℕ) (input output : Change) → IsCheckEnd Ended.Done read input output
        → IfSome input.old (λ bytes. GainsText (IsCheck bytes) output) }
    ensures gained_front { (read : List ℕ) (input output : Change) → IsCheckEnd Ended.WriteFault read input output
        → IfSome input.old (λ bytes. GainsFront (IsCheck bytes) output) }
{}
