ghost use Rattle.std.specs.Prelude.{◌≡◌, ℕ, Bool, List, IfSome};
ghost use Rattle.stream_io.specs.Streams.{Change};
ghost use Rattle.command_io.specs.declared.ended.Ended.{Ended};
ghost use Rattle.command_io.specs.declared.live_fault.LiveFault.{LiveFault};
ghost use Rattle.command_io.specs.Site.{HasSiteCause};
ghost use Rattle.command_link.specs.Dialing.{Dialing, DialsNothing};
ghost use Rattle.command_link.specs.Finding.{LacksInverter};
ghost use Rattle.serve_command.specs.Serve.{IsServeEnd};

/// What the end of a serving says of the site file, and of the dialer.
pub fn what_a_serving_says()
    ensures site { (may_give : ℕ → Bool) (number turns : ℕ) (read : List ℕ) (site : Change) (dialing : Dialing)
        (ended : Ended) → IsServeEnd may_give number turns read site dialing ended → HasSiteCause ended site }
    ensures no_such_inverter { (may_give : ℕ → Bool) (number turns count : ℕ) (read : List ℕ) (site : Change)
        (dialing : Dialing)
        → IsServeEnd may_give number turns read site dialing (Ended.Refused (LiveFault.NoSuchInverter count))
        → IfSome site.old (LacksInverter number count) × DialsNothing dialing }

    // It is refused for no other reason, and writes nothing that could fail.
    ensures only_lacking { (may_give : ℕ → Bool) (number turns : ℕ) (fault : LiveFault) (read : List ℕ) (site : Change)
        (dialing : Dialing) → IsServeEnd may_give number turns read site dialing (Ended.Refused fault)
        → (count : ℕ) × (fault ≡ LiveFault.NoSuchInverter count) }
    ensures no_write_fault { (may_give : ℕ → Bool) (number turns : ℕ) (read : List ℕ) (site : Change)
        (dialing : Dialing) → IsServeEnd may_give number turns read site dialing Ended.WriteFault → ⊥ }
{}
