ghost use Rattle.std.specs.Prelude.{◌≡◌, ℕ, List, IfSome};
ghost use Rattle.world_traits.specs.Links.{Closed, Quiet};
ghost use Rattle.mbap_frames.specs.declared.frame.FrameFault.{FrameFault};
ghost use Rattle.commissioning.specs.declared.fault.CommissionFault.{CommissionFault};
ghost use Rattle.commission_run.specs.declared.job.Job.{Job};
ghost use Rattle.stream_io.specs.Streams.{Change, Fails, GainsNothing};
ghost use Rattle.command_io.specs.declared.ended.Ended.{Ended};
ghost use Rattle.command_io.specs.declared.live_fault.LiveFault.{LiveFault};
ghost use Rattle.command_io.specs.Site.{HasSiteCause};
ghost use Rattle.command_link.specs.Dialing.{Dialing, DialsNothing, FailsToDial, FailsToReceive, FaultsAt};
ghost use Rattle.command_link.specs.Dialing.{HasBadFrame, HeardLast, MakesLink};
ghost use Rattle.command_link.specs.Finding.{HasInverter, LacksInverter};
ghost use Rattle.commission_command.specs.Commission.{IsCommissionEnd, IsCutShort, IsRefusedBy};

/// What the end of a commissioning says of the site file, of the output, and of the link.
pub fn what_a_commissioning_says()
    ensures site { (number : ℕ) (read : List ℕ) (site output : Change) (dialing : Dialing) (ended : Ended)
        → IsCommissionEnd number read site output dialing ended → HasSiteCause ended site }
    ensures no_such_inverter { (number count : ℕ) (read : List ℕ) (site output : Change) (dialing : Dialing)
        → IsCommissionEnd number read site output dialing (Ended.Refused (LiveFault.NoSuchInverter count))
        → IfSome site.old (LacksInverter number count) × DialsNothing dialing × GainsNothing output }
    ensures write_fault { (number : ℕ) (read : List ℕ) (site output : Change) (dialing : Dialing)
        → IsCommissionEnd number read site output dialing Ended.WriteFault → Fails output }

    // A call of the dialer failed, the last that was made: a dial that made no link, the send of a request that is cut
    // short, or the last receive.
    ensures dial { (number : ℕ) (read : List ℕ) (site output : Change) (dialing : Dialing)
        → IsCommissionEnd number read site output dialing (Ended.Refused LiveFault.Dial) → FailsToDial dialing }
    ensures send { (number : ℕ) (read : List ℕ) (site output : Change) (dialing : Dialing)
        → IsCommissionEnd number read site output dialing (Ended.Refused LiveFault.Send)
        → (job : Job) × IfSome site.old (HasInverter number job) × FaultsAt dialing
        × MakesLink (IsCutShort job) dialing }
    ensures recv { (number : ℕ) (read : List ℕ) (site output : Change) (dialing : Dialing)
        → IsCommissionEnd number read site output dialing (Ended.Refused LiveFault.Recv) → FailsToReceive dialing }

    // The last receive answered so, or what came is at fault.
    ensures quiet { (number : ℕ) (read : List ℕ) (site output : Change) (dialing : Dialing)
        → IsCommissionEnd number read site output dialing (Ended.Refused LiveFault.Quiet)
        → MakesLink (HeardLast Quiet) dialing }
    ensures closed { (number : ℕ) (read : List ℕ) (site output : Change) (dialing : Dialing)
        → IsCommissionEnd number read site output dialing (Ended.Refused LiveFault.Closed)
        → MakesLink (HeardLast Closed) dialing }
    ensures bad_frame { (number : ℕ) (read : List ℕ) (site output : Change) (dialing : Dialing) (fault : FrameFault)
        → IsCommissionEnd number read site output dialing (Ended.Refused (LiveFault.BadFrame fault))
        → MakesLink (HasBadFrame fault) dialing }
    ensures commission_fault { (number : ℕ) (read : List ℕ) (site output : Change) (dialing : Dialing)
        (fault : CommissionFault)
        → IsCommissionEnd number read site output dialing (Ended.Refused (LiveFault.Commission fault))
        → (job : Job) × IfSome site.old (HasInverter number job) × MakesLink (IsRefusedBy job fault) dialing }
{}
