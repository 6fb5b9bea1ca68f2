//! Laws of whole commissionings: of any list of frames that one is handed.
ghost use Rattle.std.specs.Prelude.{◌≡◌, ◌+◌, List, [], ◌∷◌, ◌++◌, length, IsSome};
ghost use Rattle.mbap_frames.specs.declared.frame.Frame.{Frame};
ghost use Rattle.commissioning.specs.declared.found.Record702.{Record702};
ghost use Rattle.commissioning.specs.declared.target.Target.{Target};
ghost use Rattle.commissioning.specs.Stage.{Stage, Commissioned};
ghost use Rattle.commissioning.specs.Asking.{asked};
ghost use Rattle.commissioning.specs.Taking.{taken};
ghost use Rattle.commissioning.specs.Runs.{Exchange, standing_after, exchanges, requests, request_by, AreNumbered};
ghost use Rattle.commissioning.specs.Passed.{Passed, Reached, IsCommissioned, IsAt};

/// What one frame more makes of a commissioning, and which request it leads to. So a caller that hands a
/// `Commission` the frames of a link knows which requests it has asked, and in which order.
pub fn one_frame_more()
    ensures standing { (target : Target) (frames : List Frame) (frame : Frame)
        → IsSome (asked (standing_after target frames))
        → standing_after target (frames ++ frame ∷ []) ≡ taken (standing_after target frames) frame }
    ensures requests { (target : Target) (frames : List Frame) (frame : Frame)
        → IsSome (asked (standing_after target frames))
        → requests target (frames ++ frame ∷ [])
        ≡ requests target frames ++ request_by (standing_after target frames) frame }
{}

/// Whatever frames come, the requests are numbered from 1 on, and are to the unit of the port.
pub fn requests_are_numbered()
    ensures { (target : Target) (frames : List Frame) → AreNumbered target 1 (requests target frames) }
{}

/// Whatever frames come, the requests went out in the order of the stages, each after the reply to the one before.
pub fn what_has_passed()
    ensures passed { (target : Target) (frames : List Frame)
        → Passed target (exchanges target frames) (standing_after target frames).stage }
    ensures number { (target : Target) (frames : List Frame)
        → (standing_after target frames).number ≡ length (exchanges target frames) + 1 }
{}

/// What has passed leads there again: a commissioning that is handed these replies asks these requests. So one
/// whose device answers as a commissioned one has to comes to its end.
pub fn replies_lead_there()
    ensures asking { (target : Target) (all : List Exchange) (stage : Stage)
        → Reached target all stage → IsAt target all stage }
    ensures end { (target : Target) (all : List Exchange) (found : Record702) → IsCommissioned target all found
        → IsAt target all (Commissioned found) }
{}
