//! Laws of the level alone.
ghost use Rattle.std.specs.Prelude.{◌≡◌, ℕ, ◌<◌, List, map, IsPermutation};
ghost use Rattle.std.specs.List.{range_with_len};
ghost use Rattle.share_policy.specs.declared.claim.Claim.{Claim};
ghost use Rattle.share_policy.specs.Shares.{level_of};

/// The level depends on the cap and the claims alone: not on their order, nor on whatever else their makers have.
pub fn level_depends_on_claims_alone()
    ensures any_order { (cap : ℕ) (claims others : List Claim) → IsPermutation claims others
        → level_of cap claims ≡ level_of cap others }
    ensures each_claim { (cap count : ℕ) (claim other : ℕ → Claim)
        → ((number : ℕ) → number < count → claim number ≡ other number)
        → level_of cap (map claim (range_with_len 0 count)) ≡ level_of cap (map other (range_with_len 0 count)) }
{}
