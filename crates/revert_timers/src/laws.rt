//! Laws of the definitions alone.
ghost use Rattle.std.specs.Prelude.{◌≡◌, ℕ, ◌≤◌, Bool, not, filter, List, [], ◌∷◌, ◌++◌, length, if◌then◌else◌, None};
ghost use Rattle.std.specs.List.{list_any};
ghost use Rattle.revert_timers.specs.declared.expiries.Due.{Due};
ghost use Rattle.revert_timers.specs.Expiries.{IsRising, is_past, without_first, first_past};

/// What a queue has left once an entry was taken out, and with one more entry. Where at most one entry passes a
/// test, those that are left are those that fail it; where the first isn't past, none is.
pub fn entries_that_are_left()
    ensures more { (test : Due → Bool) (entries : List Due) (due : Due)
        → without_first test (entries ++ due ∷ [])
        ≡ (if list_any test entries then without_first test entries ++ due ∷ []
        else if test due then entries else entries ++ due ∷ []) }
    ensures only { (test : Due → Bool) (entries : List Due) → length (filter test entries) ≤ 1
        → without_first test entries ≡ filter (λ due. not (test due)) entries }
    ensures none_past { (now : ℕ) (entries : List Due) → IsRising entries → first_past now entries ≡ None
        → filter (λ due. not (is_past now due)) entries ≡ entries }
{}
