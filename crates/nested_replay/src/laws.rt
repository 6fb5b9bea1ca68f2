ghost use Rattle.std.specs.Prelude.{◌≡◌, ℕ, List, Option};
ghost use Rattle.script_text.specs.declared.line.LineKind.{LineKind};
ghost use Rattle.nested_replay.specs.declared.replay.NestedFault.{NestedFault};
ghost use Rattle.nested_replay.specs.Nested.{NestedRecord, IsNested, IsFirstBadNested};
ghost use Rattle.nested_replay.specs.Replay.{IsNestedReplay, Explains};

/// Bytes are one list of buses with one script of one life at most, and then they have no bad line.
pub fn one_nested_reading()
    ensures nested { (bytes : List ℕ) (a b : NestedRecord) → IsNested bytes a → IsNested bytes b → a ≡ b }
    ensures not_both { (bytes : List ℕ) (nested : NestedRecord) (line : ℕ) (kind : LineKind)
        → IsNested bytes nested → IsFirstBadNested bytes line kind → ⊥ }
{}

/// An input has one replay at most, of one text, and then it is refused by none.
pub fn one_nested_replay()
    ensures one { (bytes : List ℕ) (a b : Option ℕ) (x y : List ℕ) → IsNestedReplay bytes a x
        → IsNestedReplay bytes b y → (a ≡ b) × (x ≡ y) }
    ensures not_refused { (bytes : List ℕ) (full : Option ℕ) (text : List ℕ) (fault : NestedFault)
        → IsNestedReplay bytes full text → Explains fault bytes → fault ≡ NestedFault.NoMemory }
{}
