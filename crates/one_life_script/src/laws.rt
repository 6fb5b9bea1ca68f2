ghost use Rattle.std.specs.Prelude.{◌≡◌, ℕ, List, map};
ghost use Rattle.plant_book.specs.declared.call.Call.{Call};
ghost use Rattle.script_text.specs.declared.line.Line.TheVariants as lines;
ghost use Rattle.script_text.specs.declared.line.LineKind.{LineKind};
ghost use Rattle.script_text.specs.Script.{ScriptRecord};
ghost use Rattle.one_life_script.specs.OneLife.{IsOneLifeScript, IsFirstBadLineOfOne};

/// Bytes are one script of one life at most, have one first bad line at most, of one kind, and never both.
pub fn one_life_read_once()
    ensures script { (bytes : List ℕ) (a b : ScriptRecord) → IsOneLifeScript bytes a → IsOneLifeScript bytes b → a ≡ b }
    ensures first_bad_line { (bytes : List ℕ) (m n : ℕ) (j k : LineKind) → IsFirstBadLineOfOne bytes m j
        → IsFirstBadLineOfOne bytes n k → (m ≡ n) × (j ≡ k) }
    ensures not_both { (bytes : List ℕ) (script : ScriptRecord) (line : ℕ) (kind : LineKind)
        → IsOneLifeScript bytes script → IsFirstBadLineOfOne bytes line kind → ⊥ }
{}

/// Each line of a script of one life is a call.
pub fn lines_are_calls()
    ensures { (bytes : List ℕ) (script : ScriptRecord) → IsOneLifeScript bytes script
        → (calls : List Call) × (script.lines ≡ map (λ call. lines.One call) calls) }
{}
