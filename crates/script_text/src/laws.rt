ghost use Rattle.std.specs.Prelude.{◌≡◌, ◌≤◌, ℕ, List, [], length, map};
ghost use Rattle.script_text.specs.declared.line.LineKind.{LineKind};
ghost use Rattle.script_text.specs.Script.{ScriptRecord, IsScript, IsFirstBadLine, EachMayFollow, script_statements};
ghost use Rattle.script_text.specs.Text.{Deed, deed_line, lives_text};

/// Bytes are one script at most, have one first bad line at most, of one kind, and never both.
pub fn one_reading()
    ensures script { (bytes : List ℕ) (a b : ScriptRecord) → IsScript bytes a → IsScript bytes b → a ≡ b }
    ensures first_bad_line { (bytes : List ℕ) (m n : ℕ) (j k : LineKind) → IsFirstBadLine bytes m j
        → IsFirstBadLine bytes n k → (m ≡ n) × (j ≡ k) }
    ensures not_both { (bytes : List ℕ) (script : ScriptRecord) (line : ℕ) (kind : LineKind)
        → IsScript bytes script → IsFirstBadLine bytes line kind → ⊥ }
{}

/// What was done of the lines of a script, as it is written, spells that script again: the same site, start and
/// lines. So the text of a book, or of a plant's lives, has the site, the start and the calls that it tells of.
pub fn texts_read_back()
    ensures { (script : ScriptRecord) (deeds : List Deed) → map deed_line deeds ≡ script.lines
        → EachMayFollow [] (script_statements script) → IsScript (lives_text script.site script.start deeds) script }
{}

/// A script has no more lines than bytes.
pub fn lines_are_few()
    ensures { (bytes : List ℕ) (script : ScriptRecord) → IsScript bytes script
        → length script.lines ≤ length bytes }
{}
