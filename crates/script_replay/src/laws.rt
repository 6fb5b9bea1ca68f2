ghost use Rattle.std.specs.Prelude.{◌≡◌, ◌≤◌, ℕ, List, ◌++◌, length, Option, None, Some};
ghost use Rattle.plant_book.specs.Book.{BookRecord};
ghost use Rattle.plant_book.specs.Answered.{IsBook};
ghost use Rattle.plant_book.specs.Life.{Life, IsLife};
ghost use Rattle.script_text.specs.Text.{book_text};
ghost use Rattle.script_replay.specs.declared.replay.ReplayFault.{ReplayFault};
ghost use Rattle.script_replay.specs.Comments.{AreComments};
ghost use Rattle.script_replay.specs.Lives.{HasComments, life_text};
ghost use Rattle.script_replay.specs.Replay.{IsReplay, HasRoom, Explains};

/// A script has one replay, of one text, or one fault. The text of a replay, as a script, is replayed as itself.
pub fn one_replay()
    ensures one { (bytes : List ℕ) (a b : Option ℕ) (x y : List ℕ) → IsReplay bytes a x → IsReplay bytes b y
        → (a ≡ b) × (x ≡ y) }
    ensures not_refused { (bytes : List ℕ) (full : Option ℕ) (text : List ℕ) (fault : ReplayFault)
        → IsReplay bytes full text → Explains fault bytes → fault ≡ ReplayFault.NoMemory }
    ensures one_fault { (bytes : List ℕ) (f g : ReplayFault) → Explains f bytes → Explains g bytes → f ≡ g }
    ensures itself { (bytes : List ℕ) (full : Option ℕ) (text : List ℕ) → IsReplay bytes full text
        → IsReplay text None text }
{}

/// A script all of whose books have room is refused by none, and finds no book full.
pub fn room_is_enough()
    ensures not_refused { (bytes : List ℕ) (fault : ReplayFault) → HasRoom bytes → Explains fault bytes
        → fault ≡ ReplayFault.NoMemory }
    ensures not_full { (bytes : List ℕ) (calls : ℕ) (text : List ℕ) → HasRoom bytes
        → IsReplay bytes (Some calls) text → ⊥ }
{}

/// The text of a book that a ledger keeps, comments behind it or not, is replayed as that text.
pub fn books_replay_as_themselves()
    ensures { (book : BookRecord) (behind : List ℕ) → IsBook book → length book.entries ≤ book.site.room
        → AreComments behind → IsReplay (book_text book ++ behind) None (book_text book) }
{}

/// The text of a life that a ledger keeps, in one book or several, is replayed as that text, with comments between
/// its lines or none.
pub fn lives_replay_as_themselves()
    ensures { (life : Life) (bytes : List ℕ) → IsLife life → HasComments (life_text life) bytes
        → IsReplay bytes None (life_text life) }
{}
