//! Laws of the life that passes made.
ghost use Rattle.std.specs.Prelude.{◌≡◌, ℕ, Bool, List, take, filter, Contains};
ghost use Rattle.plant_book.specs.declared.book.Entry.{Entry};
ghost use Rattle.plant_book.specs.Life.{Life, joined_book};
ghost use Rattle.plant_ledger.specs.declared.plant.Goal.{Goal};
ghost use Rattle.plant_desk.specs.Passes.{DeskRecord, PassRecord, ComesFrom};
ghost use Rattle.plant_desk.specs.DeskOf.{MayTell};
ghost use Rattle.plant_desk.specs.Standing.{IsMadeUp, TellsApart, made, new_entries, first_joined};

/// What the passes of a desk made stands in the life that comes from them.
pub fn what_passes_made_stands()
    ensures { (desk : DeskRecord) (passes : List PassRecord) (life : Life)
        → ComesFrom desk passes life → IsMadeUp desk passes life }
{}

/// A test that tells the entries of one pass from those of the others finds just these in the joined book, and at a
/// goal that the pass may have been told just the first of them.
pub fn entries_are_told_apart()
    ensures all { (desk : DeskRecord) (passes : List PassRecord) (life : Life) (pass : PassRecord)
        (test : Entry → Bool) → ComesFrom desk passes life → Contains passes pass → TellsApart test pass passes
        → filter test (new_entries desk (joined_book life)) ≡ made pass }
    ensures first { (desk : DeskRecord) (passes : List PassRecord) (life : Life) (pass : PassRecord)
        (test : Entry → Bool) (count place inverter : ℕ) (goal : Goal)
        → ComesFrom desk passes life → Contains passes pass → TellsApart test pass passes
        → MayTell pass count place inverter goal
        → filter test (new_entries desk (first_joined life place)) ≡ take count (made pass) }
{}
