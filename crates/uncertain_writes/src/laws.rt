//! What a list holds after the calls of a book.
ghost use Rattle.std.specs.Prelude.{◌≡◌, ℕ, ◌≤◌, ◌<◌, max, fold, map, Some, List, [], ◌∷◌, ◌++◌, length, slice_get};
ghost use Rattle.limiter_num.specs.Rating.{mw};
ghost use Rattle.limiter_num.specs.declared.rules.Rules.{Rules};
ghost use Rattle.plant_book.specs.declared.book.Entry.{Entry};
ghost use Rattle.plant_book.specs.declared.call.Write.{Write};
ghost use Rattle.plant_book.specs.declared.call.Reply.{Reply};
ghost use Rattle.plant_book.specs.declared.site.Unit.{Unit};
ghost use Rattle.plant_book.specs.Site.{SiteRecord};
ghost use Rattle.plant_book.specs.Book.{BookRecord};
ghost use Rattle.plant_book.specs.Calls.{moment};
ghost use Rattle.plant_book.specs.Writes.{live};
ghost use Rattle.plant_book.specs.Reserved.{covering, now_of};
ghost use Rattle.plant_book.specs.Answered.{IsAnswered, IsAnswer, IsBook};
ghost use Rattle.uncertain_writes.specs.Live.{live_max, is_past, without};
ghost use Rattle.uncertain_writes.specs.Calls.{after_entry, live_by_calls};

/// What a list holds after the calls of a book is the list of the inverter's live writes, over the whole book and from
/// one call to the next. A grant finds room in it.
pub fn lists_follow_the_book()
    ensures book { (book : BookRecord) (now inverter : ℕ) → IsBook book → now_of book ≤ now
        → live_by_calls book.site.rules book.entries now inverter
        ≡ live book.site.rules book.entries now inverter }
    ensures entry { (book : BookRecord) (entry : Entry) (now inverter : ℕ) → IsAnswered book
        → IsAnswer book book.entries entry → now ≤ moment entry.call
        → live book.site.rules (book.entries ++ entry ∷ []) (moment entry.call) inverter
        ≡ after_entry book.site.rules inverter book.entries entry (live book.site.rules book.entries now inverter) }
    ensures empty { (rules : Rules) (now inverter : ℕ) → live rules [] now inverter ≡ [] }
    ensures later { (rules : Rules) (entries : List Entry) (now later inverter : ℕ) → now ≤ later
        → live rules entries later inverter
        ≡ without (is_past rules later) (live rules entries now inverter) }
    ensures room { (book : BookRecord) (entry : Entry) (write : Write) → IsAnswer book book.entries entry
        → entry.reply ≡ Reply.Granted write
        → length (live book.site.rules book.entries (moment entry.call) write.inverter) < live_max }
{}

/// What writes of an inverter reserve is the greatest of them, or its floor where that is more.
pub fn the_greatest_is_reserved()
    ensures { (site : SiteRecord) (inverter : ℕ) (unit : Unit) (its_writes : List Write)
        → slice_get site.units inverter ≡ Some unit
        → covering site inverter its_writes
        ≡ max (mw unit.rating unit.floor) (fold max 0 (map (λ write. mw unit.rating write.raw) its_writes)) }
{}
