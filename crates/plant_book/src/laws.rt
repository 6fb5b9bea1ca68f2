ghost use Rattle.std.specs.Prelude.{◌≡◌, ◌≤◌, ℕ, List, [], ◌∷◌, ◌++◌, Contains};
ghost use Rattle.plant_book.specs.declared.book.Entry.{Entry};
ghost use Rattle.plant_book.specs.Book.{BookRecord};
ghost use Rattle.share_policy.specs.Claims.{IsFeasible};
ghost use Rattle.plant_book.specs.Site.{floors};
ghost use Rattle.plant_book.specs.Caps.{cap_of};
ghost use Rattle.plant_book.specs.Policy.{claims, fall_claims};
ghost use Rattle.plant_book.specs.Covered.{TellsCap, CoversHeld, IsUnderCeiling, IsBackUnderCap};
ghost use Rattle.plant_book.specs.Answered.{IsBook, IsNext, IsAnswer, with_entries};
ghost use Rattle.plant_book.specs.Lifetime.{LiveOn, ChangesNothing};
ghost use Rattle.plant_book.specs.History.{History, Grant, Sight, grants, IsHistory};
ghost use Rattle.plant_book.specs.Behaviour.{IsBehaviour, IsUnseen, MayShow, acts_last, acts_and_shows};
ghost use Rattle.plant_book.specs.Safe.{IsSafeAlways};
ghost use Rattle.plant_book.specs.Tight.{IsTight};
ghost use Rattle.plant_book.specs.Carry.{IsBehind};
ghost use Rattle.plant_book.specs.Life.{Life, IsLife, entries_of};

/// Every history is safe at every moment: whatever past it has that fits, and however often the plant was
/// restarted.
pub fn histories_are_safe()
    ensures { (history : History) → IsHistory history → IsSafeAlways history }
{}

/// The timed device is no empty premise. An inverter of which no read was answered may have done nothing, and each
/// write that may act may have acted at the last moment at which it may. A write may have acted and then been
/// shown by the only answered read.
pub fn behaviours_exist()
    ensures idle { (history : History) (inverter : ℕ) → IsUnseen history inverter
        → IsBehaviour history inverter [] }
    ensures last { (history : History) (inverter : ℕ) (grant : Grant) → IsUnseen history inverter
        → Contains (grants history) grant → grant.write.inverter ≡ inverter
        → IsBehaviour history inverter (acts_last history.life.site.rules grant) }
    ensures shown { (history : History) (inverter : ℕ) (grant : Grant) (sight : Sight) (acted looked : ℕ)
        → MayShow history inverter grant sight acted looked
        → IsBehaviour history inverter (acts_and_shows history.life.site.rules grant sight acted looked) }
{}

/// A reservation stays until its write is given back, freed or past, and is gone at that very call. A refused call
/// changes no reservation beyond what is past by its moment.
pub fn reservations_live_on()
    ensures lifetime { (book : BookRecord) (entry : Entry)
        → IsNext book.site book.start book.entries entry.call
        → IsAnswer book book.entries entry
        → LiveOn book entry (with_entries book (book.entries ++ entry ∷ [])) }
    ensures refused { (book : BookRecord) (entry : Entry)
        → IsNext book.site book.start book.entries entry.call
        → IsAnswer book book.entries entry
        → ChangesNothing book entry (with_entries book (book.entries ++ entry ∷ [])) }
{}

/// A ledger that knows only the calls could free no write sooner: of a life that began with every inverter at its
/// floor, each live write since whose grant no read of its inverter was answered may be held, by an inverter that
/// follows the timed device, at a moment from the last of the book on.
pub fn no_write_could_go_sooner()
    ensures { (book : BookRecord) → IsBook book → IsTight book }
{}

/// The claims of the inverters of a plant are feasible under the cap in force, whatever they wish for and
/// whether they are strange or not, and so are those that the fall shares go by.
pub fn claims_are_feasible()
    ensures claims { (book : BookRecord) → IsBook book → IsFeasible (cap_of book) (claims book) }
    ensures falls { (book : BookRecord) → IsBook book → IsFeasible (cap_of book) (fall_claims book.site) }
{}

/// The cap in force is never below the floors nor above the site's cap. Only a Cap answered CapSet changes it,
/// and the reply tells the cap and the ceiling of the book with that entry.
pub fn caps_are_told()
    ensures within { (book : BookRecord) → IsBook book
        → (floors book.site ≤ cap_of book) × (cap_of book ≤ book.site.cap) }
    ensures next { (book : BookRecord) (entry : Entry)
        → IsNext book.site book.start book.entries entry.call
        → IsAnswer book book.entries entry
        → TellsCap book entry (with_entries book (book.entries ++ entry ∷ [])) }
{}

/// What an inverter may hold is reserved for it: behind the silence of the last life, or in the first life of a
/// plant that began at its floors.
pub fn what_is_held_is_reserved()
    ensures { (book : BookRecord) → CoversHeld book }
{}

/// What is reserved in all is at most the ceiling, and past reach of the last Cap answered CapSet at most the
/// cap in force.
pub fn totals_come_back_under_the_cap()
    ensures ceiling { (book : BookRecord) → IsBook book → IsUnderCeiling book }
    ensures back { (book : BookRecord) → IsBook book → IsBackUnderCap book }
{}

/// A life may be kept in several books. The last of them is right behind the entries of those before it: so what
/// a call says of each joined book that goes on in a book, it says of every answered life whose last book it is.
pub fn lives_are_joined()
    ensures { (life : Life) → IsLife life → IsBehind (entries_of life.ended) life.last }
{}
