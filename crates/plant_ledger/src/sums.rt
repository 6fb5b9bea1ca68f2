//! What the ledger keeps of all accounts together.
ghost use Rattle.std.specs.Prelude.{◌≡◌, ℕ, ◌≤◌, ◌<◌, List, length, map, None, Some, IfSome, slice_set, slice_index_or};
ghost use Rattle.plant_book.specs.Site.{SiteRecord};
ghost use Rattle.plant_book.specs.Calls.{named};
ghost use Rattle.plant_ledger.specs.Account.{Account as Kept};
ghost use Rattle.plant_ledger.specs.Account.{HasRoom, after_call, claim_by};
ghost use Rattle.plant_ledger.specs.Ledger.{AreSums, IsLevel, IsFallLevel, mark_after};

use crate::account::Account;
use crate::known::Known;
use limiter_num::Rules;
use plant_book::{Call, CapMark, Claim, Entry, Reply};

/// Numbers of all accounts together, so that no call goes through them.
#[derive(Clone, Copy, Debug)]
pub struct Sums {
    /// What is reserved in all, in mW.
    pub total: u64,
    /// A moment in ms before which no live write was granted.
    pub oldest: u64,
    /// What is known of the level of the fair shares.
    pub level: Known,
    /// The level of the fall shares in mW, where it was made since the cap changed.
    pub fall: Option<u64>,
    /// The last Cap that was set.
    pub set: Option<CapMark>,
}

impl Sums {
    /// The cap was the first and is the second of these from now on, in mW.
    pub fn under(&mut self, old: u64, new: u64)
        ensures sums { (accounts : List Kept) → AreSums accounts self.old → AreSums accounts self.new }
        ensures level { (accounts : List Kept) → IsLevel old accounts self.old.level
            → IsLevel new accounts self.new.level }
        ensures fall { (site : SiteRecord) → IsFallLevel old site self.old.fall
            → IsFallLevel new site self.new.fall }
        ensures set { self.new.set ≡ self.old.set }
    {
        if old == new {
            return;
        }
        self.level.made = None;
        self.fall = None;
    }

    /// Sets the mark that the entry sets, if it does. The total is that after the entry.
    pub fn mark(&mut self, entry: &Entry)
        ensures sums { (accounts : List Kept) → AreSums accounts self.old → AreSums accounts self.new }
        ensures level { self.new.level ≡ self.old.level }
        ensures fall { self.new.fall ≡ self.old.fall }
        ensures set { self.new.set ≡ mark_after self.old.set entry.now self.old.total }
    {
        match (&entry.call, &entry.reply) {
            (Call::Cap { at, .. }, Reply::CapSet { .. }) => {
                self.set = Some(CapMark {
                    at: *at,
                    was: self.total,
                });
            }
            _ => {}
        }
    }
}

/// The numbers of these accounts. The levels aren't made.
pub fn gather(accounts: &[Account]) -> Sums
    requires { length accounts.now ≤ 64 }
    ensures sums { AreSums accounts.now result }
    ensures made { result.level.made ≡ None }
    ensures probe { result.level.probe ≡ None }
    ensures fall { result.fall ≡ None }
    ensures set { result.set ≡ None }
{
    let mut total = 0;
    let mut oldest = u64::MAX;
    for account in accounts {
        total += account.reserved();
        oldest = oldest.min(account.oldest());
    }
    Sums {
        total,
        oldest,
        level: Known::nothing(),
        fall: None,
        set: None,
    }
}

/// The account of the inverter that one more entry names follows it, and so do its claim and the numbers of all
/// accounts.
pub fn follow(
    accounts: &mut [Account],
    claims: &mut [Claim],
    sums: &mut Sums,
    rules: &Rules,
    entry: &Entry,
)
    requires few { length accounts.old ≤ 64 }
    requires claims { claims.old ≡ map claim_by accounts.old }
    requires sums { AreSums accounts.old sums.old }
    requires within { IfSome (named entry.now.call) (λ inverter. inverter < length accounts.old) }
    requires links { (inverter : ℕ) (otherwise : Kept) → named entry.now.call ≡ Some inverter
        → (slice_index_or accounts.old inverter otherwise).link < 4294967295 }
    requires room { (inverter : ℕ) (otherwise : Kept) → named entry.now.call ≡ Some inverter
        → HasRoom entry.now.reply (slice_index_or accounts.old inverter otherwise) }
    ensures named { (inverter : ℕ) (otherwise : Kept) → named entry.now.call ≡ Some inverter
        → accounts.new ≡ slice_set accounts.old inverter
        (after_call rules.now entry.now.call entry.now.reply
        (slice_index_or accounts.old inverter otherwise)) }
    ensures unnamed { named entry.now.call ≡ None → accounts.new ≡ accounts.old }
    ensures claims { claims.new ≡ map claim_by accounts.new }
    ensures sums { AreSums accounts.new sums.new }
    ensures level { (cap : ℕ) → IsLevel cap accounts.old sums.old.level
        → IsLevel cap accounts.new sums.new.level }
    ensures fall { sums.new.fall ≡ sums.old.fall }
    ensures set { sums.new.set ≡ sums.old.set }
{
    let Some(inverter) = entry.call.inverter() else {
        return;
    };
    let place = usize::from(inverter);
    let account = &mut accounts[place];
    let wish = account.wish();
    let strange = account.is_strange();
    let reserved = account.reserved();
    account.follow(rules, entry);
    sums.total = sums.total - reserved + account.reserved();
    sums.oldest = sums.oldest.min(account.oldest());
    if account.wish() == wish && account.is_strange() == strange {
        return;
    }
    let claim = claims[place];
    let next = account.claim();
    claims[place] = next;
    sums.level = sums.level.moved(&claim, &next);
}
