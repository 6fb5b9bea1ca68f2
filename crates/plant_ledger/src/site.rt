//! What the site of the book says.
ghost use Rattle.std.specs.Prelude.{◌≡◌, ◌<◌, ◌≤◌, Some, slice_get};
ghost use Rattle.plant_book.specs.Site.{inverters, floors, full_at, mw_at};
ghost use Rattle.plant_ledger.specs.Ledger.{IsUnit};

use crate::ledger::Ledger;
use limiter_num::Rules;
use plant_book::{Policy, Site, Unit};

impl Ledger {
    /// The site of the book.
    pub fn site(&self) -> &Site
        ensures site { result.now ≡ self.now.book.site }
        ensures few { inverters self.now.book.site ≤ 64 }
    {
        let book = self.book();
        &book.site
    }

    /// The rules of the site.
    pub fn rules(&self) -> Rules
        ensures { result ≡ self.now.book.site.rules }
    {
        let site = self.site();
        site.rules
    }

    /// The cap of the site, in mW.
    pub fn site_cap(&self) -> u64
        ensures { result ≡ self.now.book.site.cap }
    {
        let site = self.site();
        site.cap
    }

    /// The milliwatts of all floors.
    pub fn floors(&self) -> u64
        ensures { result ≡ floors self.now.book.site }
    {
        self.site().floors()
    }

    /// The policy of the site.
    pub fn policy(&self) -> Policy
        ensures { result ≡ self.now.book.site.policy }
    {
        let site = self.site();
        site.policy
    }

    /// The inverter of this number.
    pub fn unit(&self, inverter: u8) -> &Unit
        requires { inverter < inverters self.now.book.site }
        ensures unit { slice_get self.now.book.site.units inverter ≡ Some result.now }
        ensures numbers { IsUnit self.now.book.site inverter result.now }
    {
        unit_of(self.site(), inverter)
    }

    /// The milliwatts that a raw percentage of the inverter stands for.
    pub fn limit(&self, inverter: u8, raw: u16) -> u64
        requires { inverter < inverters self.now.book.site }
        ensures { result ≡ mw_at self.now.book.site inverter raw }
    {
        self.account(inverter).limit(raw)
    }

    /// The greatest raw percentage of the inverter.
    pub fn full(&self, inverter: u8) -> u16
        requires { inverter < inverters self.now.book.site }
        ensures { result ≡ full_at self.now.book.site inverter }
    {
        self.account(inverter).full()
    }
}

/// The inverter of this number.
fn unit_of(site: &Site, inverter: u8) -> &Unit
    requires { inverter < inverters site.now }
    ensures { slice_get site.now.units inverter ≡ Some result.now }
{
    &site.units[usize::from(inverter)]
}
