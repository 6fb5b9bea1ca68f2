ghost use Rattle.std.specs.Prelude.{◌≡◌, None, Some, MatchResult, OnOk};
ghost use Rattle.plant_book.specs.Answered.{IsOpenable};
ghost use Rattle.plant_ledger.specs.Opening.{open_fault};

use plant_book::{INVERTERS_MAX, Site};

/// Why a site opens no book. The site is dropped.
#[derive(Clone, Copy, Debug, PartialEq, Eq)]
pub enum OpenFault {
    /// The site has no inverter.
    NoInverter,
    /// The site has more than 64 inverters: so many.
    TooManyInverters(u32),
    /// The floors of all inverters sum to more than the cap: to so many mW.
    FloorsOverCap(u64),
    /// Memory for the whole book could not be had.
    NoMemory,
}

/// Refuses a site that opens no book.
pub fn refuse(site: &Site) -> Result<(), OpenFault>
    ensures fault { MatchResult result (λ _. open_fault site.now ≡ None) (λ fault. open_fault site.now
        ≡ Some fault) }
    ensures openable { OnOk result (IsOpenable site.now) }
{
    let count = site.units.len();
    if count == 0 {
        return Err(OpenFault::NoInverter);
    }
    if count > INVERTERS_MAX {
        return Err(OpenFault::TooManyInverters(count as u32));
    }
    let floors = site.floors();
    if floors > site.cap {
        return Err(OpenFault::FloorsOverCap(floors));
    }
    Ok(())
}
