ghost use Rattle.std.specs.Prelude.{◌≡◌, None, Some, IfOk, MatchResult};
ghost use Rattle.site_config.specs.Checks.{first_fault, unit_checks};
ghost use Rattle.site_config.specs.SiteFile.{points_of};

use crate::fault::SiteFault;
use limiter_num::Rating;
use plant_book::{FloorOut, Unit};

/// What an inverter's table says of its rating and its floor.
#[derive(Clone, Copy, Debug, PartialEq, Eq)]
pub struct Points {
    /// WMax of SunSpec DER model 702.
    pub wmax: u16,
    /// W_SF of model 702.
    pub wsf: i16,
    /// WMaxLimPct_SF of model 704.
    pub psf: i16,
    /// WMaxLimPctRvrt of model 704.
    pub floor: u16,
}

/// The inverter of this number as the ledger sees it.
pub fn unit_of(points: Points, inverter: u32) -> Result<Unit, SiteFault>
    ensures fault { MatchResult result
        (λ _. first_fault (unit_checks inverter points) ≡ None)
        (λ fault. first_fault (unit_checks inverter points) ≡ Some fault) }
    ensures unit { IfOk result (λ unit. points_of unit ≡ points) }
{
    let rating = match Rating::new(points.wmax, points.wsf, points.psf) {
        Ok(rating) => rating,
        Err(cause) => return Err(SiteFault::Unrated { inverter, cause }),
    };
    match Unit::new(rating, points.floor) {
        Ok(unit) => Ok(unit),
        Err(FloorOut { full }) => Err(SiteFault::FloorOut { inverter, full }),
    }
}
