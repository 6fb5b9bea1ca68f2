ghost use Rattle.std.specs.Prelude.{◌≡◌, ◌+◌, ◌*◌, ◌^◌, ◌<◌, ◌≤◌, List, [], ◌∷◌, ◌++◌, length, MatchResult};
ghost use Rattle.plant_book.specs.declared.site.Unit.{Unit};
ghost use Rattle.script_text.specs.Progress.{UnitsFault};
ghost use Rattle.script_text.specs.Size.{AreCounted, UnitsCounted};

use crate::fault::ScriptFault;
use crate::head::HeadLine;
use crate::rows::Rows;
use crate::script::read_head_line;
use plant_book::{INVERTERS_MAX, Unit};

/// What opening a book asks of the site of a script.
#[derive(Clone, Copy, Debug, PartialEq, Eq)]
pub struct SiteSize {
    /// What all limits together stay under, in mW.
    pub cap: u64,
    /// How many inverters there are.
    pub inverters: usize,
    /// The floors of all inverters in mW, where there are at most 64.
    pub floors: u64,
}

/// The size with one more inverter.
fn with_unit(size: SiteSize, unit: &Unit) -> SiteSize
    requires few { size.inverters < 2 ^ 32 }
    requires below { size.inverters < 64 → size.floors ≤ 64 * (65535 * 10 ^ 12) }
    ensures cap { result.cap ≡ size.cap }
    ensures inverters { result.inverters ≡ size.inverters + 1 }
    ensures counted { (units : List Unit) → AreCounted units size → AreCounted (units ++ unit.now ∷ []) result }
{
    let mut floors = size.floors;
    if size.inverters < INVERTERS_MAX {
        floors += unit.rating.mw(unit.floor);
    }
    SiteSize {
        cap: size.cap,
        inverters: size.inverters + 1,
        floors,
    }
}

/// The size of a site of this cap in mW with the inverters behind its site line, the begin, and the rows behind it.
/// It takes no memory.
pub fn count_units(cap: u64, mut rows: Rows<'_>) -> Result<(SiteSize, u64, Rows<'_>), ScriptFault>
    requires { rows.number + length rows.rest.now < 2 ^ 32 }
    ensures { MatchResult result
        (λ found. UnitsCounted rows.entry found.0 found.1 found.2 × (found.0.cap ≡ cap))
        (λ fault. UnitsFault rows.entry fault) }
{
    let mut size = SiteSize {
        cap,
        inverters: 0,
        floors: 0,
    };
    loop {
        let (line, behind) = read_head_line(rows)?;
        match line {
            HeadLine::Inverter(unit) => size = with_unit(size, &unit),
            HeadLine::Begin(start) => return Ok((size, start, behind)),
        }
        rows = behind;
    }
}
