ghost use Rattle.std.specs.Prelude.{◌≡◌, ◌≤◌, ◌++◌, codes, string_bytes, OnOk, OnErr};
ghost use Rattle.plant_book.specs.Site.{inverters};
ghost use Rattle.site_config.specs.Summary.{site_lines, rules_lines, number_line, inverter_line, inverter_lines, summary};

use crate::site_file::SiteFile;
use limiter_num::{NoMemory, Rules};
use plant_book::{Site, Unit};
use std::alloc::AllocError;

fn put_site(text: &mut String, site: &Site) -> Result<(), AllocError>
    requires { inverters site.now ≤ 64 }
    ensures { OnOk result (string_bytes text.new ≡ string_bytes text.old ++ site_lines site.now) }
{
    let inverters = site.units.len();
    let floors = site.floors();
    write!(
        text,
        "cap {}\ninverters {inverters}\nfloors {floors}\n",
        site.cap
    )
}

fn put_rules(text: &mut String, rules: &Rules) -> Result<(), AllocError>
    ensures { OnOk result (string_bytes text.new ≡ string_bytes text.old ++ rules_lines rules.now) }
{
    let (tmin, tmax, reach) = (rules.tmin(), rules.tmax(), rules.reach());
    write!(text, "tmin {tmin}\ntmax {tmax}\nreach {reach}\n")
}

fn put_renew(text: &mut String, renew: u32) -> Result<(), AllocError>
    ensures { OnOk result (string_bytes text.new ≡ string_bytes text.old ++ number_line (codes "renew") renew) }
{
    writeln!(text, "renew {renew}")
}

/// Adds the line of the inverter of this number.
fn put_inverter(text: &mut String, number: usize, unit: &Unit) -> Result<(), AllocError>
    ensures { OnOk result (string_bytes text.new ≡ string_bytes text.old ++ inverter_line number unit.now) }
{
    let full = unit.rating.full();
    let rated = unit.rating.mw(full);
    let floor = unit.rating.mw(unit.floor);
    writeln!(
        text,
        "inverter {number} full {full} rated {rated} floor {floor}"
    )
}

fn put_inverters(text: &mut String, units: &[Unit]) -> Result<(), AllocError>
    ensures { OnOk result (string_bytes text.new ≡ string_bytes text.old ++ inverter_lines units.now) }
{
    for (number, unit) in units.iter().enumerate() {
        put_inverter(text, number, unit)?;
    }
    Ok(())
}

fn put_summary(text: &mut String, file: &SiteFile) -> Result<(), AllocError>
    requires { inverters file.now.site ≤ 64 }
    ensures { OnOk result (string_bytes text.new ≡ string_bytes text.old ++ summary file.now) }
{
    let site = &file.site;
    put_site(text, site)?;
    put_rules(text, &site.rules)?;
    put_renew(text, file.renew)?;
    put_inverters(text, &site.units)
}

/// Appends the summary of a site file of at most 64 inverters, or leaves `out` as it was.
pub fn summary_text(out: &mut Vec<u8>, file: &SiteFile) -> Result<(), NoMemory>
    requires { inverters file.now.site ≤ 64 }
    ensures ok { OnOk result (out.new.items ≡ out.old.items ++ summary file.now) }
    ensures err { OnErr result (out.new.items ≡ out.old.items) }
{
    let mut text = String::new(*out.allocator());
    if put_summary(&mut text, file).is_err() {
        return Err(NoMemory);
    }
    match out.extend_from_slice(text.as_bytes()) {
        Ok(()) => Ok(()),
        Err(_) => Err(NoMemory),
    }
}
