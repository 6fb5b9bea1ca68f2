ghost use Rattle.std.specs.Prelude.{◌≡◌, ◌^◌, ◌<◌, ◌≤◌, length, None, Some, IfOk, IfErr, OnOk, MatchResult};
ghost use Rattle.toml.specs.View.{table_view};
ghost use Rattle.plant_book.specs.Site as sites;
ghost use Rattle.plant_book.specs.Answered.{IsOpenable};
ghost use Rattle.site_config.specs.Keys.{inverters_at};
ghost use Rattle.site_config.specs.Reading.{MakesFile};
ghost use Rattle.site_config.specs.SiteFile.{renew_fault, floors_fault, IsText, IsFileOf, IsSiteFile, IsInRange};
ghost use Rattle.site_config.specs.SiteFile.{IsFaultOf, IsFaultless, IsTableCause, IsCause};

use crate::fault::{SiteError, SiteFault};
use crate::fields::Fields;
use crate::inverters::{judge_inverters, ports_of, read_inverters, units_of};
use crate::settings::read_settings;
use limiter_num::Rules;
use plant_book::{Port, Site};
use std::alloc::Global;
use std::marker::Model;
use toml::Table;

/// The greatest count of bytes of a site file.
pub const SITE_BYTES_MAX: usize = 1_048_576;

const _: () = prove!(SITE_BYTES_MAX == 1_048_576);

/// How many times a limit is written anew, at most, while one write may be held.
const RENEWALS_MAX: u64 = 16;

/// A plant, and how its inverters are reached.
#[derive(Debug, Drop)]
pub struct SiteFile {
    pub site: Site,
    /// Where the inverters are reached, by their numbers from 0.
    pub ports: Vec<Port>,
    /// After what time a limit is written anew, in ms.
    pub renew: u32,
    /// The pause between two turns of a worker, in ms.
    pub pause: u32,
    /// How long a reply is waited for, in ms.
    pub wait: u32,
}

impl Model for SiteFile {
    ghost use Rattle.site_config.specs.SiteFile.{SiteFileRecord};

    ghost Value = { SiteFileRecord };

    ghost view = { λ f. record {
      site = f.site;
      ports = f.ports.items;
      renew = f.renew;
      pause = f.pause;
      wait = f.wait;
    } };
}

/// Refuses a time after which limits would be written anew too often.
fn check_renew(rules: &Rules, renew: u32) -> Result<(), SiteFault>
    ensures { MatchResult result
        (λ _. renew_fault rules.now renew ≡ None)
        (λ fault. renew_fault rules.now renew ≡ Some fault) }
{
    let least = rules.reach().div_ceil(RENEWALS_MAX);
    if u64::from(renew) < least {
        return Err(SiteFault::RenewTooShort {
            least: least as u32,
        });
    }
    Ok(())
}

/// Refuses floors in mW that don't fit under the cap.
fn check_floors(cap: u64, floors: u64) -> Result<(), SiteFault>
    ensures { (site : sites.SiteRecord) → cap ≡ site.cap → floors ≡ sites.floors site → MatchResult result
        (λ _. floors_fault site ≡ None)
        (λ fault. floors_fault site ≡ Some fault) }
{
    if floors > cap {
        return Err(SiteFault::FloorsOverCap(floors));
    }
    Ok(())
}

/// Judges a table: its own keys, its inverters, and the file that it says. It takes no memory.
fn judge(table: &Table) -> Result<(), SiteFault>
    requires { length (inverters_at (table_view table.now)) < 2 ^ 32 }
    ensures { MatchResult result (λ _. IsFaultless (table_view table.now)) (IsFaultOf (table_view table.now)) }
{
    let settings = read_settings(&Fields {
        table,
        inverter: None,
    })?;
    let floors = judge_inverters(settings.inverters)?;
    check_renew(&settings.rules, settings.pace.renew)?;
    check_floors(settings.cap, floors)
}

/// The file that a table says.
fn file_of(alloc: Global, table: &Table) -> Result<SiteFile, SiteError>
    requires { length (inverters_at (table_view table.now)) < 2 ^ 32 }
    ensures { MakesFile (table_view table.now) result }
{
    let settings = read_settings(&Fields {
        table,
        inverter: None,
    })?;
    let inverters = read_inverters(alloc, settings.inverters)?;
    let units = units_of(alloc, &inverters)?;
    let ports = ports_of(alloc, inverters)?;
    let pace = settings.pace;
    let site = Site::new(
        settings.cap,
        settings.rules,
        settings.policy,
        settings.room,
        units,
    );
    Ok(SiteFile {
        site,
        ports,
        renew: pace.renew,
        pause: pace.pause,
        wait: pace.wait,
    })
}

/// The file that the table of a TOML text says. `NoMemory` comes only where nothing of it is at fault.
pub fn site_of_table(alloc: Global, table: &Table) -> Result<SiteFile, SiteError>
    requires { length (inverters_at (table_view table.now)) < 2 ^ 32 }
    ensures file { IfOk result (IsFileOf (table_view table.now)) }
    ensures faultless { OnOk result (IsFaultless (table_view table.now)) }
    ensures refused { IfErr result (IsTableCause (table_view table.now)) }

    // A plant can be opened of the site, and workers be run by the file.
    ensures openable { IfOk result (λ file. IsOpenable file.site) }
    ensures in_range { IfOk result IsInRange }
{
    judge(table)?;
    file_of(alloc, table)
}

/// The table of a TOML text.
fn read_table(alloc: Global, bytes: &[u8]) -> Result<Table, SiteError>
    ensures { MatchResult result (λ table. IsText bytes.now (table_view table)) (IsCause bytes.now) }
{
    let Ok(text) = std::str::from_utf8(bytes) else {
        return Err(SiteError::Bad(SiteFault::NotToml));
    };
    match toml::table_from_str(alloc, text) {
        Ok(table) => Ok(table),
        Err(error) if error.is_memory() => Err(SiteError::NoMemory),
        Err(_) => Err(SiteError::Bad(SiteFault::NotToml)),
    }
}

/// Reads the bytes of a site file, of which there are at most `SITE_BYTES_MAX`.
///
/// They are TOML in UTF-8. `NoMemory` comes where memory ran out as the text was parsed, whose faults aren't known
/// then, and else only where nothing of it is at fault (`site_of_table`).
pub fn site_of(alloc: Global, bytes: &[u8]) -> Result<SiteFile, SiteError>
    requires { length bytes.now ≤ SITE_BYTES_MAX }
    ensures file { IfOk result (IsSiteFile bytes.now) }
    ensures refused { IfErr result (IsCause bytes.now) }

    // A plant can be opened of the site, and workers be run by the file.
    ensures openable { IfOk result (λ file. IsOpenable file.site) }
    ensures in_range { IfOk result IsInRange }
{
    let table = read_table(alloc, bytes)?;
    site_of_table(alloc, &table)
}
