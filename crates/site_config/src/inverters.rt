ghost use Rattle.std.specs.Prelude.{◌≡◌, ◌*◌, ◌^◌, ◌≤◌, List, length, map, None, Some, IsSome, IfOk, MatchResult};
ghost use Rattle.toml.specs.Data.{Members};
ghost use Rattle.toml.specs.View.{table_view, items_view};
ghost use Rattle.site_config.specs.Keys.{tables_of, text_at, port_at, points_at, base_max};
ghost use Rattle.site_config.specs.Checks.{first_fault, text_fault, is_host, port_checks, points_checks, inverter_checks};
ghost use Rattle.site_config.specs.Reading.{inverter_at, AddsFloor, JudgesInverters, ReadsInverters, Rates};

use crate::fault::{SiteError, SiteFault};
use crate::fields::Fields;
use crate::key::Key;
use crate::points::{Points, unit_of};
use crate::tables::table_of;
use arrayvec::ArrayString;
use plant_book::{Port, Unit};
use std::alloc::{AllocError, Global};
use toml::{Table, Value};

/// The greatest address of the register that identifies model 704: the registers that are written and read there
/// go up to the 21st behind it, and the last address is 65,535.
const BASE_MAX: u64 = 65_514;

/// What the table of an inverter says.
#[derive(Drop)]
pub struct Inverter {
    pub port: Port,
    pub points: Points,
}

#[tactic(auto, unfolding(crate::specs::Checks::text_fault, crate::specs::Keys::text_at))]
fn read_host(fields: &Fields) -> Result<ArrayString<64>, SiteFault>
    ensures fault { MatchResult result
        (λ _. text_fault Key.Host fields.now.inverter is_host (table_view fields.now.table.now) ≡ None)
        (λ fault. text_fault Key.Host fields.now.inverter is_host (table_view fields.now.table.now) ≡ Some fault) }
    ensures host { IfOk result (λ host. host.bytes ≡ text_at Key.Host (table_view fields.now.table.now)) }
{
    let fault = SiteFault::BadText {
        key: Key::Host,
        inverter: fields.inverter,
    };
    let text = fields.text(Key::Host)?;
    if text.is_empty() {
        return Err(fault);
    }
    match ArrayString::from(text) {
        Ok(host) => Ok(host),
        Err(_) => Err(fault),
    }
}

fn read_port(table: &Table, number: u32) -> Result<Port, SiteFault>
    ensures fault { MatchResult result
        (λ _. first_fault (port_checks number (table_view table.now)) ≡ None)
        (λ fault. first_fault (port_checks number (table_view table.now)) ≡ Some fault) }
    ensures port { IfOk result (λ port. port ≡ port_at (table_view table.now)) }
    ensures base { IfOk result (λ port. port.base ≤ base_max) }
{
    let fields = Fields {
        table,
        inverter: Some(number),
    };
    let host = read_host(&fields)?;
    let port = fields.number(Key::Port, 1, u64::from(u16::MAX))? as u16;
    let unit = fields.number(Key::Unit, 0, u64::from(u8::MAX))? as u8;
    let base = fields.number(Key::Base, 0, BASE_MAX)? as u16;
    Ok(Port {
        host,
        port,
        unit,
        base,
    })
}

fn read_points(table: &Table, number: u32) -> Result<Points, SiteFault>
    ensures fault { MatchResult result
        (λ _. first_fault (points_checks number (table_view table.now)) ≡ None)
        (λ fault. first_fault (points_checks number (table_view table.now)) ≡ Some fault) }
    ensures points { IfOk result (λ points. points ≡ points_at (table_view table.now)) }
{
    let fields = Fields {
        table,
        inverter: Some(number),
    };
    let wmax = fields.number(Key::Wmax, 0, u64::from(u16::MAX))? as u16;
    let wsf = fields.integer(Key::Wsf, i64::from(i16::MIN), i64::from(i16::MAX))? as i16;
    let psf = fields.integer(Key::Psf, i64::from(i16::MIN), i64::from(i16::MAX))? as i16;
    let floor = fields.number(Key::Floor, 0, u64::from(u16::MAX))? as u16;
    Ok(Points {
        wmax,
        wsf,
        psf,
        floor,
    })
}

/// The inverter of this number, by its table.
pub fn read_inverter(table: &Table, number: u32) -> Result<Inverter, SiteFault>
    ensures fault { MatchResult result
        (λ _. first_fault (inverter_checks number (table_view table.now)) ≡ None)
        (λ fault. first_fault (inverter_checks number (table_view table.now)) ≡ Some fault) }
    ensures inverter { IfOk result (λ inverter. inverter ≡ inverter_at (table_view table.now)) }
    ensures base { IfOk result (λ inverter. inverter.port.base ≤ base_max) }
{
    let port = read_port(table, number)?;
    let points = read_points(table, number)?;
    Ok(Inverter { port, points })
}

/// The milliwatts of the floors so far with those of one more inverter, or the first fault of a rating or floor.
fn with_floor(
    floors: Result<u64, SiteFault>,
    unit: Result<Unit, SiteFault>,
) -> Result<u64, SiteFault>
    requires { IfOk floors (λ sum. sum ≤ 63 * (65535 * 10 ^ 12)) }
    ensures { AddsFloor floors unit result }
{
    let sum = floors?;
    let unit = unit?;
    Ok(sum + unit.rating.mw(unit.floor))
}

/// The milliwatts of the floors of the inverters of these tables, or the first fault of these. It takes no memory.
pub fn judge_inverters(tables: &[Value]) -> Result<u64, SiteFault>
    requires few { length tables.now ≤ 64 }
    requires tables { IsSome (tables_of (items_view tables.now)) }
    ensures { (known : List Members) → tables_of (items_view tables.now) ≡ Some known → JudgesInverters known result }
{
    let mut floors = Ok(0);
    for (number, value) in tables.iter().enumerate() {
        let inverter = read_inverter(table_of(value), number as u32)?;
        floors = with_floor(floors, unit_of(inverter.points, number as u32));
    }
    floors
}

/// The inverters, by their tables.
pub fn read_inverters(alloc: Global, tables: &[Value]) -> Result<Vec<Inverter>, SiteError>
    requires few { length tables.now ≤ 64 }
    requires tables { IsSome (tables_of (items_view tables.now)) }
    ensures { (known : List Members) → tables_of (items_view tables.now) ≡ Some known → ReadsInverters known result }
{
    let mut inverters = Vec::with_capacity(alloc, tables.len())?;
    for (number, value) in tables.iter().enumerate() {
        let inverter = read_inverter(table_of(value), number as u32)?;
        inverters.push(inverter)?;
    }
    Ok(inverters)
}

/// The inverters as the ledger sees them.
pub fn units_of(alloc: Global, inverters: &[Inverter]) -> Result<Vec<Unit>, SiteError>
    requires { length inverters.now ≤ 64 }
    ensures { Rates (map (λ inverter. inverter.points) inverters.now) result }
{
    let mut units = Vec::with_capacity(alloc, inverters.len())?;
    for (number, inverter) in inverters.iter().enumerate() {
        let unit = unit_of(inverter.points, number as u32)?;
        units.push(unit)?;
    }
    Ok(units)
}

/// Where the inverters are reached.
pub fn ports_of(alloc: Global, inverters: Vec<Inverter>) -> Result<Vec<Port>, AllocError>
    ensures { IfOk result (λ ports. ports.items ≡ map (λ inverter. inverter.port) inverters.items) }
{
    inverters
        .into_iter()
        .map(|inverter| inverter.port)
        .collect(alloc)
}
