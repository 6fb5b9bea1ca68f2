ghost use Rattle.std.specs.Prelude.{◌≡◌, ◌^◌, ◌<◌, ◌≤◌, length, None, Some, is_some, IsSome, MatchOption, MatchResult, IfOk};
ghost use Rattle.std.specs.List.{list_all};
ghost use Rattle.toml.specs.Data.{as_table};
ghost use Rattle.toml.specs.View.{view, items_view, table_view};
ghost use Rattle.site_config.specs.Keys.{tables_of, as_tables, inverters_at};
ghost use Rattle.site_config.specs.Checks.{inverters_fault};

use crate::fault::SiteFault;
use crate::fields::Fields;
use crate::key::Key;
use plant_book::INVERTERS_MAX;
use toml::{Table, Value};

/// Whether values are tables, all of them.
fn are_tables(values: &[Value]) -> bool
    ensures { result ≡ list_all (λ value. is_some (as_table (view value))) values.now }
{
    values.iter().all(|value| value.is_table())
}

/// The tables of an array that holds nothing else.
fn tables(value: &Value) -> Option<&[Value]>
    ensures { MatchOption result
        (as_tables (view value.now) ≡ None)
        (λ values. IsSome (tables_of (items_view values.now))
        × (as_tables (view value.now) ≡ tables_of (items_view values.now))) }
{
    let values = value.as_array()?.as_slice();
    if are_tables(values) {
        Some(values)
    } else {
        None
    }
}

/// The tables of 1 to 64 inverters.
#[tactic(auto, unfolding(crate::specs::Checks::inverters_fault, crate::specs::Keys::inverters_at))]
pub fn read_tables<'a>(fields: &Fields<'a>) -> Result<&'a [Value], SiteFault>
    requires { length (inverters_at (table_view fields.now.table.now)) < 2 ^ 32 }
    ensures fault { MatchResult result
        (λ _. inverters_fault (table_view fields.now.table.now) ≡ None)
        (λ fault. inverters_fault (table_view fields.now.table.now) ≡ Some fault) }
    ensures tables { IfOk result (λ tables.
        tables_of (items_view tables.now) ≡ Some (inverters_at (table_view fields.now.table.now))) }
    ensures some { IfOk result (λ tables. 1 ≤ length tables.now) }
    ensures few { IfOk result (λ tables. length tables.now ≤ 64) }
{
    let Some(value) = fields.value(Key::Inverter) else {
        return Err(SiteFault::NoInverter);
    };
    let Some(tables) = tables(value) else {
        return Err(SiteFault::WrongKind {
            key: Key::Inverter,
            inverter: None,
        });
    };
    let count = tables.len();
    if count == 0 {
        return Err(SiteFault::NoInverter);
    }
    if count > INVERTERS_MAX {
        return Err(SiteFault::TooManyInverters(count as u32));
    }
    Ok(tables)
}

/// A value that is a table, as one.
pub fn table_of(value: &Value) -> &Table
    requires { IsSome (as_table (view value.now)) }
    ensures { Some (table_view result.now) ≡ as_table (view value.now) }
{
    match value.as_table() {
        Some(table) => table,
        None => unreachable!(),
    }
}
