ghost use Rattle.std.specs.Prelude.{◌≡◌, ℕ, ◌^◌, ◌<◌, ◌≤◌, Bool, List, pos, ◌≤ℤ◌, None, Some, option_map, IfOk, IfErr, MatchResult};
ghost use Rattle.toml.specs.Data.{string};
ghost use Rattle.toml.specs.View.{view, table_view};
ghost use Rattle.site_config.specs.Keys.{value_at, integer_at, number_at};
ghost use Rattle.site_config.specs.Checks.{integer_fault, number_fault, text_fault};

use crate::fault::SiteFault;
use crate::key::Key;
use toml::{Table, Value};

/// The keys of one table of a site file.
#[derive(Clone, Copy)]
pub struct Fields<'a> {
    pub table: &'a Table,
    /// The number of the inverter whose table it is, or none for the site's own keys.
    pub inverter: Option<u32>,
}

impl<'a> Fields<'a> {
    /// The value at a key.
    pub fn value(&self, key: Key) -> Option<&'a Value>
        ensures { option_map (λ value. view value.now) result ≡ value_at key (table_view self.now.table.now) }
    {
        self.table.get(key.name())
    }

    /// The integer at a key, from low to high.
    #[tactic(auto, unfolding(crate::specs::Checks::integer_fault, crate::specs::Keys::integer_at))]
    pub fn integer(&self, key: Key, low: i64, high: i64) -> Result<i64, SiteFault>
        ensures fault { MatchResult result
            (λ _. integer_fault key self.now.inverter low high (table_view self.now.table.now) ≡ None)
            (λ fault. integer_fault key self.now.inverter low high (table_view self.now.table.now) ≡ Some fault) }
        ensures value { IfOk result (λ value. value ≡ integer_at key (table_view self.now.table.now)) }
        ensures range { IfOk result (λ value. (low ≤ℤ value) × (value ≤ℤ high)) }
    {
        let inverter = self.inverter;
        let Some(value) = self.value(key) else {
            return Err(SiteFault::Missing { key, inverter });
        };
        let Some(value) = value.as_integer() else {
            return Err(SiteFault::WrongKind { key, inverter });
        };
        if value < low || value > high {
            return Err(SiteFault::OutOfRange {
                key,
                inverter,
                value,
            });
        }
        Ok(value)
    }

    /// The number at a key that holds none below 0, from low to high.
    pub fn number(&self, key: Key, low: u64, high: u64) -> Result<u64, SiteFault>
        requires low { low < 2 ^ 63 }
        requires high { high < 2 ^ 63 }
        ensures fault { MatchResult result
            (λ _. number_fault key self.now.inverter low high (table_view self.now.table.now) ≡ None)
            (λ fault. number_fault key self.now.inverter low high (table_view self.now.table.now) ≡ Some fault) }
        ensures value { IfOk result (λ value. value ≡ number_at key (table_view self.now.table.now)) }
        ensures range { IfOk result (λ value. (low ≤ value) × (value ≤ high)) }
    {
        let value = self.integer(key, low as i64, high as i64)?;
        Ok(value.unsigned_abs())
    }

    /// The string at a key.
    #[tactic(auto, unfolding(crate::specs::Checks::text_fault))]
    pub fn text(&self, key: Key) -> Result<&'a str, SiteFault>
        ensures text { IfOk result (λ text. value_at key (table_view self.now.table.now) ≡ Some (string text.now)) }
        ensures fault { IfErr result (λ fault. (passes : List ℕ → Bool)
            → text_fault key self.now.inverter passes (table_view self.now.table.now) ≡ Some fault) }
    {
        let inverter = self.inverter;
        let Some(value) = self.value(key) else {
            return Err(SiteFault::Missing { key, inverter });
        };
        let Some(text) = value.as_str() else {
            return Err(SiteFault::WrongKind { key, inverter });
        };
        Ok(text)
    }
}
