//! What is made of all inverters or accounts, one by one.
ghost use Rattle.std.specs.Prelude.{◌≡◌, map, IfOk};
ghost use Rattle.plant_ledger.specs.Account.{first_account, claim_by, unit_by};

use crate::account::Account;
use limiter_num::NoMemory;
use plant_book::{Claim, Unit, UnitCarry};
use std::alloc::Global;

/// The accounts of these inverters before the first call.
pub fn first_accounts(alloc: Global, units: &[Unit]) -> Result<Vec<Account>, NoMemory>
    ensures { IfOk result (λ accounts. accounts.items ≡ map first_account units.now) }
{
    let Ok(mut accounts) = Vec::with_capacity(alloc, units.len()) else {
        return Err(NoMemory);
    };
    for unit in units {
        accounts.push_reserved(Account::new(unit));
    }
    Ok(accounts)
}

/// What these accounts leave to the next book.
pub fn units_by(alloc: Global, accounts: &[Account]) -> Result<Vec<UnitCarry>, NoMemory>
    ensures { IfOk result (λ units. units.items ≡ map unit_by accounts.now) }
{
    let Ok(mut units) = Vec::with_capacity(alloc, accounts.len()) else {
        return Err(NoMemory);
    };
    for account in accounts {
        units.push_reserved(account.carry());
    }
    Ok(units)
}

/// What the shares of these inverters go by.
pub fn claims_by(alloc: Global, accounts: &[Account]) -> Result<Vec<Claim>, NoMemory>
    ensures { IfOk result (λ claims. claims.items ≡ map claim_by accounts.now) }
{
    let Ok(mut claims) = Vec::with_capacity(alloc, accounts.len()) else {
        return Err(NoMemory);
    };
    for account in accounts {
        claims.push_reserved(account.claim());
    }
    Ok(claims)
}
