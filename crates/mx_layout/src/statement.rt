//! One statement, whatever its text is.
ghost use Rattle.std.specs.Prelude.{◌≡◌, ◌⊎◌, ℕ, Ok, OnOk, IfErr, IsTrue};
ghost use Rattle.sqlite.specs.Held.{state};
ghost use Rattle.sqlite.specs.State.{HasCleanDisk, ExecutesInside};
ghost use Rattle.sqlite.specs.Values.{bound};
ghost use Rattle.mx_layout.specs.Crash.{StaysIn};

use crate::fault::{TableFault, fault_of};
use sqlite::types::ValueRef;
use sqlite::{Alter, Transaction};

/// Runs a statement in the open transaction.
///
/// # Errors
/// `Memory` for want of memory, and `Store` for another error of the store.
pub fn execute<S: Alter>(
    tx: &mut Transaction<'_, S>,
    sql: &str,
    values: &[ValueRef<'_>],
) -> Result<(), TableFault>
    ensures stays { StaysIn S.Store (OnOk result) tx.old tx.new }
    ensures runs { let old = state S.Store tx.old.conn.now in
        let new = state S.Store tx.new.conn.now in
        HasCleanDisk new → IsTrue old.in_transaction → OnOk result
        ((count : ℕ) × ExecutesInside 0 sql.now (bound values.now) old new (Ok count)) }
    ensures cause { IfErr result (λ e. (e ≡ TableFault.Memory) ⊎ (e ≡ TableFault.Store)) }
{
    match tx.execute(sql, values) {
        Ok(_) => Ok(()),
        Err(error) => Err(fault_of(error)),
    }
}
