//! Deferred defects that are chosen.
ghost use Rattle.std.specs.Prelude.{◌≡◌, pos, None};
ghost use Rattle.sqlite.specs.declared.types.Value.TheVariants.{Int};
ghost use Rattle.sqlite.specs.Held.{state};
ghost use Rattle.mx_layout.specs.kept.Cells.{kept_defect, kept_extension};
ghost use Rattle.mx_table_rows.specs.chosen.Choices.{is_any};
ghost use Rattle.mx_table_rows.specs.chosen.Calls.{ReadsBy, ReadsFirst};

use crate::chosen::prelude::*;
use mx_base::rows::{DeferralRow, ExtensionRow};

/// The defect that an entry deferred: at most one.
pub fn defect_by_seq<S: Alter>(
    alloc: Global,
    tx: &mut Transaction<'_, S>,
    seq: u32,
) -> Result<Vec<DeferralRow>, TableFault>
    ensures same_reference { tx.new.conn.ghost_name ≡ tx.old.conn.ghost_name }
    ensures reads { ReadsBy kept_defect 0 (Int (pos seq))
        (state S.Store tx.old.conn.now) (state S.Store tx.new.conn.now) result }
{
    rows_chosen(
        alloc,
        tx,
        "SELECT seq, aircraft, moment, reference, category, days FROM defect WHERE seq = ?1 ORDER BY seq",
        params![seq],
    )
}

/// The defects of an aircraft.
pub fn defect_by_aircraft<S: Alter>(
    alloc: Global,
    tx: &mut Transaction<'_, S>,
    aircraft: u32,
) -> Result<Vec<DeferralRow>, TableFault>
    ensures same_reference { tx.new.conn.ghost_name ≡ tx.old.conn.ghost_name }
    ensures reads { ReadsBy kept_defect 1 (Int (pos aircraft))
        (state S.Store tx.old.conn.now) (state S.Store tx.new.conn.now) result }
{
    rows_chosen(
        alloc,
        tx,
        "SELECT seq, aircraft, moment, reference, category, days FROM defect WHERE aircraft = ?1 ORDER BY seq",
        params![aircraft],
    )
}

/// All defects that were deferred.
pub fn all_defects<S: Alter>(
    alloc: Global,
    tx: &mut Transaction<'_, S>,
) -> Result<Vec<DeferralRow>, TableFault>
    ensures same_reference { tx.new.conn.ghost_name ≡ tx.old.conn.ghost_name }
    ensures reads { ReadsFirst kept_defect None kept_defect.order is_any (λ rows. rows.items)
        (state S.Store tx.old.conn.now) (state S.Store tx.new.conn.now) result }
{
    rows_chosen(
        alloc,
        tx,
        "SELECT seq, aircraft, moment, reference, category, days FROM defect ORDER BY seq",
        &[],
    )
}

/// The extension of an entry: at most one.
pub fn extension_by_seq<S: Alter>(
    alloc: Global,
    tx: &mut Transaction<'_, S>,
    seq: u32,
) -> Result<Vec<ExtensionRow>, TableFault>
    ensures same_reference { tx.new.conn.ghost_name ≡ tx.old.conn.ghost_name }
    ensures reads { ReadsBy kept_extension 0 (Int (pos seq))
        (state S.Store tx.old.conn.now) (state S.Store tx.new.conn.now) result }
{
    rows_chosen(
        alloc,
        tx,
        "SELECT seq, defect, day, days FROM extension WHERE seq = ?1 ORDER BY seq",
        params![seq],
    )
}

/// The extensions of a defect.
pub fn extension_by_defect<S: Alter>(
    alloc: Global,
    tx: &mut Transaction<'_, S>,
    defect: u32,
) -> Result<Vec<ExtensionRow>, TableFault>
    ensures same_reference { tx.new.conn.ghost_name ≡ tx.old.conn.ghost_name }
    ensures reads { ReadsBy kept_extension 1 (Int (pos defect))
        (state S.Store tx.old.conn.now) (state S.Store tx.new.conn.now) result }
{
    rows_chosen(
        alloc,
        tx,
        "SELECT seq, defect, day, days FROM extension WHERE defect = ?1 ORDER BY seq",
        params![defect],
    )
}
