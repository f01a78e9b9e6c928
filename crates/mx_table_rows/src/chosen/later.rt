//! Rows of layout 3 that are chosen: deferred defects with the cycles at which they were found, and accomplishments.
ghost use Rattle.std.specs.Prelude.{◌≡◌, ◌&&◌, pos, None};
ghost use Rattle.sqlite.specs.declared.types.Value.TheVariants.{Int, Text};
ghost use Rattle.sqlite.specs.Held.{state};
ghost use Rattle.mx_layout.specs.kept.Cells.{kept_defect3, kept_done3};
ghost use Rattle.mx_table_rows.specs.chosen.Choices.{has_value, is_any};
ghost use Rattle.mx_table_rows.specs.chosen.Calls.{ReadsBy, ReadsFirst};

use crate::chosen::prelude::*;
use mx_base::TaskId;
use mx_base::rows::{Deferral3Row, DoneRow};

/// The defect that an entry deferred: at most one.
pub fn defect3_by_seq<S: Alter>(
    alloc: Global,
    tx: &mut Transaction<'_, S>,
    seq: u32,
) -> Result<Vec<Deferral3Row>, TableFault>
    ensures same_reference { tx.new.conn.ghost_name ≡ tx.old.conn.ghost_name }
    ensures reads { ReadsBy kept_defect3 0 (Int (pos seq))
        (state S.Store tx.old.conn.now) (state S.Store tx.new.conn.now) result }
{
    rows_chosen(
        alloc,
        tx,
        "SELECT seq, aircraft, moment, reference, category, days, cycles, found_cycles FROM defect3 WHERE seq = ?1 ORDER BY seq",
        params![seq],
    )
}

/// The defects of an aircraft.
pub fn defect3_by_aircraft<S: Alter>(
    alloc: Global,
    tx: &mut Transaction<'_, S>,
    aircraft: u32,
) -> Result<Vec<Deferral3Row>, TableFault>
    ensures same_reference { tx.new.conn.ghost_name ≡ tx.old.conn.ghost_name }
    ensures reads { ReadsBy kept_defect3 1 (Int (pos aircraft))
        (state S.Store tx.old.conn.now) (state S.Store tx.new.conn.now) result }
{
    rows_chosen(
        alloc,
        tx,
        "SELECT seq, aircraft, moment, reference, category, days, cycles, found_cycles FROM defect3 WHERE aircraft = ?1 ORDER BY seq",
        params![aircraft],
    )
}

/// All defects that were deferred.
pub fn all_defects3<S: Alter>(
    alloc: Global,
    tx: &mut Transaction<'_, S>,
) -> Result<Vec<Deferral3Row>, TableFault>
    ensures same_reference { tx.new.conn.ghost_name ≡ tx.old.conn.ghost_name }
    ensures reads { ReadsFirst kept_defect3 None kept_defect3.order is_any (λ rows. rows.items)
        (state S.Store tx.old.conn.now) (state S.Store tx.new.conn.now) result }
{
    rows_chosen(
        alloc,
        tx,
        "SELECT seq, aircraft, moment, reference, category, days, cycles, found_cycles FROM defect3 ORDER BY seq",
        &[],
    )
}

/// The accomplishments of the tasks of an item.
pub fn done3_by_item<S: Alter>(
    alloc: Global,
    tx: &mut Transaction<'_, S>,
    item: u32,
) -> Result<Vec<DoneRow>, TableFault>
    ensures same_reference { tx.new.conn.ghost_name ≡ tx.old.conn.ghost_name }
    ensures reads { ReadsBy kept_done3 0 (Int (pos item))
        (state S.Store tx.old.conn.now) (state S.Store tx.new.conn.now) result }
{
    rows_chosen(
        alloc,
        tx,
        "SELECT item, task, seq, line, value_m, value_c, value_d, due_m, due_c, due_d, base_m, base_c, base_d FROM done3 WHERE item = ?1 ORDER BY item, task, seq, line",
        params![item],
    )
}

/// The accomplishments of a task of an item, in the order of their entries and of the lines there.
pub fn done3_by_item_and_task<S: Alter>(
    alloc: Global,
    tx: &mut Transaction<'_, S>,
    item: u32,
    task: &TaskId,
) -> Result<Vec<DoneRow>, TableFault>
    ensures same_reference { tx.new.conn.ghost_name ≡ tx.old.conn.ghost_name }
    ensures reads { ReadsFirst kept_done3 None kept_done3.order
        (λ cells. has_value 0 (Int (pos item)) cells && has_value 1 (Text task.now) cells)
        (λ rows. rows.items)
        (state S.Store tx.old.conn.now) (state S.Store tx.new.conn.now) result }
{
    rows_chosen(
        alloc,
        tx,
        "SELECT item, task, seq, line, value_m, value_c, value_d, due_m, due_c, due_d, base_m, base_c, base_d FROM done3 WHERE item = ?1 AND task = ?2 ORDER BY item, task, seq, line",
        params![item, task.as_str()],
    )
}
