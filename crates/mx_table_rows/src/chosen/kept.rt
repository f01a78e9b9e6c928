//! Spans, totals and last bases that are chosen.
ghost use Rattle.std.specs.Prelude.{◌≡◌, ◌&&◌, pos, None};
ghost use Rattle.sqlite.specs.declared.types.Value.TheVariants.{Int, Text};
ghost use Rattle.sqlite.specs.Held.{state};
ghost use Rattle.mx_layout.specs.kept.Cells.{kept_span2, kept_total2, kept_base2};
ghost use Rattle.mx_table_rows.specs.chosen.Choices.{has_value, is_open};
ghost use Rattle.mx_table_rows.specs.chosen.Calls.{ReadsBy, ReadsFirst};

use crate::chosen::prelude::*;
use mx_base::TaskId;
use mx_base::rows::{BaseRow, SpanRow, TotalRow};

/// The span that an entry began: at most one.
pub fn span2_by_fit_seq<S: Alter>(
    alloc: Global,
    tx: &mut Transaction<'_, S>,
    fit_seq: u32,
) -> Result<Vec<SpanRow>, TableFault>
    ensures same_reference { tx.new.conn.ghost_name ≡ tx.old.conn.ghost_name }
    ensures reads { ReadsBy kept_span2 0 (Int (pos fit_seq))
        (state S.Store tx.old.conn.now) (state S.Store tx.new.conn.now) result }
{
    rows_chosen(
        alloc,
        tx,
        "SELECT fit_seq, component, aircraft, position, from_min, remove_seq, to_min FROM span2 WHERE fit_seq = ?1 ORDER BY fit_seq",
        params![fit_seq],
    )
}

/// The spans of a component: where it is and was fitted.
pub fn span2_by_component<S: Alter>(
    alloc: Global,
    tx: &mut Transaction<'_, S>,
    component: u32,
) -> Result<Vec<SpanRow>, TableFault>
    ensures same_reference { tx.new.conn.ghost_name ≡ tx.old.conn.ghost_name }
    ensures reads { ReadsBy kept_span2 1 (Int (pos component))
        (state S.Store tx.old.conn.now) (state S.Store tx.new.conn.now) result }
{
    rows_chosen(
        alloc,
        tx,
        "SELECT fit_seq, component, aircraft, position, from_min, remove_seq, to_min FROM span2 WHERE component = ?1 ORDER BY fit_seq",
        params![component],
    )
}

/// The spans of an aircraft: where its components are and were fitted.
pub fn span2_by_aircraft<S: Alter>(
    alloc: Global,
    tx: &mut Transaction<'_, S>,
    aircraft: u32,
) -> Result<Vec<SpanRow>, TableFault>
    ensures same_reference { tx.new.conn.ghost_name ≡ tx.old.conn.ghost_name }
    ensures reads { ReadsBy kept_span2 2 (Int (pos aircraft))
        (state S.Store tx.old.conn.now) (state S.Store tx.new.conn.now) result }
{
    rows_chosen(
        alloc,
        tx,
        "SELECT fit_seq, component, aircraft, position, from_min, remove_seq, to_min FROM span2 WHERE aircraft = ?1 ORDER BY fit_seq",
        params![aircraft],
    )
}

/// The span that an entry ended: at most one.
pub fn span2_by_remove_seq<S: Alter>(
    alloc: Global,
    tx: &mut Transaction<'_, S>,
    remove_seq: u32,
) -> Result<Vec<SpanRow>, TableFault>
    ensures same_reference { tx.new.conn.ghost_name ≡ tx.old.conn.ghost_name }
    ensures reads { ReadsBy kept_span2 5 (Int (pos remove_seq))
        (state S.Store tx.old.conn.now) (state S.Store tx.new.conn.now) result }
{
    rows_chosen(
        alloc,
        tx,
        "SELECT fit_seq, component, aircraft, position, from_min, remove_seq, to_min FROM span2 WHERE remove_seq = ?1 ORDER BY fit_seq",
        params![remove_seq],
    )
}

/// The span of a component that nothing ended: where it is fitted, at most one.
pub fn open_spans_by_component<S: Alter>(
    alloc: Global,
    tx: &mut Transaction<'_, S>,
    component: u32,
) -> Result<Vec<SpanRow>, TableFault>
    ensures same_reference { tx.new.conn.ghost_name ≡ tx.old.conn.ghost_name }
    ensures reads { ReadsFirst kept_span2 None kept_span2.order
        (is_open 1 (Int (pos component))) (λ rows. rows.items)
        (state S.Store tx.old.conn.now) (state S.Store tx.new.conn.now) result }
{
    rows_chosen(
        alloc,
        tx,
        "SELECT fit_seq, component, aircraft, position, from_min, remove_seq, to_min FROM span2 WHERE component = ?1 AND remove_seq IS NULL ORDER BY fit_seq",
        params![component],
    )
}

/// The spans of an aircraft that nothing ended: what is fitted to it.
pub fn open_spans_by_aircraft<S: Alter>(
    alloc: Global,
    tx: &mut Transaction<'_, S>,
    aircraft: u32,
) -> Result<Vec<SpanRow>, TableFault>
    ensures same_reference { tx.new.conn.ghost_name ≡ tx.old.conn.ghost_name }
    ensures reads { ReadsFirst kept_span2 None kept_span2.order
        (is_open 2 (Int (pos aircraft))) (λ rows. rows.items)
        (state S.Store tx.old.conn.now) (state S.Store tx.new.conn.now) result }
{
    rows_chosen(
        alloc,
        tx,
        "SELECT fit_seq, component, aircraft, position, from_min, remove_seq, to_min FROM span2 WHERE aircraft = ?1 AND remove_seq IS NULL ORDER BY fit_seq",
        params![aircraft],
    )
}

/// The total of an item: at most one.
pub fn total2_by_item<S: Alter>(
    alloc: Global,
    tx: &mut Transaction<'_, S>,
    item: u32,
) -> Result<Vec<TotalRow>, TableFault>
    ensures same_reference { tx.new.conn.ghost_name ≡ tx.old.conn.ghost_name }
    ensures reads { ReadsBy kept_total2 0 (Int (pos item))
        (state S.Store tx.old.conn.now) (state S.Store tx.new.conn.now) result }
{
    rows_chosen(
        alloc,
        tx,
        "SELECT item, minutes, cycles, clock FROM total2 WHERE item = ?1 ORDER BY item",
        params![item],
    )
}

/// The last base of a task of an item: at most one.
pub fn base2_by_item_and_task<S: Alter>(
    alloc: Global,
    tx: &mut Transaction<'_, S>,
    item: u32,
    task: &TaskId,
) -> Result<Vec<BaseRow>, TableFault>
    ensures same_reference { tx.new.conn.ghost_name ≡ tx.old.conn.ghost_name }
    ensures reads { ReadsFirst kept_base2 None kept_base2.order
        (λ cells. has_value 0 (Int (pos item)) cells && has_value 1 (Text task.now) cells)
        (λ rows. rows.items)
        (state S.Store tx.old.conn.now) (state S.Store tx.new.conn.now) result }
{
    rows_chosen(
        alloc,
        tx,
        "SELECT item, task, minutes, cycles, day FROM base2 WHERE item = ?1 AND task = ?2 ORDER BY item, task",
        params![item, task.as_str()],
    )
}
