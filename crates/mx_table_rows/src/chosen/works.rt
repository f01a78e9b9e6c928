//! Accomplishments and releases to service that are chosen.
ghost use Rattle.std.specs.Prelude.{◌≡◌, pos, None};
ghost use Rattle.sqlite.specs.declared.types.Value.TheVariants.{Int};
ghost use Rattle.sqlite.specs.Held.{state};
ghost use Rattle.mx_layout.specs.kept.Cells.{kept_opening, kept_crs, kept_crs_line};
ghost use Rattle.mx_table_rows.specs.chosen.Choices.{is_any, is_between};
ghost use Rattle.mx_table_rows.specs.chosen.Calls.{ReadsBy, ReadsFirst};

use crate::chosen::prelude::*;
use mx_base::Moment;
use mx_base::rows::{OpeningRow, ReleaseLineRow, ReleaseRow};

/// The accomplishment before the records that an entry stated: at most one.
pub fn opening_by_seq<S: Alter>(
    alloc: Global,
    tx: &mut Transaction<'_, S>,
    seq: u32,
) -> Result<Vec<OpeningRow>, TableFault>
    ensures same_reference { tx.new.conn.ghost_name ≡ tx.old.conn.ghost_name }
    ensures reads { ReadsBy kept_opening 0 (Int (pos seq))
        (state S.Store tx.old.conn.now) (state S.Store tx.new.conn.now) result }
{
    rows_chosen(
        alloc,
        tx,
        "SELECT seq, item, kind, task, minutes, cycles, day FROM opening WHERE seq = ?1 ORDER BY seq",
        params![seq],
    )
}

/// The release of an entry: at most one.
pub fn crs_by_seq<S: Alter>(
    alloc: Global,
    tx: &mut Transaction<'_, S>,
    seq: u32,
) -> Result<Vec<ReleaseRow>, TableFault>
    ensures same_reference { tx.new.conn.ghost_name ≡ tx.old.conn.ghost_name }
    ensures reads { ReadsBy kept_crs 0 (Int (pos seq))
        (state S.Store tx.old.conn.now) (state S.Store tx.new.conn.now) result }
{
    rows_chosen(
        alloc,
        tx,
        "SELECT seq, item, kind, moment FROM crs WHERE seq = ?1 ORDER BY seq",
        params![seq],
    )
}

/// The releases of an item.
pub fn crs_by_item<S: Alter>(
    alloc: Global,
    tx: &mut Transaction<'_, S>,
    item: u32,
) -> Result<Vec<ReleaseRow>, TableFault>
    ensures same_reference { tx.new.conn.ghost_name ≡ tx.old.conn.ghost_name }
    ensures reads { ReadsBy kept_crs 1 (Int (pos item))
        (state S.Store tx.old.conn.now) (state S.Store tx.new.conn.now) result }
{
    rows_chosen(
        alloc,
        tx,
        "SELECT seq, item, kind, moment FROM crs WHERE item = ?1 ORDER BY seq",
        params![item],
    )
}

/// The releases at an item, an aircraft or a component, from a moment on and before another.
pub fn crs_between<S: Alter>(
    alloc: Global,
    tx: &mut Transaction<'_, S>,
    item: u32,
    from: Moment,
    before: Moment,
) -> Result<Vec<ReleaseRow>, TableFault>
    ensures same_reference { tx.new.conn.ghost_name ≡ tx.old.conn.ghost_name }
    ensures reads { ReadsFirst kept_crs None kept_crs.order
        (is_between 1 (Int (pos item)) 3 (Int (pos from)) (Int (pos before))) (λ rows. rows.items)
        (state S.Store tx.old.conn.now) (state S.Store tx.new.conn.now) result }
{
    rows_chosen(
        alloc,
        tx,
        "SELECT seq, item, kind, moment FROM crs WHERE item = ?1 AND moment >= ?2 AND moment < ?3 ORDER BY seq",
        params![item, from.number(), before.number()],
    )
}

/// The lines of a release.
pub fn crs_line_by_seq<S: Alter>(
    alloc: Global,
    tx: &mut Transaction<'_, S>,
    seq: u32,
) -> Result<Vec<ReleaseLineRow>, TableFault>
    ensures same_reference { tx.new.conn.ghost_name ≡ tx.old.conn.ghost_name }
    ensures reads { ReadsBy kept_crs_line 0 (Int (pos seq))
        (state S.Store tx.old.conn.now) (state S.Store tx.new.conn.now) result }
{
    rows_chosen(
        alloc,
        tx,
        "SELECT seq, line, item, task, defect FROM crs_line WHERE seq = ?1 ORDER BY seq, line",
        params![seq],
    )
}

/// The lines that certify the rectification of a defect.
pub fn crs_line_by_defect<S: Alter>(
    alloc: Global,
    tx: &mut Transaction<'_, S>,
    defect: u32,
) -> Result<Vec<ReleaseLineRow>, TableFault>
    ensures same_reference { tx.new.conn.ghost_name ≡ tx.old.conn.ghost_name }
    ensures reads { ReadsBy kept_crs_line 4 (Int (pos defect))
        (state S.Store tx.old.conn.now) (state S.Store tx.new.conn.now) result }
{
    rows_chosen(
        alloc,
        tx,
        "SELECT seq, line, item, task, defect FROM crs_line WHERE defect = ?1 ORDER BY seq, line",
        params![defect],
    )
}

/// The lines of all releases.
pub fn all_crs_lines<S: Alter>(
    alloc: Global,
    tx: &mut Transaction<'_, S>,
) -> Result<Vec<ReleaseLineRow>, TableFault>
    ensures same_reference { tx.new.conn.ghost_name ≡ tx.old.conn.ghost_name }
    ensures reads { ReadsFirst kept_crs_line None kept_crs_line.order is_any (λ rows. rows.items)
        (state S.Store tx.old.conn.now) (state S.Store tx.new.conn.now) result }
{
    rows_chosen(
        alloc,
        tx,
        "SELECT seq, line, item, task, defect FROM crs_line ORDER BY seq, line",
        &[],
    )
}
