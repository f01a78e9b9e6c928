//! Sectors of `sector2` that are chosen.
ghost use Rattle.std.specs.Prelude.{◌≡◌, pos, None};
ghost use Rattle.sqlite.specs.declared.types.Value.TheVariants.{Int};
ghost use Rattle.sqlite.specs.Held.{state};
ghost use Rattle.mx_layout.specs.kept.Cells.{kept_sector2_rows};
ghost use Rattle.mx_table_rows.specs.chosen.Choices.{is_between};
ghost use Rattle.mx_table_rows.specs.chosen.Calls.{ReadsBy, ReadsFirst};

use crate::chosen::prelude::*;
use mx_base::Moment;
use mx_base::rows::Sector2Row;

/// The sector that an entry is: at most one.
pub fn sector2_by_seq<S: Alter>(
    alloc: Global,
    tx: &mut Transaction<'_, S>,
    seq: u32,
) -> Result<Vec<Sector2Row>, TableFault>
    ensures same_reference { tx.new.conn.ghost_name ≡ tx.old.conn.ghost_name }
    ensures reads { ReadsBy kept_sector2_rows 0 (Int (pos seq))
        (state S.Store tx.old.conn.now) (state S.Store tx.new.conn.now) result }
{
    rows_chosen(
        alloc,
        tx,
        "SELECT seq, aircraft, page, line, took_off, landed, cycles FROM sector2 WHERE seq = ?1 ORDER BY seq",
        params![seq],
    )
}

/// The sectors of an aircraft.
pub fn sector2_by_aircraft<S: Alter>(
    alloc: Global,
    tx: &mut Transaction<'_, S>,
    aircraft: u32,
) -> Result<Vec<Sector2Row>, TableFault>
    ensures same_reference { tx.new.conn.ghost_name ≡ tx.old.conn.ghost_name }
    ensures reads { ReadsBy kept_sector2_rows 1 (Int (pos aircraft))
        (state S.Store tx.old.conn.now) (state S.Store tx.new.conn.now) result }
{
    rows_chosen(
        alloc,
        tx,
        "SELECT seq, aircraft, page, line, took_off, landed, cycles FROM sector2 WHERE aircraft = ?1 ORDER BY seq",
        params![aircraft],
    )
}

/// The sectors of an aircraft that took off from a moment on and before another.
pub fn sector2_between<S: Alter>(
    alloc: Global,
    tx: &mut Transaction<'_, S>,
    aircraft: u32,
    from: Moment,
    before: Moment,
) -> Result<Vec<Sector2Row>, TableFault>
    ensures same_reference { tx.new.conn.ghost_name ≡ tx.old.conn.ghost_name }
    ensures reads { ReadsFirst kept_sector2_rows None kept_sector2_rows.order
        (is_between 1 (Int (pos aircraft)) 4 (Int (pos from)) (Int (pos before))) (λ rows. rows.items)
        (state S.Store tx.old.conn.now) (state S.Store tx.new.conn.now) result }
{
    rows_chosen(
        alloc,
        tx,
        "SELECT seq, aircraft, page, line, took_off, landed, cycles FROM sector2 WHERE aircraft = ?1 AND took_off >= ?2 AND took_off < ?3 ORDER BY seq",
        params![aircraft, from.number(), before.number()],
    )
}
