//! Maintenance programmes that are chosen.
ghost use Rattle.std.specs.Prelude.{◌≡◌, pos};
ghost use Rattle.sqlite.specs.declared.types.Value.TheVariants.{Int, Text};
ghost use Rattle.sqlite.specs.Held.{state};
ghost use Rattle.mx_layout.specs.kept.Cells.{kept_programme, kept_task};
ghost use Rattle.mx_table_rows.specs.chosen.Calls.{ReadsBy};

use crate::chosen::prelude::*;
use mx_base::Kind;
use mx_base::rows::{ProgrammeRow, TaskRow};

/// The revision of a programme that an entry loaded: at most one.
pub fn programme_by_seq<S: Alter>(
    alloc: Global,
    tx: &mut Transaction<'_, S>,
    seq: u32,
) -> Result<Vec<ProgrammeRow>, TableFault>
    ensures same_reference { tx.new.conn.ghost_name ≡ tx.old.conn.ghost_name }
    ensures reads { ReadsBy kept_programme 0 (Int (pos seq))
        (state S.Store tx.old.conn.now) (state S.Store tx.new.conn.now) result }
{
    rows_chosen(
        alloc,
        tx,
        "SELECT seq, kind, revision FROM programme WHERE seq = ?1 ORDER BY seq",
        params![seq],
    )
}

/// The revisions of the programme of a kind of aircraft.
pub fn programme_by_kind<S: Alter>(
    alloc: Global,
    tx: &mut Transaction<'_, S>,
    kind: &Kind,
) -> Result<Vec<ProgrammeRow>, TableFault>
    ensures same_reference { tx.new.conn.ghost_name ≡ tx.old.conn.ghost_name }
    ensures reads { ReadsBy kept_programme 1 (Text kind.now)
        (state S.Store tx.old.conn.now) (state S.Store tx.new.conn.now) result }
{
    rows_chosen(
        alloc,
        tx,
        "SELECT seq, kind, revision FROM programme WHERE kind = ?1 ORDER BY seq",
        params![kind.as_str()],
    )
}

/// The tasks of a revision of a programme.
pub fn task_by_seq<S: Alter>(
    alloc: Global,
    tx: &mut Transaction<'_, S>,
    seq: u32,
) -> Result<Vec<TaskRow>, TableFault>
    ensures same_reference { tx.new.conn.ghost_name ≡ tx.old.conn.ghost_name }
    ensures reads { ReadsBy kept_task 0 (Int (pos seq))
        (state S.Store tx.old.conn.now) (state S.Store tx.new.conn.now) result }
{
    rows_chosen(
        alloc,
        tx,
        "SELECT seq, line, id, part, retire, first_m, first_c, first_d, rep_m, rep_c, rep_d, tol_m, tol_c, tol_d FROM task WHERE seq = ?1 ORDER BY seq, line",
        params![seq],
    )
}
