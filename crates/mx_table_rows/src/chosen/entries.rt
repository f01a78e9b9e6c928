//! Entries that are chosen.
ghost use Rattle.std.specs.Prelude.{◌≡◌, pos, Some};
ghost use Rattle.sqlite.specs.declared.types.Value.TheVariants.{Int, Text};
ghost use Rattle.sqlite.specs.Held.{state};
ghost use Rattle.mx_layout.specs.kept.Cells.{kept_entry};
ghost use Rattle.mx_table_rows.specs.chosen.Choices.{backward, is_any};
ghost use Rattle.mx_table_rows.specs.chosen.Calls.{ReadsBy, ReadsFirst};

use crate::chosen::prelude::*;
use mx_base::Doc;
use mx_base::rows::EntryRow;

/// The entry with a number: at most one.
pub fn entry_by_seq<S: Alter>(
    alloc: Global,
    tx: &mut Transaction<'_, S>,
    seq: u32,
) -> Result<Vec<EntryRow>, TableFault>
    ensures same_reference { tx.new.conn.ghost_name ≡ tx.old.conn.ghost_name }
    ensures reads { ReadsBy kept_entry 0 (Int (pos seq))
        (state S.Store tx.old.conn.now) (state S.Store tx.new.conn.now) result }
{
    rows_chosen(
        alloc,
        tx,
        "SELECT seq, doc, kind FROM entry WHERE seq = ?1 ORDER BY seq",
        params![seq],
    )
}

/// The entry of a document: at most one.
pub fn entry_by_doc<S: Alter>(
    alloc: Global,
    tx: &mut Transaction<'_, S>,
    doc: &Doc,
) -> Result<Vec<EntryRow>, TableFault>
    ensures same_reference { tx.new.conn.ghost_name ≡ tx.old.conn.ghost_name }
    ensures reads { ReadsBy kept_entry 1 (Text doc.now)
        (state S.Store tx.old.conn.now) (state S.Store tx.new.conn.now) result }
{
    rows_chosen(
        alloc,
        tx,
        "SELECT seq, doc, kind FROM entry WHERE doc = ?1 ORDER BY seq",
        params![doc.as_str()],
    )
}

/// The last entry, if there is one.
pub fn last_entry<S: Alter>(
    alloc: Global,
    tx: &mut Transaction<'_, S>,
) -> Result<Vec<EntryRow>, TableFault>
    ensures same_reference { tx.new.conn.ghost_name ≡ tx.old.conn.ghost_name }
    ensures reads { ReadsFirst kept_entry (Some 1) (backward kept_entry.order)
        is_any (λ rows. rows.items)
        (state S.Store tx.old.conn.now) (state S.Store tx.new.conn.now) result }
{
    rows_chosen(
        alloc,
        tx,
        "SELECT seq, doc, kind FROM entry ORDER BY seq DESC LIMIT 1",
        &[],
    )
}
