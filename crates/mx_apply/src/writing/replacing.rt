//! Rows that come each in place of others of their table.
ghost use Rattle.std.specs.Prelude.{◌≡◌, Bool};
ghost use Rattle.sqlite.specs.Order.{Row};
ghost use Rattle.sqlite.specs.Held.{state};
ghost use Rattle.mx_layout.specs.Contents.{HasNoReferences};
ghost use Rattle.mx_table_rows.specs.totals.InPlace.{ReplacesRows};
ghost use Rattle.mx_apply.specs.writing.Changes.{WritesRows, all_in_place};

use mx_base::rows::{BaseRow, SpanRow, TotalRow};
use mx_layout::TableFault;
use mx_table_rows::totals::bases::set_base;
use mx_table_rows::totals::in_place::{set_span2, set_total};
use mx_tables::Stored;
use sqlite::{Alter, Transaction};

/// Rows that come in place of others of their table.
pub(crate) trait Replace: Stored {
    // The rows in whose place a row comes.
    ghost replaced: { Self → Row → Bool };

    /// Writes the row, in place of those.
    fn replace<S: Alter>(&self, tx: &mut Transaction<'_, S>) -> Result<(), TableFault>
        ensures same_reference { tx.new.conn.ghost_name ≡ tx.old.conn.ghost_name }
        ensures replaces { ReplacesRows Self.kept (replaced self.now) self.now
            (state S.Store tx.old.conn.now) (state S.Store tx.new.conn.now) result };
}

impl Replace for SpanRow {
    ghost use Rattle.mx_apply.specs.writing.Written.{is_same_span};

    ghost replaced = { is_same_span };

    fn replace<S: Alter>(&self, tx: &mut Transaction<'_, S>) -> Result<(), TableFault> {
        set_span2(tx, self)
    }
}

impl Replace for TotalRow {
    ghost use Rattle.mx_apply.specs.writing.Written.{is_same_total};

    ghost replaced = { is_same_total };

    fn replace<S: Alter>(&self, tx: &mut Transaction<'_, S>) -> Result<(), TableFault> {
        set_total(tx, self)
    }
}

impl Replace for BaseRow {
    ghost use Rattle.mx_apply.specs.writing.Written.{is_same_base};

    ghost replaced = { is_same_base };

    fn replace<S: Alter>(&self, tx: &mut Transaction<'_, S>) -> Result<(), TableFault> {
        set_base(tx, self)
    }
}

/// Writes rows, each in place of those that it is to replace.
pub(crate) fn replace_all<S: Alter, R: Replace>(
    tx: &mut Transaction<'_, S>,
    rows: &[R],
) -> Result<(), TableFault>
    ensures same_reference { tx.new.conn.ghost_name ≡ tx.old.conn.ghost_name }
    ensures writes { WritesRows
        (λ schema. R.kept.IsIn schema × HasNoReferences schema)
        (all_in_place R.kept R.replaced rows.now)
        (state S.Store tx.old.conn.now) (state S.Store tx.new.conn.now) result }
{
    'rows: for row in rows {
        row.replace(tx)?;
    }
    Ok(())
}
