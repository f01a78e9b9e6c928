//! Several tables together: all their rows are read, and rows are added to each.
ghost use Rattle.std.specs.Prelude.{◌≡◌, List, IsPermutation};
ghost use Rattle.sqlite.specs.Order.{Row};
ghost use Rattle.sqlite.specs.Schema.{Schema};
ghost use Rattle.sqlite.specs.Tree.{Trees};
ghost use Rattle.sqlite.specs.Held.{state};
ghost use Rattle.mx_layout.specs.TableName.{TableName};
ghost use Rattle.mx_tables.specs.inserts.Sets.{ReadsTables, WritesTables};

use crate::inserts::insert::Insert;
use crate::rows;
use mx_layout::TableFault;
use sqlite::{Alter, Transaction};
use std::alloc::Global;

/// The rows of some tables: a `Vec` of one, and a pair of two such.
pub trait Tables: Sized {
    // The schemas that have the tables.
    ghost IsIn: { Schema → Type 0 };

    // They are exactly the rows of their tables.
    ghost AreRows: { Trees → Self → Type 0 };

    // What they make of the rows of each table, where they are added.
    ghost onto: { Self → TableName → List Row → List Row };

    /// All rows of the tables.
    fn read<S: Alter>(alloc: Global, tx: &mut Transaction<'_, S>) -> Result<Self, TableFault>
        ensures same_reference { tx.new.conn.ghost_name ≡ tx.old.conn.ghost_name }
        ensures reads { ReadsTables IsIn AreRows
            (state S.Store tx.old.conn.now) (state S.Store tx.new.conn.now) result };

    /// Adds the rows, each to its table.
    fn write<S: Alter>(&self, tx: &mut Transaction<'_, S>) -> Result<(), TableFault>
        ensures same_reference { tx.new.conn.ghost_name ≡ tx.old.conn.ghost_name }
        ensures writes { WritesTables IsIn (onto self.now)
            (state S.Store tx.old.conn.now) (state S.Store tx.new.conn.now) result };

    // The same rows on top of the same rows.
    ghost keeps: { (v : Self) (name : TableName) (xs ys : List Row)
        → IsPermutation xs ys → IsPermutation (onto v name xs) (onto v name ys) };
}

impl<R: Insert + Drop> Tables for Vec<R> {
    ghost use Rattle.mx_tables.specs.inserts.Sets.{AreRowsOf};
    ghost use Rattle.mx_layout.specs.kept.Family.{on_top};
    ghost use Rattle.mx_layout.proofs.KeptProofs.OntoLemmas.{on_top_keeps};

    ghost IsIn = { R.kept.IsIn };

    ghost AreRows = { λ trees rows. AreRowsOf R.kept trees rows.items };

    ghost onto = { λ rows. on_top R.kept rows.items };

    ghost keeps = { λ v. on_top_keeps R.kept v.items };

    fn read<S: Alter>(alloc: Global, tx: &mut Transaction<'_, S>) -> Result<Vec<R>, TableFault> {
        rows(alloc, tx)
    }

    fn write<S: Alter>(&self, tx: &mut Transaction<'_, S>) -> Result<(), TableFault> {
        'rows: for row in self {
            row.insert(tx)?;
        }
        Ok(())
    }
}

impl<A: Tables + Drop, B: Tables + Drop> Tables for (A, B) {
    ghost IsIn = { λ schema. A.IsIn schema × B.IsIn schema };

    ghost AreRows = { λ trees v. A.AreRows trees v.0 × B.AreRows trees v.1 };

    ghost onto = { λ v name rows. B.onto v.1 name (A.onto v.0 name rows) };

    ghost keeps = { λ v name xs ys same. B.keeps v.1 name _ _ (A.keeps v.0 name xs ys same) };

    fn read<S: Alter>(alloc: Global, tx: &mut Transaction<'_, S>) -> Result<(A, B), TableFault> {
        let one = A::read(alloc, tx)?;
        let two = B::read(alloc, tx)?;
        Ok((one, two))
    }

    fn write<S: Alter>(&self, tx: &mut Transaction<'_, S>) -> Result<(), TableFault> {
        self.0.write(tx)?;
        self.1.write(tx)
    }
}
