//! A law of what commands leave. The function does nothing; its contract is the law, and the checker proves it.
ghost use Rattle.std.specs.Prelude.{Contains};
ghost use Rattle.sqlite.specs.Order.{Row};
ghost use Rattle.sqlite.specs.Tree.{Trees};
ghost use Rattle.mx_book.specs.commands.Act.{Entry};
ghost use Rattle.mx_row_rules.specs.declared.changes.rows.CommandRows.{CommandRows};
ghost use Rattle.mx_layout.specs.Contents.{rows_in};
ghost use Rattle.mx_layout.specs.Names.{table_named};
ghost use Rattle.mx_layout.specs.TableName.{TableName};
ghost use Rattle.mx_apply.specs.made.Found.{AreRowsFor};
ghost use Rattle.mx_apply.specs.writing.Written.{with_rows};
ghost use Rattle.mx_apply.specs.Named.{IsNamed};

/// A row of any table that the rules of a command do not name is there behind it as it was, whatever rows there are.
pub fn commands_leave_other_rows()
    ensures { (command : Entry) (trees : Trees) (rows : CommandRows)
        → (own : AreRowsFor command trees rows) → (name : TableName) (row : Row)
        → Contains (rows_in (table_named name) trees) row
        → (IsNamed command.act own.rows_by.found name row → ⊥)
        → Contains (with_rows rows name (rows_in (table_named name) trees)) row }
{}
