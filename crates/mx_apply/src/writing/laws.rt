//! The law of what commands make of the tables of layout 2. The function does nothing; its contract is the law, and the
//! checker proves it.
ghost use Rattle.std.specs.Prelude.{◌≡◌, List, [], ◌∷◌, ◌++◌, IsPermutation, true};
ghost use Rattle.mx_book.specs.commands.Act.{Entry};
ghost use Rattle.mx_book.specs.commands.Shape.{has_shape};
ghost use Rattle.mx_book.specs.Book.{IsBook};
ghost use Rattle.mx_book.specs.Judge.{judge};
ghost use Rattle.mx_book.specs.declared.verdict.Verdict.TheVariants.{New};
ghost use Rattle.mx_row_rules.specs.changes.Rows.{AreCommandRows};
ghost use Rattle.mx_row_rules.specs.declared.changes.rows.CommandRows.{CommandRows};
ghost use Rattle.mx_layout.specs.TableName.{TableName};
ghost use Rattle.mx_book_tables.specs.stands.Family.{is_at, rows_given};
ghost use Rattle.mx_apply.specs.writing.Written.{written_point, with_rows};

/// What the rows of a new command make of the rows that a book gives each table is what the book with the command gives it,
/// whichever of the ten commands it is.
pub fn commands_enter()
    ensures { (book : List Entry) (command : Entry) (rows : CommandRows)
        → AreCommandRows book command rows → IsBook book → judge book command ≡ New
        → has_shape command ≡ true → (name : TableName) → is_at written_point name ≡ true
        → IsPermutation (with_rows rows name (rows_given written_point book name))
        (rows_given written_point (book ++ command ∷ []) name) }
{}
