//! Laws of the registers that are read of a file. The function does nothing; its contract is the law, and the checker
//! proves it.
ghost use Rattle.std.specs.Prelude.{◌≡◌, true, List};
ghost use Rattle.sqlite.specs.Schema.{Schema};
ghost use Rattle.sqlite.specs.Tree.{Trees};
ghost use Rattle.mx_book.specs.commands.Act.{Entry};
ghost use Rattle.mx_base.specs.declared.point.Point.{Point};
ghost use Rattle.mx_registers.specs.declared.file.file_rows.FileRows.{FileRows};
ghost use Rattle.mx_registers.specs.file.Tables.{AreRegistersIn};
ghost use Rattle.mx_registers.specs.points.Points.{is_past, step_of};
ghost use Rattle.mx_book_tables.specs.stands.Schemas.{HasTablesAt, IsUpTo};
ghost use Rattle.mx_book_tables.specs.stands.Stands.{HasRowsAt};
ghost use Rattle.mx_book_tables.specs.reading.Stored.{AreRegistersAt, HasRegistersAt};

/// At each point of both moves at which the spans have been made, a file has the tables of the registers of that point;
/// and where its tables have the rows of a book, the registers that are read of it are those of the book, wherever its
/// deferrals stand.
pub fn registers_are_those_of_the_book()
    ensures tables { (at : Point) (schema : Schema) → IsUpTo 3 at
        → is_past at (step_of 1 2) ≡ true
        → HasTablesAt at schema → HasRegistersAt at schema }
    ensures rows { (at : Point) (trees : Trees) (rows : FileRows) (book : List Entry)
        → is_past at (step_of 1 2) ≡ true
        → HasRowsAt at trees book → AreRegistersAt at trees rows → AreRegistersIn rows book }
{}
