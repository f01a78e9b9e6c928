//! Laws of the tables. Each function does nothing; its contract is the law, and the checker proves it.
ghost use Rattle.std.specs.Prelude.{◌≡◌, [], List};
ghost use Rattle.sqlite.specs.Effect.{Database, IsDatabase};
ghost use Rattle.sqlite.specs.Tree.{Trees};
ghost use Rattle.mx_book.specs.commands.Act.{Entry};
ghost use Rattle.mx_layout.specs.Making.{IsEmptyIn};
ghost use Rattle.mx_book_tables.specs.stands.Stands.{StandsInSchema};
ghost use Rattle.mx_apply.specs.writing.Changes.{AllRise};
ghost use Rattle.mx_apply.specs.writing.Written.{IsSettled};
ghost use Rattle.mx_verify.specs.Verifies.{HasBook};
ghost use Rattle.mx_office.specs.Layout.{office_point};
ghost use Rattle.mx_office.specs.Stands.{Stands};

/// Tables stand for at most one book.
pub fn tables_stand_for_one_book()
    ensures { (trees : Trees) (one other : List Entry) → Stands trees one → Stands trees other
        → one ≡ other }
{}

/// Tables that have the rows of a book, as `verify` says, stand for one, whatever tables and indexes there are behind them,
/// where no table refers to another and the rowids of each rise.
pub fn verified_rows_stand()
    ensures { (db : Database) → IsSettled db.schema → IsDatabase db → AllRise db → HasBook db.trees
        → (book : List Entry) × StandsInSchema db.schema office_point db.trees book }
{}

/// Tables that were just made stand for the book with no entry.
pub fn new_tables_stand_for_the_empty_book()
    ensures { (trees : Trees) → IsEmptyIn office_point.layout trees → Stands trees [] }
{}
