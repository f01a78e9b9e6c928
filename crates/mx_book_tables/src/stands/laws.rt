//! Laws of tables at points. Each function does nothing; its contract is the law, and the checker proves it.
ghost use Rattle.std.specs.Prelude.{◌≡◌, ◌↔◌, ℕ, true, List, [], All, Contains};
ghost use Rattle.sqlite.specs.Schema.{Schema};
ghost use Rattle.sqlite.specs.Tree.{Trees};
ghost use Rattle.mx_book.specs.commands.Act.{Entry};
ghost use Rattle.mx_base.specs.declared.point.Point.{Point};
ghost use Rattle.mx_base.specs.Settled.{settled};
ghost use Rattle.mx_layout.specs.Contents.{rows_in};
ghost use Rattle.mx_layout.specs.Making.{IsEmptyIn};
ghost use Rattle.mx_layout.specs.Names.{table_named};
ghost use Rattle.mx_layout.specs.Steps.{IsLayout, schema_after, schema_of};
ghost use Rattle.mx_layout.specs.TableName.{TableName};
ghost use Rattle.mx_layout.specs.kept.Family.{IsReadable};
ghost use Rattle.mx_book_tables.specs.stands.Family.{BecomesAt, BecomesBy, Brings, IsIn, is_at, is_register, is_there, rows_of};
ghost use Rattle.mx_book_tables.specs.stands.Schemas.{HasTablesAt, IsOfFile, IsUpTo, schema_at, statements_at};
ghost use Rattle.mx_book_tables.specs.stands.Stands.{HasRowsAt, StandsAt};

/// Settled at a layout, a file has the schema of that layout.
pub fn settled_schemas()
    ensures { (layout : ℕ) → IsLayout layout → schema_at (settled layout) ≡ schema_of layout }
{}

/// Wherever a file can be, it has the schema that so many statements make of no table, on the way to layout 3 too: no law
/// of tables at a point speaks of a schema that no file has.
pub fn points_have_the_schemas_of_files()
    ensures files { (at : Point) → IsOfFile at → schema_at at ≡ schema_after (statements_at at) }
    ensures later { (at : Point) → IsUpTo 3 at → schema_at at ≡ schema_after (statements_at at) }
{}

/// Wherever a table is there, up to layout 3, the schema is one in which its texts are understood.
pub fn tables_are_understood_there()
    ensures { (name : TableName) (at : Point) → IsUpTo 3 at → is_there (rows_of name) at ≡ true
        → (schema : Schema) → HasTablesAt at schema → IsIn (rows_of name) schema }
{}

/// The schema at a point has the tables of the family that are there, and no other of the family.
pub fn schemas_have_the_tables()
    ensures { (at : Point) (name : TableName)
        → (is_at at name ≡ true) ↔ Contains (schema_at at).tables (table_named name) }
{}

/// New tables of a layout stand for the empty book.
pub fn new_tables_stand()
    ensures { (layout : ℕ) (trees : Trees) → IsLayout layout → IsEmptyIn layout trees
        → StandsAt (settled layout) trees [] }
{}

/// The tables at any point stand for at most one book, and at this point alone.
pub fn tables_decide_the_book()
    ensures book { (at : Point) (trees : Trees) (one other : List Entry)
        → HasRowsAt at trees one → HasRowsAt at trees other → one ≡ other }
    ensures point { (at other : Point) (trees : Trees) (book another : List Entry)
        → HasRowsAt at trees book → HasRowsAt other trees another → at ≡ other }
{}

/// The rows of tables that stand for a book are each of the type of their table.
pub fn rows_are_readable()
    ensures { (at : Point) (trees : Trees) (book : List Entry) (name : TableName)
        → HasRowsAt at trees book → is_at at name ≡ true
        → All (IsReadable name) (rows_in (table_named name) trees) }
{}

/// With a new command the rows of each table become what its line says; so do those that stand in each table of a layout,
/// and in a register what the command brings stands behind the rows from before.
pub fn rows_become()
    ensures rows { (name : TableName) → BecomesBy (rows_of name) }
    ensures tables { (layout : ℕ) (name : TableName) → IsLayout layout
        → is_there (rows_of name) (settled layout) ≡ true
        → BecomesAt (rows_of name) (settled layout) }
    ensures registers { (layout : ℕ) (name : TableName) → IsLayout layout
        → is_register (rows_of name) ≡ true → is_there (rows_of name) (settled layout) ≡ true
        → Brings (rows_of name) (settled layout) }
{}
