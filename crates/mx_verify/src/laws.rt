//! Laws of what is verified. Each function does nothing; its contract is the law, and the checker proves it.
ghost use Rattle.std.specs.Prelude.{◌≡◌, ◌↔◌, List, [], Err};
ghost use Rattle.sqlite.specs.Effect.{Database};
ghost use Rattle.mx_book.specs.commands.Act.{Entry};
ghost use Rattle.mx_book_tables.specs.stands.Schemas.{schema_at};
ghost use Rattle.mx_book_tables.specs.stands.Stands.{StandsAt};
ghost use Rattle.mx_book_tables.specs.reading.Layout.{HasTables, verified_point};
ghost use Rattle.mx_base.specs.declared.rows.rows.EntryKind.{EntryKind};
ghost use Rattle.mx_base.specs.declared.rows.rows.EntryRow.{EntryRow};
ghost use Rattle.mx_registers.specs.Merge.{Rest};
ghost use Rattle.mx_verify.specs.Verifies.{IsVerified};
ghost use Rattle.mx_verify.specs.merged.Blame.{HasBlame};
ghost use Rattle.mx_verify.specs.merged.Merging.{merging};
ghost use Rattle.mx_verify.specs.declared.merged.merged.NoBook.TheVariants.{Damaged};

/// Tables that stand for a book at the newest layout are verified: what is verified is a part of what tables stand for.
pub fn standing_tables_are_verified()
    ensures { (db : Database) (book : List Entry) → db.schema ≡ schema_at verified_point
        → StandsAt verified_point db.trees book → HasTables db.schema × IsVerified db }
{}

/// Registers are damaged exactly where an entry is to blame: those before it give a book with their rows, and its own say
/// no command that is new behind that.
pub fn damaged_registers_have_an_entry_to_blame()
    ensures { (entries : List EntryRow) (rest : Rest) (kind : EntryKind)
        → (merging [] entries rest ≡ Err (Damaged kind)) ↔ HasBlame [] entries rest kind }
{}
