//! Laws of kept rows and registers. Each function does nothing; its contract is the law, and the checker proves it.
ghost use Rattle.std.specs.Prelude.{◌≡◌, List};
ghost use Rattle.mx_book.specs.commands.Act.{Entry};
ghost use Rattle.mx_book.specs.Book.{IsBook};
ghost use Rattle.mx_registers.specs.Registers.{fitting_rows, removal_rows};
ghost use Rattle.mx_registers.specs.kept.Spans.{span_rows};
ghost use Rattle.mx_registers.specs.file.Spans.{spans_made};

/// The spans of a book are those that its fittings and removals make: each fitting until the first removal of its
/// component behind it.
pub fn spans_are_made()
    ensures { (book : List Entry) → IsBook book
        → span_rows book ≡ spans_made (fitting_rows book) (removal_rows book) }
{}
