//! Laws of rows that are asked. Each function does nothing; its contract is the law, and the checker proves it.
ghost use Rattle.std.specs.Prelude.{List};
ghost use Rattle.sqlite.specs.Tree.{Trees};
ghost use Rattle.mx_book.specs.commands.Act.{Entry};
ghost use Rattle.mx_book_tables.specs.stands.Stands.{HasRowsAt};
ghost use Rattle.mx_lookups.specs.numbers.Reads.{rows_point};
ghost use Rattle.mx_row_judge.specs.Answering.{AnswerListsAs};

/// Tables that stand for a book answer each question of the judge and of the lists as it does: what is said of rows that
/// answer as a book is said of them.
pub fn tables_answer_as_their_book()
    ensures { (trees : Trees) (book : List Entry) → HasRowsAt rows_point trees book
        → AnswerListsAs trees book }
{}
