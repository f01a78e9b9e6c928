//! Laws of the kept rows of a command. Each function does nothing; its contract is the law, and the checker proves it.
ghost use Rattle.std.specs.Prelude.{◌≡◌, List, [], ◌∷◌, ◌++◌, IsPermutation, true};
ghost use Rattle.mx_book.specs.commands.Act.{Entry};
ghost use Rattle.mx_book.specs.commands.Shape.{act_shape};
ghost use Rattle.mx_book.specs.Book.{IsBook};
ghost use Rattle.mx_book.specs.Judge.{judge};
ghost use Rattle.mx_book.specs.declared.verdict.Verdict.TheVariants.{New};
ghost use Rattle.mx_registers.specs.kept.Spans.{span_rows, spans_opened};
ghost use Rattle.mx_registers.specs.kept.Totals.{total_rows, totals_opened};
ghost use Rattle.mx_row_rules.specs.changes.Puts.{spans_put, totals_put};
ghost use Rattle.mx_row_rules.specs.changes.Rows.{spans_touched, totals_touched};

/// The spans and the totals with a new command, whichever it is: those that it touches in place of what they were, and
/// those that it adds.
pub fn commands_put_kept_rows()
    ensures spans { (book : List Entry) (entry : Entry) → IsBook book → judge book entry ≡ New
        → IsPermutation
        (spans_opened book entry.act ++ spans_put (spans_touched book entry.act) (span_rows book))
        (span_rows (book ++ entry ∷ [])) }
    ensures totals { (book : List Entry) (entry : Entry) → IsBook book → judge book entry ≡ New
        → act_shape entry.act ≡ true
        → IsPermutation (totals_opened book entry.act
        ++ totals_put (totals_touched book entry.act) (total_rows book))
        (total_rows (book ++ entry ∷ [])) }
{}
