//! Laws of the spans and of their rows. Each function does nothing; its contract is the law, and the checker proves it.
ghost use Rattle.std.specs.Prelude.{◌≡◌, ℕ, Bool, true, List, [], ◌∷◌, ◌++◌, map, filter, is_some, IsPermutation};
ghost use Rattle.std.specs.List.{filter_map, AllByRecursion};
ghost use Rattle.std.specs.Option.{option_map};
ghost use Rattle.mx_book.specs.commands.Act.{Entry};
ghost use Rattle.mx_book.specs.Book.{IsBook};
ghost use Rattle.mx_book.specs.Judge.{judge};
ghost use Rattle.mx_book.specs.Register.{component};
ghost use Rattle.mx_book.specs.Span.{Span, fitted, span_begun, spans, tail_fitted};
ghost use Rattle.mx_book.specs.declared.verdict.Verdict.TheVariants.{New};
ghost use Rattle.mx_registers.specs.Registers.{fitting_rows, removal_rows};
ghost use Rattle.mx_registers.specs.kept.Changes.{IsTimed, ended_by};
ghost use Rattle.mx_registers.specs.kept.Items.{number_of_serial, number_of_tail};
ghost use Rattle.mx_registers.specs.kept.Spans.{fitting_in, open_span_in, removal_in, span_ended, span_rows, spans_opened};
ghost use Rattle.mx_base.specs.declared.rows.rows.SpanRow.{SpanRow};

/// One entry more ends the open span of the component that it removes, and begins one where it fits a component.
pub fn spans_change()
    ensures { (book : List Entry) (entry : Entry)
        → spans (book ++ entry ∷ [])
        ≡ map (ended_by entry.act) (spans book) ++ span_begun entry.act [] }
{}

/// Each span of a book begins by the clock of its airframe, and ends by that and by the clock of its component.
pub fn spans_are_timed()
    ensures { (book : List Entry) → AllByRecursion (IsTimed book) (spans book) }
{}

/// The rows of the spans with a new entry: a removal ends the open one of its component, and a fitting opens one.
pub fn span_rows_change()
    ensures { (book : List Entry) (entry : Entry) → IsBook book → judge book entry ≡ New
        → span_rows (book ++ entry ∷ [])
        ≡ map (span_ended book entry.act) (span_rows book) ++ spans_opened book entry.act }
{}

/// The row of the open span of a component, by its number, has where the component is fitted and since when; there is no
/// such row where it is fitted nowhere.
pub fn rows_have_what_is_fitted()
    ensures aircraft { (book : List Entry) (serial : List ℕ) → IsBook book
        → is_some (component book serial) ≡ true
        → option_map (λ (row : SpanRow). row.aircraft)
        (open_span_in (span_rows book) (number_of_serial book serial))
        ≡ option_map (number_of_tail book) (tail_fitted book serial) }
    ensures position { (book : List Entry) (serial : List ℕ) → IsBook book
        → is_some (component book serial) ≡ true
        → option_map (λ (row : SpanRow). row.position)
        (open_span_in (span_rows book) (number_of_serial book serial))
        ≡ option_map (λ (s : Span). s.position) (fitted book serial) }
    ensures moment { (book : List Entry) (serial : List ℕ) → IsBook book
        → is_some (component book serial) ≡ true
        → option_map (λ (row : SpanRow). row.from)
        (open_span_in (span_rows book) (number_of_serial book serial))
        ≡ option_map (λ (s : Span). s.from) (fitted book serial) }
{}

/// The fittings and the removals of a book, of those components that pass a test, are in the rows of their spans.
pub fn spans_have_the_registers()
    ensures fittings { (book : List Entry) → fitting_rows book ≡ map fitting_in (span_rows book) }
    ensures removals { (test : ℕ → Bool) (book : List Entry) → IsBook book
        → IsPermutation (filter (λ row. test row.component) (removal_rows book))
        (filter_map removal_in (filter (λ row. test row.component) (span_rows book))) }
{}
