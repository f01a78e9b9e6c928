//! Spans that were found: where a component is fitted, whether a position is taken, and the moves that a span has.
ghost use Rattle.std.specs.Prelude.{◌≡◌, ℕ, List, [], false, filter, is_some, map, slice_get, true, None, Some};
ghost use Rattle.std.specs.List.{filter_map, AllByRecursion};
ghost use Rattle.std.specs.Option.{option_and_then, option_map};
ghost use Rattle.mx_book.specs.commands.Act.{Entry};
ghost use Rattle.mx_book.specs.Book.{IsBook};
ghost use Rattle.mx_book.specs.Span.{fitted, is_open_on, is_taken, spans, tail_fitted};
ghost use Rattle.mx_registers.specs.Names.{seq_of_serial, seq_of_tail, tail_at};
ghost use Rattle.mx_base.specs.declared.rows.rows.SpanRow.{SpanRow};
ghost use Rattle.mx_registers.specs.kept.Spans.{span_rows};
ghost use Rattle.mx_row_rules.specs.found.Spans.{is_open_at, is_open_of, is_taken_in, place_said, span_aircraft};

use mx_base::Position;
use mx_base::rows::SpanRow;

/// The first of these spans.
pub fn span_in(rows: &[SpanRow]) -> Option<SpanRow>
    ensures { result ≡ slice_get rows.now 0 }
{
    rows.first().map(|row| *row)
}

/// Whether one of these spans is in a position.
pub fn is_taken_in(rows: &[SpanRow], position: &Position) -> bool
    ensures { result ≡ is_taken_in position.now rows.now }
{
    rows.iter().any(|row| row.position == *position)
}

/// The open span of a component, by its number, is of the aircraft and the position that the component is fitted to, and
/// there is none where it is fitted nowhere; a component that is not there is fitted nowhere.
pub fn fitted_components_are_found()
    ensures tail { (book : List Entry) (serial : List ℕ) (n : ℕ) → IsBook book
        → seq_of_serial book serial ≡ Some n
        → option_and_then (tail_at book) (span_aircraft (filter (is_open_of n) (span_rows book)))
        ≡ tail_fitted book serial }
    ensures there { (book : List Entry) (serial : List ℕ) (n : ℕ) → IsBook book
        → seq_of_serial book serial ≡ Some n
        → is_some (span_aircraft (filter (is_open_of n) (span_rows book)))
        ≡ is_some (tail_fitted book serial) }
    ensures position { (book : List Entry) (serial : List ℕ) (n : ℕ) → IsBook book
        → seq_of_serial book serial ≡ Some n
        → option_map (λ (row : SpanRow). row.position)
        (slice_get (filter (is_open_of n) (span_rows book)) 0)
        ≡ option_map (λ s. s.position) (fitted book serial) }
    ensures nowhere { (book : List Entry) (serial : List ℕ) → IsBook book
        → seq_of_serial book serial ≡ None → tail_fitted book serial ≡ None }
{}

/// A position of an aircraft is taken where one of the open spans with the aircraft's number is in it; one of an aircraft
/// that is not there is not taken.
pub fn taken_positions_are_found()
    ensures taken { (book : List Entry) (tail position : List ℕ) (n : ℕ) → IsBook book
        → seq_of_tail book tail ≡ Some n
        → is_taken_in position (filter (is_open_at n) (span_rows book))
        ≡ is_taken book tail position }
    ensures missed { (book : List Entry) (tail position : List ℕ) → IsBook book
        → seq_of_tail book tail ≡ None → is_taken book tail position ≡ false }
{}

/// The open spans with the number of an aircraft say the components that are fitted to it, each behind its position, in
/// the order of their fittings, and the component of each is there; nothing is fitted to an aircraft that is not there.
pub fn fitted_places_are_found()
    ensures places { (book : List Entry) (tail : List ℕ) (n : ℕ) → IsBook book
        → seq_of_tail book tail ≡ Some n
        → filter_map (place_said book) (filter (is_open_at n) (span_rows book))
        ≡ map (λ s. (s.position, s.serial)) (filter (is_open_on tail) (spans book)) }
    ensures there { (book : List Entry) (n : ℕ) → IsBook book
        → AllByRecursion (λ row. is_some (place_said book row) ≡ true)
        (filter (is_open_at n) (span_rows book)) }
    ensures missed { (book : List Entry) (tail : List ℕ) → IsBook book
        → seq_of_tail book tail ≡ None → filter (is_open_on tail) (spans book) ≡ [] }
{}
