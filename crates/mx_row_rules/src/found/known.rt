//! Whether the entry that has the document of a command says the same, by the rows of that entry.
ghost use Rattle.std.specs.Prelude.{◌≡◌, ◌↔◌, ℕ, Bool, List, None, Some, filter, nat_eq, true};
ghost use Rattle.std.specs.List.{list_any};
ghost use Rattle.std.specs.Option.{option_map};
ghost use Rattle.mx_book.specs.commands.Act.{Entry, Fitted, Removed};
ghost use Rattle.mx_book.specs.commands.Shape.{has_shape};
ghost use Rattle.mx_book.specs.declared.commands.fitting.Fitting.{Fitting};
ghost use Rattle.mx_book.specs.declared.commands.fitting.Removal.{Removal};
ghost use Rattle.mx_book.specs.Asking.{known_same};
ghost use Rattle.mx_book.specs.Book.{IsBook};
ghost use Rattle.mx_book.specs.Judge.{known_from};
ghost use Rattle.mx_registers.specs.kept.Changes.{entry_of};
ghost use Rattle.mx_registers.specs.kept.Items.{number_of_serial, number_of_tail};
ghost use Rattle.mx_registers.specs.kept.Spans.{span_rows};
ghost use Rattle.mx_registers.specs.Names.{or_zero};
ghost use Rattle.mx_registers.specs.Registers.{release_line_row};
ghost use Rattle.mx_base.specs.declared.rows.rows.SpanRow.{SpanRow};
ghost use Rattle.mx_row_rules.specs.found.Given.{AreSame, line_row, seq_of_line};
ghost use Rattle.mx_row_rules.specs.found.Names.{entries_with, entry_number};
ghost use Rattle.mx_row_rules.specs.found.Spans.{begins_with, ends_with, is_removed_by};

use mx_base::rows::{ReleaseLineRow, SpanRow};
use mx_book::commands::{Fitting, Line, Removal};
use mx_registers::{done_row, rectified_row};

/// The row that a line of a release would have with a number on a line, where this is the number of what it is of: of the item
/// that a task was done on, or of the defect that was rectified, or 0 where the book has none.
pub fn release_line_row(seq: u32, line: u32, number: u32, certified: &Line) -> ReleaseLineRow
    ensures row { result ≡ line_row seq line number certified.now }
    ensures of_book { (book : List Entry) → number ≡ or_zero (seq_of_line book certified.now)
        → result ≡ release_line_row book seq line certified.now }
{
    match certified {
        Line::Done(_, task) => done_row(seq, line, number, task),
        Line::Rectified(_) => rectified_row(seq, line, number),
    }
}

/// Whether one of these spans begins with a fitting, of this component to this aircraft, of the entry with a number.
pub fn begins_in(
    rows: &[SpanRow],
    seq: u32,
    component: u32,
    aircraft: u32,
    fitting: &Fitting,
) -> bool
    ensures { result ≡ list_any (begins_with seq component aircraft fitting.now) rows.now }
{
    rows.iter().any(|row| {
        row.fit_seq == seq
            && row.component == component
            && row.aircraft == aircraft
            && row.position == fitting.position
            && row.from == fitting.moment
    })
}

/// Whether one of these spans ends with a removal, of this component, by the entry with a number.
pub fn ends_in(rows: &[SpanRow], seq: u32, component: u32, removal: &Removal) -> bool
    ensures { result ≡ list_any (ends_with seq component removal.now) rows.now }
{
    rows.iter().any(|row| {
        row.remove_seq == Some(seq) && row.component == component && row.to == Some(removal.moment)
    })
}

/// Of a command: where no row of an entry has its document, none is known. Where one has, that entry is, and it says the
/// same exactly where, in each table of the command's kind, the rows with the entry's number are those that the command
/// would have with it. The kind of the entry need not be compared, since each kind has a row in a table of its own, and a
/// name that the book lacks has number 0, which no row has.
pub fn commands_are_known_by_rows()
    ensures known { (book : List Entry) (command : Entry) (n : ℕ) (same : Bool) → IsBook book
        → has_shape command ≡ true
        → entry_number (entries_with command.doc book) ≡ Some n
        → ((same ≡ true) ↔ AreSame book n command.act)
        → option_map (known_same command) (known_from command.doc 1 book) ≡ Some (n, same) }
    ensures unknown { (book : List Entry) (command : Entry)
        → entry_number (entries_with command.doc book) ≡ None
        → option_map (known_same command) (known_from command.doc 1 book) ≡ None }
{}

/// The entry that is known by the document of a fitting says the same exactly where a span that it begins has that
/// fitting, and by that of a removal where a span that it ends has that removal. So the rows of spans serve for both,
/// where a file keeps no rows of fittings and removals.
pub fn moves_are_known_by_spans()
    ensures fitting { (book : List Entry) (doc : List ℕ) (f : Fitting) (n : ℕ) → IsBook book
        → has_shape (entry_of doc (Fitted f)) ≡ true
        → entry_number (entries_with doc book) ≡ Some n
        → option_map (known_same (entry_of doc (Fitted f))) (known_from doc 1 book)
        ≡ Some (
          n,
          list_any
              (begins_with n (number_of_serial book f.serial) (number_of_tail book f.tail) f)
              (filter (λ (row : SpanRow). nat_eq row.fit_seq n) (span_rows book)),
        ) }
    ensures removal { (book : List Entry) (doc : List ℕ) (r : Removal) (n : ℕ) → IsBook book
        → has_shape (entry_of doc (Removed r)) ≡ true
        → entry_number (entries_with doc book) ≡ Some n
        → option_map (known_same (entry_of doc (Removed r))) (known_from doc 1 book)
        ≡ Some (
          n,
          list_any (ends_with n (number_of_serial book r.serial) r)
              (filter (is_removed_by n) (span_rows book)),
        ) }
{}
