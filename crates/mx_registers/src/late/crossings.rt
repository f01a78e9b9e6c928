//! Laws of what a sector crosses that is entered late, by rows. Each function does nothing; its contract is the law, and the
//! checker proves it.
ghost use Rattle.std.specs.Prelude.{◌≡◌, ◌≤◌, List, None, is_some, true};
ghost use Rattle.mx_book.specs.commands.Act.{Entry};
ghost use Rattle.mx_book.specs.declared.commands.item.Item.TheVariants.{Airframe};
ghost use Rattle.mx_book.specs.declared.commands.sector.Sector.{Sector};
ghost use Rattle.mx_book.specs.Book.{IsBook};
ghost use Rattle.mx_book.specs.Late.{first_overlapped, first_straddled};
ghost use Rattle.mx_book.specs.Life.{clock};
ghost use Rattle.mx_book.specs.Register.{aircraft};
ghost use Rattle.mx_registers.specs.Registers.{release_rows, sector_rows};
ghost use Rattle.mx_registers.specs.kept.Items.{number_of_tail};
ghost use Rattle.mx_registers.specs.kept.Spans.{span_rows};
ghost use Rattle.mx_registers.specs.late.Crossings.{crossed_numbers, least, overlapped_among};

/// Which entry a sector overlaps first is that of the first of its aircraft's sectors that was under way with it; and which
/// it straddles first is the least of those that fitted a component to its aircraft, removed one from it or released work
/// at it meanwhile, by the rows of spans and of releases.
pub fn sectors_cross_by_rows()
    ensures overlap { (book : List Entry) (sector : Sector) → IsBook book
        → is_some (aircraft book sector.tail) ≡ true
        → first_overlapped book sector
        ≡ overlapped_among (number_of_tail book sector.tail) sector (sector_rows book) }
    ensures straddle { (book : List Entry) (sector : Sector) → IsBook book
        → is_some (aircraft book sector.tail) ≡ true
        → first_straddled book sector
        ≡ least (crossed_numbers (number_of_tail book sector.tail) sector (span_rows book)
        (release_rows book)) }
{}

/// A sector that takes off by the clock of its airframe overlaps and straddles nothing, so that nobody has to look.
pub fn sectors_in_order_cross_nothing()
    ensures overlap { (book : List Entry) (sector : Sector) → IsBook book
        → clock book (Airframe sector.tail) ≤ sector.off → first_overlapped book sector ≡ None }
    ensures straddle { (book : List Entry) (sector : Sector) → IsBook book
        → clock book (Airframe sector.tail) ≤ sector.off → first_straddled book sector ≡ None }
{}
