//! Totals and last bases that were found: clocks, lives, and what was accomplished.
ghost use Rattle.std.specs.Prelude.{◌≡◌, ◌≤◌, ◌↔◌, ℕ, List, filter, is_some, nat_eq, true, None, Some, IfSome, IsTrue};
ghost use Rattle.mx_base.specs.Calendar.{last_day};
ghost use Rattle.mx_book.specs.commands.Act.{Entry};
ghost use Rattle.mx_book.specs.declared.commands.item.Item.{Item};
ghost use Rattle.mx_book.specs.due.Due.{IsLife};
ghost use Rattle.mx_book.specs.Base.{base};
ghost use Rattle.mx_book.specs.Book.{IsBook};
ghost use Rattle.mx_book.specs.Life.{clock, life_now};
ghost use Rattle.mx_book.specs.Programme.{is_accomplished};
ghost use Rattle.mx_registers.specs.Names.{seq_of_item};
ghost use Rattle.mx_registers.specs.kept.Bases.{base_rows, is_keyed};
ghost use Rattle.mx_registers.specs.kept.Totals.{total_rows};
ghost use Rattle.mx_base.specs.declared.rows.rows.TotalRow.{TotalRow};
ghost use Rattle.mx_row_rules.specs.found.Lives.{base_found, clock_in, life_in, life_in_base};

use mx_base::rows::{BaseRow, TotalRow};
use mx_base::{Base, Moment, Use};

/// The most minutes that a base has.
const MOST_MINUTES: u32 = 1_540_000_000;

/// The most cycles that a base has.
const MOST_CYCLES: u32 = 51_000_000;

/// The clock in the first of these totals, or `None` without one.
pub fn clock_in(rows: &[TotalRow]) -> Option<Moment>
    ensures { result ≡ clock_in rows.now }
{
    rows.first().map(|row| row.clock)
}

/// The life in the first of these totals, or `None` without one.
pub fn life_in(rows: &[TotalRow]) -> Option<Use>
    ensures { result ≡ life_in rows.now }
{
    rows.first().map(|row| row.life)
}

/// The base in the first of these rows, or `None` without one.
pub fn base_found(rows: &[BaseRow]) -> Option<Base>
    ensures found { result ≡ base_found rows.now }
    ensures day { IfSome result (λ base. base.day ≤ last_day) }
{
    rows.first().map(|row| Base {
        minutes: row.life.minutes,
        cycles: row.life.cycles,
        day: row.day.number(),
    })
}

/// Whether a base has minutes and cycles that a life can have.
pub fn is_of_life(base: &Base) -> bool
    ensures { IsTrue result ↔ IsLife (life_in_base base.now) }
{
    base.minutes <= MOST_MINUTES && base.cycles <= MOST_CYCLES
}

/// The total with the number of an item is there, and has its clock and its life; an item that is not there has the first
/// moment as its clock, and no life.
pub fn totals_are_found()
    ensures clock { (book : List Entry) (item : Item) (n : ℕ) → IsBook book
        → seq_of_item book item ≡ Some n
        → clock_in (filter (λ (row : TotalRow). nat_eq row.item n) (total_rows book))
        ≡ Some (clock book item) }
    ensures life { (book : List Entry) (item : Item) (n : ℕ) → IsBook book
        → seq_of_item book item ≡ Some n
        → life_in (filter (λ (row : TotalRow). nat_eq row.item n) (total_rows book))
        ≡ life_now book item }
    ensures alive { (book : List Entry) (item : Item) (n : ℕ)
        → seq_of_item book item ≡ Some n → is_some (life_now book item) ≡ true }
    ensures no_clock { (book : List Entry) (item : Item) → IsBook book
        → seq_of_item book item ≡ None → clock book item ≡ 0 }
    ensures no_life { (book : List Entry) (item : Item)
        → seq_of_item book item ≡ None → life_now book item ≡ None }
{}

/// The row of a task of the item with a number has its last base, and is there exactly where the task was accomplished;
/// of an item that is not there nothing was. A base has minutes and cycles that a life can have.
pub fn bases_are_found()
    ensures base { (book : List Entry) (item : Item) (id : List ℕ) (n : ℕ) → IsBook book
        → seq_of_item book item ≡ Some n
        → base_found (filter (is_keyed n id) (base_rows book)) ≡ base book item id }
    ensures accomplished { (book : List Entry) (item : Item) (id : List ℕ)
        → is_some (base book item id) ≡ is_accomplished book item id }
    ensures bounded { (book : List Entry) (item : Item) (id : List ℕ) → IsBook book
        → IfSome (base book item id) (λ base. IsLife (life_in_base base)) }
    ensures no_base { (book : List Entry) (item : Item) (id : List ℕ) → IsBook book
        → seq_of_item book item ≡ None → base book item id ≡ None }
{}
