//! What was accomplished on items, by the accomplishments of layout 3.
ghost use Rattle.std.specs.Prelude.{◌≡◌, ℕ, List, [], ◌∷◌, ◌++◌, None, IfOk, IfSome, IsPermutation, filter, map, not, true, Some};
ghost use Rattle.sqlite.specs.Effect.{Database};
ghost use Rattle.mx_base.specs.declared.rows.rows.DoneRow.{DoneRow};
ghost use Rattle.mx_book.specs.commands.Act.{Entry, Flown};
ghost use Rattle.mx_book.specs.commands.Shape.{act_shape};
ghost use Rattle.mx_book.specs.declared.commands.item.Item.{Item};
ghost use Rattle.mx_book.specs.declared.commands.sector.Sector.{Sector};
ghost use Rattle.mx_book.specs.declared.verdict.Verdict.TheVariants.{New};
ghost use Rattle.mx_book.specs.due.Due.{IsBase};
ghost use Rattle.mx_book.specs.due.Moved.{moved};
ghost use Rattle.mx_book.specs.Base.{base};
ghost use Rattle.mx_book.specs.Book.{IsBook};
ghost use Rattle.mx_book.specs.Judge.{judge};
ghost use Rattle.mx_registers.specs.Names.{has_item, item_at};
ghost use Rattle.mx_registers.specs.kept.Changes.{entry_of};
ghost use Rattle.mx_registers.specs.kept.Totals.{numbers_flown};
ghost use Rattle.mx_registers.specs.late.Done.{credited_late, done_rows_of, is_done_of, last_base};
ghost use Rattle.mx_layout.specs.Contents.{rows_in};
ghost use Rattle.mx_layout.specs.Tables.{done3};
ghost use Rattle.mx_layout.specs.kept.Cells.{kept_done3};
ghost use Rattle.mx_table_rows.specs.totals.Remade.{CanRemake, IsRemade};
ghost use Rattle.mx_table_rows.specs.totals.Several.{AreExactly};
ghost use Rattle.mx_lookups.specs.numbers.Given.{is_of};
ghost use Rattle.mx_lookups.specs.numbers.Later.{Accomplishments, AccomplishmentsDamage, AreDoneRows, LastBaseDamage, LastBaseOf, rows_accomplished};
ghost use Rattle.mx_lookups.specs.numbers.LookUp.{IsLookUpAt};
ghost use Rattle.mx_lookups.specs.numbers.Reads.{later_point};

use crate::numbers::items::item_number;
use mx_base::rows::DoneRow;
use mx_base::{Base, TaskId};
use mx_book::commands::Item;
use mx_layout::{Table, TableFault};
use mx_row_rules::found::lives::is_of_life;
use mx_table_rows::chosen::later::done3_by_item_and_task;
use sqlite::{Alter, Transaction};
use std::alloc::Global;

// The base that the last of these accomplishments leaves, or `None` without one.
#[tactic(auto, using(crate::proofs::LivesProofs::DoneLookups::last_base_is))]
fn last_in(rows: &[DoneRow]) -> Option<Base>
    ensures { result ≡ last_base rows.now }
{
    rows.last().map(|row| row.base)
}

/// The accomplishments of a task of an item at layout 3, in the order of their entries and of the lines there; none where
/// the item is not there. `Damaged` with `done3` where one can't be read, and as `item_number` is.
pub fn accomplishments<S: Alter>(
    alloc: Global,
    tx: &mut Transaction<'_, S>,
    item: &Item,
    id: &TaskId,
) -> Result<Vec<DoneRow>, TableFault>
    ensures looks_up { IsLookUpAt later_point S.Store
        (λ book rows. rows.items ≡ rows_accomplished book item.now id.now)
        (λ trees rows. Accomplishments item.now id.now trees rows.items)
        (AccomplishmentsDamage item.now id.now)
        tx.old tx.new result }
{
    let found = item_number(alloc, tx, item)?;
    match found {
        Some(number) => done3_by_item_and_task(alloc, tx, number, id),
        None => Ok(Vec::new(alloc)),
    }
}

/// The base of the last accomplishment of a task of an item at layout 3, or `None` without one: that of the last row.
/// `Damaged` with `done3` where that has more minutes or cycles than a life can have.
pub fn last_base<S: Alter>(
    alloc: Global,
    tx: &mut Transaction<'_, S>,
    item: &Item,
    id: &TaskId,
) -> Result<Option<Base>, TableFault>
    ensures looks_up { IsLookUpAt later_point S.Store
        (λ book found. found ≡ base book item.now id.now)
        (LastBaseOf item.now id.now)
        (LastBaseDamage item.now id.now)
        tx.old tx.new result }
    ensures bounded { IfOk result (λ base. IfSome base IsBase) }
{
    let found = item_number(alloc, tx, item)?;
    match found {
        Some(number) => {
            let rows = done3_by_item_and_task(alloc, tx, number, id)?;
            match last_in(&rows) {
                Some(base) => {
                    if is_of_life(&base) {
                        Ok(Some(base))
                    } else {
                        Err(TableFault::Damaged(Table::Done3))
                    }
                }
                None => Ok(None),
            }
        }
        None => Ok(None),
    }
}

/// What `rebase` of `mx_table_rows` leaves where the accomplishments of a task of an item are those of a book, their values
/// with a new sector: exactly those of the book with the sector, due and base too. Over any rows, every other row stays;
/// so where all rows are accomplishments, those of the book with the sector come in place of the ones of the task. This
/// does nothing; its contract is the law, and the checker proves it.
pub fn rebased_rows_are_the_books()
    ensures exactly { (book : List Entry) (doc : List ℕ) (sector : Sector) (number : ℕ) (item : Item)
        (id : List ℕ) (old new : Database) → IsBook book
        → judge book (entry_of doc (Flown sector)) ≡ New → act_shape (Flown sector) ≡ true
        → has_item book item ≡ true → item_at book number ≡ Some item
        → AreDoneRows number id old.trees
        (map (credited_late book (numbers_flown book sector) sector)
        (done_rows_of book number item id))
        → CanRemake kept_done3 (is_of number id) (moved None None) (rows_in done3 old.trees)
        → IsRemade kept_done3 (is_of number id) (moved None None) old new
        → AreExactly kept_done3 (is_of number id) (rows_in done3 new.trees)
        (done_rows_of (book ++ entry_of doc (Flown sector) ∷ []) number item id) }
    ensures others { (number : ℕ) (id : List ℕ) (old new : Database)
        → IsRemade kept_done3 (is_of number id) (moved None None) old new
        → IsPermutation (filter (λ row. not (is_of number id row)) (rows_in done3 old.trees))
        (filter (λ row. not (is_of number id row)) (rows_in done3 new.trees)) }
    ensures whole { (book : List Entry) (doc : List ℕ) (sector : Sector) (number : ℕ) (item : Item)
        (id : List ℕ) (old new : Database) (rows : List DoneRow) → IsBook book
        → judge book (entry_of doc (Flown sector)) ≡ New → act_shape (Flown sector) ≡ true
        → has_item book item ≡ true → item_at book number ≡ Some item
        → IsPermutation (map kept_done3.as_cells rows) (rows_in done3 old.trees)
        → IsPermutation (map (credited_late book (numbers_flown book sector) sector)
        (done_rows_of book number item id)) (filter (is_done_of number id) rows)
        → IsRemade kept_done3 (is_of number id) (moved None None) old new
        → IsPermutation (map kept_done3.as_cells
        (done_rows_of (book ++ entry_of doc (Flown sector) ∷ []) number item id
        ++ filter (λ row. not (is_done_of number id row)) rows)) (rows_in done3 new.trees) }
{}
