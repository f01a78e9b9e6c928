//! The totals that a book gives, by moments.
ghost use Rattle.std.specs.Prelude.{◌≡◌, [], ◌++◌, IfOk, OnOk, Some};
ghost use Rattle.std.specs.List.{cons_option};
ghost use Rattle.std.specs.Option.{option_map};
ghost use Rattle.mx_registers.specs.Names.{item_added, item_at};
ghost use Rattle.mx_registers.specs.kept.Totals.{total_row, total_rows};

use crate::merged::kept_book::KeptBook;
use mx_base::rows::TotalRow;
use mx_book::commands::{Command, Item};
use mx_book::entry_list::NoMemory;
use mx_registers::added_item;
use std::alloc::Global;

// The total of an item with its number.
fn total_row(book: &KeptBook, seq: u32, item: &Item) -> TotalRow
    requires { item_at book.now seq ≡ Some item.now }
    ensures { result ≡ total_row book.now (seq, item.now) }
{
    TotalRow {
        item: seq,
        life: book.life(seq, item),
        clock: book.clock(item),
    }
}

// Adds the total of the item that the entry with a number adds, where it adds one.
fn add_total(
    book: &KeptBook,
    rows: &mut Vec<TotalRow>,
    seq: u32,
    entry: &Command,
) -> Result<(), NoMemory>
    requires { item_at book.now seq ≡ item_added entry.now.act }
    ensures { OnOk result (rows.new.items ≡ rows.old.items
        ++ cons_option (option_map (λ item. total_row book.now (seq, item)) (item_added entry.now.act)) []) }
{
    match added_item(entry.body()) {
        None => Ok(()),
        Some(item) => match rows.push(total_row(book, seq, &item)) {
            Ok(()) => Ok(()),
            Err(_) => Err(NoMemory),
        },
    }
}

/// The totals of the items of a book, in the order of the entries that added them. `NoMemory` where memory runs out.
pub fn total_rows(alloc: Global, book: &KeptBook) -> Result<Vec<TotalRow>, NoMemory>
    ensures { IfOk result (λ rows. rows.items ≡ total_rows book.now) }
{
    let _ = book.plain().len();
    let mut rows = Vec::new(alloc);
    let mut seq = 1u32;
    let mut rest = book.plain().as_slice();
    while let Some((entry, later)) = rest.split_first() {
        add_total(book, &mut rows, seq, entry)?;
        seq += 1;
        rest = later;
    }
    Ok(rows)
}
