//! The names of things by the numbers of the entries that added them.
ghost use Rattle.std.specs.Prelude.{◌≡◌};
ghost use Rattle.sqlite.specs.Held.{state};
ghost use Rattle.mx_registers.specs.Names.{defect_at, item_at};
ghost use Rattle.mx_lookups.specs.numbers.AnyRows.{ReadsAny};
ghost use Rattle.mx_lookups.specs.numbers.Reads.{Reads};
ghost use Rattle.mx_row_questions.specs.entries.Names.{DocOfDefect, ItemOfNumber};

use mx_base::Doc;
use mx_book::commands::Item;
use mx_layout::TableFault;
use mx_lookups::lists::serial_of_number;
use mx_lookups::numbers::items::tail_of_number;
use mx_row_rules::found::entries::deferred_doc;
use mx_table_rows::chosen::entries::entry_by_seq;
use sqlite::{Alter, Transaction};
use std::alloc::Global;

// The item that the entry with this number added.
pub(crate) fn item_of_number<S: Alter>(
    alloc: Global,
    tx: &mut Transaction<'_, S>,
    number: u32,
) -> Result<Option<Item>, TableFault>
    ensures same_reference { tx.new.conn.ghost_name ≡ tx.old.conn.ghost_name }
    ensures reads { Reads (λ book item. item ≡ item_at book number)
        (state S.Store tx.old.conn.now) (state S.Store tx.new.conn.now) result }
    ensures any_rows { ReadsAny (ItemOfNumber number)
        (state S.Store tx.old.conn.now) (state S.Store tx.new.conn.now) result }
{
    let tail = tail_of_number(alloc, tx, number)?;
    match tail {
        Some(tail) => Ok(Some(Item::Airframe(tail))),
        None => {
            let listed = serial_of_number(alloc, tx, number)?;
            match listed {
                Some(serial) => Ok(Some(Item::Component(serial))),
                None => Ok(None),
            }
        }
    }
}

// The document of the defect that the entry with this number deferred.
pub(crate) fn doc_of_defect<S: Alter>(
    alloc: Global,
    tx: &mut Transaction<'_, S>,
    number: u32,
) -> Result<Option<Doc>, TableFault>
    ensures same_reference { tx.new.conn.ghost_name ≡ tx.old.conn.ghost_name }
    ensures reads { Reads (λ book doc. doc ≡ defect_at book number)
        (state S.Store tx.old.conn.now) (state S.Store tx.new.conn.now) result }
    ensures any_rows { ReadsAny (DocOfDefect number)
        (state S.Store tx.old.conn.now) (state S.Store tx.new.conn.now) result }
{
    let rows = entry_by_seq(alloc, tx, number)?;
    Ok(deferred_doc(&rows))
}
