//! The lists of the plain book, with what they are made of: bases and dues.
ghost use Rattle.std.specs.Prelude.{◌≡◌, IfOk};
ghost use Rattle.mx_book.specs.Base.{base};
ghost use Rattle.mx_lists.specs.Dues.{due};
ghost use Rattle.mx_lists.specs.Report.{report_of};

use crate::Plain;
use crate::bases::last_base;
use crate::plain_lists::unless_no_memory;
use mx_base::{Base, Kind, Limit, TaskId};
use mx_book::commands::Item;
use mx_book::entry_list::{Book, NoMemory};
use mx_lists::{Question, Report, due_of_kind, list_report};
use std::alloc::Global;

/// The point that the next due of a task of an item is counted from: that of its last accomplishment, or `None` without
/// one.
pub fn base_of_item(book: &Book, item: &Item, task: &TaskId) -> Option<Base>
    ensures { result ≡ base book.now item.now task.now }
{
    last_base(book.as_slice(), item, task)
}

/// When the task with a name in the programme in force of a kind is due on an item: minutes, cycles, and a day by its
/// number, which may be past the last. `None` where no such task applies to the item, or it is due no more.
pub fn due_of_item(book: &Book, item: &Item, kind: &Kind, task: &TaskId) -> Option<Limit>
    ensures { result ≡ due book.now item.now kind.now task.now }
{
    let mut records = Plain { book };
    match due_of_kind(&mut records, item, kind, task) {
        Ok(due) => due,
        Err(never) => match never {},
    }
}

/// The list that a question asks for, or `None` where the registration that it names is unknown. `NoMemory` where memory
/// runs out.
pub fn list_of(book: &Book, alloc: Global, question: &Question) -> Result<Option<Report>, NoMemory>
    ensures { IfOk result (λ list. list ≡ report_of book.now question.now) }
{
    let mut records = Plain { book };
    unless_no_memory(list_report(&mut records, alloc, question))
}
