//! The book that registers are those of, with what its kept rows are made of: its maps, the sectors and spans of its registers by
//! moments, its accomplishments, and the last base of each task.
ghost use Rattle.std.specs.Prelude.{◌≡◌, IfOk, IfSome, IsPermutation, Some};
ghost use Rattle.mx_book.specs.due.Due.{IsBase};
ghost use Rattle.mx_book.specs.Base.{base};
ghost use Rattle.mx_book.specs.Life.{clock, life_now, use_or_none};
ghost use Rattle.mx_registers.specs.Names.{item_at};
ghost use Rattle.mx_registers.specs.Registers.{AreRegistersOf, deferral_rows, sector_rows};
ghost use Rattle.mx_registers.specs.kept.Spans.{span_rows};
ghost use Rattle.mx_registers.specs.late.Done.{done_rows};
ghost use Rattle.mx_registers.specs.late.Found.{found_rows};
ghost use Rattle.mx_indexed_book.specs.moments.Flown.{ArePermuted};

use crate::merged::merged::Merged;
use mx_base::rows::{Deferral3Row, DeferralRow, DoneRow};
use mx_base::{Base, Moment, TaskId, Use};
use mx_book::commands::Item;
use mx_book::entry_list::{Book, NoMemory};
use mx_indexed_book::IndexedBook;
use mx_indexed_book::moments::done::{Done, done_rows};
use mx_indexed_book::moments::flown::Moments;
use mx_indexed_book::moments::found::found_rows;
use mx_indexed_book::moments::lives;
use mx_registers::file::spans::spans_made;
use mx_registers::merge::Registers;
use std::alloc::Global;
use std::marker::Model;

/// A book with its lives by moments, its accomplishments and its last bases. Contracts see the list of its entries.
#[derive(Drop)]
pub struct KeptBook {
    book: IndexedBook,
    moments: Moments,
    done: Done,
}

impl Model for KeptBook {
    ghost use Rattle.std.specs.Prelude.{List};
    ghost use Rattle.mx_book.specs.commands.Act.{Entry};
    ghost use Rattle.mx_verify.specs.merged.KeptBook.{IsKept};

    ghost Value = { List Entry };

    ghost view = { λ a. a.book };

    ghost invariant = { λ a. IsKept a.book a.moments a.done.rows.items a.done.bases };
}

// The sectors and spans of registers by moments.
fn moments_of(alloc: Global, merged: &Merged, registers: &Registers) -> Result<Moments, NoMemory>
    requires { AreRegistersOf registers.now merged.now }
    ensures { IfOk result (ArePermuted (sector_rows merged.now) (span_rows merged.now)) }
{
    let _ = merged.book().plain().len();
    let rows = &registers.rows;
    let spans = spans_made(alloc, rows.fittings.as_slice(), rows.removals.as_slice())?;
    Moments::of(alloc, rows.sectors.as_slice(), spans.as_slice())
}

impl KeptBook {
    /// The book that registers gave, with what these have of it. `NoMemory` where memory runs out.
    pub fn of(alloc: Global, merged: Merged, registers: &Registers) -> Result<KeptBook, NoMemory>
        requires { AreRegistersOf registers.now merged }
        ensures { IfOk result (λ book. book ≡ merged) }
    {
        let moments = moments_of(alloc, &merged, registers)?;
        let done = done_rows(alloc, merged.book(), &moments, merged.said())?;
        Ok(KeptBook {
            book: merged.into_book(),
            moments,
            done,
        })
    }

    /// The book alone.
    pub fn plain(&self) -> &Book
        ensures { result.now ≡ self.now }
    {
        self.book.plain()
    }

    /// The clock of an item.
    pub fn clock(&self, item: &Item) -> Moment
        ensures { result ≡ clock self.now item.now }
    {
        self.book.clock(item)
    }

    /// The life of the item with a number, with all of its sectors.
    pub fn life(&self, number: u32, item: &Item) -> Use
        requires { item_at self.now number ≡ Some item.now }
        ensures { result ≡ use_or_none (life_now self.now item.now) }
    {
        lives::life_now(&self.book, &self.moments, number, item)
    }

    /// The last base of a task of the item with a number, or `None` where it was never accomplished.
    pub fn base(&self, number: u32, item: &Item, task: &TaskId) -> Option<Base>
        requires { item_at self.now number ≡ Some item.now }
        ensures base { result ≡ base self.now item.now task.now }
        ensures bounded { IfSome result IsBase }
    {
        self.done.bases.get(&(number, *task)).copied()
    }

    /// Its deferrals, which are these, with the cycles at which they were found. `NoMemory` where memory runs out.
    pub fn found(
        &self,
        alloc: Global,
        deferrals: &[DeferralRow],
    ) -> Result<Vec<Deferral3Row>, NoMemory>
        requires { deferrals.now ≡ deferral_rows self.now }
        ensures { IfOk result (λ rows. rows.items ≡ found_rows self.now) }
    {
        found_rows(alloc, &self.book, &self.moments, deferrals)
    }

    /// Its accomplishments as rows.
    pub fn into_done(self) -> Vec<DoneRow>
        ensures { IsPermutation result.items (done_rows self) }
    {
        let KeptBook {
            book: _,
            moments: _,
            done,
        } = self;
        let Done { rows, bases: _ } = done;
        rows
    }
}
