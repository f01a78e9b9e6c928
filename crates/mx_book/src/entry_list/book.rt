//! The book: the accepted commands, in their order.
ghost use Rattle.std.specs.Prelude.{◌≡◌, ◌+◌, ◌↔◌, [], ◌∷◌, ◌++◌, length, IsTrue, OnOk, OnErr, IfOk, IfErr};
ghost use Rattle.std.specs.Option.{option_copied};
ghost use Rattle.mx_book.specs.Judge.{judge};
ghost use Rattle.mx_book.specs.Book.{entry_at, entries_from, IsBook};

use crate::Verdict;
use crate::commands::Command;
use std::alloc::{AllocError, Global};
use std::marker::Model;

/// Memory ran out.
#[derive(Clone, Copy, Debug, PartialEq, Eq)]
pub struct NoMemory;

impl From<AllocError> for NoMemory {
    fn from(_error: AllocError) -> NoMemory {
        NoMemory
    }
}

/// The accepted commands, in their order. The number of an entry is its place, from 1. Contracts see the
/// list of the entries, each of which was judged new against those before it.
#[derive(Drop)]
pub struct Book {
    entries: Vec<Command>,
}

impl Model for Book {
    ghost use Rattle.std.specs.Prelude.{List};
    ghost use Rattle.mx_book.specs.commands.Act.{Entry};
    ghost use Rattle.mx_book.specs.Book.{IsBook};

    ghost Value = { List Entry };

    ghost view = { λ b. b.entries.items };

    ghost invariant = { λ b. IsBook b.entries.items };
}

impl Book {
    /// The empty book, which takes no memory.
    pub fn new(alloc: Global) -> Book
        ensures { result ≡ [] }
    {
        Book {
            entries: Vec::new(alloc),
        }
    }

    /// How many entries there are, at most 1,000,000.
    pub fn len(&self) -> u32
        ensures len { result ≡ length self.now }
        ensures book { IsBook self.now }
    {
        self.entries.len() as u32
    }

    /// Whether there is no entry.
    pub fn is_empty(&self) -> bool
        ensures { IsTrue result ↔ (self.now ≡ []) }
    {
        self.entries.is_empty()
    }

    /// The entry with a number, from 1, or `None` past the last.
    pub fn entry(&self, seq: u32) -> Option<&Command>
        ensures { option_copied result ≡ entry_at self.now seq }
    {
        if seq == 0 {
            return None;
        }
        self.entries.get(seq as usize - 1)
    }

    /// The entries, in their order.
    pub fn as_slice(&self) -> &[Command]
        ensures entries { result.now ≡ self.now }
        ensures book { IsBook self.now }
    {
        self.entries.as_slice()
    }

    /// Enters a command that is judged new, and answers its number. Where memory runs out the command is
    /// handed back, and the book is as it was.
    pub fn enter(&mut self, command: Command) -> Result<u32, (Command, NoMemory)>
        requires { judge self.old command ≡ Verdict.New }
        ensures entered { OnOk result (self.new ≡ self.old ++ command ∷ []) }
        ensures seq { IfOk result (λ seq. seq ≡ length self.old + 1) }
        ensures back { IfErr result (λ e. e.0 ≡ command) }
        ensures unchanged { OnErr result (self.new ≡ self.old) }
    {
        let _ = command.doc();
        let seq = self.entries.len() as u32 + 1;
        match self.entries.push(command) {
            Ok(()) => Ok(seq),
            Err(failed) => Err((failed.value, NoMemory)),
        }
    }

    /// A copy of the first entries, at most `at_most`, of those whose number is at least `from`, in their order.
    /// `NoMemory` where memory runs out.
    pub fn entries(&self, alloc: Global, from: u32, at_most: u32) -> Result<Vec<Command>, NoMemory>
        ensures { IfOk result (λ v. v.items ≡ entries_from from at_most self.now) }
    {
        Ok(copied(alloc, page(self.entries.as_slice(), from, at_most))?)
    }

    /// The same book again. `NoMemory` where memory runs out.
    pub fn copy(&self, alloc: Global) -> Result<Book, NoMemory>
        ensures { IfOk result (λ b. b ≡ self.now) }
    {
        let entries = copied(alloc, self.entries.as_slice())?;
        Ok(Book { entries })
    }
}

// The first entries, at most so many, of those with at least this number.
fn page(entries: &[Command], from: u32, at_most: u32) -> &[Command]
    ensures { result.now ≡ entries_from from at_most entries.now }
{
    let before = entries.len().min(from.saturating_sub(1) as usize);
    let rest = &entries[before..];
    &rest[..rest.len().min(at_most as usize)]
}

fn copied(alloc: Global, entries: &[Command]) -> Result<Vec<Command>, AllocError>
    ensures { IfOk result (λ v. v.items ≡ entries.now) }
{
    let mut all = Vec::with_capacity(alloc, entries.len())?;
    for entry in entries {
        all.push(entry.copy(alloc)?)?;
    }
    Ok(all)
}
