//! What is looked up in the tables, each in a transaction of its own, which is dropped: nothing changes.
ghost use Rattle.std.specs.Prelude.{◌≡◌, ◌⊎◌, false};
ghost use Rattle.sqlite.specs.Held.{state};
ghost use Rattle.mx_book.specs.Book.{entries_from};
ghost use Rattle.mx_book.specs.Life.{life_now};
ghost use Rattle.mx_row_questions.specs.entries.Damage.{IsSkipped};
ghost use Rattle.mx_row_questions.specs.entries.Entries.{AreEntries};
ghost use Rattle.mx_lists.specs.Report.{report_of};
ghost use Rattle.mx_lookups.specs.numbers.Damage.{IsDamaged};
ghost use Rattle.mx_lookups.specs.numbers.Told.{TellsDamage, TotalDamage};
ghost use Rattle.mx_row_questions.specs.lists.Damage.{ListDamage};
ghost use Rattle.mx_row_questions.specs.lists.Listing.{unknown, HasKind, LifeAnswered};
ghost use Rattle.mx_office.specs.Looks.{Finds, IsFound, LooksUp};

use mx_base::Use;
use mx_book::Refusal;
use mx_book::commands::{Command, Item};
use mx_layout::TableFault;
use mx_lists::{Question, Report};
use mx_row_questions::entries::entries::entries;
use mx_row_questions::lists::listing::{life, list_rows};
use sqlite::{Alter, Connection};
use std::alloc::Global;

/// The list that a question asks for, of an aircraft or of all.
pub(crate) fn list_found<S: Alter>(
    alloc: Global,
    conn: &mut Connection<S>,
    question: &Question,
) -> Result<Result<Report, Refusal>, TableFault>
    requires { conn.old.in_transaction ≡ false }
    ensures idle { conn.new.in_transaction ≡ false }
    ensures finds { Finds Refusal.UnknownAircraft (λ book. report_of book question.now)
        (state S.Store conn.old) (state S.Store conn.new) result }
    ensures damage { TellsDamage ListDamage
        (state S.Store conn.old) (state S.Store conn.new) result }
    ensures kind { HasKind question.now result }
{
    let mut tx = conn.transaction();
    list_rows(alloc, &mut tx, question)
}

/// The life of an item with all of its sectors.
pub(crate) fn life_found<S: Alter>(
    alloc: Global,
    conn: &mut Connection<S>,
    item: &Item,
) -> Result<Result<Use, Refusal>, TableFault>
    requires { conn.old.in_transaction ≡ false }
    ensures idle { conn.new.in_transaction ≡ false }
    ensures looks { LooksUp (IsFound (unknown item.now) (λ book. life_now book item.now))
        (LifeAnswered item.now) IsDamaged (state S.Store conn.old) (state S.Store conn.new) result }
    ensures damage { TellsDamage (TotalDamage item.now)
        (state S.Store conn.old) (state S.Store conn.new) result }
{
    let mut tx = conn.transaction();
    life(alloc, &mut tx, item)
}

/// The first commands, at most so many, of those whose number is at least this one, in their order.
pub(crate) fn entries_found<S: Alter>(
    alloc: Global,
    conn: &mut Connection<S>,
    from: u32,
    at_most: u32,
) -> Result<Vec<Command>, TableFault>
    requires { conn.old.in_transaction ≡ false }
    ensures idle { conn.new.in_transaction ≡ false }
    ensures looks { LooksUp (λ book found. found.items ≡ entries_from from at_most book)
        (λ trees found. AreEntries from at_most trees found.items)
        (λ table trees. IsDamaged table trees ⊎ IsSkipped table trees)
        (state S.Store conn.old) (state S.Store conn.new) result }
{
    let mut tx = conn.transaction();
    entries(alloc, &mut tx, from, at_most)
}
