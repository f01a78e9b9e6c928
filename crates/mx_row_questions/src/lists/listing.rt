//! The list that a question asks for, of an aircraft or of all, and the life of an item, asked inside a transaction.
ghost use Rattle.std.specs.Prelude.{◌≡◌, ⊤, ok_or};
ghost use Rattle.mx_book.specs.Life.{life_now};
ghost use Rattle.mx_book.specs.declared.verdict.Refusal.TheVariants.{UnknownAircraft};
ghost use Rattle.mx_lists.specs.Report.{report_of};
ghost use Rattle.mx_lookups.specs.numbers.LookUp.{IsLookUp};
ghost use Rattle.mx_lookups.specs.numbers.Told.{TotalDamage};
ghost use Rattle.mx_row_judge.specs.Answering.{AnswerListsAs};
ghost use Rattle.mx_row_judge.specs.Damage.{ListDamage};
ghost use Rattle.mx_row_judge.specs.View.{Asks};
ghost use Rattle.mx_row_questions.specs.lists.Listing.{answered, unknown, HasKind, LifeAnswered, ListOf};

use mx_base::Use;
use mx_book::Refusal;
use mx_book::commands::Item;
use mx_layout::TableFault;
use mx_lists::{Question, Report, Stop, list_report};
use mx_lookups::lives::lives;
use mx_lookups::numbers::entries::entry_count;
use mx_lookups::numbers::items::aircraft_number;
use mx_row_judge::questions::ListQuestions;
use mx_row_judge::view::Rows;
use sqlite::{Alter, Transaction};
use std::alloc::Global;

// What is answered where this was listed: without a list the aircraft is unknown, and want of memory is one of the faults of
// look-ups.
fn answered(
    list: Result<Option<Report>, Stop<TableFault>>,
) -> Result<Result<Report, Refusal>, TableFault>
    ensures { result ≡ answered list }
{
    match list {
        Ok(Some(list)) => Ok(Ok(list)),
        Ok(None) => Ok(Err(Refusal::UnknownAircraft)),
        Err(Stop::NoMemory) => Err(TableFault::Memory),
        Err(Stop::Fault(fault)) => Err(fault),
    }
}

// What is asked before the list: for the aircraft that the question names, or for the last entry where it names none.
fn ask_first<S: Alter>(
    alloc: Global,
    tx: &mut Transaction<'_, S>,
    question: &Question,
) -> Result<(), TableFault>
    ensures looks_up { IsLookUp S.Store (λ book asked. ⊤) (λ trees asked. ⊤) ListDamage
        tx.old tx.new result }
{
    match question.tail() {
        Some(tail) => {
            aircraft_number(alloc, tx, tail)?;
            Ok(())
        }
        None => {
            entry_count(alloc, tx)?;
            Ok(())
        }
    }
}

/// The list that a question asks for, by the rows that a transaction shows: `Err(UnknownAircraft)` where no aircraft has the
/// registration that it names. It asks for that aircraft, and then what the list asks, each by the rows that have what is
/// asked for: a row that no question finds is not looked at.
pub fn list_rows<S: Alter>(
    alloc: Global,
    tx: &mut Transaction<'_, S>,
    question: &Question,
) -> Result<Result<Report, Refusal>, TableFault>
    ensures looks_up { IsLookUp S.Store
        (λ book answer. answer ≡ ok_or (report_of book question.now) UnknownAircraft)
        (ListOf (λ book. report_of book question.now))
        ListDamage
        tx.old tx.new result }
    ensures kind { HasKind question.now result }
{
    ask_first(alloc, tx, question)?;
    let mut rows = Rows {
        alloc,
        tx,
        questions: ListQuestions,
    };
    answered(list_report(&mut rows, alloc, question))
}

// Why an item is unknown.
fn unknown_of(item: &Item) -> Refusal
    ensures { result ≡ unknown item.now }
{
    match item {
        Item::Airframe(_) => Refusal::UnknownAircraft,
        Item::Component(_) => Refusal::UnknownComponent,
    }
}

/// The life of an item with all of its sectors: `Err(UnknownAircraft)` or `Err(UnknownComponent)` where the item is unknown.
pub fn life<S: Alter>(
    alloc: Global,
    tx: &mut Transaction<'_, S>,
    item: &Item,
) -> Result<Result<Use, Refusal>, TableFault>
    ensures looks_up { IsLookUp S.Store
        (λ book answer. answer ≡ ok_or (life_now book item.now) (unknown item.now))
        (LifeAnswered item.now)
        (TotalDamage item.now)
        tx.old tx.new result }
{
    let life = lives::life(alloc, tx, item)?;
    Ok(life.ok_or(unknown_of(item)))
}
