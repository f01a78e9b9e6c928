//! Judging the revision of a programme that is loaded, and the task of an item that is opened.
ghost use Rattle.std.specs.Prelude.{◌≡◌, List, Some, false, is_none, length, nat_le};
ghost use Rattle.std.specs.List.{list_any};
ghost use Rattle.mx_book.specs.commands.Act.{Entry, Loaded, Opened};
ghost use Rattle.mx_book.specs.declared.commands.programme.Task.{Task};
ghost use Rattle.mx_book.specs.declared.commands.opening.Opening.{Opening};
ghost use Rattle.mx_book.specs.Register.{aircraft, component, found_of};
ghost use Rattle.mx_book.specs.Judge.{item_tails, item_serials, opening_too_late, opening_too_large, refusals, first_of};
ghost use Rattle.mx_book.specs.Asking.{task_of};
ghost use Rattle.mx_book.specs.Facts.{opening_facts};
ghost use Rattle.mx_book.specs.Reading.{Answers};
ghost use Rattle.mx_book.specs.declared.limits.TheConstants.{MOST_ENTRIES};

use crate::commands::{Opening, Programme, Task};
use crate::facts::OpeningFacts;
use crate::found::{Found, as_of, is_other_aircraft, is_task_of, opening_use};
use crate::judging::judging_items::{found_of, is_unknown_airframe, is_unknown_component};
use crate::limits::MOST_ENTRIES;
use crate::{Records, Refusal};
use mx_base::day_of;

/// Why a programme is not loaded.
pub(crate) fn refusal_of_programme<R: Records>(
    records: &mut R,
    programme: &Programme,
) -> Result<Option<Refusal>, R::Fault>
    ensures { (tasks : List Task) → Answers R.reading records.old records.new result
        (λ book. first_of (refusals book (Loaded programme.now tasks))) }
{
    if records.entry_count()? >= MOST_ENTRIES {
        return Ok(Some(Refusal::Full));
    }
    let expected = records.next_revision(&programme.kind)?;
    if programme.revision == expected {
        Ok(None)
    } else {
        Ok(Some(Refusal::WrongRevision(expected)))
    }
}

// Whether an opening has more use than its item brought with it.
fn is_too_large(found: &Found, opening: &Opening) -> bool
    ensures { (book : List Entry) → found.now ≡ found_of book opening.now.item
        → result ≡ opening_too_large book (Opened opening.now) }
{
    match opening_use(found) {
        Some(most) => {
            most.minutes < opening.use_then.minutes || most.cycles < opening.use_then.cycles
        }
        None => false,
    }
}

// Whether the day of an opening is after that of its item's own opening.
fn is_too_late(found: &Found, opening: &Opening) -> bool
    ensures { (book : List Entry) → found.now ≡ found_of book opening.now.item
        → result ≡ opening_too_late book (Opened opening.now) }
{
    day_of(as_of(found)) < opening.day
}

// What there is against the opening of this task.
fn facts_of_opening<R: Records>(
    records: &mut R,
    opening: &Opening,
    task: &Task,
) -> Result<OpeningFacts, R::Fault>
    ensures { Answers R.reading records.old records.new result
        (λ book. opening_facts book opening.now task.now) }
{
    let found = found_of(records, &opening.item)?;
    Ok(OpeningFacts {
        applies: is_task_of(&found, task),
        accomplished: records.is_accomplished(&opening.item, &opening.task)?,
        other_kind: is_other_aircraft(&found, &opening.kind),
        too_late: is_too_late(&found, opening),
        too_large: is_too_large(&found, opening),
    })
}

// Why this task is not opened on a known item, where there is room for an entry.
fn refusal_by_facts(task: &Task, facts: &OpeningFacts) -> Option<Refusal>
    ensures { (book : List Entry) (o : Opening) → nat_le MOST_ENTRIES (length book) ≡ false
        → false ≡ list_any (λ tail. is_none (aircraft book tail)) (item_tails o.item)
        → false ≡ list_any (λ serial. is_none (component book serial)) (item_serials o.item)
        → Some (Some task.now) ≡ task_of book o.kind o.task
        → facts.now ≡ opening_facts book o task.now
        → result ≡ first_of (refusals book (Opened o)) }
{
    if !facts.applies {
        return Some(Refusal::UnknownTask);
    }
    if facts.accomplished {
        return Some(Refusal::TaskClosed);
    }
    if task.retire {
        return Some(Refusal::LifeLimit);
    }
    if facts.other_kind {
        return Some(Refusal::OtherAircraft);
    }
    if facts.too_late {
        return Some(Refusal::OpeningTooLate);
    }
    if facts.too_large {
        return Some(Refusal::OpeningTooLarge);
    }
    None
}

/// Why a task is not opened.
pub(crate) fn refusal_of_opening<R: Records>(
    records: &mut R,
    opening: &Opening,
) -> Result<Option<Refusal>, R::Fault>
    ensures { Answers R.reading records.old records.new result
        (λ book. first_of (refusals book (Opened opening.now))) }
{
    if records.entry_count()? >= MOST_ENTRIES {
        return Ok(Some(Refusal::Full));
    }
    if is_unknown_airframe(records, &opening.item)? {
        return Ok(Some(Refusal::UnknownAircraft));
    }
    if is_unknown_component(records, &opening.item)? {
        return Ok(Some(Refusal::UnknownComponent));
    }
    let Some(found) = records.task(&opening.kind, &opening.task)? else {
        return Ok(Some(Refusal::UnknownProgramme));
    };
    let Some(task) = found else {
        return Ok(Some(Refusal::UnknownTask));
    };
    let facts = facts_of_opening(records, opening, &task)?;
    Ok(refusal_by_facts(&task, &facts))
}
