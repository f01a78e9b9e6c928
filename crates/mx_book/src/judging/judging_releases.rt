//! Judging a release: what there is against its place and each of its lines is gathered, and then judged.
ghost use Rattle.std.specs.Prelude.{◌≡◌, ◌&&◌, List, not, ℕ};
ghost use Rattle.std.specs.List.{list_any};
ghost use Rattle.mx_book.specs.Judge.{fitted_in_shop, is_of_other_aircraft, refusals, first_of};
ghost use Rattle.mx_book.specs.Defect.{defect as defect_by};
ghost use Rattle.mx_book.specs.commands.Act.{Entry, Released};
ghost use Rattle.mx_book.specs.commands.Bounds.{are_distinct};
ghost use Rattle.mx_book.specs.commands.Same.{same_line};
ghost use Rattle.mx_book.specs.Reading.{Answers};
ghost use Rattle.mx_book.specs.Asking.{task_by};
ghost use Rattle.mx_book.specs.Facts.{is_applied, has_no_repeat, is_retiring, work_facts, rectified_facts, line_facts, lines_facts, place_facts, release_refusals};

use crate::commands::{Item, Line, Place, Release, Task};
use crate::defects::Defect;
use crate::facts::{LineFacts, PlaceFacts};
use crate::found::{is_task_of, item_of_place, kind_of_place};
use crate::judging::facts::{either, no_facts};
use crate::judging::judging_items::{
    found_of, is_item_at, is_unknown_airframe, is_unknown_component,
};
use crate::limits::MOST_ENTRIES;
use crate::{Records, Refusal};
use mx_base::{Doc, Kind, TaskId};

// The task with a name in the programme of a kind, where there is a kind.
fn task_by<R: Records>(
    records: &mut R,
    kind: &Option<Kind>,
    id: &TaskId,
) -> Result<Option<Option<Task>>, R::Fault>
    ensures { Answers R.reading records.old records.new result
        (λ book. task_by book kind.now id.now) }
{
    match kind {
        Some(kind) => records.task(kind, id),
        None => Ok(None),
    }
}

// Whether the task that was found applies to the item.
fn is_applicable<R: Records>(
    records: &mut R,
    item: &Item,
    task: &Option<Option<Task>>,
) -> Result<bool, R::Fault>
    ensures { Answers R.reading records.old records.new result
        (λ book. is_applied book item.now task.now) }
{
    match task {
        Some(Some(task)) => Ok(is_task_of(&found_of(records, item)?, task)),
        _ => Ok(false),
    }
}

// Whether the task that was found has no repeat, or none was found.
fn is_without_repeat(task: &Option<Option<Task>>) -> bool
    ensures { result ≡ has_no_repeat task.now }
{
    match task {
        Some(Some(task)) => task.repeat.is_none(),
        _ => true,
    }
}

// Whether a task that was accomplished, or not, has no repeat that was found.
fn is_closed(accomplished: bool, task: &Option<Option<Task>>) -> bool
    ensures { result ≡ accomplished && has_no_repeat task.now }
{
    accomplished && is_without_repeat(task)
}

// Whether the task that was found retires its item.
fn is_retirement(task: &Option<Option<Task>>) -> bool
    ensures { result ≡ is_retiring task.now }
{
    match task {
        Some(Some(task)) => task.retire,
        _ => false,
    }
}

// What there is against a line that certifies work on an item.
fn facts_of_work<R: Records>(
    records: &mut R,
    place: &Place,
    kind: &Option<Kind>,
    item: &Item,
    id: &TaskId,
) -> Result<LineFacts, R::Fault>
    ensures { Answers R.reading records.old records.new result
        (λ book. work_facts book place.now item.now id.now (task_by book kind.now id.now)) }
{
    let unknown_aircraft = is_unknown_airframe(records, item)?;
    let unknown_component = is_unknown_component(records, item)?;
    let task = task_by(records, kind, id)?;
    let applies = is_applicable(records, item, &task)?;
    let present = is_item_at(records, place, item)?;
    let accomplished = records.is_accomplished(item, id)?;
    Ok(LineFacts {
        unknown_aircraft,
        unknown_component,
        without_programme: task.is_none(),
        unknown_task: !applies,
        unknown_defect: false,
        item_elsewhere: !present,
        closed_task: is_closed(accomplished, &task),
        retirement: is_retirement(&task),
        closed_defect: false,
        other_aircraft: false,
    })
}

// Whether a defect is of another aircraft than the one at a place, or the place is a shop.
fn is_elsewhere(place: &Place, defect: &Option<Defect>) -> bool
    ensures { (book : List Entry) (doc : List ℕ) → defect.now ≡ defect_by book doc
        → result ≡ is_of_other_aircraft book place.now doc }
{
    match place {
        Place::Aircraft(tail) => match defect {
            Some(defect) => defect.deferral.tail != *tail,
            None => false,
        },
        Place::Shop(_, _) => true,
    }
}

// What there is against a line that certifies that a defect was rectified.
fn facts_of_rectified<R: Records>(
    records: &mut R,
    place: &Place,
    doc: &Doc,
) -> Result<LineFacts, R::Fault>
    ensures { Answers R.reading records.old records.new result
        (λ book. rectified_facts book place.now doc.now) }
{
    let defect = records.defect(doc)?;
    let rectified = records.is_rectified(doc)?;
    Ok(LineFacts {
        unknown_defect: defect.is_none(),
        closed_defect: rectified,
        other_aircraft: is_elsewhere(place, &defect),
        ..no_facts()
    })
}

// What there is against a line.
fn facts_of_line<R: Records>(
    records: &mut R,
    place: &Place,
    kind: &Option<Kind>,
    line: &Line,
) -> Result<LineFacts, R::Fault>
    ensures { Answers R.reading records.old records.new result
        (λ book. line_facts book place.now kind.now line.now) }
{
    match line {
        Line::Done(item, id) => facts_of_work(records, place, kind, item, id),
        Line::Rectified(doc) => facts_of_rectified(records, place, doc),
    }
}

// What there is against some lines.
fn facts_of_lines<R: Records>(
    records: &mut R,
    place: &Place,
    kind: &Option<Kind>,
    lines: &[Line],
) -> Result<LineFacts, R::Fault>
    ensures { Answers R.reading records.old records.new result
        (λ book. lines_facts book place.now kind.now lines.now) }
{
    let mut all = no_facts();
    let mut rest = lines;
    while let Some((line, later)) = rest.split_first() {
        let facts = facts_of_line(records, place, kind, line)?;
        all = either(&all, &facts);
        rest = later;
    }
    Ok(all)
}

// ── the place ──

// Whether a place is a shop, and its component is fitted to an aircraft.
fn is_shop_of_fitted<R: Records>(records: &mut R, place: &Place) -> Result<bool, R::Fault>
    ensures { Answers R.reading records.old records.new result
        (λ book. fitted_in_shop book place.now) }
{
    match place {
        Place::Aircraft(_) => Ok(false),
        Place::Shop(serial, _) => Ok(records.tail_fitted(serial)?.is_some()),
    }
}

// What there is against a place.
fn facts_of_place<R: Records>(records: &mut R, place: &Place) -> Result<PlaceFacts, R::Fault>
    ensures { Answers R.reading records.old records.new result
        (λ book. place_facts book place.now) }
{
    let item = item_of_place(place);
    Ok(PlaceFacts {
        unknown_aircraft: is_unknown_airframe(records, &item)?,
        unknown_component: is_unknown_component(records, &item)?,
        kind: kind_of_place(place, &found_of(records, &item)?),
        fitted_in_shop: is_shop_of_fitted(records, place)?,
        clock: records.clock(&item)?,
    })
}

// ── the release ──

// Whether a line is among others.
#[tactic(auto, using(crate::proofs::CommandsProofs::SameLemmas::line_is))]
fn is_line_among(line: &Line, others: &[Line]) -> bool
    ensures { result ≡ list_any (same_line line.now) others.now }
{
    others.iter().any(|other| *line == *other)
}

// Whether two of some lines are equal.
fn have_line_twice(lines: &[Line]) -> bool
    ensures { result ≡ not (are_distinct same_line lines.now) }
{
    let mut rest = lines;
    while let Some((line, later)) = rest.split_first() {
        if is_line_among(line, later) {
            return true;
        }
        rest = later;
    }
    false
}

// Why a release is not entered, by what there is against its place and its lines, where there is room for an entry.
fn refusal_by_facts(
    release: &Release,
    lines: &[Line],
    at: &PlaceFacts,
    facts: &LineFacts,
) -> Option<Refusal>
    ensures { result ≡ first_of (release_refusals at.now facts.now release.now.moment lines.now) }
{
    if at.unknown_aircraft || facts.unknown_aircraft {
        return Some(Refusal::UnknownAircraft);
    }
    if at.unknown_component || facts.unknown_component {
        return Some(Refusal::UnknownComponent);
    }
    if facts.without_programme {
        return Some(Refusal::UnknownProgramme);
    }
    if facts.unknown_task {
        return Some(Refusal::UnknownTask);
    }
    if facts.unknown_defect {
        return Some(Refusal::UnknownDefect);
    }
    if at.fitted_in_shop {
        return Some(Refusal::AlreadyFitted);
    }
    if facts.item_elsewhere {
        return Some(Refusal::ItemElsewhere);
    }
    if facts.closed_task {
        return Some(Refusal::TaskClosed);
    }
    if facts.retirement {
        return Some(Refusal::LifeLimit);
    }
    if facts.closed_defect {
        return Some(Refusal::DefectClosed);
    }
    if release.moment < at.clock {
        return Some(Refusal::OutOfOrder(at.clock));
    }
    if facts.other_aircraft {
        return Some(Refusal::OtherAircraft);
    }
    if have_line_twice(lines) {
        return Some(Refusal::RepeatedLine);
    }
    None
}

/// Why a release is not entered.
pub(crate) fn refusal_of_release<R: Records>(
    records: &mut R,
    release: &Release,
    lines: &[Line],
) -> Result<Option<Refusal>, R::Fault>
    ensures { Answers R.reading records.old records.new result
        (λ book. first_of (refusals book (Released release.now lines.now))) }
{
    if records.entry_count()? >= MOST_ENTRIES {
        return Ok(Some(Refusal::Full));
    }
    let at = facts_of_place(records, &release.place)?;
    let facts = facts_of_lines(records, &release.place, &at.kind, lines)?;
    Ok(refusal_by_facts(release, lines, &at, &facts))
}
