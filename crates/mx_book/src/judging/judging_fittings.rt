//! Judging where a component is fitted, and its removal.
ghost use Rattle.std.specs.Prelude.{◌≡◌, List, Some, false, length, nat_le};
ghost use Rattle.mx_book.specs.commands.Act.{Entry, Fitted, Removed};
ghost use Rattle.mx_book.specs.Judge.{refusals, first_of};
ghost use Rattle.mx_book.specs.Register.{aircraft as aircraft_by, component as component_by, part_at};
ghost use Rattle.mx_book.specs.Facts.{fitting_facts};
ghost use Rattle.mx_book.specs.Reading.{Answers};
ghost use Rattle.mx_book.specs.declared.limits.TheConstants.{MOST_ENTRIES};

use crate::commands::{Aircraft, Component, Fitting, Item, Removal};
use crate::facts::FittingFacts;
use crate::limits::MOST_ENTRIES;
use crate::{Records, Refusal};
use mx_base::{Kind, Part, day_of};

// What there is against a fitting to an aircraft of a kind.
fn facts_of_fitting<R: Records>(
    records: &mut R,
    fitting: &Fitting,
    kind: &Kind,
) -> Result<FittingFacts, R::Fault>
    ensures { Answers R.reading records.old records.new result
        (λ book. fitting_facts book kind.now fitting.now) }
{
    let item = Item::Component(fitting.serial);
    let taken = records.is_taken(&fitting.tail, &fitting.position)?;
    let fitted = records.tail_fitted(&fitting.serial)?.is_some();
    let retired = records.is_retired(kind, &item, day_of(fitting.moment))?;
    let airframe = records.clock(&Item::Airframe(fitting.tail))?;
    let clock = airframe.max(records.clock(&item)?);
    Ok(FittingFacts {
        taken,
        fitted,
        retired,
        clock,
    })
}

// Why a component is not fitted to a position that takes this part, where there is room for an entry.
fn refusal_by_facts(
    fitting: &Fitting,
    aircraft: &Aircraft,
    component: &Component,
    part: &Part,
    facts: &FittingFacts,
) -> Option<Refusal>
    ensures { (book : List Entry) → nat_le MOST_ENTRIES (length book) ≡ false
        → Some aircraft.now ≡ aircraft_by book fitting.now.tail
        → Some component.now ≡ component_by book fitting.now.serial
        → Some part.now ≡ part_at book fitting.now.tail fitting.now.position
        → facts.now ≡ fitting_facts book aircraft.now.kind fitting.now
        → result ≡ first_of (refusals book (Fitted fitting.now)) }
{
    if facts.taken {
        return Some(Refusal::PositionTaken);
    }
    if facts.fitted {
        return Some(Refusal::AlreadyFitted);
    }
    if component.part != *part {
        return Some(Refusal::WrongPart);
    }
    if facts.retired {
        return Some(Refusal::LifeLimit);
    }
    if fitting.moment < facts.clock {
        Some(Refusal::OutOfOrder(facts.clock))
    } else {
        None
    }
}

/// Why a component is not fitted.
pub(crate) fn refusal_of_fitting<R: Records>(
    records: &mut R,
    fitting: &Fitting,
) -> Result<Option<Refusal>, R::Fault>
    ensures { Answers R.reading records.old records.new result
        (λ book. first_of (refusals book (Fitted fitting.now))) }
{
    if records.entry_count()? >= MOST_ENTRIES {
        return Ok(Some(Refusal::Full));
    }
    let Some(aircraft) = records.aircraft(&fitting.tail)? else {
        return Ok(Some(Refusal::UnknownAircraft));
    };
    let Some(component) = records.component(&fitting.serial)? else {
        return Ok(Some(Refusal::UnknownComponent));
    };
    let Some(part) = records.part_at(&fitting.tail, &fitting.position)? else {
        return Ok(Some(Refusal::UnknownPosition));
    };
    let facts = facts_of_fitting(records, fitting, &aircraft.kind)?;
    Ok(refusal_by_facts(fitting, &aircraft, &component, &part, &facts))
}

/// Why a component is not removed.
pub(crate) fn refusal_of_removal<R: Records>(
    records: &mut R,
    removal: &Removal,
) -> Result<Option<Refusal>, R::Fault>
    ensures { Answers R.reading records.old records.new result
        (λ book. first_of (refusals book (Removed removal.now))) }
{
    if records.entry_count()? >= MOST_ENTRIES {
        return Ok(Some(Refusal::Full));
    }
    if records.component(&removal.serial)?.is_none() {
        return Ok(Some(Refusal::UnknownComponent));
    }
    let Some(tail) = records.tail_fitted(&removal.serial)? else {
        return Ok(Some(Refusal::NotFitted));
    };
    let airframe = records.clock(&Item::Airframe(tail))?;
    let clock = airframe.max(records.clock(&Item::Component(removal.serial))?);
    if removal.moment < clock {
        Ok(Some(Refusal::OutOfOrder(clock)))
    } else {
        Ok(None)
    }
}
