//! Judging the deferral of a defect, and the extension of its interval.
ghost use Rattle.std.specs.Prelude.{◌≡◌, ℕ, pos, nat_le, nat_lt, length, false, is_some, List, Some, None, if◌then◌else◌};
ghost use Rattle.mx_book.specs.commands.Act.{Entry, Deferred, Extended};
ghost use Rattle.mx_book.specs.Defect.{defect as defect_by, days_extended, is_rectified, extension as extension_by, last_permitted};
ghost use Rattle.mx_book.specs.Judge.{refusals, first_of};
ghost use Rattle.mx_book.specs.Reading.{Answers};
ghost use Rattle.mx_book.specs.declared.limits.TheConstants.{MOST_ENTRIES};

use crate::commands::{Deferral, Extension, Item};
use crate::defects::{Defect, has_stated_days, interval_of, last_day_with};
use crate::limits::MOST_ENTRIES;
use crate::{Records, Refusal};
use mx_base::{Day, Doc, day_of};

/// The days by which the interval of a defect was extended.
pub fn extension_days<R: Records>(records: &mut R, doc: &Doc) -> Result<u32, R::Fault>
    ensures { Answers R.reading records.old records.new result
        (λ book. days_extended book doc.now) }
{
    match records.extension(doc)? {
        Some(extension) => Ok(extension.days),
        None => Ok(0),
    }
}

// The last day on which a defect may be open, by its number, which may be past the last of the calendar.
fn last_day_of<R: Records>(records: &mut R, defect: &Defect) -> Result<i64, R::Fault>
    ensures { Answers R.reading records.old records.new result
        (λ book. pos (last_permitted book defect.now)) }
{
    let days = extension_days(records, &defect.doc)?;
    Ok(last_day_with(defect, days))
}

/// Why a defect is not deferred.
pub(crate) fn refusal_of_deferral<R: Records>(
    records: &mut R,
    deferral: &Deferral,
) -> Result<Option<Refusal>, R::Fault>
    ensures { Answers R.reading records.old records.new result
        (λ book. first_of (refusals book (Deferred deferral.now))) }
{
    if records.entry_count()? >= MOST_ENTRIES {
        return Ok(Some(Refusal::Full));
    }
    if records.aircraft(&deferral.tail)?.is_none() {
        return Ok(Some(Refusal::UnknownAircraft));
    }
    let clock = records.clock(&Item::Airframe(deferral.tail))?;
    if deferral.moment < clock {
        Ok(Some(Refusal::OutOfOrder(clock)))
    } else {
        Ok(None)
    }
}

// The day with a number, where another day is after it.
fn passed(last: i64, day: Day) -> Option<Day>
    ensures { (n : ℕ) → last ≡ pos n → result ≡ (if nat_lt n day then Some n else None) }
{
    if last < i64::from(day.number()) {
        Day::of_number(u32::try_from(last).ok()?)
    } else {
        None
    }
}

// Why the interval of this defect is not extended, where there is room for an entry: by whether it was rectified, whether
// its interval was extended, and the last day on which it may be open.
fn refusal_by_defect(
    extension: &Extension,
    defect: &Defect,
    rectified: bool,
    extended: bool,
    last: i64,
) -> Option<Refusal>
    ensures { (book : List Entry) → nat_le MOST_ENTRIES (length book) ≡ false
        → Some defect.now ≡ defect_by book extension.now.defect
        → rectified ≡ is_rectified book extension.now.defect
        → extended ≡ is_some (extension_by book extension.now.defect)
        → last ≡ pos (last_permitted book defect.now)
        → result ≡ first_of (refusals book (Extended extension.now)) }
{
    if rectified {
        return Some(Refusal::DefectClosed);
    }
    if extension.day < day_of(defect.deferral.moment) {
        return Some(Refusal::OutOfOrder(defect.deferral.moment));
    }
    if has_stated_days(&defect.deferral.category) {
        return Some(Refusal::NotExtendable);
    }
    if extended {
        return Some(Refusal::AlreadyExtended);
    }
    let most = interval_of(&defect.deferral.category);
    if most < extension.days {
        return Some(Refusal::ExtensionTooLong(most));
    }
    match passed(last, extension.day) {
        Some(last) => Some(Refusal::IntervalEnded(last)),
        None => None,
    }
}

/// Why the interval of a defect is not extended.
pub(crate) fn refusal_of_extension<R: Records>(
    records: &mut R,
    extension: &Extension,
) -> Result<Option<Refusal>, R::Fault>
    ensures { Answers R.reading records.old records.new result
        (λ book. first_of (refusals book (Extended extension.now))) }
{
    if records.entry_count()? >= MOST_ENTRIES {
        return Ok(Some(Refusal::Full));
    }
    let Some(defect) = records.defect(&extension.defect)? else {
        return Ok(Some(Refusal::UnknownDefect));
    };
    let rectified = records.is_rectified(&extension.defect)?;
    let extended = records.extension(&extension.defect)?.is_some();
    let last = last_day_of(records, &defect)?;
    Ok(refusal_by_defect(extension, &defect, rectified, extended, last))
}
