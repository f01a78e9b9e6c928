//! The limits of an aircraft: the last day of each of its open defects.
ghost use Rattle.std.specs.Prelude.{◌≡◌, map, List};
ghost use Rattle.mx_book.specs.commands.Act.{Entry};
ghost use Rattle.mx_book.specs.Defect.{days_extended};
ghost use Rattle.mx_lists.specs.LimitList.{limit_before, limit_row, limits};
ghost use Rattle.mx_lists.specs.Memory.{Gathers, seen_as};
ghost use Rattle.mx_lists.specs.Ranks.{limits_rank};

use crate::list_questions::{aircraft_of, days_of_extension};
use crate::list_records::ListRecords;
use crate::order::{Placed, Rows, sorted};
use crate::stop::Stop;
use mx_base::{Day, Doc, MelRef, Status, Tail, day_of};
use mx_book::defects::{Defect, category_letter, last_day_with};
use mx_book::due::status_by;
use std::alloc::Global;

/// An open defect, and how long it may stay open.
#[derive(Clone, Copy, Debug, PartialEq, Eq)]
pub struct LimitRow {
    /// How it stands: there is no tolerance.
    pub status: Status,
    /// The document by which it was deferred.
    pub doc: Doc,
    /// The letter of its category.
    pub letter: char,
    /// The item of the minimum equipment list that allows to defer it.
    pub reference: MelRef,
    /// The day on which it was found.
    pub found: Day,
    /// The days by which its interval was extended, 0 where it was not.
    pub extension: u32,
    /// The last day on which it may be open, by its number, which may be past the last of the calendar.
    pub last: i64,
    /// The days that are left until then: negative once it is passed.
    pub left: i64,
}

impl Placed for LimitRow {
    ghost before = { limit_before };

    ghost ranks = { limits_rank };

    fn before(&self, other: &LimitRow) -> bool {
        self.last < other.last
    }
}

/// The open defects of an aircraft on a day, by their last days.
#[derive(Debug, Drop, PartialEq, Eq)]
pub struct LimitList {
    /// The registration of the aircraft.
    pub tail: Tail,
    /// The day that the list is for.
    pub day: Day,
    /// Its open defects; those of one last day in the order of their entries.
    pub rows: Rows<LimitRow>,
}

/// The limit of an open defect whose interval was extended by so many days.
pub(crate) fn limit_of_defect(day: Day, defect: &Defect, days: u32) -> LimitRow
    ensures { (book : List Entry) → days ≡ days_extended book defect.now.doc
        → result ≡ limit_row book day defect.now }
{
    let last = last_day_with(defect, days);
    let left = last - i64::from(day.number());
    LimitRow {
        status: status_by(0, left),
        doc: defect.doc,
        letter: category_letter(&defect.deferral.category),
        reference: defect.deferral.reference,
        found: day_of(defect.deferral.moment),
        extension: days,
        last,
        left,
    }
}

// The limits of defects, in their order.
fn limits_of_defects<R: ListRecords>(
    records: &mut R,
    alloc: Global,
    day: Day,
    defects: &[Defect],
) -> Result<Vec<LimitRow>, Stop<R::Fault>>
    ensures { Gathers R.reading records.old records.new
        (seen_as (λ rows. rows.items) result) (λ book. map (limit_row book day) defects.now) }
{
    let mut rows = Vec::new(alloc);
    let mut rest = defects;
    while let Some((defect, later)) = rest.split_first() {
        let days = days_of_extension(records, &defect.doc)?;
        rows.push(limit_of_defect(day, defect, days))?;
        rest = later;
    }
    Ok(rows)
}

/// The limits of an aircraft on a day, or `None` where the registration is unknown. Or why it stopped: memory ran out, or
/// a question was not answered.
pub fn list_limits<R: ListRecords>(
    records: &mut R,
    alloc: Global,
    tail: &Tail,
    day: Day,
) -> Result<Option<LimitList>, Stop<R::Fault>>
    ensures { Gathers R.reading records.old records.new result (λ book. limits book tail.now day) }
{
    if aircraft_of(records, tail)?.is_none() {
        return Ok(None);
    }
    let open = records.open_defects(alloc, tail)?;
    let limits = limits_of_defects(records, alloc, day, open.as_slice())?;
    let rows = sorted(limits)?;
    Ok(Some(LimitList {
        tail: *tail,
        day,
        rows,
    }))
}
