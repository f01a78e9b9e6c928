//! Accomplishments that can be written to their table, `done3`.
//!
//! A `Base` counts days also past the calendar, since limits are added to it, and a column holds a day of the calendar.
//! So a row that is read has been tested, and one that is written is tested before, and holds that it was.

ghost use Rattle.std.specs.Prelude.{◌≡◌, ◌≤◌, ◌↔◌, IsSome, IfSome};
ghost use Rattle.mx_base.specs.Calendar.{last_day};

use crate::prelude::*;
use mx_base::days::LAST_DAY;
use std::marker::Model;

/// The row of an accomplishment, of which both days are in the calendar. Contracts see it as that row.
#[derive(Clone, Copy, Debug, PartialEq, Eq)]
pub struct DatedRow {
    row: DoneRow,
}

impl Model for DatedRow {
    ghost use Rattle.std.specs.Prelude.{◌≤◌};
    ghost use Rattle.mx_base.specs.Calendar.{last_day};
    ghost use Rattle.mx_base.specs.declared.rows.rows.DoneRow.{DoneRow};

    ghost Value = { DoneRow };

    ghost view = { λ dated. dated.row };

    ghost invariant = { λ dated.
        (dated.row.value.day ≤ last_day) × (dated.row.base.day ≤ last_day) };

    ghost inverse = { λ row. record { row = row } };
}

impl DatedRow {
    /// The row, or `None` where a day is past the calendar.
    pub fn of(row: DoneRow) -> Option<DatedRow>
        ensures some { IsSome result ↔ ((row.value.day ≤ last_day) × (row.base.day ≤ last_day)) }
        ensures value { IfSome result (λ dated. dated ≡ row) }
    {
        if row.value.day > LAST_DAY || row.base.day > LAST_DAY {
            return None;
        }
        Some(DatedRow { row })
    }

    /// The row itself.
    pub fn row(self) -> DoneRow
        ensures value { result ≡ self }
        ensures bound { (self.value.day ≤ last_day) × (self.base.day ≤ last_day) }
    {
        self.row
    }
}

// The table `done3`, by rows that were tested.
impl Stored for DatedRow {
    ghost use Rattle.mx_layout.{specs.kept.Cells.kept_done3, proofs.KeptProofs.MovedLawful.done3_lawful};

    ghost kept = { kept_done3 };

    ghost lawful = { done3_lawful };

    fn texts() -> Texts {
        DoneRow::texts()
    }

    fn read(row: &Row) -> Option<DatedRow> {
        let read = DoneRow::read(row)?;
        Some(DatedRow { row: read })
    }
}

impl Insert for DatedRow {
    fn insert<S: Alter>(&self, tx: &mut Transaction<'_, S>) -> Result<(), TableFault> {
        let row = self.row();
        insert_columns!(self, tx:
            row.item, row.task.as_str(), row.seq, row.line, row.value.minutes, row.value.cycles,
            row.value.day, number_if_any(row.due.minutes), number_if_any(row.due.cycles),
            number_if_any(row.due.days), row.base.minutes, row.base.cycles, row.base.day
        )
    }
}
