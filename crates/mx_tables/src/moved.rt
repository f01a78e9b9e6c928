//! The tables that a move empties, fills or drops: deferrals, sectors, where components are fitted, and what follows from
//! these.

use crate::prelude::*;
use mx_base::{Base, Use};

// The table `defect`: every deferral of a defect, its category in two columns, of which that of the days is NULL where
// it states none.
impl Stored for DeferralRow {
    ghost use Rattle.mx_layout.{specs.kept.Cells.kept_defect, proofs.KeptProofs.Lawful.defect_lawful};

    ghost kept = { kept_defect };

    ghost lawful = { defect_lawful };

    fn texts() -> Texts {
        Texts {
            table: Table::Defect,
            select: "SELECT seq, aircraft, moment, reference, category, days FROM defect ORDER BY seq",
            insert: "INSERT INTO defect (seq, aircraft, moment, reference, category, days) VALUES (?1, ?2, ?3, ?4, ?5, ?6)",
        }
    }

    fn read(row: &Row) -> Option<DeferralRow> {
        read_columns!(row, 6: DeferralRow {
            seq: number_at(0), aircraft: number_at(1), moment: moment_at(2),
            reference: graphic_at(3), category: category_at(4),
        })
    }
}

impl Insert for DeferralRow {
    fn insert<S: Alter>(&self, tx: &mut Transaction<'_, S>) -> Result<(), TableFault> {
        insert_columns!(self, tx:
            self.seq, self.aircraft, self.moment.number(), self.reference.as_str(),
            number_of_category(self.category), days_of_category(self.category)
        )
    }
}

// The table `sector1`: every sector, its moments as text.
impl Stored for SectorRow {
    ghost use Rattle.mx_layout.{specs.kept.Cells.kept_sector1, proofs.KeptProofs.Lawful.sector1_lawful};

    ghost kept = { kept_sector1 };

    ghost lawful = { sector1_lawful };

    fn texts() -> Texts {
        Texts {
            table: Table::Sector1,
            select: "SELECT seq, aircraft, page, line, took_off, landed, cycles FROM sector1 ORDER BY seq",
            insert: "INSERT INTO sector1 (seq, aircraft, page, line, took_off, landed, cycles) VALUES (?1, ?2, ?3, ?4, ?5, ?6, ?7)",
        }
    }

    fn read(row: &Row) -> Option<SectorRow> {
        read_columns!(row, 7: SectorRow {
            seq: number_at(0), aircraft: number_at(1), page: number_at(2), line: number_at(3),
            took_off: written_moment_at(4), landed: written_moment_at(5), cycles: number_at(6),
        })
    }
}

impl Insert for SectorRow {
    fn insert<S: Alter>(&self, tx: &mut Transaction<'_, S>) -> Result<(), TableFault> {
        let took_off = text_of(self.took_off);
        let landed = text_of(self.landed);
        insert_columns!(self, tx:
            self.seq, self.aircraft, self.page, self.line, took_off.as_str(), landed.as_str(),
            self.cycles
        )
    }
}

// The table `sector2`: every sector, its moments as numbers.
//
// `Stored` finds the table by the type of the row. `sector2` has the columns of `sector1`, so `Sector2Row` holds a
// `SectorRow`, and its law is that of what it holds. With a marker of the table in the trait no second type would be
// needed, and every signature that names a type of row would name the marker too.
impl Stored for Sector2Row {
    ghost use Rattle.mx_layout.{specs.kept.Cells.kept_sector2_rows, proofs.KeptProofs.MovedLawful.sector2_row_lawful};

    ghost kept = { kept_sector2_rows };

    ghost lawful = { sector2_row_lawful };

    fn texts() -> Texts {
        Texts {
            table: Table::Sector2,
            select: "SELECT seq, aircraft, page, line, took_off, landed, cycles FROM sector2 ORDER BY seq",
            insert: "INSERT INTO sector2 (seq, aircraft, page, line, took_off, landed, cycles) VALUES (?1, ?2, ?3, ?4, ?5, ?6, ?7)",
        }
    }

    fn read(row: &Row) -> Option<Sector2Row> {
        read_columns!(row, 7: Sector2Row {
            sector: SectorRow {
                seq: number_at(0), aircraft: number_at(1), page: number_at(2), line: number_at(3),
                took_off: moment_at(4), landed: moment_at(5), cycles: number_at(6),
            },
        })
    }
}

impl Insert for Sector2Row {
    fn insert<S: Alter>(&self, tx: &mut Transaction<'_, S>) -> Result<(), TableFault> {
        insert_columns!(self, tx:
            self.sector.seq, self.sector.aircraft, self.sector.page, self.sector.line,
            self.sector.took_off.number(), self.sector.landed.number(), self.sector.cycles
        )
    }
}

// The table `fit1`: every fitting, its moment as text.
impl Stored for FittingRow {
    ghost use Rattle.mx_layout.{specs.kept.Cells.kept_fit1, proofs.KeptProofs.Lawful.fit1_lawful};

    ghost kept = { kept_fit1 };

    ghost lawful = { fit1_lawful };

    fn texts() -> Texts {
        Texts {
            table: Table::Fit1,
            select: "SELECT seq, component, aircraft, position, moment FROM fit1 ORDER BY seq",
            insert: "INSERT INTO fit1 (seq, component, aircraft, position, moment) VALUES (?1, ?2, ?3, ?4, ?5)",
        }
    }

    fn read(row: &Row) -> Option<FittingRow> {
        read_columns!(row, 5: FittingRow {
            seq: number_at(0), component: number_at(1), aircraft: number_at(2),
            position: graphic_at(3), moment: written_moment_at(4),
        })
    }
}

impl Insert for FittingRow {
    fn insert<S: Alter>(&self, tx: &mut Transaction<'_, S>) -> Result<(), TableFault> {
        let moment = text_of(self.moment);
        insert_columns!(self, tx:
            self.seq, self.component, self.aircraft, self.position.as_str(), moment.as_str()
        )
    }
}

// The table `removal1`: every removal, its moment as text.
impl Stored for RemovalRow {
    ghost use Rattle.mx_layout.{specs.kept.Cells.kept_removal1, proofs.KeptProofs.Lawful.removal1_lawful};

    ghost kept = { kept_removal1 };

    ghost lawful = { removal1_lawful };

    fn texts() -> Texts {
        Texts {
            table: Table::Removal1,
            select: "SELECT seq, component, moment FROM removal1 ORDER BY seq",
            insert: "INSERT INTO removal1 (seq, component, moment) VALUES (?1, ?2, ?3)",
        }
    }

    fn read(row: &Row) -> Option<RemovalRow> {
        read_columns!(row, 3: RemovalRow {
            seq: number_at(0), component: number_at(1), moment: written_moment_at(2),
        })
    }
}

impl Insert for RemovalRow {
    fn insert<S: Alter>(&self, tx: &mut Transaction<'_, S>) -> Result<(), TableFault> {
        let moment = text_of(self.moment);
        insert_columns!(self, tx: self.seq, self.component, moment.as_str())
    }
}

// The table `span2`: where each component is or was fitted.
impl Stored for SpanRow {
    ghost use Rattle.mx_layout.{specs.kept.Cells.kept_span2, proofs.KeptProofs.MovedLawful.span2_lawful};

    ghost kept = { kept_span2 };

    ghost lawful = { span2_lawful };

    fn texts() -> Texts {
        Texts {
            table: Table::Span2,
            select: "SELECT fit_seq, component, aircraft, position, from_min, remove_seq, to_min FROM span2 ORDER BY fit_seq",
            insert: "INSERT INTO span2 (fit_seq, component, aircraft, position, from_min, remove_seq, to_min) VALUES (?1, ?2, ?3, ?4, ?5, ?6, ?7)",
        }
    }

    fn read(row: &Row) -> Option<SpanRow> {
        read_columns!(row, 7: SpanRow {
            fit_seq: number_at(0), component: number_at(1), aircraft: number_at(2),
            position: graphic_at(3), from: moment_at(4), remove_seq: number_or_null_at(5),
            to: moment_or_null_at(6),
        })
    }
}

impl Insert for SpanRow {
    fn insert<S: Alter>(&self, tx: &mut Transaction<'_, S>) -> Result<(), TableFault> {
        insert_columns!(self, tx:
            self.fit_seq, self.component, self.aircraft, self.position.as_str(), self.from.number(),
            number_if_any(self.remove_seq), moment_if_any(self.to)
        )
    }
}

// The table `total2`: the life now of each aircraft and component, and its clock.
impl Stored for TotalRow {
    ghost use Rattle.mx_layout.{specs.kept.Cells.kept_total2, proofs.KeptProofs.MovedLawful.total2_lawful};

    ghost kept = { kept_total2 };

    ghost lawful = { total2_lawful };

    fn texts() -> Texts {
        Texts {
            table: Table::Total2,
            select: "SELECT item, minutes, cycles, clock FROM total2 ORDER BY item",
            insert: "INSERT INTO total2 (item, minutes, cycles, clock) VALUES (?1, ?2, ?3, ?4)",
        }
    }

    fn read(row: &Row) -> Option<TotalRow> {
        read_columns!(row, 4: TotalRow {
            item: number_at(0), life: Use { minutes: number_at(1), cycles: number_at(2) },
            clock: moment_at(3),
        })
    }
}

impl Insert for TotalRow {
    fn insert<S: Alter>(&self, tx: &mut Transaction<'_, S>) -> Result<(), TableFault> {
        insert_columns!(self, tx:
            self.item, self.life.minutes, self.life.cycles, self.clock.number()
        )
    }
}

// The table `base2`: the last base of each task that was accomplished of an item.
//
// The row has a life and a `Day`, and no `Base`: that counts days also past the calendar, since limits are added to
// it, and a column holds a day of the calendar. So a row that is read has been tested, and one that is written needs
// no test.
impl Stored for BaseRow {
    ghost use Rattle.mx_layout.{specs.kept.Cells.kept_base2, proofs.KeptProofs.MovedLawful.base2_lawful};

    ghost kept = { kept_base2 };

    ghost lawful = { base2_lawful };

    fn texts() -> Texts {
        Texts {
            table: Table::Base2,
            select: "SELECT item, task, minutes, cycles, day FROM base2 ORDER BY item, task",
            insert: "INSERT INTO base2 (item, task, minutes, cycles, day) VALUES (?1, ?2, ?3, ?4, ?5)",
        }
    }

    fn read(row: &Row) -> Option<BaseRow> {
        read_columns!(row, 5: BaseRow {
            item: number_at(0), task: graphic_at(1),
            life: Use { minutes: number_at(2), cycles: number_at(3) }, day: day_at(4),
        })
    }
}

impl Insert for BaseRow {
    fn insert<S: Alter>(&self, tx: &mut Transaction<'_, S>) -> Result<(), TableFault> {
        insert_columns!(self, tx:
            self.item, self.task.as_str(), self.life.minutes, self.life.cycles, self.day.number()
        )
    }
}

// The table `defect3`: every deferral of a defect, with the cycles that the airframe had reached. No category states
// cycles within which a defect is rectified, so a row with a value in their column is none.
impl Stored for Deferral3Row {
    ghost use Rattle.mx_layout.{specs.kept.Cells.kept_defect3, proofs.KeptProofs.MovedLawful.defect3_lawful};

    ghost kept = { kept_defect3 };

    ghost lawful = { defect3_lawful };

    fn texts() -> Texts {
        Texts {
            table: Table::Defect3,
            select: "SELECT seq, aircraft, moment, reference, category, days, cycles, found_cycles FROM defect3 ORDER BY seq",
            insert: "INSERT INTO defect3 (seq, aircraft, moment, reference, category, days, cycles, found_cycles) VALUES (?1, ?2, ?3, ?4, ?5, ?6, ?7, ?8)",
        }
    }

    fn read(row: &Row) -> Option<Deferral3Row> {
        let read = read_columns!(row, 8: Deferral3Row {
            deferral: DeferralRow {
                seq: number_at(0), aircraft: number_at(1), moment: moment_at(2),
                reference: graphic_at(3),
                category: category_at(4),
            },
            found_cycles: number_at(7),
        })?;
        null_at(row, 6)?;
        Some(read)
    }
}

impl Insert for Deferral3Row {
    fn insert<S: Alter>(&self, tx: &mut Transaction<'_, S>) -> Result<(), TableFault> {
        let cycles: Option<u32> = None;
        insert_columns!(self, tx:
            self.deferral.seq, self.deferral.aircraft, self.deferral.moment.number(),
            self.deferral.reference.as_str(), number_of_category(self.deferral.category),
            days_of_category(self.deferral.category), cycles, self.found_cycles
        )
    }
}

// The table `done3`: every accomplishment of a task of an item. A row is added to it once both of its days were tested
// (`DatedRow`).
impl Stored for DoneRow {
    ghost use Rattle.mx_layout.{specs.kept.Cells.kept_done3, proofs.KeptProofs.MovedLawful.done3_lawful};

    ghost kept = { kept_done3 };

    ghost lawful = { done3_lawful };

    fn texts() -> Texts {
        Texts {
            table: Table::Done3,
            select: "SELECT item, task, seq, line, value_m, value_c, value_d, due_m, due_c, due_d, base_m, base_c, base_d FROM done3 ORDER BY item, task, seq, line",
            insert: "INSERT INTO done3 (item, task, seq, line, value_m, value_c, value_d, due_m, due_c, due_d, base_m, base_c, base_d) VALUES (?1, ?2, ?3, ?4, ?5, ?6, ?7, ?8, ?9, ?10, ?11, ?12, ?13)",
        }
    }

    fn read(row: &Row) -> Option<DoneRow> {
        read_columns!(row, 13: DoneRow {
            item: number_at(0), task: graphic_at(1), seq: number_at(2), line: number_at(3),
            value: Base { minutes: number_at(4), cycles: number_at(5), day: day_number_at(6) },
            due: limit_at(7),
            base: Base { minutes: number_at(10), cycles: number_at(11), day: day_number_at(12) },
        })
    }
}
