//! The tables that every layout has: entries, items and programmes, openings, releases and extensions.

use crate::prelude::*;
use mx_base::Tolerance;

// The table `entry`: every entry, its document and its kind.
impl Stored for EntryRow {
    ghost use Rattle.mx_layout.{specs.kept.Cells.kept_entry, proofs.KeptProofs.Lawful.entry_lawful};

    ghost kept = { kept_entry };

    ghost lawful = { entry_lawful };

    fn texts() -> Texts {
        Texts {
            table: Table::Entry,
            select: "SELECT seq, doc, kind FROM entry ORDER BY seq",
            insert: "INSERT INTO entry (seq, doc, kind) VALUES (?1, ?2, ?3)",
        }
    }

    fn read(row: &Row) -> Option<EntryRow> {
        read_columns!(row, 3: EntryRow {
            seq: number_at(0), doc: graphic_at(1), kind: kind_at(2),
        })
    }
}

impl Insert for EntryRow {
    fn insert<S: Alter>(&self, tx: &mut Transaction<'_, S>) -> Result<(), TableFault> {
        insert_columns!(self, tx: self.seq, self.doc.as_str(), number_of_kind(self.kind))
    }
}

// The table `aircraft`: every aircraft, and the use that its airframe brought with it.
impl Stored for AircraftRow {
    ghost use Rattle.mx_layout.{specs.kept.Cells.kept_aircraft, proofs.KeptProofs.Lawful.aircraft_lawful};

    ghost kept = { kept_aircraft };

    ghost lawful = { aircraft_lawful };

    fn texts() -> Texts {
        Texts {
            table: Table::Aircraft,
            select: "SELECT seq, tail, kind, birth, minutes, cycles, as_of FROM aircraft ORDER BY seq",
            insert: "INSERT INTO aircraft (seq, tail, kind, birth, minutes, cycles, as_of) VALUES (?1, ?2, ?3, ?4, ?5, ?6, ?7)",
        }
    }

    fn read(row: &Row) -> Option<AircraftRow> {
        read_columns!(row, 7: AircraftRow {
            seq: number_at(0), tail: tail_at(1), kind: graphic_at(2), birth: day_at(3),
            minutes: number_at(4), cycles: number_at(5), as_of: moment_at(6),
        })
    }
}

impl Insert for AircraftRow {
    fn insert<S: Alter>(&self, tx: &mut Transaction<'_, S>) -> Result<(), TableFault> {
        insert_columns!(self, tx:
            self.seq, self.tail.as_str(), self.kind.as_str(), self.birth.number(), self.minutes,
            self.cycles, self.as_of.number()
        )
    }
}

// The table `component`: every component, and the use that it brought with it.
impl Stored for ComponentRow {
    ghost use Rattle.mx_layout.{specs.kept.Cells.kept_component, proofs.KeptProofs.Lawful.component_lawful};

    ghost kept = { kept_component };

    ghost lawful = { component_lawful };

    fn texts() -> Texts {
        Texts {
            table: Table::Component,
            select: "SELECT seq, serial, part, birth, minutes, cycles, as_of FROM component ORDER BY seq",
            insert: "INSERT INTO component (seq, serial, part, birth, minutes, cycles, as_of) VALUES (?1, ?2, ?3, ?4, ?5, ?6, ?7)",
        }
    }

    fn read(row: &Row) -> Option<ComponentRow> {
        read_columns!(row, 7: ComponentRow {
            seq: number_at(0), serial: graphic_at(1), part: graphic_at(2), birth: day_at(3),
            minutes: number_at(4), cycles: number_at(5), as_of: moment_at(6),
        })
    }
}

impl Insert for ComponentRow {
    fn insert<S: Alter>(&self, tx: &mut Transaction<'_, S>) -> Result<(), TableFault> {
        insert_columns!(self, tx:
            self.seq, self.serial.as_str(), self.part.as_str(), self.birth.number(), self.minutes,
            self.cycles, self.as_of.number()
        )
    }
}

// The table `programme`: every revision of a maintenance programme.
impl Stored for ProgrammeRow {
    ghost use Rattle.mx_layout.{specs.kept.Cells.kept_programme, proofs.KeptProofs.Lawful.programme_lawful};

    ghost kept = { kept_programme };

    ghost lawful = { programme_lawful };

    fn texts() -> Texts {
        Texts {
            table: Table::Programme,
            select: "SELECT seq, kind, revision FROM programme ORDER BY seq",
            insert: "INSERT INTO programme (seq, kind, revision) VALUES (?1, ?2, ?3)",
        }
    }

    fn read(row: &Row) -> Option<ProgrammeRow> {
        read_columns!(row, 3: ProgrammeRow {
            seq: number_at(0), kind: graphic_at(1), revision: number_at(2),
        })
    }
}

impl Insert for ProgrammeRow {
    fn insert<S: Alter>(&self, tx: &mut Transaction<'_, S>) -> Result<(), TableFault> {
        insert_columns!(self, tx: self.seq, self.kind.as_str(), self.revision)
    }
}

// The table `task`: every task of a programme, its limits in columns that are NULL where there is none.
//
// A task that is done once has NULL in all three columns of its repeat, which the row has as a limit in no dimension:
// that no command states such a limit is the shape's to say, and what it stands for the register's.
impl Stored for TaskRow {
    ghost use Rattle.mx_layout.{specs.kept.Cells.kept_task, proofs.KeptProofs.Lawful.task_lawful};

    ghost kept = { kept_task };

    ghost lawful = { task_lawful };

    fn texts() -> Texts {
        Texts {
            table: Table::Task,
            select: "SELECT seq, line, id, part, retire, first_m, first_c, first_d, rep_m, rep_c, rep_d, tol_m, tol_c, tol_d FROM task ORDER BY seq, line",
            insert: "INSERT INTO task (seq, line, id, part, retire, first_m, first_c, first_d, rep_m, rep_c, rep_d, tol_m, tol_c, tol_d) VALUES (?1, ?2, ?3, ?4, ?5, ?6, ?7, ?8, ?9, ?10, ?11, ?12, ?13, ?14)",
        }
    }

    fn read(row: &Row) -> Option<TaskRow> {
        read_columns!(row, 14: TaskRow {
            seq: number_at(0), line: number_at(1), id: graphic_at(2), part: graphic_or_null_at(3),
            retire: flag_at(4), first: limit_at(5), repeat: limit_at(8),
            tolerance: Tolerance {
                minutes: number_at(11), cycles: number_at(12), days: number_at(13),
            },
        })
    }
}

impl Insert for TaskRow {
    fn insert<S: Alter>(&self, tx: &mut Transaction<'_, S>) -> Result<(), TableFault> {
        insert_columns!(self, tx:
            self.seq, self.line, self.id.as_str(), text_if_any(&self.part), self.retire,
            number_if_any(self.first.minutes), number_if_any(self.first.cycles),
            number_if_any(self.first.days), number_if_any(self.repeat.minutes),
            number_if_any(self.repeat.cycles), number_if_any(self.repeat.days),
            self.tolerance.minutes, self.tolerance.cycles, self.tolerance.days
        )
    }
}

// The table `place`: every position of an aircraft.
impl Stored for PlaceRow {
    ghost use Rattle.mx_layout.{specs.kept.Cells.kept_place, proofs.KeptProofs.Lawful.place_lawful};

    ghost kept = { kept_place };

    ghost lawful = { place_lawful };

    fn texts() -> Texts {
        Texts {
            table: Table::Place,
            select: "SELECT seq, line, position, part FROM place ORDER BY seq, line",
            insert: "INSERT INTO place (seq, line, position, part) VALUES (?1, ?2, ?3, ?4)",
        }
    }

    fn read(row: &Row) -> Option<PlaceRow> {
        read_columns!(row, 4: PlaceRow {
            seq: number_at(0), line: number_at(1), position: graphic_at(2), part: graphic_at(3),
        })
    }
}

impl Insert for PlaceRow {
    fn insert<S: Alter>(&self, tx: &mut Transaction<'_, S>) -> Result<(), TableFault> {
        insert_columns!(self, tx: self.seq, self.line, self.position.as_str(), self.part.as_str())
    }
}

// The table `opening`: every task that was accomplished before the records begin.
impl Stored for OpeningRow {
    ghost use Rattle.mx_layout.{specs.kept.Cells.kept_opening, proofs.KeptProofs.Lawful.opening_lawful};

    ghost kept = { kept_opening };

    ghost lawful = { opening_lawful };

    fn texts() -> Texts {
        Texts {
            table: Table::Opening,
            select: "SELECT seq, item, kind, task, minutes, cycles, day FROM opening ORDER BY seq",
            insert: "INSERT INTO opening (seq, item, kind, task, minutes, cycles, day) VALUES (?1, ?2, ?3, ?4, ?5, ?6, ?7)",
        }
    }

    fn read(row: &Row) -> Option<OpeningRow> {
        read_columns!(row, 7: OpeningRow {
            seq: number_at(0), item: number_at(1), kind: graphic_at(2), task: graphic_at(3),
            minutes: number_at(4), cycles: number_at(5), day: day_at(6),
        })
    }
}

impl Insert for OpeningRow {
    fn insert<S: Alter>(&self, tx: &mut Transaction<'_, S>) -> Result<(), TableFault> {
        insert_columns!(self, tx:
            self.seq, self.item, self.kind.as_str(), self.task.as_str(), self.minutes, self.cycles,
            self.day.number()
        )
    }
}

// The table `crs`: every release to service, the kind of aircraft NULL where the work was done at an aircraft.
impl Stored for ReleaseRow {
    ghost use Rattle.mx_layout.{specs.kept.Cells.kept_crs, proofs.KeptProofs.Lawful.crs_lawful};

    ghost kept = { kept_crs };

    ghost lawful = { crs_lawful };

    fn texts() -> Texts {
        Texts {
            table: Table::Crs,
            select: "SELECT seq, item, kind, moment FROM crs ORDER BY seq",
            insert: "INSERT INTO crs (seq, item, kind, moment) VALUES (?1, ?2, ?3, ?4)",
        }
    }

    fn read(row: &Row) -> Option<ReleaseRow> {
        read_columns!(row, 4: ReleaseRow {
            seq: number_at(0), item: number_at(1), kind: graphic_or_null_at(2),
            moment: moment_at(3),
        })
    }
}

impl Insert for ReleaseRow {
    fn insert<S: Alter>(&self, tx: &mut Transaction<'_, S>) -> Result<(), TableFault> {
        insert_columns!(self, tx:
            self.seq, self.item, text_if_any(&self.kind), self.moment.number()
        )
    }
}

// The table `crs_line`: every line of a release, what it certifies in columns that are NULL where it certifies none of
// that.
impl Stored for ReleaseLineRow {
    ghost use Rattle.mx_layout.{specs.kept.Cells.kept_crs_line, proofs.KeptProofs.Lawful.crs_line_lawful};

    ghost kept = { kept_crs_line };

    ghost lawful = { crs_line_lawful };

    fn texts() -> Texts {
        Texts {
            table: Table::CrsLine,
            select: "SELECT seq, line, item, task, defect FROM crs_line ORDER BY seq, line",
            insert: "INSERT INTO crs_line (seq, line, item, task, defect) VALUES (?1, ?2, ?3, ?4, ?5)",
        }
    }

    fn read(row: &Row) -> Option<ReleaseLineRow> {
        read_columns!(row, 5: ReleaseLineRow {
            seq: number_at(0), line: number_at(1), item: number_or_null_at(2),
            task: graphic_or_null_at(3), defect: number_or_null_at(4),
        })
    }
}

impl Insert for ReleaseLineRow {
    fn insert<S: Alter>(&self, tx: &mut Transaction<'_, S>) -> Result<(), TableFault> {
        insert_columns!(self, tx:
            self.seq, self.line, number_if_any(self.item), text_if_any(&self.task),
            number_if_any(self.defect)
        )
    }
}

// The table `extension`: every extension of the interval within which a deferred defect is rectified.
impl Stored for ExtensionRow {
    ghost use Rattle.mx_layout.{specs.kept.Cells.kept_extension, proofs.KeptProofs.Lawful.extension_lawful};

    ghost kept = { kept_extension };

    ghost lawful = { extension_lawful };

    fn texts() -> Texts {
        Texts {
            table: Table::Extension,
            select: "SELECT seq, defect, day, days FROM extension ORDER BY seq",
            insert: "INSERT INTO extension (seq, defect, day, days) VALUES (?1, ?2, ?3, ?4)",
        }
    }

    fn read(row: &Row) -> Option<ExtensionRow> {
        read_columns!(row, 4: ExtensionRow {
            seq: number_at(0), defect: number_at(1), day: day_at(2), days: number_at(3),
        })
    }
}

impl Insert for ExtensionRow {
    fn insert<S: Alter>(&self, tx: &mut Transaction<'_, S>) -> Result<(), TableFault> {
        insert_columns!(self, tx: self.seq, self.defect, self.day.number(), self.days)
    }
}
