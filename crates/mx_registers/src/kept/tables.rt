//! Laws of tables: what a new command makes of the rows of each. Each function does nothing; its contract is the law,
//! and the checker proves it.
ghost use Rattle.std.specs.Prelude.{List, All};
ghost use Rattle.mx_book.specs.commands.Act.{Entry};
ghost use Rattle.mx_book.specs.Book.{IsBook};
ghost use Rattle.mx_base.specs.rows.Rows.{FitsBase, FitsFitting, FitsRemoval, FitsSpan, FitsTotal};
ghost use Rattle.mx_registers.specs.Registers.{aircraft_by, aircraft_rows, components_by, component_rows, deferrals_by, deferral_rows, extensions_by, extension_rows, fittings_by, fitting_rows, openings_by, opening_rows, places_by, place_rows, programmes_by, programme_rows, release_lines_by, release_line_rows, releases_by, release_rows, removals_by, removal_rows, sectors_by, sector_rows, tasks_by, task_rows};
ghost use Rattle.mx_registers.specs.kept.Bases.{base_rows};
ghost use Rattle.mx_registers.specs.kept.Becomes.{Becomes, BecomesSome, adding, bases_become, spans_become, totals_become};
ghost use Rattle.mx_registers.specs.kept.Fits.{FitRegisters};
ghost use Rattle.mx_registers.specs.kept.Spans.{span_rows};
ghost use Rattle.mx_registers.specs.kept.Totals.{total_rows};

/// To a register the rows of a new command are added behind those that it has.
pub fn registers_become()
    ensures aircraft { Becomes aircraft_rows (adding aircraft_by) }
    ensures places { Becomes place_rows (adding places_by) }
    ensures components { Becomes component_rows (adding components_by) }
    ensures programmes { Becomes programme_rows (adding programmes_by) }
    ensures tasks { Becomes task_rows (adding tasks_by) }
    ensures openings { Becomes opening_rows (adding openings_by) }
    ensures sectors { Becomes sector_rows (adding sectors_by) }
    ensures fittings { Becomes fitting_rows (adding fittings_by) }
    ensures removals { Becomes removal_rows (adding removals_by) }
    ensures releases { Becomes release_rows (adding releases_by) }
    ensures release_lines { Becomes release_line_rows (adding release_lines_by) }
    ensures deferrals { Becomes deferral_rows (adding deferrals_by) }
    ensures extensions { Becomes extension_rows (adding extensions_by) }
{}

/// Kept rows change with a new command: spans end and begin, totals grow and begin, and the last bases are put in place
/// of those before.
pub fn kept_rows_become()
    ensures spans { Becomes span_rows spans_become }
    ensures totals { Becomes total_rows totals_become }
    ensures bases { BecomesSome base_rows bases_become }
{}

/// Kept rows fit their columns where the rows of the registers do.
pub fn kept_rows_fit()
    ensures spans { (book : List Entry) → IsBook book → FitRegisters book
        → All FitsSpan (span_rows book) }
    ensures totals { (book : List Entry) → IsBook book → FitRegisters book
        → All FitsTotal (total_rows book) }
    ensures bases { (book : List Entry) → IsBook book → FitRegisters book
        → All FitsBase (base_rows book) }
{}

/// The fittings and removals of a book fit their columns where the rows of its spans do.
pub fn registers_fit_where_spans_do()
    ensures fittings { (book : List Entry) → All FitsSpan (span_rows book)
        → All FitsFitting (fitting_rows book) }
    ensures removals { (book : List Entry) → IsBook book → All FitsSpan (span_rows book)
        → All FitsRemoval (removal_rows book) }
{}
