//! Laws of the tables. Each function does nothing; its contract is the law, and the checker proves it.
ghost use Rattle.mx_layout.specs.TableName.{TableName};
ghost use Rattle.mx_layout.specs.Steps.{schema_after};
ghost use Rattle.mx_layout.specs.Tables.{layout_1, layout_2, layout_3};
ghost use Rattle.mx_layout.specs.kept.Meanings.{IsLawfulAt};
ghost use Rattle.mx_layout.specs.kept.Schemas.{HasBases, HasDefects, HasDefects3, HasDone, HasOwn1, HasOwn2, HasOwn3, HasFittings, HasSectors2, HasSpans, HasTotals};

/// Layout 1 has the permanent tables, and behind them its own, deferrals first.
pub fn layout_1_has_its_tables()
    ensures own { HasOwn1 layout_1 }
    ensures deferrals { HasDefects layout_1 }
{}

/// Layout 2 has the permanent tables, and behind them its own, deferrals first.
pub fn layout_2_has_its_tables()
    ensures own { HasOwn2 layout_2 }
    ensures deferrals { HasDefects layout_2 }
    ensures sectors { HasSectors2 layout_2 }
    ensures spans { HasSpans layout_2 }
    ensures totals { HasTotals layout_2 }
    ensures bases { HasBases layout_2 }
{}

/// Layout 3 has the permanent tables, and behind them its own, sectors first.
pub fn layout_3_has_its_tables()
    ensures own { HasOwn3 layout_3 }
    ensures sectors { HasSectors2 layout_3 }
    ensures spans { HasSpans layout_3 }
    ensures totals { HasTotals layout_3 }
    ensures deferrals { HasDefects3 layout_3 }
    ensures accomplishments { HasDone layout_3 }
{}

/// So has each schema on the way to layout 2: behind 16 statements, where sectors are moved; behind 21, where components are;
/// behind 24, where totals are written; and behind 25, where last bases are.
pub fn points_have_their_tables()
    ensures own_with_sectors { HasOwn1 (schema_after 16) }
    ensures deferrals_with_sectors { HasDefects (schema_after 16) }
    ensures fittings_with_sectors { HasFittings (schema_after 16) }
    ensures sectors { HasSectors2 (schema_after 16) }
    ensures fittings_with_spans { HasFittings (schema_after 21) }
    ensures deferrals_with_spans { HasDefects (schema_after 21) }
    ensures sectors_with_spans { HasSectors2 (schema_after 21) }
    ensures spans { HasSpans (schema_after 21) }
    ensures sectors_with_totals { HasSectors2 (schema_after 24) }
    ensures spans_with_totals { HasSpans (schema_after 24) }
    ensures totals { HasTotals (schema_after 24) }
    ensures deferrals_with_totals { HasDefects (schema_after 24) }
    ensures bases { HasOwn2 (schema_after 25) }
    ensures deferrals_with_bases { HasDefects (schema_after 25) }
    ensures last_bases { HasBases (schema_after 25) }
{}

/// So has each schema on the way from there to layout 3: behind 29 statements, where deferrals are moved, and behind 31,
/// where accomplishments are written.
pub fn later_points_have_their_tables()
    ensures own_with_deferrals { HasOwn2 (schema_after 29) }
    ensures old_deferrals { HasDefects (schema_after 29) }
    ensures sectors_with_deferrals { HasSectors2 (schema_after 29) }
    ensures spans_with_deferrals { HasSpans (schema_after 29) }
    ensures totals_with_deferrals { HasTotals (schema_after 29) }
    ensures bases_with_deferrals { HasBases (schema_after 29) }
    ensures deferrals { HasDefects3 (schema_after 29) }
    ensures sectors_with_accomplishments { HasSectors2 (schema_after 31) }
    ensures spans_with_accomplishments { HasSpans (schema_after 31) }
    ensures totals_with_accomplishments { HasTotals (schema_after 31) }
    ensures bases_with_accomplishments { HasBases (schema_after 31) }
    ensures deferrals_with_accomplishments { HasDefects3 (schema_after 31) }
    ensures accomplishments { HasDone (schema_after 31) }
{}

/// The rows of each table are kept by its law, over every schema that has the table.
pub fn tables_are_lawful()
    ensures { (name : TableName) → IsLawfulAt name }
{}
