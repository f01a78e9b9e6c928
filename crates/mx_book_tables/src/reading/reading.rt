//! The rows of the tables of layout 2 but `office`, as the types of these tables: those of the registers alone, and all.
ghost use Rattle.std.specs.Prelude.{◌≡◌, IfOk, map};
ghost use Rattle.sqlite.specs.Held.{state};
ghost use Rattle.mx_tables.specs.inserts.Sets.{ReadsTables};
ghost use Rattle.mx_book_tables.specs.reading.Stored.{AreInPairs, AreRegisters, AreRegistersAt, AreRegistersBy, AreStored, HasRegisters, HasRegistersAt, HasRegistersBy};
ghost use Rattle.mx_book_tables.specs.reading.Looks.{Looks};

use crate::reading::deferrals::{DeferralTables, has_moved_deferrals, is_moving_deferrals};
use mx_base::Point;
use mx_base::rows::{
    AircraftRow, BaseRow, ComponentRow, Deferral3Row, DeferralRow, EntryRow, ExtensionRow,
    OpeningRow, PlaceRow, ProgrammeRow, RegisterRows, ReleaseLineRow, ReleaseRow, Sector2Row,
    SectorRow, SpanRow, TaskRow, TotalRow,
};
use mx_layout::TableFault;
use mx_registers::file::FileRows;
use mx_registers::merge::Registers;
use mx_tables::inserts::Tables;
use sqlite::{Alter, Transaction};
use std::alloc::{AllocError, Global};

/// The last of the pairs of the registers: what was flown, and where components are fitted.
type FlownPairs = (Vec<Sector2Row>, Vec<SpanRow>);

/// Those from the deferrals on, which stand in one table or in two.
type DeferredPairs<D> = (D, (Vec<ExtensionRow>, FlownPairs));

/// Those from the releases on.
type ReleasedPairs<D> = (Vec<ReleaseRow>, (Vec<ReleaseLineRow>, DeferredPairs<D>));

/// Those from the programmes on.
type MaintainedPairs<D> = (
    Vec<ProgrammeRow>,
    (Vec<TaskRow>, (Vec<OpeningRow>, ReleasedPairs<D>)),
);

/// Those from the aircraft on.
type ItemPairs<D> = (
    Vec<AircraftRow>,
    (Vec<PlaceRow>, (Vec<ComponentRow>, MaintainedPairs<D>)),
);

/// The registers as a set of tables is read: the rows of one, and behind them those of the others.
type RegisterPairs<D> = (Vec<EntryRow>, ItemPairs<D>);

/// What is kept of items beside them: their totals and last bases.
type KeptPairs = (Vec<TotalRow>, Vec<BaseRow>);

// The sectors that rows hold.
fn sectors_in(alloc: Global, rows: &[Sector2Row]) -> Result<Vec<SectorRow>, AllocError>
    ensures { IfOk result (λ sectors. sectors.items ≡ map (λ row. row.sector) rows.now) }
{
    rows.iter().map(|row| row.sector).collect(alloc)
}

// The rows that stand in pairs.
fn rows_in_pairs<D: DeferralTables + Drop>(
    alloc: Global,
    pairs: RegisterPairs<D>,
) -> Result<FileRows, AllocError>
    ensures { IfOk result (AreInPairs D.deferrals_of pairs) }
{
    let (entries, (aircraft, (places, (components, maintained)))) = pairs;
    let (programmes, (tasks, (openings, released))) = maintained;
    let (releases, (release_lines, deferred)) = released;
    let (by_tables, (extensions, flown)) = deferred;
    let (held, spans) = flown;
    let deferrals = by_tables.into_deferrals(alloc)?;
    let sectors = sectors_in(alloc, held.as_slice())?;
    let flown = (sectors, (Vec::new(alloc), Vec::new(alloc)));
    let deferred = (deferrals, (extensions, flown));
    let released = (releases, (release_lines, deferred));
    let maintained = (programmes, (tasks, (openings, released)));
    let rows = RegisterRows::from_pairs((aircraft, (places, (components, maintained))));
    Ok(FileRows {
        registers: Registers { entries, rows },
        spans,
        totals: Vec::new(alloc),
        bases: Vec::new(alloc),
    })
}

// The rows of the registers, and with them those that are kept of items.
fn with_kept(rows: FileRows, kept: KeptPairs) -> FileRows
    ensures registers { result.registers ≡ rows.registers }
    ensures spans { result.spans ≡ rows.spans }
    ensures totals { result.totals ≡ kept.0 }
    ensures bases { result.bases ≡ kept.1 }
{
    let (totals, bases) = kept;
    FileRows {
        registers: rows.registers,
        spans: rows.spans,
        totals,
        bases,
    }
}

// The rows of the registers of a file, its deferrals read from these tables.
fn registers_by<S: Alter, D: DeferralTables + Drop>(
    alloc: Global,
    tx: &mut Transaction<'_, S>,
) -> Result<FileRows, TableFault>
    ensures same_reference { tx.new.conn.ghost_name ≡ tx.old.conn.ghost_name }
    ensures reads { ReadsTables (HasRegistersBy D.IsIn)
        (AreRegistersBy (λ trees deferrals. (read : D) × D.AreRows trees read
        × (deferrals ≡ D.deferrals_of read)))
        (state S.Store tx.old.conn.now) (state S.Store tx.new.conn.now) result }
{
    let pairs: RegisterPairs<D> = Tables::read(alloc, tx)?;
    let rows = rows_in_pairs(alloc, pairs)?;
    Ok(rows)
}

/// The rows of the registers of a file, read inside a transaction: its sectors from `sector2`, and the spans in place of its
/// fittings and removals; no kept row of an item is among them. So it serves over any schema that has these tables, also where
/// a move has yet to make the totals and the last bases.
///
/// # Errors
/// `Damaged` with its table where a row is none of its type; else `Memory` or `Store`.
pub fn register_rows<S: Alter>(
    alloc: Global,
    tx: &mut Transaction<'_, S>,
) -> Result<FileRows, TableFault>
    ensures same_reference { tx.new.conn.ghost_name ≡ tx.old.conn.ghost_name }
    ensures reads { ReadsTables HasRegisters AreRegisters
        (state S.Store tx.old.conn.now) (state S.Store tx.new.conn.now) result }
{
    registers_by::<S, Vec<DeferralRow>>(alloc, tx)
}

/// The same of a file at this point of a move, the spans of which have been made: its deferrals from the tables that it has
/// of them then. So it serves while the move to layout 3 has some of them still in `defect`, and behind it.
///
/// # Errors
/// `Damaged` with its table where a row is none of its type; else `Memory` or `Store`.
pub fn register_rows_at<S: Alter>(
    alloc: Global,
    tx: &mut Transaction<'_, S>,
    at: Point,
) -> Result<FileRows, TableFault>
    ensures same_reference { tx.new.conn.ghost_name ≡ tx.old.conn.ghost_name }
    ensures reads { ReadsTables (HasRegistersAt at) (AreRegistersAt at)
        (state S.Store tx.old.conn.now) (state S.Store tx.new.conn.now) result }
{
    if has_moved_deferrals(at) {
        registers_by::<S, Vec<Deferral3Row>>(alloc, tx)
    } else if is_moving_deferrals(at) {
        registers_by::<S, (Vec<Deferral3Row>, Vec<DeferralRow>)>(alloc, tx)
    } else {
        registers_by::<S, Vec<DeferralRow>>(alloc, tx)
    }
}

/// The rows of every table but `office`, read inside a transaction. `Damaged` with the table where a row is none of its type.
pub fn read_rows<S: Alter>(
    alloc: Global,
    tx: &mut Transaction<'_, S>,
) -> Result<FileRows, TableFault>
    ensures same_reference { tx.new.conn.ghost_name ≡ tx.old.conn.ghost_name }
    ensures looks { Looks AreStored
        (state S.Store tx.old.conn.now) (state S.Store tx.new.conn.now) result }
{
    let registers = register_rows(alloc, tx)?;
    let kept: KeptPairs = Tables::read(alloc, tx)?;
    Ok(with_kept(registers, kept))
}
