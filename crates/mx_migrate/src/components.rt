//! The step that moves the fittings and removals of one component from `fit1` and `removal1` to `span2`.
//!
//! Two fittings in a row make `fit1` damaged, a removal without a fitting `removal1`; a row whose number no entry can
//! have makes its own table so, before anyone's turn is looked at. Nothing is written then.
ghost use Rattle.std.specs.Prelude.{◌≡◌, ◌⊎◌, drop, Ok, Err, IfOk, IfErr};
ghost use Rattle.sqlite.specs.Held.{state};
ghost use Rattle.mx_layout.specs.TableName.{TableName};
ghost use Rattle.mx_registers.specs.points.Points.{moving};
ghost use Rattle.mx_book_tables.specs.stands.Schemas.{schema_at};
ghost use Rattle.mx_moves.specs.Changes.{Alters};
ghost use Rattle.mx_moves.specs.steps.Components.{component_moved};
ghost use Rattle.mx_moves.specs.steps.Pairing.{are_fittings_numbered, are_removals_numbered, is_before};
ghost use Rattle.mx_moves.specs.steps.Pairing.{next_span, paired, span_closed, span_open, spans_made};

use crate::step::{Migrate, reached};
use mx_base::Point;
use mx_base::rows::{FittingRow, RemovalRow, SpanRow};
use mx_layout::{Table, TableFault};
use mx_moves::point::set_point;
use mx_moves::rows::{delete_fittings, delete_removals, fittings_of, insert_spans, removals_of};
use mx_registers::points::LAST_MARK;
use sqlite::{Alter, Transaction};
use std::alloc::Global;

/// Moves what the file has of the next component, where those up to the mark have moved. Its fittings and removals have
/// numbers of entries and take turns; one that has no such number or is out of turn makes its table damaged.
#[derive(Clone, Copy, Debug, PartialEq, Eq)]
pub struct MoveComponent {
    /// The mark of the point that the file is at.
    pub mark: u32,
    /// The number of the next component behind the mark.
    pub component: u32,
}

// The span of a fitting that no removal ends.
fn span_open(fitting: &FittingRow) -> SpanRow
    ensures { result ≡ span_open fitting.now }
{
    SpanRow {
        fit_seq: fitting.seq,
        component: fitting.component,
        aircraft: fitting.aircraft,
        position: fitting.position,
        from: fitting.moment,
        remove_seq: None,
        to: None,
    }
}

// The span from a fitting to a removal.
fn span_closed(fitting: &FittingRow, removal: &RemovalRow) -> SpanRow
    ensures { result ≡ span_closed fitting.now removal.now }
{
    SpanRow {
        fit_seq: fitting.seq,
        component: fitting.component,
        aircraft: fitting.aircraft,
        position: fitting.position,
        from: fitting.moment,
        remove_seq: Some(removal.seq),
        to: Some(removal.moment),
    }
}

// Whether the next fitting, if there is one, comes behind an entry.
fn is_before(seq: u32, later: &[FittingRow]) -> bool
    ensures { result ≡ is_before seq later.now }
{
    match later.first() {
        Some(fitting) => seq < fitting.seq,
        None => true,
    }
}

// The span of a fitting and the removal that ends it, with the fittings behind.
fn next_span(
    fitting: &FittingRow,
    later: &[FittingRow],
    removal: Option<RemovalRow>,
) -> Result<SpanRow, Table>
    ensures { result ≡ next_span fitting.now later.now removal }
{
    match removal {
        None => {
            if later.is_empty() {
                Ok(span_open(fitting))
            } else {
                Err(Table::Fit1)
            }
        }
        Some(removal) => {
            if fitting.seq < removal.seq {
                if is_before(removal.seq, later) {
                    Ok(span_closed(fitting, &removal))
                } else {
                    Err(Table::Fit1)
                }
            } else {
                Err(Table::Removal1)
            }
        }
    }
}

// The removals behind the first.
fn behind_first(removals: &[RemovalRow]) -> &[RemovalRow]
    ensures { result.now ≡ drop 1 removals.now }
{
    match removals.split_first() {
        Some((_, more)) => more,
        None => removals,
    }
}

// The spans of fittings and removals that take turns, a fitting first. `Damaged` with the table that has the first row
// out of turn.
fn paired(
    alloc: Global,
    fittings: &[FittingRow],
    removals: &[RemovalRow],
) -> Result<Vec<SpanRow>, TableFault>
    ensures spans { IfOk result (λ spans. paired fittings.now removals.now ≡ Ok spans.items) }
    ensures cause { IfErr result (λ e. (e ≡ TableFault.Memory) ⊎ ((name : TableName)
        × (e ≡ TableFault.Damaged name) × (paired fittings.now removals.now ≡ Err name))) }
{
    let mut spans = Vec::new(alloc);
    let mut rest = fittings;
    let mut left = removals;
    while let Some((fitting, later)) = rest.split_first() {
        match next_span(fitting, later, left.first().copied()) {
            Ok(span) => spans.push(span)?,
            Err(table) => return Err(TableFault::Damaged(table)),
        }
        rest = later;
        left = behind_first(left);
    }
    if left.is_empty() {
        Ok(spans)
    } else {
        Err(TableFault::Damaged(Table::Removal1))
    }
}

// Whether the fittings have numbers that entries can have.
fn are_fittings_numbered(fittings: &[FittingRow]) -> bool
    ensures { result ≡ are_fittings_numbered fittings.now }
{
    fittings.iter().all(|fitting| fitting.seq <= LAST_MARK)
}

// Whether the removals have numbers that entries can have.
fn are_removals_numbered(removals: &[RemovalRow]) -> bool
    ensures { result ≡ are_removals_numbered removals.now }
{
    removals.iter().all(|removal| removal.seq <= LAST_MARK)
}

// The spans of fittings and removals that have numbers of entries and take turns. `Damaged` with the table that has a row
// without such a number, else with the one that has the first row out of turn.
fn spans_made(
    alloc: Global,
    fittings: &[FittingRow],
    removals: &[RemovalRow],
) -> Result<Vec<SpanRow>, TableFault>
    ensures spans { IfOk result (λ spans. spans_made fittings.now removals.now ≡ Ok spans.items) }
    ensures cause { IfErr result (λ e. (e ≡ TableFault.Memory) ⊎ ((name : TableName)
        × (e ≡ TableFault.Damaged name) × (spans_made fittings.now removals.now ≡ Err name))) }
{
    if !are_fittings_numbered(fittings) {
        return Err(TableFault::Damaged(Table::Fit1));
    }
    if !are_removals_numbered(removals) {
        return Err(TableFault::Damaged(Table::Removal1));
    }
    paired(alloc, fittings, removals)
}

// Adds the spans, deletes the fittings and removals of the component, and writes the point.
fn write_component<S: Alter>(
    tx: &mut Transaction<'_, S>,
    spans: &Vec<SpanRow>,
    to: &Point,
) -> Result<(), TableFault>
    ensures same_reference { tx.new.conn.ghost_name ≡ tx.old.conn.ghost_name }
    ensures alters { Alters (schema_at (moving 2 0)) (schema_at (moving 2 0))
        (component_moved spans.now.items to.now)
        (state S.Store tx.old.conn.now) (state S.Store tx.new.conn.now) result }
{
    insert_spans(tx, spans)?;
    delete_fittings(tx, to.mark)?;
    delete_removals(tx, to.mark)?;
    set_point(tx, to)
}

impl Migrate for MoveComponent {
    ghost use Rattle.std.specs.Prelude.{◌≡◌, Some};
    ghost use Rattle.mx_registers.specs.points.Points.{moving, next_mark};
    ghost use Rattle.mx_moves.specs.steps.Components.{MovesComponent, IsComponentOff};
    ghost use Rattle.mx_moves.proofs.StepsProofs.ComponentLemmas.{component_stands, component_whole};
    ghost use Rattle.mx_moves.proofs.StepsProofs.StandsLemmas.{in_move};

    ghost IsAt = { λ step at. at ≡ moving 2 step.mark };

    ghost IsDue = { λ step at book. next_mark at book ≡ Some step.component };

    ghost Makes = { λ step at to. MovesComponent step.component to };

    ghost IsOff = { λ step at. IsComponentOff step.component };

    ghost moves = { λ step at to book old new here due stands makes.
        in_move (moving 2 step.mark) at to book new here
        (component_stands step.mark step.component at to book old new here due stands makes) };

    ghost whole = { λ step. component_whole step.mark step.component };

    fn run<S: Alter>(
        &self,
        alloc: Global,
        tx: &mut Transaction<'_, S>,
    ) -> Result<Point, TableFault> {
        let fittings = fittings_of(alloc, tx, self.component)?;
        let removals = removals_of(alloc, tx, self.component)?;
        let spans = spans_made(alloc, &fittings, &removals)?;
        let to = Point {
            layout: 1,
            step: 2,
            mark: self.component,
        };
        reached(write_component(tx, &spans, &to), to)
    }
}
