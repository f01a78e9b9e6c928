//! The rows of a release.
ghost use Rattle.std.specs.Prelude.{◌≡◌, ◌≤◌, ℕ, List, length, All, IfOk};
ghost use Rattle.std.specs.List.{filter_map};
ghost use Rattle.mx_book.specs.commands.Act.{Entry, Released};
ghost use Rattle.mx_book.specs.declared.commands.release.Line.{Line};
ghost use Rattle.mx_book.specs.declared.commands.shape.TheConstants.{MOST_LINES};
ghost use Rattle.mx_book.specs.due.Due.{IsLife, base_done};
ghost use Rattle.mx_base.specs.rows.Rows.{FitsBase, FitsEntry, FitsReleaseLine, base_row_with};
ghost use Rattle.mx_registers.specs.Lines.{lines_from};
ghost use Rattle.mx_registers.specs.kept.Changes.{entry_of};
ghost use Rattle.mx_registers.specs.kept.Items.{number_of_place};
ghost use Rattle.mx_row_rules.specs.changes.Certified.{AreKnownOf, HasLifeReached, base_made, line_made};
ghost use Rattle.mx_row_rules.specs.changes.Made.{AreMadeOf, nothing_found};
ghost use Rattle.mx_row_rules.specs.changes.Rows.{AreCommandRows, IsEntryOf, totals_before};

use crate::changes::plain::entry_alone;
use crate::changes::rows::CommandRows;
use crate::changes::totals::clocked_totals;
use mx_base::rows::{BaseRow, EntryRow, ReleaseLineRow, TotalRow};
use mx_base::{Day, Limit, TaskId, Use, day_of};
use mx_book::commands::Release;
use mx_book::due::base_done;
use mx_registers::{done_row, rectified_row, release_row};
use std::alloc::{AllocError, Global};

/// What is known of a line of a release.
#[derive(Clone, Copy)]
pub enum Certified {
    /// A task is done on an item: the number of the item, the task, the life of the item now, and when the task was due.
    Done(u32, TaskId, Use, Option<Limit>),
    /// A defect is rectified: its number.
    Rectified(u32),
}

// The row of a line, on this line of the release of the entry with a number.
fn line_row(seq: u32, line: u32, certified: &Certified) -> ReleaseLineRow
    ensures row { result ≡ line_made seq line certified.now }
    ensures fits { FitsReleaseLine result }
{
    match certified {
        Certified::Done(item, task, _, _) => done_row(seq, line, *item, task),
        Certified::Rectified(defect) => rectified_row(seq, line, *defect),
    }
}

// The rows of the lines of the release of the entry with a number.
fn line_rows(
    alloc: Global,
    seq: u32,
    lines: &[Certified],
) -> Result<Vec<ReleaseLineRow>, AllocError>
    requires few { length lines.now ≤ MOST_LINES }
    ensures rows { IfOk result (λ rows. rows.items ≡ lines_from line_made seq 1 lines.now) }
    ensures fits { IfOk result (λ rows. All FitsReleaseLine rows.items) }
{
    let mut rows = Vec::new(alloc);
    let mut line = 1u32;
    let mut rest = lines;
    while let Some((certified, later)) = rest.split_first() {
        rows.push(line_row(seq, line, certified))?;
        line += 1;
        rest = later;
    }
    Ok(rows)
}

// The last base of a task that is done on a day, at this life, where it was due so.
fn base_row(day: Day, item: u32, task: &TaskId, reached: &Use, due: Option<Limit>) -> BaseRow
    requires { IsLife reached.now }
    ensures row { result ≡ base_row_with item task.now (base_done reached.now day due) }
    ensures fits { FitsBase result }
{
    // The text of an identifier fits its column.
    let _ = task.as_str();
    let base = base_done(reached, day, due);
    BaseRow {
        item,
        task: *task,
        life: Use {
            minutes: base.minutes,
            cycles: base.cycles,
        },
        day: Day::of_number(base.day).unwrap(),
    }
}

// The last bases that lines set on a day.
fn base_rows(alloc: Global, day: Day, lines: &[Certified]) -> Result<Vec<BaseRow>, AllocError>
    requires lives { All HasLifeReached lines.now }
    ensures rows { IfOk result (λ rows. rows.items ≡ filter_map (base_made day) lines.now) }
    ensures fits { IfOk result (λ rows. All FitsBase rows.items) }
{
    lines
        .iter()
        .filter_map(|certified| match certified {
            Certified::Done(item, task, reached, due) => {
                Some(base_row(day, *item, task, reached, *due))
            }
            Certified::Rectified(_) => None,
        })
        .collect(alloc)
}

/// The rows of a release, by the number of its place, by what is known of its lines, and by the totals that it touches, as they
/// are: that of its place.
pub fn release_rows(
    alloc: Global,
    entry: EntryRow,
    release: Release,
    item: u32,
    lines: &[Certified],
    totals: &[TotalRow],
) -> Result<CommandRows, AllocError>
    requires fits { FitsEntry entry }
    requires few { length lines.now ≤ MOST_LINES }
    requires lives { All HasLifeReached lines.now }
    ensures of_book { IfOk result (λ rows. (book : List Entry) (doc : List ℕ)
        (certified : List Line)
        → IsEntryOf book (entry_of doc (Released release certified)) entry
        → item ≡ number_of_place book release.place
        → AreKnownOf book release certified lines.now
        → totals.now ≡ totals_before book (Released release certified)
        → AreCommandRows book (entry_of doc (Released release certified)) rows) }
    ensures made { (certified : List Line) → IfOk result (λ rows.
        AreMadeOf (Released release certified) entry
        (record nothing_found { number = item; totals = totals.now; lines = lines.now }) rows) }
{
    let behind = clocked_totals(alloc, totals, release.moment)?;
    let line_rows = line_rows(alloc, entry.seq, lines)?;
    let bases = base_rows(alloc, day_of(release.moment), lines)?;
    let row = release_row(entry.seq, item, release);
    let mut rows = entry_alone(alloc, entry);
    rows.added.release_lines = line_rows;
    rows.changed.bases = bases;
    rows.changed.totals = behind;
    rows.added.releases.push(row)?;
    Ok(rows)
}
