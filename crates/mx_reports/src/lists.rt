//! The texts of lists: of a life list, of what is due, of limits, and of a forecast.
ghost use Rattle.std.specs.Prelude.{◌≡◌, ◌++◌, [], ◌∷◌, codes, OnOk, OnErr};
ghost use Rattle.std.specs.List.{flat_map};
ghost use Rattle.mx_reports.specs.DefectText.{defect_words, until_line};
ghost use Rattle.mx_reports.specs.DueText.{place_words, left_hours, left_number, left_words, due_words, row_line, due_head, due_lines};
ghost use Rattle.mx_reports.specs.ForecastText.{reached_words, date_words, forecast_line, rate_words, forecast_head, forecast_lines};
ghost use Rattle.mx_reports.specs.LifeText.{head_lines, part_line, life_lines};
ghost use Rattle.mx_reports.specs.LimitText.{found_words, limit_words, limit_line, limits_head, limit_lines};
ghost use Rattle.mx_reports.specs.Words.{spaced, end_line, StartsWith};

use crate::defect::{append_day_number, append_defect, append_until};
use crate::text::{Text, append_rows, append_whole};
use crate::words::{
    append_day, append_end, append_number, append_signed, append_status, append_use, append_word,
};
use mx_base::{Day, Doc, Left, MelRef, Position, Serial, TaskId, print_day, print_hours};
use mx_lists::{
    DueList, DueRow, FittedPart, ForecastList, ForecastRow, LifeList, LimitList, LimitRow,
};
use std::alloc::AllocError;

/// Appends the rows of a list, and its last line, which has a number of lines.
pub(crate) fn append_rows_and_end<T: Text>(
    out: &mut Vec<u8>,
    rows: &[T],
    lines: usize,
) -> Result<(), AllocError>
    ensures words { OnOk result (out.new.items
        ≡ out.old.items ++ (flat_map T.text rows.now ++ end_line lines)) }
    ensures kept { OnErr result (StartsWith out.old.items out.new.items) }
{
    append_rows(out, rows)?;
    append_end(out, lines)
}

fn append_life_head(out: &mut Vec<u8>, list: &LifeList) -> Result<(), AllocError>
    ensures words { OnOk result (out.new.items ≡ out.old.items ++ head_lines list.now) }
    ensures kept { OnErr result (StartsWith out.old.items out.new.items) }
{
    out.extend_from_slice(b"life")?;
    append_word(out, list.tail.as_str().as_bytes())?;
    out.extend_from_slice(b"\nairframe")?;
    append_word(out, list.kind.as_str().as_bytes())?;
    append_use(out, &list.life)?;
    out.extend_from_slice(b"\n")
}

impl Text for FittedPart {
    ghost text = { part_line };

    fn append(&self, out: &mut Vec<u8>) -> Result<(), AllocError> {
        out.extend_from_slice(b"part")?;
        append_word(out, self.position.as_str().as_bytes())?;
        append_word(out, self.serial.as_str().as_bytes())?;
        append_word(out, self.part.as_str().as_bytes())?;
        append_use(out, &self.life)?;
        out.extend_from_slice(b"\n")
    }
}

// A life list: `life TAIL`; the airframe's line with its kind, hours and cycles; a line for each component by position,
// with its position, serial number, part, hours and cycles; and `end` with the number of lines between the first and
// the last.
impl Text for LifeList {
    ghost text = { life_lines };

    fn append(&self, out: &mut Vec<u8>) -> Result<(), AllocError> {
        let parts = self.parts.as_slice();
        append_life_head(out, self)?;
        append_rows_and_end(out, parts, parts.len() + 1)
    }
}

fn append_part(out: &mut Vec<u8>, position: &Position, serial: &Serial) -> Result<(), AllocError>
    ensures words { OnOk result (out.new.items
        ≡ out.old.items ++ (spaced (codes "part") ++ (spaced position.now ++ spaced serial.now))) }
    ensures kept { OnErr result (StartsWith out.old.items out.new.items) }
{
    append_word(out, b"part")?;
    append_word(out, position.as_str().as_bytes())?;
    append_word(out, serial.as_str().as_bytes())
}

#[tactic(auto, unfolding(crate::specs::DueText::place_words))]
fn append_place(out: &mut Vec<u8>, place: &Option<(Position, Serial)>) -> Result<(), AllocError>
    ensures words { OnOk result (out.new.items ≡ out.old.items ++ place_words place.now) }
    ensures kept { OnErr result (StartsWith out.old.items out.new.items) }
{
    match place {
        None => append_word(out, b"airframe"),
        Some((position, serial)) => append_part(out, position, serial),
    }
}

#[tactic(auto, unfolding(crate::specs::DueText::left_hours))]
fn append_left_hours(out: &mut Vec<u8>, left: Option<i64>) -> Result<(), AllocError>
    ensures words { OnOk result (out.new.items ≡ out.old.items ++ left_hours left) }
    ensures unchanged { OnErr result (out.new.items ≡ out.old.items) }
{
    match left {
        None => out.extend_from_slice(b"-"),
        Some(minutes) => print_hours(out, minutes),
    }
}

#[tactic(auto, unfolding(crate::specs::DueText::left_number))]
fn append_left_number(out: &mut Vec<u8>, left: Option<i64>) -> Result<(), AllocError>
    ensures words { OnOk result (out.new.items ≡ out.old.items ++ left_number left) }
    ensures unchanged { OnErr result (out.new.items ≡ out.old.items) }
{
    match left {
        None => out.extend_from_slice(b"-"),
        Some(number) => append_signed(out, number),
    }
}

fn append_left(out: &mut Vec<u8>, left: &Left) -> Result<(), AllocError>
    ensures words { OnOk result (out.new.items ≡ out.old.items ++ left_words left.now) }
    ensures kept { OnErr result (StartsWith out.old.items out.new.items) }
{
    out.extend_from_slice(b" h=")?;
    append_left_hours(out, left.minutes)?;
    out.extend_from_slice(b" c=")?;
    append_left_number(out, left.cycles)?;
    out.extend_from_slice(b" d=")?;
    append_left_number(out, left.days)
}

fn append_task_left(out: &mut Vec<u8>, task: &TaskId, left: &Left) -> Result<(), AllocError>
    ensures words { OnOk result (out.new.items
        ≡ out.old.items ++ (spaced task.now ++ (left_words left.now ++ 10 ∷ []))) }
    ensures kept { OnErr result (StartsWith out.old.items out.new.items) }
{
    append_word(out, task.as_str().as_bytes())?;
    append_left(out, left)?;
    out.extend_from_slice(b"\n")
}

fn append_due_defect(
    out: &mut Vec<u8>,
    doc: &Doc,
    letter: char,
    reference: &MelRef,
) -> Result<(), AllocError>
    ensures words { OnOk result (out.new.items ≡ out.old.items
        ++ (spaced (codes "defect") ++ defect_words doc.now letter reference.now)) }
    ensures kept { OnErr result (StartsWith out.old.items out.new.items) }
{
    append_word(out, b"defect")?;
    append_defect(out, doc, letter, reference)
}

/// What is due, and what is left: the line of a row behind its status.
pub(crate) fn append_due_words(out: &mut Vec<u8>, row: &DueRow) -> Result<(), AllocError>
    ensures words { OnOk result (out.new.items ≡ out.old.items ++ due_words row.now) }
    ensures kept { OnErr result (StartsWith out.old.items out.new.items) }
{
    match row {
        DueRow::Task {
            place,
            task,
            left,
            ..
        } => {
            append_place(out, place)?;
            append_task_left(out, task, left)
        }
        DueRow::Defect {
            doc,
            letter,
            reference,
            last,
            left,
            ..
        } => {
            append_due_defect(out, doc, *letter, reference)?;
            append_until(out, *last, *left)
        }
    }
}

impl Text for DueRow {
    ghost text = { row_line };

    fn append(&self, out: &mut Vec<u8>) -> Result<(), AllocError> {
        append_status(out, self.status())?;
        append_due_words(out, self)
    }
}

fn append_due_head(out: &mut Vec<u8>, list: &DueList) -> Result<(), AllocError>
    ensures words { OnOk result (out.new.items ≡ out.old.items ++ due_head list.now) }
    ensures kept { OnErr result (StartsWith out.old.items out.new.items) }
{
    out.extend_from_slice(b"due")?;
    append_word(out, list.tail.as_str().as_bytes())?;
    append_day(out, list.day)?;
    append_use(out, &list.life)?;
    out.extend_from_slice(b"\n")
}

impl Text for DueList {
    ghost text = { due_lines };

    fn append(&self, out: &mut Vec<u8>) -> Result<(), AllocError> {
        let rows = self.rows.as_slice();
        append_due_head(out, self)?;
        append_rows_and_end(out, rows, rows.len())
    }
}

/// Appends a due list: `due TAIL DAY` with the hours and cycles of the airframe; a line for each row, with its status
/// (`OVERDUE`, `DUE` or `OK`), the place (`airframe`, or `part` with the position and the serial number), the task and
/// what is left in hours, cycles and days, `-` in a dimension that has no due; of an open defect `defect` with its
/// document, the letter of its category, the item of the minimum equipment list, its last day and the days that are
/// left; and `end` with the number of rows.
pub fn due_text(out: &mut Vec<u8>, list: &DueList) -> Result<(), AllocError>
    ensures printed { OnOk result (out.new.items ≡ out.old.items ++ due_lines list.now) }
    ensures unchanged { OnErr result (out.new.items ≡ out.old.items) }
{
    append_whole(out, list)
}

#[tactic(auto, using(crate::proofs::StartsLemmas::starts_further), unfolding(crate::specs::LimitText::found_words))]
fn append_found(out: &mut Vec<u8>, found: Day, extension: u32) -> Result<(), AllocError>
    ensures words { OnOk result (out.new.items ≡ out.old.items ++ found_words found extension) }
    ensures kept { OnErr result (StartsWith out.old.items out.new.items) }
{
    out.extend_from_slice(b" found=")?;
    print_day(out, found)?;
    out.extend_from_slice(b" ext=")?;
    append_signed(out, i64::from(extension))
}

fn append_days(
    out: &mut Vec<u8>,
    found: Day,
    extension: u32,
    last: i64,
    left: i64,
) -> Result<(), AllocError>
    ensures words { OnOk result (out.new.items
        ≡ out.old.items ++ (found_words found extension ++ until_line last left)) }
    ensures kept { OnErr result (StartsWith out.old.items out.new.items) }
{
    append_found(out, found, extension)?;
    append_until(out, last, left)
}

/// The defect, and what is left until its last day: the line of a limit behind its status.
pub(crate) fn append_limit_words(out: &mut Vec<u8>, row: &LimitRow) -> Result<(), AllocError>
    ensures words { OnOk result (out.new.items ≡ out.old.items ++ limit_words row.now) }
    ensures kept { OnErr result (StartsWith out.old.items out.new.items) }
{
    append_defect(out, &row.doc, row.letter, &row.reference)?;
    append_days(out, row.found, row.extension, row.last, row.left)
}

impl Text for LimitRow {
    ghost text = { limit_line };

    fn append(&self, out: &mut Vec<u8>) -> Result<(), AllocError> {
        append_status(out, self.status)?;
        append_limit_words(out, self)
    }
}

fn append_limits_head(out: &mut Vec<u8>, list: &LimitList) -> Result<(), AllocError>
    ensures words { OnOk result (out.new.items ≡ out.old.items ++ limits_head list.now) }
    ensures kept { OnErr result (StartsWith out.old.items out.new.items) }
{
    out.extend_from_slice(b"limits")?;
    append_word(out, list.tail.as_str().as_bytes())?;
    append_day(out, list.day)?;
    out.extend_from_slice(b"\n")
}

// The limits of an aircraft: `limits TAIL DAY`; a line for each open defect, with its status (`OVERDUE`, `DUE` or
// `OK`), its document, the letter of its category, the item of the minimum equipment list, the day on which it was
// found, the days by which its interval was extended, its last day, `later` where that is past the calendar, and the
// days that are left; and `end` with the number of rows.
impl Text for LimitList {
    ghost text = { limit_lines };

    fn append(&self, out: &mut Vec<u8>) -> Result<(), AllocError> {
        let rows = self.rows.as_slice();
        append_limits_head(out, self)?;
        append_rows_and_end(out, rows, rows.len())
    }
}

/// What is reached: the line of a forecast behind its day.
pub(crate) fn append_reached(out: &mut Vec<u8>, row: &DueRow) -> Result<(), AllocError>
    ensures words { OnOk result (out.new.items ≡ out.old.items ++ reached_words row.now) }
    ensures kept { OnErr result (StartsWith out.old.items out.new.items) }
{
    match row {
        DueRow::Task { place, task, .. } => {
            append_place(out, place)?;
            append_word(out, task.as_str().as_bytes())
        }
        DueRow::Defect { doc, .. } => {
            append_word(out, b"defect")?;
            append_word(out, doc.as_str().as_bytes())
        }
    }
}

/// The number of days after which a row is reached, and the day.
pub(crate) fn append_date(out: &mut Vec<u8>, row: &ForecastRow) -> Result<(), AllocError>
    ensures words { OnOk result (out.new.items ≡ out.old.items ++ date_words row.now) }
    ensures kept { OnErr result (StartsWith out.old.items out.new.items) }
{
    append_signed(out, i64::from(row.after))?;
    out.push(b' ')?;
    append_day_number(out, row.day)
}

impl Text for ForecastRow {
    ghost text = { forecast_line };

    fn append(&self, out: &mut Vec<u8>) -> Result<(), AllocError> {
        append_date(out, self)?;
        append_reached(out, &self.row)?;
        out.extend_from_slice(b"\n")
    }
}

/// How far ahead a forecast looks, and how much is flown a day.
pub(crate) fn append_rates(
    out: &mut Vec<u8>,
    days: u32,
    minutes: u32,
    cycles: u32,
) -> Result<(), AllocError>
    ensures words { OnOk result
        (out.new.items ≡ out.old.items ++ rate_words days minutes cycles) }
    ensures kept { OnErr result (StartsWith out.old.items out.new.items) }
{
    append_number(out, days as usize)?;
    append_number(out, minutes as usize)?;
    append_number(out, cycles as usize)
}

fn append_forecast_head(out: &mut Vec<u8>, list: &ForecastList) -> Result<(), AllocError>
    ensures words { OnOk result (out.new.items ≡ out.old.items ++ forecast_head list.now) }
    ensures kept { OnErr result (StartsWith out.old.items out.new.items) }
{
    out.extend_from_slice(b"forecast")?;
    append_word(out, list.tail.as_str().as_bytes())?;
    append_day(out, list.day)?;
    append_rates(out, list.days, list.minutes, list.cycles)?;
    out.extend_from_slice(b"\n")
}

// A forecast: `forecast TAIL DAY DAYS MINUTES CYCLES`; a line for each row, with the number of days after which it is
// reached, the day, `later` where that is past the calendar, and what is reached: the place (`airframe`, or `part` with
// the position and the serial number) and the task, or `defect` and its document; and `end` with the number of rows.
impl Text for ForecastList {
    ghost text = { forecast_lines };

    fn append(&self, out: &mut Vec<u8>) -> Result<(), AllocError> {
        let rows = self.rows.as_slice();
        append_forecast_head(out, self)?;
        append_rows_and_end(out, rows, rows.len())
    }
}
