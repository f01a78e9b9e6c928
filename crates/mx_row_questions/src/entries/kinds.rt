//! What the rows of an entry of each kind state, but of a release, which has lines.
ghost use Rattle.std.specs.Prelude.{◌≡◌};
ghost use Rattle.std.specs.Option.{option_map, option_and_then};
ghost use Rattle.sqlite.specs.Held.{state};
ghost use Rattle.mx_book.specs.commands.Act.{act_of};
ghost use Rattle.mx_row_rules.specs.found.Given.{aircraft, components, found, places, programmes, tasks, fittings, openings, removals, sectors, deferrals, extensions};
ghost use Rattle.mx_row_rules.specs.found.Stated.{aircraft_stated, component_stated, programme_stated, fitting_stated, opening_stated, removal_stated, sector_stated, deferral_stated, extension_stated};
ghost use Rattle.mx_lookups.specs.numbers.AnyRows.{ReadsAny};
ghost use Rattle.mx_lookups.specs.numbers.Reads.{Reads};
ghost use Rattle.mx_row_questions.specs.entries.Stated.{AircraftStated, ComponentStated, ProgrammeStated, FittingStated, OpeningStated, RemovalStated, SectorStated, DeferralStated, ExtensionStated};
ghost use Rattle.mx_registers.specs.Merge.{fitting_said};

use crate::entries::names::{doc_of_defect, item_of_number};
use mx_base::rows::FittingRow;
use mx_base::{Serial, Tail};
use mx_book::commands::Body;
use mx_layout::TableFault;
use mx_lookups::lists::serial_of_number;
use mx_lookups::numbers::items::tail_of_number;
use mx_registers::plain::said::{
    body_of_aircraft, body_of_component, body_of_deferral, body_of_extension, body_of_fitting,
    body_of_opening, body_of_programme, body_of_removal, body_of_sector,
};
use mx_row_rules::found::stated::{first_fitting, first_removal, positions_said, tasks_said};
use mx_table_rows::chosen::defects::{defect_by_seq, extension_by_seq};
use mx_table_rows::chosen::items::{aircraft_by_seq, component_by_seq, place_by_seq};
use mx_table_rows::chosen::kept::{span2_by_fit_seq, span2_by_remove_seq};
use mx_table_rows::chosen::programmes::{programme_by_seq, task_by_seq};
use mx_table_rows::chosen::sectors::sector2_by_seq;
use mx_table_rows::chosen::works::opening_by_seq;
use sqlite::{Alter, Transaction};
use std::alloc::Global;

// The aircraft that the entry with this number adds, with its positions.
pub(crate) fn aircraft_stated<S: Alter>(
    alloc: Global,
    tx: &mut Transaction<'_, S>,
    seq: u32,
) -> Result<Option<Body>, TableFault>
    ensures same_reference { tx.new.conn.ghost_name ≡ tx.old.conn.ghost_name }
    ensures reads { Reads (λ book said. option_map act_of said
        ≡ aircraft_stated (found places book seq) (found aircraft book seq))
        (state S.Store tx.old.conn.now) (state S.Store tx.new.conn.now) result }
    ensures any_rows { ReadsAny (λ trees said. AircraftStated seq trees (option_map act_of said))
        (state S.Store tx.old.conn.now) (state S.Store tx.new.conn.now) result }
{
    let on_lines = place_by_seq(alloc, tx, seq)?;
    let positions = positions_said(alloc, &on_lines)?;
    let rows = aircraft_by_seq(alloc, tx, seq)?;
    match rows.first() {
        Some(row) => Ok(Some(body_of_aircraft(row, positions))),
        None => Ok(None),
    }
}

// The component that the entry with this number adds.
pub(crate) fn component_stated<S: Alter>(
    alloc: Global,
    tx: &mut Transaction<'_, S>,
    seq: u32,
) -> Result<Option<Body>, TableFault>
    ensures same_reference { tx.new.conn.ghost_name ≡ tx.old.conn.ghost_name }
    ensures reads { Reads (λ book said. option_map act_of said
        ≡ component_stated (found components book seq))
        (state S.Store tx.old.conn.now) (state S.Store tx.new.conn.now) result }
    ensures any_rows { ReadsAny (λ trees said. ComponentStated seq trees (option_map act_of said))
        (state S.Store tx.old.conn.now) (state S.Store tx.new.conn.now) result }
{
    let rows = component_by_seq(alloc, tx, seq)?;
    match rows.first() {
        Some(row) => Ok(Some(body_of_component(row))),
        None => Ok(None),
    }
}

// The revision of a programme that the entry with this number loads, with its tasks.
pub(crate) fn programme_stated<S: Alter>(
    alloc: Global,
    tx: &mut Transaction<'_, S>,
    seq: u32,
) -> Result<Option<Body>, TableFault>
    ensures same_reference { tx.new.conn.ghost_name ≡ tx.old.conn.ghost_name }
    ensures reads { Reads (λ book said. option_map act_of said
        ≡ programme_stated (found tasks book seq) (found programmes book seq))
        (state S.Store tx.old.conn.now) (state S.Store tx.new.conn.now) result }
    ensures any_rows { ReadsAny (λ trees said. ProgrammeStated seq trees (option_map act_of said))
        (state S.Store tx.old.conn.now) (state S.Store tx.new.conn.now) result }
{
    let on_lines = task_by_seq(alloc, tx, seq)?;
    let tasks = tasks_said(alloc, &on_lines)?;
    let rows = programme_by_seq(alloc, tx, seq)?;
    match rows.first() {
        Some(row) => Ok(Some(body_of_programme(row, tasks))),
        None => Ok(None),
    }
}

// The opening that the entry with this number is; none where its item is not there.
pub(crate) fn opening_stated<S: Alter>(
    alloc: Global,
    tx: &mut Transaction<'_, S>,
    seq: u32,
) -> Result<Option<Body>, TableFault>
    ensures same_reference { tx.new.conn.ghost_name ≡ tx.old.conn.ghost_name }
    ensures reads { Reads (λ book said. option_map act_of said
        ≡ opening_stated book (found openings book seq))
        (state S.Store tx.old.conn.now) (state S.Store tx.new.conn.now) result }
    ensures any_rows { ReadsAny (λ trees said. OpeningStated seq trees (option_map act_of said))
        (state S.Store tx.old.conn.now) (state S.Store tx.new.conn.now) result }
{
    let rows = opening_by_seq(alloc, tx, seq)?;
    let Some(row) = rows.first() else {
        return Ok(None);
    };
    let named = item_of_number(alloc, tx, row.item)?;
    match named {
        Some(item) => Ok(Some(body_of_opening(row, item))),
        None => Ok(None),
    }
}

// The sector that the entry with this number is; none where its aircraft is not there.
pub(crate) fn sector_stated<S: Alter>(
    alloc: Global,
    tx: &mut Transaction<'_, S>,
    seq: u32,
) -> Result<Option<Body>, TableFault>
    ensures same_reference { tx.new.conn.ghost_name ≡ tx.old.conn.ghost_name }
    ensures reads { Reads (λ book said. option_map act_of said
        ≡ sector_stated book (found sectors book seq))
        (state S.Store tx.old.conn.now) (state S.Store tx.new.conn.now) result }
    ensures any_rows { ReadsAny (λ trees said. SectorStated seq trees (option_map act_of said))
        (state S.Store tx.old.conn.now) (state S.Store tx.new.conn.now) result }
{
    let rows = sector2_by_seq(alloc, tx, seq)?;
    let Some(row) = rows.first() else {
        return Ok(None);
    };
    let named = tail_of_number(alloc, tx, row.sector.aircraft)?;
    match named {
        Some(tail) => Ok(Some(body_of_sector(&row.sector, tail))),
        None => Ok(None),
    }
}

// The fitting that a row says, where the component and the aircraft have these names.
fn fitting_named(row: &FittingRow, serial: Option<Serial>, tail: Option<Tail>) -> Option<Body>
    ensures { option_map act_of result
        ≡ option_and_then (λ s. option_map (fitting_said row.now s) tail) serial }
{
    match (serial, tail) {
        (Some(serial), Some(tail)) => Some(body_of_fitting(row, serial, tail)),
        _ => None,
    }
}

// The fitting that the entry with this number is: what begins its span. None where the component or the aircraft is not
// there.
pub(crate) fn fitting_stated<S: Alter>(
    alloc: Global,
    tx: &mut Transaction<'_, S>,
    seq: u32,
) -> Result<Option<Body>, TableFault>
    ensures same_reference { tx.new.conn.ghost_name ≡ tx.old.conn.ghost_name }
    ensures reads { Reads (λ book said. option_map act_of said
        ≡ fitting_stated book (found fittings book seq))
        (state S.Store tx.old.conn.now) (state S.Store tx.new.conn.now) result }
    ensures any_rows { ReadsAny (λ trees said. FittingStated seq trees (option_map act_of said))
        (state S.Store tx.old.conn.now) (state S.Store tx.new.conn.now) result }
{
    let spans = span2_by_fit_seq(alloc, tx, seq)?;
    let Some(row) = first_fitting(&spans) else {
        return Ok(None);
    };
    let fitted = serial_of_number(alloc, tx, row.component)?;
    let named = tail_of_number(alloc, tx, row.aircraft)?;
    Ok(fitting_named(&row, fitted, named))
}

// The removal that the entry with this number is: what ends the span that it ends. None where the component is not there.
pub(crate) fn removal_stated<S: Alter>(
    alloc: Global,
    tx: &mut Transaction<'_, S>,
    seq: u32,
) -> Result<Option<Body>, TableFault>
    ensures same_reference { tx.new.conn.ghost_name ≡ tx.old.conn.ghost_name }
    ensures reads { Reads (λ book said. option_map act_of said
        ≡ removal_stated book (found removals book seq))
        (state S.Store tx.old.conn.now) (state S.Store tx.new.conn.now) result }
    ensures any_rows { ReadsAny (λ trees said. RemovalStated seq trees (option_map act_of said))
        (state S.Store tx.old.conn.now) (state S.Store tx.new.conn.now) result }
{
    let spans = span2_by_remove_seq(alloc, tx, seq)?;
    let Some(row) = first_removal(&spans) else {
        return Ok(None);
    };
    let named = serial_of_number(alloc, tx, row.component)?;
    match named {
        Some(serial) => Ok(Some(body_of_removal(&row, serial))),
        None => Ok(None),
    }
}

// The deferral that the entry with this number is; none where its aircraft is not there.
pub(crate) fn deferral_stated<S: Alter>(
    alloc: Global,
    tx: &mut Transaction<'_, S>,
    seq: u32,
) -> Result<Option<Body>, TableFault>
    ensures same_reference { tx.new.conn.ghost_name ≡ tx.old.conn.ghost_name }
    ensures reads { Reads (λ book said. option_map act_of said
        ≡ deferral_stated book (found deferrals book seq))
        (state S.Store tx.old.conn.now) (state S.Store tx.new.conn.now) result }
    ensures any_rows { ReadsAny (λ trees said. DeferralStated seq trees (option_map act_of said))
        (state S.Store tx.old.conn.now) (state S.Store tx.new.conn.now) result }
{
    let rows = defect_by_seq(alloc, tx, seq)?;
    let Some(row) = rows.first() else {
        return Ok(None);
    };
    let named = tail_of_number(alloc, tx, row.aircraft)?;
    match named {
        Some(tail) => Ok(Some(body_of_deferral(row, tail))),
        None => Ok(None),
    }
}

// The extension that the entry with this number is; none where its defect is not there.
pub(crate) fn extension_stated<S: Alter>(
    alloc: Global,
    tx: &mut Transaction<'_, S>,
    seq: u32,
) -> Result<Option<Body>, TableFault>
    ensures same_reference { tx.new.conn.ghost_name ≡ tx.old.conn.ghost_name }
    ensures reads { Reads (λ book said. option_map act_of said
        ≡ extension_stated book (found extensions book seq))
        (state S.Store tx.old.conn.now) (state S.Store tx.new.conn.now) result }
    ensures any_rows { ReadsAny (λ trees said. ExtensionStated seq trees (option_map act_of said))
        (state S.Store tx.old.conn.now) (state S.Store tx.new.conn.now) result }
{
    let rows = extension_by_seq(alloc, tx, seq)?;
    let Some(row) = rows.first() else {
        return Ok(None);
    };
    let named = doc_of_defect(alloc, tx, row.defect)?;
    match named {
        Some(doc) => Ok(Some(body_of_extension(row, doc))),
        None => Ok(None),
    }
}
