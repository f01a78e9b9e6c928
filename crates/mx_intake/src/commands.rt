//! The form of each command that is entered by a document of its own: its keys, and what an object states by them.
ghost use Rattle.std.specs.Prelude.{◌≡◌, ◌≢◌, Ok, Err, IfOk, IfErr, option_map};
ghost use Rattle.serde_json.specs.View.{view};
ghost use Rattle.mx_intake.specs.declared.fault.TheConstants.{MEMORY};
ghost use Rattle.mx_intake.specs.Form.{entry_of};
ghost use Rattle.mx_intake.specs.Forms.{stated_aircraft, stated_aircraft_with, aircraft_form, stated_component, stated_use, component_form, stated_opening, opening_form, stated_fitting, fitting_form, stated_removal, removal_form, stated_deferral, deferral_form, stated_extension, extension_form};
ghost use Rattle.mx_intake.specs.Release.{lacks_release_key, has_other_release_key, release_keys_exclude, stated_release, stated_release_with, release_form};

use crate::category::{category_at, lacks_days, states_other_days};
use crate::fault::MEMORY;
use crate::form::{command_by_form, command_by_keys, command_if_keys_agree};
use crate::items::{item_at, lacks_item, names_two_items};
use crate::listed::all_at;
use crate::object::{has_other, lacks, number_at};
use crate::places::{lacks_place, names_two_places, place_at};
use crate::vocabulary::{day_at, identifier_at, moment_at};
use crate::{lines, positions};
use mx_base::{Doc, Part, Position, Use};
use mx_book::commands::{Body, Command, Line};
use serde_json::Value;
use std::alloc::{AllocError, Global};

// The use that an item brings with it, as an object states it.
fn use_at(object: &Value) -> Option<Use>
    ensures { result ≡ stated_use (view object.now) }
{
    Some(Use {
        minutes: number_at(object, "minutes")?,
        cycles: number_at(object, "cycles")?,
    })
}

// The aircraft of these positions that an object states, where every other value can be read.
fn aircraft_with(object: &Value, positions: Vec<(Position, Part)>) -> Option<(Doc, Body)>
    ensures { option_map entry_of result ≡ stated_aircraft_with (view object.now) positions.items }
{
    let doc = identifier_at(object, "doc")?;
    let body = Body::AddAircraft {
        tail: identifier_at(object, "tail")?,
        kind: identifier_at(object, "kind")?,
        birth: day_at(object, "birth")?,
        opening: use_at(object)?,
        as_of: moment_at(object, "as_of")?,
        positions,
    };
    Some((doc, body))
}

// The aircraft that an object states, where every value can be read.
fn aircraft_of(alloc: Global, object: &Value) -> Result<Option<(Doc, Body)>, AllocError>
    ensures { IfOk result (λ s. option_map entry_of s ≡ stated_aircraft (view object.now)) }
{
    match all_at(alloc, object, "positions")? {
        Some(positions) => Ok(aircraft_with(object, positions)),
        None => Ok(None),
    }
}

/// The aircraft that an object states, or the number of its least fault.
pub(crate) fn aircraft(alloc: Global, object: &Value) -> Result<Command, u8>
    ensures ok { IfOk result (λ c. aircraft_form (view object.now) ≡ Ok c) }
    ensures err { IfErr result (λ n. n ≢ MEMORY → aircraft_form (view object.now) ≡ Err n) }
{
    let keys = [
        "do",
        "doc",
        "tail",
        "kind",
        "birth",
        "minutes",
        "cycles",
        "as_of",
        "positions",
    ];
    let Ok(stated) = aircraft_of(alloc, object) else {
        return Err(MEMORY);
    };
    let lacks = lacks(object, &keys) || positions::lack_key(object);
    let has_other = has_other(object, &keys) || positions::have_other_key(object);
    command_by_form(alloc, lacks, stated, has_other)
}

// The component that an object states, where every value can be read.
fn component_of(object: &Value) -> Option<(Doc, Body)>
    ensures { option_map entry_of result ≡ stated_component (view object.now) }
{
    let doc = identifier_at(object, "doc")?;
    let body = Body::AddComponent {
        serial: identifier_at(object, "serial")?,
        part: identifier_at(object, "part")?,
        birth: day_at(object, "birth")?,
        opening: use_at(object)?,
        as_of: moment_at(object, "as_of")?,
    };
    Some((doc, body))
}

/// The component that an object states, or the number of its least fault.
pub(crate) fn component(alloc: Global, object: &Value) -> Result<Command, u8>
    ensures ok { IfOk result (λ c. component_form (view object.now) ≡ Ok c) }
    ensures err { IfErr result (λ n. n ≢ MEMORY → component_form (view object.now) ≡ Err n) }
{
    let keys = [
        "do", "doc", "serial", "part", "birth", "minutes", "cycles", "as_of",
    ];
    command_by_keys(alloc, object, &keys, component_of(object))
}

// The opening that an object states, where every value can be read.
fn opening_of(object: &Value) -> Option<(Doc, Body)>
    ensures { option_map entry_of result ≡ stated_opening (view object.now) }
{
    let doc = identifier_at(object, "doc")?;
    let body = Body::Opening {
        item: item_at(object)?,
        kind: identifier_at(object, "kind")?,
        task: identifier_at(object, "task")?,
        use_then: use_at(object)?,
        day: day_at(object, "day")?,
    };
    Some((doc, body))
}

/// The opening that an object states, or the number of its least fault.
pub(crate) fn opening(alloc: Global, object: &Value) -> Result<Command, u8>
    ensures ok { IfOk result (λ c. opening_form (view object.now) ≡ Ok c) }
    ensures err { IfErr result (λ n. n ≢ MEMORY → opening_form (view object.now) ≡ Err n) }
{
    let needed = ["do", "doc", "kind", "task", "minutes", "cycles", "day"];
    let keys = [
        "do", "doc", "tail", "serial", "kind", "task", "minutes", "cycles", "day",
    ];
    let lacks = lacks(object, &needed) || lacks_item(object);
    let has_other = has_other(object, &keys);
    let names_two = names_two_items(object);
    command_if_keys_agree(alloc, lacks, opening_of(object), has_other, names_two)
}

// The fitting that an object states, where every value can be read.
fn fitting_of(object: &Value) -> Option<(Doc, Body)>
    ensures { option_map entry_of result ≡ stated_fitting (view object.now) }
{
    let doc = identifier_at(object, "doc")?;
    let body = Body::Fit {
        serial: identifier_at(object, "serial")?,
        tail: identifier_at(object, "tail")?,
        position: identifier_at(object, "position")?,
        moment: moment_at(object, "moment")?,
    };
    Some((doc, body))
}

/// The fitting that an object states, or the number of its least fault.
pub(crate) fn fitting(alloc: Global, object: &Value) -> Result<Command, u8>
    ensures ok { IfOk result (λ c. fitting_form (view object.now) ≡ Ok c) }
    ensures err { IfErr result (λ n. n ≢ MEMORY → fitting_form (view object.now) ≡ Err n) }
{
    let keys = ["do", "doc", "serial", "tail", "position", "moment"];
    command_by_keys(alloc, object, &keys, fitting_of(object))
}

// The removal that an object states, where every value can be read.
fn removal_of(object: &Value) -> Option<(Doc, Body)>
    ensures { option_map entry_of result ≡ stated_removal (view object.now) }
{
    let doc = identifier_at(object, "doc")?;
    let body = Body::Remove {
        serial: identifier_at(object, "serial")?,
        moment: moment_at(object, "moment")?,
    };
    Some((doc, body))
}

/// The removal that an object states, or the number of its least fault.
pub(crate) fn removal(alloc: Global, object: &Value) -> Result<Command, u8>
    ensures ok { IfOk result (λ c. removal_form (view object.now) ≡ Ok c) }
    ensures err { IfErr result (λ n. n ≢ MEMORY → removal_form (view object.now) ≡ Err n) }
{
    let keys = ["do", "doc", "serial", "moment"];
    command_by_keys(alloc, object, &keys, removal_of(object))
}

// The deferral that an object states, where every value can be read.
fn deferral_of(object: &Value) -> Option<(Doc, Body)>
    ensures { option_map entry_of result ≡ stated_deferral (view object.now) }
{
    let doc = identifier_at(object, "doc")?;
    let body = Body::Defer {
        tail: identifier_at(object, "tail")?,
        moment: moment_at(object, "moment")?,
        reference: identifier_at(object, "reference")?,
        category: category_at(object)?,
    };
    Some((doc, body))
}

/// The deferral that an object states, or the number of its least fault.
pub(crate) fn deferral(alloc: Global, object: &Value) -> Result<Command, u8>
    ensures ok { IfOk result (λ c. deferral_form (view object.now) ≡ Ok c) }
    ensures err { IfErr result (λ n. n ≢ MEMORY → deferral_form (view object.now) ≡ Err n) }
{
    let needed = ["do", "doc", "tail", "moment", "reference", "category"];
    let keys = [
        "do",
        "doc",
        "tail",
        "moment",
        "reference",
        "category",
        "days",
    ];
    let lacks = lacks(object, &needed) || lacks_days(object);
    let has_other = has_other(object, &keys);
    let exclude = states_other_days(object);
    command_if_keys_agree(alloc, lacks, deferral_of(object), has_other, exclude)
}

// The extension that an object states, where every value can be read.
fn extension_of(object: &Value) -> Option<(Doc, Body)>
    ensures { option_map entry_of result ≡ stated_extension (view object.now) }
{
    let doc = identifier_at(object, "doc")?;
    let body = Body::Extend {
        defect: identifier_at(object, "defect")?,
        day: day_at(object, "day")?,
        days: number_at(object, "days")?,
    };
    Some((doc, body))
}

/// The extension that an object states, or the number of its least fault.
pub(crate) fn extension(alloc: Global, object: &Value) -> Result<Command, u8>
    ensures ok { IfOk result (λ c. extension_form (view object.now) ≡ Ok c) }
    ensures err { IfErr result (λ n. n ≢ MEMORY → extension_form (view object.now) ≡ Err n) }
{
    let keys = ["do", "doc", "defect", "day", "days"];
    command_by_keys(alloc, object, &keys, extension_of(object))
}

/// Whether a key of the release is missing, or one of a line.
fn release_lacks_key(object: &Value) -> bool
    ensures { result ≡ lacks_release_key (view object.now) }
{
    let keys = ["do", "doc", "moment", "lines"];
    lacks(object, &keys) || lacks_place(object) || lines::lack_key(object)
}

/// Whether the release, or a line, has a key that its form does not have.
fn release_has_other_key(object: &Value) -> bool
    ensures { result ≡ has_other_release_key (view object.now) }
{
    let keys = ["do", "doc", "tail", "serial", "kind", "moment", "lines"];
    has_other(object, &keys) || lines::have_other_key(object)
}

/// Whether two keys of the release exclude each other, or two of a line.
fn release_keys_exclude(object: &Value) -> bool
    ensures { result ≡ release_keys_exclude (view object.now) }
{
    names_two_places(object) || lines::have_excluding_keys(object)
}

// The release of these lines that an object states, where every other value can be read.
fn release_with(object: &Value, lines: Vec<Line>) -> Option<(Doc, Body)>
    ensures { option_map entry_of result ≡ stated_release_with (view object.now) lines.items }
{
    let doc = identifier_at(object, "doc")?;
    let body = Body::Release {
        place: place_at(object)?,
        moment: moment_at(object, "moment")?,
        lines,
    };
    Some((doc, body))
}

// The release that an object states, where every value can be read.
fn release_of(alloc: Global, object: &Value) -> Result<Option<(Doc, Body)>, AllocError>
    ensures { IfOk result (λ s. option_map entry_of s ≡ stated_release (view object.now)) }
{
    match all_at(alloc, object, "lines")? {
        Some(lines) => Ok(release_with(object, lines)),
        None => Ok(None),
    }
}

/// The release that an object states, or the number of its least fault.
pub(crate) fn release(alloc: Global, object: &Value) -> Result<Command, u8>
    ensures ok { IfOk result (λ c. release_form (view object.now) ≡ Ok c) }
    ensures err { IfErr result (λ n. n ≢ MEMORY → release_form (view object.now) ≡ Err n) }
{
    let Ok(stated) = release_of(alloc, object) else {
        return Err(MEMORY);
    };
    let lacks = release_lacks_key(object);
    let has_other = release_has_other_key(object);
    command_if_keys_agree(
        alloc,
        lacks,
        stated,
        has_other,
        release_keys_exclude(object),
    )
}
