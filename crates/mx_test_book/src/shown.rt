//! Commands as text: what their accessors show.

use crate::tasks::append_task;
use mx_base::{Category, Day, Moment, Part, Position, Use, print_day};
use mx_book::commands::{
    Aircraft, Command, Component, Deferral, Extension, Fitting, Item, Line, Opening, Place,
    Programme, Release, Removal, Sector,
};
use mx_test_cases::{append_number, append_word, begin_print, printed};
use std::alloc::{AllocError, Global};

/// The text of a day, as it is printed.
pub fn day_text(alloc: Global, day: Day) -> Result<String, AllocError> {
    let mut out = begin_print(alloc)?;
    let done = print_day(&mut out, day);
    printed(alloc, &out, done)
}

/// Appends a moment as a word.
pub fn append_moment(text: &mut String, moment: Moment) -> Result<(), AllocError> {
    append_word(text, moment.text().as_str())
}

/// Appends a day as a word.
pub fn append_day(alloc: Global, text: &mut String, day: Day) -> Result<(), AllocError> {
    append_word(text, day_text(alloc, day)?.as_str())
}

/// Appends what an item brings with it: BIRTH MINUTES CYCLES AS_OF.
pub fn append_opening(
    alloc: Global,
    text: &mut String,
    birth: Day,
    opening: &Use,
    as_of: Moment,
) -> Result<(), AllocError> {
    append_day(alloc, text, birth)?;
    append_number(text, opening.minutes)?;
    append_number(text, opening.cycles)?;
    append_moment(text, as_of)
}

fn append_aircraft(
    alloc: Global,
    text: &mut String,
    aircraft: &Aircraft,
) -> Result<(), AllocError> {
    append_word(text, "aircraft")?;
    append_word(text, aircraft.tail.as_str())?;
    append_word(text, aircraft.kind.as_str())?;
    append_opening(
        alloc,
        text,
        aircraft.birth,
        &aircraft.opening,
        aircraft.as_of,
    )
}

fn append_position(text: &mut String, place: &(Position, Part)) -> Result<(), AllocError> {
    append_word(text, place.0.as_str())?;
    text.push('=')?;
    text.push_str(place.1.as_str())
}

fn append_component(
    alloc: Global,
    text: &mut String,
    component: &Component,
) -> Result<(), AllocError> {
    append_word(text, "component")?;
    append_word(text, component.serial.as_str())?;
    append_word(text, component.part.as_str())?;
    append_opening(
        alloc,
        text,
        component.birth,
        &component.opening,
        component.as_of,
    )
}

fn append_programme(text: &mut String, programme: &Programme) -> Result<(), AllocError> {
    append_word(text, "programme")?;
    append_word(text, programme.kind.as_str())?;
    append_number(text, programme.revision)
}

fn append_item(text: &mut String, item: &Item) -> Result<(), AllocError> {
    match item {
        Item::Airframe(tail) => {
            append_word(text, "airframe")?;
            append_word(text, tail.as_str())
        }
        Item::Component(serial) => {
            append_word(text, "component")?;
            append_word(text, serial.as_str())
        }
    }
}

// Appends the opening of a task.
fn append_accomplished(
    alloc: Global,
    text: &mut String,
    opening: &Opening,
) -> Result<(), AllocError> {
    append_word(text, "opening")?;
    append_item(text, &opening.item)?;
    append_word(text, opening.kind.as_str())?;
    append_word(text, opening.task.as_str())?;
    append_number(text, opening.use_then.minutes)?;
    append_number(text, opening.use_then.cycles)?;
    append_day(alloc, text, opening.day)
}

fn append_sector(text: &mut String, sector: &Sector) -> Result<(), AllocError> {
    append_word(text, "sector")?;
    append_word(text, sector.tail.as_str())?;
    append_number(text, sector.page)?;
    append_number(text, sector.line)?;
    append_moment(text, sector.off)?;
    append_moment(text, sector.on)?;
    append_number(text, sector.cycles)
}

fn append_fitting(text: &mut String, fitting: &Fitting) -> Result<(), AllocError> {
    append_word(text, "fit")?;
    append_word(text, fitting.serial.as_str())?;
    append_word(text, fitting.tail.as_str())?;
    append_word(text, fitting.position.as_str())?;
    append_moment(text, fitting.moment)
}

fn append_removal(text: &mut String, removal: &Removal) -> Result<(), AllocError> {
    append_word(text, "remove")?;
    append_word(text, removal.serial.as_str())?;
    append_moment(text, removal.moment)
}

fn append_place(text: &mut String, place: &Place) -> Result<(), AllocError> {
    match place {
        Place::Aircraft(tail) => {
            append_word(text, "aircraft")?;
            append_word(text, tail.as_str())
        }
        Place::Shop(serial, kind) => {
            append_word(text, "shop")?;
            append_word(text, serial.as_str())?;
            append_word(text, kind.as_str())
        }
    }
}

fn append_release(text: &mut String, release: &Release) -> Result<(), AllocError> {
    append_word(text, "release")?;
    append_place(text, &release.place)?;
    append_moment(text, release.moment)
}

// Appends a line of a release: airframe:TAIL=TASK, component:SERIAL=TASK or defect:DOC.
fn append_line(text: &mut String, line: &Line) -> Result<(), AllocError> {
    match line {
        Line::Done(item, task) => {
            let (kind, name) = match item {
                Item::Airframe(tail) => ("airframe", tail.as_str()),
                Item::Component(serial) => ("component", serial.as_str()),
            };
            let task = task.as_str();
            write!(text, " {kind}:{name}={task}")
        }
        Line::Rectified(doc) => {
            let doc = doc.as_str();
            write!(text, " defect:{doc}")
        }
    }
}

/// Appends a category: A DAYS, B, C or D.
pub fn append_category(text: &mut String, category: &Category) -> Result<(), AllocError> {
    match category {
        Category::A(days) => {
            append_word(text, "A")?;
            append_number(text, *days)
        }
        Category::B => append_word(text, "B"),
        Category::C => append_word(text, "C"),
        Category::D => append_word(text, "D"),
    }
}

fn append_deferral(text: &mut String, deferral: &Deferral) -> Result<(), AllocError> {
    append_word(text, "defer")?;
    append_word(text, deferral.tail.as_str())?;
    append_moment(text, deferral.moment)?;
    append_word(text, deferral.reference.as_str())?;
    append_category(text, &deferral.category)
}

fn append_extension(
    alloc: Global,
    text: &mut String,
    extension: &Extension,
) -> Result<(), AllocError> {
    append_word(text, "extend")?;
    append_word(text, extension.defect.as_str())?;
    append_day(alloc, text, extension.day)?;
    append_number(text, extension.days)
}

// Appends what a command adds to the records.
fn append_added(alloc: Global, text: &mut String, command: &Command) -> Result<(), AllocError> {
    if let Some(aircraft) = command.added_aircraft() {
        append_aircraft(alloc, text, &aircraft)?;
    }
    for place in command.positions() {
        append_position(text, place)?;
    }
    if let Some(component) = command.added_component() {
        append_component(alloc, text, &component)?;
    }
    Ok(())
}

// Appends what a command says of programmes and their tasks.
fn append_planned(alloc: Global, text: &mut String, command: &Command) -> Result<(), AllocError> {
    if let Some(programme) = command.loaded_programme() {
        append_programme(text, &programme)?;
    }
    for task in command.tasks() {
        append_task(text, task)?;
    }
    if let Some(opening) = command.stated_opening() {
        append_accomplished(alloc, text, &opening)?;
    }
    Ok(())
}

// Appends what a command says was done.
fn append_done(text: &mut String, command: &Command) -> Result<(), AllocError> {
    if let Some(sector) = command.flown_sector() {
        append_sector(text, &sector)?;
    }
    if let Some(fitting) = command.fitting() {
        append_fitting(text, &fitting)?;
    }
    if let Some(removal) = command.removal() {
        append_removal(text, &removal)?;
    }
    if let Some(release) = command.release() {
        append_release(text, &release)?;
    }
    for line in command.lines() {
        append_line(text, line)?;
    }
    Ok(())
}

// Appends what a command says of deferred defects.
fn append_deferred(alloc: Global, text: &mut String, command: &Command) -> Result<(), AllocError> {
    if let Some(deferral) = command.deferral() {
        append_deferral(text, &deferral)?;
    }
    if let Some(extension) = command.extension() {
        append_extension(alloc, text, &extension)?;
    }
    Ok(())
}

/// The document of a command, and what each of its accessors shows, in the words of a case.
pub fn command_text(alloc: Global, command: &Command) -> Result<String, AllocError> {
    let mut text = String::from_str(alloc, command.doc().as_str())?;
    append_added(alloc, &mut text, command)?;
    append_planned(alloc, &mut text, command)?;
    append_done(&mut text, command)?;
    append_deferred(alloc, &mut text, command)?;
    Ok(text)
}
