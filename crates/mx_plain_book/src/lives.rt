//! Lives and clocks, read from all entries anew.
ghost use Rattle.std.specs.Prelude.{◌≡◌, ◌≤◌, ◌+◌, length, true, if◌then◌else◌};
ghost use Rattle.std.specs.List.{flat_map, list_all};
ghost use Rattle.mx_book.specs.commands.Act.{Flown};
ghost use Rattle.mx_book.specs.commands.Shape.{has_shape, use_shape, sector_shape};
ghost use Rattle.mx_book.specs.declared.commands.item.Item.TheVariants.{Airframe, Component};
ghost use Rattle.mx_book.specs.Life.{selected, is_credited, has_landed_by, share, use_after, life_until, latest, if_at_aircraft, if_in_shop, airframe_moments, component_moments, clock};
ghost use Rattle.mx_book.specs.declared.limits.TheConstants.{MOST_ENTRIES};

use crate::register::found_of;
use crate::spans::{is_within_span, latest_removal};
use mx_base::{Moment, Serial, Tail, Use};
use mx_book::commands::{Body, Command, Item, Place, Sector};
use mx_book::found::opening_use;

const NO_USE: Use = Use {
    minutes: 0,
    cycles: 0,
};

// Whether an item is credited with a sector.
fn is_credited_with(entries: &[Command], item: &Item, sector: &Sector) -> bool
    ensures { result ≡ is_credited entries.now item.now sector.now }
{
    match item {
        Item::Airframe(tail) => sector.tail == *tail,
        Item::Component(serial) => is_within_span(entries, serial, sector),
    }
}

// Whether a sector has landed by the moment with a number, where one is named.
fn has_landed(sector: &Sector, until: Option<u32>) -> bool
    ensures { result ≡ has_landed_by until sector.now }
{
    match until {
        None => true,
        Some(moment) => sector.on.number() <= moment,
    }
}

// What a sector adds to the life of an item.
fn share_of_sector(entries: &[Command], item: &Item, until: Option<u32>, sector: &Sector) -> Use
    requires { sector_shape sector.now ≡ true }
    ensures { result ≡ share entries.now item.now until (Flown sector.now) }
{
    if is_credited_with(entries, item, sector) && has_landed(sector, until) {
        Use {
            minutes: sector.on.number() - sector.off.number(),
            cycles: sector.cycles,
        }
    } else {
        NO_USE
    }
}

// What an entry adds to the life of an item.
fn share_of(entries: &[Command], item: &Item, until: Option<u32>, entry: &Command) -> Use
    ensures { result ≡ share entries.now item.now until entry.now.act }
{
    match entry.flown_sector() {
        Some(sector) => share_of_sector(entries, item, until, &sector),
        None => NO_USE,
    }
}

// A use, and the sectors that an item is credited with.
fn use_after_sectors(entries: &[Command], item: &Item, until: Option<u32>, opening: Use) -> Use
    requires few { length entries.now ≤ MOST_ENTRIES }
    requires shaped { list_all has_shape entries.now ≡ true }
    requires small { use_shape opening ≡ true }
    ensures { result ≡ use_after (selected entries.now item.now until entries.now) opening }
{
    let mut minutes = opening.minutes;
    let mut cycles = opening.cycles;
    let mut rest = entries;
    while let Some((entry, later)) = rest.split_first() {
        let more = share_of(entries, item, until, entry);
        minutes += more.minutes;
        cycles += more.cycles;
        rest = later;
    }
    Use { minutes, cycles }
}

/// The life of an item, up to the moment with a number where one is named.
pub fn life(entries: &[Command], item: &Item, until: Option<u32>) -> Option<Use>
    requires few { length entries.now ≤ MOST_ENTRIES }
    requires shaped { list_all has_shape entries.now ≡ true }
    ensures { result ≡ life_until entries.now item.now until }
{
    let opening = opening_use(&found_of(entries, item))?;
    Some(use_after_sectors(entries, item, until, opening))
}

fn moment_if(is_same: bool, moment: Moment) -> Moment
    ensures { result ≡ (if is_same then moment else 0) }
{
    if is_same { moment } else { Moment::FIRST }
}

// The moment of work at a place, where that is the aircraft with this registration, or the first of all.
fn moment_at_aircraft(tail: &Tail, place: &Place, moment: Moment) -> Moment
    ensures { result ≡ latest (if_at_aircraft tail.now place.now moment) }
{
    match place {
        Place::Aircraft(worked_on) => moment_if(*worked_on == *tail, moment),
        Place::Shop(..) => Moment::FIRST,
    }
}

// The moment of work at a place, where that is a shop that has this component, or the first of all.
fn moment_in_shop(serial: &Serial, place: &Place, moment: Moment) -> Moment
    ensures { result ≡ latest (if_in_shop serial.now place.now moment) }
{
    match place {
        Place::Aircraft(_) => Moment::FIRST,
        Place::Shop(worked_on, _) => moment_if(*worked_on == *serial, moment),
    }
}

// The moment that an entry gives the clock of an airframe, removals aside, or the first of all.
fn moment_of_airframe(tail: &Tail, entry: &Command) -> Moment
    ensures { result ≡ latest (airframe_moments tail.now entry.now.act) }
{
    match entry.body() {
        Body::AddAircraft {
            tail: added,
            as_of,
            ..
        } => moment_if(*added == *tail, *as_of),
        Body::Sector {
            tail: flown,
            on,
            ..
        } => moment_if(*flown == *tail, *on),
        Body::Fit {
            tail: fitted_to,
            moment,
            ..
        } => moment_if(*fitted_to == *tail, *moment),
        Body::Release { place, moment, .. } => moment_at_aircraft(tail, place, *moment),
        Body::Defer {
            tail: found_on,
            moment,
            ..
        } => moment_if(*found_on == *tail, *moment),
        _ => Moment::FIRST,
    }
}

// The latest moment that the entries have of an airframe, removals aside.
fn latest_of_airframe(entries: &[Command], tail: &Tail) -> Moment
    ensures { result
        ≡ latest (flat_map (λ entry. airframe_moments tail.now entry.act) entries.now) }
{
    entries.iter().fold(Moment::FIRST, |clock, entry| {
        clock.max(moment_of_airframe(tail, entry))
    })
}

/// The clock of an airframe: the latest moment that the entries have of it.
pub(crate) fn clock_of_airframe(entries: &[Command], tail: &Tail) -> Moment
    ensures { result ≡ clock entries.now (Airframe tail.now) }
{
    latest_of_airframe(entries, tail).max(latest_removal(entries, tail))
}

// The moment that an entry gives the clock of a component, or the first of all.
fn moment_of_component(serial: &Serial, entry: &Command) -> Moment
    ensures { result ≡ latest (component_moments serial.now entry.now.act) }
{
    match entry.body() {
        Body::AddComponent {
            serial: added,
            as_of,
            ..
        } => moment_if(*added == *serial, *as_of),
        Body::Fit {
            serial: fitted,
            moment,
            ..
        } => moment_if(*fitted == *serial, *moment),
        Body::Remove {
            serial: removed,
            moment,
        } => moment_if(*removed == *serial, *moment),
        Body::Release { place, moment, .. } => moment_in_shop(serial, place, *moment),
        _ => Moment::FIRST,
    }
}

// The clock of a component: the latest moment that the entries have of it.
fn clock_of_component(entries: &[Command], serial: &Serial) -> Moment
    ensures { result ≡ clock entries.now (Component serial.now) }
{
    entries.iter().fold(Moment::FIRST, |clock, entry| {
        clock.max(moment_of_component(serial, entry))
    })
}

/// The clock of an item.
pub(crate) fn clock_of_item(entries: &[Command], item: &Item) -> Moment
    ensures { result ≡ clock entries.now item.now }
{
    match item {
        Item::Airframe(tail) => clock_of_airframe(entries, tail),
        Item::Component(serial) => clock_of_component(entries, serial),
    }
}
