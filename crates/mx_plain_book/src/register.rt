//! Finding an entry by its document, and a row in the registers of a book.
ghost use Rattle.std.specs.Prelude.{◌≡◌, ◌≤◌, length, IfOk};
ghost use Rattle.std.specs.Option.{option_map};
ghost use Rattle.mx_book.specs.commands.Act.{aircraft_of, component_of};
ghost use Rattle.mx_book.specs.Register.{register, aircraft, component, found_of, has_room_for_aircraft, has_room_for_component, positions_added, part_among, part_at};
ghost use Rattle.mx_book.specs.Judge.{known_from};
ghost use Rattle.mx_book.specs.Asking.{known_same};
ghost use Rattle.mx_book.specs.declared.limits.TheConstants.{MOST_ENTRIES};
ghost use Rattle.mx_lists.specs.Fleet.{tails};
ghost use Rattle.mx_lists.specs.Inventory.{serials};

use mx_base::{Part, Position, Serial, Tail};
use mx_book::commands::{Aircraft, Command, Component, Item};
use mx_book::found::Found;
use mx_book::limits::{MOST_AIRCRAFT, MOST_COMPONENTS};
use std::alloc::{AllocError, Global};

/// The number of the entry with the document of a command, and whether it is the same command.
pub(crate) fn known(entries: &[Command], command: &Command) -> Option<(u32, bool)>
    requires few { length entries.now ≤ MOST_ENTRIES }
    ensures { result ≡ option_map (known_same command.now)
        (known_from command.now.doc 1 entries.now) }
{
    let doc = command.doc();
    let mut seq = 1u32;
    let mut rest = entries;
    while let Some((entry, later)) = rest.split_first() {
        if entry.doc() == doc {
            return Some((seq, entry.is_same(command)));
        }
        seq += 1;
        rest = later;
    }
    None
}

/// The aircraft with this registration.
pub(crate) fn aircraft_of_tail(entries: &[Command], tail: &Tail) -> Option<Aircraft>
    ensures { result ≡ aircraft entries.now tail.now }
{
    entries
        .iter()
        .filter_map(|entry| entry.added_aircraft())
        .find(|aircraft| aircraft.tail == *tail)
}

/// The registrations of all aircraft, in the order of their entries. An error where memory runs out.
pub(crate) fn tails_of(alloc: Global, entries: &[Command]) -> Result<Vec<Tail>, AllocError>
    ensures { IfOk result (λ found. found.items ≡ tails entries.now) }
{
    entries
        .iter()
        .filter_map(|entry| entry.added_aircraft())
        .map(|aircraft| aircraft.tail)
        .collect(alloc)
}

// How many aircraft there are.
fn aircraft_count(entries: &[Command]) -> usize
    ensures { result ≡ length (register aircraft_of entries.now) }
{
    entries
        .iter()
        .filter_map(|entry| entry.added_aircraft())
        .count()
}

/// Whether there is room for one more aircraft.
pub(crate) fn has_room_for_aircraft(entries: &[Command]) -> bool
    ensures { result ≡ has_room_for_aircraft entries.now }
{
    aircraft_count(entries) < MOST_AIRCRAFT
}

/// The component with this serial number.
pub(crate) fn component_of_serial(entries: &[Command], serial: &Serial) -> Option<Component>
    ensures { result ≡ component entries.now serial.now }
{
    entries
        .iter()
        .filter_map(|entry| entry.added_component())
        .find(|component| component.serial == *serial)
}

/// The serial numbers of all components, in the order of their entries. An error where memory runs out.
pub(crate) fn serials_of(alloc: Global, entries: &[Command]) -> Result<Vec<Serial>, AllocError>
    ensures { IfOk result (λ found. found.items ≡ serials entries.now) }
{
    entries
        .iter()
        .filter_map(|entry| entry.added_component())
        .map(|component| component.serial)
        .collect(alloc)
}

// How many components there are.
fn component_count(entries: &[Command]) -> usize
    ensures { result ≡ length (register component_of entries.now) }
{
    entries
        .iter()
        .filter_map(|entry| entry.added_component())
        .count()
}

/// Whether there is room for one more component.
pub(crate) fn has_room_for_component(entries: &[Command]) -> bool
    ensures { result ≡ has_room_for_component entries.now }
{
    component_count(entries) < MOST_COMPONENTS
}

/// What the registers have of an item.
pub fn found_of(entries: &[Command], item: &Item) -> Found
    ensures { result ≡ found_of entries.now item.now }
{
    match item {
        Item::Airframe(tail) => Found::Airframe(aircraft_of_tail(entries, tail)),
        Item::Component(serial) => Found::Component(component_of_serial(entries, serial)),
    }
}

// The positions that an entry gives an aircraft, each with the part that it takes.
fn positions_given<'a>(entry: &'a Command, tail: &Tail) -> &'a [(Position, Part)]
    ensures { result.now ≡ positions_added tail.now entry.now.act }
{
    match entry.added_aircraft() {
        Some(aircraft) => {
            if aircraft.tail == *tail {
                entry.positions()
            } else {
                &[]
            }
        }
        None => &[],
    }
}

// The part that the position with this name takes.
fn part_of_position(positions: &[(Position, Part)], position: &Position) -> Option<Part>
    ensures { result ≡ part_among positions.now position.now }
{
    positions
        .iter()
        .find(|named| named.0 == *position)
        .map(|named| named.1)
}

/// The part that a position of an aircraft takes, or `None` where the aircraft does not have the position.
pub(crate) fn part_at_position(
    entries: &[Command],
    tail: &Tail,
    position: &Position,
) -> Option<Part>
    ensures { result ≡ part_at entries.now tail.now position.now }
{
    let mut rest = entries;
    while let Some((entry, later)) = rest.split_first() {
        if let Some(part) = part_of_position(positions_given(entry, tail), position) {
            return Some(part);
        }
        rest = later;
    }
    None
}
