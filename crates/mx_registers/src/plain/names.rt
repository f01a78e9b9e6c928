//! Which entry added an aircraft or a component, or deferred a defect, by name and by number.
ghost use Rattle.std.specs.Prelude.{◌≡◌};
ghost use Rattle.std.specs.List.{position};
ghost use Rattle.mx_book.specs.Judge.{item_at as item_of_place};
ghost use Rattle.mx_registers.specs.Names.{adds_named, defect_at, defect_deferred, item_at, seq_of_defect, seq_of_item, seq_of_serial, seq_of_tail, serial_added, serial_at, tail_added, tail_at};

use crate::added_item;
use mx_base::{Doc, Serial, Tail};
use mx_book::commands::{Command, Item, Place};
use mx_book::entry_list::Book;

// Whether an entry adds the aircraft with this registration.
fn adds_aircraft(entry: &Command, tail: &Tail) -> bool
    ensures { result ≡ adds_named tail_added tail.now entry.now }
{
    match entry.added_aircraft() {
        Some(aircraft) => aircraft.tail == *tail,
        None => false,
    }
}

// Whether an entry adds the component with this serial number.
fn adds_component(entry: &Command, serial: &Serial) -> bool
    ensures { result ≡ adds_named serial_added serial.now entry.now }
{
    match entry.added_component() {
        Some(component) => component.serial == *serial,
        None => false,
    }
}

// Whether an entry defers the defect of this document.
fn defers_defect(entry: &Command, doc: &Doc) -> bool
    ensures { result ≡ adds_named defect_deferred doc.now entry.now }
{
    match entry.deferral() {
        Some(_) => entry.doc() == *doc,
        None => false,
    }
}

// The place of the first entry that adds the aircraft.
fn place_of_tail(entries: &[Command], tail: &Tail) -> Option<usize>
    ensures { result ≡ position (adds_named tail_added tail.now) entries.now }
{
    entries.iter().position(|entry| adds_aircraft(entry, tail))
}

// The place of the first entry that adds the component.
fn place_of_serial(entries: &[Command], serial: &Serial) -> Option<usize>
    ensures { result ≡ position (adds_named serial_added serial.now) entries.now }
{
    entries
        .iter()
        .position(|entry| adds_component(entry, serial))
}

// The place of the first entry that defers the defect.
fn place_of_defect(entries: &[Command], doc: &Doc) -> Option<usize>
    ensures { result ≡ position (adds_named defect_deferred doc.now) entries.now }
{
    entries.iter().position(|entry| defers_defect(entry, doc))
}

/// The number of the entry that added the aircraft with this registration.
#[tactic(auto, using(crate::proofs::PlainProofs::NumberLemmas::number_by_place))]
pub fn seq_of_tail(book: &Book, tail: &Tail) -> Option<u32>
    ensures { result ≡ seq_of_tail book.now tail.now }
{
    let _ = book.len();
    let place = place_of_tail(book.as_slice(), tail)?;
    Some(place as u32 + 1)
}

/// The number of the entry that added the component with this serial number.
#[tactic(auto, using(crate::proofs::PlainProofs::NumberLemmas::number_by_place))]
pub fn seq_of_serial(book: &Book, serial: &Serial) -> Option<u32>
    ensures { result ≡ seq_of_serial book.now serial.now }
{
    let _ = book.len();
    let place = place_of_serial(book.as_slice(), serial)?;
    Some(place as u32 + 1)
}

/// The number of the entry that deferred the defect, by the document of that entry.
#[tactic(auto, using(crate::proofs::PlainProofs::NumberLemmas::number_by_place))]
pub fn seq_of_defect(book: &Book, doc: &Doc) -> Option<u32>
    ensures { result ≡ seq_of_defect book.now doc.now }
{
    let _ = book.len();
    let place = place_of_defect(book.as_slice(), doc)?;
    Some(place as u32 + 1)
}

/// The number of the entry that added the item: the aircraft of an airframe, or the component.
pub fn seq_of_item(book: &Book, item: &Item) -> Option<u32>
    ensures { result ≡ seq_of_item book.now item.now }
{
    match item {
        Item::Airframe(tail) => seq_of_tail(book, tail),
        Item::Component(serial) => seq_of_serial(book, serial),
    }
}

/// The number of the entry that added the item of a place: the aircraft, or the component in the shop.
pub fn seq_of_place(book: &Book, place: &Place) -> Option<u32>
    ensures { result ≡ seq_of_item book.now (item_of_place place.now) }
{
    match place {
        Place::Aircraft(tail) => seq_of_tail(book, tail),
        Place::Shop(serial, _) => seq_of_serial(book, serial),
    }
}

/// The registration of the aircraft that the entry with a number added.
pub fn tail_of_aircraft(book: &Book, seq: u32) -> Option<Tail>
    ensures { result ≡ tail_at book.now seq }
{
    let entry = book.entry(seq)?;
    let aircraft = entry.added_aircraft()?;
    Some(aircraft.tail)
}

/// The serial number of the component that the entry with a number added.
pub fn serial_of_component(book: &Book, seq: u32) -> Option<Serial>
    ensures { result ≡ serial_at book.now seq }
{
    let entry = book.entry(seq)?;
    let component = entry.added_component()?;
    Some(component.serial)
}

/// The document of the defect that the entry with a number deferred.
pub fn document_of_defect(book: &Book, seq: u32) -> Option<Doc>
    ensures { result ≡ defect_at book.now seq }
{
    let entry = book.entry(seq)?;
    entry.deferral()?;
    Some(entry.doc())
}

/// The item that the entry with a number added: the airframe of its aircraft, or its component.
pub fn item_of_entry(book: &Book, seq: u32) -> Option<Item>
    ensures { result ≡ item_at book.now seq }
{
    let entry = book.entry(seq)?;
    added_item(entry.body())
}
