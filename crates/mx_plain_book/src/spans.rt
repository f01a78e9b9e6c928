//! Where components were fitted, and from when to when: each fitting with the first later removal of its
//! component.
ghost use Rattle.std.specs.Prelude.{◌≡◌, [], find};
ghost use Rattle.std.specs.List.{cons_option, list_any};
ghost use Rattle.mx_book.specs.commands.Act.{removal_of};
ghost use Rattle.mx_book.specs.commands.Same.{same_text};
ghost use Rattle.mx_book.specs.Register.{register};
ghost use Rattle.mx_book.specs.Span.{first_removal, spans_of, spans_begun_of, tail_fitted, is_taken};
ghost use Rattle.mx_book.specs.Life.{has_landed_by, is_within, latest, removals_from, removals_begun};
ghost use Rattle.mx_lists.specs.Inventory.{place_fitted};

use mx_base::{Moment, Position, Serial, Tail};
use mx_book::commands::{Command, Removal, Sector};

// The first removal of a component.
fn removal_of_serial(entries: &[Command], serial: &Serial) -> Option<Removal>
    ensures { result ≡ find (λ r. same_text r.serial serial.now) (register removal_of entries.now) }
{
    entries
        .iter()
        .filter_map(|entry| entry.removal())
        .find(|removal| removal.serial == *serial)
}

/// The number of the moment at which a component is first removed.
pub fn removed_at(entries: &[Command], serial: &Serial) -> Option<u32>
    ensures { result ≡ first_removal serial.now entries.now }
{
    removal_of_serial(entries, serial).map(|removal| removal.moment.number())
}

// Whether a sector has landed by the first removal of a component.
fn has_landed(entries: &[Command], serial: &Serial, sector: &Sector) -> bool
    ensures { result ≡ has_landed_by (first_removal serial.now entries.now) sector.now }
{
    match removed_at(entries, serial) {
        None => true,
        Some(to) => sector.on.number() <= to,
    }
}

// Whether a sector is flown within the span that an entry begins for a component.
fn is_within_begun(entry: &Command, later: &[Command], serial: &Serial, sector: &Sector) -> bool
    ensures { result ≡ list_any (is_within sector.now)
        (spans_begun_of entry.now later.now serial.now) }
{
    match entry.fitting() {
        None => false,
        Some(fitting) => {
            fitting.serial == *serial
                && fitting.tail == sector.tail
                && fitting.moment <= sector.off
                && has_landed(later, serial, sector)
        }
    }
}

/// Whether a sector is flown within a span of a component.
pub(crate) fn is_within_span(entries: &[Command], serial: &Serial, sector: &Sector) -> bool
    ensures { result ≡ list_any (is_within sector.now) (spans_of entries.now serial.now) }
{
    let mut rest = entries;
    while let Some((entry, later)) = rest.split_first() {
        if is_within_begun(entry, later, serial, sector) {
            return true;
        }
        rest = later;
    }
    false
}

/// The aircraft that a component is fitted to, and the position there, or `None` where it is fitted nowhere.
pub(crate) fn place_of(entries: &[Command], serial: &Serial) -> Option<(Tail, Position)>
    ensures { result ≡ place_fitted entries.now serial.now }
{
    let mut rest = entries;
    while let Some((entry, later)) = rest.split_first() {
        if let Some(fitting) = entry.fitting()
            && fitting.serial == *serial
            && removed_at(later, serial).is_none()
        {
            return Some((fitting.tail, fitting.position));
        }
        rest = later;
    }
    None
}

/// The registration of the aircraft that a component is fitted to, or `None` where it is fitted nowhere.
pub(crate) fn fitted_to(entries: &[Command], serial: &Serial) -> Option<Tail>
    ensures { result ≡ tail_fitted entries.now serial.now }
{
    let (tail, _) = place_of(entries, serial)?;
    Some(tail)
}

/// Whether a component is fitted to the position of an aircraft.
pub(crate) fn is_position_taken(entries: &[Command], tail: &Tail, position: &Position) -> bool
    ensures { result ≡ is_taken entries.now tail.now position.now }
{
    let mut rest = entries;
    while let Some((entry, later)) = rest.split_first() {
        if let Some(fitting) = entry.fitting()
            && fitting.tail == *tail
            && removed_at(later, &fitting.serial).is_none()
            && fitting.position == *position
        {
            return true;
        }
        rest = later;
    }
    false
}

// The moment at which a component is first removed, or the first of all.
fn moment_removed(entries: &[Command], serial: &Serial) -> Moment
    ensures { result ≡ latest (cons_option (first_removal serial.now entries.now) []) }
{
    match removal_of_serial(entries, serial) {
        Some(removal) => removal.moment,
        None => Moment::FIRST,
    }
}

// The moment of the removal that ends the span that an entry begins with an aircraft, or the first of all.
fn removal_begun(entry: &Command, later: &[Command], tail: &Tail) -> Moment
    ensures { result ≡ latest (removals_begun entry.now later.now tail.now) }
{
    match entry.fitting() {
        None => Moment::FIRST,
        Some(fitting) => {
            if fitting.tail == *tail {
                moment_removed(later, &fitting.serial)
            } else {
                Moment::FIRST
            }
        }
    }
}

/// The latest moment at which a component was removed from an aircraft, or the first of all.
pub(crate) fn latest_removal(entries: &[Command], tail: &Tail) -> Moment
    ensures { result ≡ latest (removals_from entries.now tail.now) }
{
    let mut latest = Moment::FIRST;
    let mut rest = entries;
    while let Some((entry, later)) = rest.split_first() {
        latest = latest.max(removal_begun(entry, later, tail));
        rest = later;
    }
    latest
}
