//! Aircraft that were found, and their positions.
ghost use Rattle.std.specs.Prelude.{◌≡◌, ℕ, List, filter, map, nat_eq, nat_lt, length, None, Some, IfOk};
ghost use Rattle.mx_book.specs.commands.Act.{Entry, aircraft_of};
ghost use Rattle.mx_book.specs.commands.Same.{same_text};
ghost use Rattle.mx_book.specs.Book.{IsBook};
ghost use Rattle.mx_book.specs.Register.{aircraft, has_room_for_aircraft, part_at, register};
ghost use Rattle.mx_book.specs.declared.limits.TheConstants.{MOST_AIRCRAFT};
ghost use Rattle.mx_registers.specs.Names.{seq_of_tail, tail_at};
ghost use Rattle.mx_registers.specs.Registers.{aircraft_rows, place_rows};
ghost use Rattle.mx_base.specs.declared.rows.rows.AircraftRow.{AircraftRow};
ghost use Rattle.mx_base.specs.declared.rows.rows.PlaceRow.{PlaceRow};
ghost use Rattle.mx_row_rules.specs.found.Names.{aircraft_number, tail_in};
ghost use Rattle.mx_row_rules.specs.found.Said.{aircraft_in, part_in};

use mx_base::rows::{AircraftRow, PlaceRow};
use mx_base::{Part, Position, Tail, Use};
use mx_book::commands::Aircraft;
use std::alloc::{AllocError, Global};

/// The number of the first of these aircraft.
pub fn aircraft_number(rows: &[AircraftRow]) -> Option<u32>
    ensures { result ≡ aircraft_number rows.now }
{
    rows.first().map(|row| row.seq)
}

/// The registration of the first of these aircraft.
pub fn tail_in(rows: &[AircraftRow]) -> Option<Tail>
    ensures { result ≡ tail_in rows.now }
{
    rows.first().map(|row| row.tail)
}

/// The registrations of these aircraft, in their order. An error where memory runs out.
pub fn tails_said(alloc: Global, rows: &[AircraftRow]) -> Result<Vec<Tail>, AllocError>
    ensures { IfOk result (λ tails. tails.items ≡ map (λ row. row.tail) rows.now) }
{
    rows.iter().map(|row| row.tail).collect(alloc)
}

/// The aircraft that the first of these rows says.
pub fn aircraft_in(rows: &[AircraftRow]) -> Option<Aircraft>
    ensures { result ≡ aircraft_in rows.now }
{
    rows.first().map(|row| Aircraft {
        tail: row.tail,
        kind: row.kind,
        birth: row.birth,
        opening: Use {
            minutes: row.minutes,
            cycles: row.cycles,
        },
        as_of: row.as_of,
    })
}

/// The part that a position takes, by the rows of the positions of an aircraft.
pub fn part_in(rows: &[PlaceRow], position: &Position) -> Option<Part>
    ensures { result ≡ part_in rows.now position.now }
{
    rows.iter()
        .find(|row| row.position == *position)
        .map(|row| row.part)
}

/// The rows of aircraft with a registration say the aircraft and have its number; those with a number, its registration;
/// and all of them are as many as there are aircraft, and have their registrations, in the order of their entries.
pub fn aircraft_are_found()
    ensures by_tail { (book : List Entry) (tail : List ℕ)
        → aircraft_in (filter (λ (row : AircraftRow). same_text row.tail tail) (aircraft_rows book))
        ≡ aircraft book tail }
    ensures number { (book : List Entry) (tail : List ℕ)
        → aircraft_number (filter (λ (row : AircraftRow). same_text row.tail tail)
        (aircraft_rows book)) ≡ seq_of_tail book tail }
    ensures by_number { (book : List Entry) (n : ℕ)
        → tail_in (filter (λ (row : AircraftRow). nat_eq row.seq n) (aircraft_rows book))
        ≡ tail_at book n }
    ensures room { (book : List Entry)
        → nat_lt (length (aircraft_rows book)) MOST_AIRCRAFT ≡ has_room_for_aircraft book }
    ensures tails { (book : List Entry) → map (λ (row : AircraftRow). row.tail) (aircraft_rows book)
        ≡ map (λ a. a.tail) (register aircraft_of book) }
{}

/// The rows with the number of an aircraft are its positions, and an aircraft that is not there has none.
pub fn positions_are_found()
    ensures found { (book : List Entry) (tail position : List ℕ) (n : ℕ) → IsBook book
        → seq_of_tail book tail ≡ Some n
        → part_in (filter (λ (row : PlaceRow). nat_eq row.seq n) (place_rows book)) position
        ≡ part_at book tail position }
    ensures missed { (book : List Entry) (tail position : List ℕ)
        → seq_of_tail book tail ≡ None → part_at book tail position ≡ None }
{}
