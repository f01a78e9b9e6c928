//! Components that were found.
ghost use Rattle.std.specs.Prelude.{◌≡◌, ℕ, List, filter, map, nat_eq, nat_lt, length, IfOk};
ghost use Rattle.mx_book.specs.commands.Act.{Entry, component_of};
ghost use Rattle.mx_book.specs.commands.Same.{same_text};
ghost use Rattle.mx_book.specs.Register.{component, has_room_for_component, register};
ghost use Rattle.mx_book.specs.declared.limits.TheConstants.{MOST_COMPONENTS};
ghost use Rattle.mx_registers.specs.Names.{seq_of_serial, serial_at};
ghost use Rattle.mx_registers.specs.Registers.{component_rows};
ghost use Rattle.mx_base.specs.declared.rows.rows.ComponentRow.{ComponentRow};
ghost use Rattle.mx_row_rules.specs.found.Names.{component_number, serial_in};
ghost use Rattle.mx_row_rules.specs.found.Said.{component_in};

use mx_base::rows::ComponentRow;
use mx_base::{Serial, Use};
use mx_book::commands::Component;
use std::alloc::{AllocError, Global};

/// The number of the first of these components.
pub fn component_number(rows: &[ComponentRow]) -> Option<u32>
    ensures { result ≡ component_number rows.now }
{
    rows.first().map(|row| row.seq)
}

/// The serial number of the first of these components.
pub fn serial_in(rows: &[ComponentRow]) -> Option<Serial>
    ensures { result ≡ serial_in rows.now }
{
    rows.first().map(|row| row.serial)
}

/// The serial numbers of these components, in their order. An error where memory runs out.
pub fn serials_said(alloc: Global, rows: &[ComponentRow]) -> Result<Vec<Serial>, AllocError>
    ensures { IfOk result (λ serials. serials.items ≡ map (λ row. row.serial) rows.now) }
{
    rows.iter().map(|row| row.serial).collect(alloc)
}

/// The component that the first of these rows says.
pub fn component_in(rows: &[ComponentRow]) -> Option<Component>
    ensures { result ≡ component_in rows.now }
{
    rows.first().map(|row| Component {
        serial: row.serial,
        part: row.part,
        birth: row.birth,
        opening: Use {
            minutes: row.minutes,
            cycles: row.cycles,
        },
        as_of: row.as_of,
    })
}

/// The rows of components with a serial number say the component and have its number; those with a number, its serial
/// number; and all of them are as many as there are components, and have their serial numbers, in the order of their
/// entries.
pub fn components_are_found()
    ensures by_serial { (book : List Entry) (serial : List ℕ)
        → component_in (filter (λ (row : ComponentRow). same_text row.serial serial)
        (component_rows book)) ≡ component book serial }
    ensures number { (book : List Entry) (serial : List ℕ)
        → component_number (filter (λ (row : ComponentRow). same_text row.serial serial)
        (component_rows book)) ≡ seq_of_serial book serial }
    ensures by_number { (book : List Entry) (n : ℕ)
        → serial_in (filter (λ (row : ComponentRow). nat_eq row.seq n) (component_rows book))
        ≡ serial_at book n }
    ensures room { (book : List Entry)
        → nat_lt (length (component_rows book)) MOST_COMPONENTS ≡ has_room_for_component book }
    ensures serials { (book : List Entry)
        → map (λ (row : ComponentRow). row.serial) (component_rows book)
        ≡ map (λ c. c.serial) (register component_of book) }
{}
