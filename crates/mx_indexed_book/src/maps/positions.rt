//! The positions of the aircraft, in a map.
ghost use Rattle.std.specs.Prelude.{◌≡◌, IfOk, Some, map};
ghost use Rattle.mx_indexed_book.specs.maps.Positions.{parts_given};

use mx_base::{Part, Position, Tail};
use mx_book::commands::Command;
use std::alloc::{AllocError, Global};

// The parts of positions, each by its aircraft and its name.
fn parts_of(
    alloc: Global,
    tail: &Tail,
    positions: &[(Position, Part)],
) -> Result<Vec<((Tail, Position), Option<Part>)>, AllocError>
    ensures { IfOk result (λ parts. parts.items
        ≡ map (λ p. ((tail.now, p.0), Some p.1)) positions.now) }
{
    let mut parts = Vec::new(alloc);
    let mut rest = positions;
    while let Some((position, later)) = rest.split_first() {
        parts.push(((*tail, position.0), Some(position.1)))?;
        rest = later;
    }
    Ok(parts)
}

/// The parts that an entry gives positions, each by its aircraft and its name. An error where memory runs out.
pub fn parts_given(
    alloc: Global,
    entry: &Command,
) -> Result<Vec<((Tail, Position), Option<Part>)>, AllocError>
    ensures { IfOk result (λ parts. parts.items ≡ parts_given entry.now.act) }
{
    match entry.added_aircraft() {
        Some(aircraft) => parts_of(alloc, &aircraft.tail, entry.positions()),
        None => Ok(Vec::new(alloc)),
    }
}
