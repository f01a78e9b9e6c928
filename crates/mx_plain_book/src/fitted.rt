//! What is fitted to an aircraft by the entries of a book, each component behind its position.
ghost use Rattle.std.specs.Prelude.{◌≡◌, [], IfOk};
ghost use Rattle.std.specs.List.{cons_option};
ghost use Rattle.mx_lists.specs.Fitted.{fitted_on};
ghost use Rattle.mx_plain_book.specs.Fitted.{fitted_begun};

use crate::spans::removed_at;
use mx_base::{Position, Serial, Tail};
use mx_book::commands::Command;
use std::alloc::{AllocError, Global};

// The position and the component that an entry leaves fitted to an aircraft.
fn place_begun(entry: &Command, later: &[Command], tail: &Tail) -> Option<(Position, Serial)>
    ensures { cons_option result [] ≡ fitted_begun tail.now entry.now later.now }
{
    match entry.fitting() {
        None => None,
        Some(fitting) => {
            if fitting.tail == *tail && removed_at(later, &fitting.serial).is_none() {
                Some((fitting.position, fitting.serial))
            } else {
                None
            }
        }
    }
}

/// The components that are fitted to an aircraft, each behind its position, in the order of their fittings. An error where
/// memory runs out.
pub(crate) fn places_fitted(
    alloc: Global,
    entries: &[Command],
    tail: &Tail,
) -> Result<Vec<(Position, Serial)>, AllocError>
    ensures { IfOk result (λ places. places.items ≡ fitted_on tail.now entries.now) }
{
    let mut places = Vec::new(alloc);
    let mut rest = entries;
    while let Some((entry, later)) = rest.split_first() {
        if let Some(place) = place_begun(entry, later, tail) {
            places.push(place)?;
        }
        rest = later;
    }
    Ok(places)
}
