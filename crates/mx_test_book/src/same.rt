//! Whether commands are the same as others.

use mx_book::commands::Command;

/// The first command that isn't the one in its place among others.
pub fn first_other<'a>(found: &'a [Command], wanted: &[Command]) -> Option<&'a Command> {
    for (one, other) in found.iter().zip(wanted.iter()) {
        if !one.is_same(other) {
            return Some(one);
        }
    }
    None
}

/// Whether these are the same commands, in the same order.
pub fn are_same(found: &[Command], wanted: &[Command]) -> bool {
    found.len() == wanted.len() && first_other(found, wanted).is_none()
}
