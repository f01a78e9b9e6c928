//! The layouts by number.

/// A layout of the tables, by its number: 1, 2 or 3.
#[derive(Clone, Copy, Debug, PartialEq, Eq)]
pub struct Layout(pub u8);
