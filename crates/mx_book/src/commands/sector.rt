//! A sector: one flight from take-off to landing, as a line of the technical log has it.

use mx_base::{Moment, Tail};

/// A sector of an aircraft.
#[derive(Clone, Copy, Debug, PartialEq, Eq)]
pub struct Sector {
    /// The registration of the aircraft.
    pub tail: Tail,
    /// The page of the technical log.
    pub page: u32,
    /// The line of the page.
    pub line: u32,
    /// Take-off.
    pub off: Moment,
    /// Landing.
    pub on: Moment,
    /// The cycles logged.
    pub cycles: u32,
}
