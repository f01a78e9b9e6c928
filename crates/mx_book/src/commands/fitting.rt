//! Where a component flies: fitted to a position of an aircraft, and removed from it.

use mx_base::{Moment, Position, Serial, Tail};

/// A component fitted to a position of an aircraft.
#[derive(Clone, Copy, Debug, PartialEq, Eq)]
pub struct Fitting {
    /// The serial number of the component.
    pub serial: Serial,
    /// The registration of the aircraft.
    pub tail: Tail,
    /// The position of the aircraft.
    pub position: Position,
    /// The moment from which on the component flies with the aircraft.
    pub moment: Moment,
}

/// A component removed from the aircraft that it was fitted to.
#[derive(Clone, Copy, Debug, PartialEq, Eq)]
pub struct Removal {
    /// The serial number of the component.
    pub serial: Serial,
    /// The moment up to which the component flew with the aircraft.
    pub moment: Moment,
}
