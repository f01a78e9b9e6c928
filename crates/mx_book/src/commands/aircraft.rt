//! An aircraft as it comes into the records.

use mx_base::{Day, Kind, Moment, Tail, Use};

/// An aircraft, and the life that its airframe brings with it.
#[derive(Clone, Copy, Debug, PartialEq, Eq)]
pub struct Aircraft {
    /// Its registration.
    pub tail: Tail,
    /// The kind that its maintenance programme is for.
    pub kind: Kind,
    /// The day on which it was built.
    pub birth: Day,
    /// The airframe's use before the records begin.
    pub opening: Use,
    /// The moment up to which the opening counts.
    pub as_of: Moment,
}
