//! A component as it comes into the records.

use mx_base::{Day, Moment, Part, Serial, Use};

/// A serialised component, and the life that it brings with it.
#[derive(Clone, Copy, Debug, PartialEq, Eq)]
pub struct Component {
    /// Its serial number, which names it in the whole office.
    pub serial: Serial,
    /// The part that it is one of.
    pub part: Part,
    /// The day on which it was made.
    pub birth: Day,
    /// Its use before the records begin.
    pub opening: Use,
    /// The moment up to which the opening counts.
    pub as_of: Moment,
}
