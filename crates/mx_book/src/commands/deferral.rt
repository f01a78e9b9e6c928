//! Defects that were deferred: flown with, and rectified within the interval of their category.

use mx_base::{Category, Day, Doc, MelRef, Moment, Tail};

/// The deferral of a defect.
#[derive(Clone, Copy, Debug, PartialEq, Eq)]
pub struct Deferral {
    /// The registration of the aircraft.
    pub tail: Tail,
    /// The moment at which the defect was found.
    pub moment: Moment,
    /// The item of the minimum equipment list that allows to defer it.
    pub reference: MelRef,
    /// Its category.
    pub category: Category,
}

/// The extension of the interval within which a deferred defect is rectified.
#[derive(Clone, Copy, Debug, PartialEq, Eq)]
pub struct Extension {
    /// The document by which the defect was deferred.
    pub defect: Doc,
    /// The day on which it was extended.
    pub day: Day,
    /// By so many days.
    pub days: u32,
}
