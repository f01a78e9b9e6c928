//! Maintenance that was released to service.

use crate::commands::item::Item;
use mx_base::{Doc, Kind, Moment, Serial, Tail, TaskId};

/// Where work was done and released.
#[derive(Clone, Copy, Debug, PartialEq, Eq)]
pub enum Place {
    /// At an aircraft: on its airframe, or on what is fitted to it.
    Aircraft(Tail),
    /// In a shop: on this component, which is fitted nowhere, by the maintenance programme of this kind of aircraft.
    Shop(Serial, Kind),
}

/// A certificate of release to service, its lines aside.
#[derive(Clone, Copy, Debug, PartialEq, Eq)]
pub struct Release {
    /// Where the work was done.
    pub place: Place,
    /// The moment at which it was released.
    pub moment: Moment,
}

/// What a line of a release certifies.
#[derive(Clone, Copy, Debug, PartialEq, Eq)]
pub enum Line {
    /// The task was done on the item.
    Done(Item, TaskId),
    /// The defect that was deferred by this document was rectified.
    Rectified(Doc),
}
