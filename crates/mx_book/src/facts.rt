//! What there is against a command, gathered by several questions before it is judged.

use mx_base::{Kind, Moment};

/// What there is against one or more lines of a release.
#[derive(Clone, Copy)]
pub struct LineFacts {
    /// An airframe is named that is unknown.
    pub unknown_aircraft: bool,
    /// A component is named that is unknown.
    pub unknown_component: bool,
    /// A task is certified where no programme is in force.
    pub without_programme: bool,
    /// A task is certified that is not in force at the place, or does not apply to the item.
    pub unknown_task: bool,
    /// A defect is named that was not deferred.
    pub unknown_defect: bool,
    /// Work is certified on an item that is not at the place.
    pub item_elsewhere: bool,
    /// A task is certified that was accomplished, and has no repeat.
    pub closed_task: bool,
    /// A task is certified that retires its item.
    pub retirement: bool,
    /// A defect is named that was rectified.
    pub closed_defect: bool,
    /// A defect is named that is of another aircraft, or the place is a shop.
    pub other_aircraft: bool,
}

/// What there is against the place of a release, and what its lines are judged by.
#[derive(Clone, Copy)]
pub struct PlaceFacts {
    /// The place is at an aircraft that is unknown.
    pub unknown_aircraft: bool,
    /// The place is a shop, and its component is unknown.
    pub unknown_component: bool,
    /// The kind whose programme work there is done by.
    pub kind: Option<Kind>,
    /// The place is a shop, and its component is fitted to an aircraft.
    pub fitted_in_shop: bool,
    /// The clock of the airframe, or of the component in the shop.
    pub clock: Moment,
}

/// What there is against the fitting of a component to a position of an aircraft, both of which are known.
#[derive(Clone, Copy)]
pub struct FittingFacts {
    /// A component is fitted to the position already.
    pub taken: bool,
    /// The component is fitted somewhere.
    pub fitted: bool,
    /// A task in force for the kind of the aircraft retires the component.
    pub retired: bool,
    /// The greater of the clocks of the airframe and of the component.
    pub clock: Moment,
}

/// What there is against the opening of a task, and whether the task applies to the item.
#[derive(Clone, Copy)]
pub struct OpeningFacts {
    /// The task applies to the item.
    pub applies: bool,
    /// The task of the item was accomplished.
    pub accomplished: bool,
    /// The item is an airframe of another kind.
    pub other_kind: bool,
    /// The day is after that of the item's own opening.
    pub too_late: bool,
    /// There is more use than the item brought with it.
    pub too_large: bool,
}
