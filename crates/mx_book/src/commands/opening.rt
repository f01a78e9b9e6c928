//! What was accomplished of a task before the records begin.

use crate::commands::item::Item;
use mx_base::{Day, Kind, TaskId, Use};

/// How far a task had come when its item came into the records: the use and the day that its next due is counted from.
#[derive(Clone, Copy, Debug, PartialEq, Eq)]
pub struct Opening {
    /// The airframe or the component.
    pub item: Item,
    /// The kind of aircraft whose programme has the task.
    pub kind: Kind,
    /// The task.
    pub task: TaskId,
    /// The use of the item when it was last done.
    pub use_then: Use,
    /// The day on which it was last done.
    pub day: Day,
}
