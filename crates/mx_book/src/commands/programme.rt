//! The maintenance programme of a kind of aircraft: which work is due when.

use mx_base::{Kind, Limit, Part, TaskId, Tolerance};

/// A revision of the maintenance programme of a kind.
#[derive(Clone, Copy, Debug, PartialEq, Eq)]
pub struct Programme {
    /// The kind of aircraft that it is for.
    pub kind: Kind,
    /// Its revision: 1 for the first of the kind, and one more for each later one.
    pub revision: u32,
}

/// What a task is done on.
#[derive(Clone, Copy, Debug, PartialEq, Eq)]
pub enum Applies {
    /// Every airframe of the kind.
    Airframe,
    /// Every component of this part.
    Part(Part),
}

/// A task of a programme. Each limit is reached in the first of its dimensions that is.
#[derive(Clone, Copy, Debug, PartialEq, Eq)]
pub struct Task {
    /// Its name, which means the same work in every programme that has it.
    pub id: TaskId,
    /// What it is done on.
    pub applies: Applies,
    /// When it is due for the first time, counted from zero minutes, zero cycles and the day of birth.
    pub first: Limit,
    /// When it is due again, counted from the last accomplishment, or `None` where it is done once.
    pub repeat: Option<Limit>,
    /// How far past its due it may be done; in a dimension without a limit it has no effect.
    pub tolerance: Tolerance,
    /// Whether the item is retired at the first limit, which then is the end of its life: such a task has neither
    /// repeat nor tolerance.
    pub retire: bool,
}
