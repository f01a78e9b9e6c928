//! The three dimensions of use in which a maintenance task is limited: flight minutes, cycles and
//! calendar days.

/// What an airframe or a component has been used.
#[derive(Clone, Copy, Debug, PartialEq, Eq)]
pub struct Use {
    /// Flight time in minutes, from take-off to landing.
    pub minutes: u32,
    /// Cycles, as the technical log has them.
    pub cycles: u32,
}

/// An amount in each dimension that has a limit, and `None` in one that has none.
#[derive(Clone, Copy, Debug, PartialEq, Eq)]
pub struct Limit {
    /// Flight time in minutes.
    pub minutes: Option<u32>,
    /// Cycles.
    pub cycles: Option<u32>,
    /// Calendar days, or a day by its number where the limit is a due.
    pub days: Option<u32>,
}

/// How far a task may be done past its due in each dimension: 0 is no tolerance.
#[derive(Clone, Copy, Debug, PartialEq, Eq)]
pub struct Tolerance {
    /// Flight time in minutes.
    pub minutes: u32,
    /// Cycles.
    pub cycles: u32,
    /// Calendar days.
    pub days: u32,
}

/// The point that the next limits are counted from.
#[derive(Clone, Copy, Debug, PartialEq, Eq)]
pub struct Base {
    /// Flight time in minutes.
    pub minutes: u32,
    /// Cycles.
    pub cycles: u32,
    /// A day by its number, as `Day::number` gives it.
    pub day: u32,
}

/// What is left until a due in each dimension that has one: negative once the due is passed.
#[derive(Clone, Copy, Debug, PartialEq, Eq)]
pub struct Left {
    /// Flight time in minutes.
    pub minutes: Option<i64>,
    /// Cycles.
    pub cycles: Option<i64>,
    /// Calendar days.
    pub days: Option<i64>,
}

/// How a task or a deferred defect stands. The worse is the greater.
#[derive(Clone, Copy, Debug, PartialEq, Eq, PartialOrd, Ord)]
pub enum Status {
    /// Something is left in each dimension.
    Ok,
    /// The due is reached in some dimension, and no tolerance is passed.
    Due,
    /// The tolerance is passed in some dimension.
    Overdue,
}
