//! The categories of deferred defects.

/// The category of a deferred defect, which gives the days after the day of its discovery within which it is rectified.
#[derive(Clone, Copy, Debug, PartialEq, Eq)]
pub enum Category {
    /// Within the days that the item of the minimum equipment list states, 1 to 365.
    A(u32),
    /// Within 3 days.
    B,
    /// Within 10 days.
    C,
    /// Within 120 days.
    D,
}
