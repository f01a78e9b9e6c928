//! The point that a file is at.

/// The point that a file is at: a layout, and how far a move to the next one has come. It is settled where step and mark
/// are 0.
#[derive(Clone, Copy, Debug, PartialEq, Eq)]
pub struct Point {
    /// The layout of its tables.
    pub layout: u8,
    /// The step of the move to the next layout.
    pub step: u8,
    /// The number of the entry up to which that step has come.
    pub mark: u32,
}
