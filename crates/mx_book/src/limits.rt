//! How much a book holds.

/// The most entries of a book.
pub const MOST_ENTRIES: usize = 1_000_000;

/// The most aircraft of a book.
pub const MOST_AIRCRAFT: usize = 50;

/// The most components of a book.
pub const MOST_COMPONENTS: usize = 5_000;
