//! The maps beside a book, by subject: what each says of its entries, room for what one more changes, and the change.
//! Which question each answers, `mx_indexed_book` has.

pub mod clocks;
pub mod counts;
pub mod indexes;
pub mod lives;
pub mod maps;
pub mod movements;
pub mod places;
pub mod positions;
pub mod programmes;
pub mod registers;
pub mod work;

pub use indexes::{Changes, Indexes};
