//! A book in memory: the list of its entries, each of which was judged new against those before it.
//!
//! # What is promised
//!
//! - A new command is appended and answered its number; without memory it is handed back and nothing changed:
//!   `Book::enter`: `entered`, `seq`, `back`, `unchanged`.
//! - A book's entries, their number, and its copy are those of the list: `new`, `len`, `is_empty`, `entry`, `copy`.

pub mod book;

pub use book::{Book, NoMemory};
