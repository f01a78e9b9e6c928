//! What is printed of the answer of an open office to a question.
//!
//! # What is promised
//!
//! - `life`, `due`, `forecast` and `limits` over an open office change no table; what is appended is the list, or the
//!   refusal, of the book that the tables stand for, of the aircraft, and of the day, that was asked for; over any rows
//!   it is that of a book that has them; a table that is named damaged has a reason: `print_list`: `asked` (`Asks`,
//!   `PrintsAnswer`), `exact`, `shown`, `unprinted`.
//! - After a fault of the store the office has to be opened again, and goes on after any other answer: `print_list`:
//!   `asked`.

mod listing;

pub use listing::print_list;
