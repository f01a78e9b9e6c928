//! What a refusal's number, the number of a fault of an input file, or the word of a fault of the program means, and what to do
//! about it: one table of texts, the one of a number or word, and its printing.
//!
//! # What is promised
//!
//! - There is an explanation of each number of a refusal, of each number of a fault of an input file and of each word behind
//!   `fault`, and of nothing else; it is the text of the table that begins with that number or word: `explanation`:
//!   `known`, `its`.
//! - An explanation begins with what it explains and a blank, has up to three lines of up to 80 bytes, and one of them
//!   says what to do: `explanation`: `form`.
//! - A text is appended whole or not at all: `print_explanation`: `printed`, `ending`, `unprinted`, `memory`.

mod explaining;
mod printing;
mod table;

pub use explaining::explanation;
pub use printing::print_explanation;
