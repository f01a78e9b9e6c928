//! What a word of the program does over an open database or office: what it prints, and how it ends.
//!
//! - `logs`: the import of a sector log into an office, and what is printed of it.
//! - `answers`: what an open office answers to a question for a list, and what is printed of it.
//! - `upkeep`: what a word does over a database where no office is open: a move, a whole book made as a file.
//! - `office`: the office itself, for whoever has a job done over one.
//!
//! # What is promised
//!
//! - `init` over an open database makes the tables of an empty book in one commit and appends `created`, or appends
//!   nothing; whatever stops it, a crash leaves no table or all; over a database that is not empty nothing is made and
//!   nothing changes: `make_book`: `made`, `printed`, `unprinted`, `crash`, `unchanged`, `taken`, `kept`, `not_here`,
//!   `stops`.
//! - A run of commands appends the lines of the definitions' replies, and the tables are those after them; where a
//!   fault stops it, the lines of the replies that were given, and but for `Store` the tables of those commands:
//!   `enter_all`: `ran` (`Runs`, `PrintsRun`), `exact`.
//! - What is appended without a fault is a line for each of as many replies as there are commands, over any rows, and
//!   the ending is theirs: `enter_all`: `shown`.
//! - Of `verify` over an open office with its tables, whatever rows they have, what is appended is `verified` exactly
//!   where they have the rows of a book and there is no other table, `differs` where not, a table that is named damaged
//!   is damaged, and no table changes: `print_verified`: `asked` (`AsksVerified`, `PrintsVerified`), `told`
//!   (`TellsVerified`), `shown`, `unprinted`.
//! - After a fault of the store the office has to be opened again, and goes on after any other answer; where memory ran
//!   out for the lines of replies (`Print`), which takes the place of the run's own fault, it is so by the fault of the
//!   run all the same: `enter_all`: `ran`.
#![tactic(auto)]

pub mod answers;
mod entering;
pub mod logs;
mod making;
pub mod upkeep;
mod verifying;

pub use entering::enter_all;
pub use making::{CREATED, make_book};
pub use mx_office as office;
pub use verifying::print_verified;
