//! An office over files in memory that stop, lose power and are opened again, asked in lines.
//!
//! Lines over the files, each over a database that is opened anew:
//! - `make`, `make-old`: makes an empty book of the newest layout, of layout 1;
//! - `install`: makes a file of layout 1 with the book of those commands of the list that are new;
//! - `point`: the layout, step and mark that it is at;
//! - `ask QUERY`, `tables`, `sql STATEMENT`: the rows of a query; all rows of all tables; a statement that changes the files;
//! - `step` before a line of `mx_test_lines::moves`, whose heads list them: a step of the move to layout 2, or of that to layout 3;
//! - `open`: opens the office, where a file of layout 1 is moved to the newest layout first.
//!
//! Lines over a database of layout 2: `enter COMMAND` hands a command in, which is judged by the rows of the tables and whose rows are
//! written in one commit; `judge COMMAND`, the verdict on a command by these rows; `entries FROM AT_MOST` and `entry NUMBER COMMAND`,
//! as in an office, by them; `rows` before one of the lines below for a list or for the life of an item, which is answered by them too;
//! `kept` before a line of `mx_test_tables::kept`, whose head lists them, over kept rows; `later` before one of `later` there, over
//! the tables of layout 3.
//!
//! Lines in the open office:
//! - a command, in the words that `mx_test_cases` reads: hands it in; `run` the commands of a list, `first` the first;
//! - `life TAIL`, `airframe TAIL`, `component SERIAL`: the life list; the life of one item, in minutes and cycles;
//! - `due TAIL DAY`, `limits TAIL DAY`, `forecast TAIL DAY DAYS MINUTES CYCLES`: these lists;
//! - `entries FROM AT_MOST`, `entry NUMBER COMMAND`: documents of entries; whether one is this command;
//! - `verify`: whether the tables stand for a book;
//! - `import [read LIMIT]`: hands in the text as a sector log, through a reader, and answers what its rows are told;
//! - `get PATH [read LIMIT] [write LIMIT]`, `post PATH ..`: a request, the second with the text as its body, that the desk reads and
//!   answers: how that ends, and the lines of what was written. A limit of the reader or of the writer is `part BYTES`, which a call
//!   passes on at most, or `fails CALLS` or `interrupted CALLS`, behind which one call fails;
//! - `needs-reopen`: whether the files have to be opened again.
//!
//! A fault is answered by its name behind `fault`, and a row that a table refuses by the constraint behind `refused`.
#![tactic(auto)]

mod asking;
mod calls;
mod disks;
mod files;
mod office_lines;
pub mod program;
mod streams;
mod texts;

pub use program::play;
