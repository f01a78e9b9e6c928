//! The tables as sets of typed rows, which are read and to which rows are added: those of every layout in `permanent`,
//! those that a move touches in `moved`, and of these accomplishments that can be written in `dated`; in `inserts`, what
//! all inserts are. SQL for all rows of a table, and for one that is added, is in this crate, that for chosen rows in
//! `mx_table_rows::chosen`, and for the rows in whose place others come in `mx_table_rows::totals`. Above these a table
//! is what `rows` gives for its type, in the order of its key, and `insert` adds one row to it. Each call is made inside
//! a `Transaction`, which the caller commits or drops.
//!
//! # What is promised
//!
//! Of a reader, where the disk has returned what was written and the schema has the table:
//!
//! - The rows that it gives are exactly those of the table, in the order of the key (of `place`, `task` and `crs_line`
//!   by the entry and then the line, of `done3` by the item, the task, the entry and the line), each fits its type, and
//!   reading changes nothing: `rows`: `reads` (`ReadsRows`: `rows`, `fits`, `unchanged`).
//! - It answers `Damaged` with its own table, and only where some row of it is none of the type: `rows`: `reads`
//!   (`ReadsRows`: `cause`, `damaged`).
//! - At every exit a crash has no new outcome before the commit, and the last commit stands: `rows`: `reads`
//!   (`ReadsRows`: `within`).
//! - An error of a query is named want of memory exactly where it was: `answered`: `stopped`.
//! - An accomplishment is one that can be written exactly where both of its days are in the calendar: `DatedRow::of`:
//!   `some`, `value`.
//!
//! One reader (`rows`) and one insert are proved for every type of rows; what a table adds is its data in
//! `mx_layout::kept`, and here its impl of `Stored` and that of `Insert`.
//!
//! # To add a table
//!
//! For a table whose row type stands in `mx_base::rows` with its `Fits`. Its key is its first column, an
//! `INTEGER PRIMARY KEY`, or its first two or four, a `PRIMARY KEY` of these. Where no layout has it, first
//! `mx_layout`: `Table`, its name, `table_named`; its columns and tree, and the schema of its layout; its text in
//! `step_text` (a long one as a function of its own, `done3_text`) and `CreateTexts`; its statement in `steps` and
//! `step_texts`, and what that makes, in `StepLemmas`; `by_tree` of `TreeLemmas`. Then
//! `mx_layout/specs/kept/Schemas.antt`: which schemas have it.
//!
//! 1. `mx_layout/specs/kept/Cells.antt`: how its rows are kept, by `numbered` or, where two columns are its key,
//!    `lined`; its two texts follow from its columns. Its line of `of_kept` in `Family.antt` there.
//! 2. `mx_layout/proofs/KeptProofs/MovedLawful.antt`: `TABLE_lawful`, by `first_keyed`, `two_keyed` or `four_keyed`
//!    with the place of the table in the schema, from 0, what is computed there (`refl`), and how a row is had back
//!    from its values. Where the `refl` is refused, the place, a kind of column or the text that is computed is
//!    another. A table of a layout stands behind those that come before it there, at each point of a move where it
//!    stands (`span2` at three, `sector2` at four), a permanent one behind nothing. Its line of `each_lawful` in
//!    `EachLawful.antt` there. Where another table has rows of the same type, a type of its own holds them (`held`,
//!    `Sector2Row`).
//! 3. `src/permanent.rt`, or `src/moved.rt` where a move touches it, from a table that is there: `Stored`, whose texts
//!    are those of `mx_layout::kept` written out, and whose `read` says by `read_columns!` how many columns there are
//!    and by which function of `column.rt` each is taken; and `Insert`, which passes each value in the order of the
//!    columns to `insert_columns!`. Its row type is a word of `prelude.rt`. A kind of value that no table has had needs
//!    a function in `column.rt`, whose contract says of what values it gives `None`, and one that is not passed as it
//!    stands in the row a function in `src/inserts/values.rt`. Where a row of the type need not fit its columns, a type
//!    that was tested holds it and is what is added (`DatedRow`).
//! 4. Plants: two columns swapped in either text, two values swapped in `read` and in `insert`, a text with no ORDER
//!    BY, the name of another table.
//!
//! What it costs stands in docs/RECIPES.md.
//!
//! A column that may be NULL is kept by `number_or_null` or `text_or_null` of `mx_layout/specs/kept/Values.antt`, one
//! that says whether by `flag`, a limit by three numbers, a category by its number and the days that it states. They
//! are read by the functions of `column.rt` of these names, and what may be missing is passed on by `number_if_any`,
//! `text_if_any` or `days_of_category` of `values.rt`, which tell what is known of it. In `Lawful` the lemmas of
//! `ValueLemmas` stand where `task` has them, and `insert` has the answer of `task`, alike for all but its name.
#![tactic(auto)]

mod column;
pub mod dated;
pub mod inserts;
mod moved;
mod permanent;
mod prelude;
pub mod stored;

pub use mx_layout::{Layout, Table, TableFault, create, point};
pub use stored::{Stored, rows};
