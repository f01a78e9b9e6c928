//! The rows of a command at layout 2, made inside a transaction: what `mx_row_rules::changes` makes them of is looked
//! up here, and no table is changed.
//!
//! Each kind of command has a function, which takes the row of its entry and looks up the numbers of what the command
//! names, the totals and the spans that it touches, and what is known of the lines of a release. `Memory` is want of
//! memory, `Store` an error of the store, and `Damaged` names a table that no book gives.
//!
//! # What is promised
//!
//! - Where the tables stand for a book, the rows that are made of a command, whichever of the ten kinds it is, are
//!   exactly those that it adds to each table of that book and those that it changes, as they are behind it, and each
//!   fits its columns: `rows_of_command`: `reads` (`Reads`: `read`, `AreCommandRows`).
//! - It is so of each kind by itself, behind the row of its entry: `rows_of_opening`, `rows_of_sector`,
//!   `rows_of_fitting`, `rows_of_removal`, `rows_of_release`, `rows_of_deferral`, `rows_of_extension`: `reads`
//!   (`AreRowsOf`).
//! - Over any rows, the rows that are made are those of this command: its document and kind with the number behind that
//!   of the last entry; in each register what it says, with the numbers that were looked up by the names that it has;
//!   and in place of kept rows the totals of its aircraft, of its place or of what it fits or removes, of a sector
//!   those too of what its aircraft's spans say was fitted throughout, the open spans of what it removes, and the last
//!   bases of the items and tasks that it names: `rows_of_command`: `any_rows` (`AreRowsFor`).
//! - It is so of each kind by itself, behind any row of an entry: `any_rows` of the same seven (`AreRowsBy`:
//!   `AreFindingsFor` is what was looked up, `AreMadeOf` what was made of it).
//! - Over any rows, a number is the one that was looked up by the name, or 0 where there was none:
//!   `number_of_aircraft`, `number_of_component`, `number_of_item`, `number_of_defect`: `any_rows` (`NumberBy`).
//! - Over any rows, what is known of a line of a release is the number of its item, the life of that now, and when the
//!   task is due by the last base, the day on which the item was built and the task in force that were looked up; or
//!   the number of its defect: `line_known`, `release_known`: `any_rows` (`IsLineFound`).
//! - Where the tables stand for a book, the totals of the items with some numbers are those of the book, each once and
//!   in the order of the numbers, whatever order these came in and however often; none of a number that no item has:
//!   `totals_of`, `total_of`: `reads`.
//! - Over any rows, the total with a number is the first of the rows with it, and there is one where an aircraft or a
//!   component has the number, so that none is made up or passed over: `total_of`: `any_rows` (`TotalOf`). Of some
//!   numbers they are those with each of them, as they are, and no others: `totals_of`: `any_rows` (`AreTotalsOf`).
//! - Each total is one that an item may have, whatever the tables hold: `total_of`: `life`; `totals_of`: `lives`.
//! - What stops it, what it leaves, and when a table is told damaged are as for each look-up; so where an aircraft or a
//!   component lacks its total, or that is past a life: `reads` of each (`Reads`).
//! - Over any rows, a table is told damaged only for the last entry, for the rows of what the command names, and for
//!   those that are chosen by the numbers of that: the spans of an aircraft that flew, the open ones of a component that
//!   is removed, and the totals with the numbers that it touches; of each line of a release its item, total, last base
//!   and tasks in force, or its defect: `rows_of_command`: `damage` (`MadeDamage`).
//! - It is so of each kind by itself: `damage` of the same seven (`ActDamage`); of the totals with some numbers, of these
//!   and of the item with a number that has none: `totals_of`, `total_of`: `damage` (`TotalsDamage`, `TotalAtDamage`).
//!
//! Over any rows the kind whose programme a release is done by is said only as that of each book which says of the
//! place's item what its row says (`KindAt`), and no clause says in which order the totals come, which no table shows.
//! Nor does one say why the store failed: a body that always told so would have these clauses, and lines that hand
//! commands in (`applied.cases`) would differ.

pub mod commands;
pub mod numbers;
pub mod releases;
pub mod totals;

pub use commands::rows_of_command;
