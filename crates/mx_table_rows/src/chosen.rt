//! Rows of a table that are chosen by what stands in their columns: read in the order of the key, and deleted. Each
//! call is made inside a `Transaction`, which the caller commits or drops.
//!
//! # What is promised
//!
//! Look-ups, what a command writes and the moves stand on it; lines of `mx_test_office` (`kept.cases`) ask it and
//! `mx_table_rows::totals` alone. What deletes rows is said inside a transaction, of a table whose rowids rise, in a
//! schema where no table refers to another.
//!
//! - The rows read are exactly those of the table with this value in the column, in the order of the key, and each fits
//!   its type; of open spans those that nothing ended; of all aircraft, components or defects every row; the last entry
//!   is the last by number: `ReadsFirst`: `rows`, `fits`, cited by each look-up (`ReadsBy`).
//! - Accomplishments are chosen by their item, or by their item and task, in the order of the task, the entry and the line
//!   there: `later::done3_by_item`, `later::done3_by_item_and_task`: `reads`.
//! - `Damaged` names the reader's own table, and only where one of the rows that were chosen is none of its type: a row
//!   that was not chosen is not met: `ReadsFirst`: `cause`, `damaged`.
//! - An answer changes nothing: `ReadsFirst`: `unchanged`.
//! - A deletion leaves exactly the rows that were not chosen, in their order, and each other table as it was:
//!   `DeletesRows`: `loses`.
//! - A count is the number of all rows of the table, whatever they are, and is told damaged only past 32 bits:
//!   `CountsRows`: `rows`, `damaged`.
//! - Where entries are numbered from 1 on, the number of the last is how many there are:
//!   `counts::last_entry_tells_the_count`.
//! - A stop within one of these calls leaves nothing but what was committed before: `within` of each.

pub mod changes;
pub mod chosen;
pub mod counts;
pub mod defects;
pub mod entries;
pub mod items;
pub mod kept;
pub mod later;
mod prelude;
pub mod programmes;
pub mod sectors;
pub mod works;
