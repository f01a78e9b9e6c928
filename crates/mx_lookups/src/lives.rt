//! Lives, last bases and tasks in force by rows: the look-ups that the judge, the lists and the making of rows have in
//! common.
//!
//! # What is promised
//!
//! - Each promises what the look-ups of `mx_lookups::numbers` do, with which it begins, and ends by their faults. What
//!   is answered is a clock, the earliest take-off, a life, the next revision of a programme, a task in force, the
//!   tasks in force, whether an item is retired, whether a task was accomplished, and its last base: `clock`,
//!   `earliest_takeoff`, `life`, `next_revision`, `task`, `tasks`, `is_retired`, `is_accomplished`, `base`:
//!   `looks_up`.
//! - At layout 3, with the tables of that layout, the accomplishments of a task of an item and the base of the last of
//!   them: `accomplishments`, `last_base`: `looks_up`.
//! - What `rebase` of `mx_table_rows` leaves of the accomplishments of a task of an item whose values have a new sector
//!   are those of the book with the sector, and every other row stays: `rebased_rows_are_the_books`.
//! - Each task has its shape, and a base is one that an item may have, whatever the tables hold: `task`, `tasks`:
//!   `shape`; `base`, `last_base`: `bounded`.

pub mod done;
pub mod lives;
pub mod programmes;
pub mod work;
