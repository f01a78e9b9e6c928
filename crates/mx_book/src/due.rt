//! When a task is due: limits counted from a base, what is left until then, the status that this gives, and the days
//! after which a due is reached at a rate. Nothing here knows of entries: which base, life and programme an item has is
//! the book's to say.
//!
//! # What is promised
//!
//! - A task is due first at its first limit from the day of birth, and again at its repeat from the base of its last
//!   accomplishment; one at which the item is retired stays due at its first limit, and one that is done once is due no
//!   more: `first_due`, `due_after`.
//! - The base of work done is in each dimension the lesser of what was reached and what was due, so that work done late
//!   does not put off the next; where the life is one that an item may have, the base is within that and the calendar:
//!   `base_done`: `base`, `bounded`.
//! - What is left is the due less what was reached, in the dimensions that have a due, and it is used up where nothing
//!   is left in one: `left_of`, `is_used_up`.
//! - A task is in order while something is left, due as long as the tolerance lasts, and overdue past it; its worst
//!   dimension decides: `status_by`, `status_of`.
//! - The days after which a due is reached at a rate are the least number, from 0 on, that uses up what is left; none
//!   where no number does; of several dimensions the soonest decides: `days_to_reach`, `days_to_reach_some`.
//! - So many days use up what is left until a due exactly where the use now and so many times the rate reach the due:
//!   `days_reach_the_due`.

pub mod due;
pub mod left;
pub mod reach;
pub mod status;

pub use due::{base_done, due_after, first_due};
pub use left::{is_used_up, left_of};
pub use reach::{days_reach_the_due, days_to_reach, days_to_reach_some};
pub use status::{status_by, status_of};
