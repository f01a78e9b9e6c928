//! The headline: stopped before or within any write, the file opens again to the tables of one book, which is the one
//! from before followed by a prefix of the commands accepted since, with every acknowledged command in it, and the due
//! list that is printed from it is that book's.
//!
//! # What is promised
//!
//! - The headline, for a file at any point of the move to the newest layout, and there whatever tables and indexes it
//!   has beside those of the program, which it keeps (`RestsOn`): `open_run_and_reopen`: `headline`. Its other clauses,
//!   and the other calls that lose the power and open again, are told one by one in `docs/PROMISES.md`.
#![tactic(auto)]

pub mod again;
pub mod creating;
pub mod moving;
pub mod next_process;
pub mod once_more;
pub mod opening;
pub mod running;
pub mod second_stop;

pub use again::{Reopened, Unopened, open_again, reopen_office};
pub use creating::{Made, create_and_reopen};
pub use moving::open_and_reopen;
pub use next_process::{Ended, OpenedAndEnded, open_run_and_end, reopen_after, run_and_end};
pub use once_more::open_left;
pub use opening::{Opened, open_run_and_reopen};
pub use running::{Stopped, run_and_reopen};
pub use second_stop::{OpenedTwice, StoppedTwice, open_run_and_reopen_twice, run_and_reopen_twice};
