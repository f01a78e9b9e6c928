//! The database in a file: it is opened, something is done over it, and it is closed. Of the crates of the program it
//! alone names the store of a file, so that what is done over a database is proved once, for any store. What a file
//! holds no contract can say.
//!
//! - `power`: files opened again after a stop, by the headline and by the players.
//!
//! # What is promised
//!
//! - What is done over the database in a file says what is appended and what comes of it, and what becomes of the
//!   database, whatever the store; where no database is opened nothing is appended: `work`: `given`, `kept`;
//!   `work_in_file`: `given`, `unopened`.
//! - Of a file that is made where it isn't there it is never told that there is none: `work_in_file`: `opened`.
#![tactic(auto)]

mod opening;
pub mod power;
pub mod working;

pub use opening::{Opening, Unopened};
pub use working::{Left, Work, Worked, work_in_file};
