//! A database opened again after a stop: after a loss of power, and in the next process.
//!
//! # What is promised
//!
//! - Whatever each state has that a crash may leave, the tables that are found have behind a loss of power: they are
//!   one of those states: `reopen`: `found`.
//! - So are those that the next process finds of any two, where the file holds what the first may have left of it:
//!   `end_process`; `reopen_file`: `found`.
//! - Where `sqlite` does not open the files, why is told, memory, a disk that failed or a limit of the format, and what is left of
//!   them holds one of those states still, over disks that return what was written; of files with sums behind their pages,
//!   where nothing was written alone: `reopen`, `reopen_file`: `left` (`IsLeft`).
//! - So what is left can be opened once more, with the same said of what is found, where nothing was written, or where recovery
//!   was under way in a file without sums: `reopen_left`: `found`, `left`.
//!
//! What is done over the database behind it, the headline in `docs/PROMISES.md` says.

pub mod power;

pub use power::{end_process, reopen, reopen_file, reopen_left};
