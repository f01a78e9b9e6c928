//! Plays files of cases over disks, any that stop after so many calls, lose what was not synced, are opened again, and
//! have rows that no office wrote.
//!
//! Lines over the files:
//! - `disk`: begins with files that hold nothing;
//! - `make [log CALLS] [db CALLS]`: makes an empty book; a file fails after so many calls;
//! - `install [log CALLS] [db CALLS]`: makes the book of the list in one commit;
//! - lines of the disks, as `point`, `tables`, `ask QUERY`, `enter COMMAND`: what the database in the files answers;
//! - `pages PAGES LINE`: a line over the database in the files, whose log holds so many pages before it is copied;
//! - `power`: what was not synced is lost;
//! - `keep`, `restore`: keeps a copy of the files, and takes it back;
//! - `open [log CALLS] [db CALLS] [pages PAGES]`: opens the office; the log holds so many pages before it is copied;
//! - `list COMMAND`, `list`: puts a command behind those of the list, or empties it;
//! - `text LINE`, `text`: puts a line behind those of the text that `import` and `post` hand in, or empties it;
//! - `stops-of-making`, `stops-of-commands`, `stops-of-entering`, `stops-of-line`, `stops-of-commits`, `stops-of-settling`,
//!   `doubts`: sweeps, which play such lines over copies (`sweep_lines`); of `stops-of-entering` the list states the good rows of the text.
//!
//! Lines in the open office: commands, and the questions that the disks answer; `close`, `end` and `power` leave it.
#![tactic(auto)]

mod again;
mod doubts;
mod handing;
mod plain;
mod player;
pub mod program;
mod settings;
mod stops_of_commands;
mod stops_of_line;
mod stops_of_making;
mod stops_of_settling;
mod sweep;
mod sweep_lines;

pub use program::play;
