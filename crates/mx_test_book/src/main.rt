//! Plays files of cases on a book in memory: commands that are handed in, and questions on commands, books,
//! what is due, deferred defects, days, moments and identifiers. The files say in their first lines what
//! each shows.
#![tactic(auto)]

mod books;
mod calendar;
mod commands;
mod defects;
mod dues;
mod failing;
mod identifiers;
mod interrupted;
mod player;
mod running_out;
mod same;
mod shown;
mod tasks;

use mx_test_cases::run;
use player::BookPlayer;
use std::process::ExitCode;

fn main(rt: HostRuntime) -> ExitCode {
    let mut player = BookPlayer::new(rt.alloc());
    ExitCode::from(run(&rt, &mut player))
}
