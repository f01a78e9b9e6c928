//! A program that plays files of cases over disks.

use crate::again::Again;
use crate::player::Player;
use mx_test_cases::Disks;
use std::env;
use std::rt::{Env, Files};

// Whether the first argument says that lines are played once more.
fn is_again<R: Env + AllocGlobal>(rt: &R) -> bool {
    let Ok(mut words) = env::args(rt) else {
        return false;
    };
    match words.nth(1) {
        Some(word) => word.as_str() == "--again",
        None => false,
    }
}

/// Plays the files of cases that the program's arguments name over these disks, and gives the program's status, as
/// `mx_test_cases::run` does. Where the first argument is `--again`, a line that a fault stopped is played once more.
pub fn play<R: Files + Env + Print + Eprint + AllocGlobal, D: Disks>(rt: &R, disks: D) -> u8 {
    let mut again = Again {
        alloc: rt.alloc(),
        player: Player::over(rt.alloc(), disks),
        is_again: is_again(rt),
    };
    let status = mx_test_cases::run(rt, &mut again);
    let Again {
        alloc: _,
        player,
        is_again: _,
    } = again;
    player.let_go();
    status
}
