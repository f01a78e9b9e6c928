//! A program that plays files of cases over disks in memory. Here alone a player is named over these disks: what it plays is proved
//! for any.

use crate::disks::MemoryDisks;
use std::rt::{Env, Files};

/// Plays the files of cases that the program's arguments name, and gives the program's status, as `mx_test_sweeps::play` does over
/// any disks.
pub fn play<R: Files + Env + Print + Eprint + AllocGlobal>(rt: &R) -> u8 {
    mx_test_sweeps::play(rt, MemoryDisks::new(rt.alloc()))
}
