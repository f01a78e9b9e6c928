//! A program that plays files of cases: its arguments are the names of the files. `--differs` before a name says
//! that each case of that file is to be answered otherwise than written; `--again` is a word for the player.

use crate::files::{Played, play_file};
use crate::playing::Plays;
use std::io::ErrorKind;
use std::rt::{Env, Files};
use std::{env, fs, io};

/// Every case was answered as it was to be.
pub const AS_WRITTEN: u8 = 0;

/// A case was answered otherwise, or there was none.
pub const OTHERWISE: u8 = 1;

/// A file could not be read, or nothing could be printed.
pub const UNREADABLE: u8 = 3;

/// Memory ran out.
pub const NO_MEMORY: u8 = 4;

// Reads a file, and says which one where it can't be read.
fn read<R: Files + Eprint + AllocGlobal>(rt: &R, name: &str) -> io::Result<String> {
    let text = fs::read_to_string(rt, name);
    if let Err(error) = &text
        && error.kind() != ErrorKind::OutOfMemory
    {
        eprintln!(rt; "{name} can't be read")?;
    }
    text
}

// Plays a file, and prints how many cases it has and which of them differ.
fn play_named<R: Files + Print + Eprint + AllocGlobal, P: Plays>(
    rt: &R,
    name: &str,
    is_to_differ: bool,
    player: &mut P,
) -> io::Result<Played> {
    let text = read(rt, name)?;
    let mut out = String::new(rt.alloc());
    let played = play_file(rt.alloc(), name, text.as_str(), player, &mut out)?;
    let lines = played.lines;
    let remark = if is_to_differ { ", each to differ" } else { "" };
    println!(rt; "{name}: {lines} lines{remark}")?;
    rt.print(out.as_str())?;
    Ok(if is_to_differ {
        played.inverted()
    } else {
        played
    })
}

// Plays the files that the arguments name, and prints how many cases there are in all.
fn play_arguments<R: Files + Env + Print + Eprint + AllocGlobal, P: Plays>(
    rt: &R,
    player: &mut P,
) -> io::Result<Played> {
    let words: Vec<String> = env::args(rt)?.collect(rt.alloc())?;
    let mut all = Played::NONE;
    let mut is_to_differ = false;
    for word in words.iter().skip(1) {
        if word.as_str() == "--differs" {
            is_to_differ = true;
            continue;
        }
        if word.as_str() == "--again" {
            continue;
        }
        let played = play_named(rt, word.as_str(), is_to_differ, player)?;
        all = all.and(played);
        is_to_differ = false;
    }
    let lines = all.lines;
    let differing = all.differing;
    println!(rt; "{lines} lines, {differing} differ")?;
    Ok(all)
}

// Says on standard error that memory ran out, where that is what stopped the program, and gives the status.
fn status_of_error(rt: &impl Eprint, error: &io::Error) -> u8 {
    if error.kind() != ErrorKind::OutOfMemory {
        return UNREADABLE;
    }
    let _ = eprintln!(rt; "no memory");
    NO_MEMORY
}

/// Plays the files of cases that the program's arguments name. For each it prints `NAME: N lines` and the cases
/// that were not answered as written; the last line is `N lines, M differ`. The status is 0 where each case was
/// answered as it was to be, 1 where one was not or there was none, 3 where a file can't be read, and 4 where
/// memory ran out.
pub fn run<R: Files + Env + Print + Eprint + AllocGlobal, P: Plays>(rt: &R, player: &mut P) -> u8 {
    match play_arguments(rt, player) {
        Ok(played) if played.lines > 0 && played.differing == 0 => AS_WRITTEN,
        Ok(_) => OTHERWISE,
        Err(error) => status_of_error(rt, &error),
    }
}
