//! The program `office`.
//!
//! # What is promised
//!
//! - Each word does its own job, and what is printed of it is that job's; where memory, a file or the store stops it,
//!   it is what `Perform` says: `perform` of `Jobs`: `done`, `shape`, `words`, `unprinted`, `unread`.
//! - Of a book that an office serves at a port that becomes which `serve_on` says, and where the port was not bound the
//!   office is as it was: `serve_at`: `served`.
//!
//! `scripts/check-desk` shows that the port is the one of the words, at the loopback alone, and that each connection is
//! handed to `serve_one`.
#![tactic(auto)]

mod performing;
mod serving;

use mx_words::run_words;
use performing::Jobs;
use std::io::Write;
use std::process::ExitCode;
use std::{env, io};

/// The status where the words of the process could not be gathered, as where no database was opened.
const NOT_OPENED: u8 = 5;

// The words that the process was started with.
fn words_of(rt: &HostRuntime) -> io::Result<Vec<String>> {
    Ok(env::args(rt)?.collect(rt.alloc())?)
}

fn main(rt: HostRuntime) -> ExitCode {
    let status = match words_of(&rt) {
        Ok(words) => run_words(
            &rt,
            &Jobs,
            words.as_slice(),
            &mut rt.stdout(),
            &mut rt.stderr(),
        ),
        Err(_) => {
            let _ = rt.stderr().write_all(b"fault memory\n");
            NOT_OPENED
        }
    };
    ExitCode::from(status)
}
