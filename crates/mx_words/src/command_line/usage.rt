//! What is printed where the words ask for help, or are none that the program takes.
//!
//! `--help` is help as the first word alone, or the first behind another, and `--version` the version as the first
//! alone.
ghost use Rattle.std.specs.Prelude.{◌≡◌, true, false};
ghost use Rattle.mx_words.specs.command_line.Usage.{IsRequest};

use clap::Error as WordsError;
use mx_output::endings::{BAD_WORDS, Ending, Printed, STOPPED};
use std::io::Write;

/// Prints `clap`'s text of help to standard output, with status 0, or of a fault to standard error,
/// with status 2.
pub fn print_usage<O: Write, E: Write>(error: &WordsError, out: &mut O, err: &mut E) -> Printed
    ensures asked { IsRequest error.now → err.new ≡ err.old }
    ensures refused { ¬ IsRequest error.now → out.new ≡ out.old }
    ensures done { IsRequest error.now → result.is_whole ≡ true → result.status ≡ 0 }
    ensures help { result.status ≡ 0 → IsRequest error.now }
    ensures words { ¬ IsRequest error.now → result.is_whole ≡ true → result.status ≡ 2 }
    ensures cut { result.is_whole ≡ false → result.status ≡ 4 }
{
    let (written, status) = if error.use_stderr() {
        (write!(err, "{error}"), BAD_WORDS)
    } else {
        (write!(out, "{error}"), Ending::Done.status())
    };
    if written.is_err() {
        return Printed {
            status: STOPPED,
            is_whole: false,
        };
    }
    Printed {
        status,
        is_whole: true,
    }
}
