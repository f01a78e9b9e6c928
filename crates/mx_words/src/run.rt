//! The program on its words.
ghost use Rattle.std.specs.Prelude.{◌≡◌, ◌≢◌, ◌⊎◌, ◌≤◌, None, IfOk, IfErr};
ghost use Rattle.std.specs.Io.KnownBytes.{Appends, Keeps};
ghost use Rattle.mx_words.specs.Done.{IsAnswered, IsDone, IsEnded, IsEndedForSome, LacksShape};
ghost use Rattle.mx_words.specs.command_line.Job.{job_of, said};
ghost use Rattle.mx_output.specs.endings.FaultLine.{fault_line};
ghost use Rattle.mx_output.specs.endings.Status.{LeavesUnread, Shows, stop_status};

use crate::command_line::{Words, command, print_usage, words_of};
use clap::ArgMatches;
use clap::error::ErrorKind;
use mx_output::endings::{Ending, Stop, print_done};
use std::io::Write;

/// What does the jobs that words ask for.
pub trait Perform {
    /// Does what the words ask for, and appends what that prints.
    fn perform(
        &self,
        rt: &HostRuntime,
        words: &Words<'_>,
        out: &mut Vec<u8>,
    ) -> Result<Ending, Stop>
        ensures done { IfOk result (Shows (IsDone (job_of words.now)) out.old.items out.new.items) }
        ensures shape { result ≡ Err Stop.Shape
            → LacksShape (job_of words.now) × (out.new ≡ out.old) }
        ensures words { result ≢ Err Stop.Words }
        ensures unprinted { IfErr result (λ stop. stop_status stop ≡ 2 → out.new ≡ out.old) }
        ensures unread { IfErr result (LeavesUnread out.old.items out.new.items) };
}

// Does what the words ask for, if they can be read, prints it, and answers the status.
fn answer_words<P: Perform, O: Write, E: Write>(
    rt: &HostRuntime,
    performer: &P,
    matches: &ArgMatches<'_>,
    out: &mut O,
    err: &mut E,
) -> u8
    ensures bound { result ≤ 5 }
    ensures done { result ≡ 0
        → IsEnded (said matches.now) Ending.Done (O.contents out.old) (O.contents out.new) }
    ensures refused { result ≡ 1
        → IsEnded (said matches.now) Ending.Refused (O.contents out.old) (O.contents out.new) }
    ensures unasked { said matches.now ≡ None → 2 ≤ result }
    ensures unread_words { said matches.now ≡ None → result ≡ 2
        → Appends (E.contents err.old) (E.contents err.new) (fault_line Stop.Words) }
    ensures quiet { result ≤ 1 → err.new ≡ err.old }
    ensures unprinted { result ≡ 2 → Keeps (O.contents out.old) (O.contents out.new) }
    ensures unread { result ≡ 3 → Keeps (O.contents out.old) (O.contents out.new)
        ⊎ IsEnded (said matches.now) Ending.Bad (O.contents out.old) (O.contents out.new) }
{
    let Some(words) = words_of(matches) else {
        return print_done(&[], Err(Stop::Words), out, err).status;
    };
    let mut text = Vec::new(rt.alloc());
    let done = performer.perform(rt, &words, &mut text);
    print_done(&text, done, out, err).status
}

/// Runs the program on its words, the first of which is its name: what they ask for is performed. Prints replies, reports and help
/// to `out`, faults and usage to `err`, and answers the status: 0 where all was done; 1 where a
/// reply or a question was refused; 2 for words that it does not take; 3 for an input file that gives
/// no commands, or where a row of a sector log was bad; 4 for a fault after the database was opened, and where its tables are
/// those of no book; 5 where it could not be opened or made, or the port not bound.
pub fn run_words<P: Perform, O: Write, E: Write>(
    rt: &HostRuntime,
    performer: &P,
    words: &[String],
    out: &mut O,
    err: &mut E,
) -> u8
    ensures bound { result ≤ 5 }
    ensures done { result ≡ 0 → IsAnswered (O.contents out.old) (O.contents out.new) }
    ensures refused { result ≡ 1
        → IsEndedForSome Ending.Refused (O.contents out.old) (O.contents out.new) }
    ensures quiet { result ≤ 1 → err.new ≡ err.old }
    ensures unprinted { result ≡ 2 → Keeps (O.contents out.old) (O.contents out.new) }
    ensures unread { result ≡ 3 → Keeps (O.contents out.old) (O.contents out.new)
        ⊎ IsEndedForSome Ending.Bad (O.contents out.old) (O.contents out.new) }
{
    let Ok(command) = command(rt.alloc()) else {
        return print_done(&[], Err(Stop::MakeMemory), out, err).status;
    };
    match command.try_get_matches_from(words) {
        Err(error) if error.kind() == ErrorKind::OutOfMemory => {
            print_done(&[], Err(Stop::MakeMemory), out, err).status
        }
        Err(error) => print_usage(&error, out, err).status,
        Ok(matches) => answer_words(rt, performer, &matches, out, err),
    }
}
