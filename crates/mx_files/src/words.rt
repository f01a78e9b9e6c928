//! The words that ask the office in a file.
//!
//! A log is opened before the database and read behind it: so the faults of the two come in the order of the words, and
//! what a log says is told only where there is an office to enter it. The other words that take a file read it first:
//! their text gives commands or none, and nothing of it is entered in parts. The log is lent as `&File`, which is a
//! reader too.
ghost use Rattle.std.specs.Prelude.{length};
ghost use Rattle.mx_files.specs.Answered.{Answers};
ghost use Rattle.mx_files.specs.Asked.{Imports, Verifies};
ghost use Rattle.mx_jobs.specs.answers.Asked.{Asks};
ghost use Rattle.mx_office.specs.Calls.{Runs};
ghost use Rattle.mx_output.specs.printed.Entered.{AreReplyLines, AreSomeReplyLines, PrintsRun};
ghost use Rattle.mx_output.specs.printed.Imported.{AreRowLines};
ghost use Rattle.mx_output.specs.printed.Listed.{IsListAnswer, PrintsAnswer};
ghost use Rattle.mx_output.specs.printed.Verified.{IsVerifiedLine};

use crate::asking::{Asked, answer_file};
use crate::inputs::{UNOPENED, commands_in, programme_in};
use mx_base::Doc;
use mx_book::commands::Command;
use mx_jobs::answers::print_list;
use mx_jobs::logs::import_all;
use mx_jobs::{enter_all, print_verified};
use mx_lists::Question;
use mx_office::Office;
use mx_output::endings::{Ending, Stop};
use sqlite::Alter;
use std::{fs, slice};

// A list of an aircraft, or of all, is asked for.
impl Asked for Question {
    ghost is_answer = { IsListAnswer };

    ghost keeps = { λ question before after old new result.
        Asks question before after (PrintsAnswer old new result) };

    fn answer<S: Alter>(
        &self,
        rt: &HostRuntime,
        office: &mut Office<S>,
        out: &mut Vec<u8>,
    ) -> Result<Ending, Stop> {
        print_list(rt.alloc(), office, self, out)
    }
}

// Commands that are entered: a reply to each is asked for.
#[derive(Clone, Copy)]
struct Entered<'a> {
    commands: &'a [Command],
}

impl<'a> Asked for Entered<'a> {
    ghost is_answer = { λ entered. AreReplyLines (length entered.commands.now) };

    ghost keeps = { λ entered before after old new result.
        Runs entered.commands.now before after (PrintsRun old new result) };

    fn answer<S: Alter>(
        &self,
        rt: &HostRuntime,
        office: &mut Office<S>,
        out: &mut Vec<u8>,
    ) -> Result<Ending, Stop> {
        enter_all(rt.alloc(), office, self.commands, out)
    }
}

// A sector log that is imported: what its rows are told is asked for.
impl Asked for fs::File {
    ghost is_answer = { λ log. AreRowLines };

    ghost keeps = { λ log. Imports };

    fn answer<S: Alter>(
        &self,
        rt: &HostRuntime,
        office: &mut Office<S>,
        out: &mut Vec<u8>,
    ) -> Result<Ending, Stop> {
        let mut reader = self;
        import_all(rt.alloc(), office, &mut reader, out)
    }
}

// Whether the tables are those of a book is asked for.
#[derive(Clone, Copy)]
struct Verified;

impl Asked for Verified {
    ghost is_answer = { λ verified. IsVerifiedLine };

    ghost keeps = { λ verified. Verifies };

    fn answer<S: Alter>(
        &self,
        rt: &HostRuntime,
        office: &mut Office<S>,
        out: &mut Vec<u8>,
    ) -> Result<Ending, Stop> {
        print_verified(rt.alloc(), office, out)
    }
}

/// Appends whether the tables of a file are those of a book. A file of an older layout is moved to the newest first, as for
/// each word that opens its office.
pub fn verify_file(rt: &HostRuntime, file: &str, out: &mut Vec<u8>) -> Result<Ending, Stop>
    ensures answers { Answers IsVerifiedLine 3 out.old.items out.new.items result }
{
    answer_file(rt, file, &Verified, out)
}

/// Appends the list that a question asks for, of an aircraft or of all.
pub fn list_file(
    rt: &HostRuntime,
    file: &str,
    question: &Question,
    out: &mut Vec<u8>,
) -> Result<Ending, Stop>
    ensures answers { Answers (IsListAnswer question.now) 3 out.old.items out.new.items result }
{
    answer_file(rt, file, question, out)
}

/// Enters the commands of a file, and appends a line for each reply. Nothing is opened where the file
/// gives no commands.
pub fn enter_file(
    rt: &HostRuntime,
    file: &str,
    entries: &str,
    out: &mut Vec<u8>,
) -> Result<Ending, Stop>
    ensures answers { Answers AreSomeReplyLines 3 out.old.items out.new.items result }
{
    match commands_in(rt, entries) {
        Ok(commands) => {
            let commands = commands.as_slice();
            answer_file(rt, file, &Entered { commands }, out)
        }
        Err(fault) => Err(Stop::Intake(fault)),
    }
}

/// Enters the maintenance programme of a file by a document, and appends the line of the reply. Nothing is opened where
/// the file states none.
pub fn programme_file(
    rt: &HostRuntime,
    file: &str,
    doc: Doc,
    toml: &str,
    out: &mut Vec<u8>,
) -> Result<Ending, Stop>
    ensures answers { Answers (AreReplyLines 1) 3 out.old.items out.new.items result }
{
    match programme_in(rt, doc, toml) {
        Ok(command) => {
            let commands = slice::from_ref(&command);
            answer_file(rt, file, &Entered { commands }, out)
        }
        Err(fault) => Err(Stop::Intake(fault)),
    }
}

/// Imports the sector log of a file, and appends a line for each row. The log is opened first, then the database, and
/// then the log is read.
pub fn import_file(
    rt: &HostRuntime,
    file: &str,
    csv: &str,
    out: &mut Vec<u8>,
) -> Result<Ending, Stop>
    ensures answers { Answers AreRowLines 3 out.old.items out.new.items result }
{
    match fs::open(rt, csv) {
        Ok(log) => answer_file(rt, file, &log, out),
        Err(_) => Err(Stop::Intake(UNOPENED)),
    }
}
