//! The calls of an office, each in a function of its own that says nothing of the tables: so the proofs above
//! carry none of what the office promises of them.
use mx_base::Use;
use mx_book::Reply;
use mx_book::commands::{Command, Item};
use mx_desk::jobs::logs::{self, ImportReport};
use mx_desk::jobs::office::{Ask, Fault, Office, Outcomes};
use mx_desk::{DeskFault, serve_one};
use mx_intake::IntakeFault;
use mx_lists::{Question, Report};
use mx_test_cases::{Sink, Source};
use sqlite::Alter;
use std::alloc::Global;

/// What the office answers to the command.
pub(crate) fn applied<S: Alter>(
    alloc: Global,
    office: &mut Office<S>,
    command: &Command,
) -> Result<Reply, Fault> {
    office.apply(alloc, command)
}

/// What the office answers to a list of commands.
pub(crate) fn ran<S: Alter>(
    alloc: Global,
    office: &mut Office<S>,
    commands: &[Command],
) -> Outcomes {
    office.run(alloc, commands)
}

/// At most so many entries of the office, from a number on.
pub(crate) fn entries_of<S: Alter>(
    alloc: Global,
    office: &mut Office<S>,
    from: u32,
    at_most: u32,
) -> Result<Vec<Command>, Fault> {
    office.entries(alloc, from, at_most)
}

/// The life of an item.
pub(crate) fn life_of<S: Alter>(
    alloc: Global,
    office: &mut Office<S>,
    item: &Item,
) -> Result<Use, Ask> {
    office.life(alloc, item)
}

/// The list that a question asks for.
pub(crate) fn list_of<S: Alter>(
    alloc: Global,
    office: &mut Office<S>,
    question: &Question,
) -> Result<Report, Ask> {
    office.list(alloc, question)
}

/// Whether the tables of the office stand for a book.
pub(crate) fn verified_in<S: Alter>(alloc: Global, office: &mut Office<S>) -> Result<bool, Fault> {
    office.verify(alloc)
}

/// Whether the office has to be opened again.
pub(crate) fn is_in_doubt<S: Alter>(office: &Office<S>) -> bool {
    office.needs_reopen()
}

/// What the rows of the log that a reader gives are told, or its fault as a whole.
pub(crate) fn imported<S: Alter>(
    alloc: Global,
    office: &mut Office<S>,
    reader: &mut Source<'_>,
) -> Result<ImportReport, IntakeFault> {
    logs::import(alloc, office, reader)
}

/// How the desk ends with the request that a reader gives, which it answers into a writer.
pub(crate) fn served<S: Alter>(
    alloc: Global,
    office: &mut Office<S>,
    reader: &mut Source<'_>,
    writer: &mut Sink,
) -> Result<(), DeskFault> {
    serve_one(alloc, office, reader, writer)
}
