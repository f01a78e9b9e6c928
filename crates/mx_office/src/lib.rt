//! The office: the tables of one book in a database file. A command is judged by rows and applied in one commit, and a
//! question is answered from the rows that it needs; whatever stops a call, the file is that of one book.
//!
//! # What is promised
//!
//! These stand beside the clauses of the headline, which `docs/PROMISES.md` has. `apply` promises by `ran` what `run`
//! does of a run of its one command, so that each field of `IsRun` is said of both; `MarksDoubt` is its field `doubt`,
//! and of a question a field of `IsAsked`. Over any rows is said of a file of the office (`IsOfOffice`): it has the tables of
//! its point, their rowids rise, and all is committed; of a question it is enough that it has them. Behind these tables there
//! may be others, and any indexes, where no table refers to another (`IsSettled`); so in what a run and a question do to a
//! book (`over_book`, `exact`), which keep the schema. An opening is spoken of where there are no others.
//!
//! - Over any rows, good or damaged, a command answered `Already`, `Refused`, `Memory` or `Damaged` changes no table:
//!   `apply`: `untouched`.
//! - No question changes a table: `list`, by which `due_rows` answers the due list, `due_rows`, `life`, `entries`: `asked`
//!   (`untouched`).
//! - The list that a question is answered is of the kind that it asks for: `list`: `kind`.
//! - Over any rows, good or damaged, a reply is by the verdict of the judge on each book as which the rows answer that
//!   the command found: `IsRun`: `over_rows` (`told`).
//! - Over any rows, a command is accepted only where its rows were written, whose entry has the number that is replied,
//!   in the last commit: `apply`: `entered`.
//! - Over any rows, a run that accepts nothing, and that the store did not stop, changes nothing: `IsRun`: `untouched`.
//! - Over any rows, the tables behind a run that the store did not stop have the rows of the commands that were
//!   accepted on top, one after the other, and nothing else: `IsRun`: `over_rows` (`sound`).
//! - What is replied, or told damaged, is so by a connection that is open: `IsRun`: `over_rows` (`was_open`).
//! - Over any rows, whatever a run was answered, a crash leaves the tables from before, or those with the first of the
//!   commands on top, as many as have a reply at most, or one more, which is new to them, where the store failed:
//!   `IsRun`: `over_rows` (`crash`, by `HasOnTop`).
//! - Over any rows, a table that is told damaged is damaged in the tables that the command or the question found:
//!   `IsRun`: `over_rows` (`damaged`); `entries`: `damaged`; `list` and its four, `life`: `answered` (`damaged`).
//! - Over any rows, a run tells a table damaged only for rows that judging or making the command chose at which it
//!   stopped, in the tables that this found: `IsRun`: `over_rows` (`damaged`: `IsDamagedBehind`, by `CommandDamage`);
//!   a list only for rows that one question of a list chose, and a life for those of the item and its total: `list` and
//!   `due_rows`, `life`: `damage` (`ListDamage`, `TotalDamage`).
//! - Over any rows, what a list or a life is answered is so of each book as which the rows answer; the life is that of
//!   the total with its number; entries are the commands that their rows state: `list` and its four, `life`: `answered`
//!   (`sound`); `life`: `found`; `entries`: `sound`.
//! - A file that is verified stands for a book, where its rowids rise and no table refers to another, an index more or
//!   fewer or not: `laws::verified_rows_stand`.
//! - New tables stand for the empty book; the rowids of tables that stand for a book rise, and do so behind each call:
//!   `laws::new_tables_stand_for_the_empty_book`; `IsRun`: `over_book` (`kept`).
//! - Why no office was opened follows from the rows of `office`, and a database in which no table has that name is not
//!   ours: `open_office`: `reason` (`reason`, `absent`).
//! - Over tables that stand for a book no table is answered damaged: `IsRun`: `over_book` (`whole`); `list` and its
//!   four, `life`: `answered` (`exact`); `entries`: `exact`; `open_office`, where a file can be at the point: `reason`
//!   (`whole`).
//! - An office goes on where a call did not answer `Store`, and answers `NeedsReopen` only after one that did:
//!   `MarksDoubt`: `goes_on`, `usable`.
//! - A run stops at the first fault, and has fewer replies than commands then, or memory ran out where there was no
//!   command; where the office has to be opened again it does nothing and says so, also where there is no command:
//!   `IsRun`: `counted`, `done`, `cut`; `MarksDoubt`: `stopped`, `reopen`, `usable`.
//! - An office is opened only in a file at a point that a file can be at; a newer layout, and a point that no file can
//!   be at, are answered as such, `NotOurs` only where `office` has not one row, and that a layout is older never; each
//!   answer is that of the query of `office`, whatever the schema is, and so is the point at which one is opened behind a
//!   move: `open_office`: `told`, `there`, `ours` (`file`, `exact`),
//!   `reason` (`exact`, `not_ours`), `older`, `ready`. Nothing is said of the other tables, of which a call that needs
//!   one and finds none answers `Store`, as `transcripts/files.md` and `transcripts/damage.md` show.
//! - Over any rows of a file at a point, an office is opened at the point of the office alone; and whether one is or
//!   not, unless the store failed the tables are what steps of the move, each called for by the tables that it found,
//!   make of those from before, and each state that a crash may leave is one from before, or what they make:
//!   `open_office`: `moves` (`MovesOn`: `placed`, `made`, `left`).
//! - Where `office` has the one row of a point, a table is told damaged by an opening only where no file can be at that
//!   point, or by the move of an older file: `open_office`: `reason` (`exact`: `SaysWhy`).
//!
//! Over any rows no clause says that a reply is some book's, that rows of no book are never answered, or that tables
//! which hold the rows of a book are judged as that book: a damaged register that a call does not read is not met by
//! it. Nor is it said of a move over any rows, which of its commits were made where it was stopped, or that it was
//! stopped by no row that was not there.
#![tactic(auto)]

mod asking;
mod calls;
pub mod fault;
pub mod laws;
pub mod office;
mod opening;
mod questions;
mod running;
mod verifying;

pub use fault::Outcomes;
pub use mx_book::Reply;
pub use mx_faults::{Ask, Fault, OpenFault};
pub use mx_migrate::settle::NEWEST_LAYOUT;
pub use office::Office;
pub use opening::open_office;
