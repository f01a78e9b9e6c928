//! A command by rows: in one transaction it is judged by the rows of the tables, its rows are made of them and written,
//! and all of it is one commit.
//!
//! - `made`: the rows of a command, made of what is looked up.
//! - `writing`: the writing half of a command: its rows inside a transaction.
//!
//! # What is promised
//!
//! What is said over any rows, and of a book, is said of the tables of a file that is settled at layout 2, and of whatever
//! tables and indexes there are behind them (`HasTablesOfRows`), where rows are written if no table refers to another
//! (`IsSettled`). Lines of `mx_test_office` hand commands in too (`applied.cases`).
//!
//! - Over any rows, the reply is by the verdict of the judge on each book as which the rows answer: `apply`: `applies`
//!   (`Applies`: `judged`). Of a book that is what its tables answer: `laws::tables_answer_as_their_book` of
//!   `mx_row_questions::lists`.
//! - Over any rows, only a command that was accepted, or that the store stopped, changes a table: `apply`: `applies`
//!   (`Applies`: `untouched`).
//! - Over any rows, where a command was accepted its rows were written, made of what it says and of what was looked up
//!   for it; its entry has the number that is replied, and they were committed. Each register has its rows from before
//!   and this command's, and each kept row that the rules of the command do not name is as it was: `apply`: `applies`
//!   (`Applies`: `written`, by `AreRowsFor` and `with_rows`).
//! - Over any rows, and whatever is answered, a crash leaves the tables from before, or those with the one commit of
//!   the rows of this command, which is new to them: `apply`: `survives` (`HasOneCommit`).
//! - Over any rows, a table that is told damaged is damaged, and what was answered was answered by a connection that is
//!   open: `apply`: `applies` (`Applies`: `damaged`, `was_open`).
//! - Over any rows, a table is told damaged only for rows that judging or making this command chose: by a question of
//!   the judge, about some aircraft, item or document; or for its rows, the last entry, what the command names, and by
//!   the numbers of that its totals and spans. So one bad row of `opening` that no question chooses stops no command:
//!   `apply`: `damage` (`CommandDamage`: `JudgeDamage`, `MadeDamage`).
//! - Whatever rows there are, a row of any table that the rules of a command do not name is there behind it as it was.
//!   They name the spans that it ends, the totals to which it gives a sector or a moment, and the last bases that it
//!   sets: `laws::commands_leave_other_rows` (`IsNamed`).
//! - Over the tables of a book the reply is that of the book, and no table is told damaged: `apply`: `applies`
//!   (`Applies`: `said`).
//! - Over the tables of a book they stand for the book with the command where it was accepted, and after any other
//!   answer but `Store` for the book; and whatever is answered, a crash leaves the one or the other: `apply`: `applies`
//!   (`Applies`: `kept`, `same`, `crash`).
//! - Want of memory comes before the first statement that writes, and changes nothing: `apply`: `applies` (`Applies`:
//!   `untouched`); of `writing` `write_rows`: `cause`.
//!
//! No clause says why the store failed: a body that always told so would have these clauses, and the lines of
//! `applied.cases` would differ. Nor does one say that the command names what the question was about for whose rows the
//! judge told a table damaged (`mx_row_judge`).
#![tactic(auto)]

pub mod applying;
pub mod judged;
pub mod laws;
pub mod made;
pub mod writing;

pub use applying::apply;
