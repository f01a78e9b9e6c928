//! Judging by rows. `Rows` is a transaction as records of which any question of the judge and of a list is asked, each
//! by one look-up; `judge_by_rows` is the verdict on a command by them.
//!
//! - `known`: whether a command is known, by the rows of the entry that has its document.
//!
//! # What is promised
//!
//! The office judges by them; lines of `mx_test_office` ask them alone for verdicts (`judging.cases`).
//!
//! - Where the tables stand for a book, the verdict on a command by rows is that of the judge on that book:
//!   `judge_by_rows`: `looks_up` (`reads`: `read`).
//! - Over any rows, the verdict is that of the judge on each book as which the rows answer: one that has whatever they
//!   answer to a question of the judge, of which each finds rows by a name or a number; so rows that no question finds
//!   make no other verdict: `judge_by_rows`: `looks_up` (`any_rows`: `VerdictOf`, `AnswerAs`).
//! - Over any rows, a table is told damaged only for rows that one question of the judge chooses, about some aircraft,
//!   item or document: rows that no question chooses, as a sector of an entry that is not there, are not met:
//!   `judge_by_rows`: `looks_up` (`damage`: `JudgeDamage`).
//! - What else a look-up promises, judging does: a table is told damaged only where it is, and never where the tables
//!   stand for a book; nothing changes, and the transaction goes on; it stops only for want of memory, for an error of
//!   the store or for a damaged table: `judge_by_rows`: `looks_up` (`reads`).
//!
//! A book is any list of entries there, also one that no office would have entered. Where rows answer as none does, no
//! clause says what the verdict is, but for which rows a table is told damaged; nor does one say that the command names
//! what that question was about.
#![tactic(auto)]

pub mod judging;
pub mod known;
pub mod lists;
pub mod questions;
pub mod view;
