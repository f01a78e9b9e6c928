//! The lists by rows: the list that a question asks for, of an aircraft or of all, and the life of an item, each asked inside a
//! transaction of its rows, as `mx_row_judge` shows them.
//!
//! # What is promised
//!
//! The office lists by them; lines of `mx_test_office` ask them alone for lists (`listing.cases`).
//!
//! - Where the tables stand for a book, the list that is asked for by rows, and the life of an item, are those of that
//!   book; where it has no such aircraft, or no such component, refusal 20, or 21, is answered: `list_rows`, `life`:
//!   `looks_up` (`reads`: `read`).
//! - A list is of the kind that the question asks for: `list_rows`: `kind` (`HasKind`).
//! - Over any rows, a list is that of each book as which the rows answer the judge and the lists: `list_rows`:
//!   `looks_up` (`any_rows`: `ListOf`, `AnswerListsAs`).
//! - Tables that stand for a book answer each question as that book does, so that what is said of any rows is said of
//!   them: `laws::tables_answer_as_their_book`.
//! - Over any rows, the life of an item is that of the total with its number, or refusal 20, or 21, where no row has
//!   its name: `life`: `looks_up` (`any_rows`: `LifeAnswered`).
//! - Over any rows, a table is told damaged only for rows that one question of the judge, or of a list, chooses, about
//!   some aircraft, item or document: rows that no question chooses, as a sector of an entry that is not there, are not
//!   met; of the life of an item it is its own question: `list_rows`, `life`: `looks_up` (`damage`:
//!   `ListDamage`, `TotalDamage`).
//! - What else a look-up promises, listing does: a table is told damaged only where it is, and never where the tables
//!   stand for a book; nothing changes, and the transaction goes on; it stops only for want of memory, for an error of
//!   the store or for a damaged table: `looks_up` of each (`reads`).
//!
//! A book is any list of entries there, also one that no office would have entered. Where rows answer as none does, no
//! clause says what a list is, but for which rows a table is told damaged; nor does one say that the aircraft of a list
//! is what that question was about.

pub mod laws;
pub mod listing;
