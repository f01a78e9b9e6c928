//! Entries and items by rows, and what a look-up promises: the numbers with which every other look-up begins, and the
//! law of all. Each is made inside a `Transaction`, at the point at which rows are looked up, whatever
//! tables and indexes there are beside those of a file there; the office asks them for
//! each command and for each list. `Memory` is want of memory, `Store` an error of the store, and `Damaged` names a
//! table that no book gives.
//!
//! # What is promised
//!
//! Of every look-up, here, in `mx_lookups::lives` and at the top of the crate, by its clause `looks_up` (`IsLookUp`), of
//! which these are the fields:
//!
//! - What it says is of one point (`IsLookUpAt`): `IsLookUp` of that at which rows are looked up, the look-ups of the
//!   tables of layout 3 of that layout, and `LooksUp` of both.
//! - Where the tables stand for a book, an answer is what the definition says of that book: `reads` (`Reads`: `read`).
//! - Over any rows, an answer is what the rows give that were chosen by this name or number, or from a second table by
//!   the number that the first gave; where that one has no such row, a registration, a clock, a life or a defect is not
//!   answered, but the table told damaged: `any_rows` (`ReadsAny`).
//! - An answer that a table is damaged never comes where the tables stand for a book: `Reads`: `no_book`.
//! - A table is told damaged only where it is: a row of it is none of its type or names a row of another table that is
//!   not there (a span its component and its aircraft, a deferral its entry and its aircraft, an extension its defect),
//!   or another's row has none in it (of totals an aircraft or a component, of deferrals an entry that defers), or its
//!   rows are past what the office needs (the last revision of 32 bits, a task without its shape, a total or a base
//!   past a life, more aircraft or components than 32 bits count): `Reads`: `damaged` (`IsDamaged`).
//! - The row for which a table is told damaged is one that the look-up chose, by its name or number or by a number that
//!   a chosen row gave: it is none of its type, it names a row that is not there, or what it says is past what the
//!   office needs; or no row was chosen where one has to be. A row that was not chosen is not met: `damage`
//!   (`TellsDamage`).
//! - No look-up changes anything, and the transaction goes on: `Reads`: `unchanged`, `inside`.
//! - A look-up stops only for want of memory, for an error of the store or for a damaged table; a stop within it leaves
//!   nothing but what was committed before: `Reads`: `cause`, `within`.
//!
//! What is answered here is how many entries there are, the entry and the defect of a document, an aircraft, a
//! component, their numbers, and the part at a position: `entry_count`, `entry_of_doc`, `defect_number`, `aircraft`,
//! `component`, `aircraft_number`, `component_number`, `item_number`, `tail_of_number`, `part_at`. The numbers of a
//! defect and of items, and the registration of an aircraft, are answered at both points.
//!
//! No clause says why the store failed: a look-up that always told so would have its clauses, and lines of
//! `mx_test_office` would differ.

pub mod entries;
pub mod items;
