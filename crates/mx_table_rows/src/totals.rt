//! Totals, last bases, accomplishments, the cycles at which defects were found, and what is and was fitted: each is read,
//! and changed in place. Each call is made inside a `Transaction`, which the caller commits or drops.
//!
//! # What is promised
//!
//! These hold over any rows: what is not named is not met, and stays. What changes rows has the premises that
//! `mx_table_rows::chosen` says.
//!
//! - A credit adds the use to the minutes and cycles of exactly the items that it names, each once; their clocks, the
//!   other rows and each other table are as they were: `credit`: `changes` (`ChangesRows`: `becomes`).
//! - It is told damaged where one of them has no row, more than one or one that can't be read, or a sum past the most
//!   of a life, and there alone; then nothing changed, for any of them: `credit`: `changes` (`good`, `damaged`,
//!   `unchanged`).
//! - A use that is entered late is added to the totals of exactly the items that it names, and to the values of exactly
//!   those of their accomplishments whose release has a moment that is not before the landing; due and base of these, the
//!   other rows and each other table are as they were: `credit_late`: `credits` (`CreditsLate`: `becomes`).
//! - It is told damaged by the table where a total of the items can't be credited, where an accomplishment of theirs can't
//!   be read or its value would be past the most of a life, and where the release of one is not there once or can't be
//!   read, and there alone; then nothing changed: `credit_late`: `credits` (`good`, `damaged`, `unchanged`).
//! - Cycles are added to those at which the defects of an aircraft were found, of exactly those that were found at a moment
//!   or later; the other rows and each other table are as they were: `shift_found`: `changes` (`becomes`).
//! - That is told damaged where a defect of the aircraft can't be read, or a sum is past the most cycles of a life, and
//!   there alone; then nothing changed, for any of them: `shift_found`: `changes` (`good`, `damaged`, `unchanged`).
//! - An accomplishment is added, and nothing else changes; where a day of it is past the calendar that is told damaged, and
//!   nothing is done at all: `set_done`: `changes`, `refuses`.
//! - The last accomplishment of a task, or that there is none, is that of the last entry, and of the last line there:
//!   `last_done`: `reads` (`IsLastDone`).
//! - Due and base of the accomplishments of a task are made anew by their rows: what is made of all of them comes in their
//!   place, and nothing else changes: `rebase`: `changes` (`becomes`: `IsRemade`).
//! - It is told damaged where an accomplishment of the task can't be read, or a due is past 32 bits then, and there alone;
//!   then nothing changed: `rebase`: `changes` (`good`, `damaged`, `unchanged`).
//! - The accomplishments of a task are written in place of all that it had, and nothing else changes: `set_done_rows`:
//!   `replaces`.
//! - A clock is set and the life stays; a total is added; the open span of a component is ended, by its two empty
//!   columns; and nothing else changes: `set_clock`, `new_total`, `end_span2`: `changes`.
//! - A row comes in place of those that were chosen, a last base of that which the item had of the task, and nothing
//!   else changes: `ReplacesRows`: `replaces`, cited by `set_span2`, `set_total`, `set_base`, `set_found` and
//!   `set_done_row`.
//! - A span is ended only where the component has exactly one that is open and can be read; else it is told damaged,
//!   and nothing changed: `end_span2`: `changes` (`good`, `damaged`, `unchanged`).
//! - The total, and the base of a task or that there is none, are those of the one row; what is fitted is the position
//!   and component of each open span of the aircraft, in the order of their fittings: `total`, `base_row`, `fitted`:
//!   `reads`.
//! - What a flight credits is the component of each span of the aircraft that has the flight between its moments, in the
//!   order of their fittings: `fitted_during`: `reads` (`AreDuring`).
//! - Reading changes nothing; a stop within one of these calls leaves nothing but what was committed before:
//!   `unchanged`, `within` of each.

pub mod bases;
pub mod done;
pub mod found;
pub mod in_place;
pub mod instead;
pub mod late;
pub mod lives;
pub mod rebase;
mod single;
pub mod spans;
pub mod totals;
