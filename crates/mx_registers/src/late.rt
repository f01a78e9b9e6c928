//! The rows that layout 3 keeps in place of the last bases and beside the defects, as functions of the book, and what a
//! command makes of them: each accomplishment of a task, with what the item had reached, when the task was due and the base
//! that this leaves; and the cycles of an airframe when a defect was found on it. No file has them yet.
//!
//! # What is promised
//!
//! What is said of a sector holds whenever it was flown; where it has to take off by the clock of its airframe, or lands late
//! for no item, the clause says so.
//!
//! - The accomplishments of a task of an item stand in the order of the entries and then of their lines, no two of one line;
//!   they are told by the number of the item and the task, and rows that agree on each task of each item are the same in some order:
//!   `rows_of_a_task`, `accomplishments_stand_by_tasks`.
//! - The base of the last is the last base of the task, and what the rows of the last bases have of it:
//!   `last_rows_have_the_bases`.
//! - What a new command makes of the table is said in one form, whichever it is: `accomplishments_become`. An opening and a
//!   release add rows, by what the items have reached and the programmes in force, and leave the others:
//!   `accomplishments_are_added`.
//! - A sector adds its minutes and cycles to the values of what it is credited to, where the release was not before its landing;
//!   due and base follow of these values, by the programmes or by the rows alone: `sectors_change_values`, `rows_are_rebased`,
//!   `numbers_are_credited_once`. Where it takes off by the clock of its airframe it changes none:
//!   `sectors_in_order_leave_accomplishments`.
//! - With each defect that was deferred stand the cycles that its airframe had reached; a sector adds its own to those that
//!   were found when it had landed, in order to none, and no other command changes one: `found_cycles_are_of_deferrals`,
//!   `found_cycles_become`, `sectors_in_order_leave_found_cycles`.
//! - The rows fit their columns where the rows of the registers do, and values and bases are within the life of an item:
//!   `accomplishments_fit`, `found_cycles_fit`.
//! - Which sector of its aircraft a sector overlaps first, and which fitting, removal or release at it first fell between its
//!   take-off and its landing, by the rows of sectors, spans and releases: `sectors_cross_by_rows`. Where it takes off by the
//!   clock of its airframe there is none: `sectors_in_order_cross_nothing`.

pub mod crossings;
pub mod done;
pub mod found;
