//! The rows that a later layout keeps beside the registers, as functions of the book, and what a command makes of them.
//!
//! # What is promised
//!
//! These are laws of the rows that layout 2 keeps beside the registers, which the office writes with its commands. What
//! is said of a sector holds whenever it was flown; where it has to take off by the clock of its airframe, the clause
//! says so.
//!
//! - A new command ends the span of the component that it removes and begins one where it fits a component, and so do
//!   their rows; a span begins and ends by the clocks of its airframe and component: `spans_change`,
//!   `span_rows_change`, `spans_are_timed`.
//! - The row of the open span of a component has where it is fitted and since when: `rows_have_what_is_fitted`.
//! - The fittings and removals of a book are in the rows of its spans: `spans_have_the_registers`.
//! - A new command adds to the sectors of an item exactly those that it is credited with, to its life these, and to its
//!   clock the moments that the command gives it; no clock of a place falls: `credits_change`, `lives_change`,
//!   `clocks_change`, `places_have_clocks`.
//! - A sector that takes off by the clock of its airframe is credited to what is at its aircraft, and late for no item;
//!   nor is one that lands after it: `sectors_in_order`.
//! - No sector is under way when a component is fitted to its aircraft or removed from it; so the life of an item up to a moment is
//!   what was flown between the moments of its spans, by the landings alone, and by the rows of sectors and spans:
//!   `no_sector_is_cut`, `lives_are_by_moments`, `lives_are_by_rows`.
//! - Each total grows by what a new command gives its item, and an item that it adds has one; by the numbers in the
//!   rows alone it is said of every command which totals change and to what, and which totals and spans stay:
//!   `totals_change`, `totals_change_by_number`, `other_rows_stay`.
//! - The row of an item has its life now and its clock: `rows_have_the_totals`.
//! - A sector changes the totals of its aircraft and of what was fitted to it throughout, and where it takes off by the
//!   clock of its airframe of what is fitted; a release sets the clock of its place: `sectors_change_totals`,
//!   `sectors_in_order_change_totals`, `releases_set_a_clock`.
//! - The numbers by which a sector changes totals are those of the items that are credited with it:
//!   `numbers_are_of_what_is_credited`, `numbers_are_of_what_is_there`, `sectors_in_order_touch_what_is_there`,
//!   `a_place_has_one_total`.
//! - A release sets the base of each task that it certifies, an opening that of its own; no other command sets any, and
//!   the base of an earlier accomplishment stays, where no sector of the command is late for the item: `bases_change`,
//!   `releases_set_bases`, `openings_set_bases`.
//! - The rows of the last bases have each base once, and are decided by what they say of each task of each item; with a
//!   new command, whichever it is, those that it sets come in place of those before: `rows_have_the_bases`,
//!   `bases_are_a_map`, `commands_put_bases`, `timely_commands_put_bases`.
//! - What a new command makes of the rows of every table is said in one form: `registers_become`, `kept_rows_become`.
//! - Kept rows fit their columns where the rows of the registers do, and fittings and removals theirs where the spans
//!   do: `kept_rows_fit`, `registers_fit_where_spans_do`.

pub mod bases;
pub mod lives;
pub mod spans;
pub mod tables;
pub mod totals;
