//! What each step of a move makes of the tables, whatever rows they have, as definitions, and as laws that tables which
//! stand for a book then stand for the same book at the next point. Nothing here runs.
//!
//! # What is promised
//!
//! - Tables that stand for a book, with the new table of sectors made, or the next sectors moved, or the table of spans
//!   made in place of the old one of sectors, or the next component moved, stand for the same book at the next point:
//!   `a_new_table_keeps_the_book`; `moved_sectors_keep_the_book`, `a_change_to_spans_keeps_the_book`,
//!   `a_moved_component_keeps_the_book`: `stand`.
//! - So do they with the table of totals made in place of those of fittings and removals, or the next total written, or
//!   the table of last bases made, or those of the next item written in any order, or all indexes made at the end:
//!   `a_change_to_totals_keeps_the_book`: `stand`; `a_written_total_keeps_the_book`, `a_table_of_bases_keeps_the_book`,
//!   `written_bases_keep_the_book`, `the_end_of_a_move_keeps_the_book`.
//! - The next total of a book is that of the next item, and where there is none no item is left:
//!   `next_totals_are_of_next_items`.
//! - On the way to layout 3 so do tables with that of deferrals made, or with that of accomplishments made in place of the
//!   old one of deferrals, and, where the move has ended, without that of last bases:
//!   `a_new_table_of_deferrals_keeps_the_book`; `a_change_to_accomplishments_keeps_the_book`,
//!   `the_end_of_the_second_move_keeps_the_book`: `stand`.
//! - So do they with the next deferrals moved, or with the accomplishments of the next item written, in any order, in place
//!   of its last bases; and all days of these are in the calendar: `moved_deferrals_keep_the_book`,
//!   `written_accomplishments_keep_the_book`: `stand`; `dated`.
//! - In tables that stand for a book no sector is below the mark, has a number that no entry can have or is left over,
//!   no row is of another type, fittings and removals of a component take turns, and none is left over, nor is a deferral
//!   or a last base, so that none of these makes a table damaged: `whole` of the same laws.

pub mod accomplishment_laws;
pub mod deferral_laws;
pub mod later_laws;
pub mod laws;
