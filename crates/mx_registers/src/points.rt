//! The points on the way from one layout to the next: which rows stand in each table there, and what a commit moves.
//!
//! Moves lead from layout 1 to layout 2 and from there to layout 3. Those that files make end at `NEWEST_LAYOUT`, which
//! is the one number that says so: what goes by it has a twin in the definitions that takes the layout to which the way
//! leads (`is_before`, `next_point_to`, `commits_to`). Laws of the move to layout 3 are of these.
//!
//! # What is promised
//!
//! - The next point of a file, and whether a point is on the way to the newest layout, are the definition's:
//!   `point_after`, `is_on_way`.
//! - The tables at any point stand for at most one book: `laws::points_decide_the_book`.
//! - At every point each sector, deferral, fitting and removal stands in one table alone, and of each item its last bases
//!   stand or its accomplishments; a table that is not there has no row, and one that is there has all of its rows where
//!   no step is under way: `each_row_stands_once`, `tables_are_empty_or_whole`.
//! - A new command leaves every register to which it adds no row, and the spans, totals and deferrals with the cycles at
//!   which they were found of which it touches and begins none, at every point: `commands_leave_other_tables`.
//! - A commit moves up to 64 sectors or deferrals, or what there is of one component, or writes one total, or the bases
//!   of one item, or its accomplishments in place of these: behind it each row stands in one table alone, and the other
//!   tables are as they were: `a_commit_moves_sectors`, `a_commit_moves_a_component`, `a_commit_writes_a_total`,
//!   `a_commit_writes_bases`, `a_commit_moves_deferrals`, `a_commit_writes_accomplishments`,
//!   `a_commit_leaves_other_tables`.
//! - Where a move begins, or a step has nothing left, the commit moves no row: `a_commit_ends_a_step`.
//! - Each commit leaves one less, and from layout 1 the newest layout is reached behind five, one for each 64 sectors,
//!   two for each aircraft and three for each component, and not before: `a_commit_leaves_one_less`,
//!   `a_move_takes_so_many_commits`.
//! - On the way to layout 3 too, and from layout 2 it is reached behind three, one for each 64 deferrals and one for
//!   each aircraft and each component: `a_commit_leaves_one_less_to_layout_3`, `moves_take_so_many_commits`.

pub mod laws;
pub mod moves;
pub mod points;
pub mod standing;

pub use points::{LAST_MARK, NEWEST_LAYOUT, is_on_way, point_after, steps_from};
