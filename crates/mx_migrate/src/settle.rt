//! A file on the way to the newest layout: which step of the move is due at its point, one commit that makes it, and as
//! many commits as are wanted.
//!
//! `Due` has a variant for each step, and is a step itself, so one commit of any of them is `mx_migrate`'s
//! `commit_step`. The steps that write the totals and the last bases hold their rows, which the registers give: these
//! are read once, at the first of such steps, and what they give of all items is kept from one commit to the next.
//!
//! # What is promised
//!
//! The office moves an older file by it as it is opened, and the word `migrate` as far as it is told; lines of
//! `mx_test_office` do both (`settling.cases`).
//!
//! - Of one commit on the way, where the tables stood for a book at a point they stand for the same book at the next
//!   point, which is answered; at the newest layout the point is answered as it is; where a file can be at the point,
//!   no table is damaged; and a stop anywhere leaves them to stand for it at the one point or at the next: `advance`:
//!   `book` (`AdvancesBook`: `moved`, `kept`, `same`, `whole`, `crash`).
//! - Whatever rows there are, any answer but `Store` that is an error changed nothing, and at the newest layout nothing
//!   changes: `advance`: `advances` (`Advances`: `untouched`, `ended`).
//! - Whatever rows there are, below the newest layout the point that is answered is a later one, and the file is there
//!   and says so: `advance`: `advances` (`Advances`: `placed`, `later`). Its tables are what the step that they call for
//!   makes of those from before; each state that a stop may leave is one from before, or what such a step makes of the
//!   tables: `advance`: `rows` (`AdvancesRows`: `made`, `left`). Rows call for a step by what is left at its front, and
//!   for the total and the last bases of an item by the book that the registers give (`IsCalledFor`): so none is passed
//!   over, and nothing is made up where they give none.
//! - A table is damaged where a row that was looked at is none of its type; where a component, or any register before
//!   totals and last bases are made of it, has a number that no entry can have, of several the table that is read
//!   first; where the registers, none of which has such a number, are those of no book, the table whose rows are to
//!   blame, or that of the entries; or as the step that is called for names it: `advance`: `rows` (`AdvancesRows`:
//!   `damaged`, by `Stops`).
//! - What `office` says decides, in any database: a newer layout, and a point that no file can be at, are answered as
//!   such, also where its rows are those of no point; `NotOurs` is answered where no table has that name; and then
//!   nothing changed, nor where it was read as a point that is not on the way: `advance`, `settle`: `follows`
//!   (`FollowsPoint`: `told`, `exact`, `absent`, `moves`).
//! - Of at most so many commits, where the tables stood for a book they stand for it behind so many, fewer only at the
//!   newest layout; where a fault other than `Store` stopped them, behind some of them; and a stop anywhere leaves them
//!   to stand for it behind some of them: `settle`: `settles` (`Settles`: `reached`, `kept`, `same`, `whole`, `crash`).
//! - Whatever rows a file at a point has, unless the store failed its tables are what so many steps of the move at
//!   most, each called for where it was made, make of those from before, one after another; and each state that a crash
//!   may leave is one from before, or what they make, so that no row goes that a step does not take: `settle`: `settles`
//!   (`Settles`: `made`, `left`, by `AreMoved`). Where a point is answered they lead there, and are so many, or it is the
//!   newest layout: `settle`: `settles` (`Settles`: `counted`). Where a table is told damaged, it stops the tables that
//!   they led to: `settle`: `settles` (`Settles`: `damaged`).
//! - Whatever rows there are, with 8,000,000 commits a file ends at the newest layout, or a fault is answered:
//!   `settle`: `settles` (`Settles`: `ends`).
//! - Where the tables of layout 1 stood for a book and no fault is answered, the file is settled at the newest
//!   layout with as many commits as its move takes, and with fewer it is on the way: `settle`: `enough`, `fewer`.
//! - So many commits are enough for both moves, that to layout 3 too: `laws::openings_make_enough_commits`.

pub mod advancing;
mod choosing;
pub mod due;
mod front;
mod items;
mod known;
pub mod laws;
mod numbers;
pub mod place;
pub mod settling;

pub use advancing::advance;
pub use due::Due;
pub use mx_registers::points::NEWEST_LAYOUT;
pub use settling::{ENOUGH_COMMITS, settle};
