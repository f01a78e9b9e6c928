//! The move of a file from one layout to the next, step by step. Each step is one commit: its statements, and the row
//! of the point that they lead to.
//!
//! A type of step is an implementation of `Migrate`, whose laws say that the tables then stand for the same book at the
//! next point, and `commit_step` makes one and commits it, whatever the type is.
//!
//! From layout 1 to layout 2: `CreateSectors`, then `MoveSectors` until none is left; `ChangeToSpans`, then
//! `MoveComponent` for each component; `ChangeToTotals`, then `WriteTotal` for each aircraft and component;
//! `CreateBases`, then `WriteBases` for each of them; and `Finish`. Those that write what layout 2 keeps hold the rows,
//! which the caller makes of the book.
//!
//! From layout 2 to layout 3: `CreateDeferrals`, then `MoveDeferrals` until none is left; `ChangeToAccomplishments`, then
//! `WriteAccomplishments` for each aircraft and component; and `FinishLater`. Those that move or write rows hold them too.
//!
//! - `settle`: which step is due at the point of a file, one commit on the way, and as many as are wanted.
//!
//! # What is promised
//!
//! `mx_migrate::settle` makes these steps, and with it each word that opens an older file; lines of `mx_test_office`
//! make each alone (`moves.cases`).
//!
//! - Whatever the step is and whatever rows there are, at `Ok` the file is at the point that is answered, with what the
//!   step makes of its tables; any answer but `Store` that is an error changed nothing; each state that a stop may
//!   leave is one from before, or has that: `commit_step`: `commits` (`CommitsStep`: `made`, `untouched`, `left`).
//! - Where the tables stood for a book and the step was due, they stand for the same book at the next point, which is
//!   answered; no table is damaged; and a stop anywhere leaves them to stand for it at the one point or at the next:
//!   `commit_step`: `commits` (`CommitsStep`: `moved`, `kept`, `whole`), `crash` (`LeavesOneBook`).
//! - The step that makes the new table of sectors, in a file that is settled at layout 1, meets the law of a step:
//!   `CreateSectors`: `Migrate`.
//! - So does the one that moves the first 64 sectors of the old table to the new one, each with all that its row has;
//!   the old table loses these and no others; one of these that is not above the mark, or has a number that no entry
//!   can have, makes the old table damaged: `MoveSectors`: `Migrate` (`gone` of `MovesSectors`).
//! - So does the one that drops the old table of sectors, only where it has no row, and makes that of spans with its
//!   indexes: `ChangeToSpans`: `Migrate`.
//! - So does the one that moves all fittings and removals of a component: they take turns, each fitting with the
//!   removal that ends it is one span, and the old tables lose these and no others; one of these that has a number
//!   which no entry can have makes its own table damaged, else a second fitting in a row that of fittings, and a
//!   removal without a fitting that of removals, and neither loses a row: `MoveComponent`: `Migrate` (`made_of` of
//!   `MovesComponent`, `IsComponentOff`).
//! - So does the one that drops the tables of fittings and removals, only where neither has a row, and makes that of
//!   totals: `ChangeToTotals`: `Migrate`.
//! - So does the one that writes the total which it holds: the table has it with those from before, and nothing else
//!   changes but the point; it is due where this is the next total of the book: `WriteTotal`: `Migrate`
//!   (`WritesTotal`).
//! - So does the one that makes the table of last bases: `CreateBases`: `Migrate`.
//! - So does the one that writes the last bases which it holds, in the same way; it is due where these are those of the
//!   next item of the book, in any order: `WriteBases`: `Migrate` (`WritesBases`).
//! - So does the one that makes the last indexes and settles the file at layout 2: `Finish`: `Migrate`.
//! - On the way to layout 3 so does the one that makes the new table of deferrals, in a file that is settled at layout 2:
//!   `CreateDeferrals`: `Migrate`.
//! - So does the one that moves the first 64 deferrals of the old table to the new one, each with the cycles that it
//!   holds; the old table loses these and no others. It is due where it holds the next deferrals of the book; other
//!   deferrals than it holds, one that is not above the mark, and one that has a number which no entry can have make the
//!   old table damaged: `MoveDeferrals`: `Migrate` (`gone` of `MovesDeferrals`, `IsDeferralOff`).
//! - So does the one that drops the old table of deferrals, only where it has no row, and makes that of accomplishments:
//!   `ChangeToAccomplishments`: `Migrate`.
//! - So does the one that writes the accomplishments which it holds, in any order, and deletes the last bases of their item:
//!   the one table has them with those from before, the other loses these rows and no others, and nothing else changes but
//!   the point. It is due where these are the accomplishments of the next item of the book: `WriteAccomplishments`:
//!   `Migrate` (`WritesAccomplishments`). That their days are in the calendar is tested where they are made: `dated`.
//! - So does the one that drops the table of last bases, only where it has no row, makes the last indexes and settles the
//!   file at layout 3: `FinishLater`: `Migrate`.
#![tactic(auto)]

pub mod accomplishments;
pub mod components;
pub mod deferrals;
pub mod kept;
pub mod later_tables;
mod looking;
pub mod sectors;
pub mod settle;
pub mod step;
pub mod tables;

pub use accomplishments::WriteAccomplishments;
pub use components::MoveComponent;
pub use deferrals::MoveDeferrals;
pub use kept::{WriteBases, WriteTotal};
pub use later_tables::{ChangeToAccomplishments, CreateDeferrals, FinishLater};
pub use mx_registers::points::point_after as next_point;
pub use sectors::MoveSectors;
pub use step::{Migrate, commit_step};
pub use tables::{ChangeToSpans, ChangeToTotals, CreateBases, CreateSectors, Finish};
