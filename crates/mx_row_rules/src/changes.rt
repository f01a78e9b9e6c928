//! The rows of a command at layout 2, by their tables: those that it adds, and those that come in place of others; how
//! they are made of what was found of a book; and that they make its kept rows those of the book with the command.
//!
//! Each kind of command has a function, of its entry, what it says, and what its caller has found: the numbers of what
//! it names, the totals and the span that it touches as they are, and what is known of the lines of a release. Each
//! takes all the memory that the writing of the command needs.
//!
//! | Command | It adds beside its entry | It puts in place of others |
//! |---|---|---|
//! | aircraft | its row, its positions, its total | |
//! | component | its row, its total | |
//! | programme | its row, its tasks | |
//! | opening | its row | a last base |
//! | sector | its row | the total of its aircraft and of each component that was fitted throughout |
//! | fitting | a span | the totals of the aircraft and of the component |
//! | removal | | the span, and the totals of the aircraft and of the component |
//! | release | its row, its lines | the total of its place, a last base for each task that is done |
//! | deferral | its row | the total of its aircraft |
//! | extension | its row | |
//!
//! # What is promised
//!
//! What the caller has found (numbers of names, totals and spans as they are, what is known of the lines of a release)
//! is a premise of each function; `mx_apply::made` finds it.
//!
//! - The rows that are made of a command are exactly those that it adds to each table and those that it changes, as
//!   they are behind it, and each fits its columns: `aircraft_rows`, `component_rows`, `programme_rows`,
//!   `opening_rows`, `sector_rows`, `fitting_rows`, `removal_rows`, `release_rows`, `deferral_rows`, `extension_rows`.
//! - Whatever the caller has found, the rows are made of what the command says, of the row of its entry and of what was
//!   found: each table gains what the command says and no more, and what was found of the kept rows, changed as its
//!   rules say, is all that comes in place of others: `made` of the same ten (`AreMadeOf`).
//! - A sector is added to each total that it names once, and raises the clock of its aircraft alone; a moment raises
//!   clocks, and sets none back: `sector_rows`; `fitting_rows`, `removal_rows`, `release_rows`, `deferral_rows`.
//! - A line that certifies a task sets its base to what was reached, or in each dimension to what was due where that is
//!   less: `release_rows`.
//! - Spans and totals that a new command touches, in place of what they were, with those that it adds, are those of the
//!   book with it: `laws::commands_put_kept_rows`.

pub mod defects;
pub mod items;
pub mod laws;
pub mod moves;
pub mod plain;
pub mod programmes;
pub mod releases;
pub mod rows;
pub mod sectors;
pub mod totals;

pub use defects::{deferral_rows, extension_rows};
pub use items::{aircraft_rows, component_rows};
pub use moves::{fitting_rows, removal_rows};
pub use mx_registers::lines::{place_rows, task_rows};
pub use programmes::{opening_rows, programme_rows};
pub use releases::{Certified, release_rows};
pub use rows::{AddedRows, ChangedRows, CommandRows};
pub use sectors::sector_rows;
