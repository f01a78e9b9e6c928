//! Lines over the tables of any database, whatever their rows are: no command is judged here, and none is applied.
//!
//! - `queries`: rows of a database as text.
//! - `faults`: the faults of tables and of statements as text, which lines over a database answer alike.
//! - `kept`: lines over kept rows.
//! - `later`, `late`: lines over the rows of the layout behind the newest, and those that change them.
#![tactic(auto)]

pub mod faults;
pub mod kept;
mod late;
pub mod later;
pub mod queries;
