//! The lists that are asked of a book: due list, life list, limits and forecast of an aircraft, those of all aircraft in one,
//! and what aircraft and components there are, made by questions of any records, each alone or as the list that a question
//! asks for.
//!
//! # What is promised
//!
//! - By any records that stand for a book, when a task is due, and the due list, the life list, the limits and the
//!   forecast, are the definition's of that book, where the disk gave back what was written, or the fault of the
//!   question that was not answered, and of a list also want of memory: `due_of_kind`, `list_dues`, `list_lives`,
//!   `list_limits`, `list_forecast`.
//! - So are what is due on all aircraft, what will be, the limits of all, all aircraft and all components: `list_fleet`,
//!   `list_outlook`, `list_deferred`, `list_aircraft`, `list_components`.
//! - Of the lists of all aircraft, the rows of one registration, without it, are those of that aircraft's own list, in their
//!   order: `laws::the_fleet_has_each_due_list`, `laws::the_outlook_has_each_forecast`,
//!   `laws::the_deferred_have_the_limits_of_each`.
//! - So is the list that a question asks for, whichever it is, and it is of that kind: `list_report`: `answers`, `kind`.
//! - A list put in order has the same rows, ascending, with ties as they were: `order::sorted`: `order`, `permutation`,
//!   `ascending`, `stable`.
#![tactic(auto)]

pub mod due_lists;
pub mod due_row;
pub mod dues;
pub mod fleet_lists;
pub mod fleet_row;
pub mod forecast;
pub mod inventory;
pub mod laws;
pub mod life_list;
pub mod limit_list;
mod list_questions;
pub mod list_records;
pub mod order;
pub mod question;
pub mod report;
pub mod stop;

pub use due_lists::list_dues;
pub use due_row::{DueList, DueRow};
pub use dues::due_of_kind;
pub use fleet_lists::{
    DeferredList, FleetList, OutlookList, list_deferred, list_fleet, list_outlook,
};
pub use fleet_row::FleetRow;
pub use forecast::{
    ForecastList, ForecastRow, MOST_CYCLES, MOST_DAYS, MOST_MINUTES, list_forecast,
};
pub use inventory::{AircraftRow, ComponentRow, list_aircraft, list_components};
pub use life_list::{FittedPart, LifeList, list_lives};
pub use limit_list::{LimitList, LimitRow, list_limits};
pub use list_records::ListRecords;
pub use order::{Placed, Rows};
pub use question::Question;
pub use report::{Report, list_report};
pub use stop::Stop;
