//! The vocabulary of the records office: identifiers, days and moments, the three dimensions of use, the categories of
//! deferred defects, the exact texts of days, moments and hours; and the point that a file is at.
//!
//! - `rows`: the row of each table as a type, and which rows fit their columns.
//!
//! # What is promised
//!
//! - An identifier's reader takes exactly its texts, and gives the text: `Identifier::read`: `succeeds`, `value`;
//!   `as_str`: `value`, `valid`.
//! - Identifiers are equal where their texts are, and ordered by their bytes: the members `eq` and `cmp` of `PartialEq`
//!   and `Ord`.
//! - A day's reader takes exactly the texts of days, and gives the day that prints so: `Day::read`: `ok`, `only`,
//!   `err`.
//! - A moment's reader takes exactly the texts of moments, and gives the moment that prints so: `Moment::read`: `ok`,
//!   `only`, `err`.
//! - A day's number counts from 1970-01-01, in `jiff`'s calendar: `Day::date`: `value`, `calendar`.
//! - No day is past 2199-12-31, and no moment past its last minute: `of_number`: `some`, `value`; `number`: `bound`;
//!   `plus_days`: `some`, `value`.
//! - A printer appends the stated bytes, or leaves the vector's items as they were: `print_day`, `print_day_number`,
//!   `print_moment`, `print_hours`: `printed`, `unchanged`.
#![tactic(auto)]

pub mod amounts;
pub mod calendar;
pub mod category;
pub mod days;
pub mod identifiers;
pub mod moments;
pub mod point;
pub mod print;
pub mod rows;
mod texts;

pub use amounts::{Base, Left, Limit, Status, Tolerance, Use};
pub use category::Category;
pub use days::{Day, plus_days};
pub use identifiers::{BadText, Doc, Kind, MelRef, Part, Position, Serial, Tail, TaskId};
pub use moments::{Moment, MomentText, day_of};
pub use point::Point;
pub use print::{print_day, print_day_number, print_hours, print_moment};
