//! What is looked up inside a transaction; at the top defects, what is fitted, room, what lists ask, and what is asked of
//! the whole fleet.
//!
//! - `numbers`: entries and items by rows: the numbers with which every other look-up begins, and what a look-up
//!   promises.
//! - `lives`: lives, last bases and tasks in force, which judging, lists and the making of rows look up alike.
//!
//! # What is promised
//!
//! - Each look-up promises what those of `numbers` do, with which it begins, and ends by their faults. What is answered
//!   at the top is whether a position is taken, to which aircraft a component is fitted, and in which position, a defect,
//!   its extension and whether it was rectified, whether there is room for an aircraft or a component, what is fitted to
//!   an aircraft, and its open defects: `is_taken`, `tail_fitted`, `place_fitted`, `defect`, `extension`,
//!   `is_rectified`, `has_room_for_aircraft`, `has_room_for_component`, `fitted`, `open_defects`: `looks_up`.
//! - What is answered of the whole fleet is the registrations of all aircraft, the serial numbers of all components and
//!   the open defects of all aircraft, each in the order of their entries: `tails`, `serials`, `all_open_defects`:
//!   `looks_up`.
//! - At layout 3, with the deferrals of that layout, a defect, the open defects of an aircraft and those of all aircraft
//!   are looked up as at layout 2: `later_defects`: `defect`, `open_defects`, `all_open_defects`: `looks_up`. The numbers
//!   with which they begin are looked up at both layouts.
//! - At both layouts, from when on there are records of an aircraft, and which entries a sector overlaps and straddles
//!   first; a sector that takes off by the clock of its airframe crosses none, and asks no more than that: `crossings`:
//!   `as_of`, `first_overlapped`, `first_straddled`: `looks_up`.
//! - Over any rows, room is what the count of rows leaves: `has_room_for_aircraft`, `has_room_for_component`:
//!   `looks_up` (`any_rows`).
//! - Over any rows, what is fitted to an aircraft, its open defects and those of all aircraft are what each chosen row
//!   says, one after another: `fitted`, `open_defects`, `all_open_defects`: `looks_up` (`any_rows`).
#![tactic(auto)]

pub mod crossings;
pub mod defects;
pub mod fleet;
pub mod later_defects;
pub mod lists;
pub mod lives;
pub mod numbers;
mod rectified;
pub mod rooms;
pub mod spans;
