//! What texts ask of an office: the question for a list of an aircraft or of all.
//!
//! # What is promised
//!
//! - Texts ask the question that they name, if each can be read and the numbers of a forecast are in reach:
//!   `life_question`, `due_question`, `limits_question`, `forecast_question`, and of all aircraft `fleet_question`,
//!   `deferred_question`, `outlook_question`.

pub mod asking;

pub use asking::{
    deferred_question, due_question, fleet_question, forecast_question, life_question,
    limits_question, outlook_question,
};
