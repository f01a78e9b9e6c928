//! What stops a move, a call of the office, its opening, a question that it is asked.
#![tactic(auto)]

pub mod fault;
pub mod moving;

pub use fault::{Ask, Fault, OpenFault};
pub use moving::MoveFault;
