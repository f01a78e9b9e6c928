//! Replies and lists as exact text. Each printer appends exact bytes to a vector, or leaves its items as they were
//! where memory runs out.
//!
//! # What is promised
//!
//! - A reply, a due list, and whichever list is reported are appended as their exact bytes, or the vector's items are
//!   as they were: `reply_text`, `due_text`, `list_text`: `printed`, `unchanged`; for each text at once `append_whole`.
//! - A line for each of some replies is appended, or nothing where memory runs out; and it is told whether one of them
//!   is a refusal: `replies_text`; `is_refused`, `has_refusal`.
#![tactic(auto, using(crate::proofs::StartsLemmas::starts_further))]

mod defect;
mod fleet;
mod inventory;
pub mod lists;
pub mod replies;
pub mod reply;
pub mod report;
pub mod text;
mod words;

pub use lists::due_text;
pub use replies::{has_refusal, is_refused, replies_text};
pub use reply::reply_text;
pub use report::list_text;
pub use text::{Text, append_all, append_whole};
