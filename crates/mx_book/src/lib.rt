//! What a book is and when a command may be entered: the definitions over lists of accepted commands, and the types
//! that they speak of.
//!
//! - `commands`: what each kind of command says, its shape, its document, and when two are the same.
//! - `due`: when a task is due by a base, what is left until then, and the status that this gives.
//! - `entry_list`: a book in memory, the list of its entries, of which each was judged new against those before it.
//! - `judging`: the verdict on a command, by questions of any records that stand for a book.
//!
//! # What is promised
//!
//! - Each refusal has its number: `Refusal::number`.
//! - A command once accepted is answered `Already` with its number by every later book, and changes nothing:
//!   `laws::accepted_is_known`: `known`, `unchanged`.
//! - No book has one document twice: `laws::documents_are_distinct`.
//! - An airframe's life never falls as entries are added: `laws::life_never_falls`.
//! - In a book a component is in at most one place, and a position has at most one component:
//!   `laws::one_place_for_a_component`, `laws::one_component_in_a_position`.
//! - A component just removed is fitted nowhere, and one just fitted takes its position:
//!   `laws::removed_is_fitted_nowhere`, `laws::fitted_takes_its_position`.
//! - In a book the revision in force of a kind is the number of programmes that were loaded for it, and the next is one
//!   more: `laws::revisions_count_the_programmes`: `in_force`, `next`.
//! - Behind a release those defects are open that were and that none of its lines rectifies; one that is new rectifies
//!   no defect that was rectified before, and what was rectified stays so: `laws::rectified_is_closed`: `left`, `once`,
//!   `stays`.
//! - An extension that is new at most doubles the interval of its defect: `laws::extension_at_most_doubles`.
//! - A task of an item has a base exactly where it was accomplished: `laws::accomplished_has_a_base`.
//! - A run over two lists joined is the run over the first and then over the second: `laws::runs_join`: `book`,
//!   `replies`.
//! - A run appends the commands that it accepts, and each that it acknowledges is the entry with its number from then
//!   on: `laws::runs_append_the_accepted`: `book`, `acknowledged`.
//! - A run over commands of their shape makes a book of a book: `laws::runs_give_books`.
#![tactic(auto)]

pub mod commands;
pub mod defects;
pub mod due;
pub mod entry_list;
pub mod facts;
pub mod found;
pub mod judging;
pub mod laws;
pub mod limits;
pub mod records;
pub mod verdict;

pub use defects::Defect;
pub use records::Records;
pub use verdict::{Refusal, Reply, Verdict};
