//! What layouts 2 and 3 keep of the items and the deferrals of a book, made of the registers of a file: the totals, the last
//! bases, the accomplishments, and the cycles at which defects were found.
//!
//! # What is promised
//!
//! - The last bases of a book are answered, each once, made of its openings and of the lines of its releases:
//!   `last_bases`.
//! - What layouts 2 and 3 keep of a book is made of its registers alone, lives by the moments of sectors and spans, with
//!   the rows of each in any order and the fittings and removals in the spans; but for want of memory there is an answer
//!   wherever they are those of a book: `kept_rows`: `whole`.
//! - Over any rows, what is answered is kept of a book, the one that the rows in the order of their keys give; where
//!   there is no answer, a row is damaged or the registers differ, as the definition has it of these, or memory ran
//!   out: `kept_rows`: `any`, `merged`, `damaged`, `differs`.
//!
//! What it takes stands in `docs/COST.md`, as a part of what a move takes.

pub mod kept;
pub mod last_bases;

pub use kept::{KeptRows, Unkept, kept_rows};
