//! A whole book made as a file of layout 1, in one commit: the file that a move to a later layout begins with. The word
//! `init-old` makes such a file, and a line of `mx_test_office` (`moves.cases`).
//!
//! # What is promised
//!
//! - Over a database that is empty, an answer `Ok` leaves the tables of layout 1, which stand for the book that was
//!   handed in: `install_v1`: `installed`.
//! - Whatever is answered, a stop leaves the database empty, or the tables with all rows of the book, never some of
//!   them: `install_v1`: `crash`.
//! - Over any other database nothing changes; no answer is `Ok`, and if nothing stops the call it is `Exists` where a
//!   table is named `office`, else `NotOurs`: `install_v1`: `kept`, `taken`, `faults`.
//! - Any answer but `Store` that is an error changed nothing, and over an empty database it is `Memory`: `install_v1`:
//!   `unchanged`, `not_here`.

mod adding;
pub mod installing;

pub use installing::install_v1;
