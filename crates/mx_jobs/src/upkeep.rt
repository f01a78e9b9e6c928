//! What a word does over a database where no office is open: a file moved on to the newest layout, and one made of a
//! whole book.
//!
//! # What is promised
//!
//! - `migrate` over a database makes at most so many commits of the move, as `mx_migrate::settle` makes them, and
//!   appends the point that the file is at then; where a fault stops it the commits before that stand: `move_on`:
//!   `moved` (`Moves`, `PrintsPoint`), `shown`, `unprinted`.
//! - `init-old` over an empty database makes the tables of layout 1 with the book of those of the commands that are
//!   accepted, in one commit; whatever stops it, a crash leaves no table or all with all rows; over a database that is
//!   not empty nothing is made and nothing changes; the replies are those of the definitions: `accept_all`: `accepted`
//!   (`AreAccepted`); `print_accepted`; `install_book`: `installed`, `crash`, `unchanged`, `taken`, `kept`, `not_here`,
//!   `stops`.

pub mod installing;
mod moving;

pub use installing::{Accepted, accept_all, install_book, print_accepted};
pub use moving::move_on;
