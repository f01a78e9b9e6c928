//! A word over the database file: it is opened, what the word does over an open database or office is asked of it, and
//! it is closed; and a trial, over one in memory. What a file holds no contract can say; `transcripts/` shows it.
//!
//! # What is promised
//!
//! - What is appended without a fault is, of `programme`, the line of one reply; of `import`, a line for each of some
//!   rows; of `enter`, a line for each of some replies: `programme_file`, `import_file`, `enter_file`: `answers`. That
//!   they are as many as the file has commands, `transcripts/` shows.
//! - Where a word ends with status 3 by a fault of its file, nothing is appended: `enter_file`, `programme_file`,
//!   `import_file`: `answers` (`Answers`: `status`, `unread`). That a file which gives no commands, or no programme, ends so, its fault in the
//!   line, and that no database is opened then, `transcripts/bad-input.md` and `transcripts/programmes.md` show; a
//!   sector log that is faulty as a whole ends so behind the opening of the database.
//! - What `verify` appends without a fault is its line, `migrate` the line of a point, and `init-old` the replies of a
//!   new book to some commands, and nothing where no file was made: `verify_file`, `migrate_file`: `answers`;
//!   `init_old_file`: `shown`, `unread`, `status`, `unprinted`. That a file was moved to its end before it was
//!   verified, `transcripts/moving.md` shows.
//! - While a word works on the database, that becomes of it which the call below says, and nothing else: of the office,
//!   as it was opened and as it was asked, of a move, and of a book that is made: `work`: `kept` (`OpensAnd`, `Moves`,
//!   `InstallsBook`, `MakesBook`); `answer`: `kept`. What was printed of an office is right for its tables by the same.
//! - A word whose database was not opened is told why: want of memory, a fault of the store, or that the file has none,
//!   which is then not one of an office; the status is 5: `unopened_by` of `mx_database`: `memory`, `opened`;
//!   `stop_of`: `memory`, `store`, `nothing`, `status`.
//! - A word over an office, or of a move, whose file is told to be unclosed is told that the store failed, unless
//!   something stopped it before: `ended`: `closed`, `stopped`, `unclosed`. That a failed close is told as one,
//!   `transcripts/streams.md` shows.
//! - A trial that succeeds appends the replies and the life of the definitions, from no entry on, and ends as they do;
//!   no premise on a disk is needed, since its store is memory: `try_in`: `exact`; `try_in_memory`: `exact`.
//! - A trial appends what the definitions say of its commands; `Shape` comes only where one of them lacks its shape,
//!   and then nothing was appended: `try_out`: `exact`, `shaped`, `shape`.
#![tactic(auto)]

mod asking;
mod inputs;
mod installing;
mod making;
mod moving;
mod opening;
mod trial;
mod trying;
mod words;

pub use asking::{Asked, answer_file};
pub use installing::init_old_file;
pub use making::init_file;
pub use moving::migrate_file;
pub use trial::try_out;
pub use words::{enter_file, import_file, list_file, programme_file, verify_file};
