//! What comes in from outside: all bytes of a reader, the commands that a JSON text states, the maintenance programme
//! that a TOML text states, or the fault of the text or of its first faulty entry; and the sectors that the rows of a
//! log state, each of them or its fault.
//!
//! # What is promised
//!
//! - Of a reader of known bytes, all of them are read, or fault 67 says that there are more than the limit, and then
//!   there are; a fault is of entry 0, and 60, 67 or 69: `read_all`: `within`, `whole`, `too_long`, `fault`.
//! - At most one byte past the limit is taken, also where a read fails: `read_all`: `takes`.
//! - A JSON text gives the commands of the definitions, over what `serde_json` reads it as: `commands_of_json`: `ok`.
//! - Else it gives the fault of the definitions, want of memory aside: that of the whole text, or of the first faulty
//!   entry, with its least number: `commands_of_json`: `err`.
//! - A TOML text gives the maintenance programme of the definitions, with its tasks in their order, over what `toml`
//!   reads it as: `programme_of_toml`: `ok`.
//! - Else it gives the fault of the definitions, want of memory aside: that of the top, of the first faulty task, or of
//!   two tasks with the same name, with its least number: `programme_of_toml`: `err`.
//! - A TOML text gives, by a document, the command that loads its programme: `programme_of`: `ok`.
//! - Else it gives the fault of the definitions, want of memory aside: that of the text, where a document of the
//!   technical log is a bad shape of entry 0 and comes before the faults of the tasks: `programme_of`: `err`.
//! - A CSV text gives what each row of the definitions gives, in order, over the records that `csv` reads: the command
//!   of a sector, or the row's own fault with its number, counted from 1: `sectors_of_csv`: `ok`.
//! - Else it gives the fault of the whole text, want of memory aside: too many bytes, whatever else is wrong with them,
//!   no such header, or too many rows: `sectors_of_csv`: `err`.
//! - Want of memory is a fault of entry 0: `commands_of_json`, `programme_of_toml`, `programme_of`, `sectors_of_csv`:
//!   `memory`.
//! - A day or a moment is read from exactly its printed text: `read_day`, `read_moment`: `day`, `moment`, `some`,
//!   `none`.
//!
//! That the definitions mean what they should is shown by texts that they are computed on, in `proofs/Worked.antt`,
//! `proofs/WorkedForms.antt` and, for releases and defects, `proofs/WorkedReleases.antt` and
//! `proofs/WorkedDefects.antt`: each form, each fault, faults of different numbers beside one another, keys that
//! exclude each other, the ends of numbers and lists, and a key that is written twice. Those of a programme are
//! computed on tables in `proofs/WorkedTasks.antt`: each key, each fault of the top and of a task, and the hours on
//! either side of the last whose minutes are read; three tasks are computed from their text as well. What a document
//! adds to them is computed in `proofs/WorkedLoading.antt`.
//!
//! # How a text is read
//!
//! `read_all` takes all bytes of a reader, or stops one byte past its limit. `commands_of_json` has `serde_json` read
//! them: each value of the list is an object whose word at `do` chooses a form, and the form looks at it three times:
//! whether a key is missing, which command it states where every value can be read, and whether it has another key. The
//! least fault of these, or the command, is what the entry gives (`entry_by_form`), and the first faulty entry is what
//! the list gives.
//!
//! `programme_of_toml` has `toml` read a text, and looks at its top and then at each table of `task` in the same three
//! ways (`by_form`), the top before the tasks; last come the names, of which no two may be the same.
//!
//! `sectors_of_csv` has `csv` read all records of a text: the first has to be the header, and each other gives the
//! command of a sector or its own fault (`row_of`): six fields, each of which can be read, and a sector of its shape. A
//! field is read where it is asked for, so a row of five is not read at all.
//!
//! # To add a command
//!
//! A further command adds its form in one place: a part of `src/commands.rt` and of `specs/Forms.antt`, or a file beside
//! each, with a line where the word at `do` chooses the form (`forms.rt`, `entry_by_word`).
#![tactic(auto)]

mod category;
mod commands;
mod fault;
mod form;
mod forms;
mod input;
mod items;
mod json;
mod keys;
mod limits;
mod lines;
mod listed;
mod loading;
mod number;
mod object;
mod places;
mod positions;
mod programme;
mod records;
mod sector;
mod sector_row;
mod sector_rows;
mod table;
mod task;
mod text;
mod vocabulary;

pub use fault::{
    BAD_HEADER, BAD_ROW, BAD_SHAPE, BAD_VALUE, IntakeFault, MEMORY, MISSING, NOT_TEXT, READ_FAILED,
    TOO_LONG, UNKNOWN_KEY,
};
pub use input::read_all;
pub use json::{MOST_COMMANDS, commands_of_json};
pub use loading::programme_of;
pub use number::read_number;
pub use programme::programme_of_toml;
pub use sector_rows::{MOST_ROWS, sectors_of_csv};
pub use text::MOST_BYTES;
pub use vocabulary::{read_day, read_identifier, read_moment};
