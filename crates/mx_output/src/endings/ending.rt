//! How a word of the program ends: the status, and the line on standard error where something
//! stopped it.
//!
//! A run may be stopped by a fault, and memory may run out for the lines of the replies that were given before it. The
//! second is then what is told, so that every other fault of a run comes behind the lines of all replies that were
//! given; no other order lets a clause say that.

ghost use Rattle.std.specs.Prelude.{◌≡◌, ◌≢◌, ◌≤◌, OnOk};
ghost use Rattle.std.specs.Io.KnownBytes.{Appends};
ghost use Rattle.mx_output.specs.endings.FaultLine.{fault_line, create_words, line_of, move_words, open_words};
ghost use Rattle.mx_output.specs.endings.Status.{done_status, ending_status, graver, move_status, stop_status};

use crate::endings::lines::{write_damaged, write_fault, write_intake};
use mx_faults::{Fault, MoveFault, OpenFault};
use mx_intake::IntakeFault;
use mx_layout::TableFault;
use std::io;
use std::io::Write;

/// The words are none that the program takes.
pub const BAD_WORDS: u8 = 2;

/// The input file can't be opened, or gives no commands, or a row of it states no sector.
const BAD_INPUT: u8 = 3;

/// The office was opened, and something stopped the program then, or its tables are those of no book.
pub const STOPPED: u8 = 4;

/// The database was not opened or made, or the port not bound.
const NOT_OPENED: u8 = 5;

/// How a word ends that nothing stopped.
#[derive(Clone, Copy)]
pub enum Ending {
    /// All was done.
    Done,
    /// A reply or a question was refused.
    Refused,
    /// A row of a sector log states no sector.
    Bad,
    /// The tables of a file are those of no book.
    Differs,
}

impl Ending {
    /// The status: 0 where all was done, 1 where something was refused, 3 where a row was bad, 4 where the tables are those
    /// of no book.
    pub fn status(self) -> u8
        ensures named { result ≡ ending_status self }
        ensures bound { result ≤ 4 }
    {
        match self {
            Ending::Done => 0,
            Ending::Refused => 1,
            Ending::Bad => BAD_INPUT,
            Ending::Differs => STOPPED,
        }
    }

    /// The graver of two endings: all was done where both times all was done.
    pub fn or(self, other: Ending) -> Ending
        ensures { result ≡ graver self other }
    {
        match (self, other) {
            (Ending::Done, _) => other,
            (Ending::Refused, Ending::Done) => Ending::Refused,
            (Ending::Refused, _) => other,
            (Ending::Bad, Ending::Differs) => Ending::Differs,
            (Ending::Bad, _) => Ending::Bad,
            (Ending::Differs, _) => Ending::Differs,
        }
    }
}

/// Why a word ends before its work is done.
#[derive(Clone, Copy)]
pub enum Stop {
    /// The words are none that the program takes.
    Words,
    /// A command that they say lacks its shape.
    Shape,
    /// The input file can't be opened, or gives no commands.
    Intake(IntakeFault),
    /// Memory ran out before a database was opened.
    MakeMemory,
    /// No book was made in the database.
    Create(TableFault),
    /// No office was opened.
    Open(OpenFault),
    /// A move to the newest layout was stopped. The commits before that stand.
    Move(MoveFault),
    /// The port can't be bound.
    Net,
    /// A call of the office was stopped.
    Office(Fault),
    /// Memory ran out for what was to be printed. What was entered before stands.
    Print,
}

impl Stop {
    /// The status that the program ends with.
    pub fn status(self) -> u8
        ensures named { result ≡ stop_status self }
        ensures bound { result ≤ 5 }
    {
        match self {
            Stop::Words | Stop::Shape => BAD_WORDS,
            Stop::Intake(_) => BAD_INPUT,
            Stop::MakeMemory | Stop::Create(_) | Stop::Open(_) | Stop::Net => NOT_OPENED,
            Stop::Move(fault) => move_status(fault),
            Stop::Office(_) | Stop::Print => STOPPED,
        }
    }

    /// Writes its line.
    pub fn write<W: Write>(self, err: &mut W) -> io::Result<()>
        ensures { OnOk result (Appends (W.contents err.old) (W.contents err.new) (fault_line
            self)) }
    {
        match self {
            Stop::Words => err.write_all(b"fault words\n"),
            Stop::Shape => err.write_all(b"fault shape\n"),
            Stop::Intake(fault) => write_intake(err, fault),
            Stop::MakeMemory | Stop::Print => err.write_all(b"fault memory\n"),
            Stop::Create(fault) => write_create(err, fault),
            Stop::Open(fault) => write_open(err, fault),
            Stop::Move(fault) => write_move(err, fault),
            Stop::Net => err.write_all(b"fault net\n"),
            Stop::Office(fault) => write_fault(err, fault),
        }
    }
}

// The status of a move that was stopped: a file that is not one of an office, or is of a newer layout, was not opened.
fn move_status(fault: MoveFault) -> u8
    ensures named { result ≡ move_status fault }
    ensures bound { result ≤ 5 }
{
    match fault {
        MoveFault::NotOurs | MoveFault::NewerLayout(_) => NOT_OPENED,
        MoveFault::Memory | MoveFault::Store | MoveFault::Damaged(_) => STOPPED,
    }
}

/// The status of a word that ended so.
pub(crate) fn status_of(done: Result<Ending, Stop>) -> u8
    ensures named { result ≡ done_status done }
    ensures bound { result ≤ 5 }
{
    match done {
        Ok(ending) => ending.status(),
        Err(stop) => stop.status(),
    }
}

fn write_create<W: Write>(err: &mut W, fault: TableFault) -> io::Result<()>
    ensures { OnOk result (Appends (W.contents err.old) (W.contents err.new) (line_of
        (create_words fault))) }
{
    match fault {
        TableFault::Memory => err.write_all(b"fault memory\n"),
        TableFault::Store => err.write_all(b"fault store\n"),
        TableFault::NotOurs => err.write_all(b"fault not-ours\n"),
        TableFault::Exists => err.write_all(b"fault exists\n"),
        TableFault::Damaged(table) => write_damaged(err, table),
    }
}

fn write_open<W: Write>(err: &mut W, fault: OpenFault) -> io::Result<()>
    ensures { OnOk result (Appends (W.contents err.old) (W.contents err.new) (line_of (open_words
        fault))) }
{
    match fault {
        OpenFault::Memory => err.write_all(b"fault memory\n"),
        OpenFault::Store => err.write_all(b"fault store\n"),
        OpenFault::NotOurs => err.write_all(b"fault not-ours\n"),
        OpenFault::NewerLayout(layout) => writeln!(err, "fault newer {layout}"),
        OpenFault::Damaged(table) => write_damaged(err, table),
        OpenFault::OlderLayout(layout) => writeln!(err, "fault older {layout}"),
    }
}

fn write_move<W: Write>(err: &mut W, fault: MoveFault) -> io::Result<()>
    ensures { OnOk result (Appends (W.contents err.old) (W.contents err.new) (line_of (move_words
        fault))) }
{
    match fault {
        MoveFault::Memory => err.write_all(b"fault memory\n"),
        MoveFault::Store => err.write_all(b"fault store\n"),
        MoveFault::NotOurs => err.write_all(b"fault not-ours\n"),
        MoveFault::NewerLayout(layout) => writeln!(err, "fault newer {layout}"),
        MoveFault::Damaged(table) => write_damaged(err, table),
    }
}
