//! What disks are: files that stop, lose power and are opened again, and an office over them, asked in lines.

use crate::commands::AnswerText;
use mx_book::commands::Command;
use std::alloc::{AllocError, Global};

/// The length of the log of a real file, in pages.
const LONG: usize = 1000;

/// How files are opened.
#[derive(Clone, Copy)]
pub struct Setting {
    /// The number of calls after which the log fails.
    pub log: u64,
    /// The number of calls after which the database file fails.
    pub db: u64,
    /// How many pages the log holds before it is copied into the database file.
    pub pages: usize,
}

impl Setting {
    /// Neither file fails, and the log is as long as that of a real file.
    pub const WHOLE: Setting = Setting {
        log: u64::MAX,
        db: u64::MAX,
        pages: LONG,
    };
}

/// What an open office is asked, or the database that files hold.
#[derive(Drop)]
pub struct Asked<'a> {
    /// The memory of the answer.
    pub alloc: Global,
    /// The words of the line.
    pub words: &'a [&'a str],
    /// The commands that `run` hands in, and `first` the first of them.
    pub list: &'a [Command],
    /// The text that `import` hands in, and `post`.
    pub text: &'a str,
    /// Where the entries are put that `entries` finds.
    pub entries: &'a mut Vec<Command>,
}

/// The bytes that a database file and its log hold.
#[derive(PartialEq, Eq, Drop)]
pub struct Held {
    pub log: Vec<u8>,
    pub db: Vec<u8>,
}

/// A database file and its log, a copy of them that is kept, and an office that may be open.
pub trait Disks: Sized {
    /// Disks with copies of the files, which they also keep, and no office.
    fn copy(&self) -> Result<Self, AllocError>;

    /// Lets go of everything.
    fn let_go(self);

    /// Whether an office is open.
    fn is_open(&self) -> bool;

    /// The process of an open office ends: the files are as it left them.
    fn end(&mut self);

    /// The process of an open office ends, and the power is lost: the files hold what was synced.
    fn lose_power(&mut self);

    /// The process of an open office ends, and the files hold nothing.
    fn begin(&mut self);

    /// Keeps a copy of the files. Where memory runs out, what was kept before is kept.
    fn keep(&mut self) -> Result<(), AllocError>;

    /// Takes the files back of which a copy was kept. Where memory runs out, the files stay as they are.
    fn restore(&mut self) -> Result<(), AllocError>;

    /// The bytes that the files hold.
    fn held(&self) -> Result<Held, AllocError>;

    /// Sets the files aside, and goes on with copies that have the same bytes, all of them synced. Where memory runs out,
    /// the files stay as they are.
    fn set_aside(&mut self) -> Result<(), AllocError>;

    /// Takes back the files that were set aside, if any were.
    fn take_back(&mut self);

    /// What the open office answers to a line. Where none is open, what the database in the files answers, which is
    /// opened with this setting: they change where it makes a book, opens its office or runs a statement. `NoSuchLine`
    /// where it is no line of what is asked.
    fn ask(&mut self, setting: Setting, asked: Asked<'_>) -> AnswerText;

    /// Closes the open office as the program does, so that the log is copied into the database file: `ok`, or what
    /// stopped that. `NoSuchLine` where none is open.
    fn close(&mut self) -> AnswerText;
}
