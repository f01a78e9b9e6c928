//! The disks whose files are in memory, and an office that may be open over a copy of them.

use crate::files::{
    Fused, Left, Pair, asked_in, asked_of_files, copied, empty_files, held_in, left_by, lose_power,
};
use mx_desk::jobs::office::Office;
use mx_test_cases::{AnswerText, Asked, Disks, Held, Setting, Unmade};
use mx_test_tables::faults::{append_error, room};
use std::alloc::{AllocError, Global};
use std::mem;

/// A database file and its log in memory, a copy of them that is kept, and an office that may be open.
pub struct MemoryDisks {
    alloc: Global,
    // The database file and its log. While an office is open, as they were before it was opened.
    files: Pair,
    // The files that `restore` takes back.
    kept: Pair,
    // Files that were set aside.
    aside: Option<Pair>,
    office: Option<Office<Fused>>,
}

// Whether files that answered so are taken: where they were answered a line that may change them. One that a fault stopped
// leaves them as the fault did.
fn is_taken(words: &[&str], answer: &AnswerText) -> bool {
    answer.is_ok()
        && matches!(
            words,
            ["make" | "make-old" | "make-later" | "install" | "open"]
                | ["sql" | "kept" | "later" | "step" | "enter", ..]
        )
}

impl MemoryDisks {
    /// Files that hold nothing, and no office.
    pub fn new(alloc: Global) -> MemoryDisks {
        MemoryDisks {
            alloc,
            files: empty_files(alloc),
            kept: empty_files(alloc),
            aside: None,
            office: None,
        }
    }

    // Holds what a line left: the office that is open, or the files, where they are taken.
    fn hold(&mut self, left: Left, are_taken: bool) {
        match left {
            Left::Office(office) => {
                if let Some(before) = self.office.replace(office) {
                    let (_files, _) = left_by(before, false);
                }
            }
            Left::Files(files) => {
                if are_taken {
                    self.files = files;
                }
            }
        }
    }

    // Asks the database in a copy of the files, which is taken where it was changed.
    fn ask_files(&mut self, setting: Setting, asked: Asked<'_>) -> AnswerText {
        let words = asked.words;
        let (answer, left) = asked_of_files(&self.files, setting, asked)?;
        self.hold(left, is_taken(words, &answer));
        answer
    }
}

impl Disks for MemoryDisks {
    fn copy(&self) -> Result<MemoryDisks, AllocError> {
        Ok(MemoryDisks {
            alloc: self.alloc,
            files: copied(self.alloc, &self.files, Setting::WHOLE)?,
            kept: copied(self.alloc, &self.files, Setting::WHOLE)?,
            aside: None,
            office: None,
        })
    }

    fn let_go(self) {
        let MemoryDisks {
            alloc: _,
            files: _,
            kept: _,
            aside: _,
            office,
        } = self;
        if let Some(office) = office {
            let (_files, _) = left_by(office, false);
        }
    }

    fn is_open(&self) -> bool {
        self.office.is_some()
    }

    fn end(&mut self) {
        if let Some(office) = self.office.take() {
            let (files, _) = left_by(office, false);
            self.files = files;
        }
    }

    fn lose_power(&mut self) {
        self.end();
        lose_power(&mut self.files);
    }

    fn begin(&mut self) {
        self.end();
        self.files = empty_files(self.alloc);
    }

    fn keep(&mut self) -> Result<(), AllocError> {
        self.kept = copied(self.alloc, &self.files, Setting::WHOLE)?;
        Ok(())
    }

    fn restore(&mut self) -> Result<(), AllocError> {
        self.files = copied(self.alloc, &self.kept, Setting::WHOLE)?;
        Ok(())
    }

    fn held(&self) -> Result<Held, AllocError> {
        held_in(self.alloc, &self.files)
    }

    fn set_aside(&mut self) -> Result<(), AllocError> {
        let copies = copied(self.alloc, &self.files, Setting::WHOLE)?;
        self.aside = Some(mem::replace(&mut self.files, copies));
        Ok(())
    }

    fn take_back(&mut self) {
        if let Some(files) = self.aside.take() {
            self.files = files;
        }
    }

    fn ask(&mut self, setting: Setting, asked: Asked<'_>) -> AnswerText {
        match self.office.take() {
            Some(office) => {
                let (answer, left) = asked_in(Ok(office), asked);
                self.hold(left, true);
                answer
            }
            None => self.ask_files(setting, asked),
        }
    }

    fn close(&mut self) -> AnswerText {
        let mut text = room(self.alloc)?;
        let Some(office) = self.office.take() else {
            return Err(Unmade::NoSuchLine);
        };
        let (files, closing) = left_by(office, true);
        self.files = files;
        match closing {
            Ok(()) => text.push_str("ok")?,
            Err(error) => append_error(&mut text, error)?,
        }
        Ok(text)
    }
}
