//! The player: disks, on which an office may be open, and a list of commands.

use crate::settings::{holding, setting_of};
use crate::sweep::End;
use mx_book::commands::Command;
use mx_test_cases::{AnswerText, Asked, Disks, Held, Setting, Unmade, append_word, command_of};
use std::alloc::Global;
use std::mem;

/// What stands between two lines.
pub(crate) struct Player<D> {
    alloc: Global,
    disks: D,
    // The commands that `run` and the sweeps hand in.
    list: Vec<Command>,
    // The text that `import` hands in, as a sector log, and `post`.
    text: String,
    // The entries that were asked for last.
    entries: Vec<Command>,
}

impl<D: Disks> Player<D> {
    /// These disks, and no command.
    pub(crate) fn over(alloc: Global, disks: D) -> Player<D> {
        Player {
            alloc,
            disks,
            list: Vec::new(alloc),
            text: String::new(alloc),
            entries: Vec::new(alloc),
        }
    }

    /// A player with copies of the disks, of the list and of the text.
    pub(crate) fn trial(&self) -> Result<Player<D>, Unmade> {
        let mut list = Vec::new(self.alloc);
        for command in &self.list {
            list.push(command.copy(self.alloc)?)?;
        }
        let text = self.text.clone()?;
        Ok(Player {
            alloc: self.alloc,
            disks: self.disks.copy()?,
            list,
            text,
            entries: Vec::new(self.alloc),
        })
    }

    /// The list of commands.
    pub(crate) fn list(&self) -> &[Command] {
        self.list.as_slice()
    }

    /// The entries that were asked for last.
    pub(crate) fn take_entries(&mut self) -> Vec<Command> {
        mem::replace(&mut self.entries, Vec::new(self.alloc))
    }

    /// Lets go of everything.
    pub(crate) fn let_go(self) {
        let Player {
            alloc: _,
            disks,
            list: _,
            text: _,
            entries: _,
        } = self;
        disks.let_go();
    }

    /// The program ends, if an office is open, and the power is lost or not.
    pub(crate) fn stop(&mut self, end: End) -> AnswerText {
        let text = String::from_str(self.alloc, "ok")?;
        match end {
            End::Process => self.disks.end(),
            End::Power => self.disks.lose_power(),
        }
        Ok(text)
    }

    /// What the files hold.
    pub(crate) fn held(&self) -> Result<Held, Unmade> {
        Ok(self.disks.held()?)
    }

    /// Sets the files aside, and goes on with copies of them.
    pub(crate) fn set_aside(&mut self) -> Result<(), Unmade> {
        Ok(self.disks.set_aside()?)
    }

    /// Takes back the files that were set aside.
    pub(crate) fn take_back(&mut self) {
        self.disks.take_back();
    }

    // Begins anew, with files that hold nothing.
    fn begin(&mut self) -> AnswerText {
        let text = String::from_str(self.alloc, "ok")?;
        self.disks.begin();
        self.list.clear();
        self.text.clear();
        Ok(text)
    }

    // Puts a command behind those of the list; no words empty the list.
    fn lengthen(&mut self, words: &[&str]) -> AnswerText {
        let text = String::from_str(self.alloc, "ok")?;
        if words.is_empty() {
            self.list.clear();
        } else {
            self.list.push(command_of(self.alloc, words)?)?;
        }
        Ok(text)
    }

    // Puts a line behind those of the text; no words empty the text.
    fn lengthen_text(&mut self, words: &[&str]) -> AnswerText {
        let answer = String::from_str(self.alloc, "ok")?;
        if words.is_empty() {
            self.text.clear();
            return Ok(answer);
        }
        let mut line = String::new(self.alloc);
        for word in words {
            append_word(&mut line, word)?;
        }
        line.push('\n')?;
        self.text.push_str(line.as_str())?;
        Ok(answer)
    }

    // Keeps a copy of the files.
    fn keep(&mut self) -> AnswerText {
        let text = String::from_str(self.alloc, "ok")?;
        self.disks.keep()?;
        Ok(text)
    }

    // Takes the files back of which a copy was kept.
    fn restore(&mut self) -> AnswerText {
        let text = String::from_str(self.alloc, "ok")?;
        self.disks.restore()?;
        Ok(text)
    }

    /// Asks the open office, or the database in the files, which are opened with this setting.
    pub(crate) fn ask(&mut self, setting: Setting, words: &[&str]) -> AnswerText {
        let asked = Asked {
            alloc: self.alloc,
            words,
            list: &self.list,
            text: self.text.as_str(),
            entries: &mut self.entries,
        };
        self.disks.ask(setting, asked)
    }

    /// Where a commit of the open office is in doubt, its process ends and the office is opened again.
    pub(crate) fn open_again(&mut self) -> Result<(), Unmade> {
        if self.is_open() && self.says("needs-reopen", "yes")? {
            self.disks.end();
            self.over_files(&["open"])?;
        }
        Ok(())
    }

    // A line over the files.
    fn over_files(&mut self, words: &[&str]) -> AnswerText {
        match words {
            ["keep"] => self.keep(),
            ["restore"] => self.restore(),
            ["power"] => self.stop(End::Power),
            ["make", limits @ ..] => self.ask(setting_of(limits)?, &["make"]),
            ["install", limits @ ..] => self.ask(setting_of(limits)?, &["install"]),
            ["open", limits @ ..] => self.ask(setting_of(limits)?, &["open"]),
            ["pages", pages, line @ ..] => self.ask(holding(pages)?, line),
            _ => self.ask(Setting::WHOLE, words),
        }
    }

    // A line in the open office.
    fn in_office(&mut self, words: &[&str]) -> AnswerText {
        match words {
            ["close"] => self.disks.close(),
            ["end"] => self.stop(End::Process),
            ["power"] => self.stop(End::Power),
            _ => self.ask(Setting::WHOLE, words),
        }
    }

    /// Whether an office is open.
    pub(crate) fn is_open(&self) -> bool {
        self.disks.is_open()
    }

    /// The answer to a line that is no sweep.
    pub(crate) fn answer(&mut self, words: &[&str]) -> AnswerText {
        match words {
            ["disk"] => self.begin(),
            ["list", command @ ..] => self.lengthen(command),
            ["text", line @ ..] => self.lengthen_text(line),
            _ => {
                if self.is_open() {
                    self.in_office(words)
                } else {
                    self.over_files(words)
                }
            }
        }
    }

    /// The answer to a line as it is written.
    pub(crate) fn line(&mut self, line: &str) -> AnswerText {
        let words: Vec<&str> = line.split_whitespace().collect(self.alloc)?;
        self.answer(&words)
    }

    /// Whether a line is answered so.
    pub(crate) fn says(&mut self, line: &str, answer: &str) -> Result<bool, Unmade> {
        Ok(self.line(line)?.as_str() == answer)
    }
}
