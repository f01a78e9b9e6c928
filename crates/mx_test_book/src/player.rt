//! The player: a book that commands are handed in to, and that is asked.

use crate::{books, calendar, commands, defects, dues, identifiers, running_out};
use mx_book::commands::Command;
use mx_book::entry_list::Book;
use mx_book::{Reply, Verdict};
use mx_plain_book::Plain;
use mx_test_cases::{
    AnswerText, Plays, Unmade, answer_of, command_of, reply_in, room_for_reply, verdict_text,
};
use std::alloc::{AllocError, Global};

/// A book in memory.
#[derive(Drop)]
pub struct BookPlayer {
    alloc: Global,
    book: Book,
}

impl BookPlayer {
    /// A player with the empty book.
    pub fn new(alloc: Global) -> BookPlayer {
        BookPlayer {
            alloc,
            book: Book::new(alloc),
        }
    }

    // Begins an empty book.
    fn begin(&mut self) -> AnswerText {
        let answer = String::from_str(self.alloc, "ok")?;
        self.book = Book::new(self.alloc);
        Ok(answer)
    }

    // Judges a command, and enters it where it is new.
    fn hand_in(&mut self, command: Command) -> AnswerText {
        let room = room_for_reply(self.alloc)?;
        let verdict = Plain { book: &self.book }.judge(&command);
        match verdict {
            Verdict::New => match self.book.enter(command) {
                Ok(seq) => Ok(reply_in(room, self.alloc, &Reply::Accepted(seq))?),
                Err(_) => Err(Unmade::Memory),
            },
            verdict => Ok(verdict_text(self.alloc, &verdict)?),
        }
    }

    // The answer to a question that leaves the book as it is, or `None` where it is none of those.
    fn asked(&self, words: &[&str]) -> Result<Option<String>, Unmade> {
        if let Some(answer) = calendar::answer(self.alloc, words)? {
            return Ok(Some(answer));
        }
        if let Some(answer) = identifiers::answer(self.alloc, words)? {
            return Ok(Some(answer));
        }
        if let Some(answer) = commands::answer(self.alloc, words)? {
            return Ok(Some(answer));
        }
        if let Some(answer) = books::answer(self.alloc, &self.book, words)? {
            return Ok(Some(answer));
        }
        if let Some(answer) = dues::answer(self.alloc, &self.book, words)? {
            return Ok(Some(answer));
        }
        if let Some(answer) = running_out::answer(self.alloc, &self.book, words)? {
            return Ok(Some(answer));
        }
        defects::answer(self.alloc, &self.book, words)
    }

    // The answer to a question, or the reply to a command.
    fn answer(&mut self, words: &[&str]) -> AnswerText {
        if let ["new"] = words {
            return self.begin();
        }
        if let Some(answer) = self.asked(words)? {
            return Ok(answer);
        }
        let command = command_of(self.alloc, words)?;
        self.hand_in(command)
    }
}

impl Plays for BookPlayer {
    fn play(&mut self, words: &[&str]) -> Result<String, AllocError> {
        let answer = self.answer(words);
        answer_of(self.alloc, answer)
    }
}
