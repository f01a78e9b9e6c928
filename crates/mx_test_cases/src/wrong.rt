//! What is not as it must be.

use crate::commands::{AnswerText, Unmade};
use std::alloc::{AllocError, Global};

/// Why something is not as it must be.
#[derive(Clone, Copy)]
pub enum Wrong {
    /// A line can't be played.
    Unmade(Unmade),
    /// What was found, in words.
    Found(&'static str),
}

impl From<Unmade> for Wrong {
    fn from(error: Unmade) -> Wrong {
        Wrong::Unmade(error)
    }
}

impl From<AllocError> for Wrong {
    fn from(_error: AllocError) -> Wrong {
        Wrong::Unmade(Unmade::Memory)
    }
}

/// What must hold, or what was found where it doesn't.
pub fn must(holds: bool, otherwise: &'static str) -> Result<(), Wrong> {
    if holds {
        Ok(())
    } else {
        Err(Wrong::Found(otherwise))
    }
}

/// What a line is answered where this is wrong.
pub fn wrong_text(alloc: Global, wrong: Wrong) -> AnswerText {
    match wrong {
        Wrong::Unmade(error) => Err(error),
        Wrong::Found(what) => Ok(String::from_str(alloc, what)?),
    }
}
