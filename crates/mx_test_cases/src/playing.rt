//! What a player is: it answers questions.

use std::alloc::{AllocError, Global};

/// Answers questions, each a list of words.
pub trait Plays {
    /// The answer to a question, one line. An error where memory runs out, and then all that the player holds
    /// is as it was before.
    fn play(&mut self, words: &[&str]) -> Result<String, AllocError>;
}

/// The answer to a question. Where memory runs out it is asked once more: what found no memory has left
/// everything as it was, so it is answered then as if memory had been there. An error where it runs out twice.
pub fn answered<P: Plays>(
    alloc: Global,
    question: &str,
    player: &mut P,
) -> Result<String, AllocError> {
    let words: Vec<&str> = question.split_whitespace().collect(alloc)?;
    match player.play(words.as_slice()) {
        Ok(answer) => Ok(answer),
        Err(_) => player.play(words.as_slice()),
    }
}
