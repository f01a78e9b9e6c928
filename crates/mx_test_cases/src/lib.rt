//! Cases as data: files of lines that ask something and say what is to be answered, the commands that their
//! words name, and the texts of answers. A program that plays files of cases says how a question is answered;
//! the rest is here, what the disks are that an office can be asked over, and readers and writers of which a call fails.
#![tactic(auto)]

pub mod answers;
pub mod commands;
pub mod disks;
pub mod files;
pub mod playing;
pub mod program;
mod programmes;
pub mod questions;
pub mod quoted;
mod releases;
pub mod streams;
pub mod wrong;

pub use answers::{
    answer_of, append_joined, append_lines, append_number, append_reply, append_word, begin_print,
    documents, joined_lines, listed, number_text, or_none, printed, replies_in, reply_in,
    room_for_replies, room_for_reply, verdict_text, yes_or_no,
};
pub use commands::{AnswerText, Unmade, body_of, command_of, item_of, use_of};
pub use disks::{Asked, Disks, Held, Setting};
pub use files::{Played, play_file};
pub use playing::{Plays, answered};
pub use program::run;
pub use questions::question_of;
pub use quoted::text_of;
pub use streams::{Flow, Flows, Sink, Source};
pub use wrong::{Wrong, must, wrong_text};
