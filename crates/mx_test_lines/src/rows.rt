//! What the rows of a database of layout 2 answer to a line:
//! - the verdict on a command, a list, and the life of an item, each in a transaction of its own that is dropped behind it;
//! - `entries FROM AT_MOST` and `entry NUMBER COMMAND`, likewise: the documents of at most so many entries, from a number on, and
//!   whether the entry with a number is this command;
//! - `verify`: `verified` where the tables stand for a book, `differs` where they do not, and else the fault;
//! - `enter COMMAND`: a command is judged by the rows, and written and committed where it is new. The answer is the reply, or what
//!   stopped it.
ghost use Rattle.std.specs.Prelude.{◌≡◌, false};

use mx_apply::apply;
use mx_base::Use;
use mx_book::commands::Item;
use mx_book::{Refusal, Reply};
use mx_layout::TableFault;
use mx_lists::{Question, Report};
use mx_row_judge::judging::judge_by_rows;
use mx_row_questions::entries::entries;
use mx_row_questions::lists::listing;
use mx_test_cases::{
    AnswerText, Unmade, command_of, documents, item_of, listed, question_of, replies_in, reply_in,
    room_for_reply, verdict_text, yes_or_no,
};
use mx_test_tables::faults::{append_table_fault, fault_text, room};
use mx_verify::verify;
use sqlite::{Alter, Connection};
use std::alloc::{AllocError, Global};

// The reply, or what stopped the command, in room that was taken for it.
fn reply_text(
    space: Vec<u8>,
    alloc: Global,
    answer: Result<Reply, TableFault>,
) -> Result<String, AllocError> {
    match answer {
        Ok(reply) => reply_in(space, alloc, &reply),
        Err(fault) => {
            let mut text = replies_in(alloc, space, &[])?;
            append_table_fault(&mut text, fault)?;
            Ok(text)
        }
    }
}

/// What is replied to the command that the words name, handed in to a database: `accepted N`, `already N`, or `refused N` with
/// what the refusal carries, as text; or the fault that stopped it.
pub fn entered_by_rows<S: Alter>(
    alloc: Global,
    conn: &mut Connection<S>,
    words: &[&str],
) -> AnswerText
    requires { conn.old.in_transaction ≡ false }
{
    let command = command_of(alloc, words)?;
    let space = room_for_reply(alloc)?;
    let answer = apply(alloc, conn, &command);
    Ok(reply_text(space, alloc, answer)?)
}

/// The verdict on the command that the words name, by the rows of a database: as text, or the fault that stopped the judge.
pub fn verdict_by_rows<S: Alter>(
    alloc: Global,
    conn: &mut Connection<S>,
    words: &[&str],
) -> AnswerText
    requires { conn.old.in_transaction ≡ false }
{
    let command = command_of(alloc, words)?;
    let mut tx = conn.transaction();
    match judge_by_rows(alloc, &mut tx, &command) {
        Ok(verdict) => Ok(verdict_text(alloc, &verdict)?),
        Err(fault) => fault_text(alloc, fault),
    }
}

/// The documents of at most so many entries, from a number on, by the rows of a database: as text, or the fault that stopped
/// the look-ups.
pub fn entries_by_rows<S: Alter>(
    alloc: Global,
    conn: &mut Connection<S>,
    from: &str,
    at_most: &str,
) -> AnswerText
    requires { conn.old.in_transaction ≡ false }
{
    let from = from.parse::<u32>()?;
    let at_most = at_most.parse::<u32>()?;
    let mut tx = conn.transaction();
    match entries::entries(alloc, &mut tx, from, at_most) {
        Ok(found) => Ok(documents(alloc, &found)?),
        Err(fault) => fault_text(alloc, fault),
    }
}

/// Whether the entry with a number is the command that the words name, by the rows of a database: as text, or the fault that
/// stopped the look-ups.
pub fn is_entry_by_rows<S: Alter>(
    alloc: Global,
    conn: &mut Connection<S>,
    seq: &str,
    words: &[&str],
) -> AnswerText
    requires { conn.old.in_transaction ≡ false }
{
    let seq = seq.parse::<u32>()?;
    let wanted = command_of(alloc, words)?;
    let mut tx = conn.transaction();
    match entries::entry(alloc, &mut tx, seq) {
        Ok(Some(found)) => Ok(yes_or_no(alloc, found.is_same(&wanted))?),
        Ok(None) => Ok(yes_or_no(alloc, false)?),
        Err(fault) => fault_text(alloc, fault),
    }
}

// Why a question was refused.
fn refused(alloc: Global, refusal: Refusal) -> AnswerText {
    let space = room_for_reply(alloc)?;
    Ok(reply_in(space, alloc, &Reply::Refused(refusal))?)
}

// The list that a question asks for. This function and the next say nothing of the tables: so the proofs
// above carry none of what the lists promise of them.
fn list_of<S: Alter>(
    alloc: Global,
    conn: &mut Connection<S>,
    question: &Question,
) -> Result<Result<Report, Refusal>, TableFault>
    requires { conn.old.in_transaction ≡ false }
{
    let mut tx = conn.transaction();
    listing::list_rows(alloc, &mut tx, question)
}

// The life of an item.
fn life_of<S: Alter>(
    alloc: Global,
    conn: &mut Connection<S>,
    item: &Item,
) -> Result<Result<Use, Refusal>, TableFault>
    requires { conn.old.in_transaction ≡ false }
{
    let mut tx = conn.transaction();
    listing::life(alloc, &mut tx, item)
}

// The lines of a list, or why there is none.
fn list<S: Alter>(alloc: Global, conn: &mut Connection<S>, question: &Question) -> AnswerText
    requires { conn.old.in_transaction ≡ false }
{
    match list_of(alloc, conn, question) {
        Ok(Ok(list)) => Ok(listed(alloc, Some(list))?),
        Ok(Err(refusal)) => refused(alloc, refusal),
        Err(fault) => fault_text(alloc, fault),
    }
}

// The life of an item, in minutes and cycles.
fn life<S: Alter>(alloc: Global, conn: &mut Connection<S>, item: &Item) -> AnswerText
    requires { conn.old.in_transaction ≡ false }
{
    match life_of(alloc, conn, item) {
        Ok(Ok(life)) => {
            let minutes = life.minutes;
            let cycles = life.cycles;
            Ok(format!(in alloc; "{minutes} {cycles}")?)
        }
        Ok(Err(refusal)) => refused(alloc, refusal),
        Err(fault) => fault_text(alloc, fault),
    }
}

/// What is answered by the rows of a database to a question for a list, in the words that `mx_test_cases` reads, or to
/// `airframe TAIL` and `component SERIAL`: a list as text, a life in minutes and cycles, `refused N`, or the fault that
/// stopped it.
pub fn answer_by_rows<S: Alter>(
    alloc: Global,
    conn: &mut Connection<S>,
    words: &[&str],
) -> AnswerText
    requires { conn.old.in_transaction ≡ false }
{
    if let Some(question) = question_of(words)? {
        return list(alloc, conn, &question);
    }
    match words {
        [word, name] => life(alloc, conn, &item_of(word, name)?),
        _ => Err(Unmade::NoSuchLine),
    }
}

/// Whether the tables of a database stand for a book, as text, or the fault that was met.
pub fn verified<S: Alter>(alloc: Global, conn: &mut Connection<S>) -> Result<String, AllocError>
    requires { conn.old.in_transaction ≡ false }
{
    let mut text = room(alloc)?;
    match verify(alloc, conn) {
        Ok(true) => text.push_str("verified")?,
        Ok(false) => text.push_str("differs")?,
        Err(fault) => append_table_fault(&mut text, fault)?,
    }
    Ok(text)
}
