//! Judging and the lists by a book whose questions run out: each is what the plain book answers, or the fault of the first
//! question past the last.
ghost use Rattle.std.specs.Prelude.{◌≡◌, MatchResult};
ghost use Rattle.mx_lists.specs.Dues.{due};
ghost use Rattle.mx_book.specs.Judge.{judge};
ghost use Rattle.mx_lists.specs.Report.{report_of};
ghost use Rattle.mx_test_book.specs.Failing.{IsStop};

use crate::failing::{Failing, Interrupted};
use mx_base::{Kind, Limit, TaskId};
use mx_book::Verdict;
use mx_book::commands::{Command, Item};
use mx_book::entry_list::Book;
use mx_book::judging::verdict_on;
use mx_lists::{Question, Report, Stop, due_of_kind, list_report};
use std::alloc::Global;

/// The verdict on a command by at most so many questions, or the fault of the next.
pub fn judge_interrupted(
    book: &Book,
    command: &Command,
    questions: u32,
    code: u32,
) -> Result<Verdict, Interrupted>
    ensures { MatchResult result (λ verdict. verdict ≡ judge book.now command.now)
        (λ fault. fault ≡ record { code = code }) }
{
    let mut records = Failing {
        book,
        left: questions,
        code,
    };
    verdict_on(&mut records, command)
}

/// When a task is due on an item, by at most so many questions, or the fault of the next.
pub fn due_interrupted(
    book: &Book,
    item: &Item,
    kind: &Kind,
    task: &TaskId,
    questions: u32,
    code: u32,
) -> Result<Option<Limit>, Interrupted>
    ensures { MatchResult result (λ limit. limit ≡ due book.now item.now kind.now task.now)
        (λ fault. fault ≡ record { code = code }) }
{
    let mut records = Failing {
        book,
        left: questions,
        code,
    };
    due_of_kind(&mut records, item, kind, task)
}

/// The list that is asked for, by at most so many questions, or the fault of the next, or that memory ran out.
pub fn list_interrupted(
    book: &Book,
    alloc: Global,
    question: &Question,
    questions: u32,
    code: u32,
) -> Result<Option<Report>, Stop<Interrupted>>
    ensures { MatchResult result (λ list. list ≡ report_of book.now question.now) (IsStop code) }
{
    let mut records = Failing {
        book,
        left: questions,
        code,
    };
    list_report(&mut records, alloc, question)
}
