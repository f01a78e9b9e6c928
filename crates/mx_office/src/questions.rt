//! The questions that an office is asked: lists, lives and entries. None of them changes a table.
ghost use Rattle.std.specs.Prelude.{◌≡◌, ◌⊎◌, IfOk, MatchResult, Some};
ghost use Rattle.sqlite.specs.State.{HasCleanDisk};
ghost use Rattle.mx_book.specs.Book.{entries_from};
ghost use Rattle.mx_book.specs.Life.{life_now};
ghost use Rattle.mx_row_questions.specs.entries.Damage.{IsSkipped};
ghost use Rattle.mx_row_questions.specs.entries.Entries.{AreEntries};
ghost use Rattle.mx_lists.specs.DueList.{due_list};
ghost use Rattle.mx_lists.specs.Report.{IsOfKind, report_of};
ghost use Rattle.mx_lookups.specs.numbers.Damage.{IsDamaged};
ghost use Rattle.mx_lookups.specs.numbers.Given.{LifeOf};
ghost use Rattle.mx_lookups.specs.numbers.Told.{TotalDamage};
ghost use Rattle.mx_row_questions.specs.lists.Damage.{ListDamage};
ghost use Rattle.mx_row_questions.specs.lists.Listing.{unknown};
ghost use Rattle.mx_apply.specs.writing.Written.{IsSettled};
ghost use Rattle.mx_office.specs.Calls.{stop_asking, stop_in, IsAsked};
ghost use Rattle.mx_office.specs.Faults.{found_or};
ghost use Rattle.mx_office.specs.Office.{office_state, IsReady};
ghost use Rattle.mx_office.specs.Stands.{RestsIn};
ghost use Rattle.mx_lookups.specs.numbers.Reads.{HasTablesOfRows};
ghost use Rattle.mx_office.specs.Questions.{AnswersDamage, IsAnsweredBy};

use crate::asking::{entries_found, life_found, list_found};
use crate::fault::{call_answer, call_failed, question_answer, question_failed};
use crate::office::Office;
use mx_base::{Day, Tail, Use};
use mx_book::Refusal;
use mx_book::commands::{Command, Item};
use mx_faults::{Ask, Fault};
use mx_lists::{DueList, Question, Report};
use sqlite::Alter;
use std::alloc::Global;

impl<S: Alter> Office<S> {
    /// The list that a question asks for, of an aircraft or of all. `Refused(UnknownAircraft)` where no aircraft has the
    /// registration that it names. No table changes.
    pub fn list(&mut self, alloc: Global, question: &Question) -> Result<Report, Ask>
        ensures asked { IsAsked (stop_asking result) self.old self.new }
        ensures answered { IsAnsweredBy
            (λ book. found_or Refusal.UnknownAircraft (report_of book question.now))
            self.old self.new result }
        ensures damage { AnswersDamage ListDamage self.old self.new result }
        ensures kind { IfOk result (IsOfKind question.now) }
    {
        if self.needs_reopen {
            return Err(Ask::Failed(Fault::NeedsReopen));
        }
        let answer = question_answer(list_found(alloc, &mut self.conn, question));
        self.needs_reopen = question_failed(&answer);
        answer
    }

    /// The due list of an aircraft on a day, asked and refused as any list.
    pub fn due_rows(&mut self, alloc: Global, tail: Tail, day: Day) -> Result<DueList, Ask>
        ensures asked { IsAsked (stop_asking result) self.old self.new }
        ensures answered { IsAnsweredBy
            (λ book. found_or Refusal.UnknownAircraft (due_list book tail day))
            self.old self.new result }
        ensures damage { AnswersDamage ListDamage self.old self.new result }
    {
        match self.list(alloc, &Question::Due(tail, day)) {
            Ok(Report::Due(list)) => Ok(list),
            Ok(_) => unreachable!(),
            Err(why) => Err(why),
        }
    }

    /// The life of an item with all of its sectors. `Refused(UnknownAircraft)` or `Refused(UnknownComponent)`
    /// where the item is unknown. No table changes.
    pub fn life(&mut self, alloc: Global, item: &Item) -> Result<Use, Ask>
        ensures asked { IsAsked (stop_asking result) self.old self.new }
        ensures answered { IsAnsweredBy
            (λ book. found_or (unknown item.now) (life_now book item.now))
            self.old self.new result }
        ensures damage { AnswersDamage (TotalDamage item.now) self.old self.new result }

        // Over whatever rows, it is the life that these give.
        ensures found { HasCleanDisk (office_state self.new)
            → HasTablesOfRows (office_state self.old).now.schema → IfOk result
            (λ life. LifeOf item.now (office_state self.old).now.trees (Some life)) }
    {
        if self.needs_reopen {
            return Err(Ask::Failed(Fault::NeedsReopen));
        }
        let answer = question_answer(life_found(alloc, &mut self.conn, item));
        self.needs_reopen = question_failed(&answer);
        answer
    }

    /// The first commands, at most `at_most`, of those whose number is at least `from`, in their order. No table
    /// changes.
    pub fn entries(&mut self, alloc: Global, from: u32, at_most: u32) -> Result<Vec<Command>, Fault>
        ensures asked { IsAsked (stop_in result) self.old self.new }
        ensures exact { (schema : _) → IsSettled schema → (book : _) → IsReady self.old
            → RestsIn schema (office_state self.old) book → HasCleanDisk (office_state self.new)
            → MatchResult result (λ v. v.items ≡ entries_from from at_most book)
            (λ fault. (fault ≡ Fault.Memory) ⊎ (fault ≡ Fault.Store)) }
        ensures sound { HasCleanDisk (office_state self.new)
            → HasTablesOfRows (office_state self.old).now.schema → IfOk result
            (λ v. AreEntries from at_most (office_state self.old).now.trees v.items) }
        ensures damaged { HasCleanDisk (office_state self.new)
            → HasTablesOfRows (office_state self.old).now.schema → (table : _)
            → result ≡ Err (Fault.Damaged table)
            → IsDamaged table (office_state self.old).now.trees
            ⊎ IsSkipped table (office_state self.old).now.trees }
    {
        if self.needs_reopen {
            return Err(Fault::NeedsReopen);
        }
        let answer = call_answer(entries_found(alloc, &mut self.conn, from, at_most));
        self.needs_reopen = call_failed(&answer);
        answer
    }
}
