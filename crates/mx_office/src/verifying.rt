//! Whether the tables of an office stand for a book.
ghost use Rattle.std.specs.Prelude.{◌≡◌, ◌⊎◌, true, false, Err, IsTrue, MatchResult};
ghost use Rattle.sqlite.specs.State.{HasCleanDisk};
ghost use Rattle.mx_layout.specs.Listed.{has_table};
ghost use Rattle.mx_layout.specs.Names.{table_name};
ghost use Rattle.mx_layout.specs.TableName.{TableName};
ghost use Rattle.mx_book_tables.specs.stands.Family.{is_at};
ghost use Rattle.mx_book_tables.specs.stands.Schemas.{HasTablesAt};
ghost use Rattle.mx_book_tables.specs.stands.Stands.{RestsAt};
ghost use Rattle.mx_office.specs.Calls.{stop_in, IsAsked};
ghost use Rattle.mx_office.specs.Layout.{office_point};
ghost use Rattle.mx_office.specs.Office.{office_state, IsReady};
ghost use Rattle.mx_office.specs.Verified.{SaysVerified};

use crate::fault::{call_answer, call_failed};
use crate::office::Office;
use mx_faults::Fault;
use mx_verify::verify;
use sqlite::Alter;
use std::alloc::Global;

impl<S: Alter> Office<S> {
    /// Whether the tables stand for a book, and there is no other table: all rows are read, and compared with those that the
    /// book gives which the registers say. No table changes.
    ///
    /// # Errors
    /// `Damaged` with its table where a row can't be read as its type, names an entry that is not there, or holds an entry that
    /// those before it refuse; `Store` also where a table is missing.
    pub fn verify(&mut self, alloc: Global) -> Result<bool, Fault>
        ensures asked { IsAsked (stop_in result) self.old self.new }
        ensures told { IsReady self.old → HasCleanDisk (office_state self.new)
            → HasTablesAt office_point (office_state self.old).now.schema
            → SaysVerified (office_state self.old).now result }
        ensures missing { (name : TableName) → IsReady self.old → is_at office_point name ≡ true
            → has_table (office_state self.old).now.schema (table_name name) ≡ false
            → result ≡ Err Fault.Store }

        // Of the tables of a book, with no other table or index.
        ensures exact { (book : _) → IsReady self.old
            → RestsAt office_point (office_state self.old) book
            → HasCleanDisk (office_state self.new) → IsTrue (office_state self.old).is_open
            → MatchResult result (λ same. same ≡ true)
            (λ fault. (fault ≡ Fault.Memory) ⊎ (fault ≡ Fault.Store)) }
    {
        if self.needs_reopen {
            return Err(Fault::NeedsReopen);
        }
        let answer = call_answer(verify(alloc, &mut self.conn));
        self.needs_reopen = call_failed(&answer);
        answer
    }
}
