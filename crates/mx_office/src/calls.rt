//! The calls that hand commands to an office.
ghost use Rattle.std.specs.Prelude.{◌≡◌, ◌≢◌, [], ◌∷◌, IfOk};
ghost use Rattle.sqlite.specs.State.{HasCleanDisk};
ghost use Rattle.mx_layout.specs.Crash.{ChangesNothing};
ghost use Rattle.mx_office.specs.Calls.{replies_in, stop_in, IsRun};
ghost use Rattle.mx_office.specs.Office.{office_state, IsReady};
ghost use Rattle.mx_office.specs.OnTop.{WasEntered};

use crate::fault::{Outcomes, call_answer};
use crate::office::Office;
use crate::running::run_by_rows;
use mx_apply::apply;
use mx_book::Reply;
use mx_book::commands::Command;
use mx_faults::Fault;
use sqlite::Alter;
use std::alloc::Global;

impl<S: Alter> Office<S> {
    /// Judges a command by the rows of the tables, and enters it where it is new, in one commit. A command that is known or
    /// refused writes nothing. After `Store` the command may be kept or not, and each later call answers `NeedsReopen`.
    pub fn apply(&mut self, alloc: Global, command: &Command) -> Result<Reply, Fault>
        // It is a run of this one command.
        ensures ran { IsRun (command.now ∷ []) (replies_in result) (stop_in result)
            self.old self.new }

        // Over whatever rows: no table changes where it is not accepted, and where it is they gain its rows.
        ensures untouched { IsReady self.old → ((seq : _) → result ≢ Ok (Reply.Accepted seq))
            → result ≢ Err Fault.Store
            → ChangesNothing (office_state self.old) (office_state self.new) }
        ensures entered { HasCleanDisk (office_state self.new)
            → IfOk result (λ said. (seq : _) → said ≡ Reply.Accepted seq
            → WasEntered command.now seq (office_state self.old) (office_state self.new)) }
    {
        if self.needs_reopen {
            return Err(Fault::NeedsReopen);
        }
        let answered = call_answer(apply(alloc, &mut self.conn, command));
        self.needs_reopen = answered == Err(Fault::Store);
        answered
    }

    /// Applies commands in their order, each in a commit of its own, and stops at the first fault. Room for all replies is
    /// made first; where it is refused there is no reply, and the run stopped at `Memory`. In an office that has to be opened
    /// again it stops at `NeedsReopen`, also where there is no command.
    pub fn run(&mut self, alloc: Global, commands: &[Command]) -> Outcomes
        ensures { IsRun commands.now result.replies.items result.stopped self.old self.new }
    {
        if self.needs_reopen {
            return Outcomes {
                replies: Vec::new(alloc),
                stopped: Some(Fault::NeedsReopen),
            };
        }
        let Ok(replies) = Vec::with_capacity(alloc, commands.len()) else {
            return Outcomes {
                replies: Vec::new(alloc),
                stopped: Some(Fault::Memory),
            };
        };
        let outcomes = run_by_rows(alloc, &mut self.conn, commands, replies);
        self.needs_reopen = outcomes.stopped == Some(Fault::Store);
        outcomes
    }
}
