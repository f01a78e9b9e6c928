//! `init-old` over a file.
//!
//! The file of commands is taken first, then a new book accepts them and the text of the replies is made, and the
//! database is opened last. So no file is made of a list with a fault in it, memory can't run out behind the one
//! commit, and where there is a book already nothing is printed but `fault exists`.
ghost use Rattle.std.specs.Prelude.{◌≡◌, ◌≤◌, ◌++◌, [], IfOk, IfErr, OnErr};
ghost use Rattle.mx_files.specs.Answered.{TellsNothing};
ghost use Rattle.mx_files.specs.Kept.{InstallsBook};
ghost use Rattle.mx_output.specs.printed.Entered.{AreFirstReplies, TellsReplies};
ghost use Rattle.mx_jobs.specs.upkeep.Installed.{HasAppended};
ghost use Rattle.mx_output.specs.endings.Status.{LeavesUnread, Shows, stop_status};

use crate::inputs::commands_in;
use crate::opening::stop_of;
use mx_book::commands::Command;
use mx_book::entry_list::Book;
use mx_database::{Left, Opening, Work, Worked, work_in_file};
use mx_jobs::upkeep::{Accepted, accept_all, install_book, print_accepted};
use mx_layout::TableFault;
use mx_output::endings::{Ending, Stop};
use sqlite::{Alter, Connection};

// The tables are made with the rows of a book, and the database is handed back; where none are made it is let go as it is.
#[derive(Clone, Copy)]
struct Installing<'a> {
    book: &'a Book,
}

impl<'a> Work for Installing<'a> {
    type Done = Result<(), Stop>;

    ghost gives = { λ installing. TellsNothing };

    ghost keeps = { λ g installing was now old new. InstallsBook g installing.book.now was now };

    fn work<S: Alter + Drop>(
        &self,
        rt: &HostRuntime,
        conn: Connection<S>,
        _out: &mut Vec<u8>,
    ) -> Left<S, Result<(), Stop>> {
        let mut conn = conn;
        let done = install_book(rt.alloc(), &mut conn, self.book);
        Left {
            conn,
            is_to_be_closed: done.is_ok(),
            done,
        }
    }
}

// Makes a file with the book of the commands that were accepted, whose replies are appended already: so memory can't run out
// behind the commit.
fn install_file(
    rt: &HostRuntime,
    file: &str,
    accepted: &Accepted,
    appended: &mut Vec<u8>,
) -> Result<(), Stop>
    requires { HasAppended accepted.now appended.old.items }
    ensures unprinted { appended.new.items ≡ appended.old.items }
    ensures status { IfErr result (λ stop. stop_status stop ≡ 5) }
{
    let book = &accepted.book;
    match work_in_file(rt, file, Opening::OrMade, &Installing { book }, appended) {
        Ok(
            Worked {
                done: Ok(()),
                is_closed: false,
            },
        ) => Err(Stop::Create(TableFault::Store)),
        Ok(worked) => worked.done,
        Err(why) => Err(stop_of(why)),
    }
}

// Makes a file with the commands that a new book accepts, and appends the replies: none where no file was made.
fn install_all_in(
    rt: &HostRuntime,
    file: &str,
    commands: &[Command],
    out: &mut Vec<u8>,
) -> Result<Ending, Stop>
    ensures told { IfOk result (TellsReplies [] commands.now out.old.items out.new.items) }
    ensures unprinted { OnErr result (out.new.items ≡ out.old.items) }
    ensures status { IfErr result (λ stop. stop_status stop ≡ 5) }
{
    let accepted = accept_all(rt.alloc(), commands)?;
    let before = out.len();
    let ending = print_accepted(out, &accepted)?;
    match install_file(rt, file, &accepted, out) {
        Ok(()) => Ok(ending),
        Err(stop) => {
            out.truncate(before);
            Err(stop)
        }
    }
}

/// Makes a file of the oldest layout with those of the commands of another that a new book accepts, in one commit, and appends
/// a line for each reply. Nothing is opened where that file gives no commands, and nothing is printed where none was made.
pub fn init_old_file(
    rt: &HostRuntime,
    file: &str,
    entries: &str,
    out: &mut Vec<u8>,
) -> Result<Ending, Stop>
    ensures shown { IfOk result (Shows AreFirstReplies out.old.items out.new.items) }
    ensures unprinted { OnErr result (out.new.items ≡ out.old.items) }
    ensures unread { IfErr result (LeavesUnread out.old.items out.new.items) }
    ensures status { IfErr result (λ stop. 3 ≤ stop_status stop) }
{
    match commands_in(rt, entries) {
        Ok(commands) => install_all_in(rt, file, &commands, out),
        Err(fault) => Err(Stop::Intake(fault)),
    }
}
