//! A file of the oldest layout, made with the commands that a new book accepts.
ghost use Rattle.std.specs.Prelude.{◌≡◌, ◌≢◌, ◌⊎◌, ◌++◌, [], ◌∷◌, false, IsErr, IsTrue, IfOk, IfErr, OnOk, OnErr};
ghost use Rattle.sqlite.specs.Held.{state};
ghost use Rattle.sqlite.specs.State.{HasCleanDisk};
ghost use Rattle.sqlite_catalog.specs.Listing.{IsSound};
ghost use Rattle.mx_book.specs.Run.{book_after, reply};
ghost use Rattle.mx_moves.specs.install.Entries.{first_point};
ghost use Rattle.mx_layout.specs.Crash.{ChangesNothing, Leaves, RestsAs};
ghost use Rattle.mx_layout.specs.Listed.{IsRefusal};
ghost use Rattle.mx_layout.specs.Point.{IsStop};
ghost use Rattle.mx_layout.specs.Tables.{no_schema};
ghost use Rattle.mx_book_tables.specs.stands.Stands.{RestsAt, StandsAt};
ghost use Rattle.mx_reports.specs.Replies.{lines_of};
ghost use Rattle.mx_jobs.specs.upkeep.Installed.{AreAccepted};
ghost use Rattle.mx_output.specs.endings.Status.{run_ending, stop_status};

use mx_book::commands::Command;
use mx_book::entry_list::{Book, NoMemory};
use mx_book::{Refusal, Reply, Verdict};
use mx_layout::TableFault;
use mx_moves::install::install_v1;
use mx_output::endings::{Ending, Stop};
use mx_output::printed::{ending_of, print_replies};
use mx_plain_book::Plain;
use sqlite::{Alter, Connection};
use std::alloc::Global;

/// What a new book makes of commands.
#[derive(Drop)]
pub struct Accepted {
    /// The book of those that are accepted.
    pub book: Book,
    /// The reply to each, in their order.
    pub replies: Vec<Reply>,
}

// Enters a command where it is new, and answers the reply to it.
fn answer(alloc: Global, book: &mut Book, command: &Command) -> Result<Reply, NoMemory>
    ensures reply { IfOk result (λ said. said ≡ reply book.old command.now) }
    ensures entered { OnOk result (book.new ≡ book_after book.old command.now) }
{
    let verdict = Plain { book }.judge(command);
    match verdict {
        Verdict::New => {
            let Ok(entry) = command.copy(alloc) else {
                return Err(NoMemory);
            };
            match book.enter(entry) {
                Ok(seq) => Ok(Reply::Accepted(seq)),
                Err(_) => Err(NoMemory),
            }
        }
        Verdict::Already(seq) => Ok(Reply::Already(seq)),
        Verdict::Refused(refusal) => Ok(Reply::Refused(refusal)),
    }
}

// Enters a command where it is new, and keeps the reply to it behind those before.
fn accept(
    alloc: Global,
    book: &mut Book,
    replies: &mut Vec<Reply>,
    command: &Command,
) -> Result<(), NoMemory>
    ensures entered { OnOk result (book.new ≡ book_after book.old command.now) }
    ensures replied { OnOk result (replies.new.items
        ≡ replies.old.items ++ reply book.old command.now ∷ []) }
{
    let _: Option<Refusal> = None;
    let reply = answer(alloc, book, command)?;
    match replies.push(reply) {
        Ok(()) => Ok(()),
        Err(_) => Err(NoMemory),
    }
}

/// The book of those of some commands that are accepted one after the other, and a reply to each command.
pub fn accept_all(alloc: Global, commands: &[Command]) -> Result<Accepted, Stop>
    ensures accepted { IfOk result (AreAccepted commands.now) }
    ensures memory { IfErr result (λ stop. stop ≡ Stop.MakeMemory) }
{
    let _: Option<Refusal> = None;
    let mut book = Book::new(alloc);
    let mut replies = Vec::new(alloc);
    for command in commands {
        let Ok(()) = accept(alloc, &mut book, &mut replies, command) else {
            return Err(Stop::MakeMemory);
        };
    }
    Ok(Accepted { book, replies })
}

/// Appends the replies to commands that are to be made a file of, and tells how that ends.
pub fn print_accepted(out: &mut Vec<u8>, accepted: &Accepted) -> Result<Ending, Stop>
    ensures printed { OnOk result (out.new.items
        ≡ out.old.items ++ lines_of accepted.now.replies.items) }
    ensures ending { IfOk result (λ ending. ending ≡ run_ending accepted.now.replies.items) }
    ensures unprinted { OnErr result (out.new.items ≡ out.old.items) }
    ensures memory { IfErr result (λ stop. stop ≡ Stop.MakeMemory) }
{
    let replies = accepted.replies.as_slice();
    match print_replies(out, replies) {
        Ok(()) => Ok(ending_of(replies)),
        Err(_) => Err(Stop::MakeMemory),
    }
}

/// Makes the tables of the oldest layout with the rows of a book in them, in one commit, in an empty database.
pub fn install_book<S: Alter>(
    alloc: Global,
    conn: &mut Connection<S>,
    book: &Book,
) -> Result<(), Stop>
    requires { conn.old.in_transaction ≡ false }
    ensures idle { conn.new.in_transaction ≡ false }

    // What becomes of the tables.
    ensures installed { RestsAs (state S.Store conn.old) no_schema (IsSound no_schema)
        → OnOk result (RestsAt first_point (state S.Store conn.new) book.now) }
    ensures crash { RestsAs (state S.Store conn.old) no_schema (IsSound no_schema)
        → Leaves (state S.Store conn.new)
        (λ db. IsSound no_schema db ⊎ StandsAt first_point db book.now) }
    ensures unchanged { IfErr result (λ stop. stop ≢ Stop.Create TableFault.Store
        → ChangesNothing (state S.Store conn.old) (state S.Store conn.new)) }

    // Where the database is not empty nothing is made and nothing changes.
    ensures taken { HasCleanDisk (state S.Store conn.new)
        → (IsTrue (state S.Store conn.old).is_open
        → (state S.Store conn.old).now.schema ≢ no_schema) → IsErr result }
    ensures kept { (IsTrue (state S.Store conn.old).is_open
        → (state S.Store conn.old).now.schema ≢ no_schema)
        → ChangesNothing (state S.Store conn.old) (state S.Store conn.new) }

    // Why nothing was made.
    ensures not_here { RestsAs (state S.Store conn.old) no_schema (IsSound no_schema)
        → HasCleanDisk (state S.Store conn.new) → IfErr result
        (λ stop. (fault : _) × (stop ≡ Stop.Create fault) × IsStop fault) }
    ensures stops { IfErr result (λ stop. (fault : _) × (stop ≡ Stop.Create fault)
        × (IsStop fault ⊎ IsRefusal (state S.Store conn.old).now.schema fault)) }
    ensures status { IfErr result (λ stop. stop_status stop ≡ 5) }
{
    match install_v1(alloc, conn, book) {
        Ok(()) => Ok(()),
        Err(fault) => Err(Stop::Create(fault)),
    }
}
