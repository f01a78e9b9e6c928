//! `try`: commands that are entered into a store in memory, and the life of an aircraft behind them.
//!
//! The book of a trial is made and asked by the calls that a file is kept by.
ghost use Rattle.std.specs.Prelude.{◌≡◌, ◌≤◌, [], false, IfOk, IfErr};
ghost use Rattle.sqlite.specs.Held.{state};
ghost use Rattle.sqlite.specs.State.{HasCleanDisk};
ghost use Rattle.sqlite_catalog.specs.Listing.{IsSound};
ghost use Rattle.mx_layout.specs.Crash.{RestsAs};
ghost use Rattle.mx_layout.specs.Tables.{no_schema};
ghost use Rattle.mx_office.specs.Office.{office_state, IsReady, StandsFor};
ghost use Rattle.mx_output.specs.endings.Status.{stop_status};
ghost use Rattle.mx_output.specs.printed.Tried.{TellsTrial};

use mx_base::Tail;
use mx_book::commands::Command;
use mx_jobs::answers::print_list;
use mx_jobs::enter_all;
use mx_layout::{Layout, create};
use mx_lists::Question;
use mx_office::{NEWEST_LAYOUT, Office, OpenFault, open_office};
use mx_output::endings::{Ending, Stop};
use sqlite::{Alter, Connection};
use std::alloc::Global;

// Applies the commands of a trial, and appends the replies and the life of its aircraft.
fn try_commands<S: Alter>(
    alloc: Global,
    office: &mut Office<S>,
    commands: &[Command],
    tail: &Tail,
    out: &mut Vec<u8>,
) -> Result<Ending, Stop>
    ensures exact { (book : _) → IsReady office.old → StandsFor office.old book
        → HasCleanDisk (office_state office.new)
        → IfOk result (TellsTrial book commands.now tail.now out.old.items out.new.items) }
    ensures status { IfErr result (λ stop. stop_status stop ≡ 4) }
{
    let entered = enter_all(alloc, office, commands, out)?;
    let asked = print_list(alloc, office, &Question::Life(*tail), out)?;
    Ok(entered.or(asked))
}

// Makes the tables of an empty book in a database without tables, enters the commands of a trial into it, and appends the replies
// and the life of its aircraft.
fn try_in<S: Alter + Drop>(
    alloc: Global,
    conn: Connection<S>,
    commands: &[Command],
    tail: &Tail,
    out: &mut Vec<u8>,
) -> Result<Ending, Stop>
    requires { conn.in_transaction ≡ false }
    ensures exact { RestsAs (state S.Store conn) no_schema (IsSound no_schema)
        → ((held : _) → HasCleanDisk (state S.Store held))
        → IfOk result (TellsTrial [] commands.now tail.now out.old.items out.new.items) }
    ensures status { IfErr result (λ stop. 4 ≤ stop_status stop) }
{
    let mut conn = conn;
    if let Err(fault) = create(&mut conn, Layout(NEWEST_LAYOUT)) {
        return Err(Stop::Create(fault));
    }
    let mut office = match open_office(alloc, conn) {
        Ok(office) => office,
        Err((_, fault)) => return Err(Stop::Open(fault)),
    };
    let tried = try_commands(alloc, &mut office, commands, tail, out);
    drop(office.close());
    tried
}

/// Enters commands into a store in memory, each in a commit of its own, and appends the replies and the life of an aircraft.
pub(crate) fn try_in_memory(
    alloc: Global,
    commands: &[Command],
    tail: &Tail,
    out: &mut Vec<u8>,
) -> Result<Ending, Stop>
    ensures exact { IfOk result (TellsTrial [] commands.now tail.now out.old.items out.new.items) }
    ensures status { IfErr result (λ stop. 4 ≤ stop_status stop) }
{
    match Connection::open_in_memory(alloc) {
        Ok(conn) => try_in(alloc, conn, commands, tail, out),
        Err(_) => Err(Stop::Open(OpenFault::Memory)),
    }
}
