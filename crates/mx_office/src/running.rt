//! Commands one after the other, each in a commit of its own.
ghost use Rattle.std.specs.Prelude.{◌≡◌, ◌≢◌, ◌≤◌, ◌<◌, [], length, None, false, vec_capacity};
ghost use Rattle.sqlite.specs.Held.{state};
ghost use Rattle.mx_office.specs.Calls.{HandsIn};

use crate::fault::{Outcomes, fault_of};
use mx_apply::apply;
use mx_book::Reply;
use mx_book::commands::Command;
use sqlite::{Alter, Connection};
use std::alloc::Global;

/// Applies commands in their order, each judged by the rows behind those before it, and stops at the first fault. There is
/// room for the replies.
pub(crate) fn run_by_rows<S: Alter>(
    alloc: Global,
    conn: &mut Connection<S>,
    commands: &[Command],
    mut said: Vec<Reply>,
) -> Outcomes
    requires idle { conn.old.in_transaction ≡ false }
    requires begins { said.items ≡ [] }
    requires room { length commands.now ≤ vec_capacity said }
    ensures idle { conn.new.in_transaction ≡ false }
    ensures counted { length result.replies.items ≤ length commands.now }
    ensures done { result.stopped ≡ None → length result.replies.items ≡ length commands.now }
    ensures cut { result.stopped ≢ None → length result.replies.items < length commands.now }
    ensures still { result.replies.items ≡ [] → result.stopped ≡ None → conn.new ≡ conn.old }
    ensures hands_in { HandsIn commands.now result.replies.items result.stopped
        (state S.Store conn.old) (state S.Store conn.new) }
{
    for command in commands {
        match apply(alloc, conn, command) {
            Ok(reply) => said.push_reserved(reply),
            Err(fault) => {
                return Outcomes {
                    replies: said,
                    stopped: Some(fault_of(fault)),
                };
            }
        }
    }
    Outcomes {
        replies: said,
        stopped: None,
    }
}
