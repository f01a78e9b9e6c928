//! The rows of a sector log: the commands that they state, and what each is told.
ghost use Rattle.std.specs.Prelude.{◌≡◌, ◌≤◌, [], length, IfOk, vec_capacity};
ghost use Rattle.mx_output.specs.sector_log.Rows.{good_rows, told};

use crate::sector_log::report::RowReply;
use mx_book::Reply;
use mx_book::commands::Command;
use mx_intake::IntakeFault;
use std::alloc::{AllocError, Global};

/// The commands of the rows that state one, in order. An error where memory runs out.
pub fn commands_of_rows(
    alloc: Global,
    rows: &[Result<Command, IntakeFault>],
) -> Result<Vec<Command>, AllocError>
    ensures { IfOk result (λ commands. commands.items ≡ good_rows rows.now) }
{
    let mut commands = Vec::with_capacity(alloc, rows.len())?;
    let mut rest = rows;
    while let Some((row, later)) = rest.split_first() {
        if let Ok(command) = row {
            commands.push(command.copy(alloc)?)?;
        }
        rest = later;
    }
    Ok(commands)
}

/// What each row is told, by the replies to the commands of the good ones: up to the first good row that has no reply.
/// There is room for it.
pub fn tell_rows(
    room: Vec<RowReply>,
    rows: &[Result<Command, IntakeFault>],
    replies: &[Reply],
) -> Vec<RowReply>
    requires begins { room.items ≡ [] }
    requires room { length rows.now ≤ vec_capacity room }
    ensures { result.items ≡ told rows.now replies.now }
{
    let mut said = room;
    let mut rest = rows;
    let mut left = replies;
    while let Some((row, later)) = rest.split_first() {
        match row {
            Err(fault) => said.push_reserved(RowReply::Bad(*fault)),
            Ok(_) => match left.split_first() {
                None => return said,
                Some((reply, others)) => {
                    said.push_reserved(RowReply::Entered(*reply));
                    left = others;
                }
            },
        }
        rest = later;
    }
    said
}
