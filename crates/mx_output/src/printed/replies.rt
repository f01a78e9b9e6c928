//! The lines of replies, and how a run with them ended.
ghost use Rattle.std.specs.Prelude.{◌≡◌, ◌++◌, OnOk, OnErr, IfErr};
ghost use Rattle.mx_reports.specs.Replies.{lines_of};
ghost use Rattle.mx_output.specs.endings.Status.{run_ending};

use crate::endings::{Ending, Stop};
use mx_book::Reply;
use mx_reports::{has_refusal, replies_text};

/// How a run with these replies ended.
pub fn ending_of(replies: &[Reply]) -> Ending
    ensures { result ≡ run_ending replies.now }
{
    if has_refusal(replies) {
        Ending::Refused
    } else {
        Ending::Done
    }
}

/// Appends a line for each reply.
pub fn print_replies(out: &mut Vec<u8>, replies: &[Reply]) -> Result<(), Stop>
    ensures printed { OnOk result (out.new.items ≡ out.old.items ++ lines_of replies.now) }
    ensures memory { IfErr result (λ stop. stop ≡ Stop.Print) }
    ensures unprinted { OnErr result (out.new.items ≡ out.old.items) }
{
    match replies_text(out, replies) {
        Ok(()) => Ok(()),
        Err(_) => Err(Stop::Print),
    }
}
