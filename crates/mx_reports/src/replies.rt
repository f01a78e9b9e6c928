//! The replies to commands: whether one is a refusal, and a line for each.
ghost use Rattle.std.specs.Prelude.{◌≡◌, ◌++◌, OnOk, OnErr};
ghost use Rattle.std.specs.List.{list_any};
ghost use Rattle.mx_reports.specs.Replies.{is_refusal, lines_of};

use crate::text::append_all;
use mx_book::Reply;
use std::alloc::AllocError;

/// Whether a command was refused.
pub fn is_refused(reply: &Reply) -> bool
    ensures { result ≡ is_refusal reply.now }
{
    match reply {
        Reply::Refused(_) => true,
        Reply::Accepted(_) | Reply::Already(_) => false,
    }
}

/// Whether one of some commands was refused.
pub fn has_refusal(replies: &[Reply]) -> bool
    ensures { result ≡ list_any is_refusal replies.now }
{
    replies.iter().any(|reply| is_refused(reply))
}

/// Appends a line for each reply, or leaves the items as they were where memory runs out.
pub fn replies_text(out: &mut Vec<u8>, replies: &[Reply]) -> Result<(), AllocError>
    ensures printed { OnOk result (out.new.items ≡ out.old.items ++ lines_of replies.now) }
    ensures unchanged { OnErr result (out.new.items ≡ out.old.items) }
{
    append_all(out, replies)
}
