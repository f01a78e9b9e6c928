//! The text of an input.
ghost use Rattle.std.specs.Prelude.{◌≡◌, Ok, Err, IfOk, IfErr};
ghost use Rattle.mx_intake.specs.Text.{text_of_bytes};

use crate::fault::{IntakeFault, NOT_TEXT, TOO_LONG, of_whole};
use std::str;

/// The most bytes of a text.
pub const MOST_BYTES: usize = 8_388_608;

/// The text that bytes are.
pub(crate) fn text_of(bytes: &[u8]) -> Result<&str, IntakeFault>
    ensures ok { IfOk result (λ t. text_of_bytes bytes.now ≡ Ok t.now) }
    ensures err { IfErr result (λ f. text_of_bytes bytes.now ≡ Err f) }
    ensures whole { IfErr result (λ f. f.entry ≡ 0) }
{
    if bytes.len() > MOST_BYTES {
        return Err(of_whole(TOO_LONG));
    }
    match str::from_utf8(bytes) {
        Ok(text) => Ok(text),
        Err(_) => Err(of_whole(NOT_TEXT)),
    }
}
