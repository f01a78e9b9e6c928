//! How the import of a sector log ends.
ghost use Rattle.std.specs.Prelude.{◌≡◌};
ghost use Rattle.mx_output.specs.printed.Imported.{import_ending};

use crate::endings::Ending;
use crate::sector_log::{RowReply, has_bad, has_refused};

/// How an import with these rows ended.
pub fn ending_of_rows(rows: &[RowReply]) -> Ending
    ensures { result ≡ import_ending rows.now }
{
    if has_bad(rows) {
        Ending::Bad
    } else if has_refused(rows) {
        Ending::Refused
    } else {
        Ending::Done
    }
}
