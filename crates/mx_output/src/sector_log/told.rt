//! What the rows of a sector log were told: whether one is bad, or was refused.
ghost use Rattle.std.specs.Prelude.{◌≡◌};
ghost use Rattle.std.specs.List.{list_any};
ghost use Rattle.mx_output.specs.sector_log.Told.{is_bad, is_refused_row};

use crate::sector_log::report::RowReply;
use mx_reports::is_refused;

fn is_bad(row: &RowReply) -> bool
    ensures { result ≡ is_bad row.now }
{
    match row {
        RowReply::Entered(_) => false,
        RowReply::Bad(_) => true,
    }
}

fn is_refused_row(row: &RowReply) -> bool
    ensures { result ≡ is_refused_row row.now }
{
    match row {
        RowReply::Entered(reply) => is_refused(reply),
        RowReply::Bad(_) => false,
    }
}

/// Whether a row states no sector.
pub fn has_bad(rows: &[RowReply]) -> bool
    ensures { result ≡ list_any is_bad rows.now }
{
    rows.iter().any(|row| is_bad(row))
}

/// Whether the sector of a row was refused.
pub fn has_refused(rows: &[RowReply]) -> bool
    ensures { result ≡ list_any is_refused_row rows.now }
{
    rows.iter().any(|row| is_refused_row(row))
}
