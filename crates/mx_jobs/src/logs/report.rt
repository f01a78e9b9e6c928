//! What an import answers.

use mx_office::Fault;
use mx_output::sector_log::RowReply;

/// What an import answers.
#[derive(Debug, Drop)]
pub struct ImportReport {
    /// What each row is told, in order, up to the row at which a fault stopped the import.
    pub rows: Vec<RowReply>,
    /// What stopped it, where anything did.
    pub stopped: Option<Fault>,
}
