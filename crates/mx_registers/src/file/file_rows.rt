//! The rows of the tables of a file as one value.

use crate::merge::Registers;
use mx_base::rows::{BaseRow, SpanRow, TotalRow};

/// The rows of the tables of a file: the registers, and the kept rows.
#[derive(Drop)]
pub struct FileRows {
    pub registers: Registers,
    pub spans: Vec<SpanRow>,
    pub totals: Vec<TotalRow>,
    pub bases: Vec<BaseRow>,
}
