//! What each file of statements names.

pub(crate) use mx_layout::TableFault;
pub(crate) use sqlite::{Alter, Transaction};
