//! What the file of each table names.

pub(crate) use crate::chosen::chosen::rows_chosen;
pub(crate) use mx_layout::TableFault;
pub(crate) use sqlite::{Alter, Transaction, params};
pub(crate) use std::alloc::Global;
