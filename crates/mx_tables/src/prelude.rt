//! What the files of tables name.

pub(crate) use crate::column::{
    category_at, day_at, day_number_at, flag_at, graphic_at, graphic_or_null_at, has_columns,
    kind_at, limit_at, moment_at, moment_or_null_at, null_at, number_at, number_or_null_at,
    read_columns, tail_at, written_moment_at,
};
pub(crate) use crate::inserts::insert::{Insert, insert_columns, insert_values};
pub(crate) use crate::inserts::values::{
    days_of_category, moment_if_any, number_if_any, number_of_category, number_of_kind,
    text_if_any, text_of,
};
pub(crate) use crate::stored::{Stored, Texts};
pub(crate) use mx_base::rows::{
    AircraftRow, BaseRow, ComponentRow, Deferral3Row, DeferralRow, DoneRow, EntryRow, ExtensionRow,
    FittingRow, OpeningRow, PlaceRow, ProgrammeRow, ReleaseLineRow, ReleaseRow, RemovalRow,
    Sector2Row, SectorRow, SpanRow, TaskRow, TotalRow,
};
pub(crate) use mx_layout::{Table, TableFault};
pub(crate) use sqlite::{Alter, Row, Transaction, params};
