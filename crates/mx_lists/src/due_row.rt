//! The rows of a due list, and their order.
ghost use Rattle.std.specs.Prelude.{◌≡◌};
ghost use Rattle.mx_lists.specs.DueRow.{status_rank, row_status, row_before};
ghost use Rattle.mx_lists.specs.Ranks.{due_rows_rank};

use crate::order::{Placed, Rows};
use mx_base::{Day, Doc, Left, MelRef, Position, Serial, Status, Tail, TaskId, Use};

/// What is due on an aircraft, and how it stands.
#[derive(Clone, Copy, Debug, PartialEq, Eq)]
pub enum DueRow {
    /// A task of the maintenance programme.
    Task {
        /// How it stands: that of its worst dimension.
        status: Status,
        /// The position and the serial number of the component that it is due on, or `None` where it is due on the
        /// airframe.
        place: Option<(Position, Serial)>,
        /// The task.
        task: TaskId,
        /// What is left until it is due, in each dimension that has a due.
        left: Left,
    },
    /// A deferred defect that is open.
    Defect {
        /// How it stands: there is no tolerance.
        status: Status,
        /// The document by which it was deferred.
        doc: Doc,
        /// The letter of its category.
        letter: char,
        /// The item of the minimum equipment list that allows to defer it.
        reference: MelRef,
        /// The last day on which it may be open, by its number, which may be past the last of the calendar.
        last: i64,
        /// The days that are left until then: negative once it is passed.
        left: i64,
    },
}

impl Placed for DueRow {
    ghost before = { row_before };

    ghost ranks = { due_rows_rank };

    fn before(&self, other: &DueRow) -> bool {
        rank_of(self.status()) < rank_of(other.status())
    }
}

// The place of a status in a list: the worst first.
fn rank_of(status: Status) -> u32
    ensures { result ≡ status_rank status }
{
    match status {
        Status::Overdue => 0,
        Status::Due => 1,
        Status::Ok => 2,
    }
}

impl DueRow {
    /// How it stands.
    pub fn status(&self) -> Status
        ensures { result ≡ row_status self.now }
    {
        match self {
            DueRow::Task { status, .. } => *status,
            DueRow::Defect { status, .. } => *status,
        }
    }
}

/// What is due on an aircraft: the overdue first, then the due, then the others, and of each the tasks of the airframe,
/// then those of its components by position, then its open defects.
#[derive(Debug, Drop, PartialEq, Eq)]
pub struct DueList {
    /// The registration of the aircraft.
    pub tail: Tail,
    /// The day that the list is for.
    pub day: Day,
    /// The life of its airframe with all sectors.
    pub life: Use,
    /// What is due.
    pub rows: Rows<DueRow>,
}
