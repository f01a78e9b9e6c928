//! The rows of the registers, and of the tables that are kept beside them. A column `seq` holds the number of the entry; a
//! column `aircraft`, `component` or `item` the number of the entry that added it, and a column `defect` that of the entry
//! that deferred it.

use crate::{
    Base, Category, Day, Doc, Kind, Limit, MelRef, Moment, Part, Position, Serial, Tail, TaskId,
    Tolerance, Use,
};

/// The kind of an entry: which command it was.
#[derive(Clone, Copy, Debug, PartialEq, Eq)]
pub enum EntryKind {
    AddAircraft,
    AddComponent,
    LoadProgramme,
    Opening,
    Sector,
    Fit,
    Remove,
    Release,
    Defer,
    Extend,
}

/// An entry: its document and its kind.
#[derive(Clone, Copy, Debug, PartialEq, Eq)]
pub struct EntryRow {
    pub seq: u32,
    pub doc: Doc,
    pub kind: EntryKind,
}

/// An aircraft, and the use that its airframe brought with it.
#[derive(Clone, Copy, Debug, PartialEq, Eq)]
pub struct AircraftRow {
    pub seq: u32,
    pub tail: Tail,
    pub kind: Kind,
    pub birth: Day,
    pub minutes: u32,
    pub cycles: u32,
    pub as_of: Moment,
}

/// A position of an aircraft, the one on this line of its list, from 1.
#[derive(Clone, Copy, Debug, PartialEq, Eq)]
pub struct PlaceRow {
    pub seq: u32,
    pub line: u32,
    pub position: Position,
    pub part: Part,
}

/// A component, and the use that it brought with it.
#[derive(Clone, Copy, Debug, PartialEq, Eq)]
pub struct ComponentRow {
    pub seq: u32,
    pub serial: Serial,
    pub part: Part,
    pub birth: Day,
    pub minutes: u32,
    pub cycles: u32,
    pub as_of: Moment,
}

/// A sector of an aircraft.
#[derive(Clone, Copy, Debug, PartialEq, Eq)]
pub struct SectorRow {
    pub seq: u32,
    pub aircraft: u32,
    pub page: u32,
    pub line: u32,
    pub took_off: Moment,
    pub landed: Moment,
    pub cycles: u32,
}

/// A sector of an aircraft, as the table of layout 2 keeps it.
#[derive(Clone, Copy, Debug, PartialEq, Eq)]
pub struct Sector2Row {
    pub sector: SectorRow,
}

/// A component fitted to a position of an aircraft.
#[derive(Clone, Copy, Debug, PartialEq, Eq)]
pub struct FittingRow {
    pub seq: u32,
    pub component: u32,
    pub aircraft: u32,
    pub position: Position,
    pub moment: Moment,
}

/// A component removed from where it was fitted.
#[derive(Clone, Copy, Debug, PartialEq, Eq)]
pub struct RemovalRow {
    pub seq: u32,
    pub component: u32,
    pub moment: Moment,
}

/// A revision of the maintenance programme of a kind of aircraft: 1 for the first, and one more for each later one.
#[derive(Clone, Copy, Debug, PartialEq, Eq)]
pub struct ProgrammeRow {
    pub seq: u32,
    pub kind: Kind,
    pub revision: u32,
}

/// A task of a programme, the one on this line of its list, from 1.
#[derive(Clone, Copy, Debug, PartialEq, Eq)]
pub struct TaskRow {
    pub seq: u32,
    pub line: u32,
    pub id: TaskId,
    /// The part whose components it is done on, or `None` where it is done on the airframe.
    pub part: Option<Part>,
    /// Whether the item is retired at the first limit.
    pub retire: bool,
    /// When it is due for the first time.
    pub first: Limit,
    /// When it is due again, and a limit in no dimension where it is done once.
    pub repeat: Limit,
    pub tolerance: Tolerance,
}

/// What was accomplished of a task before the records begin: the use of the item, in minutes and cycles, when the task
/// was last done, and the day.
#[derive(Clone, Copy, Debug, PartialEq, Eq)]
pub struct OpeningRow {
    pub seq: u32,
    pub item: u32,
    /// The kind of aircraft whose programme has the task.
    pub kind: Kind,
    pub task: TaskId,
    pub minutes: u32,
    pub cycles: u32,
    pub day: Day,
}

/// A release of maintenance to service, its lines aside.
#[derive(Clone, Copy, Debug, PartialEq, Eq)]
pub struct ReleaseRow {
    pub seq: u32,
    /// The aircraft at which the work was done, or the component on which it was done in a shop.
    pub item: u32,
    /// The kind of aircraft by whose programme the work was done in a shop, or `None` at an aircraft.
    pub kind: Option<Kind>,
    pub moment: Moment,
}

/// What a line of a release certifies, the one on this line of its list, from 1: a task that was done on an item, or a
/// defect that was rectified.
#[derive(Clone, Copy, Debug, PartialEq, Eq)]
pub struct ReleaseLineRow {
    pub seq: u32,
    pub line: u32,
    /// The item, or `None` where a defect was rectified.
    pub item: Option<u32>,
    /// The task, or `None` where a defect was rectified.
    pub task: Option<TaskId>,
    /// The defect that was rectified, or `None` where a task was done.
    pub defect: Option<u32>,
}

/// A defect that was deferred.
#[derive(Clone, Copy, Debug, PartialEq, Eq)]
pub struct DeferralRow {
    pub seq: u32,
    pub aircraft: u32,
    pub moment: Moment,
    /// The item of the minimum equipment list that allows to defer it.
    pub reference: MelRef,
    pub category: Category,
}

/// A defect that was deferred, as the table of layout 3 keeps it.
#[derive(Clone, Copy, Debug, PartialEq, Eq)]
pub struct Deferral3Row {
    pub deferral: DeferralRow,
    /// The cycles that the airframe had reached when the defect was found.
    pub found_cycles: u32,
}

/// The extension of the interval within which a deferred defect is rectified.
#[derive(Clone, Copy, Debug, PartialEq, Eq)]
pub struct ExtensionRow {
    pub seq: u32,
    pub defect: u32,
    pub day: Day,
    /// By so many days.
    pub days: u32,
}

/// A component in a position of an aircraft, from its fitting to its removal.
#[derive(Clone, Copy, Debug, PartialEq, Eq)]
pub struct SpanRow {
    /// The number of the entry that fitted it.
    pub fit_seq: u32,
    pub component: u32,
    pub aircraft: u32,
    pub position: Position,
    pub from: Moment,
    /// The number of the entry that removed it, or `None` while it is fitted.
    pub remove_seq: Option<u32>,
    pub to: Option<Moment>,
}

/// The life of an aircraft or a component now, and its clock.
#[derive(Clone, Copy, Debug, PartialEq, Eq)]
pub struct TotalRow {
    pub item: u32,
    pub life: Use,
    pub clock: Moment,
}

/// The last base of a task of an item, which its next due is counted from.
#[derive(Clone, Copy, Debug, PartialEq, Eq)]
pub struct BaseRow {
    pub item: u32,
    pub task: TaskId,
    /// The life at which the task was done.
    pub life: Use,
    pub day: Day,
}

/// An accomplishment of a task of an item: what the item had reached then, when the task was due, and the base that the
/// next due is counted from.
#[derive(Clone, Copy, Debug, PartialEq, Eq)]
pub struct DoneRow {
    pub item: u32,
    pub task: TaskId,
    /// The number of the entry that says so.
    pub seq: u32,
    /// The line there, from 1, or 0 where the entry is an opening.
    pub line: u32,
    pub value: Base,
    /// A limit in no dimension where the task was never due.
    pub due: Limit,
    pub base: Base,
}
