//! The verdict on a command, why one is refused, and what is replied.
//!
//! `Reply` stands here, since the replies of a run are a definition over the list of entries; the office and the
//! reports take it from here.
ghost use Rattle.std.specs.Prelude.{◌≡◌};

use mx_base::{Day, Moment};

/// Why a command is refused.
#[derive(Clone, Copy, Debug, PartialEq, Eq)]
pub enum Refusal {
    /// An entry has the document with other contents: the number of that entry.
    Conflict(u32),
    /// The book has 1,000,000 entries, or 50 aircraft where one more is added, or 5,000 components where one
    /// more is added.
    Full,
    /// No aircraft has a registration that the command names, or that was asked for.
    UnknownAircraft,
    /// No component has a serial number that the command names, or that was asked for.
    UnknownComponent,
    /// The aircraft does not have the position that a component is fitted to.
    UnknownPosition,
    /// The kind that an opening names has no maintenance programme, or a release certifies a task where no programme
    /// is in force: that of the aircraft's kind, or of the kind that a shop works by.
    UnknownProgramme,
    /// The programme in force does not have the task of an opening or of a line of a release, or the task does not
    /// apply to the item.
    UnknownTask,
    /// No defect was deferred by the document that an extension or a line of a release names.
    UnknownDefect,
    /// An aircraft has the registration already.
    AircraftExists,
    /// A component has the serial number already.
    ComponentExists,
    /// A component is fitted to the position already.
    PositionTaken,
    /// The component that is to be fitted, or that was worked on in a shop, is fitted somewhere.
    AlreadyFitted,
    /// The component that is to be removed is fitted nowhere.
    NotFitted,
    /// The position takes another part than the component is one of.
    WrongPart,
    /// A release certifies work on an item that is not at its place: not the airframe of the aircraft, nor fitted to
    /// it, nor the component in the shop.
    ItemElsewhere,
    /// The task of the item that is opened was accomplished already, or one that a release certifies was, and has no
    /// repeat.
    TaskClosed,
    /// The task that is opened, or that a release certifies, retires its item, or a task in force for the kind of the
    /// aircraft retires the component that is to be fitted by the day of the fitting.
    LifeLimit,
    /// The defect whose interval is extended, or that a release certifies as rectified, was rectified already.
    DefectClosed,
    /// A sector takes off before the clock of its airframe, a component is fitted or removed before the greater of
    /// the airframe's clock and its own, work is released before the clock of the aircraft, or of the component in
    /// the shop, or a defect was found before the clock of its airframe: that clock. An interval is extended on a day
    /// before its defect was found: the moment at which it was.
    OutOfOrder(Moment),
    /// The defect is of category A, whose interval is not extended.
    NotExtendable,
    /// The interval of the defect was extended already.
    AlreadyExtended,
    /// The extension has more days than the interval of the category: the days of that.
    ExtensionTooLong(u32),
    /// The day of an extension is after the last day on which the defect may be open: that day.
    IntervalEnded(Day),
    /// The programme that is loaded has not the revision that follows the one in force: the revision that does,
    /// which is 1 for a kind without a programme.
    WrongRevision(u32),
    /// The airframe whose task is opened is of another kind than the programme, or a release certifies that a defect
    /// was rectified that is of another aircraft, or that it was in a shop.
    OtherAircraft,
    /// The day of an opening is after the day up to which the item's own opening counts.
    OpeningTooLate,
    /// An opening has more minutes or cycles than the item brought with it.
    OpeningTooLarge,
    /// A release has two equal lines.
    RepeatedLine,
}

impl Refusal {
    ghost use Rattle.mx_book.specs.Judge.{refusal_number};

    /// The number that stands for the refusal in replies. Of several that apply the least is given.
    pub fn number(&self) -> u8
        ensures { result ≡ refusal_number self.now }
    {
        match self {
            Refusal::Conflict(_) => 10,
            Refusal::Full => 11,
            Refusal::UnknownAircraft => 20,
            Refusal::UnknownComponent => 21,
            Refusal::UnknownPosition => 22,
            Refusal::UnknownProgramme => 23,
            Refusal::UnknownTask => 24,
            Refusal::UnknownDefect => 25,
            Refusal::AircraftExists => 30,
            Refusal::ComponentExists => 31,
            Refusal::PositionTaken => 33,
            Refusal::AlreadyFitted => 34,
            Refusal::NotFitted => 35,
            Refusal::WrongPart => 36,
            Refusal::ItemElsewhere => 37,
            Refusal::TaskClosed => 38,
            Refusal::LifeLimit => 39,
            Refusal::DefectClosed => 40,
            Refusal::OutOfOrder(_) => 41,
            Refusal::NotExtendable => 42,
            Refusal::AlreadyExtended => 43,
            Refusal::ExtensionTooLong(_) => 44,
            Refusal::IntervalEnded(_) => 45,
            Refusal::WrongRevision(_) => 46,
            Refusal::OtherAircraft => 47,
            Refusal::OpeningTooLate => 48,
            Refusal::OpeningTooLarge => 49,
            Refusal::RepeatedLine => 52,
        }
    }
}

/// What a book says of a command before it is entered.
#[derive(Clone, Copy, Debug, PartialEq, Eq)]
pub enum Verdict {
    /// It may be entered.
    New,
    /// The entry with this number has its document and equal contents.
    Already(u32),
    /// It may not be entered.
    Refused(Refusal),
}

/// What is answered to a command that was handed in.
#[derive(Clone, Copy, Debug, PartialEq, Eq)]
pub enum Reply {
    /// It was accepted, and is the entry with this number.
    Accepted(u32),
    /// The entry with this number has its document and equal contents; nothing changed.
    Already(u32),
    /// It was refused; nothing changed.
    Refused(Refusal),
}
