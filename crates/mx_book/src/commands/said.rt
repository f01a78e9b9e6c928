//! What a body says, each kind of command as one value.
ghost use Rattle.std.specs.Prelude.{◌≡◌};
ghost use Rattle.mx_book.specs.commands.Act.{act_of};
ghost use Rattle.mx_book.specs.commands.Said.{act_said};

use crate::commands::aircraft::Aircraft;
use crate::commands::body::Body;
use crate::commands::component::Component;
use crate::commands::deferral::{Deferral, Extension};
use crate::commands::fitting::{Fitting, Removal};
use crate::commands::opening::Opening;
use crate::commands::programme::{Programme, Task};
use crate::commands::release::{Line, Release};
use crate::commands::sector::Sector;
use mx_base::{Part, Position};

/// What a command says: a variant for each kind, with what it says as one value, and its list where it has one.
#[derive(Clone, Copy)]
pub enum Said<'a> {
    /// An aircraft comes into the records, with its positions and the part that each takes.
    Aircraft(Aircraft, &'a [(Position, Part)]),
    /// A component comes into the records.
    Component(Component),
    /// A revision of a maintenance programme comes into force, with its tasks.
    Programme(Programme, &'a [Task]),
    /// How far a task of an item had come.
    Opening(Opening),
    /// A sector was flown.
    Sector(Sector),
    /// A component is fitted.
    Fitting(Fitting),
    /// A component is removed.
    Removal(Removal),
    /// Maintenance is released, with its lines.
    Release(Release, &'a [Line]),
    /// A defect is deferred.
    Deferral(Deferral),
    /// The interval of a defect is extended.
    Extension(Extension),
}

impl Body {
    /// What it says, as one value.
    pub fn said(&self) -> Said<'_>
        ensures { act_said result ≡ act_of self.now }
    {
        match self {
            Body::AddAircraft {
                tail,
                kind,
                birth,
                opening,
                as_of,
                positions,
            } => Said::Aircraft(
                Aircraft {
                    tail: *tail,
                    kind: *kind,
                    birth: *birth,
                    opening: *opening,
                    as_of: *as_of,
                },
                positions.as_slice(),
            ),
            Body::AddComponent {
                serial,
                part,
                birth,
                opening,
                as_of,
            } => Said::Component(Component {
                serial: *serial,
                part: *part,
                birth: *birth,
                opening: *opening,
                as_of: *as_of,
            }),
            Body::LoadProgramme {
                kind,
                revision,
                tasks,
            } => {
                let programme = Programme {
                    kind: *kind,
                    revision: *revision,
                };
                Said::Programme(programme, tasks.as_slice())
            }
            Body::Opening {
                item,
                kind,
                task,
                use_then,
                day,
            } => Said::Opening(Opening {
                item: *item,
                kind: *kind,
                task: *task,
                use_then: *use_then,
                day: *day,
            }),
            Body::Sector {
                tail,
                page,
                line,
                off,
                on,
                cycles,
            } => Said::Sector(Sector {
                tail: *tail,
                page: *page,
                line: *line,
                off: *off,
                on: *on,
                cycles: *cycles,
            }),
            Body::Fit {
                serial,
                tail,
                position,
                moment,
            } => Said::Fitting(Fitting {
                serial: *serial,
                tail: *tail,
                position: *position,
                moment: *moment,
            }),
            Body::Remove { serial, moment } => Said::Removal(Removal {
                serial: *serial,
                moment: *moment,
            }),
            Body::Release {
                place,
                moment,
                lines,
            } => {
                let release = Release {
                    place: *place,
                    moment: *moment,
                };
                Said::Release(release, lines.as_slice())
            }
            Body::Defer {
                tail,
                moment,
                reference,
                category,
            } => Said::Deferral(Deferral {
                tail: *tail,
                moment: *moment,
                reference: *reference,
                category: *category,
            }),
            Body::Extend { defect, day, days } => Said::Extension(Extension {
                defect: *defect,
                day: *day,
                days: *days,
            }),
        }
    }
}
