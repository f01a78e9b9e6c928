//! What a body says, a function for each kind of command. Each looks at the body itself and not at `Said`, which would copy all
//! that an entry says to tell that it is of another kind: judging asks every entry before it.
//!
//! By way of `Said` one command took seven times as long at 10,000 entries.
ghost use Rattle.std.specs.Prelude.{◌≡◌};
ghost use Rattle.mx_book.specs.commands.Act.{act_of, aircraft_of, component_of, programme_of, opening_of, sector_of, fitting_of, removal_of, release_of, deferral_of, extension_of};

use crate::commands::aircraft::Aircraft;
use crate::commands::body::Body;
use crate::commands::component::Component;
use crate::commands::deferral::{Deferral, Extension};
use crate::commands::fitting::{Fitting, Removal};
use crate::commands::opening::Opening;
use crate::commands::programme::Programme;
use crate::commands::release::Release;
use crate::commands::sector::Sector;

// What a body says as a struct, field by field, where it is of this kind.
macro_rules! said_as {
    ($body:expr, $kind:ident => $said:ident { $($field:ident),+ }) => {
        match $body {
            Body::$kind { $($field,)+ .. } => Some($said { $($field: *$field),+ }),
            _ => None,
        }
    };
}

impl Body {
    /// The aircraft that it adds.
    pub fn added_aircraft(&self) -> Option<Aircraft>
        ensures { result ≡ aircraft_of (act_of self.now) }
    {
        said_as!(self, AddAircraft => Aircraft { tail, kind, birth, opening, as_of })
    }

    /// The component that it adds.
    pub fn added_component(&self) -> Option<Component>
        ensures { result ≡ component_of (act_of self.now) }
    {
        said_as!(self, AddComponent => Component { serial, part, birth, opening, as_of })
    }

    /// The revision of a programme that it loads.
    pub fn loaded_programme(&self) -> Option<Programme>
        ensures { result ≡ programme_of (act_of self.now) }
    {
        said_as!(self, LoadProgramme => Programme { kind, revision })
    }

    /// The opening that it states.
    pub fn stated_opening(&self) -> Option<Opening>
        ensures { result ≡ opening_of (act_of self.now) }
    {
        said_as!(self, Opening => Opening { item, kind, task, use_then, day })
    }

    /// The sector that was flown.
    pub fn flown_sector(&self) -> Option<Sector>
        ensures { result ≡ sector_of (act_of self.now) }
    {
        said_as!(self, Sector => Sector { tail, page, line, off, on, cycles })
    }

    /// The fitting of a component.
    pub fn fitting(&self) -> Option<Fitting>
        ensures { result ≡ fitting_of (act_of self.now) }
    {
        said_as!(self, Fit => Fitting { serial, tail, position, moment })
    }

    /// The removal of a component.
    pub fn removal(&self) -> Option<Removal>
        ensures { result ≡ removal_of (act_of self.now) }
    {
        said_as!(self, Remove => Removal { serial, moment })
    }

    /// The release of maintenance, its lines aside.
    pub fn release(&self) -> Option<Release>
        ensures { result ≡ release_of (act_of self.now) }
    {
        said_as!(self, Release => Release { place, moment })
    }

    /// The deferral of a defect.
    pub fn deferral(&self) -> Option<Deferral>
        ensures { result ≡ deferral_of (act_of self.now) }
    {
        said_as!(self, Defer => Deferral { tail, moment, reference, category })
    }

    /// The extension of the interval of a defect.
    pub fn extension(&self) -> Option<Extension>
        ensures { result ≡ extension_of (act_of self.now) }
    {
        said_as!(self, Extend => Extension { defect, day, days })
    }
}
