//! Whether rows that were found are those that a command would have.
ghost use Rattle.std.specs.Prelude.{◌≡◌, ◌↔◌, IsTrue};

use mx_base::rows::{
    AircraftRow, ComponentRow, DeferralRow, ExtensionRow, OpeningRow, PlaceRow, ProgrammeRow,
    ReleaseLineRow, ReleaseRow, TaskRow,
};

/// Whether these are the same rows of aircraft.
pub fn are_same_aircraft(found: &[AircraftRow], given: &[AircraftRow]) -> bool
    ensures { IsTrue result ↔ (found.now ≡ given.now) }
{
    found == given
}

/// Whether these are the same rows of positions.
pub fn are_same_places(found: &[PlaceRow], given: &[PlaceRow]) -> bool
    ensures { IsTrue result ↔ (found.now ≡ given.now) }
{
    found == given
}

/// Whether these are the same rows of components.
pub fn are_same_components(found: &[ComponentRow], given: &[ComponentRow]) -> bool
    ensures { IsTrue result ↔ (found.now ≡ given.now) }
{
    found == given
}

/// Whether these are the same rows of programmes.
pub fn are_same_programmes(found: &[ProgrammeRow], given: &[ProgrammeRow]) -> bool
    ensures { IsTrue result ↔ (found.now ≡ given.now) }
{
    found == given
}

/// Whether these are the same rows of tasks.
pub fn are_same_tasks(found: &[TaskRow], given: &[TaskRow]) -> bool
    ensures { IsTrue result ↔ (found.now ≡ given.now) }
{
    found == given
}

/// Whether these are the same rows of openings.
pub fn are_same_openings(found: &[OpeningRow], given: &[OpeningRow]) -> bool
    ensures { IsTrue result ↔ (found.now ≡ given.now) }
{
    found == given
}

/// Whether these are the same rows of releases.
pub fn are_same_releases(found: &[ReleaseRow], given: &[ReleaseRow]) -> bool
    ensures { IsTrue result ↔ (found.now ≡ given.now) }
{
    found == given
}

/// Whether these are the same rows of lines of releases.
pub fn are_same_release_lines(found: &[ReleaseLineRow], given: &[ReleaseLineRow]) -> bool
    ensures { IsTrue result ↔ (found.now ≡ given.now) }
{
    found == given
}

/// Whether these are the same rows of deferrals.
pub fn are_same_deferrals(found: &[DeferralRow], given: &[DeferralRow]) -> bool
    ensures { IsTrue result ↔ (found.now ≡ given.now) }
{
    found == given
}

/// Whether these are the same rows of extensions.
pub fn are_same_extensions(found: &[ExtensionRow], given: &[ExtensionRow]) -> bool
    ensures { IsTrue result ↔ (found.now ≡ given.now) }
{
    found == given
}
