//! Judging a command by records.
ghost use Rattle.std.specs.Prelude.{ℕ, List};
ghost use Rattle.mx_book.specs.commands.Act.{Added, Listed, Flown};
ghost use Rattle.mx_book.specs.Judge.{refusals, first_of, judge};
ghost use Rattle.mx_book.specs.Reading.{Answers};

use crate::commands::{Aircraft, Command, Component, Said, Sector};
use crate::judging::judging_defects::{refusal_of_deferral, refusal_of_extension};
use crate::judging::judging_fittings::{refusal_of_fitting, refusal_of_removal};
use crate::judging::judging_programmes::{refusal_of_opening, refusal_of_programme};
use crate::judging::judging_releases::refusal_of_release;
use crate::limits::MOST_ENTRIES;
use crate::{Records, Refusal, Verdict};

// Why an aircraft is not added.
fn refusal_of_aircraft<R: Records>(
    records: &mut R,
    aircraft: &Aircraft,
) -> Result<Option<Refusal>, R::Fault>
    ensures { (positions : List (List ℕ × List ℕ)) → Answers R.reading records.old records.new
        result (λ book. first_of (refusals book (Added aircraft.now positions))) }
{
    if records.entry_count()? >= MOST_ENTRIES || !records.has_room_for_aircraft()? {
        Ok(Some(Refusal::Full))
    } else if records.aircraft(&aircraft.tail)?.is_some() {
        Ok(Some(Refusal::AircraftExists))
    } else {
        Ok(None)
    }
}

// Why a component is not added.
fn refusal_of_component<R: Records>(
    records: &mut R,
    component: &Component,
) -> Result<Option<Refusal>, R::Fault>
    ensures { Answers R.reading records.old records.new result
        (λ book. first_of (refusals book (Listed component.now))) }
{
    if records.entry_count()? >= MOST_ENTRIES || !records.has_room_for_component()? {
        Ok(Some(Refusal::Full))
    } else if records.component(&component.serial)?.is_some() {
        Ok(Some(Refusal::ComponentExists))
    } else {
        Ok(None)
    }
}

// Why a sector is not entered.
fn refusal_of_sector<R: Records>(
    records: &mut R,
    sector: &Sector,
) -> Result<Option<Refusal>, R::Fault>
    ensures { Answers R.reading records.old records.new result
        (λ book. first_of (refusals book (Flown sector.now))) }
{
    if records.entry_count()? >= MOST_ENTRIES {
        return Ok(Some(Refusal::Full));
    }
    if records.aircraft(&sector.tail)?.is_none() {
        return Ok(Some(Refusal::UnknownAircraft));
    }
    let earliest = records.earliest_takeoff(&sector.tail)?;
    if sector.off < earliest {
        Ok(Some(Refusal::OutOfOrder(earliest)))
    } else {
        Ok(None)
    }
}

// Why a command whose document is new is refused.
fn refusal<R: Records>(records: &mut R, command: &Command) -> Result<Option<Refusal>, R::Fault>
    ensures { Answers R.reading records.old records.new result
        (λ book. first_of (refusals book command.now.act)) }
{
    match command.said() {
        Said::Aircraft(aircraft, _) => refusal_of_aircraft(records, &aircraft),
        Said::Component(component) => refusal_of_component(records, &component),
        Said::Programme(programme, _) => refusal_of_programme(records, &programme),
        Said::Opening(opening) => refusal_of_opening(records, &opening),
        Said::Sector(sector) => refusal_of_sector(records, &sector),
        Said::Fitting(fitting) => refusal_of_fitting(records, &fitting),
        Said::Removal(removal) => refusal_of_removal(records, &removal),
        Said::Release(release, lines) => refusal_of_release(records, &release, lines),
        Said::Deferral(deferral) => refusal_of_deferral(records, &deferral),
        Said::Extension(extension) => refusal_of_extension(records, &extension),
    }
}

/// The verdict on a command: `Already` where an entry has its document and equal contents; else the refusal with the least
/// number that applies; else `New`. Or the fault of the question that was not answered.
pub fn verdict_on<R: Records>(records: &mut R, command: &Command) -> Result<Verdict, R::Fault>
    ensures { Answers R.reading records.old records.new result
        (λ book. judge book command.now) }
{
    match records.known(command)? {
        Some((seq, true)) => Ok(Verdict::Already(seq)),
        Some((seq, false)) => Ok(Verdict::Refused(Refusal::Conflict(seq))),
        None => match refusal(records, command)? {
            Some(why) => Ok(Verdict::Refused(why)),
            None => Ok(Verdict::New),
        },
    }
}
