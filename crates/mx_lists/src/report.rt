//! The list that a question is answered with, whichever it is.
ghost use Rattle.std.specs.Prelude.{IfOk, IfSome};
ghost use Rattle.mx_lists.specs.Memory.{Gathers};
ghost use Rattle.mx_lists.specs.Report.{IsOfKind, report_of};

use crate::due_lists::list_dues;
use crate::due_row::DueList;
use crate::fleet_lists::{
    DeferredList, FleetList, OutlookList, list_deferred, list_fleet, list_outlook,
};
use crate::forecast::{ForecastList, list_forecast};
use crate::inventory::{AircraftRow, ComponentRow, list_aircraft, list_components};
use crate::life_list::{LifeList, list_lives};
use crate::limit_list::{LimitList, list_limits};
use crate::list_records::ListRecords;
use crate::order::Rows;
use crate::question::Question;
use crate::stop::Stop;
use std::alloc::Global;

/// A list of an aircraft, or of all.
#[derive(Drop)]
pub enum Report {
    Life(LifeList),
    Due(DueList),
    Forecast(ForecastList),
    Limits(LimitList),
    Fleet(FleetList),
    Outlook(OutlookList),
    Aircraft(Rows<AircraftRow>),
    Components(Rows<ComponentRow>),
    Deferred(DeferredList),
}

/// The list that a question asks for, or `None` where the registration is unknown. Or why it stopped: memory ran out, or a
/// question was not answered.
pub fn list_report<R: ListRecords>(
    records: &mut R,
    alloc: Global,
    question: &Question,
) -> Result<Option<Report>, Stop<R::Fault>>
    ensures answers { Gathers R.reading records.old records.new result
        (λ book. report_of book question.now) }
    ensures kind { IfOk result (λ list. IfSome list (IsOfKind question.now)) }
{
    match question {
        Question::Life(tail) => match list_lives(records, alloc, tail)? {
            Some(list) => Ok(Some(Report::Life(list))),
            None => Ok(None),
        },
        Question::Due(tail, day) => match list_dues(records, alloc, tail, *day)? {
            Some(list) => Ok(Some(Report::Due(list))),
            None => Ok(None),
        },
        Question::Forecast {
            tail,
            day,
            days,
            minutes,
            cycles,
        } => match list_forecast(records, alloc, tail, *day, *days, *minutes, *cycles)? {
            Some(list) => Ok(Some(Report::Forecast(list))),
            None => Ok(None),
        },
        Question::Limits(tail, day) => match list_limits(records, alloc, tail, *day)? {
            Some(list) => Ok(Some(Report::Limits(list))),
            None => Ok(None),
        },
        Question::Fleet(day) => {
            let list = list_fleet(records, alloc, *day)?;
            Ok(Some(Report::Fleet(list)))
        }
        Question::Outlook {
            day,
            days,
            minutes,
            cycles,
        } => {
            let list = list_outlook(records, alloc, *day, *days, *minutes, *cycles)?;
            Ok(Some(Report::Outlook(list)))
        }
        Question::Aircraft => {
            let rows = list_aircraft(records, alloc)?;
            Ok(Some(Report::Aircraft(rows)))
        }
        Question::Components => {
            let rows = list_components(records, alloc)?;
            Ok(Some(Report::Components(rows)))
        }
        Question::Deferred(day) => {
            let list = list_deferred(records, alloc, *day)?;
            Ok(Some(Report::Deferred(list)))
        }
    }
}
