//! `try`: an aircraft and one sector, and the commands that enter them.
ghost use Rattle.std.specs.Prelude.{◌≡◌, true, false, Some, codes, IfOk, IfErr, OnOk};
ghost use Rattle.mx_book.specs.commands.Shape.{has_shape, is_sector_shaped, sector_entry};
ghost use Rattle.mx_words.specs.command_line.Trial.{trial_aircraft, trial_sector, trial_commands, is_trial_shaped};

use mx_base::{Day, Doc, Kind, Moment, Tail, Use};
use mx_book::commands::{Body, Command, MakeFault};
use std::alloc::Global;

/// The words of `try`: an aircraft with what it comes with, and a sector of it.
#[derive(Drop)]
pub struct Trial {
    /// The registration of the aircraft.
    pub tail: Tail,
    /// The flight minutes that it comes with.
    pub minutes: u32,
    /// The cycles that it comes with.
    pub cycles: u32,
    /// Take-off.
    pub off: Moment,
    /// Landing.
    pub on: Moment,
    /// The cycles of the sector.
    pub sector_cycles: u32,
}

// The document of the aircraft.
fn trial_document() -> Doc
    ensures { result ≡ codes "A1" }
{
    Doc::read("A1").unwrap()
}

// The kind of the aircraft.
fn trial_kind() -> Kind
    ensures { result ≡ codes "TRY" }
{
    Kind::read("TRY").unwrap()
}

fn aircraft_of(alloc: Global, trial: &Trial) -> Result<Command, MakeFault>
    ensures made { IfOk result (λ command. command ≡ trial_aircraft trial.now) }
    ensures shaped { OnOk result (has_shape (trial_aircraft trial.now) ≡ true) }
    ensures shape { IfErr result (λ fault. (fault ≡ MakeFault.BadShape)
        × (has_shape (trial_aircraft trial.now) ≡ false)) }
{
    let body = Body::AddAircraft {
        tail: trial.tail,
        kind: trial_kind(),
        birth: Day::of_number(0).unwrap(),
        opening: Use {
            minutes: trial.minutes,
            cycles: trial.cycles,
        },
        as_of: Moment::FIRST,
        positions: Vec::new(alloc),
    };
    Command::make(alloc, trial_document(), body)
}

fn sector_of(alloc: Global, trial: &Trial) -> Result<Command, MakeFault>
    ensures made { IfOk result (λ command. Some command ≡ sector_entry (trial_sector trial.now)) }
    ensures shape { result ≡ Err MakeFault.BadShape
        → is_sector_shaped (trial_sector trial.now) ≡ false }
    ensures memory { result ≡ Err MakeFault.Memory
        → is_sector_shaped (trial_sector trial.now) ≡ true }
{
    let body = Body::Sector {
        tail: trial.tail,
        page: 1,
        line: 1,
        off: trial.off,
        on: trial.on,
        cycles: trial.sector_cycles,
    };
    Command::sector(alloc, body)
}

/// The two commands of a trial: the aircraft `A1` of kind `TRY`, built and as of the first moment, and the sector of page 1
/// line 1. `BadShape` where one of them lacks its shape.
pub fn trial_commands(alloc: Global, trial: &Trial) -> Result<Vec<Command>, MakeFault>
    ensures made { IfOk result (λ commands. commands.items ≡ trial_commands trial.now) }
    ensures shaped { OnOk result (is_trial_shaped trial.now ≡ true) }
    ensures shape { result ≡ Err MakeFault.BadShape → is_trial_shaped trial.now ≡ false }
{
    let aircraft = aircraft_of(alloc, trial)?;
    let sector = sector_of(alloc, trial)?;
    let Ok(mut commands) = Vec::with_capacity(alloc, 2) else {
        return Err(MakeFault::Memory);
    };
    if commands.push(aircraft).is_err() || commands.push(sector).is_err() {
        return Err(MakeFault::Memory);
    }
    Ok(commands)
}
