//! The form of a sector, which makes its own document.
ghost use Rattle.std.specs.Prelude.{◌≡◌, ◌≢◌, Ok, Err, IfOk, IfErr};
ghost use Rattle.serde_json.specs.View.{view};
ghost use Rattle.mx_book.specs.commands.Act.{act_of, Flown};
ghost use Rattle.mx_intake.specs.declared.fault.TheConstants.{MEMORY};
ghost use Rattle.mx_intake.specs.Forms.{stated_sector, logged, sector_form};

use crate::fault::{BAD_SHAPE, MEMORY};
use crate::form::{Stated, command_by_keys};
use crate::object::number_at;
use crate::vocabulary::{identifier_at, moment_at};
use mx_book::commands::{Body, Command, MakeFault, Sector};
use serde_json::Value;
use std::alloc::Global;

/// The sector that an object states, where every value can be read.
fn stated(object: &Value) -> Option<Sector>
    ensures { result ≡ stated_sector (view object.now) }
{
    Some(Sector {
        tail: identifier_at(object, "tail")?,
        page: number_at(object, "page")?,
        line: number_at(object, "line")?,
        off: moment_at(object, "off")?,
        on: moment_at(object, "on")?,
        cycles: number_at(object, "cycles")?,
    })
}

// What a sector says, as the body of a command.
fn body_of_sector(sector: Sector) -> Body
    ensures { act_of result ≡ Flown sector }
{
    Body::Sector {
        tail: sector.tail,
        page: sector.page,
        line: sector.line,
        off: sector.off,
        on: sector.on,
        cycles: sector.cycles,
    }
}

impl Stated for Sector {
    ghost entry = { logged };

    fn command(self, alloc: Global) -> Result<Command, u8> {
        match Command::sector(alloc, body_of_sector(self)) {
            Ok(command) => Ok(command),
            Err(MakeFault::BadShape) => Err(BAD_SHAPE),
            Err(MakeFault::Memory) => Err(MEMORY),
        }
    }
}

/// The sector that an object states, or the number of its least fault.
pub(crate) fn command_of(alloc: Global, object: &Value) -> Result<Command, u8>
    ensures ok { IfOk result (λ c. sector_form (view object.now) ≡ Ok c) }
    ensures err { IfErr result (λ n. n ≢ MEMORY → sector_form (view object.now) ≡ Err n) }
{
    let keys = ["do", "tail", "page", "line", "off", "on", "cycles"];
    command_by_keys(alloc, object, &keys, stated(object))
}
