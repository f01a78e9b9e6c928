//! The entry with the document of a command, and whether it is the same command, by the rows of that entry.
ghost use Rattle.std.specs.Prelude.{◌≡◌};
ghost use Rattle.std.specs.Option.{option_map};
ghost use Rattle.mx_book.specs.Asking.{known_same};
ghost use Rattle.mx_book.specs.Judge.{known_from};
ghost use Rattle.mx_lookups.specs.numbers.LookUp.{IsLookUp};
ghost use Rattle.mx_row_judge.specs.known.Known.{KnownAs, KnownDamage, Says, SaysDamage, Tells};

use crate::known::kinds::{
    is_aircraft, is_component, is_deferral, is_extension, is_fitting, is_opening, is_programme,
    is_removal, is_sector,
};
use crate::known::releases::is_release;
use mx_book::commands::{Command, Said};
use mx_layout::TableFault;
use mx_lookups::numbers::entries::entry_of_doc;
use sqlite::{Alter, Transaction};
use std::alloc::Global;

// Whether the entry with a number says what a command says.
fn is_same<S: Alter>(
    alloc: Global,
    tx: &mut Transaction<'_, S>,
    seq: u32,
    command: &Command,
) -> Result<bool, TableFault>
    ensures looks_up { IsLookUp S.Store
        (Tells seq command.now.act)
        (Says seq command.now.act)
        (SaysDamage seq command.now.act)
        tx.old tx.new result }
{
    // A command of its shape has few positions, tasks and lines.
    let _ = command.doc();
    match command.said() {
        Said::Aircraft(aircraft, positions) => is_aircraft(alloc, tx, seq, aircraft, positions),
        Said::Component(component) => is_component(alloc, tx, seq, component),
        Said::Programme(programme, tasks) => is_programme(alloc, tx, seq, programme, tasks),
        Said::Opening(opening) => is_opening(alloc, tx, seq, opening),
        Said::Sector(sector) => is_sector(alloc, tx, seq, sector),
        Said::Fitting(fitting) => is_fitting(alloc, tx, seq, fitting),
        Said::Removal(removal) => is_removal(alloc, tx, seq, removal),
        Said::Release(release, lines) => is_release(alloc, tx, seq, release, lines),
        Said::Deferral(deferral) => is_deferral(alloc, tx, seq, deferral),
        Said::Extension(extension) => is_extension(alloc, tx, seq, extension),
    }
}

/// The number of the entry with the document of a command, and whether it is the same command: in each table of its kind the
/// rows of that entry are those that the command would have. `None` without such an entry.
pub fn known<S: Alter>(
    alloc: Global,
    tx: &mut Transaction<'_, S>,
    command: &Command,
) -> Result<Option<(u32, bool)>, TableFault>
    ensures looks_up { IsLookUp S.Store
        (λ book found. found ≡ option_map (known_same command.now) (known_from command.now.doc 1
        book))
        (KnownAs command.now)
        (KnownDamage command.now)
        tx.old tx.new result }
{
    let doc = command.doc();
    let found = entry_of_doc(alloc, tx, &doc)?;
    match found {
        Some(seq) => {
            let same = is_same(alloc, tx, seq, command)?;
            Ok(Some((seq, same)))
        }
        None => Ok(None),
    }
}
