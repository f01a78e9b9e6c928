//! What the rows of an entry state, by its kind.
ghost use Rattle.std.specs.Prelude.{◌≡◌, ◌⊎◌, MatchResult, None, Some};
ghost use Rattle.std.specs.Option.{option_map};
ghost use Rattle.sqlite.specs.Held.{state};
ghost use Rattle.mx_book.specs.commands.Act.{act_of};
ghost use Rattle.mx_row_rules.specs.found.Stated.{stated};
ghost use Rattle.mx_lookups.specs.numbers.AnyRows.{ReadsAny};
ghost use Rattle.mx_lookups.specs.numbers.Reads.{Reads};
ghost use Rattle.mx_row_questions.specs.entries.Entries.{KindStated, command_said, table_of};

use crate::entries::kinds::{
    aircraft_stated, component_stated, deferral_stated, extension_stated, fitting_stated,
    opening_stated, programme_stated, removal_stated, sector_stated,
};
use crate::entries::releases::release_stated;
use mx_base::rows::{EntryKind, EntryRow};
use mx_book::commands::{Body, Command, MakeFault};
use mx_layout::{Table, TableFault};
use sqlite::{Alter, Transaction};
use std::alloc::Global;

// The table of the rows that entries of a kind have.
fn table_of(kind: EntryKind) -> Table
    ensures { result ≡ table_of kind }
{
    match kind {
        EntryKind::AddAircraft => Table::Aircraft,
        EntryKind::AddComponent => Table::Component,
        EntryKind::LoadProgramme => Table::Programme,
        EntryKind::Opening => Table::Opening,
        EntryKind::Sector => Table::Sector2,
        EntryKind::Fit | EntryKind::Remove => Table::Span2,
        EntryKind::Release => Table::Crs,
        EntryKind::Defer => Table::Defect,
        EntryKind::Extend => Table::Extension,
    }
}

// What the rows with this number state, as an entry of this kind.
pub(crate) fn body_stated<S: Alter>(
    alloc: Global,
    tx: &mut Transaction<'_, S>,
    seq: u32,
    kind: EntryKind,
) -> Result<Option<Body>, TableFault>
    ensures same_reference { tx.new.conn.ghost_name ≡ tx.old.conn.ghost_name }
    ensures reads { Reads (λ book said. option_map act_of said ≡ stated book seq kind)
        (state S.Store tx.old.conn.now) (state S.Store tx.new.conn.now) result }
    ensures any_rows { ReadsAny (λ trees said. KindStated kind seq trees (option_map act_of said))
        (state S.Store tx.old.conn.now) (state S.Store tx.new.conn.now) result }
{
    match kind {
        EntryKind::AddAircraft => aircraft_stated(alloc, tx, seq),
        EntryKind::AddComponent => component_stated(alloc, tx, seq),
        EntryKind::LoadProgramme => programme_stated(alloc, tx, seq),
        EntryKind::Opening => opening_stated(alloc, tx, seq),
        EntryKind::Sector => sector_stated(alloc, tx, seq),
        EntryKind::Fit => fitting_stated(alloc, tx, seq),
        EntryKind::Remove => removal_stated(alloc, tx, seq),
        EntryKind::Release => release_stated(alloc, tx, seq),
        EntryKind::Defer => deferral_stated(alloc, tx, seq),
        EntryKind::Extend => extension_stated(alloc, tx, seq),
    }
}

// The command that an entry with this row is, of what its rows state. `Damaged` with the table of its kind where they state
// nothing, or nothing of the shape of a command.
pub(crate) fn command_said(
    alloc: Global,
    row: &EntryRow,
    said: Option<Body>,
) -> Result<Command, TableFault>
    ensures { MatchResult result
        (λ command. Some command ≡ command_said row.now.doc (option_map act_of said))
        (λ fault. (fault ≡ TableFault.Memory)
        ⊎ ((fault ≡ TableFault.Damaged (table_of row.now.kind))
        × (command_said row.now.doc (option_map act_of said) ≡ None))) }
{
    let Some(body) = said else {
        return Err(TableFault::Damaged(table_of(row.kind)));
    };
    match Command::make(alloc, row.doc, body) {
        Ok(command) => Ok(command),
        Err(MakeFault::Memory) => Err(TableFault::Memory),
        Err(MakeFault::BadShape) => Err(TableFault::Damaged(table_of(row.kind))),
    }
}
