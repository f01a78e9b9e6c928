//! Aircraft and components that are chosen.
ghost use Rattle.std.specs.Prelude.{◌≡◌, pos, None};
ghost use Rattle.sqlite.specs.declared.types.Value.TheVariants.{Int, Text};
ghost use Rattle.sqlite.specs.Held.{state};
ghost use Rattle.mx_layout.specs.kept.Cells.{kept_aircraft, kept_place, kept_component};
ghost use Rattle.mx_table_rows.specs.chosen.Choices.{is_any};
ghost use Rattle.mx_table_rows.specs.chosen.Calls.{ReadsBy, ReadsFirst};

use crate::chosen::prelude::*;
use mx_base::rows::{AircraftRow, ComponentRow, PlaceRow};
use mx_base::{Serial, Tail};

/// The aircraft that an entry added: at most one.
pub fn aircraft_by_seq<S: Alter>(
    alloc: Global,
    tx: &mut Transaction<'_, S>,
    seq: u32,
) -> Result<Vec<AircraftRow>, TableFault>
    ensures same_reference { tx.new.conn.ghost_name ≡ tx.old.conn.ghost_name }
    ensures reads { ReadsBy kept_aircraft 0 (Int (pos seq))
        (state S.Store tx.old.conn.now) (state S.Store tx.new.conn.now) result }
{
    rows_chosen(
        alloc,
        tx,
        "SELECT seq, tail, kind, birth, minutes, cycles, as_of FROM aircraft WHERE seq = ?1 ORDER BY seq",
        params![seq],
    )
}

/// The aircraft of a registration: at most one.
pub fn aircraft_by_tail<S: Alter>(
    alloc: Global,
    tx: &mut Transaction<'_, S>,
    tail: &Tail,
) -> Result<Vec<AircraftRow>, TableFault>
    ensures same_reference { tx.new.conn.ghost_name ≡ tx.old.conn.ghost_name }
    ensures reads { ReadsBy kept_aircraft 1 (Text tail.now)
        (state S.Store tx.old.conn.now) (state S.Store tx.new.conn.now) result }
{
    rows_chosen(
        alloc,
        tx,
        "SELECT seq, tail, kind, birth, minutes, cycles, as_of FROM aircraft WHERE tail = ?1 ORDER BY seq",
        params![tail.as_str()],
    )
}

/// All aircraft.
pub fn all_aircraft<S: Alter>(
    alloc: Global,
    tx: &mut Transaction<'_, S>,
) -> Result<Vec<AircraftRow>, TableFault>
    ensures same_reference { tx.new.conn.ghost_name ≡ tx.old.conn.ghost_name }
    ensures reads { ReadsFirst kept_aircraft None kept_aircraft.order is_any (λ rows. rows.items)
        (state S.Store tx.old.conn.now) (state S.Store tx.new.conn.now) result }
{
    rows_chosen(
        alloc,
        tx,
        "SELECT seq, tail, kind, birth, minutes, cycles, as_of FROM aircraft ORDER BY seq",
        &[],
    )
}

/// The positions of an aircraft.
pub fn place_by_seq<S: Alter>(
    alloc: Global,
    tx: &mut Transaction<'_, S>,
    seq: u32,
) -> Result<Vec<PlaceRow>, TableFault>
    ensures same_reference { tx.new.conn.ghost_name ≡ tx.old.conn.ghost_name }
    ensures reads { ReadsBy kept_place 0 (Int (pos seq))
        (state S.Store tx.old.conn.now) (state S.Store tx.new.conn.now) result }
{
    rows_chosen(
        alloc,
        tx,
        "SELECT seq, line, position, part FROM place WHERE seq = ?1 ORDER BY seq, line",
        params![seq],
    )
}

/// The component that an entry added: at most one.
pub fn component_by_seq<S: Alter>(
    alloc: Global,
    tx: &mut Transaction<'_, S>,
    seq: u32,
) -> Result<Vec<ComponentRow>, TableFault>
    ensures same_reference { tx.new.conn.ghost_name ≡ tx.old.conn.ghost_name }
    ensures reads { ReadsBy kept_component 0 (Int (pos seq))
        (state S.Store tx.old.conn.now) (state S.Store tx.new.conn.now) result }
{
    rows_chosen(
        alloc,
        tx,
        "SELECT seq, serial, part, birth, minutes, cycles, as_of FROM component WHERE seq = ?1 ORDER BY seq",
        params![seq],
    )
}

/// The component of a serial number: at most one.
pub fn component_by_serial<S: Alter>(
    alloc: Global,
    tx: &mut Transaction<'_, S>,
    serial: &Serial,
) -> Result<Vec<ComponentRow>, TableFault>
    ensures same_reference { tx.new.conn.ghost_name ≡ tx.old.conn.ghost_name }
    ensures reads { ReadsBy kept_component 1 (Text serial.now)
        (state S.Store tx.old.conn.now) (state S.Store tx.new.conn.now) result }
{
    rows_chosen(
        alloc,
        tx,
        "SELECT seq, serial, part, birth, minutes, cycles, as_of FROM component WHERE serial = ?1 ORDER BY seq",
        params![serial.as_str()],
    )
}

/// All components.
pub fn all_components<S: Alter>(
    alloc: Global,
    tx: &mut Transaction<'_, S>,
) -> Result<Vec<ComponentRow>, TableFault>
    ensures same_reference { tx.new.conn.ghost_name ≡ tx.old.conn.ghost_name }
    ensures reads { ReadsFirst kept_component None kept_component.order is_any (λ rows. rows.items)
        (state S.Store tx.old.conn.now) (state S.Store tx.new.conn.now) result }
{
    rows_chosen(
        alloc,
        tx,
        "SELECT seq, serial, part, birth, minutes, cycles, as_of FROM component ORDER BY seq",
        &[],
    )
}
