//! Whether there is room for one more aircraft or component, by how many rows there are: a table has no more of them than
//! the office allows.
ghost use Rattle.std.specs.Prelude.{◌≡◌};
ghost use Rattle.mx_book.specs.Register.{has_room_for_aircraft, has_room_for_component};
ghost use Rattle.mx_book.specs.declared.limits.TheConstants.{MOST_AIRCRAFT, MOST_COMPONENTS};
ghost use Rattle.mx_layout.specs.declared.fault.Table.TheVariants as table;
ghost use Rattle.mx_lookups.specs.numbers.Given.{HasRoom};
ghost use Rattle.mx_lookups.specs.numbers.LookUp.{IsLookUp};
ghost use Rattle.mx_lookups.specs.numbers.Told.{CountDamage};

use mx_book::limits::{MOST_AIRCRAFT, MOST_COMPONENTS};
use mx_layout::TableFault;
use mx_table_rows::chosen::counts::{count_aircraft, count_component};
use sqlite::{Alter, Transaction};

/// Whether there is room for one more aircraft.
pub fn has_room_for_aircraft<S: Alter>(tx: &mut Transaction<'_, S>) -> Result<bool, TableFault>
    ensures looks_up { IsLookUp S.Store
        (λ book room. room ≡ has_room_for_aircraft book)
        (HasRoom table.Aircraft MOST_AIRCRAFT)
        (CountDamage table.Aircraft)
        tx.old tx.new result }
{
    let count = count_aircraft(tx)?;
    Ok((count as usize) < MOST_AIRCRAFT)
}

/// Whether there is room for one more component.
pub fn has_room_for_component<S: Alter>(tx: &mut Transaction<'_, S>) -> Result<bool, TableFault>
    ensures looks_up { IsLookUp S.Store
        (λ book room. room ≡ has_room_for_component book)
        (HasRoom table.Component MOST_COMPONENTS)
        (CountDamage table.Component)
        tx.old tx.new result }
{
    let count = count_component(tx)?;
    Ok((count as usize) < MOST_COMPONENTS)
}
