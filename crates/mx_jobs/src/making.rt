//! `init` over an open database: the tables of an empty book.
ghost use Rattle.std.specs.Prelude.{◌≡◌, ◌≢◌, ◌⊎◌, ◌+◌, ◌≤◌, ◌++◌, codes, true, false, IsTrue, IsErr, IfErr, OnOk, OnErr, vec_len};
ghost use Rattle.std.specs.Vec.{vec_capacity};
ghost use Rattle.sqlite.specs.Held.{state};
ghost use Rattle.sqlite.specs.State.{HasCleanDisk};
ghost use Rattle.sqlite_catalog.specs.Listing.{IsSound};
ghost use Rattle.mx_layout.specs.Crash.{Leaves, RestsAs, ChangesNothing};
ghost use Rattle.mx_layout.specs.Listed.{IsRefusal};
ghost use Rattle.mx_layout.specs.Making.{IsEmptyIn};
ghost use Rattle.mx_layout.specs.Point.{IsStop};
ghost use Rattle.mx_layout.specs.Steps.{schema_of};
ghost use Rattle.mx_layout.specs.Tables.{no_schema};
ghost use Rattle.mx_office.specs.Layout.{office_point};
ghost use Rattle.mx_output.specs.endings.Status.{stop_status};

use mx_layout::{Layout, TableFault, create};
use mx_office::NEWEST_LAYOUT;
use mx_output::endings::Stop;
use sqlite::{Alter, Connection};

/// What is printed where a book was made.
pub const CREATED: &[u8; 8] = b"created\n";

// Appends the text, for which there is room.
fn append_created(out: &mut Vec<u8>)
    requires { vec_len out.old + 8 ≤ vec_capacity out.old }
    ensures { out.new.items ≡ out.old.items ++ codes "created\n" }
{
    match out.extend_from_slice(CREATED) {
        Ok(()) => {}
        Err(_) => unreachable!(),
    }
}

/// Makes the tables of an empty book at the newest layout in an empty database, in one commit, and
/// appends `created`, for which the caller made room: so memory can't run out behind the commit.
pub fn make_book<S: Alter>(conn: &mut Connection<S>, out: &mut Vec<u8>) -> Result<(), Stop>
    requires idle { conn.old.in_transaction ≡ false }
    requires room { vec_len out.old + 8 ≤ vec_capacity out.old }
    ensures idle { conn.new.in_transaction ≡ false }
    ensures printed { OnOk result (out.new.items ≡ out.old.items ++ codes "created\n") }
    ensures unprinted { OnErr result (out.new.items ≡ out.old.items) }

    // What becomes of the tables.
    ensures made { RestsAs (state S.Store conn.old) no_schema (IsSound no_schema)
        → OnOk result (RestsAs (state S.Store conn.new) (schema_of office_point.layout)
        (IsEmptyIn office_point.layout)) }
    ensures crash { RestsAs (state S.Store conn.old) no_schema (IsSound no_schema)
        → Leaves (state S.Store conn.new)
        (λ db. IsSound no_schema db ⊎ IsEmptyIn office_point.layout db) }
    ensures unchanged { IfErr result (λ stop. stop ≢ Stop.Create TableFault.Store
        → ChangesNothing (state S.Store conn.old) (state S.Store conn.new)) }

    // Where the database is not empty nothing is made and nothing changes.
    ensures taken { HasCleanDisk (state S.Store conn.new)
        → (IsTrue (state S.Store conn.old).is_open
        → (state S.Store conn.old).now.schema ≢ no_schema) → IsErr result }
    ensures kept { (IsTrue (state S.Store conn.old).is_open
        → (state S.Store conn.old).now.schema ≢ no_schema)
        → ChangesNothing (state S.Store conn.old) (state S.Store conn.new) }

    // Why nothing was made.
    ensures not_here { RestsAs (state S.Store conn.old) no_schema (IsSound no_schema)
        → HasCleanDisk (state S.Store conn.new) → IfErr result
        (λ stop. (fault : _) × (stop ≡ Stop.Create fault) × IsStop fault) }
    ensures stops { IfErr result (λ stop. (fault : _) × (stop ≡ Stop.Create fault)
        × (IsStop fault ⊎ IsRefusal (state S.Store conn.old).now.schema fault)) }
    ensures status { IfErr result (λ stop. stop_status stop ≡ 5) }
{
    match create(conn, Layout(NEWEST_LAYOUT)) {
        Ok(()) => {
            append_created(out);
            Ok(())
        }
        Err(fault) => Err(Stop::Create(fault)),
    }
}
