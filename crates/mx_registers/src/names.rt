//! The item that an entry adds, and the number of an entry that was not found.
ghost use Rattle.std.specs.Prelude.{◌≡◌};
ghost use Rattle.mx_book.specs.commands.Act.{act_of};
ghost use Rattle.mx_registers.specs.Names.{item_added, or_zero};

use mx_book::commands::{Body, Item};

/// The number of the entry that a name was found at, or 0, which no entry has: a command that was judged new names only
/// what the book has.
pub fn or_zero(seq: Option<u32>) -> u32
    ensures { result ≡ or_zero seq }
{
    seq.unwrap_or(0)
}

/// The item that an entry adds: the airframe of an aircraft, or a component.
pub fn added_item(body: &Body) -> Option<Item>
    ensures { result ≡ item_added (act_of body.now) }
{
    match body {
        Body::AddAircraft { tail, .. } => Some(Item::Airframe(*tail)),
        Body::AddComponent { serial, .. } => Some(Item::Component(*serial)),
        _ => None,
    }
}
