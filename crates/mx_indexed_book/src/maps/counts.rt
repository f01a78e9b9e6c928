//! How many aircraft and components a book has.
ghost use Rattle.std.specs.Prelude.{◌≡◌, ◌+◌, ◌-◌, ◌^◌, ◌<◌, [], ◌∷◌, ◌++◌, List, if◌then◌else◌};
ghost use Rattle.mx_book.specs.commands.Act.{Entry};
ghost use Rattle.mx_book.specs.Book.{IsBook};
ghost use Rattle.mx_indexed_book.specs.maps.Counts.{counts_of};

use mx_book::commands::Command;

/// How many aircraft and components there are.
#[derive(Clone, Copy)]
pub struct Counts {
    /// How many aircraft were added.
    pub aircraft: u32,
    /// How many components were added.
    pub components: u32,
}

// One more, where there is one.
fn with_one(count: u32, is_one: bool) -> u32
    ensures { count < 2 ^ 32 - 1 → result ≡ count + (if is_one then 1 else 0) }
{
    if is_one {
        count.saturating_add(1)
    } else {
        count
    }
}

impl Counts {
    /// Those of the empty book.
    pub fn new() -> Counts
        ensures { result ≡ counts_of [] }
    {
        Counts {
            aircraft: 0,
            components: 0,
        }
    }

    /// Those with one entry more.
    pub fn counted(&self, entry: &Command) -> Counts
        ensures { (book : List Entry) → IsBook book → self.now ≡ counts_of book
            → result ≡ counts_of (book ++ entry.now ∷ []) }
    {
        Counts {
            aircraft: with_one(self.aircraft, entry.added_aircraft().is_some()),
            components: with_one(self.components, entry.added_component().is_some()),
        }
    }
}
