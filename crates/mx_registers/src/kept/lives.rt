//! Laws of lives and clocks: what one entry more makes of them. Each function does nothing; its contract is the law, and
//! the checker proves it.
ghost use Rattle.std.specs.Prelude.{◌≡◌, ◌≤◌, ◌<◌, ℕ, max, true, List, [], ◌∷◌, ◌++◌, Option, Some};
ghost use Rattle.std.specs.List.{AllByRecursion};
ghost use Rattle.std.specs.Option.{option_map, option_or};
ghost use Rattle.mx_book.specs.commands.Act.{Entry, Flown, sector_of};
ghost use Rattle.mx_book.specs.commands.Shape.{act_shape};
ghost use Rattle.mx_book.specs.declared.commands.item.Item.{Item};
ghost use Rattle.mx_book.specs.declared.commands.item.Item.TheVariants.{Airframe, Component};
ghost use Rattle.mx_book.specs.declared.commands.release.Place.TheVariants.{Aircraft};
ghost use Rattle.mx_book.specs.declared.commands.sector.Sector.{Sector};
ghost use Rattle.mx_book.specs.Book.{IsBook};
ghost use Rattle.mx_book.specs.Judge.{is_at, judge};
ghost use Rattle.mx_book.specs.Life.{clock, credited, is_credited, latest, life_now, life_until, opening_of, use_after};
ghost use Rattle.mx_book.specs.Register.{register};
ghost use Rattle.mx_book.specs.Span.{spans};
ghost use Rattle.mx_book.specs.declared.verdict.Verdict.TheVariants.{New};
ghost use Rattle.mx_registers.specs.kept.Changes.{clock_of_place, moments_given, sectors_given, sectors_late};
ghost use Rattle.mx_registers.specs.Names.{item_at};
ghost use Rattle.mx_registers.specs.Registers.{sector_rows};
ghost use Rattle.mx_registers.specs.kept.Moments.{IsUncut, flown_by_number, life_by_moments, use_more};
ghost use Rattle.mx_registers.specs.kept.Spans.{span_rows};

/// One entry more gives the clock of each item its moments.
pub fn clocks_change()
    ensures { (book : List Entry) (entry : Entry) (item : Item) → IsBook book
        → clock (book ++ entry ∷ []) item
        ≡ max (clock book item) (latest (moments_given book item entry.act)) }
{}

/// What a new entry adds to the sectors of an item: a sector is added to those of exactly the items that are credited
/// with it by the spans before it, whenever it was flown.
pub fn credits_change()
    ensures { (book : List Entry) (entry : Entry) (item : Item) → IsBook book
        → judge book entry ≡ New → act_shape entry.act ≡ true
        → credited (book ++ entry ∷ []) item
        ≡ credited book item ++ sectors_given book item entry.act }
{}

/// A sector that takes off by the clock of its airframe is credited to exactly the items that are at its aircraft, and
/// to none of them late; nor is one late for any item that takes off before the clock and lands after it.
pub fn sectors_in_order()
    ensures there { (book : List Entry) (sector : Sector) (item : Item) → IsBook book
        → act_shape (Flown sector) ≡ true → clock book (Airframe sector.tail) ≤ sector.off
        → is_credited book item sector ≡ is_at book (Aircraft sector.tail) item }
    ensures timely { (book : List Entry) (sector : Sector) (item : Item) → IsBook book
        → act_shape (Flown sector) ≡ true → clock book (Airframe sector.tail) ≤ sector.off
        → sectors_late book item (Flown sector) ≡ [] }
    ensures landing { (book : List Entry) (sector : Sector) (item : Item) → IsBook book
        → clock book (Airframe sector.tail) < sector.on
        → sectors_late book item (Flown sector) ≡ [] }
{}

/// The life of each item with a new entry: the sectors that this gives the item are added to its life; an item that the
/// entry adds begins with the use that it brought with it.
pub fn lives_change()
    ensures { (book : List Entry) (entry : Entry) (item : Item) → IsBook book
        → judge book entry ≡ New → act_shape entry.act ≡ true
        → life_now (book ++ entry ∷ []) item
        ≡ option_or
        (option_map (use_after (sectors_given book item entry.act)) (life_now book item))
        (opening_of (entry ∷ []) item) }
{}

/// The clock of the place where an item is never falls, and that of a component is not after it.
pub fn places_have_clocks()
    ensures grows { (book : List Entry) (entry : Entry) (item : Item) → IsBook book
        → judge book entry ≡ New
        → clock_of_place book item ≤ clock_of_place (book ++ entry ∷ []) item }
    ensures placed { (book : List Entry) → IsBook book → (serial : List ℕ)
        → clock book (Component serial) ≤ clock_of_place book (Component serial) }
{}

/// No sector of a book is under way when a component is fitted to its aircraft or removed from it: each sector of the aircraft of a
/// span is before it, within it or behind it.
pub fn no_sector_is_cut()
    ensures { (book : List Entry) → IsBook book
        → AllByRecursion (λ sector. AllByRecursion (IsUncut sector) (spans book))
        (register sector_of book) }
{}

/// The life of an item up to a moment, by moments alone: an airframe has what was flown with it by then, and a component, of each
/// of its spans, what its aircraft had flown by then or by the end of the span, less what that had flown by its beginning.
pub fn lives_are_by_moments()
    ensures { (book : List Entry) (item : Item) (until : Option ℕ) → IsBook book
        → life_until book item until ≡ life_by_moments book item until }
{}

/// The same by the rows of the sectors and of the spans, of the item with a number.
pub fn lives_are_by_rows()
    ensures { (book : List Entry) (number : ℕ) (item : Item) (until : Option ℕ) → IsBook book
        → item_at book number ≡ Some item
        → life_until book item until
        ≡ option_map
        (use_more (flown_by_number (sector_rows book) (span_rows book) number until))
        (opening_of book item) }
{}
