//! Laws of the last bases: what a new command makes of them, of the values and of the rows. Each function does nothing;
//! its contract is the law, and the checker proves it.
ghost use Rattle.std.specs.Prelude.{◌≡◌, ◌+◌, ℕ, length, Some, List, [], ◌∷◌, ◌++◌, ◌&&◌, IsPermutation, true, if◌then◌else◌};
ghost use Rattle.std.specs.List.{list_any};
ghost use Rattle.mx_book.specs.commands.Act.{Entry, Opened, Released};
ghost use Rattle.mx_book.specs.commands.Same.{same_item, same_text};
ghost use Rattle.mx_book.specs.commands.Shape.{act_shape, has_shape};
ghost use Rattle.mx_book.specs.declared.commands.item.Item.{Item};
ghost use Rattle.mx_book.specs.declared.commands.opening.Opening.{Opening};
ghost use Rattle.mx_book.specs.declared.commands.release.Line.{Line};
ghost use Rattle.mx_book.specs.declared.commands.release.Release.{Release};
ghost use Rattle.mx_book.specs.Base.{accomplished_by, base, base_from};
ghost use Rattle.mx_book.specs.Book.{IsBook};
ghost use Rattle.mx_book.specs.Judge.{judge};
ghost use Rattle.mx_book.specs.Programme.{is_done};
ghost use Rattle.mx_book.specs.declared.verdict.Verdict.TheVariants.{New};
ghost use Rattle.mx_registers.specs.Names.{item_at};
ghost use Rattle.mx_registers.specs.kept.Bases.{AreKeyedOnce, base_in, base_reached, base_rows, bases_by, bases_put, stated_base};
ghost use Rattle.mx_registers.specs.kept.Changes.{entry_of, sectors_late};
ghost use Rattle.mx_base.specs.declared.rows.rows.BaseRow.{BaseRow};

/// The base of a task of an item with a new entry that gives the item no sector late: the accomplishments of the entry,
/// behind the base before it. So the bases of earlier accomplishments stay what they are.
pub fn bases_change()
    ensures { (book : List Entry) (entry : Entry) (item : Item) (id : List ℕ) → IsBook book
        → judge book entry ≡ New → act_shape entry.act ≡ true
        → sectors_late book item entry.act ≡ []
        → base (book ++ entry ∷ []) item id
        ≡ base_from (book ++ entry ∷ []) item id (base book item id)
        (accomplished_by (length book + 1) item id entry.act) }
{}

/// The base of each task of an item with a new release: where a line certifies it, what the item has reached now, or
/// in each dimension what was due where that is less; else what it was.
pub fn releases_set_bases()
    ensures { (book : List Entry) (doc : List ℕ) (release : Release) (lines : List Line)
        (item : Item) (id : List ℕ) → IsBook book
        → judge book (entry_of doc (Released release lines)) ≡ New
        → act_shape (Released release lines) ≡ true
        → base (book ++ entry_of doc (Released release lines) ∷ []) item id
        ≡ (if list_any (is_done item id) lines
        then Some (base_reached book release item id) else base book item id) }
{}

/// An opening states the base of its task of its item and leaves the others; a command that accomplishes nothing of a
/// task of an item, and gives it no sector late, leaves its base.
pub fn openings_set_bases()
    ensures stated { (book : List Entry) (doc : List ℕ) (opening : Opening)
        (item : Item) (id : List ℕ) → IsBook book → judge book (entry_of doc (Opened opening)) ≡ New
        → act_shape (Opened opening) ≡ true
        → base (book ++ entry_of doc (Opened opening) ∷ []) item id
        ≡ (if same_item opening.item item && same_text opening.task id
        then Some (stated_base opening) else base book item id) }
    ensures left { (book : List Entry) (entry : Entry) (item : Item) (id : List ℕ)
        → IsBook book → judge book entry ≡ New → act_shape entry.act ≡ true
        → sectors_late book item entry.act ≡ []
        → accomplished_by (length book + 1) item id entry.act ≡ []
        → base (book ++ entry ∷ []) item id ≡ base book item id }
{}

/// The row of a task of the item with a number has its last base, and there is no such row where it has none.
pub fn rows_have_the_bases()
    ensures { (book : List Entry) (number : ℕ) (item : Item) (id : List ℕ) → IsBook book
        → item_at book number ≡ Some item
        → base_in (base_rows book) number id ≡ base book item id }
{}

/// The rows of the last bases are a finite map: no two are of one task of one item, and rows of which that holds and
/// which say of each task of each item what those of the book say are the rows of the book.
pub fn bases_are_a_map()
    ensures once { (book : List Entry) → AreKeyedOnce (base_rows book) }
    ensures decided { (book : List Entry) (rows : List BaseRow) → AreKeyedOnce rows
        → ((number : ℕ) (id : List ℕ) → base_in rows number id ≡ base_in (base_rows book) number id)
        → IsPermutation rows (base_rows book) }
{}

/// The rows of the last bases with a new command, whichever it is: those that it sets, one after another, each in place
/// of that of the same task of the same item. A release sets one for each task that it certifies, an opening one, and no
/// other command sets any, also where it adds an item.
pub fn commands_put_bases()
    ensures { (book : List Entry) (entry : Entry) → IsBook book
        → judge book entry ≡ New → has_shape entry ≡ true
        → IsPermutation (bases_put (bases_by book entry.act) (base_rows book))
        (base_rows (book ++ entry ∷ [])) }
{}

/// The same, of a command that gives no item a sector late, whatever the rules say of late sectors.
pub fn timely_commands_put_bases()
    ensures { (book : List Entry) (entry : Entry) → IsBook book
        → judge book entry ≡ New → has_shape entry ≡ true
        → ((item : Item) → sectors_late book item entry.act ≡ [])
        → IsPermutation (bases_put (bases_by book entry.act) (base_rows book))
        (base_rows (book ++ entry ∷ [])) }
{}
