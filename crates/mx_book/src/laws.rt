//! Laws of books and runs: what the definitions give, in the subject's own words. Each function does
//! nothing; its contract is the law, and the checker proves it.
ghost use Rattle.std.specs.Prelude.{◌≡◌, ◌≢◌, ◌+◌, ◌*◌, ◌≤◌, ℕ, List, [], ◌∷◌, ◌++◌, length, filter, not, true, false, None, is_some, IfSome, IsSomeAnd};
ghost use Rattle.std.specs.List.{AllPairs, flat_map, list_all, list_any};
ghost use Rattle.mx_book.specs.commands.Act.{Entry, Fitted, Removed, Released, Extended};
ghost use Rattle.mx_book.specs.commands.Shape.{has_shape};
ghost use Rattle.mx_book.specs.declared.commands.item.Item.{Item};
ghost use Rattle.mx_book.specs.declared.commands.item.Item.TheVariants.{Airframe};
ghost use Rattle.mx_book.specs.declared.commands.fitting.Fitting.{Fitting};
ghost use Rattle.mx_book.specs.declared.commands.fitting.Removal.{Removal};
ghost use Rattle.mx_book.specs.declared.commands.release.Line.{Line};
ghost use Rattle.mx_book.specs.declared.commands.release.Release.{Release};
ghost use Rattle.mx_book.specs.declared.commands.deferral.Extension.{Extension};
ghost use Rattle.mx_book.specs.Register.{register};
ghost use Rattle.mx_book.specs.Span.{fitted, is_taken, open_spans_of, open_spans_at};
ghost use Rattle.mx_book.specs.Programme.{tasks_loaded, revision_in_force, next_revision};
ghost use Rattle.mx_book.specs.Life.{life_now};
ghost use Rattle.mx_book.specs.Programme.{is_accomplished};
ghost use Rattle.mx_book.specs.Base.{base};
ghost use Rattle.mx_book.specs.Defect.{day_found, defect, interval, is_rectified, last_permitted, open_defects, rectifies};
ghost use Rattle.mx_book.specs.Judge.{judge, line_defects};
ghost use Rattle.mx_book.specs.Book.{IsBook};
ghost use Rattle.mx_book.specs.Run.{book_after, book_run, replies};
ghost use Rattle.mx_book.specs.Accepted.{accepted, HasAcknowledged};

use crate::verdict::Verdict;

/// A command once accepted is answered `Already` with its number by every later book, and changes nothing.
pub fn accepted_is_known()
    ensures known { (book more : List Entry) (command : Entry)
        → judge book command ≡ Verdict.New
        → judge (book ++ command ∷ more) command ≡ Verdict.Already (length book + 1) }
    ensures unchanged { (book more : List Entry) (command : Entry)
        → judge book command ≡ Verdict.New
        → book_after (book ++ command ∷ more) command ≡ book ++ command ∷ more }
{}

/// No book has one document twice.
pub fn documents_are_distinct()
    ensures { (book : List Entry) → IsBook book → AllPairs (λ a b. a.doc ≢ b.doc) book }
{}

/// The life of an airframe never falls as entries are added.
pub fn life_never_falls()
    ensures { (book more : List Entry) (tail : List ℕ) → IfSome (life_now book (Airframe tail))
        (λ before. IsSomeAnd (life_now (book ++ more) (Airframe tail))
        (λ after. (before.minutes ≤ after.minutes) × (before.cycles ≤ after.cycles))) }
{}

/// A task of an item has a base exactly where it was accomplished.
pub fn accomplished_has_a_base()
    ensures { (book : List Entry) (item : Item) (id : List ℕ)
        → is_some (base book item id) ≡ is_accomplished book item id }
{}

/// A component is fitted in at most one place.
pub fn one_place_for_a_component()
    ensures { (book : List Entry) (serial : List ℕ) → IsBook book
        → length (open_spans_of book serial) ≤ 1 }
{}

/// A position of an aircraft has at most one component.
pub fn one_component_in_a_position()
    ensures { (book : List Entry) (tail position : List ℕ) → IsBook book
        → length (open_spans_at book tail position) ≤ 1 }
{}

/// A component that was just removed is fitted nowhere.
pub fn removed_is_fitted_nowhere()
    ensures { (book : List Entry) (doc : List ℕ) (removal : Removal)
        → fitted (book ++ record { doc = doc; act = Removed removal } ∷ []) removal.serial ≡ None }
{}

/// A component that was just fitted takes its position.
pub fn fitted_takes_its_position()
    ensures { (book : List Entry) (doc : List ℕ) (fitting : Fitting)
        → is_taken (book ++ record { doc = doc; act = Fitted fitting } ∷ [])
        fitting.tail fitting.position ≡ true }
{}

/// The revision in force of a kind is the number of programmes that were loaded for it, and the next is one more.
pub fn revisions_count_the_programmes()
    ensures in_force { (book : List Entry) (kind : List ℕ) → IsBook book
        → IfSome (revision_in_force book kind)
        (λ revision. revision ≡ length (register (tasks_loaded kind) book)) }
    ensures next { (book : List Entry) (kind : List ℕ) → IsBook book
        → next_revision book kind ≡ length (register (tasks_loaded kind) book) + 1 }
{}

/// A release leaves those defects open that were and that none of its lines rectifies; one that is new rectifies no
/// defect a second time, and what was rectified stays so.
pub fn rectified_is_closed()
    ensures left { (book : List Entry) (tail doc : List ℕ) (release : Release) (lines : List Line)
        → open_defects (book ++ record { doc = doc; act = Released release lines } ∷ []) tail
        ≡ filter (λ d. not (list_any (rectifies d.doc) lines)) (open_defects book tail) }
    ensures once { (book : List Entry) (doc : List ℕ) (release : Release) (lines : List Line)
        → judge book (record { doc = doc; act = Released release lines }) ≡ Verdict.New
        → list_any (is_rectified book) (flat_map line_defects lines) ≡ false }
    ensures stays { (book more : List Entry) (doc : List ℕ)
        → is_rectified book doc ≡ true → is_rectified (book ++ more) doc ≡ true }
{}

/// An extension that is new at most doubles the interval of its defect.
pub fn extension_at_most_doubles()
    ensures { (book : List Entry) (doc : List ℕ) (extension : Extension)
        → judge book (record { doc = doc; act = Extended extension }) ≡ Verdict.New
        → IsSomeAnd (defect book extension.defect) (λ d.
        last_permitted (book ++ record { doc = doc; act = Extended extension } ∷ []) d
        ≤ day_found d + 2 * interval d.deferral.category) }
{}

/// A run over two lists joined is the run over the first and then over the second.
pub fn runs_join()
    ensures book { (book commands more : List Entry)
        → book_run book (commands ++ more) ≡ book_run (book_run book commands) more }
    ensures replies { (book commands more : List Entry) → replies book (commands ++ more)
        ≡ replies book commands ++ replies (book_run book commands) more }
{}

/// A run appends the commands that it accepts, and each that it acknowledges is the entry with its number from then on.
pub fn runs_append_the_accepted()
    ensures book { (book commands : List Entry)
        → book_run book commands ≡ book ++ accepted book commands }
    ensures acknowledged { (book commands more : List Entry)
        → HasAcknowledged (book_run book commands ++ more) (replies book commands) commands }
{}

/// A run over commands, each of its shape, makes a book of a book.
pub fn runs_give_books()
    ensures { (book commands : List Entry) → IsBook book → list_all has_shape commands ≡ true
        → IsBook (book_run book commands) }
{}
