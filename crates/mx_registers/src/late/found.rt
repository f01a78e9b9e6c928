//! Laws of the cycles at which defects were found, as rows. Each function does nothing; its contract is the law, and the
//! checker proves it.
ghost use Rattle.std.specs.Prelude.{◌≡◌, ◌≤◌, ℕ, List, [], ◌∷◌, ◌++◌, All, map, true};
ghost use Rattle.mx_base.specs.rows.Rows.{FitsDeferral3};
ghost use Rattle.mx_base.specs.declared.rows.rows.Deferral3Row.{Deferral3Row};
ghost use Rattle.mx_book.specs.commands.Act.{Entry, Flown};
ghost use Rattle.mx_book.specs.commands.Shape.{act_shape};
ghost use Rattle.mx_book.specs.declared.commands.item.Item.TheVariants.{Airframe};
ghost use Rattle.mx_book.specs.declared.commands.sector.Sector.{Sector};
ghost use Rattle.mx_book.specs.Book.{IsBook};
ghost use Rattle.mx_book.specs.Judge.{judge};
ghost use Rattle.mx_book.specs.Life.{clock};
ghost use Rattle.mx_book.specs.declared.verdict.Verdict.TheVariants.{New};
ghost use Rattle.mx_registers.specs.Registers.{deferral_rows};
ghost use Rattle.mx_registers.specs.kept.Becomes.{Becomes};
ghost use Rattle.mx_registers.specs.kept.Changes.{entry_of};
ghost use Rattle.mx_registers.specs.kept.Fits.{FitRegisters};
ghost use Rattle.mx_registers.specs.late.Found.{found_become, found_rows};

/// The cycles at which defects were found, with a new command: a sector, whenever it was flown, adds its own to those of
/// its aircraft's defects that were found when it had landed; no other command changes one; and a deferral adds a row with
/// the cycles that the airframe has reached.
pub fn found_cycles_become()
    ensures { Becomes found_rows found_become }
{}

/// A sector that takes off by the clock of its airframe changes none of them.
pub fn sectors_in_order_leave_found_cycles()
    ensures { (book : List Entry) (doc : List ℕ) (sector : Sector) → IsBook book
        → judge book (entry_of doc (Flown sector)) ≡ New → act_shape (Flown sector) ≡ true
        → clock book (Airframe sector.tail) ≤ sector.off
        → found_rows (book ++ entry_of doc (Flown sector) ∷ []) ≡ found_rows book }
{}

/// They stand with the deferrals, in their order.
pub fn found_cycles_are_of_deferrals()
    ensures { (book : List Entry)
        → map (λ (row : Deferral3Row). row.deferral) (found_rows book) ≡ deferral_rows book }
{}

/// They fit their columns where the rows of the registers do.
pub fn found_cycles_fit()
    ensures { (book : List Entry) → IsBook book → FitRegisters book
        → All FitsDeferral3 (found_rows book) }
{}
