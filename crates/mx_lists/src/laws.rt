//! Laws of the lists of all aircraft. Each function does nothing; its contract is the law, and the checker proves it.
ghost use Rattle.std.specs.Prelude.{◌≡◌, ℕ, List};
ghost use Rattle.mx_book.specs.Book.{IsBook};
ghost use Rattle.mx_book.specs.commands.Act.{Entry};
ghost use Rattle.mx_lists.specs.Fleet.{deferred, dues_of, fleet, outlook, reached_of, rows_with_tail};
ghost use Rattle.mx_lists.specs.LimitList.{limit_rows};

/// Of what is due on all aircraft, the rows of one registration are the rows of that aircraft's due list, in their order.
pub fn the_fleet_has_each_due_list()
    ensures { (book : List Entry) (tail : List ℕ) (day : ℕ) → IsBook book
        → rows_with_tail tail (fleet book day).rows ≡ dues_of book day tail }
{}

/// Of what will be due on all aircraft, the rows of one registration are those of that aircraft's forecast, in their order.
pub fn the_outlook_has_each_forecast()
    ensures { (book : List Entry) (tail : List ℕ) (day days minutes cycles : ℕ) → IsBook book
        → rows_with_tail tail (outlook book day days minutes cycles).rows
        ≡ reached_of book day days minutes cycles tail }
{}

/// Of the limits of all aircraft, the rows of one registration are the limits of that aircraft, in their order.
pub fn the_deferred_have_the_limits_of_each()
    ensures { (book : List Entry) (tail : List ℕ) (day : ℕ)
        → rows_with_tail tail (deferred book day).rows ≡ limit_rows book tail day }
{}
