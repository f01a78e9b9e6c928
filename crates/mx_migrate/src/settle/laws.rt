//! The law of how many commits an opening needs. The function does nothing; its contract is the law, and the checker
//! proves it.
ghost use Rattle.std.specs.Prelude.{◌≡◌, ◌≤◌, ◌<◌, List};
ghost use Rattle.mx_base.specs.Settled.{settled};
ghost use Rattle.mx_base.specs.declared.point.Point.{Point};
ghost use Rattle.mx_book.specs.Book.{IsBook};
ghost use Rattle.mx_book.specs.commands.Act.{Entry};
ghost use Rattle.mx_book_tables.specs.stands.Schemas.{IsUpTo};
ghost use Rattle.mx_migrate.specs.declared.settle.settling.TheConstants.{ENOUGH_COMMITS};
ghost use Rattle.mx_migrate.specs.settle.Place.{IsBehind};
ghost use Rattle.mx_migrate.specs.settle.Ranks.{points_before};
ghost use Rattle.mx_registers.specs.points.Commits.{commits_of_both_moves};

/// No file needs more commits than an opening makes, on the way to layout 3 too, which is that of both moves. Whatever
/// rows it has: of two points the later has more before it, and before layout 3 there are fewer points than an opening
/// makes commits. Of a book: so many commits take both moves.
pub fn openings_make_enough_commits()
    ensures rises { (at to : Point) → IsUpTo 3 at → IsUpTo 3 to → IsBehind at to
        → points_before at < points_before to }
    ensures few { points_before (settled 3) ≤ ENOUGH_COMMITS }
    ensures book { (book : List Entry) → IsBook book → commits_of_both_moves book ≤ ENOUGH_COMMITS }
{}
