//! Laws of points: what stands for one book, and how many commits a move takes. Each function does nothing; its contract
//! is the law, and the checker proves it.
//!
//! The registers of layout 2 alone do not say what was fitted and removed, so they decide no book: with the spans they
//! do, at each point (`points_decide_the_book`).
ghost use Rattle.std.specs.Prelude.{◌≡◌, ◌+◌, ◌<◌, ℕ, true, List};
ghost use Rattle.mx_book.specs.commands.Act.{Entry};
ghost use Rattle.mx_book.specs.Book.{IsBook};
ghost use Rattle.mx_base.specs.declared.point.Point.{Point};
ghost use Rattle.mx_registers.specs.points.Commits.{commits_left, commits_of_both_moves, commits_of_move, commits_of_second_move, commits_to, point_behind, point_behind_to};
ghost use Rattle.mx_registers.specs.points.Points.{is_before, is_on_way, next_point, next_point_to};
ghost use Rattle.mx_base.specs.Settled.{settled};
ghost use Rattle.mx_registers.specs.points.Same.{GiveSameRegisters};

/// The tables at a point stand for at most one book: books that give the same rows to the registers that there are at
/// a point are one.
pub fn points_decide_the_book()
    ensures { (at : Point) (one other : List Entry) → IsBook one → IsBook other
        → GiveSameRegisters at one other → one ≡ other }
{}

/// Each commit at a point on the way to the newest layout leaves one commit less.
pub fn a_commit_leaves_one_less()
    ensures { (book : List Entry) (at : Point) → IsBook book → is_on_way at ≡ true
        → commits_left at book ≡ commits_left (next_point at book) book + 1 }
{}

/// From layout 1 a file has the newest layout behind so many commits, and before the last of them it is on the way: five,
/// one for each 64 sectors, two for each aircraft and three for each component.
pub fn a_move_takes_so_many_commits()
    ensures reached { (book : List Entry) → IsBook book
        → point_behind (commits_of_move book) (settled 1) book ≡ settled 2 }
    ensures on_way { (book : List Entry) (commits : ℕ) → IsBook book
        → commits < commits_of_move book
        → is_on_way (point_behind commits (settled 1) book) ≡ true }
    ensures left { (book : List Entry) → IsBook book
        → commits_left (settled 1) book ≡ commits_of_move book }
{}

/// On the way to layout 3 too each commit leaves one less, in the move from layout 1 and in that from layout 2.
pub fn a_commit_leaves_one_less_to_layout_3()
    ensures { (book : List Entry) (at : Point) → IsBook book → is_before 3 at ≡ true
        → commits_to 3 at book ≡ commits_to 3 (next_point_to 3 at book) book + 1 }
{}

/// From layout 1 a file has layout 3 behind the commits of both moves, and before the last of them it is on the way. The
/// second move takes three, one for each 64 deferrals, and one for each aircraft and each component.
pub fn moves_take_so_many_commits()
    ensures reached { (book : List Entry) → IsBook book
        → point_behind_to 3 (commits_of_both_moves book) (settled 1) book ≡ settled 3 }
    ensures on_way { (book : List Entry) (commits : ℕ) → IsBook book
        → commits < commits_of_both_moves book
        → is_before 3 (point_behind_to 3 commits (settled 1) book) ≡ true }
    ensures second { (book : List Entry) → IsBook book
        → point_behind_to 3 (commits_of_second_move book) (settled 2) book ≡ settled 3 }
    ensures left { (book : List Entry) → IsBook book
        → commits_to 3 (settled 2) book ≡ commits_of_second_move book }
{}
