//! A step of a move, and its commit.
//!
//! A step is handed what its caller has read to know that it is due, the mark and the component, and reads again only
//! what it moves. Whether it is due is a premise, since only a book says so; over the tables of a file that is due for
//! another step it still loses no row.
ghost use Rattle.std.specs.Prelude.{◌≡◌, false, List, MatchResult};
ghost use Rattle.sqlite.specs.Tree.{Trees};
ghost use Rattle.sqlite.specs.Held.{state};
ghost use Rattle.mx_book.specs.commands.Act.{Entry};
ghost use Rattle.mx_base.specs.declared.point.Point.{Point};
ghost use Rattle.mx_layout.specs.TableName.{TableName};
ghost use Rattle.mx_book_tables.specs.stands.Stands.{StandsAt};
ghost use Rattle.mx_moves.specs.steps.Next.{next_in_move};
ghost use Rattle.mx_migrate.specs.Steps.{Runs, CommitsStep, LeavesOneBook};

use mx_base::Point;
use mx_faults::moving::{MoveFault, fault_of};
use mx_layout::TableFault;
use sqlite::{Alter, Connection, Transaction};
use std::alloc::Global;

/// A step of the move from a layout to the next: its statements, made in one transaction.
pub trait Migrate {
    // The points that the step is for.
    ghost IsAt: { Self → Point → Type 0 };

    // At such a point of this book there is something for the step to do.
    ghost IsDue: { Self → Point → List Entry → Type 0 };

    // What it makes of the tables of a file at the one point, which then is at the other, whatever rows they have.
    ghost Makes: { Self → Point → Point → Trees → Trees → Type 0 };

    // The tables are such that it can't be made, and the table with this name is why.
    ghost IsOff: { Self → Point → TableName → Trees → Type 0 };

    /// The statements of the step, and the row of the point that they lead to, which is answered. All room is made
    /// before the first statement that writes.
    ///
    /// # Errors
    /// `Memory` for want of memory before the first statement that writes, and `Damaged` with a table that is off:
    /// nothing was written. `Store` for each other error.
    fn run<S: Alter>(&self, alloc: Global, tx: &mut Transaction<'_, S>) -> Result<Point, TableFault>
        ensures same_reference { tx.new.conn.ghost_name ≡ tx.old.conn.ghost_name }
        ensures runs { Runs (IsAt self.now) (Makes self.now) (IsOff self.now)
            (state S.Store tx.old.conn.now) (state S.Store tx.new.conn.now) result };

    // What it makes of tables that stand for a book stands for the same book, at the next point of the move that the file
    // is in.
    ghost moves: { (step : Self) (at to : Point) (book : List Entry) (old new : Trees)
        → IsAt step at → IsDue step at book → StandsAt at old book → Makes step at to old new
        → (to ≡ next_in_move at book) × StandsAt to new book };

    // Tables that stand for a book are none that are off.
    ghost whole: { (step : Self) (at : Point) (book : List Entry) (name : TableName) (trees : Trees)
        → IsAt step at → IsDue step at book → StandsAt at trees book
        → IsOff step at name trees → ⊥ };
}

// The point that the statements of a step lead to, where all ran. Else `Store`: want of memory among them may come behind
// one that ran.
pub(crate) fn reached(ran: Result<(), TableFault>, to: Point) -> Result<Point, TableFault>
    ensures { MatchResult ran (λ _. result ≡ Ok to) (λ _. result ≡ Err TableFault.Store) }
{
    match ran {
        Ok(()) => Ok(to),
        Err(_) => Err(TableFault::Store),
    }
}

/// Makes a step, in a transaction of its own, and commits it. Whatever the answer is, a crash leaves the file at the
/// point from before, or at the next one, and standing for the same book.
///
/// # Errors
/// `Memory` for want of memory, and `Damaged` with a table whose rows are such that the step can't be made: then nothing
/// changed. `Store` for each other error, also of the commit, which may have been made.
pub fn commit_step<S: Alter, M: Migrate>(
    alloc: Global,
    conn: &mut Connection<S>,
    step: &M,
) -> Result<Point, MoveFault>
    requires { conn.old.in_transaction ≡ false }
    ensures idle { conn.new.in_transaction ≡ false }
    ensures commits { CommitsStep (M.IsAt step.now) (M.IsDue step.now) (M.Makes step.now)
        (M.IsOff step.now) (state S.Store conn.old) (state S.Store conn.new) result }
    ensures crash { LeavesOneBook (M.IsAt step.now) (M.IsDue step.now)
        (state S.Store conn.old) (state S.Store conn.new) }
{
    let mut tx = conn.transaction();
    let at = match step.run(alloc, &mut tx) {
        Ok(at) => at,
        Err(fault) => return Err(fault_of(fault)),
    };
    match tx.commit() {
        Ok(_) => Ok(at),
        Err(_) => Err(MoveFault::Store),
    }
}
