//! What is done over the database in a file.
ghost use Rattle.std.specs.Prelude.{◌≡◌, ◌≢◌, ℕ, List, false, IfOk, IfErr, OnErr};
ghost use Rattle.sqlite.specs.Store.{Ghosts};
ghost use Rattle.sqlite.specs.Held.{Held};

use crate::opening::{Opening, Unopened, open_file};
use sqlite::{Alter, Connection};

/// What work on a database leaves of it, and what came of it.
pub struct Left<S: Alter, T> {
    /// The database, as the work left it.
    pub conn: Connection<S>,
    /// Whether the database is to be closed; one that isn't is let go as it is.
    pub is_to_be_closed: bool,
    /// What came of the work.
    pub done: T,
}

/// What is done over an open database, whatever its store.
pub trait Work {
    /// What comes of it.
    type Done;

    // What is appended, and what comes of it, are right for what is done.
    ghost gives: { Self → List ℕ → List ℕ → Self.Done → Type 0 };

    // What becomes of the database is right for what is done, for what is appended, and for what comes of it.
    ghost keeps: { {S : Type 0} (g : Ghosts S) → Self → Held S → Held S
        → List ℕ → List ℕ → Self.Done → Type 0 };

    /// Works on an open database, and hands it back. What is appended is said apart from what becomes of the database, so that the
    /// proof of a file carries nothing of the tables.
    fn work<S: Alter + Drop>(
        &self,
        rt: &HostRuntime,
        conn: Connection<S>,
        out: &mut Vec<u8>,
    ) -> Left<S, Self::Done>
        requires { conn.in_transaction ≡ false }
        ensures given { gives self.now out.old.items out.new.items result.done }
        ensures kept { keeps S.Store self.now conn result.conn
            out.old.items out.new.items result.done };
}

/// What came of the work on a file.
#[derive(Drop)]
pub struct Worked<T> {
    /// What came of it.
    pub done: T,
    /// Whether the file was closed without a fault, or had been let go before.
    pub is_closed: bool,
}

/// Works on the database in a file, and closes it where it is to be closed. Where none was opened nothing is appended.
pub fn work_in_file<W: Work>(
    rt: &HostRuntime,
    file: &str,
    opening: Opening,
    work: &W,
    out: &mut Vec<u8>,
) -> Result<Worked<W::Done>, Unopened>
    ensures given { IfOk result
        (λ worked. W.gives work.now out.old.items out.new.items worked.done) }
    ensures opened { opening ≡ Opening.OrMade → IfErr result (λ why. why ≢ Unopened.Nothing) }
    ensures unopened { OnErr result (out.new ≡ out.old) }
{
    let conn = open_file(rt, file, opening)?;
    let Left {
        conn,
        is_to_be_closed,
        done,
    } = work.work(rt, conn, out);
    let is_closed = !is_to_be_closed || conn.close().is_ok();
    Ok(Worked { done, is_closed })
}
