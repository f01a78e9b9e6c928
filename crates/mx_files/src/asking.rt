//! The office in a file is asked.
//!
//! What is asked meets `Asked`, of which a `Work` is made: so the words stand here, and `serve` in `mx_cli`, above the
//! desk.
ghost use Rattle.std.specs.Prelude.{ℕ, List, Result};
ghost use Rattle.sqlite.specs.Store.{Ghosts};
ghost use Rattle.mx_files.specs.Answered.{Answers};
ghost use Rattle.mx_files.specs.Kept.{OpensAnd};
ghost use Rattle.mx_office.specs.declared.office.Office.{Office};
ghost use Rattle.mx_output.specs.declared.endings.ending.Ending.{Ending};
ghost use Rattle.mx_output.specs.declared.endings.ending.Stop.{Stop};

use crate::opening::{ended, stop_of};
use mx_database::{Left, Opening, Work, work_in_file};
use mx_office::{Office, open_office};
use mx_output::endings::{Ending, Stop};
use sqlite::{Alter, Connection};

/// What is asked of the office in a file, whatever its store.
pub trait Asked {
    // The text and the ending are right for what is asked.
    ghost is_answer: { Self → List ℕ → Ending → Type 0 };

    // So is what becomes of the office, for the text and for how it ends.
    ghost keeps: { {S : Type 0} {g : Ghosts S} → Self → Office S g → Office S g
        → List ℕ → List ℕ → Result Ending Stop → Type 0 };

    /// Appends what an office answers. What is printed is said apart from what becomes of the tables, so that the proof of a file
    /// carries nothing of them.
    fn answer<S: Alter>(
        &self,
        rt: &HostRuntime,
        office: &mut Office<S>,
        out: &mut Vec<u8>,
    ) -> Result<Ending, Stop>
        ensures answers { Answers (is_answer self.now) 3 out.old.items out.new.items result }
        ensures kept { keeps self.now office.old office.new
            out.old.items out.new.items result };
}

// The office in a database is opened and asked, and the database is handed back; where none was opened it is let go as it is.
#[derive(Clone, Copy)]
struct Asking<'a, A> {
    asked: &'a A,
}

impl<'a, A: Asked> Work for Asking<'a, A> {
    type Done = Result<Ending, Stop>;

    ghost gives = { λ asking. Answers (A.is_answer asking.asked.now) 3 };

    ghost keeps = { λ g asking was now old new result. OpensAnd g
        (λ before after. A.keeps asking.asked.now before after old new result)
        was now old new result };

    fn work<S: Alter + Drop>(
        &self,
        rt: &HostRuntime,
        conn: Connection<S>,
        out: &mut Vec<u8>,
    ) -> Left<S, Result<Ending, Stop>> {
        match open_office(rt.alloc(), conn) {
            Ok(mut office) => {
                let done = self.asked.answer(rt, &mut office, out);
                let conn = office.close();
                Left {
                    conn,
                    is_to_be_closed: true,
                    done,
                }
            }
            Err((conn, fault)) => Left {
                conn,
                is_to_be_closed: false,
                done: Err(Stop::Open(fault)),
            },
        }
    }
}

/// Appends what the office in a file answers.
pub fn answer_file<A: Asked>(
    rt: &HostRuntime,
    file: &str,
    asked: &A,
    out: &mut Vec<u8>,
) -> Result<Ending, Stop>
    ensures answers { Answers (A.is_answer asked.now) 3 out.old.items out.new.items result }
{
    match work_in_file(rt, file, Opening::There, &Asking { asked }, out) {
        Ok(worked) => ended(worked),
        Err(why) => Err(stop_of(why)),
    }
}
