//! `migrate` over a file.
//!
//! The database is opened alone, since an office would move the file to the end. So what stops the move is a fault
//! behind the opening, status 4, but for a file that is none of an office or of a newer layout, which an opening tells
//! alike, status 5.
ghost use Rattle.sqlite.specs.Held.{state};
ghost use Rattle.mx_files.specs.Answered.{Answers};
ghost use Rattle.mx_jobs.specs.upkeep.Moved.{Moves};
ghost use Rattle.mx_output.specs.printed.Moved.{IsPointLine, PrintsPoint};

use crate::opening::{ended, stop_of};
use mx_database::{Left, Opening, Work, work_in_file};
use mx_jobs::upkeep::move_on;
use mx_output::endings::{Ending, Stop};
use sqlite::{Alter, Connection};

// A file is moved on by at most so many commits.
#[derive(Clone, Copy)]
struct Moving {
    steps: u32,
}

impl Work for Moving {
    type Done = Result<Ending, Stop>;

    ghost gives = { λ moving. Answers IsPointLine 4 };

    ghost keeps = { λ g moving was now old new result.
        Moves g moving.steps was (state g now) (PrintsPoint old new result) };

    fn work<S: Alter + Drop>(
        &self,
        rt: &HostRuntime,
        conn: Connection<S>,
        out: &mut Vec<u8>,
    ) -> Left<S, Result<Ending, Stop>> {
        let mut conn = conn;
        let done = move_on(rt.alloc(), &mut conn, self.steps, out);
        Left {
            conn,
            is_to_be_closed: done.is_ok(),
            done,
        }
    }
}

/// Moves a file on to the newest layout by at most so many commits, and appends the point that it is at then. No office is
/// opened, which would move it to the end.
pub fn migrate_file(
    rt: &HostRuntime,
    file: &str,
    steps: u32,
    out: &mut Vec<u8>,
) -> Result<Ending, Stop>
    ensures answers { Answers IsPointLine 4 out.old.items out.new.items result }
{
    match work_in_file(rt, file, Opening::There, &Moving { steps }, out) {
        Ok(worked) => ended(worked),
        Err(why) => Err(stop_of(why)),
    }
}
