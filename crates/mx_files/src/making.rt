//! `init` over a file.
//!
//! Room for its line is made once the file is open, so where memory runs out there an empty file may be left, which
//! counts as none. Where the database can't be closed behind the commit `init` answers `fault store` and prints
//! nothing; the book is there, and a second `init` says `fault exists`.
ghost use Rattle.std.specs.Prelude.{◌≡◌, ◌++◌, codes, OnErr, IfOk, IfErr};
ghost use Rattle.mx_files.specs.Answered.{TellsMade};
ghost use Rattle.mx_files.specs.Kept.{MakesBook};
ghost use Rattle.mx_output.specs.endings.Status.{stop_status};

use crate::opening::stop_of;
use mx_database::{Left, Opening, Work, Worked, work_in_file};
use mx_jobs::{CREATED, make_book};
use mx_layout::TableFault;
use mx_output::endings::{Ending, Stop};
use sqlite::{Alter, Connection};

// The tables of an empty book are made, and the database is handed back; where none are made it is let go as it is.
#[derive(Clone, Copy)]
struct Making;

impl Work for Making {
    type Done = Result<Ending, Stop>;

    ghost gives = { λ making. TellsMade };

    ghost keeps = { λ g making was now old new. MakesBook g was now };

    fn work<S: Alter + Drop>(
        &self,
        _rt: &HostRuntime,
        conn: Connection<S>,
        out: &mut Vec<u8>,
    ) -> Left<S, Result<Ending, Stop>> {
        let mut conn = conn;
        if out.reserve(CREATED.len()).is_err() {
            return Left {
                conn,
                is_to_be_closed: false,
                done: Err(Stop::MakeMemory),
            };
        }
        match make_book(&mut conn, out) {
            Ok(()) => Left {
                conn,
                is_to_be_closed: true,
                done: Ok(Ending::Done),
            },
            Err(stop) => Left {
                conn,
                is_to_be_closed: false,
                done: Err(stop),
            },
        }
    }
}

/// Makes an empty book in a file, and appends `created`.
pub fn init_file(rt: &HostRuntime, file: &str, out: &mut Vec<u8>) -> Result<Ending, Stop>
    ensures done { IfOk result (λ ending. (ending ≡ Ending.Done)
        × (out.new.items ≡ out.old.items ++ codes "created\n")) }
    ensures unprinted { OnErr result (out.new.items ≡ out.old.items) }
    ensures status { IfErr result (λ stop. stop_status stop ≡ 5) }
{
    let before = out.len();
    match work_in_file(rt, file, Opening::OrMade, &Making, out) {
        Ok(
            Worked {
                done: Ok(_),
                is_closed: false,
            },
        ) => {
            out.truncate(before);
            Err(Stop::Create(TableFault::Store))
        }
        Ok(worked) => worked.done,
        Err(why) => Err(stop_of(why)),
    }
}
