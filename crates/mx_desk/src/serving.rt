//! An open office at a listener, one connection after the other.
ghost use Rattle.std.specs.Prelude.{◌≡◌, ◌++◌, IfErr, OnOk};
ghost use Rattle.mx_book.specs.Run.{book_run};
ghost use Rattle.mx_jobs.specs.Office.{office_state, IsReady, StandsFor};
ghost use Rattle.mx_desk.specs.Served.{KeepsBook, LeavesBook, LeavesSome, StopsServing};
ghost use Rattle.mx_http.specs.responses.Serving.{served_line};

use crate::serve::serve_one;
use mx_http::responses::{append_served, take_the_rest};
use mx_jobs::office::{Fault, Office};
use sqlite::Alter;
use std::alloc::Global;
use std::net::{OpenListener, TcpListener};

// Takes the next connection and serves it. What fails of it alone is its peer's to see: a connection that can't be taken
// counts too.
fn serve_next<S: Alter>(alloc: Global, office: &mut Office<S>, listener: &TcpListener)
    ensures kept { KeepsBook office.old office.new }
    ensures crash { LeavesBook office.old office.new }
{
    if let Ok((stream, _)) = listener.accept() {
        let (mut reader, mut writer) = (&stream, &stream);
        let _ = serve_one(alloc, office, &mut reader, &mut writer);
        take_the_rest(&stream);
    }
}

/// Serves so many connections at a listener, one after the other, and appends how many they were. It ends before that, with
/// `Store`, once the office has to be opened again; with `Memory` where memory runs out for what is appended.
pub fn serve_on<S: Alter>(
    alloc: Global,
    office: &mut Office<S>,
    listener: &TcpListener,
    count: u32,
    out: &mut Vec<u8>,
) -> Result<(), Fault>
    ensures served { OnOk result (out.new.items ≡ out.old.items ++ served_line count) }
    ensures stops { IfErr result (λ fault. StopsServing fault office.new) }
    ensures ready { IsReady office.old
        → OnOk result (IsReady office.new) }
    ensures kept { KeepsBook office.old office.new }
    ensures crash { (book : _) → StandsFor office.old book → (commands : _)
        × LeavesSome (book_run book commands) (office_state office.new) }
{
    for _ in 0..count {
        serve_next(alloc, office, listener);
        if office.needs_reopen() {
            return Err(Fault::Store);
        }
    }
    match append_served(out, count) {
        Ok(()) => Ok(()),
        Err(_) => Err(Fault::Memory),
    }
}
