//! `serve`: connections at a port of the loopback, with the office in a file.
ghost use Rattle.std.specs.Prelude.{◌≡◌, ◌≤◌, ◌++◌, IfOk, IfErr};
ghost use Rattle.mx_cli.specs.Serving.{ServesAt};
ghost use Rattle.mx_http.specs.responses.Serving.{served_line};
ghost use Rattle.mx_output.specs.endings.Status.{stop_status};
ghost use Rattle.mx_output.specs.declared.endings.ending.Ending.TheVariants.{Done};

use mx_desk::serve_on;
use mx_files::Asked;
use mx_office::Office;
use mx_output::endings::{Ending, Stop};
use sqlite::Alter;
use std::net::{Ipv4Addr, SocketAddr, SocketAddrV4, TcpListener};

// Serves connections at a port of the loopback. The line of a fault is printed at the end, as that of each word.
fn serve_at<S: Alter>(
    rt: &HostRuntime,
    office: &mut Office<S>,
    port: u16,
    count: u32,
    out: &mut Vec<u8>,
) -> Result<Ending, Stop>
    ensures shown { IfOk result (λ ending. (out.new.items ≡ out.old.items ++ served_line count)
        × (ending ≡ Ending.Done)) }
    ensures served { ServesAt office.old office.new result }
    ensures status { IfErr result (λ stop. 4 ≤ stop_status stop) }
{
    let address = SocketAddr::V4(SocketAddrV4::new(Ipv4Addr::LOCALHOST, port));
    let Ok(listener) = TcpListener::bind(rt, address) else {
        return Err(Stop::Net);
    };
    match serve_on(rt.alloc(), office, &listener, count, out) {
        Ok(()) => Ok(Ending::Done),
        Err(fault) => Err(Stop::Office(fault)),
    }
}

/// Answers to so many connections at a port of the loopback are asked for.
#[derive(Clone, Copy)]
pub(crate) struct Served {
    pub(crate) port: u16,
    pub(crate) count: u32,
}

impl Asked for Served {
    ghost is_answer = { λ served text ending. (text ≡ served_line served.count) × (ending ≡ Done) };

    ghost keeps = { λ served before after old new. ServesAt before after };

    fn answer<S: Alter>(
        &self,
        rt: &HostRuntime,
        office: &mut Office<S>,
        out: &mut Vec<u8>,
    ) -> Result<Ending, Stop> {
        serve_at(rt, office, self.port, self.count, out)
    }
}
