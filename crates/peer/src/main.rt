//! The program `peer`: a server to try dialogues on. It listens on the loopback, takes one
//! connection and does with it what its arguments say.
#![tactic(auto)]

use serving::{Part, serve};
use std::net::{Net, TcpListener, TcpStream};
use std::process::ExitCode;
use std::rt::Env;
use std::{env, io};

/// The status where the arguments are not those of a call.
const USAGE: u8 = 2;

/// Ends with 0 once its part is done, with 2 for other arguments, and with 1 where the system
/// refuses something.
fn main(rt: HostRuntime) -> ExitCode {
    match played(&rt) {
        Ok(status) => ExitCode::from(status),
        Err(_) => ExitCode::FAILURE,
    }
}

/// Plays the part that the arguments name, and gives the status.
fn played<R>(rt: &R) -> io::Result<u8>
where
    R: Env + Net<Listener = TcpListener, Stream = TcpStream> + Print + AllocGlobal,
{
    let words = env::args(rt)?.skip(1).collect::<Vec<_>>(rt.alloc())?;
    let Some(part) = Part::read(&words) else {
        return Ok(USAGE);
    };
    serve(rt, part)?;
    Ok(0)
}
