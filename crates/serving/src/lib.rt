//! A server on the loopback, for one connection: what the program `peer` does.
#![tactic(auto)]

mod part;
#[cfg(test)]
mod tests;

pub use part::Part;
use std::io;
use std::net::{Net, TcpListener, TcpStream};

/// Prints the port that the system picks, plays the part with the first client that connects, and
/// prints how many bytes came, where the part counts them.
pub fn serve<R>(rt: &R, part: Part<'_>) -> io::Result<()>
where
    R: Net<Listener = TcpListener, Stream = TcpStream> + Print + AllocGlobal,
{
    let listener = TcpListener::bind(rt, "127.0.0.1:0")?;
    let port = listener.local_addr()?.port();
    println!(rt; "{port}")?;
    let (stream, _) = listener.accept()?;
    if let Some(heard) = part.play(stream)? {
        println!(rt; "{heard}")?;
    }
    Ok(())
}
