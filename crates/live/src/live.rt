//! The live world.

ghost use Rattle.std.specs.Prelude.{◌≡◌, [], None};
ghost use Rattle.std.specs.Io.KnownBytes.{Appends};
ghost use Rattle.live.specs.Live.{IsWhy, Lives, Logs, Programs, Works};
ghost use Rattle.live.specs.Outputs.{err_text, out_text};

use crate::arriving::wait;
use crate::calls::System;
use crate::host::Host;
use crate::outputs::{open_log, write_log, write_text};
use crate::peers::Peers;
use crate::processes::{reap, spawn};
use crate::sending::send;
use crate::sockets::connect;
use acts::{Act, Answer, World};
use std::alloc::Global;
use std::fs::File;
use std::io::{self, Write};
use std::net::{Net, TcpStream};
use std::process::{Processes, SystemProcess};
use std::rt::{Clock, Files};

/// The live world: it starts programs over pipes, connects to servers over TCP, and writes what
/// goes out to two writers.
pub struct Live<S: System, O, E> {
    system: S,
    out: O,
    err: E,
    log: Option<S::Log>,
    /// Why the last act was refused or failed, where the system said so.
    refusal: Option<io::Error>,
    peers: Peers<S::Link>,
    /// The programs that were not waited for yet.
    programs: Vec<S::Program>,
}

impl<S: System + Drop, O: Drop, E: Drop> Drop for Live<S, O, E> {
    fn drop(self) {
        let Live {
            system: _,
            out: _,
            err: _,
            log: _,
            refusal: _,
            peers: _,
            programs: _,
        } = self;
    }
}

impl<'a, R, O: Write + Drop, E: Write + Drop> Live<Host<'a, R>, O, E>
where
    R: Net<Stream = TcpStream>
        + Processes<Started = SystemProcess>
        + Files<File = File>
        + Clock
        + AllocGlobal,
{
    /// A world in which nothing is open. Errors: memory is refused, or the system gives no poll.
    pub fn new(rt: &'a R, out: O, err: E) -> io::Result<Live<Host<'a, R>, O, E>> {
        Ok(Live::over(Host::new(rt)?, out, err))
    }
}

impl<S: System + Drop, O: Write + Drop, E: Write + Drop> Live<S, O, E> {
    /// A world over a system, in which nothing is open.
    pub fn over(system: S, out: O, err: E) -> Live<S, O, E>
        ensures system { result.system ≡ system }
        ensures out { result.out ≡ out }
        ensures err { result.err ≡ err }
        ensures log { result.log ≡ None }
        ensures peers { result.peers.list.items ≡ [] }
        ensures programs { result.programs.items ≡ [] }
    {
        let alloc = system.alloc();
        Live {
            system,
            out,
            err,
            log: None,
            refusal: None,
            peers: Peers::new(alloc),
            programs: Vec::new(alloc),
        }
    }

    /// The system of the world.
    pub fn system(&self) -> &S
        ensures { result.now ≡ self.now.system }
    {
        &self.system
    }

    /// Why the last act was refused or failed, in the words of the system: none where it was
    /// neither, or where the system was not asked, as where nothing is open under an id. Of acts
    /// that the caller performs itself it is what the caller notes.
    pub fn refusal(&self) -> Option<io::Error>
        ensures { result ≡ self.now.refusal }
    {
        self.refusal
    }

    /// Notes why an act was refused or failed that the caller performed itself, in place of what
    /// was known of the act before; none where it was neither.
    pub fn note(&mut self, why: Option<io::Error>)
        ensures refusal { self.new.refusal ≡ why }
        ensures system { self.new.system ≡ self.old.system }
        ensures out { self.new.out ≡ self.old.out }
        ensures err { self.new.err ≡ self.old.err }
        ensures log { self.new.log ≡ self.old.log }
        ensures peers { self.new.peers ≡ self.old.peers }
        ensures programs { self.new.programs ≡ self.old.programs }
    {
        self.refusal = why;
    }
}

impl<S: System + Drop, O: Write + Drop, E: Write + Drop> World<Global> for Live<S, O, E> {
    // Each answer fits, the two writers and the log get what went out by it, and nothing else, and
    // what was read from the links and written to them, and which programs were started and which
    // servers called, is what the acts and their answers say. Why the last act was refused is
    // known, and of no other act.
    ghost step = { λ before act answer after. Lives act answer
        × Appends (O.contents before.out) (O.contents after.out) (out_text act answer)
        × Appends (E.contents before.err) (E.contents after.err) (err_text act answer)
        × Logs S.Log.contents S.holds act answer before.system before.log after.log
        × Programs S.Program.owner act answer before.programs.items after.programs.items
        × Works S.step S.Link.owner act answer before.system after.system
        before.peers after.peers
        × IsWhy answer None after.refusal };

    #[tactic(auto, using(crate::proofs::Texts::grows_by_none))]
    fn act(&mut self, act: &Act<Global>) -> Answer<Global> {
        let system = &mut self.system;
        let peers = &mut self.peers;
        let why = &mut self.refusal;
        *why = None;
        match act {
            Act::Out(text) => write_text(&mut self.out, text, why),
            Act::Err(text) => write_text(&mut self.err, text, why),
            Act::Log(text) => write_log(&mut self.log, text, why),
            Act::Send(id, text) => send(system, peers, *id, text, why),
            Act::Spawn(id, words) => spawn(system, peers, &mut self.programs, *id, words, why),
            Act::Connect(id, host, port) => connect(system, peers, *id, host, *port, why),
            Act::OpenLog(name, mode) => open_log(system, &mut self.log, name, *mode, why),
            Act::Close(id) => {
                peers.close(*id);
                Answer::Done
            }
            Act::Sleep(seconds) => {
                system.sleep(*seconds);
                Answer::Done
            }
            Act::CloseLog => {
                self.log = None;
                Answer::Done
            }
            Act::Reap(id) => reap(system, &mut self.programs, *id),
            Act::Wait { rows, timer } => wait(system, peers, rows, *timer),
        }
    }
}
