//! The system itself. Each method is a call of `std` or of the poll, and what these do is taken on
//! trust.

ghost use Rattle.std.specs.Prelude.{⊤, None};

use crate::calls::{Owned, System};
use crate::link::Look;
use crate::polling::Polling;
use acts::{Id, LogMode};
use std::alloc::Global;
use std::fs::{File, OpenOptions};
use std::io::{self, ErrorKind, PipeReader, PipeWriter, Read, Write, pipe};
use std::net::{Net, TcpStream};
use std::os::fd::OwnedFd;
use std::process::{Child, Command, Processes, SystemProcess};
use std::rt::{Clock, Files};
use std::thread;
use std::time::{Duration, Instant};

/// The system of this process.
pub struct Host<'a, R> {
    rt: &'a R,
    polling: Polling,
}

impl<R> Drop for Host<'_, R> {
    fn drop(self) {
        let Host { rt: _, polling: _ } = self;
    }
}

/// The open ends that an id is written to and read from.
pub struct Wire {
    id: Id,
    pub ends: Ends,
}

impl Drop for Wire {
    fn drop(self) {
        let Wire { id: _, ends: _ } = self;
    }
}

/// The open ends of a program or a server.
#[derive(Drop)]
pub enum Ends {
    /// The two pipes of a program.
    Program {
        input: PipeWriter,
        output: PipeReader,
    },
    /// The connection to a server.
    Server(TcpStream),
}

/// A program that was started under an id and not waited for yet.
pub struct Started {
    id: Id,
    child: Child<SystemProcess>,
}

impl Drop for Started {
    fn drop(self) {
        let Started { id: _, child: _ } = self;
    }
}

impl Owned for Wire {
    ghost owner = { λ wire. wire.id };

    fn id(&self) -> Id {
        self.id
    }
}

impl Owned for Started {
    ghost owner = { λ started. started.id };

    fn id(&self) -> Id {
        self.id
    }
}

impl<'a, R: Net + AllocGlobal> Host<'a, R> {
    /// The system. Errors: memory is refused, or the system gives no poll.
    pub fn new(rt: &'a R) -> io::Result<Host<'a, R>> {
        Ok(Host {
            rt,
            polling: Polling::new(rt)?,
        })
    }
}

impl<'a, R> System for Host<'a, R>
where
    R: Net<Stream = TcpStream>
        + Processes<Started = SystemProcess>
        + Files<File = File>
        + Clock
        + AllocGlobal,
{
    type Command = Command;

    type Link = Wire;

    type Program = Started;

    type Log = File;

    // What the system does is not modelled.
    ghost step = { λ _ _ _. ⊤ };

    ghost holds = { λ _ _. None };

    fn alloc(&self) -> Global {
        self.rt.alloc()
    }

    fn command(&mut self, name: &str) -> io::Result<Command> {
        Ok(Command::new(self.rt.alloc(), name)?)
    }

    fn arg(&mut self, command: &mut Command, word: &str) -> io::Result<()> {
        command.arg(word)?;
        Ok(())
    }

    fn pipes(&mut self, id: Id, command: &mut Command) -> io::Result<Wire> {
        let (stdin, input) = pipe(self.rt)?;
        let (output, stdout) = pipe(self.rt)?;
        command.stdin(stdin);
        command.stdout(stdout);
        end_waits(OwnedFd::from(input.try_clone()?))?;
        end_waits(OwnedFd::from(output.try_clone()?))?;
        Ok(Wire {
            id,
            ends: Ends::Program { input, output },
        })
    }

    fn start(&mut self, id: Id, command: &mut Command) -> io::Result<(Started, u64)> {
        let child = command.spawn(self.rt)?;
        let number = u64::from(child.id());
        Ok((Started { id, child }, number))
    }

    fn wait(&mut self, program: &mut Started) -> io::Result<Option<i32>> {
        self.polling.doubt();
        Ok(program.child.wait()?.code())
    }

    fn connect(&mut self, id: Id, host: &str, port: u16) -> io::Result<Wire> {
        self.polling.doubt();
        let stream = TcpStream::connect(self.rt, (host, port))?;
        stream.set_nodelay(true)?;
        stream.set_nonblocking(true)?;
        Ok(Wire {
            id,
            ends: Ends::Server(stream),
        })
    }

    fn open_log(&mut self, name: &str, mode: LogMode) -> io::Result<File> {
        let mut how = OpenOptions::new();
        how.create(true);
        match mode {
            LogMode::Append => how.append(true),
            LogMode::Truncate => how.write(true).truncate(true),
        };
        how.open(self.rt, name)
    }

    // A link that is known to be silent is not read: the answer is that of a read.
    fn read(&mut self, link: &mut Wire, room: &mut [u8]) -> io::Result<usize> {
        if self.polling.is_silent(link.id) {
            return Err(io::Error::from(ErrorKind::WouldBlock));
        }
        let found = match &mut link.ends {
            Ends::Program { output, .. } => output.read(room),
            Ends::Server(stream) => stream.read(room),
        };
        self.polling.note(link.id, &found);
        found
    }

    fn write(&mut self, link: &mut Wire, text: &[u8]) -> io::Result<usize> {
        self.polling.doubt();
        match &mut link.ends {
            Ends::Program { input, .. } => input.write(text),
            Ends::Server(stream) => stream.write(text),
        }
    }

    // A wait that its timer may end asks for the time before it looks, so it looks anew.
    fn now(&mut self) -> io::Result<Instant> {
        self.polling.doubt();
        Instant::now(self.rt)
    }

    fn sleep(&mut self, seconds: u64) {
        self.polling.doubt();
        thread::sleep(self.rt, Duration::from_secs(seconds));
    }

    fn watch(&mut self, link: &Wire) -> io::Result<()> {
        self.polling.watch(link)
    }

    fn pause(&mut self, time: Option<Duration>) -> io::Result<()> {
        self.polling.pause(time)
    }

    fn pause_to_write(&mut self, link: &Wire, found: Look) -> io::Result<()> {
        self.polling.pause_to_write(link, found)
    }

    fn peek(&mut self, link: &Wire) -> io::Result<Look> {
        self.polling.peek(&link.ends)
    }

    fn takes_soon(&mut self, link: &Wire) -> io::Result<bool> {
        self.polling.takes_soon(&link.ends)
    }
}

/// Makes calls on an end of a pipe not wait. The mode belongs to the open file, so that a second
/// descriptor of it, which is closed here, sets the mode for the first; and the call that sets it
/// for sockets does so for a pipe as well.
fn end_waits(second: OwnedFd) -> io::Result<()> {
    TcpStream::from(second).set_nonblocking(true)
}
