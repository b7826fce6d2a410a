//! What the live world asks of the system.

ghost use Rattle.std.specs.Prelude.{◌≡◌, ℕ, List, Option, option_map, IfOk};
ghost use Rattle.std.specs.Duration.{as_nanos};
ghost use Rattle.std.specs.Io.{ReadsAtMost, WritesAtMost};
ghost use Rattle.std.specs.Time.{instant_nanos};
ghost use Rattle.acts.specs.declared.id.Id.{Id};
ghost use Rattle.live.specs.Calls.{Call, got, told, took};
ghost use Rattle.live.specs.Calls as call;
ghost use Rattle.live.specs.Outputs.{IsOpened};

use crate::link::Look;
use acts::{Id, LogMode};
use std::alloc::Global;
use std::io::{self, Write};
use std::time::{Duration, Instant};

/// What is open or was started under an id.
pub trait Owned {
    /// The id.
    ghost owner: { Self → Id };

    /// The id.
    fn id(&self) -> Id
        ensures { result ≡ owner self.now };
}

/// The system: each method is one call of it, or the few calls that stand for one.
pub trait System {
    /// A program that is about to be started, with its arguments so far.
    type Command: Drop;

    /// What a program or a server is written to by and read from.
    type Link: Owned + Drop;

    /// A program that was started and not waited for yet.
    type Program: Owned + Drop;

    /// A log file that is open.
    type Log: Write + Drop;

    /// Whether the system may go from one state to another by this call.
    ghost step: { Self → Call → Self → Type 0 };

    /// What the file of a name holds, where it is known.
    ghost holds: { Self → List ℕ → Option (List ℕ) };

    /// What allocates memory.
    fn alloc(&self) -> Global;

    /// A command that starts the program of this name, without arguments.
    fn command(&mut self, name: &str) -> io::Result<Self::Command>
        ensures { step self.old (told result (λ _. call.Command name.now)) self.new };

    /// Adds an argument to a command.
    fn arg(&mut self, command: &mut Self::Command, word: &str) -> io::Result<()>
        ensures { step self.old (told result (λ _. call.Arg word.now)) self.new };

    /// Gives a command the ends of two pipes, and makes a link of the other ends, whose reads and
    /// writes never wait.
    fn pipes(&mut self, id: Id, command: &mut Self::Command) -> io::Result<Self::Link>
        ensures owner { IfOk result (λ link. Self.Link.owner link ≡ id) }
        ensures step { step self.old (told result (λ _. call.Pipes id)) self.new };

    /// Starts the program of a command under an id, and says the number of its process.
    fn start(&mut self, id: Id, command: &mut Self::Command) -> io::Result<(Self::Program, u64)>
        ensures owner { IfOk result (λ started. Self.Program.owner started.0 ≡ id) }
        ensures step { step self.old (told result (λ started. call.Start id started.1)) self.new };

    /// Waits for a program to end, and says the status that it ended with; none after a signal.
    fn wait(&mut self, program: &mut Self::Program) -> io::Result<Option<i32>>
        ensures { step self.old (told result (call.Wait (Self.Program.owner program.old)))
            self.new };

    /// Connects to a port of a host under an id, by a link whose reads and writes never wait.
    fn connect(&mut self, id: Id, host: &str, port: u16) -> io::Result<Self::Link>
        ensures owner { IfOk result (λ link. Self.Link.owner link ≡ id) }
        ensures step { step self.old (told result (λ _. call.Connect id host.now port)) self.new };

    /// Opens a log file, which is created where it does not exist.
    fn open_log(&mut self, name: &str, mode: LogMode) -> io::Result<Self::Log>
        ensures opened { IfOk result (λ file.
            IsOpened (holds self.old name.now) mode (Self.Log.contents file)) }
        ensures step { step self.old (told result (λ _. call.OpenLog name.now mode)) self.new };

    /// Reads some bytes from a link to the start of the room, and says how many.
    fn read(&mut self, link: &mut Self::Link, room: &mut [u8]) -> io::Result<usize>
        ensures within { ReadsAtMost result room.new }
        ensures owner { Self.Link.owner link.new ≡ Self.Link.owner link.old }
        ensures step { step self.old (call.Read (Self.Link.owner link.old) (got result room.new))
            self.new };

    /// Writes some bytes from the front of a text to a link, and says how many.
    fn write(&mut self, link: &mut Self::Link, text: &[u8]) -> io::Result<usize>
        ensures within { WritesAtMost result text.now }
        ensures owner { Self.Link.owner link.new ≡ Self.Link.owner link.old }
        ensures step { step self.old (call.Write (Self.Link.owner link.old) (took result text.now))
            self.new };

    /// The time of the clock.
    fn now(&mut self) -> io::Result<Instant>
        ensures { step self.old (told result (λ time. call.Now (instant_nanos time))) self.new };

    /// Sleeps for this many seconds.
    fn sleep(&mut self, seconds: u64)
        ensures { step self.old (call.Sleep seconds) self.new };

    /// Makes pauses end when something new can be read from a link, until the link is dropped.
    fn watch(&mut self, link: &Self::Link) -> io::Result<()>
        ensures { step self.old (told result (λ _. call.Poll (Self.Link.owner link.now)))
            self.new };

    /// Waits until something new can be read from any link, or a signal comes, or the time is up.
    fn pause(&mut self, time: Option<Duration>) -> io::Result<()>
        ensures { step self.old (told result (λ _. call.Pause (option_map as_nanos time)))
            self.new };

    /// Waits until a link can be written to, or something new can be read from any link. A link
    /// that was found at its end is not waited for to be read, since its end would never be new.
    fn pause_to_write(&mut self, link: &Self::Link, found: Look) -> io::Result<()>
        ensures { step self.old (told result (λ _. call.Poll (Self.Link.owner link.now)))
            self.new };

    /// What a read of one byte from a link would find now.
    fn peek(&mut self, link: &Self::Link) -> io::Result<Look>
        ensures { step self.old (told result (λ _. call.Poll (Self.Link.owner link.now)))
            self.new };

    /// Whether a link that takes nothing now takes something within a second, or has gone by then.
    fn takes_soon(&mut self, link: &Self::Link) -> io::Result<bool>
        ensures { step self.old (told result (λ _. call.Poll (Self.Link.owner link.now)))
            self.new };
}
