//! A system in memory, which answers by a list.

ghost use Rattle.std.specs.Prelude.{◌≡◌, [], true, Some, IsErr};
ghost use Rattle.live_tests.specs.Listed.{Follows};

use crate::call::Listed;
use acts::{Id, LogMode};
use live::{Look, Owned, System};
use std::alloc::Global;
use std::io::{self, ErrorKind};
use std::time::{Duration, Instant};

/// A system whose calls and answers are listed. It strays at the first call that is not the one
/// that is listed next, and says so.
#[derive(Drop)]
pub struct Script<'a> {
    alloc: Global,
    start: Instant,
    /// The calls that are still to come, the last one first.
    left: Vec<Listed<'a>>,
    strayed: bool,
}

/// A link, or a program, of an id: the system knows no more of it.
#[derive(Drop)]
pub struct Named {
    id: Id,
}

impl Owned for Named {
    ghost owner = { λ named. named.id };

    fn id(&self) -> Id {
        self.id
    }
}

impl<'a> Script<'a> {
    /// A system to which these calls are to come, the last one first.
    pub fn new(alloc: Global, start: Instant, left: Vec<Listed<'a>>) -> Script<'a> {
        Script {
            alloc,
            start,
            left,
            strayed: false,
        }
    }

    /// Whether each call was the one that was listed.
    pub fn is_followed(&self) -> bool {
        !self.strayed
    }

    /// How many calls have not come.
    pub fn missing(&self) -> usize {
        self.left.len()
    }

    /// Notes that another call came than the one that is listed.
    fn stray<T>(&mut self) -> io::Result<T>
        ensures left { self.new.left ≡ self.old.left }
        ensures strayed { self.new.strayed ≡ true }
        ensures refused { IsErr result }
    {
        self.strayed = true;
        Err(io::Error::from(ErrorKind::Other))
    }
}

impl System for Script<'_> {
    type Command = Named;

    type Link = Named;

    type Program = Named;

    type Log = Vec<u8>;

    // Exactly the listed calls are made, in their order, unless the system has strayed.
    ghost step = { λ before call after. Follows before.start before.left.items call after.strayed
        after.left.items };

    // Each file is empty.
    ghost holds = { λ _ _. Some [] };

    fn alloc(&self) -> Global {
        self.alloc
    }

    fn command(&mut self, name: &str) -> io::Result<Named> {
        match self.left.pop() {
            Some(Listed::Command(wanted)) if wanted == name.as_bytes() => {
                Ok(Named { id: Id(0) })
            }
            Some(Listed::Refused(kind)) => Err(io::Error::from(kind)),
            _ => self.stray(),
        }
    }

    fn arg(&mut self, _command: &mut Named, word: &str) -> io::Result<()> {
        match self.left.pop() {
            Some(Listed::Arg(wanted)) if wanted == word.as_bytes() => Ok(()),
            Some(Listed::Refused(kind)) => Err(io::Error::from(kind)),
            _ => self.stray(),
        }
    }

    fn pipes(&mut self, id: Id, _command: &mut Named) -> io::Result<Named> {
        match self.left.pop() {
            Some(Listed::Pipes(wanted)) if wanted == id => Ok(Named { id }),
            Some(Listed::Refused(kind)) => Err(io::Error::from(kind)),
            _ => self.stray(),
        }
    }

    fn start(&mut self, id: Id, _command: &mut Named) -> io::Result<(Named, u64)> {
        match self.left.pop() {
            Some(Listed::Start(wanted, number)) if wanted == id => Ok((Named { id }, number)),
            Some(Listed::Refused(kind)) => Err(io::Error::from(kind)),
            _ => self.stray(),
        }
    }

    fn wait(&mut self, program: &mut Named) -> io::Result<Option<i32>> {
        match self.left.pop() {
            Some(Listed::Wait(wanted, code)) if wanted == program.id => Ok(code),
            Some(Listed::Refused(kind)) => Err(io::Error::from(kind)),
            _ => self.stray(),
        }
    }

    fn connect(&mut self, id: Id, host: &str, port: u16) -> io::Result<Named> {
        match self.left.pop() {
            Some(Listed::Connect(of, named, at))
                if of == id && named == host.as_bytes() && at == port => { Ok(Named { id }) }
            Some(Listed::Refused(kind)) => Err(io::Error::from(kind)),
            _ => self.stray(),
        }
    }

    fn open_log(&mut self, name: &str, mode: LogMode) -> io::Result<Vec<u8>> {
        match self.left.pop() {
            Some(Listed::OpenLog(wanted, how)) if wanted == name.as_bytes() && how == mode => {
                Ok(Vec::new(self.alloc))
            }
            Some(Listed::Refused(kind)) => Err(io::Error::from(kind)),
            _ => self.stray(),
        }
    }

    fn read(&mut self, link: &mut Named, room: &mut [u8]) -> io::Result<usize> {
        match self.left.pop() {
            Some(Listed::Read(id, bytes)) if id == link.id && bytes.len() <= room.len() => {
                room[..bytes.len()].copy_from_slice(bytes);
                Ok(bytes.len())
            }
            Some(Listed::Unread(id, kind)) if id == link.id => Err(io::Error::from(kind)),
            _ => self.stray(),
        }
    }

    fn write(&mut self, link: &mut Named, text: &[u8]) -> io::Result<usize> {
        match self.left.pop() {
            Some(Listed::Write(id, bytes)) if id == link.id && text.starts_with(bytes) => {
                Ok(bytes.len())
            }
            Some(Listed::Unwritten(id, kind)) if id == link.id => Err(io::Error::from(kind)),
            _ => self.stray(),
        }
    }

    fn now(&mut self) -> io::Result<Instant> {
        match self.left.pop() {
            Some(Listed::Now(time)) => match self.start.checked_add(time) {
                Some(shown) => Ok(shown),
                None => self.stray(),
            },
            Some(Listed::Refused(kind)) => Err(io::Error::from(kind)),
            _ => self.stray(),
        }
    }

    fn sleep(&mut self, seconds: u64) {
        match self.left.pop() {
            Some(Listed::Sleep(wanted)) if wanted == seconds => {}
            _ => self.strayed = true,
        }
    }

    fn watch(&mut self, link: &Named) -> io::Result<()> {
        match self.left.pop() {
            Some(Listed::Watch(id)) if id == link.id => Ok(()),
            Some(Listed::Refused(kind)) => Err(io::Error::from(kind)),
            _ => self.stray(),
        }
    }

    fn pause(&mut self, time: Option<Duration>) -> io::Result<()> {
        match self.left.pop() {
            Some(Listed::Pause(wanted)) if wanted == time => Ok(()),
            Some(Listed::Refused(kind)) => Err(io::Error::from(kind)),
            _ => self.stray(),
        }
    }

    fn pause_to_write(&mut self, link: &Named, _found: Look) -> io::Result<()> {
        match self.left.pop() {
            Some(Listed::Await(id)) if id == link.id => Ok(()),
            Some(Listed::Refused(kind)) => Err(io::Error::from(kind)),
            _ => self.stray(),
        }
    }

    fn peek(&mut self, link: &Named) -> io::Result<Look> {
        match self.left.pop() {
            Some(Listed::Peek(id, found)) if id == link.id => Ok(found),
            Some(Listed::Refused(kind)) => Err(io::Error::from(kind)),
            _ => self.stray(),
        }
    }

    fn takes_soon(&mut self, link: &Named) -> io::Result<bool> {
        match self.left.pop() {
            Some(Listed::Soon(id, is_taken)) if id == link.id => Ok(is_taken),
            Some(Listed::Refused(kind)) => Err(io::Error::from(kind)),
            _ => self.stray(),
        }
    }
}
